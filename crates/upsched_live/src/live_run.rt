//! `upsched live PLAN`: a plan's commands, worked on by three nodes with a thread each.

ghost use Rattle.std.specs.Prelude.{◌≡◌, ◌≢◌, ◌⊎◌, Ok, IfErr, IfOk, IsOk};
ghost use Rattle.std.specs.Io.KnownBytes.{Appends};
ghost use Rattle.upsched_ends.specs.declared.status.Status.TheVariants.{Done, NotUnderstood};
ghost use Rattle.upsched_ends.specs.declared.fault.Fault.TheVariants.{Output, Unreadable};
ghost use Rattle.upsched_ends.specs.Faults.{StopsPrint};
ghost use Rattle.script_text.specs.Plan.{NoPlan};
ghost use Rattle.upsched_ends.specs.Faults.{TellsPlanFault};
ghost use Rattle.upsched_live.specs.Audited.{IsAudited};
ghost use Rattle.upsched_live.specs.Verdict.{verdict_line};
ghost use Rattle.upsched_live.specs.declared.live_run.Audited.{Audited as Found};

use crate::cluster::live_cluster;
use crate::driver::LiveCarrier;
use crate::verdict::{print_audit, status_of};
use log::{Log, info};
use node::Node;
use node_worker::{Kept, Plant, Record, Torn};
use seats::PlainNode;
use std::io::{Read, Write};
use std::sync::Wait;
use std::thread::Threads;
use std::time::Clock;
use upsched_ends::{Fault, LiveWords, Status, plan_of};

/// How many of the first places a node has learned.
fn learned_count<N: Node>(node: &N, places: usize) -> usize {
    let mut count = 0usize;
    for place in 0..places {
        if node.learned(place as u64 + 1).is_some() {
            count += 1;
        }
    }
    count
}

/// Logs of each node how much of it is recorded, and how many of the first places it has learned.
fn tell_of<R: Log, N: Node>(rt: &R, kepts: &[Kept<N>], records: &[Record], places: usize) {
    if records.is_empty() {
        info!(rt; "nothing to audit: no node has a record");
    }
    for kept in kepts {
        let node = kept.id();
        let recorded = records.iter().filter(|record| record.node == node).count();
        let learned = learned_count(kept.node(), places);
        info!(rt; "node {}: {recorded} records, {learned} of {places} places learned", node.number());
    }
}

/// What came of a plan that nodes worked on, and what its audit found.
#[derive(Drop)]
pub struct Audited {
    pub kepts: Vec<Kept<PlainNode>>,
    pub carriers: Vec<LiveCarrier>,
    pub plant: Plant<PlainNode>,
    pub verdict: Result<(), Torn>,
}

/// Has three nodes with a thread and so many turns each work on a plan's commands, audits what they did and what was
/// recorded of it, and prints the line of that. A fault of the plan is found before anything happens. With `verbose` it
/// also logs how much each node recorded and learned. How much that is isn't promised; with no turn, or where no
/// carrier found anything to do, there is nothing to audit, and the line is the same. Its fault is want of memory or of
/// a thread, a write that failed, that the plan's file can't be read, or why the text is no plan.
pub fn live_audited<'a, R: Log, T: Threads + Wait + Clock + Sync + AllocGlobal, F: Read, O: Write>(
    rt: &R,
    threads: &T,
    plan: &mut F,
    words: &LiveWords<'a>,
    output: &mut O,
) -> Result<Audited, Fault<'a>>
    ensures audited { IfOk result (λ a. IsAudited words.now.turns a (O.contents output.old) (O.contents output.new)) }
    ensures no_plan { NoPlan (F.remaining plan.old) → output.new ≡ output.old }
    ensures fault { IfErr result (λ fault. StopsPrint fault ⊎ (fault ≡ Unreadable words.now.plan) ⊎ TellsPlanFault (F.remaining plan.old) fault) }
    ensures no_plan_fault { NoPlan (F.remaining plan.old) → IfErr result (λ fault. fault ≢ Output) }
{
    let commands = plan_of(threads.alloc(), plan, words.plan)?;
    let Ok((kepts, carriers, plant)) = live_cluster(threads, commands.as_slice(), words.turns)
    else {
        return Err(Fault::Memory);
    };
    if words.verbose {
        tell_of(rt, kepts.as_slice(), plant.records(), commands.len());
    }
    let verdict = print_audit(kepts.as_slice(), plant.records(), output)?;
    Ok(Audited {
        kepts,
        carriers,
        plant,
        verdict,
    })
}

/// `live_audited` as a command: prints `audit yes` where each record of each node is there in its order, else
/// `audit torn I` by the number of the first record that isn't. A fault of the plan is told in one line; so is want of
/// memory or of a thread. Threads are made, and waited for, by `threads`.
pub fn live<R: Log, T: Threads + Wait + Clock + Sync + AllocGlobal, F: Read, O: Write, E: Write>(
    rt: &R,
    threads: &T,
    plan: &mut F,
    words: &LiveWords<'_>,
    output: &mut O,
    errors: &mut E,
) -> Status
    ensures audited { result ≡ Done → (a : Found) × IsAudited words.now.turns a (O.contents output.old) (O.contents output.new) × IsOk a.verdict }
    ensures printed { result ≡ Done → Appends (O.contents output.old) (O.contents output.new) (verdict_line (Ok tt)) }
    ensures quiet { result ≡ Done → errors.new ≡ errors.old }
    ensures no_plan { NoPlan (F.remaining plan.old) → output.new ≡ output.old }
    ensures understood { result ≢ NotUnderstood }
{
    match live_audited(rt, threads, plan, words, output) {
        Ok(audited) => status_of(audited.verdict),
        Err(fault) => fault.told(errors),
    }
}
