//! A text is read back as a script, and the script is run.

ghost use Rattle.std.specs.Prelude.{◌≡◌, IfOk, IsTrue};
ghost use Rattle.ballots.specs.Members.{member_count};
ghost use Rattle.network_script.specs.Next.{Run};
ghost use Rattle.network_script.specs.World.{Written};
ghost use Rattle.upsched_script.specs.Scripts.{IsAsAsked, IsWrittenSo, RunsAsAsked};

use grant_machine::Command;
use made_scripts::Wishes;
use network_script::World;
use printed_scripts::script_text;
use script_counts::{crashes, offers_all, takeovers};
use script_text::{Script, read_script};
use seats::{Report, new_modems, plain_nodes};
use std::alloc::Global;
use upsched_ends::Fault;

/// What a run of the script over nodes with records in memory reports.
fn report_of<'a>(alloc: Global, script: &Script) -> Result<Report, Fault<'a>>
    ensures { IfOk result (λ report. (world : Written)
        × Run (member_count script.now.members) script.now.modems.items script.now.events.items report world) }
{
    let Ok(nodes) = plain_nodes(alloc, script.members) else {
        return Err(Fault::Memory);
    };
    let Ok(modems) = new_modems(alloc, script.modems.as_slice()) else {
        return Err(Fault::Memory);
    };
    let Ok(mut world) = World::new(alloc, nodes, modems) else {
        return Err(Fault::Memory);
    };
    let Ok(report) = world.run(script.events.as_slice()) else {
        return Err(Fault::Memory);
    };
    Ok(report)
}

/// Whether a report with so many crashes and takeovers, which offers all commands or doesn't, is as wished.
fn is_wished(offers: bool, crashed: usize, overtaken: usize, wishes: &Wishes<'_>) -> bool
    ensures { IsTrue result → IsTrue offers × (crashed ≡ wishes.now.crashes) × (overtaken ≡ wishes.now.takeovers) }
{
    offers && crashed == wishes.crashes as usize && overtaken == wishes.takeovers as usize
}

/// Whether a run of the script is as asked.
fn runs_as_asked<'a>(
    alloc: Global,
    commands: &[Command],
    wishes: &Wishes<'_>,
    script: &Script,
) -> Result<bool, Fault<'a>>
    ensures { IfOk result (λ is. IsTrue is → RunsAsAsked commands.now script.now.members script.now.modems.items wishes.now.crashes wishes.now.takeovers
        script.now.events.items) }
{
    let report = report_of(alloc, script)?;
    let events = script.events.as_slice();
    let answers = report.answers();
    let Ok(offers) = offers_all(alloc, commands, events, answers) else {
        return Err(Fault::Memory);
    };
    let crashed = crashes(events, answers);
    let overtaken = takeovers(events, answers);
    Ok(is_wished(offers, crashed, overtaken, wishes))
}

/// Whether the script has the members and modems that are wished for, and its text is this one.
fn is_same(script: &Script, wishes: &Wishes<'_>, written: &str, text: &str) -> bool
    ensures { IsTrue result → (script.now.members ≡ wishes.now.members) × (script.now.modems.items ≡ wishes.now.modems.now) × (written.now ≡ text.now) }
{
    script.members == wishes.members && script.modems.as_slice() == wishes.modems && written == text
}

/// Whether the script has the members and modems that are wished for, and is written so.
fn is_written_so<'a>(
    alloc: Global,
    wishes: &Wishes<'_>,
    script: &Script,
    text: &str,
) -> Result<bool, Fault<'a>>
    ensures { IfOk result (λ is. IsTrue is
        → IsWrittenSo script.now.members script.now.modems.items script.now.events.items wishes.now.members wishes.now.modems.now text.now) }
{
    let Ok(written) = script_text(alloc, script) else {
        return Err(Fault::Memory);
    };
    Ok(is_same(script, wishes, written.as_str(), text))
}

/// Whether the text is a script as asked: it is read back, and run.
pub fn is_as_asked<'a>(
    alloc: Global,
    commands: &[Command],
    wishes: &Wishes<'_>,
    text: &str,
) -> Result<bool, Fault<'a>>
    ensures { IfOk result (λ is. IsTrue is → IsAsAsked commands.now wishes.now.members wishes.now.modems.now wishes.now.crashes wishes.now.takeovers text.now) }
{
    let script = match read_script(alloc, text) {
        Ok(script) => script,
        Err(fault) => return Err(Fault::Script(fault)),
    };
    if !is_written_so(alloc, wishes, &script, text)? {
        return Ok(false);
    }
    runs_as_asked(alloc, commands, wishes, &script)
}
