//! Scripts of a few wishes and seeds, each read back from its text and run.

use ballots::Members;
use flow_state::{Channel, FlowKind, LAST_TIME, Phy};
use grant_machine::Command;
use made_scripts::{Wishes, made_script};
use network_script::World;
use printed_scripts::script_text;
use script_counts::{crashes, offers_all, takeovers};
use script_text::{Script, read_script};
use seats::{Answer, OutOfMemory, PlainNode, ReleasedOutput, new_modems, plain_nodes};
use std::alloc::Global;
use std::process::Abort;
use std::test::Fail;
use world_events::Event;

const CHANNEL: Command = Command::Channel(Channel {
    id: 1,
    ucd: 7,
    phy: Phy::Tdma,
    short_max: 16,
    ranging_backoff: (2, 5),
    data_backoff: (3, 8),
    base: 1000,
});

const FLOW: Command = Command::Flow {
    ch: 1,
    modem: 50,
    tag: 1,
    last: LAST_TIME,
    kind: FlowKind::BestEffort(0),
};

const CUT: Command = Command::Cut {
    ch: 1,
    len: 100,
    not_before: 0,
    ack: 0,
    keep: 0,
    ranging: (255, 255),
    data: (255, 255),
};

static PLAN: [Command; 6] = [CHANNEL, FLOW, CUT, Command::Noop, CUT, CUT];

const NOTHING_LOST: Wishes<'static> = Wishes {
    members: Members::Three,
    modems: &[50],
    seed: 0,
    lose: 0,
    repeat: 20,
    crashes: 0,
    takeovers: 0,
};

static WISHES: [(Wishes<'static>, bool); 4] = [
    (NOTHING_LOST, true),
    (
        Wishes {
            members: Members::Five,
            takeovers: 5,
            ..NOTHING_LOST
        },
        true,
    ),
    (
        Wishes {
            lose: 30,
            crashes: 3,
            takeovers: 2,
            ..NOTHING_LOST
        },
        false,
    ),
    (
        Wishes {
            members: Members::Five,
            lose: 100,
            repeat: 100,
            crashes: 7,
            takeovers: 1,
            ..NOTHING_LOST
        },
        false,
    ),
];

/// How many outputs node k released.
fn released_by(outputs: &[ReleasedOutput], k: usize) -> usize {
    outputs.iter().filter(|output| output.node == k).count()
}

/// Whether each of so many nodes released the whole plan.
fn is_whole(outputs: &[ReleasedOutput], members: Members) -> bool {
    for k in 0..members.count() {
        if released_by(outputs, usize::from(k)) != PLAN.len() {
            return false;
        }
    }
    true
}

/// Whether a run reports what was wished.
fn is_as_wished(
    alloc: Global,
    wishes: &Wishes<'_>,
    events: &[Event],
    answers: &[Answer],
) -> Result<bool, OutOfMemory> {
    if crashes(events, answers) != wishes.crashes as usize {
        return Ok(false);
    }
    if takeovers(events, answers) != wishes.takeovers as usize {
        return Ok(false);
    }
    Ok(offers_all(alloc, &PLAN, events, answers)?)
}

/// The script that is made of these wishes, read back from its text.
fn read_back(alloc: Global, wishes: &Wishes<'_>) -> Result<Script, Fail> {
    let made = made_script(alloc, &PLAN, wishes)?;
    let text = script_text(alloc, &made)?;
    Ok(read_script(alloc, text.as_str())?)
}

/// The fresh nodes and modems of a script.
fn opened(alloc: Global, script: &Script) -> Result<World<PlainNode>, OutOfMemory> {
    let nodes = plain_nodes(alloc, script.members)?;
    let modems = new_modems(alloc, script.modems.as_slice())?;
    World::new(alloc, nodes, modems)
}

/// Whether a run of the script reports what was wished, and whether each node releases the whole
/// plan.
fn comes_out(
    alloc: Global,
    wishes: &Wishes<'_>,
    script: &Script,
) -> Result<(bool, bool), OutOfMemory> {
    let mut world = opened(alloc, script)?;
    let events = script.events.as_slice();
    let report = world.run(events)?;
    let is_wished = is_as_wished(alloc, wishes, events, report.answers())?;
    Ok((is_wished, is_whole(world.outputs(), wishes.members)))
}

/// Scripts of four seeds come out as wished.
fn come_out(
    rt: &impl Abort,
    alloc: Global,
    wishes: &Wishes<'_>,
    loses_nothing: bool,
) -> Result<(), Fail> {
    for seed in 0..4 {
        let wishes = Wishes { seed, ..*wishes };
        let script = read_back(alloc, &wishes)?;
        let (is_wished, is_whole) = comes_out(alloc, &wishes, &script)?;
        assert!(rt; is_wished);
        assert!(rt; is_whole || !loses_nothing);
    }
    Ok(())
}

#[test]
fn made_scripts_come_out_as_wished(rt: HostRuntime) -> Result<(), Fail> {
    for (wishes, loses_nothing) in &WISHES {
        come_out(&rt, rt.alloc(), wishes, *loses_nothing)?;
    }
    Ok(())
}
