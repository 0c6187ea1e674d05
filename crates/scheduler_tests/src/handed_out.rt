use command_log::read_command;
use epochs::Scheduler;
use grant_machine::{Machine, Output, again};
use map_release::Numbered;
use std::alloc::Global;
use std::test::Fail;

/// A channel from minislot 1000 on, a best-effort flow, a request for 16 minislots, a cut of 100, and bytes that spell
/// no command; then a cut of 10, which ends at 1110, and a noop.
const VALUES: [&[u8]; 7] = [
    &[1, 1, 7, 0, 16, 2, 5, 3, 8, 0, 0, 0, 0, 0, 0, 3, 232],
    &[2, 1, 0, 0, 0, 50, 0, 0, 0, 1, 0, 3],
    &[4, 1, 0, 1, 0, 16, 0, 0, 0, 0, 0, 0, 3, 222],
    &[
        5, 1, 0, 100, 0, 0, 0, 0, 0, 0, 0, 0, 0, 0, 0, 0, 0, 0, 3, 227,
    ],
    &[255, 1],
    &[
        5, 1, 0, 10, 0, 0, 0, 0, 0, 0, 0, 0, 0, 0, 0, 0, 0, 0, 3, 227,
    ],
    &[0],
];

/// How many values come first, when the outputs are handed out, and the numbers of those that are.
const HANDED: [(usize, u64, &[u64]); 4] = [
    (5, 1000, &[1, 2, 3, 4, 5]),
    (0, 1000, &[]),
    (1, 1109, &[6]),
    (1, 1110, &[7]),
];

fn outputs(alloc: Global) -> Result<Vec<Output>, Fail> {
    let mut machine = Machine::new(alloc);
    let mut outputs = Vec::new(alloc);
    for value in VALUES {
        let (command, _) = read_command(value);
        let output = machine.apply(&command)?;
        outputs.push(output)?;
    }
    Ok(outputs)
}

/// Applies so many more of the values.
fn apply_more(scheduler: &mut Scheduler, more: usize) -> Result<(), Fail> {
    for _ in 0..more {
        let value = VALUES.get(scheduler.applied() as usize).ok_or("a value")?;
        scheduler.apply(value)?;
    }
    Ok(())
}

/// How many of these come with the next of these numbers, from 1 on, and are the output of that number.
fn right(given: &[Numbered], numbers: &[u64], outputs: &[Output]) -> usize {
    let mut count: usize = 0;
    for (numbered, number) in given.iter().zip(numbers.iter()) {
        let Some(output) = outputs.get(number.saturating_sub(1) as usize) else {
            return count;
        };
        if numbered.place != *number || !numbered.output.is_same(output) {
            return count;
        }
        count = count.saturating_add(1);
    }
    count
}

#[test]
fn outputs_wait_until_they_are_handed_out(rt: HostRuntime) -> Result<(), Fail> {
    let outputs = outputs(rt.alloc())?;
    let mut scheduler = Scheduler::new(rt.alloc());
    for (more, now, numbers) in HANDED {
        apply_more(&mut scheduler, more)?;
        let given = scheduler.hand_out(now);
        assert_eq!(rt; given.len(), numbers.len());
        assert_eq!(rt;
            right(given.as_slice(), numbers, outputs.as_slice()),
            numbers.len()
        );
    }
    Ok(())
}
