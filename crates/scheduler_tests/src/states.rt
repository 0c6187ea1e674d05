//! States of hosts as bytes, that were written and are read, cut and changed.

use flow_state::{Channel, Phy};
use grant_machine::{Command, Machine};
use host_states::{StateFault, StateHead, read_state, state_bytes};
use std::alloc::{AllocError, Global};
use std::test::Fail;

const HEAD: StateHead = StateHead {
    epoch: 3,
    places: 5,
    before: 10,
    id: 1,
    members: 3,
};

const CHANNEL: Channel = Channel {
    id: 1,
    ucd: 7,
    phy: Phy::Advanced,
    short_max: 16,
    ranging_backoff: (2, 5),
    data_backoff: (3, 8),
    base: 1000,
};

/// A state whose scheduler has one channel and nothing else: its line, its numbers, the tables, and the sum, which
/// Python's hashlib gives too.
const STATE: [u8; 90] = [
    117, 112, 115, 99, 104, 101, 100, 32, 115, 116, 97, 116, 101, 32, 49, 10, 0, 0, 0, 0, 0, 0, 0,
    3, 0, 0, 0, 0, 0, 0, 0, 5, 0, 0, 0, 0, 0, 0, 0, 10, 1, 3, 0, 1, 6, 1, 7, 0, 16, 2, 5, 3, 8, 0,
    0, 0, 0, 0, 0, 3, 232, 0, 0, 0, 0, 0, 0, 3, 232, 0, 0, 0, 0, 0, 0, 0, 0, 0, 0, 0, 0, 0, 205,
    71, 149, 216, 125, 65, 122, 56,
];

fn bytes_of(alloc: Global) -> Result<Vec<u8>, AllocError> {
    let mut machine = Machine::new(alloc);
    machine.apply(&Command::Channel(CHANNEL))?;
    state_bytes(alloc, &HEAD, &machine)
}

fn fault_of(alloc: Global, bytes: &[u8]) -> Option<StateFault> {
    match read_state(alloc, bytes) {
        Ok(_) => None,
        Err(fault) => Some(fault),
    }
}

/// The head of the state, and the bytes of the state that is read.
fn read_back(alloc: Global) -> Result<(StateHead, Vec<u8>), Fail> {
    let (head, machine) = read_state(alloc, STATE.as_slice())?;
    let bytes = state_bytes(alloc, &head, &machine)?;
    Ok((head, bytes))
}

#[test]
fn states_to_bytes_and_back(rt: HostRuntime) -> Result<(), Fail> {
    let bytes = bytes_of(rt.alloc())?;
    assert!(rt; bytes.as_slice() == STATE.as_slice());
    let (head, again) = read_back(rt.alloc())?;
    assert!(rt; head == HEAD);
    assert!(rt; again.as_slice() == STATE.as_slice());
    Ok(())
}

/// Bytes that are cut anywhere: within the line they begin no state, and behind it they are not whole.
#[test]
fn states_that_are_cut(rt: HostRuntime) -> Result<(), Fail> {
    let alloc = rt.alloc();
    for len in 0..STATE.len() {
        let wanted = if len < 16 {
            StateFault::NoState
        } else {
            StateFault::NotWhole
        };
        assert!(rt; fault_of(alloc, &STATE[..len]) == Some(wanted));
    }
    Ok(())
}

/// A byte that is changed, anywhere.
#[test]
fn states_that_are_changed(rt: HostRuntime) -> Result<(), Fail> {
    let alloc = rt.alloc();
    for at in 0..STATE.len() {
        let mut changed = STATE;
        changed[at] ^= 1;
        let wanted = if at < 16 {
            StateFault::NoState
        } else {
            StateFault::NotWhole
        };
        assert!(rt; fault_of(alloc, changed.as_slice()) == Some(wanted));
    }
    Ok(())
}
