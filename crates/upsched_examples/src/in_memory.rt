//! A script over nodes that keep their records in tables in memory.

use crate::run::Run;
use sqlite::Files as Pair;
use sqlite_disk::Memory;
use std::alloc::{AllocError, Global};
use std::io::{Read, Write};
use std::{fs, io};
use upsched_ends::{Fault, Status};
use upsched_store::{Telling, Trace, print_over, steps_of};

/// An empty database and its log in memory, so many times.
fn pairs_in_memory(alloc: Global, count: u8) -> Result<Vec<Pair<Memory>>, AllocError> {
    let mut pairs = Vec::new(alloc);
    for _ in 0..count {
        pairs.push(Pair {
            log: Memory::new(alloc),
            db: Memory::new(alloc),
        })?;
    }
    Ok(pairs)
}

/// Prints what a script does to nodes that keep their records in tables in memory.
fn print_in_memory<'a, F: Read, O: Write>(
    rt: &HostRuntime,
    script: &mut F,
    path: &'a str,
    output: &mut O,
) -> Result<(), Fault<'a>> {
    let script = steps_of(rt.alloc(), script, path)?;
    let Ok(pairs) = pairs_in_memory(rt.alloc(), script.members.count()) else {
        return Err(Fault::Memory);
    };
    let telling = Telling {
        verbose: false,
        trace: Trace::Off,
    };
    print_over(rt, pairs, script, telling, output)
}

/// What the script of a path does to such nodes.
pub fn run_in_memory(rt: &HostRuntime, path: &str) -> io::Result<Run> {
    let mut script = fs::open(rt, path)?;
    let mut output = Vec::new(rt.alloc());
    let mut errors = Vec::new(rt.alloc());
    let status = match print_in_memory(rt, &mut script, path, &mut output) {
        Ok(()) => Status::Done,
        Err(fault) => fault.told(&mut errors),
    };
    Ok(Run {
        status,
        output,
        errors,
    })
}
