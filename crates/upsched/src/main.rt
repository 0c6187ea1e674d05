//! The program: `upsched_commands` does what its words say.
#![tactic(auto)]

use std::io::BufWriter;
use std::process::ExitCode;
use upsched_commands::run;
use upsched_ends::Fault;

fn main(rt: HostRuntime) -> ExitCode {
    let mut errors = rt.stderr();
    let status = match BufWriter::new(rt.alloc(), rt.stdout()) {
        Ok(mut output) => run(&rt, &rt, rt.stdin(), &mut output, &mut errors),
        Err(_) => Fault::Memory.told(&mut errors),
    };
    ExitCode::from(status.code())
}
