//! Whether what the nodes did was recorded, as a printed line.

ghost use Rattle.std.specs.Prelude.{◌≡◌, ◌↔◌, IfOk, IsOk, OnOk, length, [], IfErr};
ghost use Rattle.std.specs.Io.KnownBytes.{Appends};
ghost use Rattle.node_worker.specs.Audits.{IsCluster, IsWhole};
ghost use Rattle.node_worker.specs.Runs.{AreLegal};
ghost use Rattle.upsched_live.specs.Verdict.{verdict_line, verdict_status};
ghost use Rattle.upsched_ends.specs.Faults.{StopsPrint};

use node::Node;
use node_worker::{Kept, Record, Torn, audit};
use std::io;
use std::io::Write;
use upsched_ends::{Fault, Status};

// Writes the line of what an audit found.
fn write_verdict<O: Write>(verdict: Result<(), Torn>, output: &mut O) -> io::Result<()>
    ensures { OnOk result (Appends (O.contents output.old) (O.contents output.new) (verdict_line verdict)) }
{
    match verdict {
        Ok(()) => writeln!(output, "audit yes"),
        Err(Torn(number)) => writeln!(output, "audit torn {number}"),
    }
}

/// Prints the line of what an audit found, and all that was printed goes out.
pub fn print_verdict<'a, O: Write>(
    verdict: Result<(), Torn>,
    output: &mut O,
) -> Result<(), Fault<'a>>
    ensures printed { OnOk result (Appends (O.contents output.old) (O.contents output.new) (verdict_line verdict)) }
    ensures fault { IfErr result StopsPrint }
{
    if write_verdict(verdict, output).is_err() {
        return Err(Fault::Output);
    }
    match output.flush() {
        Ok(()) => Ok(()),
        Err(_) => Err(Fault::Output),
    }
}

/// How the program ends where an audit found this.
pub fn status_of(verdict: Result<(), Torn>) -> Status
    ensures { result ≡ verdict_status verdict }
{
    match verdict {
        Ok(()) => Status::Done,
        Err(_) => Status::Faulted,
    }
}

/// Audits what nodes did and what was recorded of it, prints the line of that and gives it.
pub fn print_audit<'a, N: Node, O: Write>(
    kepts: &[Kept<N>],
    records: &[Record],
    output: &mut O,
) -> Result<Result<(), Torn>, Fault<'a>>
    ensures printed { IfOk result (λ verdict. Appends (O.contents output.old) (O.contents output.new) (verdict_line verdict)) }
    ensures whole { IfOk result (λ verdict. IsOk verdict ↔ IsWhole kepts.now records.now) }
    ensures legal { IfOk result (λ verdict. IsOk verdict → IsCluster kepts.now → AreLegal (length kepts.now) records.now []) }
    ensures fault { IfErr result StopsPrint }
{
    let verdict = audit(kepts, records);
    print_verdict(verdict, output)?;
    Ok(verdict)
}
