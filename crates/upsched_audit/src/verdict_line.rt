//! What an audit found, as printed lines.

ghost use Rattle.std.specs.Prelude.{◌≡◌, OnOk, IfErr};
ghost use Rattle.std.specs.Io.KnownBytes.{Appends};
ghost use Rattle.upsched_audit.specs.Audits.{audit_lines, counts_line, counts_lines, path_of, torn_line};
ghost use Rattle.upsched_audit.specs.Audits.{verdict_lines, verdict_status, why_line};
ghost use Rattle.node_journal.specs.declared.audits.Verdict.TheVariants.{Torn};
ghost use Rattle.node_journal.specs.declared.tear.Why.TheVariants.{NoLine, OtherReply, Unsent};
ghost use Rattle.upsched_ends.specs.Faults.{StopsPrint};

use ballots::Bytes;
use node_journal::{Tear, Verdict, Why, counts_of};
use std::io;
use std::io::Write;
use upsched_ends::{Fault, Status};

/// The path of a node's journal.
fn path_of<'a>(paths: &[&'a str], node: usize) -> &'a str
    ensures { result.now ≡ path_of paths.now node }
{
    match paths.get(node) {
        Some(path) => *path,
        None => "",
    }
}

fn write_unsent<O: Write>(paths: &[&str], tear: &Tear, node: u8, output: &mut O) -> io::Result<()>
    ensures { OnOk result (Appends (O.contents output.old) (O.contents output.new) (why_line paths.now record tear.now { why = Unsent node })) }
{
    let path = path_of(paths, tear.journal);
    let other = path_of(paths, usize::from(node));
    let line = tear.line;
    writeln!(
        output,
        "{path}: line {line}: a letter of node {node} that {other} doesn't send"
    )
}

fn write_other_reply<O: Write>(paths: &[&str], tear: &Tear, output: &mut O) -> io::Result<()>
    ensures { OnOk result (Appends (O.contents output.old) (O.contents output.new) (why_line paths.now record tear.now { why = OtherReply })) }
{
    let path = path_of(paths, tear.journal);
    let line = tear.line;
    writeln!(
        output,
        "{path}: line {line}: the reply isn't what this line gives"
    )
}

fn write_no_line<O: Write>(paths: &[&str], tear: &Tear, output: &mut O) -> io::Result<()>
    ensures { OnOk result (Appends (O.contents output.old) (O.contents output.new) (why_line paths.now record tear.now { why = NoLine })) }
{
    let path = path_of(paths, tear.journal);
    let line = tear.line;
    writeln!(output, "{path}: line {line}: no line of a journal")
}

fn write_why<O: Write>(paths: &[&str], tear: &Tear, output: &mut O) -> io::Result<()>
    ensures { OnOk result (Appends (O.contents output.old) (O.contents output.new) (why_line paths.now tear.now)) }
{
    if let Some(node) = tear.why.sender() {
        return write_unsent(paths, tear, node, output);
    }
    match tear.why {
        Why::OtherReply => write_other_reply(paths, tear, output),
        _ => write_no_line(paths, tear, output),
    }
}

fn write_torn_line<O: Write>(tear: &Tear, output: &mut O) -> io::Result<()>
    ensures { OnOk result (Appends (O.contents output.old) (O.contents output.new) (torn_line tear.now)) }
{
    let journal = tear.journal;
    let line = tear.line;
    writeln!(output, "audit torn {journal} {line}")
}

fn write_torn<O: Write>(paths: &[&str], tear: &Tear, output: &mut O) -> io::Result<()>
    ensures { OnOk result (Appends (O.contents output.old) (O.contents output.new) (verdict_lines paths.now (Torn tear.now))) }
{
    write_torn_line(tear, output)?;
    write_why(paths, tear, output)
}

fn write_verdict<O: Write>(paths: &[&str], verdict: &Verdict, output: &mut O) -> io::Result<()>
    ensures { OnOk result (Appends (O.contents output.old) (O.contents output.new) (verdict_lines paths.now verdict.now)) }
{
    match verdict {
        Verdict::Yes => writeln!(output, "audit yes"),
        Verdict::Torn(tear) => write_torn(paths, tear, output),
    }
}

fn write_counts_line<O: Write>(node: usize, journal: &[u8], output: &mut O) -> io::Result<()>
    ensures { OnOk result (Appends (O.contents output.old) (O.contents output.new) (counts_line node journal.now)) }
{
    let counts = counts_of(journal);
    let lives = counts.lives;
    let lines = counts.lines;
    writeln!(output, "journal {node} lives {lives} lines {lines}")
}

fn write_counts<O: Write>(journals: &[Bytes], output: &mut O) -> io::Result<()>
    ensures { OnOk result (Appends (O.contents output.old) (O.contents output.new) (counts_lines 0 journals.now)) }
{
    for node in 0..journals.len() {
        write_counts_line(node, journals[node].as_slice(), output)?;
    }
    Ok(())
}

/// Writes the lines of what an audit found, and the counts where they are asked for.
fn write_audit<O: Write>(
    paths: &[&str],
    counts: bool,
    journals: &[Bytes],
    verdict: &Verdict,
    output: &mut O,
) -> io::Result<()>
    ensures { OnOk result (Appends (O.contents output.old) (O.contents output.new) (audit_lines paths.now counts journals.now verdict.now)) }
{
    write_verdict(paths, verdict, output)?;
    if counts {
        write_counts(journals, output)?;
    }
    Ok(())
}

/// Prints the lines of what an audit found, and the counts where they are asked for. All that was printed goes out.
pub(crate) fn print_verdict<'a, O: Write>(
    paths: &[&str],
    counts: bool,
    journals: &[Bytes],
    verdict: &Verdict,
    output: &mut O,
) -> Result<(), Fault<'a>>
    ensures printed { OnOk result (Appends (O.contents output.old) (O.contents output.new) (audit_lines paths.now counts journals.now verdict.now)) }
    ensures fault { IfErr result StopsPrint }
{
    if write_audit(paths, counts, journals, verdict, output).is_err() {
        return Err(Fault::Output);
    }
    match output.flush() {
        Ok(()) => Ok(()),
        Err(_) => Err(Fault::Output),
    }
}

/// How the program ends where an audit found this.
pub(crate) fn status_of(verdict: Verdict) -> Status
    ensures { result ≡ verdict_status verdict }
{
    match verdict {
        Verdict::Yes => Status::Done,
        Verdict::Torn(_) => Status::Faulted,
    }
}
