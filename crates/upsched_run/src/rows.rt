//! Prints the rows of a run.

ghost use Rattle.std.specs.Prelude.{◌≡◌, ◌-◌, IfErr, OnOk, flat_map};
ghost use Rattle.std.specs.Io.KnownBytes.{Appends};
ghost use Rattle.upsched_ends.specs.declared.fault.Fault.TheVariants.{Output};
ghost use Rattle.upsched_ends.specs.Faults.{StopsPrint};
ghost use Rattle.upsched_run.specs.RunLines.{answer_line, counts_line, delivered_line, first_line, further_lines};
ghost use Rattle.upsched_run.specs.RunLines.{letter_answer_line, place_line, place_lines, row_lines, run_lines};
ghost use Rattle.upsched_run.specs.RunLines.{stage_lines, traced_lines};
ghost use Rattle.watched_runs.specs.Marks.{between};
ghost use Rattle.watched_runs.specs.Shown.{shown};

use crate::trace::{Trace, print_came_and_seen, print_sent};
use printed_answers::answer_text;
use printed_outputs::output_text;
use seats::ReleasedOutput;
use std::alloc::Global;
use std::io::Write;
use upsched_ends::Fault;
use watched_runs::{Row, Stage, Watched};

fn print_place<'a, O: Write>(
    alloc: Global,
    released: &ReleasedOutput,
    output: &mut O,
) -> Result<(), Fault<'a>>
    ensures printed { OnOk result (Appends (O.contents output.old) (O.contents output.new) (place_line released.now)) }
    ensures fault { IfErr result StopsPrint }
{
    let Ok(text) = output_text(alloc, &released.numbered.output) else {
        return Err(Fault::Memory);
    };
    match writeln!(output, "place {} {text}", released.numbered.place) {
        Ok(()) => Ok(()),
        Err(_) => Err(Fault::Output),
    }
}

fn print_places<'a, O: Write>(
    alloc: Global,
    released: &[ReleasedOutput],
    output: &mut O,
) -> Result<(), Fault<'a>>
    ensures printed { OnOk result (Appends (O.contents output.old) (O.contents output.new) (place_lines released.now)) }
    ensures fault { IfErr result StopsPrint }
{
    for one in released {
        print_place(alloc, one, output)?;
    }
    Ok(())
}

/// The answer to an event, behind the event's number.
fn print_answer<'a, O: Write>(alloc: Global, row: &Row<'_>, output: &mut O) -> Result<(), Fault<'a>>
    ensures printed { OnOk result (Appends (O.contents output.old) (O.contents output.new) (answer_line row.now.step row.now.answer)) }
    ensures fault { IfErr result StopsPrint }
{
    let Ok(text) = answer_text(alloc, row.answer) else {
        return Err(Fault::Memory);
    };
    match writeln!(output, "{} {text}", row.step) {
        Ok(()) => Ok(()),
        Err(_) => Err(Fault::Output),
    }
}

/// The same behind the number of the letter that came.
fn print_letter_answer<'a, O: Write>(
    alloc: Global,
    row: &Row<'_>,
    output: &mut O,
) -> Result<(), Fault<'a>>
    ensures printed { OnOk result (Appends (O.contents output.old) (O.contents output.new) (letter_answer_line row.now.came.first row.now.answer)) }
    ensures fault { IfErr result StopsPrint }
{
    let Ok(text) = answer_text(alloc, row.answer) else {
        return Err(Fault::Memory);
    };
    match writeln!(output, "letter {} {text}", row.came.first) {
        Ok(()) => Ok(()),
        Err(_) => Err(Fault::Output),
    }
}

fn print_first<'a, O: Write>(
    alloc: Global,
    all: bool,
    row: &Row<'_>,
    output: &mut O,
) -> Result<(), Fault<'a>>
    ensures printed { OnOk result (Appends (O.contents output.old) (O.contents output.new) (first_line all (shown row.now))) }
    ensures fault { IfErr result StopsPrint }
{
    if all {
        print_letter_answer(alloc, row, output)
    } else {
        print_answer(alloc, row, output)
    }
}

/// The outputs that an event released, between the letter that came with what is seen of the node, and the letters that
/// were sent.
fn print_traced<'a, O: Write>(
    alloc: Global,
    named: bool,
    row: &Row<'_>,
    output: &mut O,
) -> Result<(), Fault<'a>>
    ensures printed { OnOk result (Appends (O.contents output.old) (O.contents output.new) (traced_lines named (shown row.now))) }
    ensures fault { IfErr result StopsPrint }
{
    print_came_and_seen(alloc, named, row, output)?;
    print_places(alloc, row.released, output)?;
    print_sent(alloc, named, row, output)
}

/// The lines behind an answer: the outputs that were released, with letters and what is seen of the node where they are
/// traced.
fn print_further<'a, O: Write>(
    alloc: Global,
    trace: Trace,
    row: &Row<'_>,
    output: &mut O,
) -> Result<(), Fault<'a>>
    ensures printed { OnOk result (Appends (O.contents output.old) (O.contents output.new) (further_lines trace (shown row.now))) }
    ensures fault { IfErr result StopsPrint }
{
    match trace {
        Trace::Off => print_places(alloc, row.released, output),
        Trace::Letters => print_traced(alloc, false, row, output),
        Trace::Named => print_traced(alloc, true, row, output),
    }
}

/// The lines of a row, of an event or of a letter that came with others.
fn print_row<'a, O: Write>(
    alloc: Global,
    trace: Trace,
    all: bool,
    row: &Row<'_>,
    output: &mut O,
) -> Result<(), Fault<'a>>
    ensures printed { OnOk result (Appends (O.contents output.old) (O.contents output.new) (row_lines trace all (shown row.now))) }
    ensures fault { IfErr result StopsPrint }
{
    print_first(alloc, all, row, output)?;
    print_further(alloc, trace, row, output)
}

/// The lines of the rows that an event of the script brought.
fn print_rows<'a, O: Write>(
    alloc: Global,
    trace: Trace,
    run: &Watched<'_>,
    stage: &Stage,
    output: &mut O,
) -> Result<(), Fault<'a>>
    ensures printed { OnOk result (Appends (O.contents output.old) (O.contents output.new)
        (flat_map (row_lines trace stage.now.all) (between (stage.now.from, stage.now.to) run.now.rows))) }
    ensures fault { IfErr result StopsPrint }
{
    let (from, to) = run.rows_of(stage);
    for i in from..to {
        print_row(alloc, trace, stage.all, &run.row(i), output)?;
    }
    Ok(())
}

/// How many letters came at an event, where it delivers all that wait.
fn print_delivered<'a, O: Write>(stage: &Stage, output: &mut O) -> Result<(), Fault<'a>>
    ensures printed { OnOk result (Appends (O.contents output.old) (O.contents output.new)
        (delivered_line stage.now.all stage.now.number (stage.now.to - stage.now.from))) }
    ensures fault { IfErr result StopsPrint }
{
    if !stage.all {
        return Ok(());
    }
    let count = stage.to.saturating_sub(stage.from);
    match writeln!(output, "{} delivered {count}", stage.number) {
        Ok(()) => Ok(()),
        Err(_) => Err(Fault::Output),
    }
}

/// The lines of an event of the script.
fn print_stage<'a, O: Write>(
    alloc: Global,
    trace: Trace,
    run: &Watched<'_>,
    stage: &Stage,
    output: &mut O,
) -> Result<(), Fault<'a>>
    ensures printed { OnOk result (Appends (O.contents output.old) (O.contents output.new) (stage_lines trace run.now.rows stage.now)) }
    ensures fault { IfErr result StopsPrint }
{
    print_delivered(stage, output)?;
    print_rows(alloc, trace, run, stage, output)
}

fn print_stages<'a, O: Write>(
    alloc: Global,
    trace: Trace,
    run: &Watched<'_>,
    output: &mut O,
) -> Result<(), Fault<'a>>
    ensures printed { OnOk result (Appends (O.contents output.old) (O.contents output.new) (flat_map (stage_lines trace run.now.rows) run.now.stages)) }
    ensures fault { IfErr result StopsPrint }
{
    for stage in run.stages() {
        print_stage(alloc, trace, run, stage, output)?;
    }
    Ok(())
}

/// The last line, and all that was printed goes out.
fn print_counts<'a, O: Write>(
    letters: usize,
    outputs: usize,
    transmissions: usize,
    output: &mut O,
) -> Result<(), Fault<'a>>
    ensures printed { OnOk result (Appends (O.contents output.old) (O.contents output.new) (counts_line letters outputs transmissions)) }
    ensures fault { IfErr result (λ fault. fault ≡ Output) }
{
    let line = writeln!(
        output,
        "letters {letters} outputs {outputs} transmissions {transmissions}"
    );
    if line.is_err() {
        return Err(Fault::Output);
    }
    match output.flush() {
        Ok(()) => Ok(()),
        Err(_) => Err(Fault::Output),
    }
}

/// The lines of the events of a run, traced or not, and last how many letters, outputs and transmissions there were.
/// All that was printed goes out.
pub(crate) fn print_run<'a, O: Write>(
    alloc: Global,
    trace: Trace,
    run: &Watched<'_>,
    output: &mut O,
) -> Result<(), Fault<'a>>
    ensures printed { OnOk result (Appends (O.contents output.old) (O.contents output.new) (run_lines trace run.now)) }
    ensures fault { IfErr result StopsPrint }
{
    print_stages(alloc, trace, run, output)?;
    let (letters, outputs) = (run.letters().len(), run.outputs().len());
    print_counts(letters, outputs, run.transmissions().len(), output)
}
