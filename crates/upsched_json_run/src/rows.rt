//! Prints the rows of a run.

ghost use Rattle.std.specs.Prelude.{IfOk, OnOk, string_bytes, IfErr};
ghost use Rattle.json_outputs.specs.Texts.{IsTextWhere};
ghost use Rattle.json_answers.specs.Events.{TellsRow, counts_data};
ghost use Rattle.upsched_json.specs.Lines.{PrintsLine, PrintsValue};
ghost use Rattle.upsched_json_run.specs.Runs.{PrintsRows, PrintsRun};
ghost use Rattle.upsched_ends.specs.Faults.{StopsPrint};
ghost use Rattle.watched_runs.specs.Shown.{shown};

use json_answers::{counts_text, event_text, traced_text};
use std::alloc::{AllocError, Global};
use std::io::Write;
use upsched_ends::Fault;
use upsched_json::print_line;
use watched_runs::{Row, Watched};

/// The text of an event, traced or not.
fn row_text(alloc: Global, is_traced: bool, row: &Row<'_>) -> Result<String, AllocError>
    ensures { IfOk result (λ text. IsTextWhere (TellsRow is_traced (shown row.now)) (string_bytes text)) }
{
    if is_traced {
        traced_text(alloc, row)
    } else {
        event_text(alloc, row)
    }
}

fn print_row<'a, O: Write>(
    alloc: Global,
    is_traced: bool,
    row: &Row<'_>,
    output: &mut O,
) -> Result<(), Fault<'a>>
    ensures printed { OnOk result (PrintsLine (TellsRow is_traced (shown row.now)) (O.contents output.old) (O.contents output.new)) }
    ensures fault { IfErr result StopsPrint }
{
    match row_text(alloc, is_traced, row) {
        Ok(text) => print_line(text.as_str(), output),
        Err(_) => Err(Fault::Memory),
    }
}

/// A line for each event, with the outputs that it released, and with its trace where that is wanted.
fn print_rows<'a, O: Write>(
    alloc: Global,
    is_traced: bool,
    run: &Watched<'_>,
    output: &mut O,
) -> Result<(), Fault<'a>>
    ensures printed { OnOk result (PrintsRows is_traced run.now.rows (O.contents output.old) (O.contents output.new)) }
    ensures fault { IfErr result StopsPrint }
{
    for i in 0..run.len() {
        print_row(alloc, is_traced, &run.row(i), output)?;
    }
    Ok(())
}

fn print_counts<'a, O: Write>(
    alloc: Global,
    letters: usize,
    outputs: usize,
    transmissions: usize,
    output: &mut O,
) -> Result<(), Fault<'a>>
    ensures printed { OnOk result (PrintsValue (counts_data letters outputs transmissions) (O.contents output.old) (O.contents output.new)) }
    ensures fault { IfErr result StopsPrint }
{
    match counts_text(alloc, letters, outputs, transmissions) {
        Ok(text) => print_line(text.as_str(), output),
        Err(_) => Err(Fault::Memory),
    }
}

/// The lines of the events of a run, traced or not, and last that of how many letters, outputs and transmissions there
/// were. All that was printed goes out.
pub(crate) fn print_run<'a, O: Write>(
    alloc: Global,
    is_traced: bool,
    run: &Watched<'_>,
    output: &mut O,
) -> Result<(), Fault<'a>>
    ensures printed { OnOk result (PrintsRun is_traced run.now (O.contents output.old) (O.contents output.new)) }
    ensures fault { IfErr result StopsPrint }
{
    print_rows(alloc, is_traced, run, output)?;
    let (letters, outputs) = (run.letters().len(), run.outputs().len());
    print_counts(alloc, letters, outputs, run.transmissions().len(), output)?;
    match output.flush() {
        Ok(()) => Ok(()),
        Err(_) => Err(Fault::Output),
    }
}
