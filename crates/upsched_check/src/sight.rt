//! `upsched check FILE`: what is wrong with a text, line by line.

ghost use Rattle.std.specs.Prelude.{◌≡◌, ◌≢◌, ◌≤◌, ◌↔◌, IfOk, OnOk, ℕ, List, flat_map, map, length, string_bytes, true};
ghost use Rattle.std.specs.Prelude.{is_some, IfErr};
ghost use Rattle.std.specs.Io.KnownBytes.{Appends};
ghost use Rattle.toml.specs.Data.{table};
ghost use Rattle.toml.specs.View.{view, table_view};
ghost use Rattle.toml.specs.Parse.{parse_document};
ghost use Rattle.toml.specs.Errors.{IsWithin};
ghost use Rattle.text_faults.specs.Faults.{TellsWhether};
ghost use Rattle.text_faults.specs.Unread.{key_there};
ghost use Rattle.upsched_ends.specs.declared.status.Status.TheVariants.{Done, NotUnderstood};
ghost use Rattle.upsched_check.specs.Reports.{IsForm, IsGood, fault_line, fault_lines, good_text, good_line};
ghost use Rattle.upsched_check.specs.Reports.{toml_line, unread_line, unread_of, form_of, is_empty, is_good, good_as};
ghost use Rattle.upsched_check.specs.Reports.{table_lines, Warns, TellsOf, Reports, ReportsKnown};
ghost use Rattle.upsched_ends.specs.Faults.{StopsPrint};

use crate::form::{CheckWords, Form, faults_of, form_of, unread_of};
use crate::place::place_behind;
use script_text::read_plan;
use std::alloc::{AllocError, Global};
use std::io::{Read, Write};
use text_faults::{Fault as TextFault, Unread, fault_text, unread_text};
use toml::de::Error;
use toml::{Table, Value};
use upsched_ends::{Fault, Status, text_of};
use upsched_maps::print_refusals;

fn print_fault<'a, O: Write>(
    alloc: Global,
    path: &str,
    fault: &TextFault,
    output: &mut O,
) -> Result<(), Fault<'a>>
    ensures printed { OnOk result (Appends (O.contents output.old) (O.contents output.new) (fault_line path.now fault.now)) }
    ensures fault { IfErr result StopsPrint }
{
    let Ok(text) = fault_text(alloc, fault) else {
        return Err(Fault::Memory);
    };
    match writeln!(output, "{path}: {text}") {
        Ok(()) => Ok(()),
        Err(_) => Err(Fault::Output),
    }
}

fn print_each<'a, O: Write>(
    alloc: Global,
    path: &str,
    faults: &[TextFault],
    output: &mut O,
) -> Result<(), Fault<'a>>
    ensures printed { OnOk result (Appends (O.contents output.old) (O.contents output.new) (flat_map (fault_line path.now) faults.now)) }
    ensures fault { IfErr result StopsPrint }
{
    for fault in faults {
        print_fault(alloc, path, fault, output)?;
    }
    Ok(())
}

fn good_text(alloc: Global, form: Form, bare: bool) -> Result<String, AllocError>
    ensures { IfOk result (λ text. string_bytes text ≡ good_text form bare) }
{
    let name = form.name();
    if bare {
        let key = form.key();
        return format!(in alloc; "no fault in this {name}, and no key {key}");
    }
    format!(in alloc; "no fault in this {name}")
}

fn print_good<'a, O: Write>(
    alloc: Global,
    path: &str,
    form: Form,
    bare: bool,
    output: &mut O,
) -> Result<(), Fault<'a>>
    ensures printed { OnOk result (Appends (O.contents output.old) (O.contents output.new) (good_line path.now form bare)) }
    ensures fault { IfErr result StopsPrint }
{
    let Ok(text) = good_text(alloc, form, bare) else {
        return Err(Fault::Memory);
    };
    match writeln!(output, "{path}: {text}") {
        Ok(()) => Ok(()),
        Err(_) => Err(Fault::Output),
    }
}

/// What was seen in a table: what it was looked at as, whether it lacks the key of its commands or events, and faults.
#[derive(Clone, Copy)]
struct Seen<'a> {
    form: Form,
    bare: bool,
    faults: &'a [TextFault],
}

fn print_faults<'a, O: Write>(
    alloc: Global,
    path: &str,
    seen: &Seen<'_>,
    output: &mut O,
) -> Result<(), Fault<'a>>
    ensures printed { OnOk result (Appends (O.contents output.old) (O.contents output.new)
        (fault_lines path.now seen.now.form seen.now.bare seen.now.faults.now)) }
    ensures fault { IfErr result StopsPrint }
{
    if seen.faults.is_empty() {
        print_good(alloc, path, seen.form, seen.bare, output)
    } else {
        print_each(alloc, path, seen.faults, output)
    }
}

fn print_key<'a, O: Write>(
    alloc: Global,
    path: &str,
    key: &Unread,
    output: &mut O,
) -> Result<(), Fault<'a>>
    ensures printed { OnOk result (Appends (O.contents output.old) (O.contents output.new) (unread_line path.now (key_there key.now))) }
    ensures fault { IfErr result StopsPrint }
{
    let Ok(text) = unread_text(alloc, key) else {
        return Err(Fault::Memory);
    };
    match writeln!(output, "{path}: {text}") {
        Ok(()) => Ok(()),
        Err(_) => Err(Fault::Output),
    }
}

fn print_keys<'a, O: Write>(
    alloc: Global,
    path: &str,
    keys: &[Unread],
    output: &mut O,
) -> Result<(), Fault<'a>>
    ensures printed { OnOk result (Appends (O.contents output.old) (O.contents output.new)
        (flat_map (unread_line path.now) (map key_there keys.now))) }
    ensures fault { IfErr result StopsPrint }
{
    for key in keys {
        print_key(alloc, path, key, output)?;
    }
    Ok(())
}

/// Prints the keys of a table that nothing reads.
fn print_unread<'a, O: Write>(
    alloc: Global,
    path: &str,
    form: Form,
    whole: &Value,
    output: &mut O,
) -> Result<(), Fault<'a>>
    ensures printed { OnOk result (Appends (O.contents output.old) (O.contents output.new)
        (flat_map (unread_line path.now) (unread_of form (view whole.now)))) }
    ensures fault { IfErr result StopsPrint }
{
    let Ok(unread) = unread_of(alloc, form, whole) else {
        return Err(Fault::Memory);
    };
    print_keys(alloc, path, unread.as_slice(), output)
}

/// Prints what is wrong with a table and which keys nothing reads, and gives what it is good as, if it is good.
fn print_table<'a, O: Write>(
    alloc: Global,
    found: Table,
    path: &str,
    said: Option<Form>,
    output: &mut O,
) -> Result<Option<Form>, Fault<'a>>
    ensures printed { OnOk result (Appends (O.contents output.old) (O.contents output.new)
        (table_lines path.now said (table (table_view found)))) }
    ensures good { IfOk result (λ good. good ≡ good_as said (table (table_view found))) }
    ensures whether { IfOk result (λ good. (is_some good ≡ true) ↔ IsForm (form_of said (table (table_view found))) (table_view found)) }
    ensures fault { IfErr result StopsPrint }
{
    let whole = Value::Table(found);
    let form = form_of(said, &whole);
    let Ok(faults) = faults_of(alloc, form, &whole) else {
        return Err(Fault::Memory);
    };
    let seen = Seen {
        form,
        bare: whole.get(form.key()).is_none(),
        faults: faults.as_slice(),
    };
    print_faults(alloc, path, &seen, output)?;
    print_unread(alloc, path, form, &whole, output)?;
    Ok(if faults.is_empty() { Some(form) } else { None })
}

/// Prints of a text that is good as this what is to be known besides: of a plan, why commands are refused.
fn print_warnings<'a, O: Write>(
    alloc: Global,
    text: &str,
    path: &str,
    good: Option<Form>,
    output: &mut O,
) -> Result<(), Fault<'a>>
    ensures printed { OnOk result ((warned : List ℕ) × Warns path.now text.now good warned
        × Appends (O.contents output.old) (O.contents output.new) warned) }
    ensures fault { IfErr result StopsPrint }
{
    let Some(Form::Plan) = good else {
        return Ok(());
    };
    // a text that is good as a plan is read as one, unless there is no memory for its commands
    let Ok(commands) = read_plan(alloc, text) else {
        return Err(Fault::Memory);
    };
    print_refusals(alloc, path, commands.as_slice(), output)
}

/// Prints where a text ends to be TOML, and why.
fn print_no_toml<'a, O: Write>(
    path: &str,
    text: &str,
    error: &Error,
    output: &mut O,
) -> Result<(), Fault<'a>>
    requires { IsWithin text.now error.now }
    ensures printed { OnOk result ((start : ℕ) × (why : List ℕ) × (start ≤ length text.now)
        × Appends (O.contents output.old) (O.contents output.new) (toml_line path.now text.now start why)) }
    ensures fault { IfErr result StopsPrint }
{
    let start = match error.span() {
        Some(range) => range.start,
        None => 0,
    };
    let (line, column) = place_behind(text.as_bytes(), start);
    let why = error.message();
    match writeln!(output, "{path}:{line}:{column}: {why}") {
        Ok(()) => Ok(()),
        Err(_) => Err(Fault::Output),
    }
}

fn print_text<'a, O: Write>(
    alloc: Global,
    text: &str,
    path: &str,
    said: Option<Form>,
    output: &mut O,
) -> Result<bool, Fault<'a>>
    ensures told { IfOk result (λ good. Reports path.now said text.now good (O.contents output.old) (O.contents output.new)) }
    ensures good { IfOk result (λ good. (good ≡ true) ↔ IsGood said text.now) }
    ensures fault { IfErr result StopsPrint }
{
    match toml::table_from_str(alloc, text) {
        Ok(found) => {
            let good = print_table(alloc, found, path, said, output)?;
            print_warnings(alloc, text, path, good, output)?;
            Ok(good.is_some())
        }
        Err(error) if error.is_memory() => Err(Fault::Memory),
        Err(error) => {
            print_no_toml(path, text, &error, output)?;
            Ok(false)
        }
    }
}

/// Prints what is wrong with a text, a line each, or a line that tells of no fault. Behind them is a line for each key
/// that nothing reads, and, where it is a good plan, one for each command that is refused, and why: these are no faults.
/// Gives whether the text is good.
pub fn report<'a, O: Write>(
    alloc: Global,
    text: &str,
    words: &CheckWords<'_>,
    output: &mut O,
) -> Result<bool, Fault<'a>>
    ensures told { IfOk result (λ good. Reports words.now.path.now words.now.form text.now good (O.contents output.old) (O.contents output.new)) }
    ensures good { IfOk result (λ good. (good ≡ true) ↔ IsGood words.now.form text.now) }
    ensures fault { IfErr result StopsPrint }
{
    let good = print_text(alloc, text, words.path, words.form, output)?;
    match output.flush() {
        Ok(()) => Ok(good),
        Err(_) => Err(Fault::Output),
    }
}

fn report_file<'a, R: Read, O: Write>(
    alloc: Global,
    file: &mut R,
    words: &CheckWords<'a>,
    output: &mut O,
) -> Result<bool, Fault<'a>>
    ensures { IfOk result (λ good. ReportsKnown words.now.path.now words.now.form (R.remaining file.old) good
        (O.contents output.old) (O.contents output.new)) }
{
    let text = text_of(alloc, file, words.path)?;
    report(alloc, text.as_str(), words, output)
}

/// Tells whether the text of a file is a good plan or script, and if not, what is wrong where. A text that isn't good,
/// and a file that can't be read, end as faulted.
pub fn check<R: Read, O: Write, E: Write>(
    alloc: Global,
    file: &mut R,
    words: &CheckWords<'_>,
    output: &mut O,
    errors: &mut E,
) -> Status
    ensures good { result ≡ Done → ReportsKnown words.now.path.now words.now.form (R.remaining file.old) true
        (O.contents output.old) (O.contents output.new) }
    ensures quiet { result ≡ Done → errors.new ≡ errors.old }
    ensures understood { result ≢ NotUnderstood }
{
    match report_file(alloc, file, words, output) {
        Ok(true) => Status::Done,
        Ok(false) => Status::Faulted,
        Err(fault) => fault.told(errors),
    }
}
