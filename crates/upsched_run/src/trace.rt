//! Prints the letters that came and were sent at an event, and what is seen of the node that it asks.

ghost use Rattle.std.specs.Prelude.{◌≡◌, ◌++◌, IfErr, IfOk, OnOk, codes, string_bytes};
ghost use Rattle.std.specs.Io.KnownBytes.{Appends};
ghost use Rattle.upsched_ends.specs.Faults.{StopsPrint};
ghost use Rattle.upsched_run.specs.RunLines.{learned_line, letter_line, letter_lines, letter_words, numbered_lines};
ghost use Rattle.upsched_run.specs.RunLines.{post_line, sight_lines};
ghost use Rattle.watched_runs.specs.Shown.{numbered};

use ballots::Letter;
use command_words::named_letter_text;
use printed_answers::letter_text;
use std::alloc::{AllocError, Global};
use std::io::Write;
use upsched_ends::Fault;
use watched_runs::{Letters, Post, Row, Sight, post_text};

/// What is printed of letters.
#[derive(Clone, Copy, Debug, PartialEq, Eq)]
pub enum Trace {
    /// Nothing.
    Off,
    /// The letters that an event delivers and sends, beside what is seen of its node.
    Letters,
    /// The same, with the command that each value of a letter spells.
    Named,
}

/// What is printed in front of a letter, and whether the commands of its values are named.
#[derive(Clone, Copy)]
struct Style<'a> {
    word: &'a str,
    named: bool,
}

/// A letter, with the commands that its values spell where they are named.
fn letter_words(alloc: Global, named: bool, letter: &Letter) -> Result<String, AllocError>
    ensures { IfOk result (λ text. string_bytes text ≡ letter_words named letter.now) }
{
    if named {
        return named_letter_text(alloc, letter);
    }
    letter_text(alloc, letter)
}

/// The line of the letter of this number, behind a word for what became of it.
fn print_letter<'a, O: Write>(
    alloc: Global,
    style: &Style<'_>,
    number: usize,
    letter: &Letter,
    output: &mut O,
) -> Result<(), Fault<'a>>
    ensures printed { OnOk result (Appends (O.contents output.old) (O.contents output.new)
        (letter_line style.now.named style.now.word.now number letter.now)) }
    ensures fault { IfErr result StopsPrint }
{
    let Ok(text) = letter_words(alloc, style.named, letter) else {
        return Err(Fault::Memory);
    };
    match writeln!(output, "{} {number} {text}", style.word) {
        Ok(()) => Ok(()),
        Err(_) => Err(Fault::Output),
    }
}

/// The lines of letters.
fn print_letters<'a, O: Write>(
    alloc: Global,
    style: &Style<'_>,
    listed: &Letters<'_>,
    output: &mut O,
) -> Result<(), Fault<'a>>
    ensures printed { OnOk result (Appends (O.contents output.old) (O.contents output.new)
        (numbered_lines style.now.named style.now.word.now (numbered listed.now))) }
    ensures fault { IfErr result StopsPrint }
{
    for (index, letter) in listed.letters.iter().enumerate() {
        print_letter(alloc, style, listed.first + index, letter, output)?;
    }
    Ok(())
}

/// The line of a node's post, where that changed.
fn print_post<'a, O: Write>(
    alloc: Global,
    node: usize,
    post: Option<Post>,
    output: &mut O,
) -> Result<(), Fault<'a>>
    ensures printed { OnOk result (Appends (O.contents output.old) (O.contents output.new) (post_line node post)) }
    ensures fault { IfErr result StopsPrint }
{
    let Some(post) = post else {
        return Ok(());
    };
    let Ok(text) = post_text(alloc, post) else {
        return Err(Fault::Memory);
    };
    match writeln!(output, "node {node} {text}") {
        Ok(()) => Ok(()),
        Err(_) => Err(Fault::Output),
    }
}

/// The line of a place that a node learned.
fn print_learned<'a, O: Write>(
    node: usize,
    learned: Option<u64>,
    output: &mut O,
) -> Result<(), Fault<'a>>
    ensures printed { OnOk result (Appends (O.contents output.old) (O.contents output.new) (learned_line node learned)) }
    ensures fault { IfErr result StopsPrint }
{
    let Some(place) = learned else {
        return Ok(());
    };
    match writeln!(output, "node {node} learned {place}") {
        Ok(()) => Ok(()),
        Err(_) => Err(Fault::Output),
    }
}

/// The lines of what is seen of the node that an event asks, if it asks one.
fn print_sight<'a, O: Write>(
    alloc: Global,
    sight: Option<Sight>,
    output: &mut O,
) -> Result<(), Fault<'a>>
    ensures printed { OnOk result (Appends (O.contents output.old) (O.contents output.new) (sight_lines sight)) }
    ensures fault { IfErr result StopsPrint }
{
    let Some(sight) = sight else {
        return Ok(());
    };
    print_post(alloc, sight.node, sight.post, output)?;
    print_learned(sight.node, sight.learned, output)
}

/// The line of the letter that an event delivers, if it does, and those of what is seen.
pub(crate) fn print_came_and_seen<'a, O: Write>(
    alloc: Global,
    named: bool,
    row: &Row<'_>,
    output: &mut O,
) -> Result<(), Fault<'a>>
    ensures printed { OnOk result (Appends (O.contents output.old) (O.contents output.new)
        (numbered_lines named (codes "came") (numbered row.now.came) ++ sight_lines row.now.sight)) }
    ensures fault { IfErr result StopsPrint }
{
    let word = "came";
    print_letters(alloc, &Style { word, named }, &row.came, output)?;
    print_sight(alloc, row.sight, output)
}

/// The lines of the letters that an event sent.
pub(crate) fn print_sent<'a, O: Write>(
    alloc: Global,
    named: bool,
    row: &Row<'_>,
    output: &mut O,
) -> Result<(), Fault<'a>>
    ensures printed { OnOk result (Appends (O.contents output.old) (O.contents output.new)
        (numbered_lines named (codes "letter") (numbered row.now.sent))) }
    ensures fault { IfErr result StopsPrint }
{
    let word = "letter";
    print_letters(alloc, &Style { word, named }, &row.sent, output)
}
