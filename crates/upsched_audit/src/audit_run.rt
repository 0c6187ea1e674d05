//! `upsched audit --members M [--counts] J0 J1 J2`: from journals to how the program ends.

ghost use Rattle.std.specs.Prelude.{◌≡◌, ◌≢◌, ℕ, List, IfOk, IfErr, true};
ghost use Rattle.std.specs.Io.KnownBytes.{Appends};
ghost use Rattle.node_journal.specs.Legal.{AreLegalJournals};
ghost use Rattle.node_journal.specs.Tears.{IsTear};
ghost use Rattle.node_journal.specs.declared.audits.Verdict.TheVariants.{Torn, Yes};
ghost use Rattle.node_journal.specs.declared.tear.Tear.{Tear};
ghost use Rattle.upsched_audit.specs.Audits.{AreHeld, audit_lines};
ghost use Rattle.upsched_ends.specs.declared.status.Status.TheVariants.{Done, NotUnderstood};
ghost use Rattle.upsched_ends.specs.Faults.{StopsPrint};

use crate::journals::{JournalFile, journals_of};
use crate::verdict_line::{print_verdict, status_of};
use ballots::{Bytes, Members};
use node_journal::Verdict;
use std::alloc::Global;
use std::io::{Read, Write};
use upsched_ends::{Fault, Status};

/// What is audited: the members, the paths of their journals, by number, and whether it is told how many lives and
/// lines these hold.
#[derive(Clone, Copy, Debug)]
pub struct Asked<'a> {
    pub members: Members,
    pub paths: &'a [&'a str],
    pub counts: bool,
}

/// Audits the journals of the members, by number, prints what was found and gives it.
pub fn print_audit<'a, O: Write>(
    alloc: Global,
    asked: &Asked<'_>,
    journals: &[Bytes],
    output: &mut O,
) -> Result<Verdict, Fault<'a>>
    ensures printed { IfOk result (λ verdict. Appends (O.contents output.old) (O.contents output.new)
        (audit_lines asked.now.paths.now asked.now.counts journals.now verdict)) }
    ensures legal { IfOk result (λ verdict. verdict ≡ Yes → AreLegalJournals asked.now.members journals.now) }
    ensures torn { IfOk result (λ verdict. (tear : Tear) → verdict ≡ Torn tear → IsTear asked.now.members journals.now tear) }
    ensures fault { IfErr result StopsPrint }
{
    let Ok(verdict) = node_journal::audit(alloc, asked.members, journals) else {
        return Err(Fault::Memory);
    };
    print_verdict(asked.paths, asked.counts, journals, &verdict, output)?;
    Ok(verdict)
}

/// Audits the journals of the members, by number, and prints what was found. Want of memory, and a write that fails,
/// are told in one line.
pub fn audit<O: Write, E: Write>(
    alloc: Global,
    asked: &Asked<'_>,
    journals: &[Bytes],
    output: &mut O,
    errors: &mut E,
) -> Status
    ensures legal { result ≡ Done → AreLegalJournals asked.now.members journals.now }
    ensures printed { result ≡ Done → Appends (O.contents output.old) (O.contents output.new)
        (audit_lines asked.now.paths.now asked.now.counts journals.now Yes) }
    ensures quiet { result ≡ Done → errors.new ≡ errors.old }
    ensures understood { result ≢ NotUnderstood }
{
    match print_audit(alloc, asked, journals, output) {
        Ok(verdict) => status_of(verdict),
        Err(fault) => fault.told(errors),
    }
}

/// The same of all that files had left. A file that can't be read is told in one line.
pub fn audit_files<R: Read + Drop, O: Write, E: Write>(
    alloc: Global,
    asked: &Asked<'_>,
    files: Vec<JournalFile<'_, R>>,
    output: &mut O,
    errors: &mut E,
) -> Status
    ensures legal { result ≡ Done → (journals : List (List ℕ)) × AreHeld (λ f. R.remaining f.file) files.entry.items journals
        × AreLegalJournals asked.now.members journals
        × Appends (O.contents output.old) (O.contents output.new) (audit_lines asked.now.paths.now asked.now.counts journals Yes) }
    ensures quiet { result ≡ Done → errors.new ≡ errors.old }
    ensures understood { result ≢ NotUnderstood }
{
    match journals_of(alloc, files) {
        Ok(journals) => audit(alloc, asked, journals.as_slice(), output, errors),
        Err(fault) => fault.told(errors),
    }
}
