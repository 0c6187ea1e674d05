//! The journals that words name.

ghost use Rattle.std.specs.Prelude.{◌≡◌, ◌⊎◌, IfErr, IfOk, IfSome, MatchOption};
ghost use Rattle.ballots.specs.declared.members.Members.{Members};
ghost use Rattle.upsched_audit.specs.Audits.{AreHeld, NamesJournals};
ghost use Rattle.upsched_ends.specs.declared.fault.Fault.TheVariants.{Memory, Unreadable};

use ballots::{Bytes, Members};
use std::alloc::Global;
use std::io::Read;
use upsched_ends::{Fault, members_of};

/// What is told where there isn't a journal for each member.
pub const NO_JOURNALS: &str =
    "error: M is 3 or 5, and there are as many journals, that of node 0 first";

/// How many members a word names, where there is a journal for each.
pub fn audited_members(members: &str, journals: usize) -> Option<Members>
    ensures { MatchOption result ((count : Members) → ¬ NamesJournals members.now journals count) (NamesJournals members.now journals) }
{
    let count = members_of(members)?;
    if usize::from(count.count()) == journals {
        Some(count)
    } else {
        None
    }
}

/// The whole journal that the file of this path holds, whatever bytes these are.
pub fn journal_of<'a, R: Read>(
    alloc: Global,
    file: &mut R,
    path: &'a str,
) -> Result<Bytes, Fault<'a>>
    ensures journal { IfOk result (λ journal. IfSome (R.remaining file.old) (λ bytes. journal ≡ bytes)) }
    ensures fault { IfErr result (λ fault. (fault ≡ Memory) ⊎ (fault ≡ Unreadable path.entry)) }
{
    let mut bytes = Vec::new(alloc);
    match file.read_to_end(&mut bytes) {
        Ok(_) => Ok(Bytes::new(bytes)),
        Err(error) => Err(Fault::of_reading(&error, path)),
    }
}

/// A reader of a journal, and the path of its file.
#[derive(Drop)]
pub struct JournalFile<'a, R: Read> {
    pub path: &'a str,
    pub file: R,
}

/// The whole journals that the files hold, one after another. The fault is that of the first one that can't be read.
pub fn journals_of<'a, R: Read + Drop>(
    alloc: Global,
    files: Vec<JournalFile<'a, R>>,
) -> Result<Vec<Bytes>, Fault<'a>>
    ensures { IfOk result (λ journals. AreHeld (λ f. R.remaining f.file) files.entry.items journals.items) }
{
    let mut journals = Vec::new(alloc);
    for held in files {
        let JournalFile { path, mut file } = held;
        let journal = journal_of(alloc, &mut file, path)?;
        if journals.push(journal).is_err() {
            return Err(Fault::Memory);
        }
    }
    Ok(journals)
}
