//! What the files of a folder's nodes are, of foreign ones why, and of a node's whether their log has no commit.

ghost use Rattle.std.specs.Prelude.{◌≡◌};
ghost use Rattle.acceptor_store_parts.specs.declared.wrong.WrongPart.TheVariants.{Missing, Changed};
ghost use Rattle.stored_nodes.specs.declared.foreign.ForeignCause.TheVariants.{Part, Rows};
ghost use Rattle.upsched_store.specs.Surveys.{foreign_text};

use acceptor_store::{OpenFault, OwnerFault};
use acceptor_store_parts::{NodeTable, WrongPart};
use stored_nodes::{
    FilesState, ForeignCause, StartFault, StoreFault, foreign_cause_at, lacks_commits_at, states_in,
};

/// What the files of a node with this number are, and of foreign ones why, where that could be found.
#[derive(Clone, Copy, Debug, PartialEq, Eq)]
pub struct Found {
    pub number: u8,
    pub state: FilesState,
    pub cause: Option<ForeignCause>,
    /// They are the node's, and their log has no commit.
    pub lacks_commits: bool,
}

/// Why the files of this path are foreign, where that can be found.
fn cause_of(rt: &HostRuntime, path: &str) -> Option<ForeignCause> {
    match foreign_cause_at(rt, path) {
        Ok(cause) => Some(cause),
        Err(_) => None,
    }
}

/// The same of those of this node in a folder.
fn cause_in(
    rt: &HostRuntime,
    folder: &str,
    number: u8,
) -> Result<Option<ForeignCause>, StoreFault> {
    let path = format!(in rt.alloc(); "{folder}/node-{number}.db")?;
    Ok(cause_of(rt, path.as_str()))
}

/// The same where they are of this state, if that is foreign.
fn cause_at(
    rt: &HostRuntime,
    folder: &str,
    number: u8,
    state: FilesState,
) -> Result<Option<ForeignCause>, StoreFault> {
    match state {
        FilesState::Foreign => cause_in(rt, folder, number),
        _ => Ok(None),
    }
}

/// Whether the log of a database of this path has no commit, where that can be found.
pub(crate) fn is_commitless(rt: &HostRuntime, path: &str) -> bool {
    matches!(lacks_commits_at(rt, path), Ok(true))
}

/// The same of the files of this node in a folder, where they are of this state, if they are its own by that.
fn is_commitless_at(
    rt: &HostRuntime,
    folder: &str,
    number: u8,
    state: FilesState,
) -> Result<bool, StoreFault> {
    match state {
        FilesState::Begun | FilesState::Used => {
            let path = format!(in rt.alloc(); "{folder}/node-{number}.db")?;
            Ok(is_commitless(rt, path.as_str()))
        }
        _ => Ok(false),
    }
}

/// What the files of nodes in a folder are.
pub(crate) fn found_in(rt: &HostRuntime, folder: &str) -> Result<Vec<Found>, StoreFault> {
    let states = states_in(rt, folder)?;
    let mut all = Vec::new(rt.alloc());
    for (number, state) in &states {
        let cause = cause_at(rt, folder, *number, *state)?;
        let lacks_commits = is_commitless_at(rt, folder, *number, *state)?;
        all.push(Found {
            number: *number,
            state: *state,
            cause,
            lacks_commits,
        })?;
    }
    Ok(all)
}

/// What is wrong of the database of a path, where a node didn't start for this fault and that is the cause.
pub fn foreign_start(rt: &HostRuntime, path: &str, fault: &StartFault) -> Option<ForeignCause> {
    match fault {
        StartFault::Unopened(OwnerFault::Open(OpenFault::Foreign)) => {
            foreign_cause_at(rt, path).ok()
        }
        StartFault::Unopened(OwnerFault::Open(OpenFault::Refused)) => {
            match foreign_cause_at(rt, path) {
                Ok(ForeignCause::Rows(_)) | Err(_) => None,
                Ok(cause) => Some(cause),
            }
        }
        _ => None,
    }
}

fn missing_text(which: NodeTable) -> &'static str
    ensures { result.now ≡ foreign_text (Part (Missing which)) }
{
    match which {
        NodeTable::Ballot => "table ballot isn't there",
        NodeTable::Vote => "table vote isn't there",
        NodeTable::Learned => "table learned isn't there",
        NodeTable::Fact => "table fact isn't there",
    }
}

fn changed_text(which: NodeTable) -> &'static str
    ensures { result.now ≡ foreign_text (Part (Changed which)) }
{
    match which {
        NodeTable::Ballot => "table ballot isn't a node's",
        NodeTable::Vote => "table vote isn't a node's",
        NodeTable::Learned => "table learned isn't a node's",
        NodeTable::Fact => "table fact isn't a node's",
    }
}

fn rows_text(which: Option<NodeTable>) -> &'static str
    ensures { result.now ≡ foreign_text (Rows which) }
{
    match which {
        Some(NodeTable::Ballot) => "rows of table ballot aren't a node's",
        Some(NodeTable::Vote) => "rows of table vote aren't a node's",
        Some(NodeTable::Learned) => "rows of table learned aren't a node's",
        Some(NodeTable::Fact) => "rows of table fact aren't a node's",
        None => "rows of table ballot or fact aren't a node's",
    }
}

/// What of a database no node makes or writes.
pub fn foreign_text(cause: ForeignCause) -> &'static str
    ensures { result.now ≡ foreign_text cause }
{
    match cause {
        ForeignCause::NoDatabase => "no database, or a damaged one",
        ForeignCause::Part(WrongPart::Missing(which)) => missing_text(which),
        ForeignCause::Part(WrongPart::Changed(which)) => changed_text(which),
        ForeignCause::Part(WrongPart::Further) => "more than a node's tables",
        ForeignCause::Rows(which) => rows_text(which),
    }
}
