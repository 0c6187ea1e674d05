//! The files of a host's folder by name.

ghost use Rattle.std.specs.Prelude.{◌≡◌, ◌≢◌, ◌++◌, ◌∷◌, ℕ, List, IfOk, MatchOption, string_bytes};
ghost use Rattle.stored_hosts.specs.Names.{IsName, name_text, suffix};
ghost use Rattle.stored_hosts.specs.declared.names.FileKind.{FileKind as Kind};
ghost use Rattle.stored_hosts.specs.declared.names.HostFile.{HostFile as Name};

use crate::numbers::number_in;
use itoa::Buffer;
use std::alloc::{AllocError, Global};

/// What a file of a host's folder is for.
#[derive(Clone, Copy, Debug, PartialEq, Eq)]
pub enum FileKind {
    /// The records of an epoch's node: `E.db`.
    Database,
    /// The log of that database: `E.db-wal`.
    Log,
    /// The state at the start of an epoch: `E.state`.
    State,
    /// Such a state while it is written: `E.state.part`.
    Part,
}

/// A file of a host's folder, by what its name says.
#[derive(Clone, Copy, Debug, PartialEq, Eq)]
pub struct HostFile {
    /// Of which epoch it is, counted from 1.
    pub epoch: u64,
    pub kind: FileKind,
}

/// What stands in a name behind the epoch.
#[tactic(auto, unfolding(crate::specs::Names::suffix))]
fn suffix_of(kind: FileKind) -> &'static str
    ensures { result.now ≡ suffix kind }
{
    match kind {
        FileKind::Database => ".db",
        FileKind::Log => ".db-wal",
        FileKind::State => ".state",
        FileKind::Part => ".state.part",
    }
}

/// The digits of a name that ends so.
fn digits_before<'a>(name: &'a [u8], suffix: &[u8]) -> Option<&'a [u8]>
    ensures { MatchOption result ((digits : List ℕ) → name.now ≢ digits ++ suffix.now) (λ digits. name.now ≡ digits.now ++ suffix.now) }
{
    name.strip_suffix(suffix)
}

/// The file of this kind that a name names.
fn read_kind(name: &[u8], kind: FileKind) -> Option<HostFile>
    ensures { MatchOption result ((file : Name) → file.kind ≡ kind → ¬ IsName name.now file) (IsName name.now) }
{
    let Some(digits) = digits_before(name, suffix_of(kind).as_bytes()) else {
        return None;
    };
    let Some(epoch) = number_in(digits) else {
        return None;
    };
    if epoch == 0 {
        return None;
    }
    Some(HostFile { epoch, kind })
}

/// The file of a host's folder that a name is of, where it is of one.
pub fn read_name(name: &[u8]) -> Option<HostFile>
    ensures { MatchOption result ((file : Name) → ¬ IsName name.now file) (IsName name.now) }
{
    if let Some(file) = read_kind(name, FileKind::Database) {
        return Some(file);
    }
    if let Some(file) = read_kind(name, FileKind::Log) {
        return Some(file);
    }
    if let Some(file) = read_kind(name, FileKind::State) {
        return Some(file);
    }
    read_kind(name, FileKind::Part)
}

/// The path of a file in this folder.
pub fn path_of(alloc: Global, folder: &str, file: HostFile) -> Result<String, AllocError>
    ensures { IfOk result (λ path. string_bytes path ≡ folder.now ++ (47 ∷ name_text file)) }
{
    let mut path = String::from_str(alloc, folder)?;
    path.push('/')?;
    path.push_str(Buffer::new().format(file.epoch))?;
    path.push_str(suffix_of(file.kind))?;
    Ok(path)
}
