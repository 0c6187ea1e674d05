//! Why the program ends with status 1.

use crate::status::Status;
use map_body::MapFault;
use script_text::{PlanFault, ScriptFault};
use std::alloc::AllocError;
use std::io;
use std::io::{ErrorKind, Write};
use thiserror::Error;

/// What is told on standard error, behind the program's name.
#[derive(Debug, Drop, Error)]
pub enum Fault<'a> {
    /// The file of this path can't be read, or isn't UTF-8.
    #[error("cannot read {0}")]
    Unreadable(&'a str),
    #[error("plan {0}")]
    Plan(PlanFault),
    #[error("script {0}")]
    Script(ScriptFault),
    #[error("body {number} {fault}")]
    Body { number: u8, fault: MapFault },
    #[error("hex")]
    Hex,
    /// The records of a node that are there aren't those of a fresh one.
    #[error("store not fresh")]
    StoreNotFresh,
    /// The folder or a file of a node's records can't be used.
    #[error("store")]
    Store,
    /// The node of a process crashed.
    #[error("crashed")]
    Crashed,
    #[error("memory")]
    Memory,
    #[error("output")]
    Output,
}

/// Want of memory.
impl From<AllocError> for Fault<'_> {
    ghost use Rattle.std.specs.Prelude.{◌≡◌};
    ghost use Rattle.upsched_ends.specs.declared.fault.Fault.TheVariants.{Memory};

    ghost from_gives = { λ _ given. given ≡ Memory };

    fn from(_error: AllocError) -> Self {
        Fault::Memory
    }
}

/// The fault of a write of what is printed. That of a read is `Fault::of_reading`.
impl From<io::Error> for Fault<'_> {
    ghost use Rattle.std.specs.Prelude.{◌≡◌};
    ghost use Rattle.upsched_ends.specs.declared.fault.Fault.TheVariants.{Output};

    ghost from_gives = { λ _ given. given ≡ Output };

    fn from(_error: io::Error) -> Self {
        Fault::Output
    }
}

impl<'a> Fault<'a> {
    ghost use Rattle.std.specs.Prelude.{◌≡◌, ◌≢◌, ◌⊎◌};
    ghost use Rattle.std.specs.IoError.{error_kind};
    ghost use Rattle.upsched_ends.specs.declared.status.Status.TheVariants.{Faulted};
    ghost use Rattle.upsched_ends.specs.declared.fault.Fault.TheVariants.{Memory, Unreadable};

    /// The fault of a read of the file of this path.
    pub fn of_reading(error: &io::Error, path: &'a str) -> Fault<'a>
        ensures memory { error_kind error.now ≡ ErrorKind.OutOfMemory → result ≡ Memory }
        ensures unreadable { error_kind error.now ≢ ErrorKind.OutOfMemory → result ≡ Unreadable path.entry }
        ensures either { (result ≡ Memory) ⊎ (result ≡ Unreadable path.entry) }
    {
        if error.kind() == ErrorKind::OutOfMemory {
            Fault::Memory
        } else {
            Fault::Unreadable(path)
        }
    }

    /// Writes the fault's line and gives the status that goes with it.
    pub fn told<E: Write>(&self, errors: &mut E) -> Status
        ensures { result ≡ Faulted }
    {
        let _ = writeln!(errors, "upsched: {self}");
        Status::Faulted
    }
}
