//! Why `resume` ends with status 1.

use row_bytes::RowsFault;
use std::io::Write;
use thiserror::Error;
use upsched_ends::{Fault, Status};

/// What is told on standard error, behind the program's name.
#[derive(Debug, Drop, Error)]
pub enum ResumeFault<'a> {
    /// A fault that other commands have too.
    #[error("{0}")]
    Fault(Fault<'a>),
    /// The file doesn't begin with the line of a file of tables.
    #[error("no rows")]
    NoRows,
    /// The bytes behind that line spell no tables.
    #[error("rows {number} {fault}")]
    Rows { number: u8, fault: RowsFault },
}

impl<'a> From<Fault<'a>> for ResumeFault<'a> {
    ghost use Rattle.std.specs.Prelude.{◌≡◌};
    ghost use Rattle.upsched_resume.specs.declared.fault.ResumeFault.TheVariants.{Fault};

    ghost from_gives = { λ fault given. given ≡ Fault fault };

    fn from(fault: Fault<'a>) -> ResumeFault<'a> {
        ResumeFault::Fault(fault)
    }
}

impl<'a> ResumeFault<'a> {
    ghost use Rattle.std.specs.Prelude.{◌≡◌};
    ghost use Rattle.upsched_ends.specs.declared.status.Status.TheVariants.{Faulted};

    /// Writes the fault's line and gives the status that goes with it.
    pub fn told<E: Write>(&self, errors: &mut E) -> Status
        ensures { result ≡ Faulted }
    {
        let _ = writeln!(errors, "upsched: {self}");
        Status::Faulted
    }
}
