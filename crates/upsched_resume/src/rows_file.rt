//! The file of a scheduler's tables: a line, and the bytes of the tables behind it.

ghost use Rattle.std.specs.Prelude.{◌≡◌, ◌≢◌, ◌⊎◌, ◌++◌, ℕ, List, IfErr, IfOk, IfSome, MatchOption};
ghost use Rattle.upsched_ends.specs.declared.fault.Fault.TheVariants.{Memory, Unreadable};
ghost use Rattle.upsched_resume.specs.declared.fault.ResumeFault.TheVariants as resume_faults;
ghost use Rattle.upsched_resume.specs.Files.{IsRowsFault, IsRowsFile, TellsRowsFault, first_line, rows_file};

use crate::fault::ResumeFault;
use grant_machine::Machine;
use row_bytes::{read_rows, write_rows};
use std::alloc::Global;
use std::io::Read;
use upsched_ends::Fault;

/// The line with which a file of tables begins.
const FIRST_LINE: &[u8] = b"upsched rows 1\n";

/// All bytes of the file of this path.
fn bytes_of<'a, F: Read>(alloc: Global, file: &mut F, path: &'a str) -> Result<Vec<u8>, Fault<'a>>
    ensures bytes { IfOk result (λ read. IfSome (F.remaining file.old) (λ bytes. read.items ≡ bytes)) }
    ensures fault { IfErr result (λ fault. (fault ≡ Memory) ⊎ (fault ≡ Unreadable path.entry)) }
{
    let mut bytes = Vec::new(alloc);
    match file.read_to_end(&mut bytes) {
        Ok(_) => Ok(bytes),
        Err(error) => Err(Fault::of_reading(&error, path)),
    }
}

fn behind<'b>(bytes: &'b [u8], front: &[u8]) -> Option<&'b [u8]>
    ensures { MatchOption result ((rest : List ℕ) → bytes.now ≢ front.now ++ rest) (λ rest. bytes.now ≡ front.now ++ rest.now) }
{
    bytes.strip_prefix(front)
}

/// What follows the line with which a file of tables begins.
fn spelling_in(bytes: &[u8]) -> Option<&[u8]>
    ensures { MatchOption result ((rest : List ℕ) → bytes.now ≢ first_line ++ rest) (λ rest. bytes.now ≡ first_line ++ rest.now) }
{
    behind(bytes, FIRST_LINE)
}

/// The scheduler of a file's bytes.
fn machine_in<'a>(alloc: Global, bytes: &[u8]) -> Result<Machine, ResumeFault<'a>>
    ensures rows { IfOk result (IsRowsFile bytes.now) }
    ensures fault { IfErr result (IsRowsFault bytes.now) }
{
    let Some(spelling) = spelling_in(bytes) else {
        return Err(ResumeFault::NoRows);
    };
    match read_rows(alloc, spelling) {
        Ok(rows) => Ok(Machine::opened(alloc, rows)),
        Err(fault) => Err(ResumeFault::Rows {
            number: fault.number(),
            fault,
        }),
    }
}

/// The scheduler that stands at the tables of the file of this path.
pub fn machine_of<'a, F: Read>(
    alloc: Global,
    file: &mut F,
    path: &'a str,
) -> Result<Machine, ResumeFault<'a>>
    ensures rows { IfOk result (λ rows. IfSome (F.remaining file.old) (λ bytes. IsRowsFile bytes rows)) }
    ensures fault { IfErr result (λ fault. (fault ≡ resume_faults.Fault Memory) ⊎ (fault ≡ resume_faults.Fault (Unreadable path.entry))
        ⊎ TellsRowsFault (F.remaining file.old) fault) }
{
    let bytes = bytes_of(alloc, file, path)?;
    machine_in(alloc, bytes.as_slice())
}

/// The bytes of the file of a scheduler's tables.
pub fn file_of<'a>(alloc: Global, machine: &Machine) -> Result<Vec<u8>, Fault<'a>>
    ensures file { IfOk result (λ file. file.items ≡ rows_file machine.now) }
    ensures read { IfOk result (λ file. IsRowsFile file.items machine.now) }
    ensures fault { IfErr result (λ fault. fault ≡ Memory) }
{
    let mut file = Vec::new(alloc);
    file.extend_from_slice(FIRST_LINE)?;
    write_rows(machine.flows(), &mut file)?;
    Ok(file)
}
