//! The files that words name.

use std::fs;
use std::fs::File;
use upsched_ends::Fault;

/// The file of a path, which is read.
pub(crate) fn opened<'a>(rt: &HostRuntime, path: &'a str) -> Result<File, Fault<'a>> {
    match fs::open(rt, path) {
        Ok(file) => Ok(file),
        Err(error) => Err(Fault::of_reading(&error, path)),
    }
}
