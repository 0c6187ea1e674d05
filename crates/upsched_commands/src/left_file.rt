//! A file that is left whole or not at all.

use std::fs::File;
use std::io::{ErrorKind, Write};
use std::path::Path;
use std::{fs, io};
use upsched_ends::Fault;

/// Whether a file may be left at this path: nothing is there, or a regular file.
fn may_be_left(rt: &HostRuntime, path: &str) -> bool {
    match fs::metadata(rt, path) {
        Ok(found) => found.is_file(),
        Err(error) => error.kind() == ErrorKind::NotFound,
    }
}

/// Syncs the folder of a path.
fn sync_folder(rt: &HostRuntime, path: &str) -> io::Result<()> {
    let folder = match Path::new(path).parent() {
        Some(folder) if folder.as_str() != "" => folder.as_str(),
        _ => ".",
    };
    fs::open(rt, folder)?.sync_all()
}

/// The file of a path, which is written as `PATH.part` beside what is there.
#[derive(Drop)]
pub(crate) struct LeftFile<'a> {
    path: &'a str,
    part: String,
    file: File,
}

impl<'a> LeftFile<'a> {
    /// Makes `PATH.part`. What is at the path stays.
    pub(crate) fn create(rt: &HostRuntime, path: &'a str) -> Result<LeftFile<'a>, Fault<'a>> {
        if !may_be_left(rt, path) {
            return Err(Fault::Output);
        }
        let part = format!(in rt.alloc(); "{path}.part")?;
        let file = fs::create(rt, part.as_str())?;
        Ok(LeftFile { path, part, file })
    }

    /// Writes the file whole, syncs it, gives it its name and syncs its folder.
    pub(crate) fn put(&mut self, rt: &HostRuntime, bytes: &[u8]) -> io::Result<()> {
        self.file.write_all(bytes)?;
        self.file.sync_all()?;
        fs::rename(rt, self.part.as_str(), self.path)?;
        sync_folder(rt, self.path)
    }

    /// Takes `PATH.part` away, as far as that goes.
    pub(crate) fn remove_part(&self, rt: &HostRuntime) {
        let _ = fs::remove_file(rt, self.part.as_str());
    }
}
