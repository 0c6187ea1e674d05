//! A folder of the operating system.

use crate::folder::Folder;
use crate::names::{HostFile, path_of, read_name};
use std::fs::File;
use std::io::{ErrorKind, Write};
use std::{fs, io};

/// The folder of this path, which has to be there.
#[derive(Drop)]
pub struct FolderAt<'a> {
    rt: &'a HostRuntime,
    path: &'a str,
}

impl<'a> FolderAt<'a> {
    pub fn new(rt: &'a HostRuntime, path: &'a str) -> FolderAt<'a> {
        FolderAt { rt, path }
    }

    fn path_of(&self, file: HostFile) -> io::Result<String> {
        Ok(path_of(self.rt.alloc(), self.path, file)?)
    }
}

// No contract can say what a folder holds, nor what a call does to it.
impl<'a> Folder for FolderAt<'a> {
    type Open = File;

    ghost lists = { λ _ _. Unit {0} };

    ghost holds = { λ _ _ _. Unit {0} };

    ghost unread = { λ _ _. Unit {0} };

    ghost is_open = { λ _ _. Unit {0} };

    ghost does = { λ _ _ _ _. Unit {0} };

    fn files(&self) -> io::Result<Vec<HostFile>> {
        let mut files = Vec::new(self.rt.alloc());
        for entry in fs::read_dir(self.rt, self.path)? {
            match entry {
                Ok(entry) => {
                    if let Some(file) = read_name(entry.file_name().as_bytes()) {
                        files.push(file)?;
                    }
                }
                // A name that is no text is none of a host's.
                Err(error) if error.kind() == ErrorKind::InvalidFilename => {}
                Err(error) => return Err(error),
            }
        }
        Ok(files)
    }

    fn read(&self, file: HostFile) -> io::Result<Vec<u8>> {
        fs::read(self.rt, self.path_of(file)?.as_str())
    }

    fn make(&mut self, file: HostFile) -> io::Result<File> {
        fs::create(self.rt, self.path_of(file)?.as_str())
    }

    fn write(&mut self, target: &mut File, bytes: &[u8]) -> io::Result<()> {
        target.write_all(bytes)
    }

    fn sync_file(&mut self, target: &mut File) -> io::Result<()> {
        target.sync_all()
    }

    fn rename(&mut self, from: HostFile, to: HostFile) -> io::Result<()> {
        let (from, to) = (self.path_of(from)?, self.path_of(to)?);
        fs::rename(self.rt, from.as_str(), to.as_str())
    }

    fn sync(&mut self) -> io::Result<()> {
        fs::open(self.rt, self.path)?.sync_all()
    }

    fn remove(&mut self, file: HostFile) -> io::Result<()> {
        fs::remove_file(self.rt, self.path_of(file)?.as_str())
    }
}
