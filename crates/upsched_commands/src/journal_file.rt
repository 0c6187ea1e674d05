//! The file of a node's journal.

use std::fs::{File, OpenOptions};
use std::io;
use std::io::Write;
use upsched_words::JournalWords;

/// A file in which a journal goes on behind all that is there. A flush syncs it, where that is asked for.
#[derive(Drop)]
pub(crate) struct JournalFile {
    file: File,
    is_synced: bool,
}

impl JournalFile {
    /// Opens the file that the words name, and makes it where it isn't there.
    pub(crate) fn open(rt: &HostRuntime, words: &JournalWords<'_>) -> io::Result<JournalFile> {
        let file = OpenOptions::new()
            .append(true)
            .create(true)
            .open(rt, words.path)?;
        Ok(JournalFile {
            file,
            is_synced: words.is_synced,
        })
    }
}

impl Write for JournalFile {
    fn write(&mut self, bytes: &[u8]) -> io::Result<usize> {
        self.file.write(bytes)
    }

    fn flush(&mut self) -> io::Result<()> {
        if self.is_synced {
            self.file.sync_data()
        } else {
            Ok(())
        }
    }
}
