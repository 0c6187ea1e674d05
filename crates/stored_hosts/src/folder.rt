//! A folder of files, and what is done to it.

ghost use Rattle.std.specs.Prelude.{ℕ, List, Option, IfErr, IfOk};
ghost use Rattle.std.specs.Result.{result_err};
ghost use Rattle.std.specs.declared.io.Error.{Error as Why};
ghost use Rattle.stored_hosts.specs.Acts.{Act};
ghost use Rattle.stored_hosts.specs.Acts.Act.{Makes, Removes, Renames, Syncs, SyncsFile, Writes};
ghost use Rattle.stored_hosts.specs.declared.names.HostFile.{HostFile as Name};

use crate::names::HostFile;
use std::io;

/// A folder of a host's files. Of what it does no more is known than that it was asked to do it, and what it answered.
pub trait Folder {
    /// A file that is being written.
    type Open: Drop;

    // These may be the host's files in it.
    ghost lists: { Self → List Name → Type 0 };

    // This file of it may hold these bytes.
    ghost holds: { Self → Name → List ℕ → Type 0 };

    // A look into it may fail so.
    ghost unread: { Self → Why → Type 0 };

    // What is being written may be this file.
    ghost is_open: { Self.Open → Name → Type 0 };

    // On the first this was done, or was tried and failed so, and it was the second then.
    ghost does: { Self → Act → Option Why → Self → Type 0 };

    /// The host's files in it, in some order: what else it holds is passed over.
    fn files(&self) -> io::Result<Vec<HostFile>>
        ensures lists { IfOk result (λ files. lists self.now files.items) }
        ensures unread { IfErr result (unread self.now) };

    /// All bytes of a file.
    fn read(&self, file: HostFile) -> io::Result<Vec<u8>>
        ensures holds { IfOk result (λ bytes. holds self.now file bytes.items) }
        ensures unread { IfErr result (unread self.now) };

    /// Makes a file, or empties it, to be written.
    fn make(&mut self, file: HostFile) -> io::Result<Self::Open>
        ensures open { IfOk result (λ made. is_open made file) }
        ensures does { does self.old (Makes file) (result_err result) self.new };

    /// Writes all of these bytes behind those that it wrote before.
    fn write(&mut self, target: &mut Self::Open, bytes: &[u8]) -> io::Result<()>
        ensures open { (file : Name) → is_open target.old file → is_open target.new file }
        ensures does { (file : Name) → is_open target.old file → does self.old (Writes file bytes.now) (result_err result) self.new };

    /// Syncs what was written.
    fn sync_file(&mut self, target: &mut Self::Open) -> io::Result<()>
        ensures does { (file : Name) → is_open target.old file → does self.old (SyncsFile file) (result_err result) self.new };

    /// Gives a file another name, in place of the file that had it.
    fn rename(&mut self, from: HostFile, to: HostFile) -> io::Result<()>
        ensures does { does self.old (Renames from to) (result_err result) self.new };

    /// Syncs the folder itself: which files it has.
    fn sync(&mut self) -> io::Result<()>
        ensures does { does self.old Syncs (result_err result) self.new };

    fn remove(&mut self, file: HostFile) -> io::Result<()>
        ensures does { does self.old (Removes file) (result_err result) self.new };
}
