//! Files in memory that stop, what a stop leaves of them, and what the records in them hold.

use log_ties::{Tie, tie_of};
use sqlite::{Alter, Connection, Error, FileStore, Files, Options};
use sqlite_disk::{Crash, Disk, Fuse, Memory};
use std::alloc::Global;
use std::io;
use std::test::Fail;
use store_anew::open_again;

pub type Fused = Fuse<Memory>;

/// Which of the two files is stopped.
#[derive(Clone, Copy)]
pub enum Stopped {
    Database,
    Log,
}

/// How many calls on the log, and on the database, pass where one of them is stopped after so many.
fn calls_of(stopped: Stopped, calls: u64) -> (u64, u64) {
    match stopped {
        Stopped::Database => (u64::MAX, calls),
        Stopped::Log => (calls, u64::MAX),
    }
}

/// What a stop leaves of a file: each byte that was written, as where the process alone died, or
/// nothing but what was synced.
#[derive(Drop)]
pub struct Left {
    pub written: Vec<u8>,
    pub synced: Vec<u8>,
}

/// What is left of the log and of the database.
#[derive(Drop)]
pub struct Bodies {
    pub log: Left,
    pub db: Left,
}

/// Which of these is found of the log, and of the database.
pub const FOUND: [(bool, bool); 4] = [(true, true), (true, false), (false, true), (false, false)];

fn is_whole(left: &Left) -> bool {
    left.written.as_slice() == left.synced.as_slice()
}

/// Whether this choice finds what another found: of a file that was synced as it was written.
pub fn is_again(bodies: &Bodies, which: (bool, bool)) -> bool {
    (!which.0 && is_whole(&bodies.log)) || (!which.1 && is_whole(&bodies.db))
}

fn left_of(alloc: Global, file: &mut Fused) -> Result<Left, Fail> {
    let written = Vec::from_slice(alloc, file.inner().bytes())?;
    file.crash();
    let synced = Vec::from_slice(alloc, file.inner().bytes())?;
    Ok(Left { written, synced })
}

pub fn left_behind(alloc: Global, mut files: Files<Fused>) -> Result<Bodies, Fail> {
    let log = left_of(alloc, &mut files.log)?;
    let db = left_of(alloc, &mut files.db)?;
    Ok(Bodies { log, db })
}

/// A file of these bytes, all of them synced, that passes so many calls on and fails each one
/// after.
fn fused(alloc: Global, bytes: &[u8], calls: u64) -> io::Result<Fused> {
    let mut file = Memory::new(alloc);
    file.write_at(0, bytes)?;
    file.sync()?;
    Ok(Fuse::new(file, calls))
}

/// Files of these bytes, of the log and of the database, one of which stops after so many calls.
pub fn stopping(
    alloc: Global,
    bytes: (&[u8], &[u8]),
    stopped: Stopped,
    calls: u64,
) -> io::Result<Files<Fused>> {
    let (log, db) = calls_of(stopped, calls);
    Ok(Files {
        log: fused(alloc, bytes.0, log)?,
        db: fused(alloc, bytes.1, db)?,
    })
}

fn bytes_of(left: &Left, is_written: bool) -> &[u8] {
    if is_written {
        left.written.as_slice()
    } else {
        left.synced.as_slice()
    }
}

/// Fails where the files look as if one of them had lost something.
fn tied<D: Disk>(alloc: Global, files: &mut Files<D>) -> Result<(), Fail> {
    if !files.may_be_used() {
        return Err(Fail::new("a sync failed"));
    }
    match tie_of(alloc, files) {
        Ok(Tie::Lost(loss)) => Err(Fail::new(format_args!("told as lost: {loss:?}"))),
        Ok(_) => Ok(()),
        Err(_) => Err(Fail::new("a read failed")),
    }
}

/// What is found of the files: what was written to the log, or synced, and likewise of the
/// database. No stop leaves files that look as if one had lost something.
pub fn found(alloc: Global, bodies: &Bodies, which: (bool, bool)) -> Result<Files<Fused>, Fail> {
    let log = bytes_of(&bodies.log, which.0);
    let db = bytes_of(&bodies.db, which.1);
    let mut files = stopping(alloc, (log, db), Stopped::Log, u64::MAX)?;
    tied(alloc, &mut files)?;
    Ok(files)
}

/// A connection to the files, or the files again. Each commit copies the log into the database.
/// With few pages in memory it is opened soon.
pub fn connected<D: Disk + Drop>(
    alloc: Global,
    files: Files<D>,
) -> Result<Connection<FileStore<D>>, Files<D>> {
    let options = Options {
        cache_pages: 8,
        spill_pages: 8,
        checkpoint_frames: 1,
        seed: 1,
    };
    match open_again(alloc, files, options) {
        Ok(conn) => Ok(conn),
        Err((_, files)) => Err(files),
    }
}

/// Runs these texts.
pub fn run<S: Alter + Drop>(conn: &mut Connection<S>, texts: &[&str]) -> Result<(), Error> {
    for text in texts {
        conn.execute_batch(text)?;
    }
    Ok(())
}
