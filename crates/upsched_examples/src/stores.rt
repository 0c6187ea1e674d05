//! Folders of databases.

use std::{fs, io};

/// A folder with a file that is no database.
pub const STRANGE: &str = "strange.store";

/// A folder in which node 0 has a database of version 1, in which it promised and voted, without its log.
pub const VOTED: &str = "voted.store";

/// A folder without a file.
pub const EMPTY: &str = "empty.store";

/// Folders in which node 0 has a database of version 1, the database, and whether its log is there.
const OLDER: [(&str, &str, bool); 3] = [
    (VOTED, "older/voted.db", false),
    ("older.store", "older/fresh.db", true),
    ("fresh.store", "older/fresh.db", true),
];

fn make_strange_folder(rt: &HostRuntime) -> io::Result<()> {
    fs::create_dir(rt, STRANGE)?;
    let path = format!(in rt.alloc(); "{STRANGE}/node-1.db")?;
    fs::write(rt, path.as_str(), b"no database")
}

/// Makes a folder in which node 0 has a copy of this database, and of its log where that is there.
fn make_older_folder(
    rt: &HostRuntime,
    folder: &str,
    database: &str,
    has_log: bool,
) -> io::Result<()> {
    fs::create_dir(rt, folder)?;
    let path = format!(in rt.alloc(); "{folder}/node-0.db")?;
    fs::copy(rt, database, path.as_str())?;
    if has_log {
        let log = format!(in rt.alloc(); "{database}-wal")?;
        let path = format!(in rt.alloc(); "{folder}/node-0.db-wal")?;
        fs::copy(rt, log.as_str(), path.as_str())?;
    }
    Ok(())
}

/// Makes all of these folders.
pub fn make_folders(rt: &HostRuntime) -> io::Result<()> {
    make_strange_folder(rt)?;
    for (folder, database, has_log) in OLDER {
        make_older_folder(rt, folder, database, has_log)?;
    }
    fs::create_dir(rt, EMPTY)
}

/// Whether the folder with a file that is no database is as it was made: with that one file.
pub fn strange_stays(rt: &HostRuntime) -> io::Result<bool> {
    let mut found = 0usize;
    for entry in fs::read_dir(rt, STRANGE)? {
        let _entry = entry?;
        found = found.saturating_add(1);
    }
    Ok(found == 1)
}
