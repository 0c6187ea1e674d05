//! What `host` is told of a folder of its own.

/// How a host over a folder is to begin.
#[derive(Clone, Copy, Debug, PartialEq, Eq)]
pub enum HostStart {
    /// As a new one, in a folder that none had.
    New,
    /// It goes on over what it left there.
    Left,
    /// Behind a state for which it waits.
    Join,
}

/// What `host` is told of its folder.
#[derive(Clone, Copy, Debug)]
pub struct FolderWords<'a> {
    pub path: &'a str,
    pub start: HostStart,
}
