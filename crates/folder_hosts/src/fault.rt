//! Why there is no host over a folder.

ghost use Rattle.std.specs.Prelude.{◌≡◌};
ghost use Rattle.folder_hosts.specs.Faults.{IsEither, IsOfFolder, IsOfSurvey, IsRefused, is_missing, is_want};
ghost use Rattle.folder_hosts.specs.Faults.{node_told, of_state};

use acceptor_store::{OpenFault, OwnerFault};
use host_states::StateHead;
use node::NodeFault;
use std::alloc::AllocError;
use std::io;
use stored_hosts::FolderFault;
use stored_nodes::{FileFault, StartFault};
use thiserror::Error;

/// What stands against a start in the state of an epoch.
#[derive(Clone, Copy, Debug)]
pub enum StateCause {
    /// It is there, and the host is to begin.
    NotFresh,
    /// It is another host's, as this says.
    OtherNode(StateHead),
    /// It is this host's as one of other members.
    OtherMembers(StateHead),
    /// It is this host's, of epochs with other places.
    OtherPlaces(StateHead),
    /// It isn't whole, or its numbers are none of a host's.
    Damaged,
    /// A call on its file failed.
    Unusable(FileFault),
}

/// Why there is no host over a folder, or why a call on the folder failed.
#[derive(Clone, Copy, Debug, Error)]
pub enum HostStartFault {
    /// The folder has no state.
    #[error("NoState")]
    NoState,
    /// An epoch has 1 to 999,000 places that count, and these aren't.
    #[error("Places")]
    Places,
    /// The folder itself can't be looked into.
    #[error("{0}")]
    Folder(FileFault),
    /// The database of this epoch can't be used.
    #[error("{1}")]
    Database(u64, StartFault),
    /// The state of this epoch can't be.
    #[error("State")]
    State(u64, StateCause),
    #[error("OutOfMemory")]
    OutOfMemory,
}

impl From<AllocError> for HostStartFault {
    ghost use Rattle.folder_hosts.specs.declared.fault.HostStartFault.TheVariants.{OutOfMemory};

    ghost from_gives = { λ _ given. given ≡ OutOfMemory };

    fn from(_fault: AllocError) -> HostStartFault {
        HostStartFault::OutOfMemory
    }
}

/// Whether there is no database: no file, or one without tables.
pub(crate) fn is_missing(fault: &StartFault) -> bool
    ensures { result ≡ is_missing fault.now }
{
    matches!(
        fault,
        StartFault::NoFile | StartFault::Unopened(OwnerFault::Blank)
    )
}

/// Whether a database wasn't opened for want of memory.
fn is_want(fault: StartFault) -> bool
    ensures { result ≡ is_want fault }
{
    matches!(
        fault,
        StartFault::OutOfMemory
            | StartFault::Unread(NodeFault::OutOfMemory)
            | StartFault::Unopened(OwnerFault::Open(OpenFault::OutOfMemory))
    )
}

/// What a host tells of it, where it goes on.
pub(crate) fn node_told(fault: &HostStartFault) -> NodeFault
    ensures { result ≡ node_told fault.now }
{
    match fault {
        HostStartFault::OutOfMemory => NodeFault::OutOfMemory,
        HostStartFault::Database(_, why) if is_want(*why) => NodeFault::OutOfMemory,
        _ => NodeFault::StoreRefused,
    }
}

/// Why the state of an epoch wasn't read or written.
pub(crate) fn state_refused(epoch: u64, error: io::Error) -> HostStartFault
    ensures told { IsRefused (of_state epoch) error result }
    ensures either { IsEither (of_state epoch) result }
{
    match StartFault::from(error) {
        StartFault::Unusable(why) => HostStartFault::State(epoch, StateCause::Unusable(why)),
        _ => HostStartFault::OutOfMemory,
    }
}

/// Why the folder wasn't looked into.
pub(crate) fn folder_refused(error: io::Error) -> HostStartFault
    ensures { IsOfFolder error result }
{
    match StartFault::from(error) {
        StartFault::Unusable(why) => HostStartFault::Folder(why),
        _ => HostStartFault::OutOfMemory,
    }
}

/// Why there is no start over what a survey found.
pub(crate) fn survey_told(fault: FolderFault) -> HostStartFault
    ensures { IsOfSurvey fault result }
{
    match fault {
        FolderFault::NoStore(epoch) => HostStartFault::Database(epoch, StartFault::NoFile),
        FolderFault::OtherNode(head) => HostStartFault::State(
            head.epoch,
            StateCause::OtherNode(head),
        ),
        FolderFault::OtherMembers(head) => HostStartFault::State(
            head.epoch,
            StateCause::OtherMembers(head),
        ),
        FolderFault::OtherPlaces(head) => HostStartFault::State(
            head.epoch,
            StateCause::OtherPlaces(head),
        ),
        FolderFault::Damaged(epoch) => HostStartFault::State(epoch, StateCause::Damaged),
        FolderFault::Unread(epoch, error) => state_refused(epoch, error),
        FolderFault::Refused(error) => folder_refused(error),
        FolderFault::OutOfMemory => HostStartFault::OutOfMemory,
    }
}
