//! Why a host over a folder ended before its input did.

ghost use Rattle.std.specs.Prelude.{◌≡◌, ℕ, false};
ghost use Rattle.host_service.specs.Replying.{host_of};
ghost use Rattle.hosts.specs.Hosts.{are_up};
ghost use Rattle.hosts.specs.Keeping.{IsDownNode};
ghost use Rattle.upsched_node.specs.Ends.{write_fault};
ghost use Rattle.upsched_stored_host.specs.Ends.{IsEndOf, TellsEnd};
ghost use Rattle.upsched_stored_host.specs.Serving.{TellsUnjoined};
ghost use Rattle.upsched_stored_host.specs.declared.stopped.Stopped.TheVariants.{Crashed};

use folder_hosts::HostStartFault;
use host_service::HostServer;
use hosts::{Host, Opens};
use node_lines::Unwritten;
use node_service::BatchedEnd;
use upsched_ends::Fault;
use upsched_node::{unread, unwritten};

/// Why a host over a folder ended before its input did.
#[derive(Drop)]
pub enum Stopped<'a, C> {
    /// It didn't start.
    Unstarted(HostStartFault),
    /// Its node of this epoch crashed: that node, or the cause.
    Crashed(u64, C),
    Ended(Fault<'a>),
}

/// What is told of a write that failed.
pub(crate) fn not_written<'a, C>(why: Unwritten) -> Stopped<'a, C>
    ensures { result ≡ Stopped.Ended (write_fault why) }
{
    Stopped::Ended(unwritten(why))
}

/// What is told of a host of which a node is down: that node.
fn crashed<'a, P: Opens>(host: Host<P>) -> Stopped<'a, P::Node>
    ensures { are_up host ≡ false → (e : ℕ) × (node : _) × IsDownNode host e node × (result ≡ Crashed e node) }
{
    match host.into_crashed() {
        Some((epoch, node)) => Stopped::Crashed(epoch, node),
        None => Stopped::Ended(Fault::Crashed),
    }
}

/// What is told of how the lines of a host ended, which is let go: nothing where there are no more.
pub(crate) fn ended<'a, P: Opens>(
    end: BatchedEnd,
    server: HostServer<P>,
) -> Result<(), Stopped<'a, P::Node>>
    requires { IsEndOf end (are_up (host_of server)) }
    ensures { TellsEnd (IsDownNode (host_of server)) end result }
{
    match end {
        BatchedEnd::Input => Ok(()),
        BatchedEnd::Crashed | BatchedEnd::Uncommitted => Err(crashed(server.into_host())),
        BatchedEnd::Unreadable | BatchedEnd::Spent => Err(Stopped::Ended(unread())),
        BatchedEnd::Unwritten(why) => Err(not_written(why)),
    }
}

/// The same of lines that came while it waited for a state. It has no node then.
pub(crate) fn unjoined<'a, C>(end: BatchedEnd) -> Result<(), Stopped<'a, C>>
    ensures { TellsUnjoined end result }
{
    match end {
        BatchedEnd::Input => Ok(()),
        BatchedEnd::Crashed | BatchedEnd::Uncommitted => Err(Stopped::Ended(Fault::Crashed)),
        BatchedEnd::Unreadable | BatchedEnd::Spent => Err(Stopped::Ended(unread())),
        BatchedEnd::Unwritten(why) => Err(not_written(why)),
    }
}
