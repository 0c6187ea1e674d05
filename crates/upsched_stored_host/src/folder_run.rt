//! A host over a folder and databases serves over lines.

ghost use Rattle.std.specs.Prelude.{◌≡◌};
ghost use Rattle.ballots.specs.Members.{member_count};
ghost use Rattle.upsched_host.specs.declared.folder_words.HostStart.TheVariants.{Join, Left, New};
ghost use Rattle.upsched_stored_host.specs.Folder.{RunsFolder};

use crate::serving::{serve_from, serve_on, serve_once_joined};
use crate::stopped::{Stopped, ended};
use ballots::{Members, NodeId};
use folder_hosts::{Databases, FolderOpens, new_host, resumed_host, waiting};
use host_service::{Beginning, HostServer};
use hosts::Opens;
use kept_node::KeptNode;
use node::Node;
use node_lines::Ahead;
use node_service::{Lines, Outbox};
use std::alloc::Global;
use stored_hosts::Folder;
use upsched_host::HostStart;

/// Where a host keeps what it did, and how many places of each epoch count.
#[derive(Drop)]
pub struct HostFolder<F, D> {
    pub folder: F,
    pub databases: D,
    pub places: u64,
}

impl<F: Folder + Drop, D: Databases> HostFolder<F, D> {
    /// Which member of how many it is of.
    fn member(&self) -> (NodeId, Members)
        ensures { D.member self.now.databases ≡ (result.0, member_count result.1) }
    {
        (self.databases.id(), self.databases.members())
    }
}

/// A host begins in its folder.
fn serve_new<'a, F: Folder + Drop, D: Databases, I: Lines + Ahead, O: Outbox>(
    alloc: Global,
    given: HostFolder<F, D>,
    input: &mut I,
    output: &mut O,
) -> Result<(), Stopped<'a, KeptNode<D::Store>>>
    ensures { RunsFolder F.Folder D.Databases D.Store.WriteStore ⟦<FolderOpens<F, D> as Opens>⟧ ⟦<KeptNode<D::Store> as Node>⟧ I.Lines O.Outbox
        given New result input.old output.old input.new output.new }
{
    let (id, members) = given.member();
    let who = (id, members, given.places);
    match new_host(alloc, given.folder, given.databases, given.places) {
        Ok(host) => {
            let mut server = HostServer::new(host);
            let end = serve_from(alloc, &mut server, who, Beginning::Fresh, input, output);
            ended(end, server)
        }
        Err(fault) => Err(Stopped::Unstarted(fault)),
    }
}

/// It goes on over its folder.
fn serve_again<'a, F: Folder + Drop, D: Databases, I: Lines + Ahead, O: Outbox>(
    alloc: Global,
    given: HostFolder<F, D>,
    input: &mut I,
    output: &mut O,
) -> Result<(), Stopped<'a, KeptNode<D::Store>>>
    ensures { RunsFolder F.Folder D.Databases D.Store.WriteStore ⟦<FolderOpens<F, D> as Opens>⟧ ⟦<KeptNode<D::Store> as Node>⟧ I.Lines O.Outbox
        given Left result input.old output.old input.new output.new }
{
    let (id, members) = given.member();
    let who = (id, members, given.places);
    match resumed_host(alloc, given.folder, given.databases, given.places) {
        Ok(host) => {
            let mut server = HostServer::new(host);
            let end = serve_on(alloc, &mut server, who, input, output);
            ended(end, server)
        }
        Err(fault) => Err(Stopped::Unstarted(fault)),
    }
}

/// It waits for a state, and goes on behind that.
fn serve_joining<'a, F: Folder + Drop, D: Databases, I: Lines + Ahead, O: Outbox>(
    alloc: Global,
    given: HostFolder<F, D>,
    input: &mut I,
    output: &mut O,
) -> Result<(), Stopped<'a, KeptNode<D::Store>>>
    ensures { RunsFolder F.Folder D.Databases D.Store.WriteStore ⟦<FolderOpens<F, D> as Opens>⟧ ⟦<KeptNode<D::Store> as Node>⟧ I.Lines O.Outbox
        given Join result input.old output.old input.new output.new }
{
    let (id, members) = given.member();
    let who = (id, members, given.places);
    match waiting(alloc, given.folder, given.databases) {
        Ok(opens) => serve_once_joined(alloc, opens, who, input, output),
        Err(fault) => Err(Stopped::Unstarted(fault)),
    }
}

/// Serves as the host of a folder and its databases, which begins so.
fn serve_folder<'a, F: Folder + Drop, D: Databases, I: Lines + Ahead, O: Outbox>(
    alloc: Global,
    given: HostFolder<F, D>,
    start: HostStart,
    input: &mut I,
    output: &mut O,
) -> Result<(), Stopped<'a, KeptNode<D::Store>>>
    ensures { RunsFolder F.Folder D.Databases D.Store.WriteStore ⟦<FolderOpens<F, D> as Opens>⟧ ⟦<KeptNode<D::Store> as Node>⟧ I.Lines O.Outbox
        given start result input.old output.old input.new output.new }
{
    match start {
        HostStart::New => serve_new(alloc, given, input, output),
        HostStart::Left => serve_again(alloc, given, input, output),
        HostStart::Join => serve_joining(alloc, given, input, output),
    }
}

/// The same, of each alone.
pub fn serve_over<'a, F: Folder + Drop, D: Databases, I: Lines + Ahead, O: Outbox>(
    alloc: Global,
    folder: F,
    databases: D,
    places: u64,
    start: HostStart,
    input: &mut I,
    output: &mut O,
) -> Result<(), Stopped<'a, KeptNode<D::Store>>>
    ensures { RunsFolder F.Folder D.Databases D.Store.WriteStore ⟦<FolderOpens<F, D> as Opens>⟧ ⟦<KeptNode<D::Store> as Node>⟧ I.Lines O.Outbox
        (record { folder = folder; databases = databases; places = places }) start result input.old output.old input.new output.new }
{
    let given = HostFolder {
        folder,
        databases,
        places,
    };
    serve_folder(alloc, given, start, input, output)
}
