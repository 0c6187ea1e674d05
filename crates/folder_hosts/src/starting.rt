//! How a host over a folder starts.

ghost use Rattle.std.specs.Prelude.{◌≡◌, ◌↔◌, ℕ, List, [], None, Ok, Contains, IfErr, IfOk, IsTrue, MatchOption};
ghost use Rattle.std.specs.Prelude.{MatchResult, OnOk};
ghost use Rattle.std.specs.declared.io.Error.{Error};
ghost use Rattle.acceptor.specs.Content.{Content};
ghost use Rattle.hosts.specs.Hosts.{AreMembers, IsHonest, StandsAs, begins_of, member_of, places_of};
ghost use Rattle.hosts.specs.Keeping.{HaveKept};
ghost use Rattle.hosts.specs.New.{ArePlaces};
ghost use Rattle.hosts.specs.Views.{AreBegun, opening};
ghost use Rattle.host_states.specs.States.{state_bytes};
ghost use Rattle.folder_hosts.specs.Databases.{IsBegun, KeepsDatabases, OpensDatabase};
ghost use Rattle.folder_hosts.specs.Faults.{IsOfFolder};
ghost use Rattle.folder_hosts.specs.Folders.{LetsGo, SameElse};
ghost use Rattle.folder_hosts.specs.Starting.{AreUnused, BeginsFolder, HasNoState, HasState, HasUsed};
ghost use Rattle.folder_hosts.specs.Starting.{IsNoBeginning, IsNoNew, IsNoResuming, IsNoWaiting, IsOfFirst};
ghost use Rattle.folder_hosts.specs.Starting.{IsOfRecords, IsUsed, Resumes, first_head, which_of};
ghost use Rattle.stored_hosts.specs.Acts.{AreDone};
ghost use Rattle.stored_hosts.specs.Committing.{commit_of, file_of};
ghost use Rattle.stored_hosts.specs.Surveying.{Surveys};
ghost use Rattle.stored_hosts.specs.declared.finding.Found.TheVariants.{Whole};
ghost use Rattle.stored_hosts.specs.declared.finding.Start.{Start as FoundStart};
ghost use Rattle.stored_hosts.specs.declared.names.FileKind.TheVariants.{State};
ghost use Rattle.stored_hosts.specs.declared.names.HostFile.{HostFile as Name};
ghost use Rattle.stored_nodes.specs.declared.start.StartFault.{StartFault};

use crate::databases::Databases;
use crate::fault::{HostStartFault, StateCause, folder_refused, state_refused, survey_told};
use crate::opens::FolderOpens;
use grant_machine::Machine;
use host_states::{StateHead, state_bytes};
use hosts::{Host, HostFault, JoinFault, MOST_EPOCH_PLACES, Opens, Start};
use std::alloc::Global;
use stored_hosts::{FileKind, Folder, Found, HostFile, WhichHost, commit_bytes, survey};

fn is_state(file: HostFile) -> bool
    ensures { IsTrue result ↔ (file ≡ file_of file.epoch State) }
{
    matches!(file.kind, FileKind::State)
}

fn is_of_records(kind: FileKind) -> bool
    ensures { IsTrue result ↔ IsOfRecords kind }
{
    matches!(kind, FileKind::Database | FileKind::Log)
}

/// The epoch of the first of these files that is a state.
fn state_in(files: &[HostFile]) -> Option<u64>
    ensures { MatchOption result (HasNoState files.now) (λ epoch. Contains files.now (file_of epoch State)) }
{
    for file in files {
        if is_state(*file) {
            return Some(file.epoch);
        }
    }
    None
}

/// Refuses a folder with a state.
fn refuse_states(files: &[HostFile]) -> Result<(), HostStartFault>
    ensures { MatchResult result (λ _. HasNoState files.now) (HasState files.now) }
{
    match state_in(files) {
        Some(epoch) => Err(HostStartFault::State(epoch, StateCause::NotFresh)),
        None => Ok(()),
    }
}

/// Refuses a file of records where the database of its epoch holds anything, or isn't of these nodes.
fn refuse_used<D: Databases>(databases: &D, file: HostFile) -> Result<(), HostStartFault>
    ensures unused { OnOk result (IsOfRecords file.kind → D.tells databases.now file.epoch None) }
    ensures used { IfErr result (IsUsed D.tells databases.now file) }
{
    if !is_of_records(file.kind) {
        return Ok(());
    }
    match databases.refuse_used(file.epoch) {
        Ok(()) => Ok(()),
        Err(why) => Err(HostStartFault::Database(file.epoch, why)),
    }
}

/// Refuses a folder with such a file.
fn refuse_any_used<D: Databases>(databases: &D, files: &[HostFile]) -> Result<(), HostStartFault>
    ensures unused { OnOk result (AreUnused D.tells databases.now files.now) }
    ensures used { IfErr result (HasUsed D.tells databases.now files.now) }
{
    for file in files {
        refuse_used(databases, *file)?;
    }
    Ok(())
}

/// The host's files in a folder.
fn files_of<F: Folder>(folder: &F) -> Result<Vec<HostFile>, HostStartFault>
    ensures listed { IfOk result (λ files. F.lists folder.now files.items) }
    ensures fails { IfErr result (λ told. (why : Error) × F.unread folder.now why × IsOfFolder why told) }
{
    match folder.files() {
        Ok(files) => Ok(files),
        Err(error) => Err(folder_refused(error)),
    }
}

impl<F: Folder + Drop, D: Databases> FolderOpens<F, D> {
    /// Over a folder and databases, of which those up to this epoch have to be there.
    fn over(alloc: Global, folder: F, databases: D, known: u64) -> FolderOpens<F, D>
        ensures { result ≡ record { alloc = alloc; folder = folder; databases = databases; known = known; last = None } }
    {
        FolderOpens {
            alloc,
            folder,
            databases,
            known,
            last: None,
        }
    }

    /// Makes the database of an epoch, or finds that it is there.
    fn make(&mut self, epoch: u64) -> Result<(), HostStartFault>
        ensures opens { OnOk result (OpensDatabase D.opens self.old.known epoch self.old.databases None self.new.databases) }
        ensures fails { IfErr result (λ told. (why : StartFault) × (told ≡ HostStartFault.Database epoch why)) }
        ensures keeps { KeepsDatabases D.member D.begins self.old.databases self.new.databases }
        ensures same { SameElse self.old self.new × (self.new.folder ≡ self.old.folder) }
    {
        match self.opened(epoch) {
            Ok(_node) => Ok(()),
            Err(fault) => Err(HostStartFault::Database(epoch, fault)),
        }
    }

    /// Keeps the state at the start of the first epoch, of so many places, which has no tables.
    fn keep_first(&mut self, places: u64) -> Result<(), HostStartFault>
        ensures done { OnOk result (AreDone F.does self.old.folder
            (commit_of 1 (state_bytes (first_head places (D.member self.old.databases)) [])) self.new.folder) }
        ensures fails { IfErr result IsOfFirst }
        ensures same { SameElse self.old self.new × (self.new.databases ≡ self.old.databases) }
    {
        let head = StateHead {
            epoch: 1,
            places,
            before: 0,
            id: self.databases.id().number(),
            members: self.databases.members().count(),
        };
        let bytes = state_bytes(self.alloc, &head, &Machine::new(self.alloc))?;
        match commit_bytes(&mut self.folder, 1, bytes.as_slice()) {
            Ok(()) => Ok(()),
            Err(error) => Err(state_refused(1, error)),
        }
    }

    /// Makes what a new host has in its folder.
    fn begin(&mut self, places: u64) -> Result<(), HostStartFault>
        requires { self.old.known ≡ 0 }
        ensures begins { OnOk result (BeginsFolder F.lists F.does D.opens D.tells places (D.member self.old.databases) self.old.folder self.old.databases
            self.new.folder self.new.databases) }
        ensures fails { IfErr result (IsNoBeginning F.lists F.unread D.tells self.old.folder self.old.databases) }
        ensures keeps { KeepsDatabases D.member D.begins self.old.databases self.new.databases }
        ensures same { SameElse self.old self.new }
    {
        let files = files_of(&self.folder)?;
        refuse_states(files.as_slice())?;
        refuse_any_used(&self.databases, files.as_slice())?;
        self.make(1)?;
        self.make(2)?;
        self.keep_first(places)
    }

    /// Why the last call failed.
    fn why(&self) -> HostStartFault {
        match self.last {
            Some(why) => why,
            None => HostStartFault::OutOfMemory,
        }
    }
}

/// A host that begins in a folder without a state, of so many places in an epoch, 1 to 999,000. No database that is
/// there may hold anything: one of a start that was stopped is gone on over. The first two are made, or are there, and
/// then the state of the first epoch is put into the folder. So a start that was stopped can be tried again as it was.
pub fn new_host<F: Folder + Drop, D: Databases>(
    alloc: Global,
    folder: F,
    databases: D,
    places: u64,
) -> Result<Host<FolderOpens<F, D>>, HostStartFault>
    ensures begun { OnOk result (ArePlaces places
        × ((f : F) × (d : D) × BeginsFolder F.lists F.does D.opens D.tells places (D.member databases) folder databases f d)) }
    ensures none { IfErr result (λ told. IsNoNew (ArePlaces places) (IsNoBeginning F.lists F.unread D.tells folder databases)
        ((f : F) × (d : D) × BeginsFolder F.lists F.does D.opens D.tells places (D.member databases) folder databases f d) told) }
    ensures places { IfOk result (λ host. places_of host ≡ places) }
    ensures member { IfOk result (λ host. member_of host ≡ D.member databases) }
    ensures members { IfOk result AreMembers }
    ensures kept { IfOk result HaveKept }
    ensures begins { IfOk result (λ host. (e : ℕ) (c : Content) → begins_of host e c → IsBegun D.Store.WriteStore D.begins databases e c) }
    ensures stands { IfOk result (λ host. IsHonest host → (contents : ℕ → Content) × AreBegun (IsBegun D.Store.WriteStore D.begins databases) 1 2 contents
        × StandsAs host (opening contents)) }
{
    if places == 0 || MOST_EPOCH_PLACES < places {
        return Err(HostStartFault::Places);
    }
    let mut opens = FolderOpens::over(alloc, folder, databases, 0);
    opens.begin(places)?;
    opens.known = 2;
    match Host::begun(alloc, opens, places) {
        Ok(host) => Ok(host),
        Err((HostFault::Places, _)) => Err(HostStartFault::Places),
        Err((HostFault::Node(_), opens)) => Err(opens.why()),
    }
}

/// Which host of how many has these databases, of so many places in an epoch.
fn which_of<D: Databases>(databases: &D, places: u64) -> WhichHost
    ensures { result ≡ which_of (D.member databases.now) places }
{
    WhichHost {
        id: databases.id().number(),
        members: databases.members().count(),
        places,
    }
}

/// What a start finds.
fn found_in<F: Folder>(
    alloc: Global,
    folder: &F,
    which: WhichHost,
) -> Result<stored_hosts::Start, HostStartFault>
    ensures found { IfOk result (λ start. Surveys F.holds F.unread F.lists which folder.now (Ok (Whole start))) }
    ensures none { IfErr result (IsNoResuming F.lists F.holds F.unread which folder.now) }
{
    match survey(alloc, folder, which) {
        Ok(Found::Whole(start)) => Ok(start),
        Ok(Found::Nothing) => Err(HostStartFault::NoState),
        Err(fault) => Err(survey_told(fault)),
    }
}

/// A host that goes on over its folder: it starts at the state that counts, of as many places in an epoch. What no
/// start needs then is removed, as far as that goes. The databases of its epoch and of the one behind it have to be
/// there, and none is made.
pub fn resumed_host<F: Folder + Drop, D: Databases>(
    alloc: Global,
    folder: F,
    databases: D,
    places: u64,
) -> Result<Host<FolderOpens<F, D>>, HostStartFault>
    ensures resumed { IfOk result (λ host. (start : FoundStart)
        × Surveys F.holds F.unread F.lists (which_of (D.member databases) places) folder (Ok (Whole start))
        × ((f : F) × LetsGo F.lists F.unread F.does start.head.epoch folder f) × Resumes (IsBegun D.Store.WriteStore D.begins databases) places start host) }
    ensures none { IfErr result (IsNoResuming F.lists F.holds F.unread (which_of (D.member databases) places) folder) }
    ensures places { IfOk result (λ host. places_of host ≡ places) }
    ensures member { IfOk result (λ host. member_of host ≡ D.member databases) }
    ensures members { IfOk result AreMembers }
    ensures kept { IfOk result HaveKept }
    ensures begins { IfOk result (λ host. (e : ℕ) (c : Content) → begins_of host e c → IsBegun D.Store.WriteStore D.begins databases e c) }
{
    let start = found_in(alloc, &folder, which_of(&databases, places))?;
    let epoch = start.head.epoch;
    let mut opens = FolderOpens::over(alloc, folder, databases, epoch.saturating_add(1));
    opens.let_go(epoch);
    let start = Start {
        head: start.head,
        machine: start.machine,
        has_before: start.has_before,
    };
    match Host::resumed(alloc, opens, places, start) {
        Ok(host) => Ok(host),
        Err((JoinFault::NoState, _)) => Err(HostStartFault::State(epoch, StateCause::Damaged)),
        Err((JoinFault::Node(_), opens)) => Err(opens.why()),
    }
}

/// What a host that waits to join opens its nodes with, over a folder without a state.
pub fn waiting<F: Folder + Drop, D: Databases>(
    alloc: Global,
    folder: F,
    databases: D,
) -> Result<FolderOpens<F, D>, HostStartFault>
    ensures waits { IfOk result (λ opens. (opens ≡ record { alloc = alloc; folder = folder; databases = databases; known = 0; last = None })
        × ((files : List Name) × F.lists folder files × HasNoState files)) }
    ensures none { IfErr result (IsNoWaiting F.lists F.unread folder) }
{
    let files = files_of(&folder)?;
    refuse_states(files.as_slice())?;
    Ok(FolderOpens::over(alloc, folder, databases, 0))
}
