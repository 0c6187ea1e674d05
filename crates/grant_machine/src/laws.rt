//! What holds of every list of commands.

ghost use Rattle.grant_machine.specs.Laws.{MapsAreDisjoint, LeasesAreApart, GrantsAreLeased, UnsolicitedGrantsAreDue};
ghost use Rattle.grant_machine.specs.Laws.{RequestsAreGrantedOnce, OtherGrantsAreDue, GrantsAreTold, CellsAreGranted};
ghost use Rattle.grant_machine.specs.Maintenance.{MaintenanceIsDue, MaintenanceIsTold, OpeningsHaveNoOwner};
ghost use Rattle.grant_machine.specs.Counts.{CountsAreTold, CountsStep};
ghost use Rattle.grant_machine.specs.Laws.{OutputsGoOn, PartsAreWhole, MapsAreBodies, MapsAreBodiesFrom};
ghost use Rattle.grant_machine.specs.Laws.{SharedMapsAreOne, SidsAreUnicast, OwnersAreOne};

/// A minislot of a channel lies in one MAP at most.
pub fn maps_are_disjoint()
    ensures { MapsAreDisjoint }
{}

/// The leases of one SID of a channel share no minislot.
pub fn leases_are_apart()
    ensures { LeasesAreApart }
{}

/// Each grant lies whole within a lease of its SID that was told.
pub fn grants_are_leased()
    ensures { GrantsAreLeased }
{}

/// The grants of an unsolicited grant flow, in order, begin within the jitter of due times whose
/// numbers rise.
pub fn unsolicited_grants_are_due()
    ensures { UnsolicitedGrantsAreDue }
{}

/// So do the intervals of a flow of station maintenance, and those of a flow of initial maintenance, each of the flow's
/// size.
pub fn maintenance_is_due()
    ensures { MaintenanceIsDue }
{}

/// A request is accepted once at most, and granted once at most; what is granted was accepted, and
/// is granted whole.
pub fn requests_are_granted_once()
    ensures { RequestsAreGrantedOnce }
{}

/// What isn't granted to a request is granted at a due time of a flow: of unsolicited grants, of polls, of station or
/// of initial maintenance.
pub fn other_grants_are_due()
    ensures { OtherGrantsAreDue }
{}

/// A MAP has the UCD Count that its channel was last given before it.
pub fn counts_are_told()
    ensures { CountsAreTold }
{}

/// A channel is given the UCD Count that it has, or the next one.
pub fn counts_step()
    ensures { CountsStep }
{}

/// Each grant is told by the MAP that placed it, as its SID's, or as everybody's for initial maintenance.
pub fn grants_are_told()
    ensures { GrantsAreTold }
{}

/// What a MAP gives to one SID is part of a grant to it.
pub fn cells_are_granted()
    ensures { CellsAreGranted }
{}

/// What a MAP tells as station maintenance is in an interval of such a flow to its SID. What it tells as initial
/// maintenance is everybody's, in an interval of such a flow. What is everybody's for requests is in no grant.
pub fn maintenance_is_told()
    ensures { MaintenanceIsTold }
{}

/// A minislot that a MAP gives to everybody has no owner: nobody is promised it alone.
pub fn openings_have_no_owner()
    ensures { OpeningsHaveNoOwner }
{}

/// A minislot has one owner at most.
pub fn owners_are_one()
    ensures { OwnersAreOne }
{}

/// One output a command, and the outputs of a longer list begin with those of its beginning.
pub fn outputs_go_on()
    ensures { OutputsGoOn }
{}

/// The outputs of two lists of commands, one behind the other, are those of the first, and then those of the second from
/// the rows that the first leaves.
pub fn parts_are_whole()
    ensures { PartsAreWhole }
{}

/// Each MAP's bytes are its body.
pub fn maps_are_bodies()
    ensures { MapsAreBodies }
{}

/// So are those of a scheduler that began at tables which commands could leave.
pub fn maps_are_bodies_from()
    ensures { MapsAreBodiesFrom }
{}

/// Two MAPs of a channel that share a minislot are the same.
pub fn shared_maps_are_one()
    ensures { SharedMapsAreOne }
{}

/// SIDs that are given are unicast ones.
pub fn sids_are_unicast()
    ensures { SidsAreUnicast }
{}
