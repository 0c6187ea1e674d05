//! A node, by what its calls do.

ghost use Rattle.std.specs.Prelude.{◌≡◌, ◌⊎◌, ◌↔◌, ◌<◌, ◌≤◌, ℕ, Bool, List, false, [], IfErr, IfOk, IsOk, IsOkAnd};
ghost use Rattle.std.specs.Prelude.{IsTrue, OnErr, OnOk, Option, length, option_copied, true, Err};
ghost use Rattle.acceptor.specs.Calls.{KeepsTrust};
ghost use Rattle.acceptor.specs.Content.{no_content};
ghost use Rattle.ballots.specs.Ballots.{IsLeastAbove, NoneAbove};
ghost use Rattle.ballots.specs.Limits.{most_places};
ghost use Rattle.ballots.specs.Members.{member_count};
ghost use Rattle.ballots.specs.Rows.{at};
ghost use Rattle.proposer.specs.Faults.{IsOfLead, TellsSpent};
ghost use Rattle.proposer.specs.Turns.{offer};
ghost use Rattle.proposer.specs.declared.role.Role.{Role};
ghost use Rattle.node.specs.Step.{is_heeded, limit, letters_told};
ghost use Rattle.node.specs.View.{View, Standing, gapless, started, values_from};
ghost use Rattle.node.specs.View.Standing.{Running};
ghost use Rattle.node.specs.Calls.{Who, Called, IsNothingNew, Kept, KeptByRestart, Restarts, StopsLast, TakesTurn};
ghost use Rattle.node.specs.Calls.{TellsFresh, answer, IsStop};
ghost use Rattle.node.specs.Releases.{Releases, outputs};
ghost use Rattle.node.specs.Calls.Cause.{Receive, Lead, Offer, Tell};

use ballots::{Bytes, Letter, Members, NodeId};
use map_release::Numbered;
use proposer::{NodeFault, Role};

/// A node of a run. What is said of where it stands holds where its records are honest after the call.
pub trait Node: Drop {
    // Its number, its members, its count of failures, whether its store is broken, and whether it is down.
    ghost who: { Self → Who };

    // Its records have returned what was committed so far.
    ghost honest: { Self → Bool };

    // Nothing below its records has failed silently so far: a premise, which no code here can make false.
    ghost clean: { Self → Bool };

    // Where it may stand.
    ghost stands: { Self → Standing → Type 0 };

    // Its role as a proposer, which nothing in its records decides.
    ghost role: { Self → Role };

    // What it has learned, by place, as far as it knows without its records.
    ghost values: { Self → List (ℕ × List ℕ) };

    // All that it has beside its records: its view, were they empty.
    ghost rest: { Self → View };

    // The last read of a ballot from its records may have found no memory.
    ghost found_no_memory: { Self → Type 0 };

    // A reopen of its records that was Ok leads from the first to the second.
    ghost reopens: { Self → Self → Type 0 };

    fn id(&self) -> NodeId
        ensures id { result ≡ (who self.now).id }
        ensures somewhere { IsTrue (honest self.now) → ∥ ((s : Standing) × stands self.now s) ∥₁ }
        ensures role { (view : View) → stands self.now (Running view) → view.role ≡ role self.now }
        ensures rest { (view : View) → stands self.now (Running view) → view ≡ record (rest self.now) { content = view.content } }
        ensures rest_role { role self.now ≡ (rest self.now).role };

    fn members(&self) -> Members
        ensures { member_count result ≡ (who self.now).members };

    fn failures(&self) -> u64
        ensures { result ≡ (who self.now).failures };

    /// Whether it prepares or leads a ballot, and which.
    fn role(&self) -> &Role
        ensures same { result.now ≡ role self.now }
        ensures standing { (view : View) → stands self.now (Running view) → view.role ≡ role self.now };

    /// The value that is learned at a place.
    fn learned(&self, place: u64) -> Option<&Bytes>
        ensures value { option_copied result ≡ at (values self.now) place }
        ensures values { (view : View) → stands self.now (Running view) → view.tally.learned ≡ values self.now }
        ensures rest_values { values self.now ≡ (rest self.now).tally.learned };

    /// A letter comes. One that isn't from a member to this one, or says what no member may say, is passed over,
    /// without memory and whatever the records do. One that says nothing new takes no memory either.
    fn receive(&mut self, letter: &Letter) -> Result<Vec<Letter>, NodeFault>
        ensures trust { KeepsTrust honest clean self.old self.new }
        ensures err { OnErr result (rest self.new ≡ rest self.old) }
        ensures kept { Kept (who self.old) result (who self.new) }
        ensures down { (who self.old).down ≡ true → result ≡ Err NodeFault.Down }
        ensures tells { IfErr result IsStop }
        ensures passed_over { (who self.old).down ≡ false → is_heeded (who self.old).members (who self.old).id letter.now ≡ false
            → IsOkAnd result (λ letters. letters.items ≡ []) }
        ensures no_memory { (who self.old).down ≡ false → IsNothingNew (role self.old) (values self.old) letter.now.from letter.now.note → IsOk result }
        ensures done { IsTrue (honest self.new) → (s : Standing) → stands self.old s
            → (t : Standing) × Called (who self.old).members (who self.old).id s (Receive letter.now) (answer result) t × stands self.new t };

    /// The node is asked to lead. LogFull comes exactly where the places learned without a gap fill the log, and where
    /// it heard of its last ballot it reads no records.
    fn lead(&mut self) -> Result<Vec<Letter>, NodeFault>
        ensures trust { KeepsTrust honest clean self.old self.new }
        ensures err { OnErr result (rest self.new ≡ rest self.old) }
        ensures kept { Kept (who self.old) result (who self.new) }
        ensures down { (who self.old).down ≡ true → result ≡ Err NodeFault.Down }
        ensures tells { IfErr result IsOfLead }
        ensures full { (who self.old).down ≡ false → (result ≡ Err NodeFault.LogFull ↔ most_places ≤ length (values_from 1 (values self.old))) }
        ensures done { IsTrue (honest self.new) → (s : Standing) → stands self.old s
            → (t : Standing) × Called (who self.old).members (who self.old).id s Lead (answer result) t × stands self.new t }
        ensures order { IsTrue (honest self.new) → (view : View) → stands self.old (Running view)
            → StopsLast (who self.old).members (who self.old).id view Lead (answer result) }
        ensures memory { IsTrue (honest self.new) → (view : View) → stands self.old (Running view)
            → IfErr result (λ fault. fault ≡ NodeFault.OutOfMemory → found_no_memory self.new ⊎ ((b : ℕ) × IsLeastAbove (limit view) (who self.old).id b)) }
        ensures heard { (who self.old).down ≡ false → length (values_from 1 (values self.old)) < most_places → NoneAbove (rest self.old).hint (who self.old).id
            → result ≡ Err NodeFault.RoundsSpent }
        ensures spent { IsTrue (honest self.new) → (view : View) → stands self.old (Running view) → length (gapless view) < most_places
            → NoneAbove (limit view) (who self.old).id → TellsSpent (found_no_memory self.new) result };

    /// A value is offered.
    fn offer(&mut self, value: &[u8]) -> Result<Vec<Letter>, NodeFault>
        ensures trust { KeepsTrust honest clean self.old self.new }
        ensures err { OnErr result (rest self.new ≡ rest self.old) }
        ensures kept { Kept (who self.old) result (who self.new) }
        ensures down { (who self.old).down ≡ true → result ≡ Err NodeFault.Down }
        ensures done { IsTrue (honest self.new) → (s : Standing) → stands self.old s
            → (t : Standing) × Called (who self.old).members (who self.old).id s (Offer value.now) (answer result) t × stands self.new t }
        ensures order { IsTrue (honest self.new) → (view : View) → stands self.old (Running view)
            → StopsLast (who self.old).members (who self.old).id view (Offer value.now) (answer result) }
        ensures turn { (who self.old).down ≡ false → TakesTurn (offer (who self.old).members (who self.old).id (role self.old) value.now) (answer result) };

    /// Tells a node what it has learned, of the first 64 learned places from one on, as it does first where a Prepare
    /// comes. Who is no member is told nothing. Nothing changes, and to tell nothing takes no memory.
    fn tell(&self, to: NodeId, place: u64) -> Result<Vec<Letter>, NodeFault>
        ensures kept { Kept (who self.now) result (who self.now) }
        ensures down { (who self.now).down ≡ true → result ≡ Err NodeFault.Down }
        ensures tells { (who self.now).down ≡ false → IfErr result (λ fault. fault ≡ NodeFault.OutOfMemory) }
        ensures letters { IfOk result (λ letters. letters.items ≡ letters_told (who self.now).members (who self.now).id (values self.now) to place) }
        ensures no_memory { (who self.now).down ≡ false → letters_told (who self.now).members (who self.now).id (values self.now) to place ≡ [] → IsOk result }
        ensures done { (s : Standing) → stands self.now s → Called (who self.now).members (who self.now).id s (Tell to place) (answer result) s };

    /// The outputs of its gapless learned values behind those that it released before, in order, without the MAPs that
    /// end at `now` (in minislots) or before.
    fn release(&mut self, now: u64) -> Result<Vec<Numbered>, NodeFault>
        ensures trust { KeepsTrust honest clean self.old self.new }
        ensures err { OnErr result (rest self.new ≡ rest self.old) }
        ensures kept { Kept (who self.old) result (who self.new) }
        ensures down { (who self.old).down ≡ true → result ≡ Err NodeFault.Down }
        ensures tells { IfErr result IsStop }
        ensures done { IsTrue (honest self.new) → (s : Standing) → stands self.old s
            → (t : Standing) × Releases s now (outputs result) t × stands self.new t };

    /// Starts over its records.
    fn restart(&mut self) -> Result<(), NodeFault>
        ensures honesty { IsTrue (honest self.new) → IsTrue (honest self.old) }
        ensures trust { KeepsTrust honest clean self.old self.new }
        ensures err { OnErr result (rest self.new ≡ rest self.old) }
        ensures kept { KeptByRestart (who self.old) result (who self.new) }
        ensures tells { IfErr result IsStop }
        ensures done { IsTrue (honest self.new) → (s : Standing) → stands self.old s
            → (t : Standing) × Restarts s result t × stands self.new t }
        ensures reopened { OnOk result (reopens self.old self.new) };

    /// Whether its records are empty and it has heard nothing.
    fn is_fresh(&mut self) -> Result<bool, NodeFault>
        ensures trust { KeepsTrust honest clean self.old self.new }
        ensures rest { rest self.new ≡ rest self.old }
        ensures kept { Kept (who self.old) result (who self.new) }
        ensures down { (who self.old).down ≡ true → result ≡ Err NodeFault.Down }
        ensures tells { IfErr result IsStop }
        ensures done { IsTrue (honest self.new) → (s : Standing) → stands self.old s
            → (t : Standing) × TellsFresh s result t × stands self.new t }
        ensures fresh { IsTrue (honest self.new) → IfOk result (λ fresh. IsTrue fresh → stands self.new (Running (started no_content))) };
}
