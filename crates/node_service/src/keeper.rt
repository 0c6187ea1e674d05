//! What replies to lines, and keeps what it did by commits.

ghost use Rattle.std.specs.Prelude.{◌≡◌, ℕ, Bool, List, Result, IfErr, IfOk, OnErr, OnOk, false, true};
ghost use Rattle.node_lines.specs.declared.fault.LineFault.{LineFault as WhyNot};

use crate::outbox::Told;
use ballots::Bytes;
use node_lines::LineFault;
use std::alloc::Global;

/// What replies to lines, and keeps what it did by commits.
pub trait Keeper {
    /// What it replies to a line.
    type Reply: Told;

    // Whether it is up.
    ghost up: { Self → Bool };

    // From the first on this line, or one that was let go for this fault, had this reply, and it was the second then.
    ghost replies: { Self → Result (List ℕ) WhyNot → Self.Reply → Self → Type 0 };

    // What it did since the last commit is noted, so that the next one keeps it.
    ghost has_noted: { Self → Type 0 };

    // It does what this line asks only once a crash leaves all that it did before.
    ghost is_apart: { List ℕ → Bool };

    // There is room to note one thing more.
    ghost has_room: { Self → Type 0 };

    // A crash leaves all that it did.
    ghost has_kept: { Self → Type 0 };

    // A commit leads from the first to the second: it did nothing else.
    ghost commits: { Self → Self → Type 0 };

    // From the first on a commit failed, of which this is told, and it was the second then.
    ghost fails: { Self → Self.Reply → Self → Type 0 };

    // Behind a commit that failed, of which the first is told, the second may be told all the same.
    ghost may_tell: { Self.Reply → Self.Reply → Bool };

    // A crash leaves what came of the line that had this reply.
    ghost leaves: { Self → Self.Reply → Type 0 };

    fn can_act(&self) -> bool
        ensures { result ≡ up self.now };

    /// Whether it does what the line asks only once all that it did before is kept.
    fn is_apart(&self, line: &Bytes) -> bool
        ensures { result ≡ is_apart line.now };

    /// It does what the line asks, if anything.
    fn reply_to(&mut self, alloc: Global, line: Result<Bytes, LineFault>) -> Self::Reply
        requires up { up self.old ≡ true }
        requires apart { IfOk line (λ line. is_apart line ≡ true → has_kept self.old) }
        requires noted { has_noted self.old }
        requires room { has_room self.old }
        ensures replies { replies self.old line result self.new }
        ensures noted { has_noted self.new };

    /// Whether something that it did waits for a commit.
    fn waits(&self) -> bool
        ensures { result ≡ false → has_noted self.now → has_kept self.now };

    /// Whether it may do no more before one.
    fn is_full(&self) -> bool
        ensures { result ≡ false → has_room self.now };

    /// Whether a reply may be told behind a commit that failed, of which this is told.
    fn may_tell(told: &Self::Reply, reply: &Self::Reply) -> bool
        ensures { result ≡ may_tell told.now reply.now };

    /// Keeps what it did. Where that fails it is down, and this is to be told in place of the first reply that waits and
    /// may not be told.
    fn commit(&mut self) -> Result<(), Self::Reply>
        requires { has_noted self.old }
        ensures kept { OnOk result (has_kept self.new) }
        ensures noted { OnOk result (has_noted self.new) }
        ensures room { OnOk result (has_room self.new) }
        ensures commits { OnOk result (commits self.old self.new) }
        ensures stays { OnOk result (up self.new ≡ up self.old) }
        ensures fails { IfErr result (λ told. fails self.old told self.new) }
        ensures left { IfErr result (λ told. (reply : Self.Reply) → may_tell told reply ≡ true → leaves self.new reply) }
        ensures down { OnErr result (up self.new ≡ false) };
}
