//! Grants, polls and ranging intervals that come by themselves, each in its window.

ghost use Rattle.std.specs.Prelude.{◌≡◌, ℕ, ◌+◌, ◌^◌, ◌<◌, ◌≤◌, length, IfOk, OnOk, Some};
ghost use Rattle.grant_machine_parts.specs.Placing.{most_placements};
ghost use Rattle.grant_machine_parts.specs.Cutting.{due_at, verdict, run_flow};
ghost use Rattle.flow_state.specs.Limits.{last_time};
ghost use Rattle.grant_machine_parts.specs.Filling.{last_due, IsTimely, goes_on, placements_on};

use crate::placing::{Cause, Filling, Placement};
use map_body::{Iuc, Offset, Sid};
use std::alloc::AllocError;

/// What comes at each due time of a flow: minislots of this size and use that begin from the due
/// time to jitter after it, up to the last minislot of the flow's lease.
#[derive(Clone, Copy, Debug)]
pub struct Periodic {
    pub sid: Sid,
    pub iuc: Iuc,
    pub size: u16,
    pub interval: u32,
    pub jitter: u32,
    pub base: u64,
    pub last: u64,
}

impl Periodic {
    /// When number i is due.
    pub fn due_at(&self, i: u64) -> u64
        requires { due_at self.now i < 2 ^ 64 }
        ensures { result ≡ due_at self.now i }
    {
        self.base + i * u64::from(self.interval)
    }

    /// The first number, from i on, whose window ends at the bound or later.
    fn pass_over(&self, i: u64, bound: u64) -> u64
        requires timely { IsTimely self.now }
        requires due { due_at self.now i ≤ last_due }
        requires below { bound ≤ last_time }
        ensures not_below { i ≤ result }
        ensures passed { (j : ℕ) → i ≤ j → j < result → due_at self.now j + self.now.jitter < bound }
        ensures reached { bound ≤ due_at self.now result + self.now.jitter }
        ensures due { due_at self.now result ≤ last_due }
    {
        let last_start = self.due_at(i) + u64::from(self.jitter);
        if bound <= last_start {
            return i;
        }
        i + (bound - last_start).div_ceil(u64::from(self.interval))
    }

    /// Places what is due at number i, where it fits. False where it is kept for the next MAP.
    fn place_at(&self, filling: &mut Filling, i: u64) -> Result<bool, AllocError>
        requires timely { IsTimely self.now }
        requires due { due_at self.now i ≤ last_due }
        requires open { filling.old.span.start ≤ due_at self.now i + self.now.jitter }
        requires room { length filling.old.placements < most_placements }
        ensures span { filling.new.span ≡ filling.old.span }
        ensures goes { IfOk result (λ goes. goes ≡ goes_on (verdict filling.old.span filling.old.placements self.now i)) }
        ensures placed { OnOk result (filling.new.placements
            ≡ placements_on (verdict filling.old.span filling.old.placements self.now i) filling.old.placements self.now i) }
    {
        let due = self.due_at(i);
        let last_start = due + u64::from(self.jitter);
        let lo = due.max(filling.start());
        match filling.first_fit(self.size, lo, last_start, self.last) {
            Some(x) => {
                filling.place(Placement {
                    sid: self.sid,
                    iuc: self.iuc,
                    offset: Offset::new(x as u16).unwrap(),
                    size: self.size,
                    cause: Cause::Window(i),
                })?;
                Ok(true)
            }
            None => Ok(last_start < filling.end()),
        }
    }

    /// Places what is due before the MAP's end, from number first on. The number of the next due
    /// time.
    pub fn run(&self, filling: &mut Filling, first: u64) -> Result<u64, AllocError>
        requires timely { IsTimely self.now }
        requires due { due_at self.now first ≤ last_due }
        ensures span { filling.new.span ≡ filling.old.span }
        ensures placed { OnOk result (filling.new.placements ≡ (run_flow filling.old.span (Some self.now) first filling.old.placements).placements) }
        ensures next { IfOk result (λ i. i ≡ (run_flow filling.old.span (Some self.now) first filling.old.placements).index) }
        ensures due { IfOk result (λ i. due_at self.now i ≤ last_due) }
    {
        let end = filling.end();
        let mut i = self.pass_over(first, filling.start());
        while !filling.is_full() && self.due_at(i) < end {
            if !self.place_at(filling, i)? {
                return Ok(i);
            }
            i += 1;
        }
        if filling.is_full() {
            i = self.pass_over(i, end);
        }
        Ok(i)
    }
}
