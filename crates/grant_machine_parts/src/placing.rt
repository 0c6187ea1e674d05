//! A MAP while it is filled.

ghost use Rattle.std.specs.Prelude.{◌≡◌, ◌+◌, ◌<◌, ◌≤◌, not, nat_lt, [], ◌∷◌, ◌++◌, length, IsTrue, IfOk, OnOk, IfSome};
ghost use Rattle.std.specs.List.{AllByRecursion};
ghost use Rattle.flow_state.specs.Limits.{last_time, most_minislots};
ghost use Rattle.grant_machine_parts.specs.Placing.{most_placements, is_free, free_minislots, first_fit};
ghost use Rattle.grant_machine_parts.specs.Gaps.{AreGaps};
ghost use Rattle.grant_machine_parts.specs.Cutting.{end_of};
ghost use Rattle.grant_machine_parts.specs.Filling.{has_use, AreApart};

use crate::gaps::{self, Gap};
use map_body::{Iuc, Offset, Sid};
use std::alloc::{AllocError, Global};
use std::marker::Model;

/// As many placements may a MAP have.
pub const MOST_PLACEMENTS: usize = 60;

/// As many gaps may be between them, before the first and behind the last.
const MOST_GAPS: usize = 61;

/// What a placement serves: the due time of this number, or the request that was sent at this time.
#[derive(Clone, Copy, Debug)]
pub enum Cause {
    Window(u64),
    Sent(u64),
}

/// Minislots of a MAP that are given to a SID: so many from this offset on.
#[derive(Clone, Copy, Debug)]
pub struct Placement {
    pub sid: Sid,
    pub iuc: Iuc,
    pub offset: Offset,
    pub size: u16,
    pub cause: Cause,
}

/// A MAP's minislots: the placements that hold some of them, and the gaps between these. Where `is_apart`, no minislot
/// is in two placements. Room for all that it may have is taken when it is first opened. A placement splits its gap in
/// place; where it isn't of one gap, the gaps after it are put beside those before it.
#[derive(Drop)]
pub struct Filling {
    start: u64,
    len: u16,
    gaps: Vec<Gap>,
    next_gaps: Vec<Gap>,
    placements: Vec<Placement>,
    is_apart: bool,
}

impl Model for Filling {
    ghost use Rattle.grant_machine_parts.specs.Filling.{PartMap};

    ghost Value = { PartMap };

    ghost use Rattle.grant_machine_parts.specs.Kept.{IsKept};

    ghost view = { λ a. record { span = record { start = a.start; len = a.len }; placements = a.placements.items } };

    ghost invariant = { IsKept };
}

impl Filling {
    /// No minislots.
    pub fn new(alloc: Global) -> Filling
        ensures { result ≡ record { span = record { start = 0; len = 0 }; placements = [] } }
    {
        Filling {
            start: 0,
            len: 0,
            gaps: Vec::new(alloc),
            next_gaps: Vec::new(alloc),
            placements: Vec::new(alloc),
            is_apart: true,
        }
    }

    /// Begins with other minislots, all of them free. It takes memory only where there isn't yet room for all that a
    /// MAP may have; without it there are no minislots.
    pub fn open(&mut self, start: u64, len: u16) -> Result<(), AllocError>
        requires short { len ≤ most_minislots }
        requires early { start + len ≤ last_time }
        ensures { OnOk result (self.new ≡ record { span = record { start = start; len = len }; placements = [] }) }
    {
        self.start = 0;
        self.len = 0;
        self.gaps.clear();
        self.next_gaps.clear();
        self.placements.clear();
        self.gaps.reserve(MOST_GAPS)?;
        self.next_gaps.reserve(MOST_GAPS)?;
        self.placements.reserve(MOST_PLACEMENTS)?;
        self.gaps.push(Gap { from: 0, to: len })?;
        self.is_apart = true;
        self.start = start;
        self.len = len;
        Ok(())
    }

    /// Its first minislot.
    pub fn start(&self) -> u64
        ensures { result ≡ self.now.span.start }
    {
        self.start
    }

    /// How many minislots it has.
    pub fn len(&self) -> u16
        ensures same { result ≡ self.now.span.len }
        ensures short { result ≤ most_minislots }
    {
        self.len
    }

    /// The minislot behind its last.
    pub fn end(&self) -> u64
        ensures same { result ≡ end_of self.now.span }
        ensures early { result ≤ last_time }
    {
        self.start + u64::from(self.len)
    }

    /// Nothing fits any more.
    pub fn is_full(&self) -> bool
        ensures { result ≡ not (nat_lt (length self.now.placements) most_placements) }
    {
        self.placements.len() >= MOST_PLACEMENTS
    }

    /// The placements in the order in which they were placed.
    pub fn placements(&self) -> &[Placement]
        ensures same { result.now ≡ self.now.placements }
        ensures uses { AllByRecursion has_use result.now }
        ensures few { length result.now ≤ most_placements }
    {
        &self.placements
    }

    /// The gaps between placements, by offset.
    pub(crate) fn gaps(&self) -> &[Gap]
        ensures { AreGaps (is_free self.now.placements) 0 self.now.span.len result.now }
    {
        &self.gaps
    }

    /// How many minislots are free.
    pub fn free(&self) -> u16
        ensures { result ≡ free_minislots self.now.span self.now.placements }
    {
        gaps::minislots(&self.gaps)
    }

    /// Is it known that no minislot is in two placements?
    pub(crate) fn is_apart(&self) -> bool
        ensures { IsTrue result → AreApart self.now.placements }
    {
        self.is_apart
    }

    /// The least offset where n minislots fit that begin from lo to hi and end by a last one.
    pub fn first_fit(&self, n: u16, lo: u64, hi: u64, last: u64) -> Option<usize>
        ensures same { result ≡ first_fit self.now.span self.now.placements n lo hi last }
        ensures within { IfSome result (λ x. x + n ≤ self.now.span.len) }
        ensures short { IfSome result (λ x. self.now.span.len ≤ most_minislots) }
    {
        if self.is_full() {
            return None;
        }
        gaps::first_fit(&self.gaps, self.start, self.len, n, lo, hi, last)
    }

    /// Gives minislots to a SID.
    pub fn place(&mut self, placement: Placement) -> Result<(), AllocError>
        requires room { length self.old.placements < most_placements }
        requires within { placement.offset + placement.size ≤ self.old.span.len }
        requires use_of { has_use placement }
        ensures span { self.new.span ≡ self.old.span }
        ensures placed { OnOk result (self.new.placements ≡ self.old.placements ++ placement ∷ []) }
    {
        self.placements.reserve(1)?;
        let from = placement.offset.get();
        let to = from + placement.size;
        let is_in_gap = gaps::hold(&mut self.gaps, &mut self.next_gaps, from, to)?;
        let put = self.placements.push(placement);
        prove!(put.is_ok());
        self.is_apart = self.is_apart && is_in_gap;
        Ok(())
    }
}
