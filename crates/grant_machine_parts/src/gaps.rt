//! The free minislots of a MAP: the gaps between its placements.

ghost use Rattle.std.specs.Prelude.{◌≡◌, ◌⊎◌, ℕ, suc, ◌+◌, ◌^◌, ◌<◌, ◌≤◌, ◌++◌, Bool, List, length, take, drop};
ghost use Rattle.std.specs.Prelude.{slice_get, Some, IsTrue, OnOk, OnErr, IfOk};
ghost use Rattle.std.specs.List.{find, filter, list_any, range_with_len};
ghost use Rattle.grant_machine_parts.specs.Placing.{Placement, is_free, fits_at};
ghost use Rattle.grant_machine_parts.specs.Gaps.{Gap, AreGaps, covers, carved_gap, carved, gap_in, HasPassed, IsInGap};

use std::alloc::AllocError;
use std::mem;

/// Free minislots, from an offset to another.
#[derive(Clone, Copy, Debug)]
pub struct Gap {
    pub from: u16,
    pub to: u16,
}

/// Adds what is left of a gap once the minislots from an offset to another are held.
fn put_left(gaps: &mut Vec<Gap>, gap: Gap, from: u16, to: u16) -> Result<(), AllocError>
    ensures { OnOk result (gaps.new.items ≡ gaps.old.items ++ carved_gap from to gap) }
{
    if gap.from >= to || from >= gap.to || from >= to {
        gaps.push(gap)?;
        return Ok(());
    }
    if gap.from < from {
        gaps.push(Gap {
            from: gap.from,
            to: from,
        })?;
    }
    if to < gap.to {
        gaps.push(Gap {
            from: to,
            to: gap.to,
        })?;
    }
    Ok(())
}

/// Puts the gaps once the minislots from an offset to another are held.
fn carve(left: &mut Vec<Gap>, gaps: &[Gap], from: u16, to: u16) -> Result<(), AllocError>
    ensures { OnOk result (left.new.items ≡ carved from to gaps.now) }
{
    left.clear();
    for gap in gaps {
        put_left(left, *gap, from, to)?;
    }
    Ok(())
}

/// How many gaps from the first on end by an offset, found by halves, where they stand by offset.
fn count_passed(gaps: &[Gap], x: u16) -> usize
    ensures most { result ≤ length gaps.now }
    ensures passed { HasPassed gaps.now result x }
{
    let mut low = 0;
    let mut high = gaps.len();
    while low < high {
        let middle = low + (high - low) / 2;
        if gaps[middle].to <= x {
            low = middle + 1;
        } else {
            high = middle;
        }
    }
    low
}

/// As many, with a look first at whether it is none or all but the last, as where minislots are held by offset.
fn count_before(gaps: &[Gap], x: u16) -> usize
    ensures most { result ≤ length gaps.now }
    ensures passed { HasPassed gaps.now result x }
{
    if x == 0 {
        return 0;
    }
    let count = gaps.len();
    if count >= 2 && gaps[count - 2].to <= x {
        return count - 1;
    }
    count_passed(gaps, x)
}

/// Are the minislots from an offset to another, which are some, those of a gap?
fn is_in_gap(gaps: &[Gap], number: usize, from: u16, to: u16) -> bool
    ensures { IsTrue result → IsInGap gaps.now number from to }
{
    match gaps.get(number) {
        Some(gap) => gap.from <= from && from < to && to <= gap.to,
        None => false,
    }
}

/// Splits a gap in its place once some of its minislots, from an offset to another, are held.
fn split(gaps: &mut Vec<Gap>, number: usize, from: u16, to: u16) -> Result<(), AllocError>
    requires { IsInGap gaps.old.items number from to }
    ensures ok { OnOk result ((g : Gap) → slice_get gaps.old.items number ≡ Some g
        → gaps.new.items ≡ take number gaps.old.items ++ (carved_gap from to g ++ drop (suc number) gaps.old.items)) }
    ensures err { OnErr result (gaps.new.items ≡ gaps.old.items) }
{
    let gap = gaps[number];
    let left = Gap {
        from: gap.from,
        to: from,
    };
    let right = Gap {
        from: to,
        to: gap.to,
    };
    if gap.from < from {
        if to < gap.to {
            gaps.insert(number, left)?;
            gaps[number + 1] = right;
        } else {
            gaps[number] = left;
        }
    } else if to < gap.to {
        gaps[number] = right;
    } else {
        gaps.remove(number);
    }
    Ok(())
}

/// Holds the minislots from an offset to another. Where they are some of one gap, and only then, the answer is true and
/// the gap is split in its place; else what is left is put beside the gaps and changes places with them.
pub fn hold(
    gaps: &mut Vec<Gap>,
    beside: &mut Vec<Gap>,
    from: u16,
    to: u16,
) -> Result<bool, AllocError>
    ensures held { OnOk result ((free : ℕ → Bool) (len : ℕ) → AreGaps free 0 len gaps.old.items → gaps.new.items ≡ carved from to gaps.old.items) }
    ensures covered { IfOk result (λ is_one. IsTrue is_one → IsTrue (list_any (covers from to) gaps.old.items)) }
    ensures err { OnErr result (gaps.new.items ≡ gaps.old.items) }
{
    let number = count_before(gaps, from);
    if is_in_gap(gaps, number, from, to) {
        split(gaps, number, from, to)?;
        return Ok(true);
    }
    carve(beside, gaps, from, to)?;
    mem::swap(gaps, beside);
    Ok(false)
}

/// How many minislots the gaps have.
pub fn minislots(gaps: &[Gap]) -> u16
    ensures { (free : ℕ → Bool) (len : ℕ) → AreGaps free 0 len gaps.now → len < 2 ^ 16 → result ≡ length (filter free (range_with_len 0 len)) }
{
    let mut count: u16 = 0;
    for gap in gaps {
        count = count.saturating_add(gap.to.saturating_sub(gap.from));
    }
    count
}

/// The least offset from first on and before behind where n minislots of a gap begin.
fn gap_in(gaps: &[Gap], n: u64, first: u64, behind: u64) -> Option<u64>
    requires short { n < 2 ^ 16 }
    requires near { first < 2 ^ 16 }
    ensures { result ≡ gap_in gaps.now n first behind }
{
    for gap in gaps {
        let x = u64::from(gap.from).max(first);
        if behind <= x {
            return None;
        }
        if x + n <= u64::from(gap.to) {
            return Some(x);
        }
    }
    None
}

/// The offset behind the last one at which n minislots begin no later than hi and end by a last one.
fn behind_latest(start: u64, len: u64, n: u16, hi: u64, last: u64) -> u64
    requires { start + len < 2 ^ 63 }
    ensures most { result ≤ len }
    ensures in_time { (x : ℕ) → x < result → (start + x ≤ hi) × (start + x + n ≤ last + 1) }
    ensures late { (x : ℕ) → result ≤ x → x < len → (hi < start + x) ⊎ (last + 1 < start + x + n) }
{
    let behind_hi = hi.saturating_add(1);
    let behind_last = last.saturating_add(2).saturating_sub(u64::from(n));
    behind_hi.min(behind_last).saturating_sub(start).min(len)
}

/// The least offset where n minislots fit that begin from lo to hi and end by a last one.
pub fn first_fit(
    gaps: &[Gap],
    start: u64,
    len: u16,
    n: u16,
    lo: u64,
    hi: u64,
    last: u64,
) -> Option<usize>
    requires { start + len < 2 ^ 63 }
    ensures { (ps : List Placement) → AreGaps (is_free ps) 0 len gaps.now
        → result ≡ find (fits_at (record { start = start; len = len }) ps n lo hi last) (range_with_len 0 len) }
{
    let len = u64::from(len);
    let first = lo.saturating_sub(start).min(len);
    let behind = behind_latest(start, len, n, hi, last);
    if n == 0 {
        return if first < behind {
            Some(first as usize)
        } else {
            None
        };
    }
    let passed = count_before(gaps, first as u16);
    match gap_in(&gaps[passed..], u64::from(n), first, behind) {
        Some(x) => Some(x as usize),
        None => None,
    }
}
