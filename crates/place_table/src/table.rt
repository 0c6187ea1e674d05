//! A table of values by place.

ghost use Rattle.std.specs.Prelude.{◌≡◌, ◌≢◌, ◌↔◌, ◌+◌, ◌≤◌, ◌∷◌, ◌++◌, [], IsTrue, IfSome, IfOk, OnOk, OnErr, None};
ghost use Rattle.std.specs.Prelude.{Ok, MatchOption, is_some, option_copied};
ghost use Rattle.std.specs.Fn.{FnOnceReturnsAtMut};
ghost use Rattle.ballots.specs.Rows.{at, put, rows_from};
ghost use Rattle.place_table.specs.Entries.{IsNext, numbered};

use std::alloc::{AllocError, Global};
use std::collections::BTreeMap;
use std::marker::Model;
use std::mem;

/// Values by place. Those of one run of places lie in a list, so that they are found at once; only what lies before
/// the run or behind it takes a tree.
#[derive(Drop)]
pub struct Table<V> {
    before: BTreeMap<u64, V>,
    first: u64,
    run: Vec<V>,
    after: BTreeMap<u64, V>,
}

impl<V> Model for Table<V> {
    ghost use Rattle.place_table.specs.Entries.{Entries, entries_code, entries_of, AreStored};

    ghost Value = { Entries V };

    ghost coded = { entries_code V.code };

    ghost view = { λ t. record { entries = entries_of t.before.entries t.first t.run.items t.after.entries } };

    ghost invariant = { λ t. AreStored t.before.entries t.first t.run.items t.after.entries };
}

impl<V> Table<V> {
    /// No place has a value.
    pub fn new(alloc: Global) -> Table<V>
        ensures { result.entries ≡ [] }
    {
        Table {
            before: BTreeMap::new(alloc),
            first: 0,
            run: Vec::new(alloc),
            after: BTreeMap::new(alloc),
        }
    }

    /// Whether no place has a value.
    pub fn is_empty(&self) -> bool
        ensures { IsTrue result ↔ (self.now.entries ≡ []) }
    {
        if !self.run.is_empty() {
            return false;
        }
        if !self.before.is_empty() {
            return false;
        }
        self.after.is_empty()
    }

    /// The value of a place.
    pub fn get(&self, place: u64) -> Option<&V>
        ensures { option_copied result ≡ at self.now.entries place }
    {
        if place < self.first {
            return self.before.get(&place);
        }
        let index = place - self.first;
        if index < self.run.len() as u64 {
            return Some(&self.run[index as usize]);
        }
        self.after.get(&place)
    }

    /// Whether a place has a value.
    pub fn contains(&self, place: u64) -> bool
        ensures { result ≡ is_some (at self.now.entries place) }
    {
        self.get(place).is_some()
    }

    /// The first place from one on that has a value, and the value.
    pub fn next_from(&self, place: u64) -> Option<(u64, &V)>
        ensures from { IfSome result (λ row. place ≤ row.0) }
        ensures row { MatchOption result (rows_from self.now.entries place ≡ []) (λ row. IsNext self.now.entries place row.0 row.1.now) }
    {
        if let Some(row) = next_in_tree(&self.before, place) {
            return Some(row);
        }
        if let Some(row) = next_in_run(self.first, self.run.as_slice(), place) {
            return Some(row);
        }
        next_in_tree(&self.after, place)
    }

    /// Where the table is empty, its run is to begin at this place.
    fn begin_at(&mut self, place: u64)
        ensures { self.new ≡ self.old }
    {
        if self.is_empty() {
            self.first = place;
        }
    }

    /// Takes what follows the run into it, one place, where there is room.
    fn draw(&mut self)
        ensures { self.new ≡ self.old }
    {
        let Some((place, _)) = self.after.first_key_value() else {
            return;
        };
        if *place - self.first != self.run.len() as u64 || self.run.reserve(1).is_err() {
            return;
        }
        if let Some((_, value)) = self.after.pop_first() {
            self.run.push_reserved(value);
        }
    }

    /// Before a value is put at this place: what follows the run comes into it, and an empty table's run begins here.
    fn make_ready(&mut self, place: u64)
        ensures { self.new ≡ self.old }
    {
        self.draw();
        self.draw();
        self.begin_at(place);
    }
}

impl<V: Drop> Table<V> {
    /// Puts a value at a place, and gives the one that stood there.
    pub fn insert(&mut self, place: u64, value: V) -> Result<Option<V>, AllocError>
        ensures ok { OnOk result (self.new.entries ≡ put self.old.entries place value) }
        ensures old { IfOk result (λ old. old ≡ at self.old.entries place) }
        ensures err { OnErr result (self.new ≡ self.old) }
    {
        self.make_ready(place);
        if place < self.first {
            let old = self.before.insert(place, value).map_err(AllocError::from)?;
            return Ok(old);
        }
        let index = place - self.first;
        let len = self.run.len() as u64;
        if index < len {
            return Ok(Some(mem::replace(&mut self.run[index as usize], value)));
        }
        if index > len || self.after.contains_key(&place) {
            let old = self.after.insert(place, value).map_err(AllocError::from)?;
            return Ok(old);
        }
        self.run.push(value).map_err(AllocError::from)?;
        Ok(None)
    }

    /// Puts a value at a place that has none, once `write` has written it in `rows`, and answers what `write` gave.
    /// The room comes first: where memory is refused nothing is written. Where the write fails nothing is put.
    pub fn insert_after<W, E, F: FnOnce(&mut W) -> Result<(), E>>(
        &mut self,
        place: u64,
        value: V,
        rows: &mut W,
        write: F,
    ) -> Result<Result<(), E>, AllocError>
        requires callable { F.IsAlwaysCallable write }
        requires none { at self.old.entries place ≡ None }
        ensures written { IfOk result (λ written. FnOnceReturnsAtMut F.FnOnce write rows.old written rows.new) }
        ensures put { IfOk result (λ written. OnOk written (self.new.entries ≡ put self.old.entries place value)) }
        ensures refused { IfOk result (λ written. OnErr written (self.new ≡ self.old)) }
        ensures err { OnErr result (self.new ≡ self.old) }
        ensures unwritten { OnErr result (rows.new ≡ rows.old) }
    {
        self.make_ready(place);
        if place < self.first {
            return insert_after(&mut self.before, place, value, rows, write);
        }
        if place - self.first != self.run.len() as u64 {
            return insert_after(&mut self.after, place, value, rows, write);
        }
        push_after(&mut self.run, value, rows, write)
    }
}

/// The first row of a tree from a place on.
fn next_in_tree<V>(tree: &BTreeMap<u64, V>, place: u64) -> Option<(u64, &V)>
    ensures from { IfSome result (λ row. place ≤ row.0) }
    ensures row { MatchOption result (rows_from tree.now.entries place ≡ []) (λ row. IsNext tree.now.entries place row.0 row.1.now) }
{
    if tree.is_empty() {
        return None;
    }
    let (at, value) = tree.range(place..).next()?;
    Some((*at, value))
}

/// The first place of a run from one on, and its value.
fn next_in_run<V>(first: u64, run: &[V], place: u64) -> Option<(u64, &V)>
    ensures from { IfSome result (λ row. place ≤ row.0) }
    ensures row { MatchOption result (rows_from (numbered first run.now) place ≡ []) (λ row. IsNext (numbered first run.now) place row.0 row.1.now) }
{
    let index = place.saturating_sub(first);
    if index >= run.len() as u64 {
        return None;
    }
    Some((first + index, &run[index as usize]))
}

/// Puts a value into a tree once it is written.
fn insert_after<V: Drop, W, E, F: FnOnce(&mut W) -> Result<(), E>>(
    tree: &mut BTreeMap<u64, V>,
    place: u64,
    value: V,
    rows: &mut W,
    write: F,
) -> Result<Result<(), E>, AllocError>
    requires callable { F.IsAlwaysCallable write }
    requires none { at tree.old.entries place ≡ None }
    ensures written { IfOk result (λ written. FnOnceReturnsAtMut F.FnOnce write rows.old written rows.new) }
    ensures put { IfOk result (λ written. OnOk written (tree.new.entries ≡ put tree.old.entries place value)) }
    ensures refused { IfOk result (λ written. OnErr written (tree.new.entries ≡ tree.old.entries)) }
    ensures err { OnErr result (tree.new.entries ≡ tree.old.entries) }
    ensures unwritten { OnErr result (rows.new ≡ rows.old) }
{
    tree.insert(place, value).map_err(AllocError::from)?;
    let written = write(rows);
    if written.is_err() {
        tree.remove(&place);
        return Ok(written);
    }
    Ok(written)
}

/// Puts a value at the end of a list once it is written.
fn push_after<V: Drop, W, E, F: FnOnce(&mut W) -> Result<(), E>>(
    list: &mut Vec<V>,
    value: V,
    rows: &mut W,
    write: F,
) -> Result<Result<(), E>, AllocError>
    requires { F.IsAlwaysCallable write }
    ensures written { IfOk result (λ written. FnOnceReturnsAtMut F.FnOnce write rows.old written rows.new) }
    ensures put { IfOk result (λ written. OnOk written (list.new.items ≡ list.old.items ++ value ∷ [])) }
    ensures refused { IfOk result (λ written. OnErr written (list.new.items ≡ list.old.items)) }
    ensures err { OnErr result (list.new.items ≡ list.old.items) }
    ensures unwritten { OnErr result (rows.new ≡ rows.old) }
{
    list.reserve(1)?;
    let written = write(rows);
    if written.is_ok() {
        list.push_reserved(value);
    }
    Ok(written)
}
