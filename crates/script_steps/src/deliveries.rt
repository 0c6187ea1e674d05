//! Which letters of a run came, and which wait.

ghost use Rattle.std.specs.Prelude.{◌≡◌, ◌-◌, find, length, map, reverse, IfOk, OnOk, OnErr};
ghost use Rattle.std.specs.List.{range_with_len};
ghost use Rattle.script_steps.specs.Kept.{AreKept, AreListed, waits_and_fits};
ghost use Rattle.script_steps.specs.Names.{about_of, fits_at, named, waiting};
ghost use Rattle.script_steps.specs.Plain.{waiting_but};
ghost use Rattle.script_steps.specs.Came.{comes, sends};

use crate::kept::{Passed, Sent, add_sent, fits_at, pass_over};
use crate::name::Name;
use crate::waiting::{add_numbers, first_listed, is_waiting, take_out, without};
use ballots::Letter;
use std::alloc::{AllocError, Global};
use std::marker::Model;

/// The last of these letters that has all that is named.
fn last_fit(numbers: &[usize], name: &Name, letters: &[Letter]) -> Option<usize>
    ensures { result ≡ find (fits_at name.now letters.now) (reverse numbers.now) }
{
    numbers
        .iter()
        .rev()
        .find(|i| fits_at(name, letters, **i))
        .copied()
}

/// The first letter from a number on that hasn't come and has all that is named.
fn first_fit(sent: &[Sent], name: &Name, letters: &[Letter], from: usize) -> Option<usize>
    ensures { result ≡ find (waits_and_fits name.now letters.now sent.now) (range_with_len from (length sent.now - from)) }
{
    (from..sent.len()).find(|i| is_waiting(sent, *i) && fits_at(name, letters, *i))
}

/// The letters that were sent, and the numbers of those that came, in order.
#[derive(Drop)]
pub struct Deliveries {
    sent: Vec<Sent>,
    came: Vec<usize>,
    /// Up to where was looked for letters that wait.
    passed: Vec<Passed>,
    /// The letters below `counted` without the first `taken` of those that came.
    waiting: Vec<usize>,
    counted: usize,
    taken: usize,
    ghost kept: { AreKept sent.items came.items passed.items },
    ghost listed: { AreListed (length sent.items) came.items waiting.items counted taken },
}

impl Model for Deliveries {
    ghost use Rattle.std.specs.Prelude.{map};
    ghost use Rattle.script_steps.specs.Came.{Came};

    ghost Value = { Came };

    ghost view = { λ d. record { sent = map (λ s. s.about) d.sent.items; came = d.came.items } };
}

impl Deliveries {
    ghost use Rattle.std.specs.Prelude.{[]};
    ghost use Rattle.script_steps.specs.Came.{nothing};

    /// No letter was sent.
    pub fn new(alloc: Global) -> Deliveries
        ensures { result ≡ nothing }
    {
        Deliveries {
            sent: Vec::new(alloc),
            came: Vec::new(alloc),
            passed: Vec::new(alloc),
            waiting: Vec::new(alloc),
            counted: 0,
            taken: 0,
        }
    }

    /// These are all letters now. Of those that were there before only their number counts.
    pub fn sends(&mut self, alloc: Global, letters: &[Letter]) -> Result<(), AllocError>
        ensures ok { OnOk result (self.new ≡ sends letters.now self.old) }
        ensures err { OnErr result (self.new ≡ self.old) }
    {
        add_sent(alloc, &mut self.sent, letters)
    }

    /// The letter of this number, if it was sent, comes.
    pub fn comes(&mut self, i: usize) -> Result<(), AllocError>
        ensures ok { OnOk result (self.new ≡ comes i self.old) }
        ensures err { OnErr result (self.new ≡ self.old) }
    {
        if i < self.sent.len() {
            self.came.push(i)?;
            self.sent[i].came = true;
        }
        Ok(())
    }

    /// The last of those that came that has all that is named.
    fn came_last(&self, name: &Name, letters: &[Letter]) -> Option<usize>
        ensures { result ≡ find (fits_at name.now letters.now) (reverse self.now.came) }
    {
        last_fit(self.came.as_slice(), name, letters)
    }

    /// The first of those that wait that has all that is named, behind those that were passed over.
    fn waits_behind(&mut self, name: &Name, letters: &[Letter]) -> Result<Option<usize>, AllocError>
        ensures same { self.new ≡ self.old }
        ensures found { IfOk result (λ found. self.old.sent ≡ map about_of letters.now
            → found ≡ find (fits_at name.now letters.now) (waiting (length letters.now) self.old.came)) }
    {
        let from = pass_over(&mut self.passed, self.sent.as_slice(), name.parts())?;
        Ok(first_fit(self.sent.as_slice(), name, letters, from))
    }

    /// The same, of all that wait.
    fn waits_listed(
        &mut self,
        alloc: Global,
        name: &Name,
        letters: &[Letter],
    ) -> Result<Option<usize>, AllocError>
        ensures same { self.new ≡ self.old }
        ensures found { IfOk result (λ found. self.old.sent ≡ map about_of letters.now
            → found ≡ find (fits_at name.now letters.now) (waiting (length letters.now) self.old.came)) }
    {
        add_numbers(alloc, &mut self.waiting, self.counted, self.sent.len())?;
        self.counted = self.sent.len();
        take_out(&mut self.waiting, self.sent.as_slice());
        self.taken = self.came.len();
        Ok(first_listed(self.waiting.as_slice(), name, letters))
    }

    /// The letter that is named, of letters that were all counted as sent.
    pub fn named(
        &mut self,
        alloc: Global,
        name: &Name,
        letters: &[Letter],
    ) -> Result<Option<usize>, AllocError>
        ensures same { self.new ≡ self.old }
        ensures named { IfOk result (λ found. self.old.sent ≡ map about_of letters.now → found ≡ named name.now letters.now self.old.came) }
    {
        if name.again {
            return Ok(self.came_last(name, letters));
        }
        if name.ballot.is_some() || name.place.is_some() {
            return self.waits_listed(alloc, name, letters);
        }
        self.waits_behind(name, letters)
    }

    /// The numbers of the letters that haven't come and have all of none of these names, of letters that were all
    /// counted as sent.
    pub fn waiting_but(
        &mut self,
        alloc: Global,
        except: &[Name],
        letters: &[Letter],
    ) -> Result<Vec<usize>, AllocError>
        ensures same { self.new ≡ self.old }
        ensures waiting { IfOk result (λ numbers. self.old.sent ≡ map about_of letters.now
            → numbers.items ≡ waiting_but except.now letters.now self.old.came) }
    {
        add_numbers(alloc, &mut self.waiting, self.counted, self.sent.len())?;
        self.counted = self.sent.len();
        take_out(&mut self.waiting, self.sent.as_slice());
        self.taken = self.came.len();
        let left = without(alloc, self.waiting.as_slice(), except, letters)?;
        Ok(left)
    }
}
