//! The letters that were sent, found by their bytes.

ghost use Rattle.std.specs.Prelude.{◌≡◌, ◌↔◌, ◌∷◌, ◌++◌, [], Contains, IfOk, IsTrue, OnOk};

use ballots::Letter;
use letter_bytes::write_letter;
use seats::OutOfMemory;
use std::alloc::Global;
use std::collections::HashMap;
use std::marker::Model;

/// All letters that were sent, in order, and where among them the last of its bytes stands.
#[derive(Drop)]
pub(crate) struct Sent {
    alloc: Global,
    letters: Vec<Letter>,
    places: HashMap<Vec<u8>, usize>,
}

impl Model for Sent {
    ghost use Rattle.std.specs.Prelude.{List};
    ghost use Rattle.ballots.specs.declared.letters.Letter.{Letter};

    ghost Value = { List Letter };

    ghost view = { λ s. s.letters.items };
}

fn bytes_of(alloc: Global, letter: &Letter) -> Result<Vec<u8>, OutOfMemory> {
    let mut bytes = Vec::new(alloc);
    match write_letter(letter, &mut bytes) {
        Ok(()) => Ok(bytes),
        Err(_) => Err(OutOfMemory),
    }
}

impl Sent {
    /// No letter was sent yet.
    pub(crate) fn new(alloc: Global) -> Sent
        ensures { result ≡ [] }
    {
        Sent {
            alloc,
            letters: Vec::new(alloc),
            places: HashMap::new(alloc),
        }
    }

    /// One more letter was sent.
    pub(crate) fn add(&mut self, letter: Letter) -> Result<(), OutOfMemory>
        ensures { OnOk result (self.new ≡ self.old ++ letter ∷ []) }
    {
        let bytes = bytes_of(self.alloc, &letter)?;
        let place = self.letters.len();
        self.places.insert(bytes, place)?;
        self.letters.push(letter)?;
        Ok(())
    }

    /// These letters were sent too.
    pub(crate) fn add_all(&mut self, letters: Vec<Letter>) -> Result<(), OutOfMemory>
        ensures { OnOk result (self.new ≡ self.old ++ letters.items) }
    {
        for letter in letters {
            self.add(letter)?;
        }
        Ok(())
    }

    /// Whether the letter was sent.
    pub(crate) fn has(&self, letter: &Letter) -> Result<bool, OutOfMemory>
        ensures { IfOk result (λ found. IsTrue found → Contains self.now letter.now) }
    {
        let bytes = bytes_of(self.alloc, letter)?;
        let Some(place) = self.places.get(bytes.as_slice()) else {
            return Ok(false);
        };
        match self.letters.get(*place) {
            Some(found) => Ok(found.is_same(letter)),
            None => Ok(false),
        }
    }

    /// The same, by a look at each letter, so that a no is certain too.
    pub(crate) fn holds(&self, letter: &Letter) -> bool
        ensures { IsTrue result ↔ Contains self.now letter.now }
    {
        for i in 0..self.letters.len() {
            if self.letters[i].is_same(letter) {
                return true;
            }
        }
        false
    }
}
