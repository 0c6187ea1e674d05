//! The values of the log, and bytes that may be one.

ghost use Rattle.std.specs.Prelude.{◌≡◌, ◌↔◌, OnSome, IsSome, Some, IfOk};
ghost use Rattle.ballots.specs.Limits.{IsValue};

use std::alloc::{AllocError, Global};
use std::marker::Model;

/// The most bytes that a value of the log has.
pub const LONGEST_VALUE: usize = 64;

/// Bytes as a letter carries them, of any number.
#[derive(Drop, Clone)]
pub struct Bytes {
    raw: Vec<u8>,
}

impl Model for Bytes {
    ghost use Rattle.std.specs.Prelude.{ℕ, List};

    ghost Value = { List ℕ };

    ghost view = { λ b. b.raw.items };
}

impl Bytes {
    /// These bytes, of any number. It takes no memory.
    pub fn new(raw: Vec<u8>) -> Bytes
        ensures { result ≡ raw.items }
    {
        Bytes { raw }
    }

    /// The bytes.
    pub fn as_slice(&self) -> &[u8]
        ensures { result.now ≡ self.now }
    {
        self.raw.as_slice()
    }

    /// The `Vec` that it was made of.
    pub fn into_vec(self) -> Vec<u8>
        ensures { result.items ≡ self }
    {
        let Bytes { raw: bytes } = self;
        bytes
    }

    /// The same bytes again.
    pub fn copy(&self, alloc: Global) -> Result<Bytes, AllocError>
        ensures { IfOk result (λ b. b ≡ self.now) }
    {
        Ok(Bytes {
            raw: Vec::from_slice(alloc, &self.raw)?,
        })
    }
}

/// A value of the log, at most 64 bytes.
#[derive(Drop, Clone)]
pub struct Value {
    bytes: Bytes,
}

impl Model for Value {
    ghost use Rattle.std.specs.Prelude.{ℕ, List};
    ghost use Rattle.ballots.specs.Limits.{IsValue};

    ghost Value = { List ℕ };

    ghost view = { λ v. v.bytes };

    ghost invariant = { λ v. IsValue v.bytes };
}

impl Value {
    /// The value of these bytes, and none where they are more than 64. It takes no memory, and lets bytes that it
    /// refuses go.
    pub fn new(bytes: Bytes) -> Option<Value>
        ensures some { OnSome result (result ≡ Some bytes) }
        ensures fits { IsSome result ↔ IsValue bytes }
    {
        if bytes.as_slice().len() <= LONGEST_VALUE {
            Some(Value { bytes })
        } else {
            None
        }
    }

    /// Its bytes, at most 64.
    pub fn as_slice(&self) -> &[u8]
        ensures same { result.now ≡ self.now }
        ensures fits { IsValue result.now }
    {
        self.bytes.as_slice()
    }

    /// The bytes, as a letter carries them.
    pub fn into_bytes(self) -> Bytes
        ensures same { result ≡ self }
        ensures fits { IsValue result }
    {
        let Value { bytes } = self;
        bytes
    }

    /// The same value again.
    pub fn copy(&self, alloc: Global) -> Result<Value, AllocError>
        ensures same { IfOk result (λ v. v ≡ self.now) }
        ensures fits { IfOk result (λ v. IsValue v) }
    {
        Ok(Value {
            bytes: self.bytes.copy(alloc)?,
        })
    }
}
