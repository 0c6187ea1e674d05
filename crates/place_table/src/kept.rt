//! Bytes as they are kept.

ghost use Rattle.std.specs.Prelude.{◌≡◌, ◌≤◌, IfOk, length, take};
ghost use Rattle.place_table.specs.declared.kept.TheConstants.{NEAR};

use ballots::Bytes;
use std::alloc::{AllocError, Global};
use std::marker::Model;

/// How many bytes lie in what is kept itself.
const NEAR: usize = 30;

/// Where bytes are kept.
#[derive(Drop)]
pub(crate) enum Form {
    Near { len: u8, bytes: [u8; NEAR] },
    Far(Bytes),
}

/// Bytes that are kept. Up to 30 of them take no block of the heap.
#[derive(Drop)]
pub struct Kept {
    form: Form,
}

impl Model for Kept {
    ghost use Rattle.std.specs.Prelude.{ℕ, List};
    ghost use Rattle.place_table.specs.Kept.{kept_bytes, IsForm};

    ghost Value = { List ℕ };

    ghost view = { λ k. kept_bytes k.form };

    ghost invariant = { λ k. IsForm k.form };
}

/// The bytes, and zeros behind them.
fn with_zeros(bytes: &[u8]) -> [u8; NEAR]
    requires { length bytes.now ≤ NEAR }
    ensures len { length result ≡ NEAR }
    ensures bytes { take (length bytes.now) result ≡ bytes.now }
{
    let mut filled = [0; NEAR];
    filled[..bytes.len()].copy_from_slice(bytes);
    filled
}

impl Kept {
    /// A copy of these bytes. Where they are few it takes no memory.
    pub fn copy_of(alloc: Global, bytes: &[u8]) -> Result<Kept, AllocError>
        ensures { IfOk result (λ kept. kept ≡ bytes.now) }
    {
        if bytes.len() > NEAR {
            let far = Bytes::new(Vec::from_slice(alloc, bytes)?);
            return Ok(Kept {
                form: Form::Far(far),
            });
        }
        Ok(Kept {
            form: Form::Near {
                len: bytes.len() as u8,
                bytes: with_zeros(bytes),
            },
        })
    }

    /// The bytes.
    pub fn as_slice(&self) -> &[u8]
        ensures { result.now ≡ self.now }
    {
        match &self.form {
            Form::Near { len, bytes } => &bytes[..usize::from(*len)],
            Form::Far(bytes) => bytes.as_slice(),
        }
    }

    /// A copy, as a letter carries it.
    pub fn to_bytes(&self, alloc: Global) -> Result<Bytes, AllocError>
        ensures { IfOk result (λ bytes. bytes ≡ self.now) }
    {
        Ok(Bytes::new(Vec::from_slice(alloc, self.as_slice())?))
    }
}
