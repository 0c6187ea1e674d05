//! A struct of each kind that C shares, with numbered fields: by them C sees that its header is this library's.

ghost use Rattle.std.specs.Prelude.{◌≡◌};
ghost use Rattle.upsched_c_node.specs.Samples.{numbered};

use crate::letter_fields::{LetterFields, VoteFields};
use node_writes::WriteBytes;

/// A struct of each kind.
#[repr(C)]
#[derive(Clone, Copy)]
pub struct NodeSamples {
    pub write: WriteBytes,
    pub letter: LetterFields,
    pub votes: [VoteFields; 2],
}

const VOTE: VoteFields = VoteFields {
    place: 1,
    ballot: 2,
    value_len: 3,
    value: [4; 64],
};

/// Numbers the fields of each struct from 1 in their order. The answer is the version of the library.
#[unsafe(no_mangle)]
pub extern "C" fn upsched_c_node_samples(samples: &mut NodeSamples) -> u32
    ensures version { result ≡ 768 }
    ensures samples { samples.new ≡ numbered }
{
    *samples = NodeSamples {
        write: WriteBytes {
            kind: 1,
            node: 2,
            value_len: 3,
            ballot: [4; 8],
            place: [5; 8],
            value: [6; 64],
        },
        letter: LetterFields {
            ballot: 1,
            place: 2,
            kind: 3,
            from: 4,
            to: 5,
            value_len: 6,
            value: [7; 64],
        },
        votes: [VOTE, VOTE],
    };
    0x0300
}
