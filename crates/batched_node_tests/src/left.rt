//! Which replies go out behind a commit that fails.

ghost use Rattle.std.specs.Prelude.{◌∷◌, [], false, nat_lt};

use ballots::Bytes;
use node_lines::{LineFault, Unwritten};
use node_service::{BatchedEnd, Keeper, Told, serve_batched};
use std::alloc::Global;
use std::io::{BufReader, Write};
use std::test::Fail;

/// One byte, which is told as a line.
#[derive(Drop)]
struct Byte {
    told: u8,
}

impl Told for Byte {
    ghost text = { λ byte. byte.told ∷ 10 ∷ [] };

    fn write_to<W: Write>(&self, _alloc: Global, output: &mut W) -> Result<(), Unwritten> {
        let text = [self.told, b'\n'];
        match output.write_all(&text) {
            Ok(()) => Ok(()),
            Err(_) => Err(Unwritten::Output),
        }
    }
}

/// What replies to a line by its first byte, and fails at its first commit, of which it tells a 5.
#[derive(Drop)]
struct Failing {
    is_up: bool,
}

/// Nothing is promised of it, but that bytes below a 5 may be told behind that commit.
impl Keeper for Failing {
    type Reply = Byte;

    ghost up = { λ failing. failing.is_up };

    ghost replies = { λ old came replied new. Unit {0} };

    ghost has_noted = { λ failing. Unit {0} };

    ghost is_apart = { λ line. false };

    ghost has_room = { λ failing. Unit {0} };

    ghost has_kept = { λ failing. Unit {0} };

    ghost commits = { λ old new. Unit {0} };

    ghost fails = { λ old told new. Unit {0} };

    ghost may_tell = { λ told replied. nat_lt replied.told told.told };

    ghost leaves = { λ failing replied. Unit {0} };

    fn can_act(&self) -> bool {
        self.is_up
    }

    fn is_apart(&self, _line: &Bytes) -> bool {
        false
    }

    fn reply_to(&mut self, _alloc: Global, line: Result<Bytes, LineFault>) -> Byte {
        let told = match line {
            Ok(line) => line.as_slice().first().copied().unwrap_or(b'?'),
            Err(_) => b'?',
        };
        Byte { told }
    }

    fn waits(&self) -> bool {
        true
    }

    fn is_full(&self) -> bool {
        false
    }

    fn may_tell(told: &Byte, reply: &Byte) -> bool {
        reply.told < told.told
    }

    fn commit(&mut self) -> Result<(), Byte> {
        self.is_up = false;
        Err(Byte { told: b'5' })
    }
}

/// What is replied to these lines, and how that ends.
fn replied(alloc: Global, lines: &str) -> Result<(Vec<u8>, BatchedEnd), Fail> {
    let mut input = BufReader::new(alloc, lines.as_bytes())?;
    let mut output = Vec::new(alloc);
    let end = serve_batched(alloc, &mut Failing { is_up: true }, &mut input, &mut output);
    Ok((output, end))
}

#[test]
fn replies_that_may_be_told_go_out_before_the_fault(rt: HostRuntime) -> Result<(), Fail> {
    for (lines, told) in [
        ("1\n3\n", "1\n3\n5\n"),
        ("1\n3\n7\n2\n", "1\n3\n5\n"),
        ("5\n1\n", "5\n"),
    ] {
        let (output, end) = replied(rt.alloc(), lines)?;
        assert_eq!(rt; end, BatchedEnd::Uncommitted, "at {told}");
        assert_eq!(rt; output.as_slice(), told.as_bytes(), "at {told}");
    }
    Ok(())
}
