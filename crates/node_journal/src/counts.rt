//! How many lives and lines journals hold.

ghost use Rattle.std.specs.Prelude.{◌≡◌, if◌then◌else◌, nat_eq};
ghost use Rattle.std.specs.List.{starts_with};
ghost use Rattle.node_journal.specs.Counts.{counts_in, life_begin, lines_in, lives_in};

/// How many lives and lines a journal holds, by its bytes: at how many places a life begins, and how many line ends.
#[derive(Clone, Copy, Debug, PartialEq, Eq)]
pub struct Counts {
    pub lives: usize,
    pub lines: usize,
}

/// How a life begins.
const LIFE_BEGIN: &[u8] = b"\nnode ";

/// How many lives begin at the beginning of a text: one or none.
fn lives_at(text: &[u8]) -> usize
    ensures { result ≡ (if starts_with nat_eq text.now life_begin then 1 else 0) }
{
    if text.starts_with(LIFE_BEGIN) { 1 } else { 0 }
}

fn lives_in(text: &[u8]) -> usize
    ensures { result ≡ lives_in text.now }
{
    let mut lives = 0usize;
    for i in 0..text.len() {
        lives += lives_at(&text[i..]);
    }
    lives
}

fn lines_in(text: &[u8]) -> usize
    ensures { result ≡ lines_in text.now }
{
    let mut lines = 0usize;
    for i in 0..text.len() {
        if text[i] == b'\n' {
            lines += 1;
        }
    }
    lines
}

/// How many lives and lines a journal holds, whatever its bytes are.
pub fn counts_of(journal: &[u8]) -> Counts
    ensures { result ≡ counts_in journal.now }
{
    Counts {
        lives: lives_in(journal),
        lines: lines_in(journal),
    }
}
