//! Where a text goes on.

ghost use Rattle.std.specs.Prelude.{◌≡◌, ◌++◌, ◌∷◌, ◌≤◌, IfSome, IsTrue, MatchOption, length, take};
ghost use Rattle.node_journal.specs.Following.{IsPartOf};
ghost use Rattle.node_journal.specs.Tears.{GoesOn, GoesOtherwise};
ghost use Rattle.node_lines.specs.Input.{IsLine};

/// How a text goes on behind a line's end where a life begins.
const LIFE: &[u8] = b"\nnode ";

/// How a refusal begins.
const REFUSAL: &[u8] = b"error ";

/// How many bytes two texts have in common from their beginning on.
pub(crate) fn common(a: &[u8], b: &[u8]) -> usize
    ensures first { result ≤ length a.now }
    ensures second { result ≤ length b.now }
    ensures same { take result a.now ≡ take result b.now }
{
    let most = a.len().min(b.len());
    for i in 0..most {
        if a[i] != b[i] {
            return i;
        }
    }
    most
}

/// The first line of a text, without its end, and what stands behind that; none where no line ends.
pub(crate) fn split_line(text: &[u8]) -> Option<(&[u8], &[u8])>
    ensures { MatchOption result (IsLine text.now) (λ parts. (text.now ≡ parts.0.now ++ 10 ∷ parts.1.now) × IsLine parts.0.now) }
{
    for i in 0..text.len() {
        if text[i] == b'\n' {
            return Some((&text[..i], &text[i + 1..]));
        }
    }
    None
}

/// Whether a text is empty or begins with a life. Of its first lines only a part may be there, at the text's end or
/// where the next life begins.
pub(crate) fn begins_life(text: &[u8]) -> bool {
    let mut rest = text;
    for _ in 0..text.len() {
        let count = common(rest, LIFE);
        if count == LIFE.len() || count == rest.len() {
            return true;
        }
        if count == 0 {
            return false;
        }
        rest = &rest[count..];
    }
    true
}

/// Whether a life begins whose empty line ends right before the text.
pub(crate) fn goes_on_with_life(text: &[u8]) -> bool {
    let head = &LIFE[1..];
    let count = common(text, head);
    count == head.len() || (count > 0 && begins_life(&text[count..]))
}

/// Whether a text begins with a line that was refused.
fn begins_refused(text: &[u8]) -> bool {
    match split_line(text) {
        Some((_, after)) => after.starts_with(REFUSAL),
        None => false,
    }
}

/// How many bytes of a reply stand at the beginning of a text. A line's end isn't one of them where it is that of the
/// empty line with which the next life begins.
pub(crate) fn written_part(text: &[u8], reply: &[u8]) -> usize
    ensures first { result ≤ length text.now }
    ensures second { result ≤ length reply.now }
    ensures same { take result text.now ≡ take result reply.now }
{
    let count = common(text, reply);
    if count == 0 || reply[count - 1] != b'\n' || !goes_on_with_life(&text[count..]) {
        return count;
    }
    if count == reply.len() && begins_refused(&text[count..]) {
        return count;
    }
    count - 1
}

/// The same where all bytes of the reply are there, or a life ends behind them; none where the text begins otherwise.
pub(crate) fn last_part(text: &[u8], reply: &[u8]) -> Option<usize>
    ensures { IfSome result (IsPartOf reply.now text.now) }
{
    let count = written_part(text, reply);
    if count == 0 {
        return None;
    }
    if count < reply.len() && !begins_life(&text[count..]) {
        return None;
    }
    Some(count)
}

/// Whether a life ends within these bytes of a text, behind one of them at least.
pub(crate) fn ends_within(text: &[u8], reply: &[u8]) -> bool {
    let count = common(text, reply);
    count > 0 && begins_life(&text[count..])
}

/// Whether a byte stands at a place of a text with which no life begins.
pub(crate) fn goes_on(text: &[u8], place: usize) -> bool
    ensures { IsTrue result → GoesOn text.now place }
{
    match text.get(place) {
        Some(byte) => *byte != b'\n',
        None => false,
    }
}

/// Whether a text has another byte than a reply behind so many bytes, with which no life begins.
pub(crate) fn goes_on_otherwise(text: &[u8], reply: &[u8], count: usize) -> bool
    ensures { IsTrue result → GoesOtherwise text.now count reply.now count }
{
    match (text.get(count), reply.get(count)) {
        (Some(byte), Some(owed)) => *byte != b'\n' && *byte != *owed,
        _ => false,
    }
}
