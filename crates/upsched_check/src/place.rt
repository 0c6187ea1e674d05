//! The line and the column of a place in a text.

ghost use Rattle.std.specs.Prelude.{◌≡◌, ◌≤◌, ◌+◌, length};
ghost use Rattle.upsched_check.specs.Lines.{line_of, column_of};

/// The line and the column, both from 1, of the place behind the first bytes of a text. A column counts characters.
pub(crate) fn place_behind(text: &[u8], start: usize) -> (usize, usize)
    requires { start ≤ length text.now }
    ensures line { result.0 ≡ line_of text.now start }
    ensures column { result.1 ≡ column_of text.now start }
{
    let mut line = 1;
    let mut column = 1;
    for i in 0..start {
        let byte = text[i];
        if byte == 10 {
            line += 1;
            column = 1;
        } else if byte < 128 || 192 <= byte {
            column += 1;
        }
    }
    (line, column)
}
