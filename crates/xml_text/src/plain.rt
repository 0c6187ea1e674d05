//! Texts in which nothing is to be escaped.

ghost use Rattle.std.specs.Prelude.{◌≡◌, ◌<◌, IfOk, string_bytes};
ghost use Rattle.xml_text.specs.Xml.{is_plain, plain_byte, plain};

use std::alloc::{AllocError, Global};

/// Whether a byte stands for itself.
fn is_plain(byte: u8) -> bool
    ensures { result ≡ is_plain byte }
{
    byte >= 32 && byte < 127 && byte != 34 && byte != 38 && byte != 60 && byte != 62
}

fn plain_byte(byte: u8) -> u8
    ensures value { result ≡ plain_byte byte }
    ensures ascii { result < 128 }
{
    if is_plain(byte) { byte } else { b'.' }
}

/// A text with a full stop in place of each byte that doesn't stand for itself.
pub(crate) fn plain(alloc: Global, text: &str) -> Result<String, AllocError>
    ensures { IfOk result (λ same. string_bytes same ≡ plain text.now) }
{
    let mut same = String::with_capacity(alloc, text.len())?;
    for byte in text.as_bytes() {
        same.push(char::from(plain_byte(*byte)))?;
    }
    Ok(same)
}
