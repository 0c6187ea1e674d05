//! What a line asks.

ghost use Rattle.std.specs.Prelude.{◌≡◌, ◌≢◌, ◌++◌, ◌≤◌, ℕ, List, Ok, IfOk, IfErr, IsErr, MatchOption, drop, length};
ghost use Rattle.std.specs.Prelude.{vec_len};
ghost use Rattle.hex.specs.Hex.{decode_of};
ghost use Rattle.node_lines.specs.declared.fault.LineFault.TheVariants.{NoHex, OutOfMemory};
ghost use Rattle.node_lines.specs.Commands.{command_word};
ghost use Rattle.node_lines.specs.Lines.{Asks, AsksNothing, BeginsOther, IsLetterText, IsNoLetter, IsNumberText};
ghost use Rattle.node_lines.specs.Lines.{IsRefused, IsTellText, letter_word, offer_word};

use crate::command::offer_in;
use crate::digits::decode_in_place;
use crate::fault::LineFault;
use crate::request::Request;
use ballots::{Bytes, Letter, NodeId};
use letter_bytes::{LetterFault, read_letter};
use std::alloc::Global;
use std::str;

fn digits_behind<'a>(line: &'a [u8], word: &[u8]) -> Option<&'a [u8]>
    ensures { MatchOption result ((digits : List ℕ) → line.now ≢ word.now ++ digits) (λ digits. line.now ≡ word.now ++ digits.now) }
{
    line.strip_prefix(word)
}

/// Where the digits of a line begin, behind this word.
#[tactic(auto, using(crate::proofs::Words::place_behind))]
pub fn behind(line: &[u8], word: &[u8]) -> Option<usize>
    ensures { MatchOption result ((digits : List ℕ) → line.now ≢ word.now ++ digits)
        (λ place. (place ≤ length line.now) × (line.now ≡ word.now ++ drop place line.now)) }
{
    match digits_behind(line, word) {
        Some(digits) => Some(line.len() - digits.len()),
        None => None,
    }
}

/// The bytes that the digits from a place of a line on spell, in the line's memory.
pub fn bytes_from(line: Vec<u8>, place: usize) -> Result<Vec<u8>, LineFault>
    requires { place ≤ vec_len line }
    ensures read { IfOk result (λ bytes. decode_of (drop place line.items) ≡ Ok bytes.items) }
    ensures fault { IfErr result (λ why. (why ≡ NoHex) × IsErr (decode_of (drop place line.items))) }
{
    let mut bytes = line;
    let Some(count) = decode_in_place(&mut bytes, place) else {
        return Err(LineFault::NoHex);
    };
    bytes.truncate(count);
    Ok(bytes)
}

fn letter_from(alloc: Global, line: Vec<u8>, place: usize) -> Result<Letter, LineFault>
    requires { place ≤ vec_len line }
    ensures read { IfOk result (IsLetterText (drop place line.items)) }
    ensures fault { IfErr result (IsNoLetter (drop place line.items)) }
{
    let bytes = bytes_from(line, place)?;
    match read_letter(alloc, &bytes) {
        Ok(letter) => Ok(letter),
        Err(LetterFault::OutOfMemory) => Err(LineFault::OutOfMemory),
        Err(why) => Err(LineFault::NoLetter(why)),
    }
}

fn number_in(digits: &[u8]) -> Option<u64>
    ensures { MatchOption result ((n : ℕ) → ¬ IsNumberText digits.now n) (IsNumberText digits.now) }
{
    let Ok(text) = str::from_utf8(digits) else {
        return None;
    };
    match text.parse::<u64>() {
        Ok(number) => Some(number),
        Err(_) => None,
    }
}

/// The node and the place behind the word: one digit, a blank and a number.
fn telling_in(words: &[u8]) -> Option<(NodeId, u64)>
    ensures { MatchOption result ((to place : ℕ) → ¬ IsTellText words.now to place) (λ told. IsTellText words.now told.0 told.1) }
{
    let (code, rest) = words.split_first()?;
    let digits = digits_behind(rest, b" ")?;
    let place = number_in(digits)?;
    let to = NodeId::new(code.checked_sub(b'0')?)?;
    Some((to, place))
}

/// What a line asks that has neither a letter nor a value.
fn other_request(line: &[u8]) -> Result<Request, LineFault>
    requires offer { BeginsOther offer_word line.now }
    requires command { BeginsOther command_word line.now }
    requires letter { BeginsOther letter_word line.now }
    ensures read { IfOk result (Asks line.now) }
    ensures fault { IfErr result (IsRefused line.now) }
{
    if line == b"lead".as_slice() {
        return Ok(Request::Lead);
    }
    if let Some(digits) = digits_behind(line, b"release ") {
        return match number_in(digits) {
            Some(now) => Ok(Request::Release(now)),
            None => Err(LineFault::NoNumber),
        };
    }
    if let Some(words) = digits_behind(line, b"tell ") {
        return match telling_in(words) {
            Some((to, place)) => Ok(Request::Tell(to, place)),
            None => Err(LineFault::NoNumber),
        };
    }
    Err(LineFault::NoLine)
}

fn request_of(alloc: Global, line: Vec<u8>) -> Result<Request, LineFault>
    ensures read { IfOk result (Asks line.items) }
    ensures fault { IfErr result (IsRefused line.items) }
{
    if let Some(place) = behind(&line, b"letter ") {
        return Ok(Request::Letter(letter_from(alloc, line, place)?));
    }
    if let Some(place) = behind(&line, b"offer ") {
        return Ok(Request::Offer(Bytes::new(bytes_from(line, place)?)));
    }
    if let Some(_) = digits_behind(&line, b"command ") {
        return offer_in(alloc, &line);
    }
    other_request(&line)
}

/// What a line, without its end, asks of a node. Its digits are decoded in the line's memory: only a letter's values
/// and votes take more, and a command.
pub fn read_line(alloc: Global, line: Bytes) -> Result<Request, LineFault>
    ensures read { IfOk result (Asks line) }
    ensures fault { IfErr result (IsRefused line) }
    ensures nothing { IfErr result (λ why. why ≢ OutOfMemory → AsksNothing line) }
{
    request_of(alloc, line.into_vec())
}
