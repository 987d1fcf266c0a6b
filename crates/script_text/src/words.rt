//! The next words of a line: numbers, names and listed words.
ghost use Rattle.std.specs.Prelude.{◌≡◌, ◌<◌, ◌≤◌, IfOk, IsTrue, MatchOption, true, false, length, nat_eq, slice_index};
ghost use Rattle.std.specs.List.{list_all};
ghost use Rattle.std.specs.Cmp.Lexicographic.{pointwise};
ghost use Rattle.yard_model.specs.Behaviour.{is_in};
ghost use Rattle.script_text.specs.Faults.{Reads, earlier, ◌&◌};
ghost use Rattle.script_text.specs.Words.{words, is_text, is_digit, is_gap, value_of, is_blank, begins_comment, is_comment, is_plain};
ghost use Rattle.script_text.specs.Orders.{first, no_more, only, number, only_number, name};

use crate::cut::next_word;
use crate::fault::Why;
use yard_model::EntityName;

/// A name: 1 to 32 letters, digits, dashes and underscores. Else the reason is `BadName`.
#[tactic(auto, using(crate::proofs::Names::named, crate::proofs::Names::unnamed), unfolding(crate::specs::Orders::name))]
pub fn name(word: &[u8]) -> Result<EntityName, Why>
    ensures { result ≡ name word.now }
{
    match EntityName::new(word) {
        Some(name) => Ok(name),
        None => Err(Why::BadName),
    }
}

/// A number in this range: 1 to 18 digits, of which the first may be 0. The first reason where the word
/// is none: no such digits, or out of range.
#[tactic(auto, unfolding(crate::specs::Orders::number))]
pub fn number_of(word: &[u8], low: u32, high: u32) -> Result<u32, Why>
    ensures value { result ≡ number low high word.now }
    ensures valid { IfOk result (λ n. IsTrue (is_in low high n)) }
{
    if word.is_empty() || word.len() > 18 {
        return Err(Why::BadNumber);
    }
    let Some(value) = value_of(word) else {
        return Err(Why::BadNumber);
    };
    if value < low as u64 || value > high as u64 {
        return Err(Why::OutOfRange);
    }
    Ok(value as u32)
}

fn is_digit(b: u8) -> bool
    ensures { result ≡ is_digit b }
{
    b.is_ascii_digit()
}

/// The value of a number; None where a byte is no digit.
fn value_of(word: &[u8]) -> Option<u64>
    requires { length word.now ≤ 18 }
    ensures { MatchOption result (list_all is_digit word.now ≡ false) (λ v. (list_all is_digit word.now ≡ true) × (v ≡ value_of word.now)) }
{
    let mut value = 0u64;
    for b in word {
        if !is_digit(*b) {
            return None;
        }
        value = value * 10 + (*b - b'0') as u64;
    }
    Some(value)
}

/// The next word, and the bytes after it. Where none is left, the reason is `MissingWord`.
pub fn first(line: &[u8]) -> Result<(&[u8], &[u8]), Why>
    ensures { Reads (λ x. (x.0.now, words x.1.now)) result (first (words line.now)) }
{
    match next_word(line) {
        Some(found) => Ok(found),
        None => Err(Why::MissingWord),
    }
}

/// That no word is left. Else the reason is `ExtraWord`.
pub fn no_more(line: &[u8]) -> Result<(), Why>
    ensures { result ≡ no_more (words line.now) }
{
    match next_word(line) {
        Some(_) => Err(Why::ExtraWord),
        None => Ok(()),
    }
}

/// The one word that is left. The reason is `MissingWord` or `ExtraWord`.
#[tactic(auto, unfolding(crate::specs::Orders::only))]
pub fn only(line: &[u8]) -> Result<&[u8], Why>
    ensures { Reads (λ w. w.now) result (only (words line.now)) }
{
    let (word, line) = first(line)?;
    no_more(line)?;
    Ok(word)
}

/// The one word that is left, a number in this range. The first reason where it is none.
#[tactic(auto, unfolding(crate::specs::Orders::only_number))]
pub fn only_number(line: &[u8], low: u32, high: u32) -> Result<u32, Why>
    ensures value { result ≡ only_number low high (words line.now) }
    ensures valid { IfOk result (λ n. IsTrue (is_in low high n)) }
{
    number_of(only(line)?, low, high)
}

/// Two parts, or of their reasons the one that is tried first.
pub fn both<A: Drop, B: Drop>(a: Result<A, Why>, b: Result<B, Why>) -> Result<(A, B), Why>
    ensures value { result ≡ a & b }
    ensures left { IfOk result (λ x. a ≡ Ok x.0) }
    ensures right { IfOk result (λ x. b ≡ Ok x.1) }
{
    match (a, b) {
        (Ok(x), Ok(y)) => Ok((x, y)),
        (Ok(_), Err(w)) => Err(w),
        (Err(v), Ok(_)) => Err(v),
        (Err(v), Err(w)) => Err(earlier(v, w)),
    }
}

/// Of two reasons the one that is tried first.
fn earlier(v: Why, w: Why) -> Why
    ensures { result ≡ earlier v w }
{
    if v.number() <= w.number() { v } else { w }
}

/// Whether the word is this text.
#[inline(always)]
pub fn is(word: &[u8], text: &str) -> bool
    ensures { result ≡ is_text word.now text.now }
{
    word.len() == text.len() && agree(word, text.as_bytes())
}

/// Whether two words of one length are the same.
#[inline(always)]
fn agree(word: &[u8], text: &[u8]) -> bool
    requires { length word.now ≡ length text.now }
    ensures { result ≡ pointwise nat_eq word.now text.now }
{
    for i in 0..text.len() {
        if word[i] != text[i] {
            return false;
        }
    }
    true
}

/// Whether a line that begins with a word is a comment.
pub fn is_blank(text: &[u8]) -> bool
    requires first { is_gap (slice_index text.now 0) ≡ false }
    requires some { 0 < length text.now }
    ensures { result ≡ is_blank (words text.now) }
{
    begins_comment(text)
}

/// Whether a comment begins with this word.
pub fn begins_comment(word: &[u8]) -> bool
    ensures { result ≡ begins_comment word.now }
{
    !word.is_empty() && word[0] == b'#'
}

/// Whether the line is a comment.
pub fn is_comment(line: &[u8]) -> bool
    ensures { result ≡ is_comment (words line.now) }
{
    let Some((word, _)) = next_word(line) else {
        return false;
    };
    begins_comment(word)
}

/// Whether each byte is printable ASCII or a tab.
pub fn is_plain_text(line: &[u8]) -> bool
    ensures { result ≡ list_all is_plain line.now }
{
    line.iter().all(|b| is_plain(*b))
}

fn is_plain(b: u8) -> bool
    ensures { result ≡ is_plain b }
{
    (b >= b' ' && b <= b'~') || b == b'\t'
}
