//! Words, numbers and names at the front of a line, as they are printed. Where the answer is None, nothing is said.
ghost use Rattle.std.specs.Prelude.{◌≡◌, ◌<◌, ◌≤◌, ◌∷◌, ◌++◌, [], true, length, slice_index, IfSome, decimal};
ghost use Rattle.fact_lines.specs.Reads.{is_digit};
ghost use Rattle.yard_model.specs.Text.{words};

use crate::basics::{LONG, is_digit};
use crate::parts::Pair;
use yard_model::{CartItem, EntityName, ProducerNo};

/// How many bytes a name has at most.
const NAME: usize = 32;

/// The bytes behind this word.
#[inline(always)]
pub(crate) fn behind<'a>(line: &'a [u8], word: &[u8]) -> Option<&'a [u8]>
    ensures { IfSome result (λ x. line.now ≡ word.now ++ x.now) }
{
    if line.len() < word.len() {
        return None;
    }
    for i in 0..word.len() {
        if line[i] != word[i] {
            return None;
        }
    }
    Some(&line[word.len()..])
}

/// A number up to `top` with no zero before it, and the bytes behind it.
#[inline(always)]
fn number(line: &[u8], top: u64) -> Option<(u64, &[u8])>
    requires low { 9 ≤ top }
    requires high { top ≤ 999999999999999999 }
    ensures spelled { IfSome result (λ x. line.now ≡ decimal x.0 ++ x.1.now) }
    ensures top { IfSome result (λ x. x.0 ≤ top) }
{
    if line.is_empty() || !is_digit(line[0]) {
        return None;
    }
    if line[0] == b'0' {
        return Some((0, &line[1..]));
    }
    digits(line, top)
}

/// The same of a number that begins with another digit than 0.
#[inline(always)]
fn digits(line: &[u8], top: u64) -> Option<(u64, &[u8])>
    requires low { 9 ≤ top }
    requires high { top ≤ 999999999999999999 }
    requires some { 0 < length line.now }
    requires first { is_digit (slice_index line.now 0) ≡ true }
    requires other { 48 < slice_index line.now 0 }
    ensures spelled { IfSome result (λ x. line.now ≡ decimal x.0 ++ x.1.now) }
    ensures top { IfSome result (λ x. x.0 ≤ top) }
{
    let mut value = (line[0] - b'0') as u64;
    let mut i = 1;
    while i < line.len() && is_digit(line[i]) {
        value = value * 10 + (line[i] - b'0') as u64;
        if value > top {
            return None;
        }
        i += 1;
    }
    Some((value, &line[i..]))
}

/// A number of 32 bits behind this word, and the bytes behind it.
#[inline(always)]
pub(crate) fn long<'a>(line: &'a [u8], word: &[u8]) -> Option<(u32, &'a [u8])>
    ensures { IfSome result (λ x. line.now ≡ word.now ++ (decimal x.0 ++ x.1.now)) }
{
    let rest = behind(line, word)?;
    let (n, rest) = number(rest, LONG)?;
    Some((n as u32, rest))
}

/// A number of 16 bits behind this word, and the bytes behind it.
#[inline(always)]
pub(crate) fn short<'a>(line: &'a [u8], word: &[u8]) -> Option<(u16, &'a [u8])>
    ensures { IfSome result (λ x. line.now ≡ word.now ++ (decimal x.0 ++ x.1.now)) }
{
    let rest = behind(line, word)?;
    let (n, rest) = number(rest, 65_535)?;
    Some((n as u16, rest))
}

/// A number up to `top` behind this word, and the bytes behind it.
#[inline(always)]
pub(crate) fn wide<'a>(line: &'a [u8], word: &[u8]) -> Option<(u64, &'a [u8])>
    ensures { IfSome result (λ x. line.now ≡ word.now ++ (decimal x.0 ++ x.1.now)) }
{
    let rest = behind(line, word)?;
    number(rest, 999_999_999_999_999_999)
}

/// A producer behind this word, and the bytes behind it.
#[inline(always)]
pub(crate) fn producer<'a>(line: &'a [u8], word: &[u8]) -> Option<(ProducerNo, &'a [u8])>
    ensures { IfSome result (λ x. line.now ≡ word.now ++ (decimal x.0 ++ x.1.now)) }
{
    let rest = behind(line, word)?;
    let (n, rest) = number(rest, 32)?;
    let producer = ProducerNo::new(n as u8)?;
    Some((producer, rest))
}

/// How many bytes stand before the first space, at most as many as a name has.
#[inline(always)]
fn word_length(line: &[u8]) -> usize
    ensures { result ≤ length line.now }
{
    let mut i = 0;
    while i < line.len() && i < NAME && line[i] != b' ' {
        i += 1;
    }
    i
}

/// An entity's name behind this word, and the bytes behind it.
#[inline(always)]
pub(crate) fn entity<'a>(line: &'a [u8], word: &[u8]) -> Option<(EntityName, &'a [u8])>
    ensures { IfSome result (λ x. line.now ≡ word.now ++ (x.0 ++ x.1.now)) }
{
    let rest = behind(line, word)?;
    let count = word_length(rest);
    let (front, rest) = rest.split_at(count);
    let name = EntityName::new(front)?;
    Some((name, rest))
}

/// A producer, an entity and a number behind this word, and the bytes behind them.
#[inline(always)]
pub(crate) fn pair<'a>(line: &'a [u8], word: &[u8]) -> Option<(Pair, &'a [u8])>
    ensures { IfSome result (λ x. line.now ≡ word.now ++ (words (decimal x.0.producer ∷ x.0.entity ∷ decimal x.0.number ∷ []) ++ x.1.now)) }
{
    let Some((producer, rest)) = producer(line, word) else {
        return None;
    };
    let Some((entity, rest)) = entity(rest, b" ") else {
        return None;
    };
    let Some((number, rest)) = long(rest, b" ") else {
        return None;
    };
    Some((
        Pair {
            producer,
            entity,
            number,
        },
        rest,
    ))
}

/// An item and its quantity behind this word, and the bytes behind them.
pub(crate) fn item<'a>(line: &'a [u8], word: &[u8]) -> Option<(CartItem, &'a [u8])>
    ensures { IfSome result (λ x. line.now ≡ word.now ++ (words (decimal x.0.item ∷ decimal x.0.quantity ∷ []) ++ x.1.now)) }
{
    let (item, rest) = short(line, word)?;
    let (quantity, rest) = short(rest, b" ")?;
    Some((CartItem { item, quantity }, rest))
}
