//! Numbers, texts, names and incarnations, each read from the front of a line.
ghost use Rattle.std.specs.Prelude.{◌≡◌, ◌<◌, ◌≤◌, ◌+◌, ◌*◌, ◌-◌, IfSome, None, Some, MatchOption, take, drop, length};
ghost use Rattle.yard_model.specs.Name.{is_name_byte};
ghost use Rattle.fact_lines.specs.Reads.{begins_digit, digits_from, entity_at, entity_behind, from_one, incarnation_at, is_digit, name_from, number_at, numbered, text_at, who_behind};

use yard_model::{EntityName, Incarnation, NodeNo};

#[inline(always)]
fn is_digit(b: u8) -> bool
    ensures { result ≡ is_digit b }
{
    b.is_ascii_digit()
}

fn begins_digit(line: &[u8]) -> bool
    ensures { result ≡ begins_digit line.now }
{
    match line.first() {
        Some(b) => is_digit(*b),
        None => false,
    }
}

/// One digit more, where that is at most `top`.
fn digit_on(value: u64, digit: u8, top: u64) -> Option<u64>
    requires { 48 ≤ digit }
    ensures { MatchOption result (top < value * 10 + (digit - 48)) (λ n. (n ≡ value * 10 + (digit - 48)) × (n ≤ top)) }
{
    let next = u128::from(value) * 10 + u128::from(digit - b'0');
    if next > u128::from(top) {
        return None;
    }
    Some(next as u64)
}

/// The digits at the front, and the bytes behind them; None where they spell more than `top`.
fn digits(line: &[u8], top: u64) -> Option<(u64, &[u8])>
    ensures read { MatchOption result (top < (digits_from 0 line.now).0) (λ x. digits_from 0 line.now ≡ (x.0, x.1.now)) }
    ensures top { IfSome result (λ x. x.0 ≤ top) }
{
    let mut value = 0u64;
    let mut i = 0;
    while i < line.len() && is_digit(line[i]) {
        let Some(next) = digit_on(value, line[i], top) else {
            return None;
        };
        value = next;
        i += 1;
    }
    Some((value, &line[i..]))
}

/// A number up to `top`, and the bytes behind it.
pub(crate) fn number(line: &[u8], top: u64) -> Option<(u64, &[u8])>
    ensures read { MatchOption result (number_at top line.now ≡ None) (λ x. number_at top line.now ≡ Some (x.0, x.1.now)) }
    ensures top { IfSome result (λ x. x.0 ≤ top) }
{
    if !begins_digit(line) {
        return None;
    }
    digits(line, top)
}

/// The bytes behind this text.
pub(crate) fn text<'a>(line: &'a [u8], text: &[u8]) -> Option<&'a [u8]>
    ensures { MatchOption result (text_at text.now line.now ≡ None) (λ x. text_at text.now line.now ≡ Some x.now) }
{
    for i in 0..text.len() {
        if i >= line.len() {
            return None;
        }
        if line[i] != text[i] {
            return None;
        }
    }
    Some(&line[text.len()..])
}

/// A number up to `top` behind this text, and the bytes behind it.
pub(crate) fn numbered<'a>(line: &'a [u8], word: &[u8], top: u64) -> Option<(u64, &'a [u8])>
    ensures read { MatchOption result (numbered word.now top line.now ≡ None) (λ x. numbered word.now top line.now ≡ Some (x.0, x.1.now)) }
    ensures top { IfSome result (λ x. x.0 ≤ top) }
{
    let behind = text(line, word)?;
    number(behind, top)
}

/// A number of 16 bits, and the bytes behind it.
pub(crate) fn short(line: &[u8]) -> Option<(u16, &[u8])>
    ensures { MatchOption result (number_at 65535 line.now ≡ None) (λ x. number_at 65535 line.now ≡ Some (x.0, x.1.now)) }
{
    let (n, rest) = number(line, 65_535)?;
    Some((n as u16, rest))
}

/// A number of 16 bits behind this text, and the bytes behind it.
pub(crate) fn short_behind<'a>(line: &'a [u8], word: &[u8]) -> Option<(u16, &'a [u8])>
    ensures { MatchOption result (numbered word.now 65535 line.now ≡ None) (λ x. numbered word.now 65535 line.now ≡ Some (x.0, x.1.now)) }
{
    let (n, rest) = numbered(line, word, 65_535)?;
    Some((n as u16, rest))
}

/// A number of 32 bits behind this text, and the bytes behind it.
pub(crate) fn long_behind<'a>(line: &'a [u8], word: &[u8]) -> Option<(u32, &'a [u8])>
    ensures { MatchOption result (numbered word.now 4294967295 line.now ≡ None) (λ x. numbered word.now 4294967295 line.now ≡ Some (x.0, x.1.now)) }
{
    let (n, rest) = numbered(line, word, 4_294_967_295)?;
    Some((n as u32, rest))
}

/// A node, and the bytes behind it.
fn node(line: &[u8]) -> Option<(NodeNo, &[u8])>
    ensures { MatchOption result (from_one 16 line.now ≡ None) (λ x. from_one 16 line.now ≡ Some (x.0, x.1.now)) }
{
    let (n, rest) = number(line, 16)?;
    if n == 0 {
        return None;
    }
    let Some(node) = NodeNo::new(n as u8) else {
        unreachable!()
    };
    Some((node, rest))
}

/// An incarnation, and the bytes behind it.
fn incarnation(line: &[u8]) -> Option<(Incarnation, &[u8])>
    ensures { MatchOption result (incarnation_at line.now ≡ None) (λ x. incarnation_at line.now ≡ Some (x.0, x.1.now)) }
{
    let Some((node, behind)) = node(line) else {
        return None;
    };
    let Some((number, rest)) = long_behind(behind, b".") else {
        return None;
    };
    Some((Incarnation { node, number }, rest))
}

/// An incarnation behind this text, and the bytes behind it.
pub(crate) fn who_behind<'a>(line: &'a [u8], word: &[u8]) -> Option<(Incarnation, &'a [u8])>
    ensures { MatchOption result (who_behind word.now line.now ≡ None) (λ x. who_behind word.now line.now ≡ Some (x.0, x.1.now)) }
{
    let behind = text(line, word)?;
    incarnation(behind)
}

fn is_name_byte(b: u8) -> bool
    ensures { result ≡ is_name_byte b }
{
    b.is_ascii_alphanumeric() || b == b'-' || b == b'_'
}

/// How many bytes at the front may stand in a name.
fn name_length(line: &[u8]) -> usize
    ensures within { result ≤ length line.now }
    ensures read { name_from line.now ≡ (take result line.now, drop result line.now) }
{
    let mut i = 0;
    while i < line.len() && is_name_byte(line[i]) {
        i += 1;
    }
    i
}

/// An entity's name, and the bytes behind it.
fn entity(line: &[u8]) -> Option<(EntityName, &[u8])>
    ensures { MatchOption result (entity_at line.now ≡ None) (λ x. entity_at line.now ≡ Some (x.0, x.1.now)) }
{
    let count = name_length(line);
    match EntityName::new(&line[..count]) {
        Some(name) => Some((name, &line[count..])),
        None => None,
    }
}

/// An entity's name behind this text, and the bytes behind it.
pub(crate) fn entity_behind<'a>(line: &'a [u8], word: &[u8]) -> Option<(EntityName, &'a [u8])>
    ensures { MatchOption result (entity_behind word.now line.now ≡ None) (λ x. entity_behind word.now line.now ≡ Some (x.0, x.1.now)) }
{
    let behind = text(line, word)?;
    entity(behind)
}
