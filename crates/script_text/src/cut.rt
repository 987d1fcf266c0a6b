//! Lines of bytes, words of a line, numbers and names.
ghost use Rattle.std.specs.Prelude.{◌≡◌, ◌≢◌, ◌==◌, ◌&&◌, ℕ, ◌+◌, ◌<◌, ◌≤◌, nat_lt, nat_le, ◌∷◌, [], true, false, not, length, if◌then◌else◌, IfSome, MatchOption, slice_index};
ghost use Rattle.std.specs.List.{position, list_all};
ghost use Rattle.std.specs.Int.{bit_at};
ghost use Rattle.std.specs.Str.Lines.{lines, strip_carriage_return};
ghost use Rattle.script_text.specs.Words.{is_gap, is_plain, is_printable, ArePrintable, words};

use std::simd::prelude::*;

/// A line, and what comes after it.
#[derive(Clone, Copy)]
pub struct Cut<'a> {
    /// The line, without its end.
    pub line: &'a [u8],
    /// The bytes after it.
    pub more: &'a [u8],
    /// Whether each byte of the line is known to be printable.
    pub is_clean: bool,
}

/// The first line, without its LF and a CR before it; None where there are no bytes.
pub fn next_line(bytes: &[u8]) -> Option<Cut<'_>>
    ensures lines { MatchOption result (lines bytes.now ≡ []) (λ x. lines bytes.now ≡ x.line.now ∷ lines x.more.now) }
    ensures shorter { IfSome result (λ x. length x.more.now < length bytes.now) }
    ensures clean { IfSome result (λ x. x.is_clean ≡ true → list_all is_plain x.line.now ≡ true) }
{
    let stop = first_stop(bytes);
    if stop < bytes.len() && bytes[stop] == b'\n' {
        return Some(Cut {
            line: &bytes[..stop],
            more: &bytes[stop + 1..],
            is_clean: true,
        });
    }
    any_line(bytes)
}

/// The first line, of any bytes; None where there are none.
#[cold]
fn any_line(bytes: &[u8]) -> Option<Cut<'_>>
    ensures lines { MatchOption result (lines bytes.now ≡ []) (λ x. lines bytes.now ≡ x.line.now ∷ lines x.more.now) }
    ensures shorter { IfSome result (λ x. length x.more.now < length bytes.now) }
    ensures clean { IfSome result (λ x. x.is_clean ≡ false) }
{
    if bytes.is_empty() {
        return None;
    }
    match line_end(bytes) {
        None => Some(Cut {
            line: bytes,
            more: &bytes[bytes.len()..],
            is_clean: false,
        }),
        Some(end) => Some(Cut {
            line: without_return(&bytes[..end]),
            more: &bytes[end + 1..],
            is_clean: false,
        }),
    }
}

/// Where the first byte stands that isn't printable; how many there are where all are.
fn first_stop(bytes: &[u8]) -> usize
    ensures before { ArePrintable bytes.now result }
    ensures within { result ≤ length bytes.now }
{
    let mut at = 0;
    while bytes.len() - at >= 16 {
        let stops = stops_of(bytes, at);
        if stops != 0 {
            return at + lowest(stops);
        }
        at += 16;
    }
    last_stop(bytes, at)
}

/// The same, where this many are known to be printable, byte by byte.
fn last_stop(bytes: &[u8], start: usize) -> usize
    requires start { ArePrintable bytes.now start }
    requires inside { start ≤ length bytes.now }
    ensures before { ArePrintable bytes.now result }
    ensures within { result ≤ length bytes.now }
{
    let mut at = start;
    while at < bytes.len() {
        if !is_printable(bytes[at]) {
            return at;
        }
        at += 1;
    }
    at
}

/// Of the sixteen bytes from this place on, a bit for each that isn't printable.
fn stops_of(bytes: &[u8], at: usize) -> u64
    requires { at + 16 ≤ length bytes.now }
    ensures before { (k : ℕ) → k < 16 → bit_at result k ≡ 0 → is_printable (slice_index bytes.now (at + k)) ≡ true }
    ensures within { (k : ℕ) → bit_at result k ≡ 1 → k < 16 }
{
    let chunk = chunk_at(bytes, at);
    below_space(chunk) | above_tilde(chunk)
}

/// The sixteen bytes from this place on.
fn chunk_at(bytes: &[u8], at: usize) -> u8x16
    requires { at + 16 ≤ length bytes.now }
    ensures { (k : ℕ) → k < 16 → slice_index result k ≡ slice_index bytes.now (at + k) }
{
    u8x16::from_slice(&bytes[at..])
}

/// A bit for each byte before the space.
fn below_space(chunk: u8x16) -> u64
    ensures { (k : ℕ) → bit_at result k ≡ (if nat_lt k 16 && nat_lt (slice_index chunk k) 32 then 1 else 0) }
{
    chunk.simd_lt(u8x16::splat(32)).to_bitmask()
}

/// A bit for each byte after the tilde.
fn above_tilde(chunk: u8x16) -> u64
    ensures { (k : ℕ) → bit_at result k ≡ (if nat_lt k 16 && nat_lt 126 (slice_index chunk k) then 1 else 0) }
{
    chunk.simd_gt(u8x16::splat(126)).to_bitmask()
}

/// The place of the lowest bit.
fn lowest(bits: u64) -> usize
    requires { bits ≢ 0 }
    ensures set { bit_at bits result ≡ 1 }
    ensures below { (k : ℕ) → k < result → bit_at bits k ≡ 0 }
{
    bits.trailing_zeros() as usize
}

fn is_printable(b: u8) -> bool
    ensures { result ≡ is_printable b }
{
    b >= b' ' && b <= b'~'
}

/// Where the first line's LF stands.
fn line_end(bytes: &[u8]) -> Option<usize>
    ensures place { result ≡ position (λ b. b == 10) bytes.now }
    ensures within { IfSome result (λ i. i < length bytes.now) }
{
    bytes.iter().position(|b| *b == b'\n')
}

/// A line without the CR at its end, if it has one.
fn without_return(line: &[u8]) -> &[u8]
    ensures { result.now ≡ strip_carriage_return line.now }
{
    if !line.is_empty() && line[line.len() - 1] == b'\r' {
        &line[..line.len() - 1]
    } else {
        line
    }
}

/// The first word of a line, which ends at a space or a tab, and the bytes after it; None where there is none.
pub fn next_word(line: &[u8]) -> Option<(&[u8], &[u8])>
    ensures words { MatchOption result (words line.now ≡ []) (λ x. words line.now ≡ x.0.now ∷ words x.1.now) }
    ensures shorter { IfSome result (λ x. length x.1.now < length line.now) }
{
    match word_start(line) {
        None => None,
        Some(text) => Some(first_word(text)),
    }
}

/// The word at the front, and the bytes after it.
fn first_word(text: &[u8]) -> (&[u8], &[u8])
    requires first { is_gap (slice_index text.now 0) ≡ false }
    requires some { 0 < length text.now }
    ensures words { words text.now ≡ result.0.now ∷ words result.1.now }
    ensures shorter { length result.1.now < length text.now }
{
    match gap(text) {
        None => (text, &text[text.len()..]),
        Some(end) => (&text[..end], &text[end + 1..]),
    }
}

/// The line from its first word on; None where there is none.
pub fn word_start(line: &[u8]) -> Option<&[u8]>
    ensures words { MatchOption result (words line.now ≡ []) (λ text. words line.now ≡ words text.now) }
    ensures first { IfSome result (λ text. is_gap (slice_index text.now 0) ≡ false) }
    ensures some { IfSome result (λ text. 0 < length text.now) }
    ensures shorter { IfSome result (λ text. length text.now ≤ length line.now) }
{
    if begins_high(line) {
        return Some(line);
    }
    any_word(line)
}

/// The same, of a line that may begin with a gap.
#[cold]
fn any_word(line: &[u8]) -> Option<&[u8]>
    ensures words { MatchOption result (words line.now ≡ []) (λ text. words line.now ≡ words text.now) }
    ensures first { IfSome result (λ text. is_gap (slice_index text.now 0) ≡ false) }
    ensures some { IfSome result (λ text. 0 < length text.now) }
    ensures shorter { IfSome result (λ text. length text.now ≤ length line.now) }
{
    match word_place(line) {
        None => None,
        Some(start) => Some(&line[start..]),
    }
}

/// Whether it begins with a byte after the space, so with a word.
fn begins_high(line: &[u8]) -> bool
    ensures word { result ≡ true → is_gap (slice_index line.now 0) ≡ false }
    ensures some { result ≡ true → 0 < length line.now }
{
    !line.is_empty() && line[0] > b' '
}

/// Where the first word stands.
fn word_place(line: &[u8]) -> Option<usize>
    ensures place { result ≡ position (λ b. not (is_gap b)) line.now }
    ensures within { IfSome result (λ i. i < length line.now) }
{
    line.iter().position(|b| !is_gap(*b))
}

/// Where the first space or tab stands.
fn gap(text: &[u8]) -> Option<usize>
    ensures place { result ≡ position is_gap text.now }
    ensures within { IfSome result (λ i. i < length text.now) }
{
    let low = low_place(text)?;
    if is_gap(text[low]) {
        return Some(low);
    }
    any_gap(text)
}

/// The same, of any bytes.
#[cold]
fn any_gap(text: &[u8]) -> Option<usize>
    ensures place { result ≡ position is_gap text.now }
    ensures within { IfSome result (λ i. i < length text.now) }
{
    text.iter().position(|b| is_gap(*b))
}

/// Where the first byte stands that isn't above a space.
fn low_place(text: &[u8]) -> Option<usize>
    ensures place { result ≡ position (λ b. nat_le b 32) text.now }
    ensures within { IfSome result (λ i. i < length text.now) }
{
    text.iter().position(|b| *b <= b' ')
}

fn is_gap(b: u8) -> bool
    ensures { result ≡ is_gap b }
{
    b == b' ' || b == b'\t'
}
