//! Numbers, in decimal.
ghost use Rattle.std.specs.Prelude.{◌≡◌, ◌+◌, ◌/◌, ◌%◌, ◌<◌, ◌≤◌, [], ◌∷◌, ◌++◌, decimal, take, length};

use crate::room::{put, put_bytes, put_two};
use itoa::Buffer;

static PAIRS: [u8; 200] =
    *b"00010203040506070809101112131415161718192021222324252627282930313233343536373839404142434445464748495051525354555657585960616263646566676869707172737475767778798081828384858687888990919293949596979899";

/// The two digits of a number below 100.
#[inline(always)]
fn put_pair(cells: &mut [u8], at: usize, pair: u32) -> usize
    requires pair { pair < 100 }
    requires room { at + 2 ≤ length cells.old }
    ensures items { take result cells.new ≡ take at cells.old ++ (48 + pair / 10) ∷ (48 + pair % 10) ∷ [] }
    ensures end { result ≡ at + 2 }
{
    let from = pair as usize * 2;
    let (tens, ones) = (PAIRS[from], PAIRS[from + 1]);
    put_two(cells, at, tens, ones)
}

/// A number below 100.
#[inline(always)]
#[tactic(auto, using(std::proofs::lemmas::Fmt::decimal_digit, crate::proofs::Decimal::decimal_two))]
pub(crate) fn put_small(cells: &mut [u8], at: usize, n: u32) -> usize
    requires small { n < 100 }
    requires room { at + 2 ≤ length cells.old }
    ensures items { take result cells.new ≡ take at cells.old ++ decimal n }
    ensures end { result ≤ at + 2 }
{
    if n < 10 {
        put(cells, at, b'0' + n as u8)
    } else {
        put_pair(cells, at, n)
    }
}

/// A number. One of a single digit is written where it is asked for.
#[inline(always)]
#[tactic(auto, using(std::proofs::lemmas::Fmt::decimal_digit))]
pub(crate) fn put_number(cells: &mut [u8], at: usize, n: u32) -> usize
    requires { at + 10 ≤ length cells.old }
    ensures items { take result cells.new ≡ take at cells.old ++ decimal n }
    ensures end { result ≤ at + 10 }
{
    if n < 10 {
        put(cells, at, b'0' + n as u8)
    } else {
        put_any(cells, at, n)
    }
}

/// A number.
#[inline(never)]
fn put_any(cells: &mut [u8], at: usize, n: u32) -> usize
    requires { at + 10 ≤ length cells.old }
    ensures items { take result cells.new ≡ take at cells.old ++ decimal n }
    ensures end { result ≤ at + 10 }
{
    if n < 10_000 {
        put_to_four(cells, at, n)
    } else if n < 1_000_000 {
        put_to_six(cells, at, n)
    } else if n < 100_000_000 {
        put_to_eight(cells, at, n)
    } else {
        put_to_ten(cells, at, n)
    }
}

/// A number of at most four digits.
#[inline(always)]
fn put_to_four(cells: &mut [u8], at: usize, n: u32) -> usize
    requires few { n < 10000 }
    requires room { at + 4 ≤ length cells.old }
    ensures items { take result cells.new ≡ take at cells.old ++ decimal n }
    ensures end { result ≤ at + 4 }
{
    if n < 100 {
        put_small(cells, at, n)
    } else {
        put_middle(cells, at, n)
    }
}

/// A number of three or four digits.
#[inline(always)]
fn put_middle(cells: &mut [u8], at: usize, n: u32) -> usize
    requires middle { (100 ≤ n) × (n < 10000) }
    requires room { at + 4 ≤ length cells.old }
    ensures items { take result cells.new ≡ take at cells.old ++ decimal n }
    ensures end { result ≤ at + 4 }
{
    let at = put_small(cells, at, n / 100);
    put_pair(cells, at, n % 100)
}

/// A number of three to six digits.
#[inline(always)]
fn put_to_six(cells: &mut [u8], at: usize, n: u32) -> usize
    requires digits { (100 ≤ n) × (n < 1000000) }
    requires room { at + 6 ≤ length cells.old }
    ensures items { take result cells.new ≡ take at cells.old ++ decimal n }
    ensures end { result ≤ at + 6 }
{
    let at = put_to_four(cells, at, n / 100);
    put_pair(cells, at, n % 100)
}

/// A number of five to eight digits.
#[inline(always)]
fn put_to_eight(cells: &mut [u8], at: usize, n: u32) -> usize
    requires digits { (10000 ≤ n) × (n < 100000000) }
    requires room { at + 8 ≤ length cells.old }
    ensures items { take result cells.new ≡ take at cells.old ++ decimal n }
    ensures end { result ≤ at + 8 }
{
    let at = put_to_six(cells, at, n / 100);
    put_pair(cells, at, n % 100)
}

/// A number of seven digits or more.
fn put_to_ten(cells: &mut [u8], at: usize, n: u32) -> usize
    requires digits { 1000000 ≤ n }
    requires room { at + 10 ≤ length cells.old }
    ensures items { take result cells.new ≡ take at cells.old ++ decimal n }
    ensures end { result ≤ at + 10 }
{
    let at = put_to_eight(cells, at, n / 100);
    put_pair(cells, at, n % 100)
}

/// A number of at most four digits, and how it is spelled.
#[derive(Clone, Copy)]
pub(crate) struct Spelled {
    pub(crate) number: u32,
    digits: [u8; 4],
    len: usize,
}

/// How this number is spelled.
pub(crate) fn spell(n: u32) -> Spelled
    requires { n < 10000 }
    ensures digits { take result.len result.digits ≡ decimal result.number }
    ensures len { result.len ≤ 4 }
{
    let mut digits = [0; 4];
    let len = put_to_four(&mut digits, 0, n);
    Spelled {
        number: n,
        digits,
        len,
    }
}

/// How this number is spelled, if it isn't known yet and isn't too long.
#[inline(always)]
pub(crate) fn spell_next(known: Spelled, n: u32) -> Spelled
    requires digits { take known.len known.digits ≡ decimal known.number }
    requires len { known.len ≤ 4 }
    ensures digits { take result.len result.digits ≡ decimal result.number }
    ensures len { result.len ≤ 4 }
{
    if n == known.number || n >= 10_000 {
        return known;
    }
    spell(n)
}

/// A number that is spelled already. Where it is shorter, what is written behind it counts for nothing.
#[inline(always)]
pub(crate) fn put_spelled(cells: &mut [u8], at: usize, known: &Spelled) -> usize
    requires digits { take known.now.len known.now.digits ≡ decimal known.now.number }
    requires len { known.now.len ≤ 4 }
    requires room { at + 4 ≤ length cells.old }
    ensures items { take result cells.new ≡ take at cells.old ++ decimal known.now.number }
    ensures end { result ≤ at + 4 }
{
    put_bytes(cells, at, &known.digits);
    at + known.len
}

/// A number of 64 bits.
#[inline(always)]
pub(crate) fn put_wide(cells: &mut [u8], at: usize, n: u64) -> usize
    requires { at + 20 ≤ length cells.old }
    ensures items { take result cells.new ≡ take at cells.old ++ decimal n }
    ensures end { result ≤ at + 20 }
{
    if n < 1_000_000 {
        put_any(cells, at, n as u32)
    } else {
        put_vast(cells, at, n)
    }
}

/// Any number, by way of a copy.
#[inline(never)]
fn put_vast(cells: &mut [u8], at: usize, n: u64) -> usize
    requires { at + 20 ≤ length cells.old }
    ensures items { take result cells.new ≡ take at cells.old ++ decimal n }
    ensures end { result ≤ at + 20 }
{
    let mut buffer = Buffer::new();
    put_bytes(cells, at, buffer.format(n).as_bytes())
}
