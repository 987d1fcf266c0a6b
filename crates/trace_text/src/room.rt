//! Writing into cells, behind what is there. Each function takes where to write and
//! returns where what it wrote ends: so that place stays in a register.
ghost use Rattle.std.specs.Prelude.{◌≡◌, ◌+◌, ◌<◌, ◌≤◌, [], ◌∷◌, ◌++◌, IfOk, OnErr, OnOk, length, take};
ghost use Rattle.trace_text.specs.Grown.{Appends};

use std::alloc::AllocError;

/// One byte more.
#[inline(always)]
pub(crate) fn put(cells: &mut [u8], at: usize, byte: u8) -> usize
    requires { at + 1 ≤ length cells.old }
    ensures items { take result cells.new ≡ take at cells.old ++ byte ∷ [] }
    ensures end { result ≡ at + 1 }
{
    cells[at] = byte;
    at + 1
}

/// Two bytes more.
#[inline(always)]
pub(crate) fn put_two(cells: &mut [u8], at: usize, first: u8, second: u8) -> usize
    requires { at + 2 ≤ length cells.old }
    ensures items { take result cells.new ≡ take at cells.old ++ first ∷ second ∷ [] }
    ensures end { result ≡ at + 2 }
{
    let at = put(cells, at, first);
    put(cells, at, second)
}

/// A word more, which is known where it is written: so its bytes are stored at once.
#[inline(always)]
pub(crate) fn put_word<const N: usize>(cells: &mut [u8], at: usize, word: &[u8; N]) -> usize
    requires { at + N ≤ length cells.old }
    ensures items { take result cells.new ≡ take at cells.old ++ word.now }
    ensures end { result ≡ at + N }
{
    let mut end = at;
    for byte in word {
        end = put(cells, end, *byte);
    }
    end
}

/// Some bytes more.
#[inline(always)]
pub(crate) fn put_bytes(cells: &mut [u8], at: usize, bytes: &[u8]) -> usize
    requires { at + length bytes.now ≤ length cells.old }
    ensures items { take result cells.new ≡ take at cells.old ++ bytes.now }
    ensures end { result ≡ at + length bytes.now }
{
    let end = at + bytes.len();
    cells[at..end].copy_from_slice(bytes);
    end
}

/// At most 32 bytes more: in two copies of a constant length, which may overlap.
#[inline(always)]
pub(crate) fn put_short(cells: &mut [u8], at: usize, bytes: &[u8]) -> usize
    requires short { length bytes.now ≤ 32 }
    requires room { at + length bytes.now ≤ length cells.old }
    ensures items { take result cells.new ≡ take at cells.old ++ bytes.now }
    ensures end { result ≡ at + length bytes.now }
{
    if bytes.len() >= 16 {
        put_ends::<16>(cells, at, bytes)
    } else if bytes.len() >= 8 {
        put_ends::<8>(cells, at, bytes)
    } else if bytes.len() >= 4 {
        put_ends::<4>(cells, at, bytes)
    } else {
        put_few(cells, at, bytes)
    }
}

/// The first N bytes, and then the last N, which may begin among the first.
#[inline(always)]
fn put_ends<const N: usize>(cells: &mut [u8], at: usize, bytes: &[u8]) -> usize
    requires enough { N ≤ length bytes.now }
    requires short { length bytes.now ≤ N + N }
    requires room { at + length bytes.now ≤ length cells.old }
    ensures items { take result cells.new ≡ take at cells.old ++ bytes.now }
    ensures end { result ≡ at + length bytes.now }
{
    let left = bytes.len() - N;
    put_bytes(cells, at, &bytes[..N]);
    put_bytes(cells, at + left, &bytes[left..])
}

/// At most three bytes more.
#[inline(always)]
fn put_few(cells: &mut [u8], at: usize, bytes: &[u8]) -> usize
    requires few { length bytes.now < 4 }
    requires room { at + length bytes.now ≤ length cells.old }
    ensures items { take result cells.new ≡ take at cells.old ++ bytes.now }
    ensures end { result ≡ at + length bytes.now }
{
    match bytes {
        [] => at,
        [a] => put(cells, at, *a),
        [a, b] => put_two(cells, at, *a, *b),
        [a, b, c] => {
            let at = put_two(cells, at, *a, *b);
            put(cells, at, *c)
        }
        _ => unreachable!(),
    }
}

/// Appends the cells up to there.
pub(crate) fn push_cells(text: &mut Vec<u8>, cells: &[u8], at: usize) -> Result<(), AllocError>
    requires { at ≤ length cells.now }
    ensures { Appends result text.old.items text.new.items (take at cells.now) }
{
    text.extend_from_slice(&cells[..at])
}

/// So many cells behind a text, and where they begin.
#[inline(always)]
pub(crate) fn make_cells(text: &mut Vec<u8>, count: usize) -> Result<usize, AllocError>
    requires { count ≤ 1024 }
    ensures text { OnOk result (take (length text.old.items) text.new.items ≡ text.old.items) }
    ensures count { OnOk result (length text.new.items ≡ length text.old.items + count) }
    ensures start { IfOk result (λ at. at ≡ length text.old.items) }
    ensures err { OnErr result (text.new.items ≡ text.old.items) }
{
    let at = text.len();
    text.resize(at + count, 0)?;
    Ok(at)
}
