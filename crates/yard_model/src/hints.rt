//! Hints by a hash of a name's bytes: where the name may stand. Nothing is said of them; who takes one looks
//! whether the name stands there.
ghost use Rattle.std.specs.Prelude.{◌+◌, ◌<◌, ◌≤◌, ◌^◌};

use std::alloc::{AllocError, Global};

/// In how many cells one behind the other a name's hint may stand.
pub(crate) const NEAR: usize = 4;

/// No hints, with room for so many names: a power of two of cells, from four to sixty-four times as many up
/// to 1,000 names. The only error is want of memory.
pub(crate) fn new_hints(alloc: Global, names: usize) -> Result<Vec<u16>, AllocError> {
    let cells = if names <= 8 {
        64
    } else if names <= 32 {
        256
    } else if names <= 256 {
        1024
    } else {
        4096
    };
    vec![in alloc; 0u16; cells]
}

/// The hint in a cell, counted round: a place and 1, or 0 where there is none. The number of cells is a
/// power of two.
pub(crate) fn hint_in(hints: &[u16], at: usize) -> usize {
    match hints.get(at & hints.len().wrapping_sub(1)) {
        Some(hint) => *hint as usize,
        None => 0,
    }
}

/// The hint at a place goes into the first free cell from here on, where one of a few is, and where 16 bits
/// hold it.
pub(crate) fn set_hint(hints: &mut Vec<u16>, from: usize, place: usize)
    requires from { from < 4294967296 }
    requires place { place + 1 < 2 ^ 64 }
{
    if let Ok(hint) = u16::try_from(place + 1) {
        put_hint(hints, from, hint);
    }
}

fn put_hint(hints: &mut Vec<u16>, from: usize, hint: u16)
    requires { from < 4294967296 }
{
    let mask = hints.len().wrapping_sub(1);
    for step in 0..NEAR {
        if let Some(cell) = hints.get_mut(from + step & mask) {
            if *cell == 0 {
                *cell = hint;
                return;
            }
        }
    }
}

/// A number for the 32 bytes of a name, padded with zeros: each of its four words takes a part in it, so no
/// step hangs on how long the name is. The factors are odd numbers of 64 bits.
#[inline(always)]
pub(crate) fn hash_of(cells: &[u8; 32]) -> usize
    ensures { result < 4294967296 }
{
    let front = word_at(cells, 0)
        .wrapping_mul(0x9e37_79b9_7f4a_7c15)
        .wrapping_add(word_at(cells, 8).wrapping_mul(0xc2b2_ae3d_27d4_eb4f));
    let back = word_at(cells, 16)
        .wrapping_mul(0xd6e8_feb8_6659_fd93)
        .wrapping_add(word_at(cells, 24).wrapping_mul(0xa076_1d64_78bd_642f));
    folded(front.wrapping_add(back))
}

/// Its higher half, the highest bits of which are put over the lowest: a product's highest bits hang on all
/// of its factors' bits, and the table takes the lowest.
fn folded(hash: u64) -> usize
    ensures { result < 4294967296 }
{
    let number = (hash >> 32) as u32 ^ (hash >> 52) as u32;
    number as usize
}

/// The number that eight bytes from a place on spell.
fn word_at(cells: &[u8; 32], at: usize) -> u64
    requires { at + 8 ≤ 32 }
{
    u64::from_le_bytes([
        cells[at],
        cells[at + 1],
        cells[at + 2],
        cells[at + 3],
        cells[at + 4],
        cells[at + 5],
        cells[at + 6],
        cells[at + 7],
    ])
}
