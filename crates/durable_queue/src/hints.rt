//! Where the name of each send may stand. Nothing is said of hints: what stands there is compared.
ghost use Rattle.std.specs.Prelude.{◌≡◌, length, IfOk};

use crate::counts::zeros_of;
use crate::names::Names;
use std::alloc::{AllocError, Global};
use yard_model::{EntityName, Sending};

/// The hints of these sends: those that are given, where there is one for each, else the places of their
/// names. The only error is want of memory.
pub(crate) fn hints_of(
    alloc: Global,
    names: &Names,
    sends: &[Sending],
    given: &[u16],
) -> Result<Vec<u16>, AllocError> {
    let mut hints = Vec::with_capacity(alloc, sends.len())?;
    if given.len() == sends.len() {
        hints.extend_from_slice(given)?;
    } else {
        find_rest(&mut hints, names, sends, 0)?;
    }
    Ok(hints)
}

/// The places of the names of the sends behind so many of these. The only error is want of memory.
pub(crate) fn find_rest(
    hints: &mut Vec<u16>,
    names: &Names,
    sends: &[Sending],
    done: usize,
) -> Result<(), AllocError> {
    for at in done..sends.len() {
        hints.push(hint_of(names, &sends[at].entity))?;
    }
    Ok(())
}

/// The place of a name; 0 where it has none, or 16 bits don't hold it.
fn hint_of(names: &Names, entity: &EntityName) -> u16 {
    match names.find(entity) {
        Some(place) => u16::try_from(place).unwrap_or(0),
        None => 0,
    }
}

/// The hint at a place; 0 where there is none.
pub(crate) fn hint_at(hints: &[u16], place: usize) -> usize {
    match hints.get(place) {
        Some(hint) => *hint as usize,
        None => 0,
    }
}

/// Of each of so many places how many have it as their hint. The only error is want of memory.
pub(crate) fn rooms_of(alloc: Global, count: usize, hints: &[u16]) -> Result<Vec<u32>, AllocError>
    ensures { IfOk result (λ rooms. length rooms.items ≡ count) }
{
    let mut rooms = zeros_of(alloc, count)?;
    for hint in hints {
        count_at_hint(&mut rooms, *hint as usize);
    }
    Ok(rooms)
}

/// One more at a place, if there is such a place.
fn count_at_hint(rooms: &mut Vec<u32>, place: usize)
    ensures { length rooms.new.items ≡ length rooms.old.items }
{
    if place < rooms.len() {
        rooms[place] = rooms[place].wrapping_add(1);
    }
}
