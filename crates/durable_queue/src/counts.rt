//! A number for each name, at the name's place.
ghost use Rattle.std.specs.Prelude.{◌≡◌, ◌<◌, length, replicate, slice_index_or, slice_set, IfOk};
ghost use Rattle.durable_queue.specs.Kept.{counted};

use crate::names::Names;
use std::alloc::{AllocError, Global};
use yard_model::EntityName;

/// Two numbers for each name: how many commands are queued, and the last confirmed number.
#[derive(Drop)]
pub(crate) struct Counts {
    pub(crate) queued: Vec<u32>,
    pub(crate) confirmed: Vec<u32>,
}

/// 0 twice for each of so many names. The only error is want of memory.
pub(crate) fn no_counts(alloc: Global, count: usize) -> Result<Counts, AllocError>
    ensures queued { IfOk result (λ c. c.queued.items ≡ replicate count 0) }
    ensures confirmed { IfOk result (λ c. c.confirmed.items ≡ replicate count 0) }
{
    let queued = zeros_of(alloc, count)?;
    let confirmed = zeros_of(alloc, count)?;
    Ok(Counts { queued, confirmed })
}

/// The same numbers of each name. The only error is want of memory.
pub(crate) fn same_counts(
    alloc: Global,
    queued: &[u32],
    confirmed: &[u32],
) -> Result<Counts, AllocError>
    ensures queued { IfOk result (λ c. c.queued.items ≡ queued.now) }
    ensures confirmed { IfOk result (λ c. c.confirmed.items ≡ confirmed.now) }
{
    let queued = copy_of(alloc, queued)?;
    let confirmed = copy_of(alloc, confirmed)?;
    Ok(Counts { queued, confirmed })
}

/// 0 for each of so many names. The only error is want of memory.
pub(crate) fn zeros_of(alloc: Global, count: usize) -> Result<Vec<u32>, AllocError>
    ensures { IfOk result (λ counts. counts.items ≡ replicate count 0) }
{
    vec![in alloc; 0u32; count]
}

/// The same numbers. The only error is want of memory.
fn copy_of(alloc: Global, counts: &[u32]) -> Result<Vec<u32>, AllocError>
    ensures { IfOk result (λ same. same.items ≡ counts.now) }
{
    let mut same = Vec::with_capacity(alloc, counts.len())?;
    same.extend_from_slice(counts)?;
    Ok(same)
}

/// The number of a name; 0 of one that has no place.
pub(crate) fn count_of(names: &Names, counts: &[u32], entity: &EntityName) -> u32
    requires { length counts.now ≡ length names.now }
    ensures { result ≡ counted names.now counts.now entity.now }
{
    match names.find(entity) {
        Some(place) => count_at(counts, place),
        None => 0,
    }
}

/// The number at a place.
pub(crate) fn count_at(counts: &[u32], place: usize) -> u32
    requires { place < length counts.now }
    ensures { result ≡ slice_index_or counts.now place 0 }
{
    counts[place]
}

/// Another number at a place.
pub(crate) fn put_at(counts: &mut Vec<u32>, place: usize, number: u32)
    requires { place < length counts.old.items }
    ensures { counts.new.items ≡ slice_set counts.old.items place number }
{
    counts[place] = number;
}
