//! The names of a script, each with its place.
ghost use Rattle.std.specs.Prelude.{◌≡◌, ℕ, ◌+◌, ◌<◌, ◌≤◌, true, length, replicate, IfOk, OnOk, slice_index_or, slice_set};
ghost use Rattle.std.specs.List.{list_any};
ghost use Rattle.std.specs.List.Sorted.{IsStrictlySortedBy};
ghost use Rattle.std.specs.Ordering.{nat_cmp};
ghost use Rattle.std.specs.Cmp.Lexicographic.{slice_cmp};
ghost use Rattle.yard_model.specs.Script.{is_name, setting};
ghost use Rattle.yard_model.specs.Setting.{names_of};
ghost use Rattle.shard_store.specs.Shelved.{name_at};
ghost use Rattle.shard_entities.specs.Placed.{IsPlace, AreFirst, AreCounts, AreStarts, AreOrdered, start_of};

use crate::place::Place;
use name_index::NameIndex;
use shard_extract::shard_of;
use std::alloc::{AllocError, Global};
use std::marker::{Model, PhantomData};
use std::snapshot::Snapshot;
use std::sync::Arc;
use yard_model::{Charter, EntityName, ShardNo};

/// Where a name stands, but for what its own place among all names says.
#[derive(Clone, Copy)]
pub(crate) struct Spot {
    /// Its shard.
    pub shard: ShardNo,
    /// Its place among the names of its shard, from 0.
    pub inner: u16,
}

/// The names of a script, in order, each with its place; seen as the script. What it keeps is shared by
/// all that `share` gives.
#[derive(Drop)]
pub struct Places {
    kept: Arc<Kept, Global>,
    holds: PhantomData<(ShardNo, Place)>,
}

/// What all of them share. The places of the names lie shard after shard in one list, of which it is
/// kept where each shard's part begins.
#[derive(Drop)]
struct Kept {
    script: Snapshot<Charter>,
    names: NameIndex,
    spots: Vec<Spot>,
    starts: Vec<u32>,
    order: Vec<u16>,
}

impl Model for Places {
    ghost use Rattle.std.specs.Arc.{arc_value};
    ghost use Rattle.yard_model.specs.Script.{Script};
    ghost use Rattle.shard_entities.specs.Placed.{AreKept};

    ghost Value = { Script };

    ghost view = { λ p. (arc_value p.kept).script.value };

    ghost invariant = { λ p. AreKept (arc_value p.kept) };
}

impl Places {
    /// The places of the names of this script. The only error is want of memory.
    pub fn new(alloc: Global, charter: &Charter) -> Result<Places, AllocError>
        ensures { IfOk result (λ p. p ≡ charter.now) }
    {
        let mut counts = [0u16; 128];
        let spots = all_spots(alloc, charter, &mut counts)?;
        let starts = all_starts(alloc, charter, &counts)?;
        let order = all_ordered(alloc, charter, spots.as_slice(), &starts)?;
        let names = NameIndex::new(charter)?;
        charter.config();
        let kept = Kept {
            script: Snapshot::of(charter),
            names,
            spots,
            starts,
            order,
        };
        match Arc::new(alloc, kept) {
            Ok(kept) => Ok(Places {
                kept,
                holds: PhantomData,
            }),
            Err(_) => Err(AllocError),
        }
    }

    /// The same places, of which no copy is made. The only error is that there are too many to count
    /// that share them.
    pub fn share(&self) -> Result<Places, AllocError>
        ensures { IfOk result (λ p. p ≡ self.now) }
    {
        let kept = Arc::try_clone(&self.kept)?;
        Ok(Places {
            kept,
            holds: PhantomData,
        })
    }

    /// The place of a name.
    pub(crate) fn find(&self, entity: &EntityName) -> Place
        requires name { list_any (is_name entity.now) (setting self.now).names ≡ true }
        ensures place { IsPlace self.now result }
        ensures entity { result.entity ≡ entity.now }
    {
        let kept = &*self.kept;
        let at = kept.names.place(entity);
        let spot = kept.spots[at];
        Place {
            entity: *entity,
            shard: spot.shard,
            at,
            inner: spot.inner as usize,
        }
    }

    /// The place of the name that stands there among all.
    pub(crate) fn place_at(&self, at: usize) -> Place
        requires within { at < length (setting self.now).names }
        ensures place { IsPlace self.now result }
        ensures entity { result.entity ≡ name_at (setting self.now).names at }
    {
        let kept = &*self.kept;
        let spot = kept.spots[at];
        Place {
            entity: kept.names.as_slice()[at],
            shard: spot.shard,
            at,
            inner: spot.inner as usize,
        }
    }

    /// How many names a shard has.
    pub(crate) fn count(&self, s: ShardNo) -> usize
        requires { s < self.now.config.shards }
        ensures count { result ≡ length (names_of (setting self.now) s) }
        ensures few { result ≤ 1000 }
    {
        let kept = &*self.kept;
        end_in(&kept.starts, s) - start_in(&kept.starts, s)
    }

    /// The place of the name of a shard that stands there among its names.
    pub(crate) fn nth(&self, s: ShardNo, k: usize) -> Place
        requires shard { s < self.now.config.shards }
        requires within { k < length (names_of (setting self.now) s) }
        ensures place { IsPlace self.now result }
        ensures shard { result.shard ≡ s }
        ensures entity { result.entity ≡ name_at (names_of (setting self.now) s) k }
    {
        let kept = &*self.kept;
        let at = kept.order[start_in(&kept.starts, s) + k] as usize;
        Place {
            entity: kept.names.as_slice()[at],
            shard: s,
            at,
            inner: k,
        }
    }

    /// Where the names of a shard begin, shard after shard.
    #[inline(always)]
    pub(crate) fn start(&self, s: ShardNo) -> usize
        requires { s < self.now.config.shards }
        ensures start { result ≡ start_of (setting self.now) s }
        ensures few { result < 4294967296 }
    {
        let kept = &*self.kept;
        start_in(&kept.starts, s)
    }

    /// Where a name stands among all, shard after shard.
    #[inline(always)]
    pub(crate) fn spot(&self, place: &Place) -> usize
        requires { IsPlace self.now place.now }
        ensures { result ≡ start_of (setting self.now) place.now.shard + place.now.inner }
    {
        let kept = &*self.kept;
        start_in(&kept.starts, place.shard) + place.inner
    }

    /// How many names there are in all shards.
    pub(crate) fn total(&self) -> usize
        ensures { result ≡ start_of (setting self.now) self.now.config.shards }
    {
        let kept = &*self.kept;
        kept.order.len()
    }
}

/// Where each name of a script stands; and of each shard, how many names it has.
fn all_spots(
    alloc: Global,
    charter: &Charter,
    counts: &mut [u16; 128],
) -> Result<Vec<Spot>, AllocError>
    requires none { counts.old ≡ replicate 128 0 }
    ensures spots { IfOk result (λ v. AreFirst charter.now (length (setting charter.now).names) v.items) }
    ensures counts { OnOk result (AreCounts charter.now (length (setting charter.now).names) counts.new) }
{
    let shards = charter.config().shards;
    let names = charter.names();
    let mut spots = Vec::with_capacity(alloc, names.len())?;
    for at in 0..names.len() {
        let shard = shard_of(&names[at], shards);
        let inner = counts[shard.get() as usize];
        spots.push(Spot { shard, inner })?;
        counts[shard.get() as usize] = inner + 1;
    }
    Ok(spots)
}

/// Where the names of each shard begin, shard after shard, and where those of the last one end.
fn all_starts(alloc: Global, charter: &Charter, counts: &[u16; 128]) -> Result<Vec<u32>, AllocError>
    requires { AreCounts charter.now (length (setting charter.now).names) counts.now }
    ensures { IfOk result (λ v. AreStarts (setting charter.now) (charter.now.config.shards + 1) v.items) }
{
    let shards = charter.config().shards;
    let mut starts = Vec::with_capacity(alloc, shards as usize + 1)?;
    let mut start = 0;
    for s in 0..shards {
        starts.push(start)?;
        start += u32::from(counts[s as usize]);
    }
    starts.push(start)?;
    Ok(starts)
}

/// The place of each name among all, shard after shard.
fn all_ordered(
    alloc: Global,
    charter: &Charter,
    spots: &[Spot],
    starts: &Vec<u32>,
) -> Result<Vec<u16>, AllocError>
    requires spots { AreFirst charter.now (length (setting charter.now).names) spots.now }
    requires starts { AreStarts (setting charter.now) (charter.now.config.shards + 1) starts.now.items }
    ensures { IfOk result (λ v. AreOrdered charter.now (length (setting charter.now).names) v.items) }
{
    let shards = charter.config().shards;
    let mut order = vec![in alloc; 0u16; starts[shards as usize] as usize]?;
    for at in 0..spots.len() {
        let spot = spots[at];
        put(&mut order, start_in(starts, spot.shard), spot.inner, at);
    }
    Ok(order)
}

/// The place of a name is this.
fn put(order: &mut Vec<u16>, start: usize, inner: u16, at: usize)
    requires within { start + inner < length order.old.items }
    requires few { at < 65536 }
    ensures { order.new.items ≡ slice_set order.old.items (start + inner) at }
{
    order[start + inner as usize] = at as u16;
}

/// Where a shard begins.
#[inline(always)]
fn start_in(starts: &Vec<u32>, s: ShardNo) -> usize
    requires { s < length starts.now.items }
    ensures start { result ≡ slice_index_or starts.now.items s 0 }
    ensures few { result < 4294967296 }
{
    starts[s.get() as usize] as usize
}

/// Where a shard ends.
#[inline(always)]
fn end_in(starts: &Vec<u32>, s: ShardNo) -> usize
    requires { s + 1 < length starts.now.items }
    ensures { result ≡ slice_index_or starts.now.items (s + 1) 0 }
{
    starts[s.get() as usize + 1] as usize
}

/// The shard of this number.
pub(crate) fn shard_at(place: u8) -> ShardNo
    requires { place < 128 }
    ensures { result ≡ place }
{
    match ShardNo::new(place, 128) {
        Some(s) => s,
        None => unreachable!(),
    }
}
