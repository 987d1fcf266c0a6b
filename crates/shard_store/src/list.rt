//! The list of a shard's slot, with the lease that it tells of.
ghost use Rattle.std.specs.Prelude.{◌≡◌, ◌+◌, ◌-◌, ◌<◌, ◌≤◌, ◌^◌, [], ◌∷◌, ◌++◌, length, map, true, false, IfOk, OnOk, OnErr, max, vec_len, vec_capacity};
ghost use Rattle.yard_model.specs.declared.fact.Fact.TheVariants as fact;
ghost use Rattle.yard_model.specs.declared.incarnation.Slot.TheVariants as slot;
ghost use Rattle.yard_model.specs.Entry.{shard_fact};
ghost use Rattle.yard_model.specs.Lawful.{is_held};
ghost use Rattle.yard_model.specs.SlotReads.{epoch};
ghost use Rattle.shard_store.specs.Leased.{KeepsLease};

use std::alloc::{AllocError, Global};
use std::marker::{Model, PhantomData};
use yard_model::{Cause, Incarnation, Record, ShardEntry, ShardNo};

/// The entries of a shard's slot, oldest first, with a spare.
#[derive(Drop)]
pub(crate) struct SlotList {
    shard: ShardNo,
    entries: Vec<ShardEntry>,
    spare: u32,
    epoch: u32,
    leased: bool,
    holds: PhantomData<(Record, Incarnation, Cause)>,
}

impl Model for SlotList {
    ghost use Rattle.std.specs.Prelude.{map, vec_capacity};
    ghost use Rattle.yard_model.specs.Entry.{shard_fact};
    ghost use Rattle.shard_store.specs.Leased.{Listed, IsLease};

    ghost Value = { Listed };

    ghost view = { λ l. record { shard = l.shard; entries = map (shard_fact l.shard) l.entries.items; spare = l.spare } };

    ghost invariant = { λ l. IsLease (record { shard = l.shard; entries = map (shard_fact l.shard) l.entries.items; spare = l.spare }) l.epoch l.leased (vec_capacity l.entries) };
}

impl SlotList {
    /// No entries and no spare. It takes no memory.
    pub(crate) fn new(alloc: Global, s: ShardNo) -> SlotList
        ensures { result ≡ record { shard = s; entries = []; spare = 0 } }
    {
        SlotList {
            shard: s,
            entries: Vec::new(alloc),
            spare: 0,
            epoch: 0,
            leased: false,
            holds: PhantomData,
        }
    }

    /// The list that begins anew with these entries, which lease nothing, and the number of shards
    /// from here on; grants go on above `epoch`. There is no spare. The only error is want of memory,
    /// also where there would be more than 4,294,967,295 entries.
    pub(crate) fn begun(
        s: ShardNo,
        entries: Vec<ShardEntry>,
        shards: u8,
        epoch: u32,
    ) -> Result<SlotList, AllocError>
        requires { is_held (map (shard_fact s) entries.items) ≡ false }
        ensures { IfOk result (λ l. l ≡ record { shard = s; entries = map (shard_fact s) entries.items ++ fact.Resharded s shards epoch ∷ []; spare = 0 }) }
    {
        let mut entries = entries;
        if entries.len() >= u32::MAX as usize {
            return Err(AllocError);
        }
        entries.push(ShardEntry::Reshard { shards, epoch })?;
        Ok(SlotList {
            shard: s,
            entries,
            spare: 0,
            epoch,
            leased: false,
            holds: PhantomData,
        })
    }

    /// Makes the spare at least `n`. The only error is want of memory, also where there would be
    /// more than 4,294,967,295 entries, or could be an epoch above that, and then nothing changes.
    pub(crate) fn reserve(&mut self, n: u32) -> Result<(), AllocError>
        ensures list { self.new ≡ record self.old { spare = self.new.spare } }
        ensures ok { OnOk result (n ≤ self.new.spare) }
        ensures least { self.old.spare ≤ self.new.spare }
        ensures most { self.new.spare ≤ max self.old.spare n }
        ensures err { OnErr result (self.new ≡ self.old) }
    {
        if n <= self.spare {
            return Ok(());
        }
        let len = self.entries.len() as u32;
        if n > u32::MAX - len || n > u32::MAX - self.epoch {
            return Err(AllocError);
        }
        make_room(&mut self.entries, n as usize)?;
        self.spare = n;
        Ok(())
    }

    /// The lease of the next epoch goes to `who`; the epoch.
    pub(crate) fn grant(&mut self, who: Incarnation) -> u32
        requires spare { 0 < self.old.spare }
        requires free { is_held self.old.entries ≡ false }
        ensures epoch { result ≡ epoch self.old.entries + 1 }
        ensures entries { self.new.entries ≡ self.old.entries ++ fact.Granted (slot.Shard self.old.shard) result who ∷ [] }
        ensures spare { self.new.spare ≡ self.old.spare - 1 }
        ensures shard { self.new.shard ≡ self.old.shard }
    {
        self.epoch += 1;
        self.leased = true;
        self.spare -= 1;
        let epoch = self.epoch;
        self.entries.push_reserved(ShardEntry::Granted(epoch, who));
        epoch
    }

    /// The lease is free.
    pub(crate) fn free(&mut self, cause: Cause)
        requires spare { 0 < self.old.spare }
        requires leased { is_held self.old.entries ≡ true }
        ensures entries { self.new.entries ≡ self.old.entries ++ fact.Freed (slot.Shard self.old.shard) (epoch self.old.entries) cause ∷ [] }
        ensures spare { self.new.spare ≡ self.old.spare - 1 }
        ensures shard { self.new.shard ≡ self.old.shard }
    {
        self.leased = false;
        self.spare -= 1;
        let epoch = self.epoch;
        self.entries.push_reserved(ShardEntry::Freed(epoch, cause));
    }

    /// An entry under the lease.
    pub(crate) fn write(&mut self, entry: ShardEntry)
        requires spare { 0 < self.old.spare }
        requires keeps { KeepsLease (shard_fact self.old.shard entry) }
        ensures entries { self.new.entries ≡ self.old.entries ++ shard_fact self.old.shard entry ∷ [] }
        ensures spare { self.new.spare ≡ self.old.spare - 1 }
        ensures shard { self.new.shard ≡ self.old.shard }
    {
        self.spare -= 1;
        self.entries.push_reserved(entry);
    }

    /// How many entries there are.
    pub(crate) fn len(&self) -> u32
        ensures { result ≡ length self.now.entries }
    {
        self.entries.len() as u32
    }

    /// The epoch of the last grant, 0 before.
    pub(crate) fn epoch(&self) -> u32
        ensures { result ≡ epoch self.now.entries }
    {
        self.epoch
    }

    /// Whether the last grant stands.
    pub(crate) fn is_leased(&self) -> bool
        ensures { result ≡ is_held self.now.entries }
    {
        self.leased
    }

    /// How many entries more take no memory.
    pub(crate) fn spare(&self) -> u32
        ensures value { result ≡ self.now.spare }
        ensures fits { length self.now.entries + self.now.spare < 4294967296 }
    {
        self.spare
    }

    /// The entries, oldest first.
    pub(crate) fn entries(&self) -> &[ShardEntry]
        ensures entries { map (shard_fact self.now.shard) result.now ≡ self.now.entries }
        ensures few { length result.now < 4294967296 }
    {
        self.entries.as_slice()
    }
}

/// Room for so many entries more. Where there are few yet they move to new room: a list that grows
/// where it stands takes all of its room along, used or not, and so has memory for what isn't there.
fn make_room(entries: &mut Vec<ShardEntry>, wanted: usize) -> Result<(), AllocError>
    requires { wanted < 2 ^ 32 }
    ensures items { entries.new.items ≡ entries.old.items }
    ensures ok { OnOk result (vec_len entries.new + wanted ≤ vec_capacity entries.new) }
    ensures capacity { vec_capacity entries.old ≤ vec_capacity entries.new }
{
    if entries.len() >= wanted || entries.capacity() - entries.len() >= wanted {
        return entries.reserve(wanted);
    }
    let mut roomier = Vec::with_capacity(*entries.allocator(), entries.len() + wanted)?;
    roomier.append(entries)?;
    *entries = roomier;
    Ok(())
}
