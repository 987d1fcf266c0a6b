//! The store of any slot.
ghost use Rattle.std.specs.Prelude.{◌≡◌, ◌+◌, ◌-◌, ◌<◌, ◌≤◌, [], ◌∷◌, ◌++◌, length, true, false, OnOk, IsTrue};
ghost use Rattle.yard_model.specs.declared.fact.Fact.TheVariants as fact;
ghost use Rattle.yard_model.specs.Genuine.{is_node};
ghost use Rattle.yard_model.specs.Lawful.{own, is_held};
ghost use Rattle.yard_model.specs.SlotReads.{epoch};
ghost use Rattle.shard_store.specs.Stores.{script_of, slot_of, entries_of, spare_of, script_of_ref, slot_of_ref, entries_of_ref};

use crate::shelf::ShardStore;
use coordinator_state::CoordStore;
use durable_queue::QueueStore;
use std::alloc::AllocError;
use yard_model::{Cause, Incarnation};

/// The store of one slot.
#[derive(Drop)]
pub enum Store {
    /// Of a shard.
    Shard(ShardStore),
    /// Of the coordinator.
    Coordinator(CoordStore),
    /// Of a producer's queue.
    Queue(QueueStore),
}

/// A store that is lent.
#[derive(Clone, Copy)]
pub enum StoreRef<'a> {
    /// Of a shard.
    Shard(&'a ShardStore),
    /// Of the coordinator.
    Coordinator(&'a CoordStore),
    /// Of a producer's queue.
    Queue(&'a QueueStore),
}

impl Store {
    /// Makes the spare at least `n`. The only error is want of memory; the list stays, though the
    /// spare may have grown.
    pub fn reserve(&mut self, n: u32) -> Result<(), AllocError>
        ensures script { script_of self.new ≡ script_of self.old }
        ensures slot { slot_of self.new ≡ slot_of self.old }
        ensures entries { entries_of self.new ≡ entries_of self.old }
        ensures spare { spare_of self.old ≤ spare_of self.new }
        ensures ok { OnOk result (n ≤ spare_of self.new) }
    {
        match self {
            Store::Shard(store) => store.reserve(n),
            Store::Coordinator(store) => store.reserve(n),
            Store::Queue(store) => store.reserve(n),
        }
    }

    /// The lease of the next epoch goes to `who`, of a node of the charter; the epoch.
    pub fn grant(&mut self, who: Incarnation) -> u32
        requires spare { 0 < spare_of self.old }
        requires free { is_held (entries_of self.old) ≡ false }
        requires node { IsTrue (is_node (script_of self.old) who) }
        ensures epoch { result ≡ epoch (entries_of self.old) + 1 }
        ensures script { script_of self.new ≡ script_of self.old }
        ensures slot { slot_of self.new ≡ slot_of self.old }
        ensures entries { entries_of self.new ≡ entries_of self.old ++ fact.Granted (slot_of self.old) result who ∷ [] }
        ensures spare { spare_of self.new ≡ spare_of self.old - 1 }
    {
        match self {
            Store::Shard(store) => store.grant(who),
            Store::Coordinator(store) => store.grant(who),
            Store::Queue(store) => store.grant(who),
        }
    }

    /// The lease is free.
    pub fn free(&mut self, cause: Cause)
        requires spare { 0 < spare_of self.old }
        requires leased { is_held (entries_of self.old) ≡ true }
        ensures script { script_of self.new ≡ script_of self.old }
        ensures slot { slot_of self.new ≡ slot_of self.old }
        ensures entries { entries_of self.new ≡ entries_of self.old ++ fact.Freed (slot_of self.old) (epoch (entries_of self.old)) cause ∷ [] }
        ensures spare { spare_of self.new ≡ spare_of self.old - 1 }
    {
        match self {
            Store::Shard(store) => store.free(cause),
            Store::Coordinator(store) => store.free(cause),
            Store::Queue(store) => store.free(cause),
        }
    }

    /// The epoch of the last grant; before the first 0, or that above which the grants go on. Its list
    /// is lawful by itself.
    pub fn epoch(&self) -> u32
        ensures epoch { result ≡ epoch (entries_of self.now) }
        ensures own { IsTrue (own (script_of self.now) (slot_of self.now) (entries_of self.now)) }
    {
        match self {
            Store::Shard(store) => {
                store.entries();
                store.epoch()
            }
            Store::Coordinator(store) => {
                store.entries();
                store.epoch()
            }
            Store::Queue(store) => {
                store.entries();
                store.epoch()
            }
        }
    }

    /// Whether the last grant stands. Its list is lawful by itself.
    pub fn is_leased(&self) -> bool
        ensures leased { result ≡ is_held (entries_of self.now) }
        ensures own { IsTrue (own (script_of self.now) (slot_of self.now) (entries_of self.now)) }
    {
        match self {
            Store::Shard(store) => {
                store.entries();
                store.is_leased()
            }
            Store::Coordinator(store) => {
                store.entries();
                store.is_leased()
            }
            Store::Queue(store) => {
                store.entries();
                store.is_leased()
            }
        }
    }

    /// How many entries there are.
    pub fn len(&self) -> u32
        ensures { result ≡ length (entries_of self.now) }
    {
        self.as_ref().len()
    }

    /// How many entries more take no memory.
    pub fn spare(&self) -> u32
        ensures { result ≡ spare_of self.now }
    {
        match self {
            Store::Shard(store) => store.spare(),
            Store::Coordinator(store) => store.spare(),
            Store::Queue(store) => store.spare(),
        }
    }

    /// The store, lent.
    pub fn as_ref(&self) -> StoreRef<'_>
        ensures script { script_of_ref result ≡ script_of self.now }
        ensures slot { slot_of_ref result ≡ slot_of self.now }
        ensures entries { entries_of_ref result ≡ entries_of self.now }
    {
        match self {
            Store::Shard(store) => StoreRef::Shard(store),
            Store::Coordinator(store) => StoreRef::Coordinator(store),
            Store::Queue(store) => StoreRef::Queue(store),
        }
    }
}

impl StoreRef<'_> {
    /// How many entries there are.
    pub fn len(&self) -> u32
        ensures { result ≡ length (entries_of_ref self.now) }
    {
        match self {
            StoreRef::Shard(store) => store.len(),
            StoreRef::Coordinator(store) => store.len(),
            StoreRef::Queue(store) => store.len(),
        }
    }
}
