//! The entries of a slot's list: each is the fact of its name, and the slot is the list's own.
ghost use Rattle.std.specs.Prelude.{◌≡◌, map};
ghost use Rattle.yard_model.specs.Entry.{shard_fact, coord_fact, queue_fact};
ghost use Rattle.yard_model.specs.SlotLists.{SlotLists, shard_list, queue_list};

use crate::event::Command;
use crate::incarnation::{Cause, Incarnation};
use crate::name::EntityName;
use crate::number::{ProducerNo, ShardNo};
use crate::packet::Record;

/// An entry of a shard's list.
#[derive(Clone, Copy, Debug, PartialEq, Eq)]
pub enum ShardEntry {
    /// The shard is leased, in this epoch, to this incarnation.
    Granted(u32, Incarnation),
    /// The lease of this epoch is free.
    Freed(u32, Cause),
    /// A record of an entity's journal.
    Wrote(EntityName, Record),
    /// A snapshot after so many records.
    Snapshot(EntityName, u32),
    /// The entity is remembered.
    Remembered(EntityName),
    /// It is so no longer.
    Forgotten(EntityName),
    /// The number of shards has changed: the list begins anew, with the entries of the shard's names
    /// before this one.
    Reshard {
        /// How many shards there are from here on, 1 to 128.
        shards: u8,
        /// The greatest epoch of any shard's lease so far; grants go on above it.
        epoch: u32,
    },
}

/// An entry of the coordinator's list.
#[derive(Clone, Copy, Debug, PartialEq, Eq)]
pub enum CoordEntry {
    /// The coordinator's slot is leased, in this epoch, to this incarnation.
    Granted(u32, Incarnation),
    /// The lease of this epoch is free.
    Freed(u32, Cause),
    /// A region is registered.
    Registered(Incarnation),
    /// A region is lost, and with it the homes there.
    Terminated(Incarnation),
    /// A shard has got a home.
    Allocated(ShardNo, Incarnation),
    /// A shard has no home any more.
    Deallocated(ShardNo),
    /// The number of shards has changed: no shard has a home, and the regions stay registered.
    Reshard {
        /// How many shards there are from here on, 1 to 128.
        shards: u8,
        /// The greatest epoch of any shard's lease so far.
        epoch: u32,
    },
}

/// An entry of a producer's queue.
#[derive(Clone, Copy, Debug, PartialEq, Eq)]
pub enum QueueEntry {
    /// The queue is leased, in this epoch, to this incarnation.
    Granted(u32, Incarnation),
    /// The lease of this epoch is free.
    Freed(u32, Cause),
    /// A command with its number.
    Queued(EntityName, u32, Command),
    /// All numbers to the entity up to this one are recorded.
    Confirmed(EntityName, u32),
}

/// What has the lists of all slots, oldest entry first.
pub trait Lists {
    /// The lists, as the facts that they are.
    ghost lists: { Self → SlotLists };

    /// The list of shard `s`; empty where there is no such shard.
    fn shard(&self, s: ShardNo) -> &[ShardEntry]
        ensures { map (shard_fact s) result.now ≡ shard_list (lists self.now) s };

    /// The coordinator's list.
    fn coordinator(&self) -> &[CoordEntry]
        ensures { map coord_fact result.now ≡ (lists self.now).coordinator };

    /// The list of producer `p`; empty where there is no such producer.
    fn queue(&self, p: ProducerNo) -> &[QueueEntry]
        ensures { map (queue_fact p) result.now ≡ queue_list (lists self.now) p };
}
