//! What happens in the cluster, as the trace tells it.
use crate::event::Command;
use crate::incarnation::{Cause, Incarnation, Keep, Slot, Stamp};
use crate::name::EntityName;
use crate::number::{NodeNo, ProducerNo, ShardNo};
use crate::packet::{Message, Packet, Record};
use crate::state::State;

/// One thing that happened. A trace is a list of facts; every state of the cluster is read off it.
///
/// Where a fact names an incarnation first, that one acts. A kept, dropped or stashed message
/// stands here whole, though only its producer, entity and number are printed.
#[derive(Clone, Copy, Debug, PartialEq, Eq)]
pub enum Fact {
    /// The order of this line begins.
    At(u32),
    /// The order has nothing to do.
    Nothing,
    /// The packet limit is reached: the trace stops.
    WireFull,
    /// The settle has ended.
    Settled,
    /// A node is up.
    Up(Incarnation),
    /// A node has stopped.
    Gone(Incarnation),
    /// A node took the view of this version.
    View(Incarnation, u32),
    /// The packet of this number, from 1, is posted.
    Sent(u32, Packet),
    /// The packet of this number is delivered.
    Got(u32),
    /// A lease is granted, with its epoch.
    Granted(Slot, u32, Incarnation),
    /// The lease of this epoch is free.
    Freed(Slot, u32, Cause),
    /// A lease was asked for in vain: that node holds it.
    Held(Slot, Incarnation, NodeNo),
    /// The coordinator registers a region.
    Registered(Incarnation),
    /// The coordinator has lost a region, and with it the homes there.
    Terminated(Incarnation),
    /// A shard has got a home.
    Allocated(ShardNo, Incarnation),
    /// A shard has no home any more.
    Deallocated(ShardNo),
    /// A shard begins to move, in the round of this stamp.
    Moving(ShardNo, Stamp),
    /// A region has learned a shard's home.
    Home(Incarnation, ShardNo, Incarnation),
    /// A region has dropped a shard's home.
    Forget(Incarnation, ShardNo),
    /// A region keeps a message until its shard has a home.
    Kept(Incarnation, Message),
    /// A message is lost, for want of room or with its entity's shard.
    Dropped(Incarnation, Message),
    /// An entity keeps a message until it is active.
    Stashed(Incarnation, Message),
    /// An entity is started.
    Start(Incarnation, EntityName),
    /// An entity has recovered.
    Active {
        /// The node it is live at.
        who: Incarnation,
        /// The entity.
        entity: EntityName,
        /// How many records its journal has.
        records: u32,
        /// The state that they lead to.
        state: State,
    },
    /// An entity is stopped.
    Stop(Incarnation, EntityName),
    /// An entity is stopped by a failed write.
    WriteFailed(Incarnation, EntityName),
    /// The entity's next write will fail.
    Armed(EntityName, Keep),
    /// A record is written.
    Wrote(EntityName, Record),
    /// A snapshot is taken after so many records.
    Snapshot(EntityName, u32),
    /// The entity is remembered: it starts with its shard.
    Remembered(EntityName),
    /// It is so no longer.
    Forgotten(EntityName),
    /// A command waits, since no node holds its producer's queue.
    Waits(ProducerNo, EntityName, Command),
    /// A command is stored in its producer's queue, with its number.
    Queued(ProducerNo, EntityName, u32, Command),
    /// The producer knows that all numbers up to this one are recorded.
    Confirmed(ProducerNo, EntityName, u32),
    /// There are so many shards from here on; with the greatest epoch of any shard's lease so far.
    Reshard(u8, u32),
    /// The same, as the entry of this shard's list, which begins anew with it. No order tells it.
    Resharded(ShardNo, u8, u32),
    /// The behaviours are of this version from here on.
    Upgrade(u8),
    /// A worker asks for work; the packet has this number, from 1.
    SentAsk(u32, Incarnation),
    /// A job is posted to a worker.
    SentJob(u32, Incarnation, EntityName),
    /// A worker posts that it has done a job.
    SentDone(u32, Incarnation, EntityName),
    /// A job is given to a worker.
    Given(EntityName, Incarnation),
    /// A worker has done a job.
    Did(Incarnation, EntityName),
}
