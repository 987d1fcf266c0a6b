//! Incarnations of nodes, stamps of coordinators, and the slots that leases guard.
use crate::number::{NodeNo, ProducerNo, ShardNo};

/// A node from one start to its end (a cluster member's unique address, in Akka 2.6 Cluster terms).
/// It prints as `node.number`.
#[derive(Clone, Copy, Debug, PartialEq, Eq, PartialOrd, Ord)]
pub struct Incarnation {
    /// The node.
    pub node: NodeNo,
    /// Which of the node's starts this is, from 1.
    pub number: u32,
}

/// How new a coordinator's word is: the epoch of its lease, then its rounds begun. It prints as
/// `epoch/round`. An older word than one already taken is ignored (a rule of this project's own).
#[derive(Clone, Copy, Debug, PartialEq, Eq, PartialOrd, Ord)]
pub struct Stamp {
    /// The epoch of the coordinator's lease.
    pub epoch: u32,
    /// How many rounds it has begun under that lease.
    pub round: u32,
}

/// What a lease guards (Akka 2.6, Coordination: a lease has a name and one holder). Each shard,
/// the coordinator and each producer's queue has one.
#[derive(Clone, Copy, Debug, PartialEq, Eq, PartialOrd, Ord)]
pub enum Slot {
    /// A shard with its entities' journals.
    Shard(ShardNo),
    /// The coordinator's allocation state.
    Coordinator,
    /// A producer's durable queue.
    Queue(ProducerNo),
}

/// Why a lease was freed.
#[derive(Clone, Copy, Debug, PartialEq, Eq)]
pub enum Cause {
    /// Its holder gave it back.
    Released,
    /// Its holder had stopped.
    Stopped,
}

/// What a write that fails leaves behind.
#[derive(Clone, Copy, Debug, PartialEq, Eq)]
pub enum Keep {
    /// The record stands, though the write was reported as failed.
    Kept,
    /// No record stands.
    Lost,
}
