//! What a node is given, and the phases of its entities.
use crate::incarnation::Keep;
use crate::name::EntityName;
use crate::number::ProducerNo;
use crate::packet::Packet;

/// One input of a node. Each is handled whole before the next.
#[derive(Clone, Copy, Debug, PartialEq, Eq)]
pub enum Input {
    /// A packet that is addressed to it.
    Packet(Packet),
    /// The timer.
    Tick,
    /// It is to leave the cluster.
    Leave,
    /// Where it is the coordinator: move up to so many shards.
    Rebalance(u8),
    /// Take this producer's queue.
    Produce(ProducerNo),
    /// Give this producer's queue back.
    Rest(ProducerNo),
    /// Queue the next command of this producer.
    Send(ProducerNo),
    /// This entity wants to be stopped.
    Passivate(EntityName),
    /// The next write of this entity is to fail.
    FailWrite(EntityName, Keep),
}

/// Where an entity stands between its start and its end.
#[derive(Clone, Copy, Debug, PartialEq, Eq)]
pub enum Phase {
    /// It isn't live.
    Absent,
    /// Its journal is being read.
    Loading,
    /// It takes commands.
    Active,
    /// It has been told to stop.
    Stopping,
}
