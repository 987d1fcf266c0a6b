//! Records, messages, and the packets that nodes post to one another.
use crate::event::{Command, Reply};
use crate::events::Events;
use crate::incarnation::{Incarnation, Stamp};
use crate::members::Members;
use crate::name::EntityName;
use crate::number::{ProducerNo, ShardNo};

/// One handled command in an entity's journal (Akka 2.6, Event Sourcing). That it carries the
/// producer's number is this project's own: a repeat after recovery is recognised by it.
#[derive(Clone, Copy, Debug, PartialEq, Eq)]
pub struct Record {
    /// Its place in the journal, from 1.
    pub number: u32,
    /// The epoch of the shard's lease under which it was written.
    pub epoch: u32,
    /// Who sent the command.
    pub producer: ProducerNo,
    /// The command's number among those of this producer to this entity, from 1.
    pub place: u32,
    /// The command.
    pub command: Command,
    /// What it led to; no events where it was refused or only asked.
    pub events: Events,
    /// What it was answered.
    pub reply: Reply,
}

/// A command on its way to an entity (Akka 2.6, Reliable Delivery).
#[derive(Clone, Copy, Debug, PartialEq, Eq)]
pub struct Message {
    /// Who sends it.
    pub producer: ProducerNo,
    /// To whom.
    pub entity: EntityName,
    /// Its number among those of this producer to this entity, from 1.
    pub number: u32,
    /// The command.
    pub command: Command,
    /// The node that holds the producer's queue, to which acknowledgements go.
    pub origin: Incarnation,
}

/// What a packet says. The names are Akka's where Akka has one; the fields and the rules are this
/// project's own.
#[derive(Clone, Copy, Debug, PartialEq, Eq)]
pub enum Body {
    /// The members of the cluster, oldest first, and how new they are.
    View {
        /// How often nodes have come up or gone so far.
        version: u32,
        /// The members.
        members: Members,
    },
    /// A region asks to be registered.
    Register,
    /// It is registered.
    RegisterAck,
    /// Where is this shard?
    GetShardHome(ShardNo),
    /// The shard's home.
    ShardHome(ShardNo, Incarnation, Stamp),
    /// The addressee is the shard's home.
    HostShard(ShardNo, Stamp),
    /// The shard is hosted.
    ShardStarted(ShardNo),
    /// The shard will move: forget its home and keep its messages.
    BeginHandOff(ShardNo, Stamp),
    /// Its messages are kept from now on.
    BeginHandOffAck(ShardNo, Stamp),
    /// Stop the shard's entities and free it.
    HandOff(ShardNo, Stamp),
    /// The shard is stopped and free.
    ShardStopped(ShardNo, Stamp),
    /// The region leaves and wants its shards moved away.
    GracefulShutdownReq,
    /// To an entity of the node itself: stop.
    StopEntity(EntityName),
    /// From the journal: the entity's state is read.
    Recovered(EntityName),
    /// From an entity: it wants to be stopped.
    Passivate(EntityName),
    /// A numbered command.
    Sequenced(Message),
    /// What is recorded, and up to which number more may come.
    Request {
        /// The producer.
        producer: ProducerNo,
        /// The entity.
        entity: EntityName,
        /// All numbers up to this one are recorded.
        confirmed: u32,
        /// Numbers up to this one may be sent.
        up_to: u32,
    },
    /// Send again from this number on.
    Resend {
        /// The producer.
        producer: ProducerNo,
        /// The entity.
        entity: EntityName,
        /// The first number that is missing.
        from: u32,
    },
    /// What is recorded.
    Ack {
        /// The producer.
        producer: ProducerNo,
        /// The entity.
        entity: EntityName,
        /// All numbers up to this one are recorded.
        confirmed: u32,
    },
}

/// What one incarnation posts to one incarnation.
#[derive(Clone, Copy, Debug, PartialEq, Eq)]
pub struct Packet {
    /// Who posted it.
    pub from: Incarnation,
    /// To whom it goes; where that one is gone, it is lost.
    pub to: Incarnation,
    /// What it says.
    pub body: Body,
}
