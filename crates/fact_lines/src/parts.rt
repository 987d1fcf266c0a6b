//! What some parts of a line hold.
use yard_model::{Command, EntityName, Events, ProducerNo, Reply};

/// A number, and one more where there is one.
#[derive(Clone, Copy)]
pub(crate) struct Counted {
    pub(crate) first: u32,
    pub(crate) second: Option<u16>,
}

/// A producer, an entity, and a number of what one sends to the other.
#[derive(Clone, Copy)]
pub(crate) struct Pair {
    pub(crate) producer: ProducerNo,
    pub(crate) entity: EntityName,
    pub(crate) number: u32,
}

/// The numbers of a record.
#[derive(Clone, Copy)]
pub(crate) struct Numbers {
    pub(crate) number: u32,
    pub(crate) epoch: u32,
    pub(crate) producer: ProducerNo,
    pub(crate) place: u32,
}

/// What a record says besides its numbers.
#[derive(Clone, Copy)]
pub(crate) struct Outcome {
    pub(crate) command: Command,
    pub(crate) events: Events,
    pub(crate) reply: Reply,
}
