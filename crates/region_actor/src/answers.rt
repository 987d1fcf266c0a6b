//! What the node is to do after the region's part.
use yard_model::{Incarnation, Message, ShardNo, Stamp};

/// Which work on a shard follows a packet.
#[derive(Clone, Copy, Debug)]
pub enum Todo {
    /// None.
    Nothing,
    /// The shard is at home here: it starts, where it isn't hosted yet.
    Start(ShardNo),
    /// The shard's entities stop, for a round of this stamp; this coordinator is told.
    HandOff(ShardNo, Stamp, Incarnation),
}

/// Where a message went.
#[derive(Clone, Copy, Debug)]
pub enum Route {
    /// To its shard's home on another node, or it is kept here, or it is dropped.
    Gone,
    /// Nowhere yet: it goes to its entity on this node.
    Local(Message),
}
