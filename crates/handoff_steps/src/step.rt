//! What comes next for a shard.
use yard_model::{Incarnation, Stamp};

/// What a word about a shard of a round leads to.
#[derive(Clone, Copy, Debug, PartialEq, Eq)]
pub enum Step {
    /// Some region is still awaited.
    Wait,
    /// Nobody is awaited any more: this region, the shard's owner, is to hand it off.
    HandOff(Incarnation),
    /// The shard is done.
    Done,
    /// The word wasn't waited for; nothing has changed.
    Ignored {
        /// The stamp that it came with.
        stamp: Stamp,
        /// Its sender.
        from: Incarnation,
    },
}
