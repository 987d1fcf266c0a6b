//! What ends a world.
use thiserror::Error;

/// Why a step wasn't made whole, and none follows.
#[derive(Clone, Copy, Debug, PartialEq, Eq, Drop, Error)]
pub enum StepFault {
    /// A packet past the limit of 1,000,000 would have been posted: the trace stops with this order.
    #[error("the wire is full")]
    WireFull,
    /// No memory was left.
    #[error("out of memory")]
    OutOfMemory,
}
