//! The messages that a region keeps while it doesn't know where their shard is.
#![tactic(auto)]

mod kept;

pub use envelope_pool::Full;
pub use kept::Kept;
