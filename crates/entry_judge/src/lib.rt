//! Entries from outside, as of a log or of another's trace: each is tested against the list that it is to
//! follow, and stands at its end where it may follow. A store keeps its list lawful by itself, so an entry that
//! a call here refuses is one with which the list wouldn't be lawful, and no other.
#![tactic(auto)]

mod coordinator;
mod queue;
pub mod shard;
mod tests;

pub use coordinator::enter_coordinator;
pub use queue::enter_queue;
