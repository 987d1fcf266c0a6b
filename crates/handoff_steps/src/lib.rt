//! The coordinator's round of handoffs (Akka 2.6, Cluster Sharding concepts: rebalancing by
//! handoff). Each shard of the round waits for all registered regions to acknowledge that it
//! moves, then for its owner to stop it. Stamps, and that a round moves several shards at once,
//! are this project's own.
#![tactic(auto)]

mod cell;
mod regions;
mod round;
mod step;
mod waits;

pub use regions::Regions;
pub use round::Round;
pub use step::Step;
