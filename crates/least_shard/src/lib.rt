//! The strategy of the least shard (Akka 2.6, Cluster Sharding concepts: allocation of shards and
//! rebalancing by the least number of shards). A shard goes to the region with the fewest, and a
//! round moves shards from the largest share to the smallest.
#![tactic(auto)]

mod choice;
mod rebalance;
mod tally;

pub use choice::choose;
pub use rebalance::round;
