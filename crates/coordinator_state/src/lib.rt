//! The coordinator's durable state (Akka 2.6, Cluster Sharding concepts: the state of the shard
//! coordinator is event sourced): which regions are registered, and where the shards are
//! allocated.
//!
//! The list of entries is the state; what is read off it is kept beside it.
#![tactic(auto)]

mod entries;
mod homes;
mod moved;
mod store;

pub use store::CoordStore;
