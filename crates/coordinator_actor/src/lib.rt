//! The shard coordinator (Akka 2.6, Cluster Sharding concepts) while a node holds its slot: which
//! regions are registered, which of them leave, where shards live, and the round of handoffs that
//! is open. What it makes known is written into its store first, so that the next holder goes on
//! from there.
#![tactic(auto)]

mod coordinator;
mod flags;
mod handle;
mod homes;
pub mod laws;
mod leaving;
mod lost;
mod quitters;
mod rebalance;
mod regions;
mod register;
mod rounds;
mod stopped;
mod tick;

pub use coordinator::Coordinator;
