//! The durable queue of one producer (Akka 2.6, Cluster Sharding: reliable delivery with a durable
//! queue): what the producer has sent, and how far it is confirmed.
#![tactic(auto)]

mod counts;
mod hints;
mod known;
mod moved;
mod names;
mod plans;
mod store;

pub use store::QueueStore;
