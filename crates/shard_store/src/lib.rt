//! The store of a shard: the list of its slot, and at hand beside it the journal, the snapshots and
//! the mark of each of its entities (Akka 2.6, Cluster Sharding: remembering entities; Persistence).
#![tactic(auto)]

mod grow;
mod grow_stores;
mod hints;
mod list;
mod name_table;
mod names;
mod positions;
mod reshape;
mod shelf;
mod store;
mod stores;
mod written;

pub use shelf::ShardStore;
pub use store::{Store, StoreRef};
pub use stores::{Parts, Stores, greatest_of};
