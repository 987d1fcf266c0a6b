//! The shard region of a node (Akka 2.6, Cluster Sharding concepts): what the node knows of the
//! members and of the homes of shards, and the messages that it keeps until a home is known.
#![tactic(auto)]

mod answers;
mod homes;
pub mod laws;
mod members;
mod packets;
mod region;
mod routing;
mod timer;

pub use answers::{Route, Todo};
pub use region::Region;
