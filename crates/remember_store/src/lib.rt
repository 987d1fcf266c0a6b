//! Which of a script's names are remembered (Akka 2.6, Cluster Sharding: remembering entities). A
//! remembered entity is started with its shard.
#![tactic(auto)]

mod remembered;

pub use remembered::Remembered;
