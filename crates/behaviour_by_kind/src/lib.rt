//! The behaviour of a kind that is known when the program runs (Akka 2.6, Cluster Sharding: the one entity
//! type of a region).
#![tactic(auto)]

mod by_kind;

pub use by_kind::ByKind;
