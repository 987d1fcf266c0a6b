//! The entities of a node (Akka 2.6, Cluster Sharding: shards and passivation; Event Sourcing: the
//! stash while an entity recovers; Reliable Delivery: the consumer's side): the shards that it hosts,
//! each with its store, and of each name of a script, where its entity stands.
#![tactic(auto)]

mod counts;
mod delivery;
mod entities;
mod handoff;
mod hosting;
mod moves;
mod orders;
mod passivation;
mod place;
mod places;
mod recovery;
mod restless;
mod shards;
mod starting;
mod stopping;
mod ticking;
mod writing;

pub use entities::Entities;
pub use handoff::Stopped;
pub use place::Place;
pub use places::Places;
