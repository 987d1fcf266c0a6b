//! The producers of a node (Akka 2.6, Reliable Delivery: the sharding producer controller with its
//! durable queue): those whose queue the node holds (`Producers`), each with its queue and, of each
//! entity, what was demanded and what was sent (`Producer`).
#![tactic(auto)]

mod held;
mod laws;
mod names;
mod place;
mod producer;
mod producers;
mod table;

pub use laws::{numbers_are_within, rules_are_calls};
pub use names::Names;
pub use place::Place;
pub use producer::{Parts, Producer};
pub use producers::Producers;
pub use send_window::Sends;
pub use table::Blank;
