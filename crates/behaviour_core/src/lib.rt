//! What an entity does (Akka 2.6, Event Sourcing): a command handler, which decides events and a
//! reply, and an event handler, which makes the next state of an event.
#![tactic(auto)]

mod behaviour;
mod conditions;
mod fold;
pub mod laws;

pub use behaviour::Behaviour;
pub use conditions::{is_applicable, is_of_kind, is_valid};
pub use fold::{apply_all, state_after};
pub use yard_model::Decision;
