//! The cells of a node's entities (Akka 2.6, Event Sourcing: the stash while an entity recovers): of each place where its
//! entity stands, and what is stashed for it.
#![tactic(auto)]

mod cell;
mod cells;

pub use cells::Cells;
