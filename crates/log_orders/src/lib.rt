//! What an order of a run logs: those of its facts that belong to a slot's list, as one batch, before a line of it is
//! written.
#![tactic(auto)]

mod gathering;
mod orders;

pub use gathering::{belongs, enter, gather};
pub use orders::{CommitFault, commit_batch, commit_order};
