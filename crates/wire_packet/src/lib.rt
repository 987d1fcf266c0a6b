//! The wire: every packet that was posted, in the order of posting, and which of them are marked as
//! handed on.
#![tactic(auto)]

mod books;
mod cell;
mod plans;
mod who;
mod wire;

pub use wire::{Wire, WireFault};
