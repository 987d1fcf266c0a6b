//! The consumer's side of reliable delivery (Akka 2.6, Reliable Delivery: `ConsumerController`):
//! how a number compares with what is recorded, when more is asked for, and what is stashed while
//! a command is at work.
//!
//! The names are Akka's. That a number is compared with the recorded one alone, and that half a
//! window decides when more is asked for, are this project's own rules.
#![tactic(auto)]

mod numbers;
mod stash;

pub use numbers::{Seen, see, wants};
pub use stash::Stash;
