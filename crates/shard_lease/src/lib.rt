//! Leases of slots (Akka 2.6, Coordination: a lease has a name and one holder): who holds a slot has
//! its store, and nobody else does.
#![tactic(auto)]

mod book;
mod leases;

pub use book::LeaseBook;
pub use leases::{Acquire, Leases, handed_out_may_return};
