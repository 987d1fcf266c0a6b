//! The orders that the worker of a node takes, one after the other.
#![tactic(auto)]

mod orders;

pub use orders::Orders;
