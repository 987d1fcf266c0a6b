//! The lines of an order, which are written once its batch is committed.
#![tactic(auto)]

mod log_fault;
mod telling;

pub use log_fault::LogError;
pub use telling::tell_order;
