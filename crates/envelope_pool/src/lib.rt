//! A pool of cells that many queues share: each key has a list of its own, and all lists together
//! have room for so many items.
#![tactic(auto)]

mod links;
mod pool;

pub use pool::{Full, Pool};
