//! From a log to the stores that a run goes on from: the lists of its entries, each tested as it comes, with what was
//! held freed.
#![tactic(auto)]

mod done;
mod entry;
mod fault;
mod free;
mod note;
mod stores;

pub use fault::ResumeFault;
pub use stores::{Restored, restore, stores_of};
