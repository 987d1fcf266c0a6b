//! The names of a script, in order, each found at its place.
#![tactic(auto)]

mod index;
mod successors;

pub use index::NameIndex;
pub use successors::Successors;
