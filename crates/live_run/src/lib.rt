//! `live`: from a script to the lists that nodes on threads of their own leave, settled. What is so of
//! them stands in `specs/LiveText.antt`, and what is written of them in `specs/Written.antt`.
#![tactic(auto)]

mod live;
mod reporting;
mod writing;

pub use live::write_live;
