//! The journal of one entity (Akka 2.6, Persistence): its records, of which none is ever changed.
#![tactic(auto)]

mod journal;
mod past;

pub use journal::Journal;
