//! The judge of a trace, fact by fact: whether the trace is still safe with a fact more, or which test fails
//! first. It keeps the lists of all slots, where each entity is live and the version in force, and not the trace;
//! a fact costs constant work.
#![tactic(auto)]

mod breaches;
mod cells;
mod judge;

pub use judge::Judge;
pub use judge_laws::Breach;
