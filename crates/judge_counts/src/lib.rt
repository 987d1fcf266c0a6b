//! What a judge of a trace's text counts, a line after the other, and where a line is its answer.
#![tactic(auto)]

mod counts;

pub use counts::{counted_by, next, no_counts, stops_at};
