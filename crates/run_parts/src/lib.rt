//! What every run shares: a text that is written in parts, and where a trace stops.
#![tactic(auto)]

mod course;
mod writing;

pub use course::{Course, course_after};
pub use writing::{WriteError, write_part};
