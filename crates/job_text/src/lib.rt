//! The lines of the report of work pulling: a line for each job.
#![tactic(auto)]

mod commands;
mod lines;

pub use lines::push_job;
