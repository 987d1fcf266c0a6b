//! `resume`: from a log to the lists that a run goes on to, settled. What is so of the text stands in
//! `specs/ResumeText.antt`.
#![tactic(auto)]

mod fault;
mod resume;

pub use fault::ResumeError;
pub use resume::resume_text;
