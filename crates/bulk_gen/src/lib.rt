//! The script of a number, drawn by a generator that is seeded by it, and the summary of its run.
#![tactic(auto)]

mod confirmed;
mod draws;
mod kinds;
mod lines;
mod rounds;
mod row;
mod script;
mod summary;
mod text;

pub use script::script_of;
pub use summary::Summary;
pub use text::push_summary;
