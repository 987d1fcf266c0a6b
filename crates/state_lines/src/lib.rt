//! Lines of facts, those with a state among them, read: from bytes to the fact that prints so.
#![tactic(auto)]

mod basics;
mod laws;
mod lines;
mod states;

pub use laws::{lines_tell, read_is_told, told_is_read};
pub use lines::told;
