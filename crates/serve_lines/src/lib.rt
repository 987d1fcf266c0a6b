//! What `serve` reads and writes: a line to what it asks, the line of the settings, and the lines of answers.
//!
//! Nothing is kept here. Whether a command is carried out, and what its record says, is found by those above.
#![tactic(auto)]

mod answers;
mod head;
mod parts;
mod requests;

pub use answers::{push_conflict, push_done, push_entity, push_gap, push_refused};
pub use head::{head_text, push_other_settings, push_settings, read_head};
pub use requests::{Request, read_request};
