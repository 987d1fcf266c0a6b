//! Lines that are heard, and what each is answered, once what it asked for is on the disk.
#![tactic(auto)]

mod answers;
mod hearing;
mod hints;
mod records;

pub use answers::{Answer, push_answers};
pub use hearing::{First, first_line, hear_all};
