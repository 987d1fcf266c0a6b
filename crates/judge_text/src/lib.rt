//! The judging of a trace's text: bytes of a source in, an answer out.
//!
//! A trace is read a piece at a time, and judged a line at a time; a line is passed over by its first word, or read
//! whole. What is kept is the judge of the facts so far, and of the text one piece.
#![tactic(auto)]

mod hearing;
mod lines;
mod reading;
mod words;

pub use hearing::Hearing;
pub use lines::first_line;
pub use reading::judge_rest;
pub use verdict_laws::{Answer, Counts};
