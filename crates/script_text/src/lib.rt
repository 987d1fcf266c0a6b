//! Scripts: from bytes to settings and orders, or the first fault.
//!
//! Lines, and the words of a line, can be read one by one, too: those of settings, a command, a producer, a name, a
//! number.
#![tactic(auto)]

mod commands;
mod cut;
mod draft;
mod fault;
mod orders;
mod read;
mod settings;
pub mod words;

pub use commands::command;
pub use cut::{Cut, next_line, next_word};
pub use fault::{Mode, ScriptFault, Why};
pub use orders::producer;
pub use read::read_script;
pub use settings::read_settings;
pub use words::number_of;
