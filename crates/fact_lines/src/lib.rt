//! Lines of facts, read: from bytes to the fact that prints so; and the lines of entries, printed and read.
#![tactic(auto)]

mod basics;
mod commands;
mod entries;
mod events;
mod exact;
mod exact_facts;
mod exact_words;
mod facts;
mod laws;
mod lines;
mod parts;
mod print;
mod records;
mod slots;
mod values;

pub use entries::is_entry;
pub use facts::fact;
pub use laws::{entries_are_readable, printed_is_read, read_is_printed, texts_tell};
pub use lines::{read_entries, take_entry};
pub use print::push_entry;
