//! What is noted of a trace as it arises, fact by fact.
#![tactic(auto)]

mod listed;
mod none;
mod notes;
mod story;
mod told;

pub use none::NoNotes;
pub use notes::Notes;
pub use story::Story;
pub use told::Told;
