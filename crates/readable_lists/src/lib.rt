//! Lists of all slots that a reader reads off their text. Which lists these are stands in `specs/Readable.antt`; that
//! different ones have different texts, in `specs/Tells.antt`.
#![tactic(auto)]

mod laws;
mod sized;

pub use laws::texts_tell_lists;
pub use sized::look_at_lists;
