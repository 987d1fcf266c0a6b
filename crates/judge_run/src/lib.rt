//! The judge of traces as one call: a script, a line `trace` and a trace come of a source, and what is answered of the
//! trace goes to a sink. Each status has its cause as a clause of the call.
#![tactic(auto)]

mod explain;
mod input;
mod sentences;
mod status;
mod text;
mod top;
mod words;

pub use sentences::sentence_of;
pub use status::Status;
pub use text::text_of;
pub use top::judge;
pub use words::{Asked, asked_for};
