//! `serve` as one call: lines come of a source, and each is answered to a sink once what it asked for is on a disk. Each
//! status has its cause as a clause of the call.
#![tactic(auto)]

mod explain;
mod status;
mod stop;
mod top;
mod turn;
mod window;
mod words;

pub use status::Status;
pub use top::serve;
pub use words::{Asked, asked_for};
