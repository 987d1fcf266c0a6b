//! `replay`, `replay json`, `log`, `bulk` and `daemon`: from a script to its trace, its report, counts of its
//! trace, or what each of its lines moves. A world plays the script one order after the other; after n orders the
//! facts are those of the definition's first n (`specs/Replays.antt`; of `daemon`, `specs/Daemons.antt`).
#![tactic(auto)]

mod bulk;
mod daemon;
mod following;
mod json;
mod log;
mod replay;

pub use bulk::write_bulk;
pub use daemon::write_daemon;
pub use json::write_json;
pub use log::write_log;
pub use replay::write_replay;
