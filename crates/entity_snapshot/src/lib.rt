//! The snapshots of one entity (Akka 2.6, Persistence: snapshots, of which the last few are kept).
#![tactic(auto)]

mod positions;
mod snapshot;

pub use positions::Positions;
pub use snapshot::{Snapshot, Snapshots};
