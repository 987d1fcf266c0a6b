//! What is kept of work pulling beside its trace, by the places of the jobs: the packets on the wire, what is
//! known of each job, the workers with the jobs that are given to them, and who has done what.
#![tactic(auto)]

mod board;
mod doers;
mod parcel;
mod parcels;
mod state;
mod worker;

pub use board::Board;
pub use doers::Doers;
pub use parcel::Parcel;
pub use parcels::{LIMIT, Parcels};
pub use state::JobState;
