//! Live nodes: a worker for each, in a thread of its own. It gives its node an input a turn over the
//! leases of its pass, publishes the lists of which it told an entry, and posts what it posted.
#![tactic(auto)]

mod draws;
mod inputs;
pub mod laws;
mod leases;
mod mail;
mod offer;
mod parcel;
mod record;
mod roster;
mod run;
mod sending;
mod steps;
mod telling;
mod tray;
mod turn;
mod up_node;
mod worker;

pub use draws::{Draws, Fate};
pub use inputs::input_of;
pub use leases::NodeLeases;
pub use mail::Mail;
pub use offer::{Confirmed, handed};
pub use parcel::{Parcel, Run, confirms, is_within_limit};
pub use record::note_of;
pub use roster::{Roster, Views, enter, leave};
pub use run::{Job, Outcome, run_counted, run_live};
pub use steps::{Place, finish, give, take_order, take_packet};
pub use telling::publish_told;
pub use tray::Tray;
pub use turn::{node_ends, node_starts, take_turn};
pub use up_node::UpNode;
pub use worker::{Course, work};
