//! Bounded boxes between threads: one for each node, in which the parcels of one sender keep their
//! order.
#![tactic(auto)]

mod boxes;
mod make;
mod pass;
mod queue;
mod seats;

pub use boxes::PostBox;
pub use make::BoxPasses;
pub use pass::BoxPass;
pub use queue::{Envelope, View};
