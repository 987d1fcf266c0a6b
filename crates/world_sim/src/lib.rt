//! The world of a cluster: all its nodes, and the packets that go between them.
#![tactic(auto)]

mod asks;
mod beginning;
mod delivery;
mod era;
mod fault;
mod gives;
pub mod laws;
mod left;
mod mail;
mod members;
mod numbers;
mod orders;
mod places;
mod posts;
mod produces;
mod queues;
mod runs;
mod scene;
mod seek;
mod sent;
mod settle;
mod stops;
mod stores;
mod turns;
mod ups;
mod world;
mod yard;

pub use fault::StepFault;
pub use mail::Mail;
pub use numbers::greatest_number;
pub use stores::settle_stores;
pub use world::World;
