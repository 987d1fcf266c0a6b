//! Work pulling (Akka 2.6, Reliable Delivery: WorkPullingProducerController): the jobs of one producer go to
//! any worker that asked for work, each to one worker at a time.
#![tactic(auto)]

mod fault;
mod lines;
mod report;
mod steps;
mod world;

pub use fault::PullFault;
pub use world::PullWorld;
