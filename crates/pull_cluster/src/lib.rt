//! Work pulling (Akka 2.6, Reliable Delivery: WorkPullingProducerController): the workers that are up, the packets
//! between them and the producer, and the producer's queue, fact by fact.
#![tactic(auto)]

mod cluster;
mod reads;
mod tells;

pub use cluster::Cluster;
