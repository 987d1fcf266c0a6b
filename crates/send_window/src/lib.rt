//! What a producer may send of its commands to one entity (Akka 2.6, Reliable Delivery: the state of a
//! producer's flow control): what was asked and sent, and what is queued and confirmed.
#![tactic(auto)]

mod pair;

pub use pair::{Pair, Sends, larger};
