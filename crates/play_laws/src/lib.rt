//! Laws of the whole cluster, for every script: after any of its orders the trace is guarded, so it is safe
//! at each prefix. Each law is a function that does nothing, whose contract is the law.
//!
//! What a turn of one node keeps is proved in `node_laws`; here are the world's steps: nodes that come up
//! and go down, packets on the wire, orders, and the settling.
#![tactic(auto)]

pub mod play;
