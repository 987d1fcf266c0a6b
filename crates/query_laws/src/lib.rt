//! Laws of the queries: at the end of each order every word of the world is what the queries answer of the
//! facts that were told (`Queries` of `yard_model`), and every word of each node where the facts tell it
//! (`known` says where). Each law is a function that does nothing, whose contract is the law.
//!
//! Of a turn by itself: what its items show of the node is what its acts do to it (`shown`; rule by rule in
//! `proofs/Show*.antt`). Of the world: `known`, over what stands of it after any orders (`play_laws`), in
//! `proofs/Known*.antt`.
#![tactic(auto)]

pub mod known;
pub mod shown;
