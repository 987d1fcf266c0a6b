//! That a record stands behind the entry by which its command was queued, in the trace of every script, and before
//! what confirms it, in every safe trace. Each law is a function that does nothing, whose contract is the law.
#![tactic(auto)]

pub mod laws;
