//! In a lawful list each journal leads to a state, so that a report can be made of it: laws over the
//! definitions alone, in `proofs/`.
#![tactic(auto)]
