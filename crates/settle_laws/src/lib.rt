//! Laws of the settling, over the definitions alone: one node that is up by itself, what each of its turns
//! does, and so how the settling of a world ends. Each law is a function that does nothing, whose contract
//! is the law.
#![tactic(auto)]

pub mod alone;
pub mod worlds;
