//! What was accepted so far, kept so that a command is heard in a time that doesn't grow with it.
#![tactic(auto)]

mod desk;
mod kinds;
mod plans;
mod table;
#[cfg(test)]
mod tests;

pub use desk::{Desk, Heard};
