//! The stores of all slots, made of entries from outside, as of a log or of another's trace, one after the
//! other: each is tested against the list of its slot, in constant work, and stands at its end where it may
//! follow. Beside the stores are kept what a test wants at once: the state that each journal leads to, the
//! commands of each producer to each name, and who holds each slot.
#![tactic(auto)]

mod decided;
mod names;
mod places;
mod plans;
mod slots;

pub use slots::{Slots, Standing};
