//! The settings, what was accepted, and what stands on the disk of it; and what a group of lines makes of them.
#![tactic(auto)]

mod books;

pub use books::{Books, Carried, carry, carry_group, new_books};
