//! Sets of places: the least place that is in one, from a place on, is found a word at a time.
#![tactic(auto)]

mod places;
mod words;

pub use places::PlaceSet;
