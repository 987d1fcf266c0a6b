//! How many calls have failed.
ghost use Rattle.std.specs.Prelude.{◌≡◌, ℕ, ◌+◌, ◌-◌, ◌^◌, min};

use crate::tally::Tally;
use std::marker::Model;

/// How many calls of an object have failed.
///
/// Contracts see the count itself, which has no end. The number that the program holds beside it stands still at
/// the end of its type.
#[derive(Drop)]
pub struct FaultCount {
    shown: u64,
    tally: Tally,
}

impl Model for FaultCount {
    ghost Value = { ℕ };

    ghost view = { λ c. c.tally.count };

    ghost invariant = { λ c. c.shown ≡ min c.tally.count (2 ^ 64 - 1) };
}

impl FaultCount {
    /// No fault yet.
    pub fn new() -> FaultCount
        ensures { result ≡ 0 }
    {
        FaultCount {
            shown: 0,
            tally: Tally::new(),
        }
    }

    /// One fault more.
    pub fn raise(&mut self)
        ensures { self.new ≡ self.old + 1 }
    {
        self.shown = self.shown.saturating_add(1);
        self.tally.raise();
    }

    /// The count, or the greatest `u64` where it is greater.
    pub fn get(&self) -> u64
        ensures { result ≡ min self.now (2 ^ 64 - 1) }
    {
        self.shown
    }
}
