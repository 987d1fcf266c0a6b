//! Which calls of an object in memory fail.
ghost use Rattle.std.specs.Prelude.{◌≡◌, ℕ, ◌+◌, ◌-◌, ◌^◌, min, ◌↔◌, IsTrue, IfOk, Contains};
ghost use Rattle.yard_io.specs.Memory.{Calls};

use std::alloc::{AllocError, Global};
use std::marker::Model;

/// Counts the calls of an object in memory, and knows which of them fail.
///
/// The calls count from 1. The count stands still at the greatest `u64`, and no call that fails has a number
/// above the greatest `u32`.
#[derive(Drop)]
pub struct FailingCalls {
    made: u64,
    failing: Vec<u32>,
}

impl Model for FailingCalls {
    ghost use Rattle.yard_io.specs.Memory.{Calls};

    ghost Value = { Calls };

    ghost view = { λ p. record { made = p.made; failing = p.failing.items } };
}

impl FailingCalls {
    /// No call yet; those with the numbers in `failing` are to fail.
    pub fn new(alloc: Global, failing: &[u32]) -> Result<FailingCalls, AllocError>
        ensures { IfOk result (λ p. p ≡ record { made = 0; failing = failing.now }) }
    {
        Ok(FailingCalls {
            made: 0,
            failing: Vec::from_slice(alloc, failing)?,
        })
    }

    /// Counts one call, and tells whether it is to fail.
    pub fn fails_next(&mut self) -> bool
        ensures planned { IsTrue result ↔ Contains self.old.failing (self.old.made + 1) }
        ensures made { self.new.made ≡ min (self.old.made + 1) (2 ^ 64 - 1) }
        ensures failing { self.new.failing ≡ self.old.failing }
    {
        self.made = self.made.saturating_add(1);
        let number = self.made;
        self.failing.iter().any(|k| u64::from(*k) == number)
    }
}
