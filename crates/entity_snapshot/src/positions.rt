//! How many records each producer has among those that a snapshot stands for.
ghost use Rattle.std.specs.Prelude.{◌≡◌, ◌+◌, ◌-◌, ◌<◌, replicate, slice_set, slice_index_or};
ghost use Rattle.yard_model.specs.Limits.{number_limit};

use std::marker::Model;
use yard_model::ProducerNo;

/// A count for each of the 32 producers; seen as their list, with producer p at place p - 1.
#[derive(Clone, Copy)]
pub struct Positions {
    counts: [u32; 32],
}

impl Model for Positions {
    ghost use Rattle.std.specs.Prelude.{◌≡◌, ℕ, List, length};

    ghost Value = { List ℕ };

    ghost view = { λ p. p.counts };

    ghost invariant = { λ p. length p.counts ≡ 32 };

    ghost inverse = { λ v. record { counts = v } };
}

impl Positions {
    /// No records.
    pub fn zero() -> Positions
        ensures { result ≡ replicate 32 0 }
    {
        Positions { counts: [0; 32] }
    }

    /// These counts, with producer p at place p - 1.
    pub fn new(counts: [u32; 32]) -> Positions
        ensures { result ≡ counts }
    {
        Positions { counts }
    }

    /// One record more of producer `p`.
    pub fn plus_one(self, p: ProducerNo) -> Positions
        requires { slice_index_or self (p - 1) 0 < number_limit }
        ensures { result ≡ slice_set self (p - 1) (slice_index_or self (p - 1) 0 + 1) }
    {
        let mut positions = self;
        positions.counts[(p.get() - 1) as usize] += 1;
        positions
    }

    /// How many records are of producer `p`.
    pub fn of(&self, p: ProducerNo) -> u32
        ensures { result ≡ slice_index_or self.now (p - 1) 0 }
    {
        self.counts[(p.get() - 1) as usize]
    }
}
