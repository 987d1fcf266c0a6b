//! A number for each producer.
ghost use Rattle.std.specs.Prelude.{◌≡◌, ◌<◌, replicate, slice_set, slice_index_or, length};

use std::marker::Model;
use yard_model::ProducerNo;

/// A number for each producer, 1 to 32; seen as the list of them, with that of producer p at place p.
#[derive(Clone, Copy)]
pub(crate) struct Row {
    numbers: [u32; 33],
}

impl Model for Row {
    ghost use Rattle.std.specs.Prelude.{◌≡◌, ℕ, List, length};

    ghost Value = { List ℕ };

    ghost view = { λ r. r.numbers };

    ghost invariant = { λ r. length r.numbers ≡ 33 };

    ghost inverse = { λ v. record { numbers = v } };
}

impl Row {
    /// 0 for each.
    pub(crate) fn zero() -> Row
        ensures { result ≡ replicate 33 0 }
    {
        Row { numbers: [0; 33] }
    }

    /// That of producer `p`.
    pub(crate) fn of(&self, p: ProducerNo) -> u32
        ensures { result ≡ slice_index_or self.now p 0 }
    {
        self.numbers[p.get() as usize]
    }

    /// That of producer `p` is another.
    pub(crate) fn set(&mut self, p: ProducerNo, number: u32)
        ensures set { self.new ≡ slice_set self.old p number }
        ensures there { p < length self.old }
    {
        self.numbers[p.get() as usize] = number;
    }
}
