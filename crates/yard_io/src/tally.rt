//! A number that only contracts see.
ghost use Rattle.std.specs.Prelude.{◌≡◌, ℕ, ◌+◌};
ghost use Rattle.std.specs.Borrow.{ftrue};

use std::marker::{Model, PhantomData};

/// A number that contracts see and no code holds, so that it has no end.
#[derive(Drop)]
pub(crate) struct Tally {
    marker: PhantomData<u8>,
    pub(crate) ghost count: { ℕ },
}

impl Model for Tally {
    ghost also_owns = { λ _. ftrue };
}

impl Tally {
    pub(crate) fn new() -> Tally
        ensures { result.count ≡ 0 }
    {
        Tally {
            marker: PhantomData,
        }
    }

    pub(crate) fn raise(&mut self)
        ensures { self.new.count ≡ self.old.count + 1 }
    {}
}
