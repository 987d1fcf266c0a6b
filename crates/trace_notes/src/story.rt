//! The facts told so far, which only contracts see.
ghost use Rattle.std.specs.Prelude.{◌≡◌, List, [], ◌∷◌, ◌++◌};
ghost use Rattle.std.specs.Borrow.{ftrue};
ghost use Rattle.yard_model.specs.declared.fact.Fact.{Fact};
ghost use Rattle.yard_model.specs.declared.fact.Fact.TheVariants as fact;

use std::marker::{Model, PhantomData};
use yard_model::{Fact, Packet};

/// The facts told so far, which contracts see and no code holds: it takes no memory.
#[derive(Drop)]
pub struct Story {
    marker: PhantomData<u8>,
    pub ghost told: { List Fact },
}

impl Model for Story {
    ghost also_owns = { λ _. ftrue };
}

impl Story {
    /// Nothing is told yet.
    pub fn new() -> Story
        ensures { result.told ≡ [] }
    {
        Story {
            marker: PhantomData,
        }
    }

    /// This fact is told.
    pub fn tell(&mut self, fact: &Fact)
        ensures { self.new.told ≡ self.old.told ++ fact.now ∷ [] }
    {
        let _ = fact;
    }

    /// The packet of this number is posted, which is told.
    pub fn tell_sent(&mut self, number: u32, packet: &Packet)
        ensures { self.new.told ≡ self.old.told ++ fact.Sent number packet.now ∷ [] }
    {
        let _ = number;
        let _ = packet;
    }
}
