//! All facts, kept in a list.
ghost use Rattle.std.specs.Prelude.{◌≡◌, []};

use crate::notes::Notes;
use crate::story::Story;
use crate::told::Told;
use std::alloc::AllocError;
use yard_model::{Fact, Facts, Packet};

impl Notes for Facts {
    ghost use Rattle.std.specs.Prelude.{◌≡◌};

    ghost are_of = { λ facts told. facts ≡ told };

    fn note(&mut self, fact: &Fact) -> Result<(), AllocError> {
        self.push_copy(fact)
    }

    fn note_sent(&mut self, number: u32, packet: &Packet) -> Result<(), AllocError> {
        self.push_sent(number, packet)
    }
}

impl Told<Facts> {
    /// The facts.
    pub fn as_slice(&self) -> &[Fact]
        ensures { result.now ≡ self.now }
    {
        self.notes.as_slice()
    }

    /// Forgets all facts and keeps the memory.
    pub fn clear(&mut self)
        ensures { self.new ≡ [] }
    {
        self.notes.clear();
        self.story = Story::new();
    }
}
