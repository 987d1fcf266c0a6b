//! Who is told each fact of a trace as it happens.
ghost use Rattle.std.specs.Prelude.{◌≡◌, ℕ, List, [], ◌∷◌, ◌++◌, OnOk, OnErr};
ghost use Rattle.yard_model.specs.declared.fact.Fact.{Fact};
ghost use Rattle.yard_model.specs.declared.fact.Fact.TheVariants as fact;

use std::alloc::AllocError;
use yard_model::{Fact, Packet};

/// What is kept of a trace while it arises: all of it, some counts, or how far it has come.
pub trait Notes {
    /// The notes are those of these facts.
    ghost are_of: { Self → List Fact → Type 0 };

    /// One fact more. The only error is want of memory, and then nothing changes.
    fn note(&mut self, fact: &Fact) -> Result<(), AllocError>
        ensures ok { OnOk result ((before : List Fact) → are_of self.old before → are_of self.new (before ++ fact.now ∷ [])) }
        ensures err { OnErr result (self.new ≡ self.old) };

    /// The packet of this number is posted, which is one fact more. The only error is want of memory, and
    /// then nothing changes.
    fn note_sent(&mut self, number: u32, packet: &Packet) -> Result<(), AllocError>
        ensures ok { OnOk result ((before : List Fact) → are_of self.old before → are_of self.new (before ++ fact.Sent number packet.now ∷ [])) }
        ensures err { OnErr result (self.new ≡ self.old) };
}
