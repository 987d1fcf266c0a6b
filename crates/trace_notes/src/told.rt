//! The facts that were told so far, seen as their list, of which only notes are kept.
ghost use Rattle.std.specs.Prelude.{◌≡◌, List, [], ◌∷◌, ◌++◌, OnOk, OnErr};
ghost use Rattle.yard_model.specs.declared.fact.Fact.TheVariants as fact;

use crate::notes::Notes;
use crate::story::Story;
use std::alloc::AllocError;
use std::marker::Model;
use yard_model::{Fact, Packet};

/// The facts that were told so far, oldest first. Contracts see them all; what is kept of them are notes.
#[derive(Drop)]
pub struct Told<N: Notes> {
    pub(crate) story: Story,
    pub(crate) notes: N,
}

impl<N: Notes> Model for Told<N> {
    ghost use Rattle.std.specs.Prelude.{List};
    ghost use Rattle.yard_model.specs.declared.fact.Fact.{Fact};

    ghost Value = { List Fact };

    ghost view = { λ t. t.story.told };

    ghost invariant = { λ t. N.are_of t.notes t.story.told };
}

impl<N: Notes> Told<N> {
    /// Nothing is told yet, of which these are the notes.
    pub fn new(notes: N) -> Told<N>
        requires { N.are_of notes [] }
        ensures { result ≡ [] }
    {
        Told {
            story: Story::new(),
            notes,
        }
    }

    /// One fact more. The only error is want of memory, and then nothing changes.
    #[inline(always)]
    pub fn push(&mut self, fact: Fact) -> Result<(), AllocError>
        ensures ok { OnOk result (self.new ≡ self.old ++ fact ∷ []) }
        ensures err { OnErr result (self.new ≡ self.old) }
    {
        self.push_copy(&fact)
    }

    /// One fact more, of which no copy is made that isn't kept. The only error is want of memory, and then
    /// nothing changes.
    #[inline(always)]
    pub fn push_copy(&mut self, fact: &Fact) -> Result<(), AllocError>
        ensures ok { OnOk result (self.new ≡ self.old ++ fact.now ∷ []) }
        ensures err { OnErr result (self.new ≡ self.old) }
    {
        self.notes.note(fact)?;
        self.story.tell(fact);
        Ok(())
    }

    /// The packet of this number is posted. The only error is want of memory, and then nothing changes.
    #[inline(always)]
    pub fn push_sent(&mut self, number: u32, packet: &Packet) -> Result<(), AllocError>
        ensures ok { OnOk result (self.new ≡ self.old ++ fact.Sent number packet.now ∷ []) }
        ensures err { OnErr result (self.new ≡ self.old) }
    {
        self.notes.note_sent(number, packet)?;
        self.story.tell_sent(number, packet);
        Ok(())
    }

    /// What is noted of them.
    pub fn notes(&self) -> &N
        ensures { N.are_of result.now self.now }
    {
        &self.notes
    }
}
