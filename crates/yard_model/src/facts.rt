//! Growing lists of facts.
ghost use Rattle.std.specs.Prelude.{◌≡◌, ℕ, [], ◌∷◌, ◌++◌, OnOk, OnErr};
ghost use Rattle.yard_model.specs.declared.fact.Fact.TheVariants as fact;
ghost use Rattle.yard_model.specs.declared.packet.Packet.{Packet};

use crate::fact::Fact;
use crate::incarnation::Slot;
use crate::packet::{Body, Packet};
use crate::state::State;
use std::alloc::{AllocError, Global};
use std::marker::{Model, PhantomData};
use std::slice;

/// A list of facts, oldest first.
#[derive(Drop)]
pub struct Facts {
    facts: Vec<Fact>,
    holds: PhantomData<(Packet, Body, State, Slot)>,
}

impl Model for Facts {
    ghost use Rattle.std.specs.Prelude.{List};
    ghost use Rattle.yard_model.specs.declared.fact.Fact.{Fact};

    ghost Value = { List Fact };

    ghost view = { λ f. f.facts.items };
}

impl Facts {
    /// No facts. It takes no memory.
    pub fn new(alloc: Global) -> Facts
        ensures { result ≡ [] }
    {
        Facts {
            facts: Vec::new(alloc),
            holds: PhantomData,
        }
    }

    /// One fact more. The only error is want of memory, and then nothing changes.
    pub fn push(&mut self, fact: Fact) -> Result<(), AllocError>
        ensures ok { OnOk result (self.new ≡ self.old ++ fact ∷ []) }
        ensures err { OnErr result (self.new ≡ self.old) }
    {
        self.facts.push(fact)?;
        Ok(())
    }

    /// One fact more, which is copied to its place at once. The only error is want of memory, and then
    /// nothing changes.
    pub fn push_copy(&mut self, fact: &Fact) -> Result<(), AllocError>
        ensures ok { OnOk result (self.new ≡ self.old ++ fact.now ∷ []) }
        ensures err { OnErr result (self.new ≡ self.old) }
    {
        self.facts.extend_from_slice(slice::from_ref(fact))
    }

    /// The packet of this number is posted; it is copied to its place at once. The only error is want of
    /// memory, and then nothing changes.
    pub fn push_sent(&mut self, number: u32, packet: &Packet) -> Result<(), AllocError>
        ensures ok { OnOk result (self.new ≡ self.old ++ fact.Sent number packet.now ∷ []) }
        ensures err { OnErr result (self.new ≡ self.old) }
    {
        let place = self.as_slice().len();
        self.facts.push(Fact::Sent(number, without_body(packet)))?;
        put_packet(&mut self.facts[place], packet);
        Ok(())
    }

    /// The facts.
    pub fn as_slice(&self) -> &[Fact]
        ensures { result.now ≡ self.now }
    {
        self.facts.as_slice()
    }

    /// Drops all facts and keeps the memory.
    pub fn clear(&mut self)
        ensures { self.new ≡ [] }
    {
        self.facts.clear();
    }
}

/// A packet between the same incarnations that says next to nothing.
fn without_body(packet: &Packet) -> Packet {
    Packet {
        from: packet.from,
        to: packet.to,
        body: Body::Register,
    }
}

/// What is sent is this packet.
fn put_packet(sent: &mut Fact, packet: &Packet)
    ensures { (number : ℕ) (other : Packet) → sent.old ≡ fact.Sent number other → sent.new ≡ fact.Sent number packet.now }
{
    if let Fact::Sent(_, place) = sent {
        slice::from_mut(place).copy_from_slice(slice::from_ref(packet));
    }
}
