//! What `solo` keeps of one entity.
ghost use Rattle.std.specs.Prelude.{◌≡◌, ◌≢◌, ℕ, ◌+◌, ◌-◌, ◌<◌, ◌≤◌, IfOk, IsTrue};
ghost use Rattle.yard_model.specs.Behaviour.{is_of_kind};
ghost use Rattle.solo_run.specs.Known.{unknown, sent_at, taken_by, after_taken};

use behaviour_core::{Behaviour, state_after};
use std::alloc::{AllocError, Global};
use std::marker::Model;
use yard_model::{Kind, Message, ProducerNo, Record, State};

/// How many commands each producer has sent to the entity, what stands of its journal, and the state
/// that the journal leads to; on the heap, so that what moves is small. The records themselves are
/// kept in the list of its shard alone.
#[derive(Drop)]
pub struct Entity {
    kept: Box<Kept>,
}

/// What is kept of it.
#[derive(Drop)]
struct Kept {
    kind: Kind,
    sent: [u32; 32],
    taken: [u32; 32],
    count: u32,
    state: State,
}

impl Model for Entity {
    ghost use Rattle.solo_run.specs.Known.{Known, IsKept};

    ghost Value = { Known };

    ghost view = { λ e. record { kind = e.kept.value.kind; sent = e.kept.value.sent; taken = e.kept.value.taken; count = e.kept.value.count; state = e.kept.value.state } };

    ghost invariant = { λ e. IsKept (record { kind = e.kept.value.kind; sent = e.kept.value.sent; taken = e.kept.value.taken; count = e.kept.value.count; state = e.kept.value.state }) };
}

impl Entity {
    /// An entity to which nothing was sent. The only error is want of memory.
    pub fn new(alloc: Global, kind: Kind) -> Result<Entity, AllocError>
        ensures { IfOk result (λ e. e ≡ unknown kind) }
    {
        let kept = Kept {
            kind,
            sent: [0; 32],
            taken: [0; 32],
            count: 0,
            state: State::empty(kind),
        };
        let kept = Box::new(alloc, kept)?;
        Ok(Entity { kept })
    }

    /// Counts one command more of this producer, and answers its number.
    pub fn send(&mut self, producer: ProducerNo) -> u32
        requires { sent_at self.old.sent producer < 4294967295 }
        ensures number { result ≡ sent_at self.old.sent producer + 1 }
        ensures count { sent_at self.new.sent producer ≡ sent_at self.old.sent producer + 1 }
        ensures others { (p : ℕ) → 0 < p → p ≢ producer → sent_at self.new.sent p ≡ sent_at self.old.sent p }
        ensures kind { self.new.kind ≡ self.old.kind }
        ensures taken { self.new.taken ≡ self.old.taken }
        ensures records { self.new.count ≡ self.old.count }
        ensures state { self.new.state ≡ self.old.state }
    {
        let place = producer.get() as usize - 1;
        let number = self.kept.sent[place] + 1;
        self.kept.sent[place] = number;
        number
    }

    /// Takes a message that is the next of its producer, and answers its record.
    pub fn take<B: Behaviour>(&mut self, message: &Message, behaviour: &B) -> Option<Record>
        requires kind { B.kind_of behaviour.now ≡ self.old.kind }
        requires version { B.version_of behaviour.now ≡ 1 }
        requires command { IsTrue (is_of_kind self.old.kind message.now.command) }
        requires room { self.old.count < 4294967295 }
        requires place { 0 < message.now.producer → message.now.producer ≤ 32 → sent_at self.old.taken message.now.producer < 4294967295 }
        ensures record_is { result ≡ taken_by self.old message.now }
        ensures entity { self.new ≡ after_taken self.old result }
        ensures producer { (0 < message.now.producer) × (message.now.producer ≤ 32) }
    {
        let place = message.producer.get() as usize - 1;
        let taken = self.kept.taken[place];
        if message.number != taken + 1 {
            return None;
        }
        let decision = behaviour.decide(&self.kept.state, &message.command);
        let entry = Record {
            number: self.kept.count + 1,
            epoch: 1,
            producer: message.producer,
            place: message.number,
            command: message.command,
            events: decision.events,
            reply: decision.reply,
        };
        let entry = &entry;
        self.kept.state = state_after(behaviour, &self.kept.state, entry.events.as_slice());
        self.kept.taken[place] = message.number;
        self.kept.count = entry.number;
        Some(*entry)
    }
}
