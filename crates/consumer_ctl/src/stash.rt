//! Messages that wait for the command at work to end.
ghost use Rattle.std.specs.Prelude.{◌≡◌, ◌<◌, ◌≤◌, ◌↔◌, [], ◌∷◌, ◌++◌, length, IsOk, IfOk, OnOk, IfErr, IsNone, IfSome, IfNone};

use circular_buffer::HeapCircularBuffer;
use std::alloc::{AllocError, Global};
use std::marker::{Model, PhantomData};
use yard_model::{Command, Message};

/// A first-in first-out list of at most so many messages; a whole window of memory is taken when
/// it is made, and none later. It is seen as its messages and its window. (Akka's stash is bounded
/// in the same way; that a message that finds no room is handed back is this project's own rule.)
#[derive(Drop)]
pub struct Stash {
    ring: HeapCircularBuffer<Message>,
    holds: PhantomData<Command>,
}

impl Model for Stash {
    ghost use Rattle.std.specs.Prelude.{◌≤◌, length};
    ghost use Rattle.consumer_ctl.specs.Held.{Held};

    ghost Value = { Held };

    ghost view = { λ s. record { messages = s.ring.items; window = s.ring.capacity } };

    ghost invariant = { λ s. length s.ring.items ≤ s.ring.capacity };
}

impl Stash {
    /// An empty stash for `window` messages.
    pub fn new(alloc: Global, window: u8) -> Result<Stash, AllocError>
        ensures empty { IfOk result (λ s. s.messages ≡ []) }
        ensures window { IfOk result (λ s. s.window ≡ window) }
    {
        let ring = HeapCircularBuffer::with_capacity(alloc, window as usize)?;
        Ok(Stash {
            ring,
            holds: PhantomData,
        })
    }

    /// Puts a message behind the others. Where a whole window is held it is handed back, and
    /// nothing changes.
    pub fn put(&mut self, message: Message) -> Result<(), Message>
        ensures room { IsOk result ↔ (length self.old.messages < self.old.window) }
        ensures put { OnOk result (self.new.messages ≡ self.old.messages ++ message ∷ []) }
        ensures back { IfErr result (λ m. m ≡ message) }
        ensures full { IfErr result (λ m. self.new ≡ self.old) }
        ensures window { self.new.window ≡ self.old.window }
    {
        self.ring.try_push_back(message)
    }

    /// Takes the oldest message; None exactly where none is held, and then nothing changes.
    pub fn pop(&mut self) -> Option<Message>
        ensures empty { IsNone result ↔ (self.old.messages ≡ []) }
        ensures oldest { IfSome result (λ m. self.old.messages ≡ m ∷ self.new.messages) }
        ensures unchanged { IfNone result (self.new ≡ self.old) }
        ensures window { self.new.window ≡ self.old.window }
    {
        self.ring.pop_front()
    }

    /// Drops all messages.
    pub fn clear(&mut self)
        ensures { self.new ≡ record self.old { messages = [] } }
    {
        self.ring.clear();
    }

    /// How many messages are held.
    pub fn len(&self) -> usize
        ensures len { result ≡ length self.now.messages }
        ensures fits { length self.now.messages ≤ self.now.window }
    {
        self.ring.len()
    }
}
