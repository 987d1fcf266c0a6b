//! Messages by shard, with one bound on how many are kept in all.
ghost use Rattle.std.specs.Prelude.{◌≡◌, ℕ, ◌<◌, ◌≤◌, [], ◌∷◌, ◌++◌, length, drop, replicate, slice_set, IfOk, IfErr, OnOk, OnErr, MatchOption, IsTrue, ◌↔◌};
ghost use Rattle.envelope_pool.specs.Keyed.{list_of, held};

use envelope_pool::{Full, Pool};
use std::alloc::{AllocError, Global};
use std::marker::Model;
use yard_model::{Message, ShardNo};

/// The messages kept for each shard, oldest first; all shards share one buffer. Once it is made it
/// takes no memory.
#[derive(Drop)]
pub struct Kept {
    pool: Pool<Message>,
}

impl Model for Kept {
    ghost use Rattle.envelope_pool.specs.Keyed.{Keyed, keyed_code};
    ghost use Rattle.yard_model.specs.declared.packet.Message.{Message};

    ghost Value = { Keyed Message };

    ghost view = { λ k. k.pool };
}

impl Kept {
    /// Nothing kept for each of so many shards, and room for `buffer` messages in all. The only
    /// error is want of memory.
    pub fn new(alloc: Global, buffer: u16, shards: u8) -> Result<Kept, AllocError>
        ensures lists { IfOk result (λ kept. kept.lists ≡ replicate shards []) }
        ensures shards { IfOk result (λ kept. length kept.lists ≡ shards) }
        ensures buffer { IfOk result (λ kept. kept.cells ≡ buffer) }
    {
        let pool = Pool::new(alloc, buffer, shards as u16)?;
        Ok(Kept { pool })
    }

    /// Keeps a message as the newest of its shard. Where the buffer is full in all, the message
    /// comes back and nothing changes.
    pub fn keep(&mut self, s: ShardNo, message: Message) -> Result<(), Full<Message>>
        requires { s < length self.old.lists }
        ensures full { OnErr result (held self.old ≡ self.old.cells) }
        ensures free { OnOk result (held self.old < self.old.cells) }
        ensures ok { OnOk result (self.new.lists ≡ slice_set self.old.lists s (list_of self.old s ++ message ∷ [])) }
        ensures shards { length self.new.lists ≡ length self.old.lists }
        ensures buffer { self.new.cells ≡ self.old.cells }
        ensures message { IfErr result (λ full. full.item ≡ message) }
        ensures err { OnErr result (self.new ≡ self.old) }
    {
        self.pool.push(s.get() as u16, message)
    }

    /// Takes the oldest message of a shard out; None exactly where none of it is kept.
    pub fn release_one(&mut self, s: ShardNo) -> Option<Message>
        requires { s < length self.old.lists }
        ensures message { MatchOption result (list_of self.old s ≡ []) (λ message. list_of self.old s ≡ message ∷ drop 1 (list_of self.old s)) }
        ensures lists { self.new.lists ≡ slice_set self.old.lists s (drop 1 (list_of self.old s)) }
        ensures shards { length self.new.lists ≡ length self.old.lists }
        ensures buffer { self.new.cells ≡ self.old.cells }
    {
        self.pool.pop(s.get() as u16)
    }

    /// Whether none of a shard is kept.
    pub fn is_empty(&self, s: ShardNo) -> bool
        requires { s < length self.now.lists }
        ensures { IsTrue result ↔ (list_of self.now s ≡ []) }
    {
        self.pool.len(s.get() as u16) == 0
    }

    /// How many messages of a shard are kept.
    pub fn count(&self, s: ShardNo) -> u16
        requires { s < length self.now.lists }
        ensures { result ≡ length (list_of self.now s) }
    {
        self.pool.len(s.get() as u16)
    }

    /// How many messages are kept in all: at most the buffer.
    pub fn total(&self) -> u16
        ensures count { result ≡ held self.now }
        ensures within { result ≤ self.now.cells }
    {
        self.pool.total()
    }
}
