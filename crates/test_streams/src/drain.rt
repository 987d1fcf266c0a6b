//! A sink that takes pieces of what is written.
ghost use Rattle.std.specs.Prelude.{◌≡◌, ◌+◌, ◌-◌, ◌^◌, ◌<◌, ◌≤◌, min, [], ◌++◌, length, take, ◌↔◌, ◌⊎◌, IfOk, IsErr, OnOk, OnErr, Some};

use crate::WHOLE;
use crate::calls::Calls;
use std::alloc::Global;
use yard_io::{Failed, Sink};

/// A sink that keeps its bytes in memory, of whose writes and flushes one may fail.
///
/// A write that doesn't fail takes `most` bytes, or the whole piece where it has no more. One for which there is no
/// memory fails too.
#[derive(Drop)]
pub struct Drain {
    taken: Vec<u8>,
    flushed: usize,
    most: usize,
    calls: Calls,
    ghost some: { 0 < most },
}

impl Drain {
    /// A sink that takes whole pieces, and none of whose calls fails.
    pub fn new(alloc: Global) -> Drain
        ensures taken { result.taken.items ≡ [] }
        ensures flushed { result.flushed ≡ 0 }
        ensures most { result.most ≡ WHOLE }
        ensures made { result.calls.made ≡ 0 }
        ensures failing { result.calls.failing ≡ 0 }
    {
        Drain {
            taken: Vec::new(alloc),
            flushed: 0,
            most: WHOLE,
            calls: Calls::new(0),
        }
    }

    /// It has taken nothing again, and takes so many bytes a write; the call of this number fails, none where it is 0.
    pub fn restart(&mut self, most: usize, failing: u32)
        requires { 0 < most }
        ensures taken { self.new.taken.items ≡ [] }
        ensures flushed { self.new.flushed ≡ 0 }
        ensures most { self.new.most ≡ most }
        ensures made { self.new.calls.made ≡ 0 }
        ensures failing { self.new.calls.failing ≡ failing }
    {
        self.taken.clear();
        self.flushed = 0;
        self.most = most;
        self.calls.restart(failing);
    }

    /// What it took.
    pub fn bytes(&self) -> &[u8]
        ensures { result.now ≡ self.now.taken.items }
    {
        self.taken.as_slice()
    }

    /// How many writes and flushes there were.
    pub fn calls(&self) -> u32
        ensures { result ≡ self.now.calls.made }
    {
        self.calls.made()
    }
}

impl Sink for Drain {
    ghost taken = { λ d. Some d.taken.items };

    ghost flushed = { λ d. Some d.flushed };

    ghost faults = { λ d. d.calls.faults };

    fn write(&mut self, piece: &[u8]) -> Result<usize, Failed>
        // As of every sink.
        ensures within { IfOk result (λ n. n ≤ length piece.now) }
        ensures some { IfOk result (λ n. 0 < length piece.now → 0 < n) }
        ensures takes { IfOk result (λ n. self.new.taken.items ≡ self.old.taken.items ++ take n piece.now) }
        ensures kept { OnErr result (self.new.taken.items ≡ self.old.taken.items) }
        ensures flushed { self.new.flushed ≡ self.old.flushed }
        ensures cause { OnErr result (self.old.calls.faults < self.new.calls.faults) }
        ensures never_falls { self.old.calls.faults ≤ self.new.calls.faults }

        // Of this sink alone.
        ensures count { IfOk result (λ n. n ≡ min self.old.most (length piece.now)) }
        ensures planned { self.new.calls.made ≡ self.old.calls.failing → IsErr result }
        // Else a write fails for want of memory alone.
        ensures unplanned { OnErr result ((self.new.calls.made ≡ self.old.calls.failing) ⊎ (0 < length piece.now)) }
        ensures made { self.new.calls.made ≡ min (self.old.calls.made + 1) (2 ^ 32 - 1) }
        ensures failing { self.new.calls.failing ≡ self.old.calls.failing }
        ensures most { self.new.most ≡ self.old.most }
    {
        if self.calls.fails_next() {
            return Err(Failed);
        }
        let count = self.most.min(piece.len());
        if self.taken.extend_from_slice(&piece[..count]).is_err() {
            self.calls.fail();
            return Err(Failed);
        }
        Ok(count)
    }

    fn flush(&mut self) -> Result<(), Failed>
        // As of every sink.
        ensures kept { self.new.taken.items ≡ self.old.taken.items }
        ensures flushed { OnOk result (self.new.flushed ≡ length self.new.taken.items) }
        ensures unflushed { OnErr result (self.new.flushed ≡ self.old.flushed) }
        ensures cause { OnErr result (self.old.calls.faults < self.new.calls.faults) }
        ensures never_falls { self.old.calls.faults ≤ self.new.calls.faults }

        // Of this sink alone.
        ensures planned { IsErr result ↔ (self.new.calls.made ≡ self.old.calls.failing) }
        ensures made { self.new.calls.made ≡ min (self.old.calls.made + 1) (2 ^ 32 - 1) }
        ensures failing { self.new.calls.failing ≡ self.old.calls.failing }
        ensures most { self.new.most ≡ self.old.most }
    {
        if self.calls.fails_next() {
            return Err(Failed);
        }
        self.flushed = self.taken.len();
        Ok(())
    }
}
