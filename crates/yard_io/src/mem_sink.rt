//! A sink in memory.
ghost use Rattle.std.specs.Prelude.{◌≡◌, ℕ, ◌+◌, ◌-◌, ◌^◌, ◌<◌, ◌≤◌, min, [], ◌++◌, length, take, ◌↔◌, ◌⊎◌, IfOk, IsErr, OnOk, OnErr, Contains, Some, None};

use crate::failed::Failed;
use crate::failing_calls::FailingCalls;
use crate::fault_count::FaultCount;
use crate::sink::Sink;
use std::alloc::{AllocError, Global};
use std::marker::Model;

/// A sink that keeps its bytes in memory, some of whose calls fail.
///
/// A write that doesn't fail takes the whole piece.
#[derive(Drop)]
pub struct MemSink {
    bytes: Vec<u8>,
    flushed: usize,
    calls: FailingCalls,
    faults: FaultCount,
}

impl Model for MemSink {
    ghost use Rattle.std.specs.Prelude.{◌≤◌, vec_len};
    ghost use Rattle.yard_io.specs.Memory.{Drain};

    ghost Value = { Drain };

    ghost view = { λ s. record { bytes = s.bytes.items; flushed = s.flushed; calls = s.calls; faults = s.faults } };

    ghost invariant = { λ s. s.flushed ≤ vec_len s.bytes };
}

impl MemSink {
    /// A sink that has taken nothing, whose calls with the numbers in `fails` fail.
    ///
    /// Writes and flushes have one count, from 1. A write for which there is no memory fails too.
    pub fn new(alloc: Global, fails: &[u32]) -> Result<MemSink, AllocError>
        ensures { IfOk result (λ s. s ≡ record {
          bytes = [];
          flushed = 0;
          calls = record { made = 0; failing = fails.now };
          faults = 0;
        }) }
    {
        Ok(MemSink {
            bytes: Vec::new(alloc),
            flushed: 0,
            calls: FailingCalls::new(alloc, fails)?,
            faults: FaultCount::new(),
        })
    }

    /// The bytes taken, in order.
    pub fn bytes(&self) -> &[u8]
        ensures { result.now ≡ self.now.bytes }
    {
        self.bytes.as_slice()
    }
}

impl Sink for MemSink {
    ghost taken = { λ s. Some s.bytes };

    ghost flushed = { λ s. Some s.flushed };

    ghost faults = { λ s. s.faults };

    fn write(&mut self, piece: &[u8]) -> Result<usize, Failed>
        // As of every sink.
        ensures takes { IfOk result (λ n. self.new.bytes ≡ self.old.bytes ++ take n piece.now) }
        ensures kept { OnErr result (self.new.bytes ≡ self.old.bytes) }
        ensures flushed { self.new.flushed ≡ self.old.flushed }
        ensures cause { OnErr result (self.old.faults < self.new.faults) }
        ensures never_falls { self.old.faults ≤ self.new.faults }

        // Of this sink alone.
        ensures whole { IfOk result (λ n. n ≡ length piece.now) }
        ensures planned { Contains self.old.calls.failing (self.old.calls.made + 1) → IsErr result }
        // Else a write fails for want of memory alone.
        ensures unplanned { OnErr result (Contains self.old.calls.failing (self.old.calls.made + 1) ⊎ (0 < length piece.now)) }
        ensures made { self.new.calls.made ≡ min (self.old.calls.made + 1) (2 ^ 64 - 1) }
        ensures failing { self.new.calls.failing ≡ self.old.calls.failing }
        ensures once { OnErr result (self.new.faults ≡ self.old.faults + 1) }
        ensures no_other { IfOk result (λ _. self.new.faults ≡ self.old.faults) }
    {
        if self.calls.fails_next() {
            self.faults.raise();
            return Err(Failed);
        }
        match self.bytes.extend_from_slice(piece) {
            Ok(()) => Ok(piece.len()),
            Err(_) => {
                self.faults.raise();
                Err(Failed)
            }
        }
    }

    fn flush(&mut self) -> Result<(), Failed>
        // As of every sink.
        ensures kept { self.new.bytes ≡ self.old.bytes }
        ensures flushed { OnOk result (self.new.flushed ≡ length self.new.bytes) }
        ensures unflushed { OnErr result (self.new.flushed ≡ self.old.flushed) }
        ensures cause { OnErr result (self.old.faults < self.new.faults) }
        ensures never_falls { self.old.faults ≤ self.new.faults }

        // Of this sink alone.
        ensures planned { IsErr result ↔ Contains self.old.calls.failing (self.old.calls.made + 1) }
        ensures made { self.new.calls.made ≡ min (self.old.calls.made + 1) (2 ^ 64 - 1) }
        ensures failing { self.new.calls.failing ≡ self.old.calls.failing }
        ensures once { OnErr result (self.new.faults ≡ self.old.faults + 1) }
        ensures no_other { OnOk result (self.new.faults ≡ self.old.faults) }
    {
        if self.calls.fails_next() {
            self.faults.raise();
            return Err(Failed);
        }
        self.flushed = self.bytes.len();
        Ok(())
    }
}
