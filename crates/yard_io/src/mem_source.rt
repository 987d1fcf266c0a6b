//! A source in memory.
ghost use Rattle.std.specs.Prelude.{◌≡◌, ℕ, ◌+◌, ◌-◌, ◌^◌, ◌<◌, ◌≤◌, min, [], ◌++◌, length, take, drop, ◌↔◌, IfOk, IsErr, OnErr, Contains, Some, None};

use crate::failed::Failed;
use crate::failing_calls::FailingCalls;
use crate::fault_count::FaultCount;
use crate::source::Source;
use crate::whole_source::WholeSource;
use std::alloc::{AllocError, Global};
use std::marker::Model;

/// A source over bytes in memory, some of whose reads fail.
///
/// A read that doesn't fail gives as many bytes as there is room for.
#[derive(Drop)]
pub struct MemSource {
    bytes: WholeSource,
    calls: FailingCalls,
    faults: FaultCount,
}

impl Model for MemSource {
    ghost use Rattle.yard_io.specs.Memory.{Feed};

    ghost Value = { Feed };

    ghost view = { λ s. record { bytes = s.bytes; calls = s.calls; faults = s.faults } };
}

impl MemSource {
    /// A source of these bytes, whose reads with the numbers in `fails` fail. Reads count from 1.
    pub fn new(alloc: Global, bytes: &[u8], fails: &[u32]) -> Result<MemSource, AllocError>
        ensures { IfOk result (λ s. s ≡ record {
          bytes = bytes.now;
          calls = record { made = 0; failing = fails.now };
          faults = 0;
        }) }
    {
        Ok(MemSource {
            bytes: WholeSource::new(alloc, bytes)?,
            calls: FailingCalls::new(alloc, fails)?,
            faults: FaultCount::new(),
        })
    }
}

impl Source for MemSource {
    ghost left = { λ s. Some s.bytes };

    ghost faults = { λ s. s.faults };

    fn read(&mut self, buf: &mut [u8]) -> Result<usize, Failed>
        // As of every source.
        ensures within { IfOk result (λ n. n ≤ length buf.new) }
        ensures there { IfOk result (λ n. n ≤ length self.old.bytes) }
        ensures front { IfOk result (λ n. buf.new ≡ take n self.old.bytes ++ drop n buf.old) }
        ensures rest { IfOk result (λ n. self.new.bytes ≡ drop n self.old.bytes) }
        ensures end { IfOk result (λ n. n ≡ 0 → 0 < length buf.new → self.old.bytes ≡ []) }
        ensures kept { OnErr result (self.new.bytes ≡ self.old.bytes) }
        ensures untouched { OnErr result (buf.new ≡ buf.old) }
        ensures cause { OnErr result (self.old.faults < self.new.faults) }
        ensures never_falls { self.old.faults ≤ self.new.faults }

        // Of this source alone.
        ensures planned { IsErr result ↔ Contains self.old.calls.failing (self.old.calls.made + 1) }
        ensures count { IfOk result (λ n. n ≡ min (length buf.new) (length self.old.bytes)) }
        ensures made { self.new.calls.made ≡ min (self.old.calls.made + 1) (2 ^ 64 - 1) }
        ensures failing { self.new.calls.failing ≡ self.old.calls.failing }
        ensures once { OnErr result (self.new.faults ≡ self.old.faults + 1) }
        ensures no_other { IfOk result (λ _. self.new.faults ≡ self.old.faults) }
    {
        if self.calls.fails_next() {
            self.faults.raise();
            return Err(Failed);
        }
        self.bytes.read(buf)
    }
}
