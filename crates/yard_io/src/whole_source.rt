//! A source in memory that never fails.
ghost use Rattle.std.specs.Prelude.{◌≡◌, ℕ, ◌+◌, ◌-◌, ◌<◌, ◌≤◌, min, List, [], ◌++◌, length, take, drop, IfOk, IsOk, OnErr, Some, None};

use crate::failed::Failed;
use crate::source::Source;
use std::alloc::{AllocError, Global};
use std::marker::Model;

/// A source over bytes in memory that never fails: its count of faults is always 0.
///
/// A read gives as many bytes as there is room for.
#[derive(Drop)]
pub struct WholeSource {
    bytes: Vec<u8>,
    given: usize,
}

impl Model for WholeSource {
    ghost use Rattle.std.specs.Prelude.{List, ℕ, ◌≤◌, drop, vec_len};

    ghost Value = { List ℕ };

    ghost view = { λ s. drop s.given s.bytes.items };

    ghost invariant = { λ s. s.given ≤ vec_len s.bytes };
}

impl WholeSource {
    /// A source of these bytes.
    pub fn new(alloc: Global, bytes: &[u8]) -> Result<WholeSource, AllocError>
        ensures { IfOk result (λ s. s ≡ bytes.now) }
    {
        Ok(WholeSource {
            bytes: Vec::from_slice(alloc, bytes)?,
            given: 0,
        })
    }
}

impl Source for WholeSource {
    ghost left = { λ s. Some s };

    ghost faults = { λ _. 0 };

    fn read(&mut self, buf: &mut [u8]) -> Result<usize, Failed>
        // As of every source.
        ensures within { IfOk result (λ n. n ≤ length buf.new) }
        ensures there { IfOk result (λ n. n ≤ length self.old) }
        ensures front { IfOk result (λ n. buf.new ≡ take n self.old ++ drop n buf.old) }
        ensures rest { IfOk result (λ n. self.new ≡ drop n self.old) }
        ensures end { IfOk result (λ n. n ≡ 0 → 0 < length buf.new → self.old ≡ []) }
        ensures kept { OnErr result (self.new ≡ self.old) }
        ensures untouched { OnErr result (buf.new ≡ buf.old) }

        // Of this source alone.
        ensures never_fails { IsOk result }
        ensures count { IfOk result (λ n. n ≡ min (length buf.new) (length self.old)) }
    {
        let count = copy_front(&self.bytes[self.given..], buf);
        self.given += count;
        Ok(count)
    }
}

/// Copies as many bytes to the front of `buf` as both have, and answers how many.
fn copy_front(bytes: &[u8], buf: &mut [u8]) -> usize
    ensures count { result ≡ min (length buf.new) (length bytes.now) }
    ensures front { buf.new ≡ take result bytes.now ++ drop result buf.old }
{
    let count = buf.len().min(bytes.len());
    buf[..count].copy_from_slice(&bytes[..count]);
    count
}
