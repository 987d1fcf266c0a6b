//! A source that gives its bytes in pieces.
ghost use Rattle.std.specs.Prelude.{◌≡◌, ◌+◌, ◌-◌, ◌^◌, ◌<◌, ◌≤◌, min, [], ◌++◌, length, take, drop, ◌↔◌, IfOk, IsErr, OnErr, Some};

use crate::calls::Calls;
use yard_io::{Failed, Source};

/// A source of bytes, of whose reads one may fail.
///
/// A read that doesn't fail gives `most` bytes, or as many as there are or as there is room for where these are fewer.
#[derive(Drop)]
pub struct Feed<'a> {
    bytes: &'a [u8],
    most: usize,
    calls: Calls,
    ghost some: { 0 < most },
}

impl<'a> Feed<'a> {
    /// A source of these bytes, so many a read at most, whose read of this number fails; none where it is 0.
    pub fn new(bytes: &'a [u8], most: usize, failing: u32) -> Feed<'a>
        requires { 0 < most }
        ensures bytes { result.bytes.now ≡ bytes.now }
        ensures most { result.most ≡ most }
        ensures made { result.calls.made ≡ 0 }
        ensures failing { result.calls.failing ≡ failing }
    {
        Feed {
            bytes,
            most,
            calls: Calls::new(failing),
        }
    }
}

impl Source for Feed<'_> {
    ghost left = { λ f. Some f.bytes.now };

    ghost faults = { λ f. f.calls.faults };

    fn read(&mut self, buf: &mut [u8]) -> Result<usize, Failed>
        // As of every source.
        ensures within { IfOk result (λ n. n ≤ length buf.new) }
        ensures there { IfOk result (λ n. n ≤ length self.old.bytes.now) }
        ensures front { IfOk result (λ n. buf.new ≡ take n self.old.bytes.now ++ drop n buf.old) }
        ensures rest { IfOk result (λ n. Some self.new.bytes.now ≡ Some (drop n self.old.bytes.now)) }
        ensures end { IfOk result (λ n. n ≡ 0 → 0 < length buf.new → self.old.bytes.now ≡ []) }
        ensures kept { OnErr result (Some self.new.bytes.now ≡ Some self.old.bytes.now) }
        ensures untouched { OnErr result (buf.new ≡ buf.old) }
        ensures cause { OnErr result (self.old.calls.faults < self.new.calls.faults) }
        ensures never_falls { self.old.calls.faults ≤ self.new.calls.faults }

        // Of this source alone.
        ensures planned { IsErr result ↔ (self.new.calls.made ≡ self.old.calls.failing) }
        ensures count { IfOk result (λ n. n ≡ min self.old.most (min (length buf.new) (length self.old.bytes.now))) }
        ensures made { self.new.calls.made ≡ min (self.old.calls.made + 1) (2 ^ 32 - 1) }
        ensures failing { self.new.calls.failing ≡ self.old.calls.failing }
        ensures most { self.new.most ≡ self.old.most }
    {
        if self.calls.fails_next() {
            return Err(Failed);
        }
        let count = self.most.min(buf.len()).min(self.bytes.len());
        buf[..count].copy_from_slice(&self.bytes[..count]);
        self.bytes = &self.bytes[count..];
        Ok(count)
    }
}
