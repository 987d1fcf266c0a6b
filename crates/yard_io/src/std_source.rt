//! A source over a reader of std's.
ghost use Rattle.std.specs.Prelude.{◌≡◌, ℕ, ◌+◌, ◌-◌, ◌^◌, ◌<◌, ◌≤◌, min, length, take, IfOk, OnErr, None};
ghost use Rattle.std.specs.Io.KnownBytes.{Consumes, IsAtEnd, Keeps, ReadConsumes};

use crate::failed::Failed;
use crate::source::Source;
use crate::std_faults::StdFaults;
use std::io::{self, ErrorKind, Read};

/// A source over a reader, such as standard input. It tells nothing of the bytes, and counts each read that fails.
///
/// A read that a signal interrupted is made again.
#[derive(Drop)]
pub struct StdSource<R> {
    reader: R,
    faults: StdFaults,
}

impl<R: Read> StdSource<R> {
    /// A source of what the reader gives.
    pub fn new(reader: R) -> StdSource<R>
        ensures reader { result.reader ≡ reader }
        ensures faults { result.faults ≡ 0 }
    {
        StdSource {
            reader,
            faults: StdFaults::new(),
        }
    }

    /// How many reads have failed, or the greatest `u64` where they are more.
    pub fn faults(&self) -> u64
        ensures { result ≡ min self.now.faults (2 ^ 64 - 1) }
    {
        self.faults.get()
    }

    /// Why the last read that failed did, if one has.
    pub fn last_error(&self) -> Option<io::Error> {
        self.faults.last()
    }
}

impl<R: Read> Source for StdSource<R> {
    ghost left = { λ _. None };

    ghost faults = { λ s. s.faults };

    fn read(&mut self, buf: &mut [u8]) -> Result<usize, Failed>
        // As of every source.
        ensures within { IfOk result (λ n. n ≤ length buf.new) }
        ensures cause { OnErr result (self.old.faults < self.new.faults) }
        ensures never_falls { self.old.faults ≤ self.new.faults }

        // Where the reader's bytes are known.
        ensures bytes { ReadConsumes (R.remaining self.old.reader) (R.remaining self.new.reader)
            result buf.new }

        // Of this source alone.
        ensures once { OnErr result (self.new.faults ≡ self.old.faults + 1) }
        ensures no_other { IfOk result (λ _. self.new.faults ≡ self.old.faults) }
    {
        match read_retrying(&mut self.reader, buf) {
            Ok(count) => Ok(count),
            Err(e) => {
                self.faults.raise(e);
                Err(Failed)
            }
        }
    }
}

/// Reads once, and again where a signal interrupted the read. An error where the reader failed.
fn read_retrying<R: Read>(reader: &mut R, buf: &mut [u8]) -> io::Result<usize>
    ensures within { IfOk result (λ n. n ≤ length buf.new) }
    ensures bytes { IfOk result (λ n. Consumes (R.remaining reader.old) (R.remaining reader.new)
        (take n buf.new)) }
    ensures end { IfOk result (λ n. n ≡ 0 → 0 < length buf.new → IsAtEnd (R.remaining reader.new)) }
    ensures kept { OnErr result (Keeps (R.remaining reader.old) (R.remaining reader.new)) }
{
    for _ in 0..u64::MAX {
        match reader.read(buf) {
            Ok(count) => return Ok(count),
            Err(e) if e.kind() == ErrorKind::Interrupted => {}
            Err(e) => return Err(e),
        }
    }
    Err(io::Error::from(ErrorKind::Interrupted))
}
