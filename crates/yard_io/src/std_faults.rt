//! How many calls over std's streams and files have failed, and why the last one did.
ghost use Rattle.std.specs.Prelude.{◌≡◌, ℕ, ◌+◌, ◌-◌, ◌^◌, min};

use crate::fault_count::FaultCount;
use std::io;
use std::marker::Model;

/// How many calls of an object over std's streams or files have failed, and std's error of the last of them.
///
/// Contracts see the count alone.
#[derive(Drop)]
pub struct StdFaults {
    count: FaultCount,
    last: Option<io::Error>,
}

impl Model for StdFaults {
    ghost Value = { ℕ };

    ghost view = { λ f. f.count };
}

impl StdFaults {
    /// No fault yet.
    pub fn new() -> StdFaults
        ensures { result ≡ 0 }
    {
        StdFaults {
            count: FaultCount::new(),
            last: None,
        }
    }

    /// One fault more, and why.
    pub fn raise(&mut self, error: io::Error)
        ensures { self.new ≡ self.old + 1 }
    {
        self.count.raise();
        self.last = Some(error);
    }

    /// The count, or the greatest `u64` where it is greater.
    pub fn get(&self) -> u64
        ensures { result ≡ min self.now (2 ^ 64 - 1) }
    {
        self.count.get()
    }

    /// Why the last call that failed did, if one has.
    pub fn last(&self) -> Option<io::Error> {
        self.last
    }
}
