//! A sink that keeps none of its bytes: how many they were, and a digest of them.
ghost use Rattle.std.specs.Prelude.{None};

use yard_io::{Failed, Sink};

/// The digest of no bytes.
const START: u64 = 0xcbf2_9ce4_8422_2325;

/// What each step of it multiplies by.
const PRIME: u64 = 0x0000_0100_0000_01b3;

/// How many bytes a text has, and their digest: FNV-1a with 64 bits.
#[derive(Clone, Copy, PartialEq, Eq)]
pub(crate) struct Digest {
    pub(crate) bytes: u64,
    pub(crate) hash: u64,
}

impl Digest {
    /// Of no bytes.
    pub(crate) fn new() -> Digest {
        Digest {
            bytes: 0,
            hash: START,
        }
    }
}

impl Sink for Digest {
    ghost taken = { λ _. None };

    ghost flushed = { λ _. None };

    ghost faults = { λ _. 0 };

    fn write(&mut self, piece: &[u8]) -> Result<usize, Failed> {
        self.bytes = self.bytes.saturating_add(piece.len() as u64);
        self.hash = hash_of(self.hash, piece);
        Ok(piece.len())
    }

    fn flush(&mut self) -> Result<(), Failed> {
        Ok(())
    }
}

/// The digest, gone on with these bytes.
fn hash_of(hash: u64, piece: &[u8]) -> u64 {
    let mut hash = hash;
    for byte in piece {
        hash = (hash ^ u64::from(*byte)).wrapping_mul(PRIME);
    }
    hash
}
