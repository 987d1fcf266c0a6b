//! Writing a text in parts.
ghost use Rattle.run_parts.specs.Writing.{Writes};
ghost use Rattle.run_parts.specs.declared.writing.WriteError.TheVariants as write_error;
ghost use Rattle.std.specs.Prelude.{◌≡◌, IfErr};

use std::alloc::AllocError;
use yard_io::{Failed, Sink, write_all};

/// Why a text was not written whole.
#[derive(Clone, Copy, Debug, PartialEq, Eq)]
pub enum WriteError {
    /// A write failed.
    Failed,
    /// There was no memory for what was to be written.
    OutOfMemory,
}

impl From<Failed> for WriteError {
    ghost from_gives = { λ _ e. e ≡ write_error.Failed };

    fn from(_e: Failed) -> WriteError {
        WriteError::Failed
    }
}

impl From<AllocError> for WriteError {
    ghost from_gives = { λ _ e. e ≡ write_error.OutOfMemory };

    fn from(_e: AllocError) -> WriteError {
        WriteError::OutOfMemory
    }
}

/// Writes a part of a text, for which no memory is needed. Nothing is flushed.
pub fn write_part<K: Sink>(sink: &mut K, part: &[u8]) -> Result<(), WriteError>
    ensures wrote { Writes part.now result
        (record { taken = K.taken sink.old; flushed = K.flushed sink.old; faults = K.faults sink.old })
        (record { taken = K.taken sink.new; flushed = K.flushed sink.new; faults = K.faults sink.new }) }
    ensures failed { IfErr result (λ e. e ≡ write_error.Failed) }
{
    match write_all(sink, part) {
        Ok(()) => Ok(()),
        Err(Failed) => Err(WriteError::Failed),
    }
}
