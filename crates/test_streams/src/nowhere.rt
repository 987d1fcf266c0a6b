//! A writer that takes nothing.
ghost use Rattle.std.specs.Prelude.{◌≡◌, IsOk};
ghost use Rattle.std.specs.Io.KnownBytes.{Keeps, WriteAppends};
ghost use Rattle.std.specs.Io.{WritesAtMost};

use std::io::{self, Write};

/// A writer that takes nothing: each write answers 0, and no flush fails.
#[derive(Drop)]
pub struct Nowhere;

impl Write for Nowhere {
    fn write(&mut self, piece: &[u8]) -> io::Result<usize>
        // As of every writer.
        ensures bound { WritesAtMost result piece.now }
        ensures bytes { WriteAppends None None result piece.now }

        // Of this one alone.
        ensures nothing { result ≡ Ok 0 }
    {
        Ok(0)
    }

    fn flush(&mut self) -> io::Result<()>
        // As of every writer.
        ensures bytes { Keeps None None }

        // Of this one alone.
        ensures well { IsOk result }
    {
        Ok(())
    }
}
