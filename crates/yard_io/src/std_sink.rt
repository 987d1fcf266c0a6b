//! A sink over a writer of std's.
ghost use Rattle.std.specs.Prelude.{◌≡◌, ℕ, ◌+◌, ◌-◌, ◌<◌, ◌≤◌, ◌^◌, min, [], length, take, IfOk, OnOk, OnErr, None};
ghost use Rattle.std.specs.Io.Buffered.{writer_buffer, writer_capacity, writer_contents, writer_inner};
ghost use Rattle.std.specs.Io.KnownBytes.{Appends, Keeps, WriteAppends};

use crate::failed::Failed;
use crate::sink::Sink;
use crate::std_faults::StdFaults;
use std::alloc::{AllocError, Global};
use std::io::{self, BufWriter, ErrorKind, Write};

/// How many bytes are gathered before they are written to the writer.
const CAPACITY: usize = 65_536;

/// A sink over a writer, such as standard output. It tells nothing of the bytes, and counts each call that fails.
///
/// Small pieces are gathered, so that a line costs no call of the system. A write that a signal interrupted is
/// made again. When the sink is dropped it tries to write what it has gathered: flush it before, to know of a failure.
#[derive(Drop)]
pub struct StdSink<W: Write + Drop> {
    writer: BufWriter<W>,
    faults: StdFaults,
}

impl<W: Write + Drop> StdSink<W> {
    /// A sink to this writer.
    pub fn new(alloc: Global, writer: W) -> Result<StdSink<W>, AllocError>
        ensures writer { IfOk result (λ s. writer_inner s.writer ≡ writer) }
        ensures empty { IfOk result (λ s. writer_buffer s.writer ≡ []) }
        ensures capacity { IfOk result (λ s. writer_capacity s.writer ≡ 65536) }
        ensures faults { IfOk result (λ s. s.faults ≡ 0) }
    {
        match BufWriter::with_capacity(alloc, CAPACITY, writer) {
            Ok(writer) => Ok(StdSink {
                writer,
                faults: StdFaults::new(),
            }),
            Err(_) => Err(AllocError),
        }
    }

    /// How many writes and flushes have failed, or the greatest `u64` where they are more.
    pub fn faults(&self) -> u64
        ensures { result ≡ min self.now.faults (2 ^ 64 - 1) }
    {
        self.faults.get()
    }

    /// Why the last write or flush that failed did, if one has.
    pub fn last_error(&self) -> Option<io::Error> {
        self.faults.last()
    }
}

impl<W: Write + Drop> Sink for StdSink<W> {
    ghost taken = { λ _. None };

    ghost flushed = { λ _. None };

    ghost faults = { λ s. s.faults };

    fn write(&mut self, piece: &[u8]) -> Result<usize, Failed>
        // As of every sink.
        ensures within { IfOk result (λ n. n ≤ length piece.now) }
        ensures some { IfOk result (λ n. 0 < length piece.now → 0 < n) }
        ensures cause { OnErr result (self.old.faults < self.new.faults) }
        ensures never_falls { self.old.faults ≤ self.new.faults }

        // Where the writer's bytes are known. What is gathered counts among them.
        ensures bytes { WriteAppends (writer_contents W.contents self.old.writer)
            (writer_contents W.contents self.new.writer) result piece.now }

        // Of this sink alone.
        ensures once { OnErr result (self.new.faults ≡ self.old.faults + 1) }
        ensures no_other { IfOk result (λ _. self.new.faults ≡ self.old.faults) }
    {
        match write_retrying(&mut self.writer, piece) {
            Ok(count) => Ok(count),
            Err(e) => {
                self.faults.raise(e);
                Err(Failed)
            }
        }
    }

    fn flush(&mut self) -> Result<(), Failed>
        // As of every sink.
        ensures cause { OnErr result (self.old.faults < self.new.faults) }
        ensures never_falls { self.old.faults ≤ self.new.faults }

        // Where the writer's bytes are known. What is gathered counts among them, and after Ok nothing is gathered.
        ensures bytes { Keeps (writer_contents W.contents self.old.writer)
            (writer_contents W.contents self.new.writer) }
        ensures empty { OnOk result (writer_buffer self.new.writer ≡ []) }

        // Of this sink alone.
        ensures once { OnErr result (self.new.faults ≡ self.old.faults + 1) }
        ensures no_other { OnOk result (self.new.faults ≡ self.old.faults) }
    {
        match flush_retrying(&mut self.writer) {
            Ok(()) => Ok(()),
            Err(e) => {
                self.faults.raise(e);
                Err(Failed)
            }
        }
    }
}

/// Writes once, and again where a signal interrupted the write. An error where the writer failed, or took nothing of
/// a piece that has bytes.
fn write_retrying<W: Write>(writer: &mut W, piece: &[u8]) -> io::Result<usize>
    ensures within { IfOk result (λ n. n ≤ length piece.now) }
    ensures some { IfOk result (λ n. 0 < length piece.now → 0 < n) }
    ensures bytes { IfOk result (λ n. Appends (W.contents writer.old) (W.contents writer.new)
        (take n piece.now)) }
    ensures kept { OnErr result (Keeps (W.contents writer.old) (W.contents writer.new)) }
{
    for _ in 0..u64::MAX {
        match writer.write(piece) {
            Ok(0) if !piece.is_empty() => return Err(io::Error::from(ErrorKind::WriteZero)),
            Ok(count) => return Ok(count),
            Err(e) if e.kind() == ErrorKind::Interrupted => {}
            Err(e) => return Err(e),
        }
    }
    Err(io::Error::from(ErrorKind::Interrupted))
}

/// Flushes, and again where a signal interrupted that. An error where the writer failed.
fn flush_retrying<W: Write + Drop>(writer: &mut BufWriter<W>) -> io::Result<()>
    ensures empty { OnOk result (writer_buffer writer.new ≡ []) }
    ensures bytes { Keeps (writer_contents W.contents writer.old) (writer_contents W.contents writer.new) }
{
    for _ in 0..u64::MAX {
        match writer.flush() {
            Ok(()) => return Ok(()),
            Err(e) if e.kind() == ErrorKind::Interrupted => {}
            Err(e) => return Err(e),
        }
    }
    Err(io::Error::from(ErrorKind::Interrupted))
}
