//! What no clause says: that calls succeed, and what reads and writes answer one after the other.

use std::alloc::{AllocError, Global};
use std::io;
use std::io::{ErrorKind, Read, Write};
use std::process::Abort;
use std::test::Fail;
use yard_io::{
    MemSink, MemSource, ReadError, Sink, Source, StdSink, StdSource, WholeSource, read_up_to,
    write_all,
};

/// Reads up to so many bytes: whether they are these.
fn reads<S: Source>(
    alloc: Global,
    source: &mut S,
    most: usize,
    wanted: &[u8],
) -> Result<bool, ReadError> {
    let bytes = read_up_to(alloc, source, most)?;
    Ok(bytes.as_slice() == wanted)
}

/// Whether memory gives what is asked for.
fn memory_gives(alloc: Global) -> Result<bool, ReadError> {
    let mut source = MemSource::new(alloc, b"abcde", &[4])?;
    reads(alloc, &mut source, 3, b"abc")
}

/// Whether memory gives all at once.
fn memory_gives_all(alloc: Global) -> Result<bool, ReadError> {
    let mut source = WholeSource::new(alloc, b"abcde")?;
    reads(alloc, &mut source, 9, b"abcde")
}

#[test]
fn memory_is_read(rt: HostRuntime) -> Result<(), Fail> {
    assert!(rt; memory_gives(rt.alloc())?);
    assert!(rt; memory_gives_all(rt.alloc())?);
    Ok(())
}

/// Whether a write, a flush and a write after it go well.
fn writes<K: Sink>(sink: &mut K) -> [bool; 3] {
    let first = write_all(sink, b"cd").is_ok();
    let flushed = sink.flush().is_ok();
    [first, flushed, write_all(sink, b"ef").is_ok()]
}

/// Whether memory takes what is written until the second write, which fails.
fn memory_takes(alloc: Global) -> Result<bool, AllocError> {
    let mut sink = MemSink::new(alloc, &[3])?;
    Ok(writes(&mut sink) == [true, true, false] && sink.bytes() == b"cd".as_slice())
}

#[test]
fn memory_is_written(rt: HostRuntime) -> Result<(), Fail> {
    assert!(rt; memory_takes(rt.alloc())?);
    Ok(())
}

/// A writer that takes three bytes at a time, and whose second write fails.
#[derive(Drop)]
struct Slow<'a> {
    to: &'a mut Vec<u8>,
    calls: u32,
}

impl Write for Slow<'_> {
    fn write(&mut self, piece: &[u8]) -> io::Result<usize> {
        self.calls = self.calls.saturating_add(1);
        if self.calls == 2 {
            return Err(io::Error::from(ErrorKind::StorageFull));
        }
        let count = piece.len().min(3);
        self.to.extend_from_slice(&piece[..count])?;
        Ok(count)
    }

    fn flush(&mut self) -> io::Result<()> {
        Ok(())
    }
}

/// How many calls failed, and of what kind the error of the last of them is.
type Faults = (u64, Option<ErrorKind>);

/// The faults of a sink.
fn faults_of<W: Write + Drop>(sink: &StdSink<W>) -> Faults {
    (sink.faults(), sink.last_error().map(|e| e.kind()))
}

/// Whether a write and two flushes go well, and what faults there are after each.
fn flushes<W: Write + Drop>(sink: &mut StdSink<W>) -> ([bool; 3], [Faults; 3]) {
    let written = write_all(sink, b"one\ntwo\n").is_ok();
    let none = faults_of(sink);
    let first = sink.flush().is_ok();
    let one = faults_of(sink);
    let second = sink.flush().is_ok();
    ([written, first, second], [none, one, faults_of(sink)])
}

/// The same over a slow writer to this text.
fn flushes_to(alloc: Global, text: &mut Vec<u8>) -> Result<([bool; 3], [Faults; 3]), AllocError> {
    let writer = Slow { to: text, calls: 0 };
    let mut sink = StdSink::new(alloc, writer)?;
    Ok(flushes(&mut sink))
}

/// Whether the first flush fails alone, and all is written.
fn writer_is_counted(alloc: Global) -> Result<bool, AllocError> {
    let mut text = Vec::new(alloc);
    let (are_well, faults) = flushes_to(alloc, &mut text)?;
    let full = (1, Some(ErrorKind::StorageFull));
    let is_counted = are_well == [true, false, true] && faults == [(0, None), full, full];
    Ok(is_counted && text.as_slice() == b"one\ntwo\n".as_slice())
}

#[test]
fn a_writer_that_fails_is_counted(rt: HostRuntime) -> Result<(), Fail> {
    assert!(rt; writer_is_counted(rt.alloc())?);
    Ok(())
}

/// A reader whose first read is interrupted and whose third fails.
#[derive(Drop)]
struct Torn {
    calls: u32,
}

impl Read for Torn {
    fn read(&mut self, buf: &mut [u8]) -> io::Result<usize> {
        self.calls = self.calls.saturating_add(1);
        match self.calls {
            1 => Err(io::Error::from(io::ErrorKind::Interrupted)),
            3 => Err(io::Error::from(ErrorKind::ConnectionReset)),
            _ => {
                let count = buf.len().min(1);
                buf[..count].fill(b'x');
                Ok(count)
            }
        }
    }
}

/// Whether reading fails.
fn fails<S: Source>(alloc: Global, source: &mut S) -> bool {
    read_up_to(alloc, source, 4).err() == Some(ReadError::Failed)
}

/// Whether a source has one fault, of a reader that was torn.
fn is_torn<R: Read>(source: &StdSource<R>) -> bool {
    let kind = source.last_error().map(|e| e.kind());
    source.faults() == 1 && kind == Some(ErrorKind::ConnectionReset)
}

/// Whether the first of two reads of this source fails, and is counted, and the second doesn't.
fn counts<R: Read>(alloc: Global, source: &mut StdSource<R>) -> Result<bool, ReadError> {
    let is_new = source.faults() == 0 && source.last_error().is_none();
    let is_failed = fails(alloc, source) && is_torn(source);
    let is_read = reads(alloc, source, 4, b"xxxx")?;
    Ok(is_new && is_failed && is_read && is_torn(source))
}

/// Whether a torn reader's first read is counted.
fn reader_is_counted(alloc: Global) -> Result<bool, ReadError> {
    let mut source = StdSource::new(Torn { calls: 0 });
    counts(alloc, &mut source)
}

#[test]
fn a_reader_that_fails_is_counted(rt: HostRuntime) -> Result<(), Fail> {
    assert!(rt; reader_is_counted(rt.alloc())?);
    Ok(())
}
