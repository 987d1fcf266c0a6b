//! Arguments, streams and a disk in, a text and a status out.
ghost use Rattle.std.specs.Prelude.{◌≡◌, ◌<◌, drop, IfOk, IfErr, IfSome, IfNone, OnOk, OnErr};
ghost use Rattle.std.specs.IoError.{error_kind};
ghost use Rattle.std.specs.declared.io.ErrorKind.TheVariants as kind;
ghost use Rattle.program_words.specs.Forms.{form_on};
ghost use Rattle.program_words.specs.Notices.{notice_in, text_of};
ghost use Rattle.yard_io.specs.Told.{followed_by, count_of};
ghost use Rattle.yard_top.specs.Disks.{platter};
ghost use Rattle.yard_top.specs.Ends.{streams};
ghost use Rattle.yard_top.specs.Ended.{Ended, Noticed, HasNoWords, IsTold};

use crate::top::sharder_on;
use disk_log::Disk;
use program_words::{Notice, Status, notice_of, words_of};
use std::alloc::Global;
use std::io;
use std::sync::Wait;
use std::thread::Threads;
use yard_io::{Failed, Gate, Sink, Source, write_all};

/// Runs the program on what came of asking for its arguments, of which the first is its name: what
/// `sharder_on` does with the words after it, or a notice that they ask for.
pub fn run<R: Threads + Wait + Sync, S: Source, K: Sink, G: Gate + Sync, D: Disk>(
    rt: &R,
    alloc: Global,
    arguments: io::Result<Vec<String>>,
    source: &mut S,
    sink: &mut K,
    gate: &G,
    disk: &mut D,
) -> Status
    // The arguments couldn't be had: there was no memory for them, or one isn't text.
    ensures no_words { IfErr arguments (λ e. HasNoWords
        (streams (S.left source.old) (S.faults source.old) (K.taken sink.old) (K.flushed sink.old) (K.faults sink.old))
        (streams (S.left source.new) (S.faults source.new) (K.taken sink.new) (K.flushed sink.new) (K.faults sink.new))
        (error_kind e ≡ kind.OutOfMemory) (disk.new ≡ disk.old) result) }
    // They ask for a notice.
    ensures notice { IfOk arguments (λ all. IfSome (notice_in (drop 1 all.items)) (λ n. Noticed n
        (streams (S.left source.old) (S.faults source.old) (K.taken sink.old) (K.flushed sink.old) (K.faults sink.old))
        (streams (S.left source.new) (S.faults source.new) (K.taken sink.new) (K.flushed sink.new) (K.faults sink.new)) (disk.new ≡ disk.old) result)) }
    // They don't: what is done is what `sharder_on` says of the words.
    ensures ended { IfOk arguments (λ all. IfNone (notice_in (drop 1 all.items)) (Ended (form_on (drop 1 all.items)) D.tells
        (streams (S.left source.old) (S.faults source.old) (K.taken sink.old) (K.flushed sink.old) (K.faults sink.old))
        (streams (S.left source.new) (S.faults source.new) (K.taken sink.new) (K.flushed sink.new) (K.faults sink.new))
        (platter (D.content disk.old) (D.images disk.old) (D.faults disk.old)) (platter (D.content disk.new) (D.images disk.new) (D.faults disk.new)) (disk.new ≡ disk.old) result)) }
{
    match words_of(arguments) {
        Ok(words) => run_words(rt, alloc, words.as_slice(), source, sink, gate, disk),
        Err(status) => status,
    }
}

/// Does what these words ask for.
fn run_words<R: Threads + Wait + Sync, S: Source, K: Sink, G: Gate + Sync, D: Disk>(
    rt: &R,
    alloc: Global,
    words: &[String],
    source: &mut S,
    sink: &mut K,
    gate: &G,
    disk: &mut D,
) -> Status
    ensures notice { IfSome (notice_in words.now) (λ n. Noticed n
        (streams (S.left source.old) (S.faults source.old) (K.taken sink.old) (K.flushed sink.old) (K.faults sink.old))
        (streams (S.left source.new) (S.faults source.new) (K.taken sink.new) (K.flushed sink.new) (K.faults sink.new)) (disk.new ≡ disk.old) result) }
    ensures ended { IfNone (notice_in words.now) (Ended (form_on words.now) D.tells
        (streams (S.left source.old) (S.faults source.old) (K.taken sink.old) (K.flushed sink.old) (K.faults sink.old))
        (streams (S.left source.new) (S.faults source.new) (K.taken sink.new) (K.flushed sink.new) (K.faults sink.new))
        (platter (D.content disk.old) (D.images disk.old) (D.faults disk.old)) (platter (D.content disk.new) (D.images disk.new) (D.faults disk.new)) (disk.new ≡ disk.old) result) }
{
    match notice_of(words) {
        Some(notice) => tell(notice, sink),
        None => sharder_on(rt, alloc, words, source, sink, gate, disk),
    }
}

/// Writes a notice.
fn tell<K: Sink>(notice: Notice, sink: &mut K) -> Status
    ensures { IsTold (text_of notice) (record { bytes = K.taken sink.old; flushed = K.flushed sink.old })
        (record { bytes = K.taken sink.new; flushed = K.flushed sink.new }) (K.faults sink.old) (K.faults sink.new) result }
{
    match write_whole(notice.text().as_bytes(), sink) {
        Ok(()) => Status::Ok,
        Err(_) => Status::WriteFault,
    }
}

/// Writes all the bytes, and flushes them.
fn write_whole<K: Sink>(text: &[u8], sink: &mut K) -> Result<(), Failed>
    ensures ok { OnOk result (K.taken sink.new ≡ followed_by (K.taken sink.old) text.now) }
    ensures flushed { OnOk result (K.flushed sink.new ≡ count_of (K.taken sink.new)) }
    ensures err { OnErr result (K.faults sink.old < K.faults sink.new) }
{
    write_all(sink, text)?;
    sink.flush()
}
