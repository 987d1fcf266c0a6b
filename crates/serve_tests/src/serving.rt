//! `serve` over a disk in memory: known lines and logs, a stop before each call and the lines once more, and calls that
//! fail in turn.
ghost use Rattle.std.specs.Prelude.{◌<◌};

use crate::served::{
    CASES, CUTS, Case, FIRST, FIRST_LOG, FOREIGN, HOSTILE, LONG, LONGER, Long, NEXT_LOG, ROWS, Row,
};
use disk_log::MemDisk;
use serve_run::{Status, serve};
use std::alloc::{AllocError, Global};
use std::process::Abort;
use std::test::Fail;
use test_streams::{A_BYTE, Drain, Feed, Nowhere, WHOLE};
use yard_io::{Sink, StdSink};

/// More calls than any run here makes.
const MOST_CALLS: u32 = 1_000;

/// How many bytes come with a read.
fn piece(is_slow: bool) -> usize
    ensures { 0 < result }
{
    if is_slow { A_BYTE } else { WHOLE }
}

/// Serves these lines over this disk, and the read of this number fails; none where it is 0. (All runs go through here,
/// since each call of `serve` costs its proof much.)
fn end_on<K: Sink>(
    alloc: Global,
    lines: &[u8],
    is_slow: bool,
    read: u32,
    disk: &mut MemDisk,
    sink: &mut K,
) -> Status {
    let mut source = Feed::new(lines, piece(is_slow), read);
    serve(alloc, &mut source, sink, disk)
}

/// Serves these lines over this disk to a sink that takes all of it: how it ends.
fn end_of(
    alloc: Global,
    lines: &[u8],
    is_slow: bool,
    disk: &mut MemDisk,
    sink: &mut Drain,
) -> Status {
    sink.restart(WHOLE, 0);
    end_on(alloc, lines, is_slow, 0, disk, sink)
}

/// What a stop now would leave on this disk, with these bytes where any may be; None after too many calls.
fn left_on(disk: &MemDisk, torn: &[u8]) -> Result<Option<Vec<u8>>, AllocError> {
    let calls = disk.calls();
    if calls >= MOST_CALLS as usize {
        return Ok(None);
    }
    Ok(Some(disk.image(calls as u32 + 1, torn)?))
}

/// Whether this stands on a disk.
fn is_left(disk: &MemDisk, left: &[u8]) -> Result<bool, AllocError> {
    match left_on(disk, &[])? {
        Some(image) => Ok(image.as_slice() == left),
        None => Ok(false),
    }
}

/// Whether a disk begins with this.
fn begins(disk: &MemDisk, left: &[u8]) -> Result<bool, AllocError> {
    match left_on(disk, &[])? {
        Some(image) => Ok(image.as_slice().starts_with(left)),
        None => Ok(false),
    }
}

/// Whether a run over this log is answered so, ends so, and leaves this.
fn is_served(
    alloc: Global,
    log: &[u8],
    lines: &[u8],
    is_slow: bool,
    end: Status,
    answers: &[u8],
    left: &[u8],
    sink: &mut Drain,
) -> Result<bool, AllocError> {
    let mut disk = MemDisk::new(alloc, log, &[])?;
    let is_end = end_of(alloc, lines, is_slow, &mut disk, sink) == end;
    Ok(is_end && sink.bytes() == answers && is_left(&disk, left)?)
}

/// Whether a known run is as it is to be.
fn comes_out(alloc: Global, row: &Row<'_>, sink: &mut Drain) -> Result<bool, AllocError> {
    let (end, answers) = (row.end, row.answers);
    is_served(
        alloc,
        row.log,
        row.lines,
        row.is_slow,
        end,
        answers,
        row.left,
        sink,
    )
}

/// Whether all are.
fn all_come_out(alloc: Global, sink: &mut Drain) -> Result<bool, AllocError> {
    for row in &ROWS {
        if !comes_out(alloc, row, sink)? {
            return Ok(false);
        }
    }
    Ok(true)
}

/// Whether a log is refused for this frame, and left as it is.
fn is_foreign(alloc: Global, log: &[u8], frame: u32, sink: &mut Drain) -> Result<bool, AllocError> {
    let end = Status::LogForeign { frame };
    is_served(alloc, log, b"report\n", false, end, b"", log, sink)
}

/// Whether all these are.
fn are_foreign(alloc: Global, sink: &mut Drain) -> Result<bool, AllocError> {
    for (log, frame) in &FOREIGN {
        if !is_foreign(alloc, log, *frame, sink)? {
            return Ok(false);
        }
    }
    Ok(true)
}

#[test]
fn a_log_of_others_is_refused(rt: HostRuntime) -> Result<(), Fail> {
    let mut sink = Drain::new(rt.alloc());
    assert!(rt; are_foreign(rt.alloc(), &mut sink)?);
    Ok(())
}

#[test]
fn known_runs(rt: HostRuntime) -> Result<(), Fail> {
    let mut sink = Drain::new(rt.alloc());
    assert!(rt; all_come_out(rt.alloc(), &mut sink)?);
    Ok(())
}

/// So many bytes, and these behind them.
fn long_lines(alloc: Global, count: usize, behind: &[u8]) -> Result<Vec<u8>, AllocError> {
    let mut lines = vec![in alloc; b'x'; count]?;
    lines.extend_from_slice(behind)?;
    Ok(lines)
}

/// Whether a line of many bytes is served as it is to be.
fn long_comes_out(alloc: Global, long: &Long<'_>, sink: &mut Drain) -> Result<bool, AllocError> {
    let lines = long_lines(alloc, long.0, long.1)?;
    is_served(
        alloc,
        b"",
        lines.as_slice(),
        false,
        Status::Served,
        long.2,
        long.3,
        sink,
    )
}

/// Whether all are.
fn all_long_come_out(alloc: Global, sink: &mut Drain) -> Result<bool, AllocError> {
    for long in &LONG {
        if !long_comes_out(alloc, long, sink)? {
            return Ok(false);
        }
    }
    Ok(true)
}

#[test]
fn long_lines_are_refused(rt: HostRuntime) -> Result<(), Fail> {
    let mut sink = Drain::new(rt.alloc());
    assert!(rt; all_long_come_out(rt.alloc(), &mut sink)?);
    Ok(())
}

/// The hostile lines, each with its end, and what is answered to all.
fn hostile(alloc: Global) -> Result<(Vec<u8>, Vec<u8>), AllocError> {
    let mut lines = Vec::new(alloc);
    let mut answers = Vec::new(alloc);
    for (line, answer) in &HOSTILE {
        lines.extend_from_slice(line)?;
        lines.push(b'\n')?;
        answers.extend_from_slice(answer)?;
    }
    Ok((lines, answers))
}

/// Whether they are answered so over the first log, whole and a byte a read, and write nothing.
fn hostile_are_answered(alloc: Global, sink: &mut Drain) -> Result<bool, AllocError> {
    let (lines, answers) = hostile(alloc)?;
    for is_slow in [false, true] {
        let is_so = is_served(
            alloc,
            FIRST_LOG,
            lines.as_slice(),
            is_slow,
            Status::Served,
            answers.as_slice(),
            FIRST_LOG,
            sink,
        )?;
        if !is_so {
            return Ok(false);
        }
    }
    Ok(true)
}

#[test]
fn hostile_lines_are_answered(rt: HostRuntime) -> Result<(), Fail> {
    let mut sink = Drain::new(rt.alloc());
    assert!(rt; hostile_are_answered(rt.alloc(), &mut sink)?);
    Ok(())
}

/// Where the second log is damaged, cut to this length, if it is.
fn damage(length: usize) -> Option<u64> {
    for (first, end, at) in &CUTS {
        if *first <= length && length < *end {
            return Some(*at);
        }
    }
    None
}

/// Whether the second log, cut to this length, is refused and left as it is.
fn cut_is_refused(alloc: Global, length: usize, sink: &mut Drain) -> Result<bool, AllocError>
    requires { length < 661 }
{
    let Some(at) = damage(length) else {
        return Ok(false);
    };
    let log = &NEXT_LOG[..length];
    is_served(
        alloc,
        log,
        b"report\n",
        false,
        Status::LogDamaged { at },
        b"",
        log,
        sink,
    )
}

/// Whether that is so of each length that leaves more than a gate.
fn cuts_are_refused(alloc: Global, sink: &mut Drain) -> Result<bool, AllocError> {
    for length in 2..661 {
        if !cut_is_refused(alloc, length, sink)? {
            return Ok(false);
        }
    }
    Ok(true)
}

#[test]
fn a_cut_log_is_refused(rt: HostRuntime) -> Result<(), Fail> {
    let mut sink = Drain::new(rt.alloc());
    assert!(rt; cuts_are_refused(rt.alloc(), &mut sink)?);
    Ok(())
}

/// Which calls fail, each in a run of its own.
#[derive(Clone, Copy)]
enum Calls {
    /// The reads of the source.
    Reads,
    /// The writes and flushes of a sink that takes one byte a call.
    Writes,
    /// Those of a sink that takes whole pieces.
    Pieces,
    /// Those of the disk.
    Disk,
}

/// How a run ends whose call failed.
fn fault_of(calls: Calls) -> Status {
    match calls {
        Calls::Reads => Status::ReadFault,
        Calls::Writes | Calls::Pieces => Status::WriteFault,
        Calls::Disk => Status::DiskFault,
    }
}

/// Whether there are so many calls as there are to be where none failed: a read for each byte, or one, and one more that
/// finds the end; a write for each byte, or one for each group, and a flush for each group.
fn are_all(calls: Calls, case: &Case<'_>, done: usize) -> bool {
    let reads = if case.is_slow { case.lines.len() } else { 1 };
    match calls {
        Calls::Reads => done == reads.saturating_add(1),
        Calls::Writes => done == case.answers.len().saturating_add(case.groups),
        Calls::Pieces => done == case.groups.saturating_add(case.groups),
        Calls::Disk => done == case.calls,
    }
}

/// Serves the lines of a case, and this call fails: how it ends.
fn end_at_call(
    alloc: Global,
    case: &Case<'_>,
    calls: Calls,
    call: u32,
    disk: &mut MemDisk,
    sink: &mut Drain,
) -> Status {
    match calls {
        Calls::Reads => sink.restart(WHOLE, 0),
        Calls::Writes => sink.restart(A_BYTE, call),
        Calls::Pieces => sink.restart(WHOLE, call),
        Calls::Disk => sink.restart(WHOLE, 0),
    }
    let read = if let Calls::Reads = calls { call } else { 0 };
    end_on(alloc, case.lines, case.is_slow, read, disk, sink)
}

/// A disk with the log of a case, whose call of this number fails, if it is the disk's calls that do.
fn disk_of(alloc: Global, case: &Case<'_>, calls: Calls, call: u32) -> Result<MemDisk, AllocError> {
    match calls {
        Calls::Disk => MemDisk::new(alloc, case.log, &[call]),
        Calls::Reads | Calls::Writes | Calls::Pieces => MemDisk::new(alloc, case.log, &[]),
    }
}

/// How many lines these bytes end.
fn count_lines(bytes: &[u8]) -> usize {
    bytes.iter().filter(|b| **b == b'\n').count()
}

/// The first so many lines of these bytes.
fn first_lines(bytes: &[u8], count: usize) -> &[u8] {
    let mut seen = 0_usize;
    for (place, byte) in bytes.iter().enumerate() {
        if seen >= count {
            return &bytes[..place];
        }
        if *byte == b'\n' {
            seen = seen.saturating_add(1);
        }
    }
    bytes
}

/// Whether a log has the first so many lines of a case: they are answered, and nothing is written.
fn has_lines(
    alloc: Global,
    case: &Case<'_>,
    count: usize,
    log: &[u8],
    sink: &mut Drain,
) -> Result<bool, AllocError> {
    if count == 0 {
        return Ok(true);
    }
    is_served(
        alloc,
        log,
        first_lines(case.lines, count),
        case.is_slow,
        Status::Served,
        first_lines(case.answers, count),
        log,
        sink,
    )
}

/// Whether a log is gone on with as if its run hadn't been stopped.
fn is_gone_on_with(
    alloc: Global,
    case: &Case<'_>,
    log: &[u8],
    sink: &mut Drain,
) -> Result<bool, AllocError> {
    let mut disk = MemDisk::new(alloc, log, &[])?;
    let end = end_of(alloc, case.again, case.is_slow, &mut disk, sink);
    let is_answered = end == Status::Served && sink.bytes() == case.answers_again;
    Ok(is_answered && begins(&disk, case.left)?)
}

/// The bytes that may be any, of three kinds.
const TORN: [&[u8]; 3] = [&[0; 512], &[1; 512], &[]];

/// Whether what a stop leaves, with these bytes where any may be, has so many lines of a case and is gone on with.
fn is_kept_torn(
    alloc: Global,
    case: &Case<'_>,
    count: usize,
    disk: &MemDisk,
    torn: &[u8],
    sink: &mut Drain,
) -> Result<bool, AllocError> {
    let Some(log) = left_on(disk, torn)? else {
        return Ok(false);
    };
    Ok(
        has_lines(alloc, case, count, log.as_slice(), sink)?
            && is_gone_on_with(alloc, case, log.as_slice(), sink)?,
    )
}

/// Whether that is so whatever these bytes are.
fn is_kept(
    alloc: Global,
    case: &Case<'_>,
    count: usize,
    disk: &MemDisk,
    sink: &mut Drain,
) -> Result<bool, AllocError> {
    for torn in &TORN {
        if !is_kept_torn(alloc, case, count, disk, torn, sink)? {
            return Ok(false);
        }
    }
    Ok(true)
}

/// Whether a run in which a call fails, if it comes, ends as it is to, and what it told is there whatever a stop leaves;
/// and whether the call didn't come. None where it isn't so.
fn fail_call(
    alloc: Global,
    case: &Case<'_>,
    calls: Calls,
    done: u32,
    sink: &mut Drain,
) -> Result<Option<bool>, AllocError>
    requires { done < 1000 }
{
    let mut disk = disk_of(alloc, case, calls, done + 1)?;
    let end = end_at_call(alloc, case, calls, done + 1, &mut disk, sink);
    let told = sink.bytes();
    let is_over = end == Status::Served;
    let is_so = if is_over {
        told == case.answers && are_all(calls, case, done as usize)
    } else {
        end == fault_of(calls) && case.answers.starts_with(told)
    };
    let count = count_lines(told);
    if is_so && is_kept(alloc, case, count, &disk, sink)? {
        Ok(Some(is_over))
    } else {
        Ok(None)
    }
}

/// Serves the lines of a case again and again, and each time the next call fails, until none does: whether each run is
/// as it is to be.
fn fail_in_turn(
    alloc: Global,
    case: &Case<'_>,
    calls: Calls,
    sink: &mut Drain,
) -> Result<bool, AllocError> {
    for done in 0..MOST_CALLS {
        match fail_call(alloc, case, calls, done, sink)? {
            Some(false) => {}
            end => return Ok(end.is_some()),
        }
    }
    Ok(false)
}

/// Whether that is so of each case.
fn all_fail_in_turn(alloc: Global, calls: Calls, sink: &mut Drain) -> Result<bool, AllocError> {
    for case in &CASES {
        if !fail_in_turn(alloc, case, calls, sink)? {
            return Ok(false);
        }
    }
    Ok(true)
}

#[test]
fn each_read_fails(rt: HostRuntime) -> Result<(), Fail> {
    let mut sink = Drain::new(rt.alloc());
    assert!(rt; all_fail_in_turn(rt.alloc(), Calls::Reads, &mut sink)?);
    Ok(())
}

#[test]
fn each_write_fails(rt: HostRuntime) -> Result<(), Fail> {
    let mut sink = Drain::new(rt.alloc());
    assert!(rt; all_fail_in_turn(rt.alloc(), Calls::Writes, &mut sink)?);
    assert!(rt; all_fail_in_turn(rt.alloc(), Calls::Pieces, &mut sink)?);
    Ok(())
}

/// A stop before each call of the disk.
#[test]
fn each_stop(rt: HostRuntime) -> Result<(), Fail> {
    let mut sink = Drain::new(rt.alloc());
    assert!(rt; all_fail_in_turn(rt.alloc(), Calls::Disk, &mut sink)?);
    assert!(rt; fail_in_turn(rt.alloc(), &LONGER, Calls::Disk, &mut sink)?);
    Ok(())
}

/// Whether a run over a writer which takes nothing ends so, its sink has failed once, and what it would have told is on
/// the disk.
fn nothing_is_told(alloc: Global) -> Result<bool, AllocError> {
    let mut disk = MemDisk::new(alloc, &[], &[])?;
    let mut sink = StdSink::new(alloc, Nowhere)?;
    let end = end_on(alloc, FIRST, false, 0, &mut disk, &mut sink);
    Ok(end == Status::WriteFault && sink.faults() == 1)
}

#[test]
fn nothing_is_taken(rt: HostRuntime) -> Result<(), Fail> {
    assert!(rt; nothing_is_told(rt.alloc())?);
    Ok(())
}
