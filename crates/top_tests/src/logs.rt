//! `log` and `resume` over a disk in memory: known images, a crash before each call, and calls that fail in turn.
ghost use Rattle.std.specs.Prelude.{◌<◌};

use crate::fixtures::{run_on, run_script};
use crate::stored::{
    FIRST_COMMAND, FIRST_LOG, FIRST_TEXT, MOVED_COMMAND, OTHER_COMMAND, RESUMED_EMPTY,
    RESUMED_GRANT, RESUMED_QUEUED,
};
use disk_log::MemDisk;
use std::alloc::{AllocError, Global};
use std::process::Abort;
use std::test::Fail;
use test_streams::{Drain, Feed, WHOLE};
use yard_top::Status;

/// More calls than any run here makes.
const MOST_CALLS: u32 = 1_000;

/// Runs `log` or `resume` on a script over this disk: how it ends.
fn end_on(
    alloc: Global,
    word: &str,
    script: &[u8],
    disk: &mut MemDisk,
    sink: &mut Drain,
) -> Result<Status, AllocError> {
    let mut source = Feed::new(script, WHOLE, 0);
    run_on(alloc, &[word], &mut source, sink, disk)
}

/// The same, and whether it writes this text.
pub(crate) fn ran(
    alloc: Global,
    word: &str,
    script: &[u8],
    disk: &mut MemDisk,
    text: &[u8],
    sink: &mut Drain,
) -> Result<(Status, bool), AllocError> {
    sink.restart(WHOLE, 0);
    let end = end_on(alloc, word, script, disk, sink)?;
    Ok((end, sink.bytes() == text))
}

/// A word, a script, what the disk has, and the status and the text that come of it.
pub(crate) type Case<'a> = (&'a str, &'a [u8], &'a [u8], Status, &'a [u8]);

/// The log of the first command, with the gate of its last batch closed.
const CLOSED_AT_98: &[u8] = b"\x01\x00\x00\x00)granted coordinator 1 1.1
registered 1.1
\x01\x00\x00\x00\x16granted queue:1 1 1.1
\x01\x00\x00\x00\x14queued 1 c1 1 add 5
\x00\x00\x00\x00hallocated 0 1.1
granted shard:0 1 1.1
wrote c1 1 epoch 1 by 1:1 add 5 / added 5 / ok 5
confirmed 1 c1 1
\x00";

/// The same, cut before its last gate.
const CUT: &[u8] = b"\x01\x00\x00\x00)granted coordinator 1 1.1
registered 1.1
\x01\x00\x00\x00\x16granted queue:1 1 1.1
\x01\x00\x00\x00\x14queued 1 c1 1 add 5
\x01\x00\x00\x00hallocated 0 1.1
granted shard:0 1 1.1
wrote c1 1 epoch 1 by 1:1 add 5 / added 5 / ok 5
confirmed 1 c1 1
";

const ONE_GRANT: &[u8] = b"\x01\x00\x00\x00\x16granted queue:2 1 3.4\n\x00";

const NOTHING: &[u8] = b"report\nend\n";

const CASES: [Case<'static>; 10] = [
    (
        "resume",
        FIRST_COMMAND,
        CLOSED_AT_98,
        Status::Ok,
        RESUMED_QUEUED,
    ),
    (
        "resume",
        FIRST_COMMAND,
        ONE_GRANT,
        Status::Ok,
        RESUMED_GRANT,
    ),
    ("resume", FIRST_COMMAND, b"", Status::Ok, RESUMED_EMPTY),
    ("resume", FIRST_COMMAND, b"\x07", Status::Ok, RESUMED_EMPTY),
    (
        "resume",
        FIRST_COMMAND,
        b"\x00\x07",
        Status::Ok,
        RESUMED_EMPTY,
    ),
    (
        "resume",
        FIRST_COMMAND,
        CUT,
        Status::LogDamaged { at: 98 },
        b"",
    ),
    (
        "resume",
        FIRST_COMMAND,
        b"\x01\xff\xff\xff\xff",
        Status::LogDamaged { at: 0 },
        b"",
    ),
    (
        "resume",
        OTHER_COMMAND,
        FIRST_LOG,
        Status::LogForeign { batch: 3 },
        b"",
    ),
    ("log", FIRST_COMMAND, FIRST_LOG, Status::LogThere, b""),
    ("log", FIRST_COMMAND, b"\x00", Status::LogThere, b""),
];

/// Whether this is what a crash leaves after all calls, of which there were few.
pub(crate) fn is_left(disk: &MemDisk, image: &[u8]) -> Result<bool, AllocError> {
    let calls = disk.calls();
    if calls >= 1_000 {
        return Ok(false);
    }
    let left = disk.image(calls as u32 + 1, &[])?;
    Ok(left.as_slice() == image)
}

/// Carries a case out over a disk: whether it comes to its status and its text.
pub(crate) fn comes_out_on(
    alloc: Global,
    case: &Case<'_>,
    disk: &mut MemDisk,
    sink: &mut Drain,
) -> Result<bool, AllocError> {
    let (end, is_text) = ran(alloc, case.0, case.1, disk, case.4, sink)?;
    Ok(end == case.3 && is_text)
}

/// Whether it does over what the disk has, and leaves this image.
fn comes_out(
    alloc: Global,
    case: &Case<'_>,
    image: &[u8],
    sink: &mut Drain,
) -> Result<bool, AllocError> {
    let mut disk = MemDisk::new(alloc, case.2, &[])?;
    Ok(comes_out_on(alloc, case, &mut disk, sink)? && is_left(&disk, image)?)
}

/// What makes the first log.
const FIRST: Case<'static> = ("log", FIRST_COMMAND, b"", Status::Ok, FIRST_TEXT);

/// Whether each case does, of which the first alone alters the disk.
fn all_come_out(alloc: Global, sink: &mut Drain) -> Result<bool, AllocError> {
    for case in &CASES {
        if !comes_out(alloc, case, case.2, sink)? {
            return Ok(false);
        }
    }
    comes_out(alloc, &FIRST, FIRST_LOG, sink)
}

#[test]
fn known_logs(rt: HostRuntime) -> Result<(), Fail> {
    let mut sink = Drain::new(rt.alloc());
    assert!(rt; all_come_out(rt.alloc(), &mut sink)?);
    Ok(())
}

/// What the first report of a log of the two scripts below may be, in order.
const FIRST_REPORTS: [&[u8]; 5] = [
    NOTHING,
    b"report\nqueue 1 c1 queued 1 confirmed 0\nend\n",
    b"report
entity c1 shard 0 records 1 state 5
record 1 epoch 1 by 1:1 add 5 / added 5 / ok 5
queue 1 c1 queued 1 confirmed 1
end
",
    b"report
entity c1 shard 0 records 1 state 5
record 1 epoch 1 by 1:1 add 5 / added 5 / ok 5
queue 1 c1 queued 2 confirmed 1
end
",
    b"report
entity c1 shard 0 records 2 state 6
record 1 epoch 1 by 1:1 add 5 / added 5 / ok 5
record 2 epoch 2 by 1:2 add 1 / added 1 / ok 6
queue 1 c1 queued 2 confirmed 2
end
",
];

/// Which of these reports begins a text.
fn first_report(text: &[u8]) -> Option<usize> {
    for (k, report) in FIRST_REPORTS.iter().enumerate() {
        if text.starts_with(report) {
            return Some(k);
        }
    }
    None
}

/// Which report comes first in the text of a run, which is to end well and to have each command confirmed.
fn report_in(end: Status, text: &[u8], confirmed: &[u8]) -> Option<usize> {
    if end != Status::Ok || !text.ends_with(confirmed) {
        return None;
    }
    first_report(text)
}

/// Goes on from this image: which report comes first.
fn resumed(
    alloc: Global,
    script: &[u8],
    image: &[u8],
    confirmed: &[u8],
    sink: &mut Drain,
) -> Result<Option<usize>, AllocError> {
    sink.restart(WHOLE, 0);
    let mut disk = MemDisk::new(alloc, image, &[])?;
    let end = end_on(alloc, "resume", script, &mut disk, sink)?;
    Ok(report_in(end, sink.bytes(), confirmed))
}

/// Goes on from what a crash before this call leaves, with these bytes where any may be: which report comes first.
fn crashed(
    alloc: Global,
    script: &[u8],
    disk: &MemDisk,
    call: u32,
    torn: &[u8],
    confirmed: &[u8],
    sink: &mut Drain,
) -> Result<Option<usize>, AllocError>
    requires { 0 < call }
{
    if call as usize - 1 > disk.calls() {
        return Ok(None);
    }
    let image = disk.image(call, torn)?;
    resumed(alloc, script, image.as_slice(), confirmed, sink)
}

/// The bytes that may be any, of three kinds.
pub(crate) const TORN: [&[u8]; 3] = [&[0; 256], &[1; 256], &[]];

/// The same for three kinds of bytes, each with at least this report: which the last one has.
fn crashed_before(
    alloc: Global,
    script: &[u8],
    disk: &MemDisk,
    call: u32,
    confirmed: &[u8],
    least: usize,
    sink: &mut Drain,
) -> Result<Option<usize>, AllocError>
    requires { 0 < call }
{
    let mut last = least;
    for torn in &TORN {
        match crashed(alloc, script, disk, call, torn, confirmed, sink)? {
            Some(report) if least <= report => last = report,
            _ => return Ok(None),
        }
    }
    Ok(Some(last))
}

/// The same before each call in turn, where what was there is there ever after: which report comes first at the end.
fn crashed_in_turn(
    alloc: Global,
    script: &[u8],
    disk: &MemDisk,
    confirmed: &[u8],
    sink: &mut Drain,
) -> Result<Option<usize>, AllocError> {
    let mut before = 0;
    for call in 1..MOST_CALLS {
        if call as usize > disk.calls().saturating_add(1) {
            break;
        }
        match crashed_before(alloc, script, disk, call, confirmed, before, sink)? {
            Some(report) => before = report,
            None => return Ok(None),
        }
    }
    Ok(Some(before))
}

/// Logs a script, and crashes before each call: which report comes first at the end.
fn last_report(
    alloc: Global,
    script: &[u8],
    confirmed: &[u8],
    sink: &mut Drain,
) -> Result<Option<usize>, AllocError> {
    let mut disk = MemDisk::new(alloc, &[], &[])?;
    match ran(alloc, "log", script, &mut disk, &[], sink)? {
        (Status::Ok, _) => crashed_in_turn(alloc, script, &disk, confirmed, sink),
        _ => Ok(None),
    }
}

/// The end of a text of one command, and of two.
const ONE_CONFIRMED: &[u8] = b"queue 1 c1 queued 1 confirmed 1\nend\n";

const TWO_CONFIRMED: &[u8] = b"queue 1 c1 queued 2 confirmed 2\nend\n";

/// Whether the last reports of two scripts confirm their commands.
fn all_are_confirmed(alloc: Global, sink: &mut Drain) -> Result<bool, AllocError> {
    Ok(
        last_report(alloc, FIRST_COMMAND, ONE_CONFIRMED, sink)? == Some(2)
            && last_report(alloc, MOVED_COMMAND, TWO_CONFIRMED, sink)? == Some(4),
    )
}

/// A crash before each call: what was there is there ever after.
#[test]
fn each_crash(rt: HostRuntime) -> Result<(), Fail> {
    let mut sink = Drain::new(rt.alloc());
    assert!(rt; all_are_confirmed(rt.alloc(), &mut sink)?);
    Ok(())
}

/// Runs a form over this image, and the call after so many fails: how it ends, and how many calls there were.
fn end_at_call(
    alloc: Global,
    word: &str,
    script: &[u8],
    image: &[u8],
    done: u32,
    sink: &mut Drain,
) -> Result<(Status, usize), AllocError>
    requires { done < 1000 }
{
    let mut disk = MemDisk::new(alloc, image, &[done + 1])?;
    let end = end_on(alloc, word, script, &mut disk, sink)?;
    Ok((end, disk.calls()))
}

/// Whether a run wrote this text and made no further call where it ended well, and else wrote a front of it and
/// ended by the disk's fault; and whether it ended well. None where it did something else.
fn judged(end: Status, is_all: bool, bytes: &[u8], text: &[u8]) -> Option<bool> {
    match end {
        Status::Ok if is_all && bytes == text => Some(true),
        Status::DiskFault if text.starts_with(bytes) => Some(false),
        _ => None,
    }
}

/// Whether a run ends well where the call after so many fails; None where it does something else than it is to.
fn fail_call(
    alloc: Global,
    word: &str,
    script: &[u8],
    image: &[u8],
    text: &[u8],
    done: u32,
    sink: &mut Drain,
) -> Result<Option<bool>, AllocError>
    requires { done < 1000 }
{
    sink.restart(WHOLE, 0);
    let (end, calls) = end_at_call(alloc, word, script, image, done, sink)?;
    Ok(judged(end, calls == done as usize, sink.bytes(), text))
}

/// Runs a form over this image again and again, and each time the next call of the disk fails, until none does:
/// whether each run does what it is to.
pub(crate) fn fail_in_turn(
    alloc: Global,
    word: &str,
    script: &[u8],
    image: &[u8],
    text: &[u8],
    sink: &mut Drain,
) -> Result<bool, AllocError> {
    for done in 0..MOST_CALLS {
        match fail_call(alloc, word, script, image, text, done, sink)? {
            Some(false) => {}
            end => return Ok(end.is_some()),
        }
    }
    Ok(false)
}

/// Whether each run of two forms does.
fn all_fail_in_turn(alloc: Global, sink: &mut Drain) -> Result<bool, AllocError> {
    Ok(
        fail_in_turn(alloc, "log", FIRST_COMMAND, b"", FIRST_TEXT, sink)?
            && fail_in_turn(
                alloc,
                "resume",
                FIRST_COMMAND,
                CLOSED_AT_98,
                RESUMED_QUEUED,
                sink,
            )?,
    )
}

#[test]
fn each_call_fails(rt: HostRuntime) -> Result<(), Fail> {
    let mut sink = Drain::new(rt.alloc());
    assert!(rt; all_fail_in_turn(rt.alloc(), &mut sink)?);
    Ok(())
}

/// Words that use no disk leave it alone, and a script that is refused does.
const WITHOUT_DISK: [(&str, &[u8]); 4] = [
    ("replay", FIRST_COMMAND),
    ("log", b"config\nupgrade\n"),
    ("resume", b"config\nreshard 1\n"),
    ("apply", b"config\ngo\n"),
];

/// Whether a run makes no call of a disk that has a log.
fn is_left_alone(
    alloc: Global,
    word: &str,
    script: &[u8],
    sink: &mut Drain,
) -> Result<bool, AllocError> {
    let mut disk = MemDisk::new(alloc, FIRST_LOG, &[1])?;
    ran(alloc, word, script, &mut disk, &[], sink)?;
    Ok(disk.calls() == 0)
}

/// Whether none of these does, and another word is no form.
fn are_left_alone(alloc: Global, sink: &mut Drain) -> Result<bool, AllocError> {
    for (word, script) in &WITHOUT_DISK {
        if !is_left_alone(alloc, word, script, sink)? {
            return Ok(false);
        }
    }
    Ok(run_script(alloc, &["resumes"], FIRST_COMMAND, sink)? == Status::Usage)
}

#[test]
fn no_call_is_made(rt: HostRuntime) -> Result<(), Fail> {
    let mut sink = Drain::new(rt.alloc());
    assert!(rt; are_left_alone(rt.alloc(), &mut sink)?);
    Ok(())
}
