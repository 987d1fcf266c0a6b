//! `apply` over a disk in memory: known images, a stop before each call and another run, and calls that fail in turn.
ghost use Rattle.std.specs.Prelude.{◌<◌};

use crate::logs::{Case, TORN, comes_out_on, fail_in_turn, is_left, ran};
use crate::stored::MOVED_COMMAND;
use disk_log::MemDisk;
use script_text::Why;
use std::alloc::{AllocError, Global};
use std::process::Abort;
use std::test::Fail;
use test_streams::Drain;
use yard_top::Status;

/// One command, and one more behind it.
const ONE: &[u8] = b"config nodes=1 shards=1 producers=1\nsend 1 c1 add 5\n";

const TWO: &[u8] = b"config nodes=1 shards=1 producers=1\nsend 1 c1 add 5\nsend 1 c1 add 6\n";

/// A command in the place of the first.
const ANOTHER: &[u8] = b"config nodes=1 shards=1 producers=1\nsend 1 c1 add 7\n";

/// The two commands with other orders between them.
const ORDERED: &[u8] = b"config nodes=1 shards=1 producers=1
up 1
pump 20
produce 1 1
send 1 c1 add 5
send 1 c1 add 6
pump 20
";

/// The log of the one command, its report, and the same of both.
const ONE_LOG: &[u8] = b"\x01\x00\x00\x01\x07granted coordinator 1 1.1
registered 1.1
granted queue:1 1 1.1
queued 1 c1 1 add 5
allocated 0 1.1
granted shard:0 1 1.1
wrote c1 1 epoch 1 by 1:1 add 5 / added 5 / ok 5
confirmed 1 c1 1
freed shard:0 1 stopped
freed coordinator 1 stopped
freed queue:1 1 stopped
\x00";

const ONE_REPORT: &[u8] = b"report
entity c1 shard 0 records 1 state 5
record 1 epoch 1 by 1:1 add 5 / added 5 / ok 5
queue 1 c1 queued 1 confirmed 1
end
";

const TWO_LOG: &[u8] = b"\x01\x00\x00\x01\x07granted coordinator 1 1.1
registered 1.1
granted queue:1 1 1.1
queued 1 c1 1 add 5
allocated 0 1.1
granted shard:0 1 1.1
wrote c1 1 epoch 1 by 1:1 add 5 / added 5 / ok 5
confirmed 1 c1 1
freed shard:0 1 stopped
freed coordinator 1 stopped
freed queue:1 1 stopped
\x01\x00\x00\x01\x17granted coordinator 2 1.2
terminated 1.1
registered 1.2
granted queue:1 2 1.2
queued 1 c1 2 add 6
allocated 0 1.2
granted shard:0 2 1.2
wrote c1 2 epoch 2 by 1:2 add 6 / added 6 / ok 11
confirmed 1 c1 2
freed shard:0 2 stopped
freed coordinator 2 stopped
freed queue:1 2 stopped
\x00";

const TWO_REPORT: &[u8] = b"report
entity c1 shard 0 records 2 state 11
record 1 epoch 1 by 1:1 add 5 / added 5 / ok 5
record 2 epoch 2 by 1:2 add 6 / added 6 / ok 11
queue 1 c1 queued 2 confirmed 2
end
";

/// What `log` leaves of the two commands where it is killed while its last batch is written.
const KILLED_LOG: &[u8] = b"\x01\x00\x00\x00)granted coordinator 1 1.1
registered 1.1
\x01\x00\x00\x00\x16granted queue:1 1 1.1
\x01\x00\x00\x00\x14queued 1 c1 1 add 5
\x01\x00\x00\x00\x14queued 1 c1 2 add 6
\x00\x00\x00\x00\xaballocated 0 1.1
granted s";

/// The same, gone on with.
const MENDED_LOG: &[u8] = b"\x01\x00\x00\x00)granted coordinator 1 1.1
registered 1.1
\x01\x00\x00\x00\x16granted queue:1 1 1.1
\x01\x00\x00\x00\x14queued 1 c1 1 add 5
\x01\x00\x00\x00\x14queued 1 c1 2 add 6
\x01\x00\x00\x01\x79freed coordinator 1 stopped
freed queue:1 1 stopped
granted coordinator 2 1.2
terminated 1.1
registered 1.2
granted queue:1 2 1.2
allocated 0 1.2
granted shard:0 1 1.2
wrote c1 1 epoch 1 by 1:1 add 5 / added 5 / ok 5
confirmed 1 c1 1
wrote c1 2 epoch 1 by 1:2 add 6 / added 6 / ok 11
confirmed 1 c1 2
freed shard:0 1 stopped
freed coordinator 2 stopped
freed queue:1 2 stopped
\x00";

const MENDED_REPORT: &[u8] = b"report
entity c1 shard 0 records 2 state 11
record 1 epoch 1 by 1:1 add 5 / added 5 / ok 5
record 2 epoch 1 by 1:2 add 6 / added 6 / ok 11
queue 1 c1 queued 2 confirmed 2
end
";

/// What two commands of the one that moves to another node come to.
const MOVED_REPORT: &[u8] = b"report
entity c1 shard 0 records 2 state 6
record 1 epoch 1 by 1:1 add 5 / added 5 / ok 5
record 2 epoch 1 by 1:2 add 1 / added 1 / ok 6
queue 1 c1 queued 2 confirmed 2
end
";

/// The log of one command, cut by a byte.
const CUT_LOG: &[u8] = b"\x01\x00\x00\x01\x07granted coordinator 1 1.1
registered 1.1
granted queue:1 1 1.1
queued 1 c1 1 add 5
allocated 0 1.1
granted shard:0 1 1.1
wrote c1 1 epoch 1 by 1:1 add 5 / added 5 / ok 5
confirmed 1 c1 1
freed shard:0 1 stopped
freed coordinator 1 stopped
freed queue:1 1 stopped
";

/// A case, how many calls of the disk it makes, and what a crash leaves behind them.
type Run<'a> = (Case<'a>, usize, &'a [u8]);

const RUNS: [Run<'static>; 9] = [
    (("apply", ONE, b"", Status::Ok, ONE_REPORT), 8, ONE_LOG),
    (("apply", ONE, b"\x07", Status::Ok, ONE_REPORT), 8, ONE_LOG),
    (("apply", ONE, ONE_LOG, Status::Ok, ONE_REPORT), 3, ONE_LOG),
    (("apply", TWO, ONE_LOG, Status::Ok, TWO_REPORT), 7, TWO_LOG),
    (
        ("apply", ORDERED, KILLED_LOG, Status::Ok, MENDED_REPORT),
        7,
        MENDED_LOG,
    ),
    (
        (
            "apply",
            ANOTHER,
            ONE_LOG,
            Status::LogForeign { batch: 1 },
            b"",
        ),
        3,
        ONE_LOG,
    ),
    (
        ("apply", ONE, TWO_LOG, Status::LogForeign { batch: 2 }, b""),
        3,
        TWO_LOG,
    ),
    (
        ("apply", ONE, CUT_LOG, Status::LogDamaged { at: 0 }, b""),
        3,
        CUT_LOG,
    ),
    (
        (
            "apply",
            b"config\ngo\n",
            ONE_LOG,
            Status::Refused {
                line: 2,
                why: Why::UnknownWord,
            },
            b"",
        ),
        0,
        ONE_LOG,
    ),
];

/// Whether a run comes to its status and text, with so many calls, and leaves its image.
fn run_comes_out(alloc: Global, run: &Run<'_>, sink: &mut Drain) -> Result<bool, AllocError> {
    let mut disk = MemDisk::new(alloc, run.0.2, &[])?;
    Ok(
        comes_out_on(alloc, &run.0, &mut disk, sink)?
            && disk.calls() == run.1
            && is_left(&disk, run.2)?,
    )
}

/// Whether each run does.
fn all_come_out(alloc: Global, sink: &mut Drain) -> Result<bool, AllocError> {
    for run in &RUNS {
        if !run_comes_out(alloc, run, sink)? {
            return Ok(false);
        }
    }
    Ok(true)
}

#[test]
fn known_runs(rt: HostRuntime) -> Result<(), Fail> {
    let mut sink = Drain::new(rt.alloc());
    assert!(rt; all_come_out(rt.alloc(), &mut sink)?);
    Ok(())
}

/// Whether a run over what a stop before this call left, with these bytes where any may be, comes to this text, and a
/// second one to it too without a write.
fn goes_on(
    alloc: Global,
    script: &[u8],
    disk: &MemDisk,
    call: u32,
    torn: &[u8],
    text: &[u8],
    sink: &mut Drain,
) -> Result<bool, AllocError>
    requires { 0 < call }
{
    if call as usize - 1 > disk.calls() {
        return Ok(false);
    }
    let image = disk.image(call, torn)?;
    let mut again = MemDisk::new(alloc, image.as_slice(), &[])?;
    let first = ran(alloc, "apply", script, &mut again, text, sink)?;
    let calls = again.calls();
    let second = ran(alloc, "apply", script, &mut again, text, sink)?;
    Ok(first == (Status::Ok, true) && second == (Status::Ok, true) && again.calls() == calls + 3)
}

/// The same for three kinds of bytes.
fn goes_on_whatever_is_torn(
    alloc: Global,
    script: &[u8],
    disk: &MemDisk,
    call: u32,
    text: &[u8],
    sink: &mut Drain,
) -> Result<bool, AllocError>
    requires { 0 < call }
{
    for torn in &TORN {
        if !goes_on(alloc, script, disk, call, torn, text, sink)? {
            return Ok(false);
        }
    }
    Ok(true)
}

/// Applies a script to what a disk has, and stops before each call: whether another run comes to the same text.
fn each_stop_goes_on(
    alloc: Global,
    script: &[u8],
    image: &[u8],
    text: &[u8],
    sink: &mut Drain,
) -> Result<bool, AllocError> {
    let mut disk = MemDisk::new(alloc, image, &[])?;
    if ran(alloc, "apply", script, &mut disk, text, sink)? != (Status::Ok, true) {
        return Ok(false);
    }
    for call in 1..10 {
        if call as usize > disk.calls().saturating_add(1) {
            break;
        }
        if !goes_on_whatever_is_torn(alloc, script, &disk, call, text, sink)? {
            return Ok(false);
        }
    }
    Ok(true)
}

/// Whether it does for two scripts.
fn all_stops_go_on(alloc: Global, sink: &mut Drain) -> Result<bool, AllocError> {
    Ok(
        each_stop_goes_on(alloc, TWO, ONE_LOG, TWO_REPORT, sink)?
            && each_stop_goes_on(alloc, MOVED_COMMAND, b"", MOVED_REPORT, sink)?,
    )
}

/// A stop before each call, and another run.
#[test]
fn each_stop(rt: HostRuntime) -> Result<(), Fail> {
    let mut sink = Drain::new(rt.alloc());
    assert!(rt; all_stops_go_on(rt.alloc(), &mut sink)?);
    Ok(())
}

#[test]
fn each_call_of_apply_fails(rt: HostRuntime) -> Result<(), Fail> {
    let mut sink = Drain::new(rt.alloc());
    assert!(rt; fail_in_turn(rt.alloc(), "apply", TWO, ONE_LOG, TWO_REPORT, &mut sink)?);
    Ok(())
}
