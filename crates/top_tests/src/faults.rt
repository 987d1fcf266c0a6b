//! Runs whose reads, writes and flush fail, each in its turn.
ghost use Rattle.std.specs.Prelude.{◌<◌};

use crate::fixtures::{run_alone, run_script};
use crate::stored::{
    FIRST_COMMAND, FIRST_TEXT, ONE_COMMAND, ONE_DONE, ONE_INSTANCE, ONE_JOB, ONE_PING, ONE_RECORD,
};
use std::alloc::{AllocError, Global};
use std::process::Abort;
use std::test::Fail;
use test_streams::{A_BYTE, Drain, Feed, Nowhere, WHOLE};
use yard_io::StdSink;
use yard_top::Status;

/// More calls than any run here makes.
const MOST_CALLS: u32 = 1_000;

/// A form, a script, and the text that the form writes of it.
type Case<'a> = (&'a [&'a str], &'a [u8], &'a [u8]);

const CASES: [Case<'static>; 4] = [
    (&["solo"], ONE_COMMAND, ONE_RECORD),
    (&["replay"], FIRST_COMMAND, FIRST_TEXT),
    (&["daemon", "1"], ONE_PING, ONE_INSTANCE),
    (&["pull"], ONE_JOB, ONE_DONE),
];

/// Which calls fail, each in a run of its own.
#[derive(Clone, Copy)]
enum Calls {
    /// The reads of a source that gives one byte a call.
    Reads,
    /// The writes and the flush of a sink that takes one byte a call.
    Writes,
    /// Those of a sink that takes whole pieces.
    Pieces,
}

/// How a run ends whose call failed.
fn fault_of(calls: Calls) -> Status {
    match calls {
        Calls::Reads => Status::ReadFault,
        Calls::Writes | Calls::Pieces => Status::WriteFault,
    }
}

/// Whether a run takes so many bytes as it is to where the call after so many fails, of which the run before took so
/// many: none where a read fails, one with each write before it, and with pieces no fewer than the run before.
fn is_front(calls: Calls, taken: usize, done: usize, before: usize) -> bool {
    match calls {
        Calls::Reads => taken == 0,
        Calls::Writes => taken == done,
        Calls::Pieces => before <= taken,
    }
}

/// Whether there are as many calls as there are to be where none failed, and the last that failed left so many bytes:
/// a read for each byte, and one more that finds the end; a write for each byte, and the flush; and before the flush
/// all pieces were taken.
fn is_last(calls: Calls, case: &Case<'_>, done: usize, before: usize) -> bool {
    match calls {
        Calls::Reads => done == case.1.len().saturating_add(1),
        Calls::Writes => done == case.2.len().saturating_add(1),
        Calls::Pieces => before == case.2.len(),
    }
}

/// How many bytes these are, where they are a front of the text.
fn length_of_front(text: &[u8], bytes: &[u8]) -> Option<usize> {
    if text.starts_with(bytes) {
        Some(bytes.len())
    } else {
        None
    }
}

/// Runs a form over a source and a sink of so many bytes a call, whose calls of these numbers fail: how it ends, and
/// how long a front of the text it writes; None where it writes something else.
fn written(
    alloc: Global,
    case: &Case<'_>,
    read: u32,
    write: u32,
    most: usize,
    sink: &mut Drain,
) -> Result<(Status, Option<usize>), AllocError>
    requires { 0 < most }
{
    sink.restart(most, write);
    let mut source = Feed::new(case.1, most, read);
    let end = run_alone(alloc, case.0, &mut source, sink)?;
    Ok((end, length_of_front(case.2, sink.bytes())))
}

/// The same where the call after so many fails.
fn written_after(
    alloc: Global,
    case: &Case<'_>,
    calls: Calls,
    done: u32,
    sink: &mut Drain,
) -> Result<(Status, Option<usize>), AllocError>
    requires { done < 1000 }
{
    match calls {
        Calls::Reads => written(alloc, case, done + 1, 0, A_BYTE, sink),
        Calls::Writes => written(alloc, case, 0, done + 1, A_BYTE, sink),
        Calls::Pieces => written(alloc, case, 0, done + 1, WHOLE, sink),
    }
}

/// Runs a form again and again, and each time the next call fails, until none does: whether each run ends as it is
/// to, and there are as many as there are to be.
fn fail_in_turn(
    alloc: Global,
    case: &Case<'_>,
    calls: Calls,
    sink: &mut Drain,
) -> Result<bool, AllocError> {
    let mut before = 0;
    for done in 0..MOST_CALLS {
        let (end, front) = written_after(alloc, case, calls, done, sink)?;
        let Some(taken) = front else {
            return Ok(false);
        };
        if end == Status::Ok {
            return Ok(taken == case.2.len() && is_last(calls, case, done as usize, before));
        }
        if end != fault_of(calls) || !is_front(calls, taken, done as usize, before) {
            return Ok(false);
        }
        before = taken;
    }
    Ok(false)
}

/// Whether that is so of each form.
fn all_fail_in_turn(alloc: Global, calls: Calls, sink: &mut Drain) -> Result<bool, AllocError> {
    for case in &CASES {
        if !fail_in_turn(alloc, case, calls, sink)? {
            return Ok(false);
        }
    }
    Ok(true)
}

/// Whether it is so of all calls.
fn each_fails_in_turn(alloc: Global, sink: &mut Drain) -> Result<bool, AllocError> {
    Ok(
        all_fail_in_turn(alloc, Calls::Reads, sink)?
            && all_fail_in_turn(alloc, Calls::Writes, sink)?
            && all_fail_in_turn(alloc, Calls::Pieces, sink)?,
    )
}

#[test]
fn each_call_fails_in_turn(rt: HostRuntime) -> Result<(), Fail> {
    let mut sink = Drain::new(rt.alloc());
    assert!(rt; each_fails_in_turn(rt.alloc(), &mut sink)?);
    Ok(())
}

/// Whether a form that runs over a writer which takes nothing ends so, and its sink has failed once.
fn fails_once(alloc: Global, form: &[&str], script: &[u8]) -> Result<bool, AllocError> {
    let mut sink = StdSink::new(alloc, Nowhere)?;
    let end = run_script(alloc, form, script, &mut sink)?;
    Ok(end == Status::WriteFault && sink.faults() == 1)
}

/// Whether that is so of each form.
fn all_fail_once(alloc: Global) -> Result<bool, AllocError> {
    for (form, script, _) in &CASES {
        if !fails_once(alloc, form, script)? {
            return Ok(false);
        }
    }
    Ok(true)
}

#[test]
fn nothing_is_taken(rt: HostRuntime) -> Result<(), Fail> {
    assert!(rt; all_fail_once(rt.alloc())?);
    Ok(())
}
