//! Nodes as threads: what every run of a script comes to, and runs whose reads and writes fail.
ghost use Rattle.std.specs.Prelude.{◌<◌};

use crate::fixtures::{run_alone, words_of};
use crate::meeting::{LOOKS, Meeting, Side};
use script_text::Why;
use std::alloc::{AllocError, Global};
use std::process::Abort;
use std::sync::Wait;
use std::test::Fail;
use std::thread::Threads;
use test_streams::{A_BYTE, Drain, Feed, Nowhere, WHOLE};
use yard_io::{Sink, StdSink};
use yard_top::{Status, sharder};

/// Two nodes; a producer on each sends ten commands.
const TWO_PRODUCERS: &[u8] = b"config nodes=2 shards=4
up 1
up 2
produce 1 1
produce 2 2
send 1 a add 1
send 1 a add 1
send 1 a add 1
send 1 a add 1
send 1 a add 1
send 1 a add 1
send 1 a add 1
send 1 a add 1
send 1 a add 1
send 1 a add 1
send 2 b add 2
send 2 b add 2
send 2 b add 2
send 2 b add 2
send 2 b add 2
send 2 b add 2
send 2 b add 2
send 2 b add 2
send 2 b add 2
send 2 b add 2
";

/// Lines of the report of it at every run.
const REPORTED: [&str; 4] = [
    "\nentity a shard 1 records 10 state 10\n",
    "\nentity b shard 2 records 10 state 20\n",
    "\nqueue 1 a queued 10 confirmed 10\n",
    "\nqueue 2 b queued 10 confirmed 10\n",
];

/// How many runs have a call that fails.
const RUNS: u32 = 200;

/// How many reads there are of the script, where each gives one byte: so many bytes, and the end.
const READS: u32 = 359;

/// A node comes up three times, each time for its producer's queue, and stops twice.
const UP_AGAIN: &[u8] = b"config nodes=1 shards=1
up 1
produce 1 1
crash 1
up 1
produce 1 1
crash 1
up 1
produce 1 1
send 1 a add 1
send 1 a add 1
send 1 a add 1
send 1 a add 1
";

/// How the list of its queue begins.
const HELD_BY: &str = "
granted queue:1 1 1.1
freed queue:1 1 stopped
granted queue:1 2 1.2
freed queue:1 2 stopped
granted queue:1 3 1.3
";

/// Runs the program on these words, at this gate.
fn run_at<R: Threads + Wait + Sync, K: Sink>(
    rt: &R,
    alloc: Global,
    form: &[&str],
    source: &mut Feed<'_>,
    sink: &mut K,
    gate: &Meeting,
) -> Result<Status, AllocError> {
    let words = words_of(alloc, form)?;
    Ok(sharder(rt, alloc, words.as_slice(), source, sink, gate))
}

/// Runs the program on these words, and holds no thread.
fn run<R: Threads + Wait + Sync, K: Sink>(
    rt: &R,
    alloc: Global,
    form: &[&str],
    source: &mut Feed<'_>,
    sink: &mut K,
) -> Result<Status, AllocError> {
    let gate = Meeting::free();
    run_at(rt, alloc, form, source, sink, &gate)
}

/// Runs the program on these words and this script, and holds no thread.
fn run_script<R: Threads + Wait + Sync, K: Sink>(
    rt: &R,
    alloc: Global,
    form: &[&str],
    script: &[u8],
    sink: &mut K,
) -> Result<Status, AllocError> {
    let mut source = Feed::new(script, WHOLE, 0);
    run(rt, alloc, form, &mut source, sink)
}

/// Runs the program on these words and the script of two producers, at this gate.
fn run_two<R: Threads + Wait + Sync>(
    rt: &R,
    alloc: Global,
    form: &[&str],
    sink: &mut Drain,
    gate: &Meeting,
) -> Result<Status, AllocError> {
    let mut source = Feed::new(TWO_PRODUCERS, WHOLE, 0);
    run_at(rt, alloc, form, &mut source, sink, gate)
}

/// What these bytes spell; nothing where they spell nothing.
fn text_of(bytes: &[u8]) -> &str {
    match str::from_utf8(bytes) {
        Ok(text) => text,
        Err(_) => "",
    }
}

/// Whether the queue of producer 2 begins on node 2, where the producer is.
fn begins_on_second(text: &str) -> bool {
    let Some((_, slot)) = text.split_once("\nslot queue:2 ") else {
        return false;
    };
    match slot.split_once('\n') {
        Some((_, list)) => list.starts_with("granted queue:2 1 2.1\n"),
        None => false,
    }
}

/// Whether a text has these lines, and the queue of producer 2 begins on node 2.
fn says_all(text: &str) -> bool {
    for line in &REPORTED {
        if !text.contains(*line) {
            return false;
        }
    }
    begins_on_second(text)
}

/// Whether a run at this gate ends well, and says that.
fn comes_to_this<R: Threads + Wait + Sync>(
    rt: &R,
    alloc: Global,
    sink: &mut Drain,
    gate: &Meeting,
) -> Result<bool, AllocError> {
    let end = run_two(rt, alloc, &["live", "2000", "7"], sink, gate)?;
    Ok(end == Status::Ok && says_all(text_of(sink.bytes())))
}

/// Whether a node came to its fifth turn, and no wait of it was too long.
fn has_met(side: &Side) -> bool {
    side.turn() >= 5 && side.longest() < LOOKS
}

/// Whether a run that holds no thread comes to this.
fn free_comes_to_this<R: Threads + Wait + Sync>(
    rt: &R,
    alloc: Global,
    sink: &mut Drain,
) -> Result<bool, AllocError> {
    let gate = Meeting::free();
    comes_to_this(rt, alloc, sink, &gate)
}

/// Whether one does in which, at its fifth turn, each node waits until the other has come to its own.
fn both_come_to_this<R: Threads + Wait + Sync>(
    rt: &R,
    alloc: Global,
    sink: &mut Drain,
) -> Result<bool, AllocError> {
    let gate = Meeting::at(5, 5);
    let is_this = comes_to_this(rt, alloc, sink, &gate)?;
    Ok(is_this && has_met(&gate.first) && has_met(&gate.second))
}

#[test]
fn each_run_comes_to_this(rt: HostRuntime) -> Result<(), Fail> {
    let mut sink = Drain::new(rt.alloc());
    assert!(rt; free_comes_to_this(&rt, rt.alloc(), &mut sink)?);
    Ok(())
}

/// The turns of the nodes overlap.
#[test]
fn two_nodes_run_at_once(rt: HostRuntime) -> Result<(), Fail> {
    let mut sink = Drain::new(rt.alloc());
    assert!(rt; both_come_to_this(&rt, rt.alloc(), &mut sink)?);
    Ok(())
}

/// Whether both regions are registered.
fn has_both(text: &str) -> bool {
    text.contains("\nregistered 1.1\n") && text.contains("\nregistered 2.1\n")
}

/// Whether a run that ended well registered both; None where it didn't end well.
fn both_in(end: Status, text: &str) -> Option<bool> {
    if end == Status::Ok {
        Some(has_both(text))
    } else {
        None
    }
}

/// Runs the program at a gate: whether both regions are registered by turns alone.
fn registered_at<R: Threads + Wait + Sync>(
    rt: &R,
    alloc: Global,
    seed: &str,
    sink: &mut Drain,
    gate: &Meeting,
) -> Result<Option<bool>, AllocError> {
    sink.restart(WHOLE, 0);
    let end = run_two(rt, alloc, &["live", "200", seed], sink, gate)?;
    Ok(both_in(end, text_of(sink.bytes())))
}

/// The same where the nodes go side by side.
fn registered<R: Threads + Wait + Sync>(
    rt: &R,
    alloc: Global,
    seed: &str,
    sink: &mut Drain,
) -> Result<Option<bool>, AllocError> {
    let gate = Meeting::at(1, 200);
    registered_at(rt, alloc, seed, sink, &gate)
}

/// Whether all of eight runs end well, and in some both are registered.
fn some_registered<R: Threads + Wait + Sync>(
    rt: &R,
    alloc: Global,
    sink: &mut Drain,
) -> Result<bool, AllocError> {
    let mut is_some = false;
    for seed in &["1", "2", "3", "4", "5", "6", "7", "8"] {
        match registered(rt, alloc, seed, sink)? {
            Some(are_both) => is_some = is_some || are_both,
            None => return Ok(false),
        }
    }
    Ok(is_some)
}

/// Nodes that go side by side take one another's packets: in some run both regions are registered by turns alone.
#[test]
fn each_node_registers_with_the_other(rt: HostRuntime) -> Result<(), Fail> {
    let mut sink = Drain::new(rt.alloc());
    assert!(rt; some_registered(&rt, rt.alloc(), &mut sink)?);
    Ok(())
}

/// How many seeds are tried.
const SEEDS: u32 = 32;

/// Runs the program with this seed: how it ends.
fn end_of_seed<R: Threads + Wait + Sync>(
    rt: &R,
    alloc: Global,
    seed: u32,
    sink: &mut Drain,
) -> Result<Status, AllocError> {
    let word = format!(in alloc; "{seed}")?;
    run_script(
        rt,
        alloc,
        &["live", "500", word.as_str()],
        TWO_PRODUCERS,
        sink,
    )
}

/// A line without the word behind `epoch`: what stands before it and behind it.
fn without_epoch(line: &str) -> (&str, &str) {
    let Some((front, rest)) = line.split_once(" epoch ") else {
        return (line, "");
    };
    match rest.split_once(' ') {
        Some((_, back)) => (front, back),
        None => (front, ""),
    }
}

/// Whether two lines are the same, but for the word behind `epoch`.
fn is_same_line(one: &str, other: &str) -> bool {
    let one = without_epoch(one);
    let other = without_epoch(other);
    one.0 == other.0 && one.1 == other.1
}

/// Whether two texts have the same lines, but for the epochs.
fn are_same_lines(one: &str, other: &str) -> bool {
    for (x, y) in one.lines().zip(other.lines()) {
        if !is_same_line(x, y) {
            return false;
        }
    }
    one.lines().count() == other.lines().count()
}

/// Whether two texts have the same report, but for the epochs.
fn is_same_report(one: &str, other: &str) -> bool {
    match (one.split_once("\nreport\n"), other.split_once("\nreport\n")) {
        (Some((_, one)), Some((_, other))) => are_same_lines(one, other),
        _ => false,
    }
}

/// Whether a run with this seed ends well and reports the same as this text.
fn reports_the_same<R: Threads + Wait + Sync>(
    rt: &R,
    alloc: Global,
    seed: u32,
    text: &str,
    sink: &mut Drain,
) -> Result<bool, AllocError> {
    sink.restart(WHOLE, 0);
    let end = end_of_seed(rt, alloc, seed, sink)?;
    Ok(end == Status::Ok && is_same_report(text, text_of(sink.bytes())))
}

/// Whether all other seeds do.
fn others_report_the_same<R: Threads + Wait + Sync>(
    rt: &R,
    alloc: Global,
    text: &str,
    sink: &mut Drain,
) -> Result<bool, AllocError> {
    for seed in 2..SEEDS + 1 {
        if !reports_the_same(rt, alloc, seed, text, sink)? {
            return Ok(false);
        }
    }
    Ok(true)
}

/// Whether all seeds report the same as the first.
fn all_report_the_same<R: Threads + Wait + Sync>(
    rt: &R,
    alloc: Global,
    first: &mut Drain,
    sink: &mut Drain,
) -> Result<bool, AllocError> {
    let end = end_of_seed(rt, alloc, 1, first)?;
    Ok(end == Status::Ok && others_report_the_same(rt, alloc, text_of(first.bytes()), sink)?)
}

/// The same over a sink of its own for the first.
fn seeds_report_the_same<R: Threads + Wait + Sync>(
    rt: &R,
    alloc: Global,
    sink: &mut Drain,
) -> Result<bool, AllocError> {
    let mut first = Drain::new(alloc);
    all_report_the_same(rt, alloc, &mut first, sink)
}

#[test]
fn each_seed_reports_the_same(rt: HostRuntime) -> Result<(), Fail> {
    let mut sink = Drain::new(rt.alloc());
    assert!(rt; seeds_report_the_same(&rt, rt.alloc(), &mut sink)?);
    Ok(())
}

/// Whether a run is as it is to be whose sink fails at the call after so many, if it comes. Where one byte goes with
/// a call, it writes one with each before. Where whole pieces do, it ends well only with a whole report, after no
/// more calls.
fn is_stopped(end: Status, sink: &Drain, done: u32, most: usize) -> bool {
    if most == A_BYTE {
        end == Status::WriteFault && sink.bytes().len() == done as usize
    } else if done < sink.calls() {
        end == Status::WriteFault
    } else {
        end == Status::Ok && sink.bytes().ends_with(b"\nend\n")
    }
}

/// Runs the program, and the call after so many fails: whether it is stopped so.
fn stops<R: Threads + Wait + Sync>(
    rt: &R,
    alloc: Global,
    done: u32,
    most: usize,
    sink: &mut Drain,
) -> Result<bool, AllocError>
    requires done { done < 200 }
    requires most { 0 < most }
{
    sink.restart(most, done + 1);
    let end = run_script(rt, alloc, &["live", "50", "1"], TWO_PRODUCERS, sink)?;
    Ok(is_stopped(end, sink, done, most))
}

/// Whether each of these runs is.
fn all_stop<R: Threads + Wait + Sync>(
    rt: &R,
    alloc: Global,
    most: usize,
    sink: &mut Drain,
) -> Result<bool, AllocError>
    requires { 0 < most }
{
    for done in 0..RUNS {
        if !stops(rt, alloc, done, most, sink)? {
            return Ok(false);
        }
    }
    Ok(true)
}

/// Runs the program whose source gives so many bytes a call, and fails at this one: how it ends.
fn end_at_read<R: Threads + Wait + Sync>(
    rt: &R,
    alloc: Global,
    call: u32,
    most: usize,
    sink: &mut Drain,
) -> Result<Status, AllocError>
    requires { 0 < most }
{
    let mut source = Feed::new(TWO_PRODUCERS, most, call);
    run(rt, alloc, &["live", "50", "1"], &mut source, sink)
}

/// Whether each of so many reads that fail ends a run that writes nothing.
fn reads_fail<R: Threads + Wait + Sync>(
    rt: &R,
    alloc: Global,
    count: u32,
    most: usize,
    sink: &mut Drain,
) -> Result<bool, AllocError>
    requires { 0 < most }
{
    sink.restart(WHOLE, 0);
    for call in 1..=count {
        if end_at_read(rt, alloc, call, most, sink)? != Status::ReadFault {
            return Ok(false);
        }
    }
    Ok(sink.bytes().is_empty())
}

/// Whether a run ends well where one byte goes with each call: one write for each byte, and the flush.
fn ends_slowly<R: Threads + Wait + Sync>(
    rt: &R,
    alloc: Global,
    sink: &mut Drain,
) -> Result<bool, AllocError> {
    sink.restart(A_BYTE, 0);
    let end = end_at_read(rt, alloc, 0, A_BYTE, sink)?;
    let calls = sink.bytes().len().saturating_add(1);
    let is_whole = sink.bytes().ends_with(b"\nend\n") && sink.calls() as usize == calls;
    Ok(end == Status::Ok && is_whole)
}

/// Whether a run over a writer which takes nothing ends so, and its sink has failed once.
fn nothing_is_taken<R: Threads + Wait + Sync>(rt: &R, alloc: Global) -> Result<bool, AllocError> {
    let mut sink = StdSink::new(alloc, Nowhere)?;
    let end = run_script(rt, alloc, &["live", "50", "1"], TWO_PRODUCERS, &mut sink)?;
    Ok(end == Status::WriteFault && sink.faults() == 1)
}

/// Whether all runs with a call that fails are as they are to be.
fn all_fail<R: Threads + Wait + Sync>(
    rt: &R,
    alloc: Global,
    sink: &mut Drain,
) -> Result<bool, AllocError> {
    Ok(
        all_stop(rt, alloc, A_BYTE, sink)?
            && all_stop(rt, alloc, WHOLE, sink)?
            && reads_fail(rt, alloc, 2, WHOLE, sink)?
            && reads_fail(rt, alloc, READS, A_BYTE, sink)?
            && ends_slowly(rt, alloc, sink)?
            && nothing_is_taken(rt, alloc)?,
    )
}

#[test]
fn a_call_fails(rt: HostRuntime) -> Result<(), Fail> {
    let mut sink = Drain::new(rt.alloc());
    assert!(rt; all_fail(&rt, rt.alloc(), &mut sink)?);
    Ok(())
}

/// Runs the program with this seed on the script of the node that comes up again: whether its queue is held by its
/// incarnations, whose numbers count how often it came up.
fn has_numbers<R: Threads + Wait + Sync>(
    rt: &R,
    alloc: Global,
    seed: &str,
    sink: &mut Drain,
) -> Result<bool, AllocError> {
    sink.restart(WHOLE, 0);
    let end = run_script(rt, alloc, &["live", "100", seed], UP_AGAIN, sink)?;
    Ok(end == Status::Ok && text_of(sink.bytes()).contains(HELD_BY))
}

/// Whether a run with another seed has such numbers, and writes another text.
fn differs<R: Threads + Wait + Sync>(
    rt: &R,
    alloc: Global,
    first: &Drain,
    sink: &mut Drain,
) -> Result<bool, AllocError> {
    let mut is_other = false;
    for seed in &["2", "3", "4", "5"] {
        if !has_numbers(rt, alloc, seed, sink)? {
            return Ok(false);
        }
        is_other = is_other || first.bytes() != sink.bytes();
    }
    Ok(is_other)
}

/// Whether runs with different seeds have such numbers, and don't all write one text: of one node alone the seed
/// tells all.
fn seeds_differ<R: Threads + Wait + Sync>(rt: &R, alloc: Global) -> Result<bool, AllocError> {
    let mut first = Drain::new(alloc);
    let mut sink = Drain::new(alloc);
    Ok(has_numbers(rt, alloc, "1", &mut first)? && differs(rt, alloc, &first, &mut sink)?)
}

#[test]
fn a_node_counts_how_often_it_came_up(rt: HostRuntime) -> Result<(), Fail> {
    assert!(rt; seeds_differ(&rt, rt.alloc())?);
    Ok(())
}

/// Words that are no form.
const NO_FORMS: [&[&str]; 8] = [
    &["live"],
    &["live", "1"],
    &["live", "0", "1"],
    &["live", "100001", "1"],
    &["live", "1", "4294967296"],
    &["live", "1", "-1"],
    &["live", "", "1"],
    &["live", "1", "1", "1"],
];

/// Whether they are answered by Usage.
fn are_no_forms<R: Threads + Wait + Sync>(
    rt: &R,
    alloc: Global,
    source: &mut Feed<'_>,
    sink: &mut Drain,
) -> Result<bool, AllocError> {
    for form in &NO_FORMS {
        if run(rt, alloc, form, source, sink)? != Status::Usage {
            return Ok(false);
        }
    }
    // Where one thread alone is asked for, `live` is no form.
    Ok(run_alone(alloc, &["live", "1", "1"], source, sink)? == Status::Usage)
}

/// Whether they write nothing and read nothing: the script is there yet.
fn leave_script<R: Threads + Wait + Sync>(
    rt: &R,
    alloc: Global,
    source: &mut Feed<'_>,
    sink: &mut Drain,
) -> Result<bool, AllocError> {
    if !are_no_forms(rt, alloc, source, sink)? || !sink.bytes().is_empty() {
        return Ok(false);
    }
    Ok(run(rt, alloc, &["live", "1", "1"], source, sink)? == Status::Ok)
}

/// The same of a script that is there.
fn words_leave_script<R: Threads + Wait + Sync>(
    rt: &R,
    alloc: Global,
    sink: &mut Drain,
) -> Result<bool, AllocError> {
    let mut source = Feed::new(b"config\n", WHOLE, 0);
    leave_script(rt, alloc, &mut source, sink)
}

/// Scripts with an order on line 3 that no thread takes.
const NO_ORDERS: [&[u8]; 3] = [
    b"config nodes=2\nup 1\ndeliver 1\n",
    b"config\n\npump 1\n",
    b"# No write of a store fails.\nconfig\nfailwrite a kept\n",
];

/// Whether this script is refused for its third line, and nothing is written.
fn is_refused<R: Threads + Wait + Sync>(
    rt: &R,
    alloc: Global,
    script: &[u8],
    sink: &mut Drain,
) -> Result<bool, AllocError> {
    let end = run_script(rt, alloc, &["live", "2000", "7"], script, sink)?;
    let refused = Status::Refused {
        line: 3,
        why: Why::WrongMode,
    };
    Ok(end == refused && sink.bytes().is_empty())
}

/// Whether all these are.
fn are_refused<R: Threads + Wait + Sync>(
    rt: &R,
    alloc: Global,
    sink: &mut Drain,
) -> Result<bool, AllocError> {
    for script in &NO_ORDERS {
        if !is_refused(rt, alloc, script, sink)? {
            return Ok(false);
        }
    }
    Ok(true)
}

/// Whether words that are no run write nothing, and neither do such scripts.
fn are_no_runs<R: Threads + Wait + Sync>(
    rt: &R,
    alloc: Global,
    sink: &mut Drain,
) -> Result<bool, AllocError> {
    Ok(are_refused(rt, alloc, sink)? && words_leave_script(rt, alloc, sink)?)
}

#[test]
fn what_is_no_run(rt: HostRuntime) -> Result<(), Fail> {
    let mut sink = Drain::new(rt.alloc());
    assert!(rt; are_no_runs(&rt, rt.alloc(), &mut sink)?);
    Ok(())
}
