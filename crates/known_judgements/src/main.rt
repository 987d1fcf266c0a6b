//! Known traces, each with what is answered of it: `index` names them, a line each with the script that it is
//! judged under, the exit status, and the answer. `NAME.in` is a script and `NAME.trace` a trace. A line of
//! `hostile` has the exit status, the answer, and a whole input. In answers and inputs `%XX` stands for a byte that
//! has no place in a line.
//! Every input is judged by the program's own call. Of the known traces a line says how many came as they must, and
//! so of the hostile inputs; before it stands a line for each that didn't. A last line says so of runs in which one
//! call of the source or of the sink fails.
#![tactic(auto)]

use judge_run::{Status, judge};
use percent_encoding::percent_decode;
use std::alloc::{AllocError, Global};
use std::rt::Files;
use std::{fs, io};
use yard_io::{MemSink, MemSource, WholeSource};

/// The parts of a line, apart by bars.
fn parts_of(alloc: Global, line: &str) -> Result<Vec<&str>, AllocError> {
    let mut parts = Vec::new(alloc);
    for part in line.split('|') {
        parts.push(part)?;
    }
    Ok(parts)
}

/// Judges an input; the status and what was written.
fn judged(alloc: Global, input: &[u8]) -> Result<(Status, MemSink), AllocError> {
    let mut source = WholeSource::new(alloc, input)?;
    let mut sink = MemSink::new(alloc, &[])?;
    let status = judge(alloc, &mut source, &mut sink);
    Ok((status, sink))
}

/// The bytes that a part of a line stands for.
fn bytes_of(alloc: Global, part: &str) -> Result<Vec<u8>, AllocError> {
    let mut bytes = Vec::new(alloc);
    percent_decode(part.as_bytes()).append_to(&mut bytes)?;
    Ok(bytes)
}

/// Whether that is a known status, and a known answer with an end of a line, or nothing.
fn is_same(status: Status, written: &[u8], code: &str, known: &[u8]) -> bool {
    let same = match written {
        [] => known.is_empty(),
        [text @ .., b'\n'] => text == known && !known.is_empty(),
        _ => false,
    };
    same && code.parse() == Ok(status.code())
}

/// Appends the bytes of a file of this name and ending.
fn append_file(
    rt: &(impl Files + AllocGlobal),
    bytes: &mut Vec<u8>,
    name: &str,
    ending: &str,
) -> io::Result<()> {
    let path = format!(in rt.alloc(); "{name}.{ending}")?;
    let read = fs::read(rt, path.as_str())?;
    bytes.extend_from_slice(read.as_slice())?;
    Ok(())
}

/// A script, a line `trace`, and a trace.
fn input_of(rt: &(impl Files + AllocGlobal), script: &str, trace: &str) -> io::Result<Vec<u8>> {
    let mut input = Vec::new(rt.alloc());
    append_file(rt, &mut input, script, "in")?;
    input.extend_from_slice(b"trace\n")?;
    append_file(rt, &mut input, trace, "trace")?;
    Ok(input)
}

/// Whether the trace of a line of the index came to what it must; where it didn't, says which line it is.
fn judge_known(rt: &(impl Files + AllocGlobal + Print), line: &str) -> io::Result<bool> {
    let parts = parts_of(rt.alloc(), line)?;
    let [name, script, code, answer] = parts.as_slice() else {
        println!(rt; "no trace: {line}")?;
        return Ok(false);
    };
    let input = input_of(rt, script, name)?;
    let known = bytes_of(rt.alloc(), answer)?;
    let (status, sink) = judged(rt.alloc(), input.as_slice())?;
    let same = is_same(status, sink.bytes(), code, known.as_slice());
    if !same {
        println!(rt; "not judged so: {line}")?;
    }
    Ok(same)
}

/// Whether the input of a line of the hostile ones came to what it must; where it didn't, says which line it is.
fn judge_hostile(rt: &(impl AllocGlobal + Print), line: &str) -> io::Result<bool> {
    let parts = parts_of(rt.alloc(), line)?;
    let [code, answer, input] = parts.as_slice() else {
        println!(rt; "no input: {line}")?;
        return Ok(false);
    };
    let bytes = bytes_of(rt.alloc(), input)?;
    let known = bytes_of(rt.alloc(), answer)?;
    let (status, sink) = judged(rt.alloc(), bytes.as_slice())?;
    let same = is_same(status, sink.bytes(), code, known.as_slice());
    if !same {
        println!(rt; "not judged so: {line}")?;
    }
    Ok(same)
}

/// Judges the trace of each line of the index, and says how many came as they must.
fn judge_all(rt: &(impl Files + AllocGlobal + Print)) -> io::Result<()> {
    let index = fs::read_to_string(rt, "index")?;
    let mut count: u32 = 0;
    for line in index.as_str().lines() {
        if judge_known(rt, line)? {
            count = count.saturating_add(1);
        }
    }
    println!(rt; "known: {count} same")
}

/// Judges each hostile input, and says how many came as they must.
fn judge_all_hostile(rt: &(impl Files + AllocGlobal + Print)) -> io::Result<()> {
    let hostile = fs::read_to_string(rt, "hostile")?;
    let mut count: u32 = 0;
    for line in hostile.as_str().lines() {
        if judge_hostile(rt, line)? {
            count = count.saturating_add(1);
        }
    }
    println!(rt; "hostile: {count} same")
}

/// An input, the exit status, and the answer.
type Judged = (&'static [u8], u8, &'static [u8]);

/// A trace that is safe, one that isn't, and one with a line of no fact.
const JUDGED: [Judged; 3] = [
    (
        b"config nodes=1 shards=1 producers=1\nsend 1 c1 add 5\ntrace\ngranted shard:0 1 1.1\n",
        0,
        b"safe 1 1 0\n",
    ),
    (
        b"config nodes=1 shards=1 producers=1\nsend 1 c1 add 5\ntrace\nregistered 1.1\n",
        1,
        b"line 1: an entry of a slot that nobody holds\n  registered 1.1\n",
    ),
    (
        b"config nodes=1 shards=1 producers=1\nsend 1 c1 add 5\ntrace\nreport",
        3,
        b"line 1: no fact\n  report\n",
    ),
];

/// Whether an input comes to this exit status, and to these bytes, where these reads and these calls of the sink fail.
fn comes_to(
    alloc: Global,
    input: &[u8],
    fails: (&[u32], &[u32]),
    code: u8,
    written: &[u8],
) -> Result<bool, AllocError> {
    let mut source = MemSource::new(alloc, input, fails.0)?;
    let mut sink = MemSink::new(alloc, fails.1)?;
    let status = judge(alloc, &mut source, &mut sink);
    Ok(status.code() == code && sink.bytes() == written)
}

/// How many of five runs of an input came to what they must: of the read that gives it, of the one that finds its end,
/// of the write and of the flush each fails once, and nothing does.
fn count_failing(alloc: Global, judged: &Judged) -> Result<u32, AllocError> {
    let (input, code, answer) = *judged;
    let runs = [
        comes_to(alloc, input, (&[1], &[]), 4, b"")?,
        comes_to(alloc, input, (&[2], &[]), 4, b"")?,
        comes_to(alloc, input, (&[], &[1]), 5, b"")?,
        comes_to(alloc, input, (&[], &[2]), 5, answer)?,
        comes_to(alloc, input, (&[], &[]), code, answer)?,
    ];
    let mut count: u32 = 0;
    for run in &runs {
        if *run {
            count = count.saturating_add(1);
        }
    }
    Ok(count)
}

/// Judges inputs over streams of which one call fails, and says how many runs came as they must.
fn judge_all_failing(rt: &(impl AllocGlobal + Print)) -> io::Result<()> {
    let mut count: u32 = 0;
    for judged in &JUDGED {
        count = count.saturating_add(count_failing(rt.alloc(), judged)?);
    }
    println!(rt; "failing: {count} same")
}

fn main(rt: HostRuntime) -> io::Result<()> {
    judge_all(&rt)?;
    judge_all_hostile(&rt)?;
    judge_all_failing(&rt)
}
