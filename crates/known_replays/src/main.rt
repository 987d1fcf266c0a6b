//! Known scripts, each with the text that it must give: `index` names them, a line each with the
//! exit status and the words of the program; `NAME.in` is the script and `NAME.out` the text. Where the
//! text is too long to be stored, a line of `digests` has the name, whose script it is, the exit status, how
//! many bytes the text has, their digest, and the words. A line of `refusals` has a status's own line, the
//! words, and a script of which nothing is written, with `%XX` for a byte that has no place in a line. Every
//! script is run by the program's own top call (the part of it that needs no threads), and a line says what
//! came of it; of the refusals one line says how many came as they must.
#![tactic(auto)]

mod digest;

use digest::Digest;
use disk_log::MemDisk;
use percent_encoding::percent_decode;
use std::alloc::{AllocError, Global};
use std::rt::Files;
use std::{fs, io};
use yard_io::{MemSink, Sink, WholeSource};
use yard_top::{Status, sharder_alone};

/// What came of a script.
#[derive(Clone, Copy, PartialEq, Eq)]
enum Verdict {
    /// The status, which is this, and every byte are those that are known.
    Same(Status),
    /// Another status, with the one that came.
    OtherStatus(u8),
    /// The status is the known one, and the text differs from this byte on, from 0.
    OtherText(usize),
    /// The status is the known one, and the text has so many bytes, or this digest.
    OtherDigest(Digest),
}

/// The words of a line, apart by spaces.
fn words_of(alloc: Global, line: &str) -> Result<Vec<String>, AllocError> {
    let mut words = Vec::new(alloc);
    for word in line.split(' ') {
        words.push(String::from_str(alloc, word)?)?;
    }
    Ok(words)
}

/// Where two texts differ first, if they do.
fn first_difference(one: &[u8], other: &[u8]) -> Option<usize> {
    for (at, (x, y)) in one.iter().zip(other.iter()).enumerate() {
        if x != y {
            return Some(at);
        }
    }
    if one.len() == other.len() {
        None
    } else {
        Some(one.len().min(other.len()))
    }
}

/// Runs a form of one thread on a script, over an empty disk. (All runs go through here, since each call of the program costs its proof much.)
fn ran<K: Sink>(
    alloc: Global,
    words: &[String],
    script: &[u8],
    sink: &mut K,
) -> Result<Status, AllocError> {
    let mut source = WholeSource::new(alloc, script)?;
    let mut disk = MemDisk::new(alloc, &[], &[])?;
    Ok(sharder_alone(alloc, words, &mut source, sink, &mut disk))
}

/// Runs a script, and compares what came of it.
fn judged(
    alloc: Global,
    words: &[String],
    script: &[u8],
    code: u8,
    text: &[u8],
) -> Result<Verdict, AllocError> {
    let mut sink = MemSink::new(alloc, &[])?;
    let status = ran(alloc, words, script, &mut sink)?;
    if status.code() != code {
        return Ok(Verdict::OtherStatus(status.code()));
    }
    match first_difference(sink.bytes(), text) {
        Some(at) => Ok(Verdict::OtherText(at)),
        None => Ok(Verdict::Same(status)),
    }
}

/// Runs a script, and compares the length and the digest of its text.
fn judged_by_digest(
    alloc: Global,
    words: &[String],
    script: &[u8],
    code: u8,
    text: Digest,
) -> Result<Verdict, AllocError> {
    let mut sink = Digest::new();
    let status = ran(alloc, words, script, &mut sink)?;
    if status.code() != code {
        Ok(Verdict::OtherStatus(status.code()))
    } else if sink != text {
        Ok(Verdict::OtherDigest(sink))
    } else {
        Ok(Verdict::Same(status))
    }
}

/// The bytes of a file of this name and ending.
fn bytes_of(rt: &(impl Files + AllocGlobal), name: &str, ending: &str) -> io::Result<Vec<u8>> {
    let path = format!(in rt.alloc(); "{name}.{ending}")?;
    fs::read(rt, path.as_str())
}

/// Says what came of a script.
fn tell(rt: &impl Print, name: &str, verdict: Verdict) -> io::Result<()> {
    match verdict {
        Verdict::Same(Status::Ok) => println!(rt; "{name}: same"),
        Verdict::Same(status) => println!(rt; "{name}: same, {status}"),
        Verdict::OtherStatus(status) => println!(rt; "{name}: status {status}"),
        Verdict::OtherText(at) => println!(rt; "{name}: differs from byte {at}"),
        Verdict::OtherDigest(Digest { bytes, hash }) => {
            println!(rt; "{name}: {bytes} bytes with the digest {hash}")
        }
    }
}

/// Plays the script of a line of the index, and says what came of it.
fn play(rt: &(impl Files + AllocGlobal + Print), line: &str) -> io::Result<()> {
    let words = words_of(rt.alloc(), line)?;
    let [name, code, words @ ..] = words.as_slice() else {
        return println!(rt; "no script: {line}");
    };
    let code: u8 = code.as_str().parse().unwrap_or(255);
    let script = bytes_of(rt, name.as_str(), "in")?;
    let text = bytes_of(rt, name.as_str(), "out")?;
    let verdict = judged(rt.alloc(), words, script.as_slice(), code, text.as_slice())?;
    tell(rt, name.as_str(), verdict)
}

/// Plays the script of a line of the digests, and says what came of it.
fn play_long(rt: &(impl Files + AllocGlobal + Print), line: &str) -> io::Result<()> {
    let words = words_of(rt.alloc(), line)?;
    let [name, script, code, bytes, hash, words @ ..] = words.as_slice() else {
        return println!(rt; "no script: {line}");
    };
    let code: u8 = code.as_str().parse().unwrap_or(255);
    let bytes: u64 = bytes.as_str().parse().unwrap_or(0);
    let hash: u64 = hash.as_str().parse().unwrap_or(0);
    let script = bytes_of(rt, script.as_str(), "in")?;
    let text = Digest { bytes, hash };
    let verdict = judged_by_digest(rt.alloc(), words, script.as_slice(), code, text)?;
    tell(rt, name.as_str(), verdict)
}

/// Whether a script is refused with a status of this line, and nothing is written.
fn is_refused(alloc: Global, words: &str, script: &str, wanted: &str) -> io::Result<bool> {
    let words = words_of(alloc, words)?;
    let mut bytes = Vec::new(alloc);
    percent_decode(script.as_bytes()).append_to(&mut bytes)?;
    let mut sink = MemSink::new(alloc, &[])?;
    let status = ran(alloc, words.as_slice(), bytes.as_slice(), &mut sink)?;
    let line = format!(in alloc; "{status}")?;
    Ok(line.as_str() == wanted && sink.bytes().is_empty())
}

/// Plays the script of a line of the refusals: a status's line, the words, and the script, apart by bars.
/// Answers whether it came so; where it didn't, it says which line it is.
fn play_refused(rt: &(impl AllocGlobal + Print), line: &str) -> io::Result<bool> {
    let mut parts = Vec::new(rt.alloc());
    for part in line.split('|') {
        parts.push(part)?;
    }
    let [wanted, words, script] = parts.as_slice() else {
        println!(rt; "no refusal: {line}")?;
        return Ok(false);
    };
    let same = is_refused(rt.alloc(), words, script, wanted)?;
    if !same {
        println!(rt; "not refused so: {line}")?;
    }
    Ok(same)
}

/// Plays the script of each line of the index.
fn play_all(rt: &(impl Files + AllocGlobal + Print)) -> io::Result<()> {
    let index = fs::read_to_string(rt, "index")?;
    for line in index.as_str().lines() {
        play(rt, line)?;
    }
    Ok(())
}

/// Plays the script of each line of the digests.
fn play_all_long(rt: &(impl Files + AllocGlobal + Print)) -> io::Result<()> {
    let digests = fs::read_to_string(rt, "digests")?;
    for line in digests.as_str().lines() {
        play_long(rt, line)?;
    }
    Ok(())
}

/// Plays the script of each line of the refusals, and says how many came as they must.
fn play_all_refused(rt: &(impl Files + AllocGlobal + Print)) -> io::Result<()> {
    let refusals = fs::read_to_string(rt, "refusals")?;
    let mut count: u32 = 0;
    for line in refusals.as_str().lines() {
        if play_refused(rt, line)? {
            count = count.saturating_add(1);
        }
    }
    println!(rt; "refusals: {count} same")
}

fn main(rt: HostRuntime) -> io::Result<()> {
    play_all(&rt)?;
    play_all_long(&rt)?;
    play_all_refused(&rt)
}
