//! The judge as one call.
ghost use Rattle.std.specs.Prelude.{◌≡◌, ◌<◌, ◌≤◌, IfErr, IfOk, OnErr, OnOk};
ghost use Rattle.yard_io.specs.Told.{TakesFront, count_of, followed_by};
ghost use Rattle.script_text.specs.Reading.{Refused, Spelled, reading};
ghost use Rattle.verdict_laws.specs.Meaning.{BrokenIsAnswered, MeantIsAnswered, SafeIsAnswered, UnreadIsAnswered, VerdictMeans};
ghost use Rattle.judge_run.specs.Ends.{Answers, Began, Behind, HasRun, IfAnswered, IfNoTrace, IfReadFault, IfRefused, IfUnwritten, IfWriteFault, IsComplete, IsEarly, IsScriptEnd, IsUnheard, JudgesWhole, Lacks, Refuses, Tells, Wrote, status_without, wanted_alone};

use crate::input::cut;
use crate::status::{Status, status_of};
use crate::text::text_of;
use judge_text::judge_rest;
use script_text::{Mode, ScriptFault, Why, read_script};
use std::alloc::Global;
use verdict_laws::{
    Answer, broken_is_answered, meant_is_answered, safe_is_answered, unread_is_answered,
    verdict_means,
};
use yard_io::{Failed, ReadError, Sink, Source, read_up_to, write_all, writes_add_up};
use yard_model::Charter;

/// How many bytes are read at first: those of a script, and more than a line `trace`.
const MOST_READ: usize = 4_194_311;

/// Reads a script, a line `trace` and a trace, and writes whether the trace is safe, or which line ends its safety and
/// why, or which line is that of no fact. A trace is read a piece at a time, up to that line.
pub fn judge<S: Source, K: Sink>(alloc: Global, source: &mut S, sink: &mut K) -> Status
    // The script was read, and exactly what is answered of the trace was written and flushed.
    ensures answered { IfAnswered result (Wrote (S.left source.old) (S.left source.new) result
        (record { bytes = K.taken sink.old; flushed = K.flushed sink.old })
        (record { bytes = K.taken sink.new; flushed = K.flushed sink.new })) }
    // The script is none.
    ensures refused { IfRefused result (λ line why. Refuses (S.left source.old) (S.left source.new) line why) }
    // There is no line `trace`.
    ensures no_trace { IfNoTrace result (Lacks (S.left source.old) (S.left source.new)) }
    // The source's faults rose in this call.
    ensures read_fault { IfReadFault result (S.faults source.old < S.faults source.new) }
    // The sink's faults rose in this call; a front of the answer was written.
    ensures write_fault { IfWriteFault result (K.faults sink.old < K.faults sink.new) }
    ensures write_fault_front { IfWriteFault result (Began (S.left source.old) (S.left source.new)
        (record { bytes = K.taken sink.old; flushed = K.flushed sink.old })
        (record { bytes = K.taken sink.new; flushed = K.flushed sink.new })) }
    // Else nothing was written.
    ensures unwritten { IfUnwritten result ((K.taken sink.new ≡ K.taken sink.old) × (K.flushed sink.new ≡ K.flushed sink.old)) }
    // Where no fault rose, the input is answered, or there is no memory.
    ensures complete { S.faults source.new ≡ S.faults source.old → K.faults sink.new ≡ K.faults sink.old → IsComplete (S.left source.old) result }
    // From end to end: of a script, the line `trace` and any text, where no fault rose, exactly what is so of that text
    // was written, or there is no memory.
    ensures whole { S.faults source.new ≡ S.faults source.old → K.faults sink.new ≡ K.faults sink.old
        → JudgesWhole (S.left source.old) result
        (record { bytes = K.taken sink.old; flushed = K.flushed sink.old })
        (record { bytes = K.taken sink.new; flushed = K.flushed sink.new }) }
    // It ends in no other way.
    ensures has_run { HasRun result }
    ensures source_faults { S.faults source.old ≤ S.faults source.new }
    ensures sink_faults { K.faults sink.old ≤ K.faults sink.new }
    // What an answer says is so, and what is so is answered.
    ensures verdict_means { VerdictMeans }
    ensures meant_is_answered { MeantIsAnswered }
    ensures safe_is_answered { SafeIsAnswered }
    ensures broken_is_answered { BrokenIsAnswered }
    ensures unread_is_answered { UnreadIsAnswered }
{
    verdict_means();
    meant_is_answered();
    safe_is_answered();
    broken_is_answered();
    unread_is_answered();
    judge_input(alloc, source, sink)
}

/// The same, but for what follows of laws.
fn judge_input<S: Source, K: Sink>(alloc: Global, source: &mut S, sink: &mut K) -> Status
    ensures answered { IfAnswered result (Wrote (S.left source.old) (S.left source.new) result
        (record { bytes = K.taken sink.old; flushed = K.flushed sink.old })
        (record { bytes = K.taken sink.new; flushed = K.flushed sink.new })) }
    ensures refused { IfRefused result (λ line why. Refuses (S.left source.old) (S.left source.new) line why) }
    ensures no_trace { IfNoTrace result (Lacks (S.left source.old) (S.left source.new)) }
    ensures read_fault { IfReadFault result (S.faults source.old < S.faults source.new) }
    ensures write_fault { IfWriteFault result (K.faults sink.old < K.faults sink.new) }
    ensures write_fault_front { IfWriteFault result (Began (S.left source.old) (S.left source.new)
        (record { bytes = K.taken sink.old; flushed = K.flushed sink.old })
        (record { bytes = K.taken sink.new; flushed = K.flushed sink.new })) }
    ensures has_run { HasRun result }
    ensures unwritten { IfUnwritten result ((K.taken sink.new ≡ K.taken sink.old) × (K.flushed sink.new ≡ K.flushed sink.old)) }
    ensures complete { S.faults source.new ≡ S.faults source.old → K.faults sink.new ≡ K.faults sink.old → IsComplete (S.left source.old) result }
    ensures source_faults { S.faults source.old ≤ S.faults source.new }
    ensures sink_faults { K.faults sink.old ≤ K.faults sink.new }
{
    match answer_of(alloc, source) {
        Ok(answer) => tell(alloc, &answer, sink),
        Err(status) => status,
    }
}

/// Writes an answer, and flushes it.
fn tell<K: Sink>(alloc: Global, answer: &Answer, sink: &mut K) -> Status
    ensures { Tells answer.now result
        (record { taken = record { bytes = K.taken sink.old; flushed = K.flushed sink.old }; faults = K.faults sink.old })
        (record { taken = record { bytes = K.taken sink.new; flushed = K.flushed sink.new }; faults = K.faults sink.new }) }
{
    let text = match text_of(alloc, answer) {
        Ok(text) => text,
        Err(_) => return Status::OutOfMemory,
    };
    match write_whole(text.as_slice(), sink) {
        Ok(()) => status_of(answer),
        Err(_) => Status::WriteFault,
    }
}

/// Writes all the bytes, and flushes them.
fn write_whole<K: Sink>(text: &[u8], sink: &mut K) -> Result<(), Failed>
    ensures ok { OnOk result (K.taken sink.new ≡ followed_by (K.taken sink.old) text.now) }
    ensures flushed { OnOk result (K.flushed sink.new ≡ count_of (K.taken sink.new)) }
    ensures front { OnErr result (TakesFront (K.taken sink.old) (K.taken sink.new) text.now) }
    ensures cause { OnErr result (K.faults sink.old < K.faults sink.new) }
    ensures never_falls { K.faults sink.old ≤ K.faults sink.new }
{
    writes_add_up();
    write_all(sink, text)?;
    sink.flush()
}

/// What is answered of an input; how the run ends where there is no answer.
fn answer_of<S: Source>(alloc: Global, source: &mut S) -> Result<Answer, Status>
    ensures answers { IfOk result (λ a. Answers (S.left source.old) (S.left source.new) a) }
    ensures refused { IfErr result (λ s. IfRefused s (λ line why. Refuses (S.left source.old) (S.left source.new) line why)) }
    ensures no_trace { IfErr result (λ s. IfNoTrace s (Lacks (S.left source.old) (S.left source.new))) }
    ensures read_fault { IfErr result (λ s. IfReadFault s (S.faults source.old < S.faults source.new)) }
    ensures early { IfErr result (λ s. IsEarly s) }
    ensures never_falls { S.faults source.old ≤ S.faults source.new }
{
    verdict_means();
    let head = match read_up_to(alloc, source, MOST_READ) {
        Ok(head) => head,
        Err(e) => return Err(status_without(e)),
    };
    match cut(&head) {
        Some((script, first)) => answer_behind(alloc, script, first, source),
        None => Err(status_alone(head.as_slice().len())),
    }
}

/// How a run ends of whose input so many bytes came at first, with no line `trace` among them.
fn status_alone(count: usize) -> Status
    ensures { result ≡ wanted_alone count }
{
    if count < MOST_READ {
        Status::NoTrace
    } else {
        Status::Refused {
            line: 0,
            why: Why::TooLong,
        }
    }
}

/// How a run ends that couldn't be read.
fn status_without(e: ReadError) -> Status
    ensures { result ≡ status_without e }
{
    match e {
        ReadError::Failed => Status::ReadFault,
        ReadError::OutOfMemory => Status::OutOfMemory,
    }
}

/// The script of these bytes; how the run ends where they spell none.
fn charter_of(alloc: Global, script: &[u8]) -> Result<Charter, Status>
    ensures spelled { IfOk result (λ c. reading Mode.Replay script.now ≡ Spelled c) }
    ensures some { IfOk result (λ c. 0 < c.config.shards) }
    ensures refused { IfErr result (λ s. IfRefused s (λ line why. reading Mode.Replay script.now ≡ Refused line why)) }
    ensures early { IfErr result (λ s. IsScriptEnd s) }
{
    match read_script(alloc, script, Mode::Replay) {
        Ok(charter) => {
            let _config = charter.config();
            Ok(charter)
        }
        Err(ScriptFault::At { line, why }) => Err(Status::Refused { line, why }),
        Err(ScriptFault::OutOfMemory) => Err(Status::OutOfMemory),
    }
}

/// What is answered of a script, and of a trace that begins with these bytes.
fn answer_behind<S: Source>(
    alloc: Global,
    script: &[u8],
    first: &[u8],
    source: &mut S,
) -> Result<Answer, Status>
    ensures answers { IfOk result (λ a. Behind script.now first.now (S.left source.old) (S.left source.new) a) }
    ensures refused { IfErr result (λ s. IfRefused s (λ line why. (reading Mode.Replay script.now ≡ Refused line why) × (S.left source.new ≡ S.left source.old))) }
    ensures read_fault { IfErr result (λ s. IfReadFault s (S.faults source.old < S.faults source.new)) }
    ensures early { IfErr result (λ s. IsUnheard s) }
    ensures never_falls { S.faults source.old ≤ S.faults source.new }
{
    let charter = match charter_of(alloc, script) {
        Ok(charter) => charter,
        Err(status) => return Err(status),
    };
    match judge_rest(alloc, &charter, first, source) {
        Ok(answer) => Ok(answer),
        Err(e) => Err(status_without(e)),
    }
}
