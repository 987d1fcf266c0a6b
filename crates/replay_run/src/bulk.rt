//! `bulk`: a run of the script of a number, and its summary.
ghost use Rattle.std.specs.Prelude.{◌≡◌, [], IfOk, IsTrue};
ghost use Rattle.yard_model.specs.Safe.{safe};
ghost use Rattle.yard_model.specs.World.{trace_of};
ghost use Rattle.bulk_gen.specs.Bulk.{bulk_script};
ghost use Rattle.bulk_gen.specs.Counted.{IsSummary};
ghost use Rattle.bulk_gen.specs.SummaryText.{summary};
ghost use Rattle.run_parts.specs.Stops.{course, stop_in};
ghost use Rattle.run_parts.specs.Writing.{Writes};

use crate::following::tell_trace;
use crate::replay::is_safe;
use bulk_gen::{Summary, push_summary};
use run_parts::{Course, WriteError, write_part};
use std::alloc::{AllocError, Global};
use trace_notes::{Notes, Told};
use yard_io::Sink;
use yard_model::{Charter, Fact, Packet};

/// Plays the script of a number, and writes the summary of its trace, once that is through. The line
/// with which the trace stops, where it does. Nothing is flushed.
pub fn write_bulk<K: Sink>(
    alloc: Global,
    charter: &Charter,
    number: u32,
    sink: &mut K,
) -> Result<Option<u32>, WriteError>
    requires { charter.now ≡ bulk_script number }
    ensures wrote { Writes (summary number (trace_of charter.now)) result
        (record { taken = K.taken sink.old; flushed = K.flushed sink.old; faults = K.faults sink.old })
        (record { taken = K.taken sink.new; flushed = K.flushed sink.new; faults = K.faults sink.new }) }
    ensures stop { IfOk result (λ stop. stop ≡ stop_in (trace_of charter.now)) }
    ensures safe { IsTrue (safe charter.now (trace_of charter.now)) }
{
    is_safe(charter);
    let (text, stop) = summary_of(alloc, charter, number)?;
    write_part(sink, text.as_slice())?;
    Ok(stop)
}

/// What is counted of a run, and how far its trace has come.
#[derive(Drop)]
struct Counts {
    course: Course,
    summary: Summary,
}

impl Notes for Counts {
    ghost use Rattle.std.specs.Prelude.{◌≡◌};
    ghost use Rattle.bulk_gen.specs.Counted.{IsSummary};
    ghost use Rattle.run_parts.specs.Stops.{course};

    ghost are_of = { λ counts facts. (counts.course ≡ course facts) × IsSummary counts.summary facts };

    #[inline(always)]
    fn note(&mut self, fact: &Fact) -> Result<(), AllocError> {
        self.summary.note(fact)?;
        self.course.go_on(fact);
        Ok(())
    }

    #[inline(always)]
    fn note_sent(&mut self, number: u32, packet: &Packet) -> Result<(), AllocError> {
        let _ = number;
        let _ = packet;
        self.summary.note_sent()
    }
}

/// The summary of a run of the script of this number, and the line with which its trace stops, where it
/// does. The only error is want of memory, or of room for a count.
fn summary_of(
    alloc: Global,
    charter: &Charter,
    number: u32,
) -> Result<(Vec<u8>, Option<u32>), AllocError>
    requires { charter.now ≡ bulk_script number }
    ensures text { IfOk result (λ r. r.0.items ≡ summary number (trace_of charter.now)) }
    ensures stop { IfOk result (λ r. r.1 ≡ stop_in (trace_of charter.now)) }
{
    let counts = no_counts(alloc, charter)?;
    let mut facts = Told::new(counts);
    tell_trace(alloc, charter, &mut facts)?;
    counted_text(alloc, charter, number, &facts)
}

/// Nothing is counted yet. The only error is want of memory.
fn no_counts(alloc: Global, charter: &Charter) -> Result<Counts, AllocError>
    ensures { IfOk result (λ counts. (counts.course ≡ course []) × IsSummary counts.summary []) }
{
    let summary = Summary::new(alloc, charter)?;
    Ok(Counts {
        course: Course::start(),
        summary,
    })
}

/// The summary of what was counted of the trace, and the line with which that stops, where it does. The only
/// error is want of memory.
fn counted_text(
    alloc: Global,
    charter: &Charter,
    number: u32,
    facts: &Told<Counts>,
) -> Result<(Vec<u8>, Option<u32>), AllocError>
    requires script { charter.now ≡ bulk_script number }
    requires trace { facts.now ≡ trace_of charter.now }
    ensures text { IfOk result (λ r. r.0.items ≡ summary number (trace_of charter.now)) }
    ensures stop { IfOk result (λ r. r.1 ≡ stop_in (trace_of charter.now)) }
{
    let counts = facts.notes();
    let mut text = Vec::new(alloc);
    push_summary(&mut text, charter, number, &counts.summary)?;
    Ok((text, counts.course.stop))
}
