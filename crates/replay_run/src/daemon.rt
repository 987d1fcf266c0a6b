//! `daemon`: instances that pings keep running, and which of them each line moves.
ghost use Rattle.std.specs.Prelude.{◌≡◌, ◌≤◌, [], IfOk, IsTrue, length};
ghost use Rattle.yard_model.specs.declared.event.Kind.TheVariants as kind;
ghost use Rattle.yard_model.specs.Behaviour.{is_in};
ghost use Rattle.yard_model.specs.World.{trace_of};
ghost use Rattle.daemon_process.specs.Daemon.{expanded};
ghost use Rattle.daemon_process.specs.DaemonText.{daemon_text};
ghost use Rattle.daemon_process.specs.Lines.{IsDrawnOf};
ghost use Rattle.script_text.specs.Fit.{IsPinged};
ghost use Rattle.replay_run.specs.Daemons.{DaemonHolds};
ghost use Rattle.run_parts.specs.Stops.{course, stop_in};
ghost use Rattle.run_parts.specs.Writing.{Writes};

use crate::following::tell_trace;
use daemon_process::laws::{drawn_is_text, expanded_is_script, safe_is_single, written_is_live};
use daemon_process::{DaemonLines, expand};
use play_laws::play::trace_is_safe;
use queued_laws::laws::{confirmed_was_written, recorded_is_queued};
use run_parts::{Course, WriteError, write_part};
use settle_laws::worlds::settle_line_settles;
use std::alloc::{AllocError, Global};
use trace_notes::{Notes, Told};
use yard_io::Sink;
use yard_model::{Charter, Fact, Packet};

/// Plays a script of pings, and writes which instances each of its lines moves, once it is through. The
/// line with which the trace stops, where it does. Nothing is flushed.
pub fn write_daemon<K: Sink>(
    alloc: Global,
    charter: &Charter,
    count: u8,
    sink: &mut K,
) -> Result<Option<u32>, WriteError>
    requires count { IsTrue (is_in 1 100 count) }
    requires fit { IsPinged charter.now }
    requires few { length charter.now.orders ≤ 20000 }
    ensures wrote { Writes (daemon_text count charter.now) result
        (record { taken = K.taken sink.old; flushed = K.flushed sink.old; faults = K.faults sink.old })
        (record { taken = K.taken sink.new; flushed = K.flushed sink.new; faults = K.faults sink.new }) }
    ensures stop { IfOk result (λ stop. stop ≡ stop_in (trace_of (expanded count charter.now))) }
    ensures holds { DaemonHolds count charter.now }
{
    daemon_holds(charter, count);
    let (text, stop) = text_of_daemon(alloc, charter, count)?;
    write_part(sink, text.as_slice())?;
    Ok(stop)
}

/// What is so of a daemon, whatever its script.
fn daemon_holds(charter: &Charter, count: u8)
    requires count { count ≤ 100 }
    requires fit { IsPinged charter.now }
    requires few { length charter.now.orders ≤ 20000 }
    ensures { DaemonHolds count charter.now }
{
    charter.config();
    expanded_is_script();
    trace_is_safe();
    safe_is_single();
    written_is_live();
    recorded_is_queued();
    confirmed_was_written();
    settle_line_settles();
}

/// The text that arises, and how far the trace has come.
#[derive(Drop)]
struct Daemon {
    course: Course,
    lines: DaemonLines,
}

impl Notes for Daemon {
    ghost use Rattle.std.specs.Prelude.{◌≡◌, length};
    ghost use Rattle.daemon_process.specs.Lines.{IsDrawnOf};
    ghost use Rattle.run_parts.specs.Stops.{course};

    ghost are_of = { λ daemon facts. (daemon.course ≡ course facts) × IsDrawnOf (length daemon.lines.watch.here) daemon.lines facts };

    #[inline(always)]
    fn note(&mut self, fact: &Fact) -> Result<(), AllocError> {
        self.lines.note(fact)?;
        self.course.go_on(fact);
        Ok(())
    }

    #[inline(always)]
    fn note_sent(&mut self, number: u32, packet: &Packet) -> Result<(), AllocError> {
        self.lines.note_sent(number, packet)
    }
}

/// The text of a daemon, and the line with which its trace stops, where it does. The only error is want
/// of memory.
fn text_of_daemon(
    alloc: Global,
    charter: &Charter,
    count: u8,
) -> Result<(Vec<u8>, Option<u32>), AllocError>
    requires count { count ≤ 100 }
    requires fit { IsPinged charter.now }
    requires few { length charter.now.orders ≤ 20000 }
    ensures text { IfOk result (λ r. r.0.items ≡ daemon_text count charter.now) }
    ensures stop { IfOk result (λ r. r.1 ≡ stop_in (trace_of (expanded count charter.now))) }
{
    let full = expand(alloc, charter, count)?;
    let daemon = nothing_drawn(alloc)?;
    let mut facts = Told::new(daemon);
    tell_trace(alloc, &full, &mut facts)?;
    drawn_text(alloc, charter, count, &facts)
}

/// Nothing is drawn yet. The only error is want of memory.
fn nothing_drawn(alloc: Global) -> Result<Daemon, AllocError>
    ensures { IfOk result (λ daemon. (daemon.course ≡ course []) × IsDrawnOf (length daemon.lines.watch.here) daemon.lines []) }
{
    let lines = DaemonLines::new(alloc)?;
    Ok(Daemon {
        course: Course::start(),
        lines,
    })
}

/// The text that was drawn of the trace, and the line with which that stops, where it does. The only error
/// is want of memory.
fn drawn_text(
    alloc: Global,
    charter: &Charter,
    count: u8,
    facts: &Told<Daemon>,
) -> Result<(Vec<u8>, Option<u32>), AllocError>
    requires count { count ≤ 100 }
    requires fit { IsPinged charter.now }
    requires few { length charter.now.orders ≤ 20000 }
    requires trace { facts.now ≡ trace_of (expanded count charter.now) }
    ensures text { IfOk result (λ r. r.0.items ≡ daemon_text count charter.now) }
    ensures stop { IfOk result (λ r. r.1 ≡ stop_in (trace_of (expanded count charter.now))) }
{
    daemon_holds(charter, count);
    drawn_is_text();
    let daemon = facts.notes();
    let mut text = Vec::new(alloc);
    daemon.lines.push_whole(&mut text, count)?;
    Ok((text, daemon.course.stop))
}
