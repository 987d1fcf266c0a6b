//! From a script of jobs to its trace and the report of the jobs.
ghost use Rattle.std.specs.Prelude.{◌≡◌, ◌+◌, ◌++◌, None, Some, IfOk, OnOk, IsTrue, fold, slice_get};
ghost use Rattle.std.specs.List.{flat_map};
ghost use Rattle.yard_model.specs.Text.{fact_line};
ghost use Rattle.pull_laws.specs.Pulling.{pull_trace};
ghost use Rattle.pull_laws.specs.PullSafe.{pull_safe};
ghost use Rattle.pull_laws.specs.PullText.{pull_report, pull_text};
ghost use Rattle.script_text.specs.Fit.{IsPulled};
ghost use Rattle.run_parts.specs.Stops.{start, course, course_step, stop_in};
ghost use Rattle.run_parts.specs.Writing.{Writes};
ghost use Rattle.work_pulling.specs.Played.{NotCut, told_by};
ghost use Rattle.pull_run.specs.Pulls.{IsDone, IsNext, IsOn, line_facts, trace_text};

use pull_laws::safety::pull_trace_is_safe;
use run_parts::{Course, WriteError, course_after, write_part};
use std::alloc::{AllocError, Global};
use trace_text::Sheet;
use work_pulling::{PullFault, PullWorld};
use yard_io::Sink;
use yard_model::{Charter, Facts, Line};

/// Plays a script of jobs, and writes its trace and the report of the jobs: the lines of each order before
/// the next is played. The line with which the trace stops, where it does. Nothing is flushed.
pub fn write_pull<K: Sink>(
    alloc: Global,
    charter: &Charter,
    sink: &mut K,
) -> Result<Option<u32>, WriteError>
    requires { IsPulled charter.now }
    ensures wrote { Writes (pull_text charter.now) result
        (record { taken = K.taken sink.old; flushed = K.flushed sink.old; faults = K.faults sink.old })
        (record { taken = K.taken sink.new; flushed = K.flushed sink.new; faults = K.faults sink.new }) }
    ensures stop { IfOk result (λ stop. stop ≡ stop_in (pull_trace charter.now)) }
    ensures safe { IsTrue (pull_safe charter.now (pull_trace charter.now)) }
{
    jobs_are_safe(charter);
    charter.config();
    let mut world = PullWorld::new(alloc, charter)?;
    let mut desk = Desk {
        facts: Facts::new(alloc),
        lines: Sheet::new(alloc),
        course: Course::start(),
    };
    play(charter, &mut world, &mut desk, sink)?;
    write_jobs(alloc, &world, sink)?;
    Ok(desk.course.stop)
}

/// The trace of a script of jobs is safe.
fn jobs_are_safe(charter: &Charter)
    requires { IsPulled charter.now }
    ensures { IsTrue (pull_safe charter.now (pull_trace charter.now)) }
{
    charter.config();
    pull_trace_is_safe();
}

/// What is at hand while a trace is written: the facts of one line, how they are spelled, and how far the
/// trace has come.
#[derive(Drop)]
struct Desk {
    facts: Facts,
    lines: Sheet,
    course: Course,
}

/// Plays all lines of the script, or up to the one with which its trace stops, and writes what they tell.
fn play<K: Sink>(
    charter: &Charter,
    world: &mut PullWorld,
    desk: &mut Desk,
    sink: &mut K,
) -> Result<(), WriteError>
    requires world { world.old ≡ record { script = charter.now; count = 0; fault = None } }
    requires course { desk.old.course ≡ start }
    ensures wrote { Writes (trace_text charter.now) result
        (record { taken = K.taken sink.old; flushed = K.flushed sink.old; faults = K.faults sink.old })
        (record { taken = K.taken sink.new; flushed = K.flushed sink.new; faults = K.faults sink.new }) }
    ensures done { OnOk result (IsDone charter.now world.new) }
    ensures course { OnOk result (desk.new.course ≡ course (pull_trace charter.now)) }
{
    for k in 0..charter.orders().len() {
        let line = charter.orders()[k];
        if !write_next(world, &line, desk, sink)? {
            return Ok(());
        }
    }
    Ok(())
}

/// Plays the next line and writes what it tells; whether the trace goes on.
fn write_next<K: Sink>(
    world: &mut PullWorld,
    line: &Line,
    desk: &mut Desk,
    sink: &mut K,
) -> Result<bool, WriteError>
    requires on { IsOn world.old.script world.old.count world.old }
    requires next { slice_get world.old.script.orders world.old.count ≡ Some line.now }
    ensures wrote { Writes (flat_map fact_line (line_facts world.old.script world.old.count)) result
        (record { taken = K.taken sink.old; flushed = K.flushed sink.old; faults = K.faults sink.old })
        (record { taken = K.taken sink.new; flushed = K.flushed sink.new; faults = K.faults sink.new }) }
    ensures next { IfOk result (λ goes_on. IsNext world.old.script (world.old.count + 1) goes_on world.new) }
    ensures course { OnOk result (desk.new.course ≡ fold course_step desk.old.course (line_facts world.old.script world.old.count)) }
{
    desk.facts.clear();
    let goes_on = play_next(world, line, &mut desk.facts)?;
    write_facts(desk, sink)?;
    Ok(goes_on)
}

/// Plays the next line, and tells its facts; whether the trace goes on. The only error is want of memory.
fn play_next(world: &mut PullWorld, line: &Line, facts: &mut Facts) -> Result<bool, AllocError>
    requires on { IsOn world.old.script world.old.count world.old }
    requires next { slice_get world.old.script.orders world.old.count ≡ Some line.now }
    ensures next { IfOk result (λ goes_on. IsNext world.old.script (world.old.count + 1) goes_on world.new) }
    ensures facts { OnOk result (facts.new ≡ facts.old ++ line_facts world.old.script world.old.count) }
{
    match world.step(line, facts) {
        Ok(()) => Ok(true),
        Err(PullFault::WireFull) => Ok(false),
        Err(PullFault::OutOfMemory) => Err(AllocError),
    }
}

/// Writes the facts at hand, and notes how far the trace has come with them.
fn write_facts<K: Sink>(desk: &mut Desk, sink: &mut K) -> Result<(), WriteError>
    ensures wrote { Writes (flat_map fact_line desk.old.facts) result
        (record { taken = K.taken sink.old; flushed = K.flushed sink.old; faults = K.faults sink.old })
        (record { taken = K.taken sink.new; flushed = K.flushed sink.new; faults = K.faults sink.new }) }
    ensures course { desk.new.course ≡ fold course_step desk.old.course desk.old.facts }
{
    desk.course = course_after(desk.course, desk.facts.as_slice());
    desk.lines.clear();
    desk.lines.push_facts(desk.facts.as_slice())?;
    write_part(sink, desk.lines.as_slice())
}

/// Writes the report of the jobs.
fn write_jobs<K: Sink>(alloc: Global, world: &PullWorld, sink: &mut K) -> Result<(), WriteError>
    requires { NotCut world.now.fault }
    ensures { Writes (pull_report (told_by world.now).told) result
        (record { taken = K.taken sink.old; flushed = K.flushed sink.old; faults = K.faults sink.old })
        (record { taken = K.taken sink.new; flushed = K.flushed sink.new; faults = K.faults sink.new }) }
{
    let mut text = Vec::new(alloc);
    world.push_report(&mut text)?;
    write_part(sink, text.as_slice())
}
