//! `replay`: from a script to its trace, which is written as it arises, and its report.
ghost use Rattle.std.specs.Prelude.{◌≡◌, ◌+◌, ◌<◌, [], None, Some, IfOk, OnOk, IsTrue, fold, length, slice_get};
ghost use Rattle.std.specs.List.{flat_map};
ghost use Rattle.yard_model.specs.Replay.{replay_text};
ghost use Rattle.yard_model.specs.Safe.{safe};
ghost use Rattle.yard_model.specs.Script.{setting};
ghost use Rattle.yard_model.specs.Text.{fact_line, report};
ghost use Rattle.yard_model.specs.World.{played, trace_of, wire_limit};
ghost use Rattle.play_laws.specs.SafeText.{SafeText};
ghost use Rattle.shard_store.specs.Stores.{lists_at};
ghost use Rattle.trace_text.specs.Foldable.{is_foldable_in_all};
ghost use Rattle.trace_text.specs.Json.{json_text};
ghost use Rattle.trace_text.specs.Parts.{AreNames, report_part, report_parts};
ghost use Rattle.world_sim.specs.Played.{next_of};
ghost use Rattle.replay_run.specs.Replays.{IsOn, IsDone, IsNext, replay_json, trace_text};
ghost use Rattle.replay_run.specs.Settling.{EachSettles};
ghost use Rattle.run_parts.specs.Stops.{start, course, course_step, stop_in};
ghost use Rattle.run_parts.specs.Writing.{Writes};

use crate::following::play_next;
use behaviour_by_kind::ByKind;
use behaviour_core::Behaviour;
use behaviour_core::laws::decided_law;
use play_laws::play::{replay_is_safe, trace_is_safe};
use run_parts::{Course, WriteError, course_after, write_part};
use settle_laws::worlds::settle_line_settles;
use shard_store::Stores;
use std::alloc::{AllocError, Global};
use trace_notes::Told;
use trace_text::{ReportNames, Sheet, count_of_parts, parts_law};
use world_sim::World;
use world_sim::laws::made_law;
use yard_io::Sink;
use yard_model::laws::{command_law, decision_law};
use yard_model::{Charter, Facts, Line, Lists};

/// Plays a script, and writes its trace and its report: the lines of each order before the next is
/// played. The line with which the trace stops, where it does. Nothing is flushed.
pub fn write_replay<K: Sink>(
    alloc: Global,
    charter: Charter,
    sink: &mut K,
) -> Result<Option<u32>, WriteError>
    ensures wrote { Writes (replay_text charter) result
        (record { taken = K.taken sink.old; flushed = K.flushed sink.old; faults = K.faults sink.old })
        (record { taken = K.taken sink.new; flushed = K.flushed sink.new; faults = K.faults sink.new }) }
    ensures stop { IfOk result (λ stop. stop ≡ stop_in (trace_of charter)) }
    ensures safe { IsTrue (safe charter (trace_of charter)) }
    ensures safely { SafeText charter (replay_text charter) }
    ensures settles { EachSettles charter }
{
    is_safe(&charter);
    replay_is_safe();
    charter.config();
    settle_line_settles();
    let behaviour = ByKind::new(charter.config().kind);
    replayed(alloc, charter, behaviour, sink)
}

/// The trace of a script is safe.
pub(crate) fn is_safe(charter: &Charter)
    ensures { IsTrue (safe charter.now (trace_of charter.now)) }
{
    charter.config();
    trace_is_safe();
}

/// What is at hand while a trace is written: the facts of one order, their lines, and how far the
/// trace has come.
#[derive(Drop)]
struct Desk {
    facts: Told<Facts>,
    lines: Sheet,
    course: Course,
}

/// Plays a script in a world whose entities behave so.
fn replayed<B: Behaviour + Copy + Drop, K: Sink>(
    alloc: Global,
    charter: Charter,
    behaviour: B,
    sink: &mut K,
) -> Result<Option<u32>, WriteError>
    requires { B.kind_of behaviour ≡ charter.config.kind }
    ensures wrote { Writes (replay_text charter) result
        (record { taken = K.taken sink.old; flushed = K.flushed sink.old; faults = K.faults sink.old })
        (record { taken = K.taken sink.new; flushed = K.flushed sink.new; faults = K.faults sink.new }) }
    ensures stop { IfOk result (λ stop. stop ≡ stop_in (trace_of charter)) }
{
    let mut desk = Desk {
        facts: Told::new(Facts::new(alloc)),
        lines: Sheet::new(alloc),
        course: Course::start(),
    };
    replay_world(alloc, charter, behaviour, &mut desk, sink)?;
    Ok(desk.course.stop)
}

/// Plays a script in a world of its own, and writes its trace and its report.
///
/// A function that owns a world is proved in a time that grows with what else it owns: so the desk is lent.
fn replay_world<B: Behaviour + Copy + Drop, K: Sink>(
    alloc: Global,
    charter: Charter,
    behaviour: B,
    desk: &mut Desk,
    sink: &mut K,
) -> Result<(), WriteError>
    requires kind { B.kind_of behaviour ≡ charter.config.kind }
    requires course { desk.old.course ≡ start }
    ensures wrote { Writes (replay_text charter) result
        (record { taken = K.taken sink.old; flushed = K.flushed sink.old; faults = K.faults sink.old })
        (record { taken = K.taken sink.new; flushed = K.flushed sink.new; faults = K.faults sink.new }) }
    ensures course { OnOk result (desk.new.course ≡ course (trace_of charter)) }
{
    let mut world = World::of(alloc, charter, behaviour)?;
    match play(&mut world, desk, sink) {
        Ok(()) => {}
        Err(error) => {
            drop(world);
            return Err(error);
        }
    }
    write_end(alloc, world, &mut desk.lines, sink)?;
    Ok(())
}

/// Writes the report of a world that is through with its script.
pub(crate) fn write_end<B: Behaviour + Copy + Drop, K: Sink>(
    alloc: Global,
    world: World<B>,
    lines: &mut Sheet,
    sink: &mut K,
) -> Result<(), WriteError>
    requires { IsDone world.script world }
    ensures { Writes (report (played world.script wire_limit).world.set (played world.script wire_limit).world.lists) result
        (record { taken = K.taken sink.old; flushed = K.flushed sink.old; faults = K.faults sink.old })
        (record { taken = K.taken sink.new; flushed = K.flushed sink.new; faults = K.faults sink.new }) }
{
    let (last, stores) = stores_of(world)?;
    let wrote = write_report(alloc, lines, &last, &stores, sink);
    drop(last);
    drop(stores);
    wrote
}

/// Plays all orders of the script, or up to the one with which its trace stops, and writes their
/// lines.
fn play<B: Behaviour + Copy + Drop, K: Sink>(
    world: &mut World<B>,
    desk: &mut Desk,
    sink: &mut K,
) -> Result<(), WriteError>
    requires world { world.old ≡ record { script = world.old.script; given = None; count = 0; fault = None } }
    requires course { desk.old.course ≡ start }
    ensures wrote { Writes (trace_text world.old.script) result
        (record { taken = K.taken sink.old; flushed = K.flushed sink.old; faults = K.faults sink.old })
        (record { taken = K.taken sink.new; flushed = K.flushed sink.new; faults = K.faults sink.new }) }
    ensures done { OnOk result (IsDone world.old.script world.new) }
    ensures course { OnOk result (desk.new.course ≡ course (trace_of world.old.script)) }
{
    made_law();
    for k in 0..world.orders().len() {
        let line = world.orders()[k];
        if !write_next(world, &line, desk, sink)? {
            return Ok(());
        }
    }
    Ok(())
}

/// Plays the next order and writes its lines; whether the trace goes on.
fn write_next<B: Behaviour + Copy + Drop, K: Sink>(
    world: &mut World<B>,
    line: &Line,
    desk: &mut Desk,
    sink: &mut K,
) -> Result<bool, WriteError>
    requires on { IsOn world.old.script world.old.count world.old }
    requires next { slice_get world.old.script.orders world.old.count ≡ Some line.now }
    ensures wrote { Writes (flat_map fact_line (next_of world.old.script world.old.count line.now).facts) result
        (record { taken = K.taken sink.old; flushed = K.flushed sink.old; faults = K.faults sink.old })
        (record { taken = K.taken sink.new; flushed = K.flushed sink.new; faults = K.faults sink.new }) }
    ensures next { IfOk result (λ goes_on. IsNext world.old.script (world.old.count + 1) goes_on world.new) }
    ensures course { OnOk result (desk.new.course ≡ fold course_step desk.old.course (next_of world.old.script world.old.count line.now).facts) }
{
    desk.facts.clear();
    let goes_on = play_next(world, line, &mut desk.facts)?;
    write_facts(desk, sink)?;
    Ok(goes_on)
}

/// Writes the lines of the facts at hand, and notes how far the trace has come with them.
fn write_facts<K: Sink>(desk: &mut Desk, sink: &mut K) -> Result<(), WriteError>
    ensures wrote { Writes (flat_map fact_line desk.old.facts) result
        (record { taken = K.taken sink.old; flushed = K.flushed sink.old; faults = K.faults sink.old })
        (record { taken = K.taken sink.new; flushed = K.flushed sink.new; faults = K.faults sink.new }) }
    ensures course { desk.new.course ≡ fold course_step desk.old.course desk.old.facts }
{
    desk.course = course_after(desk.course, desk.facts.as_slice());
    desk.lines.clear();
    desk.lines.push_facts(desk.facts.as_slice())?;
    write_part(sink, desk.lines.as_slice())
}

/// Writes the report of these stores, one part after the other.
pub(crate) fn write_report<T: Lists, K: Sink>(
    alloc: Global,
    lines: &mut Sheet,
    charter: &Charter,
    stores: &T,
    sink: &mut K,
) -> Result<(), WriteError>
    requires { IsTrue (is_foldable_in_all (setting charter.now) (T.lists stores.now)) }
    ensures { Writes (report (setting charter.now) (T.lists stores.now)) result
        (record { taken = K.taken sink.old; flushed = K.flushed sink.old; faults = K.faults sink.old })
        (record { taken = K.taken sink.new; flushed = K.flushed sink.new; faults = K.faults sink.new }) }
{
    parts_law();
    let names = ReportNames::new(alloc, charter)?;
    for k in 0..count_of_parts(charter) {
        write_report_part(lines, charter, &names, stores, k, sink)?;
    }
    Ok(())
}

/// Writes a part of the report of these stores.
fn write_report_part<T: Lists, K: Sink>(
    lines: &mut Sheet,
    charter: &Charter,
    names: &ReportNames,
    stores: &T,
    k: usize,
    sink: &mut K,
) -> Result<(), WriteError>
    requires foldable { IsTrue (is_foldable_in_all (setting charter.now) (T.lists stores.now)) }
    requires names { AreNames (setting charter.now) names.now }
    requires within { k < length (report_parts (setting charter.now) (T.lists stores.now)) }
    ensures { Writes (report_part (setting charter.now) (T.lists stores.now) k) result
        (record { taken = K.taken sink.old; flushed = K.flushed sink.old; faults = K.faults sink.old })
        (record { taken = K.taken sink.new; flushed = K.flushed sink.new; faults = K.faults sink.new }) }
{
    lines.clear();
    lines.push_report_part(charter, names, stores, k)?;
    write_part(sink, lines.as_slice())
}

/// The charter with the number of shards in force, and the stores, of a world that is through with its
/// script. The only error is want of memory.
pub(crate) fn stores_of<B: Behaviour + Copy + Drop>(
    world: World<B>,
) -> Result<(Charter, Stores), AllocError>
    requires { IsDone world.script world }
    ensures report { IfOk result (λ r. report (setting r.0) (lists_at r.1.script.config r.1.places) ≡ report (played world.script wire_limit).world.set (played world.script wire_limit).world.lists) }
    ensures json { IfOk result (λ r. json_text (setting r.0) (lists_at r.1.script.config r.1.places) ≡ replay_json world.script) }
    ensures foldable { IfOk result (λ r. IsTrue (is_foldable_in_all (setting r.0) (lists_at r.1.script.config r.1.places))) }
{
    command_law();
    decision_law();
    decided_law();
    let (last, stores) = world.into_stores()?;
    last.config();
    Ok((last, stores))
}
