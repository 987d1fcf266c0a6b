//! `log`: from a script to its trace, which is logged and written as it arises, and its report.
ghost use Rattle.std.specs.Prelude.{◌≡◌, ◌≢◌, ◌+◌, ◌<◌, ◌≤◌, ◌^◌, ◌++◌, ℕ, List, [], None, Some, Err, IfErr, IfOk, OnOk, OnErr, IsTrue, fold, length, slice_get};
ghost use Rattle.std.specs.List.{flat_map};
ghost use Rattle.yard_model.specs.declared.fact.Fact.{Fact as FactValue};
ghost use Rattle.yard_model.specs.Limits.{most_orders};
ghost use Rattle.yard_model.specs.Replay.{replay_text};
ghost use Rattle.yard_model.specs.Text.{fact_line};
ghost use Rattle.yard_model.specs.World.{trace_of};
ghost use Rattle.disk_log.specs.Images.{LeavesOnly, Only};
ghost use Rattle.disk_log.specs.Rest.{Rests};
ghost use Rattle.disk_log.specs.Spelled.{SpellsPrefix};
ghost use Rattle.disk_log.specs.Window.{IsUntouched};
ghost use Rattle.log_orders.specs.Gathered.{RestsOn};
ghost use Rattle.log_orders.specs.Orders.{batch_of};
ghost use Rattle.logged_lines.specs.Logged.{IsFresh, LogEnds, batches_of};
ghost use Rattle.logged_lines.specs.Told.{OrderEnds, WritesLog};
ghost use Rattle.run_parts.specs.Stops.{course, course_step, start, stop_in};
ghost use Rattle.world_sim.specs.Played.{next_of};
ghost use Rattle.replay_run.specs.Replays.{IsDone, IsNext, IsOn, trace_text};

use crate::following::play_next;
use crate::replay::write_end;
use behaviour_by_kind::ByKind;
use behaviour_core::Behaviour;
use disk_log::{Batch, Disk, Log};
use logged_lines::{LogError, tell_order};
use run_parts::{Course, course_after};
use std::alloc::Global;
use trace_notes::Told;
use trace_text::Sheet;
use world_sim::World;
use world_sim::laws::made_law;
use yard_io::Sink;
use yard_model::{Charter, Facts, Line};

/// Plays a script, and writes its trace and its report. What each order does to the slots' lists is on the disk, as one
/// batch, before a line of it is written. The line with which the trace stops, where it does. Nothing is flushed.
pub fn write_log<K: Sink, D: Disk>(
    alloc: Global,
    charter: Charter,
    sink: &mut K,
    disk: &mut D,
) -> Result<Option<u32>, LogError>
    ensures wrote { WritesLog (replay_text charter) result
        (record { taken = K.taken sink.old; flushed = K.flushed sink.old; faults = K.faults sink.old })
        (record { taken = K.taken sink.new; flushed = K.flushed sink.new; faults = K.faults sink.new }) }
    ensures stop { IfOk result (λ stop. stop ≡ stop_in (trace_of charter)) }

    // A crash at any moment leaves the batches of the first orders.
    ensures any_moment { IsTrue D.tells → Only [] (D.images disk.old) →
        LeavesOnly (D.images disk.old) (D.images disk.new) (SpellsPrefix (batches_of charter) 0) }

    // At its end each crash leaves those of each order of which a byte was written.
    ensures at_exit { IsTrue D.tells → IsFresh (D.content disk.old) (D.images disk.old) →
        LogEnds charter (K.taken sink.old) (K.taken sink.new) (D.images disk.new) }

    ensures there { result ≡ Err LogError.There → IsTrue D.tells → 0 < length (D.content disk.old) }
    ensures untouched { result ≡ Err LogError.There →
        IsUntouched (D.content disk.old) (D.content disk.new) (D.images disk.old) (D.images disk.new) }
    ensures not_there { OnOk result (IsTrue D.tells → D.content disk.old ≡ []) }
    ensures disk_cause { result ≡ Err LogError.Disk → D.faults disk.old < D.faults disk.new }
    ensures disk_faults { D.faults disk.old ≤ D.faults disk.new }
{
    charter.config();
    let behaviour = ByKind::new(charter.config().kind);
    logged(alloc, charter, behaviour, sink, disk)
}

/// What is at hand while a trace is logged and written: the facts of one order, room for their batch and their lines,
/// and how far the trace has come.
#[derive(Drop)]
struct Desk {
    facts: Told<Facts>,
    batch: Batch,
    lines: Sheet,
    course: Course,
}

/// Plays a script in a world whose entities behave so.
fn logged<B: Behaviour + Copy + Drop, K: Sink, D: Disk>(
    alloc: Global,
    charter: Charter,
    behaviour: B,
    sink: &mut K,
    disk: &mut D,
) -> Result<Option<u32>, LogError>
    requires kind { B.kind_of behaviour ≡ charter.config.kind }
    requires few { length charter.orders ≤ most_orders }
    ensures wrote { WritesLog (replay_text charter) result
        (record { taken = K.taken sink.old; flushed = K.flushed sink.old; faults = K.faults sink.old })
        (record { taken = K.taken sink.new; flushed = K.flushed sink.new; faults = K.faults sink.new }) }
    ensures stop { IfOk result (λ stop. stop ≡ stop_in (trace_of charter)) }
    ensures any_moment { IsTrue D.tells → Only [] (D.images disk.old) →
        LeavesOnly (D.images disk.old) (D.images disk.new) (SpellsPrefix (batches_of charter) 0) }
    ensures at_exit { IsTrue D.tells → IsFresh (D.content disk.old) (D.images disk.old) →
        LogEnds charter (K.taken sink.old) (K.taken sink.new) (D.images disk.new) }
    ensures there { result ≡ Err LogError.There → IsTrue D.tells → 0 < length (D.content disk.old) }
    ensures untouched { result ≡ Err LogError.There →
        IsUntouched (D.content disk.old) (D.content disk.new) (D.images disk.old) (D.images disk.new) }
    ensures not_there { OnOk result (IsTrue D.tells → D.content disk.old ≡ []) }
    ensures disk_cause { result ≡ Err LogError.Disk → D.faults disk.old < D.faults disk.new }
    ensures disk_faults { D.faults disk.old ≤ D.faults disk.new }
{
    let batch = Batch::new(alloc)?;
    let mut desk = Desk {
        facts: Told::new(Facts::new(alloc)),
        batch,
        lines: Sheet::new(alloc),
        course: Course::start(),
    };
    let log = Log::make(disk)?;
    log_world(alloc, charter, behaviour, &mut desk, log, sink, disk)?;
    Ok(desk.course.stop)
}

/// Plays a script in a world of its own: logs and writes its trace, and writes its report.
///
/// A function that owns a world is proved in a time that grows with what else it owns: so the desk is lent.
fn log_world<B: Behaviour + Copy + Drop, K: Sink, D: Disk>(
    alloc: Global,
    charter: Charter,
    behaviour: B,
    desk: &mut Desk,
    log: Log,
    sink: &mut K,
    disk: &mut D,
) -> Result<(), LogError>
    requires kind { B.kind_of behaviour ≡ charter.config.kind }
    requires few { length charter.orders ≤ most_orders }
    requires course { desk.old.course ≡ start }
    requires rests { Rests D.tells log (D.content disk.old) (D.images disk.old) [] }
    ensures wrote { WritesLog (replay_text charter) result
        (record { taken = K.taken sink.old; flushed = K.flushed sink.old; faults = K.faults sink.old })
        (record { taken = K.taken sink.new; flushed = K.flushed sink.new; faults = K.faults sink.new }) }
    ensures course { OnOk result (desk.new.course ≡ course (trace_of charter)) }
    ensures any_moment { IsTrue D.tells →
        LeavesOnly (D.images disk.old) (D.images disk.new) (SpellsPrefix (batches_of charter) 0) }
    ensures at_exit { IsTrue D.tells → LogEnds charter (K.taken sink.old) (K.taken sink.new) (D.images disk.new) }
    ensures never_there { IfErr result (λ e. e ≢ LogError.There) }
    ensures disk_cause { result ≡ Err LogError.Disk → D.faults disk.old < D.faults disk.new }
    ensures disk_faults { D.faults disk.old ≤ D.faults disk.new }
{
    let mut world = World::of(alloc, charter, behaviour)?;
    match play(&mut world, desk, log, sink, disk) {
        Ok(()) => {}
        Err(error) => {
            drop(world);
            return Err(error);
        }
    }
    write_end(alloc, world, &mut desk.lines, sink)?;
    Ok(())
}

/// Plays all orders of the script, or up to the one with which its trace stops: commits the batch of each, and writes
/// its lines then.
fn play<B: Behaviour + Copy + Drop, K: Sink, D: Disk>(
    world: &mut World<B>,
    desk: &mut Desk,
    log: Log,
    sink: &mut K,
    disk: &mut D,
) -> Result<(), LogError>
    requires world { world.old ≡ record { script = world.old.script; given = None; count = 0; fault = None } }
    requires few { length world.old.script.orders ≤ most_orders }
    requires course { desk.old.course ≡ start }
    requires rests { Rests D.tells log (D.content disk.old) (D.images disk.old) [] }
    ensures wrote { WritesLog (trace_text world.old.script) result
        (record { taken = K.taken sink.old; flushed = K.flushed sink.old; faults = K.faults sink.old })
        (record { taken = K.taken sink.new; flushed = K.flushed sink.new; faults = K.faults sink.new }) }
    ensures done { OnOk result (IsDone world.old.script world.new) }
    ensures course { OnOk result (desk.new.course ≡ course (trace_of world.old.script)) }
    ensures any_moment { IsTrue D.tells →
        LeavesOnly (D.images disk.old) (D.images disk.new) (SpellsPrefix (batches_of world.old.script) 0) }
    // After Ok each crash leaves all batches.
    ensures all { OnOk result (IsTrue D.tells → (image : List ℕ) → (D.images disk.new).now image →
        SpellsPrefix (batches_of world.old.script) (length (batches_of world.old.script)) image) }
    ensures at_exit { OnErr result (IsTrue D.tells → LogEnds world.old.script (K.taken sink.old) (K.taken sink.new) (D.images disk.new)) }
    ensures never_there { IfErr result (λ e. e ≢ LogError.There) }
    ensures disk_cause { result ≡ Err LogError.Disk → D.faults disk.old < D.faults disk.new }
    ensures disk_faults { D.faults disk.old ≤ D.faults disk.new }
{
    made_law();
    let mut log = log;
    for k in 0..world.orders().len() {
        let line = world.orders()[k];
        let (next, goes_on) = log_next(world, &line, desk, log, sink, disk)?;
        log = next;
        if !goes_on {
            return Ok(());
        }
    }
    Ok(())
}

/// Plays the next order, commits its batch and writes its lines; whether the trace goes on.
fn log_next<B: Behaviour + Copy + Drop, K: Sink, D: Disk>(
    world: &mut World<B>,
    line: &Line,
    desk: &mut Desk,
    log: Log,
    sink: &mut K,
    disk: &mut D,
) -> Result<(Log, bool), LogError>
    requires on { IsOn world.old.script world.old.count world.old }
    requires next { slice_get world.old.script.orders world.old.count ≡ Some line.now }
    requires room { log < 2 ^ 62 }
    requires rests { (done : List (List FactValue)) × RestsOn D.tells log (D.content disk.old) (D.images disk.old) done }
    ensures wrote { WritesLog (flat_map fact_line (next_of world.old.script world.old.count line.now).facts) result
        (record { taken = K.taken sink.old; flushed = K.flushed sink.old; faults = K.faults sink.old })
        (record { taken = K.taken sink.new; flushed = K.flushed sink.new; faults = K.faults sink.new }) }
    ensures next { IfOk result (λ r. IsNext world.old.script (world.old.count + 1) r.1 world.new) }
    ensures course { OnOk result (desk.new.course ≡ fold course_step desk.old.course (next_of world.old.script world.old.count line.now).facts) }
    ensures logged { IfOk result (λ r. (done : List (List FactValue)) →
        RestsOn D.tells log (D.content disk.old) (D.images disk.old) done →
        RestsOn D.tells r.0 (D.content disk.new) (D.images disk.new) (done ++ batch_of (next_of world.old.script world.old.count line.now).facts)) }
    ensures any_moment { (done : List (List FactValue)) →
        RestsOn D.tells log (D.content disk.old) (D.images disk.old) done → IsTrue D.tells →
        LeavesOnly (D.images disk.old) (D.images disk.new) (SpellsPrefix (done ++ batch_of (next_of world.old.script world.old.count line.now).facts) (length done)) }
    ensures at_exit { (done : List (List FactValue)) →
        RestsOn D.tells log (D.content disk.old) (D.images disk.old) done → IsTrue D.tells →
        OrderEnds (next_of world.old.script world.old.count line.now).facts done (K.taken sink.old) (K.taken sink.new) (D.images disk.new) }
    ensures end { IfOk result (λ r. r.0 ≤ log + (2 ^ 31 + 5)) }
    ensures never_there { IfErr result (λ e. e ≢ LogError.There) }
    ensures disk_cause { result ≡ Err LogError.Disk → D.faults disk.old < D.faults disk.new }
    ensures disk_faults { D.faults disk.old ≤ D.faults disk.new }
{
    desk.facts.clear();
    let goes_on = play_next(world, line, &mut desk.facts)?;
    let facts = desk.facts.as_slice();
    desk.course = course_after(desk.course, facts);
    let next = tell_order(log, facts, &mut desk.batch, &mut desk.lines, sink, disk)?;
    Ok((next, goes_on))
}
