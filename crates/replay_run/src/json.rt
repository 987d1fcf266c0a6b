//! `replay json`: from a script to the report of its trace's lists, as JSON.
ghost use Rattle.std.specs.Prelude.{◌≡◌, ◌++◌, [], IfOk, OnOk, IsTrue};
ghost use Rattle.yard_model.specs.Safe.{safe};
ghost use Rattle.yard_model.specs.World.{trace_of};
ghost use Rattle.replay_run.specs.Replays.{IsDone, replay_json};
ghost use Rattle.run_parts.specs.Stops.{stop_in};
ghost use Rattle.run_parts.specs.Writing.{Writes};

use crate::following::follow;
use crate::replay::{is_safe, stores_of};
use behaviour_by_kind::ByKind;
use behaviour_core::Behaviour;
use run_parts::{Course, WriteError, write_part};
use std::alloc::{AllocError, Global};
use trace_notes::Told;
use trace_text::push_json;
use world_sim::World;
use yard_io::Sink;
use yard_model::Charter;

/// Plays a script, and writes its report as JSON, once the trace is through. The line with which the
/// trace stops, where it does. Nothing is flushed.
pub fn write_json<K: Sink>(
    alloc: Global,
    charter: Charter,
    sink: &mut K,
) -> Result<Option<u32>, WriteError>
    ensures wrote { Writes (replay_json charter) result
        (record { taken = K.taken sink.old; flushed = K.flushed sink.old; faults = K.faults sink.old })
        (record { taken = K.taken sink.new; flushed = K.flushed sink.new; faults = K.faults sink.new }) }
    ensures stop { IfOk result (λ stop. stop ≡ stop_in (trace_of charter)) }
    ensures safe { IsTrue (safe charter (trace_of charter)) }
{
    is_safe(&charter);
    let behaviour = ByKind::new(charter.config().kind);
    let (text, stop) = json_of(alloc, charter, behaviour)?;
    write_part(sink, text.as_slice())?;
    Ok(stop)
}

/// The report as JSON of a script, played in a world whose entities behave so, and the line with which
/// its trace stops, where it does. The only error is want of memory.
fn json_of<B: Behaviour + Copy + Drop>(
    alloc: Global,
    charter: Charter,
    behaviour: B,
) -> Result<(Vec<u8>, Option<u32>), AllocError>
    requires { B.kind_of behaviour ≡ charter.config.kind }
    ensures text { IfOk result (λ r. r.0.items ≡ replay_json charter) }
    ensures stop { IfOk result (λ r. r.1 ≡ stop_in (trace_of charter)) }
{
    let mut facts = Told::new(Course::start());
    let mut text = Vec::new(alloc);
    tell_json(alloc, charter, behaviour, &mut facts, &mut text)?;
    Ok((text, facts.notes().stop))
}

/// Plays a script in a world of its own, tells its facts, and puts its report as JSON behind a text. The only
/// error is want of memory.
///
/// A function that owns a world is proved in a time that grows with what else it owns: so nothing else is
/// made here.
fn tell_json<B: Behaviour + Copy + Drop>(
    alloc: Global,
    charter: Charter,
    behaviour: B,
    facts: &mut Told<Course>,
    text: &mut Vec<u8>,
) -> Result<(), AllocError>
    requires kind { B.kind_of behaviour ≡ charter.config.kind }
    requires none { facts.old ≡ [] }
    ensures told { OnOk result (facts.new ≡ trace_of charter) }
    ensures text { OnOk result (text.new.items ≡ text.old.items ++ replay_json charter) }
{
    let mut world = World::of(alloc, charter, behaviour)?;
    match follow(&mut world, facts) {
        Ok(()) => {}
        Err(error) => {
            drop(world);
            return Err(error);
        }
    }
    push_end(world, text)?;
    Ok(())
}

/// Puts the report as JSON of a world that is through with its script behind a text. The only error is want of
/// memory.
fn push_end<B: Behaviour + Copy + Drop>(
    world: World<B>,
    text: &mut Vec<u8>,
) -> Result<(), AllocError>
    requires { IsDone world.script world }
    ensures { OnOk result (text.new.items ≡ text.old.items ++ replay_json world.script) }
{
    let (last, stores) = stores_of(world)?;
    push_json(text, &last, &stores)?;
    Ok(())
}
