//! A trace as it arises, order by order, for what is noted of it alone.
ghost use Rattle.std.specs.Prelude.{◌≡◌, ◌+◌, ◌++◌, [], None, Some, IfOk, OnOk, slice_get};
ghost use Rattle.yard_model.specs.World.{trace_of};
ghost use Rattle.world_sim.specs.Played.{next_of};
ghost use Rattle.replay_run.specs.Replays.{IsOn, IsDone, IsNext};

use behaviour_by_kind::ByKind;
use behaviour_core::Behaviour;
use std::alloc::{AllocError, Global};
use trace_notes::{Notes, Told};
use world_sim::laws::made_law;
use world_sim::{StepFault, World};
use yard_model::{Charter, Line};

/// Plays a script in a world of its own, and tells its facts. The only error is want of memory.
///
/// A function that owns a world is proved in a time that grows with what else it owns: so nothing else is
/// made here.
pub(crate) fn tell_trace<N: Notes>(
    alloc: Global,
    charter: &Charter,
    facts: &mut Told<N>,
) -> Result<(), AllocError>
    requires { facts.old ≡ [] }
    ensures { OnOk result (facts.new ≡ trace_of charter.now) }
{
    let behaviour = ByKind::new(charter.config().kind);
    let mut world = World::new(alloc, charter, behaviour)?;
    let told = follow(&mut world, facts);
    drop(world);
    told
}

/// Plays all orders of the script, or up to the one with which its trace stops, and tells their facts.
/// The only error is want of memory.
pub(crate) fn follow<B: Behaviour + Copy + Drop, N: Notes>(
    world: &mut World<B>,
    facts: &mut Told<N>,
) -> Result<(), AllocError>
    requires world { world.old ≡ record { script = world.old.script; given = None; count = 0; fault = None } }
    requires none { facts.old ≡ [] }
    ensures done { OnOk result (IsDone world.old.script world.new) }
    ensures told { OnOk result (facts.new ≡ trace_of world.old.script) }
{
    made_law();
    for k in 0..world.orders().len() {
        let line = world.orders()[k];
        if !play_next(world, &line, facts)? {
            return Ok(());
        }
    }
    Ok(())
}

/// Plays the next order, and tells its facts; whether the trace goes on. The only error is want of
/// memory.
pub(crate) fn play_next<B: Behaviour + Copy + Drop, N: Notes>(
    world: &mut World<B>,
    line: &Line,
    facts: &mut Told<N>,
) -> Result<bool, AllocError>
    requires on { IsOn world.old.script world.old.count world.old }
    requires next { slice_get world.old.script.orders world.old.count ≡ Some line.now }
    ensures next { IfOk result (λ goes_on. IsNext world.old.script (world.old.count + 1) goes_on world.new) }
    ensures facts { OnOk result (facts.new ≡ facts.old ++ (next_of world.old.script world.old.count line.now).facts) }
{
    made_law();
    match world.step(line, facts) {
        Ok(()) => Ok(true),
        Err(StepFault::WireFull) => Ok(false),
        Err(StepFault::OutOfMemory) => Err(AllocError),
    }
}
