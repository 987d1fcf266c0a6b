//! The stores of a world at its end, and the settling of given ones.
ghost use Rattle.std.specs.Prelude.{◌≡◌, ◌≢◌, false, Some, IfOk, IsSome};
ghost use Rattle.shard_store.specs.Stores.{lists_at};
ghost use Rattle.world_sim.specs.declared.fault.StepFault.TheVariants as fault;
ghost use Rattle.world_sim.specs.Given.{IsGiven};
ghost use Rattle.world_sim.specs.Played.{AreFreed, AreSettled, made_at};
ghost use Rattle.yard_model.specs.Script.{setting, with_shards};
ghost use Rattle.yard_model.specs.World.{is_any_up};

use crate::world::World;
use behaviour_core::Behaviour;
use shard_store::Stores;
use std::alloc::{AllocError, Global};
use trace_notes::{NoNotes, Told};
use yard_model::Charter;

impl<B: Behaviour + Copy + Drop> World<B> {
    /// The charter with the number of shards in force, and the stores of all slots, once every node that
    /// is up has stopped: each list is the slot's list so far, with the entry that frees it where the slot
    /// was held; where no node was up, as after a settle, the lists are those so far. The only error is
    /// want of memory, and then the world is gone.
    pub fn into_stores(self) -> Result<(Charter, Stores), AllocError>
        requires { self.fault ≢ Some fault.OutOfMemory }
        ensures charter { IfOk result (λ r. r.0 ≡ with_shards r.0.config.shards self.script) }
        ensures given { IsSome self.given → IfOk result (λ r. r.0 ≡ self.script) }
        ensures set { IfOk result (λ r. setting r.0 ≡ (made_at self).world.set) }
        ensures script { IfOk result (λ r. r.1.script ≡ r.0) }
        ensures lists { IfOk result (λ r. AreFreed r.0 (made_at self).world.lists (lists_at r.0.config r.1.places)) }
        ensures same { is_any_up (made_at self).world ≡ false → IfOk result (λ r. lists_at r.0.config r.1.places ≡ (made_at self).world.lists) }
    {
        let World {
            script: _,
            given: _,
            yard,
            count: _,
            fault: _,
        } = self;
        yard.into_stores()
    }
}

/// The stores that the settling of given ones leads to: every send of the script is queued, recorded and
/// confirmed, no slot is held, the lists are lawful, and each goes on from the given one. Of the given
/// stores the lists are lawful, no slot is held, no number of an incarnation in them is above 4,000,000,000,
/// and a wire has room for the packets of their settling: so it has where at most 40,000 commands are
/// outstanding (`settle_laws: outstanding_fits`). The only error is want of memory.
pub fn settle_stores<B: Behaviour + Copy + Drop>(
    alloc: Global,
    charter: &Charter,
    behaviour: B,
    stores: Stores,
) -> Result<Stores, AllocError>
    requires kind { B.kind_of behaviour ≡ charter.now.config.kind }
    requires script { stores.script ≡ charter.now }
    requires given { IsGiven charter.now (B.version_of behaviour) (lists_at charter.now.config stores.places) }
    ensures script { IfOk result (λ s. s.script ≡ charter.now) }
    ensures settled { IfOk result (λ s. AreSettled charter.now (lists_at charter.now.config stores.places) (lists_at charter.now.config s.places)) }
{
    let mut world = World::from_stores(alloc, charter, behaviour, stores)?;
    let mut facts = Told::new(NoNotes);
    match world.settle(&mut facts) {
        Ok(()) => {
            let (last, settled) = world.into_stores()?;
            drop(last);
            Ok(settled)
        }
        Err(error) => {
            drop(world);
            Err(error)
        }
    }
}
