//! Nodes that all stop, and the stores after that.
ghost use Rattle.std.specs.Prelude.{◌≡◌, ◌≤◌, None, IfOk, OnOk, IsTrue};
ghost use Rattle.yard_model.specs.declared.incarnation.Slot.{Slot};
ghost use Rattle.yard_model.specs.Genuine.{is_slot_of};
ghost use Rattle.yard_model.specs.Words.{at};
ghost use Rattle.yard_model.specs.World.{World};
ghost use Rattle.shard_store.specs.Stores.{lists_at, place_of};
ghost use Rattle.world_sim.specs.Played.{AreFreed};
ghost use Rattle.world_sim.specs.Stopped.{IsQuiet, IsStopped};
ghost use Rattle.world_sim.specs.Yard.{IsFirm};

use crate::laws::standing_is_kept;
use crate::yard::Yard;
use behaviour_core::Behaviour;
use shard_store::Stores;
use std::alloc::AllocError;
use trace_notes::{NoNotes, Told};
use yard_model::{Charter, NodeNo};

impl<B: Behaviour + Copy + Drop> Yard<B> {
    /// The charter with the number of shards in force, and the stores of all slots, once every node that
    /// is up has stopped. The only error is want of memory.
    pub(crate) fn into_stores(self) -> Result<(Charter, Stores), AllocError>
        requires world { (w : World) × IsFirm self w }
        requires version { self.version ≤ 60000000 }
        ensures charter { IfOk result (λ r. r.0 ≡ self.script) }
        ensures script { IfOk result (λ r. r.1.script ≡ self.script) }
        ensures lists { (w : World) → IsFirm self w → IfOk result (λ r. AreFreed self.script w.lists (lists_at self.script.config r.1.places)) }
        ensures same { (w : World) → IsFirm self w → IsQuiet w → IfOk result (λ r. lists_at self.script.config r.1.places ≡ w.lists) }
    {
        let mut yard = self;
        match yard.stop() {
            Ok(()) => Ok(yard.into_home()),
            Err(error) => {
                drop(yard);
                Err(error)
            }
        }
    }

    /// The charter with the number of shards in force, and the stores of all slots, of which none is leased.
    fn into_home(self) -> (Charter, Stores)
        requires { (s : Slot) → IsTrue (is_slot_of self.book.script s) → at self.book.holders (place_of self.book.script.config s) ≡ None }
        ensures charter { result.0 ≡ self.script }
        ensures script { result.1.script ≡ self.book.script }
        ensures places { result.1.places ≡ self.book.places }
    {
        let Yard {
            alloc: _,
            scene,
            behaviour: _,
            book,
            nodes,
            members,
            version: _,
            ups,
            ordered,
            mail,
            past: _,
            holds: _,
        } = self;
        drop(nodes);
        drop(members);
        drop(ups);
        drop(ordered);
        drop(mail);
        (scene.into_charter(), book.into_stores())
    }

    /// Every node that is up goes down.
    fn stop(&mut self) -> Result<(), AllocError>
        requires world { (w : World) × IsFirm self.old w }
        requires version { self.old.version ≤ 60000000 }
        ensures stopped { OnOk result ((w : World) → IsFirm self.old w → (v : World) × IsStopped (IsQuiet w) self.old.script.config.nodes w.lists self.new v) }
        ensures script { self.new.script ≡ self.old.script }
    {
        standing_is_kept();
        let count = self.scene.config().nodes;
        let mut facts = Told::new(NoNotes);
        for i in 0..count {
            let Some(n) = NodeNo::new(i + 1) else {
                unreachable!()
            };
            self.go_down(n, &mut facts)?;
        }
        Ok(())
    }
}
