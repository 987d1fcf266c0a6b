//! What was held when the log ends is freed.
ghost use Rattle.std.specs.Prelude.{◌≡◌, ◌<◌, ◌≤◌, true, fold, map, OnOk};
ghost use Rattle.yard_model.specs.Genuine.{is_slot_of};
ghost use Rattle.yard_model.specs.Lawful.{lawful};
ghost use Rattle.yard_model.specs.Words.{numbers};
ghost use Rattle.yard_model.specs.declared.incarnation.Slot.TheVariants as slot;
ghost use Rattle.log_resume.specs.Restored.{freed, slots};

use entry_slots::Slots;
use std::alloc::AllocError;
use yard_model::laws::slot_law;
use yard_model::{Cause, Charter, Fact, ProducerNo, ShardNo, Slot};

/// Frees a slot, where it is held.
fn free(store: &mut Slots, slot: &Slot) -> Result<(), AllocError>
    requires slot { is_slot_of store.old.script slot.now ≡ true }
    requires lawful { lawful store.old.script store.old.lists ≡ true }
    ensures script { store.new.script ≡ store.old.script }
    ensures freed { OnOk result (store.new.lists ≡ freed store.old.lists slot.now) }
    ensures lawful { OnOk result (lawful store.old.script store.new.lists ≡ true) }
{
    slot_law();
    let Some(epoch) = store.grant(slot) else {
        return Ok(());
    };
    store.enter(&Fact::Freed(*slot, epoch, Cause::Stopped))?;
    Ok(())
}

/// Frees the shards that are held.
fn free_shards(store: &mut Slots, shards: u8) -> Result<(), AllocError>
    requires count { shards ≡ store.old.script.config.shards }
    requires few { shards ≤ 128 }
    requires lawful { lawful store.old.script store.old.lists ≡ true }
    ensures script { store.new.script ≡ store.old.script }
    ensures freed { OnOk result (store.new.lists ≡ fold freed store.old.lists (map slot.Shard (numbers 0 shards))) }
    ensures lawful { OnOk result (lawful store.old.script store.new.lists ≡ true) }
{
    for k in 0..shards {
        let Some(shard) = ShardNo::new(k, shards) else {
            unreachable!()
        };
        free(store, &Slot::Shard(shard))?;
    }
    Ok(())
}

/// Frees the queues that are held.
fn free_queues(store: &mut Slots, producers: u8) -> Result<(), AllocError>
    requires count { producers ≡ store.old.script.config.producers }
    requires few { producers ≤ 32 }
    requires lawful { lawful store.old.script store.old.lists ≡ true }
    ensures script { store.new.script ≡ store.old.script }
    ensures freed { OnOk result (store.new.lists ≡ fold freed store.old.lists (map slot.Queue (numbers 1 producers))) }
    ensures lawful { OnOk result (lawful store.old.script store.new.lists ≡ true) }
{
    for k in 0..producers {
        let Some(producer) = ProducerNo::new(k + 1) else {
            unreachable!()
        };
        free(store, &Slot::Queue(producer))?;
    }
    Ok(())
}

/// Frees each slot that is held.
pub(crate) fn free_all(store: &mut Slots, charter: &Charter) -> Result<(), AllocError>
    requires charter { store.old.script ≡ charter.now }
    requires lawful { lawful store.old.script store.old.lists ≡ true }
    ensures script { store.new.script ≡ store.old.script }
    ensures freed { OnOk result (store.new.lists ≡ fold freed store.old.lists (slots store.old.script)) }
    ensures lawful { OnOk result (lawful store.old.script store.new.lists ≡ true) }
{
    let config = charter.config();
    free_shards(store, config.shards)?;
    free(store, &Slot::Coordinator)?;
    free_queues(store, config.producers)?;
    Ok(())
}
