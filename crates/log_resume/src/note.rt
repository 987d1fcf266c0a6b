//! What is held when the log ends is noted, as the entries that free it.
ghost use Rattle.std.specs.Prelude.{◌≡◌, ◌≤◌, ◌++◌, true, map, OnErr, OnOk};
ghost use Rattle.std.specs.List.{flat_map};
ghost use Rattle.yard_model.specs.Genuine.{is_slot_of};
ghost use Rattle.yard_model.specs.Words.{numbers};
ghost use Rattle.yard_model.specs.declared.incarnation.Slot.TheVariants as slot;
ghost use Rattle.log_resume.specs.Left.{IsBegun, free_if, frees};

use entry_slots::Slots;
use std::alloc::AllocError;
use yard_model::{Cause, Charter, Fact, Facts, ProducerNo, ShardNo, Slot};

/// Notes a slot, where it is held.
fn note(store: &Slots, slot: &Slot, freed: &mut Facts) -> Result<(), AllocError>
    requires { is_slot_of store.now.script slot.now ≡ true }
    ensures ok { OnOk result (freed.new ≡ freed.old ++ free_if store.now.lists slot.now) }
    ensures err { OnErr result (freed.new ≡ freed.old) }
{
    let Some(epoch) = store.grant(slot) else {
        return Ok(());
    };
    freed.push_copy(&Fact::Freed(*slot, epoch, Cause::Stopped))
}

/// Notes the shards that are held.
fn note_shards(store: &Slots, shards: u8, freed: &mut Facts) -> Result<(), AllocError>
    requires count { shards ≡ store.now.script.config.shards }
    requires few { shards ≤ 128 }
    ensures ok { OnOk result (freed.new ≡ freed.old ++ flat_map (free_if store.now.lists) (map slot.Shard (numbers 0 shards))) }
    ensures err { OnErr result (IsBegun freed.old (flat_map (free_if store.now.lists) (map slot.Shard (numbers 0 shards))) freed.new) }
{
    for k in 0..shards {
        let Some(shard) = ShardNo::new(k, shards) else {
            unreachable!()
        };
        note(store, &Slot::Shard(shard), freed)?;
    }
    Ok(())
}

/// Notes the queues that are held.
fn note_queues(store: &Slots, producers: u8, freed: &mut Facts) -> Result<(), AllocError>
    requires count { producers ≡ store.now.script.config.producers }
    requires few { producers ≤ 32 }
    ensures ok { OnOk result (freed.new ≡ freed.old ++ flat_map (free_if store.now.lists) (map slot.Queue (numbers 1 producers))) }
    ensures err { OnErr result (IsBegun freed.old (flat_map (free_if store.now.lists) (map slot.Queue (numbers 1 producers))) freed.new) }
{
    for k in 0..producers {
        let Some(producer) = ProducerNo::new(k + 1) else {
            unreachable!()
        };
        note(store, &Slot::Queue(producer), freed)?;
    }
    Ok(())
}

/// Notes each slot that is held, in slot order.
pub(crate) fn note_all(
    store: &Slots,
    charter: &Charter,
    freed: &mut Facts,
) -> Result<(), AllocError>
    requires { store.now.script ≡ charter.now }
    ensures ok { OnOk result (freed.new ≡ freed.old ++ frees charter.now store.now.lists) }
    ensures err { OnErr result (IsBegun freed.old (frees charter.now store.now.lists) freed.new) }
{
    let config = charter.config();
    note_shards(store, config.shards, freed)?;
    note(store, &Slot::Coordinator, freed)?;
    note_queues(store, config.producers, freed)?;
    Ok(())
}
