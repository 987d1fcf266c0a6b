//! Entries of the coordinator's list.
ghost use Rattle.std.specs.Prelude.{◌≡◌, ◌<◌, nat_lt, length};
ghost use Rattle.yard_model.specs.declared.fact.Fact.TheVariants as fact;
ghost use Rattle.yard_model.specs.Genuine.{is_shard};
ghost use Rattle.yard_model.specs.SlotReads.{regions};
ghost use Rattle.entry_judge.specs.Entered.{EntersCoord};

use crate::tests::{is_next, is_node};
use coordinator_state::CoordStore;
use yard_model::laws::slot_law;
use yard_model::{Cause, Charter, Fact, Incarnation, ShardNo, Slot};

/// The fact stands at the end of the coordinator's list where it may follow there; whether it may. The store
/// was made for this charter. A fact that is no entry of that list never may.
#[tactic(auto, using(crate::proofs::NeverLaws::never_coordinator))]
pub fn enter_coordinator(store: &mut CoordStore, charter: &Charter, fact: &Fact) -> bool
    requires spare { 0 < store.old.spare }
    requires charter { charter.now ≡ store.old.script }
    ensures { EntersCoord store.old fact.now result store.new }
{
    match fact {
        Fact::Granted(slot, epoch, who) => enter_grant(store, charter, *slot, *epoch, who),
        Fact::Freed(slot, epoch, cause) => enter_free(store, *slot, *epoch, *cause),
        Fact::Registered(region) => enter_registered(store, charter, region),
        Fact::Terminated(region) => enter_terminated(store, region),
        Fact::Allocated(shard, region) => enter_allocated(store, charter, *shard, region),
        Fact::Deallocated(shard) => enter_deallocated(store, charter, *shard),
        _ => false,
    }
}

fn enter_grant(
    store: &mut CoordStore,
    charter: &Charter,
    slot: Slot,
    epoch: u32,
    who: &Incarnation,
) -> bool
    requires spare { 0 < store.old.spare }
    requires charter { charter.now ≡ store.old.script }
    ensures { EntersCoord store.old (fact.Granted slot epoch who.now) result store.new }
{
    slot_law();
    if store.is_leased()
        || !is_next(epoch, store.epoch())
        || slot != Slot::Coordinator
        || !is_node(charter, who)
    {
        return false;
    }
    store.grant(*who);
    true
}

fn enter_free(store: &mut CoordStore, slot: Slot, epoch: u32, cause: Cause) -> bool
    requires spare { 0 < store.old.spare }
    ensures { EntersCoord store.old (fact.Freed slot epoch cause) result store.new }
{
    slot_law();
    if !store.is_leased() || epoch != store.epoch() || slot != Slot::Coordinator {
        return false;
    }
    store.free(cause);
    true
}

/// Whether one more region can be registered.
fn has_room(store: &CoordStore) -> bool
    ensures { result ≡ nat_lt (length (regions store.now.entries)) 16 }
{
    store.lent_loads().as_slice().len() < 16
}

fn enter_registered(store: &mut CoordStore, charter: &Charter, region: &Incarnation) -> bool
    requires spare { 0 < store.old.spare }
    requires charter { charter.now ≡ store.old.script }
    ensures { EntersCoord store.old (fact.Registered region.now) result store.new }
{
    if !store.is_leased()
        || !is_node(charter, region)
        || store.is_registered(*region)
        || !has_room(store)
    {
        return false;
    }
    store.registered(*region);
    true
}

fn enter_terminated(store: &mut CoordStore, region: &Incarnation) -> bool
    requires spare { 0 < store.old.spare }
    ensures { EntersCoord store.old (fact.Terminated region.now) result store.new }
{
    if !store.is_leased() || !store.is_registered(*region) {
        return false;
    }
    store.terminated(*region);
    true
}

/// Whether there is such a shard.
fn is_shard(charter: &Charter, shard: ShardNo) -> bool
    ensures { result ≡ is_shard charter.now shard }
{
    shard.get() < charter.config().shards
}

fn enter_allocated(
    store: &mut CoordStore,
    charter: &Charter,
    shard: ShardNo,
    region: &Incarnation,
) -> bool
    requires spare { 0 < store.old.spare }
    requires charter { charter.now ≡ store.old.script }
    ensures { EntersCoord store.old (fact.Allocated shard region.now) result store.new }
{
    if !store.is_leased()
        || !is_shard(charter, shard)
        || !store.is_registered(*region)
        || store.home(shard).is_some()
    {
        return false;
    }
    store.allocated(shard, *region);
    true
}

fn enter_deallocated(store: &mut CoordStore, charter: &Charter, shard: ShardNo) -> bool
    requires spare { 0 < store.old.spare }
    requires charter { charter.now ≡ store.old.script }
    ensures { EntersCoord store.old (fact.Deallocated shard) result store.new }
{
    if !store.is_leased() || !is_shard(charter, shard) || store.home(shard).is_none() {
        return false;
    }
    store.deallocated(shard);
    true
}
