//! Entries of a shard's list.
ghost use Rattle.std.specs.Prelude.{◌≡◌, ◌<◌, ◌+◌, ◌==◌, ◌&&◌, IsTrue, length};
ghost use Rattle.std.specs.List.{list_any};
ghost use Rattle.yard_model.specs.declared.fact.Fact.TheVariants as fact;
ghost use Rattle.yard_model.specs.Behaviour.{folded};
ghost use Rattle.yard_model.specs.Genuine.{is_planned};
ghost use Rattle.yard_model.specs.Lawful.{is_decided, is_of_shard};
ghost use Rattle.yard_model.specs.Script.{versions};
ghost use Rattle.yard_model.specs.SlotReads.{journal, last_snapshot, position};
ghost use Rattle.shard_store.specs.Shelf.{slot_of};
ghost use Rattle.entry_judge.specs.Entered.{EntersShard};

use crate::tests::{is_next, is_node, is_producer};
use shard_store::ShardStore;
use yard_model::laws::slot_law;
use yard_model::{Cause, Charter, EntityName, Incarnation, ProducerNo, Record, State};

/// A grant of this shard stands at the end of its list where it may follow there; whether it may. The store was
/// made for this charter.
pub fn enter_grant(store: &mut ShardStore, charter: &Charter, epoch: u32, who: &Incarnation) -> bool
    requires spare { 0 < store.old.spare }
    requires charter { charter.now ≡ store.old.script }
    ensures { EntersShard store.old (fact.Granted (slot_of store.old) epoch who.now) result store.new }
{
    slot_law();
    if store.is_leased() || !is_next(epoch, store.epoch()) || !is_node(charter, who) {
        return false;
    }
    store.grant(*who);
    true
}

/// The same, of the end of a grant.
pub fn enter_free(store: &mut ShardStore, epoch: u32, cause: Cause) -> bool
    requires spare { 0 < store.old.spare }
    ensures { EntersShard store.old (fact.Freed (slot_of store.old) epoch cause) result store.new }
{
    slot_law();
    if !store.is_leased() || epoch != store.epoch() {
        return false;
    }
    store.free(cause);
    true
}

/// The same, of a mark that the entity is remembered.
pub fn enter_remembered(store: &mut ShardStore, entity: &EntityName) -> bool
    requires spare { 0 < store.old.spare }
    requires name { IsTrue (is_of_shard store.old.script store.old.shard entity.now) }
    ensures { EntersShard store.old (fact.Remembered entity.now) result store.new }
{
    if !store.is_leased() || store.is_remembered(entity) {
        return false;
    }
    store.remember(entity);
    true
}

/// The same, of a mark that it is so no longer.
pub fn enter_forgotten(store: &mut ShardStore, entity: &EntityName) -> bool
    requires spare { 0 < store.old.spare }
    requires name { IsTrue (is_of_shard store.old.script store.old.shard entity.now) }
    ensures { EntersShard store.old (fact.Forgotten entity.now) result store.new }
{
    if !store.is_leased() || !store.is_remembered(entity) {
        return false;
    }
    store.forget(entity);
    true
}

/// How many records stood before the last snapshot.
fn last_snapshot(store: &ShardStore, entity: &EntityName) -> u32
    requires { IsTrue (is_of_shard store.now.script store.now.shard entity.now) }
    ensures { result ≡ last_snapshot entity.now store.now.entries }
{
    match store.latest(entity) {
        Some(snapshot) => snapshot.at,
        None => 0,
    }
}

/// The same, of a snapshot of an entity whose records lead to this state.
pub fn enter_snapshot(
    store: &mut ShardStore,
    entity: &EntityName,
    records: u32,
    state: &State,
) -> bool
    requires spare { 0 < store.old.spare }
    requires name { IsTrue (is_of_shard store.old.script store.old.shard entity.now) }
    requires state { state.now ≡ folded store.old.script.config.kind (journal entity.now store.old.entries) }
    ensures { EntersShard store.old (fact.Snapshot entity.now records) result store.new }
{
    if !store.is_leased()
        || records != store.journal(entity).len()
        || records <= last_snapshot(store, entity)
    {
        return false;
    }
    store.snapshot(entity, *state);
    true
}

/// Whether its number and its place are the next ones.
fn is_next_record(store: &ShardStore, entity: &EntityName, entry: &Record) -> bool
    requires { IsTrue (is_of_shard store.now.script store.now.shard entity.now) }
    ensures { result ≡ ((entry.now.number == length (journal entity.now store.now.entries) + 1) && (entry.now.place == position entry.now.producer (journal entity.now store.now.entries) + 1)) }
{
    let journal = store.journal(entity);
    is_next(entry.number, journal.len()) && is_next(entry.place, journal.position(entry.producer))
}

/// The same, of a record; `decided` says that it is so in a version that the script admits, and `planned` that
/// its command is its producer's of that place.
pub fn enter_record(
    store: &mut ShardStore,
    charter: &Charter,
    entity: &EntityName,
    entry: &Record,
    decided: bool,
    planned: bool,
) -> bool
    requires spare { 0 < store.old.spare }
    requires charter { charter.now ≡ store.old.script }
    requires name { IsTrue (is_of_shard store.old.script store.old.shard entity.now) }
    requires decided { decided ≡ list_any (λ v. is_decided v store.old.script (journal entity.now store.old.entries) entry.now) (versions store.old.script) }
    requires planned { planned ≡ is_planned store.old.script entry.now.producer entity.now entry.now.place entry.now.command }
    ensures { EntersShard store.old (fact.Wrote entity.now entry.now) result store.new }
{
    if !store.is_leased()
        || entry.epoch != store.epoch()
        || !is_producer(charter, entry.producer)
        || !decided
        || !planned
        || !is_next_record(store, entity, entry)
    {
        return false;
    }
    store.wrote(entity, *entry);
    true
}
