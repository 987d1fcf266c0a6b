//! The stores by place, and who holds each slot.
ghost use Rattle.std.specs.Prelude.{◌≡◌, ℕ, ◌+◌, ◌<◌, ◌≤◌, [], Some, length, slice_set, IfOk, OnErr, IsTrue, if◌then◌else◌};
ghost use Rattle.yard_model.specs.Genuine.{is_slot_of};
ghost use Rattle.yard_model.specs.Script.{Script, setting};
ghost use Rattle.yard_model.specs.SlotReads.{epoch, holder, holder_step};
ghost use Rattle.yard_model.specs.Trace.{no_lists, slot_of};
ghost use Rattle.yard_model.specs.Words.{at};
ghost use Rattle.yard_model.specs.declared.incarnation.Slot.TheVariants as slots;
ghost use Rattle.shard_store.specs.declared.store.Store.TheVariants as store;
ghost use Rattle.shard_store.specs.Shelf as shelf;
ghost use Rattle.shard_store.specs.Stores.{AreHomes, IsThere, entries_at, entries_in, lists_at, place_of};
ghost use Rattle.entry_judge.specs.Entered.{EntersShard};
ghost use Rattle.entry_slots.specs.Entered.{EntersCoordRoomy, EntersPlace, EntersPlaces, EntersQueueRoomy, EntersShelf, Knows, StaysPlace, StayPlaces};

use coordinator_state::CoordStore;
use durable_queue::QueueStore;
use entry_judge::{enter_coordinator, enter_queue, shard};
use shard_store::{Parts, ShardStore, Store, Stores};
use std::alloc::{AllocError, Global};
use std::marker::{Model, PhantomData};
use std::snapshot::Snapshot as Ghost;
use yard_model::{Charter, EntityName, Fact, Incarnation, ProducerNo, ShardNo, Slot, State};

/// For how many entries a store is to have room before one more is tested.
const ROOM: u32 = 101;

/// What is known of an entry of an entity: the state that its journal leads to, and whether a record is decided
/// so in a version that the script admits.
#[derive(Clone, Copy)]
pub(crate) struct Known {
    pub(crate) state: State,
    pub(crate) decided: bool,
}

/// The stores of all slots, by place, and who holds each; seen as the script and the stores.
#[derive(Drop)]
pub(crate) struct Places {
    script: Ghost<Charter>,
    shards: u8,
    places: Vec<Option<Store>>,
    holders: Vec<Option<Incarnation>>,
    holds: PhantomData<(Incarnation, Slot)>,
}

impl Model for Places {
    ghost use Rattle.std.specs.Prelude.{◌≡◌};
    ghost use Rattle.shard_store.specs.Stores.{Shelves, AreHomes};
    ghost use Rattle.entry_slots.specs.Kept.{AreHolders};

    ghost Value = { Shelves };

    ghost view = { λ p. record { script = p.script.value; places = p.places.items } };

    ghost invariant = { λ p. AreHomes p.script.value p.places.items × AreHolders p.places.items p.holders.items × (p.shards ≡ p.script.value.config.shards) };
}

impl Places {
    /// The empty store of each slot, which nobody holds. The only error is want of memory.
    #[tactic(auto, using(crate::proofs::PlacesLaws::none_held))]
    pub(crate) fn new(alloc: Global, charter: &Charter) -> Result<Places, AllocError>
        ensures script { IfOk result (λ p. p.script ≡ charter.now) }
        ensures none { IfOk result (λ p. lists_at charter.now.config p.places ≡ no_lists (setting charter.now)) }
        ensures empty { IfOk result (λ p. (k : ℕ) → entries_at p.places k ≡ []) }
    {
        let Parts {
            script,
            shards,
            places,
        } = Stores::new(alloc, charter)?.into_parts();
        let holders = vec![in alloc; None; places.len()]?;
        Ok(Places {
            script,
            shards,
            places,
            holders,
            holds: PhantomData,
        })
    }

    /// The fact, an entry of this slot of the script, stands at the end of the slot's list where it may follow
    /// there; whether it may. The only error is want of memory; the lists stay.
    pub(crate) fn enter(
        &mut self,
        charter: &Charter,
        slot: &Slot,
        fact: &Fact,
        known: &Known,
    ) -> Result<bool, AllocError>
        requires charter { charter.now ≡ self.old.script }
        requires slot { IsTrue (is_slot_of charter.now slot.now) }
        requires entry { slot_of (setting charter.now) fact.now ≡ Some slot.now }
        requires known { Knows charter.now slot.now (entries_at self.old.places (place_of charter.now.config slot.now)) fact.now known.now }
        ensures script { self.new.script ≡ self.old.script }
        ensures homes { AreHomes self.old.script self.old.places }
        ensures ok { IfOk result (λ done. EntersPlaces charter.now slot.now self.old.places fact.now done self.new.places) }
        ensures err { OnErr result (StayPlaces charter.now slot.now self.old.places self.new.places) }
    {
        let place = place_in(self.shards, slot);
        let done = enter_store(&mut self.places[place], charter, slot, fact, known)?;
        note_holder(&mut self.holders, place, fact, done);
        Ok(done)
    }

    /// Each slot has its store.
    pub(crate) fn knows(&self)
        ensures { AreHomes self.now.script self.now.places }
    {
        let _shards = self.shards;
    }

    /// Who holds a slot of the script.
    pub(crate) fn holder(&self, slot: &Slot) -> Option<Incarnation>
        requires { IsTrue (is_slot_of self.now.script slot.now) }
        ensures { result ≡ holder (entries_at self.now.places (place_of self.now.script.config slot.now)) }
    {
        self.holders[place_in(self.shards, slot)]
    }

    /// The epoch of the last grant of a slot of the script.
    pub(crate) fn epoch(&self, slot: &Slot) -> u32
        requires { IsTrue (is_slot_of self.now.script slot.now) }
        ensures { result ≡ epoch (entries_at self.now.places (place_of self.now.script.config slot.now)) }
    {
        epoch_of(&self.places[place_in(self.shards, slot)])
    }

    /// The store of a shard of the script.
    pub(crate) fn shard(&self, s: ShardNo) -> &ShardStore
        requires { s < self.now.script.config.shards }
        ensures { at self.now.places s ≡ Some (store.Shard result.now) }
    {
        match &self.places[s.get() as usize] {
            Some(Store::Shard(store)) => store,
            _ => unreachable!(),
        }
    }

    /// The queue of a producer of the script.
    pub(crate) fn queue(&self, p: ProducerNo) -> &QueueStore
        requires { IsTrue (is_slot_of self.now.script (slots.Queue p)) }
        ensures { at self.now.places (self.now.script.config.shards + p) ≡ Some (store.Queue result.now) }
    {
        match &self.places[self.shards as usize + p.get() as usize] {
            Some(Store::Queue(store)) => store,
            _ => unreachable!(),
        }
    }

    /// The stores.
    pub(crate) fn into_stores(self) -> Stores
        ensures script { result.script ≡ self.script }
        ensures places { result.places ≡ self.places }
    {
        let Places {
            script,
            shards,
            places,
            holders: _,
            holds: _,
        } = self;
        Stores::from_parts(Parts {
            script,
            shards,
            places,
        })
    }
}

/// The place of a slot.
fn place_in(shards: u8, slot: &Slot) -> usize
    requires { (c : Script) × (shards ≡ c.config.shards) × IsTrue (is_slot_of c slot.now) }
    ensures { (c : Script) → shards ≡ c.config.shards → result ≡ place_of c.config slot.now }
{
    match *slot {
        Slot::Shard(s) => s.get() as usize,
        Slot::Coordinator => shards as usize,
        Slot::Queue(p) => shards as usize + p.get() as usize,
    }
}

/// The epoch of a store's last grant.
fn epoch_of(store: &Option<Store>) -> u32
    ensures { result ≡ epoch (entries_in store.now) }
{
    match store {
        Some(store) => store.epoch(),
        None => 0,
    }
}

/// Who holds the slot at this place, after a fact that stands in its list now or doesn't.
fn note_holder(holders: &mut Vec<Option<Incarnation>>, place: usize, fact: &Fact, done: bool)
    requires { place < length holders.old.items }
    ensures { holders.new.items ≡ (if done then slice_set holders.old.items place (holder_step (at holders.old.items place) fact.now) else holders.old.items) }
{
    if !done {
        return;
    }
    match fact {
        Fact::Granted(_, _, who) => holders[place] = Some(*who),
        Fact::Freed(_, _, _) => holders[place] = None,
        _ => (),
    }
}

/// The same at the store of one slot.
fn enter_store(
    store: &mut Option<Store>,
    charter: &Charter,
    slot: &Slot,
    fact: &Fact,
    known: &Known,
) -> Result<bool, AllocError>
    requires home { IsThere charter.now slot.now store.old }
    requires entry { slot_of (setting charter.now) fact.now ≡ Some slot.now }
    requires known { Knows charter.now slot.now (entries_in store.old) fact.now known.now }
    ensures ok { IfOk result (λ done. EntersPlace charter.now slot.now store.old fact.now done store.new) }
    ensures err { OnErr result (StaysPlace charter.now slot.now store.old store.new) }
{
    match store {
        Some(Store::Shard(store)) => in_shard(store, charter, fact, known),
        Some(Store::Coordinator(store)) => in_coordinator(store, charter, fact),
        Some(Store::Queue(store)) => in_queue(store, charter, slot, fact),
        None => unreachable!(),
    }
}

/// The same at a shard's.
fn in_shard(
    store: &mut ShardStore,
    charter: &Charter,
    fact: &Fact,
    known: &Known,
) -> Result<bool, AllocError>
    requires charter { charter.now ≡ store.old.script }
    requires entry { slot_of (setting charter.now) fact.now ≡ Some (shelf.slot_of store.old) }
    requires known { Knows charter.now (shelf.slot_of store.old) store.old.entries fact.now known.now }
    ensures ok { IfOk result (λ done. EntersShelf store.old fact.now done store.new) }
    ensures err { OnErr result (store.new ≡ record store.old { spare = store.new.spare }) }
    ensures spare { OnErr result (store.old.spare ≤ store.new.spare) }
{
    store.reserve(ROOM)?;
    Ok(in_roomy_shard(store, charter, fact, known))
}

/// The same where there is room.
fn in_roomy_shard(store: &mut ShardStore, charter: &Charter, fact: &Fact, known: &Known) -> bool
    requires spare { 0 < store.old.spare }
    requires charter { charter.now ≡ store.old.script }
    requires entry { slot_of (setting charter.now) fact.now ≡ Some (shelf.slot_of store.old) }
    requires known { Knows charter.now (shelf.slot_of store.old) store.old.entries fact.now known.now }
    ensures { EntersShard store.old fact.now result store.new }
{
    match fact {
        Fact::Granted(_, epoch, who) => shard::enter_grant(store, charter, *epoch, who),
        Fact::Freed(_, epoch, cause) => shard::enter_free(store, *epoch, *cause),
        Fact::Wrote(entity, entry) => {
            shard::enter_record(store, charter, entity, entry, known.decided, true)
        }
        Fact::Snapshot(entity, records) => {
            shard::enter_snapshot(store, entity, *records, &known.state)
        }
        Fact::Remembered(entity) => shard::enter_remembered(store, entity),
        Fact::Forgotten(entity) => shard::enter_forgotten(store, entity),
        _ => false,
    }
}

/// The same at the coordinator's.
fn in_coordinator(
    store: &mut CoordStore,
    charter: &Charter,
    fact: &Fact,
) -> Result<bool, AllocError>
    requires charter { charter.now ≡ store.old.script }
    ensures ok { IfOk result (λ done. EntersCoordRoomy store.old fact.now done store.new) }
    ensures err { OnErr result (store.new ≡ store.old) }
{
    store.reserve(ROOM)?;
    Ok(enter_coordinator(store, charter, fact))
}

/// The same at a queue's.
fn in_queue(
    store: &mut QueueStore,
    charter: &Charter,
    slot: &Slot,
    fact: &Fact,
) -> Result<bool, AllocError>
    requires charter { charter.now ≡ store.old.script }
    requires slot { slot.now ≡ slots.Queue store.old.producer }
    ensures ok { IfOk result (λ done. EntersQueueRoomy store.old fact.now done store.new) }
    ensures err { OnErr result (store.new ≡ store.old) }
{
    let Slot::Queue(producer) = *slot else {
        unreachable!()
    };
    store.reserve(ROOM)?;
    Ok(enter_queue(store, charter, producer, fact))
}
