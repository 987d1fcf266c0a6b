//! The stores of all slots.
ghost use Rattle.std.specs.Prelude.{◌≡◌, ℕ, ◌+◌, ◌<◌, ◌≤◌, ◌&&◌, true, false, [], Some, length, replicate, slice_index_or, slice_set, IfOk, OnErr, IsTrue, MatchOption, if◌then◌else◌};
ghost use Rattle.std.specs.List.{list_all, list_any};
ghost use Rattle.yard_model.specs.declared.fact.Fact.TheVariants as facts;
ghost use Rattle.yard_model.specs.declared.incarnation.Slot.TheVariants as slot;
ghost use Rattle.yard_model.specs.Behaviour.{after_record, are_applicable, empty_state, folded, is_valid};
ghost use Rattle.yard_model.specs.Lawful.{is_decided, is_held};
ghost use Rattle.yard_model.specs.Genuine.{is_brought, is_planned, is_producer, is_slot_of};
ghost use Rattle.yard_model.specs.Script.{Script, is_upgrade, names_in, setting};
ghost use Rattle.yard_model.specs.Setting.{shard_of};
ghost use Rattle.yard_model.specs.SlotLists.{shard_list};
ghost use Rattle.yard_model.specs.SlotReads.{epoch, holder, journal, position};
ghost use Rattle.yard_model.specs.Trace.{list_at, no_lists, slot_of};
ghost use Rattle.shard_store.specs.Stores.{lists_at};
ghost use Rattle.entry_slots.specs.Entered.{Enters, IsMarkOf, is_of_no_entity};
ghost use Rattle.entry_slots.specs.Kept.{ArePlanned, IsPlaced, IsShardOf, goes_over, one_or_two};

use crate::decided::{after_record, is_admitted, is_answer_in};
use crate::names::place_in;
use crate::places::{Known, Places};
use crate::plans::Plan;
use durable_queue::QueueStore;
use entity_journal::Journal;
use name_index::NameIndex;
use shard_extract::shard_of;
use shard_store::{ShardStore, Stores};
use std::alloc::{AllocError, Global};
use std::marker::{Model, PhantomData};
use yard_model::laws::{command_law, decision_law};
use yard_model::{
    Charter, Command, EntityName, Fact, Incarnation, Kind, Order, ProducerNo, Record, Slot, State,
};

/// The stores of all slots of a charter; seen as its script and the lists of the slots. Each list is lawful by
/// itself.
#[derive(Drop)]
pub struct Slots {
    charter: Charter,
    upgrades: bool,
    names: NameIndex,
    stores: Places,
    plans: Vec<Plan>,
    states: Vec<State>,
    holds: PhantomData<(Command, Record, Slot)>,
}

/// What stands of an entity.
#[derive(Clone, Copy, Debug)]
pub struct Standing {
    /// How many records its journal has.
    pub records: u32,
    /// The state that they lead to.
    pub state: State,
}

impl Model for Slots {
    ghost use Rattle.shard_store.specs.Stores.{lists_at};
    ghost use Rattle.entry_slots.specs.Entered.{AllLists};
    ghost use Rattle.entry_slots.specs.Kept.{IsKept};

    ghost Value = { AllLists };

    ghost view = { λ s. record { script = s.charter; lists = lists_at s.charter.config s.stores.places } };

    ghost invariant = { λ s. IsKept s.charter s.upgrades s.names s.stores s.plans.items s.states.items };
}

impl Slots {
    /// The empty stores of this charter's slots. The only error is want of memory.
    pub fn new(alloc: Global, charter: &Charter) -> Result<Slots, AllocError>
        ensures { IfOk result (λ s. s ≡ record { script = charter.now; lists = no_lists (setting charter.now) }) }
    {
        let names = NameIndex::new(charter)?;
        let stores = Places::new(alloc, charter)?;
        let plans = plans_of(alloc, charter, &names)?;
        let states = first_states(alloc, charter, names.len())?;
        let upgrades = goes_over(charter);
        let copied = charter.copy()?;
        Ok(Slots {
            charter: copied,
            upgrades,
            names,
            stores,
            plans,
            states,
            holds: PhantomData,
        })
    }

    /// The fact stands at the end of its slot's list where it may follow there; whether it may. The slot is one
    /// of the script's then. A fact that belongs to no slot's list changes nothing. The only error is want of
    /// memory, and then nothing changes.
    pub fn enter(&mut self, fact: &Fact) -> Result<bool, AllocError>
        ensures ok { IfOk result (λ done. Enters self.old fact.now done self.new) }
        ensures err { OnErr result (self.new ≡ self.old) }
    {
        match fact {
            Fact::Granted(slot, _, _) | Fact::Freed(slot, _, _) => self.enter_at(slot, fact),
            Fact::Registered(_)
            | Fact::Terminated(_)
            | Fact::Allocated(_, _)
            | Fact::Deallocated(_) => self.enter_at(&Slot::Coordinator, fact),
            Fact::Queued(p, _, _, _) | Fact::Confirmed(p, _, _) => {
                self.enter_at(&Slot::Queue(*p), fact)
            }
            Fact::Wrote(entity, entry) => self.enter_record(entity, entry, fact),
            Fact::Snapshot(entity, _) | Fact::Remembered(entity) | Fact::Forgotten(entity) => {
                self.enter_of(entity, fact)
            }
            Fact::Reshard(_, _) | Fact::Resharded(_, _, _) => Ok(false),
            _ => Ok(true),
        }
    }

    /// The same of an entry of this slot that is of no entity.
    fn enter_at(&mut self, slot: &Slot, fact: &Fact) -> Result<bool, AllocError>
        requires entry { slot_of (setting self.old.script) fact.now ≡ Some slot.now }
        requires plain { is_of_no_entity fact.now ≡ true }
        ensures ok { IfOk result (λ done. Enters self.old fact.now done self.new) }
        ensures err { OnErr result (self.new ≡ self.old) }
    {
        if !self.charter.has_slot(slot) {
            return Ok(false);
        }
        let known = Known {
            state: State::NoAccount,
            decided: false,
        };
        self.stores.enter(&self.charter, slot, fact, &known)
    }

    /// The same of a snapshot or a mark of this entity.
    fn enter_of(&mut self, entity: &EntityName, fact: &Fact) -> Result<bool, AllocError>
        requires entity { IsMarkOf entity.now fact.now }
        ensures ok { IfOk result (λ done. Enters self.old fact.now done self.new) }
        ensures err { OnErr result (self.new ≡ self.old) }
    {
        let Some(place) = place_in(&self.names, entity) else {
            return Ok(false);
        };
        let known = Known {
            state: self.states[place],
            decided: false,
        };
        let slot = shard_slot(&self.charter, entity);
        self.stores.enter(&self.charter, &slot, fact, &known)
    }

    /// The same of a record of this entity.
    fn enter_record(
        &mut self,
        entity: &EntityName,
        entry: &Record,
        fact: &Fact,
    ) -> Result<bool, AllocError>
        requires fact { fact.now ≡ facts.Wrote entity.now entry.now }
        ensures ok { IfOk result (λ done. Enters self.old fact.now done self.new) }
        ensures err { OnErr result (self.new ≡ self.old) }
    {
        command_law();
        decision_law();
        self.stores.knows();
        let Some(place) = place_in(&self.names, entity) else {
            return Ok(false);
        };
        if !is_next_command(self.plans.as_slice(), place, entity, entry) {
            return Ok(false);
        }
        let kind = self.charter.config().kind;
        let state = self.states[place];
        let known = Known {
            state,
            decided: is_admitted(kind, self.upgrades, &state, entry),
        };
        let slot = shard_slot(&self.charter, entity);
        let done = self.stores.enter(&self.charter, &slot, fact, &known)?;
        note_state(&mut self.states, kind, place, entry, done);
        Ok(done)
    }

    /// The charter, whose script contracts see.
    pub fn charter(&self) -> &Charter
        ensures { result.now ≡ self.now.script }
    {
        &self.charter
    }

    /// The place of a name among the script's; None exactly where the script doesn't bring it.
    pub fn place(&self, entity: &EntityName) -> Option<usize>
        ensures { MatchOption result (is_brought self.now.script entity.now ≡ false) (λ k. IsPlaced (names_in self.now.script.orders) k entity.now) }
    {
        place_in(&self.names, entity)
    }

    /// Whether the script brings this name.
    pub fn brings(&self, entity: &EntityName) -> bool
        ensures { result ≡ is_brought self.now.script entity.now }
    {
        place_in(&self.names, entity).is_some()
    }

    /// Whether the script has this slot.
    pub fn has(&self, slot: &Slot) -> bool
        ensures { result ≡ is_slot_of self.now.script slot.now }
    {
        self.charter.has_slot(slot)
    }

    /// Who holds a slot of the script.
    pub fn holder(&self, slot: &Slot) -> Option<Incarnation>
        requires { IsTrue (is_slot_of self.now.script slot.now) }
        ensures { result ≡ holder (list_at self.now.lists slot.now) }
    {
        self.stores.holder(slot)
    }

    /// The epoch of the last grant of a slot of the script, 0 before.
    pub fn epoch(&self, slot: &Slot) -> u32
        requires { IsTrue (is_slot_of self.now.script slot.now) }
        ensures { result ≡ epoch (list_at self.now.lists slot.now) }
    {
        self.stores.epoch(slot)
    }

    /// The epoch of the open grant of a slot of the script; None exactly where nobody holds the slot.
    pub fn grant(&self, slot: &Slot) -> Option<u32>
        requires { IsTrue (is_slot_of self.now.script slot.now) }
        ensures { MatchOption result (is_held (list_at self.now.lists slot.now) ≡ false) (λ n. (is_held (list_at self.now.lists slot.now) ≡ true) × (n ≡ epoch (list_at self.now.lists slot.now))) }
    {
        match self.holder(slot) {
            Some(_) => Some(self.epoch(slot)),
            None => None,
        }
    }

    /// The slot of an entity's shard.
    pub fn slot_of(&self, entity: &EntityName) -> Slot
        ensures slot { result ≡ slot.Shard (shard_of (setting self.now.script) entity.now) }
        ensures there { IsTrue (is_slot_of self.now.script result) }
    {
        shard_slot(&self.charter, entity)
    }

    /// The queue of a producer of the script.
    pub fn queue(&self, producer: ProducerNo) -> &QueueStore
        requires { IsTrue (is_producer self.now.script producer) }
        ensures { result.now.entries ≡ list_at self.now.lists (slot.Queue producer) }
    {
        self.stores.queue(producer)
    }

    /// The store of an entity's shard.
    #[tactic(auto, using(crate::proofs::SeenLaws::shard_there))]
    fn store_of(&self, entity: &EntityName) -> &ShardStore
        ensures { IsShardOf self.now.script self.now.lists (shard_of (setting self.now.script) entity.now) result.now }
    {
        self.stores.knows();
        let shards = self.charter.config().shards;
        self.stores.shard(shard_of(entity, shards))
    }

    /// The journal of an entity that the script brings.
    #[tactic(auto, using(crate::proofs::SeenLaws::of_its_shard))]
    pub fn journal(&self, entity: &EntityName) -> &Journal
        requires { IsTrue (is_brought self.now.script entity.now) }
        ensures { result.now.items ≡ journal entity.now (shard_list self.now.lists (shard_of (setting self.now.script) entity.now)) }
    {
        self.store_of(entity).journal(entity)
    }

    /// A name that the script doesn't bring has no records.
    fn has_no_records(&self, entity: &EntityName)
        requires { is_brought self.now.script entity.now ≡ false }
        ensures { journal entity.now (shard_list self.now.lists (shard_of (setting self.now.script) entity.now)) ≡ [] }
    {
        self.store_of(entity).entries();
    }

    /// How many records of a producer the journal of an entity has; 0 where the script doesn't bring the name.
    pub fn position(&self, producer: ProducerNo, entity: &EntityName) -> u32
        ensures { result ≡ position producer (journal entity.now (shard_list self.now.lists (shard_of (setting self.now.script) entity.now))) }
    {
        if !self.brings(entity) {
            self.has_no_records(entity);
            return 0;
        }
        self.journal(entity).position(producer)
    }

    /// The state that the journal of such an entity leads to.
    pub fn state(&self, entity: &EntityName) -> &State
        requires { IsTrue (is_brought self.now.script entity.now) }
        ensures valid { IsTrue (is_valid self.now.script.config.kind result.now) }
        ensures state { result.now ≡ folded self.now.script.config.kind (journal entity.now (shard_list self.now.lists (shard_of (setting self.now.script) entity.now))) }
    {
        self.stores.knows();
        let Some(place) = place_in(&self.names, entity) else {
            unreachable!()
        };
        &self.states[place]
    }

    /// What stands of an entity; no records, and the state before the first, of a name that the script doesn't
    /// bring.
    pub fn standing(&self, entity: &EntityName) -> Standing
        ensures records { result.records ≡ length (journal entity.now (shard_list self.now.lists (shard_of (setting self.now.script) entity.now))) }
        ensures state { result.state ≡ folded self.now.script.config.kind (journal entity.now (shard_list self.now.lists (shard_of (setting self.now.script) entity.now))) }
    {
        if !self.brings(entity) {
            self.has_no_records(entity);
            return Standing {
                records: 0,
                state: State::empty(self.charter.config().kind),
            };
        }
        Standing {
            records: self.journal(entity).len(),
            state: *self.state(entity),
        }
    }

    /// Whether the script has the producer of a record of such an entity, and its command is that of its place in
    /// its producer's plan.
    pub fn is_planned(&self, entity: &EntityName, entry: &Record) -> bool
        requires { IsTrue (is_brought self.now.script entity.now) }
        ensures { result ≡ (is_producer self.now.script entry.now.producer && is_planned self.now.script entry.now.producer entity.now entry.now.place entry.now.command) }
    {
        let Some(place) = place_in(&self.names, entity) else {
            unreachable!()
        };
        is_next_command(self.plans.as_slice(), place, entity, entry)
    }

    /// Whether the events and the reply of a planned record are what is decided on its command, in this version,
    /// where its entity's journal leads now.
    pub fn is_answer(&self, version: u8, entity: &EntityName, entry: &Record) -> bool
        requires name { IsTrue (is_brought self.now.script entity.now) }
        requires command { IsTrue (is_planned self.now.script entry.now.producer entity.now entry.now.place entry.now.command) }
        ensures { result ≡ is_decided version self.now.script (journal entity.now (shard_list self.now.lists (shard_of (setting self.now.script) entity.now))) entry.now }
    {
        command_law();
        let kind = self.charter.config().kind;
        is_answer_in(kind, one_or_two(version), self.state(entity), entry)
    }

    /// The stores.
    pub fn into_stores(self) -> Stores
        ensures script { result.script ≡ self.script }
        ensures lists { lists_at self.script.config result.places ≡ self.lists }
    {
        let Slots {
            charter: _,
            upgrades: _,
            names: _,
            stores,
            plans: _,
            states: _,
            holds: _,
        } = self;
        stores.into_stores()
    }
}

/// So many states before the first record. The only error is want of memory.
fn first_states(alloc: Global, charter: &Charter, count: usize) -> Result<Vec<State>, AllocError>
    ensures { IfOk result (λ states. states.items ≡ replicate count (empty_state charter.now.config.kind)) }
{
    let first = State::empty(charter.config().kind);
    vec![in alloc; first; count]
}

/// Whether a script goes over to version 2 of the behaviours.
fn goes_over(charter: &Charter) -> bool
    ensures { result ≡ goes_over charter.now }
{
    charter.orders().iter().any(|line| is_upgrade(&line.order))
}

fn is_upgrade(order: &Order) -> bool
    ensures { result ≡ is_upgrade order.now }
{
    match order {
        Order::Upgrade => true,
        _ => false,
    }
}

/// The plan of each producer. The only error is want of memory.
fn plans_of(alloc: Global, charter: &Charter, names: &NameIndex) -> Result<Vec<Plan>, AllocError>
    requires { names.now ≡ names_in charter.now.orders }
    ensures { IfOk result (λ plans. ArePlanned charter.now plans.items) }
{
    let count = charter.config().producers;
    let mut plans = Vec::with_capacity(alloc, count as usize)?;
    for k in 0..count {
        let plan = plan_of(alloc, charter, names, k)?;
        plans.push(plan)?;
    }
    Ok(plans)
}

/// The plan of the producer behind so many. The only error is want of memory.
fn plan_of(
    alloc: Global,
    charter: &Charter,
    names: &NameIndex,
    before: u8,
) -> Result<Plan, AllocError>
    requires names { names.now ≡ names_in charter.now.orders }
    requires producer { before < charter.now.config.producers }
    ensures { IfOk result (λ plan. plan ≡ record { script = charter.now; producer = before + 1 }) }
{
    charter.config();
    let Some(producer) = ProducerNo::new(before + 1) else {
        unreachable!()
    };
    Plan::new(alloc, charter, names, producer)
}

/// Version 1 or 2, which decides as this one.
fn one_or_two(version: u8) -> u8
    ensures { result ≡ one_or_two version }
{
    if version < 2 { 1 } else { 2 }
}

/// The slot of an entity's shard.
fn shard_slot(charter: &Charter, entity: &EntityName) -> Slot
    ensures slot { result ≡ slot.Shard (shard_of (setting charter.now) entity.now) }
    ensures there { IsTrue (is_slot_of charter.now result) }
{
    Slot::Shard(shard_of(entity, charter.config().shards))
}

/// Whether a record's producer has a plan, and its command stands there at its place.
fn is_next_command(plans: &[Plan], place: usize, entity: &EntityName, entry: &Record) -> bool
    requires plans { (c : Script) × ArePlanned c plans.now × IsPlaced (names_in c.orders) place entity.now }
    ensures { (c : Script) → ArePlanned c plans.now → result ≡ (is_producer c entry.now.producer && is_planned c entry.now.producer entity.now entry.now.place entry.now.command) }
{
    let producer = entry.producer.get() as usize;
    if producer > plans.len() {
        return false;
    }
    plans[producer - 1].has(place, entity, entry.place, &entry.command)
}

/// The state at this place, after a record that stands in the journal now or doesn't.
#[tactic(auto, using(crate::proofs::StateLaws::states_valid))]
fn note_state(states: &mut Vec<State>, kind: Kind, place: usize, entry: &Record, done: bool)
    requires place { place < length states.old.items }
    requires valid { list_all (is_valid kind) states.old.items ≡ true }
    requires events { done ≡ true → IsTrue (are_applicable (slice_index_or states.old.items place (empty_state kind)) entry.now.events) }
    ensures states { states.new.items ≡ (if done then slice_set states.old.items place (after_record (slice_index_or states.old.items place (empty_state kind)) entry.now) else states.old.items) }
    ensures valid { list_all (is_valid kind) states.new.items ≡ true }
{
    if !done {
        return;
    }
    let after = after_record(kind, &states[place], entry);
    states[place] = after;
}
