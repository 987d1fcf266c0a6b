//! The actors of a node.
ghost use Rattle.std.specs.Prelude.{◌≡◌, ℕ, ◌+◌, ◌-◌, ◌<◌, ◌≤◌, true, is_some, OnOk, Some, IfSome, MatchOption, length, slice_get};
ghost use Rattle.yard_model.specs.declared.incarnation.Slot.TheVariants as slot;
ghost use Rattle.yard_model.specs.declared.input.Phase.TheVariants as phase;
ghost use Rattle.yard_model.specs.Entities.{is_in_phase};
ghost use Rattle.yard_model.specs.Genuine.{is_brought, is_shard, is_producer, is_slot_of};
ghost use Rattle.yard_model.specs.Limits.{turn_room};
ghost use Rattle.yard_model.specs.Script.{IsScript, setting};
ghost use Rattle.yard_model.specs.Words.{at};
ghost use Rattle.actor_laws.specs.Hands.{held_list};
ghost use Rattle.shard_store.specs.Stores.{script_of_ref, slot_of_ref, entries_of_ref};
ghost use Rattle.node_core.specs.Slots.{held_slots, held_of, last_slots, queue_slots};
ghost use Rattle.node_core.specs.Standing.{IsReady, IsSameOffice};

use behaviour_core::Behaviour;
use coordinator_actor::Coordinator;
use producer_ctl::Producers;
use region_actor::Region;
use shard_entities::Entities;
use shard_store::StoreRef;
use std::alloc::{AllocError, Global};
use std::marker::{Model, PhantomData};
use std::snapshot::Snapshot;
use turn_rooms::MOST_POSTED;
use yard_model::{
    Body, Charter, EntityName, Fact, Incarnation, Out, Packet, ProducerNo, ShardNo, Slot, State,
};

/// The actors of a node side by side, of one script and one incarnation: the region, the entities,
/// the producers whose queue the node holds and, while it holds its slot, the coordinator. Each step of an input is a call of its own,
/// which changes the actors that it is about, tells its items, and says what it gave.
#[derive(Drop)]
pub(crate) struct Actors<B: Behaviour> {
    pub(crate) alloc: Global,
    pub(crate) script: Snapshot<Charter>,
    pub(crate) buffer: u16,
    pub(crate) behaviour: B,
    pub(crate) region: Region,
    pub(crate) entities: Entities,
    pub(crate) producers: Producers,
    /// How many producers the script has.
    pub(crate) queues: u8,
    pub(crate) coordinator: Option<Coordinator>,
    pub(crate) holds: PhantomData<(Fact, Packet, Body, State, Slot, Incarnation)>,
}

impl<B: Behaviour> Model for Actors<B> {
    ghost use Rattle.std.specs.Prelude.{◌≡◌};
    ghost use Rattle.node_core.specs.Standing.{Standing, standing_of, AreParts};

    ghost Value = { Standing };

    ghost view = { λ n. standing_of n.script.value n.region.state n.entities n.producers n.coordinator };

    ghost invariant = { λ n. AreParts n.script.value (B.kind_of n.behaviour) (B.version_of n.behaviour) n.region n.entities n.producers n.coordinator × ((n.buffer ≡ n.script.value.config.buffer) × (n.queues ≡ n.script.value.config.producers)) };
}

impl<B: Behaviour + Drop> Actors<B> {
    /// Whose they are.
    pub(crate) fn who(&self) -> Incarnation
        ensures { result ≡ self.now.state.who }
    {
        self.region.who()
    }

    /// What is so of their script, its setting and the rooms of its shards. It does nothing.
    pub(crate) fn knows(&self)
        ensures script { IsScript self.now.script }
        ensures set { self.now.state.set ≡ setting self.now.script }
        ensures entities { self.now.state.entities.set ≡ setting self.now.script }
        ensures region { self.now.state.region.set ≡ setting self.now.script }
        ensures rooms { length self.now.rooms ≡ self.now.script.config.shards }
    {
        self.entities.stands();
    }

    /// Whether there is a coordinator.
    pub(crate) fn is_coordinator(&self) -> bool
        ensures { result ≡ is_some self.now.state.coordinator }
    {
        self.coordinator.is_some()
    }

    /// Makes room for any input, and for the end: in `out`, for as many pairs as a script may have,
    /// in the store of each slot that is held, and for one region more that leaves. The only error is
    /// want of memory; the state is as before then.
    #[inline(always)]
    pub(crate) fn reserve(&mut self, out: &mut Out) -> Result<(), AllocError>
        ensures script { self.new.script ≡ self.old.script }
        ensures state { self.new.state ≡ self.old.state }
        ensures items { out.new.items ≡ out.old.items }
        ensures ready { OnOk result (IsReady self.new out.new.spare) }
    {
        let wanted = MOST_POSTED + 5 * self.buffer as u32;
        out.reserve(wanted)?;
        self.entities.reserve()?;
        self.producers.reserve()?;
        reserve_office(&mut self.coordinator)
    }

    /// Whether an entity is active here.
    pub(crate) fn is_active(&self, entity: &EntityName) -> bool
        requires { is_brought self.now.script entity.now ≡ true }
        ensures { result ≡ is_in_phase phase.Active self.now.state.entities entity.now }
    {
        self.entities.is_active(entity)
    }

    /// Whether the queue of a producer is held.
    pub(crate) fn holds_queue(&self, p: ProducerNo) -> bool
        ensures { result ≡ is_some (at self.now.state.producers (p - 1)) }
    {
        p.get() <= self.queues && self.producers.holds(p)
    }

    /// The store of a slot of the script; None exactly where it isn't held.
    pub(crate) fn held_store(&self, slot: Slot) -> Option<StoreRef<'_>>
        requires { is_slot_of self.now.script slot ≡ true }
        ensures store { MatchOption result (held_list slot self.now.state ≡ None) (λ x. held_list slot self.now.state ≡ Some (entries_of_ref x)) }
        ensures kind { IfSome result (λ x. (slot_of_ref x ≡ slot) × (script_of_ref x ≡ self.now.script)) }
    {
        match slot {
            Slot::Shard(s) => self.shard_store(s),
            Slot::Coordinator => self.office_store(),
            Slot::Queue(p) => self.queue_store(p),
        }
    }

    /// The store of a shard; None exactly where it isn't held.
    fn shard_store(&self, s: ShardNo) -> Option<StoreRef<'_>>
        requires { is_shard self.now.script s ≡ true }
        ensures store { MatchOption result (held_list (slot.Shard s) self.now.state ≡ None) (λ x. held_list (slot.Shard s) self.now.state ≡ Some (entries_of_ref x)) }
        ensures kind { IfSome result (λ x. (slot_of_ref x ≡ slot.Shard s) × (script_of_ref x ≡ self.now.script)) }
    {
        match self.entities.store(s) {
            Some(store) => Some(StoreRef::Shard(store)),
            None => None,
        }
    }

    /// The coordinator's store; None exactly where it isn't held.
    fn office_store(&self) -> Option<StoreRef<'_>>
        ensures store { MatchOption result (held_list slot.Coordinator self.now.state ≡ None) (λ x. held_list slot.Coordinator self.now.state ≡ Some (entries_of_ref x)) }
        ensures kind { IfSome result (λ x. (slot_of_ref x ≡ slot.Coordinator) × (script_of_ref x ≡ self.now.script)) }
    {
        match &self.coordinator {
            Some(coordinator) => Some(StoreRef::Coordinator(coordinator.store())),
            None => None,
        }
    }

    /// The store of a producer's queue; None exactly where it isn't held.
    fn queue_store(&self, p: ProducerNo) -> Option<StoreRef<'_>>
        requires { is_producer self.now.script p ≡ true }
        ensures store { MatchOption result (held_list (slot.Queue p) self.now.state ≡ None) (λ x. held_list (slot.Queue p) self.now.state ≡ Some (entries_of_ref x)) }
        ensures kind { IfSome result (λ x. (slot_of_ref x ≡ slot.Queue p) × (script_of_ref x ≡ self.now.script)) }
    {
        match self.producers.store(p) {
            Some(store) => Some(StoreRef::Queue(store)),
            None => None,
        }
    }

    /// The held slot at this place, with its store: shards rising, the coordinator, queues rising.
    /// None exactly past the last.
    pub(crate) fn held(&self, at: u16) -> Option<(Slot, StoreRef<'_>)>
        ensures slot { MatchOption result (length (held_slots self.now.script self.now.state) ≤ at) (λ x. slice_get (held_slots self.now.script self.now.state) at ≡ Some x.0) }
        ensures store { IfSome result (λ x. held_list x.0 self.now.state ≡ Some (entries_of_ref x.1)) }
        ensures kind { IfSome result (λ x. (slot_of_ref x.1 ≡ x.0) × (script_of_ref x.1 ≡ self.now.script)) }
    {
        let mut left = at;
        for s in 0..self.region.shards() {
            let shard = shard_at(s);
            if let Some(store) = self.entities.store(shard) {
                if left == 0 {
                    return Some((Slot::Shard(shard), StoreRef::Shard(store)));
                }
                left -= 1;
            }
        }
        self.held_last(left)
    }

    /// The held slot at this place among the coordinator's and the queues.
    fn held_last(&self, at: u16) -> Option<(Slot, StoreRef<'_>)>
        ensures slot { MatchOption result (length (held_of (last_slots self.now.script) self.now.state) ≤ at) (λ x. slice_get (held_of (last_slots self.now.script) self.now.state) at ≡ Some x.0) }
        ensures store { IfSome result (λ x. held_list x.0 self.now.state ≡ Some (entries_of_ref x.1)) }
        ensures kind { IfSome result (λ x. (slot_of_ref x.1 ≡ x.0) × (script_of_ref x.1 ≡ self.now.script)) }
    {
        match &self.coordinator {
            Some(coordinator) => {
                if at > 0 {
                    return self.held_queue(at - 1);
                }
                let store = StoreRef::Coordinator(coordinator.store());
                Some((Slot::Coordinator, store))
            }
            None => self.held_queue(at),
        }
    }

    /// The held slot at this place among the queues.
    fn held_queue(&self, at: u16) -> Option<(Slot, StoreRef<'_>)>
        ensures slot { MatchOption result (length (held_of (queue_slots self.now.script) self.now.state) ≤ at) (λ x. slice_get (held_of (queue_slots self.now.script) self.now.state) at ≡ Some x.0) }
        ensures store { IfSome result (λ x. held_list x.0 self.now.state ≡ Some (entries_of_ref x.1)) }
        ensures kind { IfSome result (λ x. (slot_of_ref x.1 ≡ x.0) × (script_of_ref x.1 ≡ self.now.script)) }
    {
        let mut left = at;
        for place in 0..self.queues {
            let p = producer_at(place);
            if let Some(store) = self.producers.store(p) {
                if left == 0 {
                    return Some((Slot::Queue(p), StoreRef::Queue(store)));
                }
                left -= 1;
            }
        }
        None
    }
}

/// Makes room in the coordinator's store, where there is a coordinator, and for one region more that
/// leaves. The only error is want of memory.
fn reserve_office(office: &mut Option<Coordinator>) -> Result<(), AllocError>
    ensures same { IsSameOffice office.old office.new }
    ensures ready { OnOk result (IfSome office.new (λ k. (turn_room ≤ k.spare) × (1 ≤ k.places))) }
{
    match office {
        Some(coordinator) => coordinator.reserve(),
        None => Ok(()),
    }
}

/// The shard of this number.
pub(crate) fn shard_at(s: u8) -> ShardNo
    requires { s < 128 }
    ensures { result ≡ s }
{
    match ShardNo::new(s, 128) {
        Some(shard) => shard,
        None => unreachable!(),
    }
}

/// The producer at this place, from 0.
pub(crate) fn producer_at(place: u8) -> ProducerNo
    requires { place < 32 }
    ensures { result ≡ place + 1 }
{
    match ProducerNo::new(place + 1) {
        Some(producer) => producer,
        None => unreachable!(),
    }
}
