//! The end of a node.
ghost use Rattle.std.specs.Prelude.{◌≡◌, [], ◌∷◌, ◌≤◌, length, true, map, IfSome};
ghost use Rattle.std.specs.Option.{option_map};
ghost use Rattle.yard_model.specs.declared.incarnation.Slot.TheVariants as slot;
ghost use Rattle.yard_model.specs.Genuine.{is_shard, is_producer};
ghost use Rattle.yard_model.specs.Words.{numbers};
ghost use Rattle.node_core.specs.Gave.{moment};
ghost use Rattle.node_core.specs.Leased.{Rests, MayGiveBack, MayGiveQueue, MayGiveOffice};
ghost use Rattle.node_core.specs.LetGo.{AreFreed, IsGone, IsSlotFreed, SlotFreed};
ghost use Rattle.node_core.specs.Slots.{queue_slots};
ghost use Rattle.node_core.specs.Standing.{IsReady, IsEnding};

use crate::actors::{Actors, producer_at, shard_at};
use behaviour_core::Behaviour;
use coordinator_actor::Coordinator;
use durable_queue::QueueStore;
use shard_lease::Leases;
use shard_store::{ShardStore, Store};
use yard_model::{Cause, Fact, Incarnation, Item, Out, ProducerNo, ShardNo, Slot};

impl<B: Behaviour + Drop> Actors<B> {
    /// The node is gone: every slot that it held is freed, as its list stood: shards rising, then the
    /// coordinator's, then queues rising.
    pub(crate) fn end<L: Leases>(&mut self, leases: &mut L, out: &mut Out)
        requires ready { IsReady self.old out.old.spare }
        requires rests { Rests (L.meaning leases.old) self.old.script self.old.state }
        ensures { IsGone self.old.script (moment (L.meaning leases.old) self.old.state out.old.items) (L.meaning leases.new) out.new.items }
    {
        self.knows();
        self.let_shards_go(leases, out);
        self.let_office_go(leases, out);
        self.let_queues_go(leases, out);
    }

    /// Every shard that is hosted is freed, rising.
    fn let_shards_go<L: Leases>(&mut self, leases: &mut L, out: &mut Out)
        requires ending { IsEnding self.old }
        requires room { self.old.script.config.shards ≤ out.old.spare }
        requires rests { Rests (L.meaning leases.old) self.old.script self.old.state }
        ensures { AreFreed (map slot.Shard (numbers 0 self.old.script.config.shards)) self.old self.new (L.meaning leases.old) (L.meaning leases.new) out.old out.new }
    {
        for s in 0..self.region.shards() {
            self.let_shard_go(shard_at(s), leases, out);
        }
    }

    /// A shard is freed, if it is hosted, and none of its entities is left.
    fn let_shard_go<L: Leases>(&mut self, s: ShardNo, leases: &mut L, out: &mut Out)
        requires shard { is_shard self.old.script s ≡ true }
        requires ending { IsEnding self.old }
        requires room { 1 ≤ out.old.spare }
        requires rests { Rests (L.meaning leases.old) self.old.script self.old.state }
        ensures { AreFreed (slot.Shard s ∷ []) self.old self.new (L.meaning leases.old) (L.meaning leases.new) out.old out.new }
    {
        if self.is_hosted(s) {
            let store = self.entities.take_all(s);
            free_shard_if_there(self.region.who(), s, store, leases, out);
        }
    }

    /// The coordinator's slot is freed, if it is held.
    fn let_office_go<L: Leases>(&mut self, leases: &mut L, out: &mut Out)
        requires ending { IsEnding self.old }
        requires room { 1 ≤ out.old.spare }
        requires rests { Rests (L.meaning leases.old) self.old.script self.old.state }
        ensures { AreFreed (slot.Coordinator ∷ []) self.old self.new (L.meaning leases.old) (L.meaning leases.new) out.old out.new }
    {
        if self.is_coordinator() {
            let coordinator = self.coordinator.take();
            free_office_if_there(self.region.who(), coordinator, leases, out);
        }
    }

    /// Every queue that is held is freed, rising.
    fn let_queues_go<L: Leases>(&mut self, leases: &mut L, out: &mut Out)
        requires ending { IsEnding self.old }
        requires room { self.old.script.config.producers ≤ out.old.spare }
        requires rests { Rests (L.meaning leases.old) self.old.script self.old.state }
        ensures { AreFreed (queue_slots self.old.script) self.old self.new (L.meaning leases.old) (L.meaning leases.new) out.old out.new }
    {
        for place in 0..self.queues {
            self.let_queue_go(producer_at(place), leases, out);
        }
    }

    /// A queue is freed, if it is held.
    fn let_queue_go<L: Leases>(&mut self, p: ProducerNo, leases: &mut L, out: &mut Out)
        requires producer { is_producer self.old.script p ≡ true }
        requires ending { IsEnding self.old }
        requires room { 1 ≤ out.old.spare }
        requires rests { Rests (L.meaning leases.old) self.old.script self.old.state }
        ensures { AreFreed (slot.Queue p ∷ []) self.old self.new (L.meaning leases.old) (L.meaning leases.new) out.old out.new }
    {
        if self.holds_queue(p) {
            let store = self.producers.take_all(p);
            free_queue_if_there(self.region.who(), p, store, leases, out);
        }
    }
}

/// A shard's slot is freed, if its store is there.
fn free_shard_if_there<L: Leases>(
    who: Incarnation,
    s: ShardNo,
    store: Option<ShardStore>,
    leases: &mut L,
    out: &mut Out,
)
    requires store { IfSome store (MayGiveBack (L.meaning leases.old) who s) }
    requires room { 1 ≤ out.old.spare }
    ensures { IsSlotFreed (slot.Shard s) who (option_map (λ x. x.entries) store) (L.meaning leases.old) (L.meaning leases.new) out.old out.new }
{
    if let Some(store) = store {
        free_shard(who, s, store, leases, out);
    }
}

/// A shard's slot is freed.
fn free_shard<L: Leases>(
    who: Incarnation,
    s: ShardNo,
    store: ShardStore,
    leases: &mut L,
    out: &mut Out,
)
    requires store { MayGiveBack (L.meaning leases.old) who s store }
    requires room { 1 ≤ out.old.spare }
    ensures { SlotFreed (slot.Shard s) who store.entries (L.meaning leases.old) (L.meaning leases.new) out.old out.new }
{
    let epoch = store.epoch();
    out.push(Item::Fact(Fact::Freed(Slot::Shard(s), epoch, Cause::Stopped)));
    leases.release(who, Slot::Shard(s), Store::Shard(store), Cause::Stopped);
}

/// The coordinator's slot is freed, if the coordinator is there.
fn free_office_if_there<L: Leases>(
    who: Incarnation,
    coordinator: Option<Coordinator>,
    leases: &mut L,
    out: &mut Out,
)
    requires office { IfSome coordinator (MayGiveOffice (L.meaning leases.old) who) }
    requires room { 1 ≤ out.old.spare }
    ensures { IsSlotFreed slot.Coordinator who (option_map (λ k. k.state.entries) coordinator) (L.meaning leases.old) (L.meaning leases.new) out.old out.new }
{
    if let Some(coordinator) = coordinator {
        free_office(who, coordinator, leases, out);
    }
}

/// The coordinator's slot is freed.
fn free_office<L: Leases>(who: Incarnation, coordinator: Coordinator, leases: &mut L, out: &mut Out)
    requires office { MayGiveOffice (L.meaning leases.old) who coordinator }
    requires room { 1 ≤ out.old.spare }
    ensures { SlotFreed slot.Coordinator who coordinator.state.entries (L.meaning leases.old) (L.meaning leases.new) out.old out.new }
{
    let store = coordinator.into_store();
    let epoch = store.epoch();
    out.push(Item::Fact(Fact::Freed(Slot::Coordinator, epoch, Cause::Stopped)));
    leases.release(
        who,
        Slot::Coordinator,
        Store::Coordinator(store),
        Cause::Stopped,
    );
}

/// A queue's slot is freed, if its store is there.
fn free_queue_if_there<L: Leases>(
    who: Incarnation,
    p: ProducerNo,
    store: Option<QueueStore>,
    leases: &mut L,
    out: &mut Out,
)
    requires store { IfSome store (MayGiveQueue (L.meaning leases.old) who p) }
    requires room { 1 ≤ out.old.spare }
    ensures { IsSlotFreed (slot.Queue p) who (option_map (λ x. x.entries) store) (L.meaning leases.old) (L.meaning leases.new) out.old out.new }
{
    if let Some(store) = store {
        free_queue(who, p, store, leases, out);
    }
}

/// A queue's slot is freed.
fn free_queue<L: Leases>(
    who: Incarnation,
    p: ProducerNo,
    store: QueueStore,
    leases: &mut L,
    out: &mut Out,
)
    requires store { MayGiveQueue (L.meaning leases.old) who p store }
    requires room { 1 ≤ out.old.spare }
    ensures { SlotFreed (slot.Queue p) who store.entries (L.meaning leases.old) (L.meaning leases.new) out.old out.new }
{
    let epoch = store.epoch();
    out.push(Item::Fact(Fact::Freed(Slot::Queue(p), epoch, Cause::Stopped)));
    leases.release(who, Slot::Queue(p), Store::Queue(store), Cause::Stopped);
}
