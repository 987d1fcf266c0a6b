//! The producers' steps (Akka 2.6, Reliable Delivery: the sharding producer controller): commands are
//! queued, sent, confirmed and sent again; a queue is asked for and given back.
ghost use Rattle.std.specs.Prelude.{◌≡◌, ◌==◌, if◌then◌else◌, IsTrue, ℕ, ◌+◌, ◌*◌, ◌-◌, ◌<◌, ◌≤◌, true, length, [], None, Some, IfSome, IfNone, MatchOption};
ghost use Rattle.yard_model.specs.declared.incarnation.Slot.TheVariants as slot;
ghost use Rattle.yard_model.specs.Genuine.{is_brought, is_genuine_packet, is_producer};
ghost use Rattle.yard_model.specs.Node as rules;
ghost use Rattle.yard_model.specs.Producer as producer;
ghost use Rattle.yard_model.specs.Script.{sends};
ghost use Rattle.yard_model.specs.Setting.{shard_of};
ghost use Rattle.yard_model.specs.Words.{at};
ghost use Rattle.yard_model.specs.World.{all_sends};
ghost use Rattle.node_laws.specs.NodeStands.{IsSoundNode};
ghost use Rattle.producer_ctl.specs.Paired.{name_at, IsNext};
ghost use Rattle.producer_ctl.specs.Produced.{acking, asking, repeating, resending};
ghost use Rattle.producer_ctl.specs.Producing.{sending};
ghost use Rattle.shard_lease.specs.declared.leases.Acquire.TheVariants as answers;
ghost use Rattle.shard_store.specs.declared.store.Store.TheVariants as stores;
ghost use Rattle.node_core.specs.Again.{queues, repeats};
ghost use Rattle.node_core.specs.Calling.{called, Called, given_of, AreDemanded, AreQueued, next_pending, without_first, pending_acts, is_pending_well, asks_queue, IsQueueGrant, IsQueueGrantOf, TookQueue, is_for_producer, producer_rule, ConfirmsQueued};
ghost use Rattle.node_core.specs.Found.{none, asks};
ghost use Rattle.node_core.specs.Gave.{Gave, moment};
ghost use Rattle.node_core.specs.Leased.{Rests, MayGiveQueue, GaveQueue};
ghost use Rattle.node_core.specs.Releasing.{HasReleaseRoom, LeavesRoom};
ghost use Rattle.node_core.specs.Standing.{IsReady, HasQueueRoom};
ghost use Rattle.node_core.specs.Taken.{IsGranted};
ghost use Rattle.node_core.specs.Went.{Went};

use crate::actors::Actors;
use crate::lead::holder_in;
use actor_laws::messages::genuine_is_message;
use actor_laws::producer::{producer_keeps, producer_routes};
use behaviour_core::Behaviour;
use durable_queue::QueueStore;
use producer_ctl::rules_are_calls;
use shard_lease::{Acquire, Leases};
use shard_store::Store;
use yard_model::{
    Body, Cause, Charter, EntityName, Fact, Incarnation, Item, Message, NodeNo, Out, Packet,
    ProducerNo, ShardNo, Slot,
};

impl<B: Behaviour + Drop> Actors<B> {
    /// A packet for a producer.
    #[inline(always)]
    pub(crate) fn produce_on(&mut self, packet: &Packet, out: &mut Out)
        requires its { is_for_producer packet.now.body ≡ true }
        requires genuine { IsTrue (is_genuine_packet self.old.script packet.now) }
        requires queued { ConfirmsQueued packet.now.body self.old.state }
        requires sound { IsSoundNode self.old.script self.old.state }
        requires ready { IsReady self.old out.old.spare }
        ensures { Went self.old self.new out.old out.new (producer_rule packet.now.body self.old.state) }
    {
        match &packet.body {
            Body::Request {
                producer,
                entity,
                confirmed,
                up_to,
            } => self.request(*producer, entity, *confirmed, *up_to, out),
            Body::Resend {
                producer,
                entity,
                from,
            } => self.resend(*producer, entity, *from, out),
            Body::Ack {
                producer,
                entity,
                confirmed,
            } => self.ack(*producer, entity, *confirmed, out),
            _ => unreachable!(),
        }
    }

    /// A Request: what is confirmed is noted; the entity asks for more, up to a number; what may be
    /// sent to it and wasn't yet is routed.
    pub(crate) fn request(
        &mut self,
        p: ProducerNo,
        entity: &EntityName,
        confirmed: u32,
        up_to: u32,
        out: &mut Out,
    )
        requires producer { is_producer self.old.script p ≡ true }
        requires name { is_brought self.old.script entity.now ≡ true }
        requires queued { AreQueued p entity.now confirmed self.old.state }
        requires window { up_to ≡ confirmed + self.old.script.config.window }
        requires sound { IsSoundNode self.old.script self.old.state }
        requires ready { IsReady self.old out.old.spare }
        ensures { Went self.old self.new out.old out.new (rules.request p entity.now confirmed up_to self.old.state) }
    {
        self.knows();
        self.knows_demand(p);
        producer_keeps();
        producer_routes();
        rules_are_calls();
        self.note_request(p, entity, confirmed, up_to, out);
        self.route_pending(out);
    }

    /// The producer's part of a Request.
    fn note_request(
        &mut self,
        p: ProducerNo,
        entity: &EntityName,
        confirmed: u32,
        up_to: u32,
        out: &mut Out,
    )
        requires producer { is_producer self.old.script p ≡ true }
        requires name { is_brought self.old.script entity.now ≡ true }
        requires queued { AreQueued p entity.now confirmed self.old.state }
        requires window { up_to ≤ confirmed + self.old.script.config.window }
        requires store { HasQueueRoom 1 self.old p }
        requires room { 1 ≤ out.old.spare }
        ensures { Called p (given_of (λ k. Some (asking entity.now confirmed up_to k)) p self.old.state) self.old self.new out.old out.new }
    {
        self.producers.demand(p, entity, confirmed, up_to, out);
    }

    /// An Ack: what is confirmed is noted; what may be sent to the entity and wasn't yet is routed.
    pub(crate) fn ack(&mut self, p: ProducerNo, entity: &EntityName, confirmed: u32, out: &mut Out)
        requires producer { is_producer self.old.script p ≡ true }
        requires name { is_brought self.old.script entity.now ≡ true }
        requires queued { AreQueued p entity.now confirmed self.old.state }
        requires sound { IsSoundNode self.old.script self.old.state }
        requires ready { IsReady self.old out.old.spare }
        ensures { Went self.old self.new out.old out.new (rules.ack p entity.now confirmed self.old.state) }
    {
        self.knows();
        self.knows_demand(p);
        producer_keeps();
        producer_routes();
        rules_are_calls();
        self.note_ack(p, entity, confirmed, out);
        self.route_pending(out);
    }

    /// The producer's part of an Ack.
    fn note_ack(&mut self, p: ProducerNo, entity: &EntityName, confirmed: u32, out: &mut Out)
        requires producer { is_producer self.old.script p ≡ true }
        requires name { is_brought self.old.script entity.now ≡ true }
        requires queued { AreQueued p entity.now confirmed self.old.state }
        requires store { HasQueueRoom 1 self.old p }
        requires room { 1 ≤ out.old.spare }
        ensures { Called p (given_of (λ k. Some (acking entity.now confirmed k)) p self.old.state) self.old self.new out.old out.new }
    {
        self.producers.ack(p, entity, confirmed, out);
    }

    /// A Resend: what may be sent to the entity from a number on, and isn't confirmed, is routed again.
    pub(crate) fn resend(&mut self, p: ProducerNo, entity: &EntityName, from: u32, out: &mut Out)
        requires producer { is_producer self.old.script p ≡ true }
        requires name { is_brought self.old.script entity.now ≡ true }
        requires sound { IsSoundNode self.old.script self.old.state }
        requires ready { IsReady self.old out.old.spare }
        ensures { Went self.old self.new out.old out.new (rules.route_numbers p entity.now (producer.to_resend entity.now from) self.old.state) }
    {
        self.knows();
        self.knows_demand(p);
        producer_keeps();
        producer_routes();
        rules_are_calls();
        self.note_resend(p, entity, from, out);
        self.route_pending(out);
    }

    /// The producer's part of a Resend.
    fn note_resend(&mut self, p: ProducerNo, entity: &EntityName, from: u32, out: &mut Out)
        requires producer { is_producer self.old.script p ≡ true }
        requires name { is_brought self.old.script entity.now ≡ true }
        ensures { Called p (given_of (λ k. Some (resending entity.now from k)) p self.old.state) self.old self.new out.old out.new }
    {
        let _ = out;
        self.producers.resend(p, entity, from);
    }

    /// Send: the next of the producer's sends is queued, where its queue is held and one is left; what
    /// may be sent to its entity and wasn't yet is routed.
    pub(crate) fn send(&mut self, p: ProducerNo, charter: &Charter, out: &mut Out)
        requires producer { is_producer self.old.script p ≡ true }
        requires charter { charter.now ≡ self.old.script }
        requires sound { IsSoundNode self.old.script self.old.state }
        requires ready { IsReady self.old out.old.spare }
        ensures { Went self.old self.new out.old out.new (rules.send (all_sends self.old.script) p self.old.state) }
    {
        self.knows();
        self.knows_demand(p);
        producer_keeps();
        producer_routes();
        rules_are_calls();
        self.note_send(p, charter, out);
        self.route_pending(out);
    }

    /// The producer's part of Send.
    fn note_send(&mut self, p: ProducerNo, charter: &Charter, out: &mut Out)
        requires producer { is_producer self.old.script p ≡ true }
        requires charter { charter.now ≡ self.old.script }
        requires store { HasQueueRoom 1 self.old p }
        requires room { 1 ≤ out.old.spare }
        ensures { Called p (given_of (sending (sends self.old.script p)) p self.old.state) self.old self.new out.old out.new }
    {
        self.producers.queue_next(p, charter, out);
    }

    /// A pair of the tick, of a producer and the name at a place: where some queued number isn't
    /// confirmed, the first such is routed again.
    pub(crate) fn send_again(&mut self, p: ProducerNo, at: usize, out: &mut Out)
        requires producer { is_producer self.old.script p ≡ true }
        requires within { at < length self.old.state.set.names }
        requires sound { IsSoundNode self.old.script self.old.state }
        requires rooms { HasReleaseRoom 4 self.old (shard_of self.old.state.set (name_at self.old.state.set.names at)) }
        requires room { 4 ≤ out.old.spare }
        ensures went { Went self.old self.new out.old out.new (rules.send_again p (name_at self.old.state.set.names at) self.old.state) }
        ensures rooms { (t n : ℕ) → HasReleaseRoom (2 + (n + (if t == shard_of self.old.state.set (name_at self.old.state.set.names at) then 2 else 0))) self.old t → HasReleaseRoom (2 + n) self.new t }
    {
        self.knows();
        producer_keeps();
        producer_routes();
        rules_are_calls();
        self.note_tick(p, at, out);
        self.route_pending(out);
    }

    /// The next place, from one on, of a name to which the producer repeats a number; the number of names
    /// where there is none.
    pub(crate) fn next_waiting(&self, p: ProducerNo, from: usize) -> usize
        requires producer { is_producer self.now.script p ≡ true }
        requires from { from ≤ length self.now.state.set.names }
        ensures { IsNext (λ k. repeats (queues self.now.state) p (name_at self.now.state.set.names k)) from (length self.now.state.set.names) result }
    {
        self.producers.next_waiting(p, from)
    }

    /// The producer's part of a pair of the tick.
    fn note_tick(&mut self, p: ProducerNo, at: usize, out: &mut Out)
        requires producer { is_producer self.old.script p ≡ true }
        requires within { at < length self.old.state.set.names }
        ensures called { Called p (given_of (λ k. Some (repeating (name_at self.old.state.set.names at) k)) p self.old.state) self.old self.new out.old out.new }
        ensures out { out.new ≡ out.old }
    {
        let _ = out;
        self.producers.tick(p, at);
    }

    /// What is still to be routed is routed, one number after another.
    #[inline(always)]
    fn route_pending(&mut self, out: &mut Out)
        requires well { is_pending_well self.old ≡ true }
        requires rooms { 0 < length self.old.pending.numbers → HasReleaseRoom (2 + 2 * length self.old.pending.numbers) self.old (shard_of self.old.state.set self.old.pending.entity) }
        requires room { 4 * length self.old.pending.numbers ≤ out.old.spare }
        ensures went { Went self.old self.new out.old out.new (pending_acts self.old) }
        ensures leaves { (s : ℕ) → (0 < length self.old.pending.numbers → shard_of self.old.state.set self.old.pending.entity ≡ s) → LeavesRoom s (length self.old.pending.numbers) self.old self.new }
    {
        self.knows();
        genuine_is_message();
        while let Some(s) = self.pending_shard() {
            let at = self.pending_at();
            let message = self.take_pending();
            self.route_to(s, at, &message, out);
        }
    }

    /// The shard of the next message that is to be routed; None exactly where none is left.
    fn pending_shard(&self) -> Option<ShardNo>
        ensures none { IfNone result (self.now.pending.numbers ≡ []) }
        ensures some { IfSome result (λ s. 0 < length self.now.pending.numbers) }
        ensures shard { IfSome result (λ s. s ≡ shard_of self.now.state.set self.now.pending.entity) }
        ensures range { IfSome result (λ s. s < self.now.script.config.shards) }
    {
        self.knows();
        self.producers.pending_shard()
    }

    /// The place of the name to which the next message goes that is to be routed, where one is left.
    fn pending_at(&self) -> usize
        ensures within { 0 < length self.now.pending.numbers → result < length self.now.state.set.names }
        ensures name { 0 < length self.now.pending.numbers → name_at self.now.state.set.names result ≡ self.now.pending.entity }
    {
        self.producers.pending_at()
    }

    /// The next message that is to be routed, where one is left.
    fn take_pending(&mut self) -> Message
        requires left { 0 < length self.old.pending.numbers }
        ensures state { self.new ≡ record self.old { pending = without_first self.old.pending } }
        ensures message { next_pending self.old ≡ Some result }
        ensures entity { result.entity ≡ self.old.pending.entity }
    {
        self.producers.take_message()
    }

    /// That no producer demands more than the window above what is confirmed. It does nothing.
    fn knows_demand(&self, p: ProducerNo)
        requires producer { is_producer self.now.script p ≡ true }
        ensures { IfSome (at self.now.state.producers (p - 1)) (AreDemanded self.now.script.config.window) }
    {
        self.producers.knows(p);
    }

    /// Rest: a producer's queue is given back, where it is held.
    pub(crate) fn rest<L: Leases>(&mut self, p: ProducerNo, leases: &mut L, out: &mut Out)
        requires producer { is_producer self.old.script p ≡ true }
        requires sound { IsSoundNode self.old.script self.old.state }
        requires ready { IsReady self.old out.old.spare }
        requires rests { Rests (L.meaning leases.old) self.old.script self.old.state }
        ensures script { self.new.script ≡ self.old.script }
        ensures gave { Gave self.old.script none (λ lists. rules.of_producer p producer.give_back self.old.state) (moment (L.meaning leases.old) self.old.state out.old.items) (moment (L.meaning leases.new) self.new.state out.new.items) }
    {
        let store = self.producers.end(p, out);
        give_queue_back(self.region.who(), p, store, leases);
    }

    /// Produce: a producer's queue that isn't held is asked for.
    pub(crate) fn produce<L: Leases>(&mut self, p: ProducerNo, leases: &mut L, out: &mut Out)
        requires producer { is_producer self.old.script p ≡ true }
        requires admitted { (L.meaning leases.old).admits self.old.state.who.node (slot.Queue p) ≡ true }
        requires sound { IsSoundNode self.old.script self.old.state }
        requires rests { Rests (L.meaning leases.old) self.old.script self.old.state }
        requires room { 1 ≤ out.old.spare }
        ensures script { self.new.script ≡ self.old.script }
        ensures gave { Gave self.old.script (asks_queue p self.old.state) (λ lists. rules.produce lists p self.old.state) (moment (L.meaning leases.old) self.old.state out.old.items) (moment (L.meaning leases.new) self.new.state out.new.items) }
    {
        if !self.holds_queue(p) {
            self.take_queue(p, leases, out);
        }
    }

    /// A queue that isn't held is asked for.
    fn take_queue<L: Leases>(&mut self, p: ProducerNo, leases: &mut L, out: &mut Out)
        requires producer { is_producer self.old.script p ≡ true }
        requires new { at self.old.state.producers (p - 1) ≡ None }
        requires admitted { (L.meaning leases.old).admits self.old.state.who.node (slot.Queue p) ≡ true }
        requires sound { IsSoundNode self.old.script self.old.state }
        requires rests { Rests (L.meaning leases.old) self.old.script self.old.state }
        requires room { 1 ≤ out.old.spare }
        ensures script { self.new.script ≡ self.old.script }
        ensures gave { Gave self.old.script (asks (slot.Queue p)) (λ lists. rules.produce lists p self.old.state) (moment (L.meaning leases.old) self.old.state out.old.items) (moment (L.meaning leases.new) self.new.state out.new.items) }
    {
        self.knows();
        let who = self.who();
        let answer = leases.acquire(who, Slot::Queue(p));
        self.take_queue_answer(p, answer, out);
    }

    /// What becomes of the answer: the queue is held where it is granted; else it is told who holds it.
    fn take_queue_answer(&mut self, p: ProducerNo, answer: Acquire, out: &mut Out)
        requires producer { is_producer self.old.script p ≡ true }
        requires new { at self.old.state.producers (p - 1) ≡ None }
        requires granted { IsQueueGrant self.old.script self.old.state.who p answer }
        requires room { 1 ≤ out.old.spare }
        ensures { TookQueue p answer self.old self.new out.old out.new }
    {
        match holder_in(&answer) {
            Some(node) => {
                drop(answer);
                self.tell_queue_held(p, node, out);
            }
            None => self.hold_granted(p, answer, out),
        }
    }

    /// A queue is granted: it is held.
    fn hold_granted(&mut self, p: ProducerNo, answer: Acquire, out: &mut Out)
        requires producer { is_producer self.old.script p ≡ true }
        requires new { at self.old.state.producers (p - 1) ≡ None }
        requires is_granted { IsGranted answer }
        requires granted { IsQueueGrant self.old.script self.old.state.who p answer }
        requires room { 1 ≤ out.old.spare }
        ensures { TookQueue p answer self.old self.new out.old out.new }
    {
        match answer {
            Acquire::Granted(Store::Queue(store)) => self.hold(p, store, out),
            _ => unreachable!(),
        }
    }

    /// It is told who holds a queue.
    fn tell_queue_held(&mut self, p: ProducerNo, node: NodeNo, out: &mut Out)
        requires room { 1 ≤ out.old.spare }
        ensures { TookQueue p (answers.Held node) self.old self.new out.old out.new }
    {
        let who = self.region.who();
        out.push(Item::Fact(Fact::Held(Slot::Queue(p), who, node)));
    }

    /// A queue is granted: that is told, and it is held.
    fn hold(&mut self, p: ProducerNo, store: QueueStore, out: &mut Out)
        requires producer { is_producer self.old.script p ≡ true }
        requires new { at self.old.state.producers (p - 1) ≡ None }
        requires granted { IsQueueGrantOf self.old.script self.old.state.who p store }
        requires room { 1 ≤ out.old.spare }
        ensures { TookQueue p (answers.Granted (stores.Queue store)) self.old self.new out.old out.new }
    {
        let who = self.region.who();
        let epoch = store.epoch();
        out.push(Item::Fact(Fact::Granted(Slot::Queue(p), epoch, who)));
        self.producers.begin(p, store);
    }
}

/// A queue is given back, if it was held.
fn give_queue_back<L: Leases>(
    who: Incarnation,
    p: ProducerNo,
    store: Option<QueueStore>,
    leases: &mut L,
)
    requires { IfSome store (MayGiveQueue (L.meaning leases.old) who p) }
    ensures { MatchOption store (L.meaning leases.new ≡ L.meaning leases.old) (λ x. GaveQueue (L.meaning leases.old) who p x.entries (L.meaning leases.new)) }
{
    if let Some(store) = store {
        give_queue(who, p, store, leases);
    }
}

/// A queue is given back.
fn give_queue<L: Leases>(who: Incarnation, p: ProducerNo, store: QueueStore, leases: &mut L)
    requires { MayGiveQueue (L.meaning leases.old) who p store }
    ensures { GaveQueue (L.meaning leases.old) who p store.entries (L.meaning leases.new) }
{
    leases.release(who, Slot::Queue(p), Store::Queue(store), Cause::Released);
}
