//! The producers of a node.
ghost use Rattle.std.specs.Prelude.{◌≡◌, ℕ, ◌+◌, ◌-◌, ◌<◌, ◌≤◌, List, [], ◌∷◌, length, replicate, true, None, Some, IfOk, OnOk, IfSome, IfNone, MatchOption, is_some, slice_index_or, slice_set};
ghost use Rattle.std.specs.List.{list_any};
ghost use Rattle.std.specs.List.Sorted.{IsStrictlySortedBy};
ghost use Rattle.std.specs.Option.{option_and_then, option_map};
ghost use Rattle.std.specs.Ordering.{nat_cmp};
ghost use Rattle.std.specs.Cmp.Lexicographic.{slice_cmp};
ghost use Rattle.yard_model.specs.declared.fact.Fact.TheVariants as fact;
ghost use Rattle.yard_model.specs.declared.incarnation.Cause.TheVariants as cause;
ghost use Rattle.yard_model.specs.declared.incarnation.Slot.TheVariants as slot;
ghost use Rattle.yard_model.specs.Genuine.{is_brought, is_producer};
ghost use Rattle.yard_model.specs.Limits.{turn_room};
ghost use Rattle.yard_model.specs.Move.{told};
ghost use Rattle.yard_model.specs.Producer.{give_back, next_sending};
ghost use Rattle.yard_model.specs.Script.{setting, sends, is_name};
ghost use Rattle.yard_model.specs.Setting.{shard_of};
ghost use Rattle.yard_model.specs.SlotReads.{holder, epoch, queued};
ghost use Rattle.yard_model.specs.Turns.{where_some};
ghost use Rattle.yard_model.specs.Words.{at};
ghost use Rattle.durable_queue.specs.Queue.{Queue};
ghost use Rattle.send_window.specs.declared.pair.Sends.{Sends};
ghost use Rattle.producer_ctl.specs.Paired.{IsPlace, IsNext, name_at};
ghost use Rattle.producer_ctl.specs.Produced.{given, acking, asking, queueing, resending, repeating};
ghost use Rattle.producer_ctl.specs.Producing.{no_routing, routing, held, waits, of_held, sending, moves_of, moved_by, stepped, holding, without, next_message, after_message, MayGo, IsStore, IsReserved, Stands, AreMore, AreReady, IsRoomy, HasPlaces, room_of};

use crate::held::{
    ack_in, demand_in, has_room_in, hint_in, knows_in, message_in, next_in, next_waiting_in,
    queue_in, resend_in, reserve_in, tick_in,
};
use crate::names::Names;
use crate::place::Place;
use crate::producer::{Producer, push};
use crate::table::Blank;
use durable_queue::QueueStore;
use name_index::Successors;
use send_window::Sends;
use std::alloc::{AllocError, Global};
use std::marker::{Model, PhantomData};
use turn_rooms::{AMPLE_ROOM, TURN_ROOM};
use yard_model::{
    Cause, Charter, EntityName, Fact, Incarnation, Item, Message, Out, ProducerNo, Sending,
    ShardNo, Slot,
};

/// Numbers that a producer is still to route.
#[derive(Clone, Copy)]
pub(crate) struct Pending {
    /// The producer.
    pub producer: ProducerNo,
    /// The place of the name to which they go.
    pub at: usize,
    /// The numbers.
    pub sends: Sends,
}

/// The producers of a node (Akka 2.6, Reliable Delivery: the sharding producer controller, whose
/// durable queue makes each command outlive its node).
///
/// Contracts see those whose queue the node holds, each as the definition's state, the room of each
/// queue, and the numbers that are still to be routed; what a call makes of them is one equation, the
/// definition's moves folded. A call about a queue that isn't held changes nothing. No demand is above
/// the confirmed number and the window.
#[derive(Drop)]
pub struct Producers {
    names: Names,
    who: Incarnation,
    held: Vec<Option<Producer>>,
    tables: Vec<Option<Blank>>,
    pending: Option<Pending>,
    ready: bool,
    // to which names acknowledgements came, one after the other
    acked: Successors,
    holds: PhantomData<(Fact, Message, Place, Slot)>,
}

impl Model for Producers {
    ghost use Rattle.std.specs.Prelude.{◌≡◌, true};
    ghost use Rattle.yard_model.specs.Script.{setting};
    ghost use Rattle.producer_ctl.specs.Producing.{Producing, IsProducing, AreReady, producing};

    ghost Value = { Producing };

    ghost view = { λ v. producing v.names v.who v.held.items v.pending };

    ghost invariant = { λ v. (IsProducing v.names v.who (setting v.names).names v.held.items v.tables.items v.pending) × (v.ready ≡ true → AreReady v.held.items) };
}

impl Producers {
    /// The producers of a node that comes up: it holds no queue; the script's names are shared with it.
    /// The only error is want of memory.
    pub fn new(
        alloc: Global,
        who: Incarnation,
        charter: &Charter,
        names: &Names,
    ) -> Result<Producers, AllocError>
        requires { names.now ≡ charter.now }
        ensures { IfOk result (λ v. v ≡ record { script = charter.now; who = who; producers = replicate charter.now.config.producers None; rooms = replicate charter.now.config.producers 0; pending = no_routing }) }
    {
        let producers = charter.config().producers;
        let names = names.share()?;
        let held = none_held(alloc, producers)?;
        let tables = new_tables(alloc, producers, names.len())?;
        let acked = Successors::new(alloc, names.len())?;
        Ok(Producers {
            names,
            who,
            held,
            tables,
            pending: None,
            ready: true,
            acked,
            holds: PhantomData,
        })
    }

    /// Whether the queue of a producer is held.
    pub fn holds(&self, p: ProducerNo) -> bool
        requires producer { is_producer self.now.script p ≡ true }
        ensures { result ≡ is_some (held p self.now) }
    {
        self.held[place_of(p)].is_some()
    }

    /// The store of a producer's queue; None exactly where it isn't held.
    pub fn store(&self, p: ProducerNo) -> Option<&QueueStore>
        requires producer { is_producer self.now.script p ≡ true }
        ensures { MatchOption result (held p self.now ≡ None) (λ x. IsStore self.now p x.now) }
    {
        match &self.held[place_of(p)] {
            Some(producer) => Some(producer.store()),
            None => None,
        }
    }

    /// What stands of a producer whose queue is held: its demand isn't above the confirmed number and
    /// the window.
    pub fn knows(&self, p: ProducerNo)
        requires producer { is_producer self.now.script p ≡ true }
        ensures { Stands p self.now }
    {
        knows_in(&self.held[place_of(p)]);
    }

    /// How many names there are.
    pub fn names(&self) -> usize
        ensures { result ≡ length (setting self.now.script).names }
    {
        self.names.len()
    }

    /// The next place, from one on, to whose name a command of the producer is queued that isn't
    /// confirmed; the number of names where there is none, or its queue isn't held.
    pub fn next_waiting(&self, p: ProducerNo, from: usize) -> usize
        requires producer { is_producer self.now.script p ≡ true }
        requires from { from ≤ length (setting self.now.script).names }
        ensures { IsNext (λ k. waits p (name_at (setting self.now.script).names k) self.now) from (length (setting self.now.script).names) result }
    {
        next_waiting_in(&self.held[place_of(p)], from, self.names())
    }

    /// Makes room in each queue that is held for all that a turn may write there. The only error is
    /// want of memory; then nothing else changes.
    #[inline(always)]
    pub fn reserve(&mut self) -> Result<(), AllocError>
        ensures state { self.new ≡ record self.old { rooms = self.new.rooms } }
        ensures more { AreMore self.old.rooms self.new.rooms }
        ensures ok { OnOk result ((p : ℕ) → is_producer self.old.script p ≡ true → (held p self.old ≡ None → ⊥) → turn_room ≤ slice_index_or self.new.rooms (p - 1) 0) }
    {
        reserve_all(&mut self.held, &mut self.ready)
    }

    /// A producer's queue is granted to this node: nothing was demanded, nothing was sent.
    pub fn begin(&mut self, p: ProducerNo, store: QueueStore)
        requires producer { is_producer self.old.script p ≡ true }
        requires new { held p self.old ≡ None }
        requires script { store.script ≡ self.old.script }
        requires its { store.producer ≡ p }
        requires leased { holder store.entries ≡ Some self.old.who }
        ensures { self.new ≡ holding p self.old store }
    {
        let place = place_of(p);
        let table = take_table(&mut self.tables, place);
        let producer = Producer::begin(self.who, p, store, table);
        self.held[place] = Some(producer);
        self.ready = false;
        self.pending = None;
    }

    /// Rest: a producer's queue is given back, which is told; its store, which is leased still. None
    /// exactly where it wasn't held; then nothing is told.
    pub fn end(&mut self, p: ProducerNo, out: &mut Out) -> Option<QueueStore>
        requires producer { is_producer self.old.script p ≡ true }
        requires room { 0 < out.old.spare }
        ensures state { self.new ≡ routing no_routing (moved_by p self.old (where_some give_back (held p self.old))) }
        ensures out { out.new ≡ given out.old (where_some give_back (held p self.old)) }
        ensures store { MatchOption result (held p self.old ≡ None) (IsStore self.old p) }
    {
        self.knows(p);
        let store = self.take_all(p);
        tell_freed(p, &store, out);
        store
    }

    /// Takes the store of a producer's queue out, which isn't held then; None exactly where it wasn't.
    pub fn take_all(&mut self, p: ProducerNo) -> Option<QueueStore>
        requires producer { is_producer self.old.script p ≡ true }
        ensures state { self.new ≡ without p self.old }
        ensures store { MatchOption result (held p self.old ≡ None) (IsStore self.old p) }
    {
        let place = place_of(p);
        self.pending = None;
        self.ready = false;
        match self.held[place].take() {
            Some(producer) => {
                let parts = producer.end();
                self.tables[place] = Some(parts.table);
                Some(parts.store)
            }
            None => None,
        }
    }

    /// Send: the next of the producer's sends is queued, where one is left; what may be sent to its
    /// entity and wasn't yet is to be routed. The charter is the one that they were made for.
    pub fn queue_next(&mut self, p: ProducerNo, charter: &Charter, out: &mut Out)
        requires producer { is_producer self.old.script p ≡ true }
        requires charter { charter.now ≡ self.old.script }
        requires store { IfSome (held p self.old) (λ st. 0 < slice_index_or self.old.rooms (p - 1) 0) }
        requires room { 0 < out.old.spare }
        ensures state { self.new ≡ stepped p self.old (option_and_then (sending (sends self.old.script p)) (held p self.old)) }
        ensures out { out.new ≡ given out.old (moves_of (option_and_then (sending (sends self.old.script p)) (held p self.old))) }
    {
        match self.next(p, charter) {
            Some(sending) => self.queue(p, &sending, out),
            None => self.pending = None,
        }
    }

    /// The next of a producer's sends that isn't queued; None exactly where all are, or its queue isn't
    /// held.
    fn next(&self, p: ProducerNo, charter: &Charter) -> Option<Sending>
        requires producer { is_producer self.now.script p ≡ true }
        requires charter { charter.now ≡ self.now.script }
        ensures { result ≡ option_and_then (next_sending (sends self.now.script p)) (held p self.now) }
    {
        next_in(&self.held[place_of(p)], charter)
    }

    /// It is queued, which is the next; what may be sent to its entity and wasn't yet is to be routed.
    fn queue(&mut self, p: ProducerNo, sending: &Sending, out: &mut Out)
        requires producer { is_producer self.old.script p ≡ true }
        requires next { option_and_then (next_sending (sends self.old.script p)) (held p self.old) ≡ Some sending.now }
        requires store { IfSome (held p self.old) (λ st. 0 < slice_index_or self.old.rooms (p - 1) 0) }
        requires room { 0 < out.old.spare }
        ensures state { self.new ≡ stepped p self.old (of_held (queueing sending.now) p self.old) }
        ensures out { out.new ≡ given out.old (moves_of (of_held (queueing sending.now) p self.old)) }
    {
        let own = place_of(p);
        let place = self.find_near(&sending.entity, hint_in(&self.held[own]));
        let sends = queue_in(&mut self.held[own], &place, sending, out);
        self.ready = is_ready(self.ready, &self.held, own);
        self.pending = pending_of(p, place.at, sends);
    }

    /// Request: what is confirmed is noted; the entity asks for more, up to a number; what may be sent
    /// to it and wasn't yet is to be routed.
    pub fn demand(
        &mut self,
        p: ProducerNo,
        entity: &EntityName,
        confirmed: u32,
        up_to: u32,
        out: &mut Out,
    )
        requires producer { is_producer self.old.script p ≡ true }
        requires name { is_brought self.old.script entity.now ≡ true }
        requires queued { IfSome (held p self.old) (λ st. confirmed ≤ queued entity.now st.entries) }
        requires window { up_to ≤ confirmed + self.old.script.config.window }
        requires store { IfSome (held p self.old) (λ st. 0 < slice_index_or self.old.rooms (p - 1) 0) }
        requires room { 0 < out.old.spare }
        ensures state { self.new ≡ stepped p self.old (of_held (asking entity.now confirmed up_to) p self.old) }
        ensures out { out.new ≡ given out.old (moves_of (of_held (asking entity.now confirmed up_to) p self.old)) }
    {
        let place = self.find(entity);
        let own = place_of(p);
        let sends = demand_in(&mut self.held[own], &place, confirmed, up_to, out);
        self.ready = is_ready(self.ready, &self.held, own);
        self.pending = pending_of(p, place.at, sends);
    }

    /// Ack: what is confirmed is noted; what may be sent to the entity and wasn't yet is to be routed.
    pub fn ack(&mut self, p: ProducerNo, entity: &EntityName, confirmed: u32, out: &mut Out)
        requires producer { is_producer self.old.script p ≡ true }
        requires name { is_brought self.old.script entity.now ≡ true }
        requires queued { IfSome (held p self.old) (λ st. confirmed ≤ queued entity.now st.entries) }
        requires store { IfSome (held p self.old) (λ st. 0 < slice_index_or self.old.rooms (p - 1) 0) }
        requires room { 0 < out.old.spare }
        ensures state { self.new ≡ stepped p self.old (of_held (acking entity.now confirmed) p self.old) }
        ensures out { out.new ≡ given out.old (moves_of (of_held (acking entity.now confirmed) p self.old)) }
    {
        let place = self.find_near(entity, self.acked.next());
        self.acked.note(place.at);
        let own = place_of(p);
        let sends = ack_in(&mut self.held[own], &place, confirmed, out);
        self.ready = is_ready(self.ready, &self.held, own);
        self.pending = pending_of(p, place.at, sends);
    }

    /// Resend: what may be sent to the entity from this number on, and isn't confirmed, is to be routed
    /// again.
    pub fn resend(&mut self, p: ProducerNo, entity: &EntityName, from: u32)
        requires producer { is_producer self.old.script p ≡ true }
        requires name { is_brought self.old.script entity.now ≡ true }
        ensures { self.new ≡ stepped p self.old (of_held (resending entity.now from) p self.old) }
    {
        let place = self.find(entity);
        let sends = resend_in(&self.held[place_of(p)], &place, from);
        self.pending = pending_of(p, place.at, sends);
    }

    /// The tick of one producer and the name at a place: the first queued number that isn't confirmed
    /// is to be routed again.
    pub fn tick(&mut self, p: ProducerNo, at: usize)
        requires producer { is_producer self.old.script p ≡ true }
        requires within { at < length (setting self.old.script).names }
        ensures { self.new ≡ stepped p self.old (of_held (repeating (name_at (setting self.old.script).names at)) p self.old) }
    {
        let place = self.nth(at);
        let own = place_of(p);
        let sends = tick_in(&mut self.held[own], &place);
        self.ready = is_ready(self.ready, &self.held, own);
        self.pending = pending_of(p, place.at, sends);
    }

    /// The next message that is to be routed; None exactly where none is left. Its number is queued, is
    /// above the confirmed one, and is at most what was demanded, or the first that isn't confirmed.
    pub fn next_send(&mut self) -> Option<Message>
        ensures state { self.new ≡ after_message self.old }
        ensures message { result ≡ next_message self.old }
        ensures within { IfSome result (MayGo self.old) }
    {
        match self.pending_shard() {
            Some(_) => Some(self.take_message()),
            None => None,
        }
    }

    /// The shard of the name to which the next message goes that is to be routed; None exactly where
    /// none is left.
    pub fn pending_shard(&self) -> Option<ShardNo>
        ensures none { IfNone result (self.now.pending.numbers ≡ []) }
        ensures some { IfSome result (λ s. 0 < length self.now.pending.numbers) }
        ensures shard { IfSome result (λ s. s ≡ shard_of (setting self.now.script) self.now.pending.entity) }
        ensures range { IfSome result (λ s. s < self.now.script.config.shards) }
    {
        match &self.pending {
            Some(pending) => {
                if pending.sends.after >= pending.sends.last {
                    return None;
                }
                Some(self.names.shard(pending.at))
            }
            None => None,
        }
    }

    /// The place of the name to which the next message goes that is to be routed, where one is left.
    #[inline]
    pub fn pending_at(&self) -> usize
        ensures within { 0 < length self.now.pending.numbers → result < length (setting self.now.script).names }
        ensures it { 0 < length self.now.pending.numbers → name_at (setting self.now.script).names result ≡ self.now.pending.entity }
    {
        match &self.pending {
            Some(pending) => pending.at,
            None => 0,
        }
    }

    /// The next message that is to be routed, where one is left; its number is bounded as that of
    /// `next_send`.
    pub fn take_message(&mut self) -> Message
        requires left { 0 < length self.old.pending.numbers }
        ensures state { self.new ≡ after_message self.old }
        ensures message { next_message self.old ≡ Some result }
        ensures entity { result.entity ≡ self.old.pending.entity }
        ensures within { MayGo self.old result }
    {
        match &mut self.pending {
            Some(pending) => {
                let number = pending.sends.after + 1;
                let place = place_of(pending.producer);
                let entity = self.names.name(pending.at);
                pending.sends.after = number;
                message_in(&self.held[place], pending.at, entity, number)
            }
            None => unreachable!(),
        }
    }

    /// Where a name stands.
    fn find(&self, entity: &EntityName) -> Place
        requires name { is_brought self.now.script entity.now ≡ true }
        ensures place { IsPlace self.now.script result }
        ensures entity { result.entity ≡ entity.now }
    {
        let at = self.names.place(entity);
        Place {
            entity: *entity,
            at,
        }
    }

    /// Where a name stands, which may be at `hint`.
    #[inline(always)]
    fn find_near(&self, entity: &EntityName, hint: usize) -> Place
        requires name { is_brought self.now.script entity.now ≡ true }
        ensures place { IsPlace self.now.script result }
        ensures entity { result.entity ≡ entity.now }
    {
        let at = self.names.place_near(entity, hint);
        Place {
            entity: *entity,
            at,
        }
    }

    /// The name at a place.
    fn nth(&self, at: usize) -> Place
        requires within { at < length (setting self.now.script).names }
        ensures place { IsPlace self.now.script result }
        ensures entity { result.entity ≡ name_at (setting self.now.script).names at }
    {
        Place {
            entity: *self.names.name(at),
            at,
        }
    }
}

/// The place of a producer, from 0.
fn place_of(p: ProducerNo) -> usize
    ensures { result ≡ p - 1 }
{
    p.get() as usize - 1
}

/// No queue is held.
fn none_held(alloc: Global, producers: u8) -> Result<Vec<Option<Producer>>, AllocError>
    ensures { IfOk result (λ v. v.items ≡ replicate producers None) }
{
    let mut held = Vec::with_capacity(alloc, producers as usize)?;
    for _ in 0..producers {
        held.push(None)?;
    }
    Ok(held)
}

/// For each producer, room for a table with a place for each name.
fn new_tables(alloc: Global, producers: u8, names: usize) -> Result<Vec<Option<Blank>>, AllocError>
    ensures there { IfOk result (λ v. length v.items ≡ producers) }
    ensures each { IfOk result (λ v. (i : ℕ) → i < producers → HasPlaces names (at v.items i)) }
{
    let mut tables = Vec::with_capacity(alloc, producers as usize)?;
    for _ in 0..producers {
        let table = Blank::new(alloc, names)?;
        tables.push(Some(table))?;
    }
    Ok(tables)
}

/// Takes a table's room out.
fn take_table(tables: &mut Vec<Option<Blank>>, place: usize) -> Blank
    requires within { place < length tables.old.items }
    requires there { at tables.old.items place ≡ None → ⊥ }
    ensures table { at tables.old.items place ≡ Some result }
    ensures tables { tables.new.items ≡ slice_set tables.old.items place None }
{
    match tables[place].take() {
        Some(table) => table,
        None => unreachable!(),
    }
}

/// Whether there is room in each queue that is held, where there was before this one was written to.
fn is_ready(ready: bool, held: &Vec<Option<Producer>>, own: usize) -> bool
    requires { own < length held.now.items }
    ensures before { result ≡ true → ready ≡ true }
    ensures own { result ≡ true → IsRoomy (at held.now.items own) }
{
    ready && has_room_in(&held[own], TURN_ROOM)
}

/// Makes room in each queue that is held, where there wasn't enough in one since it was written to.
#[inline(always)]
fn reserve_all(held: &mut Vec<Option<Producer>>, ready: &mut bool) -> Result<(), AllocError>
    requires ready { ready.old ≡ true → AreReady held.old.items }
    ensures there { length held.new.items ≡ length held.old.items }
    ensures kept { (i : ℕ) → IsReserved (at held.old.items i) (at held.new.items i) }
    ensures ok { OnOk result ((i : ℕ) → (at held.old.items i ≡ None → ⊥) → turn_room ≤ room_of (at held.new.items i)) }
    ensures ready { ready.new ≡ true → AreReady held.new.items }
{
    if *ready {
        return Ok(());
    }
    reserve_each(held)?;
    *ready = true;
    Ok(())
}

/// Makes room in each queue that is held.
#[inline(never)]
fn reserve_each(held: &mut Vec<Option<Producer>>) -> Result<(), AllocError>
    ensures there { length held.new.items ≡ length held.old.items }
    ensures kept { (i : ℕ) → IsReserved (at held.old.items i) (at held.new.items i) }
    ensures ok { OnOk result ((i : ℕ) → (at held.old.items i ≡ None → ⊥) → turn_room ≤ room_of (at held.new.items i)) }
{
    for place in 0..held.len() {
        reserve_in(&mut held[place], AMPLE_ROOM)?;
    }
    Ok(())
}

/// It is told that the queue of this store is given back, if there is one.
fn tell_freed(p: ProducerNo, store: &Option<QueueStore>, out: &mut Out)
    requires { 0 < out.old.spare }
    ensures { out.new ≡ given out.old (where_some (λ (x : Queue). told (fact.Freed (slot.Queue p) (epoch x.entries) cause.Released) ∷ []) store.now) }
{
    if let Some(store) = store {
        push(
            out,
            Item::Fact(Fact::Freed(Slot::Queue(p), store.epoch(), Cause::Released)),
        );
    }
}

/// What is to be routed, if anything.
fn pending_of(p: ProducerNo, at: usize, sends: Option<Sends>) -> Option<Pending>
    ensures { result ≡ option_map (λ (s : Sends). record { producer = p; at = at; sends = s }) sends }
{
    match sends {
        Some(sends) => Some(Pending {
            producer: p,
            at,
            sends,
        }),
        None => None,
    }
}
