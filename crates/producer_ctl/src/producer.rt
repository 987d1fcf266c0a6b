//! One producer whose queue the node holds.
ghost use Rattle.std.specs.Prelude.{◌≡◌, ℕ, ◌+◌, ◌<◌, ◌≤◌, List, [], ◌∷◌, length, true, Some, OnOk, slice_index_or, max};
ghost use Rattle.std.specs.List.Sorted.{IsStrictlySortedBy};
ghost use Rattle.std.specs.Ordering.{nat_cmp};
ghost use Rattle.std.specs.Cmp.Lexicographic.{slice_cmp};
ghost use Rattle.yard_model.specs.declared.fact.Fact.TheVariants as fact;
ghost use Rattle.yard_model.specs.Move.{told, made, demanded, pushed};
ghost use Rattle.yard_model.specs.Producer.{new_producer, next_sending, queue, confirm, push_marks, to_push, to_resend, to_repeat, message_of};
ghost use Rattle.yard_model.specs.Script.{setting, sends};
ghost use Rattle.yard_model.specs.SlotReads.{holder, queued, confirmed};
ghost use Rattle.producer_ctl.specs.Paired.{IsPlace, IsNext, name_at, new_pair, no_pair};
ghost use Rattle.send_window.specs.Window.{numbers_of};
ghost use Rattle.producer_ctl.specs.Produced.{moved, given, acking, asking, queueing, repeating, waits_to, IsPairOf, IsStoreOf, StandsAs};

use crate::place::Place;
use crate::table::{Blank, Table};
use durable_queue::QueueStore;
use send_window::{Pair, Sends, larger};
use std::alloc::AllocError;
use std::marker::{Model, PhantomData};
use yard_model::{
    Charter, Command, EntityName, Fact, Incarnation, Item, Message, Out, ProducerNo, Sending,
};

/// A producer whose queue the node holds (Akka 2.6, Reliable Delivery: the sharding producer
/// controller of one producer, with its durable queue): the queue and, of each name of the script,
/// what was demanded and sent, with what is queued and confirmed at hand.
///
/// Contracts see it as the definition's state, the script and the queue's room; what a call makes of it
/// is one equation, the definition's moves folded. `queue_next`, `demand`, `ack`, `resend` and `tick`
/// answer the numbers that are to be routed, each of which may be sent (`numbers_are_within`).
#[derive(Drop)]
pub struct Producer {
    who: Incarnation,
    number: ProducerNo,
    store: QueueStore,
    pairs: Table,
    holds: PhantomData<(Fact, Command, Message)>,
}

impl Model for Producer {
    ghost use Rattle.producer_ctl.specs.Produced.{Produced, IsProduced, produced};

    ghost Value = { Produced };

    ghost view = { λ k. produced k.who k.number k.store k.pairs };

    ghost invariant = { λ k. IsProduced k.who k.number k.store k.pairs };
}

/// One item more, for which there is room.
pub(crate) fn push(out: &mut Out, item: Item)
    requires { 0 < out.old.spare }
    ensures { out.new ≡ given out.old (made item ∷ []) }
{
    out.push(item);
}

/// What a producer leaves.
#[derive(Drop)]
pub struct Parts {
    /// The queue's store.
    pub store: QueueStore,
    /// Room for the table of what is kept of each name.
    pub table: Blank,
}

impl Producer {
    /// A producer whose queue is granted to this node: nothing was demanded, nothing was sent. The table
    /// gets a place for each of the names. It takes no memory.
    pub fn begin(who: Incarnation, number: ProducerNo, store: QueueStore, table: Blank) -> Producer
        requires number { store.producer ≡ number }
        requires leased { holder store.entries ≡ Some who }
        requires sorted { IsStrictlySortedBy (slice_cmp nat_cmp) (setting store.script).names }
        requires table { table ≡ length (setting store.script).names }
        ensures { result ≡ record { script = store.script; state = new_producer (setting store.script) who number store.entries; room = store.spare } }
    {
        let pairs = table.filled(&store);
        Producer {
            who,
            number,
            store,
            pairs,
            holds: PhantomData,
        }
    }

    /// What stands of it: the queue is leased to this node, and no demand is above the confirmed number
    /// and the window.
    pub fn knows(&self)
        ensures { StandsAs self.now }
    {
        let _who = self.who;
    }

    /// The queue's store, leased still, and the room of the table; the rest is gone.
    pub fn end(self) -> Parts
        ensures store { IsStoreOf self result.store }
        ensures table { result.table ≡ length (setting self.script).names }
    {
        let Producer {
            who: _,
            number: _,
            store,
            pairs,
            holds: _,
        } = self;
        Parts {
            store,
            table: pairs.into_blank(),
        }
    }

    /// The queue's store.
    pub fn store(&self) -> &QueueStore
        ensures { IsStoreOf self.now result.now }
    {
        &self.store
    }

    /// The next place, from one on, to whose name a command is queued that isn't confirmed; the number
    /// of names where there is none.
    pub fn next_waiting(&self, from: usize) -> usize
        requires { from ≤ length (setting self.now.script).names }
        ensures { IsNext (λ k. waits_to (name_at (setting self.now.script).names k) self.now.state) from (length (setting self.now.script).names) result }
    {
        self.pairs.next(from)
    }

    /// Whether there is room for so many entries in the queue.
    pub fn has_room(&self, wanted: u32) -> bool
        ensures { result ≡ true → wanted ≤ self.now.room }
    {
        wanted <= self.store.spare()
    }

    /// Makes room for so many entries in the queue. The only error is want of memory; then nothing
    /// changes.
    pub fn reserve(&mut self, wanted: u32) -> Result<(), AllocError>
        ensures state { self.new ≡ record self.old { room = self.new.room } }
        ensures more { self.old.room ≤ self.new.room }
        ensures ok { OnOk result (wanted ≤ self.new.room) }
    {
        self.store.reserve(wanted)
    }

    /// What is kept of an entity.
    fn pair(&self, place: &Place) -> Pair
        requires place { IsPlace self.now.script place.now }
        ensures { IsPairOf self.now place.now.entity result }
    {
        self.pairs.get(place.at)
    }

    /// The next of the producer's sends that isn't queued; None exactly where all are.
    pub fn next(&self, charter: &Charter) -> Option<Sending>
        requires charter { charter.now ≡ self.now.script }
        ensures { result ≡ next_sending (sends self.now.script self.now.state.number) self.now.state }
    {
        let queued = self.store.total() as usize;
        charter.sends(self.number).get(queued).copied()
    }

    /// Where the name of the next of the producer's sends may stand.
    pub fn hint(&self) -> usize {
        self.store.hint(self.store.total() as usize)
    }

    /// The message of a queued number.
    pub fn message(&self, at: usize, entity: &EntityName, number: u32) -> Message
        requires place { IsPlace self.now.script (record { entity = entity.now; at = at }) }
        requires some { 0 < number }
        requires queued { number ≤ queued entity.now self.now.state.entries }
        ensures { result ≡ message_of entity.now self.now.state number }
    {
        match self.store.command_at(at, number) {
            Some(command) => Message {
                producer: self.number,
                entity: *entity,
                number,
                command,
                origin: self.who,
            },
            None => unreachable!(),
        }
    }

    /// A move: a send is queued.
    fn tell_queued(&mut self, place: &Place, sending: &Sending, out: &mut Out)
        requires place { IsPlace self.old.script place.now }
        requires entity { place.now.entity ≡ sending.now.entity }
        requires next { next_sending (sends self.old.script self.old.state.number) self.old.state ≡ Some sending.now }
        requires store { 0 < self.old.room }
        requires room { 0 < out.old.spare }
        ensures state { self.new ≡ moved self.old (queue sending.now self.old.state) }
        ensures out { out.new ≡ given out.old (queue sending.now self.old.state) }
    {
        self.store.queue_at(place.at, sending);
        let mut pair = self.pairs.get(place.at);
        pair.queue(sending.number);
        self.pairs.put(place.at, pair);
        push(
            out,
            Item::Fact(Fact::Queued(self.number, sending.entity, sending.number, sending.command)),
        );
    }

    /// A move: all numbers up to this one are confirmed.
    #[inline(always)]
    fn tell_confirmed(&mut self, place: &Place, number: u32, out: &mut Out)
        requires place { IsPlace self.old.script place.now }
        requires queued { number ≤ queued place.now.entity self.old.state.entries }
        requires above { confirmed place.now.entity self.old.state.entries < number }
        requires store { 0 < self.old.room }
        requires room { 0 < out.old.spare }
        ensures state { self.new ≡ moved self.old (told (fact.Confirmed self.old.state.number place.now.entity number) ∷ []) }
        ensures out { out.new ≡ given out.old (told (fact.Confirmed self.old.state.number place.now.entity number) ∷ []) }
    {
        self.store.confirm_at(place.at, &place.entity, number);
        let mut pair = self.pairs.get(place.at);
        pair.confirm(number);
        self.pairs.put(place.at, pair);
        push(
            out,
            Item::Fact(Fact::Confirmed(self.number, place.entity, number)),
        );
    }

    /// A move: it is asked up to this number.
    fn set_demand(&mut self, place: &Place, up_to: u32)
        requires place { IsPlace self.old.script place.now }
        requires bounded { up_to ≤ confirmed place.now.entity self.old.state.entries + self.old.script.config.window }
        ensures { self.new ≡ moved self.old (demanded place.now.entity up_to ∷ []) }
    {
        let mut pair = self.pairs.get(place.at);
        pair.ask(up_to);
        self.pairs.put_as_before(place.at, pair);
    }

    /// A move: it is sent up to this number.
    fn set_sent(&mut self, place: &Place, number: u32)
        requires place { IsPlace self.old.script place.now }
        ensures { self.new ≡ moved self.old (pushed place.now.entity number ∷ []) }
    {
        let mut pair = self.pairs.get(place.at);
        pair.mark(number);
        self.pairs.put_as_before(place.at, pair);
    }
}

impl Producer {
    /// Confirm: where the number is above the confirmed one it is confirmed.
    #[inline(always)]
    fn confirm(&mut self, place: &Place, number: u32, out: &mut Out)
        requires place { IsPlace self.old.script place.now }
        requires queued { number ≤ queued place.now.entity self.old.state.entries }
        requires store { 0 < self.old.room }
        requires room { 0 < out.old.spare }
        ensures state { self.new ≡ moved self.old (confirm place.now.entity number self.old.state) }
        ensures out { out.new ≡ given out.old (confirm place.now.entity number self.old.state) }
    {
        let pair = self.pair(place);
        if pair.confirmed < number {
            self.tell_confirmed(place, number, out);
        }
    }

    /// Push: what was sent is at least what may be sent. What is to be routed.
    fn push(&mut self, place: &Place) -> Sends
        requires place { IsPlace self.old.script place.now }
        ensures state { self.new ≡ moved self.old (push_marks place.now.entity self.old.state) }
        ensures numbers { numbers_of result ≡ to_push place.now.entity self.old.state }
    {
        let pair = self.pair(place);
        self.set_sent(place, larger(pair.confirmed, pair.allowed()));
        pair.to_push()
    }

    /// Send: the next of the sends is queued, which is told. What may be sent to its entity and wasn't
    /// yet.
    pub fn queue_next(&mut self, place: &Place, sending: &Sending, out: &mut Out) -> Sends
        requires place { IsPlace self.old.script place.now }
        requires entity { place.now.entity ≡ sending.now.entity }
        requires next { next_sending (sends self.old.script self.old.state.number) self.old.state ≡ Some sending.now }
        requires store { 0 < self.old.room }
        requires room { 0 < out.old.spare }
        ensures state { self.new ≡ moved self.old (queueing sending.now self.old.state).moves }
        ensures out { out.new ≡ given out.old (queueing sending.now self.old.state).moves }
        ensures numbers { numbers_of result ≡ (queueing sending.now self.old.state).numbers }
    {
        self.tell_queued(place, sending, out);
        self.push(place)
    }

    /// Request: what is confirmed is noted, which is told where it is news; the entity asks for more, up
    /// to a number. What may be sent to it and wasn't yet.
    pub fn demand(&mut self, place: &Place, confirmed: u32, up_to: u32, out: &mut Out) -> Sends
        requires place { IsPlace self.old.script place.now }
        requires queued { confirmed ≤ queued place.now.entity self.old.state.entries }
        requires bounded { up_to ≤ confirmed + self.old.script.config.window }
        requires store { 0 < self.old.room }
        requires room { 0 < out.old.spare }
        ensures state { self.new ≡ moved self.old (asking place.now.entity confirmed up_to self.old.state).moves }
        ensures out { out.new ≡ given out.old (asking place.now.entity confirmed up_to self.old.state).moves }
        ensures numbers { numbers_of result ≡ (asking place.now.entity confirmed up_to self.old.state).numbers }
    {
        self.confirm(place, confirmed, out);
        self.set_demand(place, up_to);
        self.push(place)
    }

    /// Ack: what is confirmed is noted, which is told where it is news. What may be sent to the entity
    /// and wasn't yet.
    pub fn ack(&mut self, place: &Place, confirmed: u32, out: &mut Out) -> Sends
        requires place { IsPlace self.old.script place.now }
        requires queued { confirmed ≤ queued place.now.entity self.old.state.entries }
        requires store { 0 < self.old.room }
        requires room { 0 < out.old.spare }
        ensures state { self.new ≡ moved self.old (acking place.now.entity confirmed self.old.state).moves }
        ensures out { out.new ≡ given out.old (acking place.now.entity confirmed self.old.state).moves }
        ensures numbers { numbers_of result ≡ (acking place.now.entity confirmed self.old.state).numbers }
    {
        self.confirm(place, confirmed, out);
        self.push(place)
    }

    /// Resend: what may be sent to the entity from this number on and isn't confirmed.
    pub fn resend(&self, place: &Place, from: u32) -> Sends
        requires place { IsPlace self.now.script place.now }
        ensures { numbers_of result ≡ to_resend place.now.entity from self.now.state }
    {
        let pair = self.pair(place);
        pair.to_resend(from)
    }

    /// The tick of one name: the first queued number that isn't confirmed, where there is one.
    pub fn tick(&mut self, place: &Place) -> Sends
        requires place { IsPlace self.old.script place.now }
        ensures state { self.new ≡ moved self.old (repeating place.now.entity self.old.state).moves }
        ensures numbers { numbers_of result ≡ (repeating place.now.entity self.old.state).numbers }
    {
        let pair = self.pair(place);
        if pair.waits() {
            self.set_sent(place, pair.confirmed + 1);
        }
        pair.to_repeat()
    }
}
