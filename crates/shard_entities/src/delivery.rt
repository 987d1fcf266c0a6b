//! Delivery.
ghost use Rattle.std.specs.Prelude.{◌≡◌, ℕ, ◌+◌, ◌<◌, ◌≤◌, ◌↔◌, List, [], ◌∷◌, ◌++◌, Some, None, IsTrue, true, if◌then◌else◌};
ghost use Rattle.yard_model.specs.declared.fact.Fact.TheVariants as fact;
ghost use Rattle.yard_model.specs.declared.input.Phase.TheVariants as phase;
ghost use Rattle.yard_model.specs.declared.packet.Body.TheVariants as body;
ghost use Rattle.yard_model.specs.Behaviour.{folded};
ghost use Rattle.yard_model.specs.Entities.{cell, entries, deliver, deliver_at, stash_message, start_entity, is_in_phase, write, record_of, snapshot_at, ask_more};
ghost use Rattle.yard_model.specs.Lawful.{may_follow};
ghost use Rattle.yard_model.specs.Limits.{number_limit};
ghost use Rattle.yard_model.specs.Move.{told, post};
ghost use Rattle.yard_model.specs.SlotReads.{journal, position, last_snapshot};
ghost use Rattle.consumer_ctl.specs.declared.numbers.Seen.{Seen};
ghost use Rattle.shard_entities.specs.Delivered.{Stands, IsDelivery, standing_of};
ghost use Rattle.shard_entities.specs.Lodged.{HasRoom, is_for, moved, given};
ghost use Rattle.shard_entities.specs.Placed.{IsPlace};
ghost use Rattle.shard_entities.specs.Roomy.{Takes};
ghost use Rattle.shard_entities.specs.Settled.{IsSettled};

use crate::moves::push;
use crate::place::Place;
use crate::shards::Shards;
use behaviour_core::Behaviour;
use consumer_ctl::{Seen, see};
use yard_model::{Body, Fact, Item, Message, Out, Phase, ProducerNo};

/// What is read of an entity's journal for a delivery.
#[derive(Clone, Copy)]
pub(crate) struct Standing {
    /// How many records there are.
    pub count: u32,
    /// How many of them are of the message's producer.
    pub position: u32,
    /// The epoch of the shard's lease.
    pub epoch: u32,
}

impl Shards {
    /// A message is delivered (Akka 2.6, Event Sourcing and Reliable Delivery): an entity that doesn't
    /// exist is started and stashes it, as one that recovers or stops does; one that takes commands
    /// handles it, where its number is the next.
    pub(crate) fn deliver<B: Behaviour>(
        &mut self,
        behaviour: &B,
        place: &Place,
        message: &Message,
        out: &mut Out,
    )
        requires kind { B.kind_of behaviour.now ≡ self.old.script.config.kind }
        requires version { B.version_of behaviour.now ≡ self.old.state.version }
        requires delivery { IsDelivery self.old place.now message.now }
        requires room { 4 ≤ out.old.spare }
        ensures state { self.new ≡ moved self.old (deliver message.now self.old.state) }
        ensures out { out.new ≡ given out.old (deliver message.now self.old.state) }
    {
        match self.phase(place) {
            Phase::Absent => self.deliver_first(place, message, out),
            Phase::Active => self.deliver_active(behaviour, place, message, out),
            Phase::Loading | Phase::Stopping => self.stash_message(place, message, out),
        }
    }

    /// The same, between calls.
    pub(crate) fn deliver_to<B: Behaviour>(
        &mut self,
        behaviour: &B,
        place: &Place,
        message: &Message,
        out: &mut Out,
    )
        requires kind { B.kind_of behaviour.now ≡ self.old.script.config.kind }
        requires version { B.version_of behaviour.now ≡ self.old.state.version }
        requires place { IsPlace self.old.script place.now }
        requires entity { message.now.entity ≡ place.now.entity }
        requires for_it { is_for self.old.script place.now.entity message.now ≡ true }
        requires there { HasRoom self.old place.now.shard 1 }
        requires settled { IsSettled self.old }
        requires room { 4 ≤ out.old.spare }
        ensures state { self.new ≡ moved self.old (deliver message.now self.old.state) }
        ensures out { out.new ≡ given out.old (deliver message.now self.old.state) }
        ensures takes { Takes self.old self.new place.now.shard (if is_in_phase phase.Active self.old.state place.now.entity then 2 else 0) }
        ensures settled { IsSettled self.new }
    {
        self.knows();
        self.deliver(behaviour, place, message, out);
    }

    /// To an entity that doesn't exist.
    fn deliver_first(&mut self, place: &Place, message: &Message, out: &mut Out)
        requires delivery { IsDelivery self.old place.now message.now }
        requires absent { (cell self.old.state place.now.entity).phase ≡ phase.Absent }
        requires room { 4 ≤ out.old.spare }
        ensures state { self.new ≡ moved self.old (start_entity message.now.entity self.old.state ++ told (fact.Stashed self.old.state.who message.now) ∷ []) }
        ensures out { out.new ≡ given out.old (start_entity message.now.entity self.old.state ++ told (fact.Stashed self.old.state.who message.now) ∷ []) }
    {
        self.knows();
        self.tell_start(place, out);
        self.post_recovered(place, out);
        self.tell_stashed(place, message, out);
    }

    /// It is asked for its journal.
    pub(crate) fn post_recovered(&self, place: &Place, out: &mut Out)
        requires room { 0 < out.old.spare }
        ensures { out.new ≡ given out.old (post self.now.state.who self.now.state.who (body.Recovered place.now.entity) ∷ []) }
    {
        self.post(&self.who, Body::Recovered(place.entity), out);
    }

    /// To one that recovers or stops: it is stashed, or dropped where the stash is full.
    fn stash_message(&mut self, place: &Place, message: &Message, out: &mut Out)
        requires delivery { IsDelivery self.old place.now message.now }
        requires there { (cell self.old.state place.now.entity).phase ≡ phase.Absent → ⊥ }
        requires idle { (cell self.old.state place.now.entity).phase ≡ phase.Active → ⊥ }
        requires room { 4 ≤ out.old.spare }
        ensures state { self.new ≡ moved self.old (stash_message message.now self.old.state) }
        ensures out { out.new ≡ given out.old (stash_message message.now self.old.state) }
    {
        self.knows();
        if self.has_stash(place) {
            self.tell_stashed(place, message, out);
        } else {
            self.tell_dropped(place, message, out);
        }
    }

    /// A message is dropped, while the entity exists.
    fn tell_dropped(&self, place: &Place, message: &Message, out: &mut Out)
        requires delivery { IsDelivery self.now place.now message.now }
        requires there { (cell self.now.state place.now.entity).phase ≡ phase.Absent → ⊥ }
        requires room { 0 < out.old.spare }
        ensures state { self.now ≡ moved self.now (told (fact.Dropped self.now.state.who message.now) ∷ []) }
        ensures out { out.new ≡ given out.old (told (fact.Dropped self.now.state.who message.now) ∷ []) }
    {
        self.knows();
        push(out, Item::Fact(Fact::Dropped(self.who, *message)));
    }

    /// To one that takes commands.
    fn deliver_active<B: Behaviour>(
        &mut self,
        behaviour: &B,
        place: &Place,
        message: &Message,
        out: &mut Out,
    )
        requires kind { B.kind_of behaviour.now ≡ self.old.script.config.kind }
        requires version { B.version_of behaviour.now ≡ self.old.state.version }
        requires delivery { IsDelivery self.old place.now message.now }
        requires active { (cell self.old.state place.now.entity).phase ≡ phase.Active }
        requires room { 4 ≤ out.old.spare }
        ensures state { self.new ≡ moved self.old (deliver_at message.now (position message.now.producer (journal message.now.entity (entries self.old.state message.now.entity))) (journal message.now.entity (entries self.old.state message.now.entity)) self.old.state) }
        ensures out { out.new ≡ given out.old (deliver_at message.now (position message.now.producer (journal message.now.entity (entries self.old.state message.now.entity))) (journal message.now.entity (entries self.old.state message.now.entity)) self.old.state) }
    {
        self.knows();
        let standing = self.standing(place, message.producer);
        match seen(standing.position, message.number) {
            Seen::Old => self.acknowledge(message, standing.position, out),
            Seen::Gap => self.resend(message, standing.position + 1, out),
            Seen::Next => self.write(behaviour, place, message, &standing, out),
        }
    }

    /// What is read of its journal.
    #[inline(always)]
    fn standing(&self, place: &Place, producer: ProducerNo) -> Standing
        requires place { IsPlace self.now.script place.now }
        requires there { HasRoom self.now place.now.shard 0 }
        ensures value { result ≡ standing_of self.now place.now.entity producer }
        ensures few { result.count < 4294967295 }
        ensures last { last_snapshot place.now.entity (entries self.now.state place.now.entity) ≤ result.count }
    {
        match &self.hosted[place.shard.get() as usize] {
            Some(hosting) => {
                let journal = hosting.store.journal_at(place.inner, &place.entity);
                Standing {
                    count: journal.len(),
                    position: journal.position(producer),
                    epoch: hosting.store.epoch(),
                }
            }
            None => unreachable!(),
        }
    }

    /// What is recorded is acknowledged.
    #[inline(always)]
    pub(crate) fn acknowledge(&self, message: &Message, confirmed: u32, out: &mut Out)
        requires room { 0 < out.old.spare }
        ensures { out.new ≡ given out.old (post self.now.state.who message.now.origin (body.Ack message.now.producer message.now.entity confirmed) ∷ []) }
    {
        self.post(
            &message.origin,
            Body::Ack {
                producer: message.producer,
                entity: message.entity,
                confirmed,
            },
            out,
        );
    }

    /// A number is missing.
    fn resend(&self, message: &Message, from: u32, out: &mut Out)
        requires room { 0 < out.old.spare }
        ensures { out.new ≡ given out.old (post self.now.state.who message.now.origin (body.Resend message.now.producer message.now.entity from) ∷ []) }
    {
        self.post(
            &message.origin,
            Body::Resend {
                producer: message.producer,
                entity: message.entity,
                from,
            },
            out,
        );
    }

    /// What stands of them.
    pub(crate) fn knows(&self)
        ensures { Stands self.now }
    {
        let _who = self.who;
    }
}

/// How a number compares with a position; as `see`, for any position.
fn seen(position: u32, number: u32) -> Seen
    requires number { number ≤ number_limit }
    ensures next { (result ≡ Seen.Next) ↔ (number ≡ position + 1) }
    ensures old { (result ≡ Seen.Old) ↔ (number ≤ position) }
    ensures gap { (result ≡ Seen.Gap) ↔ (position + 1 < number) }
{
    if number <= position {
        Seen::Old
    } else {
        see(position, number)
    }
}
