//! The moves of a node's entities.
ghost use Rattle.std.specs.Prelude.{◌≡◌, ℕ, ◌+◌, ◌-◌, ◌<◌, ◌≤◌, List, [], ◌∷◌, ◌++◌, length, IsTrue, true, false, None, IsNone, IfSome, IfNone, ◌↔◌, map, take};
ghost use Rattle.yard_model.specs.declared.fact.Fact.TheVariants as fact;
ghost use Rattle.yard_model.specs.declared.packet.Body.TheVariants as body;
ghost use Rattle.yard_model.specs.declared.packet.Body.{Body};
ghost use Rattle.yard_model.specs.declared.input.Phase.TheVariants as phase;
ghost use Rattle.yard_model.specs.declared.incarnation.Slot.TheVariants as slot;
ghost use Rattle.yard_model.specs.Behaviour.{folded, is_valid, are_applicable};
ghost use Rattle.yard_model.specs.Entities.{cell, entries, hosted};
ghost use Rattle.yard_model.specs.Lawful.{may_follow};
ghost use Rattle.yard_model.specs.Move.{told, post, made, passivates, handed_off};
ghost use Rattle.yard_model.specs.SlotReads.{journal, last_snapshot, is_remembered};
ghost use Rattle.shard_entities.specs.Lodged.{HasRoom, is_for, moved, given};
ghost use Rattle.shard_entities.specs.Placed.{IsPlace};

use crate::counts::{count_in, count_out};
use crate::hosting::{
    Ending, set_ending, write_forgotten, write_record, write_remembered, write_snapshot,
};
use crate::place::Place;
use crate::restless::note;
use crate::shards::{Shards, touch};
use behaviour_core::Behaviour;
use consumer_ctl::Stash;
use yard_model::{
    Body, EntityName, Fact, Incarnation, Item, Keep, Message, Out, Packet, Phase, ProducerNo,
    Record, ShardNo, Stamp, State,
};

/// One item more.
#[inline(always)]
pub(crate) fn push(out: &mut Out, item: Item)
    requires { 0 < out.old.spare }
    ensures { out.new ≡ given out.old (made item ∷ []) }
{
    out.push(item);
}

impl Shards {
    /// Its next write is to fail, in this way; its stop undoes that.
    pub(crate) fn tell_armed(&mut self, place: &Place, keep: Keep, out: &mut Out)
        requires place { IsPlace self.old.script place.now }
        requires room { 0 < out.old.spare }
        ensures state { self.new ≡ moved self.old (told (fact.Armed place.now.entity keep) ∷ []) }
        ensures out { out.new ≡ given out.old (told (fact.Armed place.now.entity keep) ∷ []) }
    {
        self.cells.arm(place.at, keep);
        push(out, Item::Fact(Fact::Armed(place.entity, keep)));
    }

    /// It passivates.
    pub(crate) fn set_passivating(&mut self, place: &Place)
        requires place { IsPlace self.old.script place.now }
        ensures { self.new ≡ moved self.old (passivates place.now.entity ∷ []) }
    {
        self.cells.passivate(place.at);
    }

    /// It is told to stop.
    pub(crate) fn post_stop(&mut self, place: &Place, out: &mut Out)
        requires place { IsPlace self.old.script place.now }
        requires room { 0 < out.old.spare }
        ensures state { self.new ≡ moved self.old (post self.old.state.who self.old.state.who (body.StopEntity place.now.entity) ∷ []) }
        ensures out { out.new ≡ given out.old (post self.old.state.who self.old.state.who (body.StopEntity place.now.entity) ∷ []) }
    {
        self.cells.ask_stop(place.at);
        let now = self.cells.phase(place.at);
        note(&mut self.restless, &self.places, place, now);
        push(
            out,
            Item::Post(Packet {
                from: self.who,
                to: self.who,
                body: Body::StopEntity(place.entity),
            }),
        );
    }

    /// It is started.
    pub(crate) fn tell_start(&mut self, place: &Place, out: &mut Out)
        requires place { IsPlace self.old.script place.now }
        requires room { 0 < out.old.spare }
        ensures state { self.new ≡ moved self.old (told (fact.Start self.old.state.who place.now.entity) ∷ []) }
        ensures out { out.new ≡ given out.old (told (fact.Start self.old.state.who place.now.entity) ∷ []) }
    {
        let was = self.exists(place);
        self.cells.start(place.at);
        count_in(&mut self.existing[place.shard.get() as usize], was);
        note(&mut self.restless, &self.places, place, Phase::Loading);
        push(out, Item::Fact(Fact::Start(self.who, place.entity)));
    }

    /// Its write failed, and it is gone.
    pub(crate) fn tell_failed(&mut self, place: &Place, out: &mut Out)
        requires place { IsPlace self.old.script place.now }
        requires room { 0 < out.old.spare }
        ensures state { self.new ≡ moved self.old (told (fact.WriteFailed self.old.state.who place.now.entity) ∷ []) }
        ensures out { out.new ≡ given out.old (told (fact.WriteFailed self.old.state.who place.now.entity) ∷ []) }
    {
        let was = self.exists(place);
        self.cells.fail(place.at);
        count_out(&mut self.existing[place.shard.get() as usize], was);
        note(&mut self.restless, &self.places, place, Phase::Absent);
        push(out, Item::Fact(Fact::WriteFailed(self.who, place.entity)));
    }

    /// It takes commands from now on; what was stashed for it is pending.
    pub(crate) fn tell_active(
        &mut self,
        place: &Place,
        number: u32,
        state: &State,
        pending: &mut Stash,
        out: &mut Out,
    )
        requires place { IsPlace self.old.script place.now }
        requires leads { state.now ≡ folded self.old.script.config.kind (journal place.now.entity (entries self.old.state place.now.entity)) }
        requires valid { IsTrue (is_valid self.old.script.config.kind state.now) }
        requires window { pending.old.window ≡ self.old.script.config.window }
        requires empty { pending.old.messages ≡ [] }
        requires room { 0 < out.old.spare }
        ensures state { self.new ≡ moved self.old (told (fact.Active self.old.state.who place.now.entity number state.now) ∷ []) }
        ensures out { out.new ≡ given out.old (told (fact.Active self.old.state.who place.now.entity number state.now) ∷ []) }
        ensures pending { pending.new ≡ record { messages = (cell self.old.state place.now.entity).stash; window = self.old.script.config.window } }
    {
        let was = self.exists(place);
        self.cells.activate(place.at, state, pending);
        count_in(&mut self.existing[place.shard.get() as usize], was);
        note(&mut self.restless, &self.places, place, Phase::Active);
        push(
            out,
            Item::Fact(Fact::Active {
                who: self.who,
                entity: place.entity,
                records: number,
                state: *state,
            }),
        );
    }

    /// A message is stashed, which there is room for.
    pub(crate) fn tell_stashed(&mut self, place: &Place, message: &Message, out: &mut Out)
        requires place { IsPlace self.old.script place.now }
        requires entity { message.now.entity ≡ place.now.entity }
        requires genuine { IsTrue (is_for self.old.script place.now.entity message.now) }
        requires stash { length (cell self.old.state place.now.entity).stash < self.old.script.config.window }
        requires idle { (cell self.old.state place.now.entity).phase ≡ phase.Active → ⊥ }
        requires room { 0 < out.old.spare }
        ensures state { self.new ≡ moved self.old (told (fact.Stashed self.old.state.who message.now) ∷ []) }
        ensures out { out.new ≡ given out.old (told (fact.Stashed self.old.state.who message.now) ∷ []) }
    {
        self.cells.put(place.at, *message);
        push(out, Item::Fact(Fact::Stashed(self.who, *message)));
    }

    /// It is posted to a node, about an entity of which it changes nothing.
    #[inline(always)]
    pub(crate) fn post(&self, to: &Incarnation, body: Body, out: &mut Out)
        requires room { 0 < out.old.spare }
        ensures { out.new ≡ given out.old (post self.now.state.who to.now body ∷ []) }
    {
        push(
            out,
            Item::Post(Packet {
                from: self.who,
                to: *to,
                body,
            }),
        );
    }

    /// A producer is asked up to this number.
    pub(crate) fn post_request(
        &mut self,
        place: &Place,
        message: &Message,
        confirmed: u32,
        up_to: u32,
        out: &mut Out,
    )
        requires place { IsPlace self.old.script place.now }
        requires entity { message.now.entity ≡ place.now.entity }
        requires producer { message.now.producer ≤ self.old.script.config.producers }
        requires room { 0 < out.old.spare }
        ensures state { self.new ≡ moved self.old (post self.old.state.who message.now.origin (body.Request message.now.producer message.now.entity confirmed up_to) ∷ []) }
        ensures out { out.new ≡ given out.old (post self.old.state.who message.now.origin (body.Request message.now.producer message.now.entity confirmed up_to) ∷ []) }
    {
        self.cells.ask(place.at, message.producer, up_to);
        self.post(
            &message.origin,
            Body::Request {
                producer: message.producer,
                entity: message.entity,
                confirmed,
                up_to,
            },
            out,
        );
    }

    /// A record of an entity that takes commands is written.
    #[inline(always)]
    pub(crate) fn tell_wrote<B: Behaviour>(
        &mut self,
        behaviour: &B,
        place: &Place,
        entry: &Record,
        out: &mut Out,
    )
        requires kind { B.kind_of behaviour.now ≡ self.old.script.config.kind }
        requires place { IsPlace self.old.script place.now }
        requires active { (cell self.old.state place.now.entity).phase ≡ phase.Active }
        requires there { HasRoom self.old place.now.shard 0 }
        requires next { IsTrue (may_follow self.old.script (slot.Shard place.now.shard) (entries self.old.state place.now.entity) (fact.Wrote place.now.entity entry.now)) }
        requires applies { IsTrue (are_applicable (folded self.old.script.config.kind (journal place.now.entity (entries self.old.state place.now.entity))) entry.now.events) }
        requires room { 0 < out.old.spare }
        ensures state { self.new ≡ moved self.old (told (fact.Wrote place.now.entity entry.now) ∷ []) }
        ensures out { out.new ≡ given out.old (told (fact.Wrote place.now.entity entry.now) ∷ []) }
    {
        self.cells
            .apply(place.at, behaviour, entry.events.as_slice());
        push(out, Item::Fact(Fact::Wrote(place.entity, *entry)));
        let spare = write_record(&mut self.hosted[place.shard.get() as usize], place, entry);
        touch(
            &mut self.touched,
            place.shard,
            spare,
            &self.places,
            &self.config,
        );
    }

    /// A snapshot of all records of an entity that takes commands is written.
    pub(crate) fn tell_snapshot(&mut self, place: &Place, number: u32, out: &mut Out)
        requires place { IsPlace self.old.script place.now }
        requires active { (cell self.old.state place.now.entity).phase ≡ phase.Active }
        requires there { HasRoom self.old place.now.shard 0 }
        requires number { number ≡ length (journal place.now.entity (entries self.old.state place.now.entity)) }
        requires newer { last_snapshot place.now.entity (entries self.old.state place.now.entity) < number }
        requires room { 0 < out.old.spare }
        ensures state { self.new ≡ moved self.old (told (fact.Snapshot place.now.entity number) ∷ []) }
        ensures out { out.new ≡ given out.old (told (fact.Snapshot place.now.entity number) ∷ []) }
    {
        let state = *self.cells.state(place.at);
        let touched = self.touched.with(place.shard);
        self.touched = touched;
        write_snapshot(
            &mut self.hosted[place.shard.get() as usize],
            place,
            number,
            &state,
        );
        push(out, Item::Fact(Fact::Snapshot(place.entity, number)));
    }

    /// It is stopped; what is stashed stays.
    pub(crate) fn tell_stop(&mut self, place: &Place, out: &mut Out)
        requires place { IsPlace self.old.script place.now }
        requires room { 0 < out.old.spare }
        ensures state { self.new ≡ moved self.old (told (fact.Stop self.old.state.who place.now.entity) ∷ []) }
        ensures out { out.new ≡ given out.old (told (fact.Stop self.old.state.who place.now.entity) ∷ []) }
    {
        let was = self.exists(place);
        self.cells.stop(place.at);
        count_out(&mut self.existing[place.shard.get() as usize], was);
        note(&mut self.restless, &self.places, place, Phase::Absent);
        push(out, Item::Fact(Fact::Stop(self.who, place.entity)));
    }

    /// The oldest stashed message of an entity that doesn't exist is dropped, if there is one.
    pub(crate) fn drop_oldest(&mut self, place: &Place, out: &mut Out)
        requires place { IsPlace self.old.script place.now }
        requires gone { (cell self.old.state place.now.entity).phase ≡ phase.Absent }
        requires room { 0 < out.old.spare }
        ensures state { self.new ≡ moved self.old (map (λ m. told (fact.Dropped self.old.state.who m)) (take 1 (cell self.old.state place.now.entity).stash)) }
        ensures out { out.new ≡ given out.old (map (λ m. told (fact.Dropped self.old.state.who m)) (take 1 (cell self.old.state place.now.entity).stash)) }
    {
        match self.cells.pop(place.at) {
            Some(message) => push(out, Item::Fact(Fact::Dropped(self.who, message))),
            None => {}
        }
    }

    /// It is remembered from now on.
    pub(crate) fn tell_remembered(&mut self, place: &Place, out: &mut Out)
        requires place { IsPlace self.old.script place.now }
        requires there { HasRoom self.old place.now.shard 0 }
        requires new { is_remembered place.now.entity (entries self.old.state place.now.entity) ≡ false }
        requires room { 0 < out.old.spare }
        ensures state { self.new ≡ moved self.old (told (fact.Remembered place.now.entity) ∷ []) }
        ensures out { out.new ≡ given out.old (told (fact.Remembered place.now.entity) ∷ []) }
    {
        let touched = self.touched.with(place.shard);
        self.touched = touched;
        write_remembered(&mut self.hosted[place.shard.get() as usize], place);
        push(out, Item::Fact(Fact::Remembered(place.entity)));
    }

    /// It isn't remembered any more.
    pub(crate) fn tell_forgotten(&mut self, place: &Place, out: &mut Out)
        requires place { IsPlace self.old.script place.now }
        requires there { HasRoom self.old place.now.shard 0 }
        requires known { is_remembered place.now.entity (entries self.old.state place.now.entity) ≡ true }
        requires room { 0 < out.old.spare }
        ensures state { self.new ≡ moved self.old (told (fact.Forgotten place.now.entity) ∷ []) }
        ensures out { out.new ≡ given out.old (told (fact.Forgotten place.now.entity) ∷ []) }
    {
        let touched = self.touched.with(place.shard);
        self.touched = touched;
        write_forgotten(&mut self.hosted[place.shard.get() as usize], place);
        push(out, Item::Fact(Fact::Forgotten(place.entity)));
    }

    /// A shard stops from now on.
    pub(crate) fn set_stopping(&mut self, s: ShardNo, stamp: &Stamp, to: &Incarnation)
        requires shard { s < self.old.script.config.shards }
        ensures { self.new ≡ moved self.old (handed_off s stamp.now to.now ∷ []) }
    {
        let running = self.running.without(s);
        self.running = running;
        set_ending(
            &mut self.hosted[s.get() as usize],
            &Ending {
                stamp: *stamp,
                to: *to,
            },
        );
    }
}
