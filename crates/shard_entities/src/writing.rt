//! A decided command is written.
ghost use Rattle.std.specs.Prelude.{◌≡◌, ℕ, ◌+◌, ◌<◌, ◌≤◌, ◌++◌, List, [], ◌∷◌, Some, None, IsTrue, length};
ghost use Rattle.yard_model.specs.declared.fact.Fact.TheVariants as fact;
ghost use Rattle.yard_model.specs.declared.incarnation.Slot.TheVariants as slot;
ghost use Rattle.yard_model.specs.declared.input.Phase.TheVariants as phase;
ghost use Rattle.yard_model.specs.Behaviour.{folded, is_valid};
ghost use Rattle.yard_model.specs.Entities.{cell, entries, write, record_of, snapshot_at, ask_more};
ghost use Rattle.yard_model.specs.Lawful.{may_follow};
ghost use Rattle.yard_model.specs.Limits.{most_orders};
ghost use Rattle.yard_model.specs.SlotReads.{journal, last_snapshot};
ghost use Rattle.shard_entities.specs.Delivered.{Stands, IsDelivery, IsNext, standing_of};
ghost use Rattle.shard_entities.specs.Lodged.{HasRoom, moved, given};
ghost use Rattle.shard_entities.specs.Placed.{IsPlace};

use crate::delivery::Standing;
use crate::place::Place;
use crate::shards::Shards;
use behaviour_core::Behaviour;
use consumer_ctl::wants;
use yard_model::laws::{command_law, decision_law};
use yard_model::{Keep, Message, Out, Record, State};

impl Shards {
    /// The next command of its producer is decided, and written unless the write is to fail.
    pub(crate) fn write<B: Behaviour>(
        &mut self,
        behaviour: &B,
        place: &Place,
        message: &Message,
        standing: &Standing,
        out: &mut Out,
    )
        requires kind { B.kind_of behaviour.now ≡ self.old.script.config.kind }
        requires version { B.version_of behaviour.now ≡ self.old.state.version }
        requires delivery { IsDelivery self.old place.now message.now }
        requires active { (cell self.old.state place.now.entity).phase ≡ phase.Active }
        requires standing { standing.now ≡ standing_of self.old place.now.entity message.now.producer }
        requires few { standing.now.count < 4294967295 }
        requires last { last_snapshot place.now.entity (entries self.old.state place.now.entity) ≤ standing.now.count }
        requires next { message.now.number ≡ standing.now.position + 1 }
        requires room { 4 ≤ out.old.spare }
        ensures state { self.new ≡ moved self.old (write message.now (record_of message.now self.old.state (journal message.now.entity (entries self.old.state message.now.entity))) message.now.number self.old.state (cell self.old.state message.now.entity).armed) }
        ensures out { out.new ≡ given out.old (write message.now (record_of message.now self.old.state (journal message.now.entity (entries self.old.state message.now.entity))) message.now.number self.old.state (cell self.old.state message.now.entity).armed) }
    {
        self.knows();
        let state = self.state(place);
        let entry = self.next_record(behaviour, place, message, standing, state);
        match self.armed(place) {
            Some(Keep::Lost) => self.tell_failed(place, out),
            Some(Keep::Kept) => {
                self.tell_wrote(behaviour, place, &entry, out);
                self.tell_failed(place, out);
            }
            None => self.write_on(behaviour, place, message, &entry, out),
        }
    }

    /// The record that a message gives.
    #[inline(always)]
    fn next_record<B: Behaviour>(
        &self,
        behaviour: &B,
        place: &Place,
        message: &Message,
        standing: &Standing,
        state: &State,
    ) -> Record
        requires kind { B.kind_of behaviour.now ≡ self.now.script.config.kind }
        requires version { B.version_of behaviour.now ≡ self.now.state.version }
        requires delivery { IsDelivery self.now place.now message.now }
        requires standing { standing.now ≡ standing_of self.now place.now.entity message.now.producer }
        requires few { standing.now.count < 4294967295 }
        requires last { last_snapshot place.now.entity (entries self.now.state place.now.entity) ≤ standing.now.count }
        requires next { message.now.number ≡ standing.now.position + 1 }
        requires state { state.now ≡ folded self.now.script.config.kind (journal place.now.entity (entries self.now.state place.now.entity)) }
        requires valid { IsTrue (is_valid self.now.script.config.kind state.now) }
        ensures record { result ≡ record_of message.now self.now.state (journal message.now.entity (entries self.now.state message.now.entity)) }
        ensures next { IsNext self.now place.now message.now (record_of message.now self.now.state (journal message.now.entity (entries self.now.state message.now.entity))) }
    {
        self.knows();
        command_law();
        decision_law();
        let decision = behaviour.decide(state, &message.command);
        Record {
            number: standing.count + 1,
            epoch: standing.epoch,
            producer: message.producer,
            place: message.number,
            command: message.command,
            events: decision.events,
            reply: decision.reply,
        }
    }

    /// A record is written; then a snapshot where one is due, what is recorded is acknowledged, and
    /// more is asked for where that is due.
    #[inline(always)]
    fn write_on<B: Behaviour>(
        &mut self,
        behaviour: &B,
        place: &Place,
        message: &Message,
        entry: &Record,
        out: &mut Out,
    )
        requires kind { B.kind_of behaviour.now ≡ self.old.script.config.kind }
        requires delivery { IsDelivery self.old place.now message.now }
        requires active { (cell self.old.state place.now.entity).phase ≡ phase.Active }
        requires next { IsNext self.old place.now message.now entry.now }
        requires room { 4 ≤ out.old.spare }
        ensures state { self.new ≡ moved self.old (write message.now entry.now message.now.number self.old.state None) }
        ensures out { out.new ≡ given out.old (write message.now entry.now message.now.number self.old.state None) }
    {
        self.knows();
        self.tell_wrote(behaviour, place, entry, out);
        self.snapshot_where_due(place, entry.number, out);
        self.acknowledge(message, message.number, out);
        self.ask_more(place, message, out);
    }

    /// A snapshot, where the number of records is a multiple of the script's.
    fn snapshot_where_due(&mut self, place: &Place, number: u32, out: &mut Out)
        requires place { IsPlace self.old.script place.now }
        requires active { (cell self.old.state place.now.entity).phase ≡ phase.Active }
        requires there { HasRoom self.old place.now.shard 0 }
        requires number { number ≡ length (journal place.now.entity (entries self.old.state place.now.entity)) }
        requires newer { last_snapshot place.now.entity (entries self.old.state place.now.entity) < number }
        requires room { 0 < out.old.spare }
        ensures state { self.new ≡ moved self.old (snapshot_at place.now.entity number self.old.state) }
        ensures out { out.new ≡ given out.old (snapshot_at place.now.entity number self.old.state) }
    {
        self.knows();
        if number % u32::from(self.snapshot_every()) == 0 {
            self.tell_snapshot(place, number, out);
        }
    }

    /// More is asked for, where that is due.
    fn ask_more(&mut self, place: &Place, message: &Message, out: &mut Out)
        requires delivery { IsPlace self.old.script place.now }
        requires entity { message.now.entity ≡ place.now.entity }
        requires producer { message.now.producer ≤ self.old.script.config.producers }
        requires few { message.now.number ≤ most_orders }
        requires room { 0 < out.old.spare }
        ensures state { self.new ≡ moved self.old (ask_more message.now message.now.number self.old.state) }
        ensures out { out.new ≡ given out.old (ask_more message.now message.now.number self.old.state) }
    {
        self.knows();
        let reach = self.reach(place, message.producer);
        let number = message.number;
        match wants(reach, number, self.window()) {
            Some(up_to) => self.post_request(place, message, number, up_to, out),
            None => {}
        }
    }
}
