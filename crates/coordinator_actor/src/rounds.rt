//! Rounds of handoffs.
ghost use Rattle.std.specs.Prelude.{◌≡◌, ℕ, ◌+◌, ◌<◌, ◌≤◌, ◌++◌, length, fold, true};
ghost use Rattle.std.specs.List.{flat_map};
ghost use Rattle.yard_model.specs.Coordinator.{coordinator_after, begin, registered};
ghost use Rattle.yard_model.specs.Move.{item_of};
ghost use Rattle.yard_model.specs.Words.{is_empty};
ghost use Rattle.coordinator_actor.specs.Held.{AreHomed};
ghost use Rattle.coordinator_actor.specs.Parts.{ask, begin_one, begin_if, begin_each, shards_in};

use crate::coordinator::Coordinator;
use handoff_steps::Regions;
use yard_model::{Body, Fact, Item, Out, ShardNo, ShardSet, Stamp};

impl Coordinator {
    /// Where no round is open, the shards of this set begin to move, rising, in the next one: each
    /// registered region is asked to keep their messages from now on. Each of them has a home.
    pub(crate) fn begin(&mut self, shards: &ShardSet, out: &mut Out)
        requires closed { is_empty self.old.state.moving ≡ true }
        requires homed { AreHomed shards.now self.old.state }
        requires room { length (flat_map item_of (begin (shards_in shards.now self.old.state) self.old.state)) ≤ out.old.spare }
        ensures items { out.new.items ≡ out.old.items ++ flat_map item_of (begin (shards_in shards.now self.old.state) self.old.state) }
        ensures state { self.new.state ≡ fold coordinator_after self.old.state (begin (shards_in shards.now self.old.state) self.old.state) }
        ensures quitting { self.new.state.quitting ≡ self.old.state.quitting }
        ensures kept { self.new.state.entries ≡ self.old.state.entries }
        ensures script { self.new.script ≡ self.old.script }
        ensures spare { out.new.spare + length (flat_map item_of (begin (shards_in shards.now self.old.state) self.old.state)) ≡ out.old.spare }
        ensures entries { self.new.spare ≡ self.old.spare }
        ensures places { self.new.places ≡ self.old.places }
    {
        if self.has_none_of(shards) {
            return;
        }
        let next = self.next_stamp();
        self.tell_each(shards, &next, out);
        self.open(shards, &next);
    }

    /// Of each shard of this set, rising: that it moves in the round of this stamp is made known,
    /// and every registered region is asked to keep its messages from now on.
    fn tell_each(&self, shards: &ShardSet, next: &Stamp, out: &mut Out)
        requires room { length (flat_map item_of (begin_each shards.now next.now self.now.state)) ≤ out.old.spare }
        ensures items { out.new.items ≡ out.old.items ++ flat_map item_of (begin_each shards.now next.now self.now.state) }
        ensures spare { out.new.spare + length (flat_map item_of (begin_each shards.now next.now self.now.state)) ≡ out.old.spare }
    {
        let count = self.shards();
        for place in 0..count {
            self.tell_if(shards, shard_at(place), next, out);
        }
    }

    /// The same of one shard, where it is in the set.
    fn tell_if(&self, shards: &ShardSet, s: ShardNo, next: &Stamp, out: &mut Out)
        requires room { length (flat_map item_of (begin_if shards.now next.now self.now.state s)) ≤ out.old.spare }
        ensures items { out.new.items ≡ out.old.items ++ flat_map item_of (begin_if shards.now next.now self.now.state s) }
        ensures spare { out.new.spare + length (flat_map item_of (begin_if shards.now next.now self.now.state s)) ≡ out.old.spare }
    {
        if shards.has(s) {
            self.tell_one(s, next, out);
        }
    }

    fn tell_one(&self, s: ShardNo, next: &Stamp, out: &mut Out)
        requires room { length (flat_map item_of (begin_one s next.now self.now.state)) ≤ out.old.spare }
        ensures items { out.new.items ≡ out.old.items ++ flat_map item_of (begin_one s next.now self.now.state) }
        ensures spare { out.new.spare + length (flat_map item_of (begin_one s next.now self.now.state)) ≡ out.old.spare }
    {
        out.push(Item::Fact(Fact::Moving(s, *next)));
        let regions = self.regions();
        self.ask(s, next, &regions, out);
    }

    /// Each of these regions is asked to keep the shard's messages from now on.
    pub(crate) fn ask(&self, s: ShardNo, given: &Stamp, regions: &Regions, out: &mut Out)
        requires room { length (flat_map item_of (ask s given.now regions.now self.now.state)) ≤ out.old.spare }
        ensures items { out.new.items ≡ out.old.items ++ flat_map item_of (ask s given.now regions.now self.now.state) }
        ensures spare { out.new.spare + length (flat_map item_of (ask s given.now regions.now self.now.state)) ≡ out.old.spare }
    {
        for region in regions.as_slice() {
            self.post(region, &Body::BeginHandOff(s, *given), out);
        }
    }
}

/// The shard of this number.
pub(crate) fn shard_at(place: u8) -> ShardNo
    requires { place < 128 }
    ensures { result ≡ place }
{
    match ShardNo::new(place, 128) {
        Some(s) => s,
        None => unreachable!(),
    }
}
