//! The coordinator's part of a tick.
ghost use Rattle.std.specs.Prelude.{◌≡◌, ◌+◌, ◌<◌, ◌≤◌, ◌++◌, ◌||◌, [], length, fold, slice_index_or, true, false};
ghost use Rattle.std.specs.List.{flat_map};
ghost use Rattle.yard_model.specs.Coordinator.{coordinator_after, begin, begin_quitting, hand_off_again, host_again, is_moving, registered, stamp, tick_coordinator};
ghost use Rattle.yard_model.specs.Move.{item_of};
ghost use Rattle.yard_model.specs.Words.{is_empty};
ghost use Rattle.coordinator_actor.specs.Held.{AreHomed};
ghost use Rattle.coordinator_actor.specs.Parts.{at_shard, first_homes, go_on_at, hand_off_by, go_on, host_all, host_at, leaving_homes, shards_in};

use crate::coordinator::Coordinator;
use crate::rounds::shard_at;
use handoff_steps::Regions;
use yard_model::{Body, Incarnation, Out, ShardNo, ShardSet};

impl Coordinator {
    /// A round that is open is gone on with: those that haven't acknowledged are asked again, and
    /// the others' owners are told again to hand off. Where none is open, the shards of the first
    /// region that leaves and has any begin to move, if some registered region stays. Then each
    /// shard with a home that neither moves nor is started is told again to its home. That packets
    /// are sent again with the tick is this project's own rule.
    pub fn tick(&mut self, out: &mut Out)
        requires room { length (flat_map item_of (tick_coordinator self.old.state)) ≤ out.old.spare }
        ensures items { out.new.items ≡ out.old.items ++ flat_map item_of (tick_coordinator self.old.state) }
        ensures state { self.new.state ≡ fold coordinator_after self.old.state (tick_coordinator self.old.state) }
        ensures kept { self.new.state.entries ≡ self.old.state.entries }
        ensures script { self.new.script ≡ self.old.script }
        ensures spare { out.new.spare + length (flat_map item_of (tick_coordinator self.old.state)) ≡ out.old.spare }
        ensures entries { self.new.spare ≡ self.old.spare }
        ensures places { self.new.places ≡ self.old.places }
    {
        self.go_on(out);
        self.host_all(out);
    }

    /// The round is gone on with, or one may begin.
    fn go_on(&mut self, out: &mut Out)
        requires room { length (flat_map item_of (go_on self.old.state)) ≤ out.old.spare }
        ensures items { out.new.items ≡ out.old.items ++ flat_map item_of (go_on self.old.state) }
        ensures state { self.new.state ≡ fold coordinator_after self.old.state (go_on self.old.state) }
        ensures kept { self.new.state.entries ≡ self.old.state.entries }
        ensures script { self.new.script ≡ self.old.script }
        ensures spare { out.new.spare + length (flat_map item_of (go_on self.old.state)) ≡ out.old.spare }
        ensures entries { self.new.spare ≡ self.old.spare }
        ensures places { self.new.places ≡ self.old.places }
    {
        if self.is_closed() {
            self.begin_quitting(out);
        } else {
            self.hand_off_all_again(out);
        }
    }

    /// Where no round is open and some registered region stays, the shards of the first region that
    /// leaves and has any begin to move.
    fn begin_quitting(&mut self, out: &mut Out)
        requires closed { is_empty self.old.state.moving ≡ true }
        requires room { length (flat_map item_of (begin_quitting self.old.state)) ≤ out.old.spare }
        ensures items { out.new.items ≡ out.old.items ++ flat_map item_of (begin_quitting self.old.state) }
        ensures state { self.new.state ≡ fold coordinator_after self.old.state (begin_quitting self.old.state) }
        ensures kept { self.new.state.entries ≡ self.old.state.entries }
        ensures script { self.new.script ≡ self.old.script }
        ensures spare { out.new.spare + length (flat_map item_of (begin_quitting self.old.state)) ≡ out.old.spare }
        ensures entries { self.new.spare ≡ self.old.spare }
        ensures places { self.new.places ≡ self.old.places }
    {
        if self.has_leaving() {
            self.begin_staying(out);
        }
    }

    /// The same, where some region leaves.
    fn begin_staying(&mut self, out: &mut Out)
        requires closed { is_empty self.old.state.moving ≡ true }
        requires room { length (flat_map item_of (begin_quitting self.old.state)) ≤ out.old.spare }
        ensures items { out.new.items ≡ out.old.items ++ flat_map item_of (begin_quitting self.old.state) }
        ensures state { self.new.state ≡ fold coordinator_after self.old.state (begin_quitting self.old.state) }
        ensures kept { self.new.state.entries ≡ self.old.state.entries }
        ensures script { self.new.script ≡ self.old.script }
        ensures spare { out.new.spare + length (flat_map item_of (begin_quitting self.old.state)) ≡ out.old.spare }
        ensures entries { self.new.spare ≡ self.old.spare }
        ensures places { self.new.places ≡ self.old.places }
    {
        if self.has_staying() {
            self.begin_first(out);
        }
    }

    /// The same, where some registered region stays.
    fn begin_first(&mut self, out: &mut Out)
        requires closed { is_empty self.old.state.moving ≡ true }
        requires room { length (flat_map item_of (begin (first_homes self.old.state (registered self.old.state)) self.old.state)) ≤ out.old.spare }
        ensures items { out.new.items ≡ out.old.items ++ flat_map item_of (begin (first_homes self.old.state (registered self.old.state)) self.old.state) }
        ensures state { self.new.state ≡ fold coordinator_after self.old.state (begin (first_homes self.old.state (registered self.old.state)) self.old.state) }
        ensures kept { self.new.state.entries ≡ self.old.state.entries }
        ensures script { self.new.script ≡ self.old.script }
        ensures spare { out.new.spare + length (flat_map item_of (begin (first_homes self.old.state (registered self.old.state)) self.old.state)) ≡ out.old.spare }
        ensures entries { self.new.spare ≡ self.old.spare }
        ensures places { self.new.places ≡ self.old.places }
    {
        let homes = self.first_homes();
        self.begin(&homes, out);
    }

    /// The shards of the first region that leaves and has any.
    fn first_homes(&self) -> ShardSet
        ensures homes { shards_in result self.now.state ≡ first_homes self.now.state (registered self.now.state) }
        ensures homed { AreHomed result self.now.state }
    {
        let regions = self.regions();
        for region in regions.as_slice() {
            let homes = self.leaving_homes(region);
            if !self.has_none_of(&homes) {
                return homes;
            }
        }
        self.no_homes()
    }

    /// The shards of a region, where it leaves.
    fn leaving_homes(&self, r: &Incarnation) -> ShardSet
        ensures homes { shards_in result self.now.state ≡ leaving_homes self.now.state r.now }
        ensures homed { AreHomed result self.now.state }
    {
        if self.is_leaving(r) {
            self.homes_of(r)
        } else {
            self.no_homes()
        }
    }

    fn no_homes(&self) -> ShardSet
        ensures homes { shards_in result self.now.state ≡ [] }
        ensures homed { AreHomed result self.now.state }
    {
        ShardSet::empty()
    }

    /// Each shard of the round is gone on with.
    fn hand_off_all_again(&self, out: &mut Out)
        requires room { length (flat_map item_of (flat_map (hand_off_again self.now.state) self.now.state.moving)) ≤ out.old.spare }
        ensures items { out.new.items ≡ out.old.items ++ flat_map item_of (flat_map (hand_off_again self.now.state) self.now.state.moving) }
        ensures state { fold coordinator_after self.now.state (flat_map (hand_off_again self.now.state) self.now.state.moving) ≡ self.now.state }
        ensures spare { out.new.spare + length (flat_map item_of (flat_map (hand_off_again self.now.state) self.now.state.moving)) ≡ out.old.spare }
    {
        self.round();
        for place in 0..128u8 {
            self.hand_off_again(shard_at(place), out);
        }
    }

    /// Where a shard is of the round, those awaited for it are asked again, or its owner is told
    /// again to hand it off.
    fn hand_off_again(&self, s: ShardNo, out: &mut Out)
        requires room { length (flat_map item_of (flat_map (hand_off_again self.now.state) (at_shard s self.now.state.moving))) ≤ out.old.spare }
        ensures items { out.new.items ≡ out.old.items ++ flat_map item_of (flat_map (hand_off_again self.now.state) (at_shard s self.now.state.moving)) }
        ensures spare { out.new.spare + length (flat_map item_of (flat_map (hand_off_again self.now.state) (at_shard s self.now.state.moving))) ≡ out.old.spare }
    {
        let round = self.round();
        if !round.is_moving(s) {
            return;
        }
        let awaited = round.awaited(s);
        let owner = round.owner(s);
        self.go_on_at(s, &awaited, &owner, out);
    }

    fn go_on_at(&self, s: ShardNo, awaited: &Regions, owner: &Option<Incarnation>, out: &mut Out)
        requires room { length (flat_map item_of (go_on_at s awaited.now owner.now self.now.state)) ≤ out.old.spare }
        ensures items { out.new.items ≡ out.old.items ++ flat_map item_of (go_on_at s awaited.now owner.now self.now.state) }
        ensures spare { out.new.spare + length (flat_map item_of (go_on_at s awaited.now owner.now self.now.state)) ≡ out.old.spare }
    {
        if awaited.is_empty() {
            self.hand_off(s, owner, out);
        } else {
            self.ask(s, &self.stamp(), awaited, out);
        }
    }

    /// The owner of a shard is told to hand it off.
    fn hand_off(&self, s: ShardNo, owner: &Option<Incarnation>, out: &mut Out)
        requires room { length (flat_map item_of (hand_off_by self.now.state.who (stamp self.now.state) s owner.now)) ≤ out.old.spare }
        ensures items { out.new.items ≡ out.old.items ++ flat_map item_of (hand_off_by self.now.state.who (stamp self.now.state) s owner.now) }
        ensures spare { out.new.spare + length (flat_map item_of (hand_off_by self.now.state.who (stamp self.now.state) s owner.now)) ≡ out.old.spare }
    {
        if let Some(owner) = owner {
            self.post(owner, &Body::HandOff(s, self.stamp()), out);
        }
    }

    /// Each shard with a home that neither moves nor is started is told again to its home.
    fn host_all(&self, out: &mut Out)
        requires room { length (flat_map item_of (host_all self.now.state)) ≤ out.old.spare }
        ensures items { out.new.items ≡ out.old.items ++ flat_map item_of (host_all self.now.state) }
        ensures state { fold coordinator_after self.now.state (host_all self.now.state) ≡ self.now.state }
        ensures spare { out.new.spare + length (flat_map item_of (host_all self.now.state)) ≡ out.old.spare }
    {
        let count = self.shards();
        for place in 0..count {
            self.host_again(shard_at(place), out);
        }
    }

    fn host_again(&self, s: ShardNo, out: &mut Out)
        requires shard { s < self.now.state.set.config.shards }
        requires room { length (flat_map item_of (host_again self.now.state s)) ≤ out.old.spare }
        ensures items { out.new.items ≡ out.old.items ++ flat_map item_of (host_again self.now.state s) }
        ensures spare { out.new.spare + length (flat_map item_of (host_again self.now.state s)) ≡ out.old.spare }
    {
        if let Some(home) = self.home(s) {
            let home = &home;
            self.host_at(s, home, out);
        }
    }

    fn host_at(&self, s: ShardNo, home: &Incarnation, out: &mut Out)
        requires shard { s < self.now.state.set.config.shards }
        requires room { length (flat_map item_of (host_at self.now.state s home.now)) ≤ out.old.spare }
        ensures items { out.new.items ≡ out.old.items ++ flat_map item_of (host_at self.now.state s home.now) }
        ensures spare { out.new.spare + length (flat_map item_of (host_at self.now.state s home.now)) ≡ out.old.spare }
    {
        if self.is_settled(s) {
            return;
        }
        self.post(home, &Body::HostShard(s, self.stamp()), out);
    }

    /// Whether a shard moves or is started.
    fn is_settled(&self, s: ShardNo) -> bool
        requires shard { s < self.now.state.set.config.shards }
        ensures { result ≡ (is_moving self.now.state s || slice_index_or self.now.state.started s false) }
    {
        self.round().is_moving(s) || self.is_started(s)
    }
}
