//! Homes of shards.
ghost use Rattle.std.specs.Prelude.{◌≡◌, ℕ, ◌+◌, ◌<◌, ◌≤◌, ◌++◌, length, fold, true, false, IfSome, is_none, option_map};
ghost use Rattle.std.specs.List.{flat_map, list_all};
ghost use Rattle.std.specs.Option.{ForSome};
ghost use Rattle.yard_model.specs.declared.load.Load.{Load};
ghost use Rattle.yard_model.specs.Coordinator.{coordinator_after, registered, home_of, is_moving, smallest, shares, allocate, tell_home, get_home, shard_started};
ghost use Rattle.yard_model.specs.Genuine.{is_shard};
ghost use Rattle.yard_model.specs.Move.{item_of};
ghost use Rattle.yard_model.specs.Words.{is_among};
ghost use Rattle.least_shard.specs.Spread.{shares_of};
ghost use Rattle.coordinator_actor.specs.Parts.{allocate_to, allocate_new, allocate_and_tell};

use crate::coordinator::Coordinator;
use least_shard::choose;
use yard_model::{Body, Incarnation, Loads, Out, ShardNo};

impl Coordinator {
    /// A region asks for the home of a shard: where it is registered and the shard isn't moving,
    /// the shard is allocated if it has no home, and the region is told its home, if it has one
    /// now. Else nothing happens (Akka 2.6, Cluster Sharding concepts).
    pub fn get_home(&mut self, from: &Incarnation, s: ShardNo, out: &mut Out)
        requires shard { is_shard self.old.script s ≡ true }
        requires store { 1 ≤ self.old.spare }
        requires room { length (flat_map item_of (get_home from.now s self.old.state)) ≤ out.old.spare }
        ensures items { out.new.items ≡ out.old.items ++ flat_map item_of (get_home from.now s self.old.state) }
        ensures state { self.new.state ≡ fold coordinator_after self.old.state (get_home from.now s self.old.state) }
        ensures regions { registered self.new.state ≡ registered self.old.state }
        ensures script { self.new.script ≡ self.old.script }
        ensures spare { out.new.spare + length (flat_map item_of (get_home from.now s self.old.state)) ≡ out.old.spare }
        ensures entries { length self.new.state.entries + self.new.spare ≡ length self.old.state.entries + self.old.spare }
        ensures least { self.old.spare ≤ self.new.spare + 1 }
        ensures places { self.new.places ≡ self.old.places }
    {
        if !self.is_registered(from) {
            return;
        }
        if self.round().is_moving(s) {
            return;
        }
        self.allocate_and_tell(from, s, out);
    }

    /// A shard that isn't moving is allocated, where it has no home; then the region is told its
    /// home, if it has one now.
    fn allocate_and_tell(&mut self, from: &Incarnation, s: ShardNo, out: &mut Out)
        requires shard { is_shard self.old.script s ≡ true }
        requires still { is_moving self.old.state s ≡ false }
        requires store { 1 ≤ self.old.spare }
        requires room { length (flat_map item_of (allocate_and_tell from.now s self.old.state)) ≤ out.old.spare }
        ensures items { out.new.items ≡ out.old.items ++ flat_map item_of (allocate_and_tell from.now s self.old.state) }
        ensures state { self.new.state ≡ fold coordinator_after self.old.state (allocate_and_tell from.now s self.old.state) }
        ensures regions { registered self.new.state ≡ registered self.old.state }
        ensures script { self.new.script ≡ self.old.script }
        ensures spare { out.new.spare + length (flat_map item_of (allocate_and_tell from.now s self.old.state)) ≡ out.old.spare }
        ensures entries { length self.new.state.entries + self.new.spare ≡ length self.old.state.entries + self.old.spare }
        ensures least { self.old.spare ≤ self.new.spare + 1 }
        ensures places { self.new.places ≡ self.old.places }
    {
        self.allocate_new(s, out);
        self.tell_home(from, s, out);
    }

    /// A region has started a shard: where it is the shard's home, that is kept in mind. Else
    /// nothing happens.
    pub fn shard_started(&mut self, from: &Incarnation, s: ShardNo)
        requires shard { is_shard self.old.script s ≡ true }
        ensures state { self.new.state ≡ fold coordinator_after self.old.state (shard_started from.now s self.old.state) }
        ensures kept { self.new.state.entries ≡ self.old.state.entries }
        ensures script { self.new.script ≡ self.old.script }
        ensures entries { self.new.spare ≡ self.old.spare }
        ensures places { self.new.places ≡ self.old.places }
    {
        if self.is_home(from, s) {
            self.mark_started(s);
        }
    }

    /// A region is told the home of a shard, if it has one.
    pub(crate) fn tell_home(&self, from: &Incarnation, s: ShardNo, out: &mut Out)
        requires room { length (flat_map item_of (tell_home from.now s self.now.state)) ≤ out.old.spare }
        ensures items { out.new.items ≡ out.old.items ++ flat_map item_of (tell_home from.now s self.now.state) }
        ensures spare { out.new.spare + length (flat_map item_of (tell_home from.now s self.now.state)) ≡ out.old.spare }
    {
        if let Some(home) = self.home(s) {
            self.post(from, &Body::ShardHome(s, home, self.stamp()), out);
        }
    }

    /// A shard that isn't moving is allocated, where it has no home.
    fn allocate_new(&mut self, s: ShardNo, out: &mut Out)
        requires shard { is_shard self.old.script s ≡ true }
        requires still { is_moving self.old.state s ≡ false }
        requires store { 1 ≤ self.old.spare }
        requires room { length (flat_map item_of (allocate_new s self.old.state)) ≤ out.old.spare }
        ensures items { out.new.items ≡ out.old.items ++ flat_map item_of (allocate_new s self.old.state) }
        ensures state { self.new.state ≡ fold coordinator_after self.old.state (allocate_new s self.old.state) }
        ensures regions { registered self.new.state ≡ registered self.old.state }
        ensures script { self.new.script ≡ self.old.script }
        ensures spare { out.new.spare + length (flat_map item_of (allocate_new s self.old.state)) ≡ out.old.spare }
        ensures entries { length self.new.state.entries + self.new.spare ≡ length self.old.state.entries + self.old.spare }
        ensures least { self.old.spare ≤ self.new.spare + 1 }
        ensures places { self.new.places ≡ self.old.places }
    {
        match self.home(s) {
            Some(_) => {}
            None => self.allocate(s, out),
        }
    }

    /// A shard without a home is allocated to the first of the regions with the fewest shards that
    /// don't leave, and this region is told to host it. Where all leave, nothing happens.
    pub(crate) fn allocate(&mut self, s: ShardNo, out: &mut Out)
        requires shard { is_shard self.old.script s ≡ true }
        requires homeless { is_none (home_of self.old.state s) ≡ true }
        requires still { is_moving self.old.state s ≡ false }
        requires store { 1 ≤ self.old.spare }
        requires room { length (flat_map item_of (allocate s self.old.state)) ≤ out.old.spare }
        ensures items { out.new.items ≡ out.old.items ++ flat_map item_of (allocate s self.old.state) }
        ensures state { self.new.state ≡ fold coordinator_after self.old.state (allocate s self.old.state) }
        ensures regions { registered self.new.state ≡ registered self.old.state }
        ensures script { self.new.script ≡ self.old.script }
        ensures spare { out.new.spare + length (flat_map item_of (allocate s self.old.state)) ≡ out.old.spare }
        ensures entries { length self.new.state.entries + self.new.spare ≡ length self.old.state.entries + self.old.spare }
        ensures least { self.old.spare ≤ self.new.spare + 1 }
        ensures places { self.new.places ≡ self.old.places }
    {
        let region = self.least();
        self.allocate_to(s, &region, out);
    }

    /// The first of the regions with the fewest shards that don't leave; None exactly where there
    /// is none.
    fn least(&self) -> Option<Incarnation>
        ensures region { result ≡ option_map (λ x. x.region) (smallest (shares self.now.state)) }
        ensures registered { ForSome result (λ r. is_among r (registered self.now.state) ≡ true) }
    {
        if self.has_leaving() {
            self.least_staying()
        } else {
            self.least_of(self.loads())
        }
    }

    /// The same, where some region leaves.
    fn least_staying(&self) -> Option<Incarnation>
        ensures region { result ≡ option_map (λ x. x.region) (smallest (shares self.now.state)) }
        ensures registered { ForSome result (λ r. is_among r (registered self.now.state) ≡ true) }
    {
        let loads = self.staying();
        self.least_of(&loads)
    }

    /// The same, of these loads of the regions that don't leave.
    fn least_of(&self, loads: &Loads) -> Option<Incarnation>
        requires shares { shares_of loads.now ≡ shares self.now.state }
        requires registered { list_all (λ (l : Load). is_among l.region (registered self.now.state)) loads.now ≡ true }
        ensures region { result ≡ option_map (λ x. x.region) (smallest (shares self.now.state)) }
        ensures registered { ForSome result (λ r. is_among r (registered self.now.state) ≡ true) }
    {
        let staying = loads.as_slice();
        match choose(staying) {
            Some(place) => Some(staying[place].region),
            None => None,
        }
    }

    /// A shard without a home is allocated to that region, if there is one.
    fn allocate_to(&mut self, s: ShardNo, region: &Option<Incarnation>, out: &mut Out)
        requires shard { is_shard self.old.script s ≡ true }
        requires homeless { is_none (home_of self.old.state s) ≡ true }
        requires still { is_moving self.old.state s ≡ false }
        requires registered { ForSome region.now (λ r. is_among r (registered self.old.state) ≡ true) }
        requires store { 1 ≤ self.old.spare }
        requires room { length (flat_map item_of (allocate_to s region.now self.old.state)) ≤ out.old.spare }
        ensures items { out.new.items ≡ out.old.items ++ flat_map item_of (allocate_to s region.now self.old.state) }
        ensures state { self.new.state ≡ fold coordinator_after self.old.state (allocate_to s region.now self.old.state) }
        ensures regions { registered self.new.state ≡ registered self.old.state }
        ensures script { self.new.script ≡ self.old.script }
        ensures spare { out.new.spare + length (flat_map item_of (allocate_to s region.now self.old.state)) ≡ out.old.spare }
        ensures entries { length self.new.state.entries + self.new.spare ≡ length self.old.state.entries + self.old.spare }
        ensures least { self.old.spare ≤ self.new.spare + 1 }
        ensures places { self.new.places ≡ self.old.places }
    {
        if let Some(r) = region {
            let stamp = self.stamp();
            self.place(s, r, out);
            self.post(r, &Body::HostShard(s, stamp), out);
        }
    }
}
