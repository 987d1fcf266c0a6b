//! Rebalancing.
ghost use Rattle.std.specs.Prelude.{◌≡◌, ◌+◌, ◌<◌, ◌≤◌, ◌++◌, ◌∷◌, [], length, fold};
ghost use Rattle.std.specs.List.{All, flat_map};
ghost use Rattle.yard_model.specs.Coordinator.{coordinator_after, picked, rebalance, shares};
ghost use Rattle.yard_model.specs.Move.{item_of};
ghost use Rattle.yard_model.specs.ShardSet.{has};
ghost use Rattle.yard_model.specs.Words.{is_empty};
ghost use Rattle.coordinator_state.specs.Coord.{IsLoadOf};
ghost use Rattle.least_shard.specs.Spread.{shares_of, AreOfDifferentRegions};
ghost use Rattle.coordinator_actor.specs.Held.{AreHomed};
ghost use Rattle.coordinator_actor.specs.Parts.{begin_picked, shards_in};

use crate::coordinator::Coordinator;
use crate::rounds::shard_at;
use least_shard::round;
use yard_model::{Fact, Item, Loads, Out, ShardSet};

impl Coordinator {
    /// At most `limit` shards begin to move from the largest shares to the smallest (Akka 2.6,
    /// Cluster Sharding concepts: rebalancing by the least number of shards). Where a round is
    /// open, or there is nothing to even out, nothing happens, which is made known.
    pub fn rebalance(&mut self, limit: u8, out: &mut Out)
        requires room { length (flat_map item_of (rebalance limit self.old.state)) ≤ out.old.spare }
        ensures items { out.new.items ≡ out.old.items ++ flat_map item_of (rebalance limit self.old.state) }
        ensures state { self.new.state ≡ fold coordinator_after self.old.state (rebalance limit self.old.state) }
        ensures kept { self.new.state.entries ≡ self.old.state.entries }
        ensures script { self.new.script ≡ self.old.script }
        ensures spare { out.new.spare + length (flat_map item_of (rebalance limit self.old.state)) ≡ out.old.spare }
        ensures entries { self.new.spare ≡ self.old.spare }
        ensures places { self.new.places ≡ self.old.places }
    {
        if !self.is_closed() {
            out.push(Item::Fact(Fact::Nothing));
            return;
        }
        let shards = self.picked(limit);
        self.begin_picked(&shards, out);
    }

    /// The shards that such a round moves.
    fn picked(&self, limit: u8) -> ShardSet
        ensures picks { shards_in result self.now.state ≡ picked limit self.now.state }
        ensures homed { AreHomed result self.now.state }
    {
        if self.has_leaving() {
            self.picked_staying(limit)
        } else {
            self.picked_of(self.loads(), limit)
        }
    }

    /// The same, where some region leaves.
    fn picked_staying(&self, limit: u8) -> ShardSet
        ensures picks { shards_in result self.now.state ≡ picked limit self.now.state }
        ensures homed { AreHomed result self.now.state }
    {
        let loads = self.staying();
        self.picked_of(&loads, limit)
    }

    /// The same, of these loads of the regions that don't leave.
    fn picked_of(&self, loads: &Loads, limit: u8) -> ShardSet
        requires shares { shares_of loads.now ≡ shares self.now.state }
        requires homes { All (IsLoadOf self.now.state.entries) loads.now }
        requires different { AreOfDifferentRegions loads.now }
        ensures picks { shards_in result self.now.state ≡ picked limit self.now.state }
        ensures homed { AreHomed result self.now.state }
    {
        round(loads.as_slice(), limit)
    }

    /// These shards begin to move, where there are any and no round is open.
    fn begin_picked(&mut self, shards: &ShardSet, out: &mut Out)
        requires homed { AreHomed shards.now self.old.state }
        requires room { length (flat_map item_of (begin_picked (shards_in shards.now self.old.state) self.old.state)) ≤ out.old.spare }
        ensures items { out.new.items ≡ out.old.items ++ flat_map item_of (begin_picked (shards_in shards.now self.old.state) self.old.state) }
        ensures state { self.new.state ≡ fold coordinator_after self.old.state (begin_picked (shards_in shards.now self.old.state) self.old.state) }
        ensures kept { self.new.state.entries ≡ self.old.state.entries }
        ensures script { self.new.script ≡ self.old.script }
        ensures spare { out.new.spare + length (flat_map item_of (begin_picked (shards_in shards.now self.old.state) self.old.state)) ≡ out.old.spare }
        ensures entries { self.new.spare ≡ self.old.spare }
        ensures places { self.new.places ≡ self.old.places }
    {
        if !self.is_closed() || self.has_none_of(shards) {
            out.push(Item::Fact(Fact::Nothing));
        } else {
            self.begin(shards, out);
        }
    }

    /// Whether there is no shard of this set.
    pub(crate) fn has_none_of(&self, shards: &ShardSet) -> bool
        ensures { result ≡ is_empty (shards_in shards.now self.now.state) }
    {
        *shards == ShardSet::empty() || self.has_none_in_force(shards)
    }

    /// The same, one shard after the other.
    fn has_none_in_force(&self, shards: &ShardSet) -> bool
        ensures { result ≡ is_empty (shards_in shards.now self.now.state) }
    {
        let count = self.shards();
        for place in 0..count {
            let s = shard_at(place);
            if shards.has(s) {
                return false;
            }
        }
        true
    }
}
