//! Words of regions on the shards of the round.
ghost use Rattle.std.specs.Prelude.{◌≡◌, ℕ, ◌+◌, ◌<◌, ◌≤◌, ◌++◌, length, fold, true};
ghost use Rattle.std.specs.List.{flat_map};
ghost use Rattle.yard_model.specs.Coordinator.{coordinator_after, registered, acknowledge, shard_stopped, stamp};
ghost use Rattle.yard_model.specs.Genuine.{is_shard};
ghost use Rattle.yard_model.specs.Move.{item_of};
ghost use Rattle.coordinator_actor.specs.Parts.{step_posts};

use crate::coordinator::Coordinator;
use crate::lost::take_step;
use handoff_steps::Step;
use yard_model::{Fact, Incarnation, Item, Out, ShardNo, Stamp};

impl Coordinator {
    /// A region acknowledges that a shard moves: where the stamp is the round's and the region is
    /// awaited for the shard, it is so no longer; where it was the last, the owner is told to hand
    /// the shard off. Else nothing happens.
    pub fn acknowledge(&mut self, from: &Incarnation, s: ShardNo, given: &Stamp, out: &mut Out)
        requires room { length (flat_map item_of (acknowledge from.now s given.now self.old.state)) ≤ out.old.spare }
        ensures items { out.new.items ≡ out.old.items ++ flat_map item_of (acknowledge from.now s given.now self.old.state) }
        ensures state { self.new.state ≡ fold coordinator_after self.old.state (acknowledge from.now s given.now self.old.state) }
        ensures kept { self.new.state.entries ≡ self.old.state.entries }
        ensures script { self.new.script ≡ self.old.script }
        ensures spare { out.new.spare + length (flat_map item_of (acknowledge from.now s given.now self.old.state)) ≡ out.old.spare }
        ensures entries { self.new.spare ≡ self.old.spare }
        ensures places { self.new.places ≡ self.old.places }
    {
        let step = self.mark_acknowledged(s, given, from);
        self.take_step(s, &step, out);
    }

    /// The owner of a shard is told to hand it off, where the step says so.
    fn take_step(&self, s: ShardNo, step: &Step, out: &mut Out)
        requires room { length (flat_map item_of (step_posts self.now.state.who (stamp self.now.state) s step.now)) ≤ out.old.spare }
        ensures items { out.new.items ≡ out.old.items ++ flat_map item_of (step_posts self.now.state.who (stamp self.now.state) s step.now) }
        ensures spare { out.new.spare + length (flat_map item_of (step_posts self.now.state.who (stamp self.now.state) s step.now)) ≡ out.old.spare }
    {
        take_step(&self.who(), &self.stamp(), s, step, out);
    }

    /// A region has stopped a shard: where the stamp is the round's, nobody is awaited for the
    /// shard and the region is its owner, the shard is deallocated, so that it is done, and
    /// allocated anew. Else nothing happens.
    pub fn shard_stopped(&mut self, from: &Incarnation, s: ShardNo, given: &Stamp, out: &mut Out)
        requires shard { is_shard self.old.script s ≡ true }
        requires store { 2 ≤ self.old.spare }
        requires room { length (flat_map item_of (shard_stopped from.now s given.now self.old.state)) ≤ out.old.spare }
        ensures items { out.new.items ≡ out.old.items ++ flat_map item_of (shard_stopped from.now s given.now self.old.state) }
        ensures state { self.new.state ≡ fold coordinator_after self.old.state (shard_stopped from.now s given.now self.old.state) }
        ensures regions { registered self.new.state ≡ registered self.old.state }
        ensures script { self.new.script ≡ self.old.script }
        ensures spare { out.new.spare + length (flat_map item_of (shard_stopped from.now s given.now self.old.state)) ≡ out.old.spare }
        ensures entries { length self.new.state.entries + self.new.spare ≡ length self.old.state.entries + self.old.spare }
        ensures least { self.old.spare ≤ self.new.spare + 2 }
        ensures places { self.new.places ≡ self.old.places }
    {
        if !self.stop(s, given, from) {
            return;
        }
        out.push(Item::Fact(Fact::Deallocated(s)));
        self.allocate(s, out);
    }
}
