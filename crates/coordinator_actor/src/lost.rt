//! Regions that are lost.
ghost use Rattle.std.specs.Prelude.{◌≡◌, ℕ, ◌+◌, ◌<◌, ◌≤◌, ◌++◌, [], ◌∷◌, length, fold, true, false, IsTrue};
ghost use Rattle.std.specs.List.{flat_map};
ghost use Rattle.yard_model.specs.Coordinator.{coordinator_after, registered, terminate_lost};
ghost use Rattle.yard_model.specs.Move.{item_of};
ghost use Rattle.yard_model.specs.Words.{is_among};
ghost use Rattle.handoff_steps.specs.Places.{lost_at, moving};
ghost use Rattle.coordinator_actor.specs.Held.{are_viewed};
ghost use Rattle.coordinator_actor.specs.Homes.{KeepsViewed};
ghost use Rattle.coordinator_actor.specs.Parts.{at_shard, lost_all, lost_posts, step_posts, stay, terminate_if_lost};

use crate::coordinator::Coordinator;
use crate::rounds::shard_at;
use handoff_steps::{Round, Step};
use membership_view::View;
use yard_model::{Body, Incarnation, Item, Out, Packet, ShardNo, Stamp};

impl Coordinator {
    /// The node has this view: each registered region that isn't in it is lost, in order of
    /// registration (Akka 2.6, Cluster Sharding concepts). Its shards have no home any more, it is
    /// awaited by no shard of the round, and a shard that waited for it alone is handed off.
    /// Afterwards every registered region is in the view. A shard whose home is in the view keeps it.
    #[tactic(auto, using(crate::proofs::KeepLaws::lost))]
    pub fn view_taken(&mut self, view: &View, out: &mut Out)
        requires store { 16 ≤ self.old.spare }
        requires room { length (flat_map item_of (terminate_lost view.now.members self.old.state)) ≤ out.old.spare }
        ensures items { out.new.items ≡ out.old.items ++ flat_map item_of (terminate_lost view.now.members self.old.state) }
        ensures state { self.new.state ≡ fold coordinator_after self.old.state (terminate_lost view.now.members self.old.state) }
        ensures script { self.new.script ≡ self.old.script }
        ensures viewed { IsTrue (are_viewed view.now.members self.new.state.entries) }
        ensures spare { out.new.spare + length (flat_map item_of (terminate_lost view.now.members self.old.state)) ≡ out.old.spare }
        ensures entries { length self.new.state.entries + self.new.spare ≡ length self.old.state.entries + self.old.spare }
        ensures least { self.old.spare ≤ self.new.spare + 16 }
        ensures places { self.new.places ≡ self.old.places }
        ensures homes { (s : ℕ) → KeepsViewed view.now.members s self.old.state self.new.state }
    {
        if self.are_viewed(view) {
            return;
        }
        self.lose_regions(view, out);
    }

    /// The same, where some registered region isn't in the view.
    #[inline(never)]
    fn lose_regions(&mut self, view: &View, out: &mut Out)
        requires store { 16 ≤ self.old.spare }
        requires room { length (flat_map item_of (terminate_lost view.now.members self.old.state)) ≤ out.old.spare }
        ensures items { out.new.items ≡ out.old.items ++ flat_map item_of (terminate_lost view.now.members self.old.state) }
        ensures state { self.new.state ≡ fold coordinator_after self.old.state (terminate_lost view.now.members self.old.state) }
        ensures script { self.new.script ≡ self.old.script }
        ensures viewed { IsTrue (are_viewed view.now.members self.new.state.entries) }
        ensures spare { out.new.spare + length (flat_map item_of (terminate_lost view.now.members self.old.state)) ≡ out.old.spare }
        ensures entries { length self.new.state.entries + self.new.spare ≡ length self.old.state.entries + self.old.spare }
        ensures least { self.old.spare ≤ self.new.spare + 16 }
        ensures places { self.new.places ≡ self.old.places }
    {
        let regions = self.regions();
        for region in regions.as_slice() {
            self.terminate_if_lost(region, view, out);
        }
    }

    /// A registered region is terminated, unless it is in the view.
    fn terminate_if_lost(&mut self, r: &Incarnation, view: &View, out: &mut Out)
        requires store { 1 ≤ self.old.spare }
        requires registered { is_among r.now (registered self.old.state) ≡ true }
        requires room { length (flat_map item_of (terminate_if_lost view.now.members r.now self.old.state)) ≤ out.old.spare }
        ensures items { out.new.items ≡ out.old.items ++ flat_map item_of (terminate_if_lost view.now.members r.now self.old.state) }
        ensures state { self.new.state ≡ fold coordinator_after self.old.state (terminate_if_lost view.now.members r.now self.old.state) }
        ensures script { self.new.script ≡ self.old.script }
        ensures regions { registered self.new.state ≡ stay view.now.members r.now (registered self.old.state) }
        ensures spare { out.new.spare + length (flat_map item_of (terminate_if_lost view.now.members r.now self.old.state)) ≡ out.old.spare }
        ensures entries { length self.new.state.entries + self.new.spare ≡ length self.old.state.entries + self.old.spare }
        ensures least { self.old.spare ≤ self.new.spare + 1 }
        ensures places { self.new.places ≡ self.old.places }
    {
        if view.has(*r) {
            return;
        }
        self.terminate(r, out);
    }
}

/// A region is lost for the whole round, whose coordinator is that of `who`: its own shards are
/// done, it isn't awaited for the others, and those that waited for it alone are handed off.
pub(crate) fn lose_all(round: &mut Round, who: &Incarnation, r: &Incarnation, out: &mut Out)
    requires room { length (flat_map item_of (flat_map (lost_posts who.now round.old.stamp r.now) (moving round.old))) ≤ out.old.spare }
    ensures items { out.new.items ≡ out.old.items ++ flat_map item_of (flat_map (lost_posts who.now round.old.stamp r.now) (moving round.old)) }
    ensures moving { moving round.new ≡ lost_all r.now (moving round.old) }
    ensures stamp { round.new.stamp ≡ round.old.stamp }
    ensures spare { out.new.spare + length (flat_map item_of (flat_map (lost_posts who.now round.old.stamp r.now) (moving round.old))) ≡ out.old.spare }
{
    if round.is_done() {
        return;
    }
    lose_each(round, who, r, out);
}

/// The same, of each shard that there can be.
fn lose_each(round: &mut Round, who: &Incarnation, r: &Incarnation, out: &mut Out)
    requires room { length (flat_map item_of (flat_map (lost_posts who.now round.old.stamp r.now) (moving round.old))) ≤ out.old.spare }
    ensures items { out.new.items ≡ out.old.items ++ flat_map item_of (flat_map (lost_posts who.now round.old.stamp r.now) (moving round.old)) }
    ensures moving { moving round.new ≡ lost_all r.now (moving round.old) }
    ensures stamp { round.new.stamp ≡ round.old.stamp }
    ensures spare { out.new.spare + length (flat_map item_of (flat_map (lost_posts who.now round.old.stamp r.now) (moving round.old))) ≡ out.old.spare }
{
    round.stamp();
    for place in 0..128u8 {
        lose_shard(round, who, r, shard_at(place), out);
    }
}

/// A region is lost for one shard of the round.
fn lose_shard(round: &mut Round, who: &Incarnation, r: &Incarnation, s: ShardNo, out: &mut Out)
    requires room { length (flat_map item_of (flat_map (lost_posts who.now round.old.stamp r.now) (at_shard s (moving round.old)))) ≤ out.old.spare }
    ensures items { out.new.items ≡ out.old.items ++ flat_map item_of (flat_map (lost_posts who.now round.old.stamp r.now) (at_shard s (moving round.old))) }
    ensures moving { moving round.new ≡ lost_at s r.now (moving round.old) }
    ensures stamp { round.new.stamp ≡ round.old.stamp }
    ensures spare { out.new.spare + length (flat_map item_of (flat_map (lost_posts who.now round.old.stamp r.now) (at_shard s (moving round.old)))) ≡ out.old.spare }
{
    if !round.is_moving(s) {
        return;
    }
    let stamp = round.stamp();
    let step = round.region_gone(s, *r);
    take_step(who, &stamp, s, &step, out);
}

/// The owner of a shard is told to hand it off, where the step says so.
pub(crate) fn take_step(who: &Incarnation, stamp: &Stamp, s: ShardNo, step: &Step, out: &mut Out)
    requires room { length (flat_map item_of (step_posts who.now stamp.now s step.now)) ≤ out.old.spare }
    ensures items { out.new.items ≡ out.old.items ++ flat_map item_of (step_posts who.now stamp.now s step.now) }
    ensures spare { out.new.spare + length (flat_map item_of (step_posts who.now stamp.now s step.now)) ≡ out.old.spare }
{
    match step {
        Step::HandOff(owner) => out.push(Item::Post(Packet {
            from: *who,
            to: *owner,
            body: Body::HandOff(s, *stamp),
        })),
        _ => {}
    }
}
