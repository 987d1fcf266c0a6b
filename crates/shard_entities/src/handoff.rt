//! A shard is handed off.
ghost use Rattle.std.specs.Prelude.{◌≡◌, ℕ, ◌+◌, ◌<◌, ◌≤◌, List, [], ◌∷◌, length, map, filter, not, true, false, None, Some, MatchOption, IfSome, if◌then◌else◌};
ghost use Rattle.std.specs.List.{list_any};
ghost use Rattle.std.specs.Option.{option_map, option_and_then};
ghost use Rattle.yard_model.specs.declared.fact.Fact.TheVariants as fact;
ghost use Rattle.yard_model.specs.declared.packet.Body.TheVariants as body;
ghost use Rattle.yard_model.specs.declared.incarnation.Cause.TheVariants as cause;
ghost use Rattle.yard_model.specs.declared.incarnation.Slot.TheVariants as slot;
ghost use Rattle.yard_model.specs.Entities.{hosted, entries_in, entities_of, is_in_phase, free_if_left, hand_off};
ghost use Rattle.yard_model.specs.declared.input.Phase.TheVariants as phase;
ghost use Rattle.yard_model.specs.Move.{told, post, handed_off};
ghost use Rattle.yard_model.specs.Setting.{names_of};
ghost use Rattle.yard_model.specs.SlotReads.{epoch};
ghost use Rattle.yard_model.specs.Words.{is_empty};
ghost use Rattle.shard_entities.specs.Lodged.{IsStore, HasRoom, moved, given, stopping_of};
ghost use Rattle.shard_entities.specs.Placed.{IsPlace};
ghost use Rattle.shard_entities.specs.Settled.{IsSettled, IsStopped, IsFreed, frees};

use crate::hosting::Ending;
use crate::moves::push;
use crate::place::Place;
use crate::shards::Shards;
use shard_store::ShardStore;
use yard_model::{Body, Cause, Fact, Incarnation, Item, Out, ShardNo, Slot, Stamp};

/// A shard that is let go, since no entity of it is left.
#[derive(Drop)]
pub struct Stopped {
    /// Which shard.
    pub shard: ShardNo,
    /// Its store.
    pub store: ShardStore,
    /// The stamp of the order to let it go.
    pub stamp: Stamp,
    /// To whom it was told.
    pub to: Incarnation,
}

impl Shards {
    /// A hosted shard is handed off (Akka 2.6, Cluster Sharding: rebalancing): each of its entities is
    /// told to stop; where it has none it is let go, and its store is answered.
    pub(crate) fn hand_off(
        &mut self,
        s: ShardNo,
        stamp: Stamp,
        to: Incarnation,
        out: &mut Out,
    ) -> Option<ShardStore>
        requires shard { s < self.old.script.config.shards }
        requires there { hosted self.old.state s ≡ None → ⊥ }
        requires settled { IsSettled self.old }
        requires room { 2 + length (names_of self.old.state.set s) ≤ out.old.spare }
        ensures state { self.new ≡ moved self.old (hand_off s stamp to self.old.state) }
        ensures out { out.new ≡ given out.old (hand_off s stamp to self.old.state) }
        ensures store { MatchOption result (list_any frees (hand_off s stamp to self.old.state) ≡ false) (IsStore self.old s) }
        ensures freed { IfSome result (λ x. IsFreed (handed_off s stamp to ∷ map (λ e. post self.old.state.who self.old.state.who (body.StopEntity e)) (entities_of self.old.state s)) (hand_off s stamp to self.old.state) self.old.state.who (record { shard = s; store = x; stamp = stamp; to = to })) }
        ensures settled { IsSettled self.new }
    {
        self.knows();
        self.set_stopping(s, &stamp, &to);
        self.stop_each(s, out);
        let stopped = self.free_if_left(s, out);
        store_of(stopped)
    }

    /// Each entity of a shard is told to stop.
    fn stop_each(&mut self, s: ShardNo, out: &mut Out)
        requires shard { s < self.old.script.config.shards }
        requires there { hosted self.old.state s ≡ None → ⊥ }
        requires settled { IsSettled self.old }
        requires room { length (names_of self.old.state.set s) ≤ out.old.spare }
        ensures state { self.new ≡ moved self.old (map (λ e. post self.old.state.who self.old.state.who (body.StopEntity e)) (entities_of self.old.state s)) }
        ensures out { out.new ≡ given out.old (map (λ e. post self.old.state.who self.old.state.who (body.StopEntity e)) (entities_of self.old.state s)) }
        ensures settled { IsSettled self.new }
    {
        for k in 0..self.count(s) {
            self.knows();
            let place = self.nth(s, k);
            self.stop_where_there(&place, out);
        }
    }

    /// One of them is told to stop, if it exists.
    fn stop_where_there(&mut self, place: &Place, out: &mut Out)
        requires place { IsPlace self.old.script place.now }
        requires settled { IsSettled self.old }
        requires room { 0 < out.old.spare }
        ensures state { self.new ≡ moved self.old (if not (is_in_phase phase.Absent self.old.state place.now.entity) then post self.old.state.who self.old.state.who (body.StopEntity place.now.entity) ∷ [] else []) }
        ensures out { out.new ≡ given out.old (if not (is_in_phase phase.Absent self.old.state place.now.entity) then post self.old.state.who self.old.state.who (body.StopEntity place.now.entity) ∷ [] else []) }
        ensures settled { IsSettled self.new }
    {
        self.knows();
        if self.exists(place) {
            self.post_stop(place, out);
        }
    }

    /// A shard that is being handed off is let go, where no entity of it is left.
    pub(crate) fn free_if_left(&mut self, s: ShardNo, out: &mut Out) -> Option<Stopped>
        requires shard { s < self.old.script.config.shards }
        requires settled { IsSettled self.old }
        requires room { 2 ≤ out.old.spare }
        ensures state { self.new ≡ moved self.old (free_if_left s self.old.state) }
        ensures out { out.new ≡ given out.old (free_if_left s self.old.state) }
        ensures stopped { MatchOption result (list_any frees (free_if_left s self.old.state) ≡ false) (IsStopped self.old self.old s) }
        ensures freed { IfSome result (IsFreed [] (free_if_left s self.old.state) self.old.state.who) }
        ensures settled { IsSettled self.new }
    {
        match self.ending(s) {
            Some(ending) => self.free_if_empty(s, &ending, out),
            None => None,
        }
    }

    /// How a shard stops; None exactly where it isn't being handed off.
    fn ending(&self, s: ShardNo) -> Option<Ending>
        requires { s < self.now.script.config.shards }
        ensures { option_map stopping_of result ≡ option_and_then (λ h. h.stopping) (hosted self.now.state s) }
    {
        match &self.hosted[s.get() as usize] {
            Some(hosting) => hosting.stopping,
            None => None,
        }
    }

    /// Where no entity of it is left, it is let go.
    fn free_if_empty(&mut self, s: ShardNo, ending: &Ending, out: &mut Out) -> Option<Stopped>
        requires shard { s < self.old.script.config.shards }
        requires stops { option_and_then (λ h. h.stopping) (hosted self.old.state s) ≡ Some (stopping_of ending.now) }
        requires settled { IsSettled self.old }
        requires room { 2 ≤ out.old.spare }
        ensures state { self.new ≡ moved self.old (free_if_left s self.old.state) }
        ensures out { out.new ≡ given out.old (free_if_left s self.old.state) }
        ensures stopped { MatchOption result (list_any frees (free_if_left s self.old.state) ≡ false) (IsStopped self.old self.old s) }
        ensures freed { IfSome result (IsFreed [] (free_if_left s self.old.state) self.old.state.who) }
        ensures settled { IsSettled self.new }
    {
        self.knows();
        if self.is_empty(s) {
            Some(Stopped {
                shard: s,
                store: self.free(s, ending, out),
                stamp: ending.stamp,
                to: ending.to,
            })
        } else {
            None
        }
    }

    /// A hosted shard of which no entity exists is let go; its store.
    fn free(&mut self, s: ShardNo, ending: &Ending, out: &mut Out) -> ShardStore
        requires shard { s < self.old.script.config.shards }
        requires there { hosted self.old.state s ≡ None → ⊥ }
        requires left { entities_of self.old.state s ≡ [] }
        requires settled { IsSettled self.old }
        requires room { 2 ≤ out.old.spare }
        ensures state { self.new ≡ moved self.old (told (fact.Freed (slot.Shard s) (epoch (entries_in (hosted self.old.state s))) cause.Released) ∷ post self.old.state.who ending.now.to (body.ShardStopped s ending.now.stamp) ∷ []) }
        ensures out { out.new ≡ given out.old (told (fact.Freed (slot.Shard s) (epoch (entries_in (hosted self.old.state s))) cause.Released) ∷ post self.old.state.who ending.now.to (body.ShardStopped s ending.now.stamp) ∷ []) }
        ensures store { IsStore self.old s result }
        ensures settled { IsSettled self.new }
    {
        self.knows();
        let store = self.take_out(s);
        push(
            out,
            Item::Fact(Fact::Freed(Slot::Shard(s), store.epoch(), Cause::Released)),
        );
        self.post(&ending.to, Body::ShardStopped(s, ending.stamp), out);
        store
    }

    /// The store of a hosted shard is taken out.
    fn take_out(&mut self, s: ShardNo) -> ShardStore
        requires shard { s < self.old.script.config.shards }
        requires there { hosted self.old.state s ≡ None → ⊥ }
        ensures state { self.new ≡ moved self.old (told (fact.Freed (slot.Shard s) (epoch (entries_in (hosted self.old.state s))) cause.Released) ∷ []) }
        ensures store { IsStore self.old s result }
    {
        match self.take_shard(s) {
            Some(store) => store,
            None => unreachable!(),
        }
    }
}

/// The store of what was let go.
fn store_of(stopped: Option<Stopped>) -> Option<ShardStore>
    ensures { result ≡ option_map (λ x. x.store) stopped }
{
    match stopped {
        Some(stopped) => Some(stopped.store),
        None => None,
    }
}
