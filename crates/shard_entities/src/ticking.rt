//! The tick.
ghost use Rattle.std.specs.Prelude.{◌≡◌, ℕ, ◌+◌, ◌<◌, ◌≤◌, true, false, List, [], ◌∷◌, length};
ghost use Rattle.std.specs.List.{flat_map};
ghost use Rattle.yard_model.specs.Entities.{cell, entities_of, remind_by, tick_entities};
ghost use Rattle.shard_entities.specs.Lodged.{given};
ghost use Rattle.yard_model.specs.Setting.{names_of};
ghost use Rattle.shard_store.specs.Shelved.{name_at};
ghost use Rattle.shard_entities.specs.Placed.{IsPlace};
ghost use Rattle.shard_entities.specs.Restless.{is_restless};

use crate::place::Place;
use crate::places::shard_at;
use crate::shards::Shards;
use yard_model::{Body, Out, Phase, ShardNo};

impl Shards {
    /// Each entity that recovers is asked for its journal again, and each that stops is told so again.
    pub(crate) fn tick(&self, out: &mut Out)
        requires room { length (tick_entities self.now.state) ≤ out.old.spare }
        ensures { out.new ≡ given out.old (tick_entities self.now.state) }
    {
        if self.none_is_restless() {
            return;
        }
        self.remind_all(out);
    }

    /// No entity recovers or stops: at nearly every tick it is so.
    fn none_is_restless(&self) -> bool
        ensures { result ≡ true → tick_entities self.now.state ≡ [] }
    {
        self.places.total() <= self.restless.next(0)
    }

    /// Those of all shards.
    #[inline(never)]
    fn remind_all(&self, out: &mut Out)
        requires room { length (tick_entities self.now.state) ≤ out.old.spare }
        ensures { out.new ≡ given out.old (tick_entities self.now.state) }
    {
        self.knows();
        for s in 0..self.shards() {
            self.remind_shard(shard_at(s), out);
        }
    }

    /// Those of one shard, if there are any.
    fn remind_shard(&self, s: ShardNo, out: &mut Out)
        requires shard { s < self.now.script.config.shards }
        requires room { length (flat_map (λ e. remind_by e self.now.state (cell self.now.state e).phase) (entities_of self.now.state s)) ≤ out.old.spare }
        ensures { out.new ≡ given out.old (flat_map (λ e. remind_by e self.now.state (cell self.now.state e).phase) (entities_of self.now.state s)) }
    {
        if !self.is_empty(s) {
            self.remind_each(s, out);
        }
    }

    /// Each of them.
    fn remind_each(&self, s: ShardNo, out: &mut Out)
        requires shard { s < self.now.script.config.shards }
        requires room { length (flat_map (λ e. remind_by e self.now.state (cell self.now.state e).phase) (entities_of self.now.state s)) ≤ out.old.spare }
        ensures { out.new ≡ given out.old (flat_map (λ e. remind_by e self.now.state (cell self.now.state e).phase) (entities_of self.now.state s)) }
    {
        self.knows();
        let count = self.count(s);
        let mut from = 0;
        for _ in 0..count {
            let k = self.next_restless(s, from);
            if k >= count {
                return;
            }
            self.remind(&self.nth(s, k), out);
            from = k + 1;
        }
    }

    /// The next name of a shard, from one on, whose entity recovers or stops; how many names it has
    /// where there is none.
    fn next_restless(&self, s: ShardNo, from: usize) -> usize
        requires shard { s < self.now.script.config.shards }
        requires from { from ≤ length (names_of self.now.state.set s) }
        ensures from { from ≤ result }
        ensures within { result ≤ length (names_of self.now.state.set s) }
        ensures between { (k : ℕ) → from ≤ k → k < result → is_restless (cell self.now.state (name_at (names_of self.now.state.set s) k)).phase ≡ false }
    {
        let start = self.places.start(s);
        place_within(start, self.count(s), self.restless.next(start + from))
    }

    /// One of them.
    fn remind(&self, place: &Place, out: &mut Out)
        requires place { IsPlace self.now.script place.now }
        requires room { length (remind_by place.now.entity self.now.state (cell self.now.state place.now.entity).phase) ≤ out.old.spare }
        ensures { out.new ≡ given out.old (remind_by place.now.entity self.now.state (cell self.now.state place.now.entity).phase) }
    {
        match self.phase(place) {
            Phase::Loading => self.post_recovered(place, out),
            Phase::Stopping => self.post(&self.who, Body::StopEntity(place.entity), out),
            _ => {}
        }
    }
}

/// How far a place is from the start of its shard, which has so many names; their number where it lies
/// behind them.
fn place_within(start: usize, count: usize, at: usize) -> usize
    requires { start ≤ at }
    ensures before { start + result ≤ at }
    ensures within { result ≤ count }
    ensures far { (n : ℕ) → start + n ≤ at → n ≤ count → n ≤ result }
{
    if at - start < count {
        at - start
    } else {
        count
    }
}
