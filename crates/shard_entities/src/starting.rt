//! A shard starts.
ghost use Rattle.std.specs.Prelude.{◌≡◌, ℕ, ◌*◌, ◌<◌, ◌≤◌, List, [], ◌∷◌, length, filter, None, Some, if◌then◌else◌};
ghost use Rattle.std.specs.List.{flat_map};
ghost use Rattle.yard_model.specs.Entities.{hosted, entries, start_entity, start_remembered};
ghost use Rattle.yard_model.specs.Setting.{names_of};
ghost use Rattle.yard_model.specs.SlotReads.{holder, is_remembered};
ghost use Rattle.shard_entities.specs.Lodged.{moved, given, hosting};
ghost use Rattle.shard_entities.specs.Placed.{IsPlace};
ghost use Rattle.shard_entities.specs.Settled.{IsSettled};

use crate::hosting::Hosting;
use crate::place::Place;
use crate::shards::Shards;
use shard_store::ShardStore;
use yard_model::{Out, ShardNo};

impl Shards {
    /// A shard starts (Akka 2.6, Cluster Sharding: shards, remembering entities): it is hosted with
    /// its store, and each entity that is remembered starts with it, where the script says so.
    pub(crate) fn start(&mut self, s: ShardNo, store: ShardStore, out: &mut Out)
        requires shard { s < self.old.script.config.shards }
        requires new { hosted self.old.state s ≡ None }
        requires script { store.script ≡ self.old.script }
        requires its { store.shard ≡ s }
        requires leased { holder store.entries ≡ Some self.old.state.who }
        requires settled { IsSettled self.old }
        requires room { 2 * length (names_of self.old.state.set s) ≤ out.old.spare }
        ensures state { self.new ≡ moved (hosting self.old s store) (start_remembered s (hosting self.old s store).state) }
        ensures out { out.new ≡ given out.old (start_remembered s (hosting self.old s store).state) }
        ensures settled { IsSettled self.new }
    {
        self.host(s, store);
        self.knows();
        if self.remembers() {
            self.start_each(s, out);
        }
    }

    /// It is hosted, and running.
    fn host(&mut self, s: ShardNo, store: ShardStore)
        requires shard { s < self.old.script.config.shards }
        requires new { hosted self.old.state s ≡ None }
        requires script { store.script ≡ self.old.script }
        requires its { store.shard ≡ s }
        requires leased { holder store.entries ≡ Some self.old.state.who }
        requires settled { IsSettled self.old }
        ensures state { self.new ≡ hosting self.old s store }
        ensures settled { IsSettled self.new }
    {
        let running = self.running.with(s);
        self.running = running;
        let touched = self.touched.with(s);
        self.touched = touched;
        self.hosted[s.get() as usize] = Some(Hosting {
            store,
            stopping: None,
        });
    }

    /// Each remembered entity of a hosted shard starts.
    fn start_each(&mut self, s: ShardNo, out: &mut Out)
        requires shard { s < self.old.script.config.shards }
        requires there { hosted self.old.state s ≡ None → ⊥ }
        requires settled { IsSettled self.old }
        requires room { 2 * length (names_of self.old.state.set s) ≤ out.old.spare }
        ensures state { self.new ≡ moved self.old (flat_map (λ e. start_entity e self.old.state) (filter (λ e. is_remembered e (entries self.old.state e)) (names_of self.old.state.set s))) }
        ensures out { out.new ≡ given out.old (flat_map (λ e. start_entity e self.old.state) (filter (λ e. is_remembered e (entries self.old.state e)) (names_of self.old.state.set s))) }
        ensures settled { IsSettled self.new }
    {
        for k in 0..self.count(s) {
            self.knows();
            let place = self.nth(s, k);
            self.start_where_remembered(&place, out);
        }
    }

    /// One of them starts, if it is remembered.
    fn start_where_remembered(&mut self, place: &Place, out: &mut Out)
        requires place { IsPlace self.old.script place.now }
        requires there { hosted self.old.state place.now.shard ≡ None → ⊥ }
        requires settled { IsSettled self.old }
        requires room { 2 ≤ out.old.spare }
        ensures state { self.new ≡ moved self.old (if is_remembered place.now.entity (entries self.old.state place.now.entity) then start_entity place.now.entity self.old.state else []) }
        ensures out { out.new ≡ given out.old (if is_remembered place.now.entity (entries self.old.state place.now.entity) then start_entity place.now.entity self.old.state else []) }
        ensures settled { IsSettled self.new }
    {
        self.knows();
        if self.is_remembered(place) {
            self.start_entity(place, out);
        }
    }

    /// An entity starts, and is asked for its journal.
    pub(crate) fn start_entity(&mut self, place: &Place, out: &mut Out)
        requires place { IsPlace self.old.script place.now }
        requires room { 2 ≤ out.old.spare }
        ensures state { self.new ≡ moved self.old (start_entity place.now.entity self.old.state) }
        ensures out { out.new ≡ given out.old (start_entity place.now.entity self.old.state) }
    {
        self.tell_start(place, out);
        self.post_recovered(place, out);
    }
}
