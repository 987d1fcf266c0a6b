//! An entity stops.
ghost use Rattle.std.specs.Prelude.{◌≡◌, ℕ, ◌+◌, ◌<◌, ◌≤◌, List, [], ◌∷◌, ◌++◌, length, map, true, false, None, Some, MatchOption, IfSome, if◌then◌else◌};
ghost use Rattle.std.specs.List.{list_any};
ghost use Rattle.yard_model.specs.declared.fact.Fact.TheVariants as fact;
ghost use Rattle.yard_model.specs.declared.input.Phase.TheVariants as phase;
ghost use Rattle.yard_model.specs.Entities.{cell, entries, hosted, stop, forget_passivated, drop_stash, after_stop, start_entity, free_if_left, entities_after};
ghost use Rattle.yard_model.specs.Turns.{in_turn};
ghost use Rattle.yard_model.specs.Move.{told};
ghost use Rattle.yard_model.specs.SlotReads.{is_remembered};
ghost use Rattle.yard_model.specs.Setting.{shard_of};
ghost use Rattle.yard_model.specs.Words.{is_empty};
ghost use Rattle.shard_entities.specs.Lodged.{HasRoom, moved, given};
ghost use Rattle.shard_entities.specs.Placed.{IsPlace};
ghost use Rattle.shard_entities.specs.Settled.{IsSettled, IsSettledBut, IsStopped, IsFreed, frees};

use crate::handoff::Stopped;
use crate::place::Place;
use crate::shards::Shards;
use yard_model::{Out, Phase};

impl Shards {
    /// An entity that is told to stop has stopped (Akka 2.6, Cluster Sharding: passivation): what was
    /// stashed meanwhile goes to its successor, or is dropped where its shard is handed off; after the
    /// last one the shard is let go.
    pub(crate) fn stop(&mut self, place: &Place, out: &mut Out) -> Option<Stopped>
        requires place { IsPlace self.old.script place.now }
        requires there { (cell self.old.state place.now.entity).phase ≡ phase.Stopping → HasRoom self.old place.now.shard 0 }
        requires settled { IsSettled self.old }
        requires room { 4 + self.old.script.config.window ≤ out.old.spare }
        ensures state { self.new ≡ moved self.old (stop place.now.entity self.old.state) }
        ensures out { out.new ≡ given out.old (stop place.now.entity self.old.state) }
        ensures stopped { MatchOption result (list_any frees (stop place.now.entity self.old.state) ≡ false) (IsStopped self.old (moved self.old (told (fact.Stop self.old.state.who place.now.entity) ∷ forget_passivated place.now.entity self.old.state)) place.now.shard) }
        ensures freed { IfSome result (IsFreed (told (fact.Stop self.old.state.who place.now.entity) ∷ forget_passivated place.now.entity self.old.state ++ drop_stash place.now.entity self.old.state) (stop place.now.entity self.old.state) self.old.state.who) }
        ensures settled { IsSettled self.new }
    {
        self.knows();
        match self.phase(place) {
            Phase::Stopping => {
                self.tell_stopped(place, out);
                self.after_stop(place, out)
            }
            _ => None,
        }
    }

    /// It is stopped, and no longer remembered where it asked for its stop.
    fn tell_stopped(&mut self, place: &Place, out: &mut Out)
        requires place { IsPlace self.old.script place.now }
        requires there { HasRoom self.old place.now.shard 0 }
        requires room { 2 ≤ out.old.spare }
        ensures state { self.new ≡ moved self.old (told (fact.Stop self.old.state.who place.now.entity) ∷ forget_passivated place.now.entity self.old.state) }
        ensures out { out.new ≡ given out.old (told (fact.Stop self.old.state.who place.now.entity) ∷ forget_passivated place.now.entity self.old.state) }
    {
        self.knows();
        let forgets = self.is_passivating(place) && self.is_remembered(place);
        self.tell_stop(place, out);
        if forgets {
            self.tell_forgotten(place, out);
        }
    }

    /// What follows its stop.
    fn after_stop(&mut self, place: &Place, out: &mut Out) -> Option<Stopped>
        requires place { IsPlace self.old.script place.now }
        requires there { hosted self.old.state place.now.shard ≡ None → ⊥ }
        requires gone { (cell self.old.state place.now.entity).phase ≡ phase.Absent }
        requires settled { IsSettledBut place.now.at self.old }
        requires room { 2 + self.old.script.config.window ≤ out.old.spare }
        ensures state { self.new ≡ moved self.old (after_stop place.now.entity self.old.state) }
        ensures out { out.new ≡ given out.old (after_stop place.now.entity self.old.state) }
        ensures stopped { MatchOption result (list_any frees (after_stop place.now.entity self.old.state) ≡ false) (IsStopped self.old self.old place.now.shard) }
        ensures freed { IfSome result (IsFreed (drop_stash place.now.entity self.old.state) (after_stop place.now.entity self.old.state) self.old.state.who) }
        ensures settled { IsSettled self.new }
    {
        self.knows();
        if self.is_running(place) {
            self.start_where_stashed(place, out);
            None
        } else {
            self.drop_and_free(place, out)
        }
    }

    /// What is stashed for it is dropped, and its shard is let go if it was the last.
    fn drop_and_free(&mut self, place: &Place, out: &mut Out) -> Option<Stopped>
        requires place { IsPlace self.old.script place.now }
        requires gone { (cell self.old.state place.now.entity).phase ≡ phase.Absent }
        requires settled { IsSettledBut place.now.at self.old }
        requires room { 2 + self.old.script.config.window ≤ out.old.spare }
        ensures state { self.new ≡ moved self.old (in_turn entities_after (drop_stash place.now.entity) (free_if_left (shard_of self.old.state.set place.now.entity)) self.old.state) }
        ensures out { out.new ≡ given out.old (in_turn entities_after (drop_stash place.now.entity) (free_if_left (shard_of self.old.state.set place.now.entity)) self.old.state) }
        ensures stopped { MatchOption result (list_any frees (in_turn entities_after (drop_stash place.now.entity) (free_if_left (shard_of self.old.state.set place.now.entity)) self.old.state) ≡ false) (IsStopped self.old self.old place.now.shard) }
        ensures freed { IfSome result (IsFreed (drop_stash place.now.entity self.old.state) (in_turn entities_after (drop_stash place.now.entity) (free_if_left (shard_of self.old.state.set place.now.entity)) self.old.state) self.old.state.who) }
        ensures settled { IsSettled self.new }
    {
        self.knows();
        self.stashed(place);
        self.drop_stash(place, out);
        self.free_if_left(place.shard, out)
    }

    /// It is started again where something was stashed.
    fn start_where_stashed(&mut self, place: &Place, out: &mut Out)
        requires place { IsPlace self.old.script place.now }
        requires there { hosted self.old.state place.now.shard ≡ None → ⊥ }
        requires gone { (cell self.old.state place.now.entity).phase ≡ phase.Absent }
        requires settled { IsSettledBut place.now.at self.old }
        requires room { 2 ≤ out.old.spare }
        ensures state { self.new ≡ moved self.old (if is_empty (cell self.old.state place.now.entity).stash then [] else start_entity place.now.entity self.old.state) }
        ensures out { out.new ≡ given out.old (if is_empty (cell self.old.state place.now.entity).stash then [] else start_entity place.now.entity self.old.state) }
        ensures settled { IsSettled self.new }
    {
        self.knows();
        if self.stashed(place) > 0 {
            self.start_entity(place, out);
        }
    }

    /// What is stashed for it is dropped, oldest first.
    fn drop_stash(&mut self, place: &Place, out: &mut Out)
        requires place { IsPlace self.old.script place.now }
        requires gone { (cell self.old.state place.now.entity).phase ≡ phase.Absent }
        requires settled { IsSettledBut place.now.at self.old }
        requires room { self.old.script.config.window ≤ out.old.spare }
        ensures state { self.new ≡ moved self.old (drop_stash place.now.entity self.old.state) }
        ensures out { out.new ≡ given out.old (drop_stash place.now.entity self.old.state) }
        ensures settled { IsSettled self.new }
    {
        self.knows();
        for _ in 0..self.stashed(place) {
            self.drop_oldest(place, out);
        }
    }
}
