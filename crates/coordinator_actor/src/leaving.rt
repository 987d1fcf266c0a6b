//! Regions that leave.
ghost use Rattle.std.specs.Prelude.{◌≡◌, ℕ, ◌+◌, ◌<◌, ◌≤◌, ◌++◌, ◌||◌, ◌≢◌, length, fold, true};
ghost use Rattle.std.specs.List.{flat_map};
ghost use Rattle.yard_model.specs.Coordinator.{coordinator_after, begin, home_of, homes_at, quit};
ghost use Rattle.yard_model.specs.Move.{item_of};
ghost use Rattle.yard_model.specs.ShardSet.{has};
ghost use Rattle.yard_model.specs.Words.{is_at, is_empty};
ghost use Rattle.coordinator_actor.specs.Held.{AreHomed};
ghost use Rattle.coordinator_actor.specs.Parts.{begin_leaving, may_begin, quit_registered, shards_in};

use crate::coordinator::Coordinator;
use crate::rounds::shard_at;
use yard_model::{Incarnation, Out, ShardSet};

impl Coordinator {
    /// A region asks to leave (Akka 2.6, Cluster Sharding concepts: graceful shutdown): where it is
    /// registered it leaves from now on, and gets no more shards; where no round is open and some
    /// registered region stays, its shards begin to move. Else nothing happens.
    pub fn quit(&mut self, from: &Incarnation, out: &mut Out)
        requires place { 1 ≤ self.old.places }
        requires room { length (flat_map item_of (quit from.now self.old.state)) ≤ out.old.spare }
        ensures items { out.new.items ≡ out.old.items ++ flat_map item_of (quit from.now self.old.state) }
        ensures state { self.new.state ≡ fold coordinator_after self.old.state (quit from.now self.old.state) }
        ensures kept { self.new.state.entries ≡ self.old.state.entries }
        ensures script { self.new.script ≡ self.old.script }
        ensures spare { out.new.spare + length (flat_map item_of (quit from.now self.old.state)) ≡ out.old.spare }
        ensures entries { self.new.spare ≡ self.old.spare }
        ensures places { length self.new.state.quitting + self.new.places ≡ length self.old.state.quitting + self.old.places }
        ensures least { self.old.places ≤ self.new.places + 1 }
    {
        if !self.is_registered(from) {
            return;
        }
        self.quit_registered(from, out);
    }

    /// The same, of a registered region.
    fn quit_registered(&mut self, from: &Incarnation, out: &mut Out)
        requires place { 1 ≤ self.old.places }
        requires room { length (flat_map item_of (quit_registered from.now self.old.state)) ≤ out.old.spare }
        ensures items { out.new.items ≡ out.old.items ++ flat_map item_of (quit_registered from.now self.old.state) }
        ensures state { self.new.state ≡ fold coordinator_after self.old.state (quit_registered from.now self.old.state) }
        ensures kept { self.new.state.entries ≡ self.old.state.entries }
        ensures script { self.new.script ≡ self.old.script }
        ensures spare { out.new.spare + length (flat_map item_of (quit_registered from.now self.old.state)) ≡ out.old.spare }
        ensures entries { self.new.spare ≡ self.old.spare }
        ensures places { length self.new.state.quitting + self.new.places ≡ length self.old.state.quitting + self.old.places }
        ensures least { self.old.places ≤ self.new.places + 1 }
    {
        self.mark_leaving(from);
        self.begin_leaving(from, out);
    }

    /// The shards of this region begin to move, where no round is open and some registered region
    /// stays.
    fn begin_leaving(&mut self, from: &Incarnation, out: &mut Out)
        requires room { length (flat_map item_of (begin_leaving from.now self.old.state)) ≤ out.old.spare }
        ensures items { out.new.items ≡ out.old.items ++ flat_map item_of (begin_leaving from.now self.old.state) }
        ensures state { self.new.state ≡ fold coordinator_after self.old.state (begin_leaving from.now self.old.state) }
        ensures quitting { self.new.state.quitting ≡ self.old.state.quitting }
        ensures kept { self.new.state.entries ≡ self.old.state.entries }
        ensures script { self.new.script ≡ self.old.script }
        ensures spare { out.new.spare + length (flat_map item_of (begin_leaving from.now self.old.state)) ≡ out.old.spare }
        ensures entries { self.new.spare ≡ self.old.spare }
        ensures places { self.new.places ≡ self.old.places }
    {
        if !self.may_begin() {
            return;
        }
        self.begin_homes(from, out);
    }

    /// Where no round is open, the shards of this region begin to move.
    fn begin_homes(&mut self, from: &Incarnation, out: &mut Out)
        requires closed { is_empty self.old.state.moving ≡ true }
        requires room { length (flat_map item_of (begin (homes_at self.old.state from.now) self.old.state)) ≤ out.old.spare }
        ensures items { out.new.items ≡ out.old.items ++ flat_map item_of (begin (homes_at self.old.state from.now) self.old.state) }
        ensures state { self.new.state ≡ fold coordinator_after self.old.state (begin (homes_at self.old.state from.now) self.old.state) }
        ensures quitting { self.new.state.quitting ≡ self.old.state.quitting }
        ensures kept { self.new.state.entries ≡ self.old.state.entries }
        ensures script { self.new.script ≡ self.old.script }
        ensures spare { out.new.spare + length (flat_map item_of (begin (homes_at self.old.state from.now) self.old.state)) ≡ out.old.spare }
        ensures entries { self.new.spare ≡ self.old.spare }
        ensures places { self.new.places ≡ self.old.places }
    {
        let homes = self.homes_of(from);
        self.begin(&homes, out);
    }

    /// Whether no round is open and some registered region stays.
    pub(crate) fn may_begin(&self) -> bool
        ensures { result ≡ may_begin self.now.state }
    {
        self.is_closed() && self.has_staying()
    }

    /// Whether no round is open.
    pub(crate) fn is_closed(&self) -> bool
        ensures { result ≡ is_empty self.now.state.moving }
    {
        self.round().is_done()
    }

    /// The shards whose home is this region.
    pub(crate) fn homes_of(&self, r: &Incarnation) -> ShardSet
        ensures homes { shards_in result self.now.state ≡ homes_at self.now.state r.now }
        ensures homed { AreHomed result self.now.state }
    {
        let count = self.shards();
        let mut homes = ShardSet::empty();
        for place in 0..count {
            homes = self.with_home(r, place, homes);
        }
        homes
    }

    /// These shards, and that of this number where its home is this region.
    fn with_home(&self, r: &Incarnation, place: u8, homes: ShardSet) -> ShardSet
        requires shard { place < 128 }
        ensures it { has result place ≡ (is_at r.now (home_of self.now.state place) || has homes place) }
        ensures others { (t : ℕ) → t ≢ place → has result t ≡ has homes t }
    {
        let s = shard_at(place);
        if self.is_home(r, s) {
            homes.with(s)
        } else {
            homes
        }
    }
}
