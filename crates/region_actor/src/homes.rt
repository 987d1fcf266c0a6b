//! The region and the homes of shards.
ghost use Rattle.std.specs.Prelude.{◌≡◌, ℕ, ◌+◌, ◌<◌, ◌≤◌, ◌++◌, length, fold};
ghost use Rattle.std.specs.List.{flat_map};
ghost use Rattle.yard_model.specs.Move.{item_of};
ghost use Rattle.yard_model.specs.Region.{region_after, learn, begin_hand_off, takes_home, takes_host, takes_hand_off};

use crate::region::Region;
use yard_model::{Body, Incarnation, Out, ShardNo, Stamp};

impl Region {
    /// Whether it takes a word of the coordinator that this is a shard's home: the stamp is no older
    /// than the last that was taken, and the home is in the view.
    pub fn takes_home(&self, s: ShardNo, home: &Incarnation, stamp: &Stamp) -> bool
        requires { s < self.now.script.config.shards }
        ensures { result ≡ takes_home s home.now stamp.now self.now.state }
    {
        !self.is_old(s, stamp) && self.has(home)
    }

    /// Whether it takes a word of the coordinator that this node is a shard's home: the stamp is no
    /// older than the last that was taken.
    pub fn takes_host(&self, s: ShardNo, stamp: &Stamp) -> bool
        requires { s < self.now.script.config.shards }
        ensures { result ≡ takes_host s stamp.now self.now.state }
    {
        !self.is_old(s, stamp)
    }

    /// Whether it takes a word of the coordinator that a shard is to stop here: the stamp is no
    /// older than the last that was taken, and the home isn't this node any more.
    pub fn takes_hand_off(&self, s: ShardNo, stamp: &Stamp) -> bool
        requires { s < self.now.script.config.shards }
        ensures { result ≡ takes_hand_off s stamp.now self.now.state }
    {
        !self.is_old(s, stamp) && !self.is_home(s)
    }

    /// Learns that this is a shard's home.
    #[inline(never)]
    pub(crate) fn learn(&mut self, s: ShardNo, home: &Incarnation, stamp: &Stamp, out: &mut Out)
        requires shard { s < self.old.script.config.shards }
        requires room { length (flat_map item_of (learn s home.now stamp.now self.old.state)) ≤ out.old.spare }
        ensures items { out.new.items ≡ out.old.items ++ flat_map item_of (learn s home.now stamp.now self.old.state) }
        ensures state { self.new.state ≡ fold region_after self.old.state (learn s home.now stamp.now self.old.state) }
        ensures script { self.new.script ≡ self.old.script }
        ensures spare { out.new.spare + length (flat_map item_of (learn s home.now stamp.now self.old.state)) ≡ out.old.spare }
    {
        self.mark(s, stamp);
        if !self.is_home_at(s, home) {
            self.set_home(s, home, out);
        }
    }

    /// A shard is to move: its home is forgotten where the stamp is a new one, and the coordinator
    /// is told. A stamp that is older than the last that was taken does nothing.
    #[inline(never)]
    pub(crate) fn begin_hand_off(
        &mut self,
        s: ShardNo,
        stamp: &Stamp,
        coordinator: &Incarnation,
        out: &mut Out,
    )
        requires shard { s < self.old.script.config.shards }
        requires room { length (flat_map item_of (begin_hand_off s stamp.now coordinator.now self.old.state)) ≤ out.old.spare }
        ensures items { out.new.items ≡ out.old.items ++ flat_map item_of (begin_hand_off s stamp.now coordinator.now self.old.state) }
        ensures state { self.new.state ≡ fold region_after self.old.state (begin_hand_off s stamp.now coordinator.now self.old.state) }
        ensures script { self.new.script ≡ self.old.script }
        ensures spare { out.new.spare + length (flat_map item_of (begin_hand_off s stamp.now coordinator.now self.old.state)) ≡ out.old.spare }
    {
        if self.is_old(s, stamp) {
            return;
        }
        if self.is_new(s, stamp) {
            self.mark(s, stamp);
            self.forget(s, out);
        }
        self.post(coordinator, &Body::BeginHandOffAck(s, *stamp), out);
    }
}
