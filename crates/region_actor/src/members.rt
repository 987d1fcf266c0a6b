//! The region and the members of the cluster.
ghost use Rattle.std.specs.Prelude.{◌≡◌, ℕ, ◌+◌, ◌<◌, ◌≤◌, ◌++◌, length, fold};
ghost use Rattle.std.specs.List.{flat_map};
ghost use Rattle.yard_model.specs.Move.{item_of};
ghost use Rattle.yard_model.specs.Region.{region_after, register, forget, forget_lost, take_view};
ghost use Rattle.yard_model.specs.Setting.{shards};

use crate::region::Region;
use yard_model::{Body, Incarnation, Members, Out, ShardNo};

impl Region {
    /// Asks the oldest member to register the region, where it is registered with another or with
    /// none. Nothing happens where there is no view.
    pub fn register(&self, out: &mut Out)
        requires room { length (flat_map item_of (register self.now.state)) ≤ out.old.spare }
        ensures items { out.new.items ≡ out.old.items ++ flat_map item_of (register self.now.state) }
        ensures state { self.now.state ≡ fold region_after self.now.state (register self.now.state) }
        ensures spare { out.new.spare + length (flat_map item_of (register self.now.state)) ≡ out.old.spare }
    {
        if let Some(oldest) = self.oldest() {
            let oldest = &oldest;
            if !self.is_registered_with(oldest) {
                self.post(oldest, &Body::Register, out);
            }
        }
    }

    /// Takes these members as its view, of a version greater than its own, and forgets each home
    /// that isn't among them, shards rising.
    #[inline(never)]
    pub(crate) fn take_view(&mut self, version: u32, members: &Members, out: &mut Out)
        requires newer { self.old.state.version < version }
        requires room { length (flat_map item_of (take_view version members.now self.old.state)) ≤ out.old.spare }
        ensures items { out.new.items ≡ out.old.items ++ flat_map item_of (take_view version members.now self.old.state) }
        ensures state { self.new.state ≡ fold region_after self.old.state (take_view version members.now self.old.state) }
        ensures script { self.new.script ≡ self.old.script }
        ensures spare { out.new.spare + length (flat_map item_of (take_view version members.now self.old.state)) ≡ out.old.spare }
    {
        self.see(version, members, out);
        self.forget_all_lost(out);
    }

    /// Forgets each home that isn't in the view, shards rising.
    fn forget_all_lost(&mut self, out: &mut Out)
        requires room { length (flat_map item_of (flat_map (forget_lost self.old.state.view self.old.state) (shards self.old.state.set))) ≤ out.old.spare }
        ensures items { out.new.items ≡ out.old.items ++ flat_map item_of (flat_map (forget_lost self.old.state.view self.old.state) (shards self.old.state.set)) }
        ensures state { self.new.state ≡ fold region_after self.old.state (flat_map (forget_lost self.old.state.view self.old.state) (shards self.old.state.set)) }
        ensures script { self.new.script ≡ self.old.script }
        ensures spare { out.new.spare + length (flat_map item_of (flat_map (forget_lost self.old.state.view self.old.state) (shards self.old.state.set))) ≡ out.old.spare }
    {
        let shards = self.shards();
        for i in 0..shards {
            match ShardNo::new(i, shards) {
                Some(s) => self.forget_lost(s, out),
                None => unreachable!(),
            }
        }
    }

    /// Forgets the home of a shard where it isn't in the view.
    fn forget_lost(&mut self, s: ShardNo, out: &mut Out)
        requires shard { s < self.old.script.config.shards }
        requires room { length (flat_map item_of (forget_lost self.old.state.view self.old.state s)) ≤ out.old.spare }
        ensures items { out.new.items ≡ out.old.items ++ flat_map item_of (forget_lost self.old.state.view self.old.state s) }
        ensures state { self.new.state ≡ fold region_after self.old.state (forget_lost self.old.state.view self.old.state s) }
        ensures script { self.new.script ≡ self.old.script }
        ensures spare { out.new.spare + length (flat_map item_of (forget_lost self.old.state.view self.old.state s)) ≡ out.old.spare }
    {
        if let Some(home) = self.home(s) {
            if !self.has(&home) {
                self.forget(s, out);
            }
        }
    }

    /// Forgets the home of a shard, if one is known.
    pub(crate) fn forget(&mut self, s: ShardNo, out: &mut Out)
        requires shard { s < self.old.script.config.shards }
        requires room { length (flat_map item_of (forget s self.old.state)) ≤ out.old.spare }
        ensures items { out.new.items ≡ out.old.items ++ flat_map item_of (forget s self.old.state) }
        ensures state { self.new.state ≡ fold region_after self.old.state (forget s self.old.state) }
        ensures script { self.new.script ≡ self.old.script }
        ensures spare { out.new.spare + length (flat_map item_of (forget s self.old.state)) ≡ out.old.spare }
    {
        match self.home(s) {
            Some(_) => self.lose_home(s, out),
            None => {}
        }
    }
}
