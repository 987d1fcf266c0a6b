//! The region's timer, and its leaving.
ghost use Rattle.std.specs.Prelude.{◌≡◌, ℕ, ◌+◌, ◌<◌, ◌≤◌, ◌++◌, ◌&&◌, [], length, fold, if◌then◌else◌};
ghost use Rattle.std.specs.List.{flat_map};
ghost use Rattle.yard_model.specs.declared.packet.Body.TheVariants as body;
ghost use Rattle.yard_model.specs.Move.{item_of};
ghost use Rattle.yard_model.specs.Region.{region_after, post_oldest, leave, ask_again, tick_region};
ghost use Rattle.yard_model.specs.Setting.{shards};
ghost use Rattle.region_actor.specs.Handled.{ask_to_leave};

use crate::region::Region;
use yard_model::{Body, Out, ShardNo};

impl Region {
    /// The node leaves: the oldest member is asked to move its shards away (Akka 2.6, Cluster
    /// Sharding concepts: graceful shutdown).
    pub fn leave(&mut self, out: &mut Out)
        requires room { length (flat_map item_of (leave self.old.state)) ≤ out.old.spare }
        ensures items { out.new.items ≡ out.old.items ++ flat_map item_of (leave self.old.state) }
        ensures state { self.new.state ≡ fold region_after self.old.state (leave self.old.state) }
        ensures script { self.new.script ≡ self.old.script }
        ensures spare { out.new.spare + length (flat_map item_of (leave self.old.state)) ≡ out.old.spare }
    {
        self.set_leaving();
        self.ask_shutdown(out);
    }

    /// The region's part of the node's timer: what was asked of the oldest member and isn't answered
    /// is asked again. Those are to be registered, to have its shards moved away where it leaves, and
    /// the home of each shard of which messages are kept, shards rising.
    pub fn tick(&mut self, out: &mut Out)
        requires room { length (flat_map item_of (tick_region self.old.state)) ≤ out.old.spare }
        ensures items { out.new.items ≡ out.old.items ++ flat_map item_of (tick_region self.old.state) }
        ensures state { self.new.state ≡ fold region_after self.old.state (tick_region self.old.state) }
        ensures script { self.new.script ≡ self.old.script }
        ensures spare { out.new.spare + length (flat_map item_of (tick_region self.old.state)) ≡ out.old.spare }
    {
        self.register(out);
        self.ask_to_leave(out);
        self.ask_all_again(out);
    }

    /// Asks again for its shards to be moved away, where it leaves and some are here.
    fn ask_to_leave(&self, out: &mut Out)
        requires room { length (flat_map item_of (ask_to_leave self.now.state)) ≤ out.old.spare }
        ensures items { out.new.items ≡ out.old.items ++ flat_map item_of (ask_to_leave self.now.state) }
        ensures state { self.now.state ≡ fold region_after self.now.state (ask_to_leave self.now.state) }
        ensures spare { out.new.spare + length (flat_map item_of (ask_to_leave self.now.state)) ≡ out.old.spare }
    {
        if self.is_leaving() && self.is_some_home() {
            self.ask_shutdown(out);
        }
    }

    /// Asks the oldest member to move the shards away.
    #[inline(never)]
    fn ask_shutdown(&self, out: &mut Out)
        requires room { length (flat_map item_of (post_oldest body.GracefulShutdownReq self.now.state)) ≤ out.old.spare }
        ensures items { out.new.items ≡ out.old.items ++ flat_map item_of (post_oldest body.GracefulShutdownReq self.now.state) }
        ensures state { self.now.state ≡ fold region_after self.now.state (post_oldest body.GracefulShutdownReq self.now.state) }
        ensures spare { out.new.spare + length (flat_map item_of (post_oldest body.GracefulShutdownReq self.now.state)) ≡ out.old.spare }
    {
        match self.oldest() {
            Some(oldest) => self.post(&oldest, &Body::GracefulShutdownReq, out),
            None => {}
        }
    }

    /// Asks again for each home that messages wait for, shards rising.
    fn ask_all_again(&mut self, out: &mut Out)
        requires room { length (flat_map item_of (flat_map (ask_again self.old.state) (shards self.old.state.set))) ≤ out.old.spare }
        ensures items { out.new.items ≡ out.old.items ++ flat_map item_of (flat_map (ask_again self.old.state) (shards self.old.state.set)) }
        ensures state { self.new.state ≡ fold region_after self.old.state (flat_map (ask_again self.old.state) (shards self.old.state.set)) }
        ensures script { self.new.script ≡ self.old.script }
        ensures spare { out.new.spare + length (flat_map item_of (flat_map (ask_again self.old.state) (shards self.old.state.set))) ≡ out.old.spare }
    {
        if self.keeps_none() {
            return;
        }
        self.ask_each_again(out);
    }

    /// The same, of each shard.
    #[inline(never)]
    fn ask_each_again(&mut self, out: &mut Out)
        requires room { length (flat_map item_of (flat_map (ask_again self.old.state) (shards self.old.state.set))) ≤ out.old.spare }
        ensures items { out.new.items ≡ out.old.items ++ flat_map item_of (flat_map (ask_again self.old.state) (shards self.old.state.set)) }
        ensures state { self.new.state ≡ fold region_after self.old.state (flat_map (ask_again self.old.state) (shards self.old.state.set)) }
        ensures script { self.new.script ≡ self.old.script }
        ensures spare { out.new.spare + length (flat_map item_of (flat_map (ask_again self.old.state) (shards self.old.state.set))) ≡ out.old.spare }
    {
        let shards = self.shards();
        for i in 0..shards {
            match ShardNo::new(i, shards) {
                Some(s) => self.ask_again(s, out),
                None => unreachable!(),
            }
        }
    }

    /// Asks again for the home of a shard, where messages wait for it.
    fn ask_again(&mut self, s: ShardNo, out: &mut Out)
        requires shard { s < self.old.script.config.shards }
        requires room { length (flat_map item_of (ask_again self.old.state s)) ≤ out.old.spare }
        ensures items { out.new.items ≡ out.old.items ++ flat_map item_of (ask_again self.old.state s) }
        ensures state { self.new.state ≡ fold region_after self.old.state (ask_again self.old.state s) }
        ensures script { self.new.script ≡ self.old.script }
        ensures spare { out.new.spare + length (flat_map item_of (ask_again self.old.state s)) ≡ out.old.spare }
    {
        match self.home(s) {
            Some(_) => {}
            None => {
                if self.is_waiting(s) {
                    self.ask_oldest(s, out);
                }
            }
        }
    }
}
