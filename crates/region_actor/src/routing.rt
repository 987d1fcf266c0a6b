//! The region and the messages on their way.
ghost use Rattle.std.specs.Prelude.{◌≡◌, ℕ, ◌+◌, ◌<◌, ◌≤◌, ◌++◌, length, fold, IsTrue};
ghost use Rattle.std.specs.List.{flat_map};
ghost use Rattle.yard_model.specs.declared.packet.Body.TheVariants as body;
ghost use Rattle.yard_model.specs.Genuine.{is_genuine};
ghost use Rattle.yard_model.specs.Move.{item_of};
ghost use Rattle.yard_model.specs.Region.{region_after, ask, post_oldest, route_away};
ghost use Rattle.yard_model.specs.Setting.{shard_of};
ghost use Rattle.yard_model.specs.ShardSet.{has};
ghost use Rattle.region_actor.specs.Handled.{routed, route_of, IfLocal};

use crate::answers::Route;
use crate::region::Region;
use yard_model::{Body, Message, Out, ShardNo, ShardSet};

impl Region {
    /// Routes a message (Akka 2.6, Cluster Sharding concepts). Where the home of its shard is this
    /// node and the shard is in `running`, it comes back as `Local` and nothing changes. Else it is
    /// sent to the shard's home where that is another node, and is kept where not, or dropped where
    /// the buffer is full; and the oldest member is asked for a home that isn't known, once.
    pub fn route(&mut self, message: Message, running: ShardSet, out: &mut Out) -> Route
        requires genuine { IsTrue (is_genuine self.old.script message) }
        requires room { length (flat_map item_of (routed message (has running (shard_of self.old.state.set message.entity)) self.old.state)) ≤ out.old.spare }
        ensures items { out.new.items ≡ out.old.items ++ flat_map item_of (routed message (has running (shard_of self.old.state.set message.entity)) self.old.state) }
        ensures state { self.new.state ≡ fold region_after self.old.state (routed message (has running (shard_of self.old.state.set message.entity)) self.old.state) }
        ensures script { self.new.script ≡ self.old.script }
        ensures spare { out.new.spare + length (flat_map item_of (routed message (has running (shard_of self.old.state.set message.entity)) self.old.state)) ≡ out.old.spare }
        ensures route { result ≡ route_of message (has running (shard_of self.old.state.set message.entity)) self.old.state }
        ensures message { IfLocal result (λ m. m ≡ message) }
    {
        let message = &message;
        let s = self.shard_of(message);
        if self.is_home(s) && running.has(s) {
            return Route::Local(*message);
        }
        self.route_away(s, message, out);
        Route::Gone
    }

    /// Routes a message of this shard that isn't delivered here: it is sent to the shard's home where
    /// that is another node, and is kept where not, or dropped where the buffer is full; and the oldest
    /// member is asked for a home that isn't known, once.
    pub fn route_away(&mut self, s: ShardNo, message: &Message, out: &mut Out)
        requires shard { s ≡ shard_of self.old.state.set message.now.entity }
        requires range { s < self.old.script.config.shards }
        requires genuine { IsTrue (is_genuine self.old.script message.now) }
        requires room { length (flat_map item_of (route_away message.now self.old.state)) ≤ out.old.spare }
        ensures items { out.new.items ≡ out.old.items ++ flat_map item_of (route_away message.now self.old.state) }
        ensures state { self.new.state ≡ fold region_after self.old.state (route_away message.now self.old.state) }
        ensures script { self.new.script ≡ self.old.script }
        ensures spare { out.new.spare + length (flat_map item_of (route_away message.now self.old.state)) ≡ out.old.spare }
    {
        match self.home(s) {
            Some(home) => {
                let home = &home;
                if *home == self.who() {
                    self.keep(s, message, out);
                } else {
                    self.post_message(home, message, out);
                }
            }
            None => {
                self.keep(s, message, out);
                self.ask(s, out);
            }
        }
    }

    /// Asks the oldest member for the home of a shard, where it wasn't asked yet.
    fn ask(&mut self, s: ShardNo, out: &mut Out)
        requires shard { s < self.old.script.config.shards }
        requires room { length (flat_map item_of (ask s self.old.state)) ≤ out.old.spare }
        ensures items { out.new.items ≡ out.old.items ++ flat_map item_of (ask s self.old.state) }
        ensures state { self.new.state ≡ fold region_after self.old.state (ask s self.old.state) }
        ensures script { self.new.script ≡ self.old.script }
        ensures spare { out.new.spare + length (flat_map item_of (ask s self.old.state)) ≡ out.old.spare }
    {
        if !self.is_asked(s) {
            self.ask_oldest(s, out);
        }
    }

    /// Asks the oldest member for the home of a shard.
    pub(crate) fn ask_oldest(&mut self, s: ShardNo, out: &mut Out)
        requires shard { s < self.old.script.config.shards }
        requires room { length (flat_map item_of (post_oldest (body.GetShardHome s) self.old.state)) ≤ out.old.spare }
        ensures items { out.new.items ≡ out.old.items ++ flat_map item_of (post_oldest (body.GetShardHome s) self.old.state) }
        ensures state { self.new.state ≡ fold region_after self.old.state (post_oldest (body.GetShardHome s) self.old.state) }
        ensures script { self.new.script ≡ self.old.script }
        ensures spare { out.new.spare + length (flat_map item_of (post_oldest (body.GetShardHome s) self.old.state)) ≡ out.old.spare }
    {
        match self.oldest() {
            Some(oldest) => self.ask_member(s, &oldest, out),
            None => {}
        }
    }
}
