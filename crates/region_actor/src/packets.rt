//! The region's part of a packet.
ghost use Rattle.std.specs.Prelude.{◌≡◌, ℕ, ◌+◌, ◌<◌, ◌≤◌, ◌++◌, length, fold, IsTrue};
ghost use Rattle.std.specs.List.{flat_map};
ghost use Rattle.yard_model.specs.Genuine.{is_genuine_packet};
ghost use Rattle.yard_model.specs.Move.{item_of};
ghost use Rattle.yard_model.specs.Region.{region_after};
ghost use Rattle.region_actor.specs.Handled.{handled, to_do, is_genuine_todo};

use crate::answers::Todo;
use crate::region::Region;
use yard_model::{Body, Out, Packet};

impl Region {
    /// The region's part of a packet: it takes a newer view, notes that it is registered, learns a
    /// home, or forgets one that moves (Akka 2.6, Cluster Sharding concepts). It answers which work
    /// on a shard follows.
    pub fn handle(&mut self, packet: &Packet, out: &mut Out) -> Todo
        requires genuine { IsTrue (is_genuine_packet self.old.script packet.now) }
        requires room { length (flat_map item_of (handled packet.now.from packet.now.body self.old.state)) ≤ out.old.spare }
        ensures items { out.new.items ≡ out.old.items ++ flat_map item_of (handled packet.now.from packet.now.body self.old.state) }
        ensures state { self.new.state ≡ fold region_after self.old.state (handled packet.now.from packet.now.body self.old.state) }
        ensures script { self.new.script ≡ self.old.script }
        ensures spare { out.new.spare + length (flat_map item_of (handled packet.now.from packet.now.body self.old.state)) ≡ out.old.spare }
        ensures todo { result ≡ to_do packet.now.from packet.now.body self.old.state }
        ensures genuine { IsTrue (is_genuine_todo self.old.script result) }
    {
        match &packet.body {
            Body::View { version, members } => {
                if *version > self.version() {
                    self.take_view(*version, members, out);
                }
                Todo::Nothing
            }
            Body::RegisterAck => {
                self.register_with(&packet.from);
                Todo::Nothing
            }
            Body::ShardHome(s, home, stamp) => {
                if !self.takes_home(*s, home, stamp) {
                    return Todo::Nothing;
                }
                self.learn(*s, home, stamp, out);
                if *home == self.who() {
                    return Todo::Start(*s);
                }
                Todo::Nothing
            }
            Body::HostShard(s, stamp) => {
                if !self.takes_host(*s, stamp) {
                    return Todo::Nothing;
                }
                let who = self.who();
                self.learn(*s, &who, stamp, out);
                Todo::Start(*s)
            }
            Body::BeginHandOff(s, stamp) => {
                self.begin_hand_off(*s, stamp, &packet.from, out);
                Todo::Nothing
            }
            Body::HandOff(s, stamp) => {
                if self.takes_hand_off(*s, stamp) {
                    return Todo::HandOff(*s, *stamp, packet.from);
                }
                Todo::Nothing
            }
            _ => Todo::Nothing,
        }
    }
}
