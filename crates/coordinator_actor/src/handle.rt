//! The coordinator's part of a packet.
ghost use Rattle.std.specs.Prelude.{◌≡◌, ℕ, ◌+◌, ◌<◌, ◌≤◌, ◌++◌, length, fold, false, IsTrue};
ghost use Rattle.std.specs.List.{flat_map};
ghost use Rattle.yard_model.specs.Coordinator.{coordinate, coordinator_after};
ghost use Rattle.yard_model.specs.Genuine.{is_genuine_packet};
ghost use Rattle.yard_model.specs.Move.{item_of};
ghost use Rattle.coordinator_actor.specs.Held.{are_viewed};
ghost use Rattle.coordinator_actor.specs.Homes.{is_stop_of, KeepsHome};

use crate::coordinator::Coordinator;
use membership_view::View;
use yard_model::{Body, Out, Packet};

impl Coordinator {
    /// The coordinator's part of a packet: a region registers, asks for a home, has started or
    /// stopped a shard, acknowledges that one moves, or leaves (Akka 2.6, Cluster Sharding
    /// concepts). Other packets are nothing to it. A shard keeps its home, unless the packet is its
    /// ShardStopped and matches the open round.
    #[tactic(auto, using(crate::proofs::KeepLaws::handled))]
    pub fn handle(&mut self, packet: &Packet, view: &View, out: &mut Out)
        requires genuine { IsTrue (is_genuine_packet self.old.script packet.now) }
        requires viewed { IsTrue (are_viewed view.now.members self.old.state.entries) }
        requires store { 2 ≤ self.old.spare }
        requires place { 1 ≤ self.old.places }
        requires room { length (flat_map item_of (coordinate packet.now.from packet.now.body view.now.members self.old.state)) ≤ out.old.spare }
        ensures items { out.new.items ≡ out.old.items ++ flat_map item_of (coordinate packet.now.from packet.now.body view.now.members self.old.state) }
        ensures state { self.new.state ≡ fold coordinator_after self.old.state (coordinate packet.now.from packet.now.body view.now.members self.old.state) }
        ensures script { self.new.script ≡ self.old.script }
        ensures viewed { IsTrue (are_viewed view.now.members self.new.state.entries) }
        ensures spare { out.new.spare + length (flat_map item_of (coordinate packet.now.from packet.now.body view.now.members self.old.state)) ≡ out.old.spare }
        ensures entries { length self.new.state.entries + self.new.spare ≡ length self.old.state.entries + self.old.spare }
        ensures least { self.old.spare ≤ self.new.spare + 2 }
        ensures places { self.old.places ≤ self.new.places + 1 }
        ensures homes { (s : ℕ) → is_stop_of s packet.now.from packet.now.body self.old.state ≡ false → KeepsHome s self.old.state self.new.state }
    {
        let from = &packet.from;
        match &packet.body {
            Body::Register => self.register_from(from, view, out),
            Body::GetShardHome(s) => self.get_home(from, *s, out),
            Body::ShardStarted(s) => self.shard_started(from, *s),
            Body::GracefulShutdownReq => self.quit(from, out),
            Body::BeginHandOffAck(s, stamp) => self.acknowledge(from, *s, stamp, out),
            Body::ShardStopped(s, stamp) => self.shard_stopped(from, *s, stamp, out),
            _ => {}
        }
    }
}
