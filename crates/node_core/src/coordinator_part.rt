//! The coordinator's steps, where there is a coordinator.
ghost use Rattle.std.specs.Prelude.{◌≡◌, ◌+◌, ◌≤◌, IfSome, IsTrue};
ghost use Rattle.yard_model.specs.Coordinator.{coordinate, rebalance, terminate_lost, tick_coordinator};
ghost use Rattle.yard_model.specs.Genuine.{is_genuine_packet};
ghost use Rattle.yard_model.specs.Node as rules;
ghost use Rattle.node_laws.specs.NodeStands.{IsViewed};
ghost use Rattle.node_core.specs.Standing.{AreSeen, IsReady};
ghost use Rattle.node_core.specs.Went.{Went, CoordinatorWent};

use crate::actors::Actors;
use behaviour_core::Behaviour;
use coordinator_actor::Coordinator;
use coordinator_actor::laws::{lost_room, same_law};
use region_actor::Region;
use yard_model::{Out, Packet};

impl<B: Behaviour + Drop> Actors<B> {
    /// The coordinator's part of a packet.
    pub(crate) fn coordinate(&mut self, packet: &Packet, out: &mut Out)
        requires genuine { IsTrue (is_genuine_packet self.old.script packet.now) }
        requires viewed { IsViewed self.old.state }
        requires ready { IsReady self.old out.old.spare }
        ensures { Went self.old self.new out.old out.new (rules.of_coordinator (coordinate packet.now.from packet.now.body self.old.state.region.view) self.old.state) }
    {
        coordinate(&self.region, &mut self.coordinator, packet, out);
    }

    /// A round of handoffs begins, of so many shards at most (Akka 2.6, Cluster Sharding: rebalancing).
    pub(crate) fn rebalance(&mut self, limit: u8, out: &mut Out)
        requires ready { IsReady self.old out.old.spare }
        ensures { Went self.old self.new out.old out.new (rules.of_coordinator (rebalance limit) self.old.state) }
    {
        rebalance(&mut self.coordinator, limit, out);
    }

    /// The coordinator's part of a tick.
    pub(crate) fn tick_coordinator(&mut self, out: &mut Out)
        requires room { 2304 ≤ out.old.spare }
        ensures went { Went self.old self.new out.old out.new (rules.of_coordinator tick_coordinator self.old.state) }
        ensures room { out.old.spare ≤ out.new.spare + 2304 }
    {
        tick_coordinator(&mut self.coordinator, out);
    }

    /// The regions that are lost are terminated: each registered one that isn't in the view.
    pub(crate) fn drop_lost(&mut self, out: &mut Out)
        requires entries { IfSome self.old.state.coordinator (λ k. 16 ≤ self.old.spare) }
        requires room { 2064 ≤ out.old.spare }
        ensures went { Went self.old self.new out.old out.new (rules.of_coordinator (terminate_lost self.old.state.region.view) self.old.state) }
        ensures room { out.old.spare ≤ out.new.spare + 2064 }
    {
        drop_lost(&self.region, &mut self.coordinator, out);
    }
}

/// Its part of a packet, where it is there.
fn coordinate(
    region: &Region,
    coordinator: &mut Option<Coordinator>,
    packet: &Packet,
    out: &mut Out,
)
    requires genuine { IfSome coordinator.old (λ k. IsTrue (is_genuine_packet k.script packet.now)) }
    requires seen { AreSeen region.now.state.view coordinator.old }
    requires entries { IfSome coordinator.old (λ k. 2 ≤ k.spare) }
    requires places { IfSome coordinator.old (λ k. 1 ≤ k.places) }
    requires room { 2500 ≤ out.old.spare }
    ensures { CoordinatorWent (coordinate packet.now.from packet.now.body region.now.state.view) coordinator.old coordinator.new out.old out.new }
{
    same_law();
    if let Some(coordinator) = coordinator {
        coordinator.room();
        coordinator.who();
        coordinator.handle(packet, region.view(), out);
    }
}

/// A round of handoffs begins, where it is there.
fn rebalance(coordinator: &mut Option<Coordinator>, limit: u8, out: &mut Out)
    requires room { 2500 ≤ out.old.spare }
    ensures { CoordinatorWent (rebalance limit) coordinator.old coordinator.new out.old out.new }
{
    same_law();
    if let Some(coordinator) = coordinator {
        coordinator.room();
        coordinator.who();
        coordinator.rebalance(limit, out);
    }
}

/// It terminates the regions that are lost, where it is there.
fn drop_lost(region: &Region, coordinator: &mut Option<Coordinator>, out: &mut Out)
    requires entries { IfSome coordinator.old (λ k. 16 ≤ k.spare) }
    requires room { 2064 ≤ out.old.spare }
    ensures went { CoordinatorWent (terminate_lost region.now.state.view) coordinator.old coordinator.new out.old out.new }
    ensures room { out.old.spare ≤ out.new.spare + 2064 }
{
    lost_room();
    same_law();
    if let Some(coordinator) = coordinator {
        coordinator.room();
        coordinator.who();
        coordinator.view_taken(region.view(), out);
    }
}

/// Its part of a tick, where it is there.
fn tick_coordinator(coordinator: &mut Option<Coordinator>, out: &mut Out)
    requires room { 2304 ≤ out.old.spare }
    ensures went { CoordinatorWent tick_coordinator coordinator.old coordinator.new out.old out.new }
    ensures room { out.old.spare ≤ out.new.spare + 2304 }
{
    same_law();
    if let Some(coordinator) = coordinator {
        coordinator.room();
        coordinator.who();
        coordinator.tick(out);
    }
}
