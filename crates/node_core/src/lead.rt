//! Lead: the oldest of the view takes the coordinator's slot, and the coordinator terminates the
//! regions that are lost (Akka 2.6, Cluster Sharding concepts: the coordinator is a singleton of the
//! oldest node).
ghost use Rattle.std.specs.Prelude.{◌≡◌, ◌+◌, ◌≤◌, true, None, IfSome, MatchOption};
ghost use Rattle.yard_model.specs.Node as rules;
ghost use Rattle.yard_model.specs.Region.{oldest};
ghost use Rattle.yard_model.specs.Words.{is_at};
ghost use Rattle.shard_lease.specs.declared.leases.Acquire.TheVariants as answers;
ghost use Rattle.node_core.specs.Standing.{IsOf};
ghost use Rattle.node_core.specs.Leased.{Rests};
ghost use Rattle.node_core.specs.Taken.{Took, IsGrant, IsGranted};
ghost use Rattle.node_core.specs.Gave.{Gave, moment, take_lead, asks_lead, is_to_lead, office};

use crate::actors::Actors;
use behaviour_core::Behaviour;
use coordinator_actor::Coordinator;
use region_actor::Region;
use shard_lease::{Acquire, Leases};
use shard_store::Store;
use std::alloc::Global;
use yard_model::{Charter, Fact, Incarnation, Item, NodeNo, Out, Slot};

impl<B: Behaviour + Drop> Actors<B> {
    /// Where the node is the oldest of its view and isn't the coordinator, it asks for the
    /// coordinator's slot. Where it is the coordinator now, each registered region that isn't in the
    /// view is terminated.
    pub(crate) fn lead<L: Leases>(&mut self, charter: &Charter, leases: &mut L, out: &mut Out)
        requires charter { charter.now ≡ self.old.script }
        requires rests { Rests (L.meaning leases.old) self.old.script self.old.state }
        requires entries { IfSome self.old.state.coordinator (λ k. 16 ≤ self.old.spare) }
        requires room { 2065 ≤ out.old.spare }
        ensures script { self.new.script ≡ self.old.script }
        ensures gave { Gave self.old.script (asks_lead self.old.state) (λ lists. rules.lead lists self.old.state) (moment (L.meaning leases.old) self.old.state out.old.items) (moment (L.meaning leases.new) self.new.state out.new.items) }
        ensures room { out.old.spare ≤ out.new.spare + 2065 }
        ensures rooms { self.new.rooms ≡ self.old.rooms }
    {
        self.take_lead(charter, leases, out);
        self.knows();
        self.drop_lost(out);
    }

    /// The first part of Lead.
    fn take_lead<L: Leases>(&mut self, charter: &Charter, leases: &mut L, out: &mut Out)
        requires charter { charter.now ≡ self.old.script }
        requires rests { Rests (L.meaning leases.old) self.old.script self.old.state }
        requires entries { IfSome self.old.state.coordinator (λ k. 16 ≤ self.old.spare) }
        requires room { 1 ≤ out.old.spare }
        ensures script { self.new.script ≡ self.old.script }
        ensures entries { IfSome self.new.state.coordinator (λ k. 16 ≤ self.new.spare) }
        ensures gave { Gave self.old.script (asks_lead self.old.state) (λ lists. take_lead lists self.old.state) (moment (L.meaning leases.old) self.old.state out.old.items) (moment (L.meaning leases.new) self.new.state out.new.items) }
        ensures room { out.old.spare ≤ out.new.spare + 1 }
        ensures rooms { self.new.rooms ≡ self.old.rooms }
    {
        if self.is_to_lead() {
            self.take_slot(charter, leases, out);
        }
    }

    /// Whether it is the oldest of its view, and isn't the coordinator.
    fn is_to_lead(&self) -> bool
        ensures { result ≡ is_to_lead self.now.state }
    {
        is_oldest(&self.region) && self.coordinator.is_none()
    }

    /// Asks for the coordinator's slot.
    fn take_slot<L: Leases>(&mut self, charter: &Charter, leases: &mut L, out: &mut Out)
        requires charter { charter.now ≡ self.old.script }
        requires lead { is_to_lead self.old.state ≡ true }
        requires rests { Rests (L.meaning leases.old) self.old.script self.old.state }
        requires room { 1 ≤ out.old.spare }
        ensures script { self.new.script ≡ self.old.script }
        ensures entries { IfSome self.new.state.coordinator (λ k. 16 ≤ self.new.spare) }
        ensures gave { Gave self.old.script office (λ lists. take_lead lists self.old.state) (moment (L.meaning leases.old) self.old.state out.old.items) (moment (L.meaning leases.new) self.new.state out.new.items) }
        ensures room { out.old.spare ≤ out.new.spare + 1 }
        ensures rooms { self.new.rooms ≡ self.old.rooms }
    {
        let who = self.region.who();
        let answer = leases.acquire(who, Slot::Coordinator);
        take(
            self.alloc,
            charter,
            &who,
            answer,
            &mut self.coordinator,
            out,
        );
    }
}

/// Whether the node is the oldest of its view.
fn is_oldest(region: &Region) -> bool
    ensures { result ≡ is_at region.now.state.who (oldest region.now.state) }
{
    match &region.oldest() {
        Some(oldest) => region.who() == *oldest,
        None => false,
    }
}

/// Takes what was answered: the coordinator is there where the slot is granted.
fn take(
    alloc: Global,
    charter: &Charter,
    who: &Incarnation,
    answer: Acquire,
    coordinator: &mut Option<Coordinator>,
    out: &mut Out,
)
    requires none { coordinator.old ≡ None }
    requires granted { IsGrant charter.now who.now answer }
    requires room { 1 ≤ out.old.spare }
    ensures took { Took charter.now who.now answer coordinator.new out.old.items out.new.items }
    ensures parts { IfSome coordinator.new (IsOf charter.now who.now) }
    ensures entries { IfSome coordinator.new (λ k. 16 ≤ k.spare) }
    ensures spare { out.old.spare ≤ out.new.spare + 1 }
{
    match holder_in(&answer) {
        Some(node) => {
            drop(answer);
            out.push(Item::Fact(Fact::Held(Slot::Coordinator, *who, node)));
        }
        None => begin(alloc, charter, who, answer, coordinator, out),
    }
}

/// Who holds the slot, where it isn't granted.
pub(crate) fn holder_in(answer: &Acquire) -> Option<NodeNo>
    ensures { MatchOption result (IsGranted answer.now) (λ node. answer.now ≡ answers.Held node) }
{
    match answer {
        Acquire::Granted(_) => None,
        Acquire::Held(node) => Some(*node),
    }
}

/// The slot is granted: it is told, and the coordinator begins.
fn begin(
    alloc: Global,
    charter: &Charter,
    who: &Incarnation,
    answer: Acquire,
    coordinator: &mut Option<Coordinator>,
    out: &mut Out,
)
    requires none { coordinator.old ≡ None }
    requires is_granted { IsGranted answer }
    requires granted { IsGrant charter.now who.now answer }
    requires room { 1 ≤ out.old.spare }
    ensures took { Took charter.now who.now answer coordinator.new out.old.items out.new.items }
    ensures parts { IfSome coordinator.new (IsOf charter.now who.now) }
    ensures entries { IfSome coordinator.new (λ k. 16 ≤ k.spare) }
    ensures spare { out.old.spare ≤ out.new.spare + 1 }
{
    match answer {
        Acquire::Granted(Store::Coordinator(store)) => {
            out.push(Item::Fact(Fact::Granted(Slot::Coordinator, store.epoch(), *who)));
            *coordinator = Some(Coordinator::new(alloc, *who, charter, store));
        }
        _ => unreachable!(),
    }
}
