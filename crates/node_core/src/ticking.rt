//! The tick: what wasn't answered is done again (that packets are sent again with it is this project's
//! own rule; Akka 2.6, Cluster Sharding concepts, and Reliable Delivery, have a timer for each).
ghost use Rattle.std.specs.Prelude.{◌≡◌, ℕ, ◌+◌, ◌*◌, ◌<◌, ◌≤◌, Bool, true, length, IfSome};
ghost use Rattle.yard_model.specs.declared.incarnation.Slot.{Slot};
ghost use Rattle.yard_model.specs.Genuine.{is_producer};
ghost use Rattle.yard_model.specs.Node as rules;
ghost use Rattle.yard_model.specs.Script.{pairs_in};
ghost use Rattle.node_laws.specs.NodeStands.{IsSoundNode};
ghost use Rattle.shard_entities.specs.Roomy.{room_wanted};
ghost use Rattle.node_core.specs.Again.{TickLaws, Stepped, StartedAgain, NamesSent, ProducersSent, AsksShards, tick_members, tick_shards, start_room, queues, repeated, repeated_at};
ghost use Rattle.node_core.specs.Gave.{Gave, moment, asks_lead};
ghost use Rattle.node_core.specs.Leased.{Rests};
ghost use Rattle.node_core.specs.Releasing.{HasReleaseRoom};
ghost use Rattle.node_core.specs.Standing.{IsReady};

use crate::actors::{Actors, shard_at};
use actor_laws::coordinator::coordinator_begins;
use actor_laws::entities::entities_stand;
use actor_laws::messages::genuine_is_message;
use actor_laws::producer::{producer_is_granted, producer_keeps, producer_routes};
use actor_laws::region::{region_keeps, shards_are_there};
use actor_laws::start::shard_starts;
use behaviour_core::Behaviour;
use shard_lease::Leases;
use yard_model::{Charter, Out, ProducerNo};

impl<B: Behaviour + Drop> Actors<B> {
    /// A tick, whole: Lead; the parts of the coordinator and the region; Start of each shard whose home
    /// is this node and which isn't hosted; the entities' part; and of each queue that is held the first
    /// number to each entity that isn't confirmed, routed again.
    pub(crate) fn tick<L: Leases>(&mut self, charter: &Charter, leases: &mut L, out: &mut Out)
        requires charter { charter.now ≡ self.old.script }
        requires sound { IsSoundNode self.old.script self.old.state }
        requires ready { IsReady self.old out.old.spare }
        requires rests { Rests (L.meaning leases.old) self.old.script self.old.state }
        ensures script { self.new.script ≡ self.old.script }
        ensures gave { (asked : (Slot → Bool)) × Gave self.old.script asked (λ lists. rules.tick lists self.old.state) (moment (L.meaning leases.old) self.old.state out.old.items) (moment (L.meaning leases.new) self.new.state out.new.items) }
    {
        tick_laws();
        self.knows();
        self.tick_members(charter, leases, out);
        self.kept_room();
        self.tick_shards(leases, out);
        self.send_all_again(charter, out);
    }

    /// Lead; the coordinator's part; the region's part.
    fn tick_members<L: Leases>(&mut self, charter: &Charter, leases: &mut L, out: &mut Out)
        requires charter { charter.now ≡ self.old.script }
        requires sound { IsSoundNode self.old.script self.old.state }
        requires rests { Rests (L.meaning leases.old) self.old.script self.old.state }
        requires entries { IfSome self.old.state.coordinator (λ k. 16 ≤ self.old.spare) }
        requires room { 4499 ≤ out.old.spare }
        ensures { Stepped 4499 (asks_lead self.old.state) (λ lists. tick_members lists self.old.state) self.old self.new (L.meaning leases.old) (L.meaning leases.new) out.old out.new }
    {
        tick_laws();
        self.knows();
        self.lead(charter, leases, out);
        self.tick_coordinator(out);
        self.tick_region(out);
    }

    /// Start again of each shard, and then the entities' part.
    fn tick_shards<L: Leases>(&mut self, leases: &mut L, out: &mut Out)
        requires sound { IsSoundNode self.old.script self.old.state }
        requires rests { Rests (L.meaning leases.old) self.old.script self.old.state }
        requires room { start_room 0 self.old.state + 1000 ≤ out.old.spare }
        ensures { (asked : (Slot → Bool)) × (AsksShards asked × Stepped (start_room 0 self.old.state + 1000) asked (λ lists. tick_shards self.old.script lists self.old.state) self.old self.new (L.meaning leases.old) (L.meaning leases.new) out.old out.new) }
    {
        tick_laws();
        self.knows();
        self.start_all_again(leases, out);
        self.tick_entities(out);
    }

    /// Of each shard whose home is this node and which isn't hosted, rising: Start, then Release.
    fn start_all_again<L: Leases>(&mut self, leases: &mut L, out: &mut Out)
        requires sound { IsSoundNode self.old.script self.old.state }
        requires rests { Rests (L.meaning leases.old) self.old.script self.old.state }
        requires room { start_room 0 self.old.state ≤ out.old.spare }
        ensures { StartedAgain self.old.script.config.shards self.old self.new (L.meaning leases.old) (L.meaning leases.new) out.old out.new }
    {
        tick_laws();
        self.knows();
        for s in 0..self.region.shards() {
            self.start_again(shard_at(s), leases, out);
        }
    }

    /// Of each producer, rising, and each entity by name: the first number that isn't confirmed is
    /// routed again.
    fn send_all_again(&mut self, charter: &Charter, out: &mut Out)
        requires charter { charter.now ≡ self.old.script }
        requires sound { IsSoundNode self.old.script self.old.state }
        requires rooms { (t : ℕ) → HasReleaseRoom (room_wanted self.old.script t) self.old t }
        requires room { 4 + 4 * length (pairs_in self.old.script.orders) ≤ out.old.spare }
        ensures { ProducersSent self.old.script.config.producers self.old self.new out.old out.new }
    {
        tick_laws();
        self.knows();
        for p in 0..charter.config().producers {
            self.send_names_again(charter, producer_at(p), out);
        }
    }

    /// Of one producer.
    fn send_names_again(&mut self, charter: &Charter, p: ProducerNo, out: &mut Out)
        requires charter { charter.now ≡ self.old.script }
        requires producer { is_producer self.old.script p ≡ true }
        requires sound { IsSoundNode self.old.script self.old.state }
        requires rooms { (t : ℕ) → HasReleaseRoom (4 + 2 * length (repeated_at (queues self.old.state) self.old.state.set t self.old.state.set.names p)) self.old t }
        requires room { 4 + 4 * length (repeated (queues self.old.state) self.old.state.set.names p) ≤ out.old.spare }
        ensures { NamesSent p self.old.state.set.names self.old self.new out.old out.new }
    {
        tick_laws();
        self.knows();
        let names = charter.names().len();
        let mut at = self.next_waiting(p, 0);
        while at < names {
            self.send_again(p, at, out);
            at = self.next_waiting(p, at + 1);
        }
    }
}

/// The laws of the actors by which each step of a tick keeps what stands of a node. It does nothing.
fn tick_laws()
    ensures { TickLaws }
{
    region_keeps();
    shards_are_there();
    entities_stand();
    genuine_is_message();
    shard_starts();
    coordinator_begins();
    producer_keeps();
    producer_routes();
    producer_is_granted();
}

/// The producer of this place.
fn producer_at(p: u8) -> ProducerNo
    requires { p < 32 }
    ensures { result ≡ p + 1 }
{
    match ProducerNo::new(p + 1) {
        Some(producer) => producer,
        None => unreachable!(),
    }
}
