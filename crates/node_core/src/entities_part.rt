//! The entities' steps.
ghost use Rattle.std.specs.Prelude.{◌≡◌, ℕ, ◌+◌, ◌≤◌, None, true, IfSome, MatchOption, if◌then◌else◌};
ghost use Rattle.yard_model.specs.declared.input.Phase.TheVariants as phase;
ghost use Rattle.yard_model.specs.Entities.{hosted, is_in_phase, deliver, recovered, ask_to_passivate, arm, passivate, hand_off, stop, tick_entities};
ghost use Rattle.yard_model.specs.Genuine.{is_brought, is_genuine, is_shard};
ghost use Rattle.yard_model.specs.Node as rules;
ghost use Rattle.yard_model.specs.Setting.{shard_of};
ghost use Rattle.node_laws.specs.NodeStands.{IsSoundNode};
ghost use Rattle.shard_entities.specs.Placed.{IsPlace};
ghost use Rattle.node_core.specs.Found.{none};
ghost use Rattle.node_core.specs.Gave.{Gave, moment};
ghost use Rattle.node_core.specs.Leased.{Rests, MayGiveBack, GaveBack};
ghost use Rattle.node_core.specs.Releasing.{TookRoom, HasReleaseRoom};
ghost use Rattle.node_core.specs.Standing.{IsReady, IsHostedWith};
ghost use Rattle.node_core.specs.Went.{Went};

use crate::actors::Actors;
use actor_laws::messages::genuine_is_message;
use actor_laws::region::shards_are_there;
use behaviour_core::Behaviour;
use shard_entities::{Place, Stopped};
use shard_lease::Leases;
use shard_store::{ShardStore, Store};
use yard_model::{Cause, EntityName, Incarnation, Keep, Message, Out, ShardNo, Slot, Stamp};

impl<B: Behaviour + Drop> Actors<B> {
    /// A message is delivered to its entity, which stands at this place, and whose shard is running here.
    pub(crate) fn deliver(&mut self, place: &Place, message: &Message, out: &mut Out)
        requires place { IsPlace self.old.script place.now }
        requires entity { message.now.entity ≡ place.now.entity }
        requires genuine { is_genuine self.old.script message.now ≡ true }
        requires there { IsHostedWith 2 self.old (shard_of self.old.state.set message.now.entity) }
        requires room { 4 ≤ out.old.spare }
        ensures went { Went self.old self.new out.old out.new (rules.of_entities (deliver message.now) self.old.state) }
        ensures taken { TookRoom (shard_of self.old.state.set message.now.entity) (if is_in_phase phase.Active self.old.state.entities message.now.entity then 2 else 0) self.old self.new }
        ensures pending { self.new.pending ≡ self.old.pending }
    {
        genuine_is_message();
        self.entities
            .deliver_at(place, message, &self.behaviour, out);
    }

    /// An entity has its journal (Akka 2.6, Event Sourcing: recovery).
    pub(crate) fn recovered(&mut self, entity: &EntityName, out: &mut Out)
        requires name { is_brought self.old.script entity.now ≡ true }
        requires ready { IsReady self.old out.old.spare }
        ensures { Went self.old self.new out.old out.new (rules.of_entities (recovered entity.now) self.old.state) }
    {
        self.entities.recovered(entity, &self.behaviour, out);
    }

    /// An entity asks for its stop (Akka 2.6, Cluster Sharding: passivation).
    pub(crate) fn passivate(&mut self, entity: &EntityName, out: &mut Out)
        requires name { is_brought self.old.script entity.now ≡ true }
        requires room { 1 ≤ out.old.spare }
        ensures { Went self.old self.new out.old out.new (rules.of_entities (passivate entity.now) self.old.state) }
    {
        self.entities.passivate(entity, out);
    }

    /// The entities' part of a tick: each that recovers or stops is reminded.
    pub(crate) fn tick_entities(&mut self, out: &mut Out)
        requires room { 1000 ≤ out.old.spare }
        ensures went { Went self.old self.new out.old out.new (rules.of_entities tick_entities self.old.state) }
        ensures room { out.old.spare ≤ out.new.spare + 1000 }
        ensures rooms { (t n : ℕ) → HasReleaseRoom n self.old t → HasReleaseRoom n self.new t }
    {
        self.knows();
        self.entities.tick(out);
    }

    /// The next write of an entity that takes commands is to fail, and so.
    pub(crate) fn arm(&mut self, entity: &EntityName, keep: Keep, out: &mut Out)
        requires name { is_brought self.old.script entity.now ≡ true }
        requires room { 1 ≤ out.old.spare }
        ensures { Went self.old self.new out.old out.new (rules.of_entities (arm entity.now keep) self.old.state) }
    {
        self.entities.arm(entity, keep, out);
    }

    /// An entity that takes commands is to ask for its stop.
    pub(crate) fn ask_to_passivate(&mut self, entity: &EntityName, out: &mut Out)
        requires name { is_brought self.old.script entity.now ≡ true }
        requires room { 1 ≤ out.old.spare }
        ensures { Went self.old self.new out.old out.new (rules.of_entities (ask_to_passivate entity.now) self.old.state) }
    {
        self.entities.ask_to_passivate(entity, out);
    }

    /// An entity that is told to stop has stopped; after the last one its shard is let go.
    pub(crate) fn stop<L: Leases>(&mut self, entity: &EntityName, leases: &mut L, out: &mut Out)
        requires name { is_brought self.old.script entity.now ≡ true }
        requires sound { IsSoundNode self.old.script self.old.state }
        requires ready { IsReady self.old out.old.spare }
        requires rests { Rests (L.meaning leases.old) self.old.script self.old.state }
        ensures script { self.new.script ≡ self.old.script }
        ensures gave { Gave self.old.script none (λ lists. rules.of_entities (stop entity.now) self.old.state) (moment (L.meaning leases.old) self.old.state out.old.items) (moment (L.meaning leases.new) self.new.state out.new.items) }
    {
        shards_are_there();
        let stopped = self.entities.stop(entity, out);
        give_back_stopped(self.region.who(), stopped, leases);
    }

    /// A hosted shard is handed off (Akka 2.6, Cluster Sharding: rebalancing): its entities are told
    /// to stop; where it has none it is let go.
    pub(crate) fn hand_off_hosted<L: Leases>(
        &mut self,
        s: ShardNo,
        stamp: Stamp,
        to: Incarnation,
        leases: &mut L,
        out: &mut Out,
    )
        requires shard { is_shard self.old.script s ≡ true }
        requires there { hosted self.old.state.entities s ≡ None → ⊥ }
        requires ready { IsReady self.old out.old.spare }
        requires rests { Rests (L.meaning leases.old) self.old.script self.old.state }
        ensures script { self.new.script ≡ self.old.script }
        ensures gave { Gave self.old.script none (λ lists. rules.of_entities (hand_off s stamp to) self.old.state) (moment (L.meaning leases.old) self.old.state out.old.items) (moment (L.meaning leases.new) self.new.state out.new.items) }
    {
        let store = self.entities.hand_off(s, stamp, to, out);
        give_back_store(self.region.who(), s, store, leases);
    }
}

/// A shard that is let go is given back, if it is.
fn give_back_store<L: Leases>(
    who: Incarnation,
    s: ShardNo,
    store: Option<ShardStore>,
    leases: &mut L,
)
    requires { IfSome store (MayGiveBack (L.meaning leases.old) who s) }
    ensures { MatchOption store (L.meaning leases.new ≡ L.meaning leases.old) (λ x. GaveBack (L.meaning leases.old) who s x.entries (L.meaning leases.new)) }
{
    if let Some(store) = store {
        give_back(who, s, store, leases);
    }
}

/// The shard of an entity that was the last to stop is given back, if it is.
fn give_back_stopped<L: Leases>(who: Incarnation, stopped: Option<Stopped>, leases: &mut L)
    requires { IfSome stopped (λ x. MayGiveBack (L.meaning leases.old) who x.shard x.store) }
    ensures { MatchOption stopped (L.meaning leases.new ≡ L.meaning leases.old) (λ x. GaveBack (L.meaning leases.old) who x.shard x.store.entries (L.meaning leases.new)) }
{
    if let Some(stopped) = stopped {
        give_back(who, stopped.shard, stopped.store, leases);
    }
}

/// A shard that was handed off is given back.
fn give_back<L: Leases>(who: Incarnation, s: ShardNo, store: ShardStore, leases: &mut L)
    requires { MayGiveBack (L.meaning leases.old) who s store }
    ensures { GaveBack (L.meaning leases.old) who s store.entries (L.meaning leases.new) }
{
    leases.release(who, Slot::Shard(s), Store::Shard(store), Cause::Released);
}
