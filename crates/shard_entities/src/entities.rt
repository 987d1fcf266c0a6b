//! The entities of a node, by name.
ghost use Rattle.std.specs.Prelude.{◌≡◌, ℕ, ◌+◌, ◌*◌, ◌<◌, ◌≤◌, List, [], ◌∷◌, ◌++◌, length, map, replicate, true, false, None, Some, IfOk, IfSome, OnOk, if◌then◌else◌, MatchOption, IsTrue, slice_index_or};
ghost use Rattle.std.specs.List.{list_any};
ghost use Rattle.yard_model.specs.declared.fact.Fact.TheVariants as fact;
ghost use Rattle.yard_model.specs.declared.input.Phase.TheVariants as phase;
ghost use Rattle.yard_model.specs.declared.packet.Body.TheVariants as body;
ghost use Rattle.yard_model.specs.Entities.{new_entities, hosted, is_hosted, is_running, is_in_phase, deliver, recovered, ask_to_passivate, arm, passivate, start_remembered, hand_off, stop, forget_passivated, drop_stash, entities_of, tick_entities};
ghost use Rattle.yard_model.specs.Genuine.{is_brought, is_genuine, is_producer};
ghost use Rattle.yard_model.specs.Move.{told, post, handed_off};
ghost use Rattle.yard_model.specs.Script.{setting, is_version};
ghost use Rattle.yard_model.specs.Setting.{shard_of, names_of};
ghost use Rattle.yard_model.specs.ShardSet.{has};
ghost use Rattle.yard_model.specs.SlotReads.{holder};
ghost use Rattle.shard_store.specs.Shelved.{name_at};
ghost use Rattle.shard_entities.specs.Delivered.{Stands};
ghost use Rattle.shard_entities.specs.Lodged.{IsStore, HasRoom, RoomIfHosted, moved, given, hosting, without};
ghost use Rattle.shard_entities.specs.Placed.{IsPlace};
ghost use Rattle.shard_entities.specs.Roomy.{AreMore, IsRoomy, Takes, room_wanted};
ghost use Rattle.shard_entities.specs.Settled.{IsSettled, IsStopped, IsFreed, frees};

use crate::handoff::Stopped;
use crate::place::Place;
use crate::places::Places;
use crate::shards::Shards;
use behaviour_core::Behaviour;
use consumer_ctl::Stash;
use shard_store::ShardStore;
use std::alloc::{AllocError, Global};
use std::marker::Model;
use yard_model::{Charter, EntityName, Incarnation, Keep, Message, Out, ShardNo, ShardSet, Stamp};

/// The entities of a node (Akka 2.6, Cluster Sharding: shards, passivation, remembering entities;
/// Event Sourcing: recovery and snapshots; Reliable Delivery: the consumer's side).
///
/// Contracts see them as the definition's state and the room of each store; what a call makes of them,
/// and what it appends, is one equation each: the definition's moves, folded. An entity exists only in
/// a shard that is hosted, and only while it recovers or stops is something stashed for it.
#[derive(Drop)]
pub struct Entities {
    shards: Shards,
    pending: Stash,
}

impl Model for Entities {
    ghost use Rattle.std.specs.Prelude.{◌≡◌, []};
    ghost use Rattle.shard_entities.specs.Lodged.{Lodged};
    ghost use Rattle.shard_entities.specs.Settled.{IsSettled, IsIdle};

    ghost Value = { Lodged };

    ghost view = { λ e. e.shards };

    ghost invariant = { λ e. IsIdle e.shards e.pending };
}

impl Entities {
    /// The entities of a node that comes up with behaviours of this version, which the script admits:
    /// it hosts no shard, and none was started; the places of the script's names are shared with it. The
    /// only error is want of memory.
    pub fn new(
        alloc: Global,
        who: Incarnation,
        version: u8,
        charter: &Charter,
        places: &Places,
    ) -> Result<Entities, AllocError>
        requires version { is_version charter.now version ≡ true }
        requires places { places.now ≡ charter.now }
        ensures { IfOk result (λ e. e ≡ record { script = charter.now; state = new_entities (setting charter.now) version who; rooms = replicate charter.now.config.shards 0 }) }
    {
        let pending = Stash::new(alloc, charter.config().window)?;
        let shards = Shards::new(alloc, who, version, charter, places)?;
        Ok(Entities { shards, pending })
    }

    /// Whose they are.
    pub fn who(&self) -> Incarnation
        ensures { result ≡ self.now.state.who }
    {
        self.shards.who()
    }

    /// What stands of any entities between their calls. It does nothing.
    pub fn stands(&self)
        ensures stands { Stands self.now }
        ensures settled { IsSettled self.now }
    {
        self.shards.knows();
    }

    /// The shards that are hosted and aren't being handed off.
    pub fn running(&self) -> ShardSet
        ensures { (s : ℕ) → s < self.now.script.config.shards → has result s ≡ is_running self.now.state s }
    {
        self.shards.running()
    }

    /// The shards that are hosted.
    pub fn hosted(&self) -> ShardSet
        ensures { (s : ℕ) → s < self.now.script.config.shards → has result s ≡ is_hosted self.now.state s }
    {
        self.shards.hosted()
    }

    /// Where a name stands: looked for once, and then handed to each call that is about its entity.
    pub fn place(&self, entity: &EntityName) -> Place
        requires name { is_brought self.now.script entity.now ≡ true }
        ensures place { IsPlace self.now.script result }
        ensures entity { result.entity ≡ entity.now }
    {
        self.shards.find(entity)
    }

    /// Where the name stands that has this place among all names of the script, from 0; no name is
    /// looked for.
    pub fn place_at(&self, at: usize) -> Place
        requires within { at < length (setting self.now.script).names }
        ensures place { IsPlace self.now.script result }
        ensures entity { result.entity ≡ name_at (setting self.now.script).names at }
    {
        self.shards.place_at(at)
    }

    /// Whether an entity takes commands.
    pub fn is_active(&self, entity: &EntityName) -> bool
        requires name { is_brought self.now.script entity.now ≡ true }
        ensures { result ≡ is_in_phase phase.Active self.now.state entity.now }
    {
        self.shards.is_active(&self.shards.find(entity))
    }

    /// The store of a shard; None exactly where it isn't hosted.
    pub fn store(&self, s: ShardNo) -> Option<&ShardStore>
        requires shard { s < self.now.script.config.shards }
        ensures { MatchOption result (hosted self.now.state s ≡ None) (λ x. IsStore self.now s x.now) }
    {
        self.shards.store(s)
    }

    /// Makes room in the store of each hosted shard for all that a turn may write there. The only
    /// error is want of memory; then nothing else changes.
    #[inline(always)]
    pub fn reserve(&mut self) -> Result<(), AllocError>
        ensures state { self.new ≡ record self.old { rooms = self.new.rooms } }
        ensures more { AreMore self.old.rooms self.new.rooms }
        ensures ok { OnOk result ((s : ℕ) → (hosted self.old.state s ≡ None → ⊥) → room_wanted self.old.script s ≤ slice_index_or self.new.rooms s 0) }
        ensures roomy { OnOk result ((s : ℕ) → (hosted self.old.state s ≡ None → ⊥) → IsRoomy self.new s) }
    {
        self.shards.reserve()
    }

    /// A shard starts, with its store, which is leased to this node; each entity that is remembered
    /// starts with it, where the script says so.
    pub fn start(&mut self, s: ShardNo, store: ShardStore, out: &mut Out)
        requires shard { s < self.old.script.config.shards }
        requires new { hosted self.old.state s ≡ None }
        requires script { store.script ≡ self.old.script }
        requires its { store.shard ≡ s }
        requires leased { holder store.entries ≡ Some self.old.state.who }
        requires room { 2 * length (names_of self.old.state.set s) ≤ out.old.spare }
        ensures state { self.new ≡ moved (hosting self.old s store) (start_remembered s (hosting self.old s store).state) }
        ensures out { out.new ≡ given out.old (start_remembered s (hosting self.old s store).state) }
        ensures takes { Takes (hosting self.old s store) self.new s 0 }
    {
        self.shards.start(s, store, out);
    }

    /// A message is delivered (Akka 2.6, Event Sourcing and Reliable Delivery): an entity that doesn't
    /// exist is started and stashes it, as one that recovers or stops does; one that takes commands
    /// handles it, where its number is the next.
    pub fn deliver<B: Behaviour>(&mut self, message: Message, behaviour: &B, out: &mut Out)
        requires kind { B.kind_of behaviour.now ≡ self.old.script.config.kind }
        requires version { B.version_of behaviour.now ≡ self.old.state.version }
        requires genuine { is_genuine self.old.script message ≡ true }
        requires producer { is_producer self.old.script message.producer ≡ true }
        requires name { is_brought self.old.script message.entity ≡ true }
        requires there { HasRoom self.old (shard_of (setting self.old.script) message.entity) 1 }
        requires room { 4 ≤ out.old.spare }
        ensures state { self.new ≡ moved self.old (deliver message self.old.state) }
        ensures out { out.new ≡ given out.old (deliver message self.old.state) }
        ensures takes { Takes self.old self.new (shard_of (setting self.old.script) message.entity) (if is_in_phase phase.Active self.old.state message.entity then 2 else 0) }
    {
        let place = self.place(&message.entity);
        self.deliver_at(&place, &message, behaviour, out);
    }

    /// The same, of the entity at this place; no name is looked for.
    pub fn deliver_at<B: Behaviour>(
        &mut self,
        place: &Place,
        message: &Message,
        behaviour: &B,
        out: &mut Out,
    )
        requires kind { B.kind_of behaviour.now ≡ self.old.script.config.kind }
        requires version { B.version_of behaviour.now ≡ self.old.state.version }
        requires place { IsPlace self.old.script place.now }
        requires entity { message.now.entity ≡ place.now.entity }
        requires genuine { is_genuine self.old.script message.now ≡ true }
        requires producer { is_producer self.old.script message.now.producer ≡ true }
        requires there { HasRoom self.old (shard_of (setting self.old.script) message.now.entity) 1 }
        requires room { 4 ≤ out.old.spare }
        ensures state { self.new ≡ moved self.old (deliver message.now self.old.state) }
        ensures out { out.new ≡ given out.old (deliver message.now self.old.state) }
        ensures takes { Takes self.old self.new (shard_of (setting self.old.script) message.now.entity) (if is_in_phase phase.Active self.old.state message.now.entity then 2 else 0) }
    {
        self.shards.deliver_to(behaviour, place, message, out);
    }

    /// An entity has its journal (Akka 2.6, Event Sourcing: recovery): where it recovers it takes
    /// commands from now on, and gets what was stashed for it, oldest first.
    pub fn recovered<B: Behaviour>(&mut self, entity: &EntityName, behaviour: &B, out: &mut Out)
        requires kind { B.kind_of behaviour.now ≡ self.old.script.config.kind }
        requires version { B.version_of behaviour.now ≡ self.old.state.version }
        requires name { is_brought self.old.script entity.now ≡ true }
        requires there { RoomIfHosted self.old (shard_of (setting self.old.script) entity.now) (2 * self.old.script.config.window) }
        requires room { 2 + 4 * self.old.script.config.window ≤ out.old.spare }
        ensures state { self.new ≡ moved self.old (recovered entity.now self.old.state) }
        ensures out { out.new ≡ given out.old (recovered entity.now self.old.state) }
        ensures takes { Takes self.old self.new (shard_of (setting self.old.script) entity.now) (1 + 2 * self.old.script.config.window) }
    {
        self.shards.knows();
        let place = self.shards.find(entity);
        self.shards
            .recovered(behaviour, &place, &mut self.pending, out);
    }

    /// An entity asks for its stop (Akka 2.6, Cluster Sharding: `Passivate`): where it takes commands
    /// it passivates, and is told to stop; else nothing happens.
    pub fn passivate(&mut self, entity: &EntityName, out: &mut Out)
        requires name { is_brought self.old.script entity.now ≡ true }
        requires room { 0 < out.old.spare }
        ensures state { self.new ≡ moved self.old (passivate entity.now self.old.state) }
        ensures out { out.new ≡ given out.old (passivate entity.now self.old.state) }
        ensures takes { Takes self.old self.new (shard_of (setting self.old.script) entity.now) 0 }
    {
        self.shards.knows();
        let place = self.shards.find(entity);
        self.shards.passivate(&place, out);
    }

    /// An entity is to ask for its stop, where it takes commands; else nothing happens.
    pub fn ask_to_passivate(&self, entity: &EntityName, out: &mut Out)
        requires name { is_brought self.now.script entity.now ≡ true }
        requires room { 0 < out.old.spare }
        ensures { out.new ≡ given out.old (ask_to_passivate entity.now self.now.state) }
    {
        self.shards.ask_to_passivate(&self.shards.find(entity), out);
    }

    /// The next write of an entity is to fail, in this way, where it takes commands; its stop undoes
    /// that. Else nothing happens.
    pub fn arm(&mut self, entity: &EntityName, keep: Keep, out: &mut Out)
        requires name { is_brought self.old.script entity.now ≡ true }
        requires room { 0 < out.old.spare }
        ensures state { self.new ≡ moved self.old (arm entity.now keep self.old.state) }
        ensures out { out.new ≡ given out.old (arm entity.now keep self.old.state) }
        ensures takes { Takes self.old self.new (shard_of (setting self.old.script) entity.now) 0 }
    {
        self.shards.knows();
        let place = self.shards.find(entity);
        self.shards.arm(&place, keep, out);
    }

    /// A hosted shard is handed off (Akka 2.6, Cluster Sharding: rebalancing): each of its entities is
    /// told to stop; where it has none it is let go, and its store is answered.
    pub fn hand_off(
        &mut self,
        s: ShardNo,
        stamp: Stamp,
        to: Incarnation,
        out: &mut Out,
    ) -> Option<ShardStore>
        requires shard { s < self.old.script.config.shards }
        requires there { hosted self.old.state s ≡ None → ⊥ }
        requires room { 2 + length (names_of self.old.state.set s) ≤ out.old.spare }
        ensures state { self.new ≡ moved self.old (hand_off s stamp to self.old.state) }
        ensures out { out.new ≡ given out.old (hand_off s stamp to self.old.state) }
        ensures store { MatchOption result (list_any frees (hand_off s stamp to self.old.state) ≡ false) (IsStore self.old s) }
        ensures freed { IfSome result (λ x. IsFreed (handed_off s stamp to ∷ map (λ e. post self.old.state.who self.old.state.who (body.StopEntity e)) (entities_of self.old.state s)) (hand_off s stamp to self.old.state) self.old.state.who (record { shard = s; store = x; stamp = stamp; to = to })) }
    {
        self.shards.hand_off(s, stamp, to, out)
    }

    /// An entity that is told to stop has stopped (Akka 2.6, Cluster Sharding: passivation): what was
    /// stashed meanwhile goes to its successor, or is dropped where its shard is handed off; after the
    /// last one the shard is let go, and is answered.
    pub fn stop(&mut self, entity: &EntityName, out: &mut Out) -> Option<Stopped>
        requires name { is_brought self.old.script entity.now ≡ true }
        requires there { RoomIfHosted self.old (shard_of (setting self.old.script) entity.now) 0 }
        requires room { 4 + self.old.script.config.window ≤ out.old.spare }
        ensures state { self.new ≡ moved self.old (stop entity.now self.old.state) }
        ensures out { out.new ≡ given out.old (stop entity.now self.old.state) }
        ensures stopped { MatchOption result (list_any frees (stop entity.now self.old.state) ≡ false) (IsStopped self.old (moved self.old (told (fact.Stop self.old.state.who entity.now) ∷ forget_passivated entity.now self.old.state)) (shard_of (setting self.old.script) entity.now)) }
        ensures freed { IfSome result (IsFreed (told (fact.Stop self.old.state.who entity.now) ∷ forget_passivated entity.now self.old.state ++ drop_stash entity.now self.old.state) (stop entity.now self.old.state) self.old.state.who) }
    {
        self.shards.knows();
        let place = self.shards.find(entity);
        self.shards.stop(&place, out)
    }

    /// Each entity that recovers is asked for its journal again, and each that stops is told so again.
    pub fn tick(&self, out: &mut Out)
        requires room { length (tick_entities self.now.state) ≤ out.old.spare }
        ensures { out.new ≡ given out.old (tick_entities self.now.state) }
    {
        self.shards.tick(out);
    }

    /// Takes the store of a shard out, which isn't hosted then, and none of its entities is left; None
    /// exactly where it wasn't hosted.
    pub fn take_all(&mut self, s: ShardNo) -> Option<ShardStore>
        requires shard { s < self.old.script.config.shards }
        ensures state { self.new ≡ without self.old s }
        ensures store { MatchOption result (hosted self.old.state s ≡ None) (IsStore self.old s) }
    {
        self.shards.take_all(s)
    }
}
