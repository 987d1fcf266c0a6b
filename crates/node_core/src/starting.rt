//! Shards that start here (Akka 2.6, Cluster Sharding: shards, remembering entities).
ghost use Rattle.std.specs.Prelude.{◌≡◌, ◌+◌, ◌*◌, ◌≤◌, true, None, Some, length};
ghost use Rattle.yard_model.specs.declared.incarnation.Slot.TheVariants as slot;
ghost use Rattle.yard_model.specs.Entities.{hosted};
ghost use Rattle.yard_model.specs.Genuine.{is_shard};
ghost use Rattle.yard_model.specs.Node as rules;
ghost use Rattle.yard_model.specs.Setting.{names_of};
ghost use Rattle.node_laws.specs.NodeStands.{IsSoundNode};
ghost use Rattle.shard_lease.specs.declared.leases.Acquire.TheVariants as answers;
ghost use Rattle.node_core.specs.Found.{asks};
ghost use Rattle.node_core.specs.Gave.{Gave, moment};
ghost use Rattle.node_core.specs.Leased.{Rests};
ghost use Rattle.node_core.specs.Taken.{IsGranted};
ghost use Rattle.node_core.specs.Started.{take_shard, asks_start, IsShardGrant, IsShardGrantOf, StartLeaves, TookShard, Hosts};

use crate::actors::Actors;
use crate::lead::holder_in;
use behaviour_core::Behaviour;
use shard_lease::{Acquire, Leases};
use shard_store::{ShardStore, Store};
use yard_model::{Fact, Item, NodeNo, Out, ShardNo, Slot};

impl<B: Behaviour + Drop> Actors<B> {
    /// Start: a shard that isn't hosted is asked for; where it is granted it runs, and its remembered
    /// entities start.
    pub(crate) fn start<L: Leases>(&mut self, s: ShardNo, leases: &mut L, out: &mut Out)
        requires shard { is_shard self.old.script s ≡ true }
        requires sound { IsSoundNode self.old.script self.old.state }
        requires rests { Rests (L.meaning leases.old) self.old.script self.old.state }
        requires room { 1 + 2 * length (names_of self.old.state.set s) ≤ out.old.spare }
        ensures script { self.new.script ≡ self.old.script }
        ensures gave { Gave self.old.script (asks_start s self.old.state) (λ lists. rules.start lists s self.old.state) (moment (L.meaning leases.old) self.old.state out.old.items) (moment (L.meaning leases.new) self.new.state out.new.items) }
        ensures leaves { StartLeaves s self.old self.new out.old out.new }
    {
        if !self.is_hosted(s) {
            self.take_shard(s, leases, out);
        }
    }

    /// A shard that isn't hosted is asked for.
    fn take_shard<L: Leases>(&mut self, s: ShardNo, leases: &mut L, out: &mut Out)
        requires shard { is_shard self.old.script s ≡ true }
        requires new { hosted self.old.state.entities s ≡ None }
        requires sound { IsSoundNode self.old.script self.old.state }
        requires rests { Rests (L.meaning leases.old) self.old.script self.old.state }
        requires room { 1 + 2 * length (names_of self.old.state.set s) ≤ out.old.spare }
        ensures script { self.new.script ≡ self.old.script }
        ensures gave { Gave self.old.script (asks (slot.Shard s)) (λ lists. take_shard lists s self.old.state) (moment (L.meaning leases.old) self.old.state out.old.items) (moment (L.meaning leases.new) self.new.state out.new.items) }
        ensures leaves { StartLeaves s self.old self.new out.old out.new }
    {
        self.knows();
        let who = self.who();
        let answer = leases.acquire(who, Slot::Shard(s));
        self.take_answer(s, answer, out);
    }

    /// What becomes of the answer: the shard is hosted where it is granted; else it is told who holds
    /// it.
    fn take_answer(&mut self, s: ShardNo, answer: Acquire, out: &mut Out)
        requires shard { is_shard self.old.script s ≡ true }
        requires new { hosted self.old.state.entities s ≡ None }
        requires granted { IsShardGrant self.old.script self.old.state.who s answer }
        requires room { 1 + 2 * length (names_of self.old.state.set s) ≤ out.old.spare }
        ensures { TookShard s answer self.old self.new out.old out.new }
    {
        match holder_in(&answer) {
            Some(node) => {
                drop(answer);
                self.tell_held(s, node, out);
            }
            None => self.host_granted(s, answer, out),
        }
    }

    /// A shard is granted: it is hosted.
    fn host_granted(&mut self, s: ShardNo, answer: Acquire, out: &mut Out)
        requires shard { is_shard self.old.script s ≡ true }
        requires new { hosted self.old.state.entities s ≡ None }
        requires is_granted { IsGranted answer }
        requires granted { IsShardGrant self.old.script self.old.state.who s answer }
        requires room { 1 + 2 * length (names_of self.old.state.set s) ≤ out.old.spare }
        ensures { TookShard s answer self.old self.new out.old out.new }
    {
        match answer {
            Acquire::Granted(Store::Shard(store)) => self.host(s, store, out),
            _ => unreachable!(),
        }
    }

    /// It is told who holds a shard.
    fn tell_held(&mut self, s: ShardNo, node: NodeNo, out: &mut Out)
        requires room { 1 ≤ out.old.spare }
        ensures { TookShard s (answers.Held node) self.old self.new out.old out.new }
    {
        let who = self.region.who();
        out.push(Item::Fact(Fact::Held(Slot::Shard(s), who, node)));
    }

    /// A shard is granted: that is told, it is hosted, and its remembered entities start.
    fn host(&mut self, s: ShardNo, store: ShardStore, out: &mut Out)
        requires shard { is_shard self.old.script s ≡ true }
        requires new { hosted self.old.state.entities s ≡ None }
        requires granted { IsShardGrantOf self.old.script self.old.state.who s store }
        requires room { 1 + 2 * length (names_of self.old.state.set s) ≤ out.old.spare }
        ensures { Hosts s store self.old self.new out.old out.new }
    {
        let who = self.region.who();
        let epoch = store.epoch();
        out.push(Item::Fact(Fact::Granted(Slot::Shard(s), epoch, who)));
        self.entities.start(s, store, out);
    }
}
