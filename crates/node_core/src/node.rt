//! A node, and its inputs.
ghost use Rattle.std.specs.Prelude.{◌≡◌, ℕ, ◌-◌, ◌≤◌, true, is_some, IfOk, OnOk, IsTrue, Some, IfSome, MatchOption, length, slice_get};
ghost use Rattle.yard_model.specs.declared.incarnation.Slot.TheVariants as slot;
ghost use Rattle.yard_model.specs.declared.input.Input.TheVariants as input;
ghost use Rattle.yard_model.specs.declared.input.Phase.TheVariants as phase;
ghost use Rattle.yard_model.specs.Entities.{is_in_phase};
ghost use Rattle.yard_model.specs.Genuine.{is_node, is_brought, is_slot_of};
ghost use Rattle.yard_model.specs.Node.{new_node, turn};
ghost use Rattle.yard_model.specs.Script.{setting, is_version};
ghost use Rattle.yard_model.specs.Words.{at};
ghost use Rattle.yard_model.specs.World.{all_sends};
ghost use Rattle.actor_laws.specs.Hands.{held_list};
ghost use Rattle.node_laws.specs.NodeStands.{IsSoundNode, IsViewed};
ghost use Rattle.node_laws.specs.NodeTurns.{MayTake};
ghost use Rattle.shard_store.specs.Stores.{script_of_ref, slot_of_ref, entries_of_ref};
ghost use Rattle.node_core.specs.Slots.{held_slots};
ghost use Rattle.node_core.specs.Standing.{IsReady};
ghost use Rattle.node_core.specs.Leased.{Rests, IsFor, IfPacket, IfProduce};
ghost use Rattle.node_core.specs.Gave.{moment};
ghost use Rattle.node_core.specs.Turned.{Turned, Ended};

use crate::actors::Actors;
use crate::beginning::first_actors;
use crate::grounds::Grounds;
use behaviour_core::Behaviour;
use node_laws::node::{crash_stands, new_node_stands, turn_stands, turn_viewed};
use shard_lease::Leases;
use shard_store::StoreRef;
use std::alloc::{AllocError, Global};
use std::marker::{Model, PhantomData};
use std::snapshot::Snapshot;
use yard_model::{Charter, EntityName, Incarnation, Input, Out, Packet, ProducerNo, Slot};

/// A node from its start to its end: its region, its entities and, while it holds the coordinator's
/// slot, the coordinator (Akka 2.6, Cluster Sharding concepts). The type keeps that it stands: each of
/// its actors does by itself, and where it is the coordinator, every registered region is in its view.
#[derive(Drop)]
pub struct Node<B: Behaviour> {
    actors: Actors<B>,
}

impl<B: Behaviour> Model for Node<B> {
    ghost use Rattle.node_laws.specs.NodeStands.{IsSoundNode, IsViewed};
    ghost use Rattle.node_core.specs.Standing.{Standing};

    ghost Value = { Standing };

    ghost view = { λ n. n.actors };

    ghost invariant = { λ n. IsSoundNode n.actors.script n.actors.state × IsViewed n.actors.state };
}

impl<B: Behaviour + Drop> Node<B> {
    /// A node that comes up, on the grounds of its script. The only error is want of memory.
    pub fn new(
        alloc: Global,
        who: Incarnation,
        charter: &Charter,
        grounds: &Grounds,
        behaviour: B,
    ) -> Result<Node<B>, AllocError>
        requires grounds { grounds.now ≡ charter.now }
        requires who { is_node charter.now who ≡ true }
        requires kind { B.kind_of behaviour ≡ charter.now.config.kind }
        requires version { is_version charter.now (B.version_of behaviour) ≡ true }
        ensures script { IfOk result (λ n. n.script ≡ charter.now) }
        ensures state { IfOk result (λ n. n.state ≡ new_node (setting charter.now) (B.version_of behaviour) who) }
    {
        new_node_stands();
        let first = first_actors(alloc, who, behaviour.version(), charter, grounds)?;
        Ok(Node {
            actors: Actors {
                alloc,
                script: Snapshot::of(charter),
                buffer: charter.config().buffer,
                behaviour,
                region: first.region,
                entities: first.entities,
                producers: first.producers,
                queues: charter.config().producers,
                coordinator: None,
                holds: PhantomData,
            },
        })
    }
}

impl<B: Behaviour + Drop> Node<B> {
    /// Which incarnation it is.
    pub fn who(&self) -> Incarnation
        ensures { result ≡ self.now.state.who }
    {
        self.actors.who()
    }

    /// What is so of each node between its inputs. It does nothing.
    pub fn stands(&self)
        ensures sound { IsSoundNode self.now.script self.now.state }
        ensures viewed { IsViewed self.now.state }
    {
        let _ = &self.actors;
    }

    /// Whether it is the coordinator.
    pub fn is_coordinator(&self) -> bool
        ensures { result ≡ is_some self.now.state.coordinator }
    {
        self.actors.is_coordinator()
    }

    /// Makes room for any input, and for the crash: in `out`, for as many pairs as a script may have,
    /// in the store of each slot that it holds, and for one region more that leaves. The only error
    /// is want of memory; the node is as before then.
    #[inline(always)]
    pub fn reserve(&mut self, out: &mut Out) -> Result<(), AllocError>
        ensures script { self.new.script ≡ self.old.script }
        ensures state { self.new.state ≡ self.old.state }
        ensures items { out.new.items ≡ out.old.items }
        ensures ready { OnOk result (IsReady self.new out.new.spare) }
    {
        self.actors.reserve(out)
    }

    /// Handles an input, and tells exactly the items of the definition's turn. Where the leases tell
    /// of lists, the turn is the one for these lists. With any other leases it is the turn for some
    /// lists, those that it found. Each fact is guarded by what the node has in hand, and each post is
    /// its own. No input is refused. An input is handled whole before the next, a rule of this
    /// project's own.
    pub fn handle<L: Leases>(
        &mut self,
        charter: &Charter,
        input: &Input,
        leases: &mut L,
        out: &mut Out,
    )
        requires charter { charter.now ≡ self.old.script }
        requires addressed { IfPacket input.now (IsFor (L.meaning leases.old) self.old.state.who) }
        requires may { MayTake self.old.script (L.meaning leases.old).vouches self.old.state input.now }
        requires produces { IfProduce input.now (λ p. (L.meaning leases.old).admits self.old.state.who.node (slot.Queue p) ≡ true) }
        requires ready { IsReady self.old out.old.spare }
        requires rests { Rests (L.meaning leases.old) self.old.script self.old.state }
        ensures script { self.new.script ≡ self.old.script }
        ensures who { self.new.state.who ≡ self.old.state.who }
        ensures turned { Turned self.old.script (λ lists. turn (all_sends self.old.script) lists input.now self.old.state) (moment (L.meaning leases.old) self.old.state out.old.items) (moment (L.meaning leases.new) self.new.state out.new.items) }
    {
        turn_stands();
        turn_viewed();
        charter.config();
        self.actors.input(charter, input, leases, out);
    }

    /// Handles a packet, as `handle` does the input of it.
    pub fn handle_packet<L: Leases>(
        &mut self,
        charter: &Charter,
        packet: &Packet,
        leases: &mut L,
        out: &mut Out,
    )
        requires charter { charter.now ≡ self.old.script }
        requires addressed { IsFor (L.meaning leases.old) self.old.state.who packet.now }
        requires may { MayTake self.old.script (L.meaning leases.old).vouches self.old.state (input.Packet packet.now) }
        requires ready { IsReady self.old out.old.spare }
        requires rests { Rests (L.meaning leases.old) self.old.script self.old.state }
        ensures script { self.new.script ≡ self.old.script }
        ensures who { self.new.state.who ≡ self.old.state.who }
        ensures turned { Turned self.old.script (λ lists. turn (all_sends self.old.script) lists (input.Packet packet.now) self.old.state) (moment (L.meaning leases.old) self.old.state out.old.items) (moment (L.meaning leases.new) self.new.state out.new.items) }
    {
        turn_stands();
        turn_viewed();
        charter.config();
        self.actors.packet(charter, packet, leases, out);
    }

    /// Handles an input, as `handle` does.
    pub fn turn<L: Leases>(
        &mut self,
        charter: &Charter,
        input: Input,
        leases: &mut L,
        out: &mut Out,
    )
        requires charter { charter.now ≡ self.old.script }
        requires addressed { IfPacket input (IsFor (L.meaning leases.old) self.old.state.who) }
        requires may { MayTake self.old.script (L.meaning leases.old).vouches self.old.state input }
        requires produces { IfProduce input (λ p. (L.meaning leases.old).admits self.old.state.who.node (slot.Queue p) ≡ true) }
        requires ready { IsReady self.old out.old.spare }
        requires rests { Rests (L.meaning leases.old) self.old.script self.old.state }
        ensures script { self.new.script ≡ self.old.script }
        ensures who { self.new.state.who ≡ self.old.state.who }
        ensures turned { Turned self.old.script (λ lists. turn (all_sends self.old.script) lists input self.old.state) (moment (L.meaning leases.old) self.old.state out.old.items) (moment (L.meaning leases.new) self.new.state out.new.items) }
    {
        self.handle(charter, &input, leases, out);
    }

    /// The node is gone: every slot that it held is freed, as its list stood.
    pub fn crash<L: Leases>(self, leases: &mut L, out: &mut Out)
        requires ready { IsReady self out.old.spare }
        requires rests { Rests (L.meaning leases.old) self.script self.state }
        ensures { Ended self.script (moment (L.meaning leases.old) self.state out.old.items) (L.meaning leases.new) out.new.items }
    {
        crash_stands();
        let Node { mut actors } = self;
        actors.end(leases, out);
    }

    /// Whether an entity, which the script brings, is active here.
    pub fn is_active(&self, entity: &EntityName) -> bool
        requires { is_brought self.now.script entity.now ≡ true }
        ensures { result ≡ is_in_phase phase.Active self.now.state.entities entity.now }
    {
        self.actors.is_active(entity)
    }

    /// The held slot at this place, with its store: shards rising, the coordinator, queues rising.
    /// None exactly past the last.
    pub fn for_each_held(&self, at: u16) -> Option<(Slot, StoreRef<'_>)>
        ensures slot { MatchOption result (length (held_slots self.now.script self.now.state) ≤ at) (λ x. slice_get (held_slots self.now.script self.now.state) at ≡ Some x.0) }
        ensures store { IfSome result (λ x. held_list x.0 self.now.state ≡ Some (entries_of_ref x.1)) }
        ensures kind { IfSome result (λ x. (slot_of_ref x.1 ≡ x.0) × (script_of_ref x.1 ≡ self.now.script)) }
    {
        self.actors.held(at)
    }

    /// The store of a slot of the script; None exactly where the node doesn't hold it.
    pub fn held_store(&self, slot: Slot) -> Option<StoreRef<'_>>
        requires { is_slot_of self.now.script slot ≡ true }
        ensures store { MatchOption result (held_list slot self.now.state ≡ None) (λ x. held_list slot self.now.state ≡ Some (entries_of_ref x)) }
        ensures kind { IfSome result (λ x. (slot_of_ref x ≡ slot) × (script_of_ref x ≡ self.now.script)) }
    {
        self.actors.held_store(slot)
    }

    /// Whether it holds the queue of a producer.
    pub fn holds_queue(&self, p: ProducerNo) -> bool
        ensures { result ≡ is_some (at self.now.state.producers (p - 1)) }
    {
        self.actors.holds_queue(p)
    }
}
