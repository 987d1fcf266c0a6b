//! A node that is up, on the heap, so that a worker passes it on without moving it.
ghost use Rattle.std.specs.Prelude.{◌≡◌, true, IfOk, OnOk, Some, None, IfSome, MatchOption};
ghost use Rattle.yard_model.specs.declared.incarnation.Slot.TheVariants as slot;
ghost use Rattle.yard_model.specs.Genuine.{is_slot_of};
ghost use Rattle.yard_model.specs.Node.{turn};
ghost use Rattle.yard_model.specs.World.{all_sends};
ghost use Rattle.actor_laws.specs.Hands.{held_list};
ghost use Rattle.node_laws.specs.NodeStands.{IsSoundNode, IsViewed};
ghost use Rattle.node_laws.specs.NodeTurns.{MayTake};
ghost use Rattle.shard_store.specs.Stores.{script_of_ref, slot_of_ref, entries_of_ref};
ghost use Rattle.node_core.specs.Gave.{moment};
ghost use Rattle.node_core.specs.Leased.{Rests, IsFor, IfPacket, IfProduce};
ghost use Rattle.node_core.specs.Standing.{IsReady};
ghost use Rattle.node_core.specs.Turned.{Turned, Ended};

use behaviour_core::Behaviour;
use node_core::Node;
use shard_lease::Leases;
use shard_store::StoreRef;
use std::alloc::{AllocError, Global};
use std::marker::Model;
use yard_model::{Charter, Incarnation, Input, Out, Slot};

/// A node that is up. It stands on the heap: who passes it on moves a pointer.
#[derive(Drop)]
pub struct UpNode<B: Behaviour> {
    node: Box<Node<B>, Global>,
}

impl<B: Behaviour> Model for UpNode<B> {
    ghost use Rattle.node_core.specs.Standing.{Standing};

    ghost Value = { Standing };

    ghost view = { λ u. u.node.value };
}

impl<B: Behaviour + Drop> UpNode<B> {
    /// The node goes onto the heap. The only error is want of memory.
    pub fn new(alloc: Global, node: Node<B>) -> Result<UpNode<B>, AllocError>
        ensures { IfOk result (λ u. u ≡ node) }
    {
        match Box::new(alloc, node) {
            Ok(node) => Ok(UpNode { node }),
            Err(_) => Err(AllocError),
        }
    }

    /// Which incarnation it is.
    pub fn who(&self) -> Incarnation
        ensures { result ≡ self.now.state.who }
    {
        self.node.who()
    }

    /// What is so of each node between its inputs. It does nothing.
    pub fn stands(&self)
        ensures sound { IsSoundNode self.now.script self.now.state }
        ensures viewed { IsViewed self.now.state }
    {
        self.node.stands();
    }

    /// Makes room for any input, and for the crash. The only error is want of memory; the node is as
    /// before then.
    pub fn reserve(&mut self, out: &mut Out) -> Result<(), AllocError>
        ensures script { self.new.script ≡ self.old.script }
        ensures state { self.new.state ≡ self.old.state }
        ensures items { out.new.items ≡ out.old.items }
        ensures ready { OnOk result (IsReady self.new out.new.spare) }
    {
        self.node.reserve(out)
    }

    /// Handles an input, as the node does: it tells exactly the items of the definition's turn.
    pub fn turn<L: Leases>(
        &mut self,
        charter: &Charter,
        input: &Input,
        leases: &mut L,
        out: &mut Out,
    )
        requires charter { charter.now ≡ self.old.script }
        requires addressed { IfPacket input.now (IsFor (L.meaning leases.old) self.old.state.who) }
        requires may { MayTake self.old.script (L.meaning leases.old).vouches self.old.state input.now }
        requires produces { IfProduce input.now (λ p. (L.meaning leases.old).admits self.old.state.who.node (slot.Queue p) ≡ true) }
        requires ready { IsReady self.old out.old.spare }
        requires rests { Rests (L.meaning leases.old) self.old.script self.old.state }
        ensures script { self.new.script ≡ self.old.script }
        ensures who { self.new.state.who ≡ self.old.state.who }
        ensures turned { Turned self.old.script (λ lists. turn (all_sends self.old.script) lists input.now self.old.state) (moment (L.meaning leases.old) self.old.state out.old.items) (moment (L.meaning leases.new) self.new.state out.new.items) }
    {
        self.node.handle(charter, input, leases, out);
    }

    /// The node is gone: every slot that it held is freed, as its list stood.
    pub fn crash<L: Leases>(self, leases: &mut L, out: &mut Out)
        requires ready { IsReady self out.old.spare }
        requires rests { Rests (L.meaning leases.old) self.script self.state }
        ensures { Ended self.script (moment (L.meaning leases.old) self.state out.old.items) (L.meaning leases.new) out.new.items }
    {
        let UpNode { node } = self;
        Box::into_inner(node).crash(leases, out);
    }

    /// The store of a slot of the script; None exactly where the node doesn't hold it.
    pub fn held_store(&self, slot: Slot) -> Option<StoreRef<'_>>
        requires { is_slot_of self.now.script slot ≡ true }
        ensures store { MatchOption result (held_list slot self.now.state ≡ None) (λ x. held_list slot self.now.state ≡ Some (entries_of_ref x)) }
        ensures kind { IfSome result (λ x. (slot_of_ref x ≡ slot) × (script_of_ref x ≡ self.now.script)) }
    {
        self.node.held_store(slot)
    }
}
