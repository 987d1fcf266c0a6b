//! A turn over a pass.
ghost use Rattle.std.specs.Prelude.{◌≡◌, true, false, [], ◌∷◌, IfOk};
ghost use Rattle.yard_model.specs.declared.incarnation.Slot.TheVariants as slot;
ghost use Rattle.yard_model.specs.declared.incarnation.Slot.{Slot};
ghost use Rattle.yard_model.specs.Genuine.{is_node, is_slot_of};
ghost use Rattle.yard_model.specs.Node.{turn};
ghost use Rattle.yard_model.specs.Script.{is_version};
ghost use Rattle.yard_model.specs.World.{all_sends};
ghost use Rattle.node_laws.specs.NodeTurns.{MayTake};
ghost use Rattle.node_core.specs.Gave.{moment};
ghost use Rattle.node_core.specs.Leased.{IfPacket, IfProduce, IsFor};
ghost use Rattle.node_core.specs.Standing.{IsReady};
ghost use Rattle.node_core.specs.Turned.{Turned, Ended};
ghost use Rattle.lease_table.specs.Belongs.{id_of, charter_of};
ghost use Rattle.lease_table.specs.Fits.{admits, is_within};
ghost use Rattle.lease_table.specs.Leasing.{Idle};
ghost use Rattle.node_runner.specs.Posts.{StayGenuine};
ghost use Rattle.node_runner.specs.Rested.{Rested, ArePublished, means};

use crate::leases::NodeLeases;
use crate::up_node::UpNode;
use behaviour_core::Behaviour;
use lease_table::{LeasePass, LeaseTable};
use node_core::{Grounds, Node};
use std::alloc::{AllocError, Global};
use yard_model::{Charter, Incarnation, Input, NodeNo, Out};

/// The node handles an input with the leases of its pass. Each fact is guarded by what the node has in
/// hand, and each post is its own.
pub fn take_turn<B: Behaviour + Drop>(
    table: &LeaseTable,
    pass: LeasePass,
    me: NodeNo,
    node: &mut UpNode<B>,
    charter: &Charter,
    input: &Input,
    out: &mut Out,
) -> LeasePass
    requires charter { charter.now ≡ charter_of table.now }
    requires rested { Rested (id_of table.now) (charter_of table.now) me pass node.old }
    requires addressed { IfPacket input.now (IsFor (means me pass) node.old.state.who) }
    requires may { MayTake (charter_of table.now) (means me pass).vouches node.old.state input.now }
    requires produces { IfProduce input.now (λ p. admits (charter_of table.now) me (slot.Queue p) ≡ true) }
    requires ready { IsReady node.old out.old.spare }
    ensures rested { Rested (id_of table.now) (charter_of table.now) me result node.new }
    ensures turned { Turned (charter_of table.now) (λ lists. turn (all_sends (charter_of table.now)) lists input.now node.old.state) (moment (means me pass) node.old.state out.old.items) (moment (means me result) node.new.state out.new.items) }
    ensures posts { StayGenuine (charter_of table.now) out.old.items out.new.items }
{
    let mut leases = NodeLeases::new(table, pass, me);
    node.turn(charter, input, &mut leases, out);
    leases.into_pass()
}

/// A node that comes up, with nothing in hand. The only error is want of memory.
#[tactic(auto, using(crate::proofs::Fresh::new_node_rests, crate::proofs::Fresh::new_shown))]
pub fn node_starts<B: Behaviour + Drop>(
    alloc: Global,
    table: &LeaseTable,
    pass: &LeasePass,
    who: Incarnation,
    charter: &Charter,
    behaviour: B,
) -> Result<UpNode<B>, AllocError>
    requires charter { charter.now ≡ charter_of table.now }
    requires idle { Idle (id_of table.now) (charter_of table.now) who.node pass.now }
    requires who { is_node charter.now who ≡ true }
    requires within { is_within who.number ≡ true }
    requires kind { B.kind_of behaviour ≡ charter.now.config.kind }
    requires version { is_version charter.now (B.version_of behaviour) ≡ true }
    ensures rested { IfOk result (Rested (id_of table.now) (charter_of table.now) who.node pass.now) }
    ensures published { IfOk result (λ n. ArePublished (charter_of table.now) pass.now n.state) }
    ensures who { IfOk result (λ n. n.state.who ≡ who) }
{
    let _ = table;
    let _ = pass;
    let grounds = Grounds::new(alloc, charter)?;
    let node = Node::new(alloc, who, charter, &grounds, behaviour)?;
    UpNode::new(alloc, node)
}

/// The node is gone, and its pass holds nothing: every slot that it held is freed, as its list stood.
pub fn node_ends<B: Behaviour + Drop>(
    table: &LeaseTable,
    pass: LeasePass,
    me: NodeNo,
    node: UpNode<B>,
    out: &mut Out,
) -> LeasePass
    requires rested { Rested (id_of table.now) (charter_of table.now) me pass node }
    requires ready { IsReady node out.old.spare }
    ensures idle { Idle (id_of table.now) (charter_of table.now) me result }
    ensures ended { Ended (charter_of table.now) (moment (means me pass) node.state out.old.items) (means me result) out.new.items }
    ensures posts { StayGenuine (charter_of table.now) out.old.items out.new.items }
{
    let pass = give_back(table, pass, me, node, out);
    pass.stands();
    pass
}

/// Frees every slot that the node holds.
fn give_back<B: Behaviour + Drop>(
    table: &LeaseTable,
    pass: LeasePass,
    me: NodeNo,
    node: UpNode<B>,
    out: &mut Out,
) -> LeasePass
    requires rested { Rested (id_of table.now) (charter_of table.now) me pass node }
    requires ready { IsReady node out.old.spare }
    ensures table { result.table ≡ id_of table.now }
    ensures charter { result.view.charter ≡ charter_of table.now }
    ensures numbers { result.view.numbers ≡ me ∷ [] }
    ensures free { (s : Slot) → is_slot_of (charter_of table.now) s ≡ true → (means me result).holds me s ≡ false }
    ensures ended { Ended (charter_of table.now) (moment (means me pass) node.state out.old.items) (means me result) out.new.items }
{
    let mut leases = NodeLeases::new(table, pass, me);
    node.crash(&mut leases, out);
    leases.into_pass()
}
