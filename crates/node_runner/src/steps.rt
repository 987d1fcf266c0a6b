//! What a worker does in a turn: its node is given an input, comes up, or goes.
ghost use Rattle.std.specs.Prelude.{◌≡◌, ℕ, true, false, [], Some, None, IfOk, IfSome, OnOk};
ghost use Rattle.yard_model.specs.declared.charter.Order.{Order};
ghost use Rattle.yard_model.specs.Behaviour.{is_in};
ghost use Rattle.yard_model.specs.Genuine.{is_genuine_packet};
ghost use Rattle.yard_model.specs.Script.{is_version};
ghost use Rattle.yard_model.specs.Workers.{is_up};
ghost use Rattle.lease_table.specs.Belongs.{id_of, charter_of};
ghost use Rattle.lease_table.specs.Fits.{is_within};
ghost use Rattle.lease_table.specs.Leasing.{Idle};
ghost use Rattle.worker_orders.specs.Waiting.{IsDue};
ghost use Rattle.node_runner.specs.Counted.{and_more};
ghost use Rattle.node_runner.specs.Ordered.{input_of, IsGiven};
ghost use Rattle.node_runner.specs.Progress.{StandsAt, GoesOn, Takes, Progressed, SawAll, is_rest};
ghost use Rattle.node_runner.specs.Posts.{KeepsTray};
ghost use Rattle.node_runner.specs.Rested.{Rested, ArePublished, SeesOn, means};
ghost use Rattle.node_runner.specs.Parcels.{is_shown};

use crate::inputs::input_of;
use crate::laws::dues_are_given;
use crate::offer::handed;
use crate::telling::publish_told;
use crate::tray::Tray;
use crate::turn::{node_ends, node_starts, take_turn};
use crate::up_node::UpNode;
use behaviour_core::Behaviour;
use lease_table::{LeasePass, LeaseTable, Note};
use std::alloc::{AllocError, Global};
use yard_model::{Charter, Incarnation, Input, NodeNo, Order, Packet};

/// What the worker of a node has at the table: its pass, and its node where that is up.
#[derive(Drop)]
pub struct Place<B: Behaviour> {
    /// The pass.
    pub pass: LeasePass,
    /// The node.
    pub node: Option<UpNode<B>>,
}

/// The node, which is up, is given an input. The only error is want of memory.
pub fn give<B: Behaviour + Drop>(
    table: &LeaseTable,
    charter: &Charter,
    me: NodeNo,
    pass: LeasePass,
    node: UpNode<B>,
    input: &Input,
    tray: &mut Tray,
) -> Result<Place<B>, AllocError>
    requires charter { charter.now ≡ charter_of table.now }
    requires rested { Rested (id_of table.now) (charter_of table.now) me pass node }
    requires published { ArePublished (charter_of table.now) pass node.state }
    requires given { IsGiven (charter_of table.now) me (means me pass) node.state input.now }
    ensures stands { IfOk result (λ r. StandsAt (id_of table.now) (charter_of table.now) me r.pass r.node) }
    ensures goes_on { IfOk result (λ r. is_rest input.now ≡ false → GoesOn (charter_of table.now) me pass (Some node) r.pass r.node) }
    ensures takes { IfOk result (λ r. (o : Order) → input_of o ≡ Some input.now → Takes (charter_of table.now) me o pass (Some node) r.pass r.node) }
    ensures posts { OnOk result (KeepsTray (charter_of table.now) tray.old tray.new) }
{
    let mut node = node;
    node.stands();
    node.reserve(&mut tray.out)?;
    let mut pass = take_turn(table, pass, me, &mut node, charter, input, &mut tray.out);
    publish_told(
        table,
        &mut pass,
        &node,
        charter,
        me,
        &mut tray.out,
        &mut tray.posts,
    )?;
    Ok(Place {
        pass,
        node: Some(node),
    })
}

/// The node, which is up, takes a packet, with what its note shows; or the packet is lost, where that
/// can't be shown: one more is counted then, if it is for this incarnation. The only error is want of memory.
pub fn take_packet<B: Behaviour + Drop>(
    table: &LeaseTable,
    charter: &Charter,
    me: NodeNo,
    pass: LeasePass,
    node: UpNode<B>,
    packet: &Packet,
    note: Option<Note>,
    unshown: &mut u64,
    tray: &mut Tray,
) -> Result<Place<B>, AllocError>
    requires charter { charter.now ≡ charter_of table.now }
    requires rested { Rested (id_of table.now) (charter_of table.now) me pass node }
    requires published { ArePublished (charter_of table.now) pass node.state }
    requires genuine { is_genuine_packet (charter_of table.now) packet.now ≡ true }
    requires within { is_within packet.now.from.number ≡ true }
    requires note { IfSome note (λ w. w.table ≡ id_of table.now) }
    requires shown { is_shown (charter_of table.now) packet.now.body note ≡ true }
    ensures stands { IfOk result (λ r. StandsAt (id_of table.now) (charter_of table.now) me r.pass r.node) }
    ensures goes_on { IfOk result (λ r. GoesOn (charter_of table.now) me pass (Some node) r.pass r.node) }
    ensures posts { OnOk result (KeepsTray (charter_of table.now) tray.old tray.new) }
{
    let (pass, may) = handed(table, pass, me, &node, charter, packet, note);
    if !may {
        count_unshown(&node, packet, unshown);
        return Ok(Place {
            pass,
            node: Some(node),
        });
    }
    let input = Input::Packet(*packet);
    give(table, charter, me, pass, node, &input, tray)
}

/// A packet to the node was let go: one more, if it is for this incarnation.
fn count_unshown<B: Behaviour + Drop>(node: &UpNode<B>, packet: &Packet, unshown: &mut u64)
    ensures counted { packet.now.to ≡ node.now.state.who → unshown.new ≡ and_more unshown.old 1 }
    ensures other { (packet.now.to ≡ node.now.state.who → ⊥) → unshown.new ≡ unshown.old }
{
    if packet.to == node.who() {
        *unshown = unshown.saturating_add(1);
    }
}

/// The worker takes an order: where the node is down, only an `up` does something, which starts it with
/// this number. The only error is want of memory.
pub fn take_order<B: Behaviour + Copy + Drop>(
    alloc: Global,
    table: &LeaseTable,
    charter: &Charter,
    me: NodeNo,
    place: Place<B>,
    order: &Order,
    number: u32,
    behaviour: B,
    tray: &mut Tray,
) -> Result<Place<B>, AllocError>
    requires charter { charter.now ≡ charter_of table.now }
    requires node { is_in 1 charter.now.config.nodes me ≡ true }
    requires stands { StandsAt (id_of table.now) (charter_of table.now) me place.pass place.node }
    requires due { IsDue (charter_of table.now) me order.now }
    requires within { is_within number ≡ true }
    requires kind { B.kind_of behaviour ≡ charter.now.config.kind }
    requires version { is_version charter.now (B.version_of behaviour) ≡ true }
    ensures stands { IfOk result (λ r. StandsAt (id_of table.now) (charter_of table.now) me r.pass r.node) }
    ensures takes { IfOk result (λ r. Takes (charter_of table.now) me order.now place.pass place.node r.pass r.node) }
    ensures number { IfOk result (λ r. place.node ≡ None → IfSome r.node (λ v. v.state.who.number ≡ number)) }
    ensures posts { OnOk result (KeepsTray (charter_of table.now) tray.old tray.new) }
{
    let Place { pass, node } = place;
    match node {
        None => down_order(alloc, table, charter, me, pass, order, number, behaviour),
        Some(node) => up_order(table, charter, me, pass, node, order, tray),
    }
}

/// An order where the node is down.
#[tactic(auto, using(crate::proofs::Stepping::down_takes, crate::proofs::Stepping::up_takes))]
fn down_order<B: Behaviour + Copy + Drop>(
    alloc: Global,
    table: &LeaseTable,
    charter: &Charter,
    me: NodeNo,
    pass: LeasePass,
    order: &Order,
    number: u32,
    behaviour: B,
) -> Result<Place<B>, AllocError>
    requires charter { charter.now ≡ charter_of table.now }
    requires node { is_in 1 charter.now.config.nodes me ≡ true }
    requires idle { Idle (id_of table.now) (charter_of table.now) me pass }
    requires within { is_within number ≡ true }
    requires kind { B.kind_of behaviour ≡ charter.now.config.kind }
    requires version { is_version charter.now (B.version_of behaviour) ≡ true }
    ensures stands { IfOk result (λ r. StandsAt (id_of table.now) (charter_of table.now) me r.pass r.node) }
    ensures takes { IfOk result (λ r. IsDue (charter_of table.now) me order.now → Takes (charter_of table.now) me order.now pass None r.pass r.node) }
    ensures number { IfOk result (λ r. IfSome r.node (λ v. v.state.who.number ≡ number)) }
{
    if is_up(order, me) {
        let who = Incarnation { node: me, number };
        let node = node_starts(alloc, table, &pass, who, charter, behaviour)?;
        return Ok(Place {
            pass,
            node: Some(node),
        });
    }
    Ok(Place { pass, node: None })
}

/// Whether the order is an `up` of this node.
fn is_up(order: &Order, me: NodeNo) -> bool
    ensures { result ≡ is_up me order.now }
{
    match *order {
        Order::Up(node) => node == me,
        _ => false,
    }
}

/// An order where the node is up.
#[tactic(auto, using(crate::proofs::Stepping::crash_takes))]
fn up_order<B: Behaviour + Drop>(
    table: &LeaseTable,
    charter: &Charter,
    me: NodeNo,
    pass: LeasePass,
    node: UpNode<B>,
    order: &Order,
    tray: &mut Tray,
) -> Result<Place<B>, AllocError>
    requires charter { charter.now ≡ charter_of table.now }
    requires node { is_in 1 charter.now.config.nodes me ≡ true }
    requires rested { Rested (id_of table.now) (charter_of table.now) me pass node }
    requires published { ArePublished (charter_of table.now) pass node.state }
    requires due { IsDue (charter_of table.now) me order.now }
    ensures stands { IfOk result (λ r. StandsAt (id_of table.now) (charter_of table.now) me r.pass r.node) }
    ensures takes { IfOk result (λ r. Takes (charter_of table.now) me order.now pass (Some node) r.pass r.node) }
    ensures posts { OnOk result (KeepsTray (charter_of table.now) tray.old tray.new) }
{
    if let Order::Crash(_) = *order {
        let pass = crash(table, me, pass, node, tray)?;
        return Ok(Place { pass, node: None });
    }
    act(table, charter, me, pass, node, order, tray)
}

/// An order that is no `crash` where the node is up.
#[tactic(auto, using(crate::proofs::Stepping::none_takes))]
fn act<B: Behaviour + Drop>(
    table: &LeaseTable,
    charter: &Charter,
    me: NodeNo,
    pass: LeasePass,
    node: UpNode<B>,
    order: &Order,
    tray: &mut Tray,
) -> Result<Place<B>, AllocError>
    requires charter { charter.now ≡ charter_of table.now }
    requires node { is_in 1 charter.now.config.nodes me ≡ true }
    requires rested { Rested (id_of table.now) (charter_of table.now) me pass node }
    requires published { ArePublished (charter_of table.now) pass node.state }
    requires due { IsDue (charter_of table.now) me order.now }
    ensures stands { IfOk result (λ r. StandsAt (id_of table.now) (charter_of table.now) me r.pass r.node) }
    ensures takes { IfOk result (λ r. Takes (charter_of table.now) me order.now pass (Some node) r.pass r.node) }
    ensures posts { OnOk result (KeepsTray (charter_of table.now) tray.old tray.new) }
{
    let Some(input) = input_of(order) else {
        return Ok(Place {
            pass,
            node: Some(node),
        });
    };
    charter.config();
    dues_are_given();
    give(table, charter, me, pass, node, &input, tray)
}

/// The node, which is up, goes. The only error is want of memory.
fn crash<B: Behaviour + Drop>(
    table: &LeaseTable,
    me: NodeNo,
    pass: LeasePass,
    node: UpNode<B>,
    tray: &mut Tray,
) -> Result<LeasePass, AllocError>
    requires rested { Rested (id_of table.now) (charter_of table.now) me pass node }
    ensures idle { IfOk result (Idle (id_of table.now) (charter_of table.now) me) }
    ensures sees { IfOk result (SeesOn me pass) }
    ensures posts { OnOk result (KeepsTray (charter_of table.now) tray.old tray.new) }
{
    let mut node = node;
    node.reserve(&mut tray.out)?;
    let pass = node_ends(table, pass, me, node, &mut tray.out);
    Ok(pass)
}

/// The worker's end: a node that is up goes. Where no order is left, all sends of its steady producers
/// are queued, as the pass has seen. The only error is want of memory.
pub fn finish<B: Behaviour + Drop>(
    table: &LeaseTable,
    me: NodeNo,
    place: Place<B>,
    tray: &mut Tray,
) -> Result<LeasePass, AllocError>
    requires stands { StandsAt (id_of table.now) (charter_of table.now) me place.pass place.node }
    ensures idle { IfOk result (Idle (id_of table.now) (charter_of table.now) me) }
    ensures saw { IfOk result (λ r. (turns : ℕ) → Progressed (charter_of table.now) turns me [] place.pass place.node → SawAll (charter_of table.now) turns me r) }
    ensures posts { OnOk result (KeepsTray (charter_of table.now) tray.old tray.new) }
{
    let Place { pass, node } = place;
    match node {
        None => Ok(pass),
        Some(node) => crash(table, me, pass, node, tray),
    }
}
