//! What a node makes goes to the mail.
ghost use Rattle.std.specs.Prelude.{◌≡◌, ◌-◌, ◌≤◌, length, slice_set, None, IfOk, OnOk, IsSomeAnd};
ghost use Rattle.yard_model.specs.declared.input.Input.TheVariants as input;
ghost use Rattle.yard_model.specs.Words.{at};
ghost use Rattle.shard_lease.specs.Book.{meaning_of};
ghost use Rattle.node_core.specs.Leased.{Rests};
ghost use Rattle.node_core.specs.Standing.{IsReady};
ghost use Rattle.world_sim.specs.Turns.{MayHandle, Handled, HandledAt, Ends};

use crate::mail::Mail;
use behaviour_core::Behaviour;
use node_core::Node;
use shard_lease::LeaseBook;
use std::alloc::AllocError;
use yard_model::{Charter, Incarnation, Input, NodeNo, Packet};

/// Makes room for what a node may make, in the mail and in the node's stores. The only error is want
/// of memory.
#[inline(always)]
fn make_room<B: Behaviour + Drop>(mail: &mut Mail, node: &mut Node<B>) -> Result<(), AllocError>
    ensures script { node.new.script ≡ node.old.script }
    ensures state { node.new.state ≡ node.old.state }
    ensures items { mail.new.items ≡ mail.old.items }
    ensures packets { mail.new.packets ≡ mail.old.packets }
    ensures fresh { mail.new.fresh ≡ mail.old.fresh }
    ensures full { mail.new.full ≡ mail.old.full }
    ensures ready { OnOk result (IsReady node.new mail.new.spare) }
{
    node.reserve(mail.out())
}

/// A node handles an input, for which there is room.
fn hand_roomy<B: Behaviour + Drop>(
    charter: &Charter,
    input: &Input,
    node: &mut Node<B>,
    book: &mut LeaseBook,
    mail: &mut Mail,
)
    requires may { MayHandle charter.now input.now book.old node.old }
    requires ready { IsReady node.old mail.old.spare }
    ensures { Handled input.now book.old book.new mail.old mail.new node.old node.new }
{
    node.handle(charter, input, book, mail.out());
}

/// A node handles an input. The only error is want of memory.
fn hand<B: Behaviour + Drop>(
    charter: &Charter,
    input: &Input,
    node: &mut Node<B>,
    book: &mut LeaseBook,
    mail: &mut Mail,
) -> Result<(), AllocError>
    requires { MayHandle charter.now input.now book.old node.old }
    ensures { OnOk result (Handled input.now book.old book.new mail.old mail.new node.old node.new) }
{
    make_room(mail, node)?;
    hand_roomy(charter, input, node, book, mail);
    Ok(())
}

/// The node of this number, which is up, handles an input in its place. The only error is want of
/// memory.
pub(crate) fn hand_at<B: Behaviour + Drop>(
    nodes: &mut Vec<Option<Node<B>>>,
    n: NodeNo,
    charter: &Charter,
    input: &Input,
    book: &mut LeaseBook,
    mail: &mut Mail,
) -> Result<(), AllocError>
    requires there { n ≤ length nodes.old.items }
    requires up { IsSomeAnd (at nodes.old.items (n - 1)) (MayHandle charter.now input.now book.old) }
    ensures { OnOk result (IsSomeAnd (at nodes.old.items (n - 1)) (HandledAt input.now n book.old book.new mail.old mail.new nodes.old.items nodes.new.items)) }
{
    let place = n.get() as usize - 1;
    match &mut nodes[place] {
        Some(node) => hand(charter, input, node, book, mail),
        None => unreachable!(),
    }
}

/// A node handles a packet, for which there is room.
fn hand_roomy_packet<B: Behaviour + Drop>(
    charter: &Charter,
    packet: &Packet,
    node: &mut Node<B>,
    book: &mut LeaseBook,
    mail: &mut Mail,
)
    requires may { MayHandle charter.now (input.Packet packet.now) book.old node.old }
    requires ready { IsReady node.old mail.old.spare }
    ensures { Handled (input.Packet packet.now) book.old book.new mail.old mail.new node.old node.new }
{
    node.handle_packet(charter, packet, book, mail.out());
}

/// A node handles a packet. The only error is want of memory.
fn hand_packet<B: Behaviour + Drop>(
    charter: &Charter,
    packet: &Packet,
    node: &mut Node<B>,
    book: &mut LeaseBook,
    mail: &mut Mail,
) -> Result<(), AllocError>
    requires { MayHandle charter.now (input.Packet packet.now) book.old node.old }
    ensures { OnOk result (Handled (input.Packet packet.now) book.old book.new mail.old mail.new node.old node.new) }
{
    make_room(mail, node)?;
    hand_roomy_packet(charter, packet, node, book, mail);
    Ok(())
}

/// The node of this number, which is up, handles a packet in its place. The only error is want of
/// memory.
pub(crate) fn hand_packet_at<B: Behaviour + Drop>(
    nodes: &mut Vec<Option<Node<B>>>,
    n: NodeNo,
    charter: &Charter,
    packet: &Packet,
    book: &mut LeaseBook,
    mail: &mut Mail,
) -> Result<(), AllocError>
    requires there { n ≤ length nodes.old.items }
    requires up { IsSomeAnd (at nodes.old.items (n - 1)) (MayHandle charter.now (input.Packet packet.now) book.old) }
    ensures { OnOk result (IsSomeAnd (at nodes.old.items (n - 1)) (HandledAt (input.Packet packet.now) n book.old book.new mail.old mail.new nodes.old.items nodes.new.items)) }
{
    let place = n.get() as usize - 1;
    match &mut nodes[place] {
        Some(node) => hand_packet(charter, packet, node, book, mail),
        None => unreachable!(),
    }
}

/// A node's end: what it held is freed.
fn end<B: Behaviour + Drop>(node: Node<B>, book: &mut LeaseBook, mail: &mut Mail)
    requires ready { IsReady node mail.old.spare }
    requires rests { Rests (meaning_of book.old) node.script node.state }
    ensures { Ends book.old book.new mail.old mail.new node }
{
    node.crash(book, mail.out());
}

/// A node's end, for which there is room: which incarnation it was.
fn end_roomy<B: Behaviour + Drop>(
    node: Node<B>,
    book: &mut LeaseBook,
    mail: &mut Mail,
) -> Incarnation
    requires ready { IsReady node mail.old.spare }
    requires rests { Rests (meaning_of book.old) node.script node.state }
    ensures who { result ≡ node.state.who }
    ensures ended { Ends book.old book.new mail.old mail.new node }
{
    let who = node.who();
    end(node, book, mail);
    who
}

/// A node's end, where this answers whether room was made: which incarnation it was.
fn end_after<B: Behaviour + Drop>(
    room: Result<(), AllocError>,
    node: Node<B>,
    book: &mut LeaseBook,
    mail: &mut Mail,
) -> Result<Incarnation, AllocError>
    requires ready { OnOk room (IsReady node mail.old.spare) }
    requires rests { Rests (meaning_of book.old) node.script node.state }
    ensures { IfOk result (λ who. (who ≡ node.state.who) × Ends book.old book.new mail.old mail.new node) }
{
    match room {
        Ok(()) => Ok(end_roomy(node, book, mail)),
        Err(error) => {
            drop(node);
            Err(error)
        }
    }
}

/// A node's end: which incarnation it was. The only error is want of memory.
fn end_one<B: Behaviour + Drop>(
    node: Node<B>,
    book: &mut LeaseBook,
    mail: &mut Mail,
) -> Result<Incarnation, AllocError>
    requires { Rests (meaning_of book.old) node.script node.state }
    ensures { IfOk result (λ who. (who ≡ node.state.who) × Ends book.old book.new mail.old mail.new node) }
{
    let mut node = node;
    let room = make_room(mail, &mut node);
    end_after(room, node, book, mail)
}

/// What stands at the place of this number is taken out of the table.
fn take_at<B: Behaviour + Drop>(nodes: &mut Vec<Option<Node<B>>>, n: NodeNo) -> Option<Node<B>>
    requires { n ≤ length nodes.old.items }
    ensures node { result ≡ at nodes.old.items (n - 1) }
    ensures nodes { nodes.new.items ≡ slice_set nodes.old.items (n - 1) None }
{
    let place = n.get() as usize - 1;
    nodes[place].take()
}

/// The node of this number, which is up, is gone, and what it held is freed: which incarnation it
/// was. The only error is want of memory.
pub(crate) fn end_at<B: Behaviour + Drop>(
    nodes: &mut Vec<Option<Node<B>>>,
    n: NodeNo,
    book: &mut LeaseBook,
    mail: &mut Mail,
) -> Result<Incarnation, AllocError>
    requires there { n ≤ length nodes.old.items }
    requires up { IsSomeAnd (at nodes.old.items (n - 1)) (λ v. Rests (meaning_of book.old) v.script v.state) }
    ensures nodes { nodes.new.items ≡ slice_set nodes.old.items (n - 1) None }
    ensures ended { IfOk result (λ who. IsSomeAnd (at nodes.old.items (n - 1)) (λ v. (who ≡ v.state.who) × Ends book.old book.new mail.old mail.new v)) }
{
    match take_at(nodes, n) {
        Some(node) => end_one(node, book, mail),
        None => unreachable!(),
    }
}
