//! What a packet needs before its node takes it. Where it can't be shown, the packet is lost.
ghost use Rattle.std.specs.Prelude.{◌≡◌, ◌≤◌, ◌-◌, [], true, IfSome, Some};
ghost use Rattle.yard_model.specs.declared.incarnation.Slot.TheVariants as slot;
ghost use Rattle.yard_model.specs.Genuine.{is_genuine_packet, is_shard, is_producer};
ghost use Rattle.yard_model.specs.Producer.{Producer};
ghost use Rattle.yard_model.specs.SlotReads.{queued};
ghost use Rattle.yard_model.specs.Words.{at};
ghost use Rattle.actor_laws.specs.Hands.{held_list};
ghost use Rattle.shard_store.specs.Stores.{slot_of_ref, entries_of_ref};
ghost use Rattle.lease_table.specs.Belongs.{id_of, charter_of};
ghost use Rattle.lease_table.specs.Fits.{is_within};
ghost use Rattle.lease_table.specs.Leasing.{Met};
ghost use Rattle.node_runner.specs.Rested.{Rested, ArePublished, SeesOn, means};
ghost use Rattle.node_runner.specs.Parcels.{is_shown};
ghost use Rattle.node_runner.specs.Shown.{confirmed_of, AreApart, IsHanded};

use crate::record::{home, is_in_journal, shard_ref};
use crate::up_node::UpNode;
use behaviour_core::Behaviour;
use durable_queue::QueueStore;
use lease_table::{LeasePass, LeaseTable, Note};
use shard_store::StoreRef;
use yard_model::{Body, Charter, EntityName, NodeNo, Packet, ProducerNo, ShardNo, Slot};

/// A record that a packet confirms.
#[derive(Clone, Copy, Debug, PartialEq, Eq)]
pub struct Confirmed {
    /// Who sent the command.
    pub producer: ProducerNo,
    /// To whom.
    pub entity: EntityName,
    /// Its number in the pair, from 1.
    pub number: u32,
}

/// The pass once it has seen what the packet's note has, and whether the node may take the packet: it is for
/// this incarnation, the record that it confirms was seen, and, where the node holds the producer's queue,
/// its number is queued there.
pub fn handed<B: Behaviour + Drop>(
    table: &LeaseTable,
    pass: LeasePass,
    me: NodeNo,
    node: &UpNode<B>,
    charter: &Charter,
    packet: &Packet,
    note: Option<Note>,
) -> (LeasePass, bool)
    requires charter { charter.now ≡ charter_of table.now }
    requires rested { Rested (id_of table.now) (charter_of table.now) me pass node.now }
    requires published { ArePublished (charter_of table.now) pass node.now.state }
    requires genuine { is_genuine_packet (charter_of table.now) packet.now ≡ true }
    requires within { is_within packet.now.from.number ≡ true }
    requires note { IfSome note (λ w. w.table ≡ id_of table.now) }
    requires shown { is_shown (charter_of table.now) packet.now.body note ≡ true }
    ensures rested { Rested (id_of table.now) (charter_of table.now) me result.0 node.now }
    ensures published { ArePublished (charter_of table.now) result.0 node.now.state }
    ensures sees { SeesOn me pass result.0 }
    ensures may { result.1 ≡ true → IsHanded (charter_of table.now) me result.0 node.now packet.now }
{
    are_apart(&packet.body);
    if packet.to != node.who() {
        return (pass, false);
    }
    let Some(confirmed) = confirmed_of(&packet.body) else {
        return (pass, true);
    };
    let Some(note) = note else {
        return (pass, false);
    };
    let (pass, is_seen) = see_record(table, pass, me, node, charter, packet, &confirmed, note);
    if !is_seen {
        return (pass, false);
    }
    let is_there = is_queued(
        node,
        confirmed.producer,
        &confirmed.entity,
        confirmed.number,
    );
    (pass, is_there)
}

/// The pass once it has seen the record, and whether it has: a node that hosts the entity's shard has the
/// record in its list, and any other sees of that shard what the note has.
fn see_record<B: Behaviour + Drop>(
    table: &LeaseTable,
    pass: LeasePass,
    me: NodeNo,
    node: &UpNode<B>,
    charter: &Charter,
    packet: &Packet,
    confirmed: &Confirmed,
    note: Note,
) -> (LeasePass, bool)
    requires charter { charter.now ≡ charter_of table.now }
    requires rested { Rested (id_of table.now) (charter_of table.now) me pass node.now }
    requires published { ArePublished (charter_of table.now) pass node.now.state }
    requires genuine { is_genuine_packet (charter_of table.now) packet.now ≡ true }
    requires confirms { confirmed_of packet.now.body ≡ Some confirmed.now }
    requires note { note.table ≡ id_of table.now }
    requires shown { is_shown (charter_of table.now) packet.now.body (Some note) ≡ true }
    ensures rested { Rested (id_of table.now) (charter_of table.now) me result.0 node.now }
    ensures published { ArePublished (charter_of table.now) result.0 node.now.state }
    ensures sees { SeesOn me pass result.0 }
    ensures seen { result.1 ≡ true → (means me result.0).vouches confirmed.now.entity confirmed.now.producer confirmed.now.number ≡ true }
{
    let _ = me;
    let _ = packet;
    let shard = home(charter, &confirmed.entity);
    match node.held_store(Slot::Shard(shard)) {
        Some(store) => {
            let is_seen = is_in_journal(shard_ref(store, shard), confirmed);
            (pass, is_seen)
        }
        None => (meet_record(table, pass, shard, note), true),
    }
}

/// The record that a packet confirms; None exactly where it confirms none.
pub(crate) fn confirmed_of(body: &Body) -> Option<Confirmed>
    ensures { result ≡ confirmed_of body.now }
{
    match *body {
        Body::Ack {
            producer,
            entity,
            confirmed,
        } => Some(Confirmed {
            producer,
            entity,
            number: confirmed,
        }),
        Body::Request {
            producer,
            entity,
            confirmed,
            ..
        } => Some(Confirmed {
            producer,
            entity,
            number: confirmed,
        }),
        _ => None,
    }
}

/// The members of a view are of different nodes: their type says so. It does nothing.
fn are_apart(body: &Body)
    ensures { AreApart body.now }
{
    if let Body::View { members, .. } = body {
        members.len();
    }
}

/// The pass has seen of the shard what the note has.
fn meet_record(table: &LeaseTable, pass: LeasePass, shard: ShardNo, note: Note) -> LeasePass
    requires pass { (pass.table ≡ id_of table.now) × (pass.view.charter ≡ charter_of table.now) }
    requires note { note.table ≡ id_of table.now }
    requires shard { is_shard (charter_of table.now) shard ≡ true }
    ensures table { result.table ≡ pass.table }
    ensures none { note.view.numbers ≡ [] }
    ensures met { Met pass.view note.view shard result.view }
{
    note.stands();
    table.meet(pass, note, Slot::Shard(shard))
}

/// Whether so many numbers to the entity are queued, where the node holds the producer's queue.
fn is_queued<B: Behaviour + Drop>(
    node: &UpNode<B>,
    p: ProducerNo,
    entity: &EntityName,
    number: u32,
) -> bool
    requires { is_producer node.now.script p ≡ true }
    ensures { result ≡ true → (k : Producer) → at node.now.state.producers (p - 1) ≡ Some k → number ≤ queued entity.now k.entries }
{
    match node.held_store(Slot::Queue(p)) {
        Some(store) => {
            let queue = queue_ref(store, p);
            number <= queue.queued(entity)
        }
        None => true,
    }
}

/// The store of this queue.
fn queue_ref<'a>(store: StoreRef<'a>, p: ProducerNo) -> &'a QueueStore
    requires { slot_of_ref store ≡ slot.Queue p }
    ensures { result.now.entries ≡ entries_of_ref store.entry }
{
    match store {
        StoreRef::Queue(store) => store,
        _ => unreachable!(),
    }
}
