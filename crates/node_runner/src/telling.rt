//! What a turn told is published: the list of each slot of which it told an entry.
ghost use Rattle.std.specs.Prelude.{◌≡◌, true, [], ◌∷◌, ◌++◌, Some, IfSome, OnOk};
ghost use Rattle.std.specs.List.{list_all};
ghost use Rattle.yard_model.specs.declared.out.Item.TheVariants as item;
ghost use Rattle.yard_model.specs.Genuine.{is_slot_of, is_genuine_packet};
ghost use Rattle.yard_model.specs.Script.{setting};
ghost use Rattle.yard_model.specs.Trace.{slot_of};
ghost use Rattle.actor_laws.specs.Hands.{held_list};
ghost use Rattle.shard_store.specs.Stores.{entries_of_ref, place_of};
ghost use Rattle.lease_table.specs.Belongs.{id_of, charter_of};
ghost use Rattle.lease_table.specs.Lists.{seen_at};
ghost use Rattle.node_runner.specs.Posts.{is_genuine_item, AreGenuine, ArePackets};
ghost use Rattle.node_runner.specs.Rested.{Rested, ArePublished, SeesOn};
ghost use Rattle.node_runner.specs.Told.{AreShownBut, AreToldShown, IsShownAt, StayShown};

use crate::record::home;
use crate::up_node::UpNode;
use behaviour_core::Behaviour;
use lease_table::{LeasePass, LeaseTable};
use shard_store::StoreRef;
use std::alloc::AllocError;
use std::slice;
use yard_model::{Charter, Fact, Item, NodeNo, Out, Packet, Slot};

/// The list of each slot of which an entry is in `out` is published, where the node holds the slot; the
/// packets in `out` go behind those in `posts`. The only error is want of memory.
pub fn publish_told<B: Behaviour + Drop>(
    table: &LeaseTable,
    pass: &mut LeasePass,
    node: &UpNode<B>,
    charter: &Charter,
    me: NodeNo,
    out: &mut Out,
    posts: &mut Vec<Packet>,
) -> Result<(), AllocError>
    requires charter { charter.now ≡ charter_of table.now }
    requires rested { Rested (id_of table.now) (charter_of table.now) me pass.old node.now }
    requires shown { AreShownBut (charter_of table.now) pass.old node.now.state out.old.items }
    ensures rested { OnOk result (Rested (id_of table.now) (charter_of table.now) me pass.new node.now) }
    ensures published { OnOk result (ArePublished (charter_of table.now) pass.new node.now.state) }
    ensures sees { OnOk result (SeesOn me pass.old pass.new) }
    ensures emptied { OnOk result (out.new.items ≡ []) }
    ensures posts { OnOk result (AreGenuine (charter_of table.now) out.old.items → ArePackets (charter_of table.now) posts.old.items → ArePackets (charter_of table.now) posts.new.items) }
{
    while let Some(item) = out.first() {
        publish_item(table, pass, node, charter, me, item, posts)?;
        out.drop_first();
    }
    Ok(())
}

/// Publishes the list of the slot of which a fact is an entry; a packet goes behind the others. The only
/// error is want of memory.
fn publish_item<B: Behaviour + Drop>(
    table: &LeaseTable,
    pass: &mut LeasePass,
    node: &UpNode<B>,
    charter: &Charter,
    me: NodeNo,
    item: &Item,
    posts: &mut Vec<Packet>,
) -> Result<(), AllocError>
    requires charter { charter.now ≡ charter_of table.now }
    requires rested { Rested (id_of table.now) (charter_of table.now) me pass.old node.now }
    ensures rested { OnOk result (Rested (id_of table.now) (charter_of table.now) me pass.new node.now) }
    ensures sees { OnOk result (SeesOn me pass.old pass.new) }
    ensures stay { OnOk result (StayShown (charter_of table.now) pass.old pass.new node.now.state) }
    ensures told { OnOk result (AreToldShown (charter_of table.now) pass.new node.now.state (item.now ∷ [])) }
    ensures posts { OnOk result (is_genuine_item (charter_of table.now) item.now ≡ true → ArePackets (charter_of table.now) posts.old.items → ArePackets (charter_of table.now) posts.new.items) }
{
    match item {
        Item::Fact(fact) => {
            publish_fact(table, pass, node, charter, me, fact);
            Ok(())
        }
        Item::Post(packet) => {
            push_copy(posts, packet)?;
            Ok(())
        }
    }
}

/// A packet goes behind the others, and is copied to its place at once. The only error is want of memory.
#[inline(always)]
fn push_copy(posts: &mut Vec<Packet>, packet: &Packet) -> Result<(), AllocError>
    ensures { OnOk result (posts.new.items ≡ posts.old.items ++ packet.now ∷ []) }
{
    posts.extend_from_slice(slice::from_ref(packet))
}

/// Publishes the list of the slot of which the fact is an entry, if it is one.
fn publish_fact<B: Behaviour + Drop>(
    table: &LeaseTable,
    pass: &mut LeasePass,
    node: &UpNode<B>,
    charter: &Charter,
    me: NodeNo,
    fact: &Fact,
)
    requires charter { charter.now ≡ charter_of table.now }
    requires rested { Rested (id_of table.now) (charter_of table.now) me pass.old node.now }
    ensures rested { Rested (id_of table.now) (charter_of table.now) me pass.new node.now }
    ensures sees { SeesOn me pass.old pass.new }
    ensures stay { StayShown (charter_of table.now) pass.old pass.new node.now.state }
    ensures told { AreToldShown (charter_of table.now) pass.new node.now.state (item.Fact fact.now ∷ []) }
{
    let Some(slot) = slot_of(fact, charter) else {
        return;
    };
    publish_slot(table, pass, node, charter, me, &slot);
}

/// Publishes the list of the slot, where the node holds it.
fn publish_slot<B: Behaviour + Drop>(
    table: &LeaseTable,
    pass: &mut LeasePass,
    node: &UpNode<B>,
    charter: &Charter,
    me: NodeNo,
    slot: &Slot,
)
    requires charter { charter.now ≡ charter_of table.now }
    requires rested { Rested (id_of table.now) (charter_of table.now) me pass.old node.now }
    ensures rested { Rested (id_of table.now) (charter_of table.now) me pass.new node.now }
    ensures sees { SeesOn me pass.old pass.new }
    ensures stay { StayShown (charter_of table.now) pass.old pass.new node.now.state }
    ensures shown { IsShownAt (charter_of table.now) pass.new node.now.state slot.now }
{
    if !charter.has_slot(slot) {
        return;
    }
    let Some(store) = node.held_store(*slot) else {
        return;
    };
    publish_store(table, pass, node, me, slot, store);
}

/// Publishes the list of a slot that the node holds.
fn publish_store<B: Behaviour + Drop>(
    table: &LeaseTable,
    pass: &mut LeasePass,
    node: &UpNode<B>,
    me: NodeNo,
    slot: &Slot,
    store: StoreRef<'_>,
)
    requires rested { Rested (id_of table.now) (charter_of table.now) me pass.old node.now }
    requires slot { is_slot_of (charter_of table.now) slot.now ≡ true }
    requires store { held_list slot.now node.now.state ≡ Some (entries_of_ref store) }
    ensures rested { Rested (id_of table.now) (charter_of table.now) me pass.new node.now }
    ensures sees { SeesOn me pass.old pass.new }
    ensures stay { StayShown (charter_of table.now) pass.old pass.new node.now.state }
    ensures shown { seen_at pass.new.view.seen (place_of (charter_of table.now).config slot.now) ≡ entries_of_ref store.entry }
{
    let _ = me;
    node.stands();
    pass.stands();
    table.publish(pass, *slot, store);
}

/// The slot of which the fact is an entry, if it is one.
#[inline(always)]
fn slot_of(fact: &Fact, charter: &Charter) -> Option<Slot>
    ensures { result ≡ slot_of (setting charter.now) fact.now }
{
    match fact {
        Fact::Granted(slot, _, _) => Some(*slot),
        Fact::Freed(slot, _, _) => Some(*slot),
        Fact::Registered(_) => Some(Slot::Coordinator),
        Fact::Terminated(_) => Some(Slot::Coordinator),
        Fact::Allocated(_, _) => Some(Slot::Coordinator),
        Fact::Deallocated(_) => Some(Slot::Coordinator),
        Fact::Wrote(entity, _) => Some(Slot::Shard(home(charter, entity))),
        Fact::Snapshot(entity, _) => Some(Slot::Shard(home(charter, entity))),
        Fact::Remembered(entity) => Some(Slot::Shard(home(charter, entity))),
        Fact::Forgotten(entity) => Some(Slot::Shard(home(charter, entity))),
        Fact::Queued(p, _, _, _) => Some(Slot::Queue(*p)),
        Fact::Confirmed(p, _, _) => Some(Slot::Queue(*p)),
        Fact::Reshard(_, _) => Some(Slot::Coordinator),
        Fact::Resharded(s, _, _) => Some(Slot::Shard(*s)),
        _ => None,
    }
}
