//! What a worker shows of a packet that its node posted. Where a record that it confirms can't be
//! shown, the packet is lost.
ghost use Rattle.std.specs.Prelude.{◌≡◌, true, false, IfSome, Some, IsTrue};
ghost use Rattle.yard_model.specs.declared.incarnation.Slot.TheVariants as slot;
ghost use Rattle.yard_model.specs.Genuine.{is_genuine_packet, is_shard};
ghost use Rattle.yard_model.specs.Lawful.{is_of_shard};
ghost use Rattle.actor_laws.specs.Hands.{held_list};
ghost use Rattle.shard_store.specs.Stores.{slot_of_ref, script_of_ref, entries_of_ref};
ghost use Rattle.lease_table.specs.Belongs.{id_of, charter_of};
ghost use Rattle.lease_table.specs.Fits.{recorded, home_of};
ghost use Rattle.node_runner.specs.Rested.{Rested, ArePublished};
ghost use Rattle.node_runner.specs.Parcels.{is_shown, is_within_packet};
ghost use Rattle.node_runner.specs.Shown.{confirmed_of, IsRecordedIn};

use crate::offer::{Confirmed, confirmed_of};
use crate::parcel::{Run, is_within_limit};
use crate::up_node::UpNode;
use behaviour_core::Behaviour;
use lease_table::{LeasePass, LeaseTable, Note};
use shard_extract::shard_of;
use shard_store::{ShardStore, StoreRef};
use yard_model::{Charter, EntityName, NodeNo, Packet, ShardNo, Slot};

/// A note of the pass for a packet that the node posted in a turn, after which what it holds was published: where the
/// packet confirms a record, it has seen that. None where an incarnation in the packet has a number above
/// 4,000,000,000, or where the node hosts no shard with that record.
pub fn note_of<J: Run, B: Behaviour + Drop>(
    table: &LeaseTable,
    pass: LeasePass,
    me: NodeNo,
    node: &UpNode<B>,
    charter: &Charter,
    packet: &Packet,
) -> (LeasePass, Option<Note>)
    requires run { (J.script ≡ charter_of table.now) × (J.table ≡ id_of table.now) }
    requires charter { charter.now ≡ charter_of table.now }
    requires rested { Rested (id_of table.now) (charter_of table.now) me pass node.now }
    requires published { ArePublished (charter_of table.now) pass node.now.state }
    requires genuine { is_genuine_packet (charter_of table.now) packet.now ≡ true }
    ensures pass { result.0 ≡ pass }
    ensures belongs { IfSome result.1 (λ w. w.table ≡ J.table) }
    ensures within { IfSome result.1 (λ _. is_within_packet packet.now ≡ true) }
    ensures shown { IfSome result.1 (λ w. is_shown J.script packet.now.body (Some w) ≡ true) }
{
    let _ = me;
    if !is_within_limit(packet) {
        return (pass, None);
    }
    match confirmed_of(&packet.body) {
        None => {
            let (pass, note) = table.note(pass);
            (pass, Some(note))
        }
        Some(confirmed) => with_note::<J, B>(table, pass, node, charter, packet, &confirmed),
    }
}

/// The same for a packet that confirms this record.
fn with_note<J: Run, B: Behaviour + Drop>(
    table: &LeaseTable,
    pass: LeasePass,
    node: &UpNode<B>,
    charter: &Charter,
    packet: &Packet,
    confirmed: &Confirmed,
) -> (LeasePass, Option<Note>)
    requires run { (J.script ≡ charter_of table.now) × (J.table ≡ id_of table.now) }
    requires charter { charter.now ≡ charter_of table.now }
    requires script { node.now.script ≡ charter_of table.now }
    requires table { pass.table ≡ id_of table.now }
    requires published { ArePublished (charter_of table.now) pass node.now.state }
    requires genuine { is_genuine_packet (charter_of table.now) packet.now ≡ true }
    requires confirms { confirmed_of packet.now.body ≡ Some confirmed.now }
    ensures pass { result.0 ≡ pass }
    ensures belongs { IfSome result.1 (λ w. w.table ≡ J.table) }
    ensures shown { IfSome result.1 (λ w. is_shown J.script packet.now.body (Some w) ≡ true) }
{
    let shard = home(charter, &confirmed.entity);
    if !is_recorded(node, shard, confirmed) {
        return (pass, None);
    }
    let (pass, note) = table.note(pass);
    (pass, Some(note))
}

/// The shard of a name.
pub(crate) fn home(charter: &Charter, entity: &EntityName) -> ShardNo
    ensures home { result ≡ home_of charter.now entity.now }
    ensures shard { is_shard charter.now result ≡ true }
{
    shard_of(entity, charter.config().shards)
}

/// Whether the node hosts this shard, which is the entity's, and the record stands in its list.
fn is_recorded<B: Behaviour + Drop>(node: &UpNode<B>, shard: ShardNo, confirmed: &Confirmed) -> bool
    requires shard { is_shard node.now.script shard ≡ true }
    requires name { IsTrue (is_of_shard node.now.script shard confirmed.now.entity) }
    ensures { result ≡ true → IsRecordedIn shard confirmed.now node.now.state }
{
    match node.held_store(Slot::Shard(shard)) {
        Some(store) => is_in_journal(shard_ref(store, shard), confirmed),
        None => false,
    }
}

/// Whether the record stands in the journal of its entity, which is of this shard.
pub(crate) fn is_in_journal(store: &ShardStore, confirmed: &Confirmed) -> bool
    requires name { IsTrue (is_of_shard store.now.script store.now.shard confirmed.now.entity) }
    ensures { result ≡ recorded confirmed.now.entity confirmed.now.producer confirmed.now.number store.now.entries }
{
    let journal = store.journal(&confirmed.entity);
    confirmed.number <= journal.position(confirmed.producer)
}

/// The store of this shard.
pub(crate) fn shard_ref<'a>(store: StoreRef<'a>, shard: ShardNo) -> &'a ShardStore
    requires { slot_of_ref store ≡ slot.Shard shard }
    ensures shard { (result.now.script ≡ script_of_ref store.entry) × (result.now.shard ≡ shard) }
    ensures entries { result.now.entries ≡ entries_of_ref store.entry }
{
    match store {
        StoreRef::Shard(store) => store,
        _ => unreachable!(),
    }
}
