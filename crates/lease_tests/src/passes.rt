//! What the tests do with a pass: each step says what the pass has after it.
ghost use Rattle.std.specs.Prelude.{◌≡◌, ◌≤◌, IfOk, IfSome, true, length};
ghost use Rattle.yard_model.specs.declared.incarnation.Slot.TheVariants as slot;
ghost use Rattle.yard_model.specs.Genuine.{is_slot_of};
ghost use Rattle.shard_store.specs.Stores.{place_of, entries_of, spare_of};
ghost use Rattle.lease_table.specs.Belongs.{id_of, charter_of};
ghost use Rattle.lease_table.specs.Leasing.{Idle};
ghost use Rattle.lease_table.specs.Lists.{seen_at};
ghost use Rattle.lease_tests.specs.Holding.{two_nodes, MayAsk, Holding, Asked};

use lease_table::{LeasePass, LeaseTable, Note, empty_stores_are_ready};
use shard_lease::Acquire;
use shard_store::{Store, Stores};
use std::alloc::{AllocError, Global};
use yard_model::{
    Cause, Charter, Config, Incarnation, Kind, Line, NodeNo, Order, ProducerNo, QueueEntry, Slot,
};

/// The second node.
pub fn second() -> NodeNo
    ensures { result ≡ 2 }
{
    let Some(node) = NodeNo::new(2) else {
        unreachable!()
    };
    node
}

/// The first incarnation of node 1.
pub fn one() -> Incarnation
    ensures { result ≡ record { node = 1; number = 1 } }
{
    Incarnation {
        node: NodeNo::FIRST,
        number: 1,
    }
}

/// The first incarnation of node 2.
pub fn two() -> Incarnation
    ensures { result ≡ record { node = 2; number = 1 } }
{
    Incarnation {
        node: second(),
        number: 1,
    }
}

/// The first producer.
fn producer() -> ProducerNo
    ensures { result ≡ 1 }
{
    let Some(p) = ProducerNo::new(1) else {
        unreachable!()
    };
    p
}

/// Its queue.
pub fn queue() -> Slot
    ensures { result ≡ slot.Queue 1 }
{
    Slot::Queue(producer())
}

/// The script of two nodes.
fn script(
    alloc: Global,
    p: ProducerNo,
    first: NodeNo,
    second: NodeNo,
) -> Result<Charter, AllocError>
    requires producer { p ≡ 1 }
    requires first { first ≡ 1 }
    requires second { second ≡ 2 }
    ensures { IfOk result (λ c. c ≡ two_nodes) }
{
    let config = Config {
        nodes: 2,
        shards: 10,
        producers: 2,
        buffer: 100,
        window: 50,
        snapshot: 100,
        keep: 2,
        remember: true,
        kind: Kind::Counter,
    };
    let mut orders = Vec::new(alloc);
    orders.push(Line {
        number: 2,
        order: Order::Produce(p, first),
    })?;
    orders.push(Line {
        number: 3,
        order: Order::Produce(p, second),
    })?;
    Charter::new(alloc, config, orders)
}

/// A table of empty stores, and the passes of its two nodes.
pub fn opened(alloc: Global) -> Result<(LeaseTable, LeasePass, LeasePass), AllocError>
    ensures script { IfOk result (λ r. charter_of r.0 ≡ two_nodes) }
    ensures first { IfOk result (λ r. Idle (id_of r.0) two_nodes 1 r.1) }
    ensures second { IfOk result (λ r. Idle (id_of r.0) two_nodes 2 r.2) }
{
    let charter = script(alloc, producer(), NodeNo::FIRST, second())?;
    opened_for(alloc, &charter)
}

/// The same, of a charter of this script.
fn opened_for(
    alloc: Global,
    charter: &Charter,
) -> Result<(LeaseTable, LeasePass, LeasePass), AllocError>
    requires { charter.now ≡ two_nodes }
    ensures script { IfOk result (λ r. charter_of r.0 ≡ two_nodes) }
    ensures first { IfOk result (λ r. Idle (id_of r.0) two_nodes 1 r.1) }
    ensures second { IfOk result (λ r. Idle (id_of r.0) two_nodes 2 r.2) }
{
    empty_stores_are_ready();
    let (table, mut passes) = LeaseTable::make(alloc, charter, Stores::new(alloc, charter)?)?;
    let Some(first) = passes.next() else {
        unreachable!()
    };
    let Some(second) = passes.next() else {
        unreachable!()
    };
    Ok((table, first, second))
}

/// One claim, of a pass that holds nothing.
pub fn ask(table: &LeaseTable, pass: &mut LeasePass, who: Incarnation, slot: Slot) -> Acquire
    requires script { charter_of table.now ≡ two_nodes }
    requires may { MayAsk who slot }
    requires idle { Idle (id_of table.now) two_nodes who.node pass.old }
    ensures { Asked (id_of table.now) who slot result pass.new }
{
    table.acquire(pass, who, slot)
}

/// The slot is given back.
pub fn give_back(
    table: &LeaseTable,
    pass: &mut LeasePass,
    who: Incarnation,
    slot: Slot,
    store: Store,
)
    requires script { charter_of table.now ≡ two_nodes }
    requires slot { is_slot_of two_nodes slot ≡ true }
    requires holding { Holding (id_of table.now) who.node slot store pass.old }
    requires spare { 101 ≤ spare_of store }
    ensures { Idle (id_of table.now) two_nodes who.node pass.new }
{
    let _ = who;
    table.release(pass, slot, store, Cause::Released)
}

/// The slot's store; None where it is held.
pub fn take(
    table: &LeaseTable,
    mut pass: LeasePass,
    who: Incarnation,
    slot: Slot,
) -> Option<(LeasePass, Store)>
    requires script { charter_of table.now ≡ two_nodes }
    requires may { MayAsk who slot }
    requires idle { Idle (id_of table.now) two_nodes who.node pass }
    ensures { IfSome result (λ r. Holding (id_of table.now) who.node slot r.1 r.0) }
{
    match ask(table, &mut pass, who, slot) {
        Acquire::Granted(store) => Some((pass, store)),
        Acquire::Held(_) => None,
    }
}

/// The node that holds the slot; None where no node does.
pub fn find(
    table: &LeaseTable,
    mut pass: LeasePass,
    who: Incarnation,
    slot: Slot,
) -> Option<(LeasePass, NodeNo)>
    requires script { charter_of table.now ≡ two_nodes }
    requires may { MayAsk who slot }
    requires idle { Idle (id_of table.now) two_nodes who.node pass }
    ensures { IfSome result (λ r. Idle (id_of table.now) two_nodes who.node r.0) }
{
    match ask(table, &mut pass, who, slot) {
        Acquire::Granted(_) => None,
        Acquire::Held(node) => Some((pass, node)),
    }
}

/// The slot is given back, with room for what a release asks; None where memory ran out.
pub fn give(
    table: &LeaseTable,
    mut pass: LeasePass,
    who: Incarnation,
    slot: Slot,
    mut store: Store,
) -> Option<LeasePass>
    requires script { charter_of table.now ≡ two_nodes }
    requires slot { is_slot_of two_nodes slot ≡ true }
    requires holding { Holding (id_of table.now) who.node slot store pass }
    ensures { IfSome result (Idle (id_of table.now) two_nodes who.node) }
{
    if store.reserve(101).is_err() {
        return None;
    }
    give_back(table, &mut pass, who, slot, store);
    Some(pass)
}

/// How many entries of the slot are published.
pub fn count(
    table: &LeaseTable,
    mut pass: LeasePass,
    who: Incarnation,
    slot: Slot,
) -> (LeasePass, u32)
    requires script { charter_of table.now ≡ two_nodes }
    requires slot { is_slot_of two_nodes slot ≡ true }
    requires idle { Idle (id_of table.now) two_nodes who.node pass }
    ensures { Idle (id_of table.now) two_nodes who.node result.0 }
{
    let _ = who;
    let published = table.check(&mut pass, slot);
    (pass, published)
}

/// Publishes the store's list, which the pass has seen then.
pub fn publish(
    table: &LeaseTable,
    mut pass: LeasePass,
    who: Incarnation,
    slot: Slot,
    store: &Store,
) -> LeasePass
    requires script { charter_of table.now ≡ two_nodes }
    requires slot { is_slot_of two_nodes slot ≡ true }
    requires holding { Holding (id_of table.now) who.node slot store.now pass }
    ensures holding { Holding (id_of table.now) who.node slot store.now result }
    ensures seen { seen_at result.view.seen (place_of two_nodes.config slot) ≡ entries_of store.now }
{
    let _ = who;
    pass.stands();
    let _leased = store.is_leased();
    table.publish(&mut pass, slot, store.as_ref());
    pass
}

/// Publishes the store's list, and makes a note that has seen it.
pub fn show(
    table: &LeaseTable,
    pass: LeasePass,
    who: Incarnation,
    slot: Slot,
    store: &Store,
) -> Note
    requires script { charter_of table.now ≡ two_nodes }
    requires slot { is_slot_of two_nodes slot ≡ true }
    requires holding { Holding (id_of table.now) who.node slot store.now pass }
    ensures table { result.table ≡ id_of table.now }
    ensures seen { length (seen_at result.view.seen (place_of two_nodes.config slot)) ≡ length (entries_of store.now) }
{
    let pass = publish(table, pass, who, slot, store);
    let (_, note) = table.note(pass);
    note
}

/// The pass meets a note that has seen so many entries of the slot: whether it has seen as many then, and
/// no more.
pub fn meet(
    table: &LeaseTable,
    pass: LeasePass,
    who: Incarnation,
    note: Note,
    slot: Slot,
    count: u32,
) -> (LeasePass, bool)
    requires script { charter_of table.now ≡ two_nodes }
    requires slot { is_slot_of two_nodes slot ≡ true }
    requires idle { Idle (id_of table.now) two_nodes who.node pass }
    requires table { note.table ≡ id_of table.now }
    requires note { count ≤ length (seen_at note.view.seen (place_of two_nodes.config slot)) }
    ensures { result.1 ≡ true → length (seen_at result.0.view.seen (place_of two_nodes.config slot)) ≡ count }
{
    let _ = who;
    let slot = &slot;
    let mut pass = table.meet(pass, note, *slot);
    let published = table.check(&mut pass, *slot);
    (pass, published == count)
}

/// The entries of a queue's store.
pub fn entries(store: &Store) -> &[QueueEntry] {
    match store {
        Store::Queue(store) => store.entries(),
        _ => &[],
    }
}
