//! The lease table between two threads: each takes the coordinator's slot, if it is free, and gives it back.
ghost use Rattle.std.specs.Prelude.{◌≡◌, ◌≤◌, IfOk, IfSome, true};
ghost use Rattle.shard_store.specs.Stores.{script_of, slot_of, entries_of, spare_of};
ghost use Rattle.yard_model.specs.Behaviour.{is_in};
ghost use Rattle.lease_table.specs.Belongs.{id_of, charter_of};
ghost use Rattle.lease_table.specs.Leasing.{Idle, Closes};
ghost use Rattle.embedding.specs.Cluster.{cluster};
ghost use Rattle.embedding.specs.Holding.{MayAsk, Holding, Asked, AreFree};

use crate::cluster::charter;
use lease_table::{LeasePass, LeaseTable, empty_stores_are_ready};
use shard_lease::Acquire;
use shard_store::{Store, Stores};
use std::alloc::{AllocError, Global};
use std::thread::Threads;
use std::{io, thread};
use yard_model::{Cause, Charter, CoordEntry, Incarnation, Lists, NodeNo, Slot};

/// Claims the coordinator's slot, for a pass that holds nothing.
fn ask(table: &LeaseTable, pass: &mut LeasePass, who: Incarnation) -> Acquire
    requires script { charter_of table.now ≡ cluster }
    requires may { MayAsk who }
    requires idle { Idle (id_of table.now) cluster who.node pass.old }
    ensures { Asked (id_of table.now) who result pass.new }
{
    table.acquire(pass, who, Slot::Coordinator)
}

/// From here on others may see the list of the store.
fn announce(table: &LeaseTable, pass: &mut LeasePass, who: Incarnation, store: &Store)
    requires script { charter_of table.now ≡ cluster }
    requires holding { Holding (id_of table.now) who.node store.now pass.old }
    ensures { Holding (id_of table.now) who.node store.now pass.new }
{
    let _ = who;
    let _ = store.is_leased();
    pass.stands();
    table.publish(pass, Slot::Coordinator, store.as_ref());
}

/// Gives the slot back.
fn give_back(table: &LeaseTable, pass: &mut LeasePass, who: Incarnation, store: Store)
    requires script { charter_of table.now ≡ cluster }
    requires holding { Holding (id_of table.now) who.node store pass.old }
    requires spare { 101 ≤ spare_of store }
    ensures { Idle (id_of table.now) cluster who.node pass.new }
{
    let _ = who;
    table.release(pass, Slot::Coordinator, store, Cause::Released);
}

/// The store with room for what is appended under a lease. None where memory ran out.
fn with_room(mut store: Store) -> Option<Store>
    ensures spare { IfSome result (λ x. 101 ≤ spare_of x) }
    ensures same { IfSome result (λ x. (script_of x ≡ script_of store) × (slot_of x ≡ slot_of store) × (entries_of x ≡ entries_of store)) }
{
    match store.reserve(101) {
        Ok(()) => Some(store),
        Err(_) => {
            drop(store);
            None
        }
    }
}

/// A turn of a node: whether the slot was free. None where memory ran out.
fn turn(table: &LeaseTable, mut pass: LeasePass, who: Incarnation) -> Option<(LeasePass, bool)>
    requires script { charter_of table.now ≡ cluster }
    requires may { MayAsk who }
    requires idle { Idle (id_of table.now) cluster who.node pass }
    ensures { IfSome result (λ r. Idle (id_of table.now) cluster who.node r.0) }
{
    let who = &who;
    match ask(table, &mut pass, *who) {
        Acquire::Granted(store) => {
            let store = with_room(store)?;
            announce(table, &mut pass, *who, &store);
            give_back(table, &mut pass, *who, store);
            Some((pass, true))
        }
        Acquire::Held(_) => Some((pass, false)),
    }
}

/// A turn of the first incarnation of this node.
fn first_turn(table: &LeaseTable, pass: LeasePass, node: NodeNo) -> Option<(LeasePass, bool)>
    requires script { charter_of table.now ≡ cluster }
    requires node { is_in 1 2 node ≡ true }
    requires idle { Idle (id_of table.now) cluster node pass }
    ensures { IfSome result (λ r. Idle (id_of table.now) cluster node r.0) }
{
    turn(table, pass, Incarnation { node, number: 1 })
}

/// A turn of each node, in a thread of its own: one pass for both, and whether either had the slot. None where
/// memory ran out.
fn both_turns<R: Threads + Sync>(
    rt: &R,
    table: &LeaseTable,
    one: LeasePass,
    two: LeasePass,
) -> Option<(LeasePass, bool)>
    requires script { charter_of table.now ≡ cluster }
    requires first { Idle (id_of table.now) cluster 1 one }
    requires second { Idle (id_of table.now) cluster 2 two }
    ensures table { IfSome result (λ r. r.0.table ≡ id_of table.now) }
    ensures closes { IfSome result (λ r. Closes cluster r.0.view) }
{
    let (one, two) = thread::join(
        rt,
        move ||
            requires { (charter_of table.now ≡ cluster) × Idle (id_of table.now) cluster 1 one }
            ensures { IfSome result (λ r. Idle (id_of table.entry.now) cluster 1 r.0) }
        { first_turn(table, one, NodeNo::FIRST) },
        move ||
            requires { (charter_of table.now ≡ cluster) × Idle (id_of table.now) cluster 2 two }
            ensures { IfSome result (λ r. Idle (id_of table.entry.now) cluster 2 r.0) }
        { first_turn(table, two, second()) },
    );
    let (one, had) = one?;
    let (two, other_had) = two?;
    Some((table.unite(one, two), had || other_had))
}

/// The second node.
fn second() -> NodeNo
    ensures { result ≡ 2 }
{
    let Some(node) = NodeNo::new(2) else {
        unreachable!()
    };
    node
}

/// A table of empty stores, and the passes of its two nodes. The only error is want of memory.
fn opened(
    alloc: Global,
    charter: &Charter,
) -> Result<(LeaseTable, LeasePass, LeasePass), AllocError>
    requires { charter.now ≡ cluster }
    ensures script { IfOk result (λ r. charter_of r.0 ≡ cluster) }
    ensures first { IfOk result (λ r. Idle (id_of r.0) cluster 1 r.1) }
    ensures second { IfOk result (λ r. Idle (id_of r.0) cluster 2 r.2) }
{
    empty_stores_are_ready();
    let (table, mut passes) = LeaseTable::make(alloc, charter, Stores::new(alloc, charter)?)?;
    let Some(first) = passes.next() else {
        unreachable!()
    };
    let Some(second) = passes.next() else {
        unreachable!()
    };
    Ok((table, first, second))
}

/// The stores of a table that is closed with a pass for all nodes.
fn closed(table: LeaseTable, pass: LeasePass) -> Stores
    requires script { charter_of table ≡ cluster }
    requires table { pass.table ≡ id_of table }
    requires closes { Closes cluster pass.view }
    ensures { AreFree result.places }
{
    table.close(pass)
}

/// Lets two threads take turns at a table, closes it, and answers its stores, with whether either had the
/// coordinator's slot. The only error is want of memory.
pub(crate) fn shared<R: Threads + Sync>(
    rt: &R,
    alloc: Global,
    charter: &Charter,
) -> Result<(Stores, bool), AllocError>
    requires { charter.now ≡ cluster }
    ensures { IfOk result (λ r. AreFree r.0.places) }
{
    let (table, one, two) = opened(alloc, charter)?;
    let Some((pass, had)) = both_turns(rt, &table, one, two) else {
        return Err(AllocError);
    };
    Ok((closed(table, pass), had))
}

/// Shares a table between two threads, and tells what is left of the coordinator's slot.
pub(crate) fn tell<R: AllocGlobal + Print + Threads + Sync>(rt: &R) -> io::Result<()> {
    let alloc = rt.alloc();
    let charter = charter(alloc)?;
    let (stores, had) = shared(rt, alloc, &charter)?;
    let freed = matches!(stores.coordinator().last(), Some(CoordEntry::Freed(_, _)));
    println!(rt; "a thread had the slot: {had}, and it is free: {freed}")
}
