//! What no clause says: that a claim of a free slot is granted and one of a held slot isn't, that memory
//! is there where there is plenty, and that two threads may go the same way without a lock.
ghost use Rattle.std.specs.Prelude.{◌≡◌, ◌≤◌, ◌∷◌, [], IfSome, length};
ghost use Rattle.yard_model.specs.declared.incarnation.Slot.TheVariants as slot;
ghost use Rattle.shard_store.specs.Stores.{place_of};
ghost use Rattle.lease_table.specs.Belongs.{id_of, charter_of};
ghost use Rattle.lease_table.specs.Leasing.{Idle};
ghost use Rattle.lease_table.specs.Lists.{seen_at};
ghost use Rattle.lease_tests.specs.Holding.{two_nodes};

use crate::passes::{
    count, entries, find, give, meet, one, opened, queue, second, show, take, two,
};
use lease_table::{LeasePass, LeaseTable, Note};
use shard_store::Store;
use std::sync::atomic::{AtomicU64, Ordering};
use std::test::Fail;
use std::thread;
use std::thread::Threads;
use yard_model::{Cause, QueueEntry};

/// How often a thread looks for a sign of the other.
const LOOKS: u64 = 10_000_000;

/// Whether the list is one grant, to the second node.
fn is_granted(store: &Store) -> bool {
    entries(store) == [QueueEntry::Granted(1, two())].as_slice()
}

/// Whether the list is a grant to the second node, its end, and a grant to the first.
fn is_granted_again(store: &Store) -> bool {
    let wanted = [
        QueueEntry::Granted(1, two()),
        QueueEntry::Freed(1, Cause::Released),
        QueueEntry::Granted(2, one()),
    ];
    entries(store) == wanted.as_slice()
}

/// The way of both nodes on one thread: node 2 takes the queue, node 1 finds it held and takes it once it is given back,
/// and node 2 counts what is published before and after node 1 publishes. How long the list is, and whether node 2
/// has seen it all once it has met node 1's note; None where a step went another way.
fn one_way(table: &LeaseTable, a: LeasePass, b: LeasePass) -> Option<(u32, bool)>
    requires script { charter_of table.now ≡ two_nodes }
    requires first { Idle (id_of table.now) two_nodes 1 a }
    requires second { Idle (id_of table.now) two_nodes 2 b }
{
    let (b, store) = take(table, b, two(), queue())?;
    let granted = is_granted(&store);
    let (a, holder) = find(table, a, one(), queue())?;
    let b = give(table, b, two(), queue(), store)?;
    let (a, store) = take(table, a, one(), queue())?;
    let granted_again = is_granted_again(&store);
    let (b, before) = count(table, b, two(), queue());
    let written = store.len();
    let note = show(table, a, one(), queue(), &store);
    let (b, after) = count(table, b, two(), queue());
    let (_, seen) = meet(table, b, two(), note, queue(), written);
    let as_wanted = granted && holder == second() && granted_again && before == 2 && after == 3;
    if as_wanted {
        Some((written, seen))
    } else {
        None
    }
}

#[test]
fn a_queue_goes_from_pass_to_pass(rt: HostRuntime) -> Result<(), Fail> {
    let (table, a, b) = opened(rt.alloc())?;
    assert!(rt; one_way(&table, a, b) == Some((3, true)));
    Ok(())
}

/// Whether the sign of this step was seen, within so many looks.
fn comes(sign: &AtomicU64, step: u64) -> bool {
    for _ in 0..LOOKS {
        if sign.load(Ordering::SeqCst) >= step {
            return true;
        }
        thread::yield_now();
    }
    false
}

/// The way of node 2: it takes the queue at once, gives it back where node 1 has seen that it is held, and
/// counts what is published before and after node 1 publishes. None where a step went another way.
fn second_way(table: &LeaseTable, sign: &AtomicU64, pass: LeasePass) -> Option<LeasePass>
    requires script { charter_of table.now ≡ two_nodes }
    requires idle { Idle (id_of table.now) two_nodes 2 pass }
    ensures { IfSome result (Idle (id_of table.now) two_nodes 2) }
{
    let (pass, store) = take(table, pass, two(), queue())?;
    let granted = is_granted(&store);
    sign.store(1, Ordering::SeqCst);
    if !granted || !comes(sign, 2) {
        return None;
    }
    let pass = give(table, pass, two(), queue(), store)?;
    sign.store(3, Ordering::SeqCst);
    if !comes(sign, 4) {
        return None;
    }
    let (pass, before) = count(table, pass, two(), queue());
    sign.store(5, Ordering::SeqCst);
    if !comes(sign, 6) {
        return None;
    }
    let (pass, after) = count(table, pass, two(), queue());
    if before == 2 && after == 3 {
        Some(pass)
    } else {
        None
    }
}

/// The way of node 1: it finds the queue held, takes it when it is given back, and publishes its list. A
/// note of it, and how long the list is; None where a step went another way.
fn first_way(table: &LeaseTable, sign: &AtomicU64, pass: LeasePass) -> Option<(Note, u32)>
    requires script { charter_of table.now ≡ two_nodes }
    requires idle { Idle (id_of table.now) two_nodes 1 pass }
    ensures table { IfSome result (λ r. r.0.table ≡ id_of table.now) }
    ensures seen { IfSome result (λ r. r.1 ≤ length (seen_at r.0.view.seen (place_of two_nodes.config (slot.Queue 1)))) }
{
    if !comes(sign, 1) {
        return None;
    }
    let (pass, holder) = find(table, pass, one(), queue())?;
    sign.store(2, Ordering::SeqCst);
    if holder != second() || !comes(sign, 3) {
        return None;
    }
    let (pass, store) = take(table, pass, one(), queue())?;
    sign.store(4, Ordering::SeqCst);
    if !is_granted_again(&store) || !comes(sign, 5) {
        return None;
    }
    let written = store.len();
    let note = show(table, pass, one(), queue(), &store);
    sign.store(6, Ordering::SeqCst);
    Some((note, written))
}

/// Both ways, each in a thread of its own; then what node 2 has seen once it has met node 1's note. None
/// where a step went another way.
fn both_ways<R: Threads + Sync>(
    rt: &R,
    table: &LeaseTable,
    a: LeasePass,
    b: LeasePass,
) -> Option<(u32, bool)>
    requires script { charter_of table.now ≡ two_nodes }
    requires first { Idle (id_of table.now) two_nodes 1 a }
    requires second { Idle (id_of table.now) two_nodes 2 b }
{
    let sign = AtomicU64::new(0);
    let steps = &sign;
    let (shown, b) = thread::join(
        rt,
        move ||
            requires { (charter_of table.now ≡ two_nodes) × Idle (id_of table.now) two_nodes 1 a }
            ensures { IfSome result (λ r. (r.0.table ≡ id_of table.entry.now) × (r.1 ≤ length (seen_at r.0.view.seen (place_of two_nodes.config (slot.Queue 1))))) }
        { first_way(table, steps, a) },
        move ||
            requires { (charter_of table.now ≡ two_nodes) × Idle (id_of table.now) two_nodes 2 b }
            ensures { IfSome result (Idle (id_of table.entry.now) two_nodes 2) }
        { second_way(table, steps, b) },
    );
    let (note, written) = shown?;
    let (_, seen) = meet(table, b?, two(), note, queue(), written);
    Some((written, seen))
}

#[test]
fn two_threads_go_the_same_way(rt: HostRuntime) -> Result<(), Fail> {
    let (table, a, b) = opened(rt.alloc())?;
    assert!(rt; both_ways(&rt, &table, a, b) == Some((3, true)));
    Ok(())
}
