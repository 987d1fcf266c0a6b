//! What no clause says: that two threads that take the same slot in turn, as it comes, leave one list with
//! each entry once, in rising epochs.
ghost use Rattle.std.specs.Prelude.{◌≡◌, ◌≤◌, ◌+◌, IfSome, true, length};
ghost use Rattle.yard_model.specs.declared.incarnation.Slot.TheVariants as slot;
ghost use Rattle.yard_model.specs.Behaviour.{is_in};
ghost use Rattle.yard_model.specs.Genuine.{is_node};
ghost use Rattle.yard_model.specs.Lawful.{is_held};
ghost use Rattle.shard_store.specs.Stores.{script_of, slot_of, entries_of};
ghost use Rattle.lease_table.specs.Belongs.{id_of, charter_of};
ghost use Rattle.lease_table.specs.Fits.{is_within};
ghost use Rattle.lease_table.specs.Leasing.{Idle, Closes};
ghost use Rattle.lease_tests.specs.Holding.{two_nodes, MayAsk, Wrote};

use crate::passes::{ask, give_back, opened, second};
use coordinator_state::CoordStore;
use lease_table::{LeasePass, LeaseTable};
use shard_lease::Acquire;
use shard_store::Store;
use std::test::Fail;
use std::thread;
use std::thread::Threads;
use yard_model::{Cause, CoordEntry, Incarnation, Lists, NodeNo, Slot};

/// How many rounds each thread makes.
const ROUNDS: u32 = 1000;

/// How many entries a round leaves: a grant, a region that comes and goes, and the grant's end.
const ENTRIES: usize = 4;

/// The coordinator's store, with this region registered and terminated; None where memory ran out, or the
/// region is registered.
fn append(store: Store, who: Incarnation) -> Option<Store>
    requires slot { slot_of store ≡ slot.Coordinator }
    requires leased { is_held (entries_of store) ≡ true }
    requires node { is_node (script_of store) who ≡ true }
    requires limit { is_within who.number ≡ true }
    ensures { IfSome result (Wrote store) }
{
    let Store::Coordinator(mut store) = store else {
        unreachable!()
    };
    let who = &who;
    if store.reserve(103).is_err() {
        return None;
    }
    if store.is_registered(*who) || store.loads().as_slice().len() >= 16 {
        return None;
    }
    store.registered(*who);
    if !store.is_registered(*who) {
        return None;
    }
    store.terminated(*who);
    Some(Store::Coordinator(store))
}

/// One round of an incarnation: whether the slot was its own. None where memory ran out.
fn round(table: &LeaseTable, mut pass: LeasePass, who: Incarnation) -> Option<(LeasePass, bool)>
    requires script { charter_of table.now ≡ two_nodes }
    requires may { MayAsk who slot.Coordinator }
    requires idle { Idle (id_of table.now) two_nodes who.node pass }
    ensures { IfSome result (λ r. Idle (id_of table.now) two_nodes who.node r.0) }
{
    let who = &who;
    match ask(table, &mut pass, *who, Slot::Coordinator) {
        Acquire::Granted(store) => {
            let store = append(store, *who)?;
            give_back(table, &mut pass, *who, Slot::Coordinator, store);
            Some((pass, true))
        }
        Acquire::Held(_) => Some((pass, false)),
    }
}

/// All rounds of a node, each of an incarnation of its own: in how many the slot was the node's. None
/// where memory ran out.
fn rounds(table: &LeaseTable, mut pass: LeasePass, node: NodeNo) -> Option<(LeasePass, u32)>
    requires script { charter_of table.now ≡ two_nodes }
    requires node { is_in 1 2 node ≡ true }
    requires idle { Idle (id_of table.now) two_nodes node pass }
    ensures { IfSome result (λ r. Idle (id_of table.now) two_nodes node r.0) }
{
    let this = &node;
    let mut won = 0u32;
    for done in 0..ROUNDS {
        let who = Incarnation {
            node: *this,
            number: done + 1,
        };
        let (back, granted) = round(table, pass, who)?;
        pass = back;
        won = won.wrapping_add(u32::from(granted));
    }
    Some((pass, won))
}

/// The rounds of both nodes, each in a thread of its own: one pass for both, and in how many rounds the
/// slot was either's. None where memory ran out.
fn all_rounds<R: Threads + Sync>(
    rt: &R,
    table: &LeaseTable,
    one: LeasePass,
    two: LeasePass,
) -> Option<(LeasePass, u32, u32)>
    requires script { charter_of table.now ≡ two_nodes }
    requires first { Idle (id_of table.now) two_nodes 1 one }
    requires second { Idle (id_of table.now) two_nodes 2 two }
    ensures table { IfSome result (λ r. r.0.table ≡ id_of table.now) }
    ensures closes { IfSome result (λ r. Closes two_nodes r.0.view) }
{
    let (one, two) = thread::join(
        rt,
        move ||
            requires { (charter_of table.now ≡ two_nodes) × Idle (id_of table.now) two_nodes 1 one }
            ensures { IfSome result (λ r. Idle (id_of table.entry.now) two_nodes 1 r.0) }
        { rounds(table, one, NodeNo::FIRST) },
        move ||
            requires { (charter_of table.now ≡ two_nodes) × Idle (id_of table.now) two_nodes 2 two }
            ensures { IfSome result (λ r. Idle (id_of table.entry.now) two_nodes 2 r.0) }
        { rounds(table, two, second()) },
    );
    let (one, first) = one?;
    let (two, second) = two?;
    Some((table.unite(one, two), first, second))
}

/// Whose lease of this epoch these entries are, where they are what a round leaves.
fn leased(entries: &[CoordEntry], epoch: u32) -> Option<Incarnation> {
    let CoordEntry::Granted(_, who) = *entries.first()? else {
        return None;
    };
    let wanted = [
        CoordEntry::Granted(epoch, who),
        CoordEntry::Registered(who),
        CoordEntry::Terminated(who),
        CoordEntry::Freed(epoch, Cause::Released),
    ];
    if entries == wanted.as_slice() {
        Some(who)
    } else {
        None
    }
}

/// How many leases each node had, where the list is what rounds leave, one after the other: each node's
/// rounds stand in order, and so each entry once. None where it isn't.
fn leases(entries: &[CoordEntry]) -> Option<(u32, u32)> {
    let mut last = (0, 0);
    let mut count = (0u32, 0u32);
    let mut epoch = 0u32;
    for part in entries.chunks(ENTRIES) {
        epoch = epoch.wrapping_add(1);
        let who = leased(part, epoch)?;
        if who.node == NodeNo::FIRST && who.number > last.0 {
            last.0 = who.number;
            count.0 = count.0.wrapping_add(1);
        } else if who.node == second() && who.number > last.1 {
            last.1 = who.number;
            count.1 = count.1.wrapping_add(1);
        } else {
            return None;
        }
    }
    Some(count)
}

#[test]
fn each_entry_stands_once(rt: HostRuntime) -> Result<(), Fail> {
    let (table, one, two) = opened(rt.alloc())?;
    let (pass, first, second) = all_rounds(&rt, &table, one, two).ok_or("there is memory")?;
    let stores = table.close(pass);
    assert!(rt; leases(stores.coordinator()) == Some((first, second)));
    Ok(())
}
