//! The queue of a producer, at a node or in the book.
ghost use Rattle.std.specs.Prelude.{◌≡◌, ◌-◌, ◌≤◌, true, length, IfSome, IsSomeAnd, MatchOption, None, Some};
ghost use Rattle.yard_model.specs.declared.incarnation.Slot.TheVariants as slot;
ghost use Rattle.yard_model.specs.Genuine.{is_producer, is_slot_of};
ghost use Rattle.yard_model.specs.Words.{at};
ghost use Rattle.actor_laws.specs.Hands.{held_list};
ghost use Rattle.shard_store.specs.Stores.{slot_of_ref, entries_of_ref, script_of_ref, entries_at, place_of};
ghost use Rattle.world_sim.specs.declared.seek.Sought.TheVariants as sought;
ghost use Rattle.world_sim.specs.Found.{is_it};
ghost use Rattle.world_sim.specs.Queues.{total_at, waiting_of, waiting_at, is_without};

use behaviour_core::Behaviour;
use durable_queue::QueueStore;
use node_core::Node;
use shard_lease::LeaseBook;
use shard_store::StoreRef;
use yard_model::{NodeNo, ProducerNo, Slot};

/// The store of this queue.
fn queue_ref<'a>(store: StoreRef<'a>, p: ProducerNo) -> &'a QueueStore
    requires { slot_of_ref store ≡ slot.Queue p }
    ensures entries { result.now.entries ≡ entries_of_ref store.entry }
    ensures script { result.now.script ≡ script_of_ref store.entry }
{
    match store {
        StoreRef::Queue(store) => store,
        _ => unreachable!(),
    }
}

/// A producer's queue; None where the node doesn't hold it.
fn queue_of<B: Behaviour + Drop>(node: &Node<B>, p: ProducerNo) -> Option<&QueueStore>
    requires producer { is_producer node.now.script p ≡ true }
    ensures list { MatchOption result (held_list (slot.Queue p) node.now.state ≡ None) (λ q. held_list (slot.Queue p) node.now.state ≡ Some q.now.entries) }
    ensures script { IfSome result (λ q. q.now.script ≡ node.now.script) }
{
    match node.held_store(Slot::Queue(p)) {
        Some(store) => Some(queue_ref(store, p)),
        None => None,
    }
}

/// A producer's queue at the node of this number, which holds it.
pub(crate) fn queue_at<B: Behaviour + Drop>(
    nodes: &Vec<Option<Node<B>>>,
    n: NodeNo,
    p: ProducerNo,
) -> &QueueStore
    requires there { n ≤ length nodes.now.items }
    requires producer { IfSome (at nodes.now.items (n - 1)) (λ v. is_producer v.script p ≡ true) }
    requires held { is_it (sought.Queue p) (at nodes.now.items (n - 1)) ≡ true }
    ensures list { IsSomeAnd (at nodes.now.items (n - 1)) (λ v. held_list (slot.Queue p) v.state ≡ Some result.now.entries) }
    ensures script { IsSomeAnd (at nodes.now.items (n - 1)) (λ v. result.now.script ≡ v.script) }
{
    let place = n.get() as usize - 1;
    let Some(node) = &nodes[place] else {
        unreachable!()
    };
    match queue_of(node, p) {
        Some(queue) => queue,
        None => unreachable!(),
    }
}

/// A producer's queue, which nobody holds.
pub(crate) fn queue_in_book(book: &LeaseBook, p: ProducerNo) -> &QueueStore
    requires slot { is_slot_of book.now.script (slot.Queue p) ≡ true }
    requires free { at book.now.holders (place_of book.now.script.config (slot.Queue p)) ≡ None }
    ensures entries { result.now.entries ≡ entries_at book.now.places (place_of book.now.script.config (slot.Queue p)) }
    ensures script { result.now.script ≡ book.now.script }
{
    match book.store(Slot::Queue(p)) {
        Some(store) => queue_ref(store, p),
        None => unreachable!(),
    }
}

/// How many of so many ordered sends of a producer aren't queued at the node that holds its queue; 0
/// at another.
fn waiting_in<B: Behaviour + Drop>(node: &Node<B>, p: ProducerNo, ordered: u32) -> u32
    requires { is_producer node.now.script p ≡ true }
    ensures { result ≡ waiting_of ordered (total_at p node.now.state) }
{
    match queue_of(node, p) {
        Some(queue) => ordered.saturating_sub(queue.total()),
        None => 0,
    }
}

/// The same of the node of this number; 0 where it isn't up.
pub(crate) fn waiting<B: Behaviour + Drop>(
    nodes: &Vec<Option<Node<B>>>,
    n: NodeNo,
    p: ProducerNo,
    ordered: u32,
) -> u32
    requires there { n ≤ length nodes.now.items }
    requires producer { IfSome (at nodes.now.items (n - 1)) (λ v. is_producer v.script p ≡ true) }
    ensures { result ≡ waiting_at p ordered (at nodes.now.items (n - 1)) }
{
    let place = n.get() as usize - 1;
    match &nodes[place] {
        Some(node) => waiting_in(node, p, ordered),
        None => 0,
    }
}

/// Whether the node of this number is up and doesn't hold the producer's queue.
pub(crate) fn is_without<B: Behaviour + Drop>(
    nodes: &Vec<Option<Node<B>>>,
    n: NodeNo,
    p: ProducerNo,
) -> bool
    requires { n ≤ length nodes.now.items }
    ensures { result ≡ is_without p (at nodes.now.items (n - 1)) }
{
    let place = n.get() as usize - 1;
    match &nodes[place] {
        Some(node) => !node.holds_queue(p),
        None => false,
    }
}
