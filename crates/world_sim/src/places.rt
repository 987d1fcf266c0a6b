//! Nodes by their numbers.
ghost use Rattle.std.specs.Prelude.{◌≡◌, ◌+◌, ◌-◌, ◌<◌, ◌≤◌, length, is_none, is_some, slice_set, slice_index_or, replicate, IfOk, Some, None, if◌then◌else◌};
ghost use Rattle.std.specs.List.{list_any};
ghost use Rattle.yard_model.specs.Limits.{number_limit, settle_limit};
ghost use Rattle.yard_model.specs.Words.{at};
ghost use Rattle.world_sim.specs.Found.{is_up_in, is_who};

use behaviour_core::Behaviour;
use node_core::Node;
use std::alloc::{AllocError, Global};
use yard_model::{Incarnation, NodeNo, ProducerNo};

/// Whether no incarnation of this node is up.
pub(crate) fn is_down<B: Behaviour>(nodes: &Vec<Option<Node<B>>>, n: NodeNo) -> bool
    requires { n ≤ length nodes.now.items }
    ensures { result ≡ is_none (at nodes.now.items (n - 1)) }
{
    let place = n.get() as usize - 1;
    nodes[place].is_none()
}

/// Whether a node is up.
pub(crate) fn is_any_up<B: Behaviour>(nodes: &Vec<Option<Node<B>>>) -> bool
    ensures { result ≡ list_any is_some nodes.now.items }
{
    nodes.as_slice().iter().any(|node| node.is_some())
}

/// Whether this incarnation is up: the node of its number is, and is it.
pub(crate) fn is_up<B: Behaviour + Drop>(nodes: &Vec<Option<Node<B>>>, who: &Incarnation) -> bool
    ensures { result ≡ is_up_in who.now nodes.now.items }
{
    let place = who.node.get() as usize - 1;
    match nodes.get(place) {
        Some(node) => is_who(node, who),
        None => false,
    }
}

/// Whether a node is up, and is this incarnation.
fn is_who<B: Behaviour + Drop>(node: &Option<Node<B>>, who: &Incarnation) -> bool
    ensures { result ≡ is_who who.now node.now }
{
    match node {
        Some(node) => *who == node.who(),
        None => false,
    }
}

/// Puts a node at the place of this number.
#[inline(always)]
pub(crate) fn put_node<B: Behaviour + Drop>(
    nodes: &mut Vec<Option<Node<B>>>,
    n: NodeNo,
    node: Node<B>,
)
    requires { n ≤ length nodes.old.items }
    ensures { nodes.new.items ≡ slice_set nodes.old.items (n - 1) (Some node) }
{
    let place = n.get() as usize - 1;
    nodes[place].insert(node);
}

/// The number of the next incarnation of this node.
pub(crate) fn next_number(ups: &Vec<u32>, n: NodeNo) -> u32
    requires within { n ≤ length ups.now.items }
    requires fits { slice_index_or ups.now.items (n - 1) 0 < settle_limit }
    ensures { result ≡ slice_index_or ups.now.items (n - 1) 0 + 1 }
{
    let place = n.get() as usize - 1;
    let last = ups[place];
    last + 1
}

/// Notes the number of the last incarnation of this node.
pub(crate) fn set_number(ups: &mut Vec<u32>, n: NodeNo, number: u32)
    requires { n ≤ length ups.old.items }
    ensures { ups.new.items ≡ slice_set ups.old.items (n - 1) number }
{
    let place = n.get() as usize - 1;
    ups[place] = number;
}

/// No node is up.
pub(crate) fn no_nodes<B: Behaviour + Drop>(
    alloc: Global,
    count: u8,
) -> Result<Vec<Option<Node<B>>>, AllocError>
    ensures { IfOk result (λ nodes. nodes.items ≡ replicate count None) }
{
    let mut nodes = Vec::new(alloc);
    for _ in 0..count {
        nodes.push(None)?;
    }
    Ok(nodes)
}

/// The number of a node, where it is up.
pub(crate) fn where_up<B: Behaviour>(nodes: &Vec<Option<Node<B>>>, n: NodeNo) -> Option<NodeNo>
    requires { n ≤ length nodes.now.items }
    ensures { result ≡ (if is_none (at nodes.now.items (n - 1)) then None else Some n) }
{
    if is_down(nodes, n) { None } else { Some(n) }
}

/// As many zeros as there are places.
pub(crate) fn zeros(alloc: Global, count: u8) -> Result<Vec<u32>, AllocError>
    ensures { IfOk result (λ counts. counts.items ≡ replicate count 0) }
{
    vec![in alloc; 0; count as usize]
}

/// What stands at the place of a producer.
pub(crate) fn count_at(counts: &Vec<u32>, p: ProducerNo) -> u32
    requires { p ≤ length counts.now.items }
    ensures { result ≡ slice_index_or counts.now.items (p - 1) 0 }
{
    let place = p.get() as usize - 1;
    counts[place]
}

/// One more at the place of a producer.
pub(crate) fn count_one(counts: &mut Vec<u32>, p: ProducerNo)
    requires within { p ≤ length counts.old.items }
    requires fits { slice_index_or counts.old.items (p - 1) 0 < number_limit }
    ensures { counts.new.items ≡ slice_set counts.old.items (p - 1) (slice_index_or counts.old.items (p - 1) 0 + 1) }
{
    let place = p.get() as usize - 1;
    let last = counts[place];
    counts[place] = last + 1;
}
