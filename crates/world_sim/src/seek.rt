//! The node that has what is looked for.
ghost use Rattle.std.specs.Prelude.{ℕ, ◌≡◌, ◌+◌, ◌<◌, ◌≤◌, length, IfSome};
ghost use Rattle.yard_model.specs.Words.{at};
ghost use Rattle.world_sim.specs.Found.{is_sought, is_it, MaySeek, IsFound};

use behaviour_core::Behaviour;
use node_core::Node;
use yard_model::{EntityName, NodeNo, ProducerNo};

/// What a node is looked for by.
#[derive(Clone, Copy)]
pub(crate) enum Sought {
    /// It is the coordinator.
    Coordinator,
    /// It holds this producer's queue.
    Queue(ProducerNo),
    /// This entity is active at it.
    Active(EntityName),
}

/// Whether the node has it.
#[inline(always)]
fn has_it<B: Behaviour + Drop>(node: &Node<B>, sought: &Sought) -> bool
    requires { MaySeek node.now.script sought.now }
    ensures { result ≡ is_sought sought.now node.now.state }
{
    match sought {
        Sought::Coordinator => node.is_coordinator(),
        Sought::Queue(p) => node.holds_queue(*p),
        Sought::Active(entity) => node.is_active(entity),
    }
}

/// Whether the node at a place is up and has it.
#[inline(always)]
fn is_at<B: Behaviour + Drop>(nodes: &Vec<Option<Node<B>>>, place: usize, sought: &Sought) -> bool
    requires place { place < length nodes.now.items }
    requires may { IfSome (at nodes.now.items place) (λ v. MaySeek v.script sought.now) }
    ensures { result ≡ is_it sought.now (at nodes.now.items place) }
{
    match &nodes[place] {
        Some(node) => has_it(node, sought),
        None => false,
    }
}

/// The last node that is up and has it: the first that is found from the end on. What is sought is known
/// where this is called, so that each caller has the one test that it asks.
#[inline(always)]
pub(crate) fn seek<B: Behaviour + Drop>(
    nodes: &Vec<Option<Node<B>>>,
    sought: &Sought,
) -> Option<NodeNo>
    requires few { length nodes.now.items ≤ 16 }
    requires may { (k : ℕ) → IfSome (at nodes.now.items k) (λ v. MaySeek v.script sought.now) }
    ensures { IsFound sought.now nodes.now.items (length nodes.now.items) result }
{
    let count = nodes.len();
    for later in 0..count {
        let place = count - 1 - later;
        if is_at(nodes, place, sought) {
            return NodeNo::new(place as u8 + 1);
        }
    }
    None
}
