//! Where a thread may be held between two turns.

use yard_model::NodeNo;

/// Where a node's thread passes before each of its turns.
///
/// A gate is for tests that order the turns of threads. Nothing depends on it: it may return at once, or after a
/// stated number of looks at a word that threads share.
pub trait Gate {
    /// The thread of this node is about to make this turn. Its first turn is number 1.
    fn pass(&self, node: NodeNo, turn: u32);
}

/// A gate that holds no thread.
#[derive(Clone, Copy, Debug, PartialEq, Eq)]
pub struct FreeGate;

impl Gate for FreeGate {
    fn pass(&self, _node: NodeNo, _turn: u32) {}
}
