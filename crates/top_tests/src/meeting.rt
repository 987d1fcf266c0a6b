//! A gate at which the threads of two nodes meet.
use std::sync::atomic::{AtomicU64, Ordering};
use yard_io::Gate;
use yard_model::NodeNo;

/// So often a node looks whether the other is there.
pub(crate) const LOOKS: u64 = 100_000_000;

/// How far a node is, and its longest wait for the other, in looks.
#[derive(Drop)]
pub(crate) struct Side {
    turn: AtomicU64,
    longest: AtomicU64,
}

impl Side {
    fn new() -> Side {
        Side {
            turn: AtomicU64::new(0),
            longest: AtomicU64::new(0),
        }
    }

    /// The last turn that it came to.
    pub(crate) fn turn(&self) -> u64 {
        self.turn.load(Ordering::SeqCst)
    }

    /// Its longest wait.
    pub(crate) fn longest(&self) -> u64 {
        self.longest.load(Ordering::SeqCst)
    }
}

/// A gate for two nodes: a node that comes to a turn of these waits until the other has come to it too, for at most
/// `LOOKS` looks.
#[derive(Drop)]
pub(crate) struct Meeting {
    pub(crate) first: Side,
    pub(crate) second: Side,
    from: u32,
    to: u32,
}

impl Meeting {
    /// At no turn.
    pub(crate) fn free() -> Meeting {
        Meeting::at(1, 0)
    }

    /// At the turns from this one to that.
    pub(crate) fn at(from: u32, to: u32) -> Meeting {
        Meeting {
            first: Side::new(),
            second: Side::new(),
            from,
            to,
        }
    }
}

impl Gate for Meeting {
    fn pass(&self, node: NodeNo, turn: u32) {
        let held = self.from <= turn && turn <= self.to;
        if node == NodeNo::FIRST {
            meet(&self.first, &self.second, turn as u64, held);
        } else {
            meet(&self.second, &self.first, turn as u64, held);
        }
    }
}

/// A node says how far it is, and where it is held waits for the other.
fn meet(mine: &Side, other: &Side, turn: u64, held: bool) {
    mine.turn.store(turn, Ordering::SeqCst);
    if held {
        let looks = looks_until(other, turn);
        if looks > mine.longest() {
            mine.longest.store(looks, Ordering::SeqCst);
        }
    }
}

/// After how many looks the other was there.
fn looks_until(other: &Side, turn: u64) -> u64 {
    for looks in 0..LOOKS {
        if other.turn() >= turn {
            return looks;
        }
    }
    LOOKS
}
