//! What no clause says: that the workers of a busy run let no packet go because they couldn't show what it needs.
use behaviour_by_kind::ByKind;
use node_runner::run_counted;
use script_text::{Mode, read_script};
use shard_store::Stores;
use std::alloc::{AllocError, Global};
use std::sync::Wait;
use std::sync::atomic::{AtomicU64, Ordering};
use std::test::Fail;
use std::thread::Threads;
use yard_io::Gate;
use yard_model::{Charter, Lists, NodeNo, ProducerNo, QueueEntry};

/// Four nodes come up, with a producer on each.
const FIRST: &[u8] = b"config nodes=4 shards=8 producers=4 window=2 buffer=3 snapshot=3
up 1
up 2
up 3
up 4
produce 1 1
produce 2 2
produce 3 3
produce 4 4
";

/// Each producer sends to names that others send to, shards move, and an entity goes.
const ROUND: &[u8] = b"send 1 a add 1
send 2 b add 1
send 3 c add 1
send 4 d add 1
send 1 b add 1
send 2 c add 1
send 3 d add 1
send 4 a add 1
send 1 e add 1
send 2 e add 1
send 3 e add 1
send 4 e add 1
rebalance 2
passivate a
";

/// A node stops and comes back, and a queue goes to another node.
const MIDDLE: &[u8] = b"crash 3
up 3
produce 3 3
rest 2
produce 2 1
";

/// How often the producers send, before what is in the middle, and after it.
const ROUNDS: u32 = 8;

/// So many turns the nodes make.
const TURNS: u32 = 500;

/// How many seeds are tried.
const SEEDS: u32 = 8;

/// Of so many turns a node waits before one for the others.
const STRIDE: u32 = 4;

/// So often it looks whether another is there.
const LOOKS: u32 = 1_000_000;

/// A gate that keeps four nodes together: before each fourth turn a node waits until the others have come so far,
/// for a bounded number of looks.
#[derive(Drop)]
struct Together {
    first: AtomicU64,
    second: AtomicU64,
    third: AtomicU64,
    fourth: AtomicU64,
}

impl Together {
    fn new() -> Together {
        Together {
            first: AtomicU64::new(0),
            second: AtomicU64::new(0),
            third: AtomicU64::new(0),
            fourth: AtomicU64::new(0),
        }
    }

    /// How far a node is.
    fn turn_of(&self, node: u8) -> &AtomicU64 {
        match node {
            1 => &self.first,
            2 => &self.second,
            3 => &self.third,
            _ => &self.fourth,
        }
    }
}

impl Gate for Together {
    fn pass(&self, node: NodeNo, turn: u32) {
        let turn_of = self.turn_of(node.get());
        turn_of.store(u64::from(turn), Ordering::SeqCst);
        if turn % STRIDE == 0 {
            for other in 1..=4 {
                wait_for(self.turn_of(other), u64::from(turn));
            }
        }
    }
}

/// Waits until a node has come so far, but no longer than for so many looks.
fn wait_for(other: &AtomicU64, turn: u64) {
    for _ in 0..LOOKS {
        if other.load(Ordering::SeqCst) >= turn {
            return;
        }
    }
}

/// The script.
fn busy(alloc: Global) -> Result<Vec<u8>, AllocError> {
    let mut text = Vec::new(alloc);
    text.extend_from_slice(FIRST)?;
    for _ in 0..ROUNDS {
        text.extend_from_slice(ROUND)?;
    }
    text.extend_from_slice(MIDDLE)?;
    for _ in 0..ROUNDS {
        text.extend_from_slice(ROUND)?;
    }
    Ok(text)
}

/// Whether this producer was told that a command of it is recorded.
fn is_confirmed(stores: &Stores, p: ProducerNo) -> bool {
    stores
        .queue(p)
        .iter()
        .any(|entry| matches!(entry, QueueEntry::Confirmed(_, _)))
}

/// Whether some producer was told so.
fn is_any_confirmed(stores: &Stores) -> bool {
    for number in 1..=4 {
        if let Some(p) = ProducerNo::new(number) {
            if is_confirmed(stores, p) {
                return true;
            }
        }
    }
    false
}

/// How many packets a run of the script lets go, and whether a producer was told that a command of it is recorded.
fn run<R: Threads + Wait + Sync>(
    rt: &R,
    alloc: Global,
    charter: &Charter,
    seed: u32,
) -> Result<(u64, bool), AllocError> {
    let gate = Together::new();
    let behaviour = ByKind::new(charter.config().kind);
    let outcome = run_counted(rt, alloc, charter, behaviour, TURNS, seed, &gate)?;
    Ok((outcome.unshown, is_any_confirmed(&outcome.stores)))
}

/// The charter of the script.
fn charter_of(alloc: Global) -> Result<Charter, Fail> {
    let text = busy(alloc)?;
    let charter = read_script(alloc, text.as_slice(), Mode::Live)?;
    Ok(charter)
}

/// Whether each seed's run lets nothing go, and confirms something.
fn let_nothing_go<R: Threads + Wait + Sync>(
    rt: &R,
    alloc: Global,
    charter: &Charter,
) -> Result<bool, AllocError> {
    for seed in 0..SEEDS {
        if run(rt, alloc, charter, seed)? != (0, true) {
            return Ok(false);
        }
    }
    Ok(true)
}

#[test]
fn nothing_is_let_go(rt: HostRuntime) -> Result<(), Fail> {
    let charter = charter_of(rt.alloc())?;
    assert!(rt; let_nothing_go(&rt, rt.alloc(), &charter)?);
    Ok(())
}
