//! How the boxes are made, with a pass for each.
ghost use Rattle.std.specs.Prelude.{◌≡◌, ℕ, ◌+◌, ◌-◌, ◌<◌, ◌≤◌, [], ◌∷◌, length, map, replicate, IfOk, OnOk, MatchOption};
ghost use mathlib.Core.Option as maybe;
ghost use lib.ListN.{get_elem?};
ghost use Rattle.post_box.specs.Holding.{dealt, new_holder, state, table_of};
ghost use Rattle.post_box.specs.Left.{left_of};
ghost use Rattle.post_box.specs.Making.{idle_taker, idle_sender, AreAll, AreRows, AreTakers, dealt_down};
ghost use Rattle.post_box.specs.Tables.{queue_table, queue_room};

use crate::boxes::PostBox;
use crate::pass::BoxPass;
use crate::queue::{Queue, QueuePass, open};
use crate::seats::next_at;
use std::alloc::{AllocError, Global};
use yard_model::NodeNo;

/// The passes that are left, by rising node.
#[derive(Drop)]
pub struct BoxPasses<P> {
    pub(crate) left: Vec<BoxPass<P>>,
}

impl<P> BoxPasses<P> {
    /// The next one. None exactly where all are out.
    #[tactic(auto, using(crate::proofs::Dealt::popped))]
    pub fn next(&mut self) -> Option<BoxPass<P>>
        ensures { MatchOption result ((left_of self.old ≡ []) × (left_of self.new ≡ [])) (λ p. left_of self.old ≡ p ∷ left_of self.new) }
    {
        self.left.pop()
    }
}

/// The queues, and of each the pass that takes from it.
fn open_all<P: Drop>(
    alloc: Global,
    boxes: u8,
    capacity: u16,
) -> Result<(Vec<Queue<P>>, Vec<QueuePass<P>>), AllocError>
    requires { 0 < capacity }
    ensures queues { IfOk result (λ r. (length r.0.items ≡ boxes) × (map queue_room r.0.items ≡ replicate boxes capacity)) }
    ensures takers { IfOk result (λ r. AreAll (map queue_table r.0.items) (idle_taker 1) r.1.items) }
{
    let mut queues = Vec::new(alloc);
    let mut takers = Vec::new(alloc);
    for _ in 0..boxes {
        let (queue, taker) = open(alloc, capacity as usize)?;
        queues.push(queue)?;
        takers.push(taker)?;
    }
    Ok((queues, takers))
}

/// A sender of the next node at each queue.
fn next_row<P: Drop>(
    alloc: Global,
    queues: &[Queue<P>],
    takers: &mut Vec<QueuePass<P>>,
    node: u8,
) -> Result<Vec<QueuePass<P>>, AllocError>
    requires takers { AreAll (map queue_table queues.now) (idle_taker node) takers.old.items }
    ensures takers { OnOk result (AreAll (map queue_table queues.now) (idle_taker (node + 1)) takers.new.items) }
    ensures row { IfOk result (λ r. AreAll (map queue_table queues.now) (idle_sender node) r.items) }
{
    let _ = node;
    let mut row = Vec::new(alloc);
    for place in 0..queues.len() {
        row.push(next_at(&queues[place], takers, place))?;
    }
    Ok(row)
}

/// A row of senders for each node.
fn all_rows<P: Drop>(
    alloc: Global,
    queues: &[Queue<P>],
    takers: &mut Vec<QueuePass<P>>,
) -> Result<Vec<Vec<QueuePass<P>>>, AllocError>
    requires few { length queues.now ≤ 16 }
    requires takers { AreAll (map queue_table queues.now) (idle_taker 1) takers.old.items }
    ensures takers { OnOk result (AreAll (map queue_table queues.now) (idle_taker (length queues.now + 1)) takers.new.items) }
    ensures rows { IfOk result (λ r. AreRows (map queue_table queues.now) (length queues.now) r.items) }
{
    let mut rows = Vec::new(alloc);
    for place in 0..queues.len() {
        let node = place as u8 + 1;
        rows.push(next_row(alloc, queues, takers, node)?)?;
    }
    Ok(rows)
}

/// The pass of a node: its senders, and the pass that takes from its own queue.
fn pass_of<P>(node: u8, senders: Vec<QueuePass<P>>, taker: QueuePass<P>) -> BoxPass<P>
    requires node { (0 < node) × (node ≤ 16) × (node ≤ length senders.items) }
    requires senders { AreAll (map table_of senders.items) (idle_sender node) senders.items }
    requires taker { state taker ≡ idle_taker (length senders.items + 1) }
    requires own { get_elem? (map table_of senders.items) (node - 1) ≡ maybe.some (table_of taker) }
    ensures pass { result ≡ new_holder (map table_of senders.items) node }
{
    let Some(node) = NodeNo::new(node) else {
        unreachable!()
    };
    BoxPass {
        node,
        senders,
        taker,
    }
}

/// The passes of the nodes, the last node's first.
fn join_all<P: Drop>(
    alloc: Global,
    queues: &[Queue<P>],
    mut rows: Vec<Vec<QueuePass<P>>>,
    mut takers: Vec<QueuePass<P>>,
) -> Result<Vec<BoxPass<P>>, AllocError>
    requires few { length queues.now ≤ 16 }
    requires rows { AreRows (map queue_table queues.now) (length queues.now) rows.items }
    requires takers { AreTakers (map queue_table queues.now) (length queues.now) (idle_taker (length queues.now + 1)) takers.items }
    ensures passes { IfOk result (λ v. v.items ≡ dealt_down (map queue_table queues.now) (length queues.now)) }
{
    let mut passes = Vec::new(alloc);
    let mut node = queues.len();
    while node > 0 {
        let Some(senders) = rows.pop() else {
            unreachable!()
        };
        let Some(taker) = takers.pop() else {
            unreachable!()
        };
        passes.push(pass_of(node as u8, senders, taker))?;
        node -= 1;
    }
    Ok(passes)
}

impl<P: Drop> PostBox<P> {
    /// So many boxes, 1 to 16, each with room for so many parcels, and a pass for each. The only error
    /// is want of memory.
    pub fn make(
        alloc: Global,
        boxes: u8,
        capacity: u16,
    ) -> Result<(PostBox<P>, BoxPasses<P>), AllocError>
        requires boxes { (0 < boxes) × (boxes ≤ 16) }
        requires capacity { 0 < capacity }
        ensures boxes { IfOk result (λ r. (length r.0.tables ≡ boxes) × (r.0.capacity ≡ capacity)) }
        ensures passes { IfOk result (λ r. left_of r.1 ≡ dealt r.0.tables) }
    {
        let (queues, mut takers) = open_all(alloc, boxes, capacity)?;
        let rows = all_rows(alloc, queues.as_slice(), &mut takers)?;
        let left = join_all(alloc, queues.as_slice(), rows, takers)?;
        let post_box = PostBox {
            boxes: queues,
            capacity,
        };
        Ok((post_box, BoxPasses { left }))
    }
}
