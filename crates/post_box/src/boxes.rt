//! The boxes.
ghost use Rattle.std.specs.Prelude.{◌≡◌, ℕ, ◌+◌, ◌<◌, ◌≤◌, ◌++◌, List, length, MatchResult, MatchOption};
ghost use Rattle.post_box.specs.Holding.{posted_to, with_posted, with_taken, WasHolding, WasEmpty};
ghost use Rattle.post_box.specs.Rule.{envelope, parcels_of};

use crate::pass::BoxPass;
use crate::queue::{Queue, compare, pop};
use crate::seats::{count_at, push_at};
use std::marker::Model;
use std::sync::Wait;
use yard_model::NodeNo;

/// A box for each node, each with room for the same number of parcels. Of each sender, what it posted
/// to a box is at any time what was taken of it there, and then what lies there of it.
#[derive(Drop)]
pub struct PostBox<P> {
    pub(crate) boxes: Vec<Queue<P>>,
    pub(crate) capacity: u16,
}

impl<P> Model for PostBox<P> {
    ghost use Rattle.std.specs.Prelude.{◌≡◌, map, replicate, length};
    ghost use Rattle.post_box.specs.Holding.{Boxes, boxes_at};
    ghost use Rattle.post_box.specs.Tables.{queue_table, queue_room};

    ghost Value = { Boxes };

    ghost view = { λ b. boxes_at (map queue_table b.boxes.items) b.capacity };

    ghost invariant = { λ b. map queue_room b.boxes.items ≡ replicate (length b.boxes.items) b.capacity };
}

impl<P> PostBox<P> {
    /// How many parcels each box has room for.
    pub fn capacity(&self) -> u16
        ensures { result ≡ self.now.capacity }
    {
        self.capacity
    }

    /// Posts a parcel to a node's box. It is handed back only where that box was full at a step of this
    /// call. It may wait, and takes no memory.
    #[inline(always)]
    pub fn post<R: Wait>(
        &self,
        rt: &R,
        pass: &mut BoxPass<P>,
        to: NodeNo,
        parcel: P,
    ) -> Result<(), P>
        requires belongs { pass.old.tables ≡ self.now.tables }
        requires to { to ≤ length self.now.tables }
        ensures kept { (pass.new.tables ≡ pass.old.tables) × (pass.new.node ≡ pass.old.node) }
        ensures posted { MatchResult result (λ _. pass.new ≡ with_posted pass.old to parcel) (λ x. (x ≡ parcel) × (pass.new ≡ pass.old) × WasHolding self.now.capacity pass.old to) }
    {
        let place = to.get() as usize - 1;
        let queue = &self.boxes[place];
        push_at(rt, queue, &mut pass.senders, place, pass.node, parcel)
    }

    /// How many parcels lay in a node's box at a step of this call. It may wait, and takes no memory.
    #[inline(always)]
    pub fn count<R: Wait>(&self, rt: &R, pass: &mut BoxPass<P>, to: NodeNo) -> usize
        requires belongs { pass.old.tables ≡ self.now.tables }
        requires to { to ≤ length self.now.tables }
        ensures pass { pass.new ≡ pass.old }
        ensures few { result ≤ self.now.capacity }
        ensures counted { WasHolding result pass.old to }
    {
        let place = to.get() as usize - 1;
        let queue = &self.boxes[place];
        count_at(rt, queue, &mut pass.senders, place, pass.node)
    }

    /// Takes the oldest parcel of the pass's own box. None only where it was empty at a step of this call.
    /// It may wait, and takes no memory.
    #[inline(always)]
    pub fn take<R: Wait>(&self, rt: &R, pass: &mut BoxPass<P>, at: NodeNo) -> Option<P>
        requires belongs { pass.old.tables ≡ self.now.tables }
        requires own { at ≡ pass.old.node }
        ensures kept { (pass.new.tables ≡ pass.old.tables) × (pass.new.node ≡ pass.old.node) }
        ensures taken { MatchOption result ((pass.new ≡ pass.old) × WasEmpty pass.old) (λ x. (from : ℕ) × (pass.new ≡ with_taken pass.old (envelope from x))) }
    {
        let _own = pass.node();
        let queue = &self.boxes[at.get() as usize - 1];
        pop(rt, queue, &mut pass.taker)
    }
}

impl<P: Drop> PostBox<P> {
    /// What one node has taken of another is a beginning of what that one has posted to it: in order, and
    /// each once. Both passes are given up.
    pub fn in_order(&self, pass: BoxPass<P>, other: BoxPass<P>)
        requires belongs { (pass.tables ≡ self.now.tables) × (other.tables ≡ self.now.tables) }
        ensures order { (rest : List P) × (posted_to other pass.node ≡ parcels_of other.node pass.taken ++ rest) }
    {
        let BoxPass {
            node,
            senders: _,
            taker,
        } = pass;
        let BoxPass {
            node: _,
            mut senders,
            taker: _,
        } = other;
        let place = node.get() as usize - 1;
        let sender = senders.swap_remove(place);
        compare(&self.boxes[place], taker, sender)
    }
}
