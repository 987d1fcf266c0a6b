//! The queue of one box: of each sender, what it posted is what was taken of it, and then what lies
//! there of it.
ghost use Rattle.std.specs.Prelude.{◌≡◌, ◌<◌, ◌≤◌, ◌+◌, ◌++◌, ◌∷◌, [], true, ℕ, List, IfOk, MatchResult, MatchOption};
ghost use Rattle.crossbeam_queue.specs.Fifo.{Held};
ghost use Rattle.crossbeam_queue.specs.Passes.{view, IsPassOf, IsSamePass, ruled_capacity};
ghost use Rattle.post_box.specs.Rule.{taker, sender, envelope, Stands, parcels_of};

use crossbeam_queue::protocol::{Join, Lesson, Outcome, Protocol, Split};
use crossbeam_queue::{Pass, RuledArrayQueue};
use std::alloc::{AllocError, Global};
use std::collections::LinkedList;
use std::sync::Wait;
use yard_model::NodeNo;

/// A parcel with its sender.
#[derive(Drop)]
pub struct Envelope<P> {
    /// The node that posted it.
    pub from: NodeNo,
    /// What it posted.
    pub parcel: P,
}

/// What a pass of a queue knows. No value of it is made.
pub struct View<P> {
    /// It may post.
    pub posts: bool,
    /// The node for which it posts.
    pub from: u64,
    /// What it has posted, in order.
    pub posted: LinkedList<P>,
    /// It may take.
    pub takes: bool,
    /// The node of the next sender that it makes.
    pub next: u64,
    /// What it has taken, in order.
    pub taken: LinkedList<Envelope<P>>,
}

/// The rule of a queue.
pub struct InOrder;

impl<P> Protocol<Envelope<P>, View<P>> for InOrder {
    ghost use Rattle.std.specs.Prelude.{[]};
    ghost use Rattle.post_box.specs.Rule.{taker, IsOrdered};

    ghost holds = { IsOrdered };

    ghost first = { taker 1 [] };
}

/// One sender more.
struct Sends;

impl<P> Split<View<P>> for Sends {
    ghost use Rattle.std.specs.Prelude.{◌+◌, []};
    ghost use Rattle.post_box.specs.Rule.{taker, sender};

    ghost left = { λ v. taker (v.next + 1) v.taken };

    ghost right = { λ v. sender v.next [] };
}

/// What a taker knows, and what a sender knows.
struct Compares;

impl<P> Join<View<P>> for Compares {
    ghost use Rattle.post_box.specs.Rule.{paired, spent};

    ghost both = { paired };

    ghost spent = { spent };
}

/// A parcel is posted.
struct Posts;

impl<P> Outcome<Envelope<P>, View<P>> for Posts {
    ghost then = { λ v x w. w ≡ sender v.from (v.posted ++ x.parcel ∷ []) };
}

impl<P> Lesson<Envelope<P>, View<P>> for Posts {
    ghost fact = { λ v items. Stands v items };
}

/// A parcel is taken.
struct Takes;

impl<P> Outcome<Envelope<P>, View<P>> for Takes {
    ghost then = { λ v x w. w ≡ taker v.next (v.taken ++ x ∷ []) };
}

impl<P> Lesson<Envelope<P>, View<P>> for Takes {
    ghost fact = { λ v items. Stands v items };
}

/// What was taken of a sender, and what lies there of it.
struct Matches;

impl<P> Lesson<Envelope<P>, View<P>> for Matches {
    ghost fact = { λ v items. v.posts ≡ true → v.takes ≡ true → v.posted ≡ parcels_of v.from v.taken ++ parcels_of v.from items };
}

pub(crate) type Queue<P> = RuledArrayQueue<Envelope<P>, View<P>, InOrder>;

pub(crate) type QueuePass<P> = Pass<Envelope<P>, View<P>>;

/// A queue, and the pass that takes from it.
pub(crate) fn open<P>(
    alloc: Global,
    capacity: usize,
) -> Result<(Queue<P>, QueuePass<P>), AllocError>
    requires { 0 < capacity }
    ensures { IfOk result (λ q. (ruled_capacity q.0 ≡ capacity) × IsPassOf q.0 q.1 × (view q.1 ≡ taker 1 [])) }
{
    Queue::<P>::ruled(alloc, capacity)
}

/// The pass of the next sender.
pub(crate) fn next_sender<P>(queue: &Queue<P>, pass: &mut QueuePass<P>) -> QueuePass<P>
    requires queue { IsPassOf queue.now pass.old }
    requires takes { view pass.old ≡ taker (view pass.old).next (view pass.old).taken }
    ensures queue { IsSamePass pass.old pass.new × IsPassOf queue.now result }
    ensures views { (view pass.new ≡ taker ((view pass.old).next + 1) (view pass.old).taken) × (view result ≡ sender (view pass.old).next []) }
{
    queue.another::<Sends>(pass)
}

/// It comes back only where the queue was full at a step of this call.
#[inline(always)]
pub(crate) fn push<P, R: Wait>(
    rt: &R,
    queue: &Queue<P>,
    pass: &mut QueuePass<P>,
    from: NodeNo,
    parcel: P,
) -> Result<(), P>
    requires queue { IsPassOf queue.now pass.old }
    requires posts { view pass.old ≡ sender from (view pass.old).posted }
    ensures queue { IsSamePass pass.old pass.new }
    ensures posted { MatchResult result (λ _. view pass.new ≡ sender from ((view pass.old).posted ++ parcel ∷ [])) (λ x. (x ≡ parcel) × (view pass.new ≡ view pass.old) × Held (ruled_capacity queue.now) (Stands (view pass.old))) }
{
    match queue.push_as::<Posts, R>(rt, pass, Envelope { from, parcel }) {
        Ok(()) => Ok(()),
        Err(Envelope { from: _, parcel }) => Err(parcel),
    }
}

/// None only where the queue was empty at a step of this call.
#[inline(always)]
pub(crate) fn pop<P, R: Wait>(rt: &R, queue: &Queue<P>, pass: &mut QueuePass<P>) -> Option<P>
    requires queue { IsPassOf queue.now pass.old }
    requires takes { view pass.old ≡ taker (view pass.old).next (view pass.old).taken }
    ensures queue { IsSamePass pass.old pass.new }
    ensures taken { MatchOption result ((view pass.new ≡ view pass.old) × Held 0 (Stands (view pass.old))) (λ x. (from : ℕ) × (view pass.new ≡ taker (view pass.old).next ((view pass.old).taken ++ envelope from x ∷ []))) }
{
    match queue.pop_as::<Takes, R>(rt, pass) {
        Some(Envelope { from: _, parcel }) => Some(parcel),
        None => None,
    }
}

/// How many parcels lay in the queue at a step of this call. It may wait.
#[inline(always)]
pub(crate) fn count<P, R: Wait>(rt: &R, queue: &Queue<P>, pass: &mut QueuePass<P>) -> usize
    requires queue { IsPassOf queue.now pass.old }
    ensures queue { IsSamePass pass.old pass.new }
    ensures same { view pass.new ≡ view pass.old }
    ensures few { result ≤ ruled_capacity queue.now }
    ensures counted { Held result (Stands (view pass.old)) }
{
    queue.len_as::<Posts, R>(rt, pass)
}

/// What was taken of the sender is a beginning of what it posted.
pub(crate) fn compare<P>(queue: &Queue<P>, mut pass: QueuePass<P>, other: QueuePass<P>)
    requires queue { IsPassOf queue.now pass × IsPassOf queue.now other }
    requires takes { view pass ≡ taker (view pass).next (view pass).taken }
    requires posts { view other ≡ sender (view other).from (view other).posted }
    ensures order { (items : List (Envelope P)) × ((view other).posted ≡ parcels_of (view other).from (view pass).taken ++ parcels_of (view other).from items) }
{
    queue.absorb::<Compares>(&mut pass, other);
    queue.learn_as::<Matches>(&mut pass);
}
