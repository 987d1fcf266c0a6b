//! Steps of the pass at a place.
ghost use Rattle.std.specs.Prelude.{◌≡◌, ◌+◌, ◌<◌, ◌≤◌, ◌++◌, ◌∷◌, [], length, MatchResult};
ghost use mathlib.Core.Option as maybe;
ghost use lib.ListN.{get_elem?};
ghost use Rattle.crossbeam_queue.specs.Fifo.{Held};
ghost use Rattle.crossbeam_queue.specs.Passes.{view};
ghost use Rattle.post_box.specs.Holding.{QueuePass as Seat, At, table_of, posted_by, taken_by, state, posting};
ghost use Rattle.post_box.specs.Rule.{taker, sender, Stands};
ghost use Rattle.post_box.specs.Tables.{queue_table, queue_room};

use crate::queue::{Queue, QueuePass, count, next_sender, push};
use std::sync::Wait;
use yard_model::NodeNo;

/// The pass of the next sender, made by the pass at a place.
pub(crate) fn next_at<P>(
    queue: &Queue<P>,
    takers: &mut Vec<QueuePass<P>>,
    place: usize,
) -> QueuePass<P>
    requires place { place < length takers.old.items }
    requires queue { (s : Seat P) → get_elem? takers.old.items place ≡ maybe.some s → (table_of s ≡ queue_table queue.now) × (state s ≡ (taker (view s).next (taken_by s), [])) }
    ensures made { At takers.old.items takers.new.items place (λ s t. (state t ≡ (taker ((view s).next + 1) (taken_by s), [])) × (table_of result ≡ queue_table queue.now) × (state result ≡ (sender (view s).next [], []))) }
{
    next_sender(queue, &mut takers[place])
}

/// A parcel is posted by the pass at a place. It comes back only where the queue was full at a step of
/// this call.
#[inline(always)]
pub(crate) fn push_at<P, R: Wait>(
    rt: &R,
    queue: &Queue<P>,
    senders: &mut Vec<QueuePass<P>>,
    place: usize,
    from: NodeNo,
    parcel: P,
) -> Result<(), P>
    requires place { place < length senders.old.items }
    requires queue { (s : Seat P) → get_elem? senders.old.items place ≡ maybe.some s → (table_of s ≡ queue_table queue.now) × (state s ≡ posting from s) }
    ensures posted { At senders.old.items senders.new.items place (λ s t. MatchResult result (λ _. state t ≡ (sender from (posted_by s ++ parcel ∷ []), [])) (λ x. (x ≡ parcel) × (state t ≡ state s) × Held (queue_room queue.now) (Stands (view s)))) }
{
    push(rt, queue, &mut senders[place], from, parcel)
}

/// How many parcels lay in the queue of the pass at a place, at a step of this call. It may wait.
#[inline(always)]
pub(crate) fn count_at<P, R: Wait>(
    rt: &R,
    queue: &Queue<P>,
    senders: &mut Vec<QueuePass<P>>,
    place: usize,
    from: NodeNo,
) -> usize
    requires place { place < length senders.old.items }
    requires queue { (s : Seat P) → get_elem? senders.old.items place ≡ maybe.some s → (table_of s ≡ queue_table queue.now) × (state s ≡ posting from s) }
    ensures few { result ≤ queue_room queue.now }
    ensures counted { At senders.old.items senders.new.items place (λ s t. (state t ≡ state s) × Held result (Stands (view s))) }
{
    let _ = from;
    count(rt, queue, &mut senders[place])
}
