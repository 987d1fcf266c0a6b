//! Which region a shard goes to.
ghost use Rattle.std.specs.Prelude.{◌≡◌, ◌<◌, ◌≤◌, [], ℕ, length, nat_lt, IfNone, IfSome, Some, slice_index_or, if◌then◌else◌};
ghost use Rattle.yard_model.specs.Loads.{no_load};
ghost use Rattle.yard_model.specs.Coordinator.{smallest};
ghost use Rattle.least_shard.specs.Spread.{count_of, share_of, shares_of};

use yard_model::Load;

/// The place of the first load with the fewest shards; None exactly where there is none (Akka 2.6,
/// Cluster Sharding concepts: a new shard goes to the region with the fewest shards).
pub fn choose(loads: &[Load]) -> Option<usize>
    ensures none { IfNone result (loads.now ≡ []) }
    ensures within { IfSome result (λ i. i < length loads.now) }
    ensures least { IfSome result (λ i. (k : ℕ) → k < length loads.now → count_of (slice_index_or loads.now i no_load) ≤ count_of (slice_index_or loads.now k no_load)) }
    ensures first { IfSome result (λ i. (k : ℕ) → k < i → count_of (slice_index_or loads.now i no_load) < count_of (slice_index_or loads.now k no_load)) }
    ensures share { IfSome result (λ i. smallest (shares_of loads.now) ≡ Some (share_of (slice_index_or loads.now i no_load))) }
{
    if loads.is_empty() {
        return None;
    }
    let mut least = 0;
    for place in 1..loads.len() {
        least = lesser(loads, least, place);
    }
    Some(least)
}

/// Of the load at place `least` and a later one at `other`, the place of that with fewer shards.
fn lesser(loads: &[Load], least: usize, other: usize) -> usize
    requires least { least < length loads.now }
    requires other { other < length loads.now }
    ensures { result ≡ (if nat_lt (count_of (slice_index_or loads.now other no_load)) (count_of (slice_index_or loads.now least no_load)) then other else least) }
{
    let fewest = shards_of(&loads[least]);
    let shards = shards_of(&loads[other]);
    if shards < fewest { other } else { least }
}

/// How many shards it has.
#[tactic(auto, using(crate::proofs::MemberLaws::ones_are))]
fn shards_of(load: &Load) -> u32
    ensures { result ≡ count_of load.now }
{
    load.shards.count()
}
