//! Which shards a round moves.
ghost use Rattle.std.specs.Prelude.{◌≡◌, ℕ, ◌+◌, ◌<◌, ◌≤◌, true, [], ◌∷◌, length, map, take, Some, IfSome, IfNone};
ghost use Rattle.std.specs.List.{list_any};
ghost use Rattle.yard_model.specs.ShardSet.{has, set_of};
ghost use Rattle.yard_model.specs.Coordinator.{largest, smallest, with_pick, picks};
ghost use Rattle.least_shard.specs.Spread.{shares_of, AreOfDifferentRegions, AreEven};
ghost use Rattle.least_shard.specs.Fair.{IsFair, CountsWithin, AreEvenShares, moved};
ghost use Rattle.least_shard.specs.Seen.{seen, seen_all};

use crate::tally::{Tally, lowest_of};
use yard_model::{Incarnation, Load, NodeNo, ShardNo, ShardSet};

/// The shards that a round moves, at most `limit` of them. While the largest share is by two or
/// more above the smallest, the lowest shard of the largest is picked, and counts to the smallest
/// (Akka 2.6, Cluster Sharding concepts: rebalancing by the least number of shards).
pub fn round(loads: &[Load], limit: u8) -> ShardSet
    requires fits { length loads.now ≤ 16 }
    ensures picks { AreOfDifferentRegions loads.now → result ≡ set_of (picks limit (shares_of loads.now)) }
    ensures homes { AreOfDifferentRegions loads.now → (s : ℕ) → has result s ≡ true → list_any (λ l. has l.shards s) loads.now ≡ true }

    // It is empty exactly where there is nothing to even out.
    ensures none { AreOfDifferentRegions loads.now → AreEven loads.now → result ≡ 0 }
    ensures even { AreOfDifferentRegions loads.now → 0 < limit → result ≡ 0 → AreEven loads.now }

    // Where fewer are picked than may be, the counts then differ by at most one.
    ensures few { length (picks limit (shares_of loads.now)) ≤ limit }
    ensures moved { length (picks limit (shares_of loads.now)) < limit → AreEvenShares (moved limit (shares_of loads.now)) }
{
    let mut tallies = tallies_of(loads);
    picks_of(&mut tallies[..loads.len()], limit)
}

/// The shares of the loads; the places after them are for none.
fn tallies_of(loads: &[Load]) -> [Tally; 16]
    requires fits { length loads.now ≤ 16 }
    ensures seen { seen_all (take (length loads.now) result) ≡ shares_of loads.now }
{
    let none = Tally {
        region: Incarnation {
            node: NodeNo::FIRST,
            number: 0,
        },
        rest: ShardSet::empty(),
        count: 0,
    };
    let mut tallies = [none; 16];
    for place in 0..loads.len() {
        tallies[place] = Tally::of(&loads[place]);
    }
    tallies
}

/// At most so many picks, which are made in the shares.
fn picks_of(tallies: &mut [Tally], limit: u8) -> ShardSet
    requires { CountsWithin 128 (seen_all tallies.old) }
    ensures { IsFair (seen_all tallies.old) → result ≡ set_of (picks limit (seen_all tallies.old)) }
{
    let mut picked = ShardSet::empty();
    let mut left = limit;
    while left > 0 {
        match pick(tallies) {
            Some(s) => picked = picked.with(s),
            None => return picked,
        }
        left -= 1;
    }
    picked
}

/// Makes one pick and counts it; None where the counts differ by one at most.
fn pick(tallies: &mut [Tally]) -> Option<ShardNo>
    requires { CountsWithin 1000 (seen_all tallies.old) }
    ensures picked { IfSome result (λ s. IsFair (seen_all tallies.old) → (n : ℕ) → picks (n + 1) (seen_all tallies.old) ≡ s ∷ picks n (seen_all tallies.new)) }
    ensures fair { IfSome result (λ s. IsFair (seen_all tallies.old) → IsFair (seen_all tallies.new)) }
    ensures counts { IfSome result (λ s. (n : ℕ) → CountsWithin n (seen_all tallies.old) → CountsWithin (n + 1) (seen_all tallies.new)) }
    ensures none { IfNone result (IsFair (seen_all tallies.old) → (n : ℕ) → picks n (seen_all tallies.old) ≡ []) }
{
    let from = most(tallies)?;
    let to = fewest(tallies)?;
    if from.count.saturating_sub(to.count) < 2 {
        return None;
    }
    let picked = lowest_of(from.rest)?;
    count_pick(tallies, &from, &to);
    Some(picked)
}

/// Counts a pick from `from` to `to`.
fn count_pick(tallies: &mut [Tally], from: &Tally, to: &Tally)
    requires { CountsWithin 1000 (seen_all tallies.old) }
    ensures { seen_all tallies.new ≡ map (with_pick (seen from.now) (seen to.now)) (seen_all tallies.old) }
{
    for place in 0..tallies.len() {
        tallies[place] = tallies[place].after_pick(from, to);
    }
}

/// The first share with the most.
fn most(tallies: &[Tally]) -> Option<Tally>
    ensures largest { IfSome result (λ t. largest (seen_all tallies.now) ≡ Some (seen t)) }
    ensures none { IfNone result (tallies.now ≡ []) }
{
    if tallies.is_empty() {
        return None;
    }
    let mut best = tallies[0];
    for place in 1..tallies.len() {
        best = best.or_more(&tallies[place]);
    }
    Some(best)
}

/// The first share with the fewest.
fn fewest(tallies: &[Tally]) -> Option<Tally>
    ensures smallest { IfSome result (λ t. smallest (seen_all tallies.now) ≡ Some (seen t)) }
    ensures none { IfNone result (tallies.now ≡ []) }
{
    if tallies.is_empty() {
        return None;
    }
    let mut best = tallies[0];
    for place in 1..tallies.len() {
        best = best.or_fewer(&tallies[place]);
    }
    Some(best)
}
