//! A region's share in the course of a round.
ghost use Rattle.std.specs.Prelude.{◌≡◌, ◌^◌, ◌<◌, ◌+◌, drop, nat_lt, if◌then◌else◌, slice_index_or, IfSome, IfNone, []};
ghost use Rattle.least_shard.specs.Spread.{members};

use yard_model::{Incarnation, Load, ShardNo, ShardSet};

/// A region, its shards that aren't picked, and how many count to it.
#[derive(Clone, Copy)]
pub(crate) struct Tally {
    pub(crate) region: Incarnation,
    pub(crate) rest: ShardSet,
    pub(crate) count: u32,
    ghost fits: { rest < 2 ^ 128 },
}

impl Tally {
    ghost use Rattle.yard_model.specs.Coordinator.{with_pick};
    ghost use Rattle.least_shard.specs.Spread.{share_of};
    ghost use Rattle.least_shard.specs.Seen.{seen};

    /// Of a region of which nothing is picked yet.
    #[tactic(auto, using(crate::proofs::MemberLaws::ones_are))]
    pub(crate) fn of(load: &Load) -> Tally
        ensures { seen result ≡ share_of load.now }
    {
        let count = load.shards.count();
        Tally {
            region: load.region,
            rest: load.shards,
            count,
        }
    }

    /// The other where it has more, else this one.
    pub(crate) fn or_more(&self, other: &Tally) -> Tally
        ensures { seen result ≡ (if nat_lt self.now.count other.now.count then seen other.now else seen self.now) }
    {
        if self.count < other.count {
            *other
        } else {
            *self
        }
    }

    /// The other where it has fewer, else this one.
    pub(crate) fn or_fewer(&self, other: &Tally) -> Tally
        ensures { seen result ≡ (if nat_lt other.now.count self.now.count then seen other.now else seen self.now) }
    {
        if other.count < self.count {
            *other
        } else {
            *self
        }
    }

    /// This share once a shard of `from` is picked and counts to `to`.
    pub(crate) fn after_pick(&self, from: &Tally, to: &Tally) -> Tally
        requires { self.now.count + 1 < 2 ^ 32 }
        ensures { seen result ≡ with_pick (seen from.now) (seen to.now) (seen self.now) }
    {
        if self.region == from.region {
            Tally {
                region: self.region,
                rest: without_lowest(self.rest),
                count: self.count.saturating_sub(1),
            }
        } else if self.region == to.region {
            Tally {
                region: self.region,
                rest: self.rest,
                count: self.count + 1,
            }
        } else {
            *self
        }
    }
}

/// The lowest shard of the set; None where it is empty.
pub(crate) fn lowest_of(set: ShardSet) -> Option<ShardNo>
    requires { set < 2 ^ 128 }
    ensures lowest { IfSome result (λ s. slice_index_or (members set) 0 0 ≡ s) }
    ensures none { IfNone result (members set ≡ []) }
{
    set.lowest(128)
}

/// The set without its lowest shard.
fn without_lowest(set: ShardSet) -> ShardSet
    requires { set < 2 ^ 128 }
    ensures others { members result ≡ drop 1 (members set) }
    ensures fits { result < 2 ^ 128 }
{
    match set.lowest(128) {
        Some(s) => set.without(s),
        None => set,
    }
}
