//! Sets of shards.
ghost use Rattle.std.specs.Prelude.{◌≡◌, ◌≢◌, ℕ, ◌^◌, ◌<◌, ◌≤◌, false, true, count_ones, IfNone, IfSome};
ghost use Rattle.yard_model.specs.ShardSet.{has, with_shard};

use crate::number::ShardNo;
use std::marker::Model;

/// A set of shards in one number, whose bit s tells whether shard s is in it; seen as that number.
#[derive(Clone, Copy, Debug, PartialEq, Eq)]
pub struct ShardSet {
    bits: u128,
}

impl Model for ShardSet {
    ghost use Rattle.std.specs.Prelude.{ℕ};

    ghost Value = { ℕ };

    ghost view = { λ s. s.bits };

    ghost inverse = { λ v. record { bits = v } };
}

impl ShardSet {
    /// No shards.
    #[tactic(auto, using(crate::proofs::ShardSetLaws::none))]
    pub fn empty() -> ShardSet
        ensures bits { result ≡ 0 }
        ensures none { (t : ℕ) → has result t ≡ false }
    {
        ShardSet { bits: 0 }
    }

    /// These shards and `s`.
    #[tactic(auto, using(crate::proofs::ShardSetLaws::set_same, crate::proofs::ShardSetLaws::set_other, crate::proofs::ShardSetLaws::set_bits))]
    pub fn with(self, s: ShardNo) -> ShardSet
        ensures bits { result ≡ with_shard self s }
        ensures it { has result s ≡ true }
        ensures others { (t : ℕ) → t ≢ s → has result t ≡ has self t }
    {
        ShardSet {
            bits: self.bits | (1 << s.get()),
        }
    }

    /// These shards without `s`.
    #[tactic(auto, using(crate::proofs::ShardSetLaws::clear_same, crate::proofs::ShardSetLaws::clear_other))]
    pub fn without(self, s: ShardNo) -> ShardSet
        ensures it { has result s ≡ false }
        ensures others { (t : ℕ) → t < 128 → t ≢ s → has result t ≡ has self t }
        ensures fits { result < 2 ^ 128 }
    {
        ShardSet {
            bits: self.bits & !(1 << s.get()),
        }
    }

    /// Whether `s` is in it.
    pub fn has(&self, s: ShardNo) -> bool
        ensures { result ≡ has self.now s }
    {
        (self.bits >> s.get()) & 1 == 1
    }

    /// How many shards are in it.
    pub fn count(&self) -> u32
        ensures ones { result ≡ count_ones self.now }
        ensures fits { self.now < 2 ^ 128 }
    {
        self.bits.count_ones()
    }

    #[tactic(auto, using(crate::proofs::ShardSetLaws::lowest_in, crate::proofs::ShardSetLaws::none_below))]
    /// The lowest shard in it, where all are below `shards`; None where it is empty.
    pub fn lowest(&self, shards: u8) -> Option<ShardNo>
        requires all { (t : ℕ) → has self.now t ≡ true → t < shards }
        requires shards { shards ≤ 128 }
        ensures lowest { IfSome result (λ s. has self.now s ≡ true) }
        ensures below { IfSome result (λ s. (t : ℕ) → t < s → has self.now t ≡ false) }
        ensures none { IfNone result (self.now ≡ 0) }
    {
        if self.bits == 0 {
            return None;
        }
        ShardNo::new(self.bits.trailing_zeros() as u8, shards)
    }
}
