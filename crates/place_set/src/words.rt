//! Words of 64 bits.
ghost use Rattle.std.specs.Prelude.{◌≡◌, ◌≢◌, ℕ, ◌<◌, ◌≤◌, true, false};
ghost use Rattle.place_set.specs.Places.{has_bit};

/// The word with this bit.
#[tactic(auto, using(crate::proofs::BitLaws::set_same, crate::proofs::BitLaws::set_other))]
pub(crate) fn with(word: u64, bit: u32) -> u64
    requires { bit < 64 }
    ensures it { has_bit result bit ≡ true }
    ensures others { (i : ℕ) → i ≢ bit → has_bit result i ≡ has_bit word i }
{
    word | (1 << bit)
}

/// The word without this bit.
#[tactic(auto, using(crate::proofs::BitLaws::clear_same, crate::proofs::BitLaws::clear_other))]
pub(crate) fn without(word: u64, bit: u32) -> u64
    requires { bit < 64 }
    ensures it { has_bit result bit ≡ false }
    ensures others { (i : ℕ) → i < 64 → i ≢ bit → has_bit result i ≡ has_bit word i }
{
    word & !(1 << bit)
}

/// Whether the word has this bit.
pub(crate) fn has(word: u64, bit: u32) -> bool
    requires { bit < 64 }
    ensures { result ≡ has_bit word bit }
{
    (word >> bit) & 1 == 1
}

#[tactic(auto, using(crate::proofs::BitLaws::none_left, crate::proofs::BitLaws::lowest_left, crate::proofs::BitLaws::none_between, crate::proofs::BitLaws::within_word))]
/// The lowest bit that the word has, from one on; 64 where it has none.
pub(crate) fn lowest(word: u64, from: u32) -> u32
    requires { from < 64 }
    ensures from { from ≤ result }
    ensures within { result ≤ 64 }
    ensures it { result < 64 → has_bit word result ≡ true }
    ensures between { (i : ℕ) → from ≤ i → i < result → has_bit word i ≡ false }
{
    let rest = word >> from;
    if rest == 0 {
        return 64;
    }
    from + rest.trailing_zeros()
}
