//! Sets of places.
ghost use Rattle.std.specs.Prelude.{◌≡◌, ◌≢◌, ℕ, ◌+◌, ◌*◌, ◌/◌, ◌%◌, ◌^◌, ◌<◌, ◌≤◌, true, false, length, IfOk};
ghost use Rattle.place_set.specs.Places.{has_place, is_in};

use crate::words::{has, lowest, with, without};
use std::alloc::{AllocError, Global};
use std::marker::Model;

/// A set of places below a bound, a bit each; contracts see which are in it. The bits of the first 64
/// places stand in the set itself, so that a set whose bound is at most 64 takes no memory of its
/// own.
#[derive(Drop)]
pub struct PlaceSet {
    bound: usize,
    first: u64,
    more: Vec<u64>,
}

impl Model for PlaceSet {
    ghost use Rattle.std.specs.Prelude.{◌∷◌};
    ghost use Rattle.place_set.specs.Places.{Places, IsPlaces};

    ghost Value = { Places };

    ghost view = { λ s. record { bound = s.bound; words = s.first ∷ s.more.items } };

    ghost invariant = { λ s. IsPlaces s.bound (s.first ∷ s.more.items) };
}

impl PlaceSet {
    /// No places, for which no memory is taken where the bound is at most 64. The only error is want of
    /// memory.
    pub fn new(alloc: Global, bound: usize) -> Result<PlaceSet, AllocError>
        ensures bound { IfOk result (λ s. s.bound ≡ bound) }
        ensures none { IfOk result (λ s. (i : ℕ) → is_in s i ≡ false) }
    {
        let more = vec![in alloc; 0; bound.saturating_sub(1) / 64]?;
        Ok(PlaceSet {
            bound,
            first: 0,
            more,
        })
    }

    /// The place comes into it.
    pub fn insert(&mut self, place: usize)
        requires { place < self.old.bound }
        ensures bound { self.new.bound ≡ self.old.bound }
        ensures it { is_in self.new place ≡ true }
        ensures others { (i : ℕ) → i ≢ place → is_in self.new i ≡ is_in self.old i }
    {
        if place < 64 {
            self.first = with(self.first, bit_of(place));
        } else {
            let at = place / 64 - 1;
            self.more[at] = with(self.more[at], bit_of(place));
        }
    }

    /// The place goes out of it.
    pub fn remove(&mut self, place: usize)
        requires { place < self.old.bound }
        ensures bound { self.new.bound ≡ self.old.bound }
        ensures it { is_in self.new place ≡ false }
        ensures others { (i : ℕ) → i ≢ place → is_in self.new i ≡ is_in self.old i }
    {
        if place < 64 {
            self.first = without(self.first, bit_of(place));
        } else {
            let at = place / 64 - 1;
            self.more[at] = without(self.more[at], bit_of(place));
        }
    }

    /// All places go out of it.
    pub fn clear(&mut self)
        ensures bound { self.new.bound ≡ self.old.bound }
        ensures none { (i : ℕ) → is_in self.new i ≡ false }
    {
        self.first = 0;
        clear_all(&mut self.more);
    }

    /// Whether the place is in it.
    pub fn has(&self, place: usize) -> bool
        requires { place < self.now.bound }
        ensures { result ≡ is_in self.now place }
    {
        if place < 64 {
            has(self.first, bit_of(place))
        } else {
            has(self.more[place / 64 - 1], bit_of(place))
        }
    }

    /// The lowest place that is in it, from one on; the bound where there is none.
    pub fn next(&self, from: usize) -> usize
        requires { from ≤ self.now.bound }
        ensures from { from ≤ result }
        ensures within { result ≤ self.now.bound }
        ensures it { result < self.now.bound → is_in self.now result ≡ true }
        ensures between { (i : ℕ) → from ≤ i → i < result → is_in self.now i ≡ false }
    {
        if from >= 64 {
            return 64 + next_below(self.more.as_slice(), self.bound - 64, from - 64);
        }
        let place = lowest(self.first, bit_of(from)) as usize;
        if self.bound <= place {
            return self.bound;
        }
        if place < 64 {
            return place;
        }
        64 + next_below(self.more.as_slice(), self.bound - 64, 0)
    }
}

/// The bit of a place in its word.
fn bit_of(place: usize) -> u32
    ensures { result ≡ place % 64 }
{
    (place % 64) as u32
}

/// Each word is 0.
fn clear_all(words: &mut Vec<u64>)
    ensures there { length words.new.items ≡ length words.old.items }
    ensures none { (i : ℕ) → has_place words.new.items i ≡ false }
{
    for at in 0..words.len() {
        words[at] = 0;
    }
}

/// The lowest place that is in these words, from one on; the bound where there is none.
fn next_below(words: &[u64], bound: usize, from: usize) -> usize
    requires there { bound ≤ 64 * length words.now }
    requires few { 64 * length words.now ≤ 2 ^ 64 }
    requires from { from ≤ bound }
    ensures from { from ≤ result }
    ensures within { result ≤ bound }
    ensures it { result < bound → has_place words.now result ≡ true }
    ensures between { (i : ℕ) → from ≤ i → i < result → has_place words.now i ≡ false }
{
    if from >= bound {
        return bound;
    }
    let place = next_in(words, bound, from);
    if place < bound { place } else { bound }
}

/// The lowest place that is in these words, from one on; none of the words' where there is none.
fn next_in(words: &[u64], bound: usize, from: usize) -> usize
    requires there { bound ≤ 64 * length words.now }
    requires few { 64 * length words.now ≤ 2 ^ 64 }
    requires from { from < bound }
    ensures from { from ≤ result }
    ensures it { result < bound → has_place words.now result ≡ true }
    ensures between { (i : ℕ) → from ≤ i → i < result → has_place words.now i ≡ false }
{
    let first = from / 64;
    let bit = lowest(words[first], bit_of(from));
    if bit < 64 {
        return place_at(first, bit);
    }
    for at in first + 1..words.len() {
        let bit = lowest(words[at], 0);
        if bit < 64 {
            return place_at(at, bit);
        }
    }
    bound
}

/// The place of a bit in a word.
fn place_at(at: usize, bit: u32) -> usize
    requires bit { bit < 64 }
    requires fits { 64 * at + 63 < 2 ^ 64 }
    ensures { result ≡ 64 * at + bit }
{
    64 * at + bit as usize
}
