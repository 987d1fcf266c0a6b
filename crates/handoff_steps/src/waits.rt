//! The regions that a shard waits for: a bit for each of at most 16, by its place in order of
//! registration.
ghost use Rattle.std.specs.Prelude.{◌≡◌, ◌≢◌, ℕ, ◌<◌, ◌≤◌, Bool, false, ◌&&◌, not, [], ◌∷◌, ◌++◌, length, slice_index_or, if◌then◌else◌};
ghost use Rattle.yard_model.specs.Members.{no_member};
ghost use Rattle.yard_model.specs.ShardSet.{has};
ghost use Rattle.yard_model.specs.Words.{is_same, is_among, is_empty, without};
ghost use Rattle.handoff_steps.specs.Awaited.{awaited_of};

use crate::regions::Regions;
use yard_model::Incarnation;

/// Whether a region is awaited.
pub(crate) fn is_awaited(regions: &[Incarnation], awaited: u16, who: &Incarnation) -> bool
    requires { length regions.now ≤ 16 }
    ensures { result ≡ is_among who.now (awaited_of regions.now awaited) }
{
    for place in 0..regions.len() {
        if is_awaited_at(regions, awaited, place, who) {
            return true;
        }
    }
    false
}

/// Whether nobody is awaited.
pub(crate) fn is_none_awaited(regions: &[Incarnation], awaited: u16) -> bool
    requires { length regions.now ≤ 16 }
    ensures { result ≡ is_empty (awaited_of regions.now awaited) }
{
    for place in 0..regions.len() {
        if bit_of(awaited, place) {
            return false;
        }
    }
    true
}

/// The regions that are awaited, in order of registration.
pub(crate) fn awaited_of(regions: &[Incarnation], awaited: u16) -> Regions
    requires { length regions.now ≤ 16 }
    ensures { result ≡ awaited_of regions.now awaited }
{
    let mut list = Regions::empty();
    for place in 0..regions.len() {
        push_awaited(&mut list, regions, awaited, place);
    }
    list
}

/// The region at this place is appended, where it is awaited.
fn push_awaited(list: &mut Regions, regions: &[Incarnation], awaited: u16, place: usize)
    requires within { place < length regions.now }
    requires fits { place < 16 }
    requires room { length list.old < 16 }
    ensures { list.new ≡ list.old ++ (if has awaited place then slice_index_or regions.now place no_member ∷ [] else []) }
{
    if bit_of(awaited, place) {
        list.push(regions[place]);
    }
}

/// The bits without a region's.
pub(crate) fn without(regions: &[Incarnation], awaited: u16, who: &Incarnation) -> u16
    requires { length regions.now ≤ 16 }
    ensures { awaited_of regions.now result ≡ without who.now (awaited_of regions.now awaited) }
{
    let mut left = awaited;
    for place in 0..regions.len() {
        left = without_at(regions, left, place, who);
    }
    left
}

/// The bits without the one at this place, where the region there is `who`.
fn without_at(regions: &[Incarnation], awaited: u16, place: usize, who: &Incarnation) -> u16
    requires within { place < length regions.now }
    requires fits { place < 16 }
    ensures here { has result place ≡ (has awaited place && not (is_same who.now (slice_index_or regions.now place no_member))) }
    ensures others { (t : ℕ) → t < 16 → t ≢ place → has result t ≡ has awaited t }
{
    if *who == regions[place] {
        cleared(awaited, place)
    } else {
        awaited
    }
}

/// Whether the region at this place is `who` and is awaited.
fn is_awaited_at(regions: &[Incarnation], awaited: u16, place: usize, who: &Incarnation) -> bool
    requires within { place < length regions.now }
    requires fits { place < 16 }
    ensures { result ≡ (has awaited place && is_same who.now (slice_index_or regions.now place no_member)) }
{
    bit_of(awaited, place) && *who == regions[place]
}

/// The bits without the one at this place.
#[tactic(auto, using(crate::proofs::BitLaws::clear_same, crate::proofs::BitLaws::clear_other))]
fn cleared(awaited: u16, place: usize) -> u16
    requires { place < 16 }
    ensures here { has result place ≡ false }
    ensures others { (t : ℕ) → t < 16 → t ≢ place → has result t ≡ has awaited t }
{
    awaited & !(1 << place)
}

/// The bit at this place.
fn bit_of(awaited: u16, place: usize) -> bool
    requires { place < 16 }
    ensures { result ≡ has awaited place }
{
    (awaited >> place) & 1 == 1
}
