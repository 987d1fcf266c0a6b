//! Names in order, each found at its place.
ghost use Rattle.std.specs.Prelude.{◌≡◌, ◌<◌, [], true, false, length, IfOk, MatchOption, slice_index_or};
ghost use Rattle.std.specs.List.{list_any};
ghost use Rattle.std.specs.List.Sorted.{IsStrictlySortedBy};
ghost use Rattle.std.specs.Ordering.{nat_cmp};
ghost use Rattle.std.specs.Cmp.Lexicographic.{slice_cmp};
ghost use Rattle.yard_model.specs.Script.{is_name, names_in};
ghost use Rattle.yard_model.specs.Words.{is_empty};

use std::alloc::{AllocError, Global};
use std::marker::Model;
use yard_model::laws::name_law;
use yard_model::{Charter, EntityName, NameList};

/// Names in the order of their bytes, each once; seen as their list.
///
/// A name is looked for where a hint says, and what stands there is compared with it; only where that is
/// another, it is searched for. So nothing is required of the hints.
#[derive(Drop)]
pub struct NameIndex {
    list: NameList,
}

impl Model for NameIndex {
    ghost use Rattle.std.specs.Prelude.{List, ℕ};
    ghost use Rattle.std.specs.List.Sorted.{IsStrictlySortedBy};
    ghost use Rattle.std.specs.Ordering.{nat_cmp};
    ghost use Rattle.std.specs.Cmp.Lexicographic.{slice_cmp};

    ghost Value = { List (List ℕ) };

    ghost view = { λ n. n.list };

    ghost invariant = { λ n. IsStrictlySortedBy (slice_cmp nat_cmp) n.list };
}

impl NameIndex {
    /// The names that a charter's orders bring, of which no copy is made. The only error is that there are
    /// too many to count that share them.
    pub fn new(charter: &Charter) -> Result<NameIndex, AllocError>
        ensures names { IfOk result (λ n. n ≡ names_in charter.now.orders) }
        ensures sorted { IfOk result (λ n. IsStrictlySortedBy (slice_cmp nat_cmp) n) }
    {
        let list = charter.name_list().share()?;
        list.as_slice();
        Ok(NameIndex { list })
    }

    /// Names in order, each once. The only error is want of memory.
    pub fn of_names(alloc: Global, names: &[EntityName]) -> Result<NameIndex, AllocError>
        requires { IsStrictlySortedBy (slice_cmp nat_cmp) names.now }
        ensures { IfOk result (λ n. n ≡ names.now) }
    {
        let list = NameList::new(alloc, Vec::from_slice(alloc, names)?)?;
        Ok(NameIndex { list })
    }

    /// How many there are.
    pub fn len(&self) -> usize
        ensures { result ≡ length self.now }
    {
        self.as_slice().len()
    }

    /// Whether there are none.
    pub fn is_empty(&self) -> bool
        ensures { result ≡ is_empty self.now }
    {
        self.as_slice().is_empty()
    }

    /// The names.
    pub fn as_slice(&self) -> &[EntityName]
        ensures names { result.now ≡ self.now }
        ensures sorted { IsStrictlySortedBy (slice_cmp nat_cmp) self.now }
    {
        self.list.as_slice()
    }

    /// The place of a name; None exactly where it isn't among them.
    pub fn find(&self, name: &EntityName) -> Option<usize>
        ensures { MatchOption result (list_any (is_name name.now) self.now ≡ false) (λ k. (k < length self.now) × (slice_index_or self.now k [] ≡ name.now)) }
    {
        match self.list.hinted(name) {
            Some(place) => Some(place),
            None => look_in(self.as_slice(), name),
        }
    }

    /// The place of a name that is among them.
    pub fn place(&self, name: &EntityName) -> usize
        requires { list_any (is_name name.now) self.now ≡ true }
        ensures within { result < length self.now }
        ensures it { slice_index_or self.now result [] ≡ name.now }
    {
        match self.find(name) {
            Some(place) => place,
            None => unreachable!(),
        }
    }

    /// The place of a name, which may stand at `hint`, where it is looked for first; None exactly where it isn't
    /// among them.
    #[inline(always)]
    pub fn find_near(&self, name: &EntityName, hint: usize) -> Option<usize>
        ensures { MatchOption result (list_any (is_name name.now) self.now ≡ false) (λ k. (k < length self.now) × (slice_index_or self.now k [] ≡ name.now)) }
    {
        if stands_at(self.as_slice(), hint, name) {
            Some(hint)
        } else {
            self.find(name)
        }
    }

    /// The place of a name that is among them, which may stand at `hint`, where it is looked for first.
    #[inline(always)]
    pub fn place_near(&self, name: &EntityName, hint: usize) -> usize
        requires { list_any (is_name name.now) self.now ≡ true }
        ensures within { result < length self.now }
        ensures it { slice_index_or self.now result [] ≡ name.now }
    {
        if stands_at(self.as_slice(), hint, name) {
            hint
        } else {
            self.place(name)
        }
    }
}

/// Whether a name stands at this place.
#[inline(always)]
fn stands_at(names: &[EntityName], place: usize, name: &EntityName) -> bool
    ensures within { result ≡ true → place < length names.now }
    ensures it { result ≡ true → slice_index_or names.now place [] ≡ name.now }
{
    name_law();
    match names.get(place) {
        Some(other) => *other == *name,
        None => false,
    }
}

/// The place of a name among names in order; None exactly where it isn't among them.
#[inline(never)]
fn look_in(names: &[EntityName], name: &EntityName) -> Option<usize>
    requires { IsStrictlySortedBy (slice_cmp nat_cmp) names.now }
    ensures { MatchOption result (list_any (is_name name.now) names.now ≡ false) (λ k. (k < length names.now) × (slice_index_or names.now k [] ≡ name.now)) }
{
    match names.binary_search(name) {
        Ok(place) => Some(place),
        Err(_) => None,
    }
}
