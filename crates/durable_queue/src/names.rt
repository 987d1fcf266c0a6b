//! The names of a script, each with its place.
ghost use Rattle.std.specs.Prelude.{◌≡◌, ◌<◌, [], true, false, length, IfOk, IfSome, IfNone, slice_index_or};
ghost use Rattle.std.specs.List.{list_any};
ghost use Rattle.std.specs.List.Sorted.{IsStrictlySortedBy};
ghost use Rattle.std.specs.Ordering.{nat_cmp};
ghost use Rattle.std.specs.Cmp.Lexicographic.{slice_cmp};
ghost use Rattle.yard_model.specs.Script.{is_name, names_in};
ghost use Rattle.durable_queue.specs.Kept.{place_of};

use name_index::NameIndex;
use std::alloc::{AllocError, Global};
use std::marker::Model;
use yard_model::{Charter, EntityName};

/// Names in order; seen as their list.
#[derive(Drop)]
pub(crate) struct Names {
    list: NameIndex,
}

impl Model for Names {
    ghost use Rattle.std.specs.Prelude.{List, ℕ};
    ghost use Rattle.std.specs.List.Sorted.{IsStrictlySortedBy};
    ghost use Rattle.std.specs.Ordering.{nat_cmp};
    ghost use Rattle.std.specs.Cmp.Lexicographic.{slice_cmp};

    ghost Value = { List (List ℕ) };

    ghost view = { λ n. n.list };

    ghost invariant = { λ n. IsStrictlySortedBy (slice_cmp nat_cmp) n.list };
}

impl Names {
    /// The names that a charter's orders bring. The only error is want of memory.
    pub(crate) fn new(alloc: Global, charter: &Charter) -> Result<Names, AllocError>
        ensures names { IfOk result (λ n. n ≡ names_in charter.now.orders) }
        ensures sorted { IfOk result (λ n. IsStrictlySortedBy (slice_cmp nat_cmp) n) }
    {
        let list = NameIndex::new(charter)?;
        Ok(Names { list })
    }

    /// How many there are.
    pub(crate) fn len(&self) -> usize
        ensures { result ≡ length self.now }
    {
        self.list.len()
    }

    /// The name at a place.
    pub(crate) fn nth(&self, place: usize) -> &EntityName
        requires { place < length self.now }
        ensures among { list_any (is_name result.now) self.now ≡ true }
        ensures place { place_of self.now result.now ≡ place }
    {
        name_in(self.list.as_slice(), place)
    }

    /// The place of a name; None exactly where it isn't among them.
    pub(crate) fn find(&self, entity: &EntityName) -> Option<usize>
        ensures place { IfSome result (λ k. (k < length self.now) × (k ≡ place_of self.now entity.now)) }
        ensures none { IfNone result (place_of self.now entity.now ≡ length self.now) }
    {
        self.list.find(entity)
    }

    /// The place of a name that is among them, which may stand at `hint`.
    #[inline(always)]
    pub(crate) fn place_near(&self, entity: &EntityName, hint: usize) -> usize
        requires { list_any (is_name entity.now) self.now ≡ true }
        ensures within { result < length self.now }
        ensures place { result ≡ place_of self.now entity.now }
    {
        self.list.place_near(entity, hint)
    }

    /// The place of a name that is among them.
    pub(crate) fn place(&self, entity: &EntityName) -> usize
        requires { list_any (is_name entity.now) self.now ≡ true }
        ensures within { result < length self.now }
        ensures it { slice_index_or self.now result [] ≡ entity.now }
        ensures place { result ≡ place_of self.now entity.now }
    {
        self.list.place(entity)
    }
}

/// The name at a place.
fn name_in(names: &[EntityName], place: usize) -> &EntityName
    requires { place < length names.now }
    ensures { result.now ≡ slice_index_or names.now place [] }
{
    &names[place]
}
