//! Names in order, with a hint of where each stands.
ghost use Rattle.std.specs.Prelude.{◌≡◌, ◌+◌, ◌<◌, ◌≤◌, ◌^◌, [], length, true, IfOk, IfSome, slice_index_or};
ghost use Rattle.std.specs.Arc.{arc_value};
ghost use Rattle.std.specs.Ordering.{nat_cmp};
ghost use Rattle.std.specs.Cmp.Lexicographic.{slice_cmp};
ghost use Rattle.std.specs.List.Sorted.{IsStrictlySortedBy};

use crate::hints::{NEAR, hint_in, new_hints, set_hint};
use crate::laws::name_law;
use crate::name::EntityName;
use std::alloc::{AllocError, Global};
use std::marker::Model;
use std::sync::Arc;

/// Names in the order of their bytes, each once; seen as their list. What it keeps is shared by all that
/// `share` gives, in any threads.
///
/// A hint by a name's bytes says where it stands most of the time, and the name that stands there is
/// compared; so nothing is required of hints.
#[derive(Drop)]
pub struct NameList {
    kept: Arc<Kept, Global>,
}

/// What all of them share.
#[derive(Drop)]
struct Kept {
    names: Vec<EntityName>,
    hints: Vec<u16>,
}

impl Model for NameList {
    ghost use Rattle.std.specs.Prelude.{List, ℕ};
    ghost use Rattle.std.specs.Arc.{arc_value};
    ghost use Rattle.std.specs.List.Sorted.{IsStrictlySortedBy};
    ghost use Rattle.std.specs.Ordering.{nat_cmp};
    ghost use Rattle.std.specs.Cmp.Lexicographic.{slice_cmp};

    ghost Value = { List (List ℕ) };

    ghost view = { λ n. (arc_value n.kept).names.items };

    ghost invariant = { λ n. IsStrictlySortedBy (slice_cmp nat_cmp) (arc_value n.kept).names.items };
}

impl NameList {
    /// These names, which are in order, each once. The only error is want of memory.
    pub fn new(alloc: Global, names: Vec<EntityName>) -> Result<NameList, AllocError>
        requires { IsStrictlySortedBy (slice_cmp nat_cmp) names.items }
        ensures { IfOk result (λ n. n ≡ names.items) }
    {
        let hints = hints_of(alloc, names.as_slice())?;
        match Arc::new(alloc, Kept { names, hints }) {
            Ok(kept) => Ok(NameList { kept }),
            Err(_) => Err(AllocError),
        }
    }

    /// The same names, of which no copy is made. The only error is that there are too many to count that
    /// share them.
    pub fn share(&self) -> Result<NameList, AllocError>
        ensures { IfOk result (λ n. n ≡ self.now) }
    {
        let kept = Arc::try_clone(&self.kept)?;
        Ok(NameList { kept })
    }

    /// The names.
    pub fn as_slice(&self) -> &[EntityName]
        ensures names { result.now ≡ self.now }
        ensures sorted { IsStrictlySortedBy (slice_cmp nat_cmp) self.now }
    {
        self.kept.names.as_slice()
    }

    /// A place where a hint says that this name stands, and where it does.
    pub fn hinted(&self, name: &EntityName) -> Option<usize>
        ensures { IfSome result (λ k. (k < length self.now) × (slice_index_or self.now k [] ≡ name.now)) }
    {
        hinted_in(self.kept.names.as_slice(), self.kept.hints.as_slice(), name)
    }
}

/// The same of these names and hints.
#[inline(always)]
fn hinted_in(names: &[EntityName], hints: &[u16], name: &EntityName) -> Option<usize>
    ensures { IfSome result (λ k. (k < length names.now) × (slice_index_or names.now k [] ≡ name.now)) }
{
    let from = name.hash();
    for step in 0..NEAR {
        let hint = hint_in(hints, from + step);
        if hint == 0 {
            return None;
        }
        if stands_at(names, hint - 1, name) {
            return Some(hint - 1);
        }
    }
    None
}

/// Whether a name stands at this place.
fn stands_at(names: &[EntityName], place: usize, name: &EntityName) -> bool
    ensures within { result ≡ true → place < length names.now }
    ensures it { result ≡ true → slice_index_or names.now place [] ≡ name.now }
{
    name_law();
    match names.get(place) {
        Some(other) => *other == *name,
        None => false,
    }
}

/// Of each name a hint, where a cell near its hash was free.
fn hints_of(alloc: Global, names: &[EntityName]) -> Result<Vec<u16>, AllocError> {
    let mut hints = new_hints(alloc, names.len())?;
    for place in 0..names.len() {
        set_hint(&mut hints, names[place].hash(), place);
    }
    Ok(hints)
}
