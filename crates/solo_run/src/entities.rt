//! What `solo` keeps of all entities.
ghost use Rattle.std.specs.Prelude.{◌≡◌, ℕ, List, IfOk, OnOk, IfSome, Some, None};
ghost use Rattle.std.specs.Ordering.{nat_cmp};
ghost use Rattle.std.specs.Cmp.Lexicographic.{slice_cmp};
ghost use Rattle.std.specs.BTreeMap.{get};
ghost use Rattle.yard_model.specs.declared.event.Kind.{Kind};
ghost use Rattle.solo_run.specs.Knowledge.{AreKept, known_at};
ghost use Rattle.solo_run.specs.Known.{unknown};

use crate::entity::Entity;
use std::alloc::{AllocError, Global};
use std::collections::BTreeMap;
use yard_model::{EntityName, Kind};

/// Entities, each at its place; the place of each name; and at hand the one that was asked for last,
/// since names come in runs.
#[derive(Drop)]
pub struct Entities {
    places: BTreeMap<EntityName, usize>,
    pub kept: Vec<Entity>,
    last: Option<(EntityName, usize)>,
}

impl Entities {
    /// No entities. It takes no memory.
    pub fn new(alloc: Global) -> Entities
        ensures none { (kind : Kind) (e : List ℕ) → known_at kind result e ≡ unknown kind }
        ensures kept { AreKept result }
    {
        Entities {
            places: BTreeMap::new(alloc),
            kept: Vec::new(alloc),
            last: None,
        }
    }

    /// The place of a name, which is entered where it is new. The only error is want of memory.
    pub fn place(
        &mut self,
        alloc: Global,
        kind: Kind,
        name: &EntityName,
    ) -> Result<usize, AllocError>
        requires kept { AreKept self.old }
        ensures place { IfOk result (λ i. get (slice_cmp nat_cmp) self.new.places name.now ≡ Some i) }
        ensures known { OnOk result ((e : List ℕ) → known_at kind self.new e ≡ known_at kind self.old e) }
        ensures kept { OnOk result (AreKept self.new) }
    {
        if let Some(place) = self.at_hand(name) {
            return Ok(place);
        }
        let place = self.enter(alloc, kind, name)?;
        self.last = Some((*name, place));
        Ok(place)
    }

    /// The place of a name, if it was asked for last.
    fn at_hand(&self, name: &EntityName) -> Option<usize>
        requires kept { AreKept self.now }
        ensures { IfSome result (λ i. get (slice_cmp nat_cmp) self.now.places name.now ≡ Some i) }
    {
        let Some((last, place)) = self.last else {
            return None;
        };
        if last == *name { Some(place) } else { None }
    }

    /// The place of a name, looked up or new.
    fn enter(&mut self, alloc: Global, kind: Kind, name: &EntityName) -> Result<usize, AllocError>
        requires kept { AreKept self.old }
        ensures place { IfOk result (λ i. get (slice_cmp nat_cmp) self.new.places name.now ≡ Some i) }
        ensures known { OnOk result ((e : List ℕ) → known_at kind self.new e ≡ known_at kind self.old e) }
        ensures kept { OnOk result (AreKept self.new) }
    {
        if let Some(place) = self.places.get(name) {
            return Ok(*place);
        }
        self.begin(alloc, kind, name)
    }

    /// A new place for a name that has none.
    fn begin(&mut self, alloc: Global, kind: Kind, name: &EntityName) -> Result<usize, AllocError>
        requires kept { AreKept self.old }
        requires absent { get (slice_cmp nat_cmp) self.old.places name.now ≡ None }
        ensures place { IfOk result (λ i. get (slice_cmp nat_cmp) self.new.places name.now ≡ Some i) }
        ensures known { OnOk result ((e : List ℕ) → known_at kind self.new e ≡ known_at kind self.old e) }
        ensures kept { OnOk result (AreKept self.new) }
    {
        let entity = Entity::new(alloc, kind)?;
        let place = self.kept.len();
        self.kept.push(entity)?;
        self.places.insert(*name, place)?;
        Ok(place)
    }
}
