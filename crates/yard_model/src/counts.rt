//! How many sends each producer has to each name.
ghost use Rattle.std.specs.Prelude.{◌≡◌, ◌+◌, ◌<◌, length, min, nat_eq, slice_index, slice_index_or, slice_set, IfOk, IfSome, OnOk, Some, None, true};
ghost use Rattle.std.specs.Ordering.{nat_cmp};
ghost use Rattle.std.specs.Cmp.Lexicographic.{slice_cmp};
ghost use Rattle.std.specs.BTreeSet.{insert_key};
ghost use Rattle.std.specs.List.Sorted.{IsStrictlySortedBy};
ghost use Rattle.yard_model.specs.Counts.{names, count_of, place_of, no_row, with_count, IsCounted, CountsNone, CountsOneMore, CountsTheSame};

use crate::hints::{NEAR, hint_in, new_hints, set_hint};
use crate::laws::name_law;
use crate::name::EntityName;
use crate::number::ProducerNo;
use std::alloc::{AllocError, Global};
use std::collections::BTreeMap;
use std::marker::Model;

/// Names, and for each of them how many sends each producer has to it. A count stays at
/// 4,294,967,295 once it is there.
///
/// The counts of a name stand where the tree says. A hint by the bytes of the name says the same most of the
/// time, and the name that stands there is compared; so nothing is required of hints.
#[derive(Drop)]
pub struct Counts {
    places: BTreeMap<EntityName, usize>,
    rows: Vec<Row>,
    // a place and 1, or 0 where there is none
    hints: Vec<u16>,
    // where the next send's name is looked for first: orders often name the same ones in the same order
    next: usize,
}

/// A name and its counts.
#[derive(Clone, Copy)]
struct Row {
    name: EntityName,
    // at the producer's number; place 0 stays 0
    counts: [u32; 33],
}

impl Model for Counts {
    ghost use Rattle.yard_model.specs.Counts.{Counted, IsCounted};

    ghost Value = { Counted };

    ghost view = { λ c. record { places = c.places.entries; rows = c.rows.items } };

    ghost invariant = { λ c. IsCounted (record { places = c.places.entries; rows = c.rows.items }) };
}

impl Counts {
    /// No names.
    pub fn new(alloc: Global) -> Counts
        ensures { CountsNone result }
    {
        Counts {
            places: BTreeMap::new(alloc),
            rows: Vec::new(alloc),
            hints: Vec::new(alloc),
            next: 0,
        }
    }

    /// How many names there are.
    pub fn len(&self) -> usize
        ensures { result ≡ length (names self.now) }
    {
        self.places.len()
    }

    /// Whether there are no names.
    pub fn is_empty(&self) -> bool
        ensures { result ≡ nat_eq 0 (length (names self.now)) }
    {
        self.places.len() == 0
    }

    /// One send more of a producer to a name, and how many there are now. The only error is want of
    /// memory.
    pub fn add(&mut self, producer: ProducerNo, entity: &EntityName) -> Result<u32, AllocError>
        ensures count { IfOk result (λ n. n ≡ count_of self.new producer entity.now) }
        ensures counts { OnOk result (CountsOneMore self.old self.new producer entity.now) }
        ensures names { OnOk result (names self.new ≡ insert_key (slice_cmp nat_cmp) (names self.old) entity.now) }
    {
        let place = self.place(entity)?;
        Ok(self.raise(place, producer.get() as usize))
    }

    /// A name more. The only error is want of memory.
    pub fn add_name(&mut self, entity: &EntityName) -> Result<(), AllocError>
        ensures counts { OnOk result (CountsTheSame self.old self.new) }
        ensures names { OnOk result (names self.new ≡ insert_key (slice_cmp nat_cmp) (names self.old) entity.now) }
    {
        self.place(entity)?;
        Ok(())
    }

    /// One more at a place, of this producer, and how many there are now.
    fn raise(&mut self, place: usize, producer: usize) -> u32
        requires place { place < length self.old.rows }
        requires producer { producer < 33 }
        ensures places { self.new.places ≡ self.old.places }
        ensures rows { self.new.rows ≡ with_count self.old.rows place producer }
        ensures count { result ≡ slice_index (slice_index_or self.new.rows place no_row).counts producer }
        ensures more { result ≡ min (slice_index (slice_index_or self.old.rows place no_row).counts producer + 1) 4294967295 }
    {
        self.next = place.wrapping_add(1);
        one_more(&mut self.rows[place].counts, producer)
    }

    /// The place of a name, which is entered where it is new. The only error is want of memory.
    fn place(&mut self, entity: &EntityName) -> Result<usize, AllocError>
        ensures place { IfOk result (λ i. place_of self.new entity.now ≡ Some i) }
        ensures stands { OnOk result (IsCounted self.new) }
        ensures counts { OnOk result (CountsTheSame self.old self.new) }
        ensures names { OnOk result (names self.new ≡ insert_key (slice_cmp nat_cmp) (names self.old) entity.now) }
    {
        if let Some(place) = self.hinted(entity) {
            return Ok(place);
        }
        if let Some(place) = self.places.get(entity) {
            return Ok(*place);
        }
        self.begin(entity)
    }

    /// The place behind the last one, or the one that a hint says, where the name stands there.
    fn hinted(&self, entity: &EntityName) -> Option<usize>
        ensures { IfSome result (λ i. place_of self.now entity.now ≡ Some i) }
    {
        if stands_at(self.rows.as_slice(), self.next, entity) {
            return Some(self.next);
        }
        let from = entity.hash();
        for step in 0..NEAR {
            let hint = hint_in(self.hints.as_slice(), from + step);
            if hint == 0 {
                return None;
            }
            if stands_at(self.rows.as_slice(), hint - 1, entity) {
                return Some(hint - 1);
            }
        }
        None
    }

    /// A place for a name that has none. The only error is want of memory.
    fn begin(&mut self, entity: &EntityName) -> Result<usize, AllocError>
        requires { place_of self.old entity.now ≡ None }
        ensures place { IfOk result (λ i. place_of self.new entity.now ≡ Some i) }
        ensures stands { OnOk result (IsCounted self.new) }
        ensures counts { OnOk result (CountsTheSame self.old self.new) }
        ensures names { OnOk result (names self.new ≡ insert_key (slice_cmp nat_cmp) (names self.old) entity.now) }
    {
        make_hints(&mut self.hints)?;
        let place = self.rows.len();
        self.rows.push(Row {
            name: *entity,
            counts: [0; 33],
        })?;
        if let Err(_) = self.places.insert(*entity, place) {
            self.rows.pop();
            return Err(AllocError);
        }
        set_hint(&mut self.hints, entity.hash(), place);
        Ok(place)
    }

    /// The names, in the order of their bytes. The only error is want of memory.
    pub fn to_names(&self, alloc: Global) -> Result<Vec<EntityName>, AllocError>
        ensures names { IfOk result (λ kept. kept.items ≡ names self.now) }
        ensures sorted { IfOk result (λ kept. IsStrictlySortedBy (slice_cmp nat_cmp) kept.items) }
    {
        self.places.keys().copied().collect(alloc)
    }

    /// The names, in the order of their bytes. The only error is want of memory.
    pub fn into_names(self, alloc: Global) -> Result<Vec<EntityName>, AllocError>
        ensures names { IfOk result (λ kept. kept.items ≡ names self) }
        ensures sorted { IfOk result (λ kept. IsStrictlySortedBy (slice_cmp nat_cmp) kept.items) }
    {
        self.places.into_keys().collect(alloc)
    }
}

/// One more at this place, and how many there are now.
fn one_more(counts: &mut [u32; 33], place: usize) -> u32
    requires { place < 33 }
    ensures count { result ≡ min (slice_index counts.old place + 1) 4294967295 }
    ensures counts { counts.new ≡ slice_set counts.old place result }
{
    let count = counts[place].saturating_add(1);
    counts[place] = count;
    count
}

/// How many names there are hints for: as many as a script may have.
const MANY: usize = 1000;

/// Whether a name stands at this place.
fn stands_at(rows: &[Row], place: usize, name: &EntityName) -> bool
    ensures within { result ≡ true → place < length rows.now }
    ensures it { result ≡ true → (slice_index_or rows.now place no_row).name ≡ name.now }
{
    name_law();
    match rows.get(place) {
        Some(row) => row.name == *name,
        None => false,
    }
}

/// There are cells for hints. The only error is want of memory.
fn make_hints(hints: &mut Vec<u16>) -> Result<(), AllocError> {
    if hints.is_empty() {
        *hints = new_hints(*hints.allocator(), MANY)?;
    }
    Ok(())
}
