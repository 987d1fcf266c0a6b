//! The records of an entity in the order of writing: where each stands, and how many each producer has among them.
ghost use Rattle.std.specs.Prelude.{◌≡◌, ℕ, ◌+◌, ◌-◌, ◌<◌, ◌≤◌, ◌^◌, [], ◌∷◌, ◌++◌, length, slice_index_or, OnOk, OnErr, vec_len, vec_capacity};
ghost use Rattle.entity_journal.specs.Journal.{AreNumbered, of_producer};

use crate::past::Past;
use std::alloc::{AllocError, Global};
use std::marker::Model;
use yard_model::{ProducerNo, Record};

/// How many producers there are.
const PRODUCERS: usize = 32;

/// The records of one entity, of which record i has number i; seen as their list, with a spare: so
/// many more are appended with no memory taken. The records themselves stand in another list, of
/// whoever keeps the journal: of each its place there is kept, and contracts alone see the record.
#[derive(Drop)]
pub struct Journal {
    past: Past,
    places: Vec<u32>,
    counts: [u32; PRODUCERS],
    free: usize,
}

impl Model for Journal {
    ghost use Rattle.std.specs.Prelude.{vec_capacity};
    ghost use Rattle.entity_journal.specs.Journal.{Journaled};
    ghost use Rattle.entity_journal.specs.Kept.{IsKept};

    ghost Value = { Journaled };

    ghost view = { λ j. record { items = j.past.records; places = j.places.items; spare = j.free } };

    ghost invariant = { λ j. IsKept j.past.records j.places.items j.counts j.free (vec_capacity j.places) };
}

impl Journal {
    /// No records and no spare. It takes no memory.
    pub fn new(alloc: Global) -> Journal
        ensures items { result.items ≡ [] }
        ensures places { result.places ≡ [] }
        ensures spare { result.spare ≡ 0 }
    {
        Journal {
            past: Past::new(),
            places: Vec::new(alloc),
            counts: [0; PRODUCERS],
            free: 0,
        }
    }

    /// Makes the spare at least `n`. The only error is want of memory, and then nothing changes.
    pub fn reserve(&mut self, n: u32) -> Result<(), AllocError>
        ensures items { self.new.items ≡ self.old.items }
        ensures places { self.new.places ≡ self.old.places }
        ensures ok { OnOk result (n ≤ self.new.spare) }
        ensures spare { self.old.spare ≤ self.new.spare }
        ensures err { OnErr result (self.new ≡ self.old) }
    {
        let wanted = n as usize;
        if wanted > self.free {
            make_room(&mut self.places, wanted)?;
            self.free = wanted;
        }
        Ok(())
    }

    /// One record more, from the spare, which stands at this place. Its number is one more than those
    /// of the last.
    #[inline(always)]
    pub fn append(&mut self, entry: &Record, place: u32)
        requires spare { 0 < self.old.spare }
        requires number { entry.now.number ≡ length self.old.items + 1 }
        ensures items { self.new.items ≡ self.old.items ++ entry.now ∷ [] }
        ensures places { self.new.places ≡ self.old.places ++ place ∷ [] }
        ensures spare { self.new.spare + 1 ≡ self.old.spare }
    {
        let _number = entry.number;
        let producer = (entry.producer.get() - 1) as usize;
        self.past.add(entry);
        match self.places.push(place) {
            Ok(()) => {}
            Err(_) => unreachable!(),
        }
        self.counts[producer] += 1;
        self.free -= 1;
    }

    /// How many records there are; the last one's number.
    pub fn len(&self) -> u32
        ensures count { result ≡ length self.now.items }
        ensures numbered { AreNumbered self.now.items }
    {
        self.places.len() as u32
    }

    /// Where the record stands before which there are `i` others.
    pub fn place(&self, i: u32) -> u32
        requires { i < length self.now.items }
        ensures { result ≡ slice_index_or self.now.places i 0 }
    {
        self.places[i as usize]
    }

    /// How many records are of this producer, without a look at the records.
    pub fn position(&self, producer: ProducerNo) -> u32
        ensures { result ≡ of_producer producer self.now.items }
    {
        self.counts[(producer.get() - 1) as usize]
    }
}

/// Room for so many places more. Where there are few yet they move to new room: a list that grows
/// where it stands takes all of its room along, used or not, and so has memory for what isn't there.
fn make_room(places: &mut Vec<u32>, wanted: usize) -> Result<(), AllocError>
    requires { wanted < 2 ^ 32 }
    ensures items { places.new.items ≡ places.old.items }
    ensures ok { OnOk result (vec_len places.new + wanted ≤ vec_capacity places.new) }
    ensures capacity { vec_capacity places.old ≤ vec_capacity places.new }
{
    if places.len() >= wanted || places.capacity() - places.len() >= wanted {
        return places.reserve(wanted);
    }
    let mut roomier = Vec::with_capacity(*places.allocator(), places.len() + wanted)?;
    roomier.append(places)?;
    *places = roomier;
    Ok(())
}
