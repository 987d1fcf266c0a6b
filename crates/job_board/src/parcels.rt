//! Packets between the producer and its workers.
ghost use Rattle.std.specs.Prelude.{◌≡◌, ◌≢◌, ℕ, ◌+◌, ◌-◌, ◌<◌, ◌≤◌, ◌==◌, not, filter, true, false, [], ◌∷◌, ◌++◌, length, slice_get, Some, None, IfOk, OnOk, OnErr, IsSome, MatchOption};
ghost use Rattle.place_set.specs.Places.{is_in};
ghost use Rattle.yard_model.specs.World.{wire_limit};
ghost use Rattle.job_board.specs.Parcels.{lowest};

use crate::parcel::Parcel;
use place_set::PlaceSet;
use std::alloc::{AllocError, Global};
use std::marker::{Model, PhantomData};
use yard_model::Incarnation;

/// How many packets can be posted.
pub const LIMIT: usize = 1_000_000;

/// The packets that were posted, and which of them were never delivered. The place behind the last stands
/// in the set too, so that no search goes past it.
#[derive(Drop)]
pub struct Parcels {
    posted: Vec<Parcel>,
    fresh: PlaceSet,
    base: usize,
    holds: PhantomData<Incarnation>,
}

impl Model for Parcels {
    ghost use Rattle.std.specs.Prelude.{length};
    ghost use Rattle.job_board.specs.Parcels.{Parcels, IsParcels, fresh_of};

    ghost Value = { Parcels };

    ghost view = { λ p. record { posted = p.posted.items; fresh = fresh_of p.fresh (length p.posted.items) } };

    ghost invariant = { λ p. IsParcels p.posted.items p.fresh p.base };
}

impl Parcels {
    /// Nothing is posted. The only error is want of memory.
    pub fn new(alloc: Global) -> Result<Parcels, AllocError>
        ensures { IfOk result (λ p. p ≡ record { posted = []; fresh = [] }) }
    {
        let mut fresh = PlaceSet::new(alloc, LIMIT + 1)?;
        fresh.insert(0);
        Ok(Parcels {
            posted: Vec::new(alloc),
            fresh,
            base: 0,
            holds: PhantomData,
        })
    }

    /// How many were posted.
    pub fn len(&self) -> usize
        ensures value { result ≡ length self.now.posted }
        ensures fits { length self.now.posted ≤ wire_limit }
    {
        self.posted.len()
    }

    /// The packet of this number, from 1, if it is posted.
    pub fn get(&self, number: u32) -> Option<Parcel>
        requires { 0 < number }
        ensures { result ≡ slice_get self.now.posted (number - 1) }
    {
        self.posted.get(number as usize - 1).copied()
    }

    /// One packet more. The only error is want of memory, and then nothing changes.
    pub fn post(&mut self, parcel: &Parcel) -> Result<(), AllocError>
        requires { length self.old.posted < wire_limit }
        ensures posted { OnOk result (self.new.posted ≡ self.old.posted ++ parcel.now ∷ []) }
        ensures fresh { OnOk result (self.new.fresh ≡ self.old.fresh ++ (length self.old.posted + 1) ∷ []) }
        ensures err { OnErr result (self.new ≡ self.old) }
    {
        let place = self.posted.len();
        self.posted.push(*parcel)?;
        self.fresh.insert(place + 1);
        Ok(())
    }

    /// The packet of this number is delivered.
    pub fn got(&mut self, number: u32)
        requires above { 0 < number }
        requires there { number ≤ length self.old.posted }
        ensures posted { self.new.posted ≡ self.old.posted }
        ensures fresh { self.new.fresh ≡ filter (λ j. not (j == number)) self.old.fresh }
    {
        let place = number as usize - 1;
        self.fresh.remove(place);
        self.base = self.fresh.next(self.base).min(self.posted.len());
    }

    /// The lowest number that was never delivered, if there is one.
    pub fn next_fresh(&self) -> Option<u32>
        ensures value { result ≡ lowest self.now.fresh }
    {
        let place = self.fresh.next(self.base);
        if place < self.posted.len() {
            Some(place as u32 + 1)
        } else {
            None
        }
    }
}
