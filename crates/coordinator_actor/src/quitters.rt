//! The regions that leave.
ghost use Rattle.std.specs.Prelude.{◌≡◌, ℕ, ◌+◌, ◌<◌, ◌≤◌, [], ◌∷◌, ◌++◌, length, OnOk, OnErr};
ghost use Rattle.yard_model.specs.Words.{is_among, is_empty};
ghost use Rattle.coordinator_actor.specs.Parts.{staying_of};

use crate::regions::is_same;
use std::alloc::{AllocError, Global};
use std::marker::Model;
use yard_model::{Incarnation, Loads};

/// The regions that have said that they leave, in that order, with a spare.
#[derive(Drop)]
pub(crate) struct Quitters {
    list: Vec<Incarnation>,
    free: usize,
}

impl Model for Quitters {
    ghost use Rattle.std.specs.Prelude.{◌+◌, ◌≤◌, vec_len, vec_capacity};
    ghost use Rattle.yard_model.specs.declared.incarnation.Incarnation.{Incarnation};
    ghost use Rattle.yard_model.specs.Spared.{Spared};

    ghost Value = { Spared Incarnation };

    ghost view = { λ q. record { items = q.list.items; spare = q.free } };

    ghost invariant = { λ q. vec_len q.list + q.free ≤ vec_capacity q.list };
}

impl Quitters {
    /// None, and no spare. It takes no memory.
    pub(crate) fn new(alloc: Global) -> Quitters
        ensures items { result.items ≡ [] }
        ensures spare { result.spare ≡ 0 }
    {
        Quitters {
            list: Vec::new(alloc),
            free: 0,
        }
    }

    /// How many regions more it takes with no memory.
    pub(crate) fn spare(&self) -> usize
        ensures { result ≡ self.now.spare }
    {
        self.free
    }

    /// Makes the spare at least `n`. The only error is want of memory; then nothing changes.
    pub(crate) fn reserve(&mut self, n: u32) -> Result<(), AllocError>
        ensures items { self.new.items ≡ self.old.items }
        ensures ok { OnOk result (n ≤ self.new.spare) }
        ensures spare { self.old.spare ≤ self.new.spare }
        ensures err { OnErr result (self.new ≡ self.old) }
    {
        let wanted = n as usize;
        if wanted > self.free {
            self.list.reserve(wanted)?;
            self.free = wanted;
        }
        Ok(())
    }

    /// One region more.
    pub(crate) fn push(&mut self, r: &Incarnation)
        requires { 0 < self.old.spare }
        ensures items { self.new.items ≡ self.old.items ++ r.now ∷ [] }
        ensures spare { self.new.spare + 1 ≡ self.old.spare }
    {
        match self.list.push(*r) {
            Ok(()) => {}
            Err(_) => unreachable!(),
        }
        self.free -= 1;
    }

    /// Whether no region leaves.
    pub(crate) fn is_empty(&self) -> bool
        ensures { result ≡ is_empty self.now.items }
    {
        match self.list.as_slice().first() {
            Some(_) => false,
            None => true,
        }
    }

    /// Whether this region leaves.
    pub(crate) fn has(&self, r: &Incarnation) -> bool
        ensures { result ≡ is_among r.now self.now.items }
    {
        for region in self.list.as_slice() {
            if is_same(r, region) {
                return true;
            }
        }
        false
    }

    /// The loads of the regions that don't leave.
    pub(crate) fn staying(&self, loads: &Loads) -> Loads
        ensures { result ≡ staying_of self.now.items loads.now }
    {
        let mut staying = Loads::empty();
        for load in loads.as_slice() {
            if !self.has(&load.region) {
                staying.push(*load);
            }
        }
        staying
    }
}
