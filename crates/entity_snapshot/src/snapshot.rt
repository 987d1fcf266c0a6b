//! Snapshots, of which the last few stay.
ghost use Rattle.std.specs.Prelude.{◌≡◌, ℕ, ◌-◌, ◌<◌, [], ◌∷◌, ◌++◌, length, slice_get, IfOk, MatchOption, Some};
ghost use Rattle.entity_snapshot.specs.Kept.{last_of};

use crate::positions::Positions;
use std::alloc::{AllocError, Global};
use std::marker::{Model, PhantomData};
use yard_model::State;

/// What the first `at` records of an entity lead to.
#[derive(Clone, Copy)]
pub struct Snapshot {
    /// How many records, from 1.
    pub at: u32,
    /// The state that they lead to.
    pub state: State,
    /// How many of them are of each producer.
    pub positions: Positions,
}

/// The last snapshots of one entity, oldest first; at most so many as it was made for. Once it is
/// made it takes no memory.
#[derive(Drop)]
pub struct Snapshots {
    kept: Vec<Snapshot>,
    keep: u8,
    holds: PhantomData<(State, Positions)>,
}

impl Model for Snapshots {
    ghost use Rattle.std.specs.Prelude.{◌<◌, ◌≤◌, length, vec_capacity};
    ghost use Rattle.entity_snapshot.specs.Kept.{Kept};

    ghost Value = { Kept };

    ghost view = { λ s. record { snapshots = s.kept.items; keep = s.keep } };

    ghost invariant = { λ s. (0 < s.keep) × (length s.kept.items ≤ s.keep) × (s.keep ≤ vec_capacity s.kept) };
}

impl Snapshots {
    /// No snapshots yet, and room for the last `keep`. The only error is want of memory.
    pub fn new(alloc: Global, keep: u8) -> Result<Snapshots, AllocError>
        requires { 0 < keep }
        ensures none { IfOk result (λ s. s.snapshots ≡ []) }
        ensures keep { IfOk result (λ s. s.keep ≡ keep) }
    {
        let kept = Vec::with_capacity(alloc, keep as usize)?;
        Ok(Snapshots {
            kept,
            keep,
            holds: PhantomData,
        })
    }

    /// Keeps a newer snapshot; where so many are kept already, the oldest goes.
    pub fn save(&mut self, snapshot: Snapshot)
        ensures last { self.new.snapshots ≡ last_of self.old.keep (self.old.snapshots ++ snapshot ∷ []) }
        ensures keep { self.new.keep ≡ self.old.keep }
    {
        if self.kept.len() >= self.keep as usize {
            self.kept.remove(0);
        }
        match self.kept.push(snapshot) {
            Ok(()) => {}
            Err(_) => unreachable!(),
        }
    }

    /// The newest snapshot; None exactly where none was saved.
    pub fn latest(&self) -> Option<&Snapshot>
        ensures { MatchOption result (self.now.snapshots ≡ []) (λ s. slice_get self.now.snapshots (length self.now.snapshots - 1) ≡ Some s.now) }
    {
        self.kept.as_slice().last()
    }
}
