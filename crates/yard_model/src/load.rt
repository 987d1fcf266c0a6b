//! How the shards are spread over the registered regions.
ghost use Rattle.std.specs.Prelude.{◌≡◌, ◌<◌, [], ◌∷◌, ◌++◌, length};
ghost use Rattle.std.specs.Cmp.{partial_equiv_from_equiv};
ghost use Rattle.std.specs.Cmp.Lexicographic.{pointwise};
ghost use Rattle.std.proofs.lemmas.Cmp.{lists_equiv};
ghost use Rattle.yard_model.specs.contracts.load.LoadEq.TheImpl.Laws as load_laws;

use crate::incarnation::Incarnation;
use crate::members::NO_MEMBER;
use crate::shard_set::ShardSet;
use std::marker::Model;

/// A region and the shards that it is the home of.
#[derive(Clone, Copy, Debug, PartialEq, Eq)]
pub struct Load {
    /// The region.
    pub region: Incarnation,
    /// Its shards.
    pub shards: ShardSet,
}

/// At most 16 loads in order of registration; seen as their list.
#[derive(Clone, Copy, Debug)]
pub struct Loads {
    cells: [Load; 16],
    len: u8,
}

impl Model for Loads {
    ghost use Rattle.std.specs.Prelude.{List, length, take};
    ghost use Rattle.yard_model.specs.declared.load.Load.{Load};
    ghost use Rattle.yard_model.specs.Loads.{no_load};
    ghost use Rattle.yard_model.specs.Padded.{IsPadded, padded, padded_length, padded_cells};

    ghost Value = { List Load };

    ghost view = { λ n. take n.len n.cells };

    ghost invariant = { λ n. IsPadded 16 no_load n.cells n.len };

    ghost inverse = { λ v. record { cells = padded 16 no_load v; len = length v } };

    ghost inverse_ok = { λ n h i. record { cells = padded_cells h i; len = padded_length h i } };
}

impl Loads {
    /// No loads.
    pub fn empty() -> Loads
        ensures { result ≡ [] }
    {
        let none = Load {
            region: NO_MEMBER,
            shards: ShardSet::empty(),
        };
        Loads {
            cells: [none; 16],
            len: 0,
        }
    }

    /// These loads and one of a region that registered later.
    pub fn with(self, item: Load) -> Loads
        requires { length self < 16 }
        ensures { result ≡ self ++ item ∷ [] }
    {
        let mut loads = self;
        loads.push(item);
        loads
    }

    /// One load more, of a region that registered later.
    pub fn push(&mut self, item: Load)
        requires { length self.old < 16 }
        ensures { self.new ≡ self.old ++ item ∷ [] }
    {
        self.cells[self.len as usize] = item;
        self.len += 1;
    }

    /// The loads, in order of registration.
    pub fn as_slice(&self) -> &[Load]
        ensures items { result.now ≡ self.now }
        ensures fits { length self.now < 17 }
    {
        &self.cells[..self.len as usize]
    }
}

impl PartialEq for Loads {
    ghost eq = { pointwise ⟦<Load as PartialEq>⟧.eq };

    ghost laws = { partial_equiv_from_equiv (lists_equiv load_laws.laws-law) };

    fn eq(&self, other: &Loads) -> bool {
        self.as_slice() == other.as_slice()
    }
}

impl Eq for Loads {
    ghost laws = { lists_equiv load_laws.laws-law };
}
