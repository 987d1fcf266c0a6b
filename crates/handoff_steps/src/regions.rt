//! A short list of regions.
ghost use Rattle.std.specs.Prelude.{◌≡◌, ℕ, ◌<◌, ◌≤◌, [], ◌∷◌, ◌++◌, length};
ghost use Rattle.yard_model.specs.Words.{is_empty};

use std::marker::Model;
use yard_model::{Incarnation, NodeNo};

/// At most 16 regions, in order of registration; seen as their list.
#[derive(Clone, Copy)]
pub struct Regions {
    cells: [Incarnation; 16],
    len: u8,
}

impl Model for Regions {
    ghost use Rattle.std.specs.Prelude.{List, length, take};
    ghost use Rattle.yard_model.specs.declared.incarnation.Incarnation.{Incarnation};
    ghost use Rattle.yard_model.specs.Members.{no_member};
    ghost use Rattle.yard_model.specs.Padded.{IsPadded, padded, padded_length, padded_cells};

    ghost Value = { List Incarnation };

    ghost view = { λ n. take n.len n.cells };

    ghost invariant = { λ n. IsPadded 16 no_member n.cells n.len };

    ghost inverse = { λ v. record { cells = padded 16 no_member v; len = length v } };

    ghost inverse_ok = { λ n h i. record { cells = padded_cells h i; len = padded_length h i } };
}

/// What stands where there is no region.
pub(crate) const NO_REGION: Incarnation = Incarnation {
    node: NodeNo::FIRST,
    number: 0,
};

impl Regions {
    /// No regions.
    pub fn empty() -> Regions
        ensures { result ≡ [] }
    {
        Regions {
            cells: [NO_REGION; 16],
            len: 0,
        }
    }

    /// One region more.
    pub fn push(&mut self, region: Incarnation)
        requires { length self.old < 16 }
        ensures { self.new ≡ self.old ++ region ∷ [] }
    {
        self.cells[self.len as usize] = region;
        self.len += 1;
    }

    /// The regions in order.
    pub fn as_slice(&self) -> &[Incarnation]
        ensures items { result.now ≡ self.now }
        ensures fits { length self.now < 17 }
    {
        &self.cells[..self.len as usize]
    }

    /// Whether there are none.
    pub fn is_empty(&self) -> bool
        ensures { result ≡ is_empty self.now }
    {
        match self.as_slice().first() {
            Some(_) => false,
            None => true,
        }
    }
}
