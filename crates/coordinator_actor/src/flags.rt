//! A flag for each shard.
ghost use Rattle.std.specs.Prelude.{◌≡◌, ℕ, ◌<◌, ◌≤◌, false, true, length, replicate, slice_set, slice_index_or};

use std::marker::Model;
use yard_model::ShardNo;

/// A flag for each of at most 128 shards; seen as their list.
#[derive(Drop)]
pub(crate) struct Flags {
    cells: [bool; 128],
    len: u8,
}

impl Model for Flags {
    ghost use Rattle.std.specs.Prelude.{Bool, List, take, ◌≤◌};

    ghost Value = { List Bool };

    ghost view = { λ f. take f.len f.cells };

    ghost invariant = { λ f. f.len ≤ 128 };
}

impl Flags {
    /// Flags for so many shards, none set.
    pub(crate) fn none(shards: u8) -> Flags
        requires { shards ≤ 128 }
        ensures { result ≡ replicate shards false }
    {
        Flags {
            cells: [false; 128],
            len: shards,
        }
    }

    /// How many flags there are.
    pub(crate) fn len(&self) -> u8
        ensures value { result ≡ length self.now }
        ensures few { result ≤ 128 }
    {
        self.len
    }

    /// The flag of a shard is set to this.
    pub(crate) fn set(&mut self, s: ShardNo, flag: bool)
        requires { s < length self.old }
        ensures { self.new ≡ slice_set self.old s flag }
    {
        self.cells[s.get() as usize] = flag;
    }

    /// The flag of a shard.
    pub(crate) fn get(&self, s: ShardNo) -> bool
        requires { s < length self.now }
        ensures { result ≡ slice_index_or self.now s false }
    {
        self.cells[s.get() as usize]
    }
}
