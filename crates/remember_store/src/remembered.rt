//! A set of places among the names of a script.
ghost use Rattle.std.specs.Prelude.{◌≡◌, ℕ, ◌<◌, ◌≤◌, Bool, true, false, length, replicate, slice_set, slice_index_or, IfOk, OnOk};
ghost use Rattle.std.specs.List.{insert};

use std::alloc::{AllocError, Global};
use std::marker::Model;

/// A set of places; seen as a mark for each place, true where it is in the set. Once it is made it
/// takes no memory.
#[derive(Drop)]
pub struct Remembered {
    marks: Vec<bool>,
}

impl Model for Remembered {
    ghost use Rattle.std.specs.Prelude.{List, Bool};

    ghost Value = { List Bool };

    ghost view = { λ r. r.marks.items };
}

impl Remembered {
    /// The empty set of so many places. The only error is want of memory.
    pub fn new(alloc: Global, names: u16) -> Result<Remembered, AllocError>
        ensures none { IfOk result (λ r. r ≡ replicate names false) }
        ensures names { IfOk result (λ r. length r ≡ names) }
    {
        let marks = vec![in alloc; false; names as usize]?;
        Ok(Remembered { marks })
    }

    /// A place more, before those from `place` on, which isn't in. The only error is want of memory.
    pub fn insert(&mut self, place: u16) -> Result<(), AllocError>
        requires { place ≤ length self.old }
        ensures { OnOk result (self.new ≡ insert self.old place false) }
    {
        self.marks.insert(place as usize, false)?;
        Ok(())
    }

    /// Puts a place in; nothing changes where it is in already.
    pub fn add(&mut self, place: u16)
        requires { place < length self.old }
        ensures added { self.new ≡ slice_set self.old place true }
        ensures names { length self.new ≡ length self.old }
    {
        self.marks[place as usize] = true;
    }

    /// Takes a place out; nothing changes where it isn't in.
    pub fn drop_name(&mut self, place: u16)
        requires { place < length self.old }
        ensures dropped { self.new ≡ slice_set self.old place false }
        ensures names { length self.new ≡ length self.old }
    {
        self.marks[place as usize] = false;
    }

    /// Whether a place is in.
    pub fn holds(&self, place: u16) -> bool
        requires { place < length self.now }
        ensures { result ≡ slice_index_or self.now place false }
    {
        self.marks.as_slice()[place as usize]
    }
}
