//! The bytes of a disk that reading is about to look at.
ghost use Rattle.std.specs.Prelude.{◌≡◌, ◌≢◌, ◌⊎◌, vec_len, ℕ, ◌+◌, ◌-◌, ◌<◌, ◌≤◌, [], length, drop, min, true, false, IsTrue, Err, IfOk, OnOk};
ghost use Rattle.disk_log.specs.Window.{IsAhead, IsUntouched, Came, Filled};

use crate::disk::Disk;
use crate::reading::ReadLogFault;
use std::alloc::{AllocError, Global};
use std::marker::Model;

/// How many bytes are read at a time at most.
const PIECE: usize = 65_536;

/// Bytes of a disk from some place on that were read, and how many the disk has.
#[derive(Drop)]
pub(crate) struct Window {
    alloc: Global,
    size: u64,
    place: u64,
    from: usize,
    bytes: Vec<u8>,
    space: Vec<u8>,
}

impl Model for Window {
    ghost use Rattle.std.specs.Prelude.{◌+◌, ◌-◌, ◌<◌, ◌≤◌, drop, vec_len};
    ghost use Rattle.disk_log.specs.Window.{Ahead};

    ghost Value = { Ahead };

    ghost view = { λ w. record { size = w.size; place = w.place; bytes = drop w.from w.bytes.items } };

    ghost invariant = { λ w. (w.from ≤ vec_len w.bytes) × (w.place + (vec_len w.bytes - w.from) ≤ w.size) × (0 < vec_len w.space) };
}

impl Window {
    /// Nothing was read of a disk of this size.
    pub(crate) fn new(alloc: Global, size: u64) -> Result<Window, AllocError>
        ensures { IfOk result (λ w. w ≡ record { size = size; place = 0; bytes = [] }) }
    {
        let space = new_space(alloc)?;
        Ok(Window {
            alloc,
            size,
            place: 0,
            from: 0,
            bytes: Vec::new(alloc),
            space,
        })
    }

    /// Where the bytes stand.
    pub(crate) fn place(&self) -> u64
        ensures { result ≡ self.now.place }
    {
        self.place
    }

    /// How many bytes the disk has from there on.
    pub(crate) fn left(&self) -> u64
        ensures left { result ≡ self.now.size - self.now.place }
        ensures within { self.now.place ≤ self.now.size }
    {
        self.size - self.place
    }

    /// The bytes.
    pub(crate) fn bytes(&self) -> &[u8]
        ensures { result.now ≡ self.now.bytes }
    {
        &self.bytes[self.from..]
    }

    /// Leaves the first bytes behind.
    pub(crate) fn pass(&mut self, count: usize)
        requires { count ≤ length self.old.bytes }
        ensures { self.new ≡ record { size = self.old.size; place = self.old.place + count; bytes = drop count self.old.bytes } }
    {
        self.place += count as u64;
        self.from += count;
    }

    /// Whether so many bytes are at hand, or all that are left.
    fn has(&self, want: usize) -> bool
        ensures yes { result ≡ true → (want ≤ length self.now.bytes) ⊎ (self.now.size ≤ self.now.place + length self.now.bytes) }
        ensures no { result ≡ false → self.now.place + length self.now.bytes < self.now.size }
    {
        let bytes = self.bytes().len();
        bytes >= want || bytes as u64 >= self.left()
    }

    /// Reads on until so many bytes are at hand, or all that are left.
    pub(crate) fn fill<D: Disk>(&mut self, disk: &mut D, want: usize) -> Result<(), ReadLogFault>
        requires { IsAhead D.tells (D.content disk.old) self.old }
        ensures filled { OnOk result (Filled D.tells (D.content disk.old) want self.old self.new) }
        ensures untouched { IsUntouched (D.content disk.old) (D.content disk.new) (D.images disk.old) (D.images disk.new) }
        ensures cause { result ≡ Err ReadLogFault.Failed → D.faults disk.old < D.faults disk.new }
        ensures whole { (at : ℕ) → result ≢ Err (ReadLogFault.Damaged at) }
        ensures never_falls { D.faults disk.old ≤ D.faults disk.new }
    {
        if self.has(want) {
            return Ok(());
        }
        self.forget()?;
        for _ in 0..want {
            if self.has(want) {
                return Ok(());
            }
            let come = self.read_more(disk)?;
            if come == 0 {
                return Ok(());
            }
        }
        Ok(())
    }

    /// Gives back the memory of what was left behind.
    fn forget(&mut self) -> Result<(), AllocError>
        ensures { OnOk result (self.new ≡ self.old) }
    {
        let rest = Vec::from_slice(self.alloc, self.bytes())?;
        self.bytes = rest;
        self.from = 0;
        Ok(())
    }

    /// Reads once, and appends what comes. The answer is how many bytes these are.
    fn read_more<D: Disk>(&mut self, disk: &mut D) -> Result<usize, ReadLogFault>
        requires ahead { IsAhead D.tells (D.content disk.old) self.old }
        requires room { self.old.place + length self.old.bytes < self.old.size }
        ensures came { IfOk result (λ n. Came D.tells (D.content disk.old) n self.old self.new) }
        ensures untouched { IsUntouched (D.content disk.old) (D.content disk.new) (D.images disk.old) (D.images disk.new) }
        ensures cause { result ≡ Err ReadLogFault.Failed → D.faults disk.old < D.faults disk.new }
        ensures whole { (at : ℕ) → result ≢ Err (ReadLogFault.Damaged at) }
        ensures never_falls { D.faults disk.old ≤ D.faults disk.new }
    {
        let end = self.place + self.bytes().len() as u64;
        let come = disk.read(end, self.space.as_mut_slice())?;
        let count = at_most(come, self.size - end);
        self.bytes.extend_from_slice(&self.space[..count])?;
        Ok(count)
    }
}

/// The smaller one.
fn at_most(count: usize, most: u64) -> usize
    ensures { result ≡ min count most }
{
    if count as u64 > most {
        most as usize
    } else {
        count
    }
}

/// Room for a piece.
fn new_space(alloc: Global) -> Result<Vec<u8>, AllocError>
    ensures { IfOk result (λ space. 0 < vec_len space) }
{
    vec![in alloc; 0; PIECE]
}
