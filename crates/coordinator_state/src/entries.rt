//! The list of entries, with a spare.
ghost use Rattle.std.specs.Prelude.{◌≡◌, ◌+◌, ◌<◌, ◌≤◌, ◌^◌, [], ◌∷◌, ◌++◌, length, IfOk, OnOk, OnErr};

use std::alloc::{AllocError, Global};
use std::marker::{Model, PhantomData};
use yard_model::{Cause, CoordEntry, Incarnation, ShardNo};

/// Entries, oldest first, and how many more are appended with no memory taken. Entries and spare
/// together are below 2^32.
#[derive(Drop)]
pub(crate) struct Entries {
    list: Vec<CoordEntry>,
    spare: u32,
    holds: PhantomData<(Incarnation, Cause, ShardNo)>,
}

impl Model for Entries {
    ghost use Rattle.std.specs.Prelude.{length, vec_capacity};
    ghost use Rattle.yard_model.specs.declared.entry.CoordEntry.{CoordEntry};
    ghost use Rattle.yard_model.specs.Spared.{Spared};
    ghost use Rattle.coordinator_state.specs.Kept.{HasRoom};

    ghost Value = { Spared CoordEntry };

    ghost view = { λ e. record { items = e.list.items; spare = e.spare } };

    ghost invariant = { λ e. HasRoom (length e.list.items) e.spare (vec_capacity e.list) };
}

impl Entries {
    pub(crate) fn new(alloc: Global) -> Entries
        ensures items { result.items ≡ [] }
        ensures spare { result.spare ≡ 0 }
    {
        Entries {
            list: Vec::new(alloc),
            spare: 0,
            holds: PhantomData,
        }
    }

    /// The same entries, with no spare. The only error is want of memory.
    pub(crate) fn copy(&self, alloc: Global) -> Result<Entries, AllocError>
        ensures { IfOk result (λ e. e ≡ record { items = self.now.items; spare = 0 }) }
    {
        let mut list = Vec::with_capacity(alloc, self.list.len())?;
        list.extend_from_slice(self.list.as_slice())?;
        Ok(Entries {
            list,
            spare: 0,
            holds: PhantomData,
        })
    }

    /// Makes the spare at least `n`. It answers want of memory too where there would be 2^32
    /// entries; after want of memory nothing changes.
    #[inline(always)]
    pub(crate) fn reserve(&mut self, n: u32) -> Result<(), AllocError>
        ensures items { self.new.items ≡ self.old.items }
        ensures ok { OnOk result (n ≤ self.new.spare) }
        ensures spare { self.old.spare ≤ self.new.spare }
        ensures err { OnErr result (self.new ≡ self.old) }
    {
        if n > self.spare { self.grow(n) } else { Ok(()) }
    }

    /// The same of a spare that is less.
    #[inline(never)]
    fn grow(&mut self, n: u32) -> Result<(), AllocError>
        requires { self.old.spare < n }
        ensures items { self.new.items ≡ self.old.items }
        ensures ok { OnOk result (self.new.spare ≡ n) }
        ensures err { OnErr result (self.new ≡ self.old) }
    {
        let count = self.list.len();
        if count + n as usize > u32::MAX as usize {
            return Err(AllocError);
        }
        self.list.reserve(n as usize)?;
        self.spare = n;
        Ok(())
    }

    /// One entry more, from the spare.
    pub(crate) fn push(&mut self, entry: CoordEntry)
        requires { 0 < self.old.spare }
        ensures items { self.new.items ≡ self.old.items ++ entry ∷ [] }
        ensures spare { self.new.spare + 1 ≡ self.old.spare }
    {
        self.list.push_reserved(entry);
        self.spare -= 1;
    }

    pub(crate) fn as_slice(&self) -> &[CoordEntry]
        ensures items { result.now ≡ self.now.items }
        ensures fits { length self.now.items + self.now.spare < 2 ^ 32 }
    {
        self.list.as_slice()
    }

    pub(crate) fn len(&self) -> u32
        ensures { result ≡ length self.now.items }
    {
        self.list.len() as u32
    }

    pub(crate) fn spare(&self) -> u32
        ensures { result ≡ self.now.spare }
    {
        self.spare
    }
}
