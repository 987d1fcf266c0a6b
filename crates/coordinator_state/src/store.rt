//! The store of the coordinator's slot.
ghost use Rattle.std.specs.Prelude.{◌≡◌, ℕ, ◌+◌, ◌<◌, ◌≤◌, ◌^◌, false, true, [], ◌∷◌, ◌++◌, length, map, is_none, is_some, IsTrue, IfOk, IfSome, OnOk, OnErr};
ghost use Rattle.std.specs.List.{All, AllPairs};
ghost use Rattle.yard_model.specs.declared.fact.Fact.TheVariants as fact;
ghost use Rattle.yard_model.specs.declared.incarnation.Slot.TheVariants as slot;
ghost use Rattle.yard_model.specs.Words.{is_among};
ghost use Rattle.yard_model.specs.Entry.{coord_fact};
ghost use Rattle.yard_model.specs.Genuine.{is_node, is_shard};
ghost use Rattle.yard_model.specs.Grown.{GoesOn};
ghost use Rattle.yard_model.specs.Lawful.{own, is_held};
ghost use Rattle.yard_model.specs.Script.{with_shards};
ghost use Rattle.yard_model.specs.SlotReads as reads;
ghost use Rattle.yard_model.specs.SlotReads.{regions, allocation};
ghost use Rattle.coordinator_state.specs.Coord.{IsLoadOf, AreApart};
ghost use Rattle.coordinator_state.specs.Homes.{regions_of};

use crate::entries::Entries;
use crate::homes::Homes;
use grow_laws::growing::own_goes_on;
use std::alloc::{AllocError, Global};
use std::marker::Model;
use std::snapshot::Snapshot as Ghost;
use yard_model::{Cause, Charter, CoordEntry, Incarnation, Loads, ShardNo};

/// The list of the coordinator's slot, made for one charter: lawful by itself, as the type keeps,
/// with a spare of entries that are appended with no memory taken. Seen as the charter's script,
/// the entries as the facts that they are, and the spare. What is read off the list is at hand.
#[derive(Drop)]
pub struct CoordStore {
    script: Ghost<Charter>,
    entries: Entries,
    homes: Homes,
    epoch: u32,
    leased: bool,
}

impl Model for CoordStore {
    ghost use Rattle.std.specs.Prelude.{map};
    ghost use Rattle.yard_model.specs.Entry.{coord_fact};
    ghost use Rattle.coordinator_state.specs.Coord.{Coord};
    ghost use Rattle.coordinator_state.specs.Kept.{IsKept};

    ghost Value = { Coord };

    ghost view = { λ c. record { script = c.script.value; entries = map coord_fact c.entries.items; spare = c.entries.spare } };

    ghost invariant = { λ c. IsKept c.script.value (map coord_fact c.entries.items) c.homes c.epoch c.leased };
}

impl CoordStore {
    /// A store of this charter, with no entries and no spare. The only error is want of memory.
    pub fn new(alloc: Global, charter: &Charter) -> Result<CoordStore, AllocError>
        ensures script { IfOk result (λ c. c.script ≡ charter.now) }
        ensures entries { IfOk result (λ c. c.entries ≡ []) }
        ensures spare { IfOk result (λ c. c.spare ≡ 0) }
    {
        let homes = Homes::new(alloc)?;
        Ok(CoordStore {
            script: Ghost::of(charter),
            entries: Entries::new(alloc),
            homes,
            epoch: 0,
            leased: false,
        })
    }

    /// Makes the spare at least `n`. The only error is want of memory, which is answered too where
    /// entries and spare would come to 2^32; then nothing changes.
    #[inline(always)]
    pub fn reserve(&mut self, n: u32) -> Result<(), AllocError>
        ensures script { self.new.script ≡ self.old.script }
        ensures entries { self.new.entries ≡ self.old.entries }
        ensures ok { OnOk result (n ≤ self.new.spare) }
        ensures spare { self.old.spare ≤ self.new.spare }
        ensures err { OnErr result (self.new ≡ self.old) }
    {
        self.entries.reserve(n)
    }

    /// A region is registered: one that isn't, while there are fewer than 16.
    pub fn registered(&mut self, r: Incarnation)
        requires spare { 0 < self.old.spare }
        requires leased { is_held self.old.entries ≡ true }
        requires node { is_node self.old.script r ≡ true }
        requires fresh { is_among r (regions self.old.entries) ≡ false }
        requires room { length (regions self.old.entries) < 16 }
        ensures script { self.new.script ≡ self.old.script }
        ensures entries { self.new.entries ≡ self.old.entries ++ fact.Registered r ∷ [] }
        ensures spare { self.new.spare + 1 ≡ self.old.spare }
    {
        let r = &r;
        self.entries.push(CoordEntry::Registered(*r));
        self.homes.register(*r);
    }

    /// A registered region is lost, and with it the homes there.
    pub fn terminated(&mut self, r: Incarnation)
        requires spare { 0 < self.old.spare }
        requires leased { is_held self.old.entries ≡ true }
        requires registered { is_among r (regions self.old.entries) ≡ true }
        ensures script { self.new.script ≡ self.old.script }
        ensures entries { self.new.entries ≡ self.old.entries ++ fact.Terminated r ∷ [] }
        ensures spare { self.new.spare + 1 ≡ self.old.spare }
    {
        let r = &r;
        self.entries.push(CoordEntry::Terminated(*r));
        self.homes.terminate(r);
    }

    /// A shard that has no home gets one, a registered region.
    pub fn allocated(&mut self, s: ShardNo, r: Incarnation)
        requires spare { 0 < self.old.spare }
        requires leased { is_held self.old.entries ≡ true }
        requires shard { is_shard self.old.script s ≡ true }
        requires registered { is_among r (regions self.old.entries) ≡ true }
        requires homeless { is_none (allocation s self.old.entries) ≡ true }
        ensures script { self.new.script ≡ self.old.script }
        ensures entries { self.new.entries ≡ self.old.entries ++ fact.Allocated s r ∷ [] }
        ensures spare { self.new.spare + 1 ≡ self.old.spare }
    {
        let r = &r;
        let s = &s;
        self.entries.push(CoordEntry::Allocated(*s, *r));
        self.homes.place(*s, Some(*r));
    }

    /// A shard that has a home has none any more.
    pub fn deallocated(&mut self, s: ShardNo)
        requires spare { 0 < self.old.spare }
        requires leased { is_held self.old.entries ≡ true }
        requires shard { is_shard self.old.script s ≡ true }
        requires home { is_some (allocation s self.old.entries) ≡ true }
        ensures script { self.new.script ≡ self.old.script }
        ensures entries { self.new.entries ≡ self.old.entries ++ fact.Deallocated s ∷ [] }
        ensures spare { self.new.spare + 1 ≡ self.old.spare }
    {
        let s = &s;
        self.entries.push(CoordEntry::Deallocated(*s));
        self.homes.place(*s, None);
    }

    /// The slot is leased to this incarnation, of a node of the charter, in the next epoch; it
    /// answers that epoch.
    pub fn grant(&mut self, who: Incarnation) -> u32
        requires spare { 0 < self.old.spare }
        requires free { is_held self.old.entries ≡ false }
        requires node { is_node self.old.script who ≡ true }
        ensures epoch { result ≡ reads.epoch self.old.entries + 1 }
        ensures script { self.new.script ≡ self.old.script }
        ensures entries { self.new.entries ≡ self.old.entries ++ fact.Granted slot.Coordinator result who ∷ [] }
        ensures spare { self.new.spare + 1 ≡ self.old.spare }
    {
        self.entries.as_slice();
        let epoch = self.epoch + 1;
        self.entries.push(CoordEntry::Granted(epoch, who));
        self.epoch = epoch;
        self.leased = true;
        epoch
    }

    /// The lease ends, for this cause.
    pub fn free(&mut self, cause: Cause)
        requires spare { 0 < self.old.spare }
        requires leased { is_held self.old.entries ≡ true }
        ensures script { self.new.script ≡ self.old.script }
        ensures entries { self.new.entries ≡ self.old.entries ++ fact.Freed slot.Coordinator (reads.epoch self.old.entries) cause ∷ [] }
        ensures spare { self.new.spare + 1 ≡ self.old.spare }
    {
        self.entries.push(CoordEntry::Freed(self.epoch, cause));
        self.leased = false;
    }

    /// The store for the number of shards of `charter`, which says the same beside it, where `epoch` is
    /// the greatest of any shard's lease so far: no shard has a home, and the regions are registered
    /// as they are here. It has no spare. The only error is want of memory.
    pub fn reshard(
        &self,
        alloc: Global,
        charter: &Charter,
        epoch: u32,
    ) -> Result<CoordStore, AllocError>
        requires free { is_held self.now.entries ≡ false }
        requires shards { self.now.script.config.shards ≤ 128 }
        requires charter { charter.now ≡ with_shards charter.now.config.shards self.now.script }
        ensures script { IfOk result (λ c. c.script ≡ charter.now) }
        ensures entries { IfOk result (λ c. c.entries ≡ self.now.entries ++ fact.Reshard charter.now.config.shards epoch ∷ []) }
    {
        let shards = charter.config().shards;
        let homes = self.homes.cleared(alloc)?;
        let mut entries = self.entries.copy(alloc)?;
        entries.reserve(1)?;
        entries.push(CoordEntry::Reshard { shards, epoch });
        Ok(CoordStore {
            script: Ghost::of(charter),
            entries,
            homes,
            epoch: self.epoch,
            leased: self.leased,
        })
    }

    /// The same store under `charter`, whose script goes on from the store's.
    pub fn grow(self, charter: &Charter) -> CoordStore
        requires goes_on { GoesOn self.script charter.now }
        ensures { result ≡ record self { script = charter.now } }
    {
        own_goes_on();
        let CoordStore {
            script: _,
            entries,
            homes,
            epoch,
            leased,
        } = self;
        CoordStore {
            script: Ghost::of(charter),
            entries,
            homes,
            epoch,
            leased,
        }
    }

    /// The home of a shard, a registered region; None exactly where it has none.
    pub fn home(&self, s: ShardNo) -> Option<Incarnation>
        ensures value { result ≡ allocation s self.now.entries }
        ensures registered { IfSome result (λ r. is_among r (regions self.now.entries) ≡ true) }
    {
        self.homes.home(s)
    }

    /// Whether this region is registered.
    pub fn is_registered(&self, r: Incarnation) -> bool
        ensures { result ≡ is_among r (regions self.now.entries) }
    {
        self.homes.has(&r)
    }

    /// The registered regions in order of registration, each with the shards that it is the home
    /// of.
    pub fn loads(&self) -> Loads
        ensures regions { regions_of result ≡ regions self.now.entries }
        ensures shards { All (IsLoadOf self.now.entries) result }
        ensures apart { AllPairs AreApart result }
    {
        *self.lent_loads()
    }

    /// The same, lent.
    pub fn lent_loads(&self) -> &Loads
        ensures regions { regions_of result.now ≡ regions self.now.entries }
        ensures shards { All (IsLoadOf self.now.entries) result.now }
        ensures apart { AllPairs AreApart result.now }
    {
        self.homes.loads()
    }

    /// The epoch of the last lease, 0 where there was none.
    pub fn epoch(&self) -> u32
        ensures { result ≡ reads.epoch self.now.entries }
    {
        self.epoch
    }

    /// Whether the last grant stands: no entry freed it.
    pub fn is_leased(&self) -> bool
        ensures { result ≡ is_held self.now.entries }
    {
        self.leased
    }

    /// How many more entries are appended with no memory taken.
    pub fn spare(&self) -> u32
        ensures value { result ≡ self.now.spare }
        ensures fits { length self.now.entries + self.now.spare < 2 ^ 32 }
    {
        self.entries.as_slice();
        self.entries.spare()
    }

    /// The entries, oldest first.
    pub fn entries(&self) -> &[CoordEntry]
        ensures facts { map coord_fact result.now ≡ self.now.entries }
        ensures lawful { IsTrue (own self.now.script slot.Coordinator self.now.entries) }
    {
        self.entries.as_slice()
    }

    /// How many entries there are.
    pub fn len(&self) -> u32
        ensures { result ≡ length self.now.entries }
    {
        self.entries.len()
    }
}
