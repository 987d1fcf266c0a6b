//! The store of a shard.
ghost use Rattle.std.specs.Prelude.{◌≡◌, ℕ, ◌+◌, ◌-◌, ◌<◌, ◌≤◌, [], ◌∷◌, ◌++◌, length, map, true, false, OnOk, OnErr, IfOk, IsTrue, MatchOption, replicate, slice_index_or};
ghost use Rattle.yard_model.specs.declared.fact.Fact.TheVariants as fact;
ghost use Rattle.yard_model.specs.declared.incarnation.Slot.TheVariants as slot;
ghost use Rattle.yard_model.specs.Behaviour.{folded};
ghost use Rattle.yard_model.specs.Entry.{shard_fact};
ghost use Rattle.std.specs.List.{list_all};
ghost use Rattle.yard_model.specs.Genuine.{is_node, is_brought};
ghost use Rattle.yard_model.specs.Grown.{GoesOn};
ghost use Rattle.yard_model.specs.Lawful.{own, is_held, is_of_shard};
ghost use Rattle.yard_model.specs.SlotReads.{epoch, journal, last_snapshot, is_remembered};
ghost use Rattle.shard_store.specs.Reshaped.{AreEach, IsJournalIn};
ghost use Rattle.shard_store.specs.Shelf.{Shelf, slot_of, may, with_entry};
ghost use Rattle.shard_store.specs.Shelved.{IsSnapshot, IsThere, IsShelf, no_journal};

use crate::grow::{Held, grown};
use crate::list::SlotList;
use crate::name_table::NameTable;
use crate::names::Names;
use crate::positions::positions_of;
use crate::written::record_in;
use entity_journal::Journal;
use entity_snapshot::{Positions, Snapshot, Snapshots};
use remember_store::Remembered;
use std::alloc::{AllocError, Global};
use std::marker::{Model, PhantomData};
use std::snapshot::Snapshot as Ghost;
use yard_model::laws::slot_law;
use yard_model::{Cause, Charter, EntityName, Incarnation, Record, ShardEntry, ShardNo, State};

/// The store of one shard, of the charter that it was made for; seen as that charter's script, the
/// shard, the list of the shard's slot as facts, and a spare: so many entries more take no memory.
/// The list is lawful by itself: the type keeps it. The journal, the snapshots and the mark of each
/// of the shard's names are at hand, and no call looks through the list. Of each record the journal
/// has the place in the list, where it is read.
#[derive(Drop)]
pub struct ShardStore {
    script: Ghost<Charter>,
    shard: ShardNo,
    list: SlotList,
    names: Names,
    journals: Vec<Journal>,
    snapshots: Vec<Snapshots>,
    remembered: Remembered,
    holds: PhantomData<(Record, State, Positions)>,
}

impl Model for ShardStore {
    ghost use Rattle.shard_store.specs.Shelf.{Shelf};
    ghost use Rattle.shard_store.specs.Shelved.{IsShelf};

    ghost Value = { Shelf };

    ghost view = { λ s. record { script = s.script.value; shard = s.shard; entries = s.list.entries; spare = s.list.spare } };

    ghost invariant = { λ s. IsShelf (record { script = s.script.value; shard = s.shard; entries = s.list.entries; spare = s.list.spare }) s.list.shard s.names s.journals.items s.snapshots.items s.remembered };
}

impl ShardStore {
    /// The empty store of shard `s` of this charter, with no spare. The only error is want of memory.
    pub fn new(alloc: Global, charter: &Charter, s: ShardNo) -> Result<ShardStore, AllocError>
        requires { s < charter.now.config.shards }
        ensures { IfOk result (λ x. x ≡ record { script = charter.now; shard = s; entries = []; spare = 0 }) }
    {
        let table = NameTable::new(alloc, charter)?;
        ShardStore::with_table(alloc, charter, &table, s)
    }

    /// The same, with the table of the charter's names.
    pub(crate) fn with_table(
        alloc: Global,
        charter: &Charter,
        table: &NameTable,
        s: ShardNo,
    ) -> Result<ShardStore, AllocError>
        requires shard { s < charter.now.config.shards }
        requires table { table.now ≡ charter.now }
        ensures { IfOk result (λ x. x ≡ record { script = charter.now; shard = s; entries = []; spare = 0 }) }
    {
        let names = Names::of_shard(alloc, charter, table, s)?;
        let count = names.len();
        let journals = new_journals(alloc, table, names.as_slice())?;
        let snapshots = no_snapshots(alloc, count, charter.config().keep)?;
        let remembered = Remembered::new(alloc, count as u16)?;
        Ok(ShardStore {
            script: Ghost::of(charter),
            shard: s,
            list: SlotList::new(alloc, s),
            names,
            journals,
            snapshots,
            remembered,
            holds: PhantomData,
        })
    }

    /// The store of shard `s` of this charter, of a list that has just begun anew, with what is at hand
    /// of each of the shard's names.
    pub(crate) fn begun(
        charter: &Charter,
        list: SlotList,
        names: Names,
        journals: Vec<Journal>,
        snapshots: Vec<Snapshots>,
        remembered: Remembered,
        s: ShardNo,
    ) -> ShardStore
        requires { IsShelf (record { script = charter.now; shard = s; entries = list.entries; spare = list.spare }) list.shard names journals.items snapshots.items remembered }
        ensures { result ≡ record { script = charter.now; shard = s; entries = list.entries; spare = list.spare } }
    {
        ShardStore {
            script: Ghost::of(charter),
            shard: s,
            list,
            names,
            journals,
            snapshots,
            remembered,
            holds: PhantomData,
        }
    }

    /// The store for a charter whose script goes on as its own: the list stays, and of each name what is at
    /// hand, with room for all that is sent to it now. The only error is want of memory; the store is gone then.
    pub(crate) fn grow(
        self,
        alloc: Global,
        charter: &Charter,
        table: &NameTable,
    ) -> Result<ShardStore, AllocError>
        requires goes_on { GoesOn self.script charter.now }
        requires table { table.now ≡ charter.now }
        ensures { IfOk result (λ x. x ≡ record self { script = charter.now }) }
    {
        let ShardStore {
            script: _,
            shard,
            list,
            names: old,
            journals,
            snapshots,
            remembered,
            holds: _,
        } = self;
        let names = Names::of_shard(alloc, charter, table, shard)?;
        let held = Held {
            journals,
            snapshots,
            remembered,
        };
        let held = grown(
            old.as_slice(),
            names.as_slice(),
            held,
            charter.config().keep,
            table,
        )?;
        let Held {
            journals,
            snapshots,
            remembered,
        } = held;
        Ok(ShardStore::begun(charter, list, names, journals, snapshots, remembered, shard))
    }

    /// Makes the spare at least `n`, and at once twice that where it is less. The only error is want
    /// of memory, also where there would be more than 4,294,967,295 entries, or could be an epoch above
    /// that; the list stays, though the spare may have grown.
    pub fn reserve(&mut self, n: u32) -> Result<(), AllocError>
        ensures list { self.new ≡ record self.old { spare = self.new.spare } }
        ensures ok { OnOk result (n ≤ self.new.spare) }
        ensures spare { self.old.spare ≤ self.new.spare }
    {
        if n <= self.list.spare() {
            return Ok(());
        }
        let wanted = twice(n, self.list.entries().len() as u32, self.list.epoch());
        self.list.reserve(wanted)
    }

    /// The lease of the next epoch goes to `who`, of a node of the charter; the epoch.
    pub fn grant(&mut self, who: Incarnation) -> u32
        requires spare { 0 < self.old.spare }
        requires free { is_held self.old.entries ≡ false }
        requires node { IsTrue (is_node self.old.script who) }
        ensures epoch { result ≡ epoch self.old.entries + 1 }
        ensures entry { self.new ≡ with_entry self.old (fact.Granted (slot_of self.old) result who) }
    {
        slot_law();
        self.list.grant(who)
    }

    /// The lease is free.
    pub fn free(&mut self, cause: Cause)
        requires spare { 0 < self.old.spare }
        requires leased { is_held self.old.entries ≡ true }
        ensures { self.new ≡ with_entry self.old (fact.Freed (slot_of self.old) (epoch self.old.entries) cause) }
    {
        slot_law();
        self.list.free(cause);
    }

    /// The epoch of the last grant, 0 before.
    pub fn epoch(&self) -> u32
        ensures { result ≡ epoch self.now.entries }
    {
        self.list.epoch()
    }

    /// Whether the last grant stands: no entry freed it.
    pub fn is_leased(&self) -> bool
        ensures { result ≡ is_held self.now.entries }
    {
        self.list.is_leased()
    }

    /// How many entries there are.
    pub fn len(&self) -> u32
        ensures { result ≡ length self.now.entries }
    {
        self.list.entries().len() as u32
    }

    /// How many entries more take no memory.
    pub fn spare(&self) -> u32
        ensures { result ≡ self.now.spare }
    {
        self.list.spare()
    }

    /// The list, oldest entry first.
    pub fn entries(&self) -> &[ShardEntry]
        ensures entries { map (shard_fact self.now.shard) result.now ≡ self.now.entries }
        ensures few { length result.now < 4294967296 }
        ensures own { IsTrue (own self.now.script (slot_of self.now) self.now.entries) }
    {
        self.list.entries()
    }

    /// Where an entity of this shard stands among the shard's names; a call by place looks for no name.
    pub fn place(&self, entity: &EntityName) -> usize
        requires { IsTrue (is_of_shard self.now.script self.now.shard entity.now) }
        ensures { IsThere self.now result entity.now }
    {
        self.names.place(entity)
    }

    /// A record of an entity, which may come next: under the open epoch, with the next number of its
    /// journal and the next place of its producer, as the entity decides.
    pub fn wrote(&mut self, entity: &EntityName, entry: Record)
        requires spare { 0 < self.old.spare }
        requires next { IsTrue (may self.old (fact.Wrote entity.now entry)) }
        ensures { self.new ≡ with_entry self.old (fact.Wrote entity.now entry) }
    {
        let place = self.names.place(entity);
        self.wrote_at(place, entity, &entry);
    }

    /// The same, of the entity at this place.
    #[inline(always)]
    pub fn wrote_at(&mut self, place: usize, entity: &EntityName, entry: &Record)
        requires place { IsThere self.old place entity.now }
        requires spare { 0 < self.old.spare }
        requires next { IsTrue (may self.old (fact.Wrote entity.now entry.now)) }
        ensures { self.new ≡ with_entry self.old (fact.Wrote entity.now entry.now) }
    {
        let at = self.list.len();
        self.journals[place].append(entry, at);
        self.list.write(ShardEntry::Wrote(*entity, *entry));
    }

    /// A snapshot of all records of an entity, of which there are more than at its latest one;
    /// `state` is what they lead to. The last few snapshots stay, as the charter says.
    pub fn snapshot(&mut self, entity: &EntityName, state: State)
        requires spare { 0 < self.old.spare }
        requires leased { is_held self.old.entries ≡ true }
        requires name { IsTrue (is_of_shard self.old.script self.old.shard entity.now) }
        requires newer { last_snapshot entity.now self.old.entries < length (journal entity.now self.old.entries) }
        requires state { state ≡ folded self.old.script.config.kind (journal entity.now self.old.entries) }
        ensures { self.new ≡ with_entry self.old (fact.Snapshot entity.now (length (journal entity.now self.old.entries))) }
    {
        let place = self.names.place(entity);
        self.snapshot_at(place, entity, &state);
    }

    /// The same, of the entity at this place.
    pub fn snapshot_at(&mut self, place: usize, entity: &EntityName, state: &State)
        requires place { IsThere self.old place entity.now }
        requires spare { 0 < self.old.spare }
        requires leased { is_held self.old.entries ≡ true }
        requires name { IsTrue (is_of_shard self.old.script self.old.shard entity.now) }
        requires newer { last_snapshot entity.now self.old.entries < length (journal entity.now self.old.entries) }
        requires state { state.now ≡ folded self.old.script.config.kind (journal entity.now self.old.entries) }
        ensures { self.new ≡ with_entry self.old (fact.Snapshot entity.now (length (journal entity.now self.old.entries))) }
    {
        let journal = &self.journals[place];
        let at = journal.len();
        let positions = positions_of(journal);
        self.snapshots[place].save(Snapshot {
            at,
            state: *state,
            positions,
        });
        self.list.write(ShardEntry::Snapshot(*entity, at));
    }

    /// The entity is remembered from now on; it wasn't.
    pub fn remember(&mut self, entity: &EntityName)
        requires spare { 0 < self.old.spare }
        requires leased { is_held self.old.entries ≡ true }
        requires name { IsTrue (is_of_shard self.old.script self.old.shard entity.now) }
        requires new { is_remembered entity.now self.old.entries ≡ false }
        ensures { self.new ≡ with_entry self.old (fact.Remembered entity.now) }
    {
        let place = self.names.place(entity);
        self.remember_at(place, entity);
    }

    /// The same, of the entity at this place.
    pub fn remember_at(&mut self, place: usize, entity: &EntityName)
        requires place { IsThere self.old place entity.now }
        requires spare { 0 < self.old.spare }
        requires leased { is_held self.old.entries ≡ true }
        requires name { IsTrue (is_of_shard self.old.script self.old.shard entity.now) }
        requires new { is_remembered entity.now self.old.entries ≡ false }
        ensures { self.new ≡ with_entry self.old (fact.Remembered entity.now) }
    {
        self.remembered.add(place as u16);
        self.list.write(ShardEntry::Remembered(*entity));
    }

    /// The entity isn't remembered any more; it was.
    pub fn forget(&mut self, entity: &EntityName)
        requires spare { 0 < self.old.spare }
        requires leased { is_held self.old.entries ≡ true }
        requires name { IsTrue (is_of_shard self.old.script self.old.shard entity.now) }
        requires known { is_remembered entity.now self.old.entries ≡ true }
        ensures { self.new ≡ with_entry self.old (fact.Forgotten entity.now) }
    {
        let place = self.names.place(entity);
        self.forget_at(place, entity);
    }

    /// The same, of the entity at this place.
    pub fn forget_at(&mut self, place: usize, entity: &EntityName)
        requires place { IsThere self.old place entity.now }
        requires spare { 0 < self.old.spare }
        requires leased { is_held self.old.entries ≡ true }
        requires name { IsTrue (is_of_shard self.old.script self.old.shard entity.now) }
        requires known { is_remembered entity.now self.old.entries ≡ true }
        ensures { self.new ≡ with_entry self.old (fact.Forgotten entity.now) }
    {
        self.remembered.drop_name(place as u16);
        self.list.write(ShardEntry::Forgotten(*entity));
    }

    /// The journal of an entity of this shard.
    pub fn journal(&self, entity: &EntityName) -> &Journal
        requires { IsTrue (is_of_shard self.now.script self.now.shard entity.now) }
        ensures { result.now.items ≡ journal entity.now self.now.entries }
    {
        &self.journals[self.names.place(entity)]
    }

    /// The same, of the entity at this place; its latest snapshot is of no more records, and with the
    /// spare there are never too many to count.
    pub fn journal_at(&self, place: usize, entity: &EntityName) -> &Journal
        requires { IsThere self.now place entity.now }
        ensures records { result.now.items ≡ journal entity.now self.now.entries }
        ensures last { last_snapshot entity.now self.now.entries ≤ length (journal entity.now self.now.entries) }
        ensures few { length (journal entity.now self.now.entries) + self.now.spare < 4294967296 }
    {
        let _entity = *entity;
        self.snapshots[place].latest();
        self.list.spare();
        &self.journals[place]
    }

    /// The record of an entity of this shard before which there are `k` others.
    pub fn record_of(&self, entity: &EntityName, k: u32) -> &Record
        requires name { IsTrue (is_of_shard self.now.script self.now.shard entity.now) }
        requires within { k < length (journal entity.now self.now.entries) }
        ensures { result.now ≡ slice_index_or (journal entity.now self.now.entries) k result.now }
    {
        self.record_at(self.names.place(entity), entity, k)
    }

    /// The same, of the entity at this place.
    pub fn record_at(&self, place: usize, entity: &EntityName, k: u32) -> &Record
        requires place { IsThere self.now place entity.now }
        requires within { k < length (journal entity.now self.now.entries) }
        ensures { result.now ≡ slice_index_or (journal entity.now self.now.entries) k result.now }
    {
        let _entity = *entity;
        let at = self.journals[place].place(k);
        let entries = self.list.entries();
        record_in(&entries[at as usize])
    }

    /// The latest snapshot of an entity of this shard, with the state and the counts of the records
    /// before it; None exactly where there is none.
    pub fn latest(&self, entity: &EntityName) -> Option<&Snapshot>
        requires { IsTrue (is_of_shard self.now.script self.now.shard entity.now) }
        ensures { MatchOption result (last_snapshot entity.now self.now.entries ≡ 0) (λ s. IsSnapshot self.now.script.config.kind (journal entity.now self.now.entries) (last_snapshot entity.now self.now.entries) s.now) }
    {
        self.snapshots[self.names.place(entity)].latest()
    }

    /// The same, of the entity at this place.
    pub fn latest_at(&self, place: usize, entity: &EntityName) -> Option<&Snapshot>
        requires { IsThere self.now place entity.now }
        ensures { MatchOption result (last_snapshot entity.now self.now.entries ≡ 0) (λ s. IsSnapshot self.now.script.config.kind (journal entity.now self.now.entries) (last_snapshot entity.now self.now.entries) s.now) }
    {
        let _entity = *entity;
        self.snapshots[place].latest()
    }

    /// Whether an entity of this shard is remembered.
    pub fn is_remembered(&self, entity: &EntityName) -> bool
        requires { IsTrue (is_of_shard self.now.script self.now.shard entity.now) }
        ensures { result ≡ is_remembered entity.now self.now.entries }
    {
        self.remembered.holds(self.names.place(entity) as u16)
    }

    /// The same, of the entity at this place.
    pub fn is_remembered_at(&self, place: usize, entity: &EntityName) -> bool
        requires { IsThere self.now place entity.now }
        ensures { result ≡ is_remembered entity.now self.now.entries }
    {
        let _entity = *entity;
        self.remembered.holds(place as u16)
    }
}

/// The empty journal of each of these names, with room for all that is sent to it. The only error is
/// want of memory.
fn new_journals(
    alloc: Global,
    table: &NameTable,
    names: &[EntityName],
) -> Result<Vec<Journal>, AllocError>
    requires { list_all (is_brought table.now) names.now ≡ true }
    ensures { IfOk result (λ v. AreEach no_journal (IsJournalIn [] table.now.orders names.now) v.items (length names.now)) }
{
    let mut journals = Vec::with_capacity(alloc, names.len())?;
    for name in names {
        let journal = new_journal(alloc, table.sends_to(name))?;
        journals.push(journal)?;
    }
    Ok(journals)
}

/// An empty journal with room for so many records. The only error is want of memory.
pub(crate) fn new_journal(alloc: Global, room: u32) -> Result<Journal, AllocError>
    ensures items { IfOk result (λ j. j.items ≡ []) }
    ensures places { IfOk result (λ j. j.places ≡ []) }
    ensures room { IfOk result (λ j. room ≤ j.spare) }
{
    let mut journal = Journal::new(alloc);
    journal.reserve(room)?;
    Ok(journal)
}

/// So many lists without a snapshot, of which the last `keep` will stay.
fn no_snapshots(alloc: Global, count: usize, keep: u8) -> Result<Vec<Snapshots>, AllocError>
    requires { 0 < keep }
    ensures { IfOk result (λ v. v.items ≡ replicate count (record { snapshots = []; keep = keep })) }
{
    let mut lists = Vec::with_capacity(alloc, count)?;
    for _ in 0..count {
        lists.push(Snapshots::new(alloc, keep)?)?;
    }
    Ok(lists)
}

/// Twice as many, where so many more fit beside `len` entries and above `epoch`; else as many.
fn twice(n: u32, len: u32, epoch: u32) -> u32
    ensures { n ≤ result }
{
    if n <= (u32::MAX - len) / 2 && n <= (u32::MAX - epoch) / 2 {
        2 * n
    } else {
        n
    }
}
