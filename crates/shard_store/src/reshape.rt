//! The stores for another number of shards: each shard's list begins anew with the entries of its names.
ghost use Rattle.std.specs.Prelude.{◌≡◌, ℕ, ◌+◌, ◌<◌, ◌≤◌, [], ◌∷◌, ◌++◌, true, false, None, filter, length, map, slice_set, IfOk, OnOk, IsTrue};
ghost use Rattle.std.specs.List.{list_all, flat_map};
ghost use Rattle.yard_model.specs.declared.fact.Fact.TheVariants as fact;
ghost use Rattle.yard_model.specs.declared.incarnation.Slot.TheVariants as slot;
ghost use Rattle.yard_model.specs.declared.packet.Record.{Record};
ghost use Rattle.yard_model.specs.Entry.{shard_fact};
ghost use Rattle.yard_model.specs.Era.{entries_of as named_entries, reshaped};
ghost use Rattle.yard_model.specs.Genuine.{is_brought};
ghost use Rattle.yard_model.specs.Lawful.{is_held, is_of_shard};
ghost use Rattle.yard_model.specs.Script.{setting, with_shards};
ghost use Rattle.yard_model.specs.Setting.{names_of};
ghost use Rattle.yard_model.specs.SlotLists.{shard_list};
ghost use Rattle.yard_model.specs.SlotReads.{journal, last_snapshot};
ghost use Rattle.yard_model.specs.World.{greatest_epoch};
ghost use Rattle.entity_journal.specs.Journal.{AreNumbered};
ghost use Rattle.shard_store.specs.Planned.{sent_to};
ghost use Rattle.shard_store.specs.Reshaped.{slot_lists, next_lists, MayGoOver, is_entry_of, AreEach, IsJournalIn, IsLatestOf, IsMarkOf, AreCarried, IsAfter, IsAfterAt, going_on, is_of_shards};
ghost use Rattle.shard_store.specs.Shelved.{no_journal, no_snapshots, IsJournal, IsLatest};
ghost use Rattle.shard_store.specs.Written.{is_record_of, wrote_in, IsNext, IsMore};
ghost use Rattle.shard_store.specs.Stores.{AreHomes, lists_at, slot_at, script_of, slot_of, entries_of, entries_at};

use crate::list::SlotList;
use crate::name_table::NameTable;
use crate::names::Names;
use crate::shelf::{ShardStore, new_journal};
use crate::store::Store;
use crate::stores::{Parts, SPARE, Stores};
use crate::written::{has_record_of, record_in};
use coordinator_state::CoordStore;
use durable_queue::QueueStore;
use entity_journal::Journal;
use entity_snapshot::Snapshots;
use remember_store::Remembered;
use std::alloc::{AllocError, Global};
use std::snapshot::Snapshot as Ghost;
use yard_model::{Charter, EntityName, ShardEntry, ShardNo};

impl Stores {
    /// The stores for another number of shards, that of `charter`, which says the same beside it; no
    /// slot is leased. Each shard's list begins anew with the entries of its names. The only error is
    /// want of memory.
    pub fn reshape(&self, alloc: Global, charter: &Charter) -> Result<Stores, AllocError>
        requires charter { charter.now ≡ with_shards charter.now.config.shards self.now.script }
        requires free { (k : ℕ) → k < length self.now.places → is_held (entries_at self.now.places k) ≡ false }
        ensures script { IfOk result (λ s. s.script ≡ charter.now) }
        ensures lists { IfOk result (λ s. lists_at charter.now.config s.places ≡ reshaped (setting self.now.script) charter.now.config.shards (greatest_epoch (lists_at self.now.script.config self.now.places)) (lists_at self.now.script.config self.now.places)) }
        ensures free { IfOk result (λ s. (k : ℕ) → k < length s.places → is_held (entries_at s.places k) ≡ false) }
    {
        let epoch = self.greatest_epoch();
        let shards = charter.config().shards;
        let places = shards_after(alloc, self, charter, epoch)?;
        let places = others_after(alloc, places, self, charter, epoch)?;
        Ok(Stores::from_parts(Parts {
            script: Ghost::of(charter),
            shards,
            places,
        }))
    }
}

/// The stores of the shards from here on. The only error is want of memory.
fn shards_after(
    alloc: Global,
    stores: &Stores,
    charter: &Charter,
    epoch: u32,
) -> Result<Vec<Option<Store>>, AllocError>
    requires { MayGoOver stores.now charter.now epoch }
    ensures { IfOk result (λ places. AreEach None (λ k. IsAfterAt charter.now (next_lists stores.now charter.now.config.shards epoch) (slot.Shard k)) places.items charter.now.config.shards) }
{
    let table = NameTable::new(alloc, charter)?;
    each_after(alloc, stores, charter, &table, epoch)
}

/// The same, with the table of the charter's names.
fn each_after(
    alloc: Global,
    stores: &Stores,
    charter: &Charter,
    table: &NameTable,
    epoch: u32,
) -> Result<Vec<Option<Store>>, AllocError>
    requires over { MayGoOver stores.now charter.now epoch }
    requires table { table.now ≡ charter.now }
    ensures { IfOk result (λ places. AreEach None (λ k. IsAfterAt charter.now (next_lists stores.now charter.now.config.shards epoch) (slot.Shard k)) places.items charter.now.config.shards) }
{
    let shards = charter.config().shards;
    let mut places = Vec::new(alloc);
    for s in 0..shards {
        let store = shard_after(alloc, stores, charter, table, s, epoch)?;
        places.push(Some(store))?;
    }
    Ok(places)
}

/// The store of a shard from here on. The only error is want of memory.
fn shard_after(
    alloc: Global,
    stores: &Stores,
    charter: &Charter,
    table: &NameTable,
    s: u8,
    epoch: u32,
) -> Result<Store, AllocError>
    requires over { MayGoOver stores.now charter.now epoch }
    requires table { table.now ≡ charter.now }
    requires within { s < charter.now.config.shards }
    ensures { IfOk result (IsAfter charter.now (slot.Shard s) (shard_list (next_lists stores.now charter.now.config.shards epoch) s)) }
{
    let shards = charter.config().shards;
    let Some(shard) = ShardNo::new(s, shards) else {
        unreachable!()
    };
    let mut store = shelf_after(alloc, stores, charter, table, shard, epoch)?;
    store.reserve(SPARE)?;
    Ok(Store::Shard(store))
}

/// The same, with no spare.
fn shelf_after(
    alloc: Global,
    stores: &Stores,
    charter: &Charter,
    table: &NameTable,
    s: ShardNo,
    epoch: u32,
) -> Result<ShardStore, AllocError>
    requires over { MayGoOver stores.now charter.now epoch }
    requires table { table.now ≡ charter.now }
    requires within { s < charter.now.config.shards }
    ensures { IfOk result (λ x. x ≡ record { script = charter.now; shard = s; entries = shard_list (next_lists stores.now charter.now.config.shards epoch) s; spare = 0 }) }
{
    let names = Names::of_shard(alloc, charter, table, s)?;
    let list = list_after(alloc, stores, charter, &names, s, epoch)?;
    let journals = journals_of(alloc, stores, table, names.as_slice(), &list)?;
    let snapshots = snapshots_of(alloc, stores, names.as_slice(), charter.config().keep)?;
    let remembered = marks_of(alloc, stores, names.as_slice())?;
    Ok(ShardStore::begun(charter, list, names, journals, snapshots, remembered, s))
}

/// The list of a shard from here on.
fn list_after(
    alloc: Global,
    stores: &Stores,
    charter: &Charter,
    names: &Names,
    s: ShardNo,
    epoch: u32,
) -> Result<SlotList, AllocError>
    requires over { MayGoOver stores.now charter.now epoch }
    requires within { s < charter.now.config.shards }
    requires names { names.now ≡ names_of (setting charter.now) s }
    ensures { IfOk result (λ l. l ≡ record { shard = s; entries = shard_list (next_lists stores.now charter.now.config.shards epoch) s; spare = 0 }) }
{
    let shards = charter.config().shards;
    let entries = entries_of_names(alloc, stores, names.as_slice())?;
    SlotList::begun(s, entries, shards, epoch)
}

/// The entries of these names, name by name. The only error is want of memory.
fn entries_of_names(
    alloc: Global,
    stores: &Stores,
    names: &[EntityName],
) -> Result<Vec<ShardEntry>, AllocError>
    requires { list_all (is_brought stores.now.script) names.now ≡ true }
    ensures { IfOk result (λ v. (s : ℕ) → map (shard_fact s) v.items ≡ flat_map (named_entries (setting stores.now.script) (slot_lists stores.now)) names.now) }
{
    let mut entries = Vec::new(alloc);
    for name in names {
        add_entries(&mut entries, stores.store_of(name).entries(), name)?;
    }
    Ok(entries)
}

/// Adds the entries of a name. The only error is want of memory.
fn add_entries(
    entries: &mut Vec<ShardEntry>,
    list: &[ShardEntry],
    name: &EntityName,
) -> Result<(), AllocError>
    ensures { OnOk result (entries.new.items ≡ entries.old.items ++ filter (is_entry_of name.now) list.now) }
{
    for entry in list {
        if is_of(entry, name) {
            entries.push(*entry)?;
        }
    }
    Ok(())
}

/// Whether this is an entry of that name.
fn is_of(entry: &ShardEntry, name: &EntityName) -> bool
    ensures { result ≡ is_entry_of name.now entry.now }
{
    match entry {
        ShardEntry::Wrote(other, _) => *other == *name,
        ShardEntry::Snapshot(other, _) => *other == *name,
        ShardEntry::Remembered(other) => *other == *name,
        ShardEntry::Forgotten(other) => *other == *name,
        _ => false,
    }
}

/// The journals of these names in their shard's list from here on, with room for all that is sent to
/// them. The only error is want of memory.
fn journals_of(
    alloc: Global,
    stores: &Stores,
    table: &NameTable,
    names: &[EntityName],
    list: &SlotList,
) -> Result<Vec<Journal>, AllocError>
    requires names { list_all (is_brought stores.now.script) names.now ≡ true }
    requires table { table.now.orders ≡ stores.now.script.orders }
    requires carried { AreCarried stores.now names.now list.now.entries }
    ensures { IfOk result (λ v. AreEach no_journal (IsJournalIn list.now.entries stores.now.script.orders names.now) v.items (length names.now)) }
{
    let mut journals = Vec::new(alloc);
    for name in names {
        let journal = journal_in(
            alloc,
            stores.store_of(name),
            name,
            table.sends_to(name),
            list,
        )?;
        journals.push(journal)?;
    }
    Ok(journals)
}

/// The journal of a name in a list, of the same records as in its store, with room for so many in all
/// as are sent to it. The only error is want of memory.
fn journal_in(
    alloc: Global,
    store: &ShardStore,
    name: &EntityName,
    room: u32,
    list: &SlotList,
) -> Result<Journal, AllocError>
    requires name { IsTrue (is_of_shard store.now.script store.now.shard name.now) }
    requires room { room ≡ sent_to name.now store.now.script.orders }
    requires same { journal name.now list.now.entries ≡ journal name.now store.now.entries }
    ensures { IfOk result (IsJournal name.now list.now.entries room) }
{
    store.entries();
    store.journal(name).len();
    journal_of(alloc, name, room, list)
}

/// The journal of a name, read off a list, with room for so many records in all. The only error is
/// want of memory.
fn journal_of(
    alloc: Global,
    name: &EntityName,
    room: u32,
    list: &SlotList,
) -> Result<Journal, AllocError>
    requires numbered { AreNumbered (journal name.now list.now.entries) }
    requires room { length (journal name.now list.now.entries) ≤ room }
    ensures { IfOk result (IsJournal name.now list.now.entries room) }
{
    let entries = list.entries();
    let mut journal = new_journal(alloc, room)?;
    for place in 0..entries.len() {
        add_record(&mut journal, name, &entries[place], place as u32);
    }
    Ok(journal)
}

/// Adds the record at this place, where it is one of that name, to the name's journal.
fn add_record(journal: &mut Journal, name: &EntityName, entry: &ShardEntry, place: u32)
    requires { (d : Record) → is_record_of name.now entry.now ≡ true → IsNext (wrote_in entry.now d) journal.old }
    ensures more { (d : Record) → is_record_of name.now entry.now ≡ true → IsMore (wrote_in entry.now d) place journal.old journal.new }
    ensures none { is_record_of name.now entry.now ≡ false → journal.new ≡ journal.old }
{
    if has_record_of(entry, name) {
        journal.append(record_in(entry), place);
    }
}

/// The latest snapshot of each of these names. The only error is want of memory.
fn snapshots_of(
    alloc: Global,
    stores: &Stores,
    names: &[EntityName],
    keep: u8,
) -> Result<Vec<Snapshots>, AllocError>
    requires names { list_all (is_brought stores.now.script) names.now ≡ true }
    requires keep { 0 < keep }
    ensures { IfOk result (λ v. AreEach no_snapshots (IsLatestOf stores.now names.now) v.items (length names.now)) }
{
    let mut lists = Vec::new(alloc);
    for name in names {
        let list = latest_of(alloc, stores.store_of(name), name, keep)?;
        lists.push(list)?;
    }
    Ok(lists)
}

/// The latest snapshot of an entity, of which the last `keep` will stay. The only error is want of
/// memory.
fn latest_of(
    alloc: Global,
    store: &ShardStore,
    name: &EntityName,
    keep: u8,
) -> Result<Snapshots, AllocError>
    requires name { IsTrue (is_of_shard store.now.script store.now.shard name.now) }
    requires keep { 0 < keep }
    ensures { IfOk result (IsLatest store.now.script.config.kind (journal name.now store.now.entries) (last_snapshot name.now store.now.entries)) }
{
    let mut snapshots = Snapshots::new(alloc, keep)?;
    if let Some(latest) = store.latest(name) {
        snapshots.save(*latest);
    }
    Ok(snapshots)
}

/// Which of these names are remembered. The only error is want of memory.
fn marks_of(alloc: Global, stores: &Stores, names: &[EntityName]) -> Result<Remembered, AllocError>
    requires names { list_all (is_brought stores.now.script) names.now ≡ true }
    requires few { length names.now ≤ 1000 }
    ensures { IfOk result (λ marks. AreEach false (IsMarkOf stores.now names.now) marks (length names.now)) }
{
    let count = names.len() as u16;
    let mut marks = Remembered::new(alloc, count)?;
    for place in 0..count {
        let name = &names[place as usize];
        let is_remembered = stores.store_of(name).is_remembered(name);
        set_mark(&mut marks, place, is_remembered);
    }
    Ok(marks)
}

/// Puts a place in or takes it out.
fn set_mark(marks: &mut Remembered, place: u16, mark: bool)
    requires { place < length marks.old }
    ensures { marks.new ≡ slice_set marks.old place mark }
{
    if mark {
        marks.add(place);
    } else {
        marks.drop_name(place);
    }
}

/// The stores of all slots: those of the other slots come after those of the shards. The only error
/// is want of memory.
fn others_after(
    alloc: Global,
    places: Vec<Option<Store>>,
    stores: &Stores,
    charter: &Charter,
    epoch: u32,
) -> Result<Vec<Option<Store>>, AllocError>
    requires charter { charter.now ≡ with_shards charter.now.config.shards stores.now.script }
    requires free { (k : ℕ) → k < length stores.now.places → is_held (entries_at stores.now.places k) ≡ false }
    requires first { AreEach None (λ k. IsAfterAt charter.now (next_lists stores.now charter.now.config.shards epoch) (slot.Shard k)) places.items charter.now.config.shards }
    ensures all { IfOk result (λ all. AreEach None (λ k. IsAfterAt charter.now (next_lists stores.now charter.now.config.shards epoch) (slot_at charter.now.config k)) all.items (charter.now.config.shards + charter.now.config.producers + 1)) }
    ensures homes { AreHomes stores.now.script stores.now.places }
{
    let mut places = places;
    let first = stores.shards() as usize;
    for place in first..stores.len() {
        let store = store_after(alloc, stores.at_place(place), charter, epoch)?;
        places.push(Some(store))?;
    }
    Ok(places)
}

/// The store of a slot that isn't a shard's, from here on. The only error is want of memory.
fn store_after(
    alloc: Global,
    store: &Store,
    charter: &Charter,
    epoch: u32,
) -> Result<Store, AllocError>
    requires charter { charter.now ≡ with_shards charter.now.config.shards (script_of store.now) }
    requires shards { (script_of store.now).config.shards ≤ 128 }
    requires other { is_of_shards (slot_of store.now) ≡ false }
    requires free { is_held (entries_of store.now) ≡ false }
    ensures { IfOk result (IsAfter charter.now (slot_of store.now) (going_on charter.now.config.shards epoch (slot_of store.now) (entries_of store.now))) }
{
    match store {
        Store::Shard(_) => unreachable!(),
        Store::Coordinator(store) => coordinator_after(alloc, store, charter, epoch),
        Store::Queue(store) => queue_after(alloc, store, charter),
    }
}

/// The coordinator's store from here on. The only error is want of memory.
fn coordinator_after(
    alloc: Global,
    store: &CoordStore,
    charter: &Charter,
    epoch: u32,
) -> Result<Store, AllocError>
    requires charter { charter.now ≡ with_shards charter.now.config.shards store.now.script }
    requires shards { store.now.script.config.shards ≤ 128 }
    requires free { is_held store.now.entries ≡ false }
    ensures { IfOk result (IsAfter charter.now slot.Coordinator (store.now.entries ++ fact.Reshard charter.now.config.shards epoch ∷ [])) }
{
    let mut next = store.reshard(alloc, charter, epoch)?;
    next.reserve(SPARE)?;
    Ok(Store::Coordinator(next))
}

/// A queue from here on. The only error is want of memory.
fn queue_after(alloc: Global, store: &QueueStore, charter: &Charter) -> Result<Store, AllocError>
    requires charter { charter.now ≡ with_shards charter.now.config.shards store.now.script }
    requires free { is_held store.now.entries ≡ false }
    ensures { IfOk result (IsAfter charter.now (slot.Queue store.now.producer) store.now.entries) }
{
    let mut next = store.reshard(alloc, charter)?;
    next.reserve(SPARE)?;
    Ok(Store::Queue(next))
}
