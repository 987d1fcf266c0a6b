//! The stores of all slots.
ghost use Rattle.std.specs.Prelude.{◌≡◌, ℕ, ◌+◌, ◌-◌, ◌<◌, ◌≤◌, [], true, nat_lt, fold, length, map, max, Some, IfOk, IsTrue, if◌then◌else◌};
ghost use Rattle.yard_model.specs.declared.incarnation.Slot.TheVariants as slot;
ghost use Rattle.yard_model.specs.Entry.{shard_fact, coord_fact, queue_fact};
ghost use Rattle.yard_model.specs.Genuine.{is_brought};
ghost use Rattle.yard_model.specs.Lawful.{own, is_of_shard};
ghost use Rattle.yard_model.specs.Script.{Script, setting};
ghost use Rattle.yard_model.specs.SlotLists.{shard_list};
ghost use Rattle.yard_model.specs.SlotReads.{epoch};
ghost use Rattle.yard_model.specs.Trace.{no_lists};
ghost use Rattle.yard_model.specs.Words.{numbers, at};
ghost use Rattle.yard_model.specs.World.{greatest_epoch};
ghost use Rattle.shard_store.specs.declared.store.Store.TheVariants as store;
ghost use Rattle.shard_store.specs.Reshaped.{slot_lists, list_of, IsOwn};
ghost use Rattle.shard_store.specs.Stores.{IsNew, AreNew, AreHomes, slot_at, lists_at, entries_at, entries_in};

use crate::name_table::NameTable;
use crate::shelf::ShardStore;
use crate::store::Store;
use coordinator_state::CoordStore;
use durable_queue::QueueStore;
use shard_extract::shard_of;
use std::alloc::{AllocError, Global};
use std::marker::{Model, PhantomData};
use std::snapshot::Snapshot as Ghost;
use yard_model::{
    Charter, CoordEntry, EntityName, Incarnation, Lists, ProducerNo, QueueEntry, ShardEntry,
    ShardNo,
};

/// How many entries a store takes with no memory while it isn't leased.
pub(crate) const SPARE: u32 = 100;

/// For how many a shard's list is made at first, beside what its part of the orders may bring, so that it
/// seldom moves; of its memory none is touched before it is written to.
const FIRST: u32 = 500;

/// How many orders at most are a shard's part.
const MOST: usize = 100_000;

/// The store of each slot of a charter: the shards, the coordinator, the queues. Each one that isn't
/// leased takes a hundred entries with no memory taken; seen as the charter's script and the stores
/// by place.
#[derive(Drop)]
pub struct Stores {
    script: Ghost<Charter>,
    shards: u8,
    places: Vec<Option<Store>>,
    holds: PhantomData<(Incarnation, ShardEntry, CoordEntry, QueueEntry)>,
}

impl Model for Stores {
    ghost use Rattle.std.specs.Prelude.{◌≡◌};
    ghost use Rattle.shard_store.specs.Stores.{Shelves, AreHomes};

    ghost Value = { Shelves };

    ghost view = { λ s. record { script = s.script.value; places = s.places.items } };

    ghost invariant = { λ s. AreHomes s.script.value s.places.items × (s.shards ≡ s.script.value.config.shards) };
}

impl Stores {
    /// The empty store of each slot. The only error is want of memory.
    pub fn new(alloc: Global, charter: &Charter) -> Result<Stores, AllocError>
        ensures script { IfOk result (λ s. s.script ≡ charter.now) }
        ensures none { IfOk result (λ s. lists_at charter.now.config s.places ≡ no_lists (setting charter.now)) }
        ensures empty { IfOk result (λ s. (k : ℕ) → entries_at s.places k ≡ []) }
    {
        let shards = charter.config().shards;
        let places = new_places(alloc, charter)?;
        Ok(Stores {
            script: Ghost::of(charter),
            shards,
            places,
            holds: PhantomData,
        })
    }

    /// The greatest epoch of a shard's lease, 0 before the first. Each shard's list is lawful by itself.
    pub fn greatest_epoch(&self) -> u32
        ensures greatest { result ≡ greatest_epoch (lists_at self.now.script.config self.now.places) }
        ensures own { (s : ℕ) → IsTrue (own self.now.script (slot.Shard s) (shard_list (lists_at self.now.script.config self.now.places) s)) }
    {
        greatest_of(self.places.as_slice(), self.shards)
    }

    /// The store of the shard of a name that the charter brings.
    pub(crate) fn store_of(&self, name: &EntityName) -> &ShardStore
        requires { is_brought self.now.script name.now ≡ true }
        ensures script { result.now.script ≡ self.now.script }
        ensures name { IsTrue (is_of_shard result.now.script result.now.shard name.now) }
        ensures list { result.now.entries ≡ list_of self.now name.now }
    {
        store_at(self.places.as_slice(), shard_of(name, self.shards))
    }

    /// How many shards there are; each slot has its store.
    pub(crate) fn shards(&self) -> u8
        ensures value { result ≡ self.now.script.config.shards }
        ensures homes { AreHomes self.now.script self.now.places }
    {
        self.shards
    }

    /// How many slots there are.
    pub(crate) fn len(&self) -> usize
        ensures { result ≡ length self.now.places }
    {
        self.places.len()
    }

    /// The store at a place.
    pub(crate) fn at_place(&self, place: usize) -> &Store
        requires { place < length self.now.places }
        ensures { at self.now.places place ≡ Some result.now }
    {
        store_in(self.places.as_slice(), place)
    }

    /// The stores of these parts, where each slot has its store.
    pub fn from_parts(parts: Parts) -> Stores
        requires homes { AreHomes parts.script.value parts.places.items }
        requires shards { parts.shards ≡ parts.script.value.config.shards }
        ensures script { result.script ≡ parts.script.value }
        ensures places { result.places ≡ parts.places.items }
    {
        let Parts {
            script,
            shards,
            places,
        } = parts;
        Stores {
            script,
            shards,
            places,
            holds: PhantomData,
        }
    }

    /// Its parts.
    pub fn into_parts(self) -> Parts
        ensures homes { AreHomes result.script.value result.places.items }
        ensures shards { result.shards ≡ result.script.value.config.shards }
        ensures script { result.script.value ≡ self.script }
        ensures places { result.places.items ≡ self.places }
    {
        let Stores {
            script,
            shards,
            places,
            holds: _,
        } = self;
        Parts {
            script,
            shards,
            places,
        }
    }
}

/// What stores are kept as: the script that contracts see, how many shards there are, and the stores
/// by place.
#[derive(Drop)]
pub struct Parts {
    /// The script of the charter that they were made for.
    pub script: Ghost<Charter>,
    /// How many shards there are.
    pub shards: u8,
    /// The store of each slot: the shards, the coordinator, the queues.
    pub places: Vec<Option<Store>>,
}

/// The empty stores, by place. The only error is want of memory.
fn new_places(alloc: Global, charter: &Charter) -> Result<Vec<Option<Store>>, AllocError>
    ensures { IfOk result (λ places. AreNew charter.now places.items (charter.now.config.shards + charter.now.config.producers + 1)) }
{
    let table = NameTable::new(alloc, charter)?;
    new_stores(alloc, charter, &table)
}

/// The same, with the table of the charter's names.
#[tactic(auto, using(crate::proofs::StoresLaws::none_yet))]
fn new_stores(
    alloc: Global,
    charter: &Charter,
    table: &NameTable,
) -> Result<Vec<Option<Store>>, AllocError>
    requires { table.now ≡ charter.now }
    ensures { IfOk result (λ places. AreNew charter.now places.items (charter.now.config.shards + charter.now.config.producers + 1)) }
{
    let config = charter.config();
    let count = config.shards as u32 + config.producers as u32 + 1;
    let mut places = Vec::with_capacity(alloc, count as usize)?;
    for place in 0..count {
        let store = new_store(alloc, charter, table, place)?;
        places.push(Some(store))?;
    }
    Ok(places)
}

/// The empty store of the slot at this place. The only error is want of memory.
#[tactic(auto, using(crate::proofs::StoresLaws::shard_at, crate::proofs::StoresLaws::coordinator_at, crate::proofs::StoresLaws::queue_at))]
fn new_store(
    alloc: Global,
    charter: &Charter,
    table: &NameTable,
    place: u32,
) -> Result<Store, AllocError>
    requires table { table.now ≡ charter.now }
    requires place { place < charter.now.config.shards + charter.now.config.producers + 1 }
    ensures { IfOk result (IsNew charter.now (slot_at charter.now.config place)) }
{
    let config = charter.config();
    let shards = config.shards as u32;
    if place < shards {
        return new_shard(alloc, charter, table, place as u8);
    }
    if place == shards {
        return new_coordinator(alloc, charter);
    }
    new_queue(alloc, charter, table, (place - shards) as u8)
}

/// The empty store of a shard. The only error is want of memory.
fn new_shard(
    alloc: Global,
    charter: &Charter,
    table: &NameTable,
    s: u8,
) -> Result<Store, AllocError>
    requires table { table.now ≡ charter.now }
    requires shard { s < charter.now.config.shards }
    ensures { IfOk result (IsNew charter.now (slot.Shard s)) }
{
    let shards = charter.config().shards;
    let Some(shard) = ShardNo::new(s, shards) else {
        unreachable!()
    };
    let mut store = ShardStore::with_table(alloc, charter, table, shard)?;
    store.reserve(first_room(charter))?;
    Ok(Store::Shard(store))
}

/// For how many entries a shard's list is made at first: twice as many as each shard has of the orders where
/// all have the same number, and some more.
fn first_room(charter: &Charter) -> u32
    ensures { 100 ≤ result }
{
    let shards = charter.config().shards as usize;
    let each = charter.orders().len() / shards;
    FIRST + 2 * at_most(each) as u32
}

/// So many orders, but no more than 100,000.
fn at_most(orders: usize) -> usize
    ensures { result ≤ 100000 }
{
    if orders < MOST { orders } else { MOST }
}

/// The empty store of the coordinator. The only error is want of memory.
fn new_coordinator(alloc: Global, charter: &Charter) -> Result<Store, AllocError>
    ensures { IfOk result (IsNew charter.now slot.Coordinator) }
{
    let mut store = CoordStore::new(alloc, charter)?;
    store.reserve(SPARE)?;
    Ok(Store::Coordinator(store))
}

/// The empty queue of a producer. The only error is want of memory.
fn new_queue(
    alloc: Global,
    charter: &Charter,
    table: &NameTable,
    p: u8,
) -> Result<Store, AllocError>
    requires above { 0 < p }
    requires within { p ≤ charter.now.config.producers }
    ensures { IfOk result (IsNew charter.now (slot.Queue p)) }
{
    charter.config();
    let Some(producer) = ProducerNo::new(p) else {
        unreachable!()
    };
    let mut store = QueueStore::with_hints(alloc, charter, producer, table.hints(producer))?;
    store.reserve(SPARE)?;
    Ok(Store::Queue(store))
}

impl Lists for Stores {
    ghost lists = { λ s. lists_at s.script.config s.places };

    fn shard(&self, s: ShardNo) -> &[ShardEntry] {
        shard_entries(self.places.as_slice(), self.shards, s)
    }

    fn coordinator(&self) -> &[CoordEntry] {
        coordinator_entries(self.places.as_slice(), self.shards)
    }

    fn queue(&self, p: ProducerNo) -> &[QueueEntry] {
        queue_entries(self.places.as_slice(), self.shards, p)
    }
}

/// The greatest epoch of the slots at the first places, 0 where none was leased. The list of each store
/// there is lawful by itself.
pub fn greatest_of(places: &[Option<Store>], count: u8) -> u32
    requires { count ≤ length places.now }
    ensures greatest { result ≡ fold (λ m l. max m (epoch l)) 0 (map (entries_at places.now) (numbers 0 count)) }
    ensures own { (k : ℕ) → k < count → IsOwn (at places.now k) }
{
    let mut greatest = 0;
    for place in 0..count {
        greatest = larger(greatest, epoch_of(&places[place as usize]));
    }
    greatest
}

/// The larger one.
fn larger(a: u32, b: u32) -> u32
    ensures { result ≡ max a b }
{
    if a < b { b } else { a }
}

/// The epoch of a store's slot, 0 where there is no store. Its list is lawful by itself.
fn epoch_of(store: &Option<Store>) -> u32
    ensures epoch { result ≡ epoch (entries_in store.now) }
    ensures own { IsOwn store.now }
{
    match store {
        Some(store) => store.epoch(),
        None => 0,
    }
}

/// The store at a place.
fn store_in(places: &[Option<Store>], place: usize) -> &Store
    requires { (c : Script) × AreHomes c places.now × (place < length places.now) }
    ensures { at places.now place ≡ Some result.now }
{
    match &places[place] {
        Some(store) => store,
        None => unreachable!(),
    }
}

/// The store of a shard.
fn store_at(places: &[Option<Store>], s: ShardNo) -> &ShardStore
    requires { (c : Script) × AreHomes c places.now × (s < c.config.shards) }
    ensures { at places.now s ≡ Some (store.Shard result.now) }
{
    match &places[s.get() as usize] {
        Some(Store::Shard(store)) => store,
        _ => unreachable!(),
    }
}

/// The entries of a shard; none where there is no such shard.
fn shard_entries(places: &[Option<Store>], shards: u8, s: ShardNo) -> &[ShardEntry]
    requires { (c : Script) × AreHomes c places.now × (shards ≡ c.config.shards) }
    ensures { map (shard_fact s) result.now ≡ (if nat_lt s shards then entries_at places.now s else []) }
{
    let place = s.get() as usize;
    if s.get() >= shards {
        return &[];
    }
    match &places[place] {
        Some(Store::Shard(store)) => store.entries(),
        _ => &[],
    }
}

/// The coordinator's entries.
fn coordinator_entries(places: &[Option<Store>], shards: u8) -> &[CoordEntry]
    requires { (c : Script) × AreHomes c places.now × (shards ≡ c.config.shards) }
    ensures { map coord_fact result.now ≡ entries_at places.now shards }
{
    match &places[shards as usize] {
        Some(Store::Coordinator(store)) => store.entries(),
        _ => &[],
    }
}

/// The entries of a producer's queue; none where there is no such producer.
fn queue_entries(places: &[Option<Store>], shards: u8, p: ProducerNo) -> &[QueueEntry]
    requires { (c : Script) × AreHomes c places.now × (shards ≡ c.config.shards) }
    ensures entries { map (queue_fact p) result.now ≡ entries_at places.now (shards + p) }
    ensures above { 0 < p }
{
    let place = shards as usize + p.get() as usize;
    if place >= places.len() {
        return &[];
    }
    match &places[place] {
        Some(Store::Queue(store)) => store.entries(),
        _ => &[],
    }
}
