//! The plain form of leases: a book of all slots.
ghost use Rattle.std.specs.Prelude.{◌≡◌, ℕ, ◌+◌, ◌-◌, ◌<◌, [], ◌∷◌, ◌++◌, false, Some, None, length, replicate, slice_set, is_some, is_none, IfOk, OnOk, OnErr, IfSome, IsTrue};
ghost use Rattle.yard_model.specs.declared.fact.Fact.TheVariants as fact;
ghost use Rattle.yard_model.specs.Lawful.{own, is_held};
ghost use Rattle.yard_model.specs.Words.{at};
ghost use Rattle.yard_model.specs.Genuine.{is_node, is_slot_of};
ghost use Rattle.yard_model.specs.Era.{reshaped};
ghost use Rattle.yard_model.specs.Script.{Script, setting, with_shards};
ghost use Rattle.yard_model.specs.SlotReads.{epoch};
ghost use Rattle.yard_model.specs.World.{greatest_epoch};
ghost use Rattle.shard_store.specs.Stores.{place_of, entries_at, lists_at, script_of, slot_of, entries_of, spare_of, slot_of_ref, script_of_ref, entries_of_ref};
ghost use Rattle.shard_lease.specs.Book.{AreLent};

use crate::leases::{Acquire, Leases};
use shard_store::{Parts, Store, StoreRef, Stores, greatest_of};
use std::alloc::{AllocError, Global};
use std::marker::{Model, PhantomData};
use std::mem;
use std::snapshot::Snapshot as Ghost;
use yard_model::{Cause, Charter, Incarnation, Slot};

/// The stores of the slots that nobody holds, and who holds the others; seen as both, by place.
#[derive(Drop)]
pub struct LeaseBook {
    script: Ghost<Charter>,
    shards: u8,
    places: Vec<Option<Store>>,
    holders: Vec<Option<Incarnation>>,
    holds: PhantomData<(Incarnation, Slot)>,
}

impl Model for LeaseBook {
    ghost use Rattle.std.specs.Prelude.{◌≡◌};
    ghost use Rattle.shard_lease.specs.Book.{Book, IsBook};

    ghost Value = { Book };

    ghost view = { λ b. record { script = b.script.value; places = b.places.items; holders = b.holders.items } };

    ghost invariant = { λ b. IsBook (record { script = b.script.value; places = b.places.items; holders = b.holders.items }) × (b.shards ≡ b.script.value.config.shards) };
}

impl LeaseBook {
    /// The book of these stores, none of which is leased. The only error is want of memory.
    #[tactic(auto, using(crate::proofs::BookLaws::book_new))]
    pub fn new(alloc: Global, stores: Stores) -> Result<LeaseBook, AllocError>
        requires { (k : ℕ) → k < length stores.places → is_held (entries_at stores.places k) ≡ false }
        ensures script { IfOk result (λ b. b.script ≡ stores.script) }
        ensures places { IfOk result (λ b. b.places ≡ stores.places) }
        ensures holders { IfOk result (λ b. b.holders ≡ replicate (length stores.places) None) }
    {
        let Parts {
            script,
            shards,
            places,
        } = stores.into_parts();
        let holders = vec![in alloc; None; places.len()]?;
        Ok(LeaseBook {
            script,
            shards,
            places,
            holders,
            holds: PhantomData,
        })
    }

    /// The greatest epoch of a shard's lease, 0 before the first; a shard that is held doesn't count.
    pub fn greatest_epoch(&self) -> u32
        ensures { result ≡ greatest_epoch (lists_at self.now.script.config self.now.places) }
    {
        greatest_of(self.places.as_slice(), self.shards)
    }

    /// The book goes over to another number of shards, that of `charter`, which says the same beside it,
    /// where nobody holds a slot: each shard's list begins anew with the entries of its names. The only
    /// error is want of memory, and then nothing changes.
    pub fn reshape(&mut self, alloc: Global, charter: &Charter) -> Result<(), AllocError>
        requires charter { charter.now ≡ with_shards charter.now.config.shards self.old.script }
        requires free { (s : Slot) → IsTrue (is_slot_of self.old.script s) → at self.old.holders (place_of self.old.script.config s) ≡ None }
        ensures script { OnOk result (self.new.script ≡ charter.now) }
        ensures lists { OnOk result (lists_at charter.now.config self.new.places ≡ reshaped (setting self.old.script) charter.now.config.shards (greatest_epoch (lists_at self.old.script.config self.old.places)) (lists_at self.old.script.config self.old.places)) }
        ensures holders { OnOk result (self.new.holders ≡ replicate (length self.new.places) None) }
        ensures err { OnErr result (self.new ≡ self.old) }
    {
        let script = mem::replace(&mut self.script, Ghost::of(charter));
        let places = mem::replace(&mut self.places, Vec::new(alloc));
        let stores = Stores::from_parts(Parts {
            script,
            shards: self.shards,
            places,
        });
        match book_after(alloc, &stores, charter) {
            Ok(book) => {
                *self = book;
                Ok(())
            }
            Err(error) => {
                let parts = stores.into_parts();
                self.script = parts.script;
                self.places = parts.places;
                Err(error)
            }
        }
    }

    /// The store of a slot that nobody holds, lent; None exactly where somebody does.
    pub fn store(&self, slot: Slot) -> Option<StoreRef<'_>>
        requires slot { IsTrue (is_slot_of self.now.script slot) }
        ensures held { is_some result ≡ is_none (at self.now.holders (place_of self.now.script.config slot)) }
        ensures slot { IfSome result (λ s. slot_of_ref s ≡ slot) }
        ensures script { IfSome result (λ s. script_of_ref s ≡ self.now.script) }
        ensures entries { IfSome result (λ s. entries_of_ref s ≡ entries_at self.now.places (place_of self.now.script.config slot)) }
    {
        lent(self.places.as_slice(), place_in(self.shards, slot))
    }

    /// The stores, where nobody holds a slot.
    pub fn into_stores(self) -> Stores
        requires { (s : Slot) → IsTrue (is_slot_of self.script s) → at self.holders (place_of self.script.config s) ≡ None }
        ensures script { result.script ≡ self.script }
        ensures places { result.places ≡ self.places }
    {
        let LeaseBook {
            script,
            shards,
            places,
            holders: _,
            holds: _,
        } = self;
        Stores::from_parts(Parts {
            script,
            shards,
            places,
        })
    }
}

impl Leases for LeaseBook {
    ghost use Rattle.shard_lease.specs.Book.{meaning_of};

    ghost meaning = { meaning_of };

    fn acquire(&mut self, who: Incarnation, slot: Slot) -> Acquire {
        let who = &who;
        let place = place_in(self.shards, slot);
        if let Some(holder) = holder_at(self.holders.as_slice(), place) {
            return Acquire::Held(holder.node);
        }
        let Some(store) = take_out(&mut self.places, place) else {
            unreachable!()
        };
        let store = granted(store, who);
        self.holders[place] = Some(*who);
        Acquire::Granted(store)
    }

    fn release(&mut self, who: Incarnation, slot: Slot, store: Store, cause: Cause) {
        let _ = who;
        let mut store = store;
        let place = place_in(self.shards, slot);
        store.free(cause);
        self.holders[place] = None;
        put_back(&mut self.places, place, store);
    }
}

/// The book of these stores for another number of shards, that of `charter`, which says the same beside it.
/// The only error is want of memory.
fn book_after(alloc: Global, stores: &Stores, charter: &Charter) -> Result<LeaseBook, AllocError>
    requires charter { charter.now ≡ with_shards charter.now.config.shards stores.now.script }
    requires free { (k : ℕ) → k < length stores.now.places → is_held (entries_at stores.now.places k) ≡ false }
    ensures script { IfOk result (λ b. b.script ≡ charter.now) }
    ensures lists { IfOk result (λ b. lists_at charter.now.config b.places ≡ reshaped (setting stores.now.script) charter.now.config.shards (greatest_epoch (lists_at stores.now.script.config stores.now.places)) (lists_at stores.now.script.config stores.now.places)) }
    ensures holders { IfOk result (λ b. b.holders ≡ replicate (length b.places) None) }
{
    let stores = stores.reshape(alloc, charter)?;
    LeaseBook::new(alloc, stores)
}

/// The store, with the lease of the next epoch granted to `who`. Its list is lawful by itself.
fn granted(store: Store, who: &Incarnation) -> Store
    requires spare { 0 < spare_of store }
    requires free { is_held (entries_of store) ≡ false }
    requires node { IsTrue (is_node (script_of store) who.now) }
    ensures script { script_of result ≡ script_of store }
    ensures slot { slot_of result ≡ slot_of store }
    ensures entries { entries_of result ≡ entries_of store ++ fact.Granted (slot_of store) (epoch (entries_of store) + 1) who.now ∷ [] }
    ensures spare { spare_of result ≡ spare_of store - 1 }
    ensures own { IsTrue (own (script_of result) (slot_of result) (entries_of result)) }
{
    let mut store = store;
    store.grant(*who);
    let _leased = store.is_leased();
    store
}

/// Who stands at a place.
fn holder_at(holders: &[Option<Incarnation>], place: usize) -> Option<Incarnation>
    requires { place < length holders.now }
    ensures { result ≡ at holders.now place }
{
    holders[place]
}

/// What stands at a place, lent.
fn lent(places: &[Option<Store>], place: usize) -> Option<StoreRef<'_>>
    requires { place < length places.now }
    ensures { AreLent (at places.now place) result }
{
    match &places[place] {
        Some(store) => Some(store.as_ref()),
        None => None,
    }
}

/// Takes what stands at a place.
fn take_out(places: &mut Vec<Option<Store>>, place: usize) -> Option<Store>
    requires { place < length places.old.items }
    ensures taken { result ≡ at places.old.items place }
    ensures places { places.new.items ≡ slice_set places.old.items place None }
{
    places[place].take()
}

/// Puts a store at a place.
fn put_back(places: &mut Vec<Option<Store>>, place: usize, store: Store)
    requires { place < length places.old.items }
    ensures { places.new.items ≡ slice_set places.old.items place (Some store) }
{
    places[place] = Some(store);
}

/// The place of a slot.
fn place_in(shards: u8, slot: Slot) -> usize
    requires { (c : Script) × (shards ≡ c.config.shards) × IsTrue (is_slot_of c slot) }
    ensures { (c : Script) → shards ≡ c.config.shards → result ≡ place_of c.config slot }
{
    match slot {
        Slot::Shard(s) => s.get() as usize,
        Slot::Coordinator => shards as usize,
        Slot::Queue(p) => shards as usize + p.get() as usize,
    }
}
