//! From the batches of a log to stores.
ghost use Rattle.std.specs.Prelude.{◌≡◌, ℕ, true, List, ◌++◌, Err, IfOk, OnErr, OnOk, fold, length};
ghost use Rattle.yard_model.specs.declared.fact.Fact.{Fact as FactValue};
ghost use Rattle.shard_store.specs.Stores.{lists_at};
ghost use Rattle.log_resume.specs.Left.{IsBegun, frees, is_confirmed_all, lists_in};
ghost use Rattle.log_resume.specs.Restored.{IsForeign, MayGoOn, are_taken, entries, freed, restored, slots};
ghost use Rattle.log_resume.specs.Taken.{Stands};

use crate::done::is_confirmed_all;
use crate::entry::take_batch;
use crate::fault::ResumeFault;
use crate::free::free_all;
use crate::note::note_all;
use disk_log::Batches;
use entry_slots::Slots;
use shard_store::Stores;
use std::alloc::{AllocError, Global};
use yard_model::laws::slot_law;
use yard_model::{Charter, Facts};

/// What a log comes to.
#[derive(Drop)]
pub struct Restored {
    /// The stores that a run goes on from.
    pub stores: Stores,
    /// Whether each send of the script is confirmed.
    pub is_done: bool,
}

/// The stores of a script that a log's batches lead to. Each entry is tested by itself, in constant work.
///
/// `Foreign` names the first batch with an entry after which the lists aren't lawful for the script.
pub fn stores_of(alloc: Global, charter: &Charter, batches: &Batches) -> Result<Stores, ResumeFault>
    ensures script { IfOk result (λ stores. stores.script ≡ charter.now) }
    ensures restored { IfOk result (λ stores. lists_at charter.now.config stores.places ≡ restored charter.now batches.now) }
    ensures go_on { IfOk result (λ stores. MayGoOn charter.now (lists_at charter.now.config stores.places)) }
    ensures taken { IfOk result (λ stores. are_taken charter.now (entries batches.now) ≡ true) }
    ensures foreign { (k : ℕ) → result ≡ Err (ResumeFault.Foreign k) → IsForeign charter.now batches.now k }
{
    let store = slots_of(alloc, charter, batches)?;
    Ok(freed_stores(store, charter)?)
}

/// The same, and whether each send of the script is confirmed. The entries that free the slots that the log leaves
/// held stand behind `freed` then, in slot order; a front of them where there was no memory, none with `Foreign`.
pub fn restore(
    alloc: Global,
    charter: &Charter,
    batches: &Batches,
    freed: &mut Facts,
) -> Result<Restored, ResumeFault>
    ensures script { IfOk result (λ r. r.stores.script ≡ charter.now) }
    ensures restored { IfOk result (λ r. lists_at charter.now.config r.stores.places ≡ restored charter.now batches.now) }
    ensures go_on { IfOk result (λ r. MayGoOn charter.now (lists_at charter.now.config r.stores.places)) }
    ensures taken { IfOk result (λ r. are_taken charter.now (entries batches.now) ≡ true) }
    ensures done { IfOk result (λ r. r.is_done ≡ is_confirmed_all charter.now (restored charter.now batches.now)) }
    ensures freed { OnOk result (freed.new ≡ freed.old ++ frees charter.now (lists_in charter.now batches.now)) }
    ensures begun { OnErr result (IsBegun freed.old (frees charter.now (lists_in charter.now batches.now)) freed.new) }
    ensures foreign { (k : ℕ) → result ≡ Err (ResumeFault.Foreign k) → IsForeign charter.now batches.now k }
    ensures unread { (k : ℕ) → result ≡ Err (ResumeFault.Foreign k) → freed.new ≡ freed.old }
{
    let store = slots_of(alloc, charter, batches)?;
    note_all(&store, charter, freed)?;
    Ok(tested(freed_stores(store, charter)?, charter))
}

/// The slots with the entries of all batches.
fn slots_of(alloc: Global, charter: &Charter, batches: &Batches) -> Result<Slots, ResumeFault>
    ensures script { IfOk result (λ store. store.script ≡ charter.now) }
    ensures stands { IfOk result (λ store. Stands charter.now (entries batches.now) store.lists) }
    ensures foreign { (k : ℕ) → result ≡ Err (ResumeFault.Foreign k) → IsForeign charter.now batches.now k }
{
    let mut slots = Slots::new(alloc, charter)?;
    for k in 0..batches.len() {
        if !take_batch(&mut slots, batches.get(k + 1))? {
            return Err(ResumeFault::Foreign { batch: k + 1 });
        }
    }
    Ok(slots)
}

/// The stores, where each slot that is held is freed.
fn freed_stores(store: Slots, charter: &Charter) -> Result<Stores, AllocError>
    requires script { store.script ≡ charter.now }
    requires stands { (facts : List FactValue) × Stands charter.now facts store.lists }
    ensures script { IfOk result (λ stores. stores.script ≡ charter.now) }
    ensures freed { IfOk result (λ stores. lists_at charter.now.config stores.places ≡ fold freed store.lists (slots charter.now)) }
    ensures go_on { IfOk result (λ stores. MayGoOn charter.now (lists_at charter.now.config stores.places)) }
{
    slot_law();
    let mut store = store;
    free_all(&mut store, charter)?;
    Ok(store.into_stores())
}

/// These stores, and whether each send of the script is confirmed in them.
fn tested(stores: Stores, charter: &Charter) -> Restored
    requires { stores.script ≡ charter.now }
    ensures script { result.stores.script ≡ charter.now }
    ensures places { result.stores.places ≡ stores.places }
    ensures done { result.is_done ≡ is_confirmed_all charter.now (lists_at charter.now.config stores.places) }
{
    let parts = stores.into_parts();
    let is_done = is_confirmed_all(charter, parts.places.as_slice());
    Restored {
        stores: Stores::from_parts(parts),
        is_done,
    }
}
