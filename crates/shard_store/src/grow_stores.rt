//! The stores for a script that goes on: each list is moved.
ghost use Rattle.std.specs.Prelude.{◌≡◌, ℕ, ◌<◌, length, IfOk, OnOk};
ghost use Rattle.yard_model.specs.Grown.{GoesOn};
ghost use Rattle.yard_model.specs.Words.{at};
ghost use Rattle.shard_store.specs.GrownStores.{AreOn, IsOn, IsOnAt, MayGoOn};
ghost use Rattle.shard_store.specs.Stores.{lists_at, script_of};

use crate::name_table::NameTable;
use crate::store::Store;
use crate::stores::{Parts, Stores};
use std::alloc::{AllocError, Global};
use std::snapshot::Snapshot as Ghost;
use yard_model::Charter;

impl Stores {
    /// The stores for a charter whose script goes on as theirs, each with its list. The only error is want of
    /// memory; the stores are gone then.
    pub fn grow(self, alloc: Global, charter: &Charter) -> Result<Stores, AllocError>
        requires { GoesOn self.script charter.now }
        ensures script { IfOk result (λ s. s.script ≡ charter.now) }
        ensures lists { IfOk result (λ s. lists_at charter.now.config s.places ≡ lists_at self.script.config self.places) }
    {
        charter.config();
        let table = NameTable::new(alloc, charter)?;
        let Parts {
            script: _,
            shards,
            places,
        } = self.into_parts();
        let mut places = places;
        match grow_all(alloc, charter, &table, &mut places) {
            Ok(()) => Ok(Stores::from_parts(Parts {
                script: Ghost::of(charter),
                shards,
                places,
            })),
            Err(error) => {
                drop(places);
                Err(error)
            }
        }
    }
}

/// Each of these stores goes on. The only error is want of memory; one of them is gone then.
fn grow_all(
    alloc: Global,
    charter: &Charter,
    table: &NameTable,
    places: &mut Vec<Option<Store>>,
) -> Result<(), AllocError>
    requires goes_on { (k : ℕ) → k < length places.old.items → MayGoOn charter.now (at places.old.items k) }
    requires table { table.now ≡ charter.now }
    ensures { OnOk result (AreOn charter.now places.old.items places.new.items (length places.old.items)) }
{
    for k in 0..places.len() {
        grow_place(alloc, charter, table, &mut places[k])?;
    }
    Ok(())
}

/// The store of a place goes on, where there is one. The only error is want of memory; it is gone then.
fn grow_place(
    alloc: Global,
    charter: &Charter,
    table: &NameTable,
    place: &mut Option<Store>,
) -> Result<(), AllocError>
    requires goes_on { MayGoOn charter.now place.old }
    requires table { table.now ≡ charter.now }
    ensures { OnOk result (IsOnAt charter.now place.old place.new) }
{
    match place.take() {
        Some(store) => match grow_store(alloc, charter, table, store) {
            Ok(next) => {
                place.insert(next);
                Ok(())
            }
            Err(error) => Err(error),
        },
        None => Ok(()),
    }
}

/// A store goes on. The only error is want of memory; it is gone then.
fn grow_store(
    alloc: Global,
    charter: &Charter,
    table: &NameTable,
    store: Store,
) -> Result<Store, AllocError>
    requires goes_on { GoesOn (script_of store) charter.now }
    requires table { table.now ≡ charter.now }
    ensures { IfOk result (IsOn charter.now store) }
{
    match store {
        Store::Shard(store) => Ok(Store::Shard(store.grow(alloc, charter, table)?)),
        Store::Coordinator(store) => Ok(Store::Coordinator(store.grow(charter))),
        Store::Queue(store) => Ok(Store::Queue(store.grow(alloc, charter)?)),
    }
}
