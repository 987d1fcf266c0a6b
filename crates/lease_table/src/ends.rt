//! How a slot is given back, and how a table is closed.
ghost use Rattle.std.specs.Prelude.{◌≡◌, ◌≢◌, ℕ, ◌+◌, ◌<◌, ◌≤◌, None, Some, Option, List, [], ◌∷◌, ◌++◌, length, false, true};
ghost use mathlib.Core.Option as maybe;
ghost use lib.ListN.{get_elem?};
ghost use Rattle.lease_table.specs.Fits.{slot_count, Fits};
ghost use Rattle.shard_lease.specs.Meaning.{Begins};
ghost use Rattle.yard_model.specs.Lawful.{is_held};
ghost use Rattle.yard_model.specs.SlotReads.{epoch};
ghost use Rattle.shard_store.specs.Stores.{entries_of, slot_at};
ghost use Rattle.atomic_table.specs.Table.{rest};
ghost use Rattle.yard_model.specs.declared.fact.Fact.{Fact};
ghost use Rattle.yard_model.specs.declared.fact.Fact.TheVariants as fact;
ghost use Rattle.shard_store.specs.declared.store.Store.{Store};
ghost use Rattle.lease_table.specs.Lists.{seen_at};
ghost use Rattle.yard_model.specs.Words.{at};
ghost use Rattle.lease_table.specs.Rule.{IsFree};
ghost use Rattle.lease_table.specs.Tells.{published, freed};
ghost use Rattle.lease_table.specs.Leasing.{MayRelease, Closes, Closed};
ghost use Rattle.lease_table.specs.Belongs.{id_of, charter_of};

use crate::View;
use crate::order::bring;
use crate::pass::LeasePass;
use crate::plays::Frees;
use crate::table::LeaseTable;
use atomic_table::Seat;
use shard_store::{Parts, Store, Stores};
use std::marker::Brand;
use yard_model::Cause;

impl LeaseTable {
    /// One store of the owner word, which also gives the slot back.
    fn give(&self, seat: &mut Seat<Option<Store>, View>, slot: usize)
        requires table { seat.old.table_id ≡ id_of self.now }
        requires slot { slot < slot_count (charter_of self.now) }
        requires live { length seat.old.me.0.held ≡ slot_count (charter_of self.now) }
        requires rests { (h : List Fact) × (x : Store) × (cs : List (ℕ × Option Store)) × (at seat.old.me.0.held slot ≡ Some h) × (seat.old.me.1 ≡ (slot, Some x) ∷ cs) × IsFree (charter_of self.now) slot h x }
        ensures seat { (seat.new.table_id ≡ seat.old.table_id) × (seat.new.id ≡ seat.old.id) }
        ensures told { seat.new.me ≡ (freed seat.old.me.0 slot, rest seat.old.me.1) }
    {
        self.table.shared.store::<Frees>(seat, slot, 0)
    }

    /// Publishes the end of the lease, moves the store back and frees the slot.
    pub(crate) fn release_at(
        &self,
        pass: &mut LeasePass,
        slot: usize,
        mut store: Store,
        cause: Cause,
    )
        requires table { pass.old.table ≡ id_of self.now }
        requires charter { pass.old.view.charter ≡ charter_of self.now }
        requires slot { slot < slot_count (charter_of self.now) }
        requires store { MayRelease pass.old.view slot store }
        ensures table { pass.new.table ≡ pass.old.table }
        ensures seen { Begins (seen_at pass.old.view.seen slot) (entries_of store ++ fact.Freed (slot_at (charter_of self.now).config slot) (epoch (entries_of store)) cause ∷ []) }
        ensures now { pass.new.view ≡ freed (published pass.old.view slot (entries_of store ++ fact.Freed (slot_at (charter_of self.now).config slot) (epoch (entries_of store)) cause ∷ [])) slot }
    {
        store.free(cause);
        let _leased = store.is_leased();
        self.announce::<Brand>(&mut pass.seat, slot, store.as_ref());
        bring(&mut pass.seat, &mut pass.order, slot);
        self.table
            .shared
            .exchange(&mut pass.seat, slot, Some(store));
        self.give(&mut pass.seat, slot);
        pass.order.remove(0);
    }

    /// The stores, where the pass has the numbers of all nodes and holds nothing: no slot is held. Each
    /// list is lawful by itself and extends all that the pass has seen, and what the queues confirm is
    /// recorded. It takes no memory.
    pub fn close(self, pass: LeasePass) -> Stores
        requires table { pass.table ≡ id_of self }
        requires all { Closes (charter_of self) pass.view }
        ensures script { result.script ≡ charter_of self }
        ensures closed { Closed (charter_of self) pass.view result.places }
    {
        let LeaseTable {
            table,
            charter,
            shards,
            slots,
            mut spare,
        } = self;
        let LeasePass {
            seat,
            order: _,
            charter: _,
        } = pass;
        let mut closed = table.close_with(seat);
        let mut i = 0;
        while i < slots {
            let store = closed.take(i);
            spare.push_reserved(store);
            i += 1;
        }
        closed.free();
        Stores::from_parts(Parts {
            script: charter,
            shards,
            places: spare,
        })
    }
}
