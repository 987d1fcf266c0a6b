//! A pass with its table.
ghost use Rattle.std.specs.Prelude.{◌≡◌, [], ◌∷◌, None, IsTrue};
ghost use Rattle.yard_model.specs.Genuine.{is_slot_of};
ghost use Rattle.shard_store.specs.Stores.{place_of, entries_of_ref};
ghost use Rattle.lease_table.specs.Belongs.{id_of, charter_of};
ghost use Rattle.lease_table.specs.Leasing.{Met, MayPublish, Spans};
ghost use Rattle.lease_table.specs.Lists.{seen_at};
ghost use Rattle.lease_table.specs.Tells.{noted, published};
ghost use Rattle.lease_table.specs.Whole.{SeesHeld};
ghost use Rattle.shard_lease.specs.Meaning.{Begins};
ghost use Rattle.yard_model.specs.Words.{at};

use crate::pass::{LeasePass, Note};
use crate::table::LeaseTable;
use shard_lease::{Acquire, Leases};
use shard_store::{Store, StoreRef};
use yard_model::{Cause, Incarnation, NodeNo, Slot};

/// The leases of one node: its pass, with the table that it belongs to.
#[derive(Drop)]
pub struct TablePass<'t> {
    table: &'t LeaseTable,
    pass: LeasePass,
    node: NodeNo,
    pub ghost belongs: { pass.table ≡ id_of table.now },
    pub ghost charter: { pass.view.charter ≡ charter_of table.now },
    pub ghost one: { pass.view.numbers ≡ node ∷ [] },
    pub ghost whole: { SeesHeld pass.view },
}

impl<'t> TablePass<'t> {
    /// The leases of the one node whose number the pass has.
    pub fn new(table: &'t LeaseTable, pass: LeasePass, node: NodeNo) -> TablePass<'t>
        requires pass { (pass.table ≡ id_of table.now) × (pass.view.charter ≡ charter_of table.now) × (pass.view.numbers ≡ node ∷ []) }
        requires whole { SeesHeld pass.view }
        ensures { (result.pass ≡ pass) × (result.node ≡ node) }
    {
        TablePass { table, pass, node }
    }

    /// The node.
    pub fn node(&self) -> NodeNo
        ensures { result ≡ self.now.node }
    {
        self.node
    }

    /// What is so of each pass: of each slot it has a list. It does nothing.
    pub fn stands(&self)
        ensures { Spans self.now.pass.view }
    {
        self.pass.stands();
    }

    /// The pass.
    pub fn into_pass(self) -> LeasePass
        ensures { result ≡ self.entry.pass }
    {
        let TablePass {
            table: _,
            pass,
            node: _,
        } = self;
        pass
    }

    /// A note that has seen what the pass has.
    pub fn take_note(&mut self) -> Note
        ensures pass { self.new.pass ≡ self.old.pass }
        ensures node { self.new.node ≡ self.old.node }
        ensures note { (result.table ≡ self.old.pass.table) × (result.view ≡ noted self.old.pass.view) }
    {
        self.table.take_note(&mut self.pass)
    }

    /// The pass has seen of the slot what it or the note had.
    pub fn see(&mut self, note: Note, slot: Slot)
        requires table { note.table ≡ self.old.pass.table }
        requires slot { IsTrue (is_slot_of self.old.pass.view.charter slot) }
        requires free { at self.old.pass.view.held (place_of self.old.pass.view.charter.config slot) ≡ None }
        ensures table { self.new.pass.table ≡ self.old.pass.table }
        ensures node { self.new.node ≡ self.old.node }
        ensures met { Met self.old.pass.view note.view (place_of self.old.pass.view.charter.config slot) self.new.pass.view }
    {
        note.stands();
        self.table.see(&mut self.pass, note, slot)
    }

    /// Publishes the list of the store, which the pass holds and keeps.
    pub fn publish(&mut self, slot: Slot, store: StoreRef<'_>)
        requires slot { IsTrue (is_slot_of self.old.pass.view.charter slot) }
        requires store { MayPublish self.old.pass.view (place_of self.old.pass.view.charter.config slot) (entries_of_ref store) }
        ensures table { self.new.pass.table ≡ self.old.pass.table }
        ensures node { self.new.node ≡ self.old.node }
        ensures now { self.new.pass.view ≡ published self.old.pass.view (place_of self.old.pass.view.charter.config slot) (entries_of_ref store.entry) }
        ensures seen { Begins (seen_at self.old.pass.view.seen (place_of self.old.pass.view.charter.config slot)) (entries_of_ref store.entry) }
    {
        self.pass.stands();
        self.table.publish(&mut self.pass, slot, store)
    }
}

impl<'t> Leases for TablePass<'t> {
    ghost use Rattle.lease_table.specs.Means.{meaning_of};

    ghost meaning = { λ p. meaning_of p.pass.table p.pass.view p.node };

    fn acquire(&mut self, who: Incarnation, slot: Slot) -> Acquire {
        self.pass.stands();
        self.table.acquire(&mut self.pass, who, slot)
    }

    fn release(&mut self, who: Incarnation, slot: Slot, store: Store, cause: Cause) {
        let _ = who;
        self.table.release(&mut self.pass, slot, store, cause);
    }
}
