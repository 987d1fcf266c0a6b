//! The leases of a live node.
ghost use Rattle.std.specs.Prelude.{◌≡◌, [], ◌∷◌};
ghost use Rattle.lease_table.specs.Belongs.{id_of, charter_of};
ghost use Rattle.node_runner.specs.Whole.{SeesHeld};

use lease_table::{LeasePass, LeaseTable};
use shard_lease::{Acquire, Leases};
use shard_store::Store;
use yard_model::{Cause, Incarnation, NodeNo, Slot};

/// The leases of one node: its pass, with the table that it belongs to. The type keeps that the pass has
/// seen the whole list of each slot that it holds.
#[derive(Drop)]
pub struct NodeLeases<'t> {
    table: &'t LeaseTable,
    pass: LeasePass,
    node: NodeNo,
    pub ghost belongs: { pass.table ≡ id_of table.now },
    pub ghost charter: { pass.view.charter ≡ charter_of table.now },
    pub ghost one: { pass.view.numbers ≡ node ∷ [] },
    pub ghost whole: { SeesHeld pass.view },
}

impl<'t> NodeLeases<'t> {
    /// The leases of the one node whose number the pass has.
    pub fn new(table: &'t LeaseTable, pass: LeasePass, node: NodeNo) -> NodeLeases<'t>
        requires pass { (pass.table ≡ id_of table.now) × (pass.view.charter ≡ charter_of table.now) × (pass.view.numbers ≡ node ∷ []) }
        requires whole { SeesHeld pass.view }
        ensures { (result.pass ≡ pass) × (result.node ≡ node) }
    {
        NodeLeases { table, pass, node }
    }

    /// The pass.
    pub fn into_pass(self) -> LeasePass
        ensures { result ≡ self.entry.pass }
    {
        let NodeLeases {
            table: _,
            pass,
            node: _,
        } = self;
        pass
    }
}

impl<'t> Leases for NodeLeases<'t> {
    ghost use Rattle.lease_table.specs.Means.{meaning_of};

    ghost meaning = { λ p. meaning_of p.pass.table p.pass.view p.node };

    fn acquire(&mut self, who: Incarnation, slot: Slot) -> Acquire {
        self.pass.stands();
        self.table.acquire(&mut self.pass, who, slot)
    }

    fn release(&mut self, who: Incarnation, slot: Slot, store: Store, cause: Cause) {
        let _ = who;
        self.table.release(&mut self.pass, slot, store, cause);
    }
}
