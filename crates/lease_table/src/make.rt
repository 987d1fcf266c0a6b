//! How a table is made.
ghost use Rattle.std.specs.Prelude.{◌≡◌, ℕ, ◌+◌, ◌<◌, ◌≤◌, ◌++◌, map, replicate, length, None, Some, IfOk, MatchOption, true, false, vec_capacity, vec_len, [], ◌∷◌, List, Option};
ghost use Rattle.std.specs.List.{list_all};
ghost use Rattle.yard_model.specs.Script.{Script};
ghost use Rattle.yard_model.specs.declared.fact.Fact.{Fact};
ghost use Rattle.shard_store.specs.declared.store.Store.{Store};
ghost use Rattle.shard_store.specs.Stores.{entries_at};
ghost use Rattle.lease_table.specs.Fits.{slot_count};
ghost use Rattle.lease_table.specs.Tells.{opening_view};
ghost use Rattle.lease_table.specs.Leasing.{Ready, dealt, dealt_from, words_of, length_in, is_short, lists_in, fresh, pass};
ghost use Rattle.lease_table.specs.Belongs.{id_of, charter_of};
ghost use Rattle.lease_table.specs.Left.{left_of};

use crate::View;
use crate::calls::LINE;
use crate::pass::LeasePass;
use crate::plays::{About, Deals};
use crate::table::LeaseTable;
use atomic_table::{Seat, Table};
use shard_store::{Parts, Store, Stores};
use std::alloc::{AllocError, Global};
use std::snapshot::Snapshot;
use yard_model::Charter;

/// The passes of the nodes that are left, by rising number of the node.
#[derive(Drop)]
pub struct Passes {
    pub(crate) left: Vec<LeasePass>,
}

impl Passes {
    /// The next one. None exactly where all are out.
    #[tactic(auto, using(crate::proofs::Dealt::popped))]
    pub fn next(&mut self) -> Option<LeasePass>
        ensures { MatchOption result ((left_of self.old ≡ []) × (left_of self.new ≡ [])) (λ p. left_of self.old ≡ p ∷ left_of self.new) }
    {
        self.left.pop()
    }
}

/// A law: empty stores are ready for a table.
#[tactic(auto, using(crate::proofs::Dealt::empty_ready))]
pub fn empty_stores_are_ready()
    ensures { (c : Script) (places : List (Option Store)) → ((k : ℕ) → entries_at places k ≡ []) → Ready c places }
{}

/// How long the list of a place is.
fn entries_of(store: &Option<Store>) -> u32
    ensures count { result ≡ length_in store.now }
    ensures short { is_short store.now ≡ true }
{
    match store {
        Some(store) => store.len(),
        None => 0,
    }
}

/// The words of a new table: no owner, and how long each list is, on a cache line of its own.
fn heads(alloc: Global, places: &[Option<Store>]) -> Result<Vec<u64>, AllocError>
    ensures words { IfOk result (λ v. v.items ≡ words_of (length places.now) places.now) }
    ensures short { IfOk result (λ v. list_all is_short places.now ≡ true) }
{
    let mut words = Vec::from_elem(alloc, 0u64, places.len())?;
    words.reserve(places.len() * LINE)?;
    for store in places {
        words.extend_from_slice(&[entries_of(store) as u64, 0, 0, 0, 0, 0, 0, 0])?;
    }
    Ok(words)
}

impl LeaseTable {
    /// A pass with this one number.
    fn deal_one(
        &self,
        alloc: Global,
        charter: &Charter,
        seat: Seat<Option<Store>, View>,
    ) -> Result<LeasePass, AllocError>
        requires charter { charter.now ≡ charter_of self.now }
        requires seat { (seat.table_id ≡ id_of self.now) × ((n : ℕ) × (length seat.me.0.seen ≡ slot_count charter.now) × (seat.me ≡ (fresh charter.now seat.me.0.seen n, []))) }
        ensures { IfOk result (λ p. p ≡ pass (id_of self.now) seat.me.0) }
    {
        let order = Vec::with_capacity(alloc, self.slots)?;
        Ok(LeasePass {
            seat,
            order,
            charter: Snapshot::of(charter),
        })
    }

    /// A pass for each node, the last node's first.
    fn deal(
        &self,
        alloc: Global,
        charter: &Charter,
        mut seat: Seat<Option<Store>, View>,
    ) -> Result<Vec<LeasePass>, AllocError>
        requires charter { charter.now ≡ charter_of self.now }
        requires seat { (length seat.me.0.seen ≡ slot_count charter.now) × (seat.table_id ≡ id_of self.now) × (seat.me ≡ (opening_view charter.now seat.me.0.seen, [])) }
        ensures { IfOk result (λ v. v.items ≡ dealt_from (id_of self.now) charter.now seat.me.0.seen charter.now.config.nodes) }
    {
        let mut passes = Vec::new(alloc);
        let mut left = charter.config().nodes;
        while left > 1 {
            let other = self.table.shared.split_seat::<Deals>(&mut seat);
            passes.push(self.deal_one(alloc, charter, other)?)?;
            left -= 1;
        }
        passes.push(self.deal_one(alloc, charter, seat)?)?;
        Ok(passes)
    }

    /// A table of these stores, with a pass for each node. The stores are lawful lists of the charter, no
    /// slot of which is held, and no incarnation in them has a number above 4,000,000,000. The only error
    /// is want of memory.
    #[tactic(auto, using(crate::proofs::Dealt::in_order))]
    pub fn make(
        alloc: Global,
        charter: &Charter,
        stores: Stores,
    ) -> Result<(LeaseTable, Passes), AllocError>
        requires script { stores.script ≡ charter.now }
        requires ready { Ready charter.now stores.places }
        ensures table { IfOk result (λ r. charter_of r.0 ≡ charter.now) }
        ensures passes { IfOk result (λ r. left_of r.1 ≡ dealt (id_of r.0) charter.now (lists_in stores.places)) }
    {
        let Parts {
            script: _,
            shards,
            places,
        } = stores.into_parts();
        charter.config();
        let slots = places.len();
        let words = heads(alloc, places.as_slice())?;
        let spare = Vec::with_capacity(alloc, slots)?;
        let about = About {
            charter: Snapshot::of(charter),
            opening: Snapshot::of(&places),
        };
        let Ok((table, seat)) = Table::new(alloc, words.as_slice(), places, &about) else {
            return Err(AllocError);
        };
        let table = LeaseTable {
            table,
            charter: Snapshot::of(charter),
            shards,
            slots,
            spare,
        };
        let left = table.deal(alloc, charter, seat)?;
        Ok((table, Passes { left }))
    }
}
