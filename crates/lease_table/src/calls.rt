//! The calls of a table, by the places of the slots.
ghost use Rattle.std.specs.Prelude.{◌≡◌, ◌≢◌, ℕ, ◌+◌, ◌<◌, ◌≤◌, ◌^◌, None, Some, [], length, false, true};
ghost use mathlib.Core.Option.{none};
ghost use Rattle.atomic_table.specs.Table.{step};
ghost use Rattle.lease_table.specs.Fits.{slot_count, admits};
ghost use Rattle.shard_lease.specs.Meaning.{Begins};
ghost use Rattle.lease_table.specs.Lists.{seen_at, Has};
ghost use Rattle.yard_model.specs.Words.{at};
ghost use Rattle.lease_table.specs.Tells.{Claimed, published, looked, noted, united};
ghost use Rattle.lease_table.specs.Leasing.{MayAct, Answers, MayPublish, Met};
ghost use Rattle.shard_store.specs.Stores.{entries_of_ref, slot_at};
ghost use Rattle.lease_table.specs.Belongs.{id_of, charter_of};
ghost use Rattle.lease_table.specs.Rule.{head_at};

use crate::View;
use crate::pass::{LeasePass, Note};
use crate::plays::{Claims, Looks, Notes, Publishes, Ties, Told, Unites};
use crate::table::LeaseTable;
use atomic_table::Seat;
use shard_lease::Acquire;
use shard_store::{Store, StoreRef};
use std::marker::Brand;
use yard_model::{Incarnation, NodeNo};

/// So many words lie on a cache line.
pub(crate) const LINE: usize = 8;

impl LeaseTable {
    /// Where the head of a slot stands: nodes that publish lists of neighbouring slots don't wait for one another's lines.
    #[inline(always)]
    fn head(&self, slot: usize) -> usize
        requires { slot < slot_count (charter_of self.now) }
        ensures { result ≡ head_at (slot_count (charter_of self.now)) slot }
    {
        self.slots + slot * LINE
    }

    /// One compare-exchange of the owner word; what it found.
    fn claim(&self, seat: &mut Seat<Option<Store>, View>, node: NodeNo, slot: usize) -> u64
        requires table { seat.old.table_id ≡ id_of self.now }
        requires live { (seat.old.me.0.spent ≡ false) × (length seat.old.me.0.held ≡ slot_count (charter_of self.now)) × (length seat.old.me.0.seen ≡ slot_count (charter_of self.now)) }
        requires may { (slot < slot_count (charter_of self.now)) × Has node seat.old.me.0.numbers × (admits (charter_of self.now) node (slot_at (charter_of self.now).config slot) ≡ true) }
        requires free { at seat.old.me.0.held slot ≡ None }
        ensures seat { (seat.new.table_id ≡ seat.old.table_id) × (seat.new.id ≡ seat.old.id) }
        ensures told { Claimed (step (slot_count (charter_of self.now)) slot 0 node none) seat.old.me result seat.new.me }
    {
        self.table
            .shared
            .compare_exchange::<Claims>(seat, slot, 0, node.get() as u64)
    }

    /// One claim. Where it wins, the slot's store is handed out with a new grant.
    pub(crate) fn acquire_at(&self, pass: &mut LeasePass, who: Incarnation, slot: usize) -> Acquire
        requires table { pass.old.table ≡ id_of self.now }
        requires charter { pass.old.view.charter ≡ charter_of self.now }
        requires may { MayAct pass.old.view who slot }
        requires free { at pass.old.view.held slot ≡ None }
        ensures table { pass.new.table ≡ pass.old.table }
        ensures answer { Answers pass.old.view who slot result pass.new.view }
    {
        let found = self.claim(&mut pass.seat, who.node, slot);
        if found != 0 {
            return Acquire::Held(node_of(found));
        }
        let taken = self.table.shared.exchange(&mut pass.seat, slot, None);
        pass.order.push_reserved(slot);
        pass.order.rotate_right(1);
        let Some(mut store) = taken else {
            unreachable!()
        };
        store.grant(who);
        let _leased = store.is_leased();
        Acquire::Granted(store)
    }

    /// One store of the head word.
    pub(crate) fn announce<B: Told>(
        &self,
        seat: &mut Seat<Option<Store>, View>,
        slot: usize,
        store: StoreRef<'_>,
    )
        requires told { B.list ≡ (entries_of_ref store) }
        requires table { seat.old.table_id ≡ id_of self.now }
        requires live { (length seat.old.me.0.held ≡ slot_count (charter_of self.now)) × (length seat.old.me.0.seen ≡ slot_count (charter_of self.now)) × (seat.old.me.0.charter ≡ charter_of self.now) × (slot < slot_count (charter_of self.now)) }
        requires rule { MayPublish seat.old.me.0 slot B.list }
        ensures seat { (seat.new.table_id ≡ seat.old.table_id) × (seat.new.id ≡ seat.old.id) }
        ensures told { seat.new.me ≡ (published seat.old.me.0 slot B.list, seat.old.me.1) }
        ensures seen { Begins (seen_at seat.old.me.0.seen slot) B.list }
    {
        self.table
            .shared
            .store::<Publishes<B>>(seat, self.head(slot), store.len() as u64)
    }

    /// One store of the slot's head.
    pub(crate) fn publish_at(&self, pass: &mut LeasePass, slot: usize, store: StoreRef<'_>)
        requires table { pass.old.table ≡ id_of self.now }
        requires charter { pass.old.view.charter ≡ charter_of self.now }
        requires slot { slot < slot_count (charter_of self.now) }
        requires store { MayPublish pass.old.view slot (entries_of_ref store) }
        ensures table { pass.new.table ≡ pass.old.table }
        ensures now { pass.new.view ≡ published pass.old.view slot (entries_of_ref store.entry) }
        ensures seen { Begins (seen_at pass.old.view.seen slot) (entries_of_ref store.entry) }
    {
        self.announce::<Brand>(&mut pass.seat, slot, store);
    }

    /// How many entries of the slot are published.
    pub(crate) fn check_at(&self, pass: &mut LeasePass, slot: usize) -> u32
        requires table { pass.old.table ≡ id_of self.now }
        requires slot { slot < slot_count (charter_of self.now) }
        ensures table { pass.new.table ≡ pass.old.table }
        ensures now { pass.new.view ≡ looked pass.old.view result }
        ensures least { length (seen_at pass.old.view.seen slot) ≤ result }
    {
        let found = self
            .table
            .shared
            .load::<Looks>(&mut pass.seat, self.head(slot));
        count_of(found)
    }

    /// A note that has seen what the pass has, to be shown to another; it holds nothing and has no number.
    pub fn note(&self, pass: LeasePass) -> (LeasePass, Note)
        requires table { pass.table ≡ id_of self.now }
        ensures pass { result.0 ≡ pass }
        ensures note { (result.1.table ≡ pass.table) × (result.1.view ≡ noted pass.view) }
    {
        let mut pass = pass;
        let note = self.take_note(&mut pass);
        (pass, note)
    }

    /// A note that has seen what the pass has, to be shown to another; it holds nothing and has no number.
    pub fn take_note(&self, pass: &mut LeasePass) -> Note
        requires table { pass.old.table ≡ id_of self.now }
        ensures pass { pass.new ≡ pass.old }
        ensures note { (result.table ≡ pass.old.table) × (result.view ≡ noted pass.old.view) }
    {
        let other = self.table.shared.split_seat::<Notes>(&mut pass.seat);
        Note { seat: other }
    }

    /// The pass has seen of the slot what either had.
    pub(crate) fn see_at(&self, pass: &mut LeasePass, note: Note, slot: usize)
        requires table { (pass.old.table ≡ id_of self.now) × (note.table ≡ id_of self.now) }
        requires charter { pass.old.view.charter ≡ charter_of self.now }
        requires slot { slot < slot_count (charter_of self.now) }
        ensures table { pass.new.table ≡ pass.old.table }
        ensures met { Met pass.old.view note.view slot pass.new.view }
    {
        let Note { seat: other } = note;
        self.table.shared.join_seat::<Unites>(&mut pass.seat, other);
        // (of the owner word, which few write: any step of the table shows it)
        self.table.shared.load::<Ties>(&mut pass.seat, slot);
    }

    /// One pass with the numbers of both, where the other holds nothing; it remembers what either has
    /// seen.
    pub fn unite(&self, pass: LeasePass, other: LeasePass) -> LeasePass
        requires table { (pass.table ≡ id_of self.now) × (other.table ≡ id_of self.now) }
        requires nothing { (k : ℕ) → at other.view.held k ≡ None }
        ensures table { result.table ≡ pass.table }
        ensures view { result.view ≡ united pass.view other.view }
    {
        let LeasePass {
            mut seat,
            order,
            charter,
        } = pass;
        let LeasePass {
            seat: other,
            order: _,
            charter: _,
        } = other;
        self.table.shared.join_seat::<Unites>(&mut seat, other);
        LeasePass {
            seat,
            order,
            charter,
        }
    }
}

/// How many entries a head tells of.
fn count_of(word: u64) -> u32
    requires { word < 2 ^ 32 }
    ensures { result ≡ word }
{
    word as u32
}

/// The node whose number an owner word is.
fn node_of(word: u64) -> NodeNo
    requires some { 0 < word }
    requires few { word ≤ 16 }
    ensures { result ≡ word }
{
    let Some(node) = NodeNo::new(word as u8) else {
        unreachable!()
    };
    node
}
