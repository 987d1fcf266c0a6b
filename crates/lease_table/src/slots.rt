//! The calls of a table, by slots. None takes memory, none waits, and none tries again.
ghost use Rattle.std.specs.Prelude.{◌≡◌, ◌+◌, ◌<◌, ◌≤◌, ◌++◌, None, Some, [], ◌∷◌, length, true, IsTrue};
ghost use Rattle.yard_model.specs.declared.fact.Fact.TheVariants as fact;
ghost use Rattle.yard_model.specs.Genuine.{is_slot_of};
ghost use Rattle.yard_model.specs.SlotReads.{epoch};
ghost use Rattle.shard_store.specs.Stores.{place_of, entries_of, entries_of_ref};
ghost use Rattle.shard_lease.specs.Meaning.{Begins};
ghost use Rattle.lease_table.specs.Lists.{seen_at};
ghost use Rattle.yard_model.specs.Words.{at};
ghost use Rattle.lease_table.specs.Fits.{slot_count};
ghost use Rattle.lease_table.specs.Tells.{published, freed, looked};
ghost use Rattle.lease_table.specs.Leasing.{MayAct, Answers, MayPublish, MayRelease, Met};
ghost use Rattle.lease_table.specs.Belongs.{id_of, charter_of};

use crate::pass::{LeasePass, Note};
use crate::table::LeaseTable;
use shard_lease::Acquire;
use shard_store::{Store, StoreRef};
use yard_model::{Cause, Incarnation, Slot};

impl LeaseTable {
    /// The place of a slot: the shards, the coordinator, the queues.
    fn place(&self, slot: Slot) -> usize
        requires { IsTrue (is_slot_of (charter_of self.now) slot) }
        ensures place { result ≡ place_of (charter_of self.now).config slot }
        ensures within { result < slot_count (charter_of self.now) }
    {
        match slot {
            Slot::Shard(s) => s.get() as usize,
            Slot::Coordinator => self.shards as usize,
            Slot::Queue(p) => self.shards as usize + p.get() as usize,
        }
    }

    /// One claim, for an incarnation of one of the pass's nodes, of a slot that the pass doesn't hold and
    /// that the charter lets this node have. Where it wins, the slot's store is handed out with a grant
    /// more; its list extends all that the pass has seen of it. Else it is told which node held the
    /// slot at that step.
    pub fn acquire(&self, pass: &mut LeasePass, who: Incarnation, slot: Slot) -> Acquire
        requires table { pass.old.table ≡ id_of self.now }
        requires charter { pass.old.view.charter ≡ charter_of self.now }
        requires slot { IsTrue (is_slot_of (charter_of self.now) slot) }
        requires may { MayAct pass.old.view who (place_of (charter_of self.now).config slot) }
        requires free { at pass.old.view.held (place_of (charter_of self.now).config slot) ≡ None }
        ensures table { pass.new.table ≡ pass.old.table }
        ensures answer { Answers pass.old.view who (place_of (charter_of self.now).config slot) result pass.new.view }
    {
        let place = self.place(slot);
        self.acquire_at(pass, who, place)
    }

    /// Publishes the list of the store, which the pass holds and keeps: from here on the others may see
    /// it. It extends what was published, is lawful by itself, and confirms only what the pass has seen
    /// recorded.
    pub fn publish(&self, pass: &mut LeasePass, slot: Slot, store: StoreRef<'_>)
        requires table { pass.old.table ≡ id_of self.now }
        requires charter { pass.old.view.charter ≡ charter_of self.now }
        requires slot { IsTrue (is_slot_of (charter_of self.now) slot) }
        requires store { MayPublish pass.old.view (place_of (charter_of self.now).config slot) (entries_of_ref store) }
        ensures table { pass.new.table ≡ pass.old.table }
        ensures now { pass.new.view ≡ published pass.old.view (place_of (charter_of self.now).config slot) (entries_of_ref store.entry) }
        ensures seen { Begins (seen_at pass.old.view.seen (place_of (charter_of self.now).config slot)) (entries_of_ref store.entry) }
    {
        let place = self.place(slot);
        self.publish_at(pass, place, store)
    }

    /// Gives the slot back: publishes its list with the entry that frees it, moves the store home and
    /// frees the slot, in this order. The store has a spare of at least 101 entries.
    pub fn release(&self, pass: &mut LeasePass, slot: Slot, store: Store, cause: Cause)
        requires table { pass.old.table ≡ id_of self.now }
        requires charter { pass.old.view.charter ≡ charter_of self.now }
        requires slot { IsTrue (is_slot_of (charter_of self.now) slot) }
        requires store { MayRelease pass.old.view (place_of (charter_of self.now).config slot) store }
        ensures table { pass.new.table ≡ pass.old.table }
        ensures seen { Begins (seen_at pass.old.view.seen (place_of (charter_of self.now).config slot)) (entries_of store ++ fact.Freed slot (epoch (entries_of store)) cause ∷ []) }
        ensures now { pass.new.view ≡ freed (published pass.old.view (place_of (charter_of self.now).config slot) (entries_of store ++ fact.Freed slot (epoch (entries_of store)) cause ∷ [])) (place_of (charter_of self.now).config slot) }
    {
        let place = self.place(slot);
        self.release_at(pass, place, store, cause)
    }

    /// How many entries of the slot's list are published: at least as many as the pass has seen.
    pub fn check(&self, pass: &mut LeasePass, slot: Slot) -> u32
        requires table { pass.old.table ≡ id_of self.now }
        requires slot { IsTrue (is_slot_of (charter_of self.now) slot) }
        ensures table { pass.new.table ≡ pass.old.table }
        ensures now { pass.new.view ≡ looked pass.old.view result }
        ensures least { length (seen_at pass.old.view.seen (place_of (charter_of self.now).config slot)) ≤ result }
    {
        let place = self.place(slot);
        self.check_at(pass, place)
    }

    /// The pass has seen of the slot what it or the note had, whichever is longer; one begins the other.
    pub fn meet(&self, pass: LeasePass, note: Note, slot: Slot) -> LeasePass
        requires table { (pass.table ≡ id_of self.now) × (note.table ≡ id_of self.now) }
        requires charter { pass.view.charter ≡ charter_of self.now }
        requires slot { IsTrue (is_slot_of (charter_of self.now) slot) }
        ensures table { result.table ≡ pass.table }
        ensures met { Met pass.view note.view (place_of (charter_of self.now).config slot) result.view }
    {
        let mut pass = pass;
        self.see(&mut pass, note, slot);
        pass
    }

    /// The same where the pass stands.
    pub fn see(&self, pass: &mut LeasePass, note: Note, slot: Slot)
        requires table { (pass.old.table ≡ id_of self.now) × (note.table ≡ id_of self.now) }
        requires charter { pass.old.view.charter ≡ charter_of self.now }
        requires slot { IsTrue (is_slot_of (charter_of self.now) slot) }
        ensures table { pass.new.table ≡ pass.old.table }
        ensures met { Met pass.old.view note.view (place_of (charter_of self.now).config slot) pass.new.view }
    {
        let place = self.place(slot);
        self.see_at(pass, note, place)
    }
}
