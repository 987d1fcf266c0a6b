//! The trait of those that give out leases.
ghost use Rattle.std.specs.Prelude.{◌≡◌, ◌≤◌};
ghost use Rattle.yard_model.specs.declared.incarnation.Incarnation.{Incarnation};
ghost use Rattle.yard_model.specs.declared.incarnation.Slot.{Slot};
ghost use Rattle.shard_store.specs.declared.store.Store.{Store};
ghost use Rattle.shard_store.specs.Stores.{script_of, slot_of, entries_of, spare_of};
ghost use Rattle.shard_lease.specs.Meaning.{Meaning, Stays, Hands, Returns};

use shard_store::Store;
use yard_model::{Cause, Incarnation, NodeNo, Slot};

/// What comes of asking for a slot.
#[derive(Drop)]
pub enum Acquire {
    /// The slot is leased to the one that asked; this is its store.
    Granted(Store),
    /// This node held it.
    Held(NodeNo),
}

/// What gives out the leases of the slots, each with the slot's store, and takes them back.
pub trait Leases {
    ghost use Rattle.std.specs.Prelude.{◌≡◌, false};
    ghost use Rattle.shard_lease.specs.Meaning.{Meaning, Serves, Stays, Acquired, Claims, Returns, Released};

    ghost meaning: { Self → Meaning };

    /// Asks for a slot, for an incarnation that is served and whose node doesn't hold it. Held(h)
    /// only where another node h held it at a step of this call; Granted gives the slot's store with
    /// the grant as its last entry. Where nothing can be told of the slot, the call makes one claim,
    /// and answers what that found.
    fn acquire(&mut self, who: Incarnation, slot: Slot) -> Acquire
        requires serves { Serves (meaning self.old) who slot }
        requires free { (meaning self.old).holds who.node slot ≡ false }
        ensures stays { Stays (meaning self.old) (meaning self.new) }
        ensures answer { Acquired (meaning self.old) who slot result (meaning self.new) }
        ensures claim { Claims (meaning self.old) slot result (meaning self.new) };

    /// Gives a slot back that the node holds: its store, which is leased and extends what is told of
    /// the slot; it gets the entry that frees it.
    fn release(&mut self, who: Incarnation, slot: Slot, store: Store, cause: Cause)
        requires serves { Serves (meaning self.old) who slot }
        requires store { Returns (meaning self.old) who slot store }
        ensures stays { Stays (meaning self.old) (meaning self.new) }
        ensures released { Released (meaning self.old) who slot store cause (meaning self.new) };
}

/// A law: a store that was handed out, and whose spare was made 101, may be given back.
#[tactic(auto, using(crate::proofs::BookLaws::may_return))]
pub fn handed_out_may_return()
    ensures { (old new : Meaning) (who : Incarnation) (s : Slot) (x y : Store) → Stays old new → Hands old who s x new → script_of y ≡ script_of x → slot_of y ≡ slot_of x → entries_of y ≡ entries_of x → 101 ≤ spare_of y → Returns new who s y }
{}
