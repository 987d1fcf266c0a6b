//! What a node's turn makes: facts, and packets to be posted.
ghost use Rattle.std.specs.Prelude.{◌≡◌, ◌+◌, ◌*◌, ◌<◌, ◌≤◌, [], ◌∷◌, ◌++◌, drop, OnOk, OnErr, MatchOption};

use crate::fact::Fact;
use crate::incarnation::Slot;
use crate::packet::{Body, Packet};
use crate::state::State;
use std::alloc::{AllocError, Global};
use std::marker::{Model, PhantomData};

/// A fact, or a packet that is to be posted and gets its number then.
#[derive(Clone, Copy, Debug, PartialEq, Eq)]
pub enum Item {
    /// A fact.
    Fact(Fact),
    /// A packet to be posted.
    Post(Packet),
}

/// Items, oldest first, with a spare: so many more are pushed with no memory taken.
#[derive(Drop)]
pub struct Out {
    list: Vec<Item>,
    taken: usize,
    free: usize,
    holds: PhantomData<(Fact, Packet, Body, State, Slot)>,
}

impl Model for Out {
    ghost use Rattle.yard_model.specs.declared.out.Item.{Item};
    ghost use Rattle.yard_model.specs.Outgoing.{IsOutgoing, outgoing};
    ghost use Rattle.yard_model.specs.Spared.{Spared};

    ghost Value = { Spared Item };

    ghost view = { λ o. outgoing o.list o.taken o.free };

    ghost invariant = { λ o. IsOutgoing o.list o.taken o.free };
}

impl Out {
    /// No items and no spare. It takes no memory.
    pub fn new(alloc: Global) -> Out
        ensures items { result.items ≡ [] }
        ensures spare { result.spare ≡ 0 }
    {
        Out {
            list: Vec::new(alloc),
            taken: 0,
            free: 0,
            holds: PhantomData,
        }
    }

    /// Makes the spare at least `n`. The only error is want of memory.
    #[inline(always)]
    pub fn reserve(&mut self, n: u32) -> Result<(), AllocError>
        ensures items { self.new.items ≡ self.old.items }
        ensures ok { OnOk result (n ≤ self.new.spare) }
        ensures spare { self.old.spare ≤ self.new.spare }
        ensures err { OnErr result (self.new ≡ self.old) }
    {
        let wanted = n as usize;
        if wanted > self.free {
            self.grow(wanted)
        } else {
            Ok(())
        }
    }

    /// Makes the spare twice so much, so that the turns after this one ask for nothing. The only error is
    /// want of memory.
    #[inline(never)]
    fn grow(&mut self, wanted: usize) -> Result<(), AllocError>
        requires more { self.old.spare ≤ wanted }
        requires few { wanted ≤ 4294967295 }
        ensures items { self.new.items ≡ self.old.items }
        ensures ok { OnOk result (self.new.spare ≡ 2 * wanted) }
        ensures err { OnErr result (self.new ≡ self.old) }
    {
        let room = 2 * wanted;
        self.list.reserve(room)?;
        self.free = room;
        Ok(())
    }

    /// One item more, from the spare.
    pub fn push(&mut self, item: Item)
        requires { 0 < self.old.spare }
        ensures items { self.new.items ≡ self.old.items ++ item ∷ [] }
        ensures spare { self.new.spare + 1 ≡ self.old.spare }
    {
        self.list.push_reserved(item);
        self.free -= 1;
    }

    /// The oldest item; None exactly where there is none.
    pub fn first(&self) -> Option<&Item>
        ensures { MatchOption result (self.now.items ≡ []) (λ item. self.now.items ≡ item.now ∷ drop 1 self.now.items) }
    {
        self.list.get(self.taken)
    }

    /// The oldest item is dropped, if there is one.
    pub fn drop_first(&mut self)
        ensures items { self.new.items ≡ drop 1 self.old.items }
        ensures spare { self.new.spare ≡ self.old.spare }
    {
        self.pass_first();
        self.begin_again();
    }

    /// The oldest item is passed over, if there is one.
    #[tactic(auto, using(crate::proofs::OutLaws::drop_next))]
    fn pass_first(&mut self)
        ensures items { self.new.items ≡ drop 1 self.old.items }
        ensures spare { self.new.spare ≡ self.old.spare }
    {
        if self.taken < self.list.len() {
            self.taken += 1;
        }
    }

    /// Where all are taken, the next one stands at the front again, where the memory was used last.
    fn begin_again(&mut self)
        ensures { self.new ≡ self.old }
    {
        if self.taken >= self.list.len() {
            self.list.clear();
            self.taken = 0;
        }
    }

    /// Takes the oldest item out; None exactly where there is none.
    pub fn take(&mut self) -> Option<Item>
        ensures item { MatchOption result ((self.old.items ≡ []) × (self.new.items ≡ [])) (λ item. self.old.items ≡ item ∷ self.new.items) }
        ensures spare { self.new.spare ≡ self.old.spare }
    {
        let item = self.first().copied();
        self.drop_first();
        item
    }
}
