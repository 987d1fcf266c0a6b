//! Places in chains.
ghost use Rattle.std.specs.Prelude.{◌≡◌, ◌+◌, ◌<◌, ◌≤◌, ◌^◌, [], ◌∷◌, ◌++◌, drop, length, replicate, slice_index, slice_index_or, slice_set, sum_by, vec_capacity, IfOk};
ghost use Rattle.envelope_pool.specs.Chains.{IsLinked, chains_of, chain_at, no_chain, times};

use std::alloc::{AllocError, Global};

/// Where a chain begins and ends, and how many places it has; of none the ends say nothing.
#[derive(Clone, Copy, Debug)]
pub(crate) struct Chain {
    pub(crate) first: u16,
    pub(crate) last: u16,
    pub(crate) len: u16,
}

/// Chains of places. A place tells which one is next in its chain.
#[derive(Drop)]
pub(crate) struct Links {
    pub(crate) next: Vec<u16>,
    pub(crate) chains: Vec<Chain>,
}

impl Links {
    /// No place yet, room for so many, and so many chains of none.
    pub(crate) fn new(alloc: Global, places: u16, chains: usize) -> Result<Links, AllocError>
        ensures next { IfOk result (λ l. l.next.items ≡ []) }
        ensures chains { IfOk result (λ l. l.chains.items ≡ replicate chains no_chain) }
        ensures room { IfOk result (λ l. places ≤ vec_capacity l.next) }
    {
        let next = Vec::with_capacity(alloc, places as usize)?;
        let chains = no_chains(alloc, chains)?;
        Ok(Links { next, chains })
    }

    /// A place more, which is in no chain yet; there is room for it.
    pub(crate) fn make(&mut self) -> u16
        requires linked { IsLinked self.old.next.items self.old.chains.items 0 }
        requires few { length self.old.next.items + 1 < 2 ^ 16 }
        requires room { length self.old.next.items < vec_capacity self.old.next }
        ensures linked { IsLinked self.new.next.items self.new.chains.items 1 }
        ensures place { result ≡ length self.old.next.items }
        ensures next { length self.new.next.items ≡ length self.old.next.items + 1 }
        ensures room { vec_capacity self.old.next ≤ vec_capacity self.new.next }
        ensures chains { chains_of self.new.next.items self.new.chains.items ≡ chains_of self.old.next.items self.old.chains.items }
        ensures length { length self.new.chains.items ≡ length self.old.chains.items }
        ensures loose { sum_by (times result) (chains_of self.new.next.items self.new.chains.items) ≡ 0 }
    {
        let place = self.next.len() as u16;
        push_within(&mut self.next, 0);
        place
    }

    /// How many places a chain has.
    pub(crate) fn len(&self, k: usize) -> u16
        requires { k < length self.now.chains.items }
        ensures { result ≡ (chain_at self.now.chains.items k).len }
    {
        self.chains[k].len
    }

    /// Takes the first place out of a chain that has one.
    pub(crate) fn take_first(&mut self, k: usize) -> u16
        requires linked { IsLinked self.old.next.items self.old.chains.items 0 }
        requires chain { k < length self.old.chains.items }
        requires some { 0 < (chain_at self.old.chains.items k).len }
        ensures linked { IsLinked self.new.next.items self.new.chains.items 1 }
        ensures next { self.new.next.items ≡ self.old.next.items }
        ensures room { vec_capacity self.new.next ≡ vec_capacity self.old.next }
        ensures place { slice_index_or (chains_of self.old.next.items self.old.chains.items) k [] ≡ result ∷ drop 1 (slice_index_or (chains_of self.old.next.items self.old.chains.items) k []) }
        ensures chains { chains_of self.new.next.items self.new.chains.items ≡ slice_set (chains_of self.old.next.items self.old.chains.items) k (drop 1 (slice_index_or (chains_of self.old.next.items self.old.chains.items) k [])) }
        ensures length { length self.new.chains.items ≡ length self.old.chains.items }
        ensures loose { sum_by (times result) (chains_of self.new.next.items self.new.chains.items) ≡ 0 }
        ensures within { result < length self.old.next.items }
    {
        let chain = chain_of(&self.chains, k);
        let following = next_of(&self.next, chain.first);
        self.chains[k] = Chain {
            first: following,
            last: chain.last,
            len: chain.len - 1,
        };
        chain.first
    }

    /// Puts a place that is in no chain at the end of one.
    pub(crate) fn put_last(&mut self, k: usize, place: u16)
        requires linked { IsLinked self.old.next.items self.old.chains.items 1 }
        requires chain { k < length self.old.chains.items }
        requires loose { sum_by (times place) (chains_of self.old.next.items self.old.chains.items) ≡ 0 }
        requires within { place < length self.old.next.items }
        ensures linked { IsLinked self.new.next.items self.new.chains.items 0 }
        ensures next { length self.new.next.items ≡ length self.old.next.items }
        ensures room { vec_capacity self.new.next ≡ vec_capacity self.old.next }
        ensures chains { chains_of self.new.next.items self.new.chains.items ≡ slice_set (chains_of self.old.next.items self.old.chains.items) k (slice_index_or (chains_of self.old.next.items self.old.chains.items) k [] ++ place ∷ []) }
        ensures length { length self.new.chains.items ≡ length self.old.chains.items }
    {
        let chain = chain_of(&self.chains, k);
        if chain.len == 0 {
            self.chains[k] = Chain {
                first: place,
                last: place,
                len: 1,
            };
            return;
        }
        self.next[chain.last as usize] = place;
        self.chains[k] = Chain {
            first: chain.first,
            last: place,
            len: chain.len + 1,
        };
    }
}

fn chain_of(chains: &Vec<Chain>, k: usize) -> Chain
    requires { k < length chains.now.items }
    ensures { result ≡ chain_at chains.now.items k }
{
    chains[k]
}

fn next_of(next: &Vec<u16>, place: u16) -> u16
    requires { place < length next.now.items }
    ensures { result ≡ slice_index next.now.items place }
{
    next[place as usize]
}

/// So many chains of none.
fn no_chains(alloc: Global, chains: usize) -> Result<Vec<Chain>, AllocError>
    ensures { IfOk result (λ v. v.items ≡ replicate chains no_chain) }
{
    let none = Chain {
        first: 0,
        last: 0,
        len: 0,
    };
    vec![in alloc; none; chains]
}

/// One item more at the end, for which there is room.
pub(crate) fn push_within<T: Copy>(items: &mut Vec<T>, item: T)
    requires { length items.old.items < vec_capacity items.old }
    ensures items { items.new.items ≡ items.old.items ++ item ∷ [] }
    ensures room { vec_capacity items.old ≤ vec_capacity items.new }
{
    items.push_reserved(item);
}
