//! Lists of items by key, with one bound on how many items there are in all.
ghost use Rattle.std.specs.Prelude.{◌≡◌, ℕ, ◌+◌, ◌-◌, ◌<◌, ◌≤◌, ◌↔◌, [], ◌∷◌, ◌++◌, length, drop, replicate, slice_set, IfOk, IfErr, OnOk, OnErr, MatchOption};
ghost use Rattle.envelope_pool.specs.Keyed.{list_of, held};

use crate::links::{Links, push_within};
use std::alloc::{AllocError, Global};
use std::marker::Model;

/// The chain of the free cells; a key's chain comes after it.
const FREE: usize = 0;

/// An item that found no free cell, handed back.
#[derive(Clone, Copy, Debug)]
pub struct Full<T> {
    /// The item.
    pub item: T,
}

/// Lists of items, one for each key, oldest first; all of them share the cells. Once it is made it
/// takes no memory; a cell isn't touched before its first use.
#[derive(Drop)]
pub struct Pool<T> {
    links: Links,
    items: Vec<Option<T>>,
    cells: u16,
}

impl<T> Model for Pool<T> {
    ghost use Rattle.envelope_pool.specs.Keyed.{Keyed, keyed, keyed_code};
    ghost use Rattle.envelope_pool.specs.Chains.{chains_of};
    ghost use Rattle.envelope_pool.specs.Cells.{IsPool, lists_of};
    ghost use Rattle.std.specs.Prelude.{vec_capacity};

    ghost Value = { Keyed T };

    ghost coded = { keyed_code T.code };

    ghost view = { λ p. keyed (lists_of p.items.items (chains_of p.links.next.items p.links.chains.items)) p.cells };

    ghost invariant = { λ p. IsPool p.links.next.items p.links.chains.items p.items.items p.cells (vec_capacity p.links.next) (vec_capacity p.items) };
}

impl<T: Copy> Pool<T> {
    /// An empty list for each of so many keys, and so many cells. The only error is want of memory.
    pub fn new(alloc: Global, cells: u16, keys: u16) -> Result<Pool<T>, AllocError>
        ensures lists { IfOk result (λ pool. pool.lists ≡ replicate keys []) }
        ensures keys { IfOk result (λ pool. length pool.lists ≡ keys) }
        ensures cells { IfOk result (λ pool. pool.cells ≡ cells) }
    {
        let links = Links::new(alloc, cells, keys as usize + 1)?;
        let items = Vec::with_capacity(alloc, cells as usize)?;
        Ok(Pool {
            links,
            items,
            cells,
        })
    }

    /// One item more at the end of a key's list. Where all cells are used the item comes back, and
    /// nothing changes.
    pub fn push(&mut self, key: u16, item: T) -> Result<(), Full<T>>
        requires { key < length self.old.lists }
        ensures full { OnErr result (held self.old ≡ self.old.cells) }
        ensures free { OnOk result (held self.old < self.old.cells) }
        ensures ok { OnOk result (self.new.lists ≡ slice_set self.old.lists key (list_of self.old key ++ item ∷ [])) }
        ensures keys { length self.new.lists ≡ length self.old.lists }
        ensures cells { self.new.cells ≡ self.old.cells }
        ensures item { IfErr result (λ full. full.item ≡ item) }
        ensures err { OnErr result (self.new ≡ self.old) }
    {
        let own = key as usize + 1;
        if self.links.len(FREE) > 0 {
            let place = self.links.take_first(FREE);
            self.items[place as usize] = Some(item);
            self.links.put_last(own, place);
            return Ok(());
        }
        if self.items.len() >= self.cells as usize {
            return Err(Full { item });
        }
        let place = self.links.make();
        push_within(&mut self.items, Some(item));
        self.links.put_last(own, place);
        Ok(())
    }

    /// Takes the oldest item of a key's list out; None exactly where that list is empty.
    pub fn pop(&mut self, key: u16) -> Option<T>
        requires { key < length self.old.lists }
        ensures item { MatchOption result (list_of self.old key ≡ []) (λ item. list_of self.old key ≡ item ∷ drop 1 (list_of self.old key)) }
        ensures lists { self.new.lists ≡ slice_set self.old.lists key (drop 1 (list_of self.old key)) }
        ensures keys { length self.new.lists ≡ length self.old.lists }
        ensures cells { self.new.cells ≡ self.old.cells }
    {
        let chain = key as usize + 1;
        if self.links.len(chain) == 0 {
            return None;
        }
        let place = self.links.take_first(chain);
        self.links.put_last(FREE, place);
        self.items[place as usize]
    }

    /// How many items a key's list has.
    pub fn len(&self, key: u16) -> u16
        requires { key < length self.now.lists }
        ensures { result ≡ length (list_of self.now key) }
    {
        self.links.len(key as usize + 1)
    }

    /// How many items there are in all.
    pub fn total(&self) -> u16
        ensures count { result ≡ held self.now }
        ensures within { result ≤ self.now.cells }
    {
        self.items.len() as u16 - self.links.len(FREE)
    }
}
