//! A text in room that is kept from one use to the next.
ghost use Rattle.std.specs.Prelude.{◌≡◌, ◌+◌, ◌≤◌, ◌++◌, ◌↔◌, [], IfOk, IsTrue, OnOk, length, take};
ghost use Rattle.std.specs.List.{flat_map};
ghost use Rattle.yard_model.specs.Text.{fact_line};

use crate::facts::put_fact;
use crate::room::put_bytes;
use std::alloc::{AllocError, Global};
use std::marker::Model;
use yard_model::Fact;

/// A text whose room is kept when it is cleared, so that lines are spelled where they stay; seen as its
/// bytes.
#[derive(Drop)]
pub struct Sheet {
    pub(crate) cells: Vec<u8>,
    pub(crate) len: usize,
}

impl Model for Sheet {
    ghost use Rattle.std.specs.Prelude.{List, ℕ, ◌≤◌, length, take};

    ghost Value = { List ℕ };

    ghost view = { λ s. take s.len s.cells.items };

    ghost invariant = { λ s. s.len ≤ length s.cells.items };
}

impl Sheet {
    /// A text with no byte, which takes no memory yet.
    pub fn new(alloc: Global) -> Sheet
        ensures { result ≡ [] }
    {
        Sheet {
            cells: Vec::new(alloc),
            len: 0,
        }
    }

    /// Its bytes.
    pub fn as_slice(&self) -> &[u8]
        ensures { result.now ≡ self.now }
    {
        &self.cells[..self.len]
    }

    /// No byte stays; the room does.
    pub fn clear(&mut self)
        ensures { self.new ≡ [] }
    {
        self.len = 0;
    }

    /// Appends the lines of these facts. The only error is want of memory; what the text then is stays
    /// open.
    pub fn push_facts(&mut self, facts: &[Fact]) -> Result<(), AllocError>
        ensures { OnOk result (self.new ≡ self.old ++ flat_map fact_line facts.now) }
    {
        self.len = put_facts(&mut self.cells, self.len, facts)?;
        Ok(())
    }

    /// Appends a few bytes.
    pub(crate) fn push_word(&mut self, word: &[u8]) -> Result<(), AllocError>
        requires { length word.now ≤ 512 }
        ensures { OnOk result (self.new ≡ self.old ++ word.now) }
    {
        make_room(&mut self.cells, self.len)?;
        self.len = put_bytes(self.cells.as_mut_slice(), self.len, word);
        Ok(())
    }
}

/// The longest line.
const LONGEST: usize = 512;

/// How many cells are made at once.
const MORE: usize = 4096;

/// Whether one more line fits behind these cells.
pub(crate) fn has_room(cells: &Vec<u8>, at: usize) -> bool
    requires { at ≤ length cells.now.items }
    ensures { IsTrue result ↔ at + 512 ≤ length cells.now.items }
{
    cells.len() - at >= LONGEST
}

/// Room for one more line behind these cells.
pub(crate) fn make_room(cells: &mut Vec<u8>, at: usize) -> Result<(), AllocError>
    requires { at ≤ length cells.old.items }
    ensures items { take at cells.new.items ≡ take at cells.old.items }
    ensures length { length cells.old.items ≤ length cells.new.items }
    ensures room { OnOk result (at + 512 ≤ length cells.new.items) }
{
    if has_room(cells, at) {
        return Ok(());
    }
    add_room(cells, at)
}

/// So much room that many lines fit.
fn add_room(cells: &mut Vec<u8>, at: usize) -> Result<(), AllocError>
    requires within { at ≤ length cells.old.items }
    requires few { length cells.old.items ≤ at + 512 }
    ensures items { take at cells.new.items ≡ take at cells.old.items }
    ensures length { length cells.old.items ≤ length cells.new.items }
    ensures room { OnOk result (at + 512 ≤ length cells.new.items) }
{
    cells.resize(at + MORE, 0)
}

/// The lines of these facts, behind these cells; where they end.
fn put_facts(cells: &mut Vec<u8>, at: usize, facts: &[Fact]) -> Result<usize, AllocError>
    requires { at ≤ length cells.old.items }
    ensures items { IfOk result (λ end. take end cells.new.items ≡ take at cells.old.items ++ flat_map fact_line facts.now) }
    ensures end { IfOk result (λ end. end ≤ length cells.new.items) }
    ensures length { length cells.old.items ≤ length cells.new.items }
{
    let mut end = at;
    for fact in facts {
        end = put_next_fact(cells, end, fact)?;
    }
    Ok(end)
}

/// The line of one fact more.
fn put_next_fact(cells: &mut Vec<u8>, at: usize, fact: &Fact) -> Result<usize, AllocError>
    requires { at ≤ length cells.old.items }
    ensures items { IfOk result (λ end. take end cells.new.items ≡ take at cells.old.items ++ fact_line fact.now) }
    ensures end { IfOk result (λ end. end ≤ length cells.new.items) }
    ensures length { length cells.old.items ≤ length cells.new.items }
{
    if has_room(cells, at) {
        return Ok(put_fact(cells.as_mut_slice(), at, fact));
    }
    put_fact_in_more(cells, at, fact)
}

/// The same where there may be too little room.
fn put_fact_in_more(cells: &mut Vec<u8>, at: usize, fact: &Fact) -> Result<usize, AllocError>
    requires { at ≤ length cells.old.items }
    ensures items { IfOk result (λ end. take end cells.new.items ≡ take at cells.old.items ++ fact_line fact.now) }
    ensures end { IfOk result (λ end. end ≤ length cells.new.items) }
    ensures length { length cells.old.items ≤ length cells.new.items }
{
    make_room(cells, at)?;
    Ok(put_fact(cells.as_mut_slice(), at, fact))
}
