//! What a log is read as.
ghost use Rattle.std.specs.Prelude.{◌≡◌, ◌<◌, ◌≤◌, ◌-◌, ◌+◌, ◌^◌, [], ◌∷◌, ◌++◌, IfOk, OnOk, drop, get_or, length, take, true};
ghost use Rattle.std.specs.List.{list_all};
ghost use Rattle.fact_lines.specs.Entry.{is_entry};
ghost use Rattle.disk_log.specs.Kept.{AreKept, cut};
ghost use Rattle.disk_log.specs.Spelled.{IsBatch};

use std::alloc::{AllocError, Global};
use std::marker::Model;
use yard_model::{Fact, Facts};

/// The batches of a log, in order: each has entries, and a text of 1 to 2^32 - 1 bytes.
///
/// All facts stand in one list, and beside it where each batch ends.
#[derive(Drop)]
pub struct Batches {
    facts: Facts,
    ends: Vec<usize>,
}

impl Model for Batches {
    ghost use Rattle.std.specs.Prelude.{List};
    ghost use Rattle.yard_model.specs.declared.fact.Fact.{Fact};
    ghost use Rattle.disk_log.specs.Kept.{AreKept, cut};

    ghost Value = { List (List Fact) };

    ghost view = { λ b. cut 0 b.ends.items b.facts };

    ghost invariant = { λ b. AreKept b.ends.items b.facts };
}

impl Batches {
    /// No batch. It takes no memory.
    pub fn new(alloc: Global) -> Batches
        ensures { result ≡ [] }
    {
        Batches {
            facts: Facts::new(alloc),
            ends: Vec::new(alloc),
        }
    }

    /// The batches that end at these places of these facts.
    pub(crate) fn of(facts: Facts, ends: Vec<usize>) -> Batches
        requires { AreKept ends.items facts }
        ensures { result ≡ cut 0 ends.items facts }
    {
        Batches { facts, ends }
    }

    /// The batches with one more behind them. The only error is want of memory, as which more than 2^32 - 1 batches count
    /// too; they are given up then.
    pub fn with(self, facts: &[Fact]) -> Result<Batches, AllocError>
        requires { IsBatch facts.now }
        ensures { IfOk result (λ b. b ≡ self ++ facts.now ∷ []) }
    {
        let Batches {
            facts: mut all,
            mut ends,
        } = self;
        push_all(&mut all, facts)?;
        note_end(&mut ends, all.as_slice().len())?;
        Ok(Batches::of(all, ends))
    }

    /// How many there are.
    pub fn len(&self) -> u32
        ensures { result ≡ length self.now }
    {
        self.ends.len() as u32
    }

    /// The facts of the batch of this number, from 1.
    pub fn get(&self, batch: u32) -> &[Fact]
        requires first { 0 < batch }
        requires there { batch ≤ length self.now }
        ensures batch { result.now ≡ get_or self.now (batch - 1) [] }
        ensures entries { list_all is_entry result.now ≡ true }
    {
        let place = batch as usize - 1;
        let start = start_at(&self.ends, place);
        part(self.facts.as_slice(), start, self.ends[place])
    }
}

/// These facts behind those.
fn push_all(all: &mut Facts, facts: &[Fact]) -> Result<(), AllocError>
    ensures { OnOk result (all.new ≡ all.old ++ facts.now) }
{
    for fact in facts {
        all.push_copy(fact)?;
    }
    Ok(())
}

/// The facts from one place to another.
fn part(facts: &[Fact], from: usize, to: usize) -> &[Fact]
    requires rise { from ≤ to }
    requires within { to ≤ length facts.now }
    ensures { result.now ≡ take (to - from) (drop from facts.now) }
{
    &facts[from..to]
}

/// Where the batch at this place begins: where the one before it ends.
fn start_at(ends: &[usize], place: usize) -> usize
    requires { place ≤ length ends.now }
    ensures { result ≡ get_or (0 ∷ ends.now) place 0 }
{
    if place == 0 {
        return 0;
    }
    ends[place - 1]
}

/// One batch more, which ends there. The only error is want of memory, as which more than 2^32 - 1 batches count too.
pub(crate) fn note_end(ends: &mut Vec<usize>, end: usize) -> Result<(), AllocError>
    ensures noted { OnOk result (ends.new.items ≡ ends.old.items ++ end ∷ []) }
    ensures few { OnOk result (length ends.new.items < 2 ^ 32) }
{
    if ends.len() >= u32::MAX as usize {
        return Err(AllocError);
    }
    ends.push(end)?;
    Ok(())
}
