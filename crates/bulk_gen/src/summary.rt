//! What a run comes to, counted as its facts are told.
ghost use Rattle.std.specs.Prelude.{◌≡◌, ℕ, ◌+◌, ◌++◌, ◌∷◌, List, [], IfOk, IsTrue, OnOk, OnErr, if◌then◌else◌};
ghost use Rattle.std.specs.List.{list_any};
ghost use Rattle.yard_model.specs.declared.fact.Fact.{Fact};
ghost use Rattle.yard_model.specs.declared.fact.Fact.TheVariants as fact;
ghost use Rattle.yard_model.specs.declared.packet.Packet.{Packet};
ghost use Rattle.yard_model.specs.Words.{is_stamp};
ghost use Rattle.bulk_gen.specs.Counted.{IsSummary};
ghost use Rattle.bulk_gen.specs.SummaryText.{is_sent, is_wrote, with_stamp};

use crate::confirmed::Confirmed;
use std::alloc::{AllocError, Global};
use std::marker::Model;
use yard_model::{Charter, Fact, Stamp};

/// Counts over the facts of a run.
#[derive(Drop)]
pub struct Summary {
    pub(crate) facts: u64,
    pub(crate) packets: u64,
    pub(crate) records: u64,
    pub(crate) confirmed: Confirmed,
    pub(crate) stamps: Vec<Stamp>,
}

impl Model for Summary {
    ghost use Rattle.bulk_gen.specs.Counted.{Tally};

    ghost Value = { Tally };

    ghost view = { λ s. record { facts = s.facts; packets = s.packets; records = s.records; confirmed = s.confirmed; stamps = s.stamps.items } };
}

impl Summary {
    /// No facts yet, of a run of this charter's script. The only error is want of memory.
    pub fn new(alloc: Global, charter: &Charter) -> Result<Summary, AllocError>
        ensures { IfOk result (λ s. IsSummary s []) }
    {
        let confirmed = Confirmed::new(alloc, charter)?;
        Ok(Summary {
            facts: 0,
            packets: 0,
            records: 0,
            confirmed,
            stamps: Vec::new(alloc),
        })
    }

    /// One fact more. The only error is want of memory, or of room for a count; then nothing changes.
    #[inline(always)]
    pub fn note(&mut self, fact: &Fact) -> Result<(), AllocError>
        ensures ok { OnOk result ((facts : List Fact) → IsSummary self.old facts → IsSummary self.new (facts ++ fact.now ∷ [])) }
        ensures err { OnErr result (self.new ≡ self.old) }
    {
        let facts = one_more(self.facts)?;
        self.note_kind(fact)?;
        self.facts = facts;
        Ok(())
    }

    /// One fact more, that a packet is posted, whichever it is. The only error is want of room for a
    /// count; then nothing changes.
    #[inline(always)]
    pub fn note_sent(&mut self) -> Result<(), AllocError>
        ensures ok { OnOk result ((facts : List Fact) (number : ℕ) (packet : Packet) → IsSummary self.old facts → IsSummary self.new (facts ++ fact.Sent number packet ∷ [])) }
        ensures err { OnErr result (self.new ≡ self.old) }
    {
        let facts = one_more(self.facts)?;
        self.packets = one_more(self.packets)?;
        self.facts = facts;
        Ok(())
    }

    /// What is counted of a fact beside that it is one. On an error nothing changes.
    #[inline(always)]
    fn note_kind(&mut self, fact: &Fact) -> Result<(), AllocError>
        ensures ok { OnOk result ((facts : List Fact) → IsSummary self.old facts
            → IsSummary (record self.new { facts = self.old.facts + 1 }) (facts ++ fact.now ∷ [])) }
        ensures err { OnErr result (self.new ≡ self.old) }
    {
        match fact {
            Fact::Sent(_, _) => self.packets = one_more(self.packets)?,
            Fact::Wrote(_, _) => self.records = one_more(self.records)?,
            Fact::Confirmed(producer, entity, number) => {
                self.confirmed.confirm(*producer, entity, *number)?;
            }
            Fact::Moving(_, stamp) => note_stamp(&mut self.stamps, stamp)?,
            _ => {}
        }
        Ok(())
    }
}

/// One more, where 64 bits have room for it.
fn one_more(count: u64) -> Result<u64, AllocError>
    ensures { IfOk result (λ n. n ≡ count + 1) }
{
    match count.checked_add(1) {
        Some(more) => Ok(more),
        None => Err(AllocError),
    }
}

/// The stamp of a shard that moves, once. On an error nothing changes.
#[inline(never)]
fn note_stamp(stamps: &mut Vec<Stamp>, stamp: &Stamp) -> Result<(), AllocError>
    ensures ok { OnOk result (stamps.new.items ≡ (if list_any (is_stamp stamp.now) stamps.old.items then stamps.old.items else stamps.old.items ++ stamp.now ∷ [])) }
    ensures err { OnErr result (stamps.new.items ≡ stamps.old.items) }
{
    if !has_stamp(stamps.as_slice(), stamp) {
        stamps.push(*stamp)?;
    }
    Ok(())
}

/// Whether the stamp is among these, the last of which is asked first.
fn has_stamp(stamps: &[Stamp], stamp: &Stamp) -> bool
    ensures { result ≡ list_any (is_stamp stamp.now) stamps.now }
{
    is_last(stamps, stamp) || stamps.iter().any(|s| stamp == s)
}

/// Whether the stamp is the last of these.
fn is_last(stamps: &[Stamp], stamp: &Stamp) -> bool
    ensures { IsTrue result → IsTrue (list_any (is_stamp stamp.now) stamps.now) }
{
    match stamps.last() {
        Some(last) => stamp == last,
        None => false,
    }
}
