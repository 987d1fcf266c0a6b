//! Counts of what was told.
ghost use Rattle.std.specs.Prelude.{◌≡◌, IfOk, if◌then◌else◌};
ghost use Rattle.verdict_laws.specs.Verdict.{counted, is_entry, is_record, next, no_counts};
ghost use Rattle.judge_counts.specs.Counted.{counted_by, stops_at};

use std::alloc::{AllocError, Global};
use verdict_laws::{Answer, Counts, Quote, Step};
use yard_model::Fact;

/// One more; the greatest count stands still.
pub fn next(count: u64) -> u64
    ensures { result ≡ next count }
{
    count.saturating_add(1)
}

/// One more, if it is so.
fn more(count: u64, one: bool) -> u64
    ensures { result ≡ (if one then next count else count) }
{
    if one { next(count) } else { count }
}

fn is_record(fact: &Fact) -> bool
    ensures { result ≡ is_record fact.now }
{
    match fact {
        Fact::Wrote(_, _) => true,
        _ => false,
    }
}

fn is_entry(fact: &Fact) -> bool
    ensures { result ≡ is_entry fact.now }
{
    match fact {
        Fact::Granted(_, _, _) | Fact::Freed(_, _, _) => true,
        Fact::Registered(_) | Fact::Terminated(_) => true,
        Fact::Allocated(_, _) | Fact::Deallocated(_) => true,
        Fact::Wrote(_, _) | Fact::Snapshot(_, _) => true,
        Fact::Remembered(_) | Fact::Forgotten(_) => true,
        Fact::Queued(_, _, _, _) | Fact::Confirmed(_, _, _) => true,
        _ => false,
    }
}

/// Nothing was told.
pub fn no_counts() -> Counts
    ensures { result ≡ no_counts }
{
    Counts {
        facts: 0,
        entries: 0,
        records: 0,
    }
}

/// The counts with one fact more.
fn counted(counts: &Counts, fact: &Fact) -> Counts
    ensures { result ≡ counted counts.now fact.now }
{
    Counts {
        facts: next(counts.facts),
        entries: more(counts.entries, is_entry(fact)),
        records: more(counts.records, is_record(fact)),
    }
}

/// The counts after a line that came to this.
pub fn counted_by(counts: &Counts, step: &Step) -> Counts
    ensures { result ≡ counted_by counts.now step.now }
{
    match step {
        Step::Heard(fact) => counted(counts, fact),
        _ => *counts,
    }
}

/// The answer, where a line of this number came to it. The only error is want of memory.
pub fn stops_at(
    alloc: Global,
    line: u64,
    text: &[u8],
    step: &Step,
) -> Result<Option<Answer>, AllocError>
    ensures { IfOk result (λ found. found ≡ stops_at line text.now step.now) }
{
    match step {
        Step::Broken(why) => {
            let quote = Quote::new(alloc, text)?;
            let why = *why;
            Ok(Some(Answer::Broken { line, why, quote }))
        }
        Step::NoFact => {
            let quote = Quote::new(alloc, text)?;
            Ok(Some(Answer::NoFact { line, quote }))
        }
        Step::Quiet | Step::Heard(_) => Ok(None),
    }
}
