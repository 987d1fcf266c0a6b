//! The lines of a summary.
ghost use Rattle.std.specs.Prelude.{◌≡◌, ◌++◌, List, OnOk, codes, length, count_by};
ghost use Rattle.yard_model.specs.declared.fact.Fact.{Fact};
ghost use Rattle.bulk_gen.specs.Bulk.{bulk_script};
ghost use Rattle.bulk_gen.specs.Counted.{IsSummary};
ghost use Rattle.bulk_gen.specs.SummaryText.{summary, counted};

use crate::summary::Summary;
use itoa::Buffer;
use std::alloc::AllocError;
use yard_model::Charter;

/// Appends the seven lines of a summary, of the run of this script, which is that of the number. The only
/// error is want of memory; what the text then is stays open.
pub fn push_summary(
    text: &mut Vec<u8>,
    charter: &Charter,
    number: u32,
    run: &Summary,
) -> Result<(), AllocError>
    ensures { OnOk result ((facts : List Fact) → charter.now ≡ bulk_script number → IsSummary run.now facts → text.new.items ≡ text.old.items ++ summary number facts) }
{
    let orders = charter.orders().len() as u64;
    push_counted(text, b"bulk", u64::from(number))?;
    push_counted(text, b"orders", orders)?;
    push_counted(text, b"facts", run.facts)?;
    push_ends(text, run)
}

/// The last four.
fn push_ends(text: &mut Vec<u8>, summary: &Summary) -> Result<(), AllocError>
    ensures { OnOk result (text.new.items ≡ text.old.items ++ (counted (codes "packets") summary.now.packets ++ counted (codes "records") summary.now.records
        ++ counted (codes "confirmed") summary.now.confirmed.sum ++ counted (codes "rounds") (length summary.now.stamps))) }
{
    push_counted(text, b"packets", summary.packets)?;
    push_counted(text, b"records", summary.records)?;
    push_counted(text, b"confirmed", summary.confirmed.sum())?;
    push_counted(text, b"rounds", summary.stamps.len() as u64)
}

/// A word and a number, on a line.
fn push_counted(text: &mut Vec<u8>, word: &[u8], n: u64) -> Result<(), AllocError>
    ensures { OnOk result (text.new.items ≡ text.old.items ++ counted word.now n) }
{
    let mut buffer = Buffer::new();
    text.extend_from_slice(word)?;
    text.push(b' ')?;
    text.extend_from_slice(buffer.format(n).as_bytes())?;
    text.push(b'\n')?;
    Ok(())
}
