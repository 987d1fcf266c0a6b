//! The line of an entry of a slot's list, spelled into cells.
ghost use Rattle.std.specs.Prelude.{◌≡◌, ◌+◌, ◌≤◌, ◌++◌, IfOk, length, take};
ghost use Rattle.yard_model.specs.Entry.{shard_fact, queue_fact};
ghost use Rattle.yard_model.specs.Text.{fact_line};
ghost use Rattle.trace_text.specs.Grown.{Begins};

use crate::entries::{queue_fact, shard_fact};
use crate::facts::{LONGEST, SHEET, put_confirmed_line, put_fact, put_queued_line, put_wrote_line};
use crate::room::push_cells;
use std::alloc::AllocError;
use yard_model::{ProducerNo, QueueEntry, ShardEntry, ShardNo};

/// The line of one entry more of a shard's list, behind the text and what waits in the cells; where they end then.
#[inline(always)]
pub(crate) fn push_shard_entry(
    text: &mut Vec<u8>,
    cells: &mut [u8; SHEET],
    at: usize,
    s: ShardNo,
    entry: &ShardEntry,
) -> Result<usize, AllocError>
    requires { at ≤ 2048 }
    ensures text { IfOk result (λ end. text.new.items ++ take end cells.new ≡ text.old.items ++ (take at cells.old ++ fact_line (shard_fact s entry.now))) }
    ensures end { IfOk result (λ end. end ≤ 2048) }
    ensures begins { Begins text.old.items text.new.items }
{
    if at > SHEET - LONGEST {
        push_cells(text, cells, at)?;
        return Ok(put_shard_entry(cells, 0, s, entry));
    }
    Ok(put_shard_entry(cells, at, s, entry))
}

/// The same for an entry of a producer's queue.
#[inline(always)]
pub(crate) fn push_queue_entry(
    text: &mut Vec<u8>,
    cells: &mut [u8; SHEET],
    at: usize,
    p: ProducerNo,
    entry: &QueueEntry,
) -> Result<usize, AllocError>
    requires { at ≤ 2048 }
    ensures text { IfOk result (λ end. text.new.items ++ take end cells.new ≡ text.old.items ++ (take at cells.old ++ fact_line (queue_fact p entry.now))) }
    ensures end { IfOk result (λ end. end ≤ 2048) }
    ensures begins { Begins text.old.items text.new.items }
{
    if at > SHEET - LONGEST {
        push_cells(text, cells, at)?;
        return Ok(put_queue_entry(cells, 0, p, entry));
    }
    Ok(put_queue_entry(cells, at, p, entry))
}

/// The line of an entry of this shard's list.
pub(crate) fn put_shard_entry(cells: &mut [u8], at: usize, s: ShardNo, entry: &ShardEntry) -> usize
    requires { at + 512 ≤ length cells.old }
    ensures items { take result cells.new ≡ take at cells.old ++ fact_line (shard_fact s entry.now) }
    ensures end { result ≤ at + 512 }
{
    match entry {
        ShardEntry::Wrote(entity, written) => put_wrote_line(cells, at, entity, written),
        _ => put_rare_of_shard(cells, at, s, entry),
    }
}

/// The line of any entry of this shard's list.
#[inline(never)]
fn put_rare_of_shard(cells: &mut [u8], at: usize, s: ShardNo, entry: &ShardEntry) -> usize
    requires { at + 512 ≤ length cells.old }
    ensures items { take result cells.new ≡ take at cells.old ++ fact_line (shard_fact s entry.now) }
    ensures end { result ≤ at + 512 }
{
    put_fact(cells, at, &shard_fact(s, entry))
}

/// The line of an entry of this producer's queue.
pub(crate) fn put_queue_entry(
    cells: &mut [u8],
    at: usize,
    p: ProducerNo,
    entry: &QueueEntry,
) -> usize
    requires { at + 512 ≤ length cells.old }
    ensures items { take result cells.new ≡ take at cells.old ++ fact_line (queue_fact p entry.now) }
    ensures end { result ≤ at + 512 }
{
    match entry {
        QueueEntry::Queued(entity, number, command) => {
            put_queued_line(cells, at, p, entity, *number, command)
        }
        QueueEntry::Confirmed(entity, number) => put_confirmed_line(cells, at, p, entity, *number),
        _ => put_rare_of_queue(cells, at, p, entry),
    }
}

/// The line of any entry of this producer's queue.
#[inline(never)]
fn put_rare_of_queue(cells: &mut [u8], at: usize, p: ProducerNo, entry: &QueueEntry) -> usize
    requires { at + 512 ≤ length cells.old }
    ensures items { take result cells.new ≡ take at cells.old ++ fact_line (queue_fact p entry.now) }
    ensures end { result ≤ at + 512 }
{
    put_fact(cells, at, &queue_fact(p, entry))
}
