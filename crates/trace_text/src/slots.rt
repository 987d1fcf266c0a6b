//! The lists of all slots: of each that has an entry its name and length, and a line for each entry.
ghost use Rattle.std.specs.Prelude.{◌≡◌, ◌+◌, ◌<◌, ◌≤◌, ◌++◌, ◌∷◌, [], codes, decimal, length, map, take};
ghost use Rattle.std.specs.List.{flat_map};
ghost use Rattle.yard_model.specs.Entry.{shard_fact, coord_fact, queue_fact};
ghost use Rattle.yard_model.specs.Script.{setting};
ghost use Rattle.yard_model.specs.SlotLists.{shard_list, queue_list};
ghost use Rattle.yard_model.specs.Text.{fact_line, line, slot_lines, slot_text};
ghost use Rattle.trace_text.specs.Grown.{Appends, Grows};
ghost use Rattle.trace_text.specs.Slots.{shards_lists, queues_lists, slots_text};

use crate::basics::all_or_none;
use crate::entries::coord_fact;
use crate::entry_lines::{push_queue_entry, push_shard_entry};
use crate::facts::{SHEET, push_fact};
use crate::number::put_wide;
use crate::room::{push_cells, put, put_word};
use crate::values::put_slot;
use std::alloc::AllocError;
use yard_model::{Charter, CoordEntry, Lists, ProducerNo, QueueEntry, ShardEntry, ShardNo, Slot};

/// Appends the list of each slot that has an entry, shards rising, the coordinator, queues rising:
/// the slot with its length, and a line for each entry. The only error is want of memory, and then the
/// text stays as it was.
pub fn push_lists<T: Lists>(
    text: &mut Vec<u8>,
    charter: &Charter,
    stores: &T,
) -> Result<(), AllocError>
    ensures { Appends result text.old.items text.new.items (slots_text (setting charter.now) (T.lists stores.now)) }
{
    let length = text.len();
    let pushed = push_slots(text, charter, stores);
    all_or_none(text, length, pushed)
}

/// The lists of all slots, or some of them.
fn push_slots<T: Lists>(text: &mut Vec<u8>, charter: &Charter, stores: &T) -> Result<(), AllocError>
    ensures { Grows result text.old.items text.new.items (slots_text (setting charter.now) (T.lists stores.now)) }
{
    push_shards(text, charter, stores)?;
    push_coordinator(text, stores.coordinator())?;
    push_queues(text, charter, stores)
}

/// The lists of all shards.
fn push_shards<T: Lists>(
    text: &mut Vec<u8>,
    charter: &Charter,
    stores: &T,
) -> Result<(), AllocError>
    ensures { Grows result text.old.items text.new.items (shards_lists (setting charter.now) (T.lists stores.now)) }
{
    for i in 0..charter.config().shards {
        push_shard(text, charter, stores, i)?;
    }
    Ok(())
}

/// The list of the shard of this number.
fn push_shard<T: Lists>(
    text: &mut Vec<u8>,
    charter: &Charter,
    stores: &T,
    i: u8,
) -> Result<(), AllocError>
    requires { i < charter.now.config.shards }
    ensures { Grows result text.old.items text.new.items (slot_lines (Slot.Shard i) (shard_list (T.lists stores.now) i)) }
{
    match ShardNo::new(i, charter.config().shards) {
        Some(s) => push_shard_list(text, s, stores.shard(s)),
        None => unreachable!(),
    }
}

fn push_shard_list(text: &mut Vec<u8>, s: ShardNo, list: &[ShardEntry]) -> Result<(), AllocError>
    ensures { Grows result text.old.items text.new.items (slot_lines (Slot.Shard s) (map (shard_fact s) list.now)) }
{
    if list.is_empty() {
        return Ok(());
    }
    push_slot_line(text, &Slot::Shard(s), list.len() as u64)?;
    push_shard_entries(text, s, list)
}

fn push_shard_entries(text: &mut Vec<u8>, s: ShardNo, list: &[ShardEntry]) -> Result<(), AllocError>
    ensures { Grows result text.old.items text.new.items (flat_map (λ e. fact_line (shard_fact s e)) list.now) }
{
    let mut cells = [0; SHEET];
    let mut at = 0;
    for entry in list {
        at = push_shard_entry(text, &mut cells, at, s, entry)?;
    }
    push_cells(text, &cells, at)
}

/// The coordinator's list.
fn push_coordinator(text: &mut Vec<u8>, list: &[CoordEntry]) -> Result<(), AllocError>
    ensures { Grows result text.old.items text.new.items (slot_lines Slot.Coordinator (map coord_fact list.now)) }
{
    if list.is_empty() {
        return Ok(());
    }
    push_slot_line(text, &Slot::Coordinator, list.len() as u64)?;
    push_coordinator_entries(text, list)
}

fn push_coordinator_entries(text: &mut Vec<u8>, list: &[CoordEntry]) -> Result<(), AllocError>
    ensures { Grows result text.old.items text.new.items (flat_map (λ e. fact_line (coord_fact e)) list.now) }
{
    for entry in list {
        push_fact(text, &coord_fact(entry))?;
    }
    Ok(())
}

/// The lists of all queues.
fn push_queues<T: Lists>(
    text: &mut Vec<u8>,
    charter: &Charter,
    stores: &T,
) -> Result<(), AllocError>
    ensures { Grows result text.old.items text.new.items (queues_lists (setting charter.now) (T.lists stores.now)) }
{
    for i in 0..charter.config().producers {
        push_queue(text, stores, i + 1)?;
    }
    Ok(())
}

/// The list of the queue of this number.
fn push_queue<T: Lists>(text: &mut Vec<u8>, stores: &T, i: u8) -> Result<(), AllocError>
    requires low { 0 < i }
    requires high { i < 33 }
    ensures { Grows result text.old.items text.new.items (slot_lines (Slot.Queue i) (queue_list (T.lists stores.now) i)) }
{
    match ProducerNo::new(i) {
        Some(p) => push_queue_list(text, p, stores.queue(p)),
        None => unreachable!(),
    }
}

fn push_queue_list(text: &mut Vec<u8>, p: ProducerNo, list: &[QueueEntry]) -> Result<(), AllocError>
    ensures { Grows result text.old.items text.new.items (slot_lines (Slot.Queue p) (map (queue_fact p) list.now)) }
{
    if list.is_empty() {
        return Ok(());
    }
    push_slot_line(text, &Slot::Queue(p), list.len() as u64)?;
    push_queue_entries(text, p, list)
}

fn push_queue_entries(
    text: &mut Vec<u8>,
    p: ProducerNo,
    list: &[QueueEntry],
) -> Result<(), AllocError>
    ensures { Grows result text.old.items text.new.items (flat_map (λ e. fact_line (queue_fact p e)) list.now) }
{
    let mut cells = [0; SHEET];
    let mut at = 0;
    for entry in list {
        at = push_queue_entry(text, &mut cells, at, p, entry)?;
    }
    push_cells(text, &cells, at)
}

/// A slot with the length of its list.
fn push_slot_line(text: &mut Vec<u8>, slot: &Slot, length: u64) -> Result<(), AllocError>
    ensures { Appends result text.old.items text.new.items (line (codes "slot" ∷ slot_text slot.now ∷ decimal length ∷ [])) }
{
    let mut cells = [0; 48];
    let end = put_slot_line(&mut cells, 0, slot, length);
    push_cells(text, &cells, end)
}

pub(crate) fn put_slot_line(cells: &mut [u8], at: usize, slot: &Slot, count: u64) -> usize
    requires { at + 48 ≤ length cells.old }
    ensures items { take result cells.new ≡ take at cells.old ++ line (codes "slot" ∷ slot_text slot.now ∷ decimal count ∷ []) }
    ensures end { result ≤ at + 48 }
{
    let at = put_word(cells, at, b"slot ");
    let at = put_slot(cells, at, slot);
    let at = put(cells, at, b' ');
    let at = put_wide(cells, at, count);
    put(cells, at, b'\n')
}
