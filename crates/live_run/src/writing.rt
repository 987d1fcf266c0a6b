//! The lists of all slots and their report, written in pieces: no memory is wanted for them. The only error is a
//! failed write, and nothing is flushed.
ghost use Rattle.std.specs.Prelude.{◌≡◌, ◌<◌, ◌++◌, ◌∷◌, [], IsTrue, codes, decimal, map};
ghost use Rattle.std.specs.List.{flat_map};
ghost use Rattle.yard_model.specs.Entry.{shard_fact, coord_fact, queue_fact};
ghost use Rattle.yard_model.specs.Script.{setting};
ghost use Rattle.yard_model.specs.SlotLists.{shard_list, queue_list};
ghost use Rattle.yard_model.specs.Text.{fact_line, line, report, slot_lines, slot_text};
ghost use Rattle.shard_store.specs.Stores.{lists_at};
ghost use Rattle.trace_text.specs.Foldable.{is_foldable_in_all};
ghost use Rattle.trace_text.specs.Slots.{shards_lists, queues_lists, slots_text};
ghost use Rattle.live_run.specs.Owned.{AreOwned};
ghost use Rattle.live_run.specs.Written.{Puts};

use crate::reporting::write_report;
use shard_store::Stores;
use trace_text::{CELLS, put_coordinator_lines, put_head, put_queue_lines, put_shard_lines};
use yard_io::{Failed, Sink, write_all};
use yard_model::{
    Charter, CoordEntry, EntityName, Lists, ProducerNo, QueueEntry, ShardEntry, ShardNo, Slot,
};

/// Writes the lists of all slots of these stores, and their report behind them. These are the names of each shard.
pub(crate) fn write_text<K: Sink>(
    charter: &Charter,
    names: &[Vec<EntityName>],
    stores: Stores,
    sink: &mut K,
) -> Result<(), Failed>
    requires script { stores.script ≡ charter.now }
    requires names { AreOwned charter.now (map (λ v. v.items) names.now) }
    requires foldable { IsTrue (is_foldable_in_all (setting charter.now) (lists_at stores.script.config stores.places)) }
    ensures { Puts (slots_text (setting charter.now) (lists_at stores.script.config stores.places) ++ report (setting charter.now) (lists_at stores.script.config stores.places)) result
        (record { taken = K.taken sink.old; flushed = K.flushed sink.old; faults = K.faults sink.old })
        (record { taken = K.taken sink.new; flushed = K.flushed sink.new; faults = K.faults sink.new }) }
{
    write_lists(charter, &stores, sink)?;
    let parts = stores.into_parts();
    write_report(charter, names, parts.places.as_slice(), sink)
}

/// Writes the list of each slot that has an entry, shards rising, the coordinator, queues rising.
fn write_lists<T: Lists, K: Sink>(charter: &Charter, stores: &T, sink: &mut K) -> Result<(), Failed>
    ensures { Puts (slots_text (setting charter.now) (T.lists stores.now)) result
        (record { taken = K.taken sink.old; flushed = K.flushed sink.old; faults = K.faults sink.old })
        (record { taken = K.taken sink.new; flushed = K.flushed sink.new; faults = K.faults sink.new }) }
{
    write_shards(charter, stores, sink)?;
    write_coordinator(stores.coordinator(), sink)?;
    write_queues(charter, stores, sink)
}

/// Writes a piece of a text.
pub(crate) fn write_piece<K: Sink>(sink: &mut K, piece: &[u8]) -> Result<(), Failed>
    ensures { Puts piece.now result
        (record { taken = K.taken sink.old; flushed = K.flushed sink.old; faults = K.faults sink.old })
        (record { taken = K.taken sink.new; flushed = K.flushed sink.new; faults = K.faults sink.new }) }
{
    write_all(sink, piece)
}

/// The lists of all shards.
fn write_shards<T: Lists, K: Sink>(
    charter: &Charter,
    stores: &T,
    sink: &mut K,
) -> Result<(), Failed>
    ensures { Puts (shards_lists (setting charter.now) (T.lists stores.now)) result
        (record { taken = K.taken sink.old; flushed = K.flushed sink.old; faults = K.faults sink.old })
        (record { taken = K.taken sink.new; flushed = K.flushed sink.new; faults = K.faults sink.new }) }
{
    for i in 0..charter.config().shards {
        write_shard(charter, stores, i, sink)?;
    }
    Ok(())
}

/// The list of the shard of this number.
fn write_shard<T: Lists, K: Sink>(
    charter: &Charter,
    stores: &T,
    i: u8,
    sink: &mut K,
) -> Result<(), Failed>
    requires { i < charter.now.config.shards }
    ensures { Puts (slot_lines (Slot.Shard i) (shard_list (T.lists stores.now) i)) result
        (record { taken = K.taken sink.old; flushed = K.flushed sink.old; faults = K.faults sink.old })
        (record { taken = K.taken sink.new; flushed = K.flushed sink.new; faults = K.faults sink.new }) }
{
    match ShardNo::new(i, charter.config().shards) {
        Some(s) => write_shard_list(s, stores.shard(s), sink),
        None => unreachable!(),
    }
}

fn write_shard_list<K: Sink>(s: ShardNo, list: &[ShardEntry], sink: &mut K) -> Result<(), Failed>
    ensures { Puts (slot_lines (Slot.Shard s) (map (shard_fact s) list.now)) result
        (record { taken = K.taken sink.old; flushed = K.flushed sink.old; faults = K.faults sink.old })
        (record { taken = K.taken sink.new; flushed = K.flushed sink.new; faults = K.faults sink.new }) }
{
    if list.is_empty() {
        return Ok(());
    }
    write_head(&Slot::Shard(s), list.len() as u64, sink)?;
    write_shard_entries(s, list, sink)
}

fn write_shard_entries<K: Sink>(s: ShardNo, list: &[ShardEntry], sink: &mut K) -> Result<(), Failed>
    ensures { Puts (flat_map (λ e. fact_line (shard_fact s e)) list.now) result
        (record { taken = K.taken sink.old; flushed = K.flushed sink.old; faults = K.faults sink.old })
        (record { taken = K.taken sink.new; flushed = K.flushed sink.new; faults = K.faults sink.new }) }
{
    let mut cells = [0; CELLS];
    let mut done = 0;
    for _ in 0..list.len() {
        if done >= list.len() {
            return Ok(());
        }
        let piece = put_shard_lines(&mut cells, s, &list[done..]);
        write_piece(sink, &cells[..piece.end])?;
        done += piece.count;
    }
    Ok(())
}

/// The coordinator's list.
fn write_coordinator<K: Sink>(list: &[CoordEntry], sink: &mut K) -> Result<(), Failed>
    ensures { Puts (slot_lines Slot.Coordinator (map coord_fact list.now)) result
        (record { taken = K.taken sink.old; flushed = K.flushed sink.old; faults = K.faults sink.old })
        (record { taken = K.taken sink.new; flushed = K.flushed sink.new; faults = K.faults sink.new }) }
{
    if list.is_empty() {
        return Ok(());
    }
    write_head(&Slot::Coordinator, list.len() as u64, sink)?;
    write_coordinator_entries(list, sink)
}

fn write_coordinator_entries<K: Sink>(list: &[CoordEntry], sink: &mut K) -> Result<(), Failed>
    ensures { Puts (flat_map (λ e. fact_line (coord_fact e)) list.now) result
        (record { taken = K.taken sink.old; flushed = K.flushed sink.old; faults = K.faults sink.old })
        (record { taken = K.taken sink.new; flushed = K.flushed sink.new; faults = K.faults sink.new }) }
{
    let mut cells = [0; CELLS];
    let mut done = 0;
    for _ in 0..list.len() {
        if done >= list.len() {
            return Ok(());
        }
        let piece = put_coordinator_lines(&mut cells, &list[done..]);
        write_piece(sink, &cells[..piece.end])?;
        done += piece.count;
    }
    Ok(())
}

/// The lists of all queues.
fn write_queues<T: Lists, K: Sink>(
    charter: &Charter,
    stores: &T,
    sink: &mut K,
) -> Result<(), Failed>
    ensures { Puts (queues_lists (setting charter.now) (T.lists stores.now)) result
        (record { taken = K.taken sink.old; flushed = K.flushed sink.old; faults = K.faults sink.old })
        (record { taken = K.taken sink.new; flushed = K.flushed sink.new; faults = K.faults sink.new }) }
{
    for i in 0..charter.config().producers {
        write_queue(stores, i + 1, sink)?;
    }
    Ok(())
}

/// The list of the queue of this number.
fn write_queue<T: Lists, K: Sink>(stores: &T, i: u8, sink: &mut K) -> Result<(), Failed>
    requires low { 0 < i }
    requires high { i < 33 }
    ensures { Puts (slot_lines (Slot.Queue i) (queue_list (T.lists stores.now) i)) result
        (record { taken = K.taken sink.old; flushed = K.flushed sink.old; faults = K.faults sink.old })
        (record { taken = K.taken sink.new; flushed = K.flushed sink.new; faults = K.faults sink.new }) }
{
    match ProducerNo::new(i) {
        Some(p) => write_queue_list(p, stores.queue(p), sink),
        None => unreachable!(),
    }
}

fn write_queue_list<K: Sink>(p: ProducerNo, list: &[QueueEntry], sink: &mut K) -> Result<(), Failed>
    ensures { Puts (slot_lines (Slot.Queue p) (map (queue_fact p) list.now)) result
        (record { taken = K.taken sink.old; flushed = K.flushed sink.old; faults = K.faults sink.old })
        (record { taken = K.taken sink.new; flushed = K.flushed sink.new; faults = K.faults sink.new }) }
{
    if list.is_empty() {
        return Ok(());
    }
    write_head(&Slot::Queue(p), list.len() as u64, sink)?;
    write_queue_entries(p, list, sink)
}

fn write_queue_entries<K: Sink>(
    p: ProducerNo,
    list: &[QueueEntry],
    sink: &mut K,
) -> Result<(), Failed>
    ensures { Puts (flat_map (λ e. fact_line (queue_fact p e)) list.now) result
        (record { taken = K.taken sink.old; flushed = K.flushed sink.old; faults = K.faults sink.old })
        (record { taken = K.taken sink.new; flushed = K.flushed sink.new; faults = K.faults sink.new }) }
{
    let mut cells = [0; CELLS];
    let mut done = 0;
    for _ in 0..list.len() {
        if done >= list.len() {
            return Ok(());
        }
        let piece = put_queue_lines(&mut cells, p, &list[done..]);
        write_piece(sink, &cells[..piece.end])?;
        done += piece.count;
    }
    Ok(())
}

/// A slot with the length of its list.
fn write_head<K: Sink>(slot: &Slot, count: u64, sink: &mut K) -> Result<(), Failed>
    ensures { Puts (line (codes "slot" ∷ slot_text slot.now ∷ decimal count ∷ [])) result
        (record { taken = K.taken sink.old; flushed = K.flushed sink.old; faults = K.faults sink.old })
        (record { taken = K.taken sink.new; flushed = K.flushed sink.new; faults = K.faults sink.new }) }
{
    let mut cells = [0; CELLS];
    let end = put_head(&mut cells, slot, count);
    write_piece(sink, &cells[..end])
}
