//! Where records may stand in the lists of shards. Nothing is said of hints: what stands there is compared.
ghost use Rattle.std.specs.Prelude.{◌≤◌, IfSome};
ghost use Rattle.serve_answers.specs.Records.{IsReplyIn};

use crate::records::reply_there;
use shard_store::Stores;
use std::alloc::{AllocError, Global};
use yard_model::{Charter, EntityName, Lists, ProducerNo, Reply, ShardEntry, ShardNo};

/// Hints are made for so many answers and more; fewer are looked for one by one.
const MANY: usize = 16;

/// By a hash of a record's producer, entity and number, where it may stand in its shard's list.
#[derive(Drop)]
pub(crate) struct Hints {
    // each a place and 1, or 0 where there is none; a power of two of them, at least twice as many as there are records
    cells: Vec<u32>,
}

impl Hints {
    /// Hints of all records, where so many answers may want them; else none. The only error is want of memory.
    pub(crate) fn new(
        alloc: Global,
        charter: &Charter,
        stores: &Stores,
        answers: usize,
    ) -> Result<Hints, AllocError> {
        let shards = if answers < MANY {
            0
        } else {
            charter.config().shards
        };
        let mut cells = vec![in alloc; 0u32; cells_for(stores, shards)]?;
        for s in 0..shards {
            if let Some(shard) = ShardNo::new(s, shards) {
                note_records(&mut cells, stores.shard(shard));
            }
        }
        Ok(Hints { cells })
    }

    /// The reply of the record that the producer's command of this number has, if a hint leads to it.
    pub(crate) fn reply(
        &self,
        list: &[ShardEntry],
        producer: ProducerNo,
        entity: &EntityName,
        number: u32,
    ) -> Option<Reply>
        ensures { IfSome result (λ r. IsReplyIn producer entity.now number list.now r) }
    {
        let from = hash_of(producer, entity, number);
        for step in 0..self.cells.len() {
            let hint = hint_in(self.cells.as_slice(), from.wrapping_add(step));
            if hint == 0 {
                return None;
            }
            if let Some(reply) = reply_there(list, hint - 1, producer, entity, number) {
                return Some(reply);
            }
        }
        None
    }
}

/// How many cells there are for the records of so many shards.
fn cells_for(stores: &Stores, shards: u8) -> usize
    requires { shards ≤ 128 }
{
    let mut entries = 0usize;
    for s in 0..shards {
        if let Some(shard) = ShardNo::new(s, shards) {
            entries = entries.wrapping_add(stores.shard(shard).len());
        }
    }
    power_above(entries)
}

/// The power of two that is twice to four times as much; 0 of 0.
fn power_above(entries: usize) -> usize {
    if entries == 0 {
        return 0;
    }
    let mut cells = 2usize;
    for _ in 0..40 {
        if cells / 2 >= entries {
            return cells;
        }
        cells = cells.wrapping_mul(2);
    }
    cells
}

/// Notes where each record of a list stands.
fn note_records(cells: &mut Vec<u32>, list: &[ShardEntry]) {
    let mut next = 1u32;
    for entry in list {
        if let ShardEntry::Wrote(entity, written) = entry {
            note(
                cells,
                hash_of(written.producer, entity, written.place),
                next,
            );
        }
        next = next.wrapping_add(1);
    }
}

/// The hint goes into the first free cell from here on, if there is one.
fn note(cells: &mut Vec<u32>, from: usize, hint: u32) {
    let mask = cells.len().wrapping_sub(1);
    for step in 0..cells.len() {
        if let Some(cell) = cells.get_mut(from.wrapping_add(step) & mask) {
            if *cell == 0 {
                *cell = hint;
                return;
            }
        }
    }
}

/// The hint in a cell, counted round: a place and 1, or 0 where there is none.
fn hint_in(cells: &[u32], at: usize) -> usize {
    match cells.get(at & cells.len().wrapping_sub(1)) {
        Some(hint) => *hint as usize,
        None => 0,
    }
}

/// A number for a command, all of whose bits hang on all that it is of.
fn hash_of(producer: ProducerNo, entity: &EntityName, number: u32) -> usize {
    let mut hash = u64::from(number).wrapping_mul(0x9e37_79b9_7f4a_7c15)
        ^ u64::from(producer.get());
    for byte in entity.bytes() {
        hash = (hash ^ u64::from(*byte)).wrapping_mul(0x0000_0100_0000_01b3);
    }
    (hash ^ hash >> 32) as usize
}
