//! The list of a slot in pieces: each is as many of its lines as the cells at hand have room for. So a list is written
//! out as it is spelled, and no memory is wanted.
ghost use Rattle.std.specs.Prelude.{◌≡◌, ◌<◌, ◌≤◌, ◌∷◌, [], codes, decimal, length, take};
ghost use Rattle.std.specs.List.{flat_map};
ghost use Rattle.yard_model.specs.Entry.{shard_fact, coord_fact, queue_fact};
ghost use Rattle.yard_model.specs.Text.{fact_line, line, slot_text};

use crate::entries::coord_fact;
use crate::entry_lines::{put_queue_entry, put_shard_entry};
use crate::facts::{LONGEST, put_fact};
use crate::slots::put_slot_line;
use yard_model::{CoordEntry, ProducerNo, QueueEntry, ShardEntry, ShardNo, Slot};

/// How many cells are enough for any line, and for many.
pub const CELLS: usize = 2048;

/// Lines in cells.
#[derive(Clone, Copy, Debug, PartialEq, Eq)]
pub struct Piece {
    /// How many entries they are of.
    pub count: usize,
    /// Where they end.
    pub end: usize,
}

/// Spells a slot with the length of its list; where the line ends.
pub fn put_head(cells: &mut [u8], slot: &Slot, count: u64) -> usize
    requires { 2048 ≤ length cells.old }
    ensures items { take result cells.new ≡ line (codes "slot" ∷ slot_text slot.now ∷ decimal count ∷ []) }
    ensures end { result ≤ length cells.new }
{
    put_slot_line(cells, 0, slot, count)
}

/// Spells the lines of the first entries of a shard's list, as many as there is room for.
pub fn put_shard_lines(cells: &mut [u8], s: ShardNo, list: &[ShardEntry]) -> Piece
    requires { 2048 ≤ length cells.old }
    ensures items { take result.end cells.new ≡ flat_map (λ e. fact_line (shard_fact s e)) (take result.count list.now) }
    ensures end { result.end ≤ length cells.new }
    ensures count { result.count ≤ length list.now }
    ensures some { 0 < length list.now → 0 < result.count }
{
    let mut end = 0;
    for i in 0..list.len() {
        if cells.len() - end < LONGEST {
            return Piece { count: i, end };
        }
        end = put_shard_entry(cells, end, s, &list[i]);
    }
    Piece {
        count: list.len(),
        end,
    }
}

/// Spells the lines of the first entries of the coordinator's list, as many as there is room for.
pub fn put_coordinator_lines(cells: &mut [u8], list: &[CoordEntry]) -> Piece
    requires { 2048 ≤ length cells.old }
    ensures items { take result.end cells.new ≡ flat_map (λ e. fact_line (coord_fact e)) (take result.count list.now) }
    ensures end { result.end ≤ length cells.new }
    ensures count { result.count ≤ length list.now }
    ensures some { 0 < length list.now → 0 < result.count }
{
    let mut end = 0;
    for i in 0..list.len() {
        if cells.len() - end < LONGEST {
            return Piece { count: i, end };
        }
        end = put_fact(cells, end, &coord_fact(&list[i]));
    }
    Piece {
        count: list.len(),
        end,
    }
}

/// Spells the lines of the first entries of a producer's queue, as many as there is room for.
pub fn put_queue_lines(cells: &mut [u8], p: ProducerNo, list: &[QueueEntry]) -> Piece
    requires { 2048 ≤ length cells.old }
    ensures items { take result.end cells.new ≡ flat_map (λ e. fact_line (queue_fact p e)) (take result.count list.now) }
    ensures end { result.end ≤ length cells.new }
    ensures count { result.count ≤ length list.now }
    ensures some { 0 < length list.now → 0 < result.count }
{
    let mut end = 0;
    for i in 0..list.len() {
        if cells.len() - end < LONGEST {
            return Piece { count: i, end };
        }
        end = put_queue_entry(cells, end, p, &list[i]);
    }
    Piece {
        count: list.len(),
        end,
    }
}
