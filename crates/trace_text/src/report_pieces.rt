//! The report in pieces, of entities whose journals are at hand, and of pairs whose counts are. Each piece fits the
//! cells at hand. So the report is written out as it is spelled, and no memory is wanted.
ghost use Rattle.std.specs.Prelude.{◌≡◌, ◌+◌, ◌≤◌, ◌++◌, ◌∷◌, [], codes, decimal, length, take};
ghost use Rattle.yard_model.specs.Text.{line, state_text};
ghost use Rattle.trace_text.specs.Rows.{tally_text};

use crate::entities::put_entity_head;
use crate::number::put_wide;
use crate::queues::{Tally, put_pair_line};
use crate::room::{put, put_word};
use crate::values::put_state;
use yard_model::{EntityName, ProducerNo, ShardNo, State};

/// How many cells are enough for the line of a record.
pub const RECORD_CELLS: usize = 268;

/// Spells the line of an entity that has so many records, which lead to this state; where it ends.
pub fn put_entity(
    cells: &mut [u8],
    s: ShardNo,
    name: &EntityName,
    count: u32,
    state: &State,
) -> usize
    requires { 2048 ≤ length cells.old }
    ensures items { take result cells.new ≡ line (codes "entity" ∷ name.now ∷ codes "shard" ∷ decimal s ∷ codes "records" ∷ decimal count ∷ codes "state" ∷ state_text state.now ∷ []) }
    ensures end { result ≤ length cells.new }
{
    put_stated(cells, 0, s, name, count as usize, state)
}

/// The line of an entity that has so many records, which lead to this state.
fn put_stated(
    cells: &mut [u8],
    at: usize,
    s: ShardNo,
    name: &EntityName,
    count: usize,
    state: &State,
) -> usize
    requires { at + 512 ≤ length cells.old }
    ensures items { take result cells.new ≡ take at cells.old ++ line (codes "entity" ∷ name.now ∷ codes "shard" ∷ decimal s ∷ codes "records" ∷ decimal count ∷ codes "state" ∷ state_text state.now ∷ []) }
    ensures end { result ≤ at + 512 }
{
    let at = put_entity_head(cells, at, s, name);
    let at = put_word(cells, at, b" records ");
    let at = put_wide(cells, at, count as u64);
    let at = put_word(cells, at, b" state ");
    let at = put_state(cells, at, state);
    put(cells, at, b'\n')
}

/// Spells the line of a pair with these counts, where a command is queued; where it ends.
pub fn put_pair(
    cells: &mut [u8],
    p: ProducerNo,
    name: &EntityName,
    queued: u32,
    confirmed: u32,
) -> usize
    requires { 2048 ≤ length cells.old }
    ensures items { take result cells.new ≡ tally_text p name.now (record { queued = queued; confirmed = confirmed }) }
    ensures end { result ≤ length cells.new }
{
    if queued == 0 {
        return 0;
    }
    let tally = Tally {
        queued: u64::from(queued),
        confirmed,
    };
    put_pair_line(cells, 0, p, name, &tally)
}
