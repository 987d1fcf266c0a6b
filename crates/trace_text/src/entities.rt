//! An entity's lines in the report.
ghost use Rattle.trace_text.specs.Places.{lent};
ghost use Rattle.std.specs.Prelude.{◌≡◌, ◌+◌, ◌<◌, ◌^◌, ◌≤◌, ◌++◌, ◌∷◌, [], IfOk, IsTrue, codes, decimal, fold, length, take};
ghost use Rattle.std.specs.List.{flat_map};
ghost use Rattle.yard_model.specs.Behaviour.{apply, are_applicable, after_record, empty_state, folded};
ghost use Rattle.yard_model.specs.Script.{setting};
ghost use Rattle.yard_model.specs.Setting.{shard_of};
ghost use Rattle.yard_model.specs.Text.{words, line, record_words, state_text, entity_lines};
ghost use Rattle.trace_text.specs.Foldable.{are_foldable};

use crate::number::{put_number, put_wide};
use crate::records::put_record;
use crate::room::{put, put_word};
use crate::sheet::{has_room, make_room};
use crate::values::{put_counted, put_name, put_state};
use std::alloc::AllocError;
use yard_model::{Charter, EntityName, Event, Kind, Record, ShardNo, State};

/// An entity's line and those of its records, behind these cells; nothing where it has no record. Where
/// they end.
pub(crate) fn put_entity(
    cells: &mut Vec<u8>,
    at: usize,
    charter: &Charter,
    s: ShardNo,
    name: &EntityName,
    records: &[&Record],
) -> Result<usize, AllocError>
    requires at { at ≤ length cells.old.items }
    requires shard { shard_of (setting charter.now) name.now ≡ s }
    requires foldable { IsTrue (are_foldable (empty_state charter.now.config.kind) (lent records.now)) }
    ensures items { IfOk result (λ end. take end cells.new.items ≡ take at cells.old.items ++ entity_lines (setting charter.now) name.now (lent records.now)) }
    ensures end { IfOk result (λ end. end ≤ length cells.new.items) }
    ensures length { length cells.old.items ≤ length cells.new.items }
{
    if records.is_empty() {
        return Ok(at);
    }
    make_room(cells, at)?;
    let kind = charter.config().kind;
    let at = put_entity_line(cells.as_mut_slice(), at, kind, s, name, records);
    put_records(cells, at, records)
}

fn put_entity_line(
    cells: &mut [u8],
    at: usize,
    kind: Kind,
    s: ShardNo,
    name: &EntityName,
    records: &[&Record],
) -> usize
    requires room { at + 512 ≤ length cells.old }
    requires foldable { IsTrue (are_foldable (empty_state kind) (lent records.now)) }
    ensures items { take result cells.new ≡ take at cells.old ++ line (codes "entity" ∷ name.now ∷ codes "shard" ∷ decimal s ∷ codes "records" ∷ decimal (length (lent records.now)) ∷ codes "state" ∷ state_text (folded kind (lent records.now)) ∷ []) }
    ensures end { result ≤ at + 512 }
{
    let at = put_entity_head(cells, at, s, name);
    let at = put_word(cells, at, b" records ");
    let at = put_wide(cells, at, records.len() as u64);
    let at = put_word(cells, at, b" state ");
    let at = put_state(cells, at, &state_after(kind, records));
    put(cells, at, b'\n')
}

pub(crate) fn put_entity_head(cells: &mut [u8], at: usize, s: ShardNo, name: &EntityName) -> usize
    requires { at + 60 ≤ length cells.old }
    ensures items { take result cells.new ≡ take at cells.old ++ words (codes "entity" ∷ name.now ∷ codes "shard" ∷ decimal s ∷ []) }
    ensures end { result ≤ at + 60 }
{
    let at = put_word(cells, at, b"entity ");
    let at = put_name(cells, at, name);
    put_counted(cells, at, b" shard ", u32::from(s.get()))
}

/// The lines of these records, behind these cells; where they end.
fn put_records(cells: &mut Vec<u8>, at: usize, records: &[&Record]) -> Result<usize, AllocError>
    requires { at ≤ length cells.old.items }
    ensures items { IfOk result (λ end. take end cells.new.items ≡ take at cells.old.items ++ flat_map (λ x. line (codes "record" ∷ record_words x)) (lent records.now)) }
    ensures end { IfOk result (λ end. end ≤ length cells.new.items) }
    ensures length { length cells.old.items ≤ length cells.new.items }
{
    let mut end = at;
    for written in records {
        end = put_next_record(cells, end, written)?;
    }
    Ok(end)
}

/// The line of one record more.
fn put_next_record(cells: &mut Vec<u8>, at: usize, written: &Record) -> Result<usize, AllocError>
    requires { at ≤ length cells.old.items }
    ensures items { IfOk result (λ end. take end cells.new.items ≡ take at cells.old.items ++ line (codes "record" ∷ record_words written.now)) }
    ensures end { IfOk result (λ end. end ≤ length cells.new.items) }
    ensures length { length cells.old.items ≤ length cells.new.items }
{
    if has_room(cells, at) {
        return Ok(put_record_line(cells.as_mut_slice(), at, written));
    }
    put_record_in_more(cells, at, written)
}

/// The same where there may be too little room.
fn put_record_in_more(cells: &mut Vec<u8>, at: usize, written: &Record) -> Result<usize, AllocError>
    requires { at ≤ length cells.old.items }
    ensures items { IfOk result (λ end. take end cells.new.items ≡ take at cells.old.items ++ line (codes "record" ∷ record_words written.now)) }
    ensures end { IfOk result (λ end. end ≤ length cells.new.items) }
    ensures length { length cells.old.items ≤ length cells.new.items }
{
    make_room(cells, at)?;
    Ok(put_record_line(cells.as_mut_slice(), at, written))
}

/// Spells the line of a record, behind these cells; where it ends.
pub fn put_record_line(cells: &mut [u8], at: usize, written: &Record) -> usize
    requires { at + 268 ≤ length cells.old }
    ensures items { take result cells.new ≡ take at cells.old ++ line (codes "record" ∷ record_words written.now) }
    ensures end { result ≤ at + 268 }
{
    let at = put_word(cells, at, b"record ");
    let at = put_record(cells, at, written);
    put(cells, at, b'\n')
}

/// The state that a journal leads to.
#[tactic(auto, using(crate::proofs::FoldLaws::foldable_first, crate::proofs::FoldLaws::foldable_next))]
pub(crate) fn state_after(kind: Kind, records: &[&Record]) -> State
    requires { IsTrue (are_foldable (empty_state kind) (lent records.now)) }
    ensures { result ≡ folded kind (lent records.now) }
{
    let mut state = State::empty(kind);
    for written in records {
        apply_events(&mut state, written.events.as_slice());
    }
    state
}

/// The state goes on by a record's events.
#[tactic(auto, using(crate::proofs::FoldLaws::applicable_first, crate::proofs::FoldLaws::applicable_next))]
pub fn apply_events(state: &mut State, events: &[Event])
    requires { IsTrue (are_applicable state.old events.now) }
    ensures { state.new ≡ fold apply state.old events.now }
{
    for event in events {
        *state = state.after(event);
    }
}
