//! The report as JSON, as bytes that are spelled where they stay.
ghost use Rattle.std.specs.Prelude.{◌≡◌, ◌+◌, ◌*◌, ◌<◌, ◌≤◌, ◌++◌, ◌∷◌, [], IfOk, IsTrue, codes, length, take};
ghost use Rattle.yard_model.specs.Behaviour.{empty_state};
ghost use Rattle.yard_model.specs.Name.{IsName};
ghost use Rattle.yard_model.specs.Script.{setting};
ghost use Rattle.yard_model.specs.Setting.{shard_of};
ghost use Rattle.yard_model.specs.Text.{event_text};
ghost use Rattle.trace_text.specs.Behind.{behind};
ghost use Rattle.trace_text.specs.Foldable.{are_foldable};
ghost use Rattle.trace_text.specs.JsonText.{answer_bytes, by_bytes, entity_values, events_bytes, name_bytes, record_bytes, state_bytes, told_bytes};
ghost use Rattle.trace_text.specs.Places.{lent};

use crate::entities::state_after;
use crate::number::{put_number, put_small};
use crate::room::{put, put_word};
use crate::sheet::make_room;
use crate::values::{put_command, put_counted, put_event, put_name, put_reply, put_state};
use std::alloc::AllocError;
use yard_model::{Charter, EntityName, Event, Record, ShardNo, State};

/// An entity with its records, and a comma before it; nothing where it has no record. Where it ends.
pub(crate) fn put_entity_value(
    cells: &mut Vec<u8>,
    at: usize,
    charter: &Charter,
    s: ShardNo,
    name: &EntityName,
    records: &[&Record],
) -> Result<usize, AllocError>
    requires at { at ≤ length cells.old.items }
    requires shard { shard_of (setting charter.now) name.now ≡ s }
    requires foldable { IsTrue (are_foldable (empty_state charter.now.config.kind) (lent records.now)) }
    ensures items { IfOk result (λ end. take end cells.new.items
        ≡ take at cells.old.items ++ entity_values (setting charter.now) name.now (lent records.now)) }
    ensures end { IfOk result (λ end. end ≤ length cells.new.items) }
    ensures length { length cells.old.items ≤ length cells.new.items }
{
    match records.split_first() {
        Some((first, others)) => {
            let kind = charter.config().kind;
            let state = state_after(kind, records);
            is_named(name);
            put_entity(cells, at, s, name, first, others, &state)
        }
        None => Ok(at),
    }
}

/// A name is one.
fn is_named(name: &EntityName)
    ensures { IsName name.now }
{
    let _ = name.bytes();
}

/// An entity with these records, of which the last leads to this state.
fn put_entity(
    cells: &mut Vec<u8>,
    at: usize,
    s: ShardNo,
    name: &EntityName,
    first: &Record,
    others: &[&Record],
    state: &State,
) -> Result<usize, AllocError>
    requires at { at ≤ length cells.old.items }
    ensures items { IfOk result (λ end. take end cells.new.items ≡ take at cells.old.items
        ++ (name_bytes name.now ++ (record_bytes first.now ++ (behind (44 ∷ []) record_bytes (lent others.now) ++ state_bytes s state.now)))) }
    ensures end { IfOk result (λ end. end ≤ length cells.new.items) }
    ensures length { length cells.old.items ≤ length cells.new.items }
{
    make_room(cells, at)?;
    let at = put_front(cells.as_mut_slice(), at, name, first);
    let at = put_others(cells, at, others)?;
    make_room(cells, at)?;
    Ok(put_state_value(cells.as_mut_slice(), at, s, state))
}

/// An entity up to its second record.
fn put_front(cells: &mut [u8], at: usize, name: &EntityName, first: &Record) -> usize
    requires { at + 512 ≤ length cells.old }
    ensures items { take result cells.new ≡ take at cells.old ++ (name_bytes name.now ++ record_bytes first.now) }
    ensures end { result ≤ at + 512 }
{
    let at = put_name_value(cells, at, name);
    put_record_value(cells, at, first)
}

/// An entity up to its first record.
fn put_name_value(cells: &mut [u8], at: usize, name: &EntityName) -> usize
    requires { at + 56 ≤ length cells.old }
    ensures items { take result cells.new ≡ take at cells.old ++ name_bytes name.now }
    ensures end { result ≤ at + 56 }
{
    let at = put_word(cells, at, b",{\"name\":\"");
    let at = put_name(cells, at, name);
    put_word(cells, at, b"\",\"records\":[")
}

/// An entity behind its last record.
fn put_state_value(cells: &mut [u8], at: usize, s: ShardNo, state: &State) -> usize
    requires { at + 400 ≤ length cells.old }
    ensures items { take result cells.new ≡ take at cells.old ++ state_bytes s state.now }
    ensures end { result ≤ at + 400 }
{
    let at = put_counted(cells, at, b"],\"shard\":", u32::from(s.get()));
    let at = put_word(cells, at, b",\"state\":\"");
    let at = put_state(cells, at, state);
    put_word(cells, at, b"\"}")
}

/// These records, each with a comma before it; where they end.
fn put_others(cells: &mut Vec<u8>, at: usize, records: &[&Record]) -> Result<usize, AllocError>
    requires { at ≤ length cells.old.items }
    ensures items { IfOk result (λ end. take end cells.new.items ≡ take at cells.old.items ++ behind (44 ∷ []) record_bytes (lent records.now)) }
    ensures end { IfOk result (λ end. end ≤ length cells.new.items) }
    ensures length { length cells.old.items ≤ length cells.new.items }
{
    let mut end = at;
    for written in records {
        end = put_other(cells, end, written)?;
    }
    Ok(end)
}

/// A record with a comma before it.
fn put_other(cells: &mut Vec<u8>, at: usize, written: &Record) -> Result<usize, AllocError>
    requires { at ≤ length cells.old.items }
    ensures items { IfOk result (λ end. take end cells.new.items ≡ take at cells.old.items ++ (44 ∷ [] ++ record_bytes written.now)) }
    ensures end { IfOk result (λ end. end ≤ length cells.new.items) }
    ensures length { length cells.old.items ≤ length cells.new.items }
{
    make_room(cells, at)?;
    Ok(put_behind(cells.as_mut_slice(), at, written))
}

fn put_behind(cells: &mut [u8], at: usize, written: &Record) -> usize
    requires { at + 512 ≤ length cells.old }
    ensures items { take result cells.new ≡ take at cells.old ++ (44 ∷ [] ++ record_bytes written.now) }
    ensures end { result ≤ at + 512 }
{
    let at = put(cells, at, b',');
    put_record_value(cells, at, written)
}

/// A record.
fn put_record_value(cells: &mut [u8], at: usize, written: &Record) -> usize
    requires { at + 400 ≤ length cells.old }
    ensures items { take result cells.new ≡ take at cells.old ++ record_bytes written.now }
    ensures end { result ≤ at + 400 }
{
    let at = put_by(cells, at, written);
    let at = put_told(cells, at, written);
    let at = put_word(cells, at, b",\"events\":");
    let at = put_event_values(cells, at, written.events.as_slice());
    put_answer(cells, at, written)
}

/// Whose command it answers.
fn put_by(cells: &mut [u8], at: usize, written: &Record) -> usize
    requires { at + 20 ≤ length cells.old }
    ensures items { take result cells.new ≡ take at cells.old ++ by_bytes written.now }
    ensures end { result ≤ at + 20 }
{
    let at = put_word(cells, at, b"{\"by\":[");
    let at = put_small(cells, at, u32::from(written.producer.get()));
    let at = put(cells, at, b',');
    put_number(cells, at, written.place)
}

/// Its command and its epoch.
fn put_told(cells: &mut [u8], at: usize, written: &Record) -> usize
    requires { at + 64 ≤ length cells.old }
    ensures items { take result cells.new ≡ take at cells.old ++ told_bytes written.now }
    ensures end { result ≤ at + 64 }
{
    let at = put_word(cells, at, b"],\"command\":\"");
    let at = put_command(cells, at, &written.command);
    put_counted(cells, at, b"\",\"epoch\":", written.epoch)
}

/// Its number and its reply.
fn put_answer(cells: &mut [u8], at: usize, written: &Record) -> usize
    requires { at + 60 ≤ length cells.old }
    ensures items { take result cells.new ≡ take at cells.old ++ answer_bytes written.now }
    ensures end { result ≤ at + 60 }
{
    let at = put_counted(cells, at, b",\"number\":", written.number);
    let at = put_word(cells, at, b",\"reply\":\"");
    let at = put_reply(cells, at, &written.reply);
    put_word(cells, at, b"\"}")
}

/// The texts of events, each in quotes.
fn put_event_values(cells: &mut [u8], at: usize, events: &[Event]) -> usize
    requires few { length events.now < 5 }
    requires room { at + 160 ≤ length cells.old }
    ensures items { take result cells.new ≡ take at cells.old ++ events_bytes events.now }
    ensures end { result ≤ at + 160 }
{
    match events.split_first() {
        Some((first, others)) => put_quoted_events(cells, at, first, others),
        None => put_word(cells, at, b"[]"),
    }
}

fn put_quoted_events(cells: &mut [u8], at: usize, first: &Event, others: &[Event]) -> usize
    requires { at + (40 + 39 * length others.now) ≤ length cells.old }
    ensures items { take result cells.new ≡ take at cells.old
        ++ (codes "[\"" ++ (event_text first.now ++ (behind (codes "\",\"") event_text others.now ++ codes "\"]"))) }
    ensures end { result ≤ at + (40 + 39 * length others.now) }
{
    let at = put_word(cells, at, b"[\"");
    let at = put_event(cells, at, first);
    let at = put_events_behind(cells, at, others);
    put_word(cells, at, b"\"]")
}

fn put_events_behind(cells: &mut [u8], at: usize, events: &[Event]) -> usize
    requires { at + (39 * length events.now) ≤ length cells.old }
    ensures items { take result cells.new ≡ take at cells.old ++ behind (codes "\",\"") event_text events.now }
    ensures end { result ≤ at + 39 * length events.now }
{
    let mut end = at;
    for event in events {
        end = put_event_behind(cells, end, event);
    }
    end
}

/// An event behind another.
fn put_event_behind(cells: &mut [u8], at: usize, event: &Event) -> usize
    requires { at + 39 ≤ length cells.old }
    ensures items { take result cells.new ≡ take at cells.old ++ (codes "\",\"" ++ event_text event.now) }
    ensures end { result ≤ at + 39 }
{
    let at = put_word(cells, at, b"\",\"");
    put_event(cells, at, event)
}
