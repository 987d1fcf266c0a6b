//! Records in the list of a shard.
ghost use Rattle.std.specs.Prelude.{◌≡◌, ◌<◌, ◌∷◌, [], ℕ, IsTrue, MatchOption, IfSome, None, Some, drop, filter, fold, length};
ghost use Rattle.yard_model.specs.declared.packet.Record.{Record};
ghost use Rattle.yard_model.specs.Behaviour.{after_record, empty_state, folded};
ghost use Rattle.trace_text.specs.Foldable.{are_foldable};
ghost use Rattle.serve_laws.specs.Served.{is_record_of, reply_at};
ghost use Rattle.serve_answers.specs.Records.{IsReplyIn, record_in, records_in};

use crate::hints::Hints;
use trace_text::apply_events;
use yard_model::{EntityName, Kind, ProducerNo, Record, Reply, ShardEntry, State};

/// The reply of the record that the producer's command of this number has, where it has one.
pub(crate) fn reply_of(
    hints: &Hints,
    list: &[ShardEntry],
    producer: ProducerNo,
    entity: &EntityName,
    number: u32,
) -> Reply
    requires { (r : Record) × (filter (is_record_of producer number) (records_in entity.now list.now) ≡ r ∷ []) }
    ensures { reply_at producer number (records_in entity.now list.now) ≡ Some result }
{
    match found_reply(hints, list, producer, entity, number) {
        Some(reply) => reply,
        None => unreachable!(),
    }
}

/// The same, where there may be none: looked for where hints say, and else from the end of the list on.
fn found_reply(
    hints: &Hints,
    list: &[ShardEntry],
    producer: ProducerNo,
    entity: &EntityName,
    number: u32,
) -> Option<Reply>
    ensures { MatchOption result (reply_at producer number (records_in entity.now list.now) ≡ None) (λ r. IsReplyIn producer entity.now number list.now r) }
{
    match hints.reply(list, producer, entity, number) {
        Some(reply) => Some(reply),
        None => last_reply(list, producer, entity, number),
    }
}

/// The reply of the last such record.
fn last_reply(
    list: &[ShardEntry],
    producer: ProducerNo,
    entity: &EntityName,
    number: u32,
) -> Option<Reply>
    ensures { MatchOption result (reply_at producer number (records_in entity.now list.now) ≡ None) (λ r. IsReplyIn producer entity.now number list.now r) }
{
    let mut left = list.len();
    while left > 0 {
        left -= 1;
        if let Some(reply) = reply_in(&list[left], producer, entity, number) {
            return Some(reply);
        }
    }
    None
}

/// The reply of the entry at this place, where it is such a record.
pub(crate) fn reply_there(
    list: &[ShardEntry],
    place: usize,
    producer: ProducerNo,
    entity: &EntityName,
    number: u32,
) -> Option<Reply>
    ensures { IfSome result (λ r. IsReplyIn producer entity.now number list.now r) }
{
    match list.get(place) {
        Some(entry) => reply_in(entry, producer, entity, number),
        None => None,
    }
}

/// The reply of this entry, where it is such a record.
fn reply_in(
    entry: &ShardEntry,
    producer: ProducerNo,
    entity: &EntityName,
    number: u32,
) -> Option<Reply>
    ensures { result ≡ reply_at producer number (record_in entity.now entry.now) }
{
    match record_of(entry, entity) {
        Some(written) => reply_as(written, producer, number),
        None => None,
    }
}

/// The reply of this record, where it is that of the command.
fn reply_as(written: &Record, producer: ProducerNo, number: u32) -> Option<Reply>
    ensures { result ≡ reply_at producer number (written.now ∷ []) }
{
    if written.producer == producer && written.place == number {
        Some(written.reply)
    } else {
        None
    }
}

/// The record of this entry, where it is one of the entity.
fn record_of<'l>(entry: &'l ShardEntry, entity: &EntityName) -> Option<&'l Record>
    ensures { MatchOption result (record_in entity.now entry.now ≡ []) (λ r. record_in entity.now entry.now ≡ r.now ∷ []) }
{
    match entry {
        ShardEntry::Wrote(name, written) if name == entity => Some(written),
        _ => None,
    }
}

/// How many records an entity has in a shard's list, and the state that they lead to.
pub(crate) fn shown_in(kind: Kind, list: &[ShardEntry], entity: &EntityName) -> (usize, State)
    requires { IsTrue (are_foldable (empty_state kind) (records_in entity.now list.now)) }
    ensures count { result.0 ≡ length (records_in entity.now list.now) }
    ensures state { result.1 ≡ folded kind (records_in entity.now list.now) }
{
    let mut count = 0;
    let mut state = State::empty(kind);
    for entry in list {
        count += show_entry(&mut state, entry, entity);
    }
    (count, state)
}

/// The state goes on by this entry's record, where it is one of the entity: how many it has of them, one or none.
fn show_entry(state: &mut State, entry: &ShardEntry, entity: &EntityName) -> usize
    requires { IsTrue (are_foldable state.old (record_in entity.now entry.now)) }
    ensures count { result ≡ length (record_in entity.now entry.now) }
    ensures state { state.new ≡ fold after_record state.old (record_in entity.now entry.now) }
    ensures one { result < 2 }
{
    match record_of(entry, entity) {
        Some(written) => {
            apply_events(state, written.events.as_slice());
            1
        }
        None => 0,
    }
}
