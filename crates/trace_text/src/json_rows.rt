//! The report as JSON: each entity and each pair as a value.
ghost use Rattle.trace_text.specs.Places.{lent};
ghost use Rattle.std.specs.Prelude.{◌≡◌, ◌∷◌, [], IfOk, IsTrue, OnOk, map};
ghost use Rattle.std.specs.Str.{IsUtf8};
ghost use Rattle.serde_json.specs.Data.{string};
ghost use Rattle.serde_json.specs.View.{members_view, view};
ghost use Rattle.yard_model.specs.Behaviour.{empty_state};
ghost use Rattle.yard_model.specs.Text.{command_text, event_text, reply_text, state_text};
ghost use Rattle.trace_text.specs.Foldable.{are_foldable};
ghost use Rattle.trace_text.specs.Json.{list_json, number_json, events_json, record_json, entity_value, pair_value, whole_json};
ghost use Rattle.trace_text.specs.JsonMembers.{with_told, with_answered, with_named, with_shown, with_pair};

use crate::entities::state_after;
use crate::queues::Tally;
use crate::report_rows::ReportRows;
use crate::values::{push_command, push_event, push_reply, push_state};
use serde_json::{Map, Value, json, put};
use std::alloc::{AllocError, Global};
use yard_model::{
    Charter, Command, EntityName, Event, Kind, ProducerNo, Record, Reply, ShardNo, State,
};

/// A text as a JSON string.
fn text_value(text: Vec<u8>) -> Value
    requires { IsUtf8 text.items }
    ensures { view result ≡ string text.items }
{
    match String::from_utf8(text) {
        Ok(text) => Value::String(text),
        Err(_) => unreachable!(),
    }
}

#[tactic(auto, using(crate::proofs::AsciiLaws::name_utf8))]
fn name_value(alloc: Global, name: &EntityName) -> Result<Value, AllocError>
    ensures { IfOk result (λ v. view v ≡ string name.now) }
{
    let text = Vec::from_slice(alloc, name.bytes())?;
    Ok(text_value(text))
}

fn command_value(alloc: Global, command: &Command) -> Result<Value, AllocError>
    ensures { IfOk result (λ v. view v ≡ string (command_text command.now)) }
{
    let mut text = Vec::new(alloc);
    push_command(&mut text, command)?;
    Ok(text_value(text))
}

fn event_value(alloc: Global, event: &Event) -> Result<Value, AllocError>
    ensures { IfOk result (λ v. view v ≡ string (event_text event.now)) }
{
    let mut text = Vec::new(alloc);
    push_event(&mut text, event)?;
    Ok(text_value(text))
}

fn reply_value(alloc: Global, reply: &Reply) -> Result<Value, AllocError>
    ensures { IfOk result (λ v. view v ≡ string (reply_text reply.now)) }
{
    let mut text = Vec::new(alloc);
    push_reply(&mut text, reply)?;
    Ok(text_value(text))
}

fn state_value(alloc: Global, state: &State) -> Result<Value, AllocError>
    ensures { IfOk result (λ v. view v ≡ string (state_text state.now)) }
{
    let mut text = Vec::new(alloc);
    push_state(&mut text, state)?;
    Ok(text_value(text))
}

/// The texts of events, in order.
fn events_value(alloc: Global, events: &[Event]) -> Result<Value, AllocError>
    ensures { IfOk result (λ v. view v ≡ events_json events.now) }
{
    let mut values: Vec<Value> = Vec::new(alloc);
    for event in events {
        values.push(event_value(alloc, event)?)?;
    }
    Ok(Value::Array(values))
}

/// What is written.
fn record_value(alloc: Global, written: &Record) -> Result<Value, AllocError>
    ensures { IfOk result (λ v. view v ≡ record_json written.now) }
{
    let mut map = Map::new(alloc);
    put_told(&mut map, alloc, written)?;
    put_answered(&mut map, alloc, written)?;
    Ok(Value::Object(map))
}

/// Whose command it answers, the command and its epoch, as members more.
fn put_told(map: &mut Map<String, Value>, alloc: Global, written: &Record) -> Result<(), AllocError>
    ensures { OnOk result (members_view map.new.entries ≡ with_told written.now (members_view map.old.entries)) }
{
    let by = by_value(alloc, written)?;
    put(map, alloc, "by", by)?;
    let command = command_value(alloc, &written.command)?;
    put(map, alloc, "command", command)?;
    put(map, alloc, "epoch", Value::from(written.epoch))
}

/// What its command led to, its number and its reply, as members more.
fn put_answered(
    map: &mut Map<String, Value>,
    alloc: Global,
    written: &Record,
) -> Result<(), AllocError>
    ensures { OnOk result (members_view map.new.entries ≡ with_answered written.now (members_view map.old.entries)) }
{
    let events = events_value(alloc, written.events.as_slice())?;
    put(map, alloc, "events", events)?;
    put(map, alloc, "number", Value::from(written.number))?;
    let reply = reply_value(alloc, &written.reply)?;
    put(map, alloc, "reply", reply)
}

/// Whose command it answers.
fn by_value(alloc: Global, written: &Record) -> Result<Value, AllocError>
    ensures { IfOk result (λ v. view v ≡ list_json (number_json written.now.producer ∷ number_json written.now.place ∷ [])) }
{
    let mut list = Vec::new(alloc);
    list.push(Value::from(written.producer.get()))?;
    list.push(Value::from(written.place))?;
    Ok(Value::Array(list))
}

/// A journal.
fn records_value(alloc: Global, records: &[&Record]) -> Result<Value, AllocError>
    ensures { IfOk result (λ v. view v ≡ list_json (map record_json (lent records.now))) }
{
    let mut values: Vec<Value> = Vec::new(alloc);
    for written in records {
        values.push(record_value(alloc, written)?)?;
    }
    Ok(Value::Array(values))
}

/// An entity with its records.
fn entity_value(
    alloc: Global,
    kind: Kind,
    s: ShardNo,
    name: &EntityName,
    records: &[&Record],
) -> Result<Value, AllocError>
    requires { IsTrue (are_foldable (empty_state kind) (lent records.now)) }
    ensures { IfOk result (λ v. view v ≡ entity_value kind s name.now (lent records.now)) }
{
    let mut map = Map::new(alloc);
    put_named(&mut map, alloc, name, records)?;
    put_shown(&mut map, alloc, kind, s, records)?;
    Ok(Value::Object(map))
}

/// A name and a journal, as members more.
fn put_named(
    map: &mut Map<String, Value>,
    alloc: Global,
    name: &EntityName,
    records: &[&Record],
) -> Result<(), AllocError>
    ensures { OnOk result (members_view map.new.entries ≡ with_named name.now (lent records.now) (members_view map.old.entries)) }
{
    let entity = name_value(alloc, name)?;
    put(map, alloc, "name", entity)?;
    let journal = records_value(alloc, records)?;
    put(map, alloc, "records", journal)
}

/// A shard and the state that a journal leads to, as members more.
fn put_shown(
    map: &mut Map<String, Value>,
    alloc: Global,
    kind: Kind,
    s: ShardNo,
    records: &[&Record],
) -> Result<(), AllocError>
    requires { IsTrue (are_foldable (empty_state kind) (lent records.now)) }
    ensures { OnOk result (members_view map.new.entries ≡ with_shown kind s (lent records.now) (members_view map.old.entries)) }
{
    put(map, alloc, "shard", Value::from(s.get()))?;
    let state = state_value(alloc, &state_after(kind, records))?;
    put(map, alloc, "state", state)
}

/// A pair with its counts.
pub(crate) fn pair_value(
    alloc: Global,
    p: ProducerNo,
    name: &EntityName,
    tally: &Tally,
) -> Result<Value, AllocError>
    ensures { IfOk result (λ v. view v ≡ pair_value p name.now tally.now.queued tally.now.confirmed) }
{
    let mut map = Map::new(alloc);
    put_pair(&mut map, alloc, p, name, tally)?;
    Ok(Value::Object(map))
}

/// A pair and its counts, as members more.
fn put_pair(
    map: &mut Map<String, Value>,
    alloc: Global,
    p: ProducerNo,
    name: &EntityName,
    tally: &Tally,
) -> Result<(), AllocError>
    ensures { OnOk result (members_view map.new.entries ≡ with_pair p name.now tally.now.queued tally.now.confirmed (members_view map.old.entries)) }
{
    put(map, alloc, "confirmed", Value::from(tally.confirmed))?;
    let entity = name_value(alloc, name)?;
    put(map, alloc, "entity", entity)?;
    put(map, alloc, "producer", Value::from(p.get()))?;
    put(map, alloc, "queued", Value::from(tally.queued))
}

/// The report of these entities and pairs.
pub(crate) fn whole_value(
    alloc: Global,
    entities: Vec<Value>,
    queues: Vec<Value>,
) -> Result<Value, AllocError>
    ensures { IfOk result (λ v. view v ≡ whole_json (map view entities.items) (map view queues.items)) }
{
    json!(in alloc; {"entities": entities, "queues": queues})
}

impl ReportRows for Vec<Value> {
    ghost use Rattle.std.specs.Prelude.{map, refl};
    ghost use Rattle.serde_json.specs.Data.{Data};
    ghost use Rattle.serde_json.specs.View.{view};
    ghost use Rattle.trace_text.specs.Json.{entity_json, pair_json};

    ghost Part = { Data };

    ghost parts = { λ values. map view values.items };

    ghost entity_parts = { entity_json };

    ghost pair_parts = { λ p e t. pair_json p e t.queued t.confirmed };

    fn push_entity(
        &mut self,
        charter: &Charter,
        s: ShardNo,
        name: &EntityName,
        records: &[&Record],
    ) -> Result<(), AllocError> {
        if records.is_empty() {
            return Ok(());
        }
        let alloc = *self.allocator();
        let value = entity_value(alloc, charter.config().kind, s, name, records)?;
        Ok(self.push(value)?)
    }

    fn push_pair(
        &mut self,
        p: ProducerNo,
        name: &EntityName,
        tally: &Tally,
    ) -> Result<(), AllocError> {
        if tally.queued == 0 {
            return Ok(());
        }
        let alloc = *self.allocator();
        let value = pair_value(alloc, p, name, tally)?;
        Ok(self.push(value)?)
    }
}
