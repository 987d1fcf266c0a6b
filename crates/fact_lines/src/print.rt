//! The line of an entry, appended to a text. The only error is want of memory; what the text then is stays open.
ghost use Rattle.std.specs.Prelude.{◌≡◌, ◌++◌, ◌∷◌, [], true, OnOk, codes, decimal};
ghost use Rattle.yard_model.specs.Text.{command_text, events_text, fact_line, fact_words, incarnation_text, record_words, reply_text, slot_text, words};
ghost use Rattle.fact_lines.specs.Entry.{is_entry};

use crate::values::{
    push, push_cause, push_command, push_counted, push_events, push_incarnation, push_number,
    push_reply, push_slot,
};
use std::alloc::AllocError;
use yard_model::{
    Cause, Command, EntityName, Fact, Incarnation, ProducerNo, Record, ShardNo, Slot,
};

/// A word with a space behind it, and an incarnation.
fn push_who(text: &mut Vec<u8>, word: &[u8], x: &Incarnation) -> Result<(), AllocError>
    ensures { OnOk result (text.new.items ≡ text.old.items ++ (word.now ++ incarnation_text x.now)) }
{
    push(text, word)?;
    push_incarnation(text, x)
}

/// A word with a space behind it, and an entity.
fn push_entity(text: &mut Vec<u8>, word: &[u8], entity: &EntityName) -> Result<(), AllocError>
    ensures { OnOk result (text.new.items ≡ text.old.items ++ (word.now ++ entity.now)) }
{
    push(text, word)?;
    push(text, entity.bytes())
}

/// A word with a space behind it, a slot and an epoch.
fn push_lease(text: &mut Vec<u8>, word: &[u8], slot: &Slot, epoch: u32) -> Result<(), AllocError>
    ensures { OnOk result (text.new.items ≡ text.old.items ++ (word.now ++ words (slot_text slot.now ∷ decimal epoch ∷ []))) }
{
    push(text, word)?;
    push_slot(text, slot)?;
    push_counted(text, b" ", u64::from(epoch))
}

fn push_granted(
    text: &mut Vec<u8>,
    slot: &Slot,
    epoch: u32,
    who: &Incarnation,
) -> Result<(), AllocError>
    ensures { OnOk result (text.new.items ≡ text.old.items ++ words (fact_words (Fact.Granted slot.now epoch who.now))) }
{
    push_lease(text, b"granted ", slot, epoch)?;
    push_who(text, b" ", who)
}

fn push_freed(text: &mut Vec<u8>, slot: &Slot, epoch: u32, cause: &Cause) -> Result<(), AllocError>
    ensures { OnOk result (text.new.items ≡ text.old.items ++ words (fact_words (Fact.Freed slot.now epoch cause.now))) }
{
    push_lease(text, b"freed ", slot, epoch)?;
    push(text, b" ")?;
    push_cause(text, cause)
}

fn push_allocated(
    text: &mut Vec<u8>,
    shard: ShardNo,
    region: &Incarnation,
) -> Result<(), AllocError>
    ensures { OnOk result (text.new.items ≡ text.old.items ++ words (fact_words (Fact.Allocated shard region.now))) }
{
    push_counted(text, b"allocated ", u64::from(shard.get()))?;
    push_who(text, b" ", region)
}

fn push_snapshot(text: &mut Vec<u8>, entity: &EntityName, records: u32) -> Result<(), AllocError>
    ensures { OnOk result (text.new.items ≡ text.old.items ++ words (fact_words (Fact.Snapshot entity.now records))) }
{
    push_entity(text, b"snapshot ", entity)?;
    push_counted(text, b" ", u64::from(records))
}

/// A word with a space behind it, a producer, an entity and a number.
fn push_pair(
    text: &mut Vec<u8>,
    word: &[u8],
    producer: ProducerNo,
    entity: &EntityName,
    number: u32,
) -> Result<(), AllocError>
    ensures { OnOk result (text.new.items ≡ text.old.items ++ (word.now ++ words (decimal producer ∷ entity.now ∷ decimal number ∷ []))) }
{
    push_counted(text, word, u64::from(producer.get()))?;
    push_entity(text, b" ", entity)?;
    push_counted(text, b" ", u64::from(number))
}

fn push_queued(
    text: &mut Vec<u8>,
    producer: ProducerNo,
    entity: &EntityName,
    number: u32,
    command: &Command,
) -> Result<(), AllocError>
    ensures { OnOk result (text.new.items ≡ text.old.items ++ words (fact_words (Fact.Queued producer entity.now number command.now))) }
{
    push_pair(text, b"queued ", producer, entity, number)?;
    push(text, b" ")?;
    push_command(text, command)
}

/// A record's number, its epoch, its producer and its place.
fn push_numbers(text: &mut Vec<u8>, entry: &Record) -> Result<(), AllocError>
    ensures { OnOk result (text.new.items ≡ text.old.items
        ++ words (decimal entry.now.number ∷ codes "epoch" ∷ decimal entry.now.epoch ∷ codes "by"
        ∷ (decimal entry.now.producer ++ 58 ∷ decimal entry.now.place) ∷ [])) }
{
    push_number(text, u64::from(entry.number))?;
    push_counted(text, b" epoch ", u64::from(entry.epoch))?;
    push_counted(text, b" by ", u64::from(entry.producer.get()))?;
    push_counted(text, b":", u64::from(entry.place))
}

/// What a record's command led to, and what was answered.
fn push_outcome(text: &mut Vec<u8>, entry: &Record) -> Result<(), AllocError>
    ensures { OnOk result (text.new.items ≡ text.old.items
        ++ words ([] ∷ codes "/" ∷ events_text entry.now.events ∷ codes "/" ∷ reply_text entry.now.reply ∷ [])) }
{
    push(text, b" / ")?;
    push_events(text, entry.events.as_slice())?;
    push(text, b" / ")?;
    push_reply(text, &entry.reply)
}

fn push_record(text: &mut Vec<u8>, entry: &Record) -> Result<(), AllocError>
    ensures { OnOk result (text.new.items ≡ text.old.items ++ words (record_words entry.now)) }
{
    push_numbers(text, entry)?;
    push(text, b" ")?;
    push_command(text, &entry.command)?;
    push_outcome(text, entry)
}

fn push_wrote(text: &mut Vec<u8>, entity: &EntityName, entry: &Record) -> Result<(), AllocError>
    ensures { OnOk result (text.new.items ≡ text.old.items ++ words (fact_words (Fact.Wrote entity.now entry.now))) }
{
    push_entity(text, b"wrote ", entity)?;
    push(text, b" ")?;
    push_record(text, entry)
}

/// The words of an entry.
fn push_words(text: &mut Vec<u8>, fact: &Fact) -> Result<(), AllocError>
    requires { is_entry fact.now ≡ true }
    ensures { OnOk result (text.new.items ≡ text.old.items ++ words (fact_words fact.now)) }
{
    match fact {
        Fact::Granted(slot, epoch, who) => push_granted(text, slot, *epoch, who),
        Fact::Freed(slot, epoch, cause) => push_freed(text, slot, *epoch, cause),
        Fact::Registered(x) => push_who(text, b"registered ", x),
        Fact::Terminated(x) => push_who(text, b"terminated ", x),
        Fact::Allocated(shard, region) => push_allocated(text, *shard, region),
        Fact::Deallocated(shard) => push_counted(text, b"deallocated ", u64::from(shard.get())),
        Fact::Wrote(entity, entry) => push_wrote(text, entity, entry),
        Fact::Snapshot(entity, records) => push_snapshot(text, entity, *records),
        Fact::Remembered(entity) => push_entity(text, b"remembered ", entity),
        Fact::Forgotten(entity) => push_entity(text, b"forgotten ", entity),
        Fact::Queued(p, entity, n, command) => push_queued(text, *p, entity, *n, command),
        Fact::Confirmed(p, entity, n) => push_pair(text, b"confirmed ", *p, entity, *n),
        _ => unreachable!(),
    }
}

/// Appends the line of an entry.
pub fn push_entry(text: &mut Vec<u8>, fact: &Fact) -> Result<(), AllocError>
    requires { is_entry fact.now ≡ true }
    ensures { OnOk result (text.new.items ≡ text.old.items ++ fact_line fact.now) }
{
    push_words(text, fact)?;
    push(text, b"\n")
}
