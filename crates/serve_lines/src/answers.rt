//! The lines of answers, each appended to a text. The only error is want of memory; what the text then is stays open.
ghost use Rattle.std.specs.Prelude.{◌≡◌, ◌++◌, ◌∷◌, [], IfOk, OnOk, codes, decimal};
ghost use Rattle.yard_model.specs.Text.{command_text, fact_line, line, reply_text, state_text};
ghost use Rattle.yard_model.specs.declared.fact.Fact.TheVariants as fact;
ghost use Rattle.script_text.specs.Faults.{number_of};

use crate::parts::{push, push_counted, push_numbered, push_reply};
use script_text::Why;
use std::alloc::{AllocError, Global};
use trace_text::{push_fact, put_entity};
use yard_model::{Command, EntityName, Fact, ProducerNo, Reply, ShardNo, State};

/// How many cells are enough for the line of an entity.
const ENTITY_CELLS: usize = 2048;

/// `refused WHY`: the line is refused, for the reason of this number.
pub fn push_refused(text: &mut Vec<u8>, why: Why) -> Result<(), AllocError>
    ensures { OnOk result (text.new.items ≡ text.old.items ++ line (codes "refused" ∷ decimal (number_of why) ∷ [])) }
{
    push_counted(text, b"refused ", u64::from(why.number()))?;
    push(text, b"\n")
}

/// `done P E N ok V` or `done P E N no R`: the command of this number is recorded, with this reply.
pub fn push_done(
    text: &mut Vec<u8>,
    producer: ProducerNo,
    entity: &EntityName,
    number: u32,
    reply: &Reply,
) -> Result<(), AllocError>
    ensures { OnOk result (text.new.items ≡ text.old.items
        ++ line (codes "done" ∷ decimal producer ∷ entity.now ∷ decimal number ∷ reply_text reply.now ∷ [])) }
{
    push_numbered(text, b"done ", producer, entity, number)?;
    push(text, b" ")?;
    push_reply(text, reply)?;
    push(text, b"\n")
}

/// `gap P E N next K`: the number is past the next one, which is K.
pub fn push_gap(
    text: &mut Vec<u8>,
    producer: ProducerNo,
    entity: &EntityName,
    number: u32,
    next: u32,
) -> Result<(), AllocError>
    ensures { OnOk result (text.new.items ≡ text.old.items
        ++ line (codes "gap" ∷ decimal producer ∷ entity.now ∷ decimal number ∷ codes "next" ∷ decimal next ∷ [])) }
{
    push_numbered(text, b"gap ", producer, entity, number)?;
    push_counted(text, b" next ", u64::from(next))?;
    push(text, b"\n")
}

/// `conflict P E N COMMAND`: another command has that number, this one.
pub fn push_conflict(
    text: &mut Vec<u8>,
    producer: ProducerNo,
    entity: &EntityName,
    number: u32,
    command: &Command,
) -> Result<(), AllocError>
    ensures { OnOk result (text.new.items ≡ text.old.items
        ++ line (codes "conflict" ∷ decimal producer ∷ entity.now ∷ decimal number ∷ command_text command.now ∷ [])) }
{
    let queued = queued_line(*text.allocator(), producer, entity, number, command)?;
    push(text, b"conflict")?;
    push(text, &queued.as_slice()[b"queued".len()..])
}

/// The line of the entry that queues this command.
fn queued_line(
    alloc: Global,
    producer: ProducerNo,
    entity: &EntityName,
    number: u32,
    command: &Command,
) -> Result<Vec<u8>, AllocError>
    ensures { IfOk result (λ text. text.items ≡ fact_line (fact.Queued producer entity.now number command.now)) }
{
    let mut text = Vec::new(alloc);
    push_fact(
        &mut text,
        &Fact::Queued(producer, *entity, number, *command),
    )?;
    Ok(text)
}

/// `entity E shard S records R state STATE`: so many records the entity has, which lead to this state.
pub fn push_entity(
    text: &mut Vec<u8>,
    shard: ShardNo,
    entity: &EntityName,
    count: u32,
    state: &State,
) -> Result<(), AllocError>
    ensures { OnOk result (text.new.items ≡ text.old.items
        ++ line (codes "entity" ∷ entity.now ∷ codes "shard" ∷ decimal shard
        ∷ codes "records" ∷ decimal count ∷ codes "state" ∷ state_text state.now ∷ [])) }
{
    let mut cells = [0; ENTITY_CELLS];
    let end = put_entity(&mut cells, shard, entity, count, state);
    push(text, &cells[..end])
}
