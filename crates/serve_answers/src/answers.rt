//! The answers of lines, once what they asked for is on the disk.
ghost use Rattle.std.specs.Prelude.{◌≡◌, ◌++◌, ◌∷◌, [], List, OnOk, codes, decimal, map, true};
ghost use Rattle.std.specs.List.{flat_map};
ghost use Rattle.yard_model.specs.declared.fact.Fact.{Fact};
ghost use Rattle.yard_model.specs.Lawful.{lawful};
ghost use Rattle.yard_model.specs.Script.{setting};
ghost use Rattle.yard_model.specs.Setting.{shard_of};
ghost use Rattle.yard_model.specs.SlotLists.{shard_list};
ghost use Rattle.yard_model.specs.SlotReads.{journal};
ghost use Rattle.yard_model.specs.Text.{line, report};
ghost use Rattle.shard_store.specs.Stores.{lists_at};
ghost use Rattle.apply_laws.specs.Applied.{lists_in};
ghost use Rattle.serve_laws.specs.Served.{entity_words, reply_at, reply_words, text_in};
ghost use Rattle.serve_answers.specs.Told.{ReadsAs};
ghost use Rattle.serve_answers.specs.Told.{AreRecorded, IfDone, IsRecorded, answer_value};

use crate::hints::Hints;
use crate::records::{reply_of, shown_in};
use behaviour_core::laws::decided_law;
use script_text::Why;
use serve_lines::{
    push_conflict, push_done, push_entity, push_gap, push_other_settings, push_refused,
    push_settings,
};
use shard_extract::shard_of;
use shard_store::Stores;
use std::alloc::AllocError;
use trace_text::push_report;
use yard_model::laws::{command_law, decision_law};
use yard_model::{Charter, Command, EntityName, Lists, ProducerNo};

/// What a line is answered.
#[derive(Clone, Copy, Debug, PartialEq, Eq)]
pub enum Answer {
    /// Nothing.
    Silent,
    /// It is refused for this reason.
    Refused(Why),
    /// Its settings are in force.
    InForce,
    /// Others are.
    Others,
    /// The reply of the record of this command: producer, entity and number.
    Done(ProducerNo, EntityName, u32),
    /// Its number is past the next one of its pair, which stands last.
    Gap(ProducerNo, EntityName, u32, u32),
    /// Its number has this command.
    Conflict(ProducerNo, EntityName, u32, Command),
    /// The report.
    Report,
    /// An entity.
    Show(EntityName),
}

/// Appends the texts of these answers, of what these stores have; some of them, where there is no memory.
pub fn push_answers(
    text: &mut Vec<u8>,
    charter: &Charter,
    stores: &Stores,
    answers: &[Answer],
) -> Result<(), AllocError>
    requires script { stores.now.script ≡ charter.now }
    requires lawful { lawful charter.now (lists_at charter.now.config stores.now.places) ≡ true }
    requires recorded { AreRecorded charter.now (lists_at charter.now.config stores.now.places) (map answer_value answers.now) }
    ensures { OnOk result ((log : List (List Fact)) → ReadsAs charter.now (lists_at charter.now.config stores.now.places) (lists_in charter.now log) →
        text.new.items ≡ text.old.items ++ flat_map (text_in charter.now log) (map answer_value answers.now)) }
{
    let hints = Hints::new(*text.allocator(), charter, stores, answers.len())?;
    for answer in answers {
        push_answer(text, charter, stores, &hints, answer)?;
    }
    Ok(())
}

/// Appends the text of this answer.
fn push_answer(
    text: &mut Vec<u8>,
    charter: &Charter,
    stores: &Stores,
    hints: &Hints,
    answer: &Answer,
) -> Result<(), AllocError>
    requires script { stores.now.script ≡ charter.now }
    requires lawful { lawful charter.now (lists_at charter.now.config stores.now.places) ≡ true }
    requires recorded { IfDone (answer_value answer.now) (IsRecorded charter.now (lists_at charter.now.config stores.now.places)) }
    ensures { OnOk result ((log : List (List Fact)) → ReadsAs charter.now (lists_at charter.now.config stores.now.places) (lists_in charter.now log) →
        text.new.items ≡ text.old.items ++ text_in charter.now log (answer_value answer.now)) }
{
    match answer {
        Answer::Silent => Ok(()),
        Answer::Refused(why) => push_refused(text, *why),
        Answer::InForce => push_settings(text, charter.config()),
        Answer::Others => push_other_settings(text, charter.config()),
        Answer::Done(producer, entity, number) => {
            push_reply(text, charter, stores, hints, *producer, entity, *number)
        }
        Answer::Gap(producer, entity, number, next) => {
            push_gap(text, *producer, entity, *number, *next)
        }
        Answer::Conflict(producer, entity, number, command) => {
            push_conflict(text, *producer, entity, *number, command)
        }
        Answer::Report => push_whole(text, charter, stores),
        Answer::Show(entity) => push_shown(text, charter, stores, entity),
    }
}

/// Appends the report.
fn push_whole(text: &mut Vec<u8>, charter: &Charter, stores: &Stores) -> Result<(), AllocError>
    requires script { stores.now.script ≡ charter.now }
    requires lawful { lawful charter.now (lists_at charter.now.config stores.now.places) ≡ true }
    ensures { OnOk result (text.new.items ≡ text.old.items ++ report (setting charter.now) (lists_at charter.now.config stores.now.places)) }
{
    command_law();
    decision_law();
    decided_law();
    charter.config();
    push_report(text, charter, stores)
}

/// Appends the reply of the record of this command.
fn push_reply(
    text: &mut Vec<u8>,
    charter: &Charter,
    stores: &Stores,
    hints: &Hints,
    producer: ProducerNo,
    entity: &EntityName,
    number: u32,
) -> Result<(), AllocError>
    requires recorded { IsRecorded charter.now (lists_at charter.now.config stores.now.places) producer entity.now number }
    requires script { stores.now.script ≡ charter.now }
    ensures { OnOk result (text.new.items ≡ text.old.items ++ line (codes "done" ∷ decimal producer ∷ entity.now ∷ decimal number
        ∷ reply_words (reply_at producer number
        (journal entity.now (shard_list (lists_at charter.now.config stores.now.places) (shard_of (setting charter.now) entity.now)))))) }
{
    let shard = shard_of(entity, charter.config().shards);
    let reply = reply_of(hints, stores.shard(shard), producer, entity, number);
    push_done(text, producer, entity, number, &reply)
}

/// Appends an entity's line.
fn push_shown(
    text: &mut Vec<u8>,
    charter: &Charter,
    stores: &Stores,
    entity: &EntityName,
) -> Result<(), AllocError>
    requires script { stores.now.script ≡ charter.now }
    requires lawful { lawful charter.now (lists_at charter.now.config stores.now.places) ≡ true }
    ensures { OnOk result (text.new.items ≡ text.old.items ++ line (entity_words charter.now entity.now
        (journal entity.now (shard_list (lists_at charter.now.config stores.now.places) (shard_of (setting charter.now) entity.now))))) }
{
    command_law();
    decision_law();
    decided_law();
    let config = charter.config();
    let shard = shard_of(entity, config.shards);
    let (count, state) = shown_in(config.kind, stores.shard(shard), entity);
    match u32::try_from(count) {
        Ok(count) => push_entity(text, shard, entity, count, &state),
        Err(_) => Err(AllocError),
    }
}
