//! Lines are heard, one after the other.
ghost use Rattle.std.specs.Prelude.{◌≡◌, ◌++◌, ◌∷◌, [], false, IfOk, IsTrue, OnOk, Some, map, if◌then◌else◌};
ghost use Rattle.std.specs.Str.Lines.{lines};
ghost use Rattle.yard_model.specs.Script.{is_config};
ghost use Rattle.yard_model.specs.Text.{Bytes};
ghost use Rattle.yard_model.specs.declared.event.Command.{Command};
ghost use Rattle.serve_desk.specs.Desks.{answer_to};
ghost use Rattle.serve_laws.specs.Hearing.{InForce, Others, after_all, answers_all, heard, is_config_of};
ghost use Rattle.serve_laws.specs.Hearings.{request_for};
ghost use Rattle.serve_answers.specs.Told.{IfBegins, IsFirst, answer_value};

use crate::answers::Answer;
use script_text::next_line;
use serve_desk::{Desk, Heard};
use serve_lines::{Request, push_refused, read_request};
use std::alloc::{AllocError, Global};
use yard_model::{Config, EntityName, ProducerNo};

/// What a line comes to where no settings are in force.
pub enum First {
    /// Its answer, if it has one.
    Told(Vec<u8>),
    /// These are in force from now on.
    Begins(Config),
}

/// Hears the lines of a group, and appends what each is answered; whether anything was accepted, as far as that was
/// looked at: where not, nothing was.
pub fn hear_all(
    desk: &mut Desk,
    group: &[u8],
    answers: &mut Vec<Answer>,
) -> Result<bool, AllocError>
    ensures so_far { OnOk result (after_all (Some desk.old) (lines group.now) ≡ Some desk.new) }
    ensures heard { OnOk result (map answer_value answers.new.items ≡ map answer_value answers.old.items ++ answers_all (Some desk.old) (lines group.now)) }
    ensures same { IfOk result (λ changed. changed ≡ false → desk.new ≡ desk.old) }
{
    let mut rest = group;
    let mut changed = false;
    while let Some(cut) = next_line(rest) {
        let (answer, accepted) = hear_line(desk, cut.line)?;
        answers.push(answer)?;
        changed = changed || accepted;
        rest = cut.more;
    }
    Ok(changed)
}

/// Hears a line: its answer, and whether something was accepted.
fn hear_line(desk: &mut Desk, line: &[u8]) -> Result<(Answer, bool), AllocError>
    ensures heard { IfOk result (λ r. heard (Some desk.old) line.now ≡ record { so_far = Some desk.new; answer = answer_value r.0 }) }
    ensures same { IfOk result (λ r. r.1 ≡ false → desk.new ≡ desk.old) }
{
    let config = *desk.config();
    match read_request(line, Some(config)) {
        Request::Nothing => Ok((Answer::Silent, false)),
        Request::Refused(why) => Ok((Answer::Refused(why), false)),
        Request::Settings(settings) => Ok((settings_answer(&config, &settings), false)),
        Request::Report => Ok((Answer::Report, false)),
        Request::Show(entity) => Ok((Answer::Show(entity), false)),
        Request::Send {
            producer,
            entity,
            number,
            command,
        } => {
            let next = desk.commands(producer, &entity).len() + 1;
            let heard = desk.hear(producer, &entity, number, &command)?;
            let answer = answer_to(producer, entity, number, heard);
            Ok((answer, number as usize == next))
        }
    }
}

/// What settings are answered where these are in force.
fn settings_answer(config: &Config, settings: &Config) -> Answer
    ensures { answer_value result ≡ (if is_config_of config.now settings.now then InForce else Others) }
{
    if config == settings {
        Answer::InForce
    } else {
        Answer::Others
    }
}

/// What a command is answered that was heard so.
fn answer_to(producer: ProducerNo, entity: EntityName, number: u32, heard: Heard) -> Answer
    ensures { (k : Command) → answer_value result ≡ answer_to (request_for producer entity number k) heard }
{
    match heard {
        Heard::Done => Answer::Done(producer, entity, number),
        Heard::Refused(why) => Answer::Refused(why),
        Heard::Gap(next) => Answer::Gap(producer, entity, number, next),
        Heard::Conflict(command) => Answer::Conflict(producer, entity, number, command),
    }
}

/// Hears a line where no settings are in force.
pub fn first_line(alloc: Global, group: &[u8]) -> Result<First, AllocError>
    requires alone { (l : Bytes) × (lines group.now ≡ l ∷ []) }
    ensures first { IfOk result (λ f. IsFirst (lines group.now) f) }
    ensures config { IfOk result (λ f. IfBegins f (λ config. IsTrue (is_config config))) }
{
    let mut text = Vec::new(alloc);
    let Some(cut) = next_line(group) else {
        return Ok(First::Told(text));
    };
    match read_request(cut.line, None) {
        Request::Settings(config) => return Ok(First::Begins(config)),
        Request::Refused(why) => push_refused(&mut text, why)?,
        _ => {}
    }
    Ok(First::Told(text))
}
