//! What a line asks.
ghost use Rattle.std.specs.Prelude.{◌≡◌, ◌||◌, ◌∷◌, Option, Some, IfOk, IfSome, IsTrue};
ghost use Rattle.std.specs.List.{list_all};
ghost use Rattle.yard_model.specs.declared.charter.Config.{Config};
ghost use Rattle.yard_model.specs.Script.{Script, is_config};
ghost use Rattle.script_text.specs.Faults.{◌&◌};
ghost use Rattle.script_text.specs.Settings.{settings};
ghost use Rattle.script_text.specs.Words.{is_comment, is_plain, words};
ghost use Rattle.serve_laws.specs.Hearing.{ask, asked, heard, request, told};
ghost use Rattle.serve_lines.specs.Asking.{IsRequest, heard_as, of_ask, of_parts, of_request, of_settings, of_words, read_as, settings_in};

use script_text::words::{
    begins_comment, both, first, is, is_comment, is_plain_text, name, no_more, number_of, only,
};
use script_text::{Why, command, next_word, producer, read_settings};
use yard_model::{Command, Config, EntityName, ProducerNo};

/// The most bytes of a line that isn't refused.
const MOST_BYTES: usize = 256;

/// What a line asks.
#[derive(Clone, Copy, Debug, PartialEq, Eq)]
pub enum Request {
    /// Nothing: it is blank, or a comment.
    Nothing,
    /// Nothing that can be read; it is refused for this reason.
    Refused(Why),
    /// `config KEY=VALUE ..`: that these settings be in force.
    Settings(Config),
    /// `send P E N COMMAND`: that a command be carried out.
    Send {
        /// Whose command it is.
        producer: ProducerNo,
        /// To whom.
        entity: EntityName,
        /// Its number among the producer's commands to the entity, from 1.
        number: u32,
        /// What is to be done.
        command: Command,
    },
    /// `report`: the report.
    Report,
    /// `show E`: the state of an entity.
    Show(EntityName),
}

/// What a line asks, which has neither LF nor the CR before it; with the settings that are in force, if any are. Where
/// none are, it asks for settings or for nothing, or is refused. What becomes of it is what the line is answered.
pub fn read_request(line: &[u8], settings: Option<Config>) -> Request
    requires { IfSome settings (λ c. IsTrue (is_config c)) }
    ensures heard { (so : Option Script) → settings_in so ≡ settings → heard so line.now ≡ heard_as so result }
    ensures valid { IsRequest settings result }
{
    if line.len() > MOST_BYTES {
        return Request::Refused(Why::LongLine);
    }
    if !is_read(line) {
        return Request::Refused(Why::NotText);
    }
    read_words(line, settings)
}

/// Whether each byte is one of a text, or the line is a comment.
fn is_read(line: &[u8]) -> bool
    ensures { result ≡ (is_comment (words line.now) || list_all is_plain line.now) }
{
    is_comment(line) || is_plain_text(line)
}

/// What the words of a line ask.
fn read_words(line: &[u8], settings: Option<Config>) -> Request
    requires { IfSome settings (λ c. IsTrue (is_config c)) }
    ensures told { (so : Option Script) → settings_in so ≡ settings → told so (words line.now) ≡ heard_as so result }
    ensures valid { IsRequest settings result }
{
    let Some((word, rest)) = next_word(line) else {
        return Request::Nothing;
    };
    if begins_comment(word) {
        return Request::Nothing;
    }
    if is(word, "config") {
        return read_config(rest);
    }
    read_other(word, rest, settings)
}

/// What the words behind `config` ask.
fn read_config(rest: &[u8]) -> Request
    ensures value { result ≡ of_settings (settings (words rest.now)) }
    ensures valid { (so : Option Config) → IsRequest so result }
{
    match read_settings(rest) {
        Ok(config) => Request::Settings(config),
        Err(why) => Request::Refused(why),
    }
}

/// What a line that isn't `config` asks: its first word, and those behind it.
fn read_other(word: &[u8], rest: &[u8], settings: Option<Config>) -> Request
    requires { IfSome settings (λ c. IsTrue (is_config c)) }
    ensures asked { (so : Option Script) → settings_in so ≡ settings → asked so (word.now ∷ words rest.now) ≡ heard_as so result }
    ensures valid { IsRequest settings result }
{
    match settings {
        Some(config) => read_known(&config, word, rest),
        None => Request::Refused(Why::NoConfig),
    }
}

/// The same, where these settings are in force.
fn read_known(config: &Config, word: &[u8], rest: &[u8]) -> Request
    requires { IsTrue (is_config config.now) }
    ensures value { result ≡ of_words (ask config.now (word.now ∷ words rest.now)) }
    ensures valid { IsRequest (Some config.now) result }
{
    match read_ask(config, word, rest) {
        Ok(request) => request,
        Err(why) => Request::Refused(why),
    }
}

/// The same, or the reason for which the words are refused.
fn read_ask(config: &Config, word: &[u8], rest: &[u8]) -> Result<Request, Why>
    requires { IsTrue (is_config config.now) }
    ensures value { result ≡ read_as of_ask (ask config.now (word.now ∷ words rest.now)) }
    ensures valid { IfOk result (λ r. IsRequest (Some config.now) r) }
{
    if is(word, "report") {
        no_more(rest)?;
        return Ok(Request::Report);
    }
    if is(word, "show") {
        return Ok(Request::Show(name(only(rest)?)?));
    }
    if is(word, "send") {
        return read_send(config, rest);
    }
    Err(Why::UnknownWord)
}

/// What the words behind `send` ask: P E N COMMAND.
fn read_send(config: &Config, line: &[u8]) -> Result<Request, Why>
    requires { IsTrue (is_config config.now) }
    ensures value { result ≡ read_as of_request (request config.now (words line.now)) }
    ensures valid { IfOk result (λ r. IsRequest (Some config.now) r) }
{
    let (sender, line) = first(line)?;
    let (entity, line) = first(line)?;
    let (number, line) = first(line)?;
    let (verb, line) = first(line)?;
    joined(
        producer(config, sender),
        name(entity),
        number_of(number, 1, u32::MAX),
        command(config.kind, verb, line),
    )
}

/// A command of these parts, or of their reasons the one that is tried first.
fn joined(
    producer: Result<ProducerNo, Why>,
    entity: Result<EntityName, Why>,
    number: Result<u32, Why>,
    command: Result<Command, Why>,
) -> Result<Request, Why>
    ensures value { result ≡ read_as of_parts (producer & entity & number & command) }
{
    let (((producer, entity), number), command) = both(
        both(both(producer, entity), number),
        command,
    )?;
    Ok(Request::Send {
        producer,
        entity,
        number,
        command,
    })
}
