//! What stands of a record in its line.
ghost use Rattle.std.specs.Prelude.{◌≡◌, None, Some, MatchOption};
ghost use Rattle.fact_lines.specs.Reads.{numbers_at, outcome_at, pair_at, record_of};

use crate::basics::{LONG, entity, long_behind, number, producer, text};
use crate::commands::command;
use crate::events::{events, reply};
use crate::parts::{Numbers, Outcome, Pair};
use yard_model::Record;

/// A producer, an entity and a number, and the bytes behind them.
pub(crate) fn pair(line: &[u8]) -> Option<(Pair, &[u8])>
    ensures { MatchOption result (pair_at line.now ≡ None) (λ x. pair_at line.now ≡ Some (x.0, x.1.now)) }
{
    let Some((producer, behind)) = producer(line) else {
        return None;
    };
    let Some(start) = text(behind, b" ") else {
        return None;
    };
    let Some((entity, behind)) = entity(start) else {
        return None;
    };
    let Some((number, rest)) = long_behind(behind, b" ") else {
        return None;
    };
    Some((
        Pair {
            producer,
            entity,
            number,
        },
        rest,
    ))
}

/// The numbers of a record, and the bytes behind them.
pub(crate) fn numbers(line: &[u8]) -> Option<(Numbers, &[u8])>
    ensures { MatchOption result (numbers_at line.now ≡ None) (λ x. numbers_at line.now ≡ Some (x.0, x.1.now)) }
{
    let Some((number, behind)) = number(line, LONG) else {
        return None;
    };
    let Some((epoch, behind)) = long_behind(behind, b" epoch ") else {
        return None;
    };
    let Some(start) = text(behind, b" by ") else {
        return None;
    };
    let Some((producer, behind)) = producer(start) else {
        return None;
    };
    let Some((place, rest)) = long_behind(behind, b":") else {
        return None;
    };
    Some((
        Numbers {
            number: number as u32,
            epoch,
            producer,
            place,
        },
        rest,
    ))
}

/// What a record says besides its numbers, and the bytes behind it.
pub(crate) fn outcome(line: &[u8]) -> Option<(Outcome, &[u8])>
    ensures { MatchOption result (outcome_at line.now ≡ None) (λ x. outcome_at line.now ≡ Some (x.0, x.1.now)) }
{
    let Some(start) = text(line, b" ") else {
        return None;
    };
    let Some((command, behind)) = command(start) else {
        return None;
    };
    let Some(start) = text(behind, b" / ") else {
        return None;
    };
    let Some((events, behind)) = events(start) else {
        return None;
    };
    let Some(start) = text(behind, b" / ") else {
        return None;
    };
    let Some((reply, rest)) = reply(start) else {
        return None;
    };
    Some((
        Outcome {
            command,
            events,
            reply,
        },
        rest,
    ))
}

/// The record of both.
pub(crate) fn record_of(numbers: &Numbers, outcome: &Outcome) -> Record
    ensures { result ≡ record_of numbers.now outcome.now }
{
    Record {
        number: numbers.number,
        epoch: numbers.epoch,
        producer: numbers.producer,
        place: numbers.place,
        command: outcome.command,
        events: outcome.events,
        reply: outcome.reply,
    }
}
