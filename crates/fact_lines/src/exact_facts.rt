//! The entries that come most often, each read as its line is printed. Where the answer is None, nothing is said.
ghost use Rattle.std.specs.Prelude.{◌≡◌, ◌++◌, IfSome};
ghost use Rattle.yard_model.specs.Text.{fact_line};

use crate::exact::{behind, entity, long, pair};
use crate::exact_words::{command, record};
use yard_model::Fact;

#[inline(always)]
fn queued(line: &[u8]) -> Option<(Fact, &[u8])>
    ensures { IfSome result (λ x. line.now ≡ fact_line x.0 ++ x.1.now) }
{
    let Some((pair, rest)) = pair(line, b"queued ") else {
        return None;
    };
    let Some(rest) = behind(rest, b" ") else {
        return None;
    };
    let Some((command, rest)) = command(rest) else {
        return None;
    };
    let Some(rest) = behind(rest, b"\n") else {
        return None;
    };
    Some((
        Fact::Queued(pair.producer, pair.entity, pair.number, command),
        rest,
    ))
}

#[inline(always)]
fn confirmed(line: &[u8]) -> Option<(Fact, &[u8])>
    ensures { IfSome result (λ x. line.now ≡ fact_line x.0 ++ x.1.now) }
{
    let Some((pair, rest)) = pair(line, b"confirmed ") else {
        return None;
    };
    let Some(rest) = behind(rest, b"\n") else {
        return None;
    };
    Some((
        Fact::Confirmed(pair.producer, pair.entity, pair.number),
        rest,
    ))
}

#[inline(always)]
fn wrote(line: &[u8]) -> Option<(Fact, &[u8])>
    ensures { IfSome result (λ x. line.now ≡ fact_line x.0 ++ x.1.now) }
{
    let Some((entity, rest)) = entity(line, b"wrote ") else {
        return None;
    };
    let Some((record, rest)) = record(rest) else {
        return None;
    };
    let Some(rest) = behind(rest, b"\n") else {
        return None;
    };
    Some((Fact::Wrote(entity, record), rest))
}

#[inline(always)]
fn snapshot(line: &[u8]) -> Option<(Fact, &[u8])>
    ensures { IfSome result (λ x. line.now ≡ fact_line x.0 ++ x.1.now) }
{
    let Some((entity, rest)) = entity(line, b"snapshot ") else {
        return None;
    };
    let Some((records, rest)) = long(rest, b" ") else {
        return None;
    };
    let Some(rest) = behind(rest, b"\n") else {
        return None;
    };
    Some((Fact::Snapshot(entity, records), rest))
}

/// An entry of a queue, a record or a snapshot whose line stands at the front, and the bytes behind that line.
#[inline(always)]
pub(crate) fn usual(line: &[u8]) -> Option<(Fact, &[u8])>
    ensures { IfSome result (λ x. line.now ≡ fact_line x.0 ++ x.1.now) }
{
    if let Some(found) = queued(line) {
        return Some(found);
    }
    if let Some(found) = wrote(line) {
        return Some(found);
    }
    if let Some(found) = confirmed(line) {
        return Some(found);
    }
    snapshot(line)
}
