//! The fact at the front of a line, by its first word.
ghost use Rattle.std.specs.Prelude.{◌≡◌, None, Some};
ghost use Rattle.fact_lines.specs.Reads.{allocated_of, confirmed_of, coordinator_fact, entity_fact, fact_at, freed_of, life_at, granted_of, lease_fact, node_fact, queue_fact, queued_of, script_fact, snapshot_of, wrote_of};

use crate::basics::{byte_behind, entity_behind, long_behind, shard_behind, text, who_behind};
use crate::commands::command;
use crate::records::{numbers, outcome, pair, record_of};
use crate::slots::{cause, slot_behind};
use yard_model::{EntityName, Fact, Incarnation};

fn granted(line: &[u8]) -> Option<Fact>
    ensures { result ≡ granted_of line.now }
{
    let Some((slot, behind)) = slot_behind(line, b"granted ") else {
        return None;
    };
    let Some((epoch, behind)) = long_behind(behind, b" ") else {
        return None;
    };
    let Some((who, _)) = who_behind(behind, b" ") else {
        return None;
    };
    Some(Fact::Granted(slot, epoch, who))
}

fn freed(line: &[u8]) -> Option<Fact>
    ensures { result ≡ freed_of line.now }
{
    let Some((slot, behind)) = slot_behind(line, b"freed ") else {
        return None;
    };
    let Some((epoch, behind)) = long_behind(behind, b" ") else {
        return None;
    };
    let Some(start) = text(behind, b" ") else {
        return None;
    };
    let Some((cause, _)) = cause(start) else {
        return None;
    };
    Some(Fact::Freed(slot, epoch, cause))
}

fn lease_fact(line: &[u8]) -> Option<Fact>
    ensures { result ≡ lease_fact line.now }
{
    if let Some(fact) = granted(line) {
        return Some(fact);
    }
    freed(line)
}

fn allocated(line: &[u8]) -> Option<Fact>
    ensures { result ≡ allocated_of line.now }
{
    let Some((shard, behind)) = shard_behind(line, b"allocated ") else {
        return None;
    };
    let Some((region, _)) = who_behind(behind, b" ") else {
        return None;
    };
    Some(Fact::Allocated(shard, region))
}

fn coordinator_fact(line: &[u8]) -> Option<Fact>
    ensures { result ≡ coordinator_fact line.now }
{
    if let Some((region, _)) = who_behind(line, b"registered ") {
        return Some(Fact::Registered(region));
    }
    if let Some((region, _)) = who_behind(line, b"terminated ") {
        return Some(Fact::Terminated(region));
    }
    if let Some(fact) = allocated(line) {
        return Some(fact);
    }
    let Some((shard, _)) = shard_behind(line, b"deallocated ") else {
        return None;
    };
    Some(Fact::Deallocated(shard))
}

fn wrote(line: &[u8]) -> Option<Fact>
    ensures { result ≡ wrote_of line.now }
{
    let Some((entity, behind)) = entity_behind(line, b"wrote ") else {
        return None;
    };
    let Some(start) = text(behind, b" ") else {
        return None;
    };
    let Some((numbers, behind)) = numbers(start) else {
        return None;
    };
    let Some((outcome, _)) = outcome(behind) else {
        return None;
    };
    Some(Fact::Wrote(entity, record_of(&numbers, &outcome)))
}

fn snapshot(line: &[u8]) -> Option<Fact>
    ensures { result ≡ snapshot_of line.now }
{
    let Some((entity, behind)) = entity_behind(line, b"snapshot ") else {
        return None;
    };
    let Some((records, _)) = long_behind(behind, b" ") else {
        return None;
    };
    Some(Fact::Snapshot(entity, records))
}

fn entity_fact(line: &[u8]) -> Option<Fact>
    ensures { result ≡ entity_fact line.now }
{
    if let Some(fact) = wrote(line) {
        return Some(fact);
    }
    if let Some(fact) = snapshot(line) {
        return Some(fact);
    }
    if let Some((entity, _)) = entity_behind(line, b"remembered ") {
        return Some(Fact::Remembered(entity));
    }
    let Some((entity, _)) = entity_behind(line, b"forgotten ") else {
        return None;
    };
    Some(Fact::Forgotten(entity))
}

fn queued(line: &[u8]) -> Option<Fact>
    ensures { result ≡ queued_of line.now }
{
    let Some(start) = text(line, b"queued ") else {
        return None;
    };
    let Some((pair, behind)) = pair(start) else {
        return None;
    };
    let Some(start) = text(behind, b" ") else {
        return None;
    };
    let Some((command, _)) = command(start) else {
        return None;
    };
    Some(Fact::Queued(pair.producer, pair.entity, pair.number, command))
}

fn confirmed(line: &[u8]) -> Option<Fact>
    ensures { result ≡ confirmed_of line.now }
{
    let Some(start) = text(line, b"confirmed ") else {
        return None;
    };
    let Some((pair, _)) = pair(start) else {
        return None;
    };
    Some(Fact::Confirmed(pair.producer, pair.entity, pair.number))
}

fn queue_fact(line: &[u8]) -> Option<Fact>
    ensures { result ≡ queue_fact line.now }
{
    if let Some(fact) = queued(line) {
        return Some(fact);
    }
    confirmed(line)
}

/// An incarnation behind this text, and an entity of it.
fn life<'a>(line: &'a [u8], word: &[u8]) -> Option<(Incarnation, EntityName)>
    ensures { result ≡ life_at word.now line.now }
{
    let Some((who, behind)) = who_behind(line, word) else {
        return None;
    };
    let Some((entity, _)) = entity_behind(behind, b" ") else {
        return None;
    };
    Some((who, entity))
}

fn node_fact(line: &[u8]) -> Option<Fact>
    ensures { result ≡ node_fact line.now }
{
    if let Some((who, entity)) = life(line, b"start ") {
        return Some(Fact::Start(who, entity));
    }
    if let Some((who, entity)) = life(line, b"stop ") {
        return Some(Fact::Stop(who, entity));
    }
    if let Some((who, entity)) = life(line, b"writefailed ") {
        return Some(Fact::WriteFailed(who, entity));
    }
    let Some((who, _)) = who_behind(line, b"gone ") else {
        return None;
    };
    Some(Fact::Gone(who))
}

fn script_fact(line: &[u8]) -> Option<Fact>
    ensures { result ≡ script_fact line.now }
{
    if let Some((version, _)) = byte_behind(line, b"upgrade ") {
        return Some(Fact::Upgrade(version));
    }
    let Some((shards, behind)) = byte_behind(line, b"reshard ") else {
        return None;
    };
    let Some((epoch, _)) = long_behind(behind, b" ") else {
        return None;
    };
    Some(Fact::Reshard(shards, epoch))
}

/// The fact at the front, whatever stands behind it.
pub fn fact(line: &[u8]) -> Option<Fact>
    ensures { result ≡ fact_at line.now }
{
    if let Some(fact) = entity_fact(line) {
        return Some(fact);
    }
    if let Some(fact) = queue_fact(line) {
        return Some(fact);
    }
    if let Some(fact) = lease_fact(line) {
        return Some(fact);
    }
    if let Some(fact) = coordinator_fact(line) {
        return Some(fact);
    }
    if let Some(fact) = node_fact(line) {
        return Some(fact);
    }
    script_fact(line)
}
