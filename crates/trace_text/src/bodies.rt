//! What packets say.
ghost use Rattle.std.specs.Prelude.{◌≡◌, ◌+◌, ◌*◌, ◌<◌, ◌≤◌, ◌++◌, ◌∷◌, [], codes, decimal, length, map, drop, take};
ghost use Rattle.std.specs.List.{join_with_byte};
ghost use Rattle.yard_model.specs.Text.{words, body_words, command_text, incarnation_text, stamp_text};
ghost use Rattle.trace_text.specs.Behind.{behind, members_text};

use crate::number::{Spelled, put_number, put_small, put_spelled, spell, spell_next};
use crate::room::{put, put_word};
use crate::values::{put_command, put_counted, put_incarnation, put_name, put_stamp};
use yard_model::{Body, EntityName, Incarnation, Members, Message, ProducerNo, ShardNo, Stamp};

pub(crate) fn put_body(cells: &mut [u8], at: usize, body: &Body) -> usize
    requires { at + 256 ≤ length cells.old }
    ensures items { take result cells.new ≡ take at cells.old ++ words (body_words body.now) }
    ensures end { result ≤ at + 256 }
{
    match body {
        Body::View { version, members } => put_view(cells, at, *version, members),
        Body::Register => put_word(cells, at, b"register"),
        Body::RegisterAck => put_word(cells, at, b"registerack"),
        Body::GetShardHome(s) => put_with_shard(cells, at, b"getshardhome ", *s),
        Body::ShardHome(s, home, stamp) => put_shard_home(cells, at, *s, home, stamp),
        Body::HostShard(s, stamp) => put_with_stamp(cells, at, b"hostshard ", *s, stamp),
        Body::ShardStarted(s) => put_with_shard(cells, at, b"shardstarted ", *s),
        Body::BeginHandOff(s, stamp) => put_with_stamp(cells, at, b"beginhandoff ", *s, stamp),
        Body::BeginHandOffAck(s, stamp) => put_with_stamp(
            cells,
            at,
            b"beginhandoffack ",
            *s,
            stamp,
        ),
        Body::HandOff(s, stamp) => put_with_stamp(cells, at, b"handoff ", *s, stamp),
        Body::ShardStopped(s, stamp) => put_with_stamp(cells, at, b"shardstopped ", *s, stamp),
        Body::GracefulShutdownReq => put_word(cells, at, b"gracefulshutdownreq"),
        Body::StopEntity(entity) => put_with_name(cells, at, b"stopentity ", entity),
        Body::Recovered(entity) => put_with_name(cells, at, b"recovered ", entity),
        Body::Passivate(entity) => put_with_name(cells, at, b"passivate ", entity),
        Body::Sequenced(message) => put_sequenced(cells, at, message),
        Body::Request {
            producer,
            entity,
            confirmed,
            up_to,
        } => put_request(cells, at, *producer, entity, *confirmed, *up_to),
        Body::Resend {
            producer,
            entity,
            from,
        } => put_with_pair(cells, at, b"resend ", *producer, entity, *from),
        Body::Ack {
            producer,
            entity,
            confirmed,
        } => put_with_pair(cells, at, b"ack ", *producer, entity, *confirmed),
    }
}

/// A word with a space at its end, and a shard.
#[inline(always)]
pub(crate) fn put_with_shard<const N: usize>(
    cells: &mut [u8],
    at: usize,
    word: &[u8; N],
    s: ShardNo,
) -> usize
    requires { at + (N + 10) ≤ length cells.old }
    ensures items { take result cells.new ≡ take at cells.old ++ (word.now ++ decimal s) }
    ensures end { result ≤ at + (N + 10) }
{
    put_counted(cells, at, word, u32::from(s.get()))
}

/// A word with a space at its end, a shard and a stamp.
#[inline(always)]
pub(crate) fn put_with_stamp<const N: usize>(
    cells: &mut [u8],
    at: usize,
    word: &[u8; N],
    s: ShardNo,
    stamp: &Stamp,
) -> usize
    requires { at + (N + 32) ≤ length cells.old }
    ensures items { take result cells.new ≡ take at cells.old ++ (word.now ++ (decimal s ++ 32 ∷ stamp_text stamp.now)) }
    ensures end { result ≤ at + (N + 32) }
{
    let at = put_with_shard(cells, at, word, s);
    let at = put(cells, at, b' ');
    put_stamp(cells, at, stamp)
}

/// A word with a space at its end, and a name.
#[inline(always)]
pub(crate) fn put_with_name<const N: usize>(
    cells: &mut [u8],
    at: usize,
    word: &[u8; N],
    entity: &EntityName,
) -> usize
    requires { at + (N + 32) ≤ length cells.old }
    ensures items { take result cells.new ≡ take at cells.old ++ (word.now ++ entity.now) }
    ensures end { result ≤ at + (N + 32) }
{
    let at = put_word(cells, at, word);
    put_name(cells, at, entity)
}

/// A producer and an entity.
#[inline(always)]
pub(crate) fn put_ends(
    cells: &mut [u8],
    at: usize,
    producer: ProducerNo,
    entity: &EntityName,
) -> usize
    requires { at + 35 ≤ length cells.old }
    ensures items { take result cells.new ≡ take at cells.old ++ words (decimal producer ∷ entity.now ∷ []) }
    ensures end { result ≤ at + 35 }
{
    let at = put_small(cells, at, u32::from(producer.get()));
    let at = put(cells, at, b' ');
    put_name(cells, at, entity)
}

/// A producer, an entity, and a number of that pair.
#[inline(always)]
fn put_pair_of(
    cells: &mut [u8],
    at: usize,
    producer: ProducerNo,
    entity: &EntityName,
    number: u32,
) -> usize
    requires { at + 46 ≤ length cells.old }
    ensures items { take result cells.new ≡ take at cells.old ++ words (decimal producer ∷ entity.now ∷ decimal number ∷ []) }
    ensures end { result ≤ at + 46 }
{
    let at = put_ends(cells, at, producer, entity);
    let at = put(cells, at, b' ');
    put_number(cells, at, number)
}

/// A word with a space at its end, a producer, an entity, and a number of that pair.
#[inline(always)]
pub(crate) fn put_with_pair<const N: usize>(
    cells: &mut [u8],
    at: usize,
    word: &[u8; N],
    producer: ProducerNo,
    entity: &EntityName,
    number: u32,
) -> usize
    requires { at + (N + 46) ≤ length cells.old }
    ensures items { take result cells.new ≡ take at cells.old ++ (word.now ++ words (decimal producer ∷ entity.now ∷ decimal number ∷ [])) }
    ensures end { result ≤ at + (N + 46) }
{
    let at = put_word(cells, at, word);
    put_pair_of(cells, at, producer, entity, number)
}

fn put_shard_home(
    cells: &mut [u8],
    at: usize,
    s: ShardNo,
    home: &Incarnation,
    stamp: &Stamp,
) -> usize
    requires { at + 56 ≤ length cells.old }
    ensures items { take result cells.new ≡ take at cells.old ++ words (codes "shardhome" ∷ decimal s ∷ incarnation_text home.now ∷ stamp_text stamp.now ∷ []) }
    ensures end { result ≤ at + 56 }
{
    let at = put_with_shard(cells, at, b"shardhome ", s);
    let at = put(cells, at, b' ');
    let at = put_incarnation(cells, at, home);
    let at = put(cells, at, b' ');
    put_stamp(cells, at, stamp)
}

#[inline(always)]
fn put_sequenced(cells: &mut [u8], at: usize, message: &Message) -> usize
    requires { at + 101 ≤ length cells.old }
    ensures items { take result cells.new ≡ take at cells.old ++ words (body_words (Body.Sequenced message.now)) }
    ensures end { result ≤ at + 101 }
{
    let at = put_word(cells, at, b"sequenced ");
    let at = put_pair_of(cells, at, message.producer, &message.entity, message.number);
    put_behind_pair(cells, at, message)
}

/// To whom a message is acknowledged, and its command.
#[inline(always)]
fn put_behind_pair(cells: &mut [u8], at: usize, message: &Message) -> usize
    requires { at + 45 ≤ length cells.old }
    ensures items { take result cells.new ≡ take at cells.old ++ 32 ∷ words (incarnation_text message.now.origin ∷ command_text message.now.command ∷ []) }
    ensures end { result ≤ at + 45 }
{
    let at = put(cells, at, b' ');
    let at = put_incarnation(cells, at, &message.origin);
    let at = put(cells, at, b' ');
    put_command(cells, at, &message.command)
}

fn put_request(
    cells: &mut [u8],
    at: usize,
    producer: ProducerNo,
    entity: &EntityName,
    confirmed: u32,
    up_to: u32,
) -> usize
    requires { at + 65 ≤ length cells.old }
    ensures items { take result cells.new ≡ take at cells.old ++ words (codes "request" ∷ decimal producer ∷ entity.now ∷ decimal confirmed ∷ decimal up_to ∷ []) }
    ensures end { result ≤ at + 65 }
{
    let at = put_with_pair(cells, at, b"request ", producer, entity, confirmed);
    let at = put(cells, at, b' ');
    put_number(cells, at, up_to)
}

fn put_view(cells: &mut [u8], at: usize, version: u32, members: &Members) -> usize
    requires room { at + 256 ≤ length cells.old }
    ensures items { take result cells.new ≡ take at cells.old ++ words (codes "view" ∷ decimal version ∷ join_with_byte 44 (map incarnation_text members.now) ∷ []) }
    ensures end { result ≤ at + 256 }
{
    let at = put_counted(cells, at, b"view ", version);
    let at = put(cells, at, b' ');
    put_members(cells, at, members)
}

#[tactic(auto, using(crate::proofs::Joined::members_from, crate::proofs::Joined::no_members))]
fn put_members(cells: &mut [u8], at: usize, members: &Members) -> usize
    requires room { at + 240 ≤ length cells.old }
    ensures items { take result cells.new ≡ take at cells.old ++ members_text members.now }
    ensures end { result ≤ at + 240 }
{
    if members.len() == 0 {
        return at;
    }
    match members.get(0) {
        Some(first) => put_joined_members(cells, at, &first, members),
        None => unreachable!(),
    }
}

fn put_joined_members(cells: &mut [u8], at: usize, first: &Incarnation, members: &Members) -> usize
    requires some { 0 < length members.now }
    requires room { at + (13 + 14 * length members.now) ≤ length cells.old }
    ensures items { take result cells.new ≡ take at cells.old ++ (incarnation_text first.now ++ behind (44 ∷ []) incarnation_text (drop 1 members.now)) }
    ensures end { result ≤ at + (13 + 14 * length members.now) }
{
    let at = put_incarnation(cells, at, first);
    put_members_behind(cells, at, members)
}

fn put_members_behind(cells: &mut [u8], at: usize, members: &Members) -> usize
    requires some { 0 < length members.now }
    requires room { at + (14 * length members.now) ≤ length cells.old }
    ensures items { take result cells.new ≡ take at cells.old ++ behind (44 ∷ []) incarnation_text (drop 1 members.now) }
    ensures end { result ≤ at + 14 * length members.now }
{
    let mut end = at;
    let mut known = spell(0);
    for place in 1..members.len() {
        match members.get(place) {
            Some(member) => {
                known = spell_next(known, member.number);
                end = put_next_member(cells, end, &member, &known);
            }
            None => unreachable!(),
        }
    }
    end
}

/// A member behind another. Most have the same number, which is spelled once.
#[inline(always)]
fn put_next_member(cells: &mut [u8], at: usize, member: &Incarnation, known: &Spelled) -> usize
    requires digits { take known.now.len known.now.digits ≡ decimal known.now.number }
    requires len { known.now.len ≤ 4 }
    requires room { at + 14 ≤ length cells.old }
    ensures items { take result cells.new ≡ take at cells.old ++ (44 ∷ [] ++ incarnation_text member.now) }
    ensures end { result ≤ at + 14 }
{
    let at = put(cells, at, b',');
    put_member(cells, at, member, known)
}

#[inline(always)]
fn put_member(cells: &mut [u8], at: usize, member: &Incarnation, known: &Spelled) -> usize
    requires digits { take known.now.len known.now.digits ≡ decimal known.now.number }
    requires len { known.now.len ≤ 4 }
    requires room { at + 13 ≤ length cells.old }
    ensures items { take result cells.new ≡ take at cells.old ++ incarnation_text member.now }
    ensures end { result ≤ at + 13 }
{
    if member.number != known.number {
        return put_incarnation(cells, at, member);
    }
    let at = put_small(cells, at, u32::from(member.node.get()));
    let at = put(cells, at, b'.');
    put_spelled(cells, at, known)
}
