//! The line of a fact.
ghost use Rattle.std.specs.Prelude.{◌≡◌, ◌+◌, ◌≤◌, ◌++◌, ◌∷◌, [], IfOk, codes, decimal, take, length};
ghost use Rattle.std.specs.List.{flat_map};
ghost use Rattle.yard_model.specs.Text.{words, fact_line, fact_words, incarnation_text, slot_text, message_words};
ghost use Rattle.trace_text.specs.Grown.{Appends, Begins, Grows};

use crate::basics::all_or_none;
use crate::bodies::{
    put_body, put_ends, put_with_name, put_with_pair, put_with_shard, put_with_stamp,
};
use crate::number::put_number;
use crate::records::{put_message, put_record};
use crate::room::{make_cells, push_cells, put, put_word};
use crate::values::{
    put_cause, put_command, put_counted, put_incarnation, put_keep, put_name, put_slot, put_state,
};
use std::alloc::AllocError;
use yard_model::{
    Cause, Command, EntityName, Fact, Incarnation, Keep, Message, NodeNo, Packet, ProducerNo,
    Record, ShardNo, Slot, State,
};

/// Appends the line of a fact. The only error is want of memory, and then the text stays as it was.
pub fn push_fact(text: &mut Vec<u8>, fact: &Fact) -> Result<(), AllocError>
    ensures { Appends result text.old.items text.new.items (fact_line fact.now) }
{
    match fact {
        Fact::Got(number) => push_got(text, *number),
        Fact::View(x, version) => push_seen(text, x, *version),
        Fact::Sent(number, packet) => push_sent(text, *number, packet),
        _ => push_other(text, fact),
    }
}

/// How many cells the lines of several facts are spelled into before they are appended.
pub(crate) const SHEET: usize = 2048;

/// The longest line that is spelled.
pub(crate) const LONGEST: usize = 512;

/// Appends the lines of these facts. The only error is want of memory, and then the text stays as it
/// was.
pub fn push_facts(text: &mut Vec<u8>, facts: &[Fact]) -> Result<(), AllocError>
    ensures { Appends result text.old.items text.new.items (flat_map fact_line facts.now) }
{
    let length = text.len();
    let pushed = push_lines(text, facts);
    all_or_none(text, length, pushed)
}

/// Appends the lines of these facts, or some of them.
fn push_lines(text: &mut Vec<u8>, facts: &[Fact]) -> Result<(), AllocError>
    ensures { Grows result text.old.items text.new.items (flat_map fact_line facts.now) }
{
    let mut cells = [0; SHEET];
    let mut at = 0;
    for fact in facts {
        at = push_next(text, &mut cells, at, fact)?;
    }
    push_cells(text, &cells, at)
}

/// The line of one fact more, behind the text and what waits in the cells; where they end then.
#[inline(always)]
fn push_next(
    text: &mut Vec<u8>,
    cells: &mut [u8; SHEET],
    at: usize,
    fact: &Fact,
) -> Result<usize, AllocError>
    requires { at ≤ 2048 }
    ensures text { IfOk result (λ end. text.new.items ++ take end cells.new ≡ text.old.items ++ (take at cells.old ++ fact_line fact.now)) }
    ensures end { IfOk result (λ end. end ≤ 2048) }
    ensures begins { Begins text.old.items text.new.items }
{
    if at > SHEET - LONGEST {
        push_cells(text, cells, at)?;
        return Ok(put_fact(cells, 0, fact));
    }
    Ok(put_fact(cells, at, fact))
}

/// The line of a packet that came.
#[inline(always)]
fn push_got(text: &mut Vec<u8>, number: u32) -> Result<(), AllocError>
    ensures { Appends result text.old.items text.new.items (fact_line (Fact.Got number)) }
{
    let at = make_cells(text, 16)?;
    let end = put_got(text.as_mut_slice(), at, number);
    text.truncate(end);
    Ok(())
}

fn put_got(cells: &mut [u8], at: usize, number: u32) -> usize
    requires { at + 16 ≤ length cells.old }
    ensures items { take result cells.new ≡ take at cells.old ++ fact_line (Fact.Got number) }
    ensures end { result ≤ at + 16 }
{
    let at = put_counted(cells, at, b"got ", number);
    put_end(cells, at)
}

/// The line of members that a node heard of.
#[inline(always)]
fn push_seen(text: &mut Vec<u8>, x: &Incarnation, version: u32) -> Result<(), AllocError>
    ensures { Appends result text.old.items text.new.items (fact_line (Fact.View x.now version)) }
{
    let at = make_cells(text, 32)?;
    let end = put_seen(text.as_mut_slice(), at, x, version);
    text.truncate(end);
    Ok(())
}

fn put_seen(cells: &mut [u8], at: usize, x: &Incarnation, version: u32) -> usize
    requires { at + 32 ≤ length cells.old }
    ensures items { take result cells.new ≡ take at cells.old ++ fact_line (Fact.View x.now version) }
    ensures end { result ≤ at + 32 }
{
    let at = put_numbered(cells, at, b"view ", x, version);
    put_end(cells, at)
}

/// The line of a packet that is posted.
#[inline(always)]
fn push_sent(text: &mut Vec<u8>, number: u32, packet: &Packet) -> Result<(), AllocError>
    ensures { Appends result text.old.items text.new.items (fact_line (Fact.Sent number packet.now)) }
{
    let at = make_cells(text, 304)?;
    let end = put_sent_line(text.as_mut_slice(), at, number, packet);
    text.truncate(end);
    Ok(())
}

fn put_sent_line(cells: &mut [u8], at: usize, number: u32, packet: &Packet) -> usize
    requires { at + 304 ≤ length cells.old }
    ensures items { take result cells.new ≡ take at cells.old ++ fact_line (Fact.Sent number packet.now) }
    ensures end { result ≤ at + 304 }
{
    let at = put_sent(cells, at, number, packet);
    put_end(cells, at)
}

/// The line of any fact.
#[inline(never)]
fn push_other(text: &mut Vec<u8>, fact: &Fact) -> Result<(), AllocError>
    ensures { Appends result text.old.items text.new.items (fact_line fact.now) }
{
    let at = make_cells(text, 512)?;
    let end = put_fact(text.as_mut_slice(), at, fact);
    text.truncate(end);
    Ok(())
}

pub(crate) fn put_fact(cells: &mut [u8], at: usize, fact: &Fact) -> usize
    requires { at + 512 ≤ length cells.old }
    ensures items { take result cells.new ≡ take at cells.old ++ fact_line fact.now }
    ensures end { result ≤ at + 512 }
{
    let at = put_fact_words(cells, at, fact);
    put_end(cells, at)
}

/// The end of a line.
#[inline(always)]
fn put_end(cells: &mut [u8], at: usize) -> usize
    requires { at + 1 ≤ length cells.old }
    ensures items { take result cells.new ≡ take at cells.old ++ 10 ∷ [] }
    ensures end { result ≡ at + 1 }
{
    put(cells, at, b'\n')
}

fn put_fact_words(cells: &mut [u8], at: usize, fact: &Fact) -> usize
    requires { at + 500 ≤ length cells.old }
    ensures items { take result cells.new ≡ take at cells.old ++ words (fact_words fact.now) }
    ensures end { result ≤ at + 500 }
{
    match fact {
        Fact::At(line) => put_counted(cells, at, b"at ", *line),
        Fact::Nothing => put_word(cells, at, b"nothing"),
        Fact::WireFull => put_word(cells, at, b"wirefull"),
        Fact::Settled => put_word(cells, at, b"settled"),
        Fact::Up(x) => put_with_incarnation(cells, at, b"up ", x),
        Fact::Gone(x) => put_with_incarnation(cells, at, b"gone ", x),
        Fact::View(x, version) => put_numbered(cells, at, b"view ", x, *version),
        Fact::Sent(number, packet) => put_sent(cells, at, *number, packet),
        Fact::Got(number) => put_counted(cells, at, b"got ", *number),
        Fact::Granted(slot, epoch, x) => put_granted(cells, at, slot, *epoch, x),
        Fact::Freed(slot, epoch, cause) => put_freed(cells, at, slot, *epoch, cause),
        Fact::Held(slot, x, node) => put_held(cells, at, slot, x, *node),
        Fact::Registered(region) => put_with_incarnation(cells, at, b"registered ", region),
        Fact::Terminated(region) => put_with_incarnation(cells, at, b"terminated ", region),
        Fact::Allocated(s, region) => put_allocated(cells, at, *s, region),
        Fact::Deallocated(s) => put_with_shard(cells, at, b"deallocated ", *s),
        Fact::Moving(s, stamp) => put_with_stamp(cells, at, b"moving ", *s, stamp),
        Fact::Home(x, s, home) => put_home(cells, at, x, *s, home),
        Fact::Forget(x, s) => put_numbered(cells, at, b"forget ", x, u32::from(s.get())),
        Fact::Kept(x, message) => put_with_message(cells, at, b"kept ", x, message),
        Fact::Dropped(x, message) => put_with_message(cells, at, b"dropped ", x, message),
        Fact::Stashed(x, message) => put_with_message(cells, at, b"stashed ", x, message),
        Fact::Start(x, entity) => put_with_entity(cells, at, b"start ", x, entity),
        Fact::Active {
            who,
            entity,
            records,
            state,
        } => put_active(cells, at, who, entity, *records, state),
        Fact::Stop(x, entity) => put_with_entity(cells, at, b"stop ", x, entity),
        Fact::WriteFailed(x, entity) => put_with_entity(cells, at, b"writefailed ", x, entity),
        Fact::Armed(entity, keep) => put_armed(cells, at, entity, keep),
        Fact::Wrote(entity, written) => put_wrote(cells, at, entity, written),
        Fact::Snapshot(entity, records) => put_snapshot(cells, at, entity, *records),
        Fact::Remembered(entity) => put_with_name(cells, at, b"remembered ", entity),
        Fact::Forgotten(entity) => put_with_name(cells, at, b"forgotten ", entity),
        Fact::Waits(p, entity, command) => put_waits(cells, at, *p, entity, command),
        Fact::Queued(p, entity, n, command) => put_queued(cells, at, *p, entity, *n, command),
        Fact::Confirmed(p, entity, n) => put_with_pair(cells, at, b"confirmed ", *p, entity, *n),
        Fact::Reshard(shards, epoch) => put_reshard(cells, at, *shards, *epoch),
        Fact::Resharded(_, shards, epoch) => put_reshard(cells, at, *shards, *epoch),
        Fact::Upgrade(version) => put_counted(cells, at, b"upgrade ", u32::from(*version)),
        Fact::SentAsk(number, x) => put_sent_ask(cells, at, *number, x),
        Fact::SentJob(number, x, entity) => put_sent_job(cells, at, *number, b" job ", x, entity),
        Fact::SentDone(number, x, entity) => put_sent_job(cells, at, *number, b" done ", x, entity),
        Fact::Given(entity, x) => put_given(cells, at, entity, x),
        Fact::Did(x, entity) => put_with_entity(cells, at, b"did ", x, entity),
    }
}

/// A word with a space at its end, and an incarnation.
#[inline(always)]
fn put_with_incarnation<const N: usize>(
    cells: &mut [u8],
    at: usize,
    word: &[u8; N],
    x: &Incarnation,
) -> usize
    requires { at + (N + 13) ≤ length cells.old }
    ensures items { take result cells.new ≡ take at cells.old ++ (word.now ++ incarnation_text x.now) }
    ensures end { result ≤ at + (N + 13) }
{
    let at = put_word(cells, at, word);
    put_incarnation(cells, at, x)
}

/// A word with a space at its end, an incarnation and a number.
#[inline(always)]
fn put_numbered<const N: usize>(
    cells: &mut [u8],
    at: usize,
    word: &[u8; N],
    x: &Incarnation,
    n: u32,
) -> usize
    requires { at + (N + 24) ≤ length cells.old }
    ensures items { take result cells.new ≡ take at cells.old ++ (word.now ++ words (incarnation_text x.now ∷ decimal n ∷ [])) }
    ensures end { result ≤ at + (N + 24) }
{
    let at = put_with_incarnation(cells, at, word, x);
    let at = put(cells, at, b' ');
    put_number(cells, at, n)
}

/// A word with a space at its end, an incarnation and an entity.
#[inline(always)]
fn put_with_entity<const N: usize>(
    cells: &mut [u8],
    at: usize,
    word: &[u8; N],
    x: &Incarnation,
    entity: &EntityName,
) -> usize
    requires { at + (N + 46) ≤ length cells.old }
    ensures items { take result cells.new ≡ take at cells.old ++ (word.now ++ words (incarnation_text x.now ∷ entity.now ∷ [])) }
    ensures end { result ≤ at + (N + 46) }
{
    let at = put_with_incarnation(cells, at, word, x);
    let at = put(cells, at, b' ');
    put_name(cells, at, entity)
}

/// A word with a space at its end, an incarnation, and whose message it is.
#[inline(always)]
fn put_with_message<const N: usize>(
    cells: &mut [u8],
    at: usize,
    word: &[u8; N],
    x: &Incarnation,
    message: &Message,
) -> usize
    requires { at + (N + 60) ≤ length cells.old }
    ensures items { take result cells.new ≡ take at cells.old ++ (word.now ++ words (incarnation_text x.now ∷ message_words message.now)) }
    ensures end { result ≤ at + (N + 60) }
{
    let at = put_with_incarnation(cells, at, word, x);
    let at = put(cells, at, b' ');
    put_message(cells, at, message)
}

/// A word with a space at its end, a slot and an epoch.
#[inline(always)]
fn put_with_slot<const N: usize>(
    cells: &mut [u8],
    at: usize,
    word: &[u8; N],
    slot: &Slot,
    epoch: u32,
) -> usize
    requires { at + (N + 27) ≤ length cells.old }
    ensures items { take result cells.new ≡ take at cells.old ++ (word.now ++ words (slot_text slot.now ∷ decimal epoch ∷ [])) }
    ensures end { result ≤ at + (N + 27) }
{
    let at = put_word(cells, at, word);
    let at = put_slot(cells, at, slot);
    let at = put(cells, at, b' ');
    put_number(cells, at, epoch)
}

#[tactic(auto, using(crate::proofs::Joined::words_of_body))]
fn put_sent(cells: &mut [u8], at: usize, number: u32, packet: &Packet) -> usize
    requires { at + 300 ≤ length cells.old }
    ensures items { take result cells.new ≡ take at cells.old ++ words (fact_words (Fact.Sent number packet.now)) }
    ensures end { result ≤ at + 300 }
{
    let at = put_sent_head(cells, at, number, packet);
    let at = put(cells, at, b' ');
    put_body(cells, at, &packet.body)
}

/// A packet's number, from whom it comes, and to whom it goes.
#[inline(always)]
fn put_sent_head(cells: &mut [u8], at: usize, number: u32, packet: &Packet) -> usize
    requires { at + 43 ≤ length cells.old }
    ensures items { take result cells.new ≡ take at cells.old ++ words (codes "sent" ∷ decimal number ∷ incarnation_text packet.now.from ∷ incarnation_text packet.now.to ∷ []) }
    ensures end { result ≤ at + 43 }
{
    let at = put_counted(cells, at, b"sent ", number);
    let at = put(cells, at, b' ');
    let at = put_incarnation(cells, at, &packet.from);
    let at = put(cells, at, b' ');
    put_incarnation(cells, at, &packet.to)
}

fn put_granted(cells: &mut [u8], at: usize, slot: &Slot, epoch: u32, x: &Incarnation) -> usize
    requires { at + 60 ≤ length cells.old }
    ensures items { take result cells.new ≡ take at cells.old ++ words (fact_words (Fact.Granted slot.now epoch x.now)) }
    ensures end { result ≤ at + 60 }
{
    let at = put_with_slot(cells, at, b"granted ", slot, epoch);
    let at = put(cells, at, b' ');
    put_incarnation(cells, at, x)
}

fn put_freed(cells: &mut [u8], at: usize, slot: &Slot, epoch: u32, cause: &Cause) -> usize
    requires { at + 60 ≤ length cells.old }
    ensures items { take result cells.new ≡ take at cells.old ++ words (fact_words (Fact.Freed slot.now epoch cause.now)) }
    ensures end { result ≤ at + 60 }
{
    let at = put_with_slot(cells, at, b"freed ", slot, epoch);
    let at = put(cells, at, b' ');
    put_cause(cells, at, cause)
}

fn put_held(cells: &mut [u8], at: usize, slot: &Slot, x: &Incarnation, node: NodeNo) -> usize
    requires { at + 60 ≤ length cells.old }
    ensures items { take result cells.new ≡ take at cells.old ++ words (fact_words (Fact.Held slot.now x.now node)) }
    ensures end { result ≤ at + 60 }
{
    let at = put_word(cells, at, b"held ");
    let at = put_slot(cells, at, slot);
    let at = put(cells, at, b' ');
    let at = put_incarnation(cells, at, x);
    put_counted(cells, at, b" by ", u32::from(node.get()))
}

fn put_allocated(cells: &mut [u8], at: usize, s: ShardNo, region: &Incarnation) -> usize
    requires { at + 40 ≤ length cells.old }
    ensures items { take result cells.new ≡ take at cells.old ++ words (fact_words (Fact.Allocated s region.now)) }
    ensures end { result ≤ at + 40 }
{
    let at = put_with_shard(cells, at, b"allocated ", s);
    let at = put(cells, at, b' ');
    put_incarnation(cells, at, region)
}

fn put_home(cells: &mut [u8], at: usize, x: &Incarnation, s: ShardNo, home: &Incarnation) -> usize
    requires { at + 50 ≤ length cells.old }
    ensures items { take result cells.new ≡ take at cells.old ++ words (fact_words (Fact.Home x.now s home.now)) }
    ensures end { result ≤ at + 50 }
{
    let at = put_numbered(cells, at, b"home ", x, u32::from(s.get()));
    let at = put(cells, at, b' ');
    put_incarnation(cells, at, home)
}

fn put_active(
    cells: &mut [u8],
    at: usize,
    who: &Incarnation,
    entity: &EntityName,
    records: u32,
    state: &State,
) -> usize
    requires { at + 430 ≤ length cells.old }
    ensures items { take result cells.new ≡ take at cells.old ++ words (fact_words (Fact.Active who.now entity.now records state.now)) }
    ensures end { result ≤ at + 430 }
{
    let at = put_with_entity(cells, at, b"active ", who, entity);
    let at = put(cells, at, b' ');
    let at = put_number(cells, at, records);
    let at = put(cells, at, b' ');
    put_state(cells, at, state)
}

fn put_armed(cells: &mut [u8], at: usize, entity: &EntityName, keep: &Keep) -> usize
    requires { at + 50 ≤ length cells.old }
    ensures items { take result cells.new ≡ take at cells.old ++ words (fact_words (Fact.Armed entity.now keep.now)) }
    ensures end { result ≤ at + 50 }
{
    let at = put_with_name(cells, at, b"armed ", entity);
    let at = put(cells, at, b' ');
    put_keep(cells, at, keep)
}

fn put_wrote(cells: &mut [u8], at: usize, entity: &EntityName, written: &Record) -> usize
    requires { at + 300 ≤ length cells.old }
    ensures items { take result cells.new ≡ take at cells.old ++ words (fact_words (Fact.Wrote entity.now written.now)) }
    ensures end { result ≤ at + 300 }
{
    let at = put_with_name(cells, at, b"wrote ", entity);
    let at = put(cells, at, b' ');
    put_record(cells, at, written)
}

fn put_snapshot(cells: &mut [u8], at: usize, entity: &EntityName, records: u32) -> usize
    requires { at + 52 ≤ length cells.old }
    ensures items { take result cells.new ≡ take at cells.old ++ words (fact_words (Fact.Snapshot entity.now records)) }
    ensures end { result ≤ at + 52 }
{
    let at = put_with_name(cells, at, b"snapshot ", entity);
    let at = put(cells, at, b' ');
    put_number(cells, at, records)
}

fn put_waits(
    cells: &mut [u8],
    at: usize,
    p: ProducerNo,
    entity: &EntityName,
    command: &Command,
) -> usize
    requires { at + 72 ≤ length cells.old }
    ensures items { take result cells.new ≡ take at cells.old ++ words (fact_words (Fact.Waits p entity.now command.now)) }
    ensures end { result ≤ at + 72 }
{
    let at = put_word(cells, at, b"waits ");
    let at = put_ends(cells, at, p, entity);
    let at = put(cells, at, b' ');
    put_command(cells, at, command)
}

fn put_queued(
    cells: &mut [u8],
    at: usize,
    p: ProducerNo,
    entity: &EntityName,
    number: u32,
    command: &Command,
) -> usize
    requires { at + 84 ≤ length cells.old }
    ensures items { take result cells.new ≡ take at cells.old ++ words (fact_words (Fact.Queued p entity.now number command.now)) }
    ensures end { result ≤ at + 84 }
{
    let at = put_with_pair(cells, at, b"queued ", p, entity, number);
    let at = put(cells, at, b' ');
    put_command(cells, at, command)
}

/// The line of a record that was written.
pub(crate) fn put_wrote_line(
    cells: &mut [u8],
    at: usize,
    entity: &EntityName,
    written: &Record,
) -> usize
    requires { at + 301 ≤ length cells.old }
    ensures items { take result cells.new ≡ take at cells.old ++ fact_line (Fact.Wrote entity.now written.now) }
    ensures end { result ≤ at + 301 }
{
    let at = put_wrote(cells, at, entity, written);
    put_end(cells, at)
}

/// The line of a command that was queued.
pub(crate) fn put_queued_line(
    cells: &mut [u8],
    at: usize,
    p: ProducerNo,
    entity: &EntityName,
    number: u32,
    command: &Command,
) -> usize
    requires { at + 85 ≤ length cells.old }
    ensures items { take result cells.new ≡ take at cells.old ++ fact_line (Fact.Queued p entity.now number command.now) }
    ensures end { result ≤ at + 85 }
{
    let at = put_queued(cells, at, p, entity, number, command);
    put_end(cells, at)
}

/// The line of a number that was confirmed.
pub(crate) fn put_confirmed_line(
    cells: &mut [u8],
    at: usize,
    p: ProducerNo,
    entity: &EntityName,
    number: u32,
) -> usize
    requires { at + 57 ≤ length cells.old }
    ensures items { take result cells.new ≡ take at cells.old ++ fact_line (Fact.Confirmed p entity.now number) }
    ensures end { result ≤ at + 57 }
{
    let at = put_with_pair(cells, at, b"confirmed ", p, entity, number);
    put_end(cells, at)
}

fn put_reshard(cells: &mut [u8], at: usize, shards: u8, epoch: u32) -> usize
    requires { at + 29 ≤ length cells.old }
    ensures items { take result cells.new ≡ take at cells.old ++ words (fact_words (Fact.Reshard shards epoch)) }
    ensures end { result ≤ at + 29 }
{
    let at = put_counted(cells, at, b"reshard ", u32::from(shards));
    let at = put(cells, at, b' ');
    put_number(cells, at, epoch)
}

fn put_sent_ask(cells: &mut [u8], at: usize, number: u32, x: &Incarnation) -> usize
    requires { at + 33 ≤ length cells.old }
    ensures items { take result cells.new ≡ take at cells.old ++ words (fact_words (Fact.SentAsk number x.now)) }
    ensures end { result ≤ at + 33 }
{
    let at = put_counted(cells, at, b"sent ", number);
    put_with_incarnation(cells, at, b" ask ", x)
}

/// A packet of a worker's, a word between spaces, to or from whom, and the job.
fn put_sent_job<const N: usize>(
    cells: &mut [u8],
    at: usize,
    number: u32,
    word: &[u8; N],
    x: &Incarnation,
    entity: &EntityName,
) -> usize
    requires { at + (N + 61) ≤ length cells.old }
    ensures items { take result cells.new ≡ take at cells.old ++ (words (codes "sent" ∷ decimal number ∷ []) ++ (word.now ++ words (incarnation_text x.now ∷ entity.now ∷ []))) }
    ensures end { result ≤ at + (N + 61) }
{
    let at = put_counted(cells, at, b"sent ", number);
    put_with_entity(cells, at, word, x, entity)
}

fn put_given(cells: &mut [u8], at: usize, entity: &EntityName, x: &Incarnation) -> usize
    requires { at + 52 ≤ length cells.old }
    ensures items { take result cells.new ≡ take at cells.old ++ words (fact_words (Fact.Given entity.now x.now)) }
    ensures end { result ≤ at + 52 }
{
    let at = put_with_name(cells, at, b"given ", entity);
    let at = put(cells, at, b' ');
    put_incarnation(cells, at, x)
}
