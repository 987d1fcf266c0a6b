//! The queues in the report.
ghost use Rattle.std.specs.Prelude.{◌≡◌, ℕ, ◌+◌, ◌<◌, ◌≤◌, ◌^◌, ◌++◌, ◌∷◌, [], List, OnOk, IfOk, codes, decimal, length, map, slice_index_or, take};
ghost use Rattle.std.specs.List.{flat_map};
ghost use Rattle.std.specs.List.Sorted.{IsStrictlySortedBy};
ghost use Rattle.std.specs.Ordering.{nat_cmp};
ghost use Rattle.std.specs.Cmp.Lexicographic.{slice_cmp};
ghost use Rattle.yard_model.specs.declared.fact.Fact.{Fact};
ghost use Rattle.yard_model.specs.Entry.{queue_fact};
ghost use Rattle.yard_model.specs.Script.{setting};
ghost use Rattle.yard_model.specs.SlotLists.{queue_list};
ghost use Rattle.yard_model.specs.Setting.{producers};
ghost use Rattle.yard_model.specs.Text.{line, words};
ghost use Rattle.trace_text.specs.Places.{tallies_of};
ghost use Rattle.trace_text.specs.Rows.{rows, queue_rows, tally_text};

use crate::number::{put_small, put_wide};
use crate::report_rows::ReportRows;
use crate::room::{put, put_word};
use crate::sheet::make_room;
use crate::values::{put_counted, put_name};
use name_index::NameIndex;
use std::alloc::{AllocError, Global};
use yard_model::{Charter, EntityName, Lists, ProducerNo, QueueEntry};

/// What a queue has of one name.
#[derive(Clone, Copy, Debug, PartialEq, Eq)]
pub(crate) struct Tally {
    /// How many commands are queued.
    pub queued: u64,
    /// The last confirmed number.
    pub confirmed: u32,
}

impl Tally {
    const NONE: Tally = Tally {
        queued: 0,
        confirmed: 0,
    };
}

/// The pairs of all queues, by producer and name.
pub(crate) fn push_queues<R: ReportRows, T: Lists>(
    out: &mut R,
    alloc: Global,
    charter: &Charter,
    stores: &T,
) -> Result<(), AllocError>
    ensures { OnOk result (R.parts out.new ≡ R.parts out.old ++ flat_map (λ p. queue_rows R.pair_parts p (queue_list (T.lists stores.now) p) (setting charter.now).names) (producers (setting charter.now))) }
{
    let names = NameIndex::new(charter)?;
    push_each_queue(out, alloc, charter, &names, stores)
}

/// The pairs of all queues, of these names.
fn push_each_queue<R: ReportRows, T: Lists>(
    out: &mut R,
    alloc: Global,
    charter: &Charter,
    names: &NameIndex,
    stores: &T,
) -> Result<(), AllocError>
    ensures { OnOk result (R.parts out.new ≡ R.parts out.old ++ flat_map (λ p. queue_rows R.pair_parts p (queue_list (T.lists stores.now) p) names.now) (producers (setting charter.now))) }
{
    for i in 0..charter.config().producers {
        push_queue(out, alloc, names, stores, i + 1)?;
    }
    Ok(())
}

/// The pairs of the queue of this number.
pub(crate) fn push_queue<R: ReportRows, T: Lists>(
    out: &mut R,
    alloc: Global,
    names: &NameIndex,
    stores: &T,
    i: u8,
) -> Result<(), AllocError>
    requires low { 0 < i }
    requires high { i < 33 }
    ensures { OnOk result (R.parts out.new ≡ R.parts out.old ++ queue_rows R.pair_parts i (queue_list (T.lists stores.now) i) names.now) }
{
    match ProducerNo::new(i) {
        Some(p) => push_queue_list(out, alloc, names, p, stores.queue(p)),
        None => unreachable!(),
    }
}

fn push_queue_list<R: ReportRows>(
    out: &mut R,
    alloc: Global,
    names: &NameIndex,
    p: ProducerNo,
    list: &[QueueEntry],
) -> Result<(), AllocError>
    ensures { OnOk result (R.parts out.new ≡ R.parts out.old ++ queue_rows R.pair_parts p (map (queue_fact p) list.now) names.now) }
{
    let tallies = tallies_of_list(alloc, names, list)?;
    push_tallies(out, p, names.as_slice(), tallies.as_slice())
}

/// Each name with its counts, which stand at the places of the names.
fn push_tallies<R: ReportRows>(
    out: &mut R,
    p: ProducerNo,
    names: &[EntityName],
    tallies: &[Tally],
) -> Result<(), AllocError>
    requires { length tallies.now ≡ length names.now }
    ensures { OnOk result (R.parts out.new ≡ R.parts out.old ++ rows (R.pair_parts p) names.now tallies.now) }
{
    for i in 0..names.len() {
        out.push_pair(p, &names[i], &tallies[i])?;
    }
    Ok(())
}

/// The line of a pair behind these cells, where a command is queued; where it ends.
pub(crate) fn put_tally(
    cells: &mut Vec<u8>,
    at: usize,
    p: ProducerNo,
    name: &EntityName,
    tally: &Tally,
) -> Result<usize, AllocError>
    requires { at ≤ length cells.old.items }
    ensures items { IfOk result (λ end. take end cells.new.items ≡ take at cells.old.items ++ tally_text p name.now tally.now) }
    ensures end { IfOk result (λ end. end ≤ length cells.new.items) }
    ensures length { length cells.old.items ≤ length cells.new.items }
{
    if tally.queued == 0 {
        return Ok(at);
    }
    make_room(cells, at)?;
    Ok(put_pair_line(cells.as_mut_slice(), at, p, name, tally))
}

pub(crate) fn put_pair_line(
    cells: &mut [u8],
    at: usize,
    p: ProducerNo,
    name: &EntityName,
    tally: &Tally,
) -> usize
    requires { at + 110 ≤ length cells.old }
    ensures items { take result cells.new ≡ take at cells.old ++ line (codes "queue" ∷ decimal p ∷ name.now ∷ codes "queued" ∷ decimal tally.now.queued ∷ codes "confirmed" ∷ decimal tally.now.confirmed ∷ []) }
    ensures end { result ≤ at + 110 }
{
    let at = put_pair_of_queue(cells, at, p, name);
    let at = put_word(cells, at, b" queued ");
    let at = put_wide(cells, at, tally.queued);
    let at = put_counted(cells, at, b" confirmed ", tally.confirmed);
    put(cells, at, b'\n')
}

fn put_pair_of_queue(cells: &mut [u8], at: usize, p: ProducerNo, name: &EntityName) -> usize
    requires { at + 41 ≤ length cells.old }
    ensures items { take result cells.new ≡ take at cells.old ++ words (codes "queue" ∷ decimal p ∷ name.now ∷ []) }
    ensures end { result ≤ at + 41 }
{
    let at = put_word(cells, at, b"queue ");
    let at = put_small(cells, at, u32::from(p.get()));
    let at = put(cells, at, b' ');
    put_name(cells, at, name)
}

/// The counts of these names, each at the place of its name.
fn tallies_of_list(
    alloc: Global,
    names: &NameIndex,
    list: &[QueueEntry],
) -> Result<Vec<Tally>, AllocError>
    ensures { IfOk result (λ all. (p : ℕ) → all.items ≡ tallies_of names.now (map (queue_fact p) list.now)) }
{
    let mut tallies = no_tallies(alloc, names.as_slice())?;
    for entry in list {
        count_entry(&mut tallies, names, entry);
    }
    Ok(tallies)
}

/// Of each name no command, and nothing confirmed.
fn no_tallies(alloc: Global, names: &[EntityName]) -> Result<Vec<Tally>, AllocError>
    ensures { IfOk result (λ all. all.items ≡ tallies_of names.now []) }
{
    let mut tallies = Vec::with_capacity(alloc, names.len())?;
    for _ in names {
        tallies.push(Tally::NONE)?;
    }
    Ok(tallies)
}

/// One entry more, where its name is among them.
fn count_entry(tallies: &mut Vec<Tally>, names: &NameIndex, entry: &QueueEntry)
    requires sorted { IsStrictlySortedBy (slice_cmp nat_cmp) names.now }
    requires length { length tallies.old.items ≡ length names.now }
    requires room { (k : ℕ) (d : Tally) → k < length names.now → (slice_index_or tallies.old.items k d).queued + 1 < 2 ^ 64 }
    ensures length { length tallies.new.items ≡ length names.now }
    ensures tallies { (p : ℕ) (list : List Fact) → tallies.old.items ≡ tallies_of names.now list → tallies.new.items ≡ tallies_of names.now (list ++ queue_fact p entry.now ∷ []) }
{
    match entry {
        QueueEntry::Queued(name, _, _) => {
            if let Some(place) = names.find(name) {
                tallies[place].queued += 1;
            }
        }
        QueueEntry::Confirmed(name, number) => {
            if let Some(place) = names.find(name) {
                tallies[place].confirmed = *number;
            }
        }
        _ => {}
    }
}
