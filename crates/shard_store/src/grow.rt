//! What is at hand of each name of a shard, for a script that goes on: it is moved where it stands.
ghost use Rattle.std.specs.Prelude.{◌≡◌, ◌<◌, ◌≤◌, [], length, true, IfOk, OnOk};
ghost use Rattle.std.specs.List.{list_all};
ghost use Rattle.std.specs.List.Sorted.{IsStrictlySortedBy};
ghost use Rattle.std.specs.Ordering.{nat_cmp};
ghost use Rattle.std.specs.Cmp.Lexicographic.{slice_cmp};
ghost use Rattle.yard_model.specs.Genuine.{is_brought};
ghost use Rattle.shard_store.specs.Grown.{AreAmong, AreGrown, AreOf, AreRoomy, Grows, HasRoom, had_next, kinds_next, stands, with_none};
ghost use Rattle.shard_store.specs.Shelved.{no_journal};

use crate::name_table::NameTable;
use entity_journal::Journal;
use entity_snapshot::Snapshots;
use remember_store::Remembered;
use std::alloc::{AllocError, Global};
use yard_model::EntityName;
use yard_model::laws::name_law;

/// What is kept of each name of a shard, at its place.
#[derive(Drop)]
pub(crate) struct Held {
    pub journals: Vec<Journal>,
    pub snapshots: Vec<Snapshots>,
    pub remembered: Remembered,
}

/// The same of these names, among which the old ones are, with room in each journal for all that is sent to its
/// name. The only error is want of memory.
pub(crate) fn grown(
    old: &[EntityName],
    names: &[EntityName],
    held: Held,
    keep: u8,
    table: &NameTable,
) -> Result<Held, AllocError>
    requires sorted { IsStrictlySortedBy (slice_cmp nat_cmp) old.now × IsStrictlySortedBy (slice_cmp nat_cmp) names.now }
    requires among { AreAmong old.now names.now }
    requires few { length names.now ≤ 1000 }
    requires keep { 0 < keep }
    requires long { AreOf old.now (record { journals = held.journals.items; snapshots = held.snapshots.items; marks = held.remembered }) }
    requires names { list_all (is_brought table.now) names.now ≡ true }
    ensures { IfOk result (λ h. AreGrown table.now old.now names.now (record { journals = held.journals.items; snapshots = held.snapshots.items; marks = held.remembered }) (record { journals = h.journals.items; snapshots = h.snapshots.items; marks = h.remembered })) }
{
    let mut held = held;
    match grow_both(old, names, &mut held, keep, table) {
        Ok(()) => Ok(held),
        Err(error) => {
            drop(held);
            Err(error)
        }
    }
}

/// The same, where it stands.
fn grow_both(
    old: &[EntityName],
    names: &[EntityName],
    held: &mut Held,
    keep: u8,
    table: &NameTable,
) -> Result<(), AllocError>
    requires sorted { IsStrictlySortedBy (slice_cmp nat_cmp) old.now × IsStrictlySortedBy (slice_cmp nat_cmp) names.now }
    requires among { AreAmong old.now names.now }
    requires few { length names.now ≤ 1000 }
    requires keep { 0 < keep }
    requires long { AreOf old.now (record { journals = held.old.journals.items; snapshots = held.old.snapshots.items; marks = held.old.remembered }) }
    requires names { list_all (is_brought table.now) names.now ≡ true }
    ensures { OnOk result (AreGrown table.now old.now names.now (record { journals = held.old.journals.items; snapshots = held.old.snapshots.items; marks = held.old.remembered }) (record { journals = held.new.journals.items; snapshots = held.new.snapshots.items; marks = held.new.remembered })) }
{
    grow_held(old, names, held, keep)?;
    make_rooms(&mut held.journals, names, table)
}

/// What is kept of the old names is kept of these, among which they are; nothing is of each that is new. Only
/// from a new name on something moves. The only error is want of memory.
fn grow_held(
    old: &[EntityName],
    names: &[EntityName],
    held: &mut Held,
    keep: u8,
) -> Result<(), AllocError>
    requires sorted { IsStrictlySortedBy (slice_cmp nat_cmp) old.now × IsStrictlySortedBy (slice_cmp nat_cmp) names.now }
    requires among { AreAmong old.now names.now }
    requires few { length names.now ≤ 1000 }
    requires keep { 0 < keep }
    requires long { AreOf old.now (record { journals = held.old.journals.items; snapshots = held.old.snapshots.items; marks = held.old.remembered }) }
    ensures long { OnOk result (AreOf names.now (record { journals = held.new.journals.items; snapshots = held.new.snapshots.items; marks = held.new.remembered })) }
    ensures grows { OnOk result (Grows old.now names.now (record { journals = held.old.journals.items; snapshots = held.old.snapshots.items; marks = held.old.remembered }) (record { journals = held.new.journals.items; snapshots = held.new.snapshots.items; marks = held.new.remembered })) }
{
    let mut had = 0;
    for at in 0..names.len() {
        had = next_held(old, &names[at], had, at, held, keep)?;
    }
    Ok(())
}

/// The next name has its place: where it is the next of the old ones, it has it, and else nothing is kept of
/// it. How many of the old ones have theirs.
fn next_held(
    old: &[EntityName],
    name: &EntityName,
    had: usize,
    at: usize,
    held: &mut Held,
    keep: u8,
) -> Result<usize, AllocError>
    requires keep { 0 < keep }
    requires few { at < 1000 }
    requires journals { at ≤ length held.old.journals.items }
    requires snapshots { at ≤ length held.old.snapshots.items }
    requires marks { at ≤ length held.old.remembered }
    ensures had { IfOk result (λ n. n ≡ had_next (stands old.now had name.now) had) }
    ensures held { OnOk result ((record { journals = held.new.journals.items; snapshots = held.new.snapshots.items; marks = held.new.remembered }) ≡ kinds_next (stands old.now had name.now) keep at (record { journals = held.old.journals.items; snapshots = held.old.snapshots.items; marks = held.old.remembered })) }
{
    if stands_at(old, had, name) {
        return Ok(had + 1);
    }
    add_name(held, at, keep)?;
    Ok(had)
}

/// Whether a name stands at this place.
fn stands_at(names: &[EntityName], place: usize, name: &EntityName) -> bool
    ensures it { result ≡ stands names.now place name.now }
    ensures within { result ≡ true → place < length names.now }
{
    name_law();
    match names.get(place) {
        Some(other) => *other == *name,
        None => false,
    }
}

/// A place more, before those from `at` on, of whose name nothing is kept. The only error is want of memory.
fn add_name(held: &mut Held, at: usize, keep: u8) -> Result<(), AllocError>
    requires keep { 0 < keep }
    requires few { at < 1000 }
    requires journals { at ≤ length held.old.journals.items }
    requires snapshots { at ≤ length held.old.snapshots.items }
    requires marks { at ≤ length held.old.remembered }
    ensures { OnOk result ((record { journals = held.new.journals.items; snapshots = held.new.snapshots.items; marks = held.new.remembered }) ≡ with_none keep at (record { journals = held.old.journals.items; snapshots = held.old.snapshots.items; marks = held.old.remembered })) }
{
    let alloc = *held.journals.allocator();
    held.journals.insert(at, empty_journal(alloc))?;
    held.snapshots.insert(at, empty_snapshots(alloc, keep)?)?;
    held.remembered.insert(at as u16)
}

/// No records.
fn empty_journal(alloc: Global) -> Journal
    ensures { result ≡ no_journal }
{
    Journal::new(alloc)
}

/// No snapshots, of which the last `keep` will stay. The only error is want of memory.
fn empty_snapshots(alloc: Global, keep: u8) -> Result<Snapshots, AllocError>
    requires { 0 < keep }
    ensures { IfOk result (λ s. s ≡ record { snapshots = []; keep = keep }) }
{
    Snapshots::new(alloc, keep)
}

/// Each journal has room for all that is sent to its name. The only error is want of memory.
fn make_rooms(
    journals: &mut Vec<Journal>,
    names: &[EntityName],
    table: &NameTable,
) -> Result<(), AllocError>
    requires names { list_all (is_brought table.now) names.now ≡ true }
    requires long { length journals.old.items ≡ length names.now }
    ensures { OnOk result (AreRoomy table.now names.now journals.old.items journals.new.items (length names.now)) }
{
    for at in 0..names.len() {
        make_room(&mut journals[at], table.sends_to(&names[at]))?;
    }
    Ok(())
}

/// A journal has room for so many records in all. The only error is want of memory.
fn make_room(journal: &mut Journal, most: u32) -> Result<(), AllocError>
    ensures { OnOk result (HasRoom most journal.old journal.new) }
{
    journal.reserve(most.saturating_sub(journal.len()))
}
