//! A shard that the node hosts, and what is written to its store.
ghost use Rattle.std.specs.Prelude.{◌≡◌, ℕ, ◌<◌, length, true, false, Some, None, OnOk, ◌≤◌, IsTrue, Option};
ghost use Rattle.std.specs.Option.{option_map};
ghost use Rattle.yard_model.specs.declared.fact.Fact.TheVariants as fact;
ghost use Rattle.yard_model.specs.Behaviour.{folded};
ghost use Rattle.yard_model.specs.Lawful.{is_held, is_of_shard};
ghost use Rattle.yard_model.specs.SlotReads.{journal, last_snapshot, is_remembered};
ghost use Rattle.shard_store.specs.Shelf.{may, with_entry};
ghost use Rattle.shard_store.specs.Shelved.{IsThere};
ghost use Rattle.shard_entities.specs.Lodged.{room_of};
ghost use Rattle.shard_entities.specs.Roomy.{IsReserved};
ghost use Rattle.shard_entities.specs.Written.{WithStore, entered, ended};

use crate::place::Place;
use shard_store::ShardStore;
use std::alloc::AllocError;
use yard_model::{EntityName, Incarnation, Record, Stamp, State};

/// How a shard stops.
#[derive(Clone, Copy, Debug, PartialEq, Eq)]
pub(crate) struct Ending {
    /// The stamp of the order to let it go.
    pub stamp: Stamp,
    /// To whom it is told that the shard has stopped.
    pub to: Incarnation,
}

/// A hosted shard: it is running, or it stops.
#[derive(Drop)]
pub(crate) struct Hosting {
    /// Its store.
    pub store: ShardStore,
    /// How it stops; None while it is running.
    pub stopping: Option<Ending>,
}

/// A hosted shard stops from now on.
pub(crate) fn set_ending(hosting: &mut Option<Hosting>, ending: &Ending)
    ensures { hosting.new ≡ option_map (ended ending.now) hosting.old }
{
    match hosting {
        Some(hosting) => hosting.stopping = Some(*ending),
        None => {}
    }
}

/// A record is written to the store of a hosted shard; how many entries more take no memory then.
#[inline(always)]
pub(crate) fn write_record(hosting: &mut Option<Hosting>, place: &Place, entry: &Record) -> u32
    requires place { WithStore hosting.old (λ s. IsThere s place.now.inner place.now.entity) }
    requires spare { WithStore hosting.old (λ s. 0 < s.spare) }
    requires next { WithStore hosting.old (λ s. IsTrue (may s (fact.Wrote place.now.entity entry.now))) }
    ensures entry { hosting.new ≡ option_map (entered (fact.Wrote place.now.entity entry.now)) hosting.old }
    ensures room { result ≡ room_of hosting.new }
{
    match hosting {
        Some(hosting) => {
            hosting.store.wrote_at(place.inner, &place.entity, entry);
            hosting.store.spare()
        }
        None => unreachable!(),
    }
}

/// A snapshot of all records of an entity, which are so many, is written to the store of a hosted
/// shard.
pub(crate) fn write_snapshot(
    hosting: &mut Option<Hosting>,
    place: &Place,
    number: u32,
    state: &State,
)
    requires place { WithStore hosting.old (λ s. IsThere s place.now.inner place.now.entity) }
    requires spare { WithStore hosting.old (λ s. 0 < s.spare) }
    requires leased { WithStore hosting.old (λ s. is_held s.entries ≡ true) }
    requires name { WithStore hosting.old (λ s. IsTrue (is_of_shard s.script s.shard place.now.entity)) }
    requires number { WithStore hosting.old (λ s. number ≡ length (journal place.now.entity s.entries)) }
    requires newer { WithStore hosting.old (λ s. last_snapshot place.now.entity s.entries < number) }
    requires state { WithStore hosting.old (λ s. state.now ≡ folded s.script.config.kind (journal place.now.entity s.entries)) }
    ensures { hosting.new ≡ option_map (entered (fact.Snapshot place.now.entity number)) hosting.old }
{
    let _number = number;
    match hosting {
        Some(hosting) => hosting.store.snapshot_at(place.inner, &place.entity, state),
        None => unreachable!(),
    }
}

/// It is written to the store of a hosted shard that an entity is remembered, which wasn't.
pub(crate) fn write_remembered(hosting: &mut Option<Hosting>, place: &Place)
    requires place { WithStore hosting.old (λ s. IsThere s place.now.inner place.now.entity) }
    requires spare { WithStore hosting.old (λ s. 0 < s.spare) }
    requires leased { WithStore hosting.old (λ s. is_held s.entries ≡ true) }
    requires name { WithStore hosting.old (λ s. IsTrue (is_of_shard s.script s.shard place.now.entity)) }
    requires new { WithStore hosting.old (λ s. is_remembered place.now.entity s.entries ≡ false) }
    ensures { hosting.new ≡ option_map (entered (fact.Remembered place.now.entity)) hosting.old }
{
    match hosting {
        Some(hosting) => hosting.store.remember_at(place.inner, &place.entity),
        None => unreachable!(),
    }
}

/// It is written to the store of a hosted shard that an entity isn't remembered any more; it was.
pub(crate) fn write_forgotten(hosting: &mut Option<Hosting>, place: &Place)
    requires place { WithStore hosting.old (λ s. IsThere s place.now.inner place.now.entity) }
    requires spare { WithStore hosting.old (λ s. 0 < s.spare) }
    requires leased { WithStore hosting.old (λ s. is_held s.entries ≡ true) }
    requires name { WithStore hosting.old (λ s. IsTrue (is_of_shard s.script s.shard place.now.entity)) }
    requires known { WithStore hosting.old (λ s. is_remembered place.now.entity s.entries ≡ true) }
    ensures { hosting.new ≡ option_map (entered (fact.Forgotten place.now.entity)) hosting.old }
{
    match hosting {
        Some(hosting) => hosting.store.forget_at(place.inner, &place.entity),
        None => unreachable!(),
    }
}

/// Makes room for so many entries in the store of a shard, where it is hosted. The only error is want
/// of memory; then no entry is lost, and no room.
pub(crate) fn reserve_in(hosting: &mut Option<Hosting>, wanted: u32) -> Result<(), AllocError>
    ensures kept { IsReserved hosting.old hosting.new }
    ensures ok { OnOk result ((hosting.old ≡ None → ⊥) → wanted ≤ room_of hosting.new) }
{
    match hosting {
        Some(hosting) => hosting.store.reserve(wanted),
        None => Ok(()),
    }
}
