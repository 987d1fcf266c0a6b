//! A shard's place in a round.
ghost use Rattle.std.specs.Prelude.{◌≡◌, ◌<◌, ◌≤◌, true, length, option_map};
ghost use Rattle.yard_model.specs.ShardSet.{has};
ghost use Rattle.handoff_steps.specs.Seen.{owner_at};
ghost use Rattle.handoff_steps.specs.Places.{is_open, is_awaiting, is_stopping, is_owned, awaited_in, acknowledged_by, ended, next_step, home_in, regions_of, first_place};

use crate::regions::{NO_REGION, Regions};
use crate::step::Step;
use crate::waits::{awaited_of, is_awaited, is_none_awaited, without};
use yard_model::{Incarnation, Load, ShardNo, ShardSet};

/// What stands at a shard's place.
#[derive(Clone, Copy)]
pub(crate) enum Cell {
    /// It isn't in the round.
    Out,
    /// It moves.
    Moves {
        /// Its home when the round began, by its place among the round's regions.
        owner: u8,
        /// A bit for each region, one where it is awaited.
        awaited: u16,
    },
    /// It is done.
    Done {
        /// Its home when the round began, by its place among the round's regions.
        owner: u8,
    },
}

const _: () = prove!(size_of::<Cell>() == 4);

impl Cell {
    ghost use Rattle.handoff_steps.specs.Seen.{seen};

    /// The place of a shard as the round begins, all regions awaited.
    pub(crate) fn first(s: ShardNo, picks: ShardSet, loads: &[Load]) -> Cell
        requires { length loads.now ≤ 16 }
        ensures { seen (regions_of loads.now) result ≡ first_place picks loads.now s }
    {
        if !picks.has(s) {
            return Cell::Out;
        }
        match home_of(loads, s) {
            Some(owner) => Cell::Moves {
                owner,
                awaited: 65535,
            },
            None => Cell::Out,
        }
    }

    /// Whether it moves.
    pub(crate) fn is_open(&self, regions: &[Incarnation]) -> bool
        ensures { result ≡ is_open (seen regions.now self.now) }
    {
        match self {
            Cell::Moves { .. } => true,
            _ => false,
        }
    }

    /// Whether it moves and this region is awaited.
    pub(crate) fn is_awaiting(&self, regions: &[Incarnation], who: &Incarnation) -> bool
        requires { length regions.now ≤ 16 }
        ensures { result ≡ is_awaiting who.now (seen regions.now self.now) }
    {
        match self {
            Cell::Moves { awaited, .. } => is_awaited(regions, *awaited, who),
            _ => false,
        }
    }

    /// Whether it moves, nobody is awaited and this region is its owner.
    pub(crate) fn is_stopping(&self, regions: &[Incarnation], who: &Incarnation) -> bool
        requires { length regions.now ≤ 16 }
        ensures { result ≡ is_stopping who.now (seen regions.now self.now) }
    {
        match self {
            Cell::Moves { owner, awaited } => is_none_awaited(regions, *awaited)
                && *who == owner_at(regions, *owner),
            _ => false,
        }
    }

    /// The owner, where the shard is in the round.
    pub(crate) fn owner(&self, regions: &[Incarnation]) -> Option<Incarnation>
        ensures { result ≡ option_map (λ h. h.owner) (seen regions.now self.now) }
    {
        match self {
            Cell::Out => None,
            Cell::Moves { owner, .. } => Some(owner_at(regions, *owner)),
            Cell::Done { owner } => Some(owner_at(regions, *owner)),
        }
    }

    /// The regions that are awaited, in order of registration.
    pub(crate) fn awaited(&self, regions: &[Incarnation]) -> Regions
        requires { length regions.now ≤ 16 }
        ensures { result ≡ awaited_in (seen regions.now self.now) }
    {
        match self {
            Cell::Moves { awaited, .. } => awaited_of(regions, *awaited),
            _ => Regions::empty(),
        }
    }

    /// The place once this region isn't awaited any more.
    pub(crate) fn acknowledged_by(&self, regions: &[Incarnation], who: &Incarnation) -> Cell
        requires { length regions.now ≤ 16 }
        ensures { seen regions.now result ≡ acknowledged_by who.now (seen regions.now self.now) }
    {
        match self {
            Cell::Moves { owner, awaited } => Cell::Moves {
                owner: *owner,
                awaited: without(regions, *awaited, who),
            },
            _ => *self,
        }
    }

    /// The place once the shard is done.
    pub(crate) fn ended(&self, regions: &[Incarnation]) -> Cell
        ensures { seen regions.now result ≡ ended (seen regions.now self.now) }
    {
        match self {
            Cell::Moves { owner, .. } => Cell::Done { owner: *owner },
            _ => *self,
        }
    }

    /// What comes next.
    pub(crate) fn next_step(&self, regions: &[Incarnation]) -> Step
        requires fits { length regions.now ≤ 16 }
        requires open { is_open (seen regions.now self.now) ≡ true }
        ensures { result ≡ next_step (seen regions.now self.now) }
    {
        match self {
            Cell::Moves { owner, awaited } => {
                if is_none_awaited(regions, *awaited) {
                    Step::HandOff(owner_at(regions, *owner))
                } else {
                    Step::Wait
                }
            }
            _ => Step::Wait,
        }
    }

    /// Whether this region is the shard's owner.
    pub(crate) fn is_owned(&self, regions: &[Incarnation], who: &Incarnation) -> bool
        ensures { result ≡ is_owned who.now (seen regions.now self.now) }
    {
        match self {
            Cell::Out => false,
            Cell::Moves { owner, .. } => *who == owner_at(regions, *owner),
            Cell::Done { owner } => *who == owner_at(regions, *owner),
        }
    }
}

/// The region at this place; a fixed one where there is none.
fn owner_at(regions: &[Incarnation], place: u8) -> Incarnation
    ensures { result ≡ owner_at regions.now place }
{
    match regions.get(place as usize) {
        Some(region) => *region,
        None => NO_REGION,
    }
}

/// The place of the first load that has the shard.
fn home_of(loads: &[Load], s: ShardNo) -> Option<u8>
    requires { length loads.now ≤ 16 }
    ensures { option_map (owner_at (regions_of loads.now)) result ≡ home_in loads.now s }
{
    for place in 0..loads.len() {
        if loads[place].shards.has(s) {
            return Some(place as u8);
        }
    }
    None
}
