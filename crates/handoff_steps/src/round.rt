//! The round.
ghost use Rattle.std.specs.Prelude.{◌≡◌, ℕ, ◌<◌, ◌≤◌, [], true, false, not, ◌==◌, ◌&&◌, nat_lt, nat_le, length, take, map, filter, option_map, if◌then◌else◌};
ghost use Rattle.std.specs.List.{list_any, list_all, flat_map};
ghost use Rattle.yard_model.specs.ShardSet.{has};
ghost use Rattle.yard_model.specs.Words.{is_among, is_empty};
ghost use Rattle.yard_model.specs.Coordinator.{not_awaited};
ghost use Rattle.handoff_steps.specs.declared.step.Step.TheVariants as step;
ghost use Rattle.handoff_steps.specs.Places.{moving, place_at, with_place, one_of, is_open, is_awaiting, awaited_in, lost_at, acknowledged_by, ended, next_step, place_without, step_without, takes_ack, takes_stop, moving_from, first_place, regions_of, all_shards, shards_in, begins};
ghost use Rattle.handoff_steps.specs.Seen.{seen};

use crate::cell::Cell;
use crate::regions::{NO_REGION, Regions};
use crate::step::Step;
use std::marker::Model;
use yard_model::{Incarnation, Load, ShardNo, ShardSet, Stamp};

/// A round of handoffs; seen as its stamp and, at each shard's place, the shard with its owner and
/// the regions that are awaited, where it is in the round.
#[derive(Drop)]
pub struct Round {
    stamp: Stamp,
    regions: [Incarnation; 16],
    count: u8,
    cells: [Cell; 128],
    // whether it is known that no shard moves
    done: bool,
}

impl Model for Round {
    ghost use Rattle.std.specs.Prelude.{◌≡◌, ◌≤◌, true, length, map, take};
    ghost use Rattle.yard_model.specs.Words.{is_empty};
    ghost use Rattle.handoff_steps.specs.Places.{Handoffs, moving_from};
    ghost use Rattle.handoff_steps.specs.Seen.{seen};

    ghost Value = { Handoffs };

    ghost view = { λ r. record { stamp = r.stamp; places = map (seen (take r.count r.regions)) r.cells } };

    ghost invariant = { λ r. (r.count ≤ 16) × (length r.regions ≡ 16) × (length r.cells ≡ 128) × (r.done ≡ true → is_empty (moving_from 0 (map (seen (take r.count r.regions)) r.cells)) ≡ true) };
}

impl Round {
    /// The round of no shards.
    pub fn none(stamp: Stamp) -> Round
        ensures stamp { result.stamp ≡ stamp }
        ensures moving { moving result ≡ [] }
    {
        Round {
            stamp,
            regions: [NO_REGION; 16],
            count: 0,
            cells: [Cell::Out; 128],
            done: true,
        }
    }

    /// Begins a round of these shards: each is to be handed off by its home, and every region of
    /// the loads is awaited.
    pub fn begin(stamp: Stamp, picks: ShardSet, loads: &[Load]) -> Round
        requires fits { length loads.now ≤ 16 }
        requires homes { (s : ℕ) → s < 128 → has picks s ≡ true → list_any (λ l. has l.shards s) loads.now ≡ true }
        ensures stamp { result.stamp ≡ stamp }
        ensures places { result.places ≡ map (first_place picks loads.now) all_shards }
        ensures moving { moving result ≡ map (begins loads.now) (shards_in picks) }
    {
        Round {
            stamp,
            regions: regions_of(loads),
            count: loads.len() as u8,
            cells: cells_of(picks, loads),
            done: false,
        }
    }

    /// The stamp of the round. At most 128 shards move, rising.
    pub fn stamp(&self) -> Stamp
        ensures value { result ≡ self.now.stamp }
        ensures few { length (moving self.now) ≤ 128 }
        ensures below { list_all (λ x. nat_lt x.shard 128) (moving self.now) ≡ true }
        ensures rising { moving self.now ≡ flat_map (λ s. filter (λ x. x.shard == s) (moving self.now)) all_shards }
    {
        self.stamp
    }

    /// Whether the shard is in the round and not done.
    pub fn is_moving(&self, s: ShardNo) -> bool
        ensures place { result ≡ is_open (place_at self.now s) }
        ensures moving { result ≡ list_any (λ x. x.shard == s) (moving self.now) }
        ensures shard { filter (λ x. x.shard == s) (moving self.now) ≡ one_of s (place_at self.now s) }
        ensures all { length self.now.places ≡ 128 }
    {
        self.cells[s.get() as usize].is_open(&self.regions[..self.count as usize])
    }

    /// Whether the shard is in the round and not done, and this region is awaited.
    pub fn awaits(&self, s: ShardNo, who: Incarnation) -> bool
        ensures place { result ≡ is_awaiting who (place_at self.now s) }
        ensures moving { result ≡ list_any (λ x. x.shard == s && is_among who x.awaited) (moving self.now) }
    {
        self.cells[s.get() as usize].is_awaiting(&self.regions[..self.count as usize], &who)
    }

    /// The regions that are awaited for the shard, in order of registration; none where it isn't
    /// in the round or is done.
    pub fn awaited(&self, s: ShardNo) -> Regions
        ensures { result ≡ awaited_in (place_at self.now s) }
    {
        self.cells[s.get() as usize].awaited(&self.regions[..self.count as usize])
    }

    /// A law: at most 16 regions are awaited for each shard of the round.
    pub fn awaited_few(&self)
        ensures { list_all (λ x. nat_le (length x.awaited) 16) (moving self.now) ≡ true }
    {
        let _ = &self.stamp;
    }

    /// Whether every shard of the round is done.
    pub fn is_done(&self) -> bool
        ensures { result ≡ is_empty (moving self.now) }
    {
        self.done || is_none_open(&self.cells, &self.regions[..self.count as usize])
    }

    /// The home of the shard when the round began; None exactly where it isn't in the round.
    pub fn owner(&self, s: ShardNo) -> Option<Incarnation>
        ensures { result ≡ option_map (λ h. h.owner) (place_at self.now s) }
    {
        self.cells[s.get() as usize].owner(&self.regions[..self.count as usize])
    }

    /// Takes an acknowledgement. Where it is waited for, its sender isn't awaited any more; where
    /// nobody else is, the owner is to hand the shard off.
    pub fn acked(&mut self, s: ShardNo, stamp: Stamp, from: Incarnation) -> Step
        ensures shard { filter (λ x. x.shard == s) (moving self.old) ≡ one_of s (place_at self.old s) }
        ensures ignored { takes_ack self.old s stamp from ≡ false → result ≡ step.Ignored stamp from }
        ensures unchanged { takes_ack self.old s stamp from ≡ false → self.new ≡ self.old }
        ensures answer { takes_ack self.old s stamp from ≡ true → result ≡ next_step (acknowledged_by from (place_at self.old s)) }
        ensures place { takes_ack self.old s stamp from ≡ true → self.new ≡ with_place self.old s (acknowledged_by from (place_at self.old s)) }
        ensures moving { takes_ack self.old s stamp from ≡ true → moving self.new ≡ map (λ x. if x.shard == s then not_awaited from x else x) (moving self.old) }
    {
        let place = s.get() as usize;
        let own = self.stamp;
        let cell = self.cells[place];
        let regions = &self.regions[..self.count as usize];
        if stamp != own || !cell.is_awaiting(regions, &from) {
            return Step::Ignored { stamp, from };
        }
        let next = cell.acknowledged_by(regions, &from);
        let step = next.next_step(regions);
        self.cells[place] = next;
        self.done = false;
        step
    }

    /// Takes the word of a shard's owner that it has stopped it; where that is waited for, the
    /// shard is done.
    pub fn stopped(&mut self, s: ShardNo, stamp: Stamp, from: Incarnation) -> Step
        ensures shard { filter (λ x. x.shard == s) (moving self.old) ≡ one_of s (place_at self.old s) }
        ensures ignored { takes_stop self.old s stamp from ≡ false → result ≡ step.Ignored stamp from }
        ensures unchanged { takes_stop self.old s stamp from ≡ false → self.new ≡ self.old }
        ensures answer { takes_stop self.old s stamp from ≡ true → result ≡ step.Done }
        ensures place { takes_stop self.old s stamp from ≡ true → self.new ≡ with_place self.old s (ended (place_at self.old s)) }
        ensures moving { takes_stop self.old s stamp from ≡ true → moving self.new ≡ filter (λ x. not (x.shard == s)) (moving self.old) }
    {
        let place = s.get() as usize;
        let own = self.stamp;
        let cell = self.cells[place];
        let regions = &self.regions[..self.count as usize];
        if stamp != own || !cell.is_stopping(regions, &from) {
            return Step::Ignored { stamp, from };
        }
        let next = cell.ended(regions);
        self.cells[place] = next;
        let done = is_none_open(&self.cells, &self.regions[..self.count as usize]);
        self.done = done;
        Step::Done
    }

    /// A region is gone: a shard of its own is done, another doesn't await it any more. Where it
    /// was the last that was awaited, the owner is to hand the shard off.
    pub fn region_gone(&mut self, s: ShardNo, who: Incarnation) -> Step
        requires open { is_open (place_at self.old s) ≡ true }
        ensures shard { filter (λ x. x.shard == s) (moving self.old) ≡ one_of s (place_at self.old s) }
        ensures answer { result ≡ step_without who (place_at self.old s) }
        ensures place { self.new ≡ with_place self.old s (place_without who (place_at self.old s)) }
        ensures moving { moving self.new ≡ lost_at s who (moving self.old) }
    {
        let place = s.get() as usize;
        let cell = self.cells[place];
        let regions = &self.regions[..self.count as usize];
        if cell.is_owned(regions, &who) {
            let next = cell.ended(regions);
            self.cells[place] = next;
            let done = is_none_open(&self.cells, &self.regions[..self.count as usize]);
            self.done = done;
            return Step::Done;
        }
        let was_awaited = cell.is_awaiting(regions, &who);
        let next = cell.acknowledged_by(regions, &who);
        let answer = next.next_step(regions);
        self.cells[place] = next;
        self.done = false;
        if was_awaited { answer } else { Step::Wait }
    }
}

/// The regions of the loads; the places after them are for none.
fn regions_of(loads: &[Load]) -> [Incarnation; 16]
    requires { length loads.now ≤ 16 }
    ensures { take (length loads.now) result ≡ regions_of loads.now }
{
    let mut regions = [NO_REGION; 16];
    for place in 0..loads.len() {
        regions[place] = loads[place].region;
    }
    regions
}

/// The places of the shards as a round begins.
fn cells_of(picks: ShardSet, loads: &[Load]) -> [Cell; 128]
    requires { length loads.now ≤ 16 }
    ensures { map (seen (regions_of loads.now)) result ≡ map (first_place picks loads.now) all_shards }
{
    let mut cells = [Cell::Out; 128];
    for s in 0..128u8 {
        cells[s as usize] = cell_of(s, picks, loads);
    }
    cells
}

/// The place of this shard as a round begins.
fn cell_of(s: u8, picks: ShardSet, loads: &[Load]) -> Cell
    requires shard { s < 128 }
    requires fits { length loads.now ≤ 16 }
    ensures { seen (regions_of loads.now) result ≡ first_place picks loads.now s }
{
    match ShardNo::new(s, 128) {
        Some(shard) => Cell::first(shard, picks, loads),
        None => unreachable!(),
    }
}

/// Whether no shard moves.
fn is_none_open(cells: &[Cell], regions: &[Incarnation]) -> bool
    ensures { result ≡ is_empty (moving_from 0 (map (seen regions.now) cells.now)) }
{
    for place in 0..cells.len() {
        if cells[place].is_open(regions) {
            return false;
        }
    }
    true
}
