//! What one change of a home, or the loss of a region, does to homes and loads.
ghost use Rattle.std.specs.Prelude.{◌≡◌, ◌≢◌, ℕ, ◌<◌, List, length, map, filter, replicate, None, Option, slice_set, not};
ghost use Rattle.std.specs.List.{All};
ghost use Rattle.yard_model.specs.declared.incarnation.Incarnation.{Incarnation};
ghost use Rattle.yard_model.specs.declared.load.Load.{Load};
ghost use Rattle.yard_model.specs.ShardSet.{has};
ghost use Rattle.yard_model.specs.Words.{is_same as same, is_at, is_among};
ghost use Rattle.coordinator_state.specs.Homes.{regions_of, home_without, is_of_other, HasHomes, HasNone};

use yard_model::{Incarnation, Load, Loads, ShardNo, ShardSet};

/// Whether they are the same.
fn is_same(r: &Incarnation, other: &Incarnation) -> bool
    ensures { result ≡ same r.now other.now }
{
    *r == *other
}

/// Whether this is the home.
pub(crate) fn is_home(r: &Incarnation, home: &Option<Incarnation>) -> bool
    ensures { result ≡ is_at r.now home.now }
{
    match home {
        Some(other) => *r == *other,
        None => false,
    }
}

/// Whether one of the loads is of this region.
pub(crate) fn has_region(loads: &Loads, r: &Incarnation) -> bool
    ensures { result ≡ is_among r.now (regions_of loads.now) }
{
    for load in loads.as_slice() {
        if is_same(r, &load.region) {
            return true;
        }
    }
    false
}

/// The shards of a region after the home of `s` has become `home`.
fn shards_after(load: &Load, s: ShardNo, home: &Option<Incarnation>) -> ShardSet
    ensures it { has result s ≡ is_at load.now.region home.now }
    ensures others { (t : ℕ) → t < 128 → t ≢ s → has result t ≡ has load.now.shards t }
{
    if is_home(&load.region, home) {
        load.shards.with(s)
    } else {
        load.shards.without(s)
    }
}

/// The loads after the home of `s` has become `home`.
pub(crate) fn loads_after(loads: &Loads, s: ShardNo, home: &Option<Incarnation>) -> Loads
    ensures regions { regions_of result ≡ regions_of loads.now }
    ensures each { (homes : List (Option Incarnation)) → s < length homes → All (HasHomes homes) loads.now → All (HasHomes (slice_set homes s home.now)) result }
{
    let mut after = Loads::empty();
    for load in loads.as_slice() {
        after.push(Load {
            region: load.region,
            shards: shards_after(load, s, home),
        });
    }
    after
}

/// The loads of the other regions.
pub(crate) fn loads_without(loads: &Loads, r: &Incarnation) -> Loads
    ensures { result ≡ filter (is_of_other r.now) loads.now }
{
    let mut others = Loads::empty();
    for load in loads.as_slice() {
        if !is_same(r, &load.region) {
            others.push(*load);
        }
    }
    others
}

/// The same regions with no shards.
pub(crate) fn loads_cleared(loads: &Loads) -> Loads
    ensures regions { regions_of result ≡ regions_of loads.now }
    ensures none { All HasNone result }
{
    let mut cleared = Loads::empty();
    for load in loads.as_slice() {
        cleared.push(Load {
            region: load.region,
            shards: ShardSet::empty(),
        });
    }
    cleared
}

/// Takes away every home that is this region.
pub(crate) fn clear_homes(homes: &mut [Option<Incarnation>], r: &Incarnation)
    ensures { homes.new ≡ map (home_without r.now) homes.old }
{
    for home in homes.iter_mut() {
        if is_home(r, home) {
            *home = None;
        }
    }
}
