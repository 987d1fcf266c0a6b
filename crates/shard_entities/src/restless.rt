//! Which entities recover or stop.
ghost use Rattle.std.specs.Prelude.{◌≡◌, ◌≢◌, ℕ, ◌+◌, ◌<◌, IfOk};
ghost use Rattle.yard_model.specs.Script.{setting};
ghost use Rattle.place_set.specs.Places.{is_in};
ghost use Rattle.shard_entities.specs.Placed.{IsPlace, start_of};
ghost use Rattle.shard_entities.specs.Restless.{AreFresh, IsNoted, is_restless};

use crate::place::Place;
use crate::places::Places;
use place_set::PlaceSet;
use std::alloc::{AllocError, Global};
use yard_model::Phase;

/// No entity recovers or stops: a set of places of the names, shard after shard. The only error is
/// want of memory.
pub(crate) fn none_restless(alloc: Global, places: &Places) -> Result<PlaceSet, AllocError>
    ensures { IfOk result (AreFresh (setting places.now) places.now.config.shards) }
{
    PlaceSet::new(alloc, places.total())
}

/// The entity at a place is between its start and its end as this phase says from now on.
pub(crate) fn note(restless: &mut PlaceSet, places: &Places, place: &Place, phase: Phase)
    requires place { IsPlace places.now place.now }
    requires bound { restless.old.bound ≡ start_of (setting places.now) places.now.config.shards }
    ensures { IsNoted (setting places.now) restless.old restless.new place.now.shard place.now.inner (is_restless phase) }
{
    put(restless, places.spot(place), phase);
}

/// The place is in the set where this phase is that of an entity that recovers or stops.
fn put(set: &mut PlaceSet, spot: usize, phase: Phase)
    requires { spot < set.old.bound }
    ensures bound { set.new.bound ≡ set.old.bound }
    ensures it { is_in set.new spot ≡ is_restless phase }
    ensures others { (i : ℕ) → i ≢ spot → is_in set.new i ≡ is_in set.old i }
{
    match phase {
        Phase::Loading => set.insert(spot),
        Phase::Stopping => set.insert(spot),
        Phase::Absent => set.remove(spot),
        Phase::Active => set.remove(spot),
    }
}
