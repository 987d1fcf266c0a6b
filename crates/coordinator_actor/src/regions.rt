//! Regions.
ghost use Rattle.std.specs.Prelude.{◌≡◌, ◌≤◌, ◌<◌, ◌++◌, ◌∷◌, []};
ghost use Rattle.std.specs.List.{list_all};
ghost use Rattle.yard_model.specs.Words.{is_among, is_same as same};
ghost use Rattle.coordinator_state.specs.Homes.{regions_of};

use handoff_steps::Regions;
use membership_view::View;
use yard_model::{Incarnation, Loads};

/// Whether they are the same.
pub(crate) fn is_same(r: &Incarnation, other: &Incarnation) -> bool
    ensures { result ≡ same r.now other.now }
{
    *r == *other
}

/// The regions of these loads.
pub(crate) fn of_loads(loads: &Loads) -> Regions
    ensures { result ≡ regions_of loads.now }
{
    let mut regions = Regions::empty();
    for load in loads.as_slice() {
        regions.push(load.region);
    }
    regions
}

/// Whether the region of each of these loads is in the view.
pub(crate) fn all_viewed(loads: &Loads, view: &View) -> bool
    ensures { result ≡ list_all (λ r. is_among r view.now.members) (regions_of loads.now) }
{
    for load in loads.as_slice() {
        if !view.has(load.region) {
            return false;
        }
    }
    true
}
