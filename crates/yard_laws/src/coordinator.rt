//! What a coordinator's rules keep.
ghost use Rattle.yard_laws.specs.Homes.{CoordinatorIsFree, CoordinatorKeepsHomes, CoordinatorKeepsList};

/// Where a coordinator rebalances, ticks, tells a home, or takes word of a started shard, a leaving
/// region or an acknowledged handoff, it owes no guard.
pub fn coordinator_is_free()
    ensures { CoordinatorIsFree }
{}

/// A coordinator that holds its slot keeps its list lawful by itself where it registers a region of
/// the script's nodes while there is room, and where it allocates a shard without a home.
pub fn coordinator_keeps_homes()
    ensures { CoordinatorKeepsHomes }
{}

/// So it does where it terminates the regions that are not in its node's view, where it takes word
/// that a shard with a home has stopped, which it allocates anew, and where it is asked for a home.
pub fn coordinator_keeps_list()
    ensures { CoordinatorKeepsList }
{}
