//! What stands of a region by itself.
ghost use Rattle.actor_laws.specs.RegionStands.{RegionKeeps, RegionJoins, RegionBegins, ShardsAreThere};

/// Each rule of a region that stands leads to one that stands, whatever the other actors do; what it
/// posts comes from its node and is made of the script, and its facts are free and tell of its own
/// incarnation.
pub fn region_keeps()
    ensures { RegionKeeps }
{
    shards_are_there();
}

/// Moves that are kept one list after another are kept together.
pub fn region_joins()
    ensures { RegionJoins }
{}

/// The region of a node that comes up stands.
pub fn region_begins()
    ensures { RegionBegins }
{}

/// The shard of any name is one of the script's.
pub fn shards_are_there()
    ensures { ShardsAreThere }
{}
