//! What stands of a node by itself.
ghost use Rattle.node_laws.specs.NodeHolds.{TurnHolds, CrashFrees};
ghost use Rattle.node_laws.specs.NodeTurns.{TurnStands, TurnViewed, CrashStands, NodeBegins};

use actor_laws::coordinator::coordinator_begins;
use actor_laws::entities::{entities_stand, new_entities_stand};
use actor_laws::messages::genuine_is_message;
use actor_laws::producer::{producer_is_granted, producer_keeps, producer_routes};
use actor_laws::region::{region_begins, region_keeps};
use actor_laws::start::shard_starts;

/// Each input leads from a node that stands to one that stands, whatever the other nodes
/// do and whatever lawful lists it finds of the slots that it doesn't hold. What it posts comes from it
/// and is made of the script; and each fact that it tells may stand where it is told, by what the node
/// has in hand: the lists of the slots that it holds or is granted, and the names that are live at it.
/// What it promises of the input: packets are genuine, a view is of different nodes, and a number is
/// confirmed only where it is queued and vouched for.
pub fn turn_stands()
    ensures { TurnStands }
{
    region_keeps();
    entities_stand();
    genuine_is_message();
    shard_starts();
    coordinator_begins();
    producer_keeps();
    producer_routes();
    producer_is_granted();
}

/// Where a node is the coordinator, each registered region is in its view: each input keeps that.
pub fn turn_viewed()
    ensures { TurnViewed }
{}

/// The crash of a node that stands, whatever it holds: each slot that it frees may be freed, by what it
/// has in hand, once no name is live at it.
pub fn crash_stands()
    ensures { CrashStands }
{
    producer_keeps();
}

/// What a node holds it has in hand: each input keeps that, whatever lists the leases tell.
pub fn turn_holds()
    ensures { TurnHolds }
{}

/// A node that crashes holds nothing afterwards, since it had in hand what it held.
pub fn crash_frees()
    ensures { CrashFrees }
{}

/// A node that comes up stands, and has nothing in hand.
pub fn new_node_stands()
    ensures { NodeBegins }
{
    region_begins();
    new_entities_stand();
}
