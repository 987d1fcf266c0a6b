//! What goes with messages.
ghost use Rattle.node_laws.specs.Carried.{TurnCarries};

use actor_laws::coordinator::coordinator_begins;
use actor_laws::entities::entities_stand;
use actor_laws::messages::genuine_is_message;
use actor_laws::producer::{producer_is_granted, producer_keeps, producer_routes};
use actor_laws::region::region_keeps;
use actor_laws::start::shard_starts;
use yard_laws::entities::{entities_follow, next_message_follows};

/// Each message that a node keeps, stashes or posts has a number that is queued, and what it acknowledges is recorded:
/// each input keeps that, whatever lawful lists the node finds of the slots that it doesn't hold. It posts no view.
pub fn turn_carries()
    ensures { TurnCarries }
{
    region_keeps();
    entities_stand();
    genuine_is_message();
    shard_starts();
    coordinator_begins();
    producer_keeps();
    producer_routes();
    producer_is_granted();
    next_message_follows();
    entities_follow();
}
