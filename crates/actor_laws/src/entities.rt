//! The entities of a node by themselves.
ghost use Rattle.actor_laws.specs.EntitiesStand.{EntitiesStandLaw, NewEntitiesStand};

use yard_laws::entities::{entities_follow, next_message_follows};

/// Each rule of entities keeps what stands of them: an entity exists in a shard that the node holds,
/// each hosted list is lawful by itself, and what is stashed is made of the script. Each fact is
/// guarded by what the node has in hand (so only what is live writes, and a shard is freed when
/// nothing of it is live), and each packet is its own. The start of a shard is `shard_starts`.
pub fn entities_stand()
    ensures { EntitiesStandLaw }
{
    next_message_follows();
    entities_follow();
}

/// The entities of a node that comes up stand.
#[tactic(auto, using(crate::proofs::EntitiesNew::new_entities_stand))]
pub fn new_entities_stand()
    ensures { NewEntitiesStand }
{}
