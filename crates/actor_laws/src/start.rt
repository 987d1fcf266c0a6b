//! The start of a shard.
ghost use Rattle.actor_laws.specs.ShardStart.{ShardStarts};

/// The start of a shard that the node doesn't host keeps what stands of its entities, whatever lawful
/// list it finds. Where nobody holds the shard it is granted in the next epoch, and each remembered
/// entity starts, when none of the shard's is live; else it is held, and nothing starts.
pub fn shard_starts()
    ensures { ShardStarts }
{}
