//! What the rules of entities keep.
ghost use Rattle.yard_laws.specs.Entries.{NextFollows, EntitiesFollow};

use yard_model::laws::{decision_law, slot_law, state_law};

/// Where its shard is hosted, the next message of a plan gives a record that keeps the shard's list
/// lawful by itself, and so does a snapshot after it.
pub fn next_message_follows()
    ensures { NextFollows }
{
    decision_law();
}

/// Where a shard is hosted, its list stays lawful by itself as a name is remembered or forgotten and
/// as the shard is freed; and an entity that becomes active shows its journal.
pub fn entities_follow()
    ensures { EntitiesFollow }
{
    state_law();
    slot_law();
}
