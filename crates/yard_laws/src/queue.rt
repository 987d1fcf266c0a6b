//! What a producer's rules keep.
ghost use Rattle.yard_laws.specs.Queues.{ProducerKeepsQueue};

use yard_model::laws::{sending_law, slot_law};

/// A producer that holds its queue keeps the queue's list lawful by itself, whether it queues its
/// next send, confirms a queued number or pushes; and what frees the queue may follow.
pub fn producer_keeps_queue()
    ensures { ProducerKeepsQueue }
{
    sending_law();
    slot_law();
}
