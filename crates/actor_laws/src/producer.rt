//! What stands of a producer by itself.
ghost use Rattle.actor_laws.specs.ProducerStands.{ProducerKeeps, ProducerRoutes, ProducerJoins, ProducerBegins, ProducerIsGranted};

use yard_laws::queue::producer_keeps_queue;
use yard_model::laws::{command_law, sending_law, slot_law};

/// Each rule of a producer that stands leads to one that stands, whatever the other actors do, and the
/// entries that it tells may follow in its queue's list.
pub fn producer_keeps()
    ensures { ProducerKeeps }
{
    producer_keeps_queue();
}

/// The messages that a producer which stands routes are genuine: the n-th queued command of a pair is
/// the n-th of the plan.
pub fn producer_routes()
    ensures { ProducerRoutes }
{
    command_law();
    sending_law();
}

/// Moves that are kept one list after another are kept together.
pub fn producer_joins()
    ensures { ProducerJoins }
{}

/// A new producer stands, where it holds its queue and the queue's list is lawful.
pub fn producer_begins()
    ensures { ProducerBegins }
{}

/// So it does once a queue is granted that nobody held.
pub fn producer_is_granted()
    ensures { ProducerIsGranted }
{
    slot_law();
}
