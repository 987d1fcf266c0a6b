//! The three forms of a decision.
ghost use Rattle.std.specs.Prelude.{◌≡◌};
ghost use Rattle.yard_model.specs.Behaviour.{no, ok, gives};

use yard_model::{Decision, Event, Events, Reply};

/// The greatest total and balance.
pub const MOST: u64 = 1_000_000_000_000_000;

/// Refused, for the reason of this number.
pub fn refused(reason: u8) -> Decision
    ensures { result ≡ no reason }
{
    Decision {
        events: Events::empty(),
        reply: Reply::Rejected(reason),
    }
}

/// Answered, with no event.
pub fn answered(value: u64) -> Decision
    ensures { result ≡ ok value }
{
    Decision {
        events: Events::empty(),
        reply: Reply::Value(value),
    }
}

/// Taken: this event, and an answer.
pub fn taken(event: Event, value: u64) -> Decision
    ensures { result ≡ gives event value }
{
    Decision {
        events: Events::empty().with(event),
        reply: Reply::Value(value),
    }
}
