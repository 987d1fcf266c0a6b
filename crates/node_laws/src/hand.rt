//! What a node has in hand, of a trace.
ghost use Rattle.node_laws.specs.Traces.{HandIsGuarded, TurnIsGuarded, OthersHold, RecordedStays};

use crate::node::{turn_stands, turn_viewed};
use yard_laws::safety::guarded_is_own;

/// After a guarded trace of which a node has in hand the lists and the names that are live at it, facts
/// of its own that are guarded by what it has in hand are guarded, and what it has in hand then is that
/// of the longer trace. Numbers that are vouched for are to be recorded.
pub fn hand_is_guarded()
    ensures { HandIsGuarded }
{}

/// So a turn of a node that stands, with the leases of a guarded trace of which it has its part in hand,
/// keeps the trace guarded: whatever the input is, and whatever the other nodes are.
pub fn turn_is_guarded()
    ensures { TurnIsGuarded }
{
    guarded_is_own();
    turn_stands();
    turn_viewed();
    hand_is_guarded();
}

/// And what a node tells leaves what every other node has in hand: the lists of the slots that it holds
/// stay, and so do the names that are live at it.
pub fn others_hold()
    ensures { OthersHold }
{}

/// A number that is recorded in its entity's journal stays so in a longer guarded trace.
pub fn recorded_stays()
    ensures { RecordedStays }
{}
