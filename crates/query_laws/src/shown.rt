//! What the items of a turn show of its node.
ghost use Rattle.query_laws.specs.Shown.{TurnShown};

/// What the items of a turn show of the node, each in turn, once the fact that opens the input is told (the
/// delivery of a packet, or the line of an order), is what the turn does to it, whatever the input; and the
/// node stays tidy.
pub fn turn_shown()
    ensures { TurnShown }
{}
