//! What a turn over a pass finds.
ghost use Rattle.node_runner.specs.Alone.{SteadyIsFree};
ghost use Rattle.node_runner.specs.Ordered.{DuesAreGiven};
ghost use Rattle.node_runner.specs.Progress.{QueuesAreShown};
ghost use Rattle.node_runner.specs.Rested.{NewNodeRests};

/// The queue of a steady producer is free for its node, whatever its turn finds, unless it has it.
pub fn steady_is_free()
    ensures { SteadyIsFree }
{}

/// A node that comes up may rest on its node's pass, where that holds nothing.
#[tactic(auto, using(crate::proofs::Fresh::new_node_rests))]
pub fn new_node_rests()
    ensures { NewNodeRests }
{}

/// An order that is due to the worker of a node may be given to it.
pub fn dues_are_given()
    ensures { DuesAreGiven }
{}

/// What a node has in hand may be seen: so may its queues.
#[tactic(auto, using(crate::proofs::Stepping::of_shown))]
pub fn queues_are_shown()
    ensures { QueuesAreShown }
{}
