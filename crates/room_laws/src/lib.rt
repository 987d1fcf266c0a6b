//! How many items each rule of an actor gives at most, and how much a script can have at most: laws over
//! the definitions alone, in `proofs/`. How lists of moves are put together (`Gives`); what a script's
//! limits give (`Limits`); the rules of the coordinator, the region, the entities and the producers; and
//! how many numbers of a producer's pairs are left (`PairRoom`). They are cited by the node, which makes
//! room for a turn before it begins (`node_core`).
#![tactic(auto)]
