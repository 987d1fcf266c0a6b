//! All nodes together.
ghost use Rattle.node_laws.specs.Cluster.{ClusterTurns, ClusterLoses, ClusterHears, ClusterGains, ClusterBegins, ClusterIsSafe, ClusterUpgrades};

use crate::hand::{hand_is_guarded, others_hold, recorded_stays, turn_is_guarded};
use crate::node::{crash_frees, crash_stands, new_node_stands, turn_holds};
use yard_laws::safety::{guarded_is_own, guarded_is_safe, guarded_is_safe_now};

/// A turn of one node of a cluster, whatever its input, with the leases as the trace has them: the trace
/// with its facts is guarded, so it is safe at each prefix, each node that is up stands by it, and who
/// holds a slot is up and has its store in hand. What the input promises: packets are genuine, a view is
/// of different nodes, and a number that a packet confirms is recorded and queued.
pub fn cluster_turns()
    ensures { ClusterTurns }
{
    turn_is_guarded();
    turn_holds();
    others_hold();
    recorded_stays();
}

/// A crash of one node of a cluster, whatever it holds: the trace with `gone` and each slot that it frees
/// is guarded, each node that is still up stands by it, and who still holds a slot is up.
pub fn cluster_loses()
    ensures { ClusterLoses }
{
    crash_stands();
    crash_frees();
    hand_is_guarded();
    others_hold();
}

/// Facts that are entries of no slot and tell nothing of live entities, as that a node is up or a packet
/// was sent, keep a cluster.
pub fn cluster_hears()
    ensures { ClusterHears }
{}

/// A node that comes up at its place, which is free, with the version in force, joins a cluster, where
/// nothing is live at its incarnation.
pub fn cluster_gains()
    ensures { ClusterGains }
{
    guarded_is_own();
    new_node_stands();
}

/// Before any node is up there is a cluster, with any guarded trace after which no slot is held: the empty
/// one, or facts that lead to given lists.
pub fn cluster_begins()
    ensures { ClusterBegins }
{}

/// What was told in a cluster is safe at each prefix: at most one incarnation of an entity is live, at the
/// holder of its shard's lease, each state shown is its journal's fold, each record is decided in the
/// version in force, and the lists are lawful.
pub fn cluster_is_safe()
    ensures { ClusterIsSafe }
{
    guarded_is_safe_now();
    guarded_is_safe();
}

/// While no node is up another version may come into force.
pub fn cluster_upgrades()
    ensures { ClusterUpgrades }
{
    guarded_is_safe_now();
}
