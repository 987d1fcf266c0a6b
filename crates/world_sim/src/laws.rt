//! Laws of what mail tells, and of what steps of the world keep. Each is a function that does nothing, whose contract is the law; a proof
//! that needs it calls the function.
ghost use Rattle.world_sim.specs.Keeps.{Keeps};
ghost use Rattle.world_sim.specs.Played.{MadeNone, MadeNext, MadeFull, MadeAll, MadeSafe, MadeKnown};
ghost use Rattle.world_sim.specs.Told.{FactsLaw, PostsAreOwn, ToldLaw, TurnIsOwn};

use actor_laws::region::shards_are_there;
use era_laws::opening::{era_opens, opening_gives_lists, opening_is_quiet};
use era_laws::reshape::{reshaped_is_lawful, reshaped_keeps_journals};
use node_laws::carried::turn_carries;
use node_laws::cluster::{
    cluster_begins, cluster_gains, cluster_hears, cluster_is_safe, cluster_loses, cluster_turns,
    cluster_upgrades,
};
use node_laws::hand::{recorded_stays, turn_is_guarded};
use play_laws::play::played_is_sound;
use query_laws::known::orders_are_known;

/// What is told of a turn's items is what the world's definition gives for them, and leads to the
/// packets, the fresh numbers and the flag that the mail has: for items whose facts speak of no
/// packet's number.
#[tactic(auto, using(crate::proofs::ToldLaws::told, crate::proofs::ToldLaws::facts_are))]
pub fn told_law()
    ensures facts { FactsLaw }
    ensures told { ToldLaw }
{}

/// The facts of a node's turn are its own: none is of who is a member, of a packet's number, or that
/// the wire is full; and posts alone tell no fact.
#[tactic(auto, using(crate::proofs::OwnLaws::turn_is_own, crate::proofs::OwnLaws::posts_are_own))]
pub fn own_law()
    ensures turn { TurnIsOwn }
    ensures posts { PostsAreOwn }
{}

/// None of the orders is played at first; one order more is played by the next world; a trace that
/// has stopped stays; and all orders make the script's whole trace.
#[tactic(auto, using(crate::proofs::PlayedLaws::made_none, crate::proofs::PlayedLaws::made_next, crate::proofs::PlayedLaws::made_full, crate::proofs::PlayedLaws::made_all))]
pub fn made_law()
    ensures none { MadeNone }
    ensures next { MadeNext }
    ensures full { MadeFull }
    ensures all { MadeAll }
{}

/// What any number of a script's orders told is safe at each prefix.
pub fn made_is_safe()
    ensures { MadeSafe }
{
    played_is_sound();
}

/// The world after any number of a script's orders, whose lines have different numbers, is what the
/// queries answer of the facts that they told.
pub fn made_is_known()
    ensures { MadeKnown }
{
    orders_are_known();
}

/// The world after any orders is sound, and each step keeps it so.
pub fn standing_is_kept()
    ensures { Keeps }
{
    cluster_turns();
    turn_is_guarded();
    recorded_stays();
    turn_carries();
    cluster_loses();
    cluster_hears();
    cluster_gains();
    cluster_begins();
    cluster_upgrades();
    cluster_is_safe();
    opening_gives_lists();
    opening_is_quiet();
    era_opens();
    reshaped_is_lawful();
    reshaped_keeps_journals();
    shards_are_there();
    played_is_sound();
}
