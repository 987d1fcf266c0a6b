//! What is recorded was queued before, and what is confirmed was recorded before.
ghost use Rattle.queued_laws.specs.Confirmed.{ConfirmedWasWritten};
ghost use Rattle.queued_laws.specs.Queued.{RecordedIsQueued};

use actor_laws::region::shards_are_there;
use era_laws::opening::{era_opens, opening_gives_lists, opening_is_quiet};
use era_laws::reshape::{reshaped_is_lawful, reshaped_keeps_journals};
use node_laws::carried::turn_carries;
use node_laws::cluster::{
    cluster_begins, cluster_gains, cluster_hears, cluster_is_safe, cluster_loses, cluster_turns,
    cluster_upgrades,
};
use node_laws::hand::{recorded_stays, turn_is_guarded};
use play_laws::play::played_is_sound;

/// Wherever a record stands in the trace of a script, its command was queued before, with any limit of packets.
pub fn recorded_is_queued()
    ensures { RecordedIsQueued }
{
    played_is_sound();
    cluster_turns();
    turn_is_guarded();
    recorded_stays();
    turn_carries();
    cluster_loses();
    cluster_hears();
    cluster_gains();
    cluster_begins();
    cluster_upgrades();
    cluster_is_safe();
    opening_gives_lists();
    opening_is_quiet();
    era_opens();
    reshaped_is_lawful();
    reshaped_keeps_journals();
    shards_are_there();
}

/// Wherever a number is confirmed in a safe trace, its record stands before.
pub fn confirmed_was_written()
    ensures { ConfirmedWasWritten }
{}
