//! What the orders of a script lead to.
ghost use Rattle.play_laws.specs.Played.{LineLeadsOn, GivenIsSound, GivenStands, PlayedIsSound, PlayedIsSafe, SettleStands, SoundMaySettle, TraceIsSafe, PlayedLists};
ghost use Rattle.play_laws.specs.SafeText.{ReplayIsSafe};

use actor_laws::region::shards_are_there;
use era_laws::opening::{era_opens, opening_gives_lists, opening_is_quiet};
use era_laws::reshape::{reshaped_is_lawful, reshaped_keeps_journals};
use node_laws::carried::turn_carries;
use node_laws::cluster::{
    cluster_begins, cluster_gains, cluster_hears, cluster_is_safe, cluster_loses, cluster_turns,
    cluster_upgrades,
};
use node_laws::hand::{recorded_stays, turn_is_guarded};

/// A line with an order of the script leads from a sound world to a sound one, in the era where its facts
/// end, and its facts are safe at each prefix. Sound: the facts are guarded, each node that is up has its
/// part of them in hand, who holds a slot is up, the members are the nodes that are up, each packet on the
/// wire is made of the script, tells of different members, carries a message that is queued, and
/// acknowledges what is recorded, and of each producer no more is recorded than is queued.
pub fn line_leads_on()
    ensures { LineLeadsOn }
{
    cluster_turns();
    turn_is_guarded();
    recorded_stays();
    turn_carries();
    cluster_loses();
    cluster_hears();
    cluster_gains();
    cluster_begins();
    cluster_upgrades();
    cluster_is_safe();
    opening_gives_lists();
    opening_is_quiet();
    era_opens();
    reshaped_is_lawful();
    reshaped_keeps_journals();
    shards_are_there();
}

/// A world that begins with given lawful lists, of which none is held, is sound.
pub fn given_is_sound()
    ensures { GivenIsSound }
{
    cluster_turns();
    turn_is_guarded();
    recorded_stays();
    turn_carries();
    cluster_loses();
    cluster_hears();
    cluster_gains();
    cluster_begins();
    cluster_upgrades();
    cluster_is_safe();
    opening_gives_lists();
    opening_is_quiet();
    era_opens();
    reshaped_is_lawful();
    reshaped_keeps_journals();
    shards_are_there();
}

/// All but that stands also where more of a producer's commands is recorded than is queued, as it may be
/// in lists that are lawful and no more.
pub fn given_stands()
    ensures { GivenStands }
{
    cluster_turns();
    turn_is_guarded();
    recorded_stays();
    turn_carries();
    cluster_loses();
    cluster_hears();
    cluster_gains();
    cluster_begins();
    cluster_upgrades();
    cluster_is_safe();
    opening_gives_lists();
    opening_is_quiet();
    era_opens();
    reshaped_is_lawful();
    reshaped_keeps_journals();
    shards_are_there();
}

/// After any number of the orders of any script, with any limit of packets, the world is sound.
pub fn played_is_sound()
    ensures { PlayedIsSound }
{
    cluster_turns();
    turn_is_guarded();
    recorded_stays();
    turn_carries();
    cluster_loses();
    cluster_hears();
    cluster_gains();
    cluster_begins();
    cluster_upgrades();
    cluster_is_safe();
    opening_gives_lists();
    opening_is_quiet();
    era_opens();
    reshaped_is_lawful();
    reshaped_keeps_journals();
    shards_are_there();
}

/// A settling of a sound world hands over no packet that confirms what isn't queued.
pub fn sound_may_settle()
    ensures { SoundMaySettle }
{
    cluster_turns();
    turn_is_guarded();
    recorded_stays();
    turn_carries();
    cluster_loses();
    cluster_hears();
    cluster_gains();
    cluster_begins();
    cluster_upgrades();
    cluster_is_safe();
    opening_gives_lists();
    opening_is_quiet();
    era_opens();
    reshaped_is_lawful();
    reshaped_keeps_journals();
    shards_are_there();
}

/// A settling that hands over no such packet leads from what stands to what stands, though more may be
/// recorded than is queued before it.
pub fn settle_stands()
    ensures { SettleStands }
{
    cluster_turns();
    turn_is_guarded();
    recorded_stays();
    turn_carries();
    cluster_loses();
    cluster_hears();
    cluster_gains();
    cluster_begins();
    cluster_upgrades();
    cluster_is_safe();
    opening_gives_lists();
    opening_is_quiet();
    era_opens();
    reshaped_is_lawful();
    reshaped_keeps_journals();
    shards_are_there();
}

/// So the facts of every script are safe at each prefix, whatever is lost, repeated, reordered, handed off
/// or crashed, with any limit of packets, and also where the trace stops at it: at most one incarnation of
/// an entity is live, which holds its shard's lease; each state that is shown is its journal's fold; and
/// the lists are lawful, so each producer's commands stand in a journal once and in order, every confirmed
/// one included; and so it is through each change of the number of shards and of the behaviours' version.
pub fn played_is_safe()
    ensures { PlayedIsSafe }
{
    played_is_sound();
}

/// And so is the trace of a script, by the limit of packets that it is played with.
pub fn trace_is_safe()
    ensures { TraceIsSafe }
{
    played_is_safe();
}

/// The lists of the world at the end are those of its trace, and lawful for the number of shards in force.
pub fn played_lists()
    ensures { PlayedLists }
{
    played_is_sound();
}

/// So what a replay prints, with any limit of packets, is the lines of a safe trace, and the report of that
/// trace's lists, which are lawful.
pub fn replay_is_safe()
    ensures { ReplayIsSafe }
{
    played_is_safe();
    played_lists();
}
