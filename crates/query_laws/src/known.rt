//! The machine's words are the answers of the queries.
ghost use Rattle.query_laws.specs.Known.{OrdersAreKnown};

use crate::shown::turn_shown;
use actor_laws::region::shards_are_there;
use era_laws::opening::{era_opens, opening_gives_lists, opening_is_quiet};
use era_laws::reshape::{reshaped_is_lawful, reshaped_keeps_journals};
use node_laws::carried::turn_carries;
use node_laws::cluster::{
    cluster_begins, cluster_gains, cluster_hears, cluster_is_safe, cluster_loses, cluster_turns,
    cluster_upgrades,
};
use node_laws::hand::{recorded_stays, turn_is_guarded};
use node_laws::node::crash_stands;
use play_laws::play::{line_leads_on, played_is_sound};
use settle_laws::worlds::settles_leave_none;

/// After any number of the orders of any script whose lines have different numbers, every word of the world
/// but those of nodes is what the queries answer of the facts; and so is every word of each node, where the
/// wire isn't full then.
pub fn orders_are_known()
    ensures { OrdersAreKnown }
{
    turn_shown();
    crash_stands();
    line_leads_on();
    played_is_sound();
    cluster_turns();
    turn_is_guarded();
    recorded_stays();
    turn_carries();
    cluster_loses();
    cluster_hears();
    cluster_gains();
    cluster_begins();
    cluster_upgrades();
    cluster_is_safe();
    opening_gives_lists();
    opening_is_quiet();
    era_opens();
    reshaped_is_lawful();
    reshaped_keeps_journals();
    shards_are_there();
    settles_leave_none();
}
