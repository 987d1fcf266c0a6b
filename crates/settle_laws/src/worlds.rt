//! The settling of a world: after any orders, and of given lists.
ghost use Rattle.settle_laws.specs.Settles.{BudgetSuffices, FewOrdersFit, GivenMaySettle, OrdersSettle, OutstandingFits, SettleLineSettles, SettlesLeaveNone, StoresSettle};

use crate::alone::{delivery_falls, tick_costs};
use actor_laws::region::shards_are_there;
use era_laws::opening::{era_opens, opening_gives_lists, opening_is_quiet};
use era_laws::reshape::{reshaped_is_lawful, reshaped_keeps_journals};
use node_laws::carried::turn_carries;
use node_laws::cluster::{
    cluster_begins, cluster_gains, cluster_hears, cluster_is_safe, cluster_loses, cluster_turns,
    cluster_upgrades,
};
use node_laws::hand::{recorded_stays, turn_is_guarded};
use play_laws::play::played_is_sound;
use yard_model::laws::sending_law;

/// The budget of a settle is at least 24 for each command that was sent and isn't confirmed, 18 for each
/// shard, one for each name, and three.
pub fn budget_suffices()
    ensures { BudgetSuffices }
{}

/// Given lists that are lawful and of which none is held settle: within so many deliveries `settled` is
/// told, every send of the script is queued, recorded and confirmed, and nobody holds a slot. The lists are
/// lawful then, and each goes on from the given one. The wire has room for so many packets.
pub fn stores_settle()
    ensures { StoresSettle }
{
    sending_law();
    shards_are_there();
    era_opens();
    opening_gives_lists();
    opening_is_quiet();
    cluster_begins();
    cluster_gains();
    cluster_loses();
    cluster_turns();
    recorded_stays();
    turn_is_guarded();
    delivery_falls();
    tick_costs();
}

/// In given lists more may be recorded than is queued; but a settling of them hands over no packet that
/// confirms until every queue is taken, and then all that is recorded is queued.
pub fn given_may_settle()
    ensures { GivenMaySettle }
{
    sending_law();
    shards_are_there();
    era_opens();
    opening_gives_lists();
    opening_is_quiet();
    cluster_begins();
    cluster_gains();
    cluster_loses();
    cluster_turns();
    recorded_stays();
    turn_is_guarded();
}

/// It has that room where at most 40,000 commands were sent and aren't confirmed.
pub fn outstanding_fits()
    ensures { OutstandingFits }
{}

/// It has that room where the script has at most 20,000 orders.
pub fn few_orders_fit()
    ensures { FewOrdersFit }
{}

/// A settle after any number of the orders of any script, with any limit of packets: within so many
/// deliveries every send that was ordered so far is queued, recorded and confirmed, nobody holds a slot,
/// the lists are lawful and each goes on from what it was, and `settled` is told last, and once. Or the wire
/// is full before, which had no room for so many packets; then `settled` isn't told.
pub fn orders_settle()
    ensures { OrdersSettle }
{
    played_is_sound();
    sending_law();
    shards_are_there();
    era_opens();
    opening_gives_lists();
    opening_is_quiet();
    reshaped_is_lawful();
    reshaped_keeps_journals();
    cluster_begins();
    cluster_gains();
    cluster_hears();
    cluster_is_safe();
    cluster_loses();
    cluster_turns();
    cluster_upgrades();
    recorded_stays();
    turn_carries();
    turn_is_guarded();
    delivery_falls();
    tick_costs();
}

/// So does a `settle` line after them.
pub fn settle_line_settles()
    ensures { SettleLineSettles }
{
    orders_settle();
}

/// So after each settle line of a script no node is up, where the wire isn't full in the end: whatever
/// follows begins with nodes that come up anew.
pub fn settles_leave_none()
    ensures { SettlesLeaveNone }
{
    settle_line_settles();
}
