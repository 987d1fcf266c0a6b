//! Lines: each order is one input, but `pump`, which is one for each packet.
ghost use Rattle.std.specs.Prelude.{◌≡◌, ℕ, ◌+◌, ◌<◌, true, false, OnOk, OnErr, length};
ghost use Rattle.pull_laws.specs.Pulling as pulling;
ghost use Rattle.pull_cluster.specs.Cluster.{Leads};
ghost use Rattle.work_pulling.specs.Orders.{IsNext};

use crate::steps::{crash, deliver, nothing, produce, rest, send, tick, up};
use pull_cluster::Cluster;
use std::alloc::AllocError;
use yard_model::{Fact, Facts, Line, Order};

/// `at`, and what the order gives.
pub(crate) fn play_line(
    cluster: &mut Cluster,
    line: &Line,
    out: &mut Facts,
) -> Result<(), AllocError>
    requires { IsNext cluster.old line.now.order }
    ensures { OnOk result (Leads (pulling.play_line line.now) cluster.old cluster.new out.old out.new) }
{
    cluster.tell_plain(&Fact::At(line.number), out)?;
    match &line.order {
        Order::Pump(count) => pump(cluster, *count, out),
        order => {
            play_input(cluster, order, out)?;
            end_input(cluster, out)
        }
    }
}

/// What an order gives that is one input.
fn play_input(cluster: &mut Cluster, order: &Order, out: &mut Facts) -> Result<(), AllocError>
    requires { IsNext cluster.old order.now }
    ensures { OnOk result (Leads (pulling.play_input order.now) cluster.old cluster.new out.old out.new) }
{
    match order {
        Order::Up(node) => up(cluster, *node, out),
        Order::Crash(node) => crash(cluster, *node, out),
        Order::Tick(node) => tick(cluster, *node, out),
        Order::Produce(_, node) => produce(cluster, *node, out),
        Order::Rest(_) => rest(cluster, out),
        Order::Send(_, entity, command) => send(cluster, *entity, *command, out),
        Order::Deliver(number) => deliver(cluster, *number, out),
        _ => nothing(cluster, out),
    }
}

/// Where a packet was past the limit, the trace stops.
fn end_input(cluster: &mut Cluster, out: &mut Facts) -> Result<(), AllocError>
    ensures { OnOk result (Leads (pulling.input pulling.none) cluster.old cluster.new out.old out.new) }
{
    if cluster.is_full() {
        cluster.tell_plain(&Fact::WireFull, out)
    } else {
        Ok(())
    }
}

/// Delivers so many packets at most, the lowest that were never delivered.
fn pump(cluster: &mut Cluster, count: u16, out: &mut Facts) -> Result<(), AllocError>
    ensures { OnOk result (Leads (pulling.pump count) cluster.old cluster.new out.old out.new) }
{
    if cluster.next_fresh().is_none() {
        return nothing(cluster, out);
    }
    for _ in 0..count {
        let Some(number) = cluster.next_fresh() else {
            return Ok(());
        };
        deliver(cluster, number, out)?;
        end_input(cluster, out)?;
        if cluster.is_full() {
            return Ok(());
        }
    }
    Ok(())
}
