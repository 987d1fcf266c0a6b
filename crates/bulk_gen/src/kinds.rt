//! The orders of each kind, with what they draw.
ghost use Rattle.std.specs.Prelude.{◌≡◌};
ghost use Rattle.bulk_gen.specs.Bulk.{sent, ticked, rebalanced, crashed, passivated, taken};

use crate::draws::{draw, draw_entity, draw_node, draw_producer};
use rand_pcg::Lcg64Xsh32;
use yard_model::{Command, Order};

/// A send, and a few deliveries.
pub(crate) fn sent(rng: &mut Lcg64Xsh32) -> [Order; 2]
    ensures value { result ≡ (sent rng.old).0 }
    ensures rest { rng.new ≡ (sent rng.old).1 }
{
    let producer = draw_producer(rng);
    let entity = draw_entity(rng);
    let amount = 1 + draw(rng, 1000);
    let command = Command::Add(amount as u16);
    [Order::Send(producer, entity, command), Order::Pump(8)]
}

/// A node's timer, and deliveries.
pub(crate) fn ticked(rng: &mut Lcg64Xsh32) -> [Order; 2]
    ensures value { result ≡ (ticked rng.old).0 }
    ensures rest { rng.new ≡ (ticked rng.old).1 }
{
    [Order::Tick(draw_node(rng)), Order::Pump(32)]
}

/// Up to three shards are moved.
pub(crate) fn rebalanced(rng: &mut Lcg64Xsh32) -> [Order; 1]
    ensures value { result ≡ (rebalanced rng.old).0 }
    ensures rest { rng.new ≡ (rebalanced rng.old).1 }
{
    let limit = 1 + draw(rng, 3);
    [Order::Rebalance(limit as u8)]
}

/// A node stops and starts again.
pub(crate) fn crashed(rng: &mut Lcg64Xsh32) -> [Order; 2]
    ensures value { result ≡ (crashed rng.old).0 }
    ensures rest { rng.new ≡ (crashed rng.old).1 }
{
    let node = draw_node(rng);
    [Order::Crash(node), Order::Up(node)]
}

/// An entity asks for its stop.
pub(crate) fn passivated(rng: &mut Lcg64Xsh32) -> [Order; 1]
    ensures value { result ≡ (passivated rng.old).0 }
    ensures rest { rng.new ≡ (passivated rng.old).1 }
{
    [Order::Passivate(draw_entity(rng))]
}

/// A node takes a producer's queue.
pub(crate) fn taken(rng: &mut Lcg64Xsh32) -> [Order; 1]
    ensures value { result ≡ (taken rng.old).0 }
    ensures rest { rng.new ≡ (taken rng.old).1 }
{
    let producer = draw_producer(rng);
    let node = draw_node(rng);
    [Order::Produce(producer, node)]
}
