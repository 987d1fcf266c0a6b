//! An order as an input of its node.
ghost use Rattle.std.specs.Prelude.{◌≡◌};
ghost use Rattle.node_runner.specs.Ordered.{input_of};

use yard_model::{Input, Order};

/// What a node that is up is given for an order; None for an `up`, a `crash`, and what no worker takes.
pub fn input_of(order: &Order) -> Option<Input>
    ensures { result ≡ input_of order.now }
{
    match *order {
        Order::Leave(_) => Some(Input::Leave),
        Order::Tick(_) => Some(Input::Tick),
        Order::Produce(p, _) => Some(Input::Produce(p)),
        Order::Rest(p) => Some(Input::Rest(p)),
        Order::Send(p, _, _) => Some(Input::Send(p)),
        Order::Passivate(entity) => Some(Input::Passivate(entity)),
        Order::Rebalance(most) => Some(Input::Rebalance(most)),
        _ => None,
    }
}
