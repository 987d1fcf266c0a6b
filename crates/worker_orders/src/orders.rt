//! The orders of one worker.
ghost use Rattle.std.specs.Prelude.{◌≡◌, ◌-◌, ◌<◌, ◌≤◌, [], ◌∷◌, ◌++◌, List, IfSome, MatchOption};
ghost use Rattle.yard_model.specs.declared.charter.Order.{Order};
ghost use Rattle.yard_model.specs.Workers.{worker_orders, is_for};
ghost use Rattle.worker_orders.specs.Waiting.{Knows, IsDue};

use std::marker::Model;
use yard_model::{Charter, NodeNo, Order, ProducerNo};

/// The orders of the worker of one node that are left, in script order: those that name its node, a
/// `rest` and a `send` of a producer whose last `produce` names it, and each `rebalance` and `passivate`.
#[derive(Drop)]
pub struct Orders<'c> {
    charter: &'c Charter,
    node: NodeNo,
    at: usize,
    mine: [bool; 32],
}

impl<'c> Model for Orders<'c> {
    ghost use Rattle.std.specs.Prelude.{◌-◌, length};
    ghost use Rattle.worker_orders.specs.Waiting.{Waiting, IsCursor, left_after};

    ghost Value = { Waiting };

    ghost view = { λ o. record { script = o.charter.now; node = o.node; orders = left_after o.node o.charter.now.orders o.at; lines = length o.charter.now.orders - o.at } };

    ghost invariant = { λ o. IsCursor o.node o.charter.now.orders o.at o.mine };
}

impl<'c> Orders<'c> {
    /// All orders of the worker of this node.
    pub fn new(charter: &'c Charter, node: NodeNo) -> Orders<'c>
        ensures script { (result.script ≡ charter.now) × (result.node ≡ node) }
        ensures orders { result.orders ≡ worker_orders charter.now node }
    {
        Orders {
            charter,
            node,
            at: 0,
            mine: [false; 32],
        }
    }

    /// The next one. None exactly where none is left.
    pub fn next(&mut self) -> Option<Order>
        ensures script { (self.new.script ≡ self.old.script) × (self.new.node ≡ self.old.node) }
        ensures orders { MatchOption result ((self.old.orders ≡ []) × (self.new.orders ≡ [])) (λ o. self.old.orders ≡ o ∷ self.new.orders) }
        ensures due { IfSome result (IsDue self.old.script self.old.node) }
    {
        for _ in 0..self.lines_left() {
            if let Some(order) = self.take_line() {
                return Some(order);
            }
        }
        self.at_end();
        None
    }

    /// How many lines are left.
    fn lines_left(&self) -> usize
        ensures { result ≡ self.now.lines }
    {
        self.charter.orders().len() - self.at
    }

    /// Past the last line no order is left. It does nothing.
    #[tactic(auto, using(crate::proofs::Cursors::past))]
    fn at_end(&self)
        requires { self.now.lines ≡ 0 }
        ensures { self.now.orders ≡ [] }
    {
        let _ = &self.charter;
    }

    /// Goes past a line; its order where that is the worker's.
    #[inline(always)]
    fn take_line(&mut self) -> Option<Order>
        requires { 0 < self.old.lines }
        ensures script { (self.new.script ≡ self.old.script) × (self.new.node ≡ self.old.node) }
        ensures lines { self.new.lines ≡ self.old.lines - 1 }
        ensures orders { MatchOption result (self.old.orders ≡ self.new.orders) (λ o. self.old.orders ≡ o ∷ self.new.orders) }
        ensures due { IfSome result (IsDue self.old.script self.old.node) }
    {
        let order = &self.charter.orders()[self.at].order;
        let is_mine = is_mine(&self.mine, order, self.node);
        note(&mut self.mine, order, self.node);
        self.at += 1;
        if is_mine { Some(*order) } else { None }
    }
}

/// The place of a producer.
fn place_of(p: ProducerNo) -> usize
    ensures place { result ≡ p - 1 }
    ensures range { (0 < p) × (p ≤ 32) }
{
    p.get() as usize - 1
}

/// Whether the order is one of the node's worker, by what is known of the producers.
fn is_mine(mine: &[bool; 32], order: &Order, node: NodeNo) -> bool
    ensures { (before : List Order) → Knows node mine.now before → result ≡ is_for node before order.now }
{
    match *order {
        Order::Up(n) => n == node,
        Order::Crash(n) => n == node,
        Order::Leave(n) => n == node,
        Order::Tick(n) => n == node,
        Order::Produce(_, n) => n == node,
        Order::Rest(p) => mine[place_of(p)],
        Order::Send(p, _, _) => mine[place_of(p)],
        Order::Rebalance(_) => true,
        Order::Passivate(_) => true,
        _ => false,
    }
}

/// What is known of the producers after an order more.
fn note(mine: &mut [bool; 32], order: &Order, node: NodeNo)
    ensures { (before : List Order) → Knows node mine.old before → Knows node mine.new (before ++ order.now ∷ []) }
{
    if let Order::Produce(p, n) = *order {
        mine[place_of(p)] = n == node;
    }
}
