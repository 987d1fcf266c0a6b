//! The orders of a script.
ghost use Rattle.std.specs.Prelude.{ℕ, ◌≡◌, ◌<◌, ◌≤◌, IsTrue, slice_index_or};
ghost use Rattle.yard_model.specs.Limits.{most_orders, number_limit, order_limit};
ghost use Rattle.yard_model.specs.Script.{is_order};
ghost use Rattle.yard_model.specs.World.{World, play, play_line};
ghost use Rattle.play_laws.specs.Played.{is_named};
ghost use Rattle.world_sim.specs.Stepped.{Plays};
ghost use Rattle.world_sim.specs.Yard.{IsBacked, IsSound, noted};

use crate::laws::standing_is_kept;
use crate::places::count_one;
use crate::yard::Yard;
use behaviour_core::Behaviour;
use std::alloc::AllocError;
use trace_notes::{Notes, Told};
use yard_model::{Fact, Line, Order};

impl<B: Behaviour + Copy + Drop> Yard<B> {
    /// The order of a line: `at`, and what it gives.
    pub(crate) fn play_line<N: Notes>(
        &mut self,
        line: &Line,
        facts: &mut Told<N>,
    ) -> Result<(), AllocError>
        requires world { (w : World) × IsBacked self.old w }
        requires order { IsTrue (is_order self.old.script.config line.now.order) }
        requires named { IsTrue (is_named self.old.script line.now.order) }
        requires version { self.old.version < order_limit }
        requires ups { (k : ℕ) → slice_index_or self.old.ups k 0 < order_limit }
        requires ordered { (k : ℕ) → slice_index_or self.old.ordered k 0 < most_orders }
        ensures { Plays 20 (play_line line.now) result self.old self.new facts.old facts.new }
    {
        facts.push(Fact::At(line.number))?;
        self.note(&line.order);
        self.play(&line.order, facts)
    }

    /// Notes that a send is ordered.
    fn note(&mut self, order: &Order)
        requires world { (w : World) × IsSound self.old w }
        requires order { IsTrue (is_order self.old.script.config order.now) }
        requires ordered { (k : ℕ) → slice_index_or self.old.ordered k 0 < number_limit }
        ensures { self.new ≡ noted order.now self.old }
    {
        if let Order::Send(p, _, _) = order {
            count_one(&mut self.ordered, *p);
        }
    }

    /// What an order gives.
    fn play<N: Notes>(&mut self, order: &Order, facts: &mut Told<N>) -> Result<(), AllocError>
        requires world { (w : World) × IsBacked self.old w }
        requires order { IsTrue (is_order self.old.script.config order.now) }
        requires named { IsTrue (is_named self.old.script order.now) }
        requires version { self.old.version < order_limit }
        requires ups { (k : ℕ) → slice_index_or self.old.ups k 0 < order_limit }
        requires ordered { (k : ℕ) → slice_index_or self.old.ordered k 0 ≤ most_orders }
        ensures { Plays 20 (play order.now) result self.old self.new facts.old facts.new }
    {
        standing_is_kept();
        match order {
            Order::Up(n) => self.up(*n, facts),
            Order::Crash(n) => self.crash(*n, facts),
            Order::Leave(n) => self.leave(*n, facts),
            Order::Tick(n) => self.tick(*n, facts),
            Order::Produce(p, n) => self.produce(*p, *n, facts),
            Order::Rest(p) => self.rest(*p, facts),
            Order::Send(p, entity, command) => self.send(*p, entity, command, facts),
            Order::Passivate(entity) => self.passivate(entity, facts),
            Order::FailWrite(entity, keep) => self.fail_write(entity, *keep, facts),
            Order::Deliver(number) => self.deliver(*number, facts),
            Order::Pump(n) => self.pump(*n as u32, facts),
            Order::Rebalance(most) => self.rebalance(*most, facts),
            Order::Settle => self.settle(facts),
            Order::Reshard(n) => self.reshard(*n, facts),
            Order::Upgrade => self.upgrade(facts),
            Order::Ping(_) => facts.push(Fact::Nothing),
        }
    }
}
