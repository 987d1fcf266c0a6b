//! The settling: the cluster starts anew on one node, and runs until all is recorded and confirmed.
ghost use Rattle.std.specs.Prelude.{◌≡◌, ℕ, ◌<◌, ◌≤◌, None, length, slice_index_or};
ghost use Rattle.yard_model.specs.declared.charter.Order.TheVariants as order;
ghost use Rattle.yard_model.specs.declared.input.Input.TheVariants as input;
ghost use Rattle.yard_model.specs.Limits.{most_orders, number_limit, order_limit, settle_limit};
ghost use Rattle.yard_model.specs.Words.{at};
ghost use Rattle.yard_model.specs.World.{World, play, tick_while_left, settle_end, wire_limit};
ghost use Rattle.world_sim.specs.Stepped.{Stepped};
ghost use Rattle.world_sim.specs.Steps.{given, ticked, from_ticks, from_second, from_taking, from_first, from_up, settled_by, all_taken, all_down, ended};
ghost use Rattle.world_sim.specs.Yard.{IsSound, IsSoundTo, IsBacked, Takes, Begins, ComesUp, SettlesBy, Settles};

use crate::laws::standing_is_kept;
use crate::places::is_down;
use crate::yard::Yard;
use behaviour_core::Behaviour;
use std::alloc::AllocError;
use trace_notes::{Notes, Told};
use yard_model::{Fact, Input, NodeNo, ProducerNo};

/// The node that is up alone.
fn first() -> NodeNo
    ensures { result ≡ 1 }
{
    NodeNo::FIRST
}

impl<B: Behaviour + Copy + Drop> Yard<B> {
    /// Every node goes down, and node 1 comes up; what is posted from then on is delivered; it takes
    /// every queue; and it is given its timer while some send that was ordered isn't confirmed.
    pub(crate) fn settle<N: Notes>(&mut self, facts: &mut Told<N>) -> Result<(), AllocError>
        requires world { (w : World) × IsSoundTo Settles self.old w }
        requires version { self.old.version < order_limit }
        requires ups { (k : ℕ) → slice_index_or self.old.ups k 0 ≤ number_limit }
        requires ordered { (k : ℕ) → slice_index_or self.old.ordered k 0 ≤ most_orders }
        ensures { Stepped (IsSoundTo Settles) 18 (play order.Settle) result self.old self.new facts.old facts.new }
    {
        let from = self.begin();
        let bound = self.settle_bound();
        self.settle_by(from, bound, facts)
    }

    /// How many packets were posted so far. A search for a later one passes over what is delivered of those.
    fn begin(&mut self) -> u32
        ensures from { result ≡ length self.old.mail.packets }
        ensures fits { result ≤ wire_limit }
        ensures same { self.new ≡ self.old }
    {
        let from = self.mail.len();
        self.mail.begin_after(from);
        from
    }

    /// The same, of packets above `from`, with a budget for each drain and for the ticks.
    fn settle_by<N: Notes>(
        &mut self,
        from: u32,
        bound: u32,
        facts: &mut Told<N>,
    ) -> Result<(), AllocError>
        requires world { (w : World) × IsSoundTo (SettlesBy from bound) self.old w }
        requires from { from < number_limit }
        requires version { self.old.version < order_limit }
        requires ups { (k : ℕ) → slice_index_or self.old.ups k 0 ≤ number_limit }
        ensures { Stepped (IsSoundTo (SettlesBy from bound)) 18 (settled_by self.old.script from bound) result self.old self.new facts.old facts.new }
    {
        standing_is_kept();
        self.go_all_down(facts)?;
        self.settle_up(from, bound, facts)
    }

    /// Every node that is up goes down. Nobody is told.
    fn go_all_down<N: Notes>(&mut self, facts: &mut Told<N>) -> Result<(), AllocError>
        requires world { (w : World) × IsSound self.old w }
        requires version { self.old.version < order_limit }
        ensures { Stepped IsSound 16 (all_down self.old.script) result self.old self.new facts.old facts.new }
    {
        standing_is_kept();
        let count = self.scene.config().nodes;
        for i in 0..count {
            let Some(n) = NodeNo::new(i + 1) else {
                unreachable!()
            };
            self.go_down(n, facts)?;
        }
        Ok(())
    }

    /// A settle from where node 1 comes up.
    fn settle_up<N: Notes>(
        &mut self,
        from: u32,
        bound: u32,
        facts: &mut Told<N>,
    ) -> Result<(), AllocError>
        requires world { (w : World) × IsSoundTo (ComesUp from bound) self.old w }
        requires from { from < number_limit }
        requires down { at self.old.nodes 0 ≡ None }
        requires version { self.old.version < 3999999999 }
        requires ups { slice_index_or self.old.ups 0 0 < settle_limit }
        ensures { Stepped (IsSoundTo (ComesUp from bound)) 2 (from_up self.old.script from bound) result self.old self.new facts.old facts.new }
    {
        standing_is_kept();
        self.come_up(first(), facts)?;
        if self.is_full() {
            return Ok(());
        }
        self.settle_first(from, bound, facts)
    }

    /// A settle from its first drain on.
    fn settle_first<N: Notes>(
        &mut self,
        from: u32,
        bound: u32,
        facts: &mut Told<N>,
    ) -> Result<(), AllocError>
        requires world { (w : World) × IsSoundTo (Begins from bound) self.old w }
        requires from { from < number_limit }
        requires version { self.old.version < number_limit }
        ensures { Stepped (IsSoundTo (Begins from bound)) 1 (from_first self.old.script from bound) result self.old self.new facts.old facts.new }
    {
        standing_is_kept();
        self.drain(from, bound, facts)?;
        if self.is_full() {
            return Ok(());
        }
        self.settle_taking(from, bound, facts)
    }

    /// A settle from where node 1 takes the queues.
    fn settle_taking<N: Notes>(
        &mut self,
        from: u32,
        bound: u32,
        facts: &mut Told<N>,
    ) -> Result<(), AllocError>
        requires world { (w : World) × IsSoundTo Takes self.old w }
        requires from { from < number_limit }
        requires version { self.old.version < number_limit }
        ensures { Stepped (IsSoundTo Takes) 1 (from_taking self.old.script from bound) result self.old self.new facts.old facts.new }
    {
        standing_is_kept();
        self.take_all(facts)?;
        if self.is_full() {
            return Ok(());
        }
        self.settle_second(from, bound, facts)
    }

    /// Node 1 takes every queue; with each the ordered sends that wait are queued.
    fn take_all<N: Notes>(&mut self, facts: &mut Told<N>) -> Result<(), AllocError>
        requires { (w : World) × IsSound self.old w }
        ensures { Stepped IsSound 0 (all_taken self.old.script) result self.old self.new facts.old facts.new }
    {
        standing_is_kept();
        let count = self.scene.config().producers;
        for i in 0..count {
            let Some(p) = ProducerNo::new(i + 1) else {
                unreachable!()
            };
            self.produce(p, first(), facts)?;
            if self.is_full() {
                return Ok(());
            }
        }
        Ok(())
    }

    /// A settle from its second drain on.
    fn settle_second<N: Notes>(
        &mut self,
        from: u32,
        bound: u32,
        facts: &mut Told<N>,
    ) -> Result<(), AllocError>
        requires world { (w : World) × IsBacked self.old w }
        requires from { from < number_limit }
        requires version { self.old.version < number_limit }
        ensures { Stepped IsBacked 1 (from_second from bound) result self.old self.new facts.old facts.new }
    {
        standing_is_kept();
        self.drain(from, bound, facts)?;
        if self.is_full() {
            return Ok(());
        }
        self.settle_ticks(from, bound, facts)
    }

    /// A settle from its ticks on.
    fn settle_ticks<N: Notes>(
        &mut self,
        from: u32,
        bound: u32,
        facts: &mut Told<N>,
    ) -> Result<(), AllocError>
        requires world { (w : World) × IsBacked self.old w }
        requires from { from < number_limit }
        requires version { self.old.version < number_limit }
        ensures { Stepped IsBacked 1 (from_ticks from bound) result self.old self.new facts.old facts.new }
    {
        standing_is_kept();
        self.tick_while_left(from, bound, facts)?;
        if self.is_full() {
            return Ok(());
        }
        self.settle_end(from, facts)
    }

    /// At most `bound` times, while something is left: a tick at node 1, and what is posted is
    /// delivered.
    fn tick_while_left<N: Notes>(
        &mut self,
        from: u32,
        bound: u32,
        facts: &mut Told<N>,
    ) -> Result<(), AllocError>
        requires world { (w : World) × IsBacked self.old w }
        requires from { from < number_limit }
        ensures { Stepped IsBacked 0 (tick_while_left from bound bound) result self.old self.new facts.old facts.new }
    {
        standing_is_kept();
        for _ in 0..bound {
            if !self.is_any_left() {
                return Ok(());
            }
            self.tick_and_drain(from, bound, facts)?;
            if self.is_full() {
                return Ok(());
            }
        }
        Ok(())
    }

    /// A tick at node 1, and what is posted is delivered.
    fn tick_and_drain<N: Notes>(
        &mut self,
        from: u32,
        n: u32,
        facts: &mut Told<N>,
    ) -> Result<(), AllocError>
        requires world { (w : World) × IsBacked self.old w }
        requires from { from < number_limit }
        ensures { Stepped IsBacked 0 (ticked from n) result self.old self.new facts.old facts.new }
    {
        standing_is_kept();
        self.tick_first(facts)?;
        if self.is_full() {
            return Ok(());
        }
        self.drain(from, n, facts)
    }

    /// A tick at node 1, where it is up.
    fn tick_first<N: Notes>(&mut self, facts: &mut Told<N>) -> Result<(), AllocError>
        requires { (w : World) × IsSound self.old w }
        ensures { Stepped IsSound 0 (given 1 input.Tick) result self.old self.new facts.old facts.new }
    {
        let n = first();
        if is_down(&self.nodes, n) {
            return Ok(());
        }
        self.give(n, &Input::Tick, facts)
    }

    /// Where nothing is left, and every packet above `from` was delivered, node 1 goes down, and it is
    /// told that all is settled.
    fn settle_end<N: Notes>(&mut self, from: u32, facts: &mut Told<N>) -> Result<(), AllocError>
        requires world { (w : World) × IsSound self.old w }
        requires from { from < number_limit }
        requires version { self.old.version < number_limit }
        ensures { Stepped IsSound 1 (settle_end from) result self.old self.new facts.old facts.new }
    {
        if self.is_unsettled(from) {
            return Ok(());
        }
        self.end_settled(facts)
    }

    /// Node 1 goes down, and it is told that all is settled.
    fn end_settled<N: Notes>(&mut self, facts: &mut Told<N>) -> Result<(), AllocError>
        requires world { (w : World) × IsSound self.old w }
        requires version { self.old.version < number_limit }
        ensures { Stepped IsSound 1 ended result self.old self.new facts.old facts.new }
    {
        self.go_down(first(), facts)?;
        facts.push(Fact::Settled)
    }
}
