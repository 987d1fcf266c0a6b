//! Orders that give one node one input.
ghost use Rattle.std.specs.Prelude.{◌≡◌, IsTrue, true};
ghost use Rattle.yard_model.specs.declared.charter.Order.TheVariants as order;
ghost use Rattle.yard_model.specs.Genuine.{is_producer, is_brought};
ghost use Rattle.yard_model.specs.Behaviour.{is_in};
ghost use Rattle.yard_model.specs.World.{World, play};
ghost use Rattle.world_sim.specs.Stepped.{Stepped};
ghost use Rattle.world_sim.specs.Yard.{IsSound};

use crate::places::where_up;
use crate::seek::{Sought, seek};
use crate::yard::Yard;
use behaviour_core::Behaviour;
use std::alloc::AllocError;
use trace_notes::{Notes, Told};
use yard_model::{EntityName, Input, Keep, NodeNo, ProducerNo};

impl<B: Behaviour + Copy + Drop> Yard<B> {
    /// A node is told to leave the cluster, where it is up.
    pub(crate) fn leave<N: Notes>(
        &mut self,
        n: NodeNo,
        facts: &mut Told<N>,
    ) -> Result<(), AllocError>
        requires world { (w : World) × IsSound self.old w }
        requires node { is_in 1 self.old.script.config.nodes n ≡ true }
        ensures { Stepped IsSound 0 (play (order.Leave n)) result self.old self.new facts.old facts.new }
    {
        let to = where_up(&self.nodes, n);
        self.ask(to, &Input::Leave, facts)
    }

    /// A node is given its timer, where it is up.
    pub(crate) fn tick<N: Notes>(
        &mut self,
        n: NodeNo,
        facts: &mut Told<N>,
    ) -> Result<(), AllocError>
        requires world { (w : World) × IsSound self.old w }
        requires node { is_in 1 self.old.script.config.nodes n ≡ true }
        ensures { Stepped IsSound 0 (play (order.Tick n)) result self.old self.new facts.old facts.new }
    {
        let to = where_up(&self.nodes, n);
        self.ask(to, &Input::Tick, facts)
    }

    /// The coordinator, where there is one, is to move up to so many shards.
    pub(crate) fn rebalance<N: Notes>(
        &mut self,
        most: u8,
        facts: &mut Told<N>,
    ) -> Result<(), AllocError>
        requires { (w : World) × IsSound self.old w }
        ensures { Stepped IsSound 0 (play (order.Rebalance most)) result self.old self.new facts.old facts.new }
    {
        let to = seek(&self.nodes, &Sought::Coordinator);
        self.ask(to, &Input::Rebalance(most), facts)
    }

    /// The holder of a producer's queue, where there is one, gives it back.
    pub(crate) fn rest<N: Notes>(
        &mut self,
        p: ProducerNo,
        facts: &mut Told<N>,
    ) -> Result<(), AllocError>
        requires world { (w : World) × IsSound self.old w }
        requires producer { is_producer self.old.script p ≡ true }
        ensures { Stepped IsSound 0 (play (order.Rest p)) result self.old self.new facts.old facts.new }
    {
        let to = seek(&self.nodes, &Sought::Queue(p));
        self.ask(to, &Input::Rest(p), facts)
    }

    /// An entity asks for its stop, where it is active.
    pub(crate) fn passivate<N: Notes>(
        &mut self,
        entity: &EntityName,
        facts: &mut Told<N>,
    ) -> Result<(), AllocError>
        requires world { (w : World) × IsSound self.old w }
        requires brought { is_brought self.old.script entity.now ≡ true }
        ensures { Stepped IsSound 0 (play (order.Passivate entity.now)) result self.old self.new facts.old facts.new }
    {
        let to = seek(&self.nodes, &Sought::Active(*entity));
        self.ask(to, &Input::Passivate(*entity), facts)
    }

    /// The next write of an entity is to fail, where it is active.
    pub(crate) fn fail_write<N: Notes>(
        &mut self,
        entity: &EntityName,
        keep: Keep,
        facts: &mut Told<N>,
    ) -> Result<(), AllocError>
        requires world { (w : World) × IsSound self.old w }
        requires brought { is_brought self.old.script entity.now ≡ true }
        ensures { Stepped IsSound 0 (play (order.FailWrite entity.now keep)) result self.old self.new facts.old facts.new }
    {
        let to = seek(&self.nodes, &Sought::Active(*entity));
        self.ask(to, &Input::FailWrite(*entity, keep), facts)
    }
}
