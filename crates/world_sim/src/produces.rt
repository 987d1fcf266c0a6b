//! Producers: who takes their queues, and what they send.
ghost use Rattle.std.specs.Prelude.{◌≡◌, ◌-◌, true, false, is_none, IsTrue, OnOk};
ghost use Rattle.yard_model.specs.declared.charter.Order.TheVariants as order;
ghost use Rattle.yard_model.specs.declared.input.Input.TheVariants as input;
ghost use Rattle.yard_model.specs.Behaviour.{is_in};
ghost use Rattle.yard_model.specs.Genuine.{is_producer};
ghost use Rattle.yard_model.specs.World.{World, play, send_waiting, send_all_waiting};
ghost use Rattle.world_sim.specs.Stepped.{Stepped};
ghost use Rattle.world_sim.specs.Steps.{produced};
ghost use Rattle.world_sim.specs.Yard.{IsSound, IsSoundAt, MayGive};

use crate::laws::standing_is_kept;
use crate::places::count_at;
use crate::queues::{is_without, waiting};
use crate::seek::{Sought, seek};
use crate::yard::Yard;
use behaviour_core::Behaviour;
use std::alloc::AllocError;
use trace_notes::{Notes, Told};
use yard_model::{Command, EntityName, Fact, Input, NodeNo, ProducerNo};

impl<B: Behaviour + Copy + Drop> Yard<B> {
    /// A node asks for a producer's queue, where it is up and doesn't hold it. Where it is granted,
    /// the sends that were ordered and wait are queued.
    pub(crate) fn produce<N: Notes>(
        &mut self,
        p: ProducerNo,
        n: NodeNo,
        facts: &mut Told<N>,
    ) -> Result<(), AllocError>
        requires world { (w : World) × IsSound self.old w }
        requires producer { is_producer self.old.script p ≡ true }
        requires node { is_in 1 self.old.script.config.nodes n ≡ true }
        ensures { Stepped IsSound 0 (play (order.Produce p n)) result self.old self.new facts.old facts.new }
    {
        if is_without(&self.nodes, n, p) {
            self.take(p, n, facts)
        } else {
            facts.push(Fact::Nothing)
        }
    }

    /// A node that is up asks for a producer's queue; then the sends that wait.
    fn take<N: Notes>(
        &mut self,
        p: ProducerNo,
        n: NodeNo,
        facts: &mut Told<N>,
    ) -> Result<(), AllocError>
        requires world { (w : World) × MayGive (input.Produce p) n self.old w }
        requires producer { is_producer self.old.script p ≡ true }
        ensures { Stepped (MayGive (input.Produce p) n) 0 (produced p n) result self.old self.new facts.old facts.new }
    {
        standing_is_kept();
        self.give(n, &Input::Produce(p), facts)?;
        if self.mail.is_full() {
            return Ok(());
        }
        self.send_all_waiting(p, n, facts)
    }

    /// The ordered sends of a producer that wait are queued, where the node holds its queue.
    fn send_all_waiting<N: Notes>(
        &mut self,
        p: ProducerNo,
        n: NodeNo,
        facts: &mut Told<N>,
    ) -> Result<(), AllocError>
        requires world { (w : World) × IsSoundAt n self.old w }
        requires producer { is_producer self.old.script p ≡ true }
        ensures { Stepped (IsSoundAt n) 0 (send_all_waiting p n) result self.old self.new facts.old facts.new }
    {
        let ordered = count_at(&self.ordered, p);
        let count = waiting(&self.nodes, n, p, ordered);
        self.send_waiting(p, n, count, facts)
    }

    /// The next so many sends of a producer are queued at the node that holds its queue.
    fn send_waiting<N: Notes>(
        &mut self,
        p: ProducerNo,
        n: NodeNo,
        count: u32,
        facts: &mut Told<N>,
    ) -> Result<(), AllocError>
        requires world { (w : World) × IsSoundAt n self.old w }
        requires producer { is_producer self.old.script p ≡ true }
        ensures { Stepped (IsSoundAt n) 0 (send_waiting p n count) result self.old self.new facts.old facts.new }
    {
        standing_is_kept();
        for _ in 0..count {
            self.give(n, &Input::Send(p), facts)?;
            if self.mail.is_full() {
                return Ok(());
            }
        }
        Ok(())
    }

    /// The holder of a producer's queue, where there is one, queues the producer's next send; else
    /// the send waits.
    pub(crate) fn send<N: Notes>(
        &mut self,
        p: ProducerNo,
        entity: &EntityName,
        command: &Command,
        facts: &mut Told<N>,
    ) -> Result<(), AllocError>
        requires world { (w : World) × IsSound self.old w }
        requires producer { is_producer self.old.script p ≡ true }
        ensures { Stepped IsSound 0 (play (order.Send p entity.now command.now)) result self.old self.new facts.old facts.new }
    {
        match seek(&self.nodes, &Sought::Queue(p)) {
            Some(n) => self.give(n, &Input::Send(p), facts),
            None => facts.push(Fact::Waits(p, *entity, *command)),
        }
    }
}
