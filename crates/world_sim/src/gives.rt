//! An input at one node.
ghost use Rattle.std.specs.Prelude.{◌≡◌, ◌-◌, false, is_none, OnOk};
ghost use Rattle.yard_model.specs.declared.input.Input.TheVariants as input;
ghost use Rattle.yard_model.specs.Words.{at};
ghost use Rattle.yard_model.specs.World.{World};
ghost use Rattle.world_sim.specs.Stepped.{Stepped};
ghost use Rattle.world_sim.specs.Steps.{given, asked};
ghost use Rattle.world_sim.specs.Yard.{MayGive, MayAsk};

use crate::turns::{hand_at, hand_packet_at};
use crate::yard::Yard;
use behaviour_core::Behaviour;
use std::alloc::AllocError;
use trace_notes::{Notes, Told};
use yard_model::{Fact, Input, NodeNo, Packet};

impl<B: Behaviour + Copy + Drop> Yard<B> {
    /// The node of this number, which is up, is given an input.
    pub(crate) fn give<N: Notes>(
        &mut self,
        n: NodeNo,
        input: &Input,
        facts: &mut Told<N>,
    ) -> Result<(), AllocError>
        requires { (w : World) × MayGive input.now n self.old w }
        ensures up { OnOk result (is_none (at self.new.nodes (n - 1)) ≡ false) }
        ensures stepped { Stepped (MayGive input.now n) 0 (given n input.now) result self.old self.new facts.old facts.new }
    {
        hand_at(
            &mut self.nodes,
            n,
            self.scene.charter(),
            input,
            &mut self.book,
            &mut self.mail,
        )?;
        self.mail.tell_items(facts)
    }

    /// The node of this number, which is up, is given a packet.
    pub(crate) fn give_packet<N: Notes>(
        &mut self,
        n: NodeNo,
        packet: &Packet,
        facts: &mut Told<N>,
    ) -> Result<(), AllocError>
        requires { (w : World) × MayGive (input.Packet packet.now) n self.old w }
        ensures up { OnOk result (is_none (at self.new.nodes (n - 1)) ≡ false) }
        ensures stepped { Stepped (MayGive (input.Packet packet.now) n) 0 (given n (input.Packet packet.now)) result self.old self.new facts.old facts.new }
    {
        hand_packet_at(
            &mut self.nodes,
            n,
            self.scene.charter(),
            packet,
            &mut self.book,
            &mut self.mail,
        )?;
        self.mail.tell_items(facts)
    }

    /// The node of this number is given an input; without a number nothing happens.
    pub(crate) fn ask<N: Notes>(
        &mut self,
        to: Option<NodeNo>,
        input: &Input,
        facts: &mut Told<N>,
    ) -> Result<(), AllocError>
        requires { (w : World) × MayAsk input.now to self.old w }
        ensures { Stepped (MayAsk input.now to) 0 (asked to input.now) result self.old self.new facts.old facts.new }
    {
        match to {
            Some(n) => self.give(n, input, facts),
            None => facts.push(Fact::Nothing),
        }
    }
}
