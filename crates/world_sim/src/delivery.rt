//! Packets that are delivered.
ghost use Rattle.std.specs.Prelude.{◌≡◌, ◌<◌, ◌≤◌, length, Some};
ghost use Rattle.yard_model.specs.Limits.{number_limit};
ghost use Rattle.yard_model.specs.World.{World, hand_over, deliver, deliver_by, drain, pump};
ghost use Rattle.wire_packet.specs.Wire.{packet_at};
ghost use Rattle.world_sim.specs.Stepped.{Stepped};
ghost use Rattle.world_sim.specs.Steps.{marked};
ghost use Rattle.world_sim.specs.Yard.{IsSound, IsSoundFor, IsSoundTo, IsBacked, Delivers, Drains};

use crate::laws::standing_is_kept;
use crate::places::is_up;
use crate::yard::Yard;
use behaviour_core::Behaviour;
use std::alloc::AllocError;
use trace_notes::{Notes, Told};
use yard_model::{Body, Fact, Incarnation, NodeNo, Packet};

impl<B: Behaviour + Copy + Drop> Yard<B> {
    /// The packet of this number is delivered, where one was posted.
    pub(crate) fn deliver<N: Notes>(
        &mut self,
        number: u32,
        facts: &mut Told<N>,
    ) -> Result<(), AllocError>
        requires { (w : World) × IsSoundTo (Delivers number) self.old w }
        ensures { Stepped (IsSoundTo (Delivers number)) 0 (deliver number) result self.old self.new facts.old facts.new }
    {
        let mut packet = no_packet();
        self.deliver_over(number, &mut packet, facts)
    }

    /// The packet of this number, which is written over another, is delivered, where one was posted. Where
    /// many are delivered one packet is made for all of them.
    fn deliver_over<N: Notes>(
        &mut self,
        number: u32,
        packet: &mut Packet,
        facts: &mut Told<N>,
    ) -> Result<(), AllocError>
        requires { (w : World) × IsSoundTo (Delivers number) self.old w }
        ensures { Stepped (IsSoundTo (Delivers number)) 0 (deliver number) result self.old self.new facts.old facts.new }
    {
        if !self.mail.has(number) {
            return facts.push(Fact::Nothing);
        }
        self.mail.write(number, packet);
        self.deliver_packet(number, packet, facts)
    }

    /// This packet, of this number, is delivered.
    fn deliver_packet<N: Notes>(
        &mut self,
        number: u32,
        packet: &Packet,
        facts: &mut Told<N>,
    ) -> Result<(), AllocError>
        requires world { (w : World) × IsSoundTo (Delivers number) self.old w }
        requires above { 0 < number }
        requires posted { packet_at self.old.mail.packets number ≡ Some packet.now }
        ensures { Stepped (IsSoundTo (Delivers number)) 0 (deliver_by number (Some packet.now)) result self.old self.new facts.old facts.new }
    {
        standing_is_kept();
        self.mark(number, facts)?;
        self.hand_over(number, packet, facts)
    }

    /// A packet that was posted is delivered now.
    fn mark<N: Notes>(&mut self, number: u32, facts: &mut Told<N>) -> Result<(), AllocError>
        requires world { (w : World) × IsSound self.old w }
        requires above { 0 < number }
        requires posted { number ≤ length self.old.mail.packets }
        ensures { Stepped IsSound 0 (marked number) result self.old self.new facts.old facts.new }
    {
        facts.push(Fact::Got(number))?;
        self.mail.got(number);
        Ok(())
    }

    /// The packet of this number at the node that it is addressed to, where that incarnation is up. One
    /// that was posted before the number of shards last changed goes to nobody.
    fn hand_over<N: Notes>(
        &mut self,
        number: u32,
        packet: &Packet,
        facts: &mut Told<N>,
    ) -> Result<(), AllocError>
        requires { (w : World) × IsSoundFor number packet.now self.old w }
        ensures { Stepped (IsSoundFor number packet.now) 0 (hand_over number packet.now) result self.old self.new facts.old facts.new }
    {
        if number <= self.past {
            return Ok(());
        }
        if !is_up(&self.nodes, &packet.to) {
            return Ok(());
        }
        self.give_packet(packet.to.node, packet, facts)
    }

    /// At most `n` packets above `from` that were never delivered are delivered, the lowest number
    /// first, also those that are posted meanwhile.
    pub(crate) fn drain<N: Notes>(
        &mut self,
        from: u32,
        n: u32,
        facts: &mut Told<N>,
    ) -> Result<(), AllocError>
        requires world { (w : World) × IsSoundTo (Drains from n) self.old w }
        requires from { from < number_limit }
        ensures { Stepped (IsSoundTo (Drains from n)) 0 (drain from n) result self.old self.new facts.old facts.new }
    {
        standing_is_kept();
        let mut packet = no_packet();
        for _ in 0..n {
            let Some(number) = self.mail.next_after(from) else {
                return Ok(());
            };
            self.deliver_over(number, &mut packet, facts)?;
            if self.mail.is_full() {
                return Ok(());
            }
        }
        Ok(())
    }

    /// At most `n` packets that were never delivered are delivered; where there is none, nothing.
    pub(crate) fn pump<N: Notes>(&mut self, n: u32, facts: &mut Told<N>) -> Result<(), AllocError>
        requires { (w : World) × IsBacked self.old w }
        ensures { Stepped IsBacked 0 (pump n) result self.old self.new facts.old facts.new }
    {
        standing_is_kept();
        if !self.mail.has_fresh() {
            return facts.push(Fact::Nothing);
        }
        self.drain(0, n, facts)
    }
}

/// What a packet is written over.
fn no_packet() -> Packet {
    Packet {
        from: nobody(),
        to: nobody(),
        body: Body::Register,
    }
}

/// An incarnation that is none.
fn nobody() -> Incarnation {
    Incarnation {
        node: NodeNo::FIRST,
        number: 0,
    }
}
