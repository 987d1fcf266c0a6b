//! The inputs of a node.
ghost use Rattle.std.specs.Prelude.{◌≡◌, Bool, true};
ghost use Rattle.yard_model.specs.declared.incarnation.Slot.{Slot};
ghost use Rattle.yard_model.specs.declared.incarnation.Slot.TheVariants as slot;
ghost use Rattle.yard_model.specs.Node.{turn};
ghost use Rattle.yard_model.specs.Script.{IsScript};
ghost use Rattle.yard_model.specs.World.{all_sends};
ghost use Rattle.node_laws.specs.NodeStands.{IsSoundNode, IsViewed};
ghost use Rattle.node_laws.specs.NodeTurns.{MayTake};
ghost use Rattle.node_core.specs.Gave.{Gave, moment};
ghost use Rattle.node_core.specs.Leased.{Rests, IsFor, IfPacket, IfProduce};
ghost use Rattle.node_core.specs.Standing.{IsReady};

use crate::actors::Actors;
use actor_laws::entities::entities_stand;
use actor_laws::messages::genuine_is_message;
use actor_laws::producer::{producer_keeps, producer_routes};
use actor_laws::region::{region_keeps, shards_are_there};
use behaviour_core::Behaviour;
use producer_ctl::rules_are_calls;
use shard_lease::Leases;
use yard_model::{Charter, Input, Out};

impl<B: Behaviour + Drop> Actors<B> {
    /// An input, whole.
    pub(crate) fn input<L: Leases>(
        &mut self,
        charter: &Charter,
        input: &Input,
        leases: &mut L,
        out: &mut Out,
    )
        requires charter { charter.now ≡ self.old.script }
        requires script { IsScript self.old.script }
        requires addressed { IfPacket input.now (IsFor (L.meaning leases.old) self.old.state.who) }
        requires may { MayTake self.old.script (L.meaning leases.old).vouches self.old.state input.now }
        requires produces { IfProduce input.now (λ p. (L.meaning leases.old).admits self.old.state.who.node (slot.Queue p) ≡ true) }
        requires sound { IsSoundNode self.old.script self.old.state }
        requires viewed { IsViewed self.old.state }
        requires ready { IsReady self.old out.old.spare }
        requires rests { Rests (L.meaning leases.old) self.old.script self.old.state }
        ensures script { self.new.script ≡ self.old.script }
        ensures gave { (asked : (Slot → Bool)) × Gave self.old.script asked (λ lists. turn (all_sends self.old.script) lists input.now self.old.state) (moment (L.meaning leases.old) self.old.state out.old.items) (moment (L.meaning leases.new) self.new.state out.new.items) }
    {
        self.knows();
        match input {
            Input::Packet(packet) => self.packet(charter, packet, leases, out),
            Input::Tick => self.tick(charter, leases, out),
            Input::Produce(p) => self.produce(*p, leases, out),
            Input::Rest(p) => self.rest(*p, leases, out),
            Input::Send(p) => {
                producer_keeps();
                producer_routes();
                region_keeps();
                entities_stand();
                genuine_is_message();
                shards_are_there();
                rules_are_calls();
                self.send(*p, charter, out);
            }
            Input::Leave => self.leave(out),
            Input::Rebalance(limit) => self.rebalance(*limit, out),
            Input::Passivate(entity) => self.ask_to_passivate(entity, out),
            Input::FailWrite(entity, keep) => self.arm(entity, *keep, out),
        }
    }
}
