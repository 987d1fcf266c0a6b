//! The packets of a node.
ghost use Rattle.std.specs.Prelude.{◌≡◌, ◌<◌, ◌≤◌, [], ◌∷◌, Bool, true, false, length, IsTrue, if◌then◌else◌};
ghost use Rattle.yard_model.specs.declared.incarnation.Slot.{Slot};
ghost use Rattle.yard_model.specs.declared.packet.Body.TheVariants as body;
ghost use Rattle.yard_model.specs.declared.input.Phase.TheVariants as phase;
ghost use Rattle.yard_model.specs.Entities.{is_hosted, is_in_phase};
ghost use Rattle.yard_model.specs.Genuine.{is_genuine, is_genuine_packet, is_shard};
ghost use Rattle.yard_model.specs.Move.{post};
ghost use Rattle.yard_model.specs.Node as rules;
ghost use Rattle.yard_model.specs.Node.{by_region};
ghost use Rattle.yard_model.specs.Region.{route_away};
ghost use Rattle.yard_model.specs.Setting.{shard_of};
ghost use Rattle.producer_ctl.specs.Paired.{name_at};
ghost use Rattle.shard_entities.specs.Placed.{IsPlace};
ghost use Rattle.node_core.specs.Calling.{is_for_producer};
ghost use Rattle.node_laws.specs.NodeStands.{IsSoundNode, IsViewed};
ghost use Rattle.node_laws.specs.NodeTurns.{Promised};
ghost use Rattle.node_core.specs.Found.{none};
ghost use Rattle.node_core.specs.Gave.{Gave, moment, is_local};
ghost use Rattle.node_core.specs.Leased.{Rests, is_for_coordinator, is_newer, is_view};
ghost use Rattle.node_core.specs.Releasing.{TookRoom};
ghost use Rattle.node_core.specs.Standing.{IsReady, HasRoomFor};
ghost use Rattle.node_core.specs.Went.{Went};

use crate::actors::Actors;
use actor_laws::entities::entities_stand;
use actor_laws::messages::genuine_is_message;
use actor_laws::producer::{producer_keeps, producer_routes};
use actor_laws::region::{region_keeps, shards_are_there};
use behaviour_core::Behaviour;
use producer_ctl::rules_are_calls;
use region_actor::laws::{away_room, same_law};
use shard_entities::Place;
use shard_lease::Leases;
use yard_model::{Body, Charter, Incarnation, Item, Message, Out, Packet, ShardNo, Stamp};

impl<B: Behaviour + Drop> Actors<B> {
    /// A packet.
    #[inline(always)]
    pub(crate) fn packet<L: Leases>(
        &mut self,
        charter: &Charter,
        packet: &Packet,
        leases: &mut L,
        out: &mut Out,
    )
        requires charter { charter.now ≡ self.old.script }
        requires genuine { IsTrue (is_genuine_packet self.old.script packet.now) }
        requires promised { Promised (L.meaning leases.old).vouches self.old.state packet.now.body }
        requires within { (L.meaning leases.old).within packet.now.from.number ≡ true }
        requires sound { IsSoundNode self.old.script self.old.state }
        requires viewed { IsViewed self.old.state }
        requires ready { IsReady self.old out.old.spare }
        requires rests { Rests (L.meaning leases.old) self.old.script self.old.state }
        ensures script { self.new.script ≡ self.old.script }
        ensures gave { (asked : (Slot → Bool)) × Gave self.old.script asked (λ lists. rules.packet lists packet.now.from packet.now.body self.old.state) (moment (L.meaning leases.old) self.old.state out.old.items) (moment (L.meaning leases.new) self.new.state out.new.items) }
    {
        self.knows();
        shards_are_there();
        if is_for_coordinator(&packet.body) {
            self.coordinate(packet, out);
        } else if is_for_producer(&packet.body) {
            producer_keeps();
            producer_routes();
            region_keeps();
            entities_stand();
            genuine_is_message();
            rules_are_calls();
            self.produce_on(packet, out);
        } else {
            self.other_packet(charter, packet, leases, out);
        }
    }

    /// A packet that is neither for the coordinator nor for a producer.
    fn other_packet<L: Leases>(
        &mut self,
        charter: &Charter,
        packet: &Packet,
        leases: &mut L,
        out: &mut Out,
    )
        requires charter { charter.now ≡ self.old.script }
        requires other { is_for_coordinator packet.now.body ≡ false }
        requires others { is_for_producer packet.now.body ≡ false }
        requires genuine { IsTrue (is_genuine_packet self.old.script packet.now) }
        requires sound { IsSoundNode self.old.script self.old.state }
        requires ready { IsReady self.old out.old.spare }
        requires rests { Rests (L.meaning leases.old) self.old.script self.old.state }
        ensures script { self.new.script ≡ self.old.script }
        ensures gave { (asked : (Slot → Bool)) × Gave self.old.script asked (λ lists. rules.packet lists packet.now.from packet.now.body self.old.state) (moment (L.meaning leases.old) self.old.state out.old.items) (moment (L.meaning leases.new) self.new.state out.new.items) }
    {
        self.knows();
        shards_are_there();
        match &packet.body {
            Body::View { .. } => self.take_view(charter, packet, leases, out),
            Body::RegisterAck => {
                self.hear(packet, out);
            }
            Body::BeginHandOff(_, _) => {
                self.hear(packet, out);
            }
            Body::ShardHome(s, home, stamp) => {
                self.shard_home(packet, *s, *home, *stamp, leases, out)
            }
            Body::HostShard(s, stamp) => self.host_shard(packet, *s, *stamp, leases, out),
            Body::HandOff(s, stamp) => self.hand_off(*s, *stamp, packet.from, leases, out),
            Body::Recovered(entity) => self.recovered(entity, out),
            Body::Passivate(entity) => self.passivate(entity, out),
            Body::StopEntity(entity) => self.stop(entity, leases, out),
            Body::Sequenced(message) => self.route(message, out),
            _ => unreachable!(),
        }
    }

    /// A view: where it is newer it is taken; Lead; the region asks to be registered.
    fn take_view<L: Leases>(
        &mut self,
        charter: &Charter,
        packet: &Packet,
        leases: &mut L,
        out: &mut Out,
    )
        requires charter { charter.now ≡ self.old.script }
        requires view { is_view packet.now.body ≡ true }
        requires genuine { IsTrue (is_genuine_packet self.old.script packet.now) }
        requires ready { IsReady self.old out.old.spare }
        requires rests { Rests (L.meaning leases.old) self.old.script self.old.state }
        ensures script { self.new.script ≡ self.old.script }
        ensures gave { (asked : (Slot → Bool)) × Gave self.old.script asked (λ lists. rules.packet lists packet.now.from packet.now.body self.old.state) (moment (L.meaning leases.old) self.old.state out.old.items) (moment (L.meaning leases.new) self.new.state out.new.items) }
    {
        if self.is_newer(packet) {
            self.knows();
            self.hear(packet, out);
            self.lead(charter, leases, out);
            self.ask_to_register(out);
        }
    }

    /// Whether a packet is a view that is newer than that of the region.
    fn is_newer(&self, packet: &Packet) -> bool
        ensures { result ≡ is_newer packet.now.body self.now.state.region.version }
    {
        match &packet.body {
            Body::View { version, .. } => *version > self.region.version(),
            _ => false,
        }
    }

    /// A shard is to be handed off: where that is taken, and the shard is hosted, its entities are
    /// told to stop; where it isn't hosted, the coordinator is told that it is stopped.
    fn hand_off<L: Leases>(
        &mut self,
        s: ShardNo,
        stamp: Stamp,
        from: Incarnation,
        leases: &mut L,
        out: &mut Out,
    )
        requires shard { is_shard self.old.script s ≡ true }
        requires ready { IsReady self.old out.old.spare }
        requires rests { Rests (L.meaning leases.old) self.old.script self.old.state }
        ensures script { self.new.script ≡ self.old.script }
        ensures gave { Gave self.old.script none (λ lists. rules.hand_off s stamp from self.old.state) (moment (L.meaning leases.old) self.old.state out.old.items) (moment (L.meaning leases.new) self.new.state out.new.items) }
    {
        self.knows();
        self.region.shards();
        if !self.region.takes_hand_off(s, &stamp) {
            return;
        }
        if self.is_hosted(s) {
            self.hand_off_hosted(s, stamp, from, leases, out);
        } else {
            self.post_stopped(s, stamp, from, out);
        }
    }

    /// Whether a shard is hosted.
    pub(crate) fn is_hosted(&self, s: ShardNo) -> bool
        requires { is_shard self.now.script s ≡ true }
        ensures { result ≡ is_hosted self.now.state.entities s }
    {
        self.entities.store(s).is_some()
    }

    /// The coordinator is told that a shard is stopped.
    fn post_stopped(&mut self, s: ShardNo, stamp: Stamp, to: Incarnation, out: &mut Out)
        requires room { 1 ≤ out.old.spare }
        ensures { Went self.old self.new out.old out.new (by_region (post self.old.state.who to (body.ShardStopped s stamp)) ∷ []) }
    {
        let from = self.region.who();
        let body = Body::ShardStopped(s, stamp);
        out.push(Item::Post(Packet { from, to, body }));
    }

    /// A message is routed: to its entity where its shard is running here, else away.
    pub(crate) fn route(&mut self, message: &Message, out: &mut Out)
        requires genuine { is_genuine self.old.script message.now ≡ true }
        requires rooms { HasRoomFor 2 self.old (shard_of self.old.state.set message.now.entity) }
        requires room { 4 ≤ out.old.spare }
        ensures went { Went self.old self.new out.old out.new (rules.route message.now self.old.state) }
        ensures taken { TookRoom (shard_of self.old.state.set message.now.entity) (if is_in_phase phase.Active self.old.state.entities message.now.entity then 2 else 0) self.old self.new }
        ensures pending { self.new.pending ≡ self.old.pending }
    {
        let place = self.place_of(message);
        if self.is_local(place.shard(), message) {
            self.deliver(&place, message, out);
        } else {
            self.route_away(place.shard(), message, out);
        }
    }

    /// A message of this shard, to the name at this place, is routed: to its entity where the shard is running
    /// here, else away.
    pub(crate) fn route_to(&mut self, s: ShardNo, at: usize, message: &Message, out: &mut Out)
        requires shard { s ≡ shard_of self.old.state.set message.now.entity }
        requires range { s < self.old.script.config.shards }
        requires within { at < length self.old.state.set.names }
        requires name { name_at self.old.state.set.names at ≡ message.now.entity }
        requires genuine { is_genuine self.old.script message.now ≡ true }
        requires rooms { HasRoomFor 2 self.old (shard_of self.old.state.set message.now.entity) }
        requires room { 4 ≤ out.old.spare }
        ensures went { Went self.old self.new out.old out.new (rules.route message.now self.old.state) }
        ensures taken { TookRoom (shard_of self.old.state.set message.now.entity) (if is_in_phase phase.Active self.old.state.entities message.now.entity then 2 else 0) self.old self.new }
        ensures pending { self.new.pending ≡ self.old.pending }
    {
        if self.is_local(s, message) {
            let place = self.place_at(at);
            self.deliver(&place, message, out);
        } else {
            self.route_away(s, message, out);
        }
    }

    /// Where the entity of a message stands.
    fn place_of(&self, message: &Message) -> Place
        requires genuine { is_genuine self.now.script message.now ≡ true }
        ensures place { IsPlace self.now.script result }
        ensures entity { result.entity ≡ message.now.entity }
        ensures shard { result.shard ≡ shard_of self.now.state.set message.now.entity }
        ensures range { result.shard < self.now.script.config.shards }
    {
        genuine_is_message();
        self.entities.place(&message.entity)
    }

    /// Where the name stands that has this place among the script's.
    fn place_at(&self, at: usize) -> Place
        requires { at < length self.now.state.set.names }
        ensures place { IsPlace self.now.script result }
        ensures entity { result.entity ≡ name_at self.now.state.set.names at }
    {
        self.entities.place_at(at)
    }

    /// Whether this shard, which is that of the message, is running here, and here is its home.
    fn is_local(&self, s: ShardNo, message: &Message) -> bool
        requires shard { s ≡ shard_of self.now.state.set message.now.entity }
        requires range { s < self.now.script.config.shards }
        ensures { result ≡ is_local message.now self.now.state }
    {
        let _ = message;
        self.region.is_home(s) && self.entities.running().has(s)
    }

    /// A message of this shard that isn't for here is routed away.
    fn route_away(&mut self, s: ShardNo, message: &Message, out: &mut Out)
        requires shard { s ≡ shard_of self.old.state.set message.now.entity }
        requires range { s < self.old.script.config.shards }
        requires genuine { is_genuine self.old.script message.now ≡ true }
        requires away { is_local message.now self.old.state ≡ false }
        requires room { 2 ≤ out.old.spare }
        ensures went { Went self.old self.new out.old out.new (rules.of_region (route_away message.now) self.old.state) }
        ensures rooms { self.new.rooms ≡ self.old.rooms }
        ensures pending { self.new.pending ≡ self.old.pending }
    {
        away_room();
        same_law();
        self.region.shards();
        self.region.route_away(s, message, out);
    }
}

/// Whether a packet is for the coordinator, where the node is it.
fn is_for_coordinator(body: &Body) -> bool
    ensures { result ≡ is_for_coordinator body.now }
{
    matches!(
        body,
        Body::Register
            | Body::GetShardHome(_)
            | Body::ShardStarted(_)
            | Body::BeginHandOffAck(_, _)
            | Body::ShardStopped(_, _)
            | Body::GracefulShutdownReq
    )
}

/// Whether a packet is for a producer.
fn is_for_producer(body: &Body) -> bool
    ensures { result ≡ is_for_producer body.now }
{
    matches!(
        body,
        Body::Request { .. } | Body::Resend { .. } | Body::Ack { .. }
    )
}
