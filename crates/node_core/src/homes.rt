//! Shards whose home a node learns, and those that the tick starts again: Start and Release together.
ghost use Rattle.std.specs.Prelude.{◌≡◌, ◌+◌, ◌*◌, ◌≤◌, ◌&&◌, not, Bool, true, false, [], ◌∷◌, length, IsTrue};
ghost use Rattle.yard_model.specs.declared.incarnation.Slot.{Slot};
ghost use Rattle.yard_model.specs.declared.packet.Body.TheVariants as body;
ghost use Rattle.yard_model.specs.Entities.{is_hosted};
ghost use Rattle.yard_model.specs.Genuine.{is_genuine_packet, is_shard};
ghost use Rattle.yard_model.specs.Move.{post};
ghost use Rattle.yard_model.specs.Node as rules;
ghost use Rattle.yard_model.specs.Node.{by_region};
ghost use Rattle.yard_model.specs.Region.{is_home, takes_home, takes_host};
ghost use Rattle.yard_model.specs.Setting.{names_of};
ghost use Rattle.node_laws.specs.NodeStands.{IsSoundNode};
ghost use Rattle.node_core.specs.Gave.{Gave, moment};
ghost use Rattle.node_core.specs.Leased.{Rests};
ghost use Rattle.node_core.specs.Releasing.{kept_all};
ghost use Rattle.node_core.specs.Standing.{IsReady};
ghost use Rattle.node_core.specs.Started.{asks_again, asks_start, start_home, AgainLeaves, StartLeaves};
ghost use Rattle.node_core.specs.Went.{Went};

use crate::actors::Actors;
use actor_laws::entities::entities_stand;
use actor_laws::messages::genuine_is_message;
use actor_laws::region::{region_keeps, shards_are_there};
use actor_laws::start::shard_starts;
use behaviour_core::Behaviour;
use shard_lease::Leases;
use yard_model::{Body, Incarnation, Item, Out, Packet, ShardNo, Stamp};

impl<B: Behaviour + Drop> Actors<B> {
    /// The home of a shard is told: where that is taken, the region learns it; where the home is here
    /// it starts; what is kept of it is released.
    pub(crate) fn shard_home<L: Leases>(
        &mut self,
        packet: &Packet,
        s: ShardNo,
        home: Incarnation,
        stamp: Stamp,
        leases: &mut L,
        out: &mut Out,
    )
        requires body { packet.now.body ≡ body.ShardHome s home stamp }
        requires genuine { IsTrue (is_genuine_packet self.old.script packet.now) }
        requires sound { IsSoundNode self.old.script self.old.state }
        requires ready { IsReady self.old out.old.spare }
        requires rests { Rests (L.meaning leases.old) self.old.script self.old.state }
        ensures script { self.new.script ≡ self.old.script }
        ensures gave { (asked : (Slot → Bool)) × Gave self.old.script asked (λ lists. rules.shard_home lists s home stamp self.old.state) (moment (L.meaning leases.old) self.old.state out.old.items) (moment (L.meaning leases.new) self.new.state out.new.items) }
    {
        self.knows();
        self.region.shards();
        if self.region.takes_home(s, &home, &stamp) {
            self.take_home(packet, s, home, stamp, leases, out);
        }
    }

    /// A home that is taken.
    fn take_home<L: Leases>(
        &mut self,
        packet: &Packet,
        s: ShardNo,
        home: Incarnation,
        stamp: Stamp,
        leases: &mut L,
        out: &mut Out,
    )
        requires body { packet.now.body ≡ body.ShardHome s home stamp }
        requires taken { takes_home s home stamp self.old.state.region ≡ true }
        requires genuine { IsTrue (is_genuine_packet self.old.script packet.now) }
        requires sound { IsSoundNode self.old.script self.old.state }
        requires ready { IsReady self.old out.old.spare }
        requires rests { Rests (L.meaning leases.old) self.old.script self.old.state }
        ensures script { self.new.script ≡ self.old.script }
        ensures gave { (asked : (Slot → Bool)) × Gave self.old.script asked (λ lists. rules.shard_home lists s home stamp self.old.state) (moment (L.meaning leases.old) self.old.state out.old.items) (moment (L.meaning leases.new) self.new.state out.new.items) }
    {
        region_keeps();
        entities_stand();
        genuine_is_message();
        shards_are_there();
        shard_starts();
        self.knows();
        self.hear(packet, out);
        self.start_home(s, leases, out);
        self.keeps_few();
        self.release(s, out);
    }

    /// Start, where the home of the shard is here.
    fn start_home<L: Leases>(&mut self, s: ShardNo, leases: &mut L, out: &mut Out)
        requires shard { is_shard self.old.script s ≡ true }
        requires sound { IsSoundNode self.old.script self.old.state }
        requires rests { Rests (L.meaning leases.old) self.old.script self.old.state }
        requires room { 1 + 2 * length (names_of self.old.state.set s) ≤ out.old.spare }
        ensures script { self.new.script ≡ self.old.script }
        ensures gave { Gave self.old.script (asks_again s self.old.state) (λ lists. start_home lists s self.old.state) (moment (L.meaning leases.old) self.old.state out.old.items) (moment (L.meaning leases.new) self.new.state out.new.items) }
        ensures leaves { StartLeaves s self.old self.new out.old out.new }
    {
        if self.is_home(s) {
            self.start(s, leases, out);
        }
    }

    /// Whether the home of a shard is here.
    fn is_home(&self, s: ShardNo) -> bool
        requires { is_shard self.now.script s ≡ true }
        ensures { result ≡ is_home self.now.state.region s }
    {
        self.region.is_home(s)
    }

    /// No more messages are kept than the buffer holds. It does nothing.
    fn keeps_few(&self)
        ensures { kept_all self.now ≤ self.now.script.config.buffer }
    {
        self.region.kept_room();
    }

    /// The node is to host a shard: where that is taken, the region learns that its home is here; it
    /// starts; the coordinator is told so; what is kept of it is released.
    pub(crate) fn host_shard<L: Leases>(
        &mut self,
        packet: &Packet,
        s: ShardNo,
        stamp: Stamp,
        leases: &mut L,
        out: &mut Out,
    )
        requires body { packet.now.body ≡ body.HostShard s stamp }
        requires genuine { IsTrue (is_genuine_packet self.old.script packet.now) }
        requires sound { IsSoundNode self.old.script self.old.state }
        requires ready { IsReady self.old out.old.spare }
        requires rests { Rests (L.meaning leases.old) self.old.script self.old.state }
        ensures script { self.new.script ≡ self.old.script }
        ensures gave { (asked : (Slot → Bool)) × Gave self.old.script asked (λ lists. rules.host_shard lists s stamp packet.now.from self.old.state) (moment (L.meaning leases.old) self.old.state out.old.items) (moment (L.meaning leases.new) self.new.state out.new.items) }
    {
        self.knows();
        self.region.shards();
        if self.region.takes_host(s, &stamp) {
            self.take_host(packet, s, stamp, leases, out);
        }
    }

    /// A shard that it is to host, where that is taken.
    fn take_host<L: Leases>(
        &mut self,
        packet: &Packet,
        s: ShardNo,
        stamp: Stamp,
        leases: &mut L,
        out: &mut Out,
    )
        requires body { packet.now.body ≡ body.HostShard s stamp }
        requires taken { takes_host s stamp self.old.state.region ≡ true }
        requires genuine { IsTrue (is_genuine_packet self.old.script packet.now) }
        requires sound { IsSoundNode self.old.script self.old.state }
        requires ready { IsReady self.old out.old.spare }
        requires rests { Rests (L.meaning leases.old) self.old.script self.old.state }
        ensures script { self.new.script ≡ self.old.script }
        ensures gave { (asked : (Slot → Bool)) × Gave self.old.script asked (λ lists. rules.host_shard lists s stamp packet.now.from self.old.state) (moment (L.meaning leases.old) self.old.state out.old.items) (moment (L.meaning leases.new) self.new.state out.new.items) }
    {
        region_keeps();
        entities_stand();
        genuine_is_message();
        shards_are_there();
        shard_starts();
        self.knows();
        self.hear(packet, out);
        self.start(s, leases, out);
        self.post_started(s, packet.from, out);
        self.keeps_few();
        self.release(s, out);
    }

    /// The coordinator is told that a shard has started.
    fn post_started(&mut self, s: ShardNo, to: Incarnation, out: &mut Out)
        requires room { 1 ≤ out.old.spare }
        ensures went { Went self.old self.new out.old out.new (by_region (post self.old.state.who to (body.ShardStarted s)) ∷ []) }
        ensures room { out.old.spare ≤ out.new.spare + 1 }
    {
        let from = self.region.who();
        let body = Body::ShardStarted(s);
        out.push(Item::Post(Packet { from, to, body }));
    }

    /// A shard whose home is here and that isn't hosted is asked for again, and what is kept of it is
    /// released.
    pub(crate) fn start_again<L: Leases>(&mut self, s: ShardNo, leases: &mut L, out: &mut Out)
        requires shard { is_shard self.old.script s ≡ true }
        requires sound { IsSoundNode self.old.script self.old.state }
        requires rests { Rests (L.meaning leases.old) self.old.script self.old.state }
        requires room { 1 + 2 * length (names_of self.old.state.set s) + 4 * kept_all self.old ≤ out.old.spare }
        ensures script { self.new.script ≡ self.old.script }
        ensures gave { Gave self.old.script (asks_again s self.old.state) (λ lists. rules.start_again lists s self.old.state) (moment (L.meaning leases.old) self.old.state out.old.items) (moment (L.meaning leases.new) self.new.state out.new.items) }
        ensures leaves { AgainLeaves s self.old self.new out.old out.new }
    {
        if self.is_missing(s) {
            self.start_and_release(s, leases, out);
        }
    }

    /// Whether the home of a shard is here though it isn't hosted.
    fn is_missing(&self, s: ShardNo) -> bool
        requires { is_shard self.now.script s ≡ true }
        ensures { result ≡ (is_home self.now.state.region s && not (is_hosted self.now.state.entities s)) }
    {
        self.is_home(s) && !self.is_hosted(s)
    }

    /// A shard that isn't hosted starts, and what is kept of it is released.
    fn start_and_release<L: Leases>(&mut self, s: ShardNo, leases: &mut L, out: &mut Out)
        requires shard { is_shard self.old.script s ≡ true }
        requires new { is_hosted self.old.state.entities s ≡ false }
        requires sound { IsSoundNode self.old.script self.old.state }
        requires rests { Rests (L.meaning leases.old) self.old.script self.old.state }
        requires room { 1 + 2 * length (names_of self.old.state.set s) + 4 * kept_all self.old ≤ out.old.spare }
        ensures script { self.new.script ≡ self.old.script }
        ensures gave { Gave self.old.script (asks_start s self.old.state) (λ lists. rules.all_in_turn (rules.start lists s ∷ rules.release s ∷ []) self.old.state) (moment (L.meaning leases.old) self.old.state out.old.items) (moment (L.meaning leases.new) self.new.state out.new.items) }
        ensures leaves { AgainLeaves s self.old self.new out.old out.new }
    {
        region_keeps();
        entities_stand();
        genuine_is_message();
        shards_are_there();
        shard_starts();
        self.knows();
        self.start(s, leases, out);
        self.release(s, out);
    }
}
