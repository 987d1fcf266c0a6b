//! The region's steps.
ghost use Rattle.std.specs.Prelude.{◌≡◌, ◌+◌, ◌≤◌, IsTrue};
ghost use Rattle.yard_model.specs.Genuine.{is_genuine_packet};
ghost use Rattle.yard_model.specs.Node as rules;
ghost use Rattle.yard_model.specs.Region.{register, leave, tick_region};
ghost use Rattle.region_actor.specs.Handled.{handled, to_do, is_genuine_todo};
ghost use Rattle.node_core.specs.Releasing.{kept_all};
ghost use Rattle.node_core.specs.Went.{Went};

use crate::actors::Actors;
use behaviour_core::Behaviour;
use region_actor::Todo;
use region_actor::laws::{handle_room, leave_room, register_room, same_law, tick_room};
use yard_model::{Out, Packet};

impl<B: Behaviour + Drop> Actors<B> {
    /// The region's part of a packet; what the node is to do then.
    pub(crate) fn hear(&mut self, packet: &Packet, out: &mut Out) -> Todo
        requires genuine { IsTrue (is_genuine_packet self.old.script packet.now) }
        requires room { 130 ≤ out.old.spare }
        ensures went { Went self.old self.new out.old out.new (rules.of_region (handled packet.now.from packet.now.body) self.old.state) }
        ensures room { out.old.spare ≤ out.new.spare + 130 }
        ensures todo { result ≡ to_do packet.now.from packet.now.body self.old.state.region }
        ensures genuine { IsTrue (is_genuine_todo self.old.script result) }
    {
        handle_room();
        same_law();
        self.region.shards();
        self.region.handle(packet, out)
    }

    /// The region asks the oldest of its view to be registered.
    pub(crate) fn ask_to_register(&mut self, out: &mut Out)
        requires room { 1 ≤ out.old.spare }
        ensures { Went self.old self.new out.old out.new (rules.of_region register self.old.state) }
    {
        register_room();
        same_law();
        self.region.register(out);
    }

    /// The region leaves (Akka 2.6, Cluster Sharding: graceful shutdown).
    pub(crate) fn leave(&mut self, out: &mut Out)
        requires room { 1 ≤ out.old.spare }
        ensures { Went self.old self.new out.old out.new (rules.of_region leave self.old.state) }
    {
        leave_room();
        same_law();
        self.region.leave(out);
    }

    /// No more messages are kept than the buffer has room for. It does nothing.
    pub(crate) fn kept_room(&self)
        ensures { kept_all self.now ≤ self.now.script.config.buffer }
    {
        self.region.kept_room();
    }

    /// The region's part of a tick.
    pub(crate) fn tick_region(&mut self, out: &mut Out)
        requires room { 130 ≤ out.old.spare }
        ensures went { Went self.old self.new out.old out.new (rules.of_region tick_region self.old.state) }
        ensures room { out.old.spare ≤ out.new.spare + 130 }
    {
        tick_room();
        same_law();
        self.region.shards();
        self.region.tick(out);
    }
}
