//! Regions that register.
ghost use Rattle.std.specs.Prelude.{◌≡◌, ℕ, ◌+◌, ◌<◌, ◌≤◌, ◌++◌, [], ◌∷◌, length, fold, true, false, IsTrue};
ghost use Rattle.std.specs.List.{flat_map};
ghost use Rattle.yard_model.specs.Coordinator.{coordinator_after, register_from, registered};
ghost use Rattle.yard_model.specs.Genuine.{is_node};
ghost use Rattle.yard_model.specs.Move.{item_of};
ghost use Rattle.yard_model.specs.Words.{is_among};
ghost use Rattle.coordinator_actor.specs.Held.{are_viewed};
ghost use Rattle.coordinator_actor.specs.Parts.{enter_new};

use crate::coordinator::Coordinator;
use membership_view::View;
use yard_model::{Body, Incarnation, Out};

impl Coordinator {
    /// A region asks to be registered: where it is in the view it is registered, unless it is so
    /// already, and gets an acknowledgement. Else nothing happens. That the view counts is this
    /// project's own rule.
    pub fn register_from(&mut self, from: &Incarnation, view: &View, out: &mut Out)
        requires node { is_node self.old.script from.now ≡ true }
        requires viewed { IsTrue (are_viewed view.now.members self.old.state.entries) }
        requires store { 1 ≤ self.old.spare }
        requires room { length (flat_map item_of (register_from from.now view.now.members self.old.state)) ≤ out.old.spare }
        ensures items { out.new.items ≡ out.old.items ++ flat_map item_of (register_from from.now view.now.members self.old.state) }
        ensures state { self.new.state ≡ fold coordinator_after self.old.state (register_from from.now view.now.members self.old.state) }
        ensures script { self.new.script ≡ self.old.script }
        ensures viewed { IsTrue (are_viewed view.now.members self.new.state.entries) }
        ensures spare { out.new.spare + length (flat_map item_of (register_from from.now view.now.members self.old.state)) ≡ out.old.spare }
        ensures entries { length self.new.state.entries + self.new.spare ≡ length self.old.state.entries + self.old.spare }
        ensures least { self.old.spare ≤ self.new.spare + 1 }
        ensures places { self.new.places ≡ self.old.places }
    {
        if !view.has(*from) {
            return;
        }
        self.enter_new(from, view, out);
        self.post(from, &Body::RegisterAck, out);
    }

    /// It is registered, unless it is so already.
    fn enter_new(&mut self, from: &Incarnation, view: &View, out: &mut Out)
        requires node { is_node self.old.script from.now ≡ true }
        requires viewed { IsTrue (are_viewed view.now.members self.old.state.entries) }
        requires seen { is_among from.now view.now.members ≡ true }
        requires store { 1 ≤ self.old.spare }
        requires room { length (flat_map item_of (enter_new from.now self.old.state)) ≤ out.old.spare }
        ensures items { out.new.items ≡ out.old.items ++ flat_map item_of (enter_new from.now self.old.state) }
        ensures state { self.new.state ≡ fold coordinator_after self.old.state (enter_new from.now self.old.state) }
        ensures who { self.new.state.who ≡ self.old.state.who }
        ensures script { self.new.script ≡ self.old.script }
        ensures viewed { IsTrue (are_viewed view.now.members self.new.state.entries) }
        ensures spare { out.new.spare + length (flat_map item_of (enter_new from.now self.old.state)) ≡ out.old.spare }
        ensures entries { length self.new.state.entries + self.new.spare ≡ length self.old.state.entries + self.old.spare }
        ensures least { self.old.spare ≤ self.new.spare + 1 }
        ensures places { self.new.places ≡ self.old.places }
    {
        if self.is_registered(from) {
            return;
        }
        self.check_room(from, view);
        self.enter(from, out);
    }

    /// There is room for a region of the view that isn't registered, since the others are of the
    /// view too, and it has at most 16.
    fn check_room(&self, from: &Incarnation, view: &View)
        requires viewed { IsTrue (are_viewed view.now.members self.now.state.entries) }
        requires seen { is_among from.now view.now.members ≡ true }
        requires fresh { is_among from.now (registered self.now.state) ≡ false }
        ensures { length (registered self.now.state) < 16 }
    {
        self.store().entries();
        let members = view.members();
        members.len();
    }
}
