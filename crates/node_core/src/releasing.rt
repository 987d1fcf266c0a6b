//! The messages that were kept of a shard, once they can be routed.
ghost use Rattle.std.specs.Prelude.{◌≡◌, ◌+◌, ◌*◌, ◌≤◌, [], true, length, MatchOption};
ghost use Rattle.yard_model.specs.Genuine.{is_shard};
ghost use Rattle.yard_model.specs.Node as rules;
ghost use Rattle.yard_model.specs.Node.{is_running};
ghost use Rattle.yard_model.specs.Region.{is_routable, kept_of};
ghost use Rattle.node_core.specs.Releasing.{release_one, kept_all, HasReleaseRoom, LeavesRoom, IsNext, IsOneLess};
ghost use Rattle.node_core.specs.Went.{Went};

use crate::actors::Actors;
use actor_laws::messages::genuine_is_message;
use behaviour_core::Behaviour;
use yard_model::{Message, Out, ShardNo};

impl<B: Behaviour + Drop> Actors<B> {
    /// Release: where messages of a shard can be routed, those that are kept are, oldest first.
    pub(crate) fn release(&mut self, s: ShardNo, out: &mut Out)
        requires shard { is_shard self.old.script s ≡ true }
        requires rooms { HasReleaseRoom (2 + 2 * length (kept_of self.old.state.region.kept s)) self.old s }
        requires room { 4 * length (kept_of self.old.state.region.kept s) ≤ out.old.spare }
        ensures went { Went self.old self.new out.old out.new (rules.release s self.old.state) }
        ensures leaves { LeavesRoom s (length (kept_of self.old.state.region.kept s)) self.old self.new }
        ensures spent { out.old.spare + 4 * kept_all self.new ≤ out.new.spare + 4 * kept_all self.old }
    {
        let running = self.entities.running();
        if self.region.is_routable(s, running) {
            self.release_all(s, out);
        }
    }

    /// The messages that are kept of a shard are routed, oldest first.
    fn release_all(&mut self, s: ShardNo, out: &mut Out)
        requires shard { is_shard self.old.script s ≡ true }
        requires routable { is_routable self.old.state.region s (is_running self.old.state s) ≡ true }
        requires rooms { HasReleaseRoom (2 + 2 * length (kept_of self.old.state.region.kept s)) self.old s }
        requires room { 4 * length (kept_of self.old.state.region.kept s) ≤ out.old.spare }
        ensures went { Went self.old self.new out.old out.new (rules.release s self.old.state) }
        ensures leaves { LeavesRoom s (length (kept_of self.old.state.region.kept s)) self.old self.new }
        ensures spent { out.old.spare + 4 * kept_all self.new ≤ out.new.spare + 4 * kept_all self.old }
    {
        for _ in 0..self.region.kept_count(s) {
            self.release_one(s, out);
        }
    }

    /// The oldest message that is kept of a shard is routed.
    fn release_one(&mut self, s: ShardNo, out: &mut Out)
        requires shard { is_shard self.old.script s ≡ true }
        requires routable { is_routable self.old.state.region s (is_running self.old.state s) ≡ true }
        requires rooms { HasReleaseRoom 4 self.old s }
        requires some { kept_of self.old.state.region.kept s ≡ [] → ⊥ }
        requires room { 4 ≤ out.old.spare }
        ensures went { Went self.old self.new out.old out.new (release_one s self.old.state) }
        ensures less { IsOneLess s self.old self.new }
        ensures room { out.old.spare ≤ out.new.spare + 4 }
    {
        self.knows();
        genuine_is_message();
        if let Some(message) = self.next_kept(s) {
            self.route(&message, out);
        }
    }

    /// The oldest message that is kept of a shard is taken out; None exactly where none is kept.
    fn next_kept(&mut self, s: ShardNo) -> Option<Message>
        requires shard { is_shard self.old.script s ≡ true }
        ensures { MatchOption result ((kept_of self.old.state.region.kept s ≡ []) × (self.new ≡ self.old)) (λ m. IsNext s m self.old self.new) }
    {
        self.region.next_kept(s)
    }
}
