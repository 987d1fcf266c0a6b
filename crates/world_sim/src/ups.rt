//! Nodes that come up and go down.
ghost use Rattle.std.specs.Prelude.{◌≡◌, ◌-◌, ◌<◌, true, None, slice_index_or};
ghost use Rattle.yard_model.specs.Behaviour.{is_in};
ghost use Rattle.yard_model.specs.Limits.{number_limit, settle_limit};
ghost use Rattle.yard_model.specs.Words.{at};
ghost use Rattle.yard_model.specs.World.{World, views, come_up, go_down, up, crash_node};
ghost use Rattle.world_sim.specs.Stepped.{Stepped};
ghost use Rattle.world_sim.specs.Steps.{entered};
ghost use Rattle.world_sim.specs.Yard.{IsSeen, IsFirm, IsSound};

use crate::members::post_views;
use crate::places::{is_down, next_number, put_node, set_number};
use crate::turns::end_at;
use crate::yard::Yard;
use behaviour_core::Behaviour;
use std::alloc::AllocError;
use trace_notes::{Notes, Told};
use yard_model::{Fact, Incarnation, NodeNo};

impl<B: Behaviour + Copy + Drop> Yard<B> {
    /// A view of all members is posted to each, oldest first.
    fn views<N: Notes>(&mut self, facts: &mut Told<N>) -> Result<(), AllocError>
        requires { (w : World) × IsSeen self.old w }
        ensures { Stepped IsSeen 0 views result self.old self.new facts.old facts.new }
    {
        self.mail.reserve(16)?;
        post_views(&mut self.mail, &self.members, self.version);
        self.mail.tell_items(facts)
    }

    /// A node that isn't up comes up, under the number after its last one; then the views.
    pub(crate) fn come_up<N: Notes>(
        &mut self,
        n: NodeNo,
        facts: &mut Told<N>,
    ) -> Result<(), AllocError>
        requires world { (w : World) × IsSound self.old w }
        requires node { is_in 1 self.old.script.config.nodes n ≡ true }
        requires down { at self.old.nodes (n - 1) ≡ None }
        requires version { self.old.version < number_limit }
        requires ups { slice_index_or self.old.ups (n - 1) 0 < settle_limit }
        ensures { Stepped IsSound 1 (come_up n) result self.old self.new facts.old facts.new }
    {
        self.enter(n, facts)?;
        self.views(facts)
    }

    /// The node comes up; nobody is told yet.
    #[inline(never)]
    fn enter<N: Notes>(&mut self, n: NodeNo, facts: &mut Told<N>) -> Result<(), AllocError>
        requires world { (w : World) × IsSound self.old w }
        requires node { is_in 1 self.old.script.config.nodes n ≡ true }
        requires down { at self.old.nodes (n - 1) ≡ None }
        requires version { self.old.version < number_limit }
        requires ups { slice_index_or self.old.ups (n - 1) 0 < settle_limit }
        ensures { Stepped IsSound 1 (entered n) result self.old self.new facts.old facts.new }
    {
        let number = next_number(&self.ups, n);
        let version = self.version + 1;
        let who = &Incarnation { node: n, number };
        let node = match self.scene.node(self.alloc, *who, self.behaviour) {
            Ok(node) => node,
            Err(fault) => return Err(fault),
        };
        match facts.push(Fact::Up(*who)) {
            Ok(()) => {}
            Err(error) => {
                drop(node);
                return Err(error);
            }
        }
        self.members.join(who);
        self.version = version;
        set_number(&mut self.ups, n, number);
        put_node(&mut self.nodes, n, node);
        Ok(())
    }

    /// A node comes up, where it isn't up.
    pub(crate) fn up<N: Notes>(&mut self, n: NodeNo, facts: &mut Told<N>) -> Result<(), AllocError>
        requires world { (w : World) × IsSound self.old w }
        requires node { is_in 1 self.old.script.config.nodes n ≡ true }
        requires version { self.old.version < number_limit }
        requires ups { slice_index_or self.old.ups (n - 1) 0 < settle_limit }
        ensures { Stepped IsSound 1 (up n) result self.old self.new facts.old facts.new }
    {
        if is_down(&self.nodes, n) {
            self.come_up(n, facts)
        } else {
            facts.push(Fact::Nothing)
        }
    }

    /// The node goes down, where it is up: it is gone, and what it held is freed. Nobody is told yet.
    pub(crate) fn go_down<N: Notes>(
        &mut self,
        n: NodeNo,
        facts: &mut Told<N>,
    ) -> Result<(), AllocError>
        requires world { (w : World) × IsFirm self.old w }
        requires node { is_in 1 self.old.script.config.nodes n ≡ true }
        requires version { self.old.version < number_limit }
        ensures { Stepped IsFirm 1 (go_down n) result self.old self.new facts.old facts.new }
    {
        if is_down(&self.nodes, n) {
            return Ok(());
        }
        let _posted = self.mail.len();
        let who = &end_at(&mut self.nodes, n, &mut self.book, &mut self.mail)?;
        facts.push(Fact::Gone(*who))?;
        self.members.leave(who);
        self.version += 1;
        self.mail.tell_items(facts)
    }

    /// A node crashes, where it is up; then the views.
    pub(crate) fn crash<N: Notes>(
        &mut self,
        n: NodeNo,
        facts: &mut Told<N>,
    ) -> Result<(), AllocError>
        requires world { (w : World) × IsSound self.old w }
        requires node { is_in 1 self.old.script.config.nodes n ≡ true }
        requires version { self.old.version < number_limit }
        ensures { Stepped IsSound 1 (crash_node n) result self.old self.new facts.old facts.new }
    {
        if is_down(&self.nodes, n) {
            return facts.push(Fact::Nothing);
        }
        self.go_down(n, facts)?;
        self.views(facts)
    }
}
