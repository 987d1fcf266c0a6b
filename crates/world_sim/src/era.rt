//! Orders after which the number of shards, or the version of the behaviours, is another.
ghost use Rattle.std.specs.Prelude.{◌≡◌, ◌==◌, ◌||◌, IsTrue, false, is_some};
ghost use Rattle.std.specs.List.{list_any};
ghost use Rattle.yard_model.specs.declared.charter.Order.TheVariants as order;
ghost use Rattle.yard_model.specs.Behaviour.{is_in};
ghost use Rattle.yard_model.specs.World.{World, play};
ghost use Rattle.world_sim.specs.Stepped.{Plays, Stepped};
ghost use Rattle.world_sim.specs.Steps.{resharded, upgraded};
ghost use Rattle.world_sim.specs.Yard.{IsBacked, IsSound};

use crate::laws::standing_is_kept;
use crate::places::is_any_up;
use crate::scene::Scene;
use crate::yard::Yard;
use behaviour_core::Behaviour;
use std::alloc::AllocError;
use trace_notes::{Notes, Told};
use yard_model::Fact;

/// The version of behaviours after an upgrade.
const LAST: u8 = 2;

impl<B: Behaviour + Copy + Drop> Yard<B> {
    /// The number of shards is another from now on; nothing where a node is up, or where it is this
    /// one.
    pub(crate) fn reshard<N: Notes>(
        &mut self,
        shards: u8,
        facts: &mut Told<N>,
    ) -> Result<(), AllocError>
        requires world { (w : World) × IsBacked self.old w }
        requires shards { IsTrue (is_in 1 128 shards) }
        ensures { Plays 0 (play (order.Reshard shards)) result self.old self.new facts.old facts.new }
    {
        if self.keeps_shards(shards) {
            return facts.push(Fact::Nothing);
        }
        self.reshape(shards, facts)
    }

    /// Whether a node is up, or the number of shards is this one.
    fn keeps_shards(&self, shards: u8) -> bool
        ensures { result ≡ (list_any is_some self.now.nodes || (shards == self.now.script.config.shards)) }
    {
        is_any_up(&self.nodes) || shards == self.scene.config().shards
    }

    /// The number of shards is another from now on: the leases are those of stores whose lists begin
    /// anew, and what was posted so far goes to nobody.
    fn reshape<N: Notes>(&mut self, shards: u8, facts: &mut Told<N>) -> Result<(), AllocError>
        requires world { (w : World) × IsBacked self.old w }
        requires quiet { list_any is_some self.old.nodes ≡ false }
        requires other { (shards == self.old.script.config.shards) ≡ false }
        requires shards { IsTrue (is_in 1 128 shards) }
        ensures { Plays 0 (resharded shards) result self.old self.new facts.old facts.new }
    {
        standing_is_kept();
        let epoch = self.book.greatest_epoch();
        let charter = self.scene.charter().with_shards(shards)?;
        match self.book.reshape(self.alloc, &charter) {
            Ok(()) => {}
            Err(error) => {
                drop(charter);
                return Err(error);
            }
        }
        let scene = Scene::new(self.alloc, charter)?;
        match facts.push(Fact::Reshard(shards, epoch)) {
            Ok(()) => {}
            Err(error) => {
                drop(scene);
                return Err(error);
            }
        }
        self.scene = scene;
        self.past = self.mail.len();
        Ok(())
    }

    /// Version 2 of the behaviours is in force from now on; nothing where a node is up, or where it is
    /// already.
    pub(crate) fn upgrade<N: Notes>(&mut self, facts: &mut Told<N>) -> Result<(), AllocError>
        requires { (w : World) × IsSound self.old w }
        ensures { Stepped IsSound 0 (play order.Upgrade) result self.old self.new facts.old facts.new }
    {
        if self.keeps_version() {
            return facts.push(Fact::Nothing);
        }
        self.go_over(facts)
    }

    /// Whether a node is up, or version 2 is in force.
    fn keeps_version(&self) -> bool
        ensures { result ≡ (list_any is_some self.now.nodes || (self.now.force.version == 2)) }
    {
        is_any_up(&self.nodes) || self.behaviour.version() == LAST
    }

    /// Version 2 is in force from now on: nodes that come up have it.
    fn go_over<N: Notes>(&mut self, facts: &mut Told<N>) -> Result<(), AllocError>
        ensures { Stepped IsSound 0 upgraded result self.old self.new facts.old facts.new }
    {
        facts.push(Fact::Upgrade(LAST))?;
        self.behaviour = self.behaviour.at_version(LAST);
        Ok(())
    }
}
