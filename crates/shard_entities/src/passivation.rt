//! Passivation.
ghost use Rattle.std.specs.Prelude.{◌≡◌, ◌<◌};
ghost use Rattle.yard_model.specs.Entities.{passivate};
ghost use Rattle.shard_entities.specs.Lodged.{moved, given};
ghost use Rattle.shard_entities.specs.Placed.{IsPlace};

use crate::place::Place;
use crate::shards::Shards;
use yard_model::{Out, Phase};

impl Shards {
    /// An entity asks for its stop (Akka 2.6, Cluster Sharding: `Passivate`): where it takes
    /// commands it passivates, and is told to stop; else nothing happens.
    pub(crate) fn passivate(&mut self, place: &Place, out: &mut Out)
        requires place { IsPlace self.old.script place.now }
        requires room { 0 < out.old.spare }
        ensures state { self.new ≡ moved self.old (passivate place.now.entity self.old.state) }
        ensures out { out.new ≡ given out.old (passivate place.now.entity self.old.state) }
    {
        match self.phase(place) {
            Phase::Active => {
                self.set_passivating(place);
                self.post_stop(place, out);
            }
            _ => {}
        }
    }
}
