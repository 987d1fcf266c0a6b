//! What an order asks of an entity that takes commands; of any other nothing happens.
ghost use Rattle.std.specs.Prelude.{◌≡◌, ◌<◌};
ghost use Rattle.yard_model.specs.Entities.{ask_to_passivate, arm};
ghost use Rattle.shard_entities.specs.Lodged.{moved, given};
ghost use Rattle.shard_entities.specs.Placed.{IsPlace};

use crate::moves::push;
use crate::place::Place;
use crate::shards::Shards;
use yard_model::{Body, Item, Keep, Out, Packet};

impl Shards {
    /// Where it takes commands, it is to ask for its stop.
    pub(crate) fn ask_to_passivate(&self, place: &Place, out: &mut Out)
        requires place { IsPlace self.now.script place.now }
        requires room { 0 < out.old.spare }
        ensures { out.new ≡ given out.old (ask_to_passivate place.now.entity self.now.state) }
    {
        if self.is_active(place) {
            push(
                out,
                Item::Post(Packet {
                    from: self.who,
                    to: self.who,
                    body: Body::Passivate(place.entity),
                }),
            );
        }
    }

    /// Where it takes commands, its next write is to fail, in this way; its stop undoes that.
    pub(crate) fn arm(&mut self, place: &Place, keep: Keep, out: &mut Out)
        requires place { IsPlace self.old.script place.now }
        requires room { 0 < out.old.spare }
        ensures state { self.new ≡ moved self.old (arm place.now.entity keep self.old.state) }
        ensures out { out.new ≡ given out.old (arm place.now.entity keep self.old.state) }
    {
        if self.is_active(place) {
            self.tell_armed(place, keep, out);
        }
    }
}
