//! What `solo` comes to: the lists of a script that was played.
ghost use Rattle.std.specs.Prelude.{◌≡◌, ℕ, List, [], map, slice_index_or};
ghost use Rattle.yard_model.specs.Entry.{shard_fact};
ghost use Rattle.yard_model.specs.Shard.{shard};
ghost use Rattle.yard_model.specs.Solo.{solo};
ghost use Rattle.yard_model.specs.SlotReads.{journal};
ghost use Rattle.solo_run.specs.Facts.{facts_of, lists_of};
ghost use Rattle.solo_run.specs.Sound.{IsSound};

use crate::engine::Engine;
use crate::sound::journals_are_sound;
use yard_model::{Charter, CoordEntry, Lists, ProducerNo, QueueEntry, ShardEntry, ShardNo};

/// The lists of the shards after all orders of a script. Every journal in them is folded and
/// merged: the type keeps it.
#[derive(Drop)]
pub struct Played<'c> {
    pub charter: &'c Charter,
    pub lists: Vec<Vec<ShardEntry>>,
    pub ghost sound: { (e : List ℕ) → IsSound charter.now e (journal e (slice_index_or (facts_of lists.items) (shard charter.now.config.shards e) [])) },
}

impl<'c> Played<'c> {
    /// What an engine comes to that has played the script.
    pub fn new(charter: &'c Charter, engine: Engine) -> Played<'c>
        requires config { engine.config ≡ charter.now.config }
        requires lists { lists_of engine.config (facts_of engine.lists.items) ≡ (solo charter.now).lists }
        ensures { lists_of result.charter.now.config (facts_of result.lists.items) ≡ (solo charter.now).lists }
    {
        journals_are_sound();
        charter.config();
        let Engine {
            config: _,
            posted: _,
            entities: _,
            lists,
        } = engine;
        Played { charter, lists }
    }
}

impl Lists for Played<'_> {
    ghost lists = { λ p. lists_of p.charter.now.config (facts_of p.lists.items) };

    fn shard(&self, s: ShardNo) -> &[ShardEntry] {
        list_at(self.lists.as_slice(), s)
    }

    fn coordinator(&self) -> &[CoordEntry] {
        &[]
    }

    fn queue(&self, _p: ProducerNo) -> &[QueueEntry] {
        &[]
    }
}

/// The list of a shard; empty where there is no such shard.
fn list_at(lists: &[Vec<ShardEntry>], s: ShardNo) -> &[ShardEntry]
    ensures { map (shard_fact s) result.now ≡ slice_index_or (facts_of lists.now) s [] }
{
    let place = s.get() as usize;
    if place < lists.len() {
        lists[place].as_slice()
    } else {
        &[]
    }
}
