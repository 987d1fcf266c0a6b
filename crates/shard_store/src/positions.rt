//! How many records each producer has in a journal.
ghost use Rattle.std.specs.Prelude.{◌≡◌, ℕ, ◌+◌, ◌-◌, ◌<◌, ◌≤◌, slice_index_or};
ghost use Rattle.yard_model.specs.SlotReads.{position};

use entity_journal::Journal;
use entity_snapshot::Positions;
use yard_model::ProducerNo;

/// The counts of a journal.
#[tactic(auto, using(crate::proofs::PositionsLaws::counted_none, crate::proofs::PositionsLaws::counted_more))]
pub(crate) fn positions_of(journal: &Journal) -> Positions
    ensures { (p : ℕ) → 0 < p → p ≤ 32 → slice_index_or result (p - 1) 0 ≡ position p journal.now.items }
{
    let mut counts = [0; 32];
    for place in 0..32 {
        counts[place as usize] = count_of(journal, place);
    }
    Positions::new(counts)
}

/// How many records are of producer `place + 1`.
fn count_of(journal: &Journal, place: u8) -> u32
    requires { place < 32 }
    ensures { result ≡ position (place + 1) journal.now.items }
{
    match ProducerNo::new(place + 1) {
        Some(producer) => journal.position(producer),
        None => unreachable!(),
    }
}
