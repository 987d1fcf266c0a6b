//! Places of names.
ghost use Rattle.std.specs.Prelude.{◌≡◌, false, MatchOption};
ghost use Rattle.std.specs.List.{list_any};
ghost use Rattle.yard_model.specs.Script.{is_name};
ghost use Rattle.entry_slots.specs.Kept.{IsPlaced};

use name_index::NameIndex;
use yard_model::EntityName;

/// The place of a name; None exactly where it isn't among them.
#[tactic(auto, using(crate::proofs::NameLaws::placed_or_none))]
pub(crate) fn place_in(names: &NameIndex, entity: &EntityName) -> Option<usize>
    ensures { MatchOption result (list_any (is_name entity.now) names.now ≡ false) (λ k. IsPlaced names.now k entity.now) }
{
    names.as_slice();
    names.find(entity)
}
