//! What acts do to a node.
ghost use Rattle.yard_laws.specs.Parts.{RegionAlone, EntitiesAlone, ProducerAlone, CoordinatorAlone, PartsAreFolds, RegionItems, EntitiesItems, ProducerItems, CoordinatorItems, AfterBoth};

/// The acts of one actor change that actor's part of the node alone.
#[tactic(auto, using(crate::proofs::PartsLaws::region_alone, crate::proofs::PartsLaws::entities_alone, crate::proofs::PartsLaws::producer_alone, crate::proofs::PartsLaws::coordinator_alone))]
pub fn acts_change_their_part()
    ensures region { RegionAlone }
    ensures entities { EntitiesAlone }
    ensures producer { ProducerAlone }
    ensures coordinator { CoordinatorAlone }
{}

/// After any acts each part of the node is the fold of its own step over them.
#[tactic(auto, using(crate::proofs::PartsLaws::parts_are_folds))]
pub fn parts_are_folds()
    ensures { PartsAreFolds }
{}

/// The items of acts are those of the moves, whichever actor makes them.
#[tactic(auto, using(crate::proofs::PartsLaws::region_items, crate::proofs::PartsLaws::entities_items, crate::proofs::PartsLaws::producer_items, crate::proofs::PartsLaws::coordinator_items))]
pub fn items_are_of_the_moves()
    ensures region { RegionItems }
    ensures entities { EntitiesItems }
    ensures producer { ProducerItems }
    ensures coordinator { CoordinatorItems }
{}

/// One rule and then another: the node after both is that after the other, from where the one left
/// it.
#[tactic(auto, using(crate::proofs::PartsLaws::after_both))]
pub fn rules_in_turn()
    ensures { AfterBoth }
{}
