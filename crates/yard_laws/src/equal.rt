//! Laws of the types, beside those of `yard_model::laws`: `==` is equality of values, and numbers
//! and names stand in the order of their values.
ghost use Rattle.std.specs.Prelude.{◌≡◌, ◌↔◌, ℕ, List, IsTrue};
ghost use Rattle.std.specs.Cmp.Lexicographic.{slice_cmp};
ghost use Rattle.std.specs.Ordering.{nat_cmp};
ghost use Rattle.yard_model.specs.declared.charter.Config.{Config};
ghost use Rattle.yard_model.specs.declared.event.Kind.{Kind};
ghost use Rattle.yard_model.specs.declared.fact.Fact.{Fact};
ghost use Rattle.yard_model.specs.declared.input.Input.{Input};
ghost use Rattle.yard_model.specs.declared.input.Phase.{Phase};
ghost use Rattle.yard_model.specs.declared.out.Item.{Item};

use yard_model::laws::{
    cause_law, command_law, incarnation_law, keep_law, message_law, name_law, packet_law,
    record_law, slot_law, stamp_law, state_law,
};
use yard_model::{
    Config, EntityName, Fact, Input, Item, Kind, NodeNo, Phase, ProducerNo, ShardNo, ShardSet,
};

/// Node numbers are equal where the numbers are.
pub fn node_law()
    ensures { (a b : ℕ) → IsTrue (⟦<NodeNo as PartialEq>⟧.eq a b) ↔ (a ≡ b) }
{}

/// Producer numbers are equal where the numbers are.
pub fn producer_law()
    ensures { (a b : ℕ) → IsTrue (⟦<ProducerNo as PartialEq>⟧.eq a b) ↔ (a ≡ b) }
{}

/// Shard numbers are equal where the numbers are.
pub fn shard_law()
    ensures { (a b : ℕ) → IsTrue (⟦<ShardNo as PartialEq>⟧.eq a b) ↔ (a ≡ b) }
{}

/// Numbers of nodes, producers and shards are ordered as numbers.
pub fn numbers_are_ordered()
    ensures node { (a b : ℕ) → ⟦<NodeNo as Ord>⟧.cmp a b ≡ nat_cmp a b }
    ensures producer { (a b : ℕ) → ⟦<ProducerNo as Ord>⟧.cmp a b ≡ nat_cmp a b }
    ensures shard { (a b : ℕ) → ⟦<ShardNo as Ord>⟧.cmp a b ≡ nat_cmp a b }
{}

/// Names are ordered by their bytes, the first that differ deciding, and a front before the whole.
pub fn names_are_ordered()
    ensures { (a b : List ℕ) → ⟦<EntityName as Ord>⟧.cmp a b ≡ slice_cmp nat_cmp a b }
{}

/// Sets of shards are equal where the sets' numbers are, which have a bit for each shard.
pub fn shard_set_law()
    ensures { (a b : ℕ) → IsTrue (⟦<ShardSet as PartialEq>⟧.eq a b) ↔ (a ≡ b) }
{}

/// `==` of kinds.
pub fn kind_law()
    ensures { (a b : Kind) → IsTrue (⟦<Kind as PartialEq>⟧.eq a b) ↔ (a ≡ b) }
{}

/// `==` of phases.
pub fn phase_law()
    ensures { (a b : Phase) → IsTrue (⟦<Phase as PartialEq>⟧.eq a b) ↔ (a ≡ b) }
{}

/// Settings are equal where each one is.
pub fn config_law()
    ensures { (a b : Config) → IsTrue (⟦<Config as PartialEq>⟧.eq a b) ↔ (a ≡ b) }
{
    kind_law();
}

/// `==` of inputs.
pub fn input_law()
    ensures { (a b : Input) → IsTrue (⟦<Input as PartialEq>⟧.eq a b) ↔ (a ≡ b) }
{
    packet_law();
    name_law();
    keep_law();
}

/// Facts are equal where they are of one kind and each part is.
pub fn fact_law()
    ensures { (a b : Fact) → IsTrue (⟦<Fact as PartialEq>⟧.eq a b) ↔ (a ≡ b) }
{
    cause_law();
    command_law();
    keep_law();
    incarnation_law();
    message_law();
    name_law();
    packet_law();
    record_law();
    slot_law();
    stamp_law();
    state_law();
}

/// `==` of what a turn gives.
pub fn item_law()
    ensures { (a b : Item) → IsTrue (⟦<Item as PartialEq>⟧.eq a b) ↔ (a ≡ b) }
{
    fact_law();
    packet_law();
}
