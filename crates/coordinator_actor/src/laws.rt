//! What never changes, what takes a shard's home, and how many items a rule gives at most. Each is a
//! function that does nothing, whose contract is the law; a proof that needs it calls the function.
ghost use Rattle.std.specs.Prelude.{◌≡◌, ℕ, ◌+◌, ◌*◌, ◌≤◌, List, length, fold};
ghost use Rattle.std.specs.List.{flat_map};
ghost use Rattle.yard_model.specs.declared.incarnation.Incarnation.{Incarnation};
ghost use Rattle.yard_model.specs.Coordinator.{Coordinator, coordinator_after, registered, terminate_lost, register_from};
ghost use Rattle.yard_model.specs.Move.{Move, item_of};
ghost use Rattle.coordinator_actor.specs.Homes.{EntriesKeep, PacketsKeep, ViewsKeep, TicksKeep, RebalancesKeep};

/// No move changes whose coordinator it is, nor the setting.
#[tactic(auto, using(crate::proofs::LimitLaws::same_who, crate::proofs::LimitLaws::same_set))]
pub fn same_law()
    ensures who { (st : Coordinator) (moves : List Move) → (fold coordinator_after st moves).who ≡ st.who }
    ensures set { (st : Coordinator) (moves : List Move) → (fold coordinator_after st moves).set ≡ st.set }
{}

/// A home goes only at an entry `deallocated` of its shard, `terminated` of the region, or `reshard`. Of
/// the packets only a ShardStopped that matches the open round takes one. A view takes those of the
/// regions that it hasn't. A tick takes none, nor does a rebalancing.
pub fn homes_stay()
    ensures entries { EntriesKeep }
    ensures packets { PacketsKeep }
    ensures views { ViewsKeep }
    ensures ticks { TicksKeep }
    ensures rebalances { RebalancesKeep }
{}

/// For each registered region, a view that is taken gives at most one item, and one for each shard of
/// the open round.
#[tactic(auto, using(crate::proofs::LimitLaws::lost_room))]
pub fn lost_room()
    ensures { (view : List Incarnation) (st : Coordinator) → length (registered st) ≤ 16 → length st.moving ≤ 128 → length (flat_map item_of (terminate_lost view st)) ≤ 16 * (1 + 128) }
{}

/// Registering a region gives at most two items.
#[tactic(auto, using(crate::proofs::LimitLaws::register_room))]
pub fn register_room()
    ensures { (from : Incarnation) (view : List Incarnation) (st : Coordinator) → length (flat_map item_of (register_from from view st)) ≤ 2 }
{}
