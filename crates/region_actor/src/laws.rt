//! What never changes, and how many items a rule gives at most. Each is a function that does
//! nothing, whose contract is the law; a proof that needs it calls the function.
ghost use Rattle.std.specs.Prelude.{◌≡◌, ℕ, Bool, ◌+◌, ◌≤◌, List, length, fold};
ghost use Rattle.std.specs.List.{flat_map};
ghost use Rattle.yard_model.specs.declared.incarnation.Incarnation.{Incarnation};
ghost use Rattle.yard_model.specs.declared.packet.Body.{Body};
ghost use Rattle.yard_model.specs.declared.packet.Message.{Message};
ghost use Rattle.yard_model.specs.Move.{Move, item_of};
ghost use Rattle.yard_model.specs.Region.{Region, region_after, register, leave, route_away, tick_region};
ghost use Rattle.region_actor.specs.Handled.{handled, routed};

/// No move changes whose region it is, nor the setting.
#[tactic(auto, using(crate::proofs::RoomLaws::same_who, crate::proofs::RoomLaws::same_set))]
pub fn same_law()
    ensures who { (st : Region) (moves : List Move) → (fold region_after st moves).who ≡ st.who }
    ensures set { (st : Region) (moves : List Move) → (fold region_after st moves).set ≡ st.set }
{}

/// Registering gives at most one item.
#[tactic(auto, using(crate::proofs::RoomLaws::register_room))]
pub fn register_room()
    ensures { (st : Region) → length (flat_map item_of (register st)) ≤ 1 }
{}

/// Leaving gives at most one item.
#[tactic(auto, using(crate::proofs::RoomLaws::leave_room))]
pub fn leave_room()
    ensures { (st : Region) → length (flat_map item_of (leave st)) ≤ 1 }
{}

/// Routing a message gives at most two items.
#[tactic(auto, using(crate::proofs::RoomLaws::route_room))]
pub fn route_room()
    ensures { (m : Message) (running : Bool) (st : Region) → length (flat_map item_of (routed m running st)) ≤ 2 }
{}

/// Routing a message that isn't delivered here gives at most two items.
#[tactic(auto, using(crate::proofs::RoomLaws::away_room))]
pub fn away_room()
    ensures { (m : Message) (st : Region) → length (flat_map item_of (route_away m st)) ≤ 2 }
{}

/// The timer gives at most two items and one for each shard.
#[tactic(auto, using(crate::proofs::RoomLaws::tick_room))]
pub fn tick_room()
    ensures { (st : Region) → length (flat_map item_of (tick_region st)) ≤ st.set.config.shards + 2 }
{}

/// A packet gives at most two items and one for each shard.
#[tactic(auto, using(crate::proofs::RoomLaws::handle_room))]
pub fn handle_room()
    ensures { (from : Incarnation) (b : Body) (st : Region) → length (flat_map item_of (handled from b st)) ≤ st.set.config.shards + 2 }
{}
