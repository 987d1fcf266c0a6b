//! A coordinator by itself.
ghost use Rattle.actor_laws.specs.CoordinatorOwes.{CoordinatorIsGuarded};
ghost use Rattle.actor_laws.specs.CoordinatorStands.{CoordinatorKeeps, CoordinatorTakes, CoordinatorBegins};

/// Each rule of a coordinator keeps it sound, tells what may stand where it is told, and posts from
/// its node what is made of the script.
#[tactic(auto, using(crate::proofs::CoordinatorLaws::coordinator_keeps))]
pub fn coordinator_keeps()
    ensures { CoordinatorKeeps }
{}

/// So does each packet for it that is made of the script.
pub fn coordinator_takes()
    ensures { CoordinatorTakes }
{}

/// It is sound once the slot is granted to a node of the script.
#[tactic(auto, using(crate::proofs::CoordinatorLaws::coordinator_begins))]
pub fn coordinator_begins()
    ensures { CoordinatorBegins }
{}

/// What it tells so is guarded, each fact by what its node has in hand when it is told.
pub fn coordinator_is_guarded()
    ensures { CoordinatorIsGuarded }
{}
