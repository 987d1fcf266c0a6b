//! What is so of every journal of `solo`, as a law over its definition alone.
ghost use Rattle.std.specs.Prelude.{ℕ, List};
ghost use Rattle.yard_model.specs.Script.{Script, IsScript};
ghost use Rattle.solo_run.specs.Sound.{IsSound, solo_journal};

use behaviour_core::laws::decided_law;
use yard_model::laws::{command_law, decision_law};

/// In every journal of `solo` each record has the next number, and its events and reply are those
/// that are decided at the state of the records before it; of each producer the journal has the
/// first commands that the script sends to the entity, once and in order.
pub fn journals_are_sound()
    ensures { (c : Script) → IsScript c → (e : List ℕ) → IsSound c e (solo_journal c e) }
{
    command_law();
    decision_law();
    decided_law();
}
