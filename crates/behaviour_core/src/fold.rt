//! Events applied in turn.
ghost use Rattle.std.specs.Prelude.{◌≡◌, fold, IsTrue};
ghost use Rattle.yard_model.specs.Behaviour.{is_valid, are_applicable, apply};

use crate::behaviour::Behaviour;
use yard_model::{Event, State};

/// The state after these events, oldest first, which are applicable one after the other.
pub fn state_after<B: Behaviour>(behaviour: &B, state: &State, events: &[Event]) -> State
    requires state { IsTrue (is_valid (B.kind_of behaviour.now) state.now) }
    requires events { IsTrue (are_applicable state.now events.now) }
    ensures value { result ≡ fold apply state.now events.now }
    ensures valid { IsTrue (is_valid (B.kind_of behaviour.now) result) }
{
    let mut current = *state;
    apply_all(behaviour, &mut current, events);
    current
}

/// The same in its place: a state goes on to that after these events.
pub fn apply_all<B: Behaviour>(behaviour: &B, state: &mut State, events: &[Event])
    requires state { IsTrue (is_valid (B.kind_of behaviour.now) state.old) }
    requires events { IsTrue (are_applicable state.old events.now) }
    ensures value { state.new ≡ fold apply state.old events.now }
    ensures valid { IsTrue (is_valid (B.kind_of behaviour.now) state.new) }
{
    for event in events {
        behaviour.apply_in_place(state, event);
    }
}
