//! What a behaviour decides.
ghost use Rattle.std.specs.Prelude.{◌≡◌, [], ◌∷◌, IsTrue, if◌then◌else◌};
ghost use Rattle.std.specs.List.{list_any};
ghost use Rattle.yard_model.specs.Behaviour.{after_record, are_applicable, decide, is_in, is_of_kind, is_valid};
ghost use Rattle.yard_model.specs.Equal.{is_decision};
ghost use Rattle.entry_slots.specs.Kept.{is_answer_in};

use behaviour_core::{Behaviour, Decision, state_after};
use behaviour_kinds::{Account, Cart, Counter};
use yard_model::{Kind, Record, State};

/// Whether the record's events and reply are what this behaviour decides on its command.
fn agrees<B: Behaviour>(behaviour: &B, state: &State, entry: &Record) -> bool
    requires state { IsTrue (is_valid (B.kind_of behaviour.now) state.now) }
    requires command { IsTrue (is_of_kind (B.kind_of behaviour.now) entry.now.command) }
    ensures { result ≡ is_answer_in (B.version_of behaviour.now) state.now entry.now }
{
    let told = Decision {
        events: entry.events,
        reply: entry.reply,
    };
    behaviour.decide(state, &entry.command) == told
}

/// The same, of the behaviour of a kind in this version, 1 or 2.
pub(crate) fn is_answer_in(kind: Kind, version: u8, state: &State, entry: &Record) -> bool
    requires version { IsTrue (is_in 1 2 version) }
    requires state { IsTrue (is_valid kind state.now) }
    requires command { IsTrue (is_of_kind kind entry.now.command) }
    ensures { result ≡ is_answer_in version state.now entry.now }
{
    match kind {
        Kind::Counter => agrees(&Counter::new().at_version(version), state, entry),
        Kind::Account => agrees(&Account::new().at_version(version), state, entry),
        Kind::Cart => agrees(&Cart::new().at_version(version), state, entry),
    }
}

/// The same, in version 1, or in version 2 where the script goes over to it.
pub(crate) fn is_admitted(kind: Kind, upgrades: bool, state: &State, entry: &Record) -> bool
    requires state { IsTrue (is_valid kind state.now) }
    requires command { IsTrue (is_of_kind kind entry.now.command) }
    ensures { result ≡ list_any (λ v. is_answer_in v state.now entry.now) (if upgrades then 1 ∷ 2 ∷ [] else 1 ∷ []) }
{
    is_answer_in(kind, 1, state, entry) || (upgrades && is_answer_in(kind, 2, state, entry))
}

/// The state after the events of a record, which are applicable one after the other.
pub(crate) fn after_record(kind: Kind, state: &State, entry: &Record) -> State
    requires state { IsTrue (is_valid kind state.now) }
    requires events { IsTrue (are_applicable state.now entry.now.events) }
    ensures value { result ≡ after_record state.now entry.now }
    ensures valid { IsTrue (is_valid kind result) }
{
    let events = entry.events.as_slice();
    match kind {
        Kind::Counter => state_after(&Counter::new(), state, events),
        Kind::Account => state_after(&Account::new(), state, events),
        Kind::Cart => state_after(&Cart::new(), state, events),
    }
}
