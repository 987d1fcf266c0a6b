//! Laws of the definitions of what entities do. Each is a function that does nothing, whose contract
//! is the law; a proof that needs it calls the function.
ghost use Rattle.std.specs.Prelude.{◌≡◌, ℕ, ◌≤◌, List, length, fold, IsTrue};
ghost use Rattle.yard_model.specs.declared.event.Kind.{Kind};
ghost use Rattle.yard_model.specs.declared.event.Command.{Command};
ghost use Rattle.yard_model.specs.declared.event.Event.{Event};
ghost use Rattle.yard_model.specs.declared.state.State.{State};
ghost use Rattle.yard_model.specs.Behaviour.{is_valid, is_of_kind, is_applicable, are_applicable, empty_state, decide, adapt, apply};

/// The state before the first event is valid.
#[tactic(auto, using(crate::specs::Laws::empty_is_valid))]
pub fn empty_law()
    ensures { (k : Kind) → IsTrue (is_valid k (empty_state k)) }
{}

/// What is decided on a command of the entity's kind, in any version, is applicable, one event after the other.
pub fn decided_law()
    ensures { (v : ℕ) (k : Kind) (st : State) (c : Command) → IsTrue (is_of_kind k c) → IsTrue (are_applicable st (decide v st c).events) }
{}

/// At most four events are decided.
pub fn few_law()
    ensures { (v : ℕ) (st : State) (c : Command) → length (decide v st c).events ≤ 4 }
{}

/// A valid state stays valid after an event that is applicable to it.
pub fn valid_law()
    ensures { (k : Kind) (st : State) (e : Event) → IsTrue (is_valid k st) → IsTrue (is_applicable st e) → IsTrue (is_valid k (apply st e)) }
{}

/// A valid state stays valid after events that are applicable one after the other.
pub fn all_valid_law()
    ensures { (k : Kind) (st : State) (es : List Event) → IsTrue (is_valid k st) → IsTrue (are_applicable st es) → IsTrue (is_valid k (fold apply st es)) }
{}

/// An event and its adapted form lead to the same state.
pub fn adapted_law()
    ensures { (st : State) (e : Event) → apply st (adapt e) ≡ apply st e }
{}

/// Adapting twice is adapting once.
pub fn adapted_once_law()
    ensures { (e : Event) → adapt (adapt e) ≡ adapt e }
{}

/// An applicable event's adapted form is applicable.
pub fn adapted_may_law()
    ensures { (st : State) (e : Event) → IsTrue (is_applicable st e) → IsTrue (is_applicable st (adapt e)) }
{}
