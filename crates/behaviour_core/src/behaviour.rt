//! The behaviour of one kind of entity.
ghost use Rattle.std.specs.Prelude.{◌≡◌, ℕ, ◌≤◌, IsTrue, length};
ghost use Rattle.yard_model.specs.declared.event.Kind.{Kind};
ghost use Rattle.yard_model.specs.declared.event.Command.{Command};
ghost use Rattle.yard_model.specs.declared.event.Event.{Event};
ghost use Rattle.yard_model.specs.declared.state.State.{State};
ghost use Rattle.yard_model.specs.Behaviour.{is_in, is_valid, is_of_kind, is_applicable, are_applicable, empty_state, decide, adapt, apply};
ghost use Rattle.behaviour_core.specs.Laws.{empty_is_valid, decided_events_apply, decided_events_are_few, valid_after, adapted_is_alike, adapted_is_itself, adapted_may};

use yard_model::{Command, Decision, Event, Kind, State};

/// What entities of one kind do, in version 1 or 2 of their decisions. In version 2 the events of an
/// account have a memo; `adapt` makes an event of version 1 one of version 2 (Akka 2.6, Event
/// Sourcing: event adapters), and `apply` takes both.
///
/// A caller of `decide` and `apply` hands in a valid state of this kind, a command of this kind and
/// an event that is applicable to the state. Then all that is decided may be applied, one event
/// after the other, and a valid state stays valid.
pub trait Behaviour {
    /// The kind of its entities.
    ghost kind_of: { Self → Kind };

    /// Which version of its decisions it takes.
    ghost version_of: { Self → ℕ };

    /// The kind of its entities.
    fn kind(&self) -> Kind
        ensures { result ≡ kind_of self.now };

    /// Which version of its decisions it takes: 1 or 2.
    fn version(&self) -> u8
        ensures version { result ≡ version_of self.now }
        ensures range { IsTrue (is_in 1 2 result) };

    /// The same behaviour at this version, 1 or 2.
    fn at_version(self, version: u8) -> Self
    where
        Self: Sized,
        requires { IsTrue (is_in 1 2 version) }
        ensures kind { kind_of result ≡ kind_of self }
        ensures version { version_of result ≡ version };

    /// The state of an entity before its first event.
    fn empty(&self) -> State
        ensures { result ≡ empty_state (kind_of self.now) };

    /// The command handler: what has happened where an entity in this state gets this command, and
    /// what it answers.
    fn decide(&self, state: &State, command: &Command) -> Decision
        requires state { IsTrue (is_valid (kind_of self.now) state.now) }
        requires command { IsTrue (is_of_kind (kind_of self.now) command.now) }
        ensures { result ≡ decide (version_of self.now) state.now command.now };

    /// The event handler: the state after an event, also where a journal is read again.
    fn apply(&self, state: &State, event: &Event) -> State
        requires state { IsTrue (is_valid (kind_of self.now) state.now) }
        requires event { IsTrue (is_applicable state.now event.now) }
        ensures { result ≡ apply state.now event.now };

    /// The same in its place: a journal that is read again makes no state for each of its events.
    fn apply_in_place(&self, state: &mut State, event: &Event)
        requires state { IsTrue (is_valid (kind_of self.now) state.old) }
        requires event { IsTrue (is_applicable state.old event.now) }
        ensures { state.new ≡ apply state.old event.now };

    /// The event of version 2: an event of version 1 that has one there becomes it, and every other
    /// event is itself.
    fn adapt(&self, event: &Event) -> Event
        ensures { result ≡ adapt event.now };

    /// The state before the first event is valid.
    ghost starts_valid: { (b : Self) → IsTrue (is_valid (kind_of b) (empty_state (kind_of b))) } = { λ b. empty_is_valid (kind_of b) };

    /// Decided events are applicable, one after the other.
    ghost decided_apply: { (b : Self) (st : State) (c : Command) → IsTrue (is_valid (kind_of b) st) → IsTrue (is_of_kind (kind_of b) c) → IsTrue (are_applicable st (decide (version_of b) st c).events) } = { λ b st c valid own. decided_events_apply (version_of b) (kind_of b) st c own };

    /// At most four events are decided.
    ghost decided_few: { (b : Self) (st : State) (c : Command) → length (decide (version_of b) st c).events ≤ 4 } = { λ b st c. decided_events_are_few (version_of b) st c };

    /// A valid state stays valid.
    ghost stays_valid: { (b : Self) (st : State) (e : Event) → IsTrue (is_valid (kind_of b) st) → IsTrue (is_applicable st e) → IsTrue (is_valid (kind_of b) (apply st e)) } = { λ b st e valid may. valid_after (kind_of b) st e valid may };

    /// An event and its adapted form lead to the same state.
    ghost adapts_alike: { (b : Self) (st : State) (e : Event) → apply st (adapt e) ≡ apply st e } = { λ b st e. adapted_is_alike st e };

    /// Adapting twice is adapting once.
    ghost adapts_once: { (b : Self) (e : Event) → adapt (adapt e) ≡ adapt e } = { λ b e. adapted_is_itself e };

    /// An applicable event's adapted form is applicable.
    ghost adapted_apply: { (b : Self) (st : State) (e : Event) → IsTrue (is_applicable st e) → IsTrue (is_applicable st (adapt e)) } = { λ b st e may. adapted_may st e may };
}
