//! One type for the behaviours of all kinds.
ghost use Rattle.std.specs.Prelude.{◌≡◌};
ghost use Rattle.behaviour_by_kind.specs.Kinds.{kind_of, version_of};

use behaviour_core::{Behaviour, Decision};
use behaviour_kinds::{Account, Cart, Counter};
use yard_model::{Command, Event, Kind, State};

/// The behaviour of the kind that a script names. It asks the behaviour of that kind each time; what plays
/// a script is compiled once for it, and not once for each kind.
#[derive(Clone, Copy, Debug, PartialEq, Eq)]
pub enum ByKind {
    /// Entities are counters.
    Counter(Counter),
    /// Entities are accounts.
    Account(Account),
    /// Entities are carts.
    Cart(Cart),
}

impl ByKind {
    /// The behaviour of this kind, in version 1.
    pub fn new(kind: Kind) -> ByKind
        ensures kind { kind_of result ≡ kind }
        ensures version { version_of result ≡ 1 }
    {
        match kind {
            Kind::Counter => ByKind::Counter(Counter::new()),
            Kind::Account => ByKind::Account(Account::new()),
            Kind::Cart => ByKind::Cart(Cart::new()),
        }
    }
}

impl Behaviour for ByKind {
    ghost kind_of = { λ b. kind_of b };

    ghost version_of = { λ b. version_of b };

    fn kind(&self) -> Kind {
        match self {
            ByKind::Counter(_) => Kind::Counter,
            ByKind::Account(_) => Kind::Account,
            ByKind::Cart(_) => Kind::Cart,
        }
    }

    fn version(&self) -> u8 {
        match self {
            ByKind::Counter(counter) => counter.version(),
            ByKind::Account(account) => account.version(),
            ByKind::Cart(cart) => cart.version(),
        }
    }

    fn at_version(self, version: u8) -> ByKind {
        match self {
            ByKind::Counter(counter) => ByKind::Counter(counter.at_version(version)),
            ByKind::Account(account) => ByKind::Account(account.at_version(version)),
            ByKind::Cart(cart) => ByKind::Cart(cart.at_version(version)),
        }
    }

    fn empty(&self) -> State {
        State::empty(self.kind())
    }

    fn decide(&self, state: &State, command: &Command) -> Decision {
        match self {
            ByKind::Counter(counter) => counter.decide(state, command),
            ByKind::Account(account) => account.decide(state, command),
            ByKind::Cart(cart) => cart.decide(state, command),
        }
    }

    fn apply(&self, state: &State, event: &Event) -> State {
        state.after(event)
    }

    #[inline(always)]
    fn apply_in_place(&self, state: &mut State, event: &Event) {
        match self {
            ByKind::Counter(counter) => counter.apply_in_place(state, event),
            ByKind::Account(account) => account.apply_in_place(state, event),
            ByKind::Cart(cart) => cart.apply_in_place(state, event),
        }
    }

    fn adapt(&self, event: &Event) -> Event {
        match self {
            ByKind::Counter(counter) => counter.adapt(event),
            ByKind::Account(account) => account.adapt(event),
            ByKind::Cart(cart) => cart.adapt(event),
        }
    }
}
