//! States of entities, and the event handler.
ghost use Rattle.std.specs.Prelude.{◌≡◌, IsTrue};
ghost use Rattle.yard_model.specs.Behaviour.{empty_state, apply, is_applicable};

use crate::event::{Event, Kind};
use crate::items::Items;

/// An item of a cart.
#[derive(Clone, Copy, Debug, PartialEq, Eq, PartialOrd, Ord)]
pub struct CartItem {
    /// Its number, 1 to 9999.
    pub item: u16,
    /// How many of it, 1 to 1000.
    pub quantity: u16,
}

/// What an entity's events have led to.
#[derive(Clone, Copy, Debug, PartialEq, Eq)]
pub enum State {
    /// A counter with its total, at most 10^15.
    Counter(u64),
    /// No account yet.
    NoAccount,
    /// An open account.
    Open {
        /// Its balance, at most 10^15.
        balance: u64,
        /// The memo of its last deposit or withdrawal, at most 9999; 0 where that had none, and before
        /// the first.
        memo: u16,
    },
    /// A closed account.
    Closed,
    /// A cart with its items by rising number; `out` once it is checked out.
    Cart {
        /// Whether it is checked out.
        out: bool,
        /// Its items.
        items: Items,
    },
}

impl State {
    /// The state before the first event.
    pub fn empty(kind: Kind) -> State
        ensures { result ≡ empty_state kind }
    {
        match kind {
            Kind::Counter => State::Counter(0),
            Kind::Account => State::NoAccount,
            Kind::Cart => State::Cart {
                out: false,
                items: Items::empty(),
            },
        }
    }

    /// The state after an event that is applicable here (Akka 2.6, Event Sourcing: the event
    /// handler, which also runs at recovery).
    pub fn after(&self, event: &Event) -> State
        requires { IsTrue (is_applicable self.now event.now) }
        ensures { result ≡ apply self.now event.now }
    {
        match (self, event) {
            (State::Counter(total), Event::Added(k)) => State::Counter(*total + u64::from(*k)),
            (State::NoAccount, Event::Created) => State::Open {
                balance: 0,
                memo: 0,
            },
            (State::Open { balance, memo }, _) => after_in_account(*balance, *memo, event),
            (State::Cart { out, items }, _) => after_in_cart(*out, items, event),
            _ => *self,
        }
    }
}

/// The open account after an event that is applicable to it.
fn after_in_account(balance: u64, memo: u16, event: &Event) -> State
    requires { IsTrue (is_applicable (State.Open balance memo) event.now) }
    ensures { result ≡ apply (State.Open balance memo) event.now }
{
    match event {
        Event::Deposited(k) => open(balance + u64::from(*k), 0),
        Event::Withdrawn(k) => open(balance - u64::from(*k), 0),
        Event::DepositedWithMemo(m, k) => open(balance + u64::from(*k), *m),
        Event::WithdrawnWithMemo(m, k) => open(balance - u64::from(*k), *m),
        Event::AccountClosed => State::Closed,
        _ => open(balance, memo),
    }
}

/// An open account.
fn open(balance: u64, memo: u16) -> State
    ensures { result ≡ State.Open balance memo }
{
    State::Open { balance, memo }
}

/// The cart after an event that is applicable to it.
fn after_in_cart(out: bool, items: &Items, event: &Event) -> State
    requires { IsTrue (is_applicable (State.Cart out items.now) event.now) }
    ensures { result ≡ apply (State.Cart out items.now) event.now }
{
    match event {
        Event::ItemAdded(x) => State::Cart {
            out,
            items: items.with_item(*x),
        },
        Event::ItemRemoved(number) => State::Cart {
            out,
            items: items.without_item(*number),
        },
        Event::ItemAdjusted(x) => State::Cart {
            out,
            items: items.with_quantity(*x),
        },
        Event::CheckedOut => State::Cart {
            out: true,
            items: *items,
        },
        _ => State::Cart { out, items: *items },
    }
}
