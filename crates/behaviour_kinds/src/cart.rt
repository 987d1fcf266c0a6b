//! Carts.
ghost use Rattle.std.specs.Prelude.{◌≡◌, ◌<◌, length};
ghost use Rattle.yard_model.specs.declared.event.Kind.TheVariants as kind;
ghost use Rattle.behaviour_kinds.specs.declared.version.Version.TheVariants as version;
ghost use Rattle.behaviour_kinds.specs.Versions.{number};
ghost use Rattle.yard_model.specs.Behaviour.{decide, decide_cart};

use crate::decisions::{refused, taken};
use crate::version::{Version, adapted};
use behaviour_core::{Behaviour, Decision};
use yard_model::{CartItem, Command, Event, Items, Kind, State};

/// How many different items a cart holds.
const MOST_ITEMS: usize = 16;

/// A shopping cart (Akka 2.6's example): at most 16 different items, numbered 1 to 9999, each with a
/// quantity of 1 to 1000; it is out once it is checked out.
///
/// Refusals: 1 for every command on a cart that is out, 2 where an item is added that is there, 3
/// where 16 are there, 4 where an item is removed or adjusted that isn't there, 5 where an empty cart
/// is checked out. Other answers are the number of different items afterwards.
#[derive(Clone, Copy, Debug, PartialEq, Eq)]
pub struct Cart {
    version: Version,
}

impl Cart {
    /// Of version 1.
    pub fn new() -> Cart
        ensures { result ≡ record { version = version.First } }
    {
        Cart {
            version: Version::First,
        }
    }
}

impl Behaviour for Cart {
    ghost kind_of = { λ _. kind.Cart };

    ghost version_of = { λ b. number b.version };

    fn kind(&self) -> Kind {
        Kind::Cart
    }

    fn version(&self) -> u8 {
        self.version.number()
    }

    fn at_version(self, version: u8) -> Cart {
        Cart {
            version: Version::of(version),
        }
    }

    fn empty(&self) -> State {
        State::empty(Kind::Cart)
    }

    fn decide(&self, state: &State, command: &Command) -> Decision {
        match state {
            State::Cart { out: true, .. } => refused(1),
            State::Cart { out: false, items } => decide_cart(items, command),
            _ => unreachable!(),
        }
    }

    fn apply(&self, state: &State, event: &Event) -> State {
        state.after(event)
    }

    fn apply_in_place(&self, state: &mut State, event: &Event) {
        *state = state.after(event);
    }

    fn adapt(&self, event: &Event) -> Event {
        adapted(event)
    }
}

/// What a cart with these items does that isn't out.
fn decide_cart(items: &Items, command: &Command) -> Decision
    ensures { result ≡ decide_cart items.now command.now }
{
    match command {
        Command::AddItem(x) => add(items, *x),
        Command::RemoveItem(number) => remove(items, *number),
        Command::AdjustItem(x) => adjust(items, *x),
        Command::Checkout => check_out(items),
        _ => refused(0),
    }
}

fn add(items: &Items, item: CartItem) -> Decision
    ensures { result ≡ decide_cart items.now (Command.AddItem item) }
{
    if items.has(item.item) {
        return refused(2);
    }
    let count = items.as_slice().len();
    if count >= MOST_ITEMS {
        return refused(3);
    }
    taken(Event::ItemAdded(item), count as u64 + 1)
}

fn remove(items: &Items, number: u16) -> Decision
    ensures { result ≡ decide_cart items.now (Command.RemoveItem number) }
{
    if !items.has(number) {
        return refused(4);
    }
    let count = items.as_slice().len();
    taken(Event::ItemRemoved(number), count as u64 - 1)
}

fn adjust(items: &Items, item: CartItem) -> Decision
    ensures { result ≡ decide_cart items.now (Command.AdjustItem item) }
{
    if !items.has(item.item) {
        return refused(4);
    }
    let count = items.as_slice().len();
    taken(Event::ItemAdjusted(item), count as u64)
}

fn check_out(items: &Items) -> Decision
    ensures { result ≡ decide_cart items.now Command.Checkout }
{
    let count = items.as_slice().len();
    if count == 0 {
        return refused(5);
    }
    taken(Event::CheckedOut, count as u64)
}
