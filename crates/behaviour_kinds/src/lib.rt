//! The three kinds of entity: counters, accounts and carts (Akka 2.6, Event Sourcing: one command
//! handler and one event handler each; the shopping cart is Akka's own example). Each is made at
//! version 1 of its decisions; `at_version` makes it one of version 2.
#![tactic(auto)]

mod account;
mod cart;
mod counter;
mod decisions;
mod version;

pub use account::Account;
pub use cart::Cart;
pub use counter::Counter;
