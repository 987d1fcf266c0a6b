//! What entities are told, what they record and what they answer (Akka 2.6, Event Sourcing).
use crate::events::Events;
use crate::state::CartItem;

/// A kind of entity. A script has one.
#[derive(Clone, Copy, Debug, PartialEq, Eq, PartialOrd, Ord)]
pub enum Kind {
    /// A running total.
    Counter,
    /// A bank account.
    Account,
    /// A shopping cart.
    Cart,
}

/// A command to an entity. Amounts to an account are 1 to 1,000,000.
#[derive(Clone, Copy, Debug, PartialEq, Eq)]
pub enum Command {
    /// To a counter: add 1 to 1000.
    Add(u16),
    /// To a counter: tell the total.
    Read,
    /// To an account: open it.
    Create,
    /// To an account: pay in.
    Deposit(u32),
    /// To an account: take out.
    Withdraw(u32),
    /// To an account: pay in, with a memo of 1 to 9999 (from version 2 of the behaviour on). The memo
    /// stands before the amount, so that a command takes eight bytes.
    DepositWithMemo(u16, u32),
    /// To an account: take out, with a memo of 1 to 9999, likewise before the amount.
    WithdrawWithMemo(u16, u32),
    /// To an account: tell the balance.
    Balance,
    /// To an account: close it.
    Close,
    /// To a cart: put in an item that isn't there, with its quantity.
    AddItem(CartItem),
    /// To a cart: take out the item of this number, 1 to 9999.
    RemoveItem(u16),
    /// To a cart: change an item's quantity.
    AdjustItem(CartItem),
    /// To a cart: end the shopping.
    Checkout,
}

/// What has happened to an entity. Numbers are those of the command.
#[derive(Clone, Copy, Debug, PartialEq, Eq)]
pub enum Event {
    /// A counter's total has risen.
    Added(u16),
    /// An account is open.
    Created,
    /// An account's balance has risen.
    Deposited(u32),
    /// An account's balance has fallen.
    Withdrawn(u32),
    /// An account's balance has risen, and this is its last memo; 0 where the command had none. The
    /// memo stands before the amount, as in a command.
    DepositedWithMemo(u16, u32),
    /// An account's balance has fallen, and this is its last memo; likewise.
    WithdrawnWithMemo(u16, u32),
    /// An account is closed.
    AccountClosed,
    /// An item is in the cart.
    ItemAdded(CartItem),
    /// The item of this number is no longer in the cart.
    ItemRemoved(u16),
    /// An item has another quantity.
    ItemAdjusted(CartItem),
    /// The cart is out.
    CheckedOut,
}

/// What an entity answers. It stands in the record; nothing is sent back.
#[derive(Clone, Copy, Debug, PartialEq, Eq)]
pub enum Reply {
    /// The command was taken; a counter's total, an account's balance or a cart's number of items.
    Value(u64),
    /// The command was refused, for the reason of this number.
    Rejected(u8),
}

/// What a command handler gives: events, and a reply.
#[derive(Clone, Copy, Debug, PartialEq, Eq)]
pub struct Decision {
    /// What has happened, oldest first.
    pub events: Events,
    /// What is answered.
    pub reply: Reply,
}
