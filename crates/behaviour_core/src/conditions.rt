//! The conditions of a behaviour, for callers that don't know them otherwise.
ghost use Rattle.std.specs.Prelude.{◌≡◌, ℕ, ◌+◌, false, nat_le};
ghost use Rattle.std.specs.List.{list_all};
ghost use Rattle.yard_model.specs.Behaviour.{is_in, is_item, is_memo, is_of_kind, is_valid, is_applicable, are_rising, is_below_all};

use yard_model::{CartItem, Command, Event, Items, Kind, State};

/// The greatest total and balance.
const MOST: u64 = 1_000_000_000_000_000;

/// The greatest memo.
const MOST_MEMO: u16 = 9999;

/// Whether the command stands among those of this kind, with its numbers in range.
pub fn is_of_kind(kind: Kind, command: &Command) -> bool
    ensures { result ≡ is_of_kind kind command.now }
{
    match (kind, command) {
        (Kind::Counter, Command::Add(k)) => is_in(1, 1000, u64::from(*k)),
        (Kind::Counter, Command::Read) => true,
        (Kind::Account, Command::Deposit(k) | Command::Withdraw(k)) => is_amount(*k),
        (Kind::Account, Command::DepositWithMemo(m, k) | Command::WithdrawWithMemo(m, k)) => {
            is_amount(*k) && is_memo(*m)
        }
        (Kind::Account, Command::Create | Command::Balance | Command::Close) => true,
        (Kind::Cart, Command::AddItem(x) | Command::AdjustItem(x)) => is_item(x),
        (Kind::Cart, Command::RemoveItem(number)) => is_item_number(*number),
        (Kind::Cart, Command::Checkout) => true,
        _ => false,
    }
}

/// Whether entities of this kind can be in this state.
pub fn is_valid(kind: Kind, state: &State) -> bool
    ensures { result ≡ is_valid kind state.now }
{
    match (kind, state) {
        (Kind::Counter, State::Counter(total)) => *total <= MOST,
        (Kind::Account, State::NoAccount | State::Closed) => true,
        (Kind::Account, State::Open { balance, memo }) => *balance <= MOST && *memo <= MOST_MEMO,
        (Kind::Cart, State::Cart { items, .. }) => is_valid_cart(items),
        _ => false,
    }
}

/// Whether some command of the state's kind is answered there with this event alone, in one version
/// or the other.
pub fn is_applicable(state: &State, event: &Event) -> bool
    ensures { result ≡ is_applicable state.now event.now }
{
    match (state, event) {
        (State::Counter(total), Event::Added(k)) => {
            is_in(1, 1000, u64::from(*k)) && fits(*total, u64::from(*k))
        }
        (State::NoAccount, Event::Created) => true,
        (State::Open { balance, .. }, _) => is_applicable_in_account(*balance, event),
        (State::Cart { out: false, items }, _) => is_applicable_in_cart(items, event),
        _ => false,
    }
}

fn is_applicable_in_account(balance: u64, event: &Event) -> bool
    ensures { (memo : ℕ) → result ≡ is_applicable (State.Open balance memo) event.now }
{
    match event {
        Event::Deposited(k) => is_amount(*k) && fits(balance, u64::from(*k)),
        Event::Withdrawn(k) => is_amount(*k) && u64::from(*k) <= balance,
        Event::DepositedWithMemo(m, k) => {
            is_amount(*k) && *m <= MOST_MEMO && fits(balance, u64::from(*k))
        }
        Event::WithdrawnWithMemo(m, k) => {
            is_amount(*k) && *m <= MOST_MEMO && u64::from(*k) <= balance
        }
        Event::AccountClosed => balance == 0,
        _ => false,
    }
}

fn is_applicable_in_cart(items: &Items, event: &Event) -> bool
    ensures { result ≡ is_applicable (State.Cart false items.now) event.now }
{
    match event {
        Event::ItemAdded(x) => is_item(x) && !items.has(x.item) && items.as_slice().len() < 16,
        Event::ItemRemoved(number) => is_item_number(*number) && items.has(*number),
        Event::ItemAdjusted(x) => is_item(x) && items.has(x.item),
        Event::CheckedOut => !items.as_slice().is_empty(),
        _ => false,
    }
}

/// Whether the items stand by rising number, each in range. There are never more than 16.
fn is_valid_cart(items: &Items) -> bool
    ensures { result ≡ is_valid Kind.Cart (State.Cart false items.now) }
{
    let items = items.as_slice();
    are_rising(items) && are_items(items)
}

fn are_rising(items: &[CartItem]) -> bool
    ensures { result ≡ are_rising items.now }
{
    match items {
        [] => true,
        [first, others @ ..] => is_below_all(first, others) && are_rising(others),
    }
}

fn is_below_all(item: &CartItem, others: &[CartItem]) -> bool
    ensures { result ≡ is_below_all item.now others.now }
{
    others.iter().all(|x| item.item < x.item)
}

fn are_items(items: &[CartItem]) -> bool
    ensures { result ≡ list_all is_item items.now }
{
    items.iter().all(|x| is_item(x))
}

fn is_item(item: &CartItem) -> bool
    ensures { result ≡ is_item item.now }
{
    is_item_number(item.item) && is_in(1, 1000, u64::from(item.quantity))
}

fn is_item_number(number: u16) -> bool
    ensures { result ≡ is_in 1 9999 number }
{
    is_in(1, 9999, u64::from(number))
}

fn is_amount(amount: u32) -> bool
    ensures { result ≡ is_in 1 1000000 amount }
{
    is_in(1, 1_000_000, u64::from(amount))
}

fn is_memo(memo: u16) -> bool
    ensures { result ≡ is_memo memo }
{
    is_in(1, u64::from(MOST_MEMO), u64::from(memo))
}

/// Whether a total or a balance and one amount more stay within the greatest.
fn fits(total: u64, more: u64) -> bool
    ensures { result ≡ nat_le (total + more) 1000000000000000 }
{
    total <= MOST && more <= MOST - total
}

/// Whether the number is from `low` to `high`.
fn is_in(low: u64, high: u64, number: u64) -> bool
    ensures { result ≡ is_in low high number }
{
    low <= number && number <= high
}
