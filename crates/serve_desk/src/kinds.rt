//! Which commands are of a script's kind.
ghost use Rattle.std.specs.Prelude.{◌≡◌};
ghost use Rattle.yard_model.specs.declared.event.Kind.TheVariants as kinds;
ghost use Rattle.yard_model.specs.Behaviour.{is_of_kind, is_amount, is_memo, is_item, is_item_number};

use yard_model::{CartItem, Command, Kind};

/// Whether a command is of this kind, with its numbers in range.
pub fn is_of_kind(kind: Kind, command: &Command) -> bool
    ensures { result ≡ is_of_kind kind command.now }
{
    match kind {
        Kind::Counter => is_of_counter(command),
        Kind::Account => is_of_account(command),
        Kind::Cart => is_of_cart(command),
    }
}

fn is_of_counter(command: &Command) -> bool
    ensures { result ≡ is_of_kind kinds.Counter command.now }
{
    match command {
        Command::Add(k) => *k >= 1 && *k <= 1000,
        Command::Read => true,
        _ => false,
    }
}

fn is_of_account(command: &Command) -> bool
    ensures { result ≡ is_of_kind kinds.Account command.now }
{
    match command {
        Command::Deposit(k) | Command::Withdraw(k) => is_amount(*k),
        Command::DepositWithMemo(m, k) | Command::WithdrawWithMemo(m, k) => {
            is_amount(*k) && is_number(*m)
        }
        Command::Create | Command::Balance | Command::Close => true,
        _ => false,
    }
}

fn is_of_cart(command: &Command) -> bool
    ensures { result ≡ is_of_kind kinds.Cart command.now }
{
    match command {
        Command::AddItem(x) | Command::AdjustItem(x) => is_item(x),
        Command::RemoveItem(i) => is_number(*i),
        Command::Checkout => true,
        _ => false,
    }
}

fn is_amount(k: u32) -> bool
    ensures { result ≡ is_amount k }
{
    k >= 1 && k <= 1_000_000
}

/// Of a memo, and of an item.
fn is_number(n: u16) -> bool
    ensures { result ≡ is_memo n }
{
    n >= 1 && n <= 9999
}

fn is_item(x: &CartItem) -> bool
    ensures { result ≡ is_item x.now }
{
    is_number(x.item) && x.quantity >= 1 && x.quantity <= 1000
}
