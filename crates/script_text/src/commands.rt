//! Commands of each kind.
ghost use Rattle.std.specs.Prelude.{◌≡◌, IfOk, IfSome, IsTrue};
ghost use Rattle.yard_model.specs.Behaviour.{is_in, is_amount, is_memo, is_of_kind, is_item};
ghost use Rattle.script_text.specs.Words.{words};
ghost use Rattle.script_text.specs.Orders.{number, item, amount, memo, deposit, withdraw, counter_command, account_command, cart_command, command_of};

use crate::cut::next_word;
use crate::fault::Why;
use crate::words::{both, first, is, no_more, number_of, only_number};
use yard_model::{CartItem, Command, Kind};

/// A command of this kind: its first word, and the words after it, of which each belongs to it. The first reason
/// where they are none.
#[tactic(auto, unfolding(crate::specs::Orders::command_of))]
pub fn command(kind: Kind, verb: &[u8], line: &[u8]) -> Result<Command, Why>
    ensures value { result ≡ command_of kind verb.now (words line.now) }
    ensures valid { IfOk result (λ k. IsTrue (is_of_kind kind k)) }
{
    match kind {
        Kind::Counter => counter_command(verb, line),
        Kind::Account => account_command(verb, line),
        Kind::Cart => cart_command(verb, line),
    }
}

#[tactic(auto, unfolding(crate::specs::Orders::counter_command))]
fn counter_command(verb: &[u8], line: &[u8]) -> Result<Command, Why>
    ensures value { result ≡ counter_command verb.now (words line.now) }
    ensures valid { IfOk result (λ k. IsTrue (is_of_kind Kind.Counter k)) }
{
    if is(verb, "add") {
        return Ok(Command::Add(only_number(line, 1, 1000)? as u16));
    }
    if is(verb, "read") {
        no_more(line)?;
        return Ok(Command::Read);
    }
    Err(Why::UnknownWord)
}

#[tactic(auto, unfolding(crate::specs::Orders::account_command))]
fn account_command(verb: &[u8], line: &[u8]) -> Result<Command, Why>
    ensures value { result ≡ account_command verb.now (words line.now) }
    ensures valid { IfOk result (λ k. IsTrue (is_of_kind Kind.Account k)) }
{
    if is(verb, "create") {
        no_more(line)?;
        return Ok(Command::Create);
    }
    if is(verb, "deposit") {
        return deposit(line);
    }
    if is(verb, "withdraw") {
        return withdraw(line);
    }
    if is(verb, "balance") {
        no_more(line)?;
        return Ok(Command::Balance);
    }
    if is(verb, "close") {
        no_more(line)?;
        return Ok(Command::Close);
    }
    Err(Why::UnknownWord)
}

/// `deposit K` or `deposit K M`, from K on.
#[tactic(auto, unfolding(crate::specs::Orders::deposit))]
fn deposit(line: &[u8]) -> Result<Command, Why>
    ensures value { result ≡ deposit (words line.now) }
    ensures valid { IfOk result (λ k. IsTrue (is_of_kind Kind.Account k)) }
{
    match amount(line)? {
        (k, None) => Ok(Command::Deposit(k)),
        (k, Some(m)) => Ok(Command::DepositWithMemo(m, k)),
    }
}

/// `withdraw K` or `withdraw K M`, from K on.
#[tactic(auto, unfolding(crate::specs::Orders::withdraw))]
fn withdraw(line: &[u8]) -> Result<Command, Why>
    ensures value { result ≡ withdraw (words line.now) }
    ensures valid { IfOk result (λ k. IsTrue (is_of_kind Kind.Account k)) }
{
    match amount(line)? {
        (k, None) => Ok(Command::Withdraw(k)),
        (k, Some(m)) => Ok(Command::WithdrawWithMemo(m, k)),
    }
}

/// An amount, and a memo or none.
#[tactic(auto, unfolding(crate::specs::Orders::amount))]
fn amount(line: &[u8]) -> Result<(u32, Option<u16>), Why>
    ensures value { result ≡ amount (words line.now) }
    ensures valid { IfOk result (λ x. IsTrue (is_amount x.0) × IfSome x.1 (λ m. IsTrue (is_memo m))) }
{
    let (k, line) = first(line)?;
    both(number_of(k, 1, 1_000_000), memo(line))
}

/// A memo, or none.
#[tactic(auto, unfolding(crate::specs::Orders::memo))]
fn memo(line: &[u8]) -> Result<Option<u16>, Why>
    ensures value { result ≡ memo (words line.now) }
    ensures valid { IfOk result (λ x. IfSome x (λ m. IsTrue (is_memo m))) }
{
    let Some((word, line)) = next_word(line) else {
        return Ok(None);
    };
    no_more(line)?;
    Ok(Some(part(word, 9999)?))
}

#[tactic(auto, unfolding(crate::specs::Orders::cart_command))]
fn cart_command(verb: &[u8], line: &[u8]) -> Result<Command, Why>
    ensures value { result ≡ cart_command verb.now (words line.now) }
    ensures valid { IfOk result (λ k. IsTrue (is_of_kind Kind.Cart k)) }
{
    if is(verb, "add") {
        return Ok(Command::AddItem(item(line)?));
    }
    if is(verb, "remove") {
        return Ok(Command::RemoveItem(only_number(line, 1, 9999)? as u16));
    }
    if is(verb, "adjust") {
        return Ok(Command::AdjustItem(item(line)?));
    }
    if is(verb, "checkout") {
        no_more(line)?;
        return Ok(Command::Checkout);
    }
    Err(Why::UnknownWord)
}

/// An item's number and a quantity.
#[tactic(auto, unfolding(crate::specs::Orders::item))]
fn item(line: &[u8]) -> Result<CartItem, Why>
    ensures value { result ≡ item (words line.now) }
    ensures valid { IfOk result (λ x. IsTrue (is_item x)) }
{
    let (number, line) = first(line)?;
    let (quantity, line) = first(line)?;
    no_more(line)?;
    let (item, quantity) = both(part(number, 9999), part(quantity, 1000))?;
    Ok(CartItem { item, quantity })
}

/// A number from 1.
fn part(word: &[u8], high: u16) -> Result<u16, Why>
    ensures value { result ≡ number 1 high word.now }
    ensures valid { IfOk result (λ n. IsTrue (is_in 1 high n)) }
{
    let number = number_of(word, 1, high as u32)?;
    Ok(number as u16)
}
