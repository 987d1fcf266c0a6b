//! Commands, each with its numbers.
ghost use Rattle.std.specs.Prelude.{◌≡◌, ◌≤◌, None, Some, IfSome, MatchOption};
ghost use Rattle.fact_lines.specs.Reads.{add_command, bare_command, command_at, deposit_command, item_behind, item_command, numbered, one_or_two, paid_command, withdraw_command};

use crate::basics::{LONG, SHORT, numbered, text};
use crate::parts::Counted;
use yard_model::{CartItem, Command};

/// A number behind this text, one more behind `between` where there is one, and the bytes behind them.
pub(crate) fn one_or_two<'a>(
    line: &'a [u8],
    word: &[u8],
    top: u64,
    between: &[u8],
) -> Option<(Counted, &'a [u8])>
    requires { top ≤ 4294967295 }
    ensures read { MatchOption result (one_or_two word.now top between.now line.now ≡ None)
        (λ x. one_or_two word.now top between.now line.now ≡ Some (x.0, x.1.now)) }
    ensures top { IfSome result (λ x. x.0.first ≤ top) }
{
    let (first, rest) = numbered(line, word, top)?;
    match numbered(rest, between, SHORT) {
        Some((second, behind)) => Some((counted(first, Some(second)), behind)),
        None => Some((counted(first, None), rest)),
    }
}

/// These numbers.
fn counted(first: u64, second: Option<u64>) -> Counted
    requires first { first ≤ 4294967295 }
    requires second { IfSome second (λ n. n ≤ 65535) }
    ensures { result ≡ record { first = first; second = second } }
{
    Counted {
        first: first as u32,
        second: match second {
            Some(n) => Some(n as u16),
            None => None,
        },
    }
}

/// A number of 16 bits behind this text, and the bytes behind it.
pub(crate) fn short_behind<'a>(line: &'a [u8], word: &[u8]) -> Option<(u16, &'a [u8])>
    ensures { MatchOption result (numbered word.now 65535 line.now ≡ None) (λ x. numbered word.now 65535 line.now ≡ Some (x.0, x.1.now)) }
{
    let (n, rest) = numbered(line, word, SHORT)?;
    Some((n as u16, rest))
}

/// An item and its quantity, the item behind this text, and the bytes behind them.
pub(crate) fn item_behind<'a>(line: &'a [u8], word: &[u8]) -> Option<(CartItem, &'a [u8])>
    ensures { MatchOption result (item_behind word.now line.now ≡ None) (λ x. item_behind word.now line.now ≡ Some (x.0, x.1.now)) }
{
    let Some((item, behind)) = short_behind(line, word) else {
        return None;
    };
    let Some((quantity, rest)) = short_behind(behind, b" ") else {
        return None;
    };
    Some((CartItem { item, quantity }, rest))
}

fn add_command(numbers: Counted) -> Command
    requires { numbers.first ≤ 65535 }
    ensures { result ≡ add_command numbers.first numbers.second }
{
    match numbers.second {
        None => Command::Add(numbers.first as u16),
        Some(quantity) => Command::AddItem(CartItem {
            item: numbers.first as u16,
            quantity,
        }),
    }
}

fn deposit_command(numbers: Counted) -> Command
    ensures { result ≡ deposit_command numbers.first numbers.second }
{
    match numbers.second {
        None => Command::Deposit(numbers.first),
        Some(memo) => Command::DepositWithMemo(memo, numbers.first),
    }
}

fn withdraw_command(numbers: Counted) -> Command
    ensures { result ≡ withdraw_command numbers.first numbers.second }
{
    match numbers.second {
        None => Command::Withdraw(numbers.first),
        Some(memo) => Command::WithdrawWithMemo(memo, numbers.first),
    }
}

/// A command with one number or two.
fn paid_command(line: &[u8]) -> Option<(Command, &[u8])>
    ensures { MatchOption result (paid_command line.now ≡ None) (λ x. paid_command line.now ≡ Some (x.0, x.1.now)) }
{
    if let Some((numbers, rest)) = one_or_two(line, b"add ", SHORT, b" ") {
        return Some((add_command(numbers), rest));
    }
    if let Some((numbers, rest)) = one_or_two(line, b"deposit ", LONG, b" ") {
        return Some((deposit_command(numbers), rest));
    }
    let Some((numbers, rest)) = one_or_two(line, b"withdraw ", LONG, b" ") else {
        return None;
    };
    Some((withdraw_command(numbers), rest))
}

/// A command to a cart with an item's number.
fn item_command(line: &[u8]) -> Option<(Command, &[u8])>
    ensures { MatchOption result (item_command line.now ≡ None) (λ x. item_command line.now ≡ Some (x.0, x.1.now)) }
{
    if let Some((item, rest)) = short_behind(line, b"remove ") {
        return Some((Command::RemoveItem(item), rest));
    }
    let Some((item, rest)) = item_behind(line, b"adjust ") else {
        return None;
    };
    Some((Command::AdjustItem(item), rest))
}

/// A command without a number.
fn bare_command(line: &[u8]) -> Option<(Command, &[u8])>
    ensures { MatchOption result (bare_command line.now ≡ None) (λ x. bare_command line.now ≡ Some (x.0, x.1.now)) }
{
    if let Some(rest) = text(line, b"read") {
        return Some((Command::Read, rest));
    }
    if let Some(rest) = text(line, b"create") {
        return Some((Command::Create, rest));
    }
    if let Some(rest) = text(line, b"balance") {
        return Some((Command::Balance, rest));
    }
    if let Some(rest) = text(line, b"close") {
        return Some((Command::Close, rest));
    }
    let Some(rest) = text(line, b"checkout") else {
        return None;
    };
    Some((Command::Checkout, rest))
}

/// A command, and the bytes behind it.
pub(crate) fn command(line: &[u8]) -> Option<(Command, &[u8])>
    ensures { MatchOption result (command_at line.now ≡ None) (λ x. command_at line.now ≡ Some (x.0, x.1.now)) }
{
    if let Some(found) = paid_command(line) {
        return Some(found);
    }
    if let Some(found) = item_command(line) {
        return Some(found);
    }
    bare_command(line)
}
