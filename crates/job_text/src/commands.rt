//! Numbers and commands at the end of a text.
ghost use Rattle.std.specs.Prelude.{◌≡◌, ◌∷◌, ◌++◌, OnOk, decimal};
ghost use Rattle.yard_model.specs.Text.{command_text, incarnation_text};

use itoa::Buffer;
use std::alloc::AllocError;
use yard_model::{Command, Incarnation};

/// Appends a number.
pub(crate) fn push_number(text: &mut Vec<u8>, n: u64) -> Result<(), AllocError>
    ensures { OnOk result (text.new.items ≡ text.old.items ++ decimal n) }
{
    let mut buffer = Buffer::new();
    text.extend_from_slice(buffer.format(n).as_bytes())
}

/// Appends an incarnation.
pub(crate) fn push_incarnation(text: &mut Vec<u8>, who: &Incarnation) -> Result<(), AllocError>
    ensures { OnOk result (text.new.items ≡ text.old.items ++ incarnation_text who.now) }
{
    push_number(text, u64::from(who.node.get()))?;
    text.push(b'.')?;
    push_number(text, u64::from(who.number))
}

/// Appends a word and a number.
fn push_counted(text: &mut Vec<u8>, word: &[u8], n: u64) -> Result<(), AllocError>
    ensures { OnOk result (text.new.items ≡ text.old.items ++ (word.now ++ decimal n)) }
{
    text.extend_from_slice(word)?;
    push_number(text, n)
}

/// Appends a word and two numbers.
fn push_two_counts(
    text: &mut Vec<u8>,
    word: &[u8],
    first: u64,
    second: u64,
) -> Result<(), AllocError>
    ensures { OnOk result (text.new.items ≡ text.old.items ++ (word.now ++ (decimal first ++ 32 ∷ decimal second))) }
{
    push_counted(text, word, first)?;
    text.push(b' ')?;
    push_number(text, second)
}

/// Appends a command.
pub(crate) fn push_command(text: &mut Vec<u8>, command: &Command) -> Result<(), AllocError>
    ensures { OnOk result (text.new.items ≡ text.old.items ++ command_text command.now) }
{
    match command {
        Command::Add(k) => push_counted(text, b"add ", u64::from(*k)),
        Command::Read => text.extend_from_slice(b"read"),
        Command::Create => text.extend_from_slice(b"create"),
        Command::Deposit(k) => push_counted(text, b"deposit ", u64::from(*k)),
        Command::Withdraw(k) => push_counted(text, b"withdraw ", u64::from(*k)),
        Command::DepositWithMemo(m, k) => {
            push_two_counts(text, b"deposit ", u64::from(*k), u64::from(*m))
        }
        Command::WithdrawWithMemo(m, k) => {
            push_two_counts(text, b"withdraw ", u64::from(*k), u64::from(*m))
        }
        Command::Balance => text.extend_from_slice(b"balance"),
        Command::Close => text.extend_from_slice(b"close"),
        Command::AddItem(x) => {
            push_two_counts(text, b"add ", u64::from(x.item), u64::from(x.quantity))
        }
        Command::RemoveItem(item) => push_counted(text, b"remove ", u64::from(*item)),
        Command::AdjustItem(x) => {
            push_two_counts(text, b"adjust ", u64::from(x.item), u64::from(x.quantity))
        }
        Command::Checkout => text.extend_from_slice(b"checkout"),
    }
}
