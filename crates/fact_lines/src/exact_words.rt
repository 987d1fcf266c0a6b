//! Commands, events, replies and records at the front of a line, as they are printed. Where the answer is None, nothing
//! is said.
ghost use Rattle.std.specs.Prelude.{◌≡◌, ◌∷◌, ◌++◌, [], IfSome, codes, decimal};
ghost use Rattle.yard_model.specs.Text.{command_text, event_text, events_text, record_words, reply_text, words};

use crate::exact::{behind, item, long, producer, short, wide};
use crate::parts::{Numbers, Outcome};
use crate::records::record_of;
use yard_model::{CartItem, Command, Event, Events, Record, Reply};

/// A command that adds to a counter or a cart.
#[inline(always)]
fn add(line: &[u8]) -> Option<(Command, &[u8])>
    ensures { IfSome result (λ x. line.now ≡ command_text x.0 ++ x.1.now) }
{
    let (first, rest) = short(line, b"add ")?;
    match short(rest, b" ") {
        Some((quantity, rest)) => Some((
            Command::AddItem(CartItem {
                item: first,
                quantity,
            }),
            rest,
        )),
        None => Some((Command::Add(first), rest)),
    }
}

/// A deposit.
fn deposit(line: &[u8]) -> Option<(Command, &[u8])>
    ensures { IfSome result (λ x. line.now ≡ command_text x.0 ++ x.1.now) }
{
    let (amount, rest) = long(line, b"deposit ")?;
    match short(rest, b" ") {
        Some((memo, rest)) => Some((Command::DepositWithMemo(memo, amount), rest)),
        None => Some((Command::Deposit(amount), rest)),
    }
}

/// A withdrawal.
fn withdraw(line: &[u8]) -> Option<(Command, &[u8])>
    ensures { IfSome result (λ x. line.now ≡ command_text x.0 ++ x.1.now) }
{
    let (amount, rest) = long(line, b"withdraw ")?;
    match short(rest, b" ") {
        Some((memo, rest)) => Some((Command::WithdrawWithMemo(memo, amount), rest)),
        None => Some((Command::Withdraw(amount), rest)),
    }
}

/// A command to a cart with an item's number.
fn of_item(line: &[u8]) -> Option<(Command, &[u8])>
    ensures { IfSome result (λ x. line.now ≡ command_text x.0 ++ x.1.now) }
{
    if let Some((item, rest)) = item(line, b"adjust ") {
        return Some((Command::AdjustItem(item), rest));
    }
    let (item, rest) = short(line, b"remove ")?;
    Some((Command::RemoveItem(item), rest))
}

/// A command without a number.
fn bare(line: &[u8]) -> Option<(Command, &[u8])>
    ensures { IfSome result (λ x. line.now ≡ command_text x.0 ++ x.1.now) }
{
    if let Some(rest) = behind(line, b"read") {
        return Some((Command::Read, rest));
    }
    if let Some(rest) = behind(line, b"create") {
        return Some((Command::Create, rest));
    }
    if let Some(rest) = behind(line, b"balance") {
        return Some((Command::Balance, rest));
    }
    if let Some(rest) = behind(line, b"close") {
        return Some((Command::Close, rest));
    }
    let rest = behind(line, b"checkout")?;
    Some((Command::Checkout, rest))
}

/// A command, and the bytes behind it.
#[inline(always)]
pub(crate) fn command(line: &[u8]) -> Option<(Command, &[u8])>
    ensures { IfSome result (λ x. line.now ≡ command_text x.0 ++ x.1.now) }
{
    if let Some(found) = add(line) {
        return Some(found);
    }
    other_command(line)
}

/// A command that adds nothing to a counter, and the bytes behind it.
#[inline(never)]
fn other_command(line: &[u8]) -> Option<(Command, &[u8])>
    ensures { IfSome result (λ x. line.now ≡ command_text x.0 ++ x.1.now) }
{
    if let Some(found) = deposit(line) {
        return Some(found);
    }
    if let Some(found) = withdraw(line) {
        return Some(found);
    }
    if let Some(found) = of_item(line) {
        return Some(found);
    }
    bare(line)
}

/// An event of a counter or a cart to which something is added.
#[inline(always)]
fn added(line: &[u8]) -> Option<(Event, &[u8])>
    ensures { IfSome result (λ x. line.now ≡ event_text x.0 ++ x.1.now) }
{
    let (first, rest) = short(line, b"added ")?;
    match short(rest, b" ") {
        Some((quantity, rest)) => Some((
            Event::ItemAdded(CartItem {
                item: first,
                quantity,
            }),
            rest,
        )),
        None => Some((Event::Added(first), rest)),
    }
}

/// An event of an account that moves money.
fn moved(line: &[u8]) -> Option<(Event, &[u8])>
    ensures { IfSome result (λ x. line.now ≡ event_text x.0 ++ x.1.now) }
{
    if let Some((amount, rest)) = long(line, b"deposited ") {
        return Some((Event::Deposited(amount), rest));
    }
    let (amount, rest) = long(line, b"withdrawn ")?;
    Some((Event::Withdrawn(amount), rest))
}

/// An event of a cart with an item's number.
fn changed(line: &[u8]) -> Option<(Event, &[u8])>
    ensures { IfSome result (λ x. line.now ≡ event_text x.0 ++ x.1.now) }
{
    if let Some((item, rest)) = item(line, b"adjusted ") {
        return Some((Event::ItemAdjusted(item), rest));
    }
    let (item, rest) = short(line, b"removed ")?;
    Some((Event::ItemRemoved(item), rest))
}

/// An event without a number.
fn bare_event(line: &[u8]) -> Option<(Event, &[u8])>
    ensures { IfSome result (λ x. line.now ≡ event_text x.0 ++ x.1.now) }
{
    if let Some(rest) = behind(line, b"created") {
        return Some((Event::Created, rest));
    }
    if let Some(rest) = behind(line, b"closed") {
        return Some((Event::AccountClosed, rest));
    }
    let rest = behind(line, b"checkedout")?;
    Some((Event::CheckedOut, rest))
}

/// An event that adds nothing to a counter, and the bytes behind it.
#[inline(never)]
fn other_event(line: &[u8]) -> Option<(Event, &[u8])>
    ensures { IfSome result (λ x. line.now ≡ event_text x.0 ++ x.1.now) }
{
    if let Some(found) = moved(line) {
        return Some(found);
    }
    if let Some(found) = changed(line) {
        return Some(found);
    }
    bare_event(line)
}

/// An event, and the bytes behind it.
#[inline(always)]
fn event(line: &[u8]) -> Option<(Event, &[u8])>
    ensures { IfSome result (λ x. line.now ≡ event_text x.0 ++ x.1.now) }
{
    if let Some(found) = added(line) {
        return Some(found);
    }
    other_event(line)
}

/// At most one event, and the bytes behind it.
#[inline(always)]
fn events(line: &[u8]) -> Option<(Events, &[u8])>
    ensures { IfSome result (λ x. line.now ≡ events_text x.0 ++ x.1.now) }
{
    if let Some(rest) = behind(line, b"-") {
        return Some((Events::empty(), rest));
    }
    let (first, rest) = event(line)?;
    Some((Events::empty().with(first), rest))
}

/// A reply, and the bytes behind it.
#[inline(always)]
fn reply(line: &[u8]) -> Option<(Reply, &[u8])>
    ensures { IfSome result (λ x. line.now ≡ reply_text x.0 ++ x.1.now) }
{
    if let Some((value, rest)) = wide(line, b"ok ") {
        return Some((Reply::Value(value), rest));
    }
    let (reason, rest) = short(line, b"no ")?;
    if reason > 255 {
        return None;
    }
    Some((Reply::Rejected(reason as u8), rest))
}

/// The numbers of a record behind a space, and the bytes behind them.
#[inline(always)]
fn numbers(line: &[u8]) -> Option<(Numbers, &[u8])>
    ensures { IfSome result (λ x. line.now ≡ codes " " ++ (words (decimal x.0.number ∷ codes "epoch" ∷ decimal x.0.epoch ∷ codes "by"
        ∷ (decimal x.0.producer ++ 58 ∷ decimal x.0.place) ∷ []) ++ x.1.now)) }
{
    let Some((number, rest)) = long(line, b" ") else {
        return None;
    };
    let Some((epoch, rest)) = long(rest, b" epoch ") else {
        return None;
    };
    let Some((producer, rest)) = producer(rest, b" by ") else {
        return None;
    };
    let Some((place, rest)) = long(rest, b":") else {
        return None;
    };
    Some((
        Numbers {
            number,
            epoch,
            producer,
            place,
        },
        rest,
    ))
}

/// What a record says besides its numbers, behind a space, and the bytes behind it.
#[inline(always)]
fn outcome(line: &[u8]) -> Option<(Outcome, &[u8])>
    ensures { IfSome result (λ x. line.now ≡ codes " " ++ (words (command_text x.0.command ∷ codes "/" ∷ events_text x.0.events ∷ codes "/" ∷ reply_text x.0.reply ∷ []) ++ x.1.now)) }
{
    let Some(rest) = behind(line, b" ") else {
        return None;
    };
    let Some((command, rest)) = command(rest) else {
        return None;
    };
    let Some(rest) = behind(rest, b" / ") else {
        return None;
    };
    let Some((events, rest)) = events(rest) else {
        return None;
    };
    let Some(rest) = behind(rest, b" / ") else {
        return None;
    };
    let Some((reply, rest)) = reply(rest) else {
        return None;
    };
    Some((
        Outcome {
            command,
            events,
            reply,
        },
        rest,
    ))
}

/// A record behind a space, and the bytes behind it.
#[inline(always)]
pub(crate) fn record(line: &[u8]) -> Option<(Record, &[u8])>
    ensures { IfSome result (λ x. line.now ≡ codes " " ++ (words (record_words x.0) ++ x.1.now)) }
{
    let Some((numbers, rest)) = numbers(line) else {
        return None;
    };
    let Some((outcome, rest)) = outcome(rest) else {
        return None;
    };
    Some((record_of(&numbers, &outcome), rest))
}
