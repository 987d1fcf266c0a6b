//! States, each read from the front of a line.
ghost use Rattle.std.specs.Prelude.{◌≡◌, ◌<◌, ◌≤◌, ◌+◌, [], ◌∷◌, None, Some, MatchOption, length};
ghost use Rattle.state_lines.specs.States.{account_at, cart_behind, counter_at, item_at, item_more, items_at, items_on, open_at, standing_at, state_at};

use crate::basics::{long_behind, number, numbered, short, short_behind, text};
use yard_model::{CartItem, Items, State};

/// An item and its quantity, and the bytes behind them.
fn item(line: &[u8]) -> Option<(CartItem, &[u8])>
    ensures { MatchOption result (item_at line.now ≡ None) (λ x. item_at line.now ≡ Some (x.0, x.1.now)) }
{
    let Some((item, behind)) = short(line) else {
        return None;
    };
    let Some((quantity, rest)) = short_behind(behind, b":") else {
        return None;
    };
    Some((CartItem { item, quantity }, rest))
}

/// One item more, where there is one.
fn item_more(items: Items, line: &[u8]) -> (Items, &[u8])
    requires { length items < 16 }
    ensures more { (result.0, result.1.now) ≡ item_more (items, line.now) }
    ensures fits { length result.0 ≤ length items + 1 }
{
    let Some(behind) = text(line, b",") else {
        return (items, line);
    };
    let Some((item, rest)) = item(behind) else {
        return (items, line);
    };
    (items.with(item), rest)
}

/// This item and at most fifteen more.
fn items_on(first: CartItem, line: &[u8]) -> (Items, &[u8])
    ensures { (result.0, result.1.now) ≡ items_on 15 (first ∷ [], line.now) }
{
    let mut items = Items::empty().with(first);
    let mut rest = line;
    for _ in 0..15u32 {
        let (more, behind) = item_more(items, rest);
        items = more;
        rest = behind;
    }
    (items, rest)
}

/// At most 16 items, and the bytes behind them.
fn items(line: &[u8]) -> Option<(Items, &[u8])>
    ensures { MatchOption result (items_at line.now ≡ None) (λ x. items_at line.now ≡ Some (x.0, x.1.now)) }
{
    if let Some((first, behind)) = item(line) {
        return Some(items_on(first, behind));
    }
    let Some(rest) = text(line, b"-") else {
        return None;
    };
    Some((Items::empty(), rest))
}

fn counter(line: &[u8]) -> Option<(State, &[u8])>
    ensures { MatchOption result (counter_at line.now ≡ None) (λ x. counter_at line.now ≡ Some (x.0, x.1.now)) }
{
    let Some((total, rest)) = number(line, u64::MAX) else {
        return None;
    };
    Some((State::Counter(total), rest))
}

/// A cart, behind the word that says whether it is checked out.
fn cart<'a>(line: &'a [u8], word: &[u8], out: bool) -> Option<(State, &'a [u8])>
    ensures { MatchOption result (cart_behind word.now out line.now ≡ None) (λ x. cart_behind word.now out line.now ≡ Some (x.0, x.1.now)) }
{
    let Some(behind) = text(line, word) else {
        return None;
    };
    let Some((items, rest)) = items(behind) else {
        return None;
    };
    Some((State::Cart { out, items }, rest))
}

/// An account with its balance, and with its memo where there is one.
fn open(line: &[u8]) -> Option<(State, &[u8])>
    ensures { MatchOption result (open_at line.now ≡ None) (λ x. open_at line.now ≡ Some (x.0, x.1.now)) }
{
    let Some((balance, behind)) = numbered(line, b"open ", u64::MAX) else {
        return None;
    };
    let Some((memo, rest)) = short_behind(behind, b" memo ") else {
        return Some((State::Open { balance, memo: 0 }, behind));
    };
    Some((State::Open { balance, memo }, rest))
}

fn account(line: &[u8]) -> Option<(State, &[u8])>
    ensures { MatchOption result (account_at line.now ≡ None) (λ x. account_at line.now ≡ Some (x.0, x.1.now)) }
{
    if let Some(found) = open(line) {
        return Some(found);
    }
    if let Some(rest) = text(line, b"none") {
        return Some((State::NoAccount, rest));
    }
    let Some(rest) = text(line, b"closed") else {
        return None;
    };
    Some((State::Closed, rest))
}

/// A state, and the bytes behind it.
fn state(line: &[u8]) -> Option<(State, &[u8])>
    ensures { MatchOption result (state_at line.now ≡ None) (λ x. state_at line.now ≡ Some (x.0, x.1.now)) }
{
    if let Some(found) = counter(line) {
        return Some(found);
    }
    if let Some(found) = cart(line, b"open ", false) {
        return Some(found);
    }
    if let Some(found) = cart(line, b"out ", true) {
        return Some(found);
    }
    account(line)
}

/// How many records, and a state; and the bytes behind them.
pub(crate) fn standing(line: &[u8]) -> Option<((u32, State), &[u8])>
    ensures { MatchOption result (standing_at line.now ≡ None) (λ x. standing_at line.now ≡ Some ((x.0.0, x.0.1), x.1.now)) }
{
    let Some((records, behind)) = long_behind(line, b" ") else {
        return None;
    };
    let Some(start) = text(behind, b" ") else {
        return None;
    };
    let Some((state, rest)) = state(start) else {
        return None;
    };
    Some(((records, state), rest))
}
