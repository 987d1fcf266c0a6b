//! Events and replies.
ghost use Rattle.std.specs.Prelude.{◌≡◌, ◌<◌, ◌≤◌, ◌+◌, [], ◌∷◌, None, Some, MatchOption, length};
ghost use Rattle.fact_lines.specs.Reads.{added_event, bare_event, deposited_event, event_at, event_more, events_at, item_event, paid_event, reply_at, withdrawn_event};

use crate::basics::{LONG, SHORT, WIDE, numbered, text};
use crate::commands::{item_behind, one_or_two, short_behind};
use crate::parts::Counted;
use yard_model::{CartItem, Event, Events, Reply};

fn added_event(numbers: Counted) -> Event
    requires { numbers.first ≤ 65535 }
    ensures { result ≡ added_event numbers.first numbers.second }
{
    match numbers.second {
        None => Event::Added(numbers.first as u16),
        Some(quantity) => Event::ItemAdded(CartItem {
            item: numbers.first as u16,
            quantity,
        }),
    }
}

fn deposited_event(numbers: Counted) -> Event
    ensures { result ≡ deposited_event numbers.first numbers.second }
{
    match numbers.second {
        None => Event::Deposited(numbers.first),
        Some(memo) => Event::DepositedWithMemo(memo, numbers.first),
    }
}

fn withdrawn_event(numbers: Counted) -> Event
    ensures { result ≡ withdrawn_event numbers.first numbers.second }
{
    match numbers.second {
        None => Event::Withdrawn(numbers.first),
        Some(memo) => Event::WithdrawnWithMemo(memo, numbers.first),
    }
}

/// An event with one number or two.
fn paid_event(line: &[u8]) -> Option<(Event, &[u8])>
    ensures { MatchOption result (paid_event line.now ≡ None) (λ x. paid_event line.now ≡ Some (x.0, x.1.now)) }
{
    if let Some((numbers, rest)) = one_or_two(line, b"added ", SHORT, b" ") {
        return Some((added_event(numbers), rest));
    }
    if let Some((numbers, rest)) = one_or_two(line, b"deposited ", LONG, b" memo ") {
        return Some((deposited_event(numbers), rest));
    }
    let Some((numbers, rest)) = one_or_two(line, b"withdrawn ", LONG, b" memo ") else {
        return None;
    };
    Some((withdrawn_event(numbers), rest))
}

/// An event of a cart with an item's number.
fn item_event(line: &[u8]) -> Option<(Event, &[u8])>
    ensures { MatchOption result (item_event line.now ≡ None) (λ x. item_event line.now ≡ Some (x.0, x.1.now)) }
{
    if let Some((item, rest)) = short_behind(line, b"removed ") {
        return Some((Event::ItemRemoved(item), rest));
    }
    let Some((item, rest)) = item_behind(line, b"adjusted ") else {
        return None;
    };
    Some((Event::ItemAdjusted(item), rest))
}

/// An event without a number.
fn bare_event(line: &[u8]) -> Option<(Event, &[u8])>
    ensures { MatchOption result (bare_event line.now ≡ None) (λ x. bare_event line.now ≡ Some (x.0, x.1.now)) }
{
    if let Some(rest) = text(line, b"created") {
        return Some((Event::Created, rest));
    }
    if let Some(rest) = text(line, b"closed") {
        return Some((Event::AccountClosed, rest));
    }
    let Some(rest) = text(line, b"checkedout") else {
        return None;
    };
    Some((Event::CheckedOut, rest))
}

/// An event, and the bytes behind it.
fn event(line: &[u8]) -> Option<(Event, &[u8])>
    ensures { MatchOption result (event_at line.now ≡ None) (λ x. event_at line.now ≡ Some (x.0, x.1.now)) }
{
    if let Some(found) = paid_event(line) {
        return Some(found);
    }
    if let Some(found) = item_event(line) {
        return Some(found);
    }
    bare_event(line)
}

/// One event more, where there is one.
fn event_more<'a>(events: Events, line: &'a [u8]) -> (Events, &'a [u8])
    requires { length events < 4 }
    ensures more { (result.0, result.1.now) ≡ event_more (events, line.now) }
    ensures fits { length result.0 ≤ length events + 1 }
{
    let Some(behind) = text(line, b", ") else {
        return (events, line);
    };
    let Some((event, rest)) = event(behind) else {
        return (events, line);
    };
    (events.with(event), rest)
}

/// This event and at most three more.
fn events_on<'a>(first: Event, line: &'a [u8]) -> (Events, &'a [u8])
    ensures { (result.0, result.1.now) ≡ event_more (event_more (event_more (first ∷ [], line.now))) }
{
    let (events, line) = event_more(Events::empty().with(first), line);
    let (events, line) = event_more(events, line);
    event_more(events, line)
}

/// At most four events, and the bytes behind them.
pub(crate) fn events(line: &[u8]) -> Option<(Events, &[u8])>
    ensures { MatchOption result (events_at line.now ≡ None) (λ x. events_at line.now ≡ Some (x.0, x.1.now)) }
{
    if let Some(rest) = text(line, b"-") {
        return Some((Events::empty(), rest));
    }
    let Some((first, behind)) = event(line) else {
        return None;
    };
    Some(events_on(first, behind))
}

/// A reply, and the bytes behind it.
pub(crate) fn reply(line: &[u8]) -> Option<(Reply, &[u8])>
    ensures { MatchOption result (reply_at line.now ≡ None) (λ x. reply_at line.now ≡ Some (x.0, x.1.now)) }
{
    if let Some((value, rest)) = numbered(line, b"ok ", WIDE) {
        return Some((Reply::Value(value), rest));
    }
    let Some((reason, rest)) = numbered(line, b"no ", 255) else {
        return None;
    };
    Some((Reply::Rejected(reason as u8), rest))
}
