//! Incarnations, stamps, slots, commands, events, replies and states.
ghost use Rattle.std.specs.Prelude.{◌≡◌, ◌+◌, ◌*◌, ◌<◌, ◌≤◌, ◌++◌, ◌∷◌, [], OnOk, codes, decimal, length, take};
ghost use Rattle.yard_model.specs.Text.{words, incarnation_text, stamp_text, slot_text, cause_text, keep_text, command_text, event_text, events_text, reply_text, item_text, items_text, state_text};
ghost use Rattle.trace_text.specs.Behind.{behind};

use crate::number::{put_number, put_small, put_wide};
use crate::room::{push_cells, put, put_short, put_word};
use std::alloc::AllocError;
use yard_model::{
    CartItem, Cause, Command, EntityName, Event, Incarnation, Keep, Reply, Slot, Stamp, State,
};

/// `node.number`.
#[inline(always)]
pub(crate) fn put_incarnation(cells: &mut [u8], at: usize, x: &Incarnation) -> usize
    requires { at + 13 ≤ length cells.old }
    ensures items { take result cells.new ≡ take at cells.old ++ incarnation_text x.now }
    ensures end { result ≤ at + 13 }
{
    let at = put_small(cells, at, u32::from(x.node.get()));
    let at = put(cells, at, b'.');
    put_number(cells, at, x.number)
}

/// `epoch/round`.
pub(crate) fn put_stamp(cells: &mut [u8], at: usize, stamp: &Stamp) -> usize
    requires { at + 21 ≤ length cells.old }
    ensures items { take result cells.new ≡ take at cells.old ++ stamp_text stamp.now }
    ensures end { result ≤ at + 21 }
{
    let at = put_number(cells, at, stamp.epoch);
    let at = put(cells, at, b'/');
    put_number(cells, at, stamp.round)
}

/// A name.
#[inline(always)]
pub(crate) fn put_name(cells: &mut [u8], at: usize, name: &EntityName) -> usize
    requires { at + 32 ≤ length cells.old }
    ensures items { take result cells.new ≡ take at cells.old ++ name.now }
    ensures end { result ≤ at + 32 }
{
    put_short(cells, at, name.bytes())
}

/// A word and a number.
#[inline(always)]
pub(crate) fn put_counted<const N: usize>(
    cells: &mut [u8],
    at: usize,
    word: &[u8; N],
    k: u32,
) -> usize
    requires { at + (N + 10) ≤ length cells.old }
    ensures items { take result cells.new ≡ take at cells.old ++ (word.now ++ decimal k) }
    ensures end { result ≤ at + (N + 10) }
{
    let at = put_word(cells, at, word);
    put_number(cells, at, k)
}

/// A word with an item's number and quantity.
fn put_with_item<const N: usize>(cells: &mut [u8], at: usize, word: &[u8; N], x: &CartItem) -> usize
    requires { at + (N + 21) ≤ length cells.old }
    ensures items { take result cells.new ≡ take at cells.old ++ (word.now ++ (decimal x.now.item ++ 32 ∷ decimal x.now.quantity)) }
    ensures end { result ≤ at + (N + 21) }
{
    put_two_counts(cells, at, word, u32::from(x.item), u32::from(x.quantity))
}

/// A word and two numbers.
fn put_two_counts<const N: usize>(
    cells: &mut [u8],
    at: usize,
    word: &[u8; N],
    a: u32,
    b: u32,
) -> usize
    requires { at + (N + 21) ≤ length cells.old }
    ensures items { take result cells.new ≡ take at cells.old ++ (word.now ++ (decimal a ++ 32 ∷ decimal b)) }
    ensures end { result ≤ at + (N + 21) }
{
    let at = put_counted(cells, at, word, a);
    let at = put(cells, at, b' ');
    put_number(cells, at, b)
}

/// A word with an amount and its memo.
fn put_with_memo<const N: usize>(
    cells: &mut [u8],
    at: usize,
    word: &[u8; N],
    k: u32,
    memo: u16,
) -> usize
    requires { at + (N + 26) ≤ length cells.old }
    ensures items { take result cells.new ≡ take at cells.old ++ (word.now ++ words (decimal k ∷ codes "memo" ∷ decimal memo ∷ [])) }
    ensures end { result ≤ at + (N + 26) }
{
    let at = put_counted(cells, at, word, k);
    put_counted(cells, at, b" memo ", u32::from(memo))
}

pub(crate) fn put_slot(cells: &mut [u8], at: usize, slot: &Slot) -> usize
    requires { at + 16 ≤ length cells.old }
    ensures items { take result cells.new ≡ take at cells.old ++ slot_text slot.now }
    ensures end { result ≤ at + 16 }
{
    match slot {
        Slot::Shard(s) => put_counted(cells, at, b"shard:", u32::from(s.get())),
        Slot::Coordinator => put_word(cells, at, b"coordinator"),
        Slot::Queue(p) => put_counted(cells, at, b"queue:", u32::from(p.get())),
    }
}

pub(crate) fn put_cause(cells: &mut [u8], at: usize, cause: &Cause) -> usize
    requires { at + 8 ≤ length cells.old }
    ensures items { take result cells.new ≡ take at cells.old ++ cause_text cause.now }
    ensures end { result ≤ at + 8 }
{
    match cause {
        Cause::Released => put_word(cells, at, b"released"),
        Cause::Stopped => put_word(cells, at, b"stopped"),
    }
}

pub(crate) fn put_keep(cells: &mut [u8], at: usize, keep: &Keep) -> usize
    requires { at + 4 ≤ length cells.old }
    ensures items { take result cells.new ≡ take at cells.old ++ keep_text keep.now }
    ensures end { result ≤ at + 4 }
{
    match keep {
        Keep::Kept => put_word(cells, at, b"kept"),
        Keep::Lost => put_word(cells, at, b"lost"),
    }
}

pub(crate) fn put_command(cells: &mut [u8], at: usize, command: &Command) -> usize
    requires { at + 30 ≤ length cells.old }
    ensures items { take result cells.new ≡ take at cells.old ++ command_text command.now }
    ensures end { result ≤ at + 30 }
{
    match command {
        Command::Add(k) => put_counted(cells, at, b"add ", u32::from(*k)),
        Command::Read => put_word(cells, at, b"read"),
        Command::Create => put_word(cells, at, b"create"),
        Command::Deposit(k) => put_counted(cells, at, b"deposit ", *k),
        Command::Withdraw(k) => put_counted(cells, at, b"withdraw ", *k),
        Command::DepositWithMemo(m, k) => put_two_counts(cells, at, b"deposit ", *k, u32::from(*m)),
        Command::WithdrawWithMemo(m, k) => put_two_counts(
            cells,
            at,
            b"withdraw ",
            *k,
            u32::from(*m),
        ),
        Command::Balance => put_word(cells, at, b"balance"),
        Command::Close => put_word(cells, at, b"close"),
        Command::AddItem(x) => put_with_item(cells, at, b"add ", x),
        Command::RemoveItem(item) => put_counted(cells, at, b"remove ", u32::from(*item)),
        Command::AdjustItem(x) => put_with_item(cells, at, b"adjust ", x),
        Command::Checkout => put_word(cells, at, b"checkout"),
    }
}

pub(crate) fn put_event(cells: &mut [u8], at: usize, event: &Event) -> usize
    requires { at + 36 ≤ length cells.old }
    ensures items { take result cells.new ≡ take at cells.old ++ event_text event.now }
    ensures end { result ≤ at + 36 }
{
    match event {
        Event::Added(k) => put_counted(cells, at, b"added ", u32::from(*k)),
        Event::Created => put_word(cells, at, b"created"),
        Event::Deposited(k) => put_counted(cells, at, b"deposited ", *k),
        Event::Withdrawn(k) => put_counted(cells, at, b"withdrawn ", *k),
        Event::DepositedWithMemo(m, k) => put_with_memo(cells, at, b"deposited ", *k, *m),
        Event::WithdrawnWithMemo(m, k) => put_with_memo(cells, at, b"withdrawn ", *k, *m),
        Event::AccountClosed => put_word(cells, at, b"closed"),
        Event::ItemAdded(x) => put_with_item(cells, at, b"added ", x),
        Event::ItemRemoved(item) => put_counted(cells, at, b"removed ", u32::from(*item)),
        Event::ItemAdjusted(x) => put_with_item(cells, at, b"adjusted ", x),
        Event::CheckedOut => put_word(cells, at, b"checkedout"),
    }
}

#[tactic(auto, using(crate::proofs::Joined::events_behind))]
pub(crate) fn put_events(cells: &mut [u8], at: usize, events: &[Event]) -> usize
    requires few { length events.now < 5 }
    requires room { at + 152 ≤ length cells.old }
    ensures items { take result cells.new ≡ take at cells.old ++ events_text events.now }
    ensures end { result ≤ at + 152 }
{
    match events.split_first() {
        Some((first, others)) => put_joined_events(cells, at, first, others),
        None => put(cells, at, b'-'),
    }
}

fn put_joined_events(cells: &mut [u8], at: usize, first: &Event, others: &[Event]) -> usize
    requires { at + (36 + 38 * length others.now) ≤ length cells.old }
    ensures items { take result cells.new ≡ take at cells.old ++ (event_text first.now ++ behind (codes ", ") event_text others.now) }
    ensures end { result ≤ at + (36 + 38 * length others.now) }
{
    let at = put_event(cells, at, first);
    put_events_behind(cells, at, others)
}

fn put_events_behind(cells: &mut [u8], at: usize, events: &[Event]) -> usize
    requires { at + (38 * length events.now) ≤ length cells.old }
    ensures items { take result cells.new ≡ take at cells.old ++ behind (codes ", ") event_text events.now }
    ensures end { result ≤ at + 38 * length events.now }
{
    let mut end = at;
    for event in events {
        end = put_next_event(cells, end, event);
    }
    end
}

/// An event behind another.
fn put_next_event(cells: &mut [u8], at: usize, event: &Event) -> usize
    requires { at + 38 ≤ length cells.old }
    ensures items { take result cells.new ≡ take at cells.old ++ (codes ", " ++ event_text event.now) }
    ensures end { result ≤ at + 38 }
{
    let at = put_word(cells, at, b", ");
    put_event(cells, at, event)
}

pub(crate) fn put_reply(cells: &mut [u8], at: usize, reply: &Reply) -> usize
    requires { at + 23 ≤ length cells.old }
    ensures items { take result cells.new ≡ take at cells.old ++ reply_text reply.now }
    ensures end { result ≤ at + 23 }
{
    match reply {
        Reply::Value(v) => {
            let at = put_word(cells, at, b"ok ");
            put_wide(cells, at, *v)
        }
        Reply::Rejected(reason) => put_counted(cells, at, b"no ", u32::from(*reason)),
    }
}

/// A number and a quantity of an item.
fn put_item(cells: &mut [u8], at: usize, x: &CartItem) -> usize
    requires { at + 21 ≤ length cells.old }
    ensures items { take result cells.new ≡ take at cells.old ++ item_text x.now }
    ensures end { result ≤ at + 21 }
{
    let at = put_number(cells, at, u32::from(x.item));
    let at = put(cells, at, b':');
    put_number(cells, at, u32::from(x.quantity))
}

pub(crate) fn put_state(cells: &mut [u8], at: usize, state: &State) -> usize
    requires { at + 360 ≤ length cells.old }
    ensures items { take result cells.new ≡ take at cells.old ++ state_text state.now }
    ensures end { result ≤ at + 360 }
{
    match state {
        State::Counter(total) => put_wide(cells, at, *total),
        State::NoAccount => put_word(cells, at, b"none"),
        State::Open { balance, memo } => put_open(cells, at, *balance, *memo),
        State::Closed => put_word(cells, at, b"closed"),
        State::Cart { out, items } => put_cart(cells, at, *out, items.as_slice()),
    }
}

/// An open account; the memo is there once there was one.
fn put_open(cells: &mut [u8], at: usize, balance: u64, memo: u16) -> usize
    requires { at + 41 ≤ length cells.old }
    ensures items { take result cells.new ≡ take at cells.old ++ state_text (State.Open balance memo) }
    ensures end { result ≤ at + 41 }
{
    let at = put_word(cells, at, b"open ");
    let at = put_wide(cells, at, balance);
    if memo == 0 {
        return at;
    }
    put_counted(cells, at, b" memo ", u32::from(memo))
}

fn put_cart(cells: &mut [u8], at: usize, out: bool, items: &[CartItem]) -> usize
    requires few { length items.now < 17 }
    requires room { at + 360 ≤ length cells.old }
    ensures items { take result cells.new ≡ take at cells.old ++ state_text (State.Cart out items.now) }
    ensures end { result ≤ at + 360 }
{
    let at = if out {
        put_word(cells, at, b"out ")
    } else {
        put_word(cells, at, b"open ")
    };
    put_items(cells, at, items)
}

#[tactic(auto, using(crate::proofs::Joined::items_behind))]
fn put_items(cells: &mut [u8], at: usize, items: &[CartItem]) -> usize
    requires few { length items.now < 17 }
    requires room { at + 352 ≤ length cells.old }
    ensures items { take result cells.new ≡ take at cells.old ++ items_text items.now }
    ensures end { result ≤ at + 352 }
{
    match items.split_first() {
        Some((first, others)) => put_joined_items(cells, at, first, others),
        None => put(cells, at, b'-'),
    }
}

fn put_joined_items(cells: &mut [u8], at: usize, first: &CartItem, others: &[CartItem]) -> usize
    requires { at + (21 + 22 * length others.now) ≤ length cells.old }
    ensures items { take result cells.new ≡ take at cells.old ++ (item_text first.now ++ behind (44 ∷ []) item_text others.now) }
    ensures end { result ≤ at + (21 + 22 * length others.now) }
{
    let at = put_item(cells, at, first);
    put_items_behind(cells, at, others)
}

fn put_items_behind(cells: &mut [u8], at: usize, items: &[CartItem]) -> usize
    requires { at + (22 * length items.now) ≤ length cells.old }
    ensures items { take result cells.new ≡ take at cells.old ++ behind (44 ∷ []) item_text items.now }
    ensures end { result ≤ at + 22 * length items.now }
{
    let mut end = at;
    for x in items {
        end = put_next_item(cells, end, x);
    }
    end
}

/// An item behind another.
fn put_next_item(cells: &mut [u8], at: usize, x: &CartItem) -> usize
    requires { at + 22 ≤ length cells.old }
    ensures items { take result cells.new ≡ take at cells.old ++ (44 ∷ [] ++ item_text x.now) }
    ensures end { result ≤ at + 22 }
{
    let at = put(cells, at, b',');
    put_item(cells, at, x)
}

/// Appends a command. The only error is want of memory.
pub(crate) fn push_command(text: &mut Vec<u8>, command: &Command) -> Result<(), AllocError>
    ensures { OnOk result (text.new.items ≡ text.old.items ++ command_text command.now) }
{
    let mut cells = [0; 30];
    let end = put_command(&mut cells, 0, command);
    push_cells(text, &cells, end)
}

/// Appends an event. The only error is want of memory.
pub(crate) fn push_event(text: &mut Vec<u8>, event: &Event) -> Result<(), AllocError>
    ensures { OnOk result (text.new.items ≡ text.old.items ++ event_text event.now) }
{
    let mut cells = [0; 36];
    let end = put_event(&mut cells, 0, event);
    push_cells(text, &cells, end)
}

/// Appends a reply. The only error is want of memory.
pub(crate) fn push_reply(text: &mut Vec<u8>, reply: &Reply) -> Result<(), AllocError>
    ensures { OnOk result (text.new.items ≡ text.old.items ++ reply_text reply.now) }
{
    let mut cells = [0; 23];
    let end = put_reply(&mut cells, 0, reply);
    push_cells(text, &cells, end)
}

/// Appends a state. The only error is want of memory.
pub(crate) fn push_state(text: &mut Vec<u8>, state: &State) -> Result<(), AllocError>
    ensures { OnOk result (text.new.items ≡ text.old.items ++ state_text state.now) }
{
    let mut cells = [0; 360];
    let end = put_state(&mut cells, 0, state);
    push_cells(text, &cells, end)
}
