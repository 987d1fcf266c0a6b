//! Numbers, slots, commands, events and replies, each appended to a text as it is printed. The only error is want of
//! memory; what the text then is stays open.
ghost use Rattle.std.specs.Prelude.{◌≡◌, ◌++◌, OnOk, decimal};
ghost use Rattle.yard_model.specs.Text.{cause_text, command_text, event_text, events_text, incarnation_text, reply_text, slot_text};
ghost use Rattle.fact_lines.specs.Behind.{events_behind};

use itoa::Buffer;
use std::alloc::AllocError;
use yard_model::{Cause, Command, Event, Incarnation, Reply, Slot};

pub(crate) fn push(text: &mut Vec<u8>, bytes: &[u8]) -> Result<(), AllocError>
    ensures { OnOk result (text.new.items ≡ text.old.items ++ bytes.now) }
{
    text.extend_from_slice(bytes)
}

pub(crate) fn push_number(text: &mut Vec<u8>, n: u64) -> Result<(), AllocError>
    ensures { OnOk result (text.new.items ≡ text.old.items ++ decimal n) }
{
    let mut buffer = Buffer::new();
    text.extend_from_slice(buffer.format(n).as_bytes())
}

/// A word, and a number behind it.
pub(crate) fn push_counted(text: &mut Vec<u8>, word: &[u8], n: u64) -> Result<(), AllocError>
    ensures { OnOk result (text.new.items ≡ text.old.items ++ (word.now ++ decimal n)) }
{
    push(text, word)?;
    push_number(text, n)
}

/// A word, a number behind it, another word and another number.
fn push_two(
    text: &mut Vec<u8>,
    word: &[u8],
    first: u64,
    between: &[u8],
    second: u64,
) -> Result<(), AllocError>
    ensures { OnOk result (text.new.items ≡ text.old.items ++ (word.now ++ (decimal first ++ (between.now ++ decimal second)))) }
{
    push_counted(text, word, first)?;
    push_counted(text, between, second)
}

pub(crate) fn push_incarnation(text: &mut Vec<u8>, x: &Incarnation) -> Result<(), AllocError>
    ensures { OnOk result (text.new.items ≡ text.old.items ++ incarnation_text x.now) }
{
    push_number(text, u64::from(x.node.get()))?;
    push_counted(text, b".", u64::from(x.number))
}

pub(crate) fn push_slot(text: &mut Vec<u8>, slot: &Slot) -> Result<(), AllocError>
    ensures { OnOk result (text.new.items ≡ text.old.items ++ slot_text slot.now) }
{
    match slot {
        Slot::Shard(s) => push_counted(text, b"shard:", u64::from(s.get())),
        Slot::Coordinator => push(text, b"coordinator"),
        Slot::Queue(p) => push_counted(text, b"queue:", u64::from(p.get())),
    }
}

pub(crate) fn push_cause(text: &mut Vec<u8>, cause: &Cause) -> Result<(), AllocError>
    ensures { OnOk result (text.new.items ≡ text.old.items ++ cause_text cause.now) }
{
    match cause {
        Cause::Released => push(text, b"released"),
        Cause::Stopped => push(text, b"stopped"),
    }
}

pub(crate) fn push_command(text: &mut Vec<u8>, command: &Command) -> Result<(), AllocError>
    ensures { OnOk result (text.new.items ≡ text.old.items ++ command_text command.now) }
{
    match command {
        Command::Add(k) => push_counted(text, b"add ", u64::from(*k)),
        Command::Read => push(text, b"read"),
        Command::Create => push(text, b"create"),
        Command::Deposit(k) => push_counted(text, b"deposit ", u64::from(*k)),
        Command::Withdraw(k) => push_counted(text, b"withdraw ", u64::from(*k)),
        Command::DepositWithMemo(m, k) => {
            push_two(text, b"deposit ", u64::from(*k), b" ", u64::from(*m))
        }
        Command::WithdrawWithMemo(m, k) => {
            push_two(text, b"withdraw ", u64::from(*k), b" ", u64::from(*m))
        }
        Command::Balance => push(text, b"balance"),
        Command::Close => push(text, b"close"),
        Command::AddItem(x) => {
            push_two(
                text,
                b"add ",
                u64::from(x.item),
                b" ",
                u64::from(x.quantity),
            )
        }
        Command::RemoveItem(i) => push_counted(text, b"remove ", u64::from(*i)),
        Command::AdjustItem(x) => {
            push_two(
                text,
                b"adjust ",
                u64::from(x.item),
                b" ",
                u64::from(x.quantity),
            )
        }
        Command::Checkout => push(text, b"checkout"),
    }
}

fn push_event(text: &mut Vec<u8>, event: &Event) -> Result<(), AllocError>
    ensures { OnOk result (text.new.items ≡ text.old.items ++ event_text event.now) }
{
    match event {
        Event::Added(k) => push_counted(text, b"added ", u64::from(*k)),
        Event::Created => push(text, b"created"),
        Event::Deposited(k) => push_counted(text, b"deposited ", u64::from(*k)),
        Event::Withdrawn(k) => push_counted(text, b"withdrawn ", u64::from(*k)),
        Event::DepositedWithMemo(m, k) => {
            push_two(text, b"deposited ", u64::from(*k), b" memo ", u64::from(*m))
        }
        Event::WithdrawnWithMemo(m, k) => {
            push_two(text, b"withdrawn ", u64::from(*k), b" memo ", u64::from(*m))
        }
        Event::AccountClosed => push(text, b"closed"),
        Event::ItemAdded(x) => {
            push_two(
                text,
                b"added ",
                u64::from(x.item),
                b" ",
                u64::from(x.quantity),
            )
        }
        Event::ItemRemoved(i) => push_counted(text, b"removed ", u64::from(*i)),
        Event::ItemAdjusted(x) => {
            push_two(
                text,
                b"adjusted ",
                u64::from(x.item),
                b" ",
                u64::from(x.quantity),
            )
        }
        Event::CheckedOut => push(text, b"checkedout"),
    }
}

/// Events behind another.
fn push_events_behind(text: &mut Vec<u8>, events: &[Event]) -> Result<(), AllocError>
    ensures { OnOk result (text.new.items ≡ text.old.items ++ events_behind events.now) }
{
    for event in events {
        push(text, b", ")?;
        push_event(text, event)?;
    }
    Ok(())
}

fn push_joined_events(text: &mut Vec<u8>, first: &Event, others: &[Event]) -> Result<(), AllocError>
    ensures { OnOk result (text.new.items ≡ text.old.items ++ (event_text first.now ++ events_behind others.now)) }
{
    push_event(text, first)?;
    push_events_behind(text, others)
}

#[tactic(auto, using(crate::proofs::BehindLaws::first_and_others))]
pub(crate) fn push_events(text: &mut Vec<u8>, events: &[Event]) -> Result<(), AllocError>
    ensures { OnOk result (text.new.items ≡ text.old.items ++ events_text events.now) }
{
    match events.split_first() {
        Some((first, others)) => push_joined_events(text, first, others),
        None => push(text, b"-"),
    }
}

pub(crate) fn push_reply(text: &mut Vec<u8>, reply: &Reply) -> Result<(), AllocError>
    ensures { OnOk result (text.new.items ≡ text.old.items ++ reply_text reply.now) }
{
    match reply {
        Reply::Value(v) => push_counted(text, b"ok ", *v),
        Reply::Rejected(reason) => push_counted(text, b"no ", u64::from(*reason)),
    }
}
