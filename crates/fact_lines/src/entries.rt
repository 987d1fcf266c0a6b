//! Which facts are entries.
ghost use Rattle.std.specs.Prelude.{◌≡◌};
ghost use Rattle.std.specs.List.{list_all};
ghost use Rattle.yard_model.specs.Behaviour.{is_amount, is_item, is_memo};
ghost use Rattle.fact_lines.specs.Entry.{is_command, is_entry, is_event, is_incarnation, is_number, is_producer, is_record, is_reply, is_shard, is_slot};
ghost use Rattle.fact_lines.specs.Reads.{is_entity};

use yard_model::{
    CartItem, Command, EntityName, Event, Fact, Incarnation, ProducerNo, Record, Reply, ShardNo,
    Slot,
};

fn is_number(n: u32) -> bool
    ensures { result ≡ is_number n }
{
    n <= 4_000_000_000
}

fn is_producer(p: ProducerNo) -> bool
    ensures { result ≡ is_producer p }
{
    p.get() >= 1 && p.get() <= 32
}

fn is_shard(s: ShardNo) -> bool
    ensures { result ≡ is_shard s }
{
    s.get() <= 127
}

fn is_incarnation(x: &Incarnation) -> bool
    ensures { result ≡ is_incarnation x.now }
{
    x.node.get() >= 1 && x.node.get() <= 16 && is_number(x.number)
}

fn is_slot(slot: &Slot) -> bool
    ensures { result ≡ is_slot slot.now }
{
    match slot {
        Slot::Shard(s) => is_shard(*s),
        Slot::Coordinator => true,
        Slot::Queue(p) => is_producer(*p),
    }
}

/// Each name is that of an entity.
fn is_entity(name: &EntityName) -> bool
    ensures { result ≡ is_entity name.now }
{
    let _bytes = name.bytes();
    true
}

fn is_item(x: &CartItem) -> bool
    ensures { result ≡ is_item x.now }
{
    (x.item >= 1 && x.item <= 9999) && (x.quantity >= 1 && x.quantity <= 1000)
}

fn is_amount(k: u32) -> bool
    ensures { result ≡ is_amount k }
{
    k >= 1 && k <= 1_000_000
}

fn is_memo(m: u16) -> bool
    ensures { result ≡ is_memo m }
{
    m >= 1 && m <= 9999
}

fn is_command(command: &Command) -> bool
    ensures { result ≡ is_command command.now }
{
    match command {
        Command::Add(k) => *k >= 1 && *k <= 1000,
        Command::Deposit(k) | Command::Withdraw(k) => is_amount(*k),
        Command::DepositWithMemo(m, k) | Command::WithdrawWithMemo(m, k) => {
            is_memo(*m) && is_amount(*k)
        }
        Command::AddItem(x) | Command::AdjustItem(x) => is_item(x),
        Command::RemoveItem(i) => is_memo(*i),
        Command::Read | Command::Create | Command::Balance | Command::Close | Command::Checkout =>
            true,
    }
}

fn is_event(event: &Event) -> bool
    ensures { result ≡ is_event event.now }
{
    match event {
        Event::Added(k) => *k >= 1 && *k <= 1000,
        Event::Deposited(k) | Event::Withdrawn(k) => is_amount(*k),
        Event::DepositedWithMemo(_, _) | Event::WithdrawnWithMemo(_, _) => false,
        Event::ItemAdded(x) | Event::ItemAdjusted(x) => is_item(x),
        Event::ItemRemoved(i) => is_memo(*i),
        Event::Created | Event::AccountClosed | Event::CheckedOut => true,
    }
}

fn are_events(events: &[Event]) -> bool
    ensures { result ≡ list_all is_event events.now }
{
    events.iter().all(|e| is_event(e))
}

fn is_reply(reply: &Reply) -> bool
    ensures { result ≡ is_reply reply.now }
{
    match reply {
        Reply::Value(v) => *v <= 1_000_000_000_000_000,
        Reply::Rejected(reason) => u32::from(*reason) <= 255,
    }
}

fn is_record(entry: &Record) -> bool
    ensures { result ≡ is_record entry.now }
{
    is_number(entry.number)
        && is_number(entry.epoch)
        && is_producer(entry.producer)
        && is_number(entry.place)
        && is_command(&entry.command)
        && entry.events.as_slice().len() <= 4
        && are_events(entry.events.as_slice())
        && is_reply(&entry.reply)
}

/// Whether a fact is an entry of a slot that a log keeps: one of a slot's list, with its numbers in range.
pub fn is_entry(fact: &Fact) -> bool
    ensures { result ≡ is_entry fact.now }
{
    match fact {
        Fact::Granted(slot, epoch, who) => {
            is_slot(slot) && is_number(*epoch) && is_incarnation(who)
        }
        Fact::Freed(slot, epoch, _) => is_slot(slot) && is_number(*epoch),
        Fact::Registered(x) | Fact::Terminated(x) => is_incarnation(x),
        Fact::Allocated(s, x) => is_shard(*s) && is_incarnation(x),
        Fact::Deallocated(s) => is_shard(*s),
        Fact::Wrote(entity, entry) => is_entity(entity) && is_record(entry),
        Fact::Snapshot(entity, records) => is_entity(entity) && is_number(*records),
        Fact::Remembered(entity) | Fact::Forgotten(entity) => is_entity(entity),
        Fact::Queued(p, entity, n, command) => {
            is_producer(*p) && is_entity(entity) && is_number(*n) && is_command(command)
        }
        Fact::Confirmed(p, entity, n) => is_producer(*p) && is_entity(entity) && is_number(*n),
        _ => false,
    }
}
