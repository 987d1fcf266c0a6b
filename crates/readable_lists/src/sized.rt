//! The entries of lists: by their types they have numbers that their lines tell. Each call looks at what it is given,
//! and says so.
ghost use Rattle.std.specs.Prelude.{◌≡◌, ℕ, ◌<◌, ◌≤◌, true, map};
ghost use Rattle.yard_model.specs.declared.incarnation.Slot.TheVariants as slot;
ghost use Rattle.yard_model.specs.Entry.{shard_fact, coord_fact, queue_fact};
ghost use Rattle.yard_model.specs.Lawful.{lawful};
ghost use Rattle.yard_model.specs.SlotLists.{shard_list, queue_list};
ghost use Rattle.fact_lines.specs.Readable.{FitEach, FitsCommand, FitsEvent, FitsIncarnation, FitsItem, FitsProducer, FitsRecord, IsEntity};
ghost use Rattle.readable_lists.specs.Readable.{AreReadable, IsReadableList, IsTold};
ghost use Rattle.readable_lists.specs.Sized.{AreSized, unanswered, without_reply};

use yard_model::laws::decision_law;
use yard_model::{
    CartItem, Charter, Command, CoordEntry, EntityName, Event, Incarnation, Lists, ProducerNo,
    QueueEntry, Record, ShardEntry, ShardNo,
};

/// Looks at each entry of lists that are lawful for the charter: they are such as a reader reads off their text. Each
/// number fits what keeps it by its type, and a reply since the records lead to it. Nothing is changed.
pub fn look_at_lists<T: Lists>(charter: &Charter, lists: &T)
    requires { lawful charter.now (T.lists lists.now) ≡ true }
    ensures { AreReadable charter.now (T.lists lists.now) }
{
    decision_law();
    look_at_all(charter, lists);
}

/// The entries of all slots: all but the replies is read off the text of the lists.
fn look_at_all<T: Lists>(charter: &Charter, lists: &T)
    ensures { AreSized charter.now (T.lists lists.now) }
{
    look_at_shards(charter, lists);
    look_at_office(lists.coordinator());
    look_at_queues(charter, lists);
}

fn look_at_shards<T: Lists>(charter: &Charter, lists: &T)
    ensures { (s : ℕ) → s < charter.now.config.shards → IsReadableList (slot.Shard s) (map without_reply (shard_list (T.lists lists.now) s)) }
{
    for i in 0..charter.config().shards {
        look_at_shard(charter, lists, i);
    }
}

fn look_at_shard<T: Lists>(charter: &Charter, lists: &T, i: u8)
    requires { i < charter.now.config.shards }
    ensures { IsReadableList (slot.Shard i) (map without_reply (shard_list (T.lists lists.now) i)) }
{
    match ShardNo::new(i, charter.config().shards) {
        Some(s) => look_at_entries(s, lists.shard(s)),
        None => unreachable!(),
    }
}

fn look_at_entries(s: ShardNo, list: &[ShardEntry])
    ensures { IsReadableList (slot.Shard s) (map without_reply (map (shard_fact s) list.now)) }
{
    for i in 0..list.len() {
        look_at_entry(s, &list[i]);
    }
}

fn look_at_office(list: &[CoordEntry])
    ensures { IsReadableList slot.Coordinator (map coord_fact list.now) }
{
    for i in 0..list.len() {
        look_at_coord_entry(&list[i]);
    }
}

fn look_at_queues<T: Lists>(charter: &Charter, lists: &T)
    ensures { (p : ℕ) → 1 ≤ p → p ≤ charter.now.config.producers → IsReadableList (slot.Queue p) (queue_list (T.lists lists.now) p) }
{
    for i in 0..charter.config().producers {
        look_at_queue(lists, i + 1);
    }
}

fn look_at_queue<T: Lists>(lists: &T, i: u8)
    requires low { 0 < i }
    requires high { i < 33 }
    ensures { IsReadableList (slot.Queue i) (queue_list (T.lists lists.now) i) }
{
    match ProducerNo::new(i) {
        Some(p) => look_at_queued(p, lists.queue(p)),
        None => unreachable!(),
    }
}

fn look_at_queued(p: ProducerNo, list: &[QueueEntry])
    ensures { IsReadableList (slot.Queue p) (map (queue_fact p) list.now) }
{
    for i in 0..list.len() {
        look_at_queue_entry(p, &list[i]);
    }
}

/// An entry of a shard's list.
fn look_at_entry(s: ShardNo, entry: &ShardEntry)
    ensures { IsTold (slot.Shard s) (without_reply (shard_fact s entry.now)) }
{
    s.get();
    match entry {
        ShardEntry::Granted(epoch, who) => {
            let _epoch = *epoch;
            look_at_node(who);
        }
        ShardEntry::Freed(epoch, _) => {
            let _epoch = *epoch;
        }
        ShardEntry::Wrote(entity, written) => {
            look_at_name(entity);
            look_at_record(written);
        }
        ShardEntry::Snapshot(entity, records) => {
            look_at_name(entity);
            let _records = *records;
        }
        ShardEntry::Remembered(entity) | ShardEntry::Forgotten(entity) => look_at_name(entity),
        ShardEntry::Reshard { shards, epoch } => {
            let _shards = *shards;
            let _epoch = *epoch;
        }
    }
}

/// An entry of the coordinator's list.
fn look_at_coord_entry(entry: &CoordEntry)
    ensures { IsTold slot.Coordinator (coord_fact entry.now) }
{
    match entry {
        CoordEntry::Granted(epoch, who) => {
            let _epoch = *epoch;
            look_at_node(who);
        }
        CoordEntry::Freed(epoch, _) => {
            let _epoch = *epoch;
        }
        CoordEntry::Registered(region) | CoordEntry::Terminated(region) => look_at_node(region),
        CoordEntry::Allocated(shard, region) => {
            shard.get();
            look_at_node(region);
        }
        CoordEntry::Deallocated(shard) => {
            shard.get();
        }
        CoordEntry::Reshard { shards, epoch } => {
            let _shards = *shards;
            let _epoch = *epoch;
        }
    }
}

/// An entry of a producer's queue.
fn look_at_queue_entry(p: ProducerNo, entry: &QueueEntry)
    ensures { IsTold (slot.Queue p) (queue_fact p entry.now) }
{
    p.get();
    match entry {
        QueueEntry::Granted(epoch, who) => {
            let _epoch = *epoch;
            look_at_node(who);
        }
        QueueEntry::Freed(epoch, _) => {
            let _epoch = *epoch;
        }
        QueueEntry::Queued(entity, number, command) => {
            look_at_name(entity);
            let _number = *number;
            look_at_command(command);
        }
        QueueEntry::Confirmed(entity, number) => {
            look_at_name(entity);
            let _number = *number;
        }
    }
}

fn look_at_name(name: &EntityName)
    ensures { IsEntity name.now }
{
    name.bytes();
}

fn look_at_node(who: &Incarnation)
    ensures { FitsIncarnation who.now }
{
    who.node.get();
    let _number = who.number;
}

/// A record, but for its reply.
fn look_at_record(written: &Record)
    ensures { FitsRecord (unanswered written.now) }
{
    let _number = written.number;
    let _epoch = written.epoch;
    look_at_producer(written.producer);
    let _place = written.place;
    look_at_command(&written.command);
    look_at_events(written.events.as_slice());
}

fn look_at_producer(p: ProducerNo)
    ensures { FitsProducer p }
{
    p.get();
}

fn look_at_events(events: &[Event])
    ensures { FitEach events.now }
{
    for i in 0..events.len() {
        look_at_event(&events[i]);
    }
}

fn look_at_command(command: &Command)
    ensures { FitsCommand command.now }
{
    match command {
        Command::Add(k) | Command::RemoveItem(k) => {
            let _number = *k;
        }
        Command::Deposit(k) | Command::Withdraw(k) => {
            let _amount = *k;
        }
        Command::DepositWithMemo(memo, k) | Command::WithdrawWithMemo(memo, k) => {
            let _memo = *memo;
            let _amount = *k;
        }
        Command::AddItem(item) | Command::AdjustItem(item) => look_at_item(item),
        Command::Read | Command::Create | Command::Balance | Command::Close | Command::Checkout =>
            (),
    }
}

fn look_at_event(event: &Event)
    ensures { FitsEvent event.now }
{
    match event {
        Event::Added(k) | Event::ItemRemoved(k) => {
            let _number = *k;
        }
        Event::Deposited(k) | Event::Withdrawn(k) => {
            let _amount = *k;
        }
        Event::DepositedWithMemo(memo, k) | Event::WithdrawnWithMemo(memo, k) => {
            let _memo = *memo;
            let _amount = *k;
        }
        Event::ItemAdded(item) | Event::ItemAdjusted(item) => look_at_item(item),
        Event::Created | Event::AccountClosed | Event::CheckedOut => (),
    }
}

fn look_at_item(item: &CartItem)
    ensures { FitsItem item.now }
{
    let _item = item.item;
    let _quantity = item.quantity;
}
