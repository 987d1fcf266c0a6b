//! The numbers of node 1's incarnations in the lists of all slots.
ghost use Rattle.std.specs.Prelude.{◌≡◌, ◌≤◌, ℕ, ◌==◌, max, length, map, fold, if◌then◌else◌};
ghost use Rattle.std.specs.List.{flat_map};
ghost use Rattle.yard_model.specs.Entry.{shard_fact, coord_fact, queue_fact};
ghost use Rattle.yard_model.specs.Era.{opening_of};
ghost use Rattle.yard_model.specs.World.{number_step};

use yard_model::{CoordEntry, Incarnation, Lists, ProducerNo, QueueEntry, ShardEntry, ShardNo};

/// The greatest number of an incarnation of node 1 that was granted a slot or registered; 0 where there
/// was none. The lists are those of so many shards and producers.
pub fn greatest_number<L: Lists>(lists: &L, shards: u8, producers: u8) -> u32
    requires shards { length (L.lists lists.now).shards ≡ shards }
    requires few_shards { shards ≤ 128 }
    requires producers { length (L.lists lists.now).queues ≡ producers }
    requires few_producers { producers ≤ 32 }
    ensures { (version : ℕ) → result ≡ fold number_step 0 (opening_of version (L.lists lists.now)) }
{
    let greatest = in_shards(lists, shards);
    let greatest = in_coordinator(greatest, lists.coordinator());
    in_queues(greatest, lists, producers)
}

/// The greatest number in the lists of the shards.
fn in_shards<L: Lists>(lists: &L, shards: u8) -> u32
    requires shards { length (L.lists lists.now).shards ≡ shards }
    requires few { shards ≤ 128 }
    ensures { result ≡ fold number_step 0 (flat_map (λ l. l) (L.lists lists.now).shards) }
{
    let mut greatest = 0;
    for i in 0..shards {
        let Some(s) = ShardNo::new(i, shards) else {
            unreachable!()
        };
        greatest = in_shard(greatest, s, lists.shard(s));
    }
    greatest
}

/// The greater one of this number and those in the list of a shard.
fn in_shard(greatest: u32, s: ShardNo, entries: &[ShardEntry]) -> u32
    ensures { result ≡ fold number_step greatest (map (shard_fact s) entries.now) }
{
    let _ = s;
    entries
        .iter()
        .fold(greatest, |greatest, entry| after_shard(greatest, entry))
}

/// The greater one of this number and those in the coordinator's list.
fn in_coordinator(greatest: u32, entries: &[CoordEntry]) -> u32
    ensures { result ≡ fold number_step greatest (map coord_fact entries.now) }
{
    entries.iter().fold(
        greatest,
        |greatest, entry| after_coordinator(greatest, entry),
    )
}

/// The greater one of this number and those in the queues.
fn in_queues<L: Lists>(greatest: u32, lists: &L, producers: u8) -> u32
    requires producers { length (L.lists lists.now).queues ≡ producers }
    requires few { producers ≤ 32 }
    ensures { result ≡ fold number_step greatest (flat_map (λ l. l) (L.lists lists.now).queues) }
{
    let mut greatest = greatest;
    for i in 0..producers {
        let Some(p) = ProducerNo::new(i + 1) else {
            unreachable!()
        };
        greatest = in_queue(greatest, p, lists.queue(p));
    }
    greatest
}

/// The greater one of this number and those in the list of a queue.
fn in_queue(greatest: u32, p: ProducerNo, entries: &[QueueEntry]) -> u32
    ensures { result ≡ fold number_step greatest (map (queue_fact p) entries.now) }
{
    let _ = p;
    entries
        .iter()
        .fold(greatest, |greatest, entry| after_queue(greatest, entry))
}

/// After an entry of a shard.
fn after_shard(greatest: u32, entry: &ShardEntry) -> u32
    ensures { (s : ℕ) → result ≡ number_step greatest (shard_fact s entry.now) }
{
    match entry {
        ShardEntry::Granted(_, who) => after(greatest, who),
        _ => greatest,
    }
}

/// After an entry of the coordinator.
fn after_coordinator(greatest: u32, entry: &CoordEntry) -> u32
    ensures { result ≡ number_step greatest (coord_fact entry.now) }
{
    match entry {
        CoordEntry::Granted(_, who) => after(greatest, who),
        CoordEntry::Registered(who) => after(greatest, who),
        _ => greatest,
    }
}

/// After an entry of a queue.
fn after_queue(greatest: u32, entry: &QueueEntry) -> u32
    ensures { (p : ℕ) → result ≡ number_step greatest (queue_fact p entry.now) }
{
    match entry {
        QueueEntry::Granted(_, who) => after(greatest, who),
        _ => greatest,
    }
}

/// The greater one of this number and the incarnation's, where it is of node 1.
fn after(greatest: u32, who: &Incarnation) -> u32
    ensures { result ≡ (if who.now.node == 1 then max greatest who.now.number else greatest) }
{
    if who.node.get() != 1 {
        return greatest;
    }
    greatest.max(who.number)
}
