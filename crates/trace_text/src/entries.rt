//! The entries of slots' lists, as facts.
ghost use Rattle.std.specs.Prelude.{◌≡◌};
ghost use Rattle.yard_model.specs.Entry.{shard_fact, coord_fact, queue_fact};

use yard_model::{CoordEntry, Fact, ProducerNo, QueueEntry, ShardEntry, ShardNo, Slot};

/// What an entry of this shard's list says.
pub(crate) fn shard_fact(s: ShardNo, entry: &ShardEntry) -> Fact
    ensures { result ≡ shard_fact s entry.now }
{
    match entry {
        ShardEntry::Granted(epoch, x) => Fact::Granted(Slot::Shard(s), *epoch, *x),
        ShardEntry::Freed(epoch, cause) => Fact::Freed(Slot::Shard(s), *epoch, *cause),
        ShardEntry::Wrote(entity, written) => Fact::Wrote(*entity, *written),
        ShardEntry::Snapshot(entity, records) => Fact::Snapshot(*entity, *records),
        ShardEntry::Remembered(entity) => Fact::Remembered(*entity),
        ShardEntry::Forgotten(entity) => Fact::Forgotten(*entity),
        ShardEntry::Reshard { shards, epoch } => Fact::Resharded(s, *shards, *epoch),
    }
}

/// What an entry of the coordinator's list says.
pub(crate) fn coord_fact(entry: &CoordEntry) -> Fact
    ensures { result ≡ coord_fact entry.now }
{
    match entry {
        CoordEntry::Granted(epoch, x) => Fact::Granted(Slot::Coordinator, *epoch, *x),
        CoordEntry::Freed(epoch, cause) => Fact::Freed(Slot::Coordinator, *epoch, *cause),
        CoordEntry::Registered(region) => Fact::Registered(*region),
        CoordEntry::Terminated(region) => Fact::Terminated(*region),
        CoordEntry::Allocated(s, region) => Fact::Allocated(*s, *region),
        CoordEntry::Deallocated(s) => Fact::Deallocated(*s),
        CoordEntry::Reshard { shards, epoch } => Fact::Reshard(*shards, *epoch),
    }
}

/// What an entry of this producer's queue says.
pub(crate) fn queue_fact(p: ProducerNo, entry: &QueueEntry) -> Fact
    ensures { result ≡ queue_fact p entry.now }
{
    match entry {
        QueueEntry::Granted(epoch, x) => Fact::Granted(Slot::Queue(p), *epoch, *x),
        QueueEntry::Freed(epoch, cause) => Fact::Freed(Slot::Queue(p), *epoch, *cause),
        QueueEntry::Queued(entity, number, command) => {
            Fact::Queued(p, *entity, *number, *command)
        }
        QueueEntry::Confirmed(entity, number) => Fact::Confirmed(p, *entity, *number),
    }
}
