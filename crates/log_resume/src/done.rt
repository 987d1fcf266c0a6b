//! Whether all that a script sends is confirmed.
ghost use Rattle.std.specs.Prelude.{◌≡◌, ◌+◌, ◌<◌, ◌≤◌, ◌==◌, Some, length};
ghost use Rattle.std.specs.List.{list_all};
ghost use Rattle.yard_model.specs.Script.{Script, names_in};
ghost use Rattle.yard_model.specs.SlotLists.{queue_list};
ghost use Rattle.yard_model.specs.SlotReads.{confirmed, queued};
ghost use Rattle.yard_model.specs.Words.{at};
ghost use Rattle.shard_store.specs.declared.store.Store.TheVariants as store;
ghost use Rattle.shard_store.specs.Stores.{AreHomes, lists_at};
ghost use Rattle.log_resume.specs.Left.{is_confirmed_all, sends_confirmed};

use durable_queue::QueueStore;
use shard_store::Store;
use yard_model::laws::sending_law;
use yard_model::{Charter, ProducerNo};

/// Whether each send of each producer is confirmed.
pub(crate) fn is_confirmed_all(charter: &Charter, places: &[Option<Store>]) -> bool
    requires { AreHomes charter.now places.now }
    ensures { result ≡ is_confirmed_all charter.now (lists_at charter.now.config places.now) }
{
    let producers = charter.config().producers;
    for k in 0..producers {
        if !confirmed_behind(charter, places, k) {
            return false;
        }
    }
    true
}

/// Whether each send of the producer behind so many is.
fn confirmed_behind(charter: &Charter, places: &[Option<Store>], before: u8) -> bool
    requires homes { AreHomes charter.now places.now }
    requires producer { before < charter.now.config.producers }
    ensures { result ≡ sends_confirmed charter.now (before + 1) (queue_list (lists_at charter.now.config places.now) (before + 1)) }
{
    let shards = charter.config().shards;
    let Some(producer) = ProducerNo::new(before + 1) else {
        unreachable!()
    };
    sends_confirmed(charter, queue_at(places, shards, producer), producer)
}

/// The queue of a producer.
fn queue_at(places: &[Option<Store>], shards: u8, producer: ProducerNo) -> &QueueStore
    requires { (c : Script) × AreHomes c places.now × (shards ≡ c.config.shards) × (producer ≤ c.config.producers) }
    ensures { at places.now (shards + producer) ≡ Some (store.Queue result.now) }
{
    match &places[shards as usize + producer.get() as usize] {
        Some(Store::Queue(store)) => store,
        _ => unreachable!(),
    }
}

/// Whether each send of a producer is: all are queued, and each that is queued is confirmed.
fn sends_confirmed(charter: &Charter, queue: &QueueStore, producer: ProducerNo) -> bool
    requires script { queue.now.script ≡ charter.now }
    requires producer { queue.now.producer ≡ producer }
    ensures { result ≡ sends_confirmed charter.now producer queue.now.entries }
{
    sending_law();
    queue.entries();
    let names = charter.names().len();
    if queue.total() as usize != charter.sends(producer).len() {
        return false;
    }
    is_caught_up(queue, names)
}

/// Whether all that is queued is confirmed.
fn is_caught_up(queue: &QueueStore, names: usize) -> bool
    requires { names ≡ length (names_in queue.now.script.orders) }
    ensures { result ≡ list_all (λ e. confirmed e queue.now.entries == queued e queue.now.entries) (names_in queue.now.script.orders) }
{
    for k in 0..names {
        if queue.confirmed_at(k) != queue.queued_at(k) {
            return false;
        }
    }
    true
}
