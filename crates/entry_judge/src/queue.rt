//! Entries of a producer's queue.
ghost use Rattle.std.specs.Prelude.{◌≡◌, ◌<◌, false, slice_get};
ghost use Rattle.std.specs.Option.{option_map_or};
ghost use Rattle.yard_model.specs.declared.fact.Fact.TheVariants as fact;
ghost use Rattle.yard_model.specs.Equal.{is_sending};
ghost use Rattle.yard_model.specs.Script.{sends};
ghost use Rattle.yard_model.specs.SlotReads.{queued_in_all};
ghost use Rattle.entry_judge.specs.Entered.{Enters};

use crate::tests::{is_next, is_node};
use durable_queue::QueueStore;
use yard_model::laws::{sending_law, slot_law};
use yard_model::{Cause, Charter, EntityName, Fact, Incarnation, ProducerNo, Sending, Slot};

/// The fact stands at the end of the queue of this producer where it may follow there; whether it may. The
/// store was made for this charter. A fact that is no entry of that queue never may.
#[tactic(auto, using(crate::proofs::NeverLaws::never_queue))]
pub fn enter_queue(
    store: &mut QueueStore,
    charter: &Charter,
    producer: ProducerNo,
    fact: &Fact,
) -> bool
    requires spare { 0 < store.old.spare }
    requires charter { charter.now ≡ store.old.script }
    requires producer { producer ≡ store.old.producer }
    ensures { Enters store.old fact.now result store.new }
{
    match fact {
        Fact::Granted(slot, epoch, who) => {
            enter_grant(store, charter, producer, *slot, *epoch, who)
        }
        Fact::Freed(slot, epoch, cause) => enter_free(store, producer, *slot, *epoch, *cause),
        Fact::Queued(p, entity, number, command) => enter_command(
            store,
            charter,
            producer,
            *p,
            &Sending {
                entity: *entity,
                number: *number,
                command: *command,
            },
        ),
        Fact::Confirmed(p, entity, number) => {
            enter_confirmed(store, producer, *p, entity, *number)
        }
        _ => false,
    }
}

fn enter_grant(
    store: &mut QueueStore,
    charter: &Charter,
    producer: ProducerNo,
    slot: Slot,
    epoch: u32,
    who: &Incarnation,
) -> bool
    requires spare { 0 < store.old.spare }
    requires charter { charter.now ≡ store.old.script }
    requires producer { producer ≡ store.old.producer }
    ensures { Enters store.old (fact.Granted slot epoch who.now) result store.new }
{
    slot_law();
    if store.is_leased()
        || !is_next(epoch, store.epoch())
        || slot != Slot::Queue(producer)
        || !is_node(charter, who)
    {
        return false;
    }
    store.grant(*who);
    true
}

fn enter_free(
    store: &mut QueueStore,
    producer: ProducerNo,
    slot: Slot,
    epoch: u32,
    cause: Cause,
) -> bool
    requires spare { 0 < store.old.spare }
    requires producer { producer ≡ store.old.producer }
    ensures { Enters store.old (fact.Freed slot epoch cause) result store.new }
{
    slot_law();
    if !store.is_leased() || epoch != store.epoch() || slot != Slot::Queue(producer) {
        return false;
    }
    store.free(cause);
    true
}

/// Whether the next send of the producer is this one.
fn is_next_send(
    store: &QueueStore,
    charter: &Charter,
    producer: ProducerNo,
    sending: &Sending,
) -> bool
    requires charter { charter.now ≡ store.now.script }
    requires producer { producer ≡ store.now.producer }
    ensures { result ≡ option_map_or (is_sending sending.now) (slice_get (sends store.now.script store.now.producer) (queued_in_all store.now.entries)) false }
{
    match charter.sends(producer).get(store.total() as usize) {
        Some(next) => *sending == *next,
        None => false,
    }
}

fn enter_command(
    store: &mut QueueStore,
    charter: &Charter,
    producer: ProducerNo,
    of: ProducerNo,
    sending: &Sending,
) -> bool
    requires spare { 0 < store.old.spare }
    requires charter { charter.now ≡ store.old.script }
    requires producer { producer ≡ store.old.producer }
    ensures { Enters store.old (fact.Queued of sending.now.entity sending.now.number sending.now.command) result store.new }
{
    sending_law();
    if !store.is_leased()
        || of.get() != producer.get()
        || !is_next_send(store, charter, producer, sending)
    {
        return false;
    }
    store.queue(charter);
    true
}

fn enter_confirmed(
    store: &mut QueueStore,
    producer: ProducerNo,
    of: ProducerNo,
    entity: &EntityName,
    number: u32,
) -> bool
    requires spare { 0 < store.old.spare }
    requires producer { producer ≡ store.old.producer }
    ensures { Enters store.old (fact.Confirmed of entity.now number) result store.new }
{
    if !store.is_leased()
        || of.get() != producer.get()
        || number <= store.confirmed(entity)
        || number > store.queued(entity)
    {
        return false;
    }
    store.confirm(entity, number);
    true
}
