//! The store of a producer's queue.
ghost use Rattle.std.specs.Prelude.{◌≡◌, ℕ, ◌+◌, ◌-◌, ◌<◌, ◌≤◌, ◌↔◌, true, false, [], ◌∷◌, ◌++◌, length, map, slice_get, Some, None, IfOk, OnOk, OnErr, IsSome, IfSome, vec_len, vec_capacity};
ghost use Rattle.yard_model.specs.declared.fact.Fact.TheVariants as fact;
ghost use Rattle.yard_model.specs.declared.incarnation.Slot.TheVariants as slot;
ghost use Rattle.yard_model.specs.Entry.{queue_fact};
ghost use Rattle.yard_model.specs.Genuine.{is_node, is_producer};
ghost use Rattle.yard_model.specs.Grown.{GoesOn};
ghost use Rattle.yard_model.specs.Lawful.{is_held, own};
ghost use Rattle.yard_model.specs.Script.{names_in, sends, plan, with_shards};
ghost use Rattle.yard_model.specs.SlotReads as reads;
ghost use Rattle.durable_queue.specs.Queue.{name_at};

use crate::counts::{Counts, count_at, count_of, no_counts, put_at, same_counts};
use crate::hints::hint_at;
use crate::known::{Known, how_many, know_more, known_of};
use crate::names::Names;
use crate::plans::{command_at, command_to};
use grow_laws::growing::own_goes_on;
use std::alloc::{AllocError, Global};
use std::marker::{Model, PhantomData};
use std::snapshot::Snapshot as Ghost;
use yard_model::laws::sending_law;
use yard_model::{
    Cause, Charter, Command, EntityName, Incarnation, ProducerNo, QueueEntry, Sending,
};

/// Fewer entries than these, so that each count and each epoch is a `u32`.
const ENTRIES: usize = 1 << 32;

/// What one producer has sent and how far it is confirmed, entry by entry (Akka 2.6, Cluster
/// Sharding: reliable delivery, the durable producer queue); seen as its list, with a spare: so
/// many entries more are appended with no memory taken. The list is lawful, and each question is
/// answered from what is kept beside it.
#[derive(Drop)]
pub struct QueueStore {
    script: Ghost<Charter>,
    producer: ProducerNo,
    entries: Vec<QueueEntry>,
    names: Names,
    hints: Vec<u16>,
    plans: Vec<Vec<Command>>,
    // so many sends they are
    planned: usize,
    queued: Vec<u32>,
    confirmed: Vec<u32>,
    total: u32,
    epoch: u32,
    leased: bool,
    free: usize,
    holds: PhantomData<(Command, Cause, Incarnation)>,
}

impl Model for QueueStore {
    ghost use Rattle.std.specs.Prelude.{◌≡◌, length, map, vec_capacity};
    ghost use Rattle.yard_model.specs.Entry.{queue_fact};
    ghost use Rattle.yard_model.specs.Script.{sends};
    ghost use Rattle.durable_queue.specs.Queue.{Queue};
    ghost use Rattle.durable_queue.specs.Kept.{IsKept};

    ghost Value = { Queue };

    ghost view = { λ q. record { script = q.script.value; producer = q.producer; entries = map (queue_fact q.producer) q.entries.items; spare = q.free } };

    ghost invariant = { λ q. IsKept q.script.value q.producer q.entries.items q.names (map (λ v. v.items) q.plans.items) q.queued.items q.confirmed.items q.total q.epoch q.leased q.free (vec_capacity q.entries) × (q.planned ≡ length (sends q.script.value q.producer)) };
}

impl QueueStore {
    /// The empty queue of a producer of this charter, with no spare. The only error is want of
    /// memory.
    pub fn new(
        alloc: Global,
        charter: &Charter,
        producer: ProducerNo,
    ) -> Result<QueueStore, AllocError>
        requires producer { is_producer charter.now producer ≡ true }
        ensures script { IfOk result (λ q. q.script ≡ charter.now) }
        ensures producer { IfOk result (λ q. q.producer ≡ producer) }
        ensures entries { IfOk result (λ q. q.entries ≡ []) }
        ensures spare { IfOk result (λ q. q.spare ≡ 0) }
    {
        QueueStore::with_hints(alloc, charter, producer, &[])
    }

    /// The same, where the place of the name to which each of the producer's sends goes may be the one among
    /// these. The only error is want of memory.
    pub fn with_hints(
        alloc: Global,
        charter: &Charter,
        producer: ProducerNo,
        hints: &[u16],
    ) -> Result<QueueStore, AllocError>
        requires producer { is_producer charter.now producer ≡ true }
        ensures script { IfOk result (λ q. q.script ≡ charter.now) }
        ensures producer { IfOk result (λ q. q.producer ≡ producer) }
        ensures entries { IfOk result (λ q. q.entries ≡ []) }
        ensures spare { IfOk result (λ q. q.spare ≡ 0) }
    {
        let known = known_of(alloc, charter, producer, hints)?;
        let counts = no_counts(alloc, known.names.len())?;
        let planned = how_many(charter, producer);
        let entries = Vec::with_capacity(alloc, room_for(planned))?;
        let Known {
            names,
            hints,
            plans,
        } = known;
        let Counts { queued, confirmed } = counts;
        Ok(QueueStore {
            script: Ghost::of(charter),
            producer,
            entries,
            names,
            hints,
            plans,
            planned,
            queued,
            confirmed,
            total: 0,
            epoch: 0,
            leased: false,
            free: 0,
            holds: PhantomData,
        })
    }

    /// How many entries there are.
    pub fn len(&self) -> u32
        ensures { result ≡ length self.now.entries }
    {
        self.entries.len() as u32
    }

    /// The entries, oldest first.
    pub fn entries(&self) -> &[QueueEntry]
        ensures value { map (queue_fact self.now.producer) result.now ≡ self.now.entries }
        ensures lawful { own self.now.script (slot.Queue self.now.producer) self.now.entries ≡ true }
        ensures producer { is_producer self.now.script self.now.producer ≡ true }
    {
        self.entries.as_slice()
    }

    /// How many entries more take no memory.
    pub fn spare(&self) -> u32
        ensures { result ≡ self.now.spare }
    {
        self.free as u32
    }

    /// The epoch of the last grant; 0 before.
    pub fn epoch(&self) -> u32
        ensures { result ≡ reads.epoch self.now.entries }
    {
        self.epoch
    }

    /// Whether the last grant stands: no entry freed it.
    pub fn is_leased(&self) -> bool
        ensures { result ≡ is_held self.now.entries }
    {
        self.leased
    }

    /// Where the name of a send of the producer may stand among the script's, by the send's place from 0.
    /// Nothing is said of it: the name that stands there is to be compared.
    pub fn hint(&self, place: usize) -> usize {
        hint_at(self.hints.as_slice(), place)
    }

    /// How many commands are queued in all.
    pub fn total(&self) -> u32
        ensures { result ≡ reads.queued_in_all self.now.entries }
    {
        self.total
    }

    /// How many commands to this entity are queued.
    pub fn queued(&self, entity: &EntityName) -> u32
        ensures { result ≡ reads.queued entity.now self.now.entries }
    {
        count_of(&self.names, self.queued.as_slice(), entity)
    }

    /// The last confirmed number to this entity; 0 before.
    pub fn confirmed(&self, entity: &EntityName) -> u32
        ensures { result ≡ reads.confirmed entity.now self.now.entries }
    {
        count_of(&self.names, self.confirmed.as_slice(), entity)
    }

    /// How many commands are queued to the name at this place among the script's.
    pub fn queued_at(&self, place: usize) -> u32
        requires { place < length (names_in self.now.script.orders) }
        ensures { result ≡ reads.queued (name_at self.now.script place) self.now.entries }
    {
        count_at(self.queued.as_slice(), place)
    }

    /// The last confirmed number to the name at this place among the script's; 0 before.
    pub fn confirmed_at(&self, place: usize) -> u32
        requires { place < length (names_in self.now.script.orders) }
        ensures { result ≡ reads.confirmed (name_at self.now.script place) self.now.entries }
    {
        count_at(self.confirmed.as_slice(), place)
    }

    /// The command of this number to this entity; None exactly where none of that number is queued.
    pub fn command(&self, entity: &EntityName, number: u32) -> Option<Command>
        ensures first { number ≡ 0 → result ≡ None }
        ensures value { 0 < number → result ≡ slice_get (reads.commands entity.now self.now.entries) (number - 1) }
        ensures planned { IfSome result (λ k. slice_get (plan self.now.script self.now.producer entity.now) (number - 1) ≡ Some k) }
        ensures queued { IsSome result ↔ ((0 < number) × (number ≤ reads.queued entity.now self.now.entries)) }
    {
        if number == 0 || number > self.queued(entity) {
            return None;
        }
        command_to(
            &self.names,
            self.plans.as_slice(),
            entity,
            number as usize - 1,
        )
    }

    /// The command of this number to the name at this place among the script's; None exactly where none
    /// of that number is queued.
    pub fn command_at(&self, place: usize, number: u32) -> Option<Command>
        requires { place < length (names_in self.now.script.orders) }
        ensures first { number ≡ 0 → result ≡ None }
        ensures value { 0 < number → result ≡ slice_get (reads.commands (name_at self.now.script place) self.now.entries) (number - 1) }
        ensures planned { IfSome result (λ k. slice_get (plan self.now.script self.now.producer (name_at self.now.script place)) (number - 1) ≡ Some k) }
        ensures queued { IsSome result ↔ ((0 < number) × (number ≤ reads.queued (name_at self.now.script place) self.now.entries)) }
    {
        if number == 0 || number > self.queued_at(place) {
            return None;
        }
        command_at(self.plans.as_slice(), place, number as usize - 1)
    }

    /// Makes the spare at least `n`. The only error is want of memory, which comes too where the
    /// entries and the spare would be 2^32 or more; then nothing changes.
    #[inline(always)]
    pub fn reserve(&mut self, n: u32) -> Result<(), AllocError>
        ensures script { self.new.script ≡ self.old.script }
        ensures producer { self.new.producer ≡ self.old.producer }
        ensures entries { self.new.entries ≡ self.old.entries }
        ensures spare { self.old.spare ≤ self.new.spare }
        ensures ok { OnOk result (n ≤ self.new.spare) }
        ensures err { OnErr result (self.new ≡ self.old) }
    {
        let wanted = n as usize;
        if wanted > self.free {
            self.take_room(wanted)
        } else {
            Ok(())
        }
    }

    /// The same of a spare that is less.
    #[inline(never)]
    fn take_room(&mut self, wanted: usize) -> Result<(), AllocError>
        requires less { self.old.spare ≤ wanted }
        requires fits { wanted < 4294967296 }
        ensures ok { OnOk result (self.new ≡ record self.old { spare = wanted }) }
        ensures err { OnErr result (self.new ≡ self.old) }
    {
        if self.entries.len() + wanted >= ENTRIES {
            return Err(AllocError);
        }
        self.entries.reserve(wanted)?;
        self.free = wanted;
        Ok(())
    }

    /// The same queue under `charter`, which has another number of shards and says the same beside
    /// it. It has no spare. The only error is want of memory.
    pub fn reshard(&self, alloc: Global, charter: &Charter) -> Result<QueueStore, AllocError>
        requires { charter.now ≡ with_shards charter.now.config.shards self.now.script }
        ensures { IfOk result (λ q. q ≡ record self.now { script = charter.now; spare = 0 }) }
    {
        let known = known_of(alloc, charter, self.producer, self.hints.as_slice())?;
        let counts = same_counts(alloc, self.queued.as_slice(), self.confirmed.as_slice())?;
        let planned = how_many(charter, self.producer);
        let entries = entries_of(alloc, planned, self.entries.as_slice())?;
        let Known {
            names,
            hints,
            plans,
        } = known;
        let Counts { queued, confirmed } = counts;
        Ok(QueueStore {
            script: Ghost::of(charter),
            producer: self.producer,
            entries,
            names,
            hints,
            plans,
            planned,
            queued,
            confirmed,
            total: self.total,
            epoch: self.epoch,
            leased: self.leased,
            free: 0,
            holds: PhantomData,
        })
    }

    /// The same queue under `charter`, whose script goes on from the store's. Entries and what is kept of the
    /// sends are moved; only the sends that are new are walked. The only error is want of memory; the store is
    /// gone then.
    pub fn grow(self, alloc: Global, charter: &Charter) -> Result<QueueStore, AllocError>
        requires goes_on { GoesOn self.script charter.now }
        ensures { IfOk result (λ q. q ≡ record self { script = charter.now }) }
    {
        own_goes_on();
        let QueueStore {
            script: _,
            producer,
            entries,
            names,
            hints,
            plans,
            planned,
            queued,
            confirmed,
            total,
            epoch,
            leased,
            free,
            holds: _,
        } = self;
        let mut known = Known {
            names,
            hints,
            plans,
        };
        let mut counts = Counts { queued, confirmed };
        know_more(alloc, charter, producer, planned, &mut known, &mut counts)?;
        let all = how_many(charter, producer);
        let Known {
            names,
            hints,
            plans,
        } = known;
        let Counts { queued, confirmed } = counts;
        Ok(QueueStore {
            script: Ghost::of(charter),
            producer,
            entries,
            names,
            hints,
            plans,
            planned: all,
            queued,
            confirmed,
            total,
            epoch,
            leased,
            free,
            holds: PhantomData,
        })
    }

    /// A grant to this incarnation, in a new epoch, which it answers.
    pub fn grant(&mut self, who: Incarnation) -> u32
        requires spare { 0 < self.old.spare }
        requires free { is_held self.old.entries ≡ false }
        requires node { is_node self.old.script who ≡ true }
        ensures epoch { result ≡ reads.epoch self.old.entries + 1 }
        ensures entries { self.new.entries ≡ self.old.entries ++ fact.Granted (slot.Queue self.old.producer) result who ∷ [] }
        ensures script { self.new.script ≡ self.old.script }
        ensures producer { self.new.producer ≡ self.old.producer }
        ensures spare { self.new.spare + 1 ≡ self.old.spare }
    {
        let epoch = self.epoch + 1;
        push(&mut self.entries, QueueEntry::Granted(epoch, who));
        self.free -= 1;
        self.epoch = epoch;
        self.leased = true;
        epoch
    }

    /// The end of the last grant.
    pub fn free(&mut self, cause: Cause)
        requires spare { 0 < self.old.spare }
        requires leased { is_held self.old.entries ≡ true }
        ensures entries { self.new.entries ≡ self.old.entries ++ fact.Freed (slot.Queue self.old.producer) (reads.epoch self.old.entries) cause ∷ [] }
        ensures script { self.new.script ≡ self.old.script }
        ensures producer { self.new.producer ≡ self.old.producer }
        ensures spare { self.new.spare + 1 ≡ self.old.spare }
    {
        push(&mut self.entries, QueueEntry::Freed(self.epoch, cause));
        self.free -= 1;
        self.leased = false;
    }

    /// Queues the next send of the producer, in script order, and answers it. The charter is the
    /// one that the store was made for.
    pub fn queue(&mut self, charter: &Charter) -> Sending
        requires spare { 0 < self.old.spare }
        requires leased { is_held self.old.entries ≡ true }
        requires charter { charter.now ≡ self.old.script }
        requires left { reads.queued_in_all self.old.entries < length (sends self.old.script self.old.producer) }
        ensures next { slice_get (sends self.old.script self.old.producer) (reads.queued_in_all self.old.entries) ≡ Some result }
        ensures number { result.number ≡ reads.queued result.entity self.old.entries + 1 }
        ensures entries { self.new.entries ≡ self.old.entries ++ fact.Queued self.old.producer result.entity result.number result.command ∷ [] }
        ensures script { self.new.script ≡ self.old.script }
        ensures producer { self.new.producer ≡ self.old.producer }
        ensures spare { self.new.spare + 1 ≡ self.old.spare }
    {
        let sending = charter.sends(self.producer)[self.total as usize];
        let place = self.names.place(&sending.entity);
        self.queue_at(place, &sending);
        sending
    }

    /// Queues the next send of the producer, in script order, which is this one, to the entity whose name
    /// stands at this place among the script's.
    pub fn queue_at(&mut self, place: usize, sending: &Sending)
        requires within { place < length (names_in self.old.script.orders) }
        requires it { name_at self.old.script place ≡ sending.now.entity }
        requires spare { 0 < self.old.spare }
        requires leased { is_held self.old.entries ≡ true }
        requires next { slice_get (sends self.old.script self.old.producer) (reads.queued_in_all self.old.entries) ≡ Some sending.now }
        ensures number { sending.now.number ≡ reads.queued sending.now.entity self.old.entries + 1 }
        ensures entries { self.new.entries ≡ self.old.entries ++ fact.Queued self.old.producer sending.now.entity sending.now.number sending.now.command ∷ [] }
        ensures script { self.new.script ≡ self.old.script }
        ensures producer { self.new.producer ≡ self.old.producer }
        ensures spare { self.new.spare + 1 ≡ self.old.spare }
    {
        sending_law();
        put_at(&mut self.queued, place, sending.number);
        push(
            &mut self.entries,
            QueueEntry::Queued(sending.entity, sending.number, sending.command),
        );
        self.free -= 1;
        self.total += 1;
    }

    /// All numbers to this entity up to this one are recorded.
    pub fn confirm(&mut self, entity: &EntityName, number: u32)
        requires spare { 0 < self.old.spare }
        requires leased { is_held self.old.entries ≡ true }
        requires queued { number ≤ reads.queued entity.now self.old.entries }
        requires above { reads.confirmed entity.now self.old.entries < number }
        ensures entries { self.new.entries ≡ self.old.entries ++ fact.Confirmed self.old.producer entity.now number ∷ [] }
        ensures script { self.new.script ≡ self.old.script }
        ensures producer { self.new.producer ≡ self.old.producer }
        ensures spare { self.new.spare + 1 ≡ self.old.spare }
    {
        let place = self.names.place(entity);
        self.confirm_at(place, entity, number);
    }

    /// All numbers up to this one are recorded, to the entity whose name stands at this place among the
    /// script's.
    pub fn confirm_at(&mut self, place: usize, entity: &EntityName, number: u32)
        requires within { place < length (names_in self.old.script.orders) }
        requires it { name_at self.old.script place ≡ entity.now }
        requires spare { 0 < self.old.spare }
        requires leased { is_held self.old.entries ≡ true }
        requires queued { number ≤ reads.queued entity.now self.old.entries }
        requires above { reads.confirmed entity.now self.old.entries < number }
        ensures entries { self.new.entries ≡ self.old.entries ++ fact.Confirmed self.old.producer entity.now number ∷ [] }
        ensures script { self.new.script ≡ self.old.script }
        ensures producer { self.new.producer ≡ self.old.producer }
        ensures spare { self.new.spare + 1 ≡ self.old.spare }
    {
        put_at(&mut self.confirmed, place, number);
        push(&mut self.entries, QueueEntry::Confirmed(*entity, number));
        self.free -= 1;
    }
}

/// Room for the entries of so many sends, each queued and confirmed, for leases, and for the spare that is
/// asked for at the end: where a list grows it moves.
fn room_for(sends: usize) -> usize {
    sends.saturating_mul(2).saturating_add(640)
}

/// The same entries, with room for those of so many sends. The only error is want of memory.
fn entries_of(
    alloc: Global,
    sends: usize,
    entries: &[QueueEntry],
) -> Result<Vec<QueueEntry>, AllocError>
    ensures { IfOk result (λ same. same.items ≡ entries.now) }
{
    let mut same = Vec::with_capacity(alloc, room_for(sends))?;
    same.extend_from_slice(entries)?;
    Ok(same)
}

/// One entry more, for which there is room.
fn push(entries: &mut Vec<QueueEntry>, entry: QueueEntry)
    requires { vec_len entries.old < vec_capacity entries.old }
    ensures items { entries.new.items ≡ entries.old.items ++ entry ∷ [] }
    ensures capacity { vec_capacity entries.old ≤ vec_capacity entries.new }
{
    entries.push_reserved(entry);
}
