//! What is left to do of what was ordered.
ghost use Rattle.std.specs.Prelude.{◌≡◌, ℕ, ◌*◌, ◌-◌, ◌<◌, ◌≤◌, true, length, nat_lt, map, slice_index_or, sum};
ghost use Rattle.std.specs.List.{list_any};
ghost use Rattle.yard_model.specs.Genuine.{is_producer};
ghost use Rattle.yard_model.specs.Limits.{most_orders, number_limit};
ghost use Rattle.yard_model.specs.Script.{names_in};
ghost use Rattle.yard_model.specs.Setting.{producers};
ghost use Rattle.yard_model.specs.SlotLists.{queue_list};
ghost use Rattle.yard_model.specs.SlotReads as reads;
ghost use Rattle.yard_model.specs.World.{World, is_left, is_unsettled, outstanding, settle_bound};
ghost use Rattle.durable_queue.specs.Queue.{name_at};
ghost use Rattle.world_sim.specs.Queues.{is_left_in};
ghost use Rattle.world_sim.specs.Yard.{IsSound};

use crate::places::count_at;
use crate::queues::{queue_at, queue_in_book};
use crate::seek::{Sought, seek};
use crate::yard::Yard;
use behaviour_core::Behaviour;
use durable_queue::QueueStore;
use yard_model::ProducerNo;

/// How many of so many ordered sends aren't confirmed; the script brings so many names.
fn outstanding_in(store: &QueueStore, ordered: u32, names: usize) -> u32
    requires { names ≡ length (names_in store.now.script.orders) }
    ensures result { result ≡ ordered - sum (map (λ e. reads.confirmed e store.now.entries) (names_in store.now.script.orders)) }
    ensures few { result ≤ ordered }
{
    let mut outstanding = ordered;
    for place in 0..names {
        outstanding = outstanding.saturating_sub(store.confirmed_at(place));
    }
    outstanding
}

/// Whether some command that is queued to the name at this place isn't confirmed.
fn is_unconfirmed_at(store: &QueueStore, place: usize) -> bool
    requires { place < length (names_in store.now.script.orders) }
    ensures { result ≡ nat_lt (reads.confirmed (name_at store.now.script place) store.now.entries) (reads.queued (name_at store.now.script place) store.now.entries) }
{
    store.confirmed_at(place) < store.queued_at(place)
}

/// Whether some command that is queued isn't confirmed; the script brings so many names.
fn is_unconfirmed(store: &QueueStore, names: usize) -> bool
    requires { names ≡ length (names_in store.now.script.orders) }
    ensures { result ≡ list_any (λ e. nat_lt (reads.confirmed e store.now.entries) (reads.queued e store.now.entries)) (names_in store.now.script.orders) }
{
    for place in 0..names {
        if is_unconfirmed_at(store, place) {
            return true;
        }
    }
    false
}

/// Whether some of so many ordered sends isn't queued, or isn't confirmed; the script brings so many names.
fn is_left_in(store: &QueueStore, ordered: u32, names: usize) -> bool
    requires { names ≡ length (names_in store.now.script.orders) }
    ensures { result ≡ is_left_in ordered (names_in store.now.script.orders) store.now.entries }
{
    store.total() < ordered || is_unconfirmed(store, names)
}

impl<B: Behaviour + Copy + Drop> Yard<B> {
    /// The queue of a producer, at the node that holds it or at home.
    fn queue(&self, p: ProducerNo) -> &QueueStore
        requires world { (w : World) × IsSound self.now w }
        requires producer { is_producer self.now.script p ≡ true }
        ensures list { (w : World) → IsSound self.now w → result.now.entries ≡ queue_list w.lists p }
        ensures script { result.now.script ≡ self.now.script }
    {
        match seek(&self.nodes, &Sought::Queue(p)) {
            Some(n) => queue_at(&self.nodes, n, p),
            None => queue_in_book(&self.book, p),
        }
    }

    /// Whether some send of a producer that was ordered isn't queued, or isn't confirmed.
    fn is_left(&self, p: ProducerNo) -> bool
        requires world { (w : World) × IsSound self.now w }
        requires producer { is_producer self.now.script p ≡ true }
        ensures { (w : World) → IsSound self.now w → result ≡ is_left w p }
    {
        let ordered = count_at(&self.ordered, p);
        let store = self.queue(p);
        is_left_in(store, ordered, self.scene.names().len())
    }

    /// Whether something is left of some producer.
    pub(crate) fn is_any_left(&self) -> bool
        requires { (w : World) × IsSound self.now w }
        ensures { (w : World) → IsSound self.now w → result ≡ list_any (is_left w) (producers w.set) }
    {
        let count = self.scene.config().producers;
        for i in 0..count {
            let Some(p) = ProducerNo::new(i + 1) else {
                unreachable!()
            };
            if self.is_left(p) {
                return true;
            }
        }
        false
    }

    /// Whether something is left, or a packet above `from` was never delivered.
    pub(crate) fn is_unsettled(&self, from: u32) -> bool
        requires world { (w : World) × IsSound self.now w }
        requires from { from < number_limit }
        ensures { (w : World) → IsSound self.now w → result ≡ is_unsettled from w }
    {
        self.is_any_left() || self.mail.has_after(from)
    }

    /// How many of the ordered sends of a producer aren't confirmed.
    fn outstanding(&self, p: ProducerNo) -> u32
        requires world { (w : World) × IsSound self.now w }
        requires producer { is_producer self.now.script p ≡ true }
        ensures sent { (w : World) → IsSound self.now w → result ≡ outstanding w p }
        ensures few { result ≤ slice_index_or self.now.ordered (p - 1) 0 }
    {
        let ordered = count_at(&self.ordered, p);
        let store = self.queue(p);
        outstanding_in(store, ordered, self.scene.names().len())
    }

    /// How many of all ordered sends aren't confirmed.
    fn outstanding_in_all(&self) -> u32
        requires world { (w : World) × IsSound self.now w }
        requires ordered { (k : ℕ) → slice_index_or self.now.ordered k 0 ≤ most_orders }
        ensures sent { (w : World) → IsSound self.now w → result ≡ sum (map (outstanding w) (producers w.set)) }
        ensures few { result ≤ most_orders * 32 }
    {
        let count = self.scene.config().producers;
        let mut total = 0;
        for i in 0..count {
            let Some(p) = ProducerNo::new(i + 1) else {
                unreachable!()
            };
            total += self.outstanding(p);
        }
        total
    }

    /// The budget of a settle: no drain of it makes so many deliveries, and it not so many ticks.
    pub(crate) fn settle_bound(&self) -> u32
        requires world { (w : World) × IsSound self.now w }
        requires ordered { (k : ℕ) → slice_index_or self.now.ordered k 0 ≤ most_orders }
        ensures { (w : World) → IsSound self.now w → result ≡ settle_bound w }
    {
        let outstanding = self.outstanding_in_all();
        let config = self.scene.config();
        let names = self.scene.names().len() as u32;
        40 * (outstanding + config.shards as u32 + config.producers as u32 + names + 1)
    }
}
