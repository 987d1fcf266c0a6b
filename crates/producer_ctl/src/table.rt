//! What a producer knows of each entity.
ghost use Rattle.std.specs.Prelude.{◌≡◌, ◌≢◌, ℕ, ◌<◌, ◌≤◌, length, IfOk, slice_index_or, slice_set, vec_capacity};
ghost use Rattle.place_set.specs.Places.{is_in};
ghost use Rattle.yard_model.specs.Script.{setting};
ghost use Rattle.producer_ctl.specs.Paired.{name_at, new_pair, no_pair, is_waiting, AreMarked, IsBlank, IsNext};

use durable_queue::QueueStore;
use place_set::PlaceSet;
use send_window::Pair;
use std::alloc::{AllocError, Global};
use std::marker::Model;

/// What a producer knows of each entity, at the place of its name; seen as the list of this. Which of
/// them wait is at hand.
#[derive(Drop)]
pub(crate) struct Table {
    pairs: Vec<Pair>,
    waiting: PlaceSet,
}

impl Model for Table {
    ghost use Rattle.std.specs.Prelude.{List};
    ghost use Rattle.send_window.specs.declared.pair.Pair.{Pair};
    ghost use Rattle.producer_ctl.specs.Paired.{AreMarked};

    ghost Value = { List Pair };

    ghost view = { λ t. t.pairs.items };

    ghost invariant = { λ t. AreMarked t.pairs.items t.waiting };
}

impl Table {
    /// What is kept at a place.
    pub(crate) fn get(&self, at: usize) -> Pair
        requires { at < length self.now }
        ensures { result ≡ slice_index_or self.now at result }
    {
        self.pairs[at]
    }

    /// This is kept at a place.
    pub(crate) fn put(&mut self, at: usize, pair: Pair)
        requires { at < length self.old }
        ensures { self.new ≡ slice_set self.old at pair }
    {
        mark(&mut self.waiting, at, pair.waits());
        self.pairs[at] = pair;
    }

    /// This is kept at a place, where a pair waits, or doesn't, as the one before did.
    pub(crate) fn put_as_before(&mut self, at: usize, pair: Pair)
        requires within { at < length self.old }
        requires waits { is_waiting pair ≡ is_waiting (slice_index_or self.old at no_pair) }
        ensures { self.new ≡ slice_set self.old at pair }
    {
        self.pairs[at] = pair;
    }

    /// Its room, with no place any more.
    pub(crate) fn into_blank(self) -> Blank
        ensures { result ≡ length self }
    {
        let Table { mut pairs, waiting } = self;
        let names = pairs.len();
        pairs.clear();
        Blank {
            names,
            pairs,
            waiting,
        }
    }

    /// The next place, from one on, whose pair waits; how many places there are where there is none.
    pub(crate) fn next(&self, from: usize) -> usize
        requires { from ≤ length self.now }
        ensures { IsNext (λ k. is_waiting (slice_index_or self.now k no_pair)) from (length self.now) result }
    {
        self.waiting.next(from)
    }
}

/// Room for what a producer keeps of each name, of which nothing is written before a queue is granted;
/// seen as how many places there will be.
#[derive(Drop)]
pub struct Blank {
    names: usize,
    pairs: Vec<Pair>,
    waiting: PlaceSet,
}

impl Model for Blank {
    ghost use Rattle.std.specs.Prelude.{ℕ, vec_capacity};
    ghost use Rattle.producer_ctl.specs.Paired.{IsBlank};

    ghost Value = { ℕ };

    ghost view = { λ b. b.names };

    ghost invariant = { λ b. IsBlank b.names b.pairs.items (vec_capacity b.pairs) b.waiting };
}

impl Blank {
    /// Room for so many places. The only error is want of memory.
    pub fn new(alloc: Global, names: usize) -> Result<Blank, AllocError>
        ensures { IfOk result (λ b. b ≡ names) }
    {
        let pairs = Vec::with_capacity(alloc, names)?;
        let waiting = PlaceSet::new(alloc, names)?;
        Ok(Blank {
            names,
            pairs,
            waiting,
        })
    }

    /// The table of a queue that is granted: nothing was demanded, nothing was sent. No memory is taken.
    pub(crate) fn filled(self, store: &QueueStore) -> Table
        requires { self ≡ length (setting store.now.script).names }
        ensures there { length result ≡ length (setting store.now.script).names }
        ensures each { (i : ℕ) → i < length (setting store.now.script).names → slice_index_or result i no_pair ≡ new_pair (name_at (setting store.now.script).names i) store.now.entries }
    {
        let Blank {
            names,
            mut pairs,
            mut waiting,
        } = self;
        read_all(&mut pairs, &mut waiting, store, names);
        Table { pairs, waiting }
    }
}

/// Of each name, what is queued and confirmed in this queue is read, and nothing was sent.
fn read_all(pairs: &mut Vec<Pair>, waiting: &mut PlaceSet, store: &QueueStore, names: usize)
    requires names { names ≡ length (setting store.now.script).names }
    requires blank { IsBlank names pairs.old.items (vec_capacity pairs.old) waiting.old }
    ensures marked { AreMarked pairs.new.items waiting.new }
    ensures there { length pairs.new.items ≡ length (setting store.now.script).names }
    ensures each { (i : ℕ) → i < length (setting store.now.script).names → slice_index_or pairs.new.items i no_pair ≡ new_pair (name_at (setting store.now.script).names i) store.now.entries }
{
    for at in 0..names {
        let pair = Pair::granted(store.queued_at(at), store.confirmed_at(at));
        mark(waiting, at, pair.waits());
        pairs.push_reserved(pair);
    }
}

/// The place is in the set exactly where its pair waits.
fn mark(waiting: &mut PlaceSet, at: usize, waits: bool)
    requires { at < waiting.old.bound }
    ensures bound { waiting.new.bound ≡ waiting.old.bound }
    ensures it { is_in waiting.new at ≡ waits }
    ensures others { (i : ℕ) → i ≢ at → is_in waiting.new i ≡ is_in waiting.old i }
{
    if waits {
        waiting.insert(at);
    } else {
        waiting.remove(at);
    }
}
