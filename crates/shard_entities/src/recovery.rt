//! Recovery: from the latest snapshot and the records after it.
ghost use Rattle.std.specs.Prelude.{◌≡◌, ℕ, ◌+◌, ◌*◌, ◌<◌, ◌≤◌, List, [], ◌∷◌, ◌++◌, drop, length, fold, IsTrue, true, None, slice_index_or};
ghost use Rattle.std.specs.List.{list_all};
ghost use Rattle.yard_model.specs.Behaviour.{folded, is_valid, after_record};
ghost use Rattle.yard_model.specs.Entities.{cell, entries, hosted, entities_after, activate, deliver, recovered, remember};
ghost use Rattle.yard_model.specs.declared.input.Phase.TheVariants as phase;
ghost use Rattle.yard_model.specs.Script.{IsScript};
ghost use Rattle.yard_model.specs.SlotReads.{journal};
ghost use Rattle.yard_model.specs.Turns.{for_each};
ghost use Rattle.shard_store.specs.Shelved.{IsThere};
ghost use Rattle.shard_entities.specs.Lodged.{HasRoom, is_for, moved, given};
ghost use Rattle.shard_entities.specs.Placed.{IsPlace};
ghost use Rattle.shard_entities.specs.Foldable.{are_foldable};
ghost use Rattle.shard_entities.specs.Roomy.{Takes};
ghost use Rattle.shard_entities.specs.Settled.{IsSettled};

use crate::place::Place;
use crate::shards::Shards;
use behaviour_core::{Behaviour, apply_all};
use consumer_ctl::Stash;
use shard_store::ShardStore;
use yard_model::laws::{command_law, decision_law};
use yard_model::{Message, Out, Phase, State};

/// What a journal leads to.
#[derive(Clone, Copy)]
pub(crate) struct Recovery {
    /// How many records there are.
    pub records: u32,
    /// The state after them.
    pub state: State,
}

impl Shards {
    /// An entity has its journal (Akka 2.6, Event Sourcing: recovery): where it recovers it takes
    /// commands from now on, and gets what was stashed for it, oldest first. `pending` is an empty
    /// stash, and is one again in the end.
    pub(crate) fn recovered<B: Behaviour>(
        &mut self,
        behaviour: &B,
        place: &Place,
        pending: &mut Stash,
        out: &mut Out,
    )
        requires kind { B.kind_of behaviour.now ≡ self.old.script.config.kind }
        requires version { B.version_of behaviour.now ≡ self.old.state.version }
        requires place { IsPlace self.old.script place.now }
        requires there { (cell self.old.state place.now.entity).phase ≡ phase.Loading → HasRoom self.old place.now.shard (2 * self.old.script.config.window) }
        requires settled { IsSettled self.old }
        requires window { pending.old.window ≡ self.old.script.config.window }
        requires empty { pending.old.messages ≡ [] }
        requires room { 2 + 4 * self.old.script.config.window ≤ out.old.spare }
        ensures state { self.new ≡ moved self.old (recovered place.now.entity self.old.state) }
        ensures out { out.new ≡ given out.old (recovered place.now.entity self.old.state) }
        ensures takes { Takes self.old self.new place.now.shard (1 + 2 * self.old.script.config.window) }
        ensures settled { IsSettled self.new }
        ensures pending { pending.new ≡ pending.old }
    {
        self.knows();
        match self.phase(place) {
            Phase::Loading => {
                self.stashed(place);
                self.activate(behaviour, place, pending, out);
                self.deliver_all(behaviour, place, pending, out);
            }
            _ => {}
        }
    }

    /// It takes commands from now on, and is remembered; what was stashed for it is pending.
    fn activate<B: Behaviour>(
        &mut self,
        behaviour: &B,
        place: &Place,
        pending: &mut Stash,
        out: &mut Out,
    )
        requires kind { B.kind_of behaviour.now ≡ self.old.script.config.kind }
        requires version { B.version_of behaviour.now ≡ self.old.state.version }
        requires place { IsPlace self.old.script place.now }
        requires there { HasRoom self.old place.now.shard 0 }
        requires window { pending.old.window ≡ self.old.script.config.window }
        requires empty { pending.old.messages ≡ [] }
        requires room { 2 ≤ out.old.spare }
        ensures state { self.new ≡ moved self.old (activate place.now.entity self.old.state) }
        ensures out { out.new ≡ given out.old (activate place.now.entity self.old.state) }
        ensures pending { pending.new ≡ record { messages = (cell self.old.state place.now.entity).stash; window = self.old.script.config.window } }
    {
        self.knows();
        let recovery = self.recover(behaviour, place);
        self.tell_active(place, recovery.records, &recovery.state, pending, out);
        self.remember(place, out);
    }

    /// What its journal leads to.
    fn recover<B: Behaviour>(&self, behaviour: &B, place: &Place) -> Recovery
        requires kind { B.kind_of behaviour.now ≡ self.now.script.config.kind }
        requires version { B.version_of behaviour.now ≡ self.now.state.version }
        requires place { IsPlace self.now.script place.now }
        ensures count { result.records ≡ length (journal place.now.entity (entries self.now.state place.now.entity)) }
        ensures state { result.state ≡ folded self.now.script.config.kind (journal place.now.entity (entries self.now.state place.now.entity)) }
        ensures valid { IsTrue (is_valid self.now.script.config.kind result.state) }
    {
        match &self.hosted[place.shard.get() as usize] {
            Some(hosting) => recovered_from(behaviour, &hosting.store, place),
            None => Recovery {
                records: 0,
                state: behaviour.empty(),
            },
        }
    }

    /// It is remembered, where the script says so and it isn't yet.
    fn remember(&mut self, place: &Place, out: &mut Out)
        requires place { IsPlace self.old.script place.now }
        requires there { HasRoom self.old place.now.shard 0 }
        requires room { 0 < out.old.spare }
        ensures state { self.new ≡ moved self.old (remember place.now.entity self.old.state) }
        ensures out { out.new ≡ given out.old (remember place.now.entity self.old.state) }
    {
        self.knows();
        if self.remembers() && !self.is_remembered(place) {
            self.tell_remembered(place, out);
        }
    }

    /// All that is pending for it is delivered, oldest first.
    fn deliver_all<B: Behaviour>(
        &mut self,
        behaviour: &B,
        place: &Place,
        pending: &mut Stash,
        out: &mut Out,
    )
        requires kind { B.kind_of behaviour.now ≡ self.old.script.config.kind }
        requires version { B.version_of behaviour.now ≡ self.old.state.version }
        requires place { IsPlace self.old.script place.now }
        requires for_it { list_all (is_for self.old.script place.now.entity) pending.old.messages ≡ true }
        requires there { hosted self.old.state place.now.shard ≡ None → ⊥ }
        requires space { 2 * length pending.old.messages ≤ slice_index_or self.old.rooms place.now.shard 0 }
        requires settled { IsSettled self.old }
        requires room { 4 * length pending.old.messages ≤ out.old.spare }
        ensures state { self.new ≡ moved self.old (for_each entities_after deliver pending.old.messages self.old.state) }
        ensures out { out.new ≡ given out.old (for_each entities_after deliver pending.old.messages self.old.state) }
        ensures takes { Takes self.old self.new place.now.shard (2 * length pending.old.messages) }
        ensures settled { IsSettled self.new }
        ensures pending { pending.new ≡ record { messages = []; window = pending.old.window } }
    {
        for _ in 0..pending.len() {
            self.knows();
            let message = oldest(pending);
            self.deliver_to(behaviour, place, &message, out);
        }
    }
}

/// The oldest of the messages that are pending, of which there are some.
fn oldest(pending: &mut Stash) -> Message
    requires { pending.old.messages ≡ [] → ⊥ }
    ensures message { pending.old.messages ≡ result ∷ pending.new.messages }
    ensures window { pending.new.window ≡ pending.old.window }
{
    match pending.pop() {
        Some(message) => message,
        None => unreachable!(),
    }
}

/// What the journal of an entity leads to, in the store of its shard.
fn recovered_from<B: Behaviour>(behaviour: &B, store: &ShardStore, place: &Place) -> Recovery
    requires kind { B.kind_of behaviour.now ≡ store.now.script.config.kind }
    requires place { IsThere store.now place.now.inner place.now.entity }
    requires script { IsScript store.now.script }
    ensures count { result.records ≡ length (journal place.now.entity store.now.entries) }
    ensures state { result.state ≡ folded store.now.script.config.kind (journal place.now.entity store.now.entries) }
    ensures valid { IsTrue (is_valid store.now.script.config.kind result.state) }
{
    command_law();
    decision_law();
    store.entries();
    let journal = store.journal_at(place.inner, &place.entity);
    let records = journal.len();
    match store.latest_at(place.inner, &place.entity) {
        Some(snapshot) => Recovery {
            records,
            state: replayed(
                behaviour,
                &snapshot.state,
                store,
                place,
                snapshot.at,
                records,
            ),
        },
        None => Recovery {
            records,
            state: replayed(behaviour, &behaviour.empty(), store, place, 0, records),
        },
    }
}

/// The state after the records of an entity but the first `from`, oldest first, which lead on from a
/// state; there are `count` in all.
fn replayed<B: Behaviour>(
    behaviour: &B,
    state: &State,
    store: &ShardStore,
    place: &Place,
    from: u32,
    count: u32,
) -> State
    requires state { IsTrue (is_valid (B.kind_of behaviour.now) state.now) }
    requires place { IsThere store.now place.now.inner place.now.entity }
    requires count { count ≡ length (journal place.now.entity store.now.entries) }
    requires records { IsTrue (are_foldable state.now (drop from (journal place.now.entity store.now.entries))) }
    ensures value { result ≡ fold after_record state.now (drop from (journal place.now.entity store.now.entries)) }
    ensures valid { IsTrue (is_valid (B.kind_of behaviour.now) result) }
{
    let mut current = *state;
    for k in from..count {
        let written = store.record_at(place.inner, &place.entity, k);
        apply_all(behaviour, &mut current, written.events.as_slice());
    }
    current
}
