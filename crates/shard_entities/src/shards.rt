//! The hosted shards of a node and the cells of their entities: how they are kept, and what is read
//! off them.
ghost use Rattle.std.specs.Prelude.{◌≡◌, ◌≢◌, ℕ, ◌-◌, ◌<◌, ◌≤◌, List, [], ◌∷◌, length, replicate, true, false, nat_lt, None, Some, IfOk, OnOk, MatchOption, IsTrue, not, is_none, slice_index_or};
ghost use Rattle.std.specs.List.{list_any, list_all};
ghost use Rattle.yard_model.specs.declared.fact.Fact.TheVariants as fact;
ghost use Rattle.yard_model.specs.declared.incarnation.Cause.{Cause};
ghost use Rattle.yard_model.specs.declared.incarnation.Slot.TheVariants as slot;
ghost use Rattle.yard_model.specs.ShardSet.{has};
ghost use Rattle.yard_model.specs.declared.input.Phase.TheVariants as phase;
ghost use Rattle.yard_model.specs.Behaviour.{folded, is_valid};
ghost use Rattle.yard_model.specs.Entities.{is_running, is_hosted, new_entities, cell, hosted, is_in_phase, entries, entities_of};
ghost use Rattle.yard_model.specs.Move.{told};
ghost use Rattle.yard_model.specs.Script.{IsScript, is_name, is_version, setting, is_config};
ghost use Rattle.yard_model.specs.Setting.{names_of, shard_of};
ghost use Rattle.yard_model.specs.Words.{at, is_empty};
ghost use Rattle.yard_model.specs.SlotReads.{journal, is_remembered};
ghost use Rattle.shard_store.specs.Shelved.{name_at};
ghost use Rattle.shard_entities.specs.Lodged.{IsStore, HasRoom, moved, is_for, without, cleared, room_of};
ghost use Rattle.shard_entities.specs.Roomy.{AreMore, AreReserved, room_wanted, room_for};
ghost use Rattle.shard_entities.specs.Ready.{IsReady, AreReady};
ghost use Rattle.shard_entities.specs.Settled.{IsSettled};
ghost use Rattle.shard_entities.specs.Placed.{IsPlace};

use crate::counts::count_out;
use crate::hosting::{Ending, Hosting, reserve_in};
use crate::place::Place;
use crate::places::{Places, shard_at};
use crate::restless::{none_restless, note};
use entity_cells::Cells;
use place_set::PlaceSet;
use shard_store::ShardStore;
use std::alloc::{AllocError, Global};
use std::marker::{Model, PhantomData};
use std::snapshot::Snapshot;
use turn_rooms::{MOST_PAIRS, TURN_ROOM};
use yard_model::{
    Body, Charter, Command, Config, EntityName, Fact, Incarnation, Keep, Message, Packet, Phase,
    ProducerNo, ShardNo, ShardSet, Slot, Stamp, State,
};

/// The shards that a node hosts, and where the entity of each name stands. Contracts see them as the
/// definition's state and the room of each store; what a call makes of them is one equation, the
/// definition's moves folded.
#[derive(Drop)]
pub(crate) struct Shards {
    pub(crate) script: Snapshot<Charter>,
    pub(crate) who: Incarnation,
    pub(crate) version: u8,
    pub(crate) config: Config,
    pub(crate) places: Places,
    pub(crate) cells: Cells,
    pub(crate) hosted: Vec<Option<Hosting>>,
    pub(crate) running: ShardSet,
    pub(crate) existing: Vec<u32>,
    pub(crate) touched: ShardSet,
    pub(crate) restless: PlaceSet,
    pub(crate) holds: PhantomData<
        (
            Fact,
            Packet,
            Body,
            State,
            Slot,
            Message,
            Command,
            Ending,
            Stamp,
            Place,
        ),
    >,
}

impl Model for Shards {
    ghost use Rattle.std.specs.Prelude.{map};
    ghost use Rattle.std.specs.Option.{option_map};
    ghost use Rattle.yard_model.specs.Script.{setting};
    ghost use Rattle.shard_entities.specs.Lodged.{Lodged, hosted_of, room_of, cell_of};
    ghost use Rattle.shard_entities.specs.Ready.{IsWhole};

    ghost Value = { Lodged };

    ghost view = { λ e. record {
      script = e.script.value;
      state = record {
        who = e.who;
        set = setting e.script.value;
        version = e.version;
        hosted = map (option_map hosted_of) e.hosted.items;
        cells = map cell_of e.cells;
      };
      rooms = map room_of e.hosted.items;
    } };

    ghost invariant = { λ e. IsWhole e.script.value e.version e.who e.config e.places e.cells e.hosted.items e.running e.existing.items e.touched e.restless };
}

impl Shards {
    /// The entities of a node that comes up: it hosts no shard, and none was started. The only
    /// error is want of memory.
    pub(crate) fn new(
        alloc: Global,
        who: Incarnation,
        version: u8,
        charter: &Charter,
        places: &Places,
    ) -> Result<Shards, AllocError>
        requires version { is_version charter.now version ≡ true }
        requires places { places.now ≡ charter.now }
        ensures { IfOk result (λ e. e ≡ record { script = charter.now; state = new_entities (setting charter.now) version who; rooms = replicate charter.now.config.shards 0 }) }
    {
        let config = *charter.config();
        let count = charter.names().len();
        let places = places.share()?;
        let cells = Cells::new(alloc, count, config.producers, config.window)?;
        let hosted = none_hosted(alloc, config.shards)?;
        let existing = none_counted(alloc, config.shards)?;
        let restless = none_restless(alloc, &places)?;
        Ok(Shards {
            script: Snapshot::of(charter),
            who,
            version,
            config,
            places,
            cells,
            hosted,
            running: ShardSet::empty(),
            existing,
            touched: ShardSet::empty(),
            restless,
            holds: PhantomData,
        })
    }

    /// The store of a shard; None exactly where it isn't hosted.
    pub(crate) fn store(&self, s: ShardNo) -> Option<&ShardStore>
        requires shard { s < self.now.script.config.shards }
        ensures { MatchOption result (hosted self.now.state s ≡ None) (λ x. IsStore self.now s x.now) }
    {
        match &self.hosted[s.get() as usize] {
            Some(hosting) => Some(&hosting.store),
            None => None,
        }
    }

    /// Takes the store of a shard out, which isn't hosted then, as where it is freed; None exactly
    /// where it wasn't.
    pub(crate) fn take_shard(&mut self, s: ShardNo) -> Option<ShardStore>
        requires shard { s < self.old.script.config.shards }
        ensures state { (n : ℕ) (why : Cause) → self.new ≡ moved self.old (told (fact.Freed (slot.Shard s) n why) ∷ []) }
        ensures store { MatchOption result (hosted self.old.state s ≡ None) (IsStore self.old s) }
    {
        let running = self.running.without(s);
        self.running = running;
        match self.hosted[s.get() as usize].take() {
            Some(hosting) => Some(hosting.store),
            None => None,
        }
    }

    /// The shards that run.
    pub(crate) fn running(&self) -> ShardSet
        ensures { (s : ℕ) → s < self.now.script.config.shards → has result s ≡ is_running self.now.state s }
    {
        self.running
    }

    /// Where a name stands: looked for once a turn.
    pub(crate) fn find(&self, entity: &EntityName) -> Place
        requires name { list_any (is_name entity.now) (setting self.now.script).names ≡ true }
        ensures place { IsPlace self.now.script result }
        ensures entity { result.entity ≡ entity.now }
    {
        self.places.find(entity)
    }

    /// Where the name stands that has this place among all.
    pub(crate) fn place_at(&self, at: usize) -> Place
        requires within { at < length (setting self.now.script).names }
        ensures place { IsPlace self.now.script result }
        ensures entity { result.entity ≡ name_at (setting self.now.script).names at }
    {
        self.places.place_at(at)
    }

    /// The shards that are hosted.
    pub(crate) fn hosted(&self) -> ShardSet
        ensures { (s : ℕ) → s < self.now.script.config.shards → has result s ≡ is_hosted self.now.state s }
    {
        hosted_in(&self.hosted)
    }

    /// Takes the store of a shard out, which isn't hosted then, and none of its entities is left; None
    /// exactly where it wasn't.
    pub(crate) fn take_all(&mut self, s: ShardNo) -> Option<ShardStore>
        requires shard { s < self.old.script.config.shards }
        requires settled { IsSettled self.old }
        ensures state { self.new ≡ without self.old s }
        ensures store { MatchOption result (hosted self.old.state s ≡ None) (IsStore self.old s) }
        ensures settled { IsSettled self.new }
    {
        self.knows();
        let store = self.take_shard(s);
        self.clear_each(s);
        store
    }

    /// No entity of a shard is left.
    fn clear_each(&mut self, s: ShardNo)
        requires shard { s < self.old.script.config.shards }
        ensures { self.new ≡ cleared self.old (names_of (setting self.old.script) s) }
    {
        for k in 0..self.count(s) {
            let place = self.nth(s, k);
            self.clear(&place);
        }
    }

    /// Nothing is known of an entity any more.
    fn clear(&mut self, place: &Place)
        requires place { IsPlace self.old.script place.now }
        ensures { self.new ≡ cleared self.old (place.now.entity ∷ []) }
    {
        let was = self.exists(place);
        self.cells.clear(place.at);
        count_out(&mut self.existing[place.shard.get() as usize], was);
        note(&mut self.restless, &self.places, place, Phase::Absent);
    }

    /// Makes room in the store of each hosted shard for all that a turn may write there. The only
    /// error is want of memory; then no entry is lost, and no room.
    #[inline(always)]
    pub(crate) fn reserve(&mut self) -> Result<(), AllocError>
        ensures state { self.new ≡ record self.old { rooms = self.new.rooms } }
        ensures more { AreMore self.old.rooms self.new.rooms }
        ensures ok { OnOk result ((s : ℕ) → (hosted self.old.state s ≡ None → ⊥) → room_wanted self.old.script s ≤ slice_index_or self.new.rooms s 0) }
    {
        self.knows();
        reserve_touched(
            &mut self.hosted,
            &mut self.touched,
            &self.places,
            &self.config,
        )
    }

    /// Whose they are.
    pub(crate) fn who(&self) -> Incarnation
        ensures { result ≡ self.now.state.who }
    {
        self.who
    }

    /// Where an entity is between its start and its end.
    pub(crate) fn phase(&self, place: &Place) -> Phase
        requires place { IsPlace self.now.script place.now }
        ensures { result ≡ (cell self.now.state place.now.entity).phase }
    {
        self.cells.phase(place.at)
    }

    /// Whether it was started and hasn't stopped.
    pub(crate) fn exists(&self, place: &Place) -> bool
        requires place { IsPlace self.now.script place.now }
        ensures { result ≡ not (is_in_phase phase.Absent self.now.state place.now.entity) }
    {
        match self.phase(place) {
            Phase::Absent => false,
            _ => true,
        }
    }

    /// Whether no entity of a shard exists.
    pub(crate) fn is_empty(&self, s: ShardNo) -> bool
        requires { s < self.now.script.config.shards }
        ensures { result ≡ is_empty (entities_of self.now.state s) }
    {
        self.existing[s.get() as usize] == 0
    }

    /// Whether it takes commands.
    pub(crate) fn is_active(&self, place: &Place) -> bool
        requires place { IsPlace self.now.script place.now }
        ensures { result ≡ is_in_phase phase.Active self.now.state place.now.entity }
    {
        match self.phase(place) {
            Phase::Active => true,
            _ => false,
        }
    }

    /// Whether it asked for its stop.
    pub(crate) fn is_passivating(&self, place: &Place) -> bool
        requires place { IsPlace self.now.script place.now }
        ensures { result ≡ (cell self.now.state place.now.entity).passivating }
    {
        self.cells.is_passivating(place.at)
    }

    /// Whether it is remembered.
    pub(crate) fn is_remembered(&self, place: &Place) -> bool
        requires place { IsPlace self.now.script place.now }
        ensures { result ≡ is_remembered place.now.entity (entries self.now.state place.now.entity) }
    {
        match &self.hosted[place.shard.get() as usize] {
            Some(hosting) => hosting.store.is_remembered_at(place.inner, &place.entity),
            None => false,
        }
    }

    /// Whether its shard runs.
    pub(crate) fn is_running(&self, place: &Place) -> bool
        requires place { IsPlace self.now.script place.now }
        ensures { result ≡ is_running self.now.state (shard_of self.now.state.set place.now.entity) }
    {
        self.running.has(place.shard)
    }

    /// How many messages are stashed for it.
    pub(crate) fn stashed(&self, place: &Place) -> usize
        requires place { IsPlace self.now.script place.now }
        ensures count { result ≡ length (cell self.now.state place.now.entity).stash }
        ensures few { result ≤ self.now.script.config.window }
        ensures own { list_all (is_for self.now.script place.now.entity) (cell self.now.state place.now.entity).stash ≡ true }
    {
        self.cells.stashed(place.at)
    }

    /// Whether entities are remembered.
    pub(crate) fn remembers(&self) -> bool
        ensures { result ≡ self.now.script.config.remember }
    {
        self.config.remember
    }

    /// How many shards there are.
    pub(crate) fn shards(&self) -> u8
        ensures value { result ≡ self.now.script.config.shards }
        ensures few { result ≤ 128 }
    {
        self.config.shards
    }

    /// How many names a shard has.
    pub(crate) fn count(&self, s: ShardNo) -> usize
        requires { s < self.now.script.config.shards }
        ensures count { result ≡ length (names_of (setting self.now.script) s) }
        ensures names { result ≡ length (names_of self.now.state.set s) }
    {
        self.places.count(s)
    }

    /// The place of the name of a shard that stands there among its names.
    pub(crate) fn nth(&self, s: ShardNo, k: usize) -> Place
        requires shard { s < self.now.script.config.shards }
        requires within { k < length (names_of (setting self.now.script) s) }
        ensures place { IsPlace self.now.script result }
        ensures shard { result.shard ≡ s }
        ensures entity { result.entity ≡ name_at (names_of (setting self.now.script) s) k }
    {
        self.places.nth(s, k)
    }

    /// Whether one message more may be stashed for it.
    pub(crate) fn has_stash(&self, place: &Place) -> bool
        requires place { IsPlace self.now.script place.now }
        ensures { result ≡ nat_lt (length (cell self.now.state place.now.entity).stash) self.now.script.config.window }
    {
        self.cells.stashed(place.at) < self.config.window as usize
    }

    /// How its next write fails; None exactly where it isn't to fail.
    pub(crate) fn armed(&self, place: &Place) -> Option<Keep>
        requires place { IsPlace self.now.script place.now }
        ensures { result ≡ (cell self.now.state place.now.entity).armed }
    {
        self.cells.armed(place.at)
    }

    /// Up to which number a producer was asked.
    pub(crate) fn reach(&self, place: &Place, p: ProducerNo) -> u32
        requires place { IsPlace self.now.script place.now }
        requires producer { p ≤ self.now.script.config.producers }
        ensures { result ≡ slice_index_or (cell self.now.state place.now.entity).reach (p - 1) 0 }
    {
        self.cells.reach(place.at, p)
    }

    /// What its journal leads to, of one that takes commands.
    #[inline(always)]
    pub(crate) fn state(&self, place: &Place) -> &State
        requires place { IsPlace self.now.script place.now }
        requires active { (cell self.now.state place.now.entity).phase ≡ phase.Active }
        requires there { HasRoom self.now place.now.shard 0 }
        ensures value { result.now ≡ folded self.now.script.config.kind (journal place.now.entity (entries self.now.state place.now.entity)) }
        ensures valid { IsTrue (is_valid self.now.script.config.kind result.now) }
    {
        self.cells.state(place.at)
    }

    /// Of how many records a snapshot is due.
    pub(crate) fn snapshot_every(&self) -> u16
        ensures value { result ≡ self.now.script.config.snapshot }
        ensures some { 0 < result }
    {
        self.config.snapshot
    }

    /// How many messages are asked for at most.
    pub(crate) fn window(&self) -> u8
        ensures { result ≡ self.now.script.config.window }
    {
        self.config.window
    }
}

/// No shard is hosted.
fn none_hosted(alloc: Global, shards: u8) -> Result<Vec<Option<Hosting>>, AllocError>
    ensures { IfOk result (λ v. v.items ≡ replicate shards None) }
{
    let mut hosted = Vec::with_capacity(alloc, shards as usize)?;
    for _ in 0..shards {
        hosted.push_reserved(None);
    }
    Ok(hosted)
}

/// No entity of any shard exists.
fn none_counted(alloc: Global, shards: u8) -> Result<Vec<u32>, AllocError>
    ensures { IfOk result (λ v. v.items ≡ replicate shards 0) }
{
    let existing = vec![in alloc; 0u32; shards as usize]?;
    Ok(existing)
}

/// Which of these shards are hosted.
fn hosted_in(hosted: &Vec<Option<Hosting>>) -> ShardSet
    requires { length hosted.now.items ≤ 128 }
    ensures { (s : ℕ) → s < length hosted.now.items → has result s ≡ not (is_none (at hosted.now.items s)) }
{
    let mut all = ShardSet::empty();
    for s in 0..hosted.len() {
        if hosted[s].is_some() {
            all = all.with(shard_at(s as u8));
        }
    }
    all
}

/// Makes room in the store of each shard that was touched, if one was; none is then.
#[inline(always)]
fn reserve_touched(
    hosted: &mut Vec<Option<Hosting>>,
    touched: &mut ShardSet,
    places: &Places,
    config: &Config,
) -> Result<(), AllocError>
    requires script { IsScript places.now }
    requires shards { length hosted.old.items ≡ places.now.config.shards }
    requires config { config.now ≡ places.now.config }
    requires ready { AreReady places.now touched.old hosted.old.items }
    ensures kept { AreReserved hosted.old.items hosted.new.items }
    ensures ready { AreReady places.now touched.new hosted.new.items }
    ensures ok { OnOk result ((s : ℕ) → (at hosted.old.items s ≡ None → ⊥) → room_wanted places.now s ≤ room_of (at hosted.new.items s)) }
{
    match touched.lowest(config.shards) {
        Some(_) => reserve_each(hosted, touched, places, config),
        None => Ok(()),
    }
}

/// Makes room in the store of each shard that was touched, lowest first; none is then.
#[inline(never)]
fn reserve_each(
    hosted: &mut Vec<Option<Hosting>>,
    touched: &mut ShardSet,
    places: &Places,
    config: &Config,
) -> Result<(), AllocError>
    requires script { IsScript places.now }
    requires shards { length hosted.old.items ≡ places.now.config.shards }
    requires config { config.now ≡ places.now.config }
    requires ready { AreReady places.now touched.old hosted.old.items }
    ensures kept { AreReserved hosted.old.items hosted.new.items }
    ensures ready { AreReady places.now touched.new hosted.new.items }
    ensures ok { OnOk result ((s : ℕ) → (at hosted.old.items s ≡ None → ⊥) → room_wanted places.now s ≤ room_of (at hosted.new.items s)) }
{
    for _ in 0..config.shards {
        match touched.lowest(config.shards) {
            Some(s) => {
                reserve_shard(hosted, s, places, config)?;
                *touched = touched.without(s);
            }
            None => return Ok(()),
        }
    }
    Ok(())
}

/// Makes room in the store of one shard, where it is hosted.
fn reserve_shard(
    hosted: &mut Vec<Option<Hosting>>,
    s: ShardNo,
    places: &Places,
    config: &Config,
) -> Result<(), AllocError>
    requires script { IsScript places.now }
    requires shards { length hosted.old.items ≡ places.now.config.shards }
    requires config { config.now ≡ places.now.config }
    requires shard { s < places.now.config.shards }
    ensures kept { AreReserved hosted.old.items hosted.new.items }
    ensures ok { OnOk result (IsReady places.now s (at hosted.new.items s)) }
{
    let wanted = wanted(config, places.count(s));
    reserve_in(&mut hosted[s.get() as usize], wanted)
}

/// The store of a shard has so much room left: the shard is touched where a turn may want more.
#[inline(always)]
pub(crate) fn touch(
    touched: &mut ShardSet,
    s: ShardNo,
    spare: u32,
    places: &Places,
    config: &Config,
)
    requires script { IsScript places.now }
    requires config { config.now ≡ places.now.config }
    requires shard { s < places.now.config.shards }
    ensures ready { has touched.new s ≡ false → room_wanted places.now s ≤ spare }
    ensures others { (t : ℕ) → t ≢ s → has touched.new t ≡ has touched.old t }
{
    let wanted = wanted(config, places.count(s));
    if spare < wanted {
        *touched = touched.with(s);
    }
}

/// How many entries a turn may write to the store of a shard with so many names.
#[inline(always)]
fn wanted(config: &Config, names: usize) -> u32
    requires config { is_config config.now ≡ true }
    requires names { names ≤ 1000 }
    ensures { result ≡ room_for config.now names }
{
    let pairs = u32::from(config.producers) * names as u32;
    let pairs = if pairs < MOST_PAIRS {
        pairs
    } else {
        MOST_PAIRS
    };
    2 * (u32::from(config.buffer) + u32::from(config.window) + pairs) + TURN_ROOM
}
