//! The engine of `solo`: one incarnation that numbers sends and records what is delivered.
ghost use Rattle.std.specs.Prelude.{◌≡◌, ◌+◌, ◌-◌, ◌<◌, ◌≤◌, ℕ, List, [], ◌∷◌, ◌++◌, length, map, slice_set, slice_index_or, IfOk, OnOk, IsTrue, slice_get, fold};
ghost use Rattle.std.specs.List.{list_all};
ghost use Rattle.yard_model.specs.Behaviour.{is_of_kind};
ghost use Rattle.yard_model.specs.Limits.{most_orders};
ghost use Rattle.yard_model.specs.Shard.{shard};
ghost use Rattle.yard_model.specs.Solo.{next_message, after_order, after_line, alone, start};
ghost use Rattle.yard_model.specs.SlotReads.{journal};
ghost use Rattle.solo_run.specs.Knowledge.{KnowsAll};
ghost use Rattle.solo_run.specs.Facts.{facts_of, with_fact, with_taken, with_one, held, state_of, bare};
ghost use Rattle.yard_model.specs.declared.entry.ShardEntry.TheVariants as entry;
ghost use Rattle.yard_model.specs.Words.{numbers};
ghost use Rattle.yard_model.specs.Script.{is_order};
ghost use Rattle.yard_model.specs.declared.fact.Fact.TheVariants as fact;

use crate::entities::Entities;
use crate::posts::Posts;
use behaviour_core::Behaviour;
use shard_extract::shard_of;
use std::alloc::{AllocError, Global};
use yard_model::{
    Command, Config, CoordEntry, EntityName, Incarnation, Line, Lists, Message, NodeNo, Order,
    ProducerNo, QueueEntry, Record, ShardEntry, ShardNo,
};

/// The one incarnation, which posts to itself and holds every shard.
const ALONE: Incarnation = Incarnation {
    node: NodeNo::FIRST,
    number: 1,
};

/// What was posted, what is known of each entity, and the list of each shard.
#[derive(Drop)]
pub struct Engine {
    pub config: Config,
    pub posted: Posts,
    pub entities: Entities,
    pub lists: Vec<Vec<ShardEntry>>,
}

impl Engine {
    /// An engine that holds every shard and to which nothing was posted, with room for so many orders.
    /// The only error is want of memory.
    pub fn new(alloc: Global, config: &Config, orders: usize) -> Result<Engine, AllocError>
        requires some { 1 ≤ config.now.shards }
        requires most { config.now.shards ≤ 128 }
        ensures knows { IfOk result (λ e. KnowsAll e.config e.posted (facts_of e.lists.items) e.entities) }
        ensures posted { IfOk result (λ e. e.posted ≡ []) }
        ensures lists { IfOk result (λ e. facts_of e.lists.items ≡ map held (numbers 0 config.now.shards)) }
        ensures config { IfOk result (λ e. e.config ≡ config.now) }
    {
        let lists = held_lists(alloc, config.shards, orders / config.shards as usize)?;
        let posted = Posts::with_room(alloc, orders)?;
        Ok(Engine {
            config: *config,
            posted,
            entities: Entities::new(alloc),
            lists,
        })
    }

    /// Carries out these orders, the first that the engine gets. The only error is want of memory.
    pub fn play<B: Behaviour>(
        &mut self,
        alloc: Global,
        lines: &[Line],
        behaviour: &B,
    ) -> Result<(), AllocError>
        requires knows { KnowsAll self.old.config self.old.posted (facts_of self.old.lists.items) self.old.entities }
        requires kind { B.kind_of behaviour.now ≡ self.old.config.kind }
        requires version { B.version_of behaviour.now ≡ 1 }
        requires posted { self.old.posted ≡ [] }
        requires lists { facts_of self.old.lists.items ≡ map held (numbers 0 self.old.config.shards) }
        requires orders { IsTrue (list_all (λ l. is_order self.old.config l.order) lines.now) }
        requires fits { length lines.now ≤ most_orders }
        ensures state { OnOk result (state_of self.old.config self.new.posted (facts_of self.new.lists.items)
            ≡ fold (after_line (bare self.old.config)) (start (bare self.old.config)) lines.now) }
        ensures config { self.new.config ≡ self.old.config }
    {
        for line in lines {
            self.order(alloc, &line.order, behaviour)?;
        }
        Ok(())
    }

    /// Carries out one order; `solo` knows sends and deliveries. The only error is want of memory.
    pub fn order<B: Behaviour>(
        &mut self,
        alloc: Global,
        order: &Order,
        behaviour: &B,
    ) -> Result<(), AllocError>
        requires knows { KnowsAll self.old.config self.old.posted (facts_of self.old.lists.items) self.old.entities }
        requires kind { B.kind_of behaviour.now ≡ self.old.config.kind }
        requires version { B.version_of behaviour.now ≡ 1 }
        requires order { IsTrue (is_order self.old.config order.now) }
        requires posts { length self.old.posted < most_orders }
        requires room { (e : List ℕ) → length (journal e (slice_index_or (facts_of self.old.lists.items) (shard self.old.config.shards e) [])) < 4294967295 }
        ensures knows { OnOk result (KnowsAll self.new.config self.new.posted (facts_of self.new.lists.items) self.new.entities) }
        ensures state { OnOk result (state_of self.old.config self.new.posted (facts_of self.new.lists.items)
            ≡ after_order (bare self.old.config) (state_of self.old.config self.old.posted (facts_of self.old.lists.items)) order.now) }
        ensures config { self.new.config ≡ self.old.config }
    {
        match order {
            Order::Send(producer, entity, command) => self.send(alloc, *producer, entity, command),
            Order::Deliver(number) => self.deliver(alloc, *number, behaviour),
            _ => Ok(()),
        }
    }

    /// Delivers the posted message of this number, from 1, if it is there.
    fn deliver<B: Behaviour>(
        &mut self,
        alloc: Global,
        number: u32,
        behaviour: &B,
    ) -> Result<(), AllocError>
        requires knows { KnowsAll self.old.config self.old.posted (facts_of self.old.lists.items) self.old.entities }
        requires kind { B.kind_of behaviour.now ≡ self.old.config.kind }
        requires version { B.version_of behaviour.now ≡ 1 }
        requires number { 0 < number }
        requires room { (e : List ℕ) → length (journal e (slice_index_or (facts_of self.old.lists.items) (shard self.old.config.shards e) [])) < 4294967295 }
        ensures knows { OnOk result (KnowsAll self.new.config self.new.posted (facts_of self.new.lists.items) self.new.entities) }
        ensures posted { self.new.posted ≡ self.old.posted }
        ensures lists { OnOk result (facts_of self.new.lists.items ≡ with_one (slice_get self.old.posted (number - 1)) self.old.config (facts_of self.old.lists.items)) }
        ensures config { self.new.config ≡ self.old.config }
    {
        match self.posted.at(number) {
            Some(message) => self.take(alloc, &message, behaviour),
            None => Ok(()),
        }
    }

    /// Numbers a command and posts it. The only error is want of memory.
    pub fn send(
        &mut self,
        alloc: Global,
        producer: ProducerNo,
        entity: &EntityName,
        command: &Command,
    ) -> Result<(), AllocError>
        requires knows { KnowsAll self.old.config self.old.posted (facts_of self.old.lists.items) self.old.entities }
        requires command { IsTrue (is_of_kind self.old.config.kind command.now) }
        requires room { length self.old.posted < most_orders }
        ensures knows { OnOk result (KnowsAll self.new.config self.new.posted (facts_of self.new.lists.items) self.new.entities) }
        ensures posted { OnOk result (self.new.posted ≡ self.old.posted ++ next_message self.old.posted producer entity.now command.now ∷ []) }
        ensures lists { OnOk result (self.new.lists ≡ self.old.lists) }
        ensures config { self.new.config ≡ self.old.config }
    {
        let place = self.entities.place(alloc, self.config.kind, entity)?;
        let known = &mut self.entities.kept[place];
        let number = known.send(producer);
        let message = Message {
            producer,
            entity: *entity,
            number,
            command: *command,
            origin: ALONE,
        };
        self.posted.post(&message)
    }

    /// Delivers a posted message: it is recorded where it is the next of its pair. The only error
    /// is want of memory.
    pub fn take<B: Behaviour>(
        &mut self,
        alloc: Global,
        message: &Message,
        behaviour: &B,
    ) -> Result<(), AllocError>
        requires knows { KnowsAll self.old.config self.old.posted (facts_of self.old.lists.items) self.old.entities }
        requires kind { B.kind_of behaviour.now ≡ self.old.config.kind }
        requires version { B.version_of behaviour.now ≡ 1 }
        requires command { IsTrue (is_of_kind self.old.config.kind message.now.command) }
        requires room { (e : List ℕ) → length (journal e (slice_index_or (facts_of self.old.lists.items) (shard self.old.config.shards e) [])) < 4294967295 }
        ensures knows { OnOk result (KnowsAll self.new.config self.new.posted (facts_of self.new.lists.items) self.new.entities) }
        ensures posted { self.new.posted ≡ self.old.posted }
        ensures lists { OnOk result (facts_of self.new.lists.items ≡ with_taken self.old.config (facts_of self.old.lists.items) message.now) }
        ensures config { self.new.config ≡ self.old.config }
    {
        let place = self
            .entities
            .place(alloc, self.config.kind, &message.entity)?;
        let known = &mut self.entities.kept[place];
        let taken = known.take(message, behaviour);
        match taken {
            Some(entry) => push_record(
                &mut self.lists,
                self.config.shards,
                &message.entity,
                &entry,
            ),
            None => Ok(()),
        }
    }
}

/// The list of a shard that is held and has no records, with room for so many entries.
fn held_list(alloc: Global, room: usize) -> Result<Vec<ShardEntry>, AllocError>
    ensures { IfOk result (λ list. list.items ≡ entry.Granted 1 alone ∷ []) }
{
    let mut list = Vec::with_capacity(alloc, room)?;
    list.push(ShardEntry::Granted(1, ALONE))?;
    Ok(list)
}

/// The lists of so many shards that are held and have no records, each with room for so many entries.
fn held_lists(alloc: Global, shards: u8, room: usize) -> Result<Vec<Vec<ShardEntry>>, AllocError>
    ensures { IfOk result (λ lists. facts_of lists.items ≡ map held (numbers 0 shards)) }
{
    let mut lists = Vec::new(alloc);
    for _ in 0..shards {
        lists.push(held_list(alloc, room)?)?;
    }
    Ok(lists)
}

/// Appends a record to the list of its entity's shard.
fn push_record(
    lists: &mut Vec<Vec<ShardEntry>>,
    shards: u8,
    entity: &EntityName,
    entry: &Record,
) -> Result<(), AllocError>
    requires wide { length lists.old.items ≡ shards }
    requires some { 1 ≤ shards }
    requires most { shards ≤ 128 }
    ensures { OnOk result (facts_of lists.new.items ≡ with_fact (shard shards entity.now) (fact.Wrote entity.now entry.now) (facts_of lists.old.items)) }
{
    let place = shard_of(entity, shards).get() as usize;
    let list = &mut lists[place];
    list.push(ShardEntry::Wrote(*entity, *entry))?;
    Ok(())
}
