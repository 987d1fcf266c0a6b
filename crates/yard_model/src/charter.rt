//! What a script says: its settings and its orders.
ghost use Rattle.std.specs.Prelude.{◌≡◌, ℕ, ◌+◌, ◌-◌, ◌<◌, ◌≤◌, List, [], ◌∷◌, ◌++◌, IfOk, OnOk, length, map, replicate, slice_set, slice_index_or};
ghost use Rattle.std.specs.Arc.{arc_value};
ghost use Rattle.std.specs.Ordering.{nat_cmp};
ghost use Rattle.std.specs.Cmp.Lexicographic.{slice_cmp};
ghost use Rattle.std.specs.List.Sorted.{IsStrictlySortedBy};
ghost use Rattle.yard_model.specs.Genuine.{is_slot_of};
ghost use Rattle.yard_model.specs.Grown.{with_lines};
ghost use Rattle.yard_model.specs.Script.{names_in, sends, with_shards, IsScript};
ghost use Rattle.yard_model.specs.Charter.{IsCharter, KeepsSends};
ghost use Rattle.yard_model.specs.Counts.{names, CountsNone};
ghost use Rattle.yard_model.specs.Words.{numbers};

use crate::counts::Counts;
use crate::event::{Command, Kind};
use crate::incarnation::{Keep, Slot};
use crate::name::EntityName;
use crate::name_list::NameList;
use crate::number::{NodeNo, ProducerNo};
use std::alloc::{AllocError, Global};
use std::marker::{Model, PhantomData};
use std::sync::Arc;

/// The settings of a script.
#[derive(Clone, Copy, Debug, PartialEq, Eq)]
pub struct Config {
    /// How many nodes there can be, 1 to 16.
    pub nodes: u8,
    /// How many shards the entities are grouped in, 1 to 128.
    pub shards: u8,
    /// How many producers there are, 1 to 32.
    pub producers: u8,
    /// How many messages a region keeps in all, 1 to 1000.
    pub buffer: u16,
    /// How many numbers past the last record a producer may send, and how many messages an entity
    /// stashes, 1 to 64.
    pub window: u8,
    /// After how many records of an entity a snapshot is taken, 1 to 10000.
    pub snapshot: u16,
    /// How many snapshots of an entity stay, 1 to 10.
    pub keep: u8,
    /// Whether entities start again with their shard.
    pub remember: bool,
    /// The kind of every entity.
    pub kind: Kind,
}

/// An order of a script.
#[derive(Clone, Copy, Debug, PartialEq, Eq)]
pub enum Order {
    /// Start a node.
    Up(NodeNo),
    /// Stop a node.
    Crash(NodeNo),
    /// Tell a node to leave the cluster.
    Leave(NodeNo),
    /// Give a node its timer.
    Tick(NodeNo),
    /// Let a node take a producer's queue.
    Produce(ProducerNo, NodeNo),
    /// Let the holder of a producer's queue give it back.
    Rest(ProducerNo),
    /// Let a producer send a command to an entity.
    Send(ProducerNo, EntityName, Command),
    /// Let an entity ask for its stop.
    Passivate(EntityName),
    /// Let the next write of an entity fail.
    FailWrite(EntityName, Keep),
    /// Deliver the packet of this number, 1 to 1,000,000.
    Deliver(u32),
    /// Deliver the next packets that were never delivered, 1 to 10,000 of them.
    Pump(u16),
    /// Let the coordinator move up to so many shards, 1 to 128.
    Rebalance(u8),
    /// Start the cluster anew on one node, and run it until all is recorded and confirmed.
    Settle,
    /// Change the number of shards, to 1 to 128.
    Reshard(u8),
    /// Go over to version 2 of the behaviours.
    Upgrade,
    /// Let a producer send a command to each instance of a daemon.
    Ping(ProducerNo),
}

/// An order and the number of its line, from 1.
#[derive(Clone, Copy, Debug, PartialEq, Eq)]
pub struct Line {
    /// The line.
    pub number: u32,
    /// What it says.
    pub order: Order,
}

/// A command that a producer sends.
#[derive(Clone, Copy, Debug, PartialEq, Eq)]
pub struct Sending {
    /// To whom.
    pub entity: EntityName,
    /// Its number among those of this producer to this entity, from 1.
    pub number: u32,
    /// The command.
    pub command: Command,
}

/// A script that has been read; seen as its settings and its orders. It keeps at hand the names
/// and the sends that the orders bring.
#[derive(Drop)]
pub struct Charter {
    config: Config,
    names: NameList,
    kept: Arc<Kept, Global>,
    holds: PhantomData<(Order, Command)>,
}

/// What all charters of these orders share: the sends of each producer that there can be, and how many
/// each has to each name. No invariant of it holds while memory may fail, so it is said in clauses.
#[derive(Drop)]
struct Kept {
    orders: Vec<Line>,
    sends: Vec<Vec<Sending>>,
    counts: Counts,
}

impl Model for Charter {
    ghost use Rattle.std.specs.Prelude.{map};
    ghost use Rattle.std.specs.Arc.{arc_value};
    ghost use Rattle.yard_model.specs.Script.{Script};
    ghost use Rattle.yard_model.specs.Charter.{IsCharter};

    ghost Value = { Script };

    ghost view = { λ c. record { config = c.config; orders = (arc_value c.kept).orders.items } };

    ghost invariant = { λ c. IsCharter (record { config = c.config; orders = (arc_value c.kept).orders.items }) c.names (map (λ v. v.items) (arc_value c.kept).sends.items) (arc_value c.kept).counts };
}

impl Charter {
    /// The charter of these settings and orders. The only error is want of memory.
    pub fn new(alloc: Global, config: Config, orders: Vec<Line>) -> Result<Charter, AllocError>
        requires { IsScript (record { config = config; orders = orders.items }) }
        ensures { IfOk result (λ c. c ≡ record { config = config; orders = orders.items }) }
    {
        let kept = kept_of(alloc, orders)?;
        with_names(alloc, config, kept)
    }

    /// The charter of these orders behind its own. Lists that nobody shares aren't copied. The only error is
    /// want of memory; the charter is gone then.
    pub fn and_sends(self, alloc: Global, lines: &[Line]) -> Result<Charter, AllocError>
        requires { IsScript (with_lines self lines.now) }
        ensures { IfOk result (λ c. c ≡ with_lines self lines.now) }
    {
        let Charter {
            config,
            names,
            kept,
            holds: _,
        } = self;
        drop(names);
        let kept = owned(alloc, kept)?;
        grown(alloc, config, kept, lines)
    }

    /// An equal charter, which shares its lists with this one. The only error is that there are too many to
    /// count that share them.
    pub fn copy(&self) -> Result<Charter, AllocError>
        ensures { IfOk result (λ c. c ≡ self.now) }
    {
        self.with_config(self.config)
    }

    /// The charter of the same orders with so many shards, which shares its lists with this one. The only
    /// error is that there are too many to count that share them.
    pub fn with_shards(&self, shards: u8) -> Result<Charter, AllocError>
        requires low { 1 ≤ shards }
        requires high { shards ≤ 128 }
        ensures { IfOk result (λ c. c ≡ with_shards shards self.now) }
    {
        self.with_config(Config {
            shards,
            ..self.config
        })
    }

    /// The charter of the same orders with these settings.
    fn with_config(&self, config: Config) -> Result<Charter, AllocError>
        requires { IsScript (record { config = config; orders = self.now.orders }) }
        ensures { IfOk result (λ c. c ≡ record { config = config; orders = self.now.orders }) }
    {
        Ok(Charter {
            config,
            names: self.names.share()?,
            kept: Arc::try_clone(&self.kept)?,
            holds: PhantomData,
        })
    }

    /// The settings.
    pub fn config(&self) -> &Config
        ensures value { result.now ≡ self.now.config }
        ensures script { IsScript self.now }
    {
        &self.config
    }

    /// The orders, in script order.
    pub fn orders(&self) -> &[Line]
        ensures value { result.now ≡ self.now.orders }
        ensures script { IsScript self.now }
    {
        self.kept.orders.as_slice()
    }

    /// Whether it has this slot.
    pub fn has_slot(&self, slot: &Slot) -> bool
        ensures { result ≡ is_slot_of self.now slot.now }
    {
        let config = self.config();
        match *slot {
            Slot::Shard(s) => s.get() < config.shards,
            Slot::Coordinator => true,
            Slot::Queue(p) => 1 <= p.get() && p.get() <= config.producers,
        }
    }

    /// The names that the orders bring, each once, in the order of their bytes.
    pub fn names(&self) -> &[EntityName]
        ensures value { result.now ≡ names_in self.now.orders }
        ensures sorted { IsStrictlySortedBy (slice_cmp nat_cmp) result.now }
    {
        self.names.as_slice()
    }

    /// The same, to be shared.
    pub fn name_list(&self) -> &NameList
        ensures { result.now ≡ names_in self.now.orders }
    {
        &self.names
    }

    /// The sends of a producer, in script order; none of a producer that isn't there.
    pub fn sends(&self, p: ProducerNo) -> &[Sending]
        ensures { result.now ≡ sends self.now p }
    {
        let place = p.get() as usize - 1;
        self.kept.sends[place].as_slice()
    }
}

/// What is kept of these orders. The only error is want of memory.
fn kept_of(alloc: Global, orders: Vec<Line>) -> Result<Kept, AllocError>
    requires { length orders.items ≤ 3000000 }
    ensures orders { IfOk result (λ k. k.orders.items ≡ orders.items) }
    ensures keeps { IfOk result (λ k. KeepsSends k.counts (map (λ v. v.items) k.sends.items) orders.items) }
{
    let mut counts = Counts::new(alloc);
    let sends = sends_of_all(alloc, &mut counts, orders.as_slice())?;
    Ok(Kept {
        orders,
        sends,
        counts,
    })
}

/// What a charter keeps, where no other keeps it, and else the same made anew. The only error is want of
/// memory.
fn owned(alloc: Global, kept: Arc<Kept, Global>) -> Result<Kept, AllocError>
    requires few { length (arc_value kept).orders.items ≤ 3000000 }
    requires keeps { KeepsSends (arc_value kept).counts (map (λ v. v.items) (arc_value kept).sends.items) (arc_value kept).orders.items }
    ensures orders { IfOk result (λ k. k.orders.items ≡ (arc_value kept).orders.items) }
    ensures keeps { IfOk result (λ k. KeepsSends k.counts (map (λ v. v.items) k.sends.items) (arc_value kept).orders.items) }
{
    match Arc::try_unwrap(kept) {
        Ok(kept) => Ok(kept),
        Err(shared) => kept_of(alloc, Vec::from_slice(alloc, shared.orders.as_slice())?),
    }
}

/// The charter of these orders and of more behind them. The only error is want of memory.
fn grown(alloc: Global, config: Config, kept: Kept, lines: &[Line]) -> Result<Charter, AllocError>
    requires script { IsScript (with_lines (record { config = config; orders = kept.orders.items }) lines.now) }
    requires keeps { KeepsSends kept.counts (map (λ v. v.items) kept.sends.items) kept.orders.items }
    ensures { IfOk result (λ c. c ≡ with_lines (record { config = config; orders = kept.orders.items }) lines.now) }
{
    let mut kept = kept;
    match add_lines(&mut kept, lines) {
        Ok(()) => with_names(alloc, config, kept),
        Err(error) => {
            drop(kept);
            Err(error)
        }
    }
}

/// Orders more. The only error is want of memory.
fn add_lines(kept: &mut Kept, lines: &[Line]) -> Result<(), AllocError>
    requires few { length kept.old.orders.items + length lines.now ≤ 3000000 }
    requires keeps { KeepsSends kept.old.counts (map (λ v. v.items) kept.old.sends.items) kept.old.orders.items }
    ensures orders { OnOk result (kept.new.orders.items ≡ kept.old.orders.items ++ lines.now) }
    ensures keeps { OnOk result (KeepsSends kept.new.counts (map (λ v. v.items) kept.new.sends.items) kept.new.orders.items) }
{
    for line in lines {
        add_order(&mut kept.sends, &mut kept.counts, &line.order)?;
        kept.orders.push(*line)?;
    }
    Ok(())
}

/// The charter of what is kept. The only error is want of memory.
fn with_names(alloc: Global, config: Config, kept: Kept) -> Result<Charter, AllocError>
    requires script { IsScript (record { config = config; orders = kept.orders.items }) }
    requires keeps { KeepsSends kept.counts (map (λ v. v.items) kept.sends.items) kept.orders.items }
    ensures { IfOk result (λ c. c ≡ record { config = config; orders = kept.orders.items }) }
{
    match names_of(alloc, &kept.counts) {
        Ok(names) => made(alloc, config, names, kept),
        Err(error) => {
            drop(kept);
            Err(error)
        }
    }
}

/// The names that are counted. The only error is want of memory.
fn names_of(alloc: Global, counts: &Counts) -> Result<NameList, AllocError>
    ensures { IfOk result (λ n. n ≡ names counts.now) }
{
    NameList::new(alloc, counts.to_names(alloc)?)
}

/// The charter of these names and of what is kept. The only error is want of memory.
fn made(alloc: Global, config: Config, names: NameList, kept: Kept) -> Result<Charter, AllocError>
    requires { IsCharter (record { config = config; orders = kept.orders.items }) names (map (λ v. v.items) kept.sends.items) kept.counts }
    ensures { IfOk result (λ c. c ≡ record { config = config; orders = kept.orders.items }) }
{
    match Arc::new(alloc, kept) {
        Ok(kept) => Ok(Charter {
            config,
            names,
            kept,
            holds: PhantomData,
        }),
        Err(_) => {
            drop(names);
            Err(AllocError)
        }
    }
}

/// The sends of each producer that there can be. The counts are those of no orders, and come to be
/// those of these.
fn sends_of_all(
    alloc: Global,
    counts: &mut Counts,
    orders: &[Line],
) -> Result<Vec<Vec<Sending>>, AllocError>
    requires few { length orders.now ≤ 3000000 }
    requires none { CountsNone counts.old }
    ensures { IfOk result (λ all. KeepsSends counts.new (map (λ v. v.items) all.items) orders.now) }
{
    let mut all = no_sends(alloc, &sends_of_each(orders))?;
    for line in orders {
        add_order(&mut all, counts, &line.order)?;
    }
    Ok(all)
}

/// How many sends each producer has, at its number.
fn sends_of_each(orders: &[Line]) -> [usize; 33] {
    let mut counts = [0usize; 33];
    for line in orders {
        if let Order::Send(producer, _, _) = &line.order {
            let place = producer.get() as usize;
            counts[place] = counts[place].saturating_add(1);
        }
    }
    counts
}

/// No sends of each producer that there can be, with room for so many of each, at its number.
fn no_sends(alloc: Global, room: &[usize; 33]) -> Result<Vec<Vec<Sending>>, AllocError>
    ensures { IfOk result (λ all. map (λ v. v.items) all.items ≡ replicate 32 []) }
{
    let mut all = Vec::with_capacity(alloc, 32)?;
    for place in 0..32usize {
        all.push(Vec::with_capacity(alloc, room[place + 1])?)?;
    }
    Ok(all)
}

/// One order more.
fn add_order(
    all: &mut Vec<Vec<Sending>>,
    counts: &mut Counts,
    order: &Order,
) -> Result<(), AllocError>
    requires { length all.old.items ≡ 32 }
    ensures all { length all.new.items ≡ 32 }
    ensures keeps { OnOk result ((done : List Line) (number : ℕ) → length done < 3000000 → KeepsSends counts.old (map (λ v. v.items) all.old.items) done
        → KeepsSends counts.new (map (λ v. v.items) all.new.items) (done ++ record { number = number; order = order.now } ∷ [])) }
{
    match order {
        Order::Send(producer, entity, command) => {
            let number = counts.add(*producer, entity)?;
            let sending = Sending {
                entity: *entity,
                number,
                command: *command,
            };
            add_send(all, *producer, &sending)
        }
        Order::Passivate(entity) => {
            counts.add_name(entity)?;
            Ok(())
        }
        Order::FailWrite(entity, _) => {
            counts.add_name(entity)?;
            Ok(())
        }
        _ => Ok(()),
    }
}

/// One send more of this producer.
fn add_send(
    all: &mut Vec<Vec<Sending>>,
    producer: ProducerNo,
    sending: &Sending,
) -> Result<(), AllocError>
    requires { length all.old.items ≡ 32 }
    ensures all { length all.new.items ≡ 32 }
    ensures sends { OnOk result (map (λ v. v.items) all.new.items ≡ slice_set (map (λ v. v.items) all.old.items) (producer - 1)
        (slice_index_or (map (λ v. v.items) all.old.items) (producer - 1) [] ++ sending.now ∷ [])) }
    ensures range { (0 < producer) × (producer ≤ 32) }
{
    let place = producer.get() as usize - 1;
    all[place].push(*sending)?;
    Ok(())
}
