//! A charter that is made in code, and a world that plays it.
ghost use Rattle.std.specs.Prelude.{◌≡◌, ◌≢◌, [], ◌∷◌, None, Some, IfOk, OnOk, slice_get};
ghost use Rattle.yard_model.specs.declared.event.Kind.TheVariants as kind;
ghost use Rattle.world_sim.specs.declared.fault.StepFault.TheVariants as fault;
ghost use Rattle.embedding.specs.Cluster.{cluster, GoesOn};

use behaviour_kinds::Counter;
use shard_store::Stores;
use std::alloc::{AllocError, Global};
use std::io;
use trace_notes::Told;
use world_sim::{StepFault, World};
use yard_model::{
    Charter, Command, Config, EntityName, Facts, Kind, Line, Lists, NodeNo, Order, ProducerNo,
    ShardEntry, ShardNo,
};

/// The name of a counter.
fn counter() -> EntityName
    ensures { result ≡ 99 ∷ 49 ∷ [] }
{
    let Some(name) = EntityName::new(b"c1") else {
        unreachable!()
    };
    name
}

/// The first producer.
fn producer() -> ProducerNo
    ensures { result ≡ 1 }
{
    let Some(p) = ProducerNo::new(1) else {
        unreachable!()
    };
    p
}

/// Two nodes, one shard, and one producer, which sends the counter a command. The only error is want of
/// memory.
pub(crate) fn charter(alloc: Global) -> Result<Charter, AllocError>
    ensures { IfOk result (λ c. c ≡ cluster) }
{
    charter_of(alloc, producer(), NodeNo::FIRST, counter())
}

/// The same, of this producer, this node and this counter.
fn charter_of(
    alloc: Global,
    p: ProducerNo,
    node: NodeNo,
    name: EntityName,
) -> Result<Charter, AllocError>
    requires producer { p ≡ 1 }
    requires node { node ≡ 1 }
    requires name { name ≡ 99 ∷ 49 ∷ [] }
    ensures { IfOk result (λ c. c ≡ cluster) }
{
    let config = Config {
        nodes: 2,
        shards: 1,
        producers: 1,
        buffer: 100,
        window: 4,
        snapshot: 100,
        keep: 2,
        remember: false,
        kind: Kind::Counter,
    };
    let mut orders = Vec::new(alloc);
    orders.push(Line {
        number: 1,
        order: Order::Up(node),
    })?;
    orders.push(Line {
        number: 2,
        order: Order::Produce(p, node),
    })?;
    orders.push(Line {
        number: 3,
        order: Order::Send(p, name, Command::Add(5)),
    })?;
    orders.push(Line {
        number: 4,
        order: Order::Settle,
    })?;
    Charter::new(alloc, config, orders)
}

/// Plays the next order and tells its facts; whether the trace goes on. The only error is want of memory.
fn play_next(
    world: &mut World<Counter>,
    line: &Line,
    facts: &mut Told<Facts>,
) -> Result<bool, AllocError>
    requires new { world.old.given ≡ None }
    requires going { world.old.fault ≡ None }
    requires next { slice_get world.old.script.orders world.old.count ≡ Some line.now }
    ensures { IfOk result (λ on. GoesOn world.old on world.new) }
{
    match world.step(line, facts) {
        Ok(()) => Ok(true),
        Err(StepFault::WireFull) => Ok(false),
        Err(StepFault::OutOfMemory) => Err(AllocError),
    }
}

/// Plays the orders one after the other. The only error is want of memory.
fn play(world: &mut World<Counter>, facts: &mut Told<Facts>) -> Result<(), AllocError>
    requires { world.old ≡ record { script = world.old.script; given = None; count = 0; fault = None } }
    ensures { OnOk result (world.new.fault ≢ Some fault.OutOfMemory) }
{
    for k in 0..world.orders().len() {
        let line = world.orders()[k];
        if !play_next(world, &line, facts)? {
            return Ok(());
        }
    }
    Ok(())
}

/// What the charter comes to: its facts are told, and the stores are left. The only error is want of memory.
fn played(alloc: Global, charter: &Charter, facts: &mut Told<Facts>) -> Result<Stores, AllocError>
    requires { charter.now.config.kind ≡ kind.Counter }
{
    let mut world = World::new(alloc, charter, Counter::new())?;
    match play(&mut world, facts) {
        Ok(()) => {
            let (last, stores) = world.into_stores()?;
            drop(last);
            Ok(stores)
        }
        Err(error) => {
            drop(world);
            Err(error)
        }
    }
}

/// Tells the records in the list of the first shard.
fn tell_records(rt: &impl Print, stores: &Stores) -> io::Result<()> {
    let Some(shard) = ShardNo::new(0, 1) else {
        unreachable!()
    };
    for entry in stores.shard(shard) {
        if let ShardEntry::Wrote(_, record) = entry {
            println!(rt; "record {}, of epoch {}", record.number, record.epoch)?;
        }
    }
    Ok(())
}

/// Tells how many facts there are, and the records.
fn tell_end(rt: &impl Print, facts: &Told<Facts>, stores: &Stores) -> io::Result<()> {
    println!(rt; "{} facts", facts.as_slice().len())?;
    tell_records(rt, stores)
}

/// Plays the charter, and tells what came of it.
pub(crate) fn tell(rt: &(impl AllocGlobal + Print)) -> io::Result<()> {
    let alloc = rt.alloc();
    let charter = charter(alloc)?;
    let mut facts = Told::new(Facts::new(alloc));
    let stores = played(alloc, &charter, &mut facts);
    drop(charter);
    let stores = stores?;
    let told = tell_end(rt, &facts, &stores);
    drop(stores);
    told
}
