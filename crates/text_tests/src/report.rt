//! The report as JSON, of a counter that was told to add 5: as a value, and spelled at once.
ghost use Rattle.std.specs.Prelude.{◌≡◌, IfOk, IsTrue, codes};
ghost use Rattle.text_tests.specs.Sample.{sample_list, sample_script};
ghost use Rattle.trace_text.specs.Foldable.{is_foldable_in_all};
ghost use Rattle.yard_model.specs.Script.{setting};

use std::alloc::{AllocError, Global};
use std::process::Abort;
use std::test::Fail;
use trace_text::{push_json, report_value};
use yard_model::{
    Charter, Command, Config, CoordEntry, EntityName, Event, Events, Kind, Line, Lists, Order,
    ProducerNo, QueueEntry, Record, Reply, ShardEntry, ShardNo,
};

const SETTINGS: Config = Config {
    nodes: 3,
    shards: 1,
    producers: 2,
    buffer: 100,
    window: 50,
    snapshot: 100,
    keep: 2,
    remember: false,
    kind: Kind::Counter,
};

const JSON: &str =
    "{\"entities\":[{\"name\":\"c1\",\"records\":[{\"by\":[1,1],\"command\":\"add 5\",\"epoch\":1,\"events\":[\"added 5\"],\"number\":1,\"reply\":\"ok 5\"}],\"shard\":0,\"state\":\"5\"}],\"queues\":[{\"confirmed\":1,\"entity\":\"c1\",\"producer\":1,\"queued\":1}]}";

/// The list of shard 0 and that of producer 1's queue.
#[derive(Drop)]
struct TwoLists {
    shard: Vec<ShardEntry>,
    queue: Vec<QueueEntry>,
}

impl Lists for TwoLists {
    ghost use Rattle.std.specs.Prelude.{[], ◌∷◌, map};
    ghost use Rattle.yard_model.specs.Entry.{shard_fact, queue_fact};

    ghost lists = { λ t. record { shards = map (shard_fact 0) t.shard.items ∷ []; coordinator = []; queues = map (queue_fact 1) t.queue.items ∷ [] } };

    fn shard(&self, s: ShardNo) -> &[ShardEntry] {
        if s.get() == 0 {
            self.shard.as_slice()
        } else {
            &[]
        }
    }

    fn coordinator(&self) -> &[CoordEntry] {
        &[]
    }

    fn queue(&self, p: ProducerNo) -> &[QueueEntry] {
        if p.get() == 1 {
            self.queue.as_slice()
        } else {
            &[]
        }
    }
}

fn sample_name() -> Result<EntityName, Fail>
    ensures { IfOk result (λ name. name ≡ codes "c1") }
{
    let name = EntityName::new(b"c1").ok_or("a name")?;
    Ok(name)
}

fn sample_producer() -> Result<ProducerNo, Fail>
    ensures { IfOk result (λ p. p ≡ 1) }
{
    let p = ProducerNo::new(1).ok_or("a producer")?;
    Ok(p)
}

fn sample_charter(alloc: Global) -> Result<Charter, Fail>
    ensures { IfOk result (λ c. c ≡ sample_script) }
{
    let p = sample_producer()?;
    let entity = sample_name()?;
    let mut orders = Vec::new(alloc);
    orders.push(Line {
        number: 2,
        order: Order::Send(p, entity, Command::Add(5)),
    })?;
    let charter = Charter::new(alloc, SETTINGS, orders)?;
    Ok(charter)
}

fn sample_lists(alloc: Global) -> Result<TwoLists, Fail>
    ensures { IfOk result (λ t. t.shard.items ≡ sample_list) }
{
    let entity = sample_name()?;
    let producer = sample_producer()?;
    let written = Record {
        number: 1,
        epoch: 1,
        producer,
        place: 1,
        command: Command::Add(5),
        events: Events::empty().with(Event::Added(5)),
        reply: Reply::Value(5),
    };
    let mut shard = Vec::new(alloc);
    shard.push(ShardEntry::Wrote(entity, written))?;
    let mut queue = Vec::new(alloc);
    queue.push(QueueEntry::Queued(entity, 1, Command::Add(5)))?;
    queue.push(QueueEntry::Confirmed(entity, 1))?;
    Ok(TwoLists { shard, queue })
}

/// Whether the report as a value prints as it is to.
fn is_value(alloc: Global, charter: &Charter, lists: &TwoLists) -> Result<bool, AllocError>
    requires { IsTrue (is_foldable_in_all (setting charter.now) (⟦<TwoLists as Lists>⟧.lists lists.now)) }
{
    let value = report_value(alloc, charter, lists)?;
    let json = value.to_string(alloc)?;
    Ok(json.as_str() == JSON)
}

/// Whether the report that is spelled at once is the same, as a line.
fn is_text(alloc: Global, charter: &Charter, lists: &TwoLists) -> Result<bool, AllocError>
    requires { IsTrue (is_foldable_in_all (setting charter.now) (⟦<TwoLists as Lists>⟧.lists lists.now)) }
{
    let mut text = Vec::new(alloc);
    push_json(&mut text, charter, lists)?;
    Ok(text.pop() == Some(b'\n') && text.as_slice() == JSON.as_bytes())
}

/// Whether the report of these lists is printed both ways.
fn is_printed(alloc: Global, charter: &Charter, lists: &TwoLists) -> Result<bool, AllocError>
    requires { IsTrue (is_foldable_in_all (setting charter.now) (⟦<TwoLists as Lists>⟧.lists lists.now)) }
{
    Ok(is_value(alloc, charter, lists)? && is_text(alloc, charter, lists)?)
}

/// Whether that of the sample's lists is.
#[tactic(auto, using(crate::proofs::SampleLaws::sample_foldable))]
fn are_printed(alloc: Global, charter: &Charter) -> Result<bool, Fail>
    requires { charter.now ≡ sample_script }
{
    let lists = sample_lists(alloc)?;
    Ok(is_printed(alloc, charter, &lists)?)
}

#[test]
fn a_counter_is_printed_as_json(rt: HostRuntime) -> Result<(), Fail> {
    let charter = sample_charter(rt.alloc())?;
    assert!(rt; are_printed(rt.alloc(), &charter)?);
    Ok(())
}
