//! What a world begins with. Each part is made by itself: who owns few values is checked soonest.
ghost use Rattle.std.specs.Prelude.{◌≡◌, ℕ, ◌+◌, ◌<◌, [], false, IfOk, None, length, map, replicate, slice_set};
ghost use Rattle.yard_model.specs.Lawful.{is_held};
ghost use Rattle.yard_model.specs.Script.{IsScript, setting};
ghost use Rattle.yard_model.specs.Trace.{no_lists};
ghost use Rattle.yard_model.specs.World.{all_sends};
ghost use Rattle.shard_store.specs.Stores.{entries_at, lists_at};
ghost use Rattle.world_sim.specs.Begun.{Begins};

use crate::mail::Mail;
use crate::places::{no_nodes, set_number, zeros};
use crate::scene::Scene;
use crate::sent::all_sent;
use crate::yard::Yard;
use behaviour_core::Behaviour;
use durable_queue::QueueStore;
use members_by_age::ByAge;
use node_core::Node;
use shard_lease::LeaseBook;
use shard_store::{StoreRef, Stores};
use std::alloc::{AllocError, Global};
use std::marker::PhantomData;
use yard_model::{Charter, EntityName, NodeNo, ProducerNo, Slot};

/// How often each node came up, and how many of each producer's sends were ordered.
#[derive(Drop)]
pub(crate) struct Numbers {
    pub(crate) ups: Vec<u32>,
    pub(crate) ordered: Vec<u32>,
}

/// No node came up, and nothing was ordered. The only error is want of memory.
pub(crate) fn first_numbers(alloc: Global, charter: &Charter) -> Result<Numbers, AllocError>
    ensures ups { IfOk result (λ n. n.ups.items ≡ replicate charter.now.config.nodes 0) }
    ensures ordered { IfOk result (λ n. n.ordered.items ≡ replicate charter.now.config.producers 0) }
{
    let nodes = charter.config().nodes;
    let producers = charter.config().producers;
    let ups = zeros(alloc, nodes)?;
    let ordered = zeros(alloc, producers)?;
    Ok(Numbers { ups, ordered })
}

/// The first node came up so often, and all sends were ordered. The only error is want of memory.
pub(crate) fn given_numbers(
    alloc: Global,
    charter: &Charter,
    greatest: u32,
) -> Result<Numbers, AllocError>
    ensures ups { IfOk result (λ n. n.ups.items ≡ slice_set (replicate charter.now.config.nodes 0) 0 greatest) }
    ensures ordered { IfOk result (λ n. n.ordered.items ≡ map length (all_sends charter.now)) }
{
    let nodes = charter.config().nodes;
    let mut ups = zeros(alloc, nodes)?;
    set_number(&mut ups, NodeNo::FIRST, greatest);
    let ordered = all_sent(alloc, charter)?;
    Ok(Numbers { ups, ordered })
}

/// The leases of a script's empty stores. The only error is want of memory.
pub(crate) fn first_book(alloc: Global, charter: &Charter) -> Result<LeaseBook, AllocError>
    ensures script { IfOk result (λ b. b.script ≡ charter.now) }
    ensures none { IfOk result (λ b. lists_at charter.now.config b.places ≡ no_lists (setting charter.now)) }
    ensures holders { IfOk result (λ b. b.holders ≡ replicate (length b.places) None) }
{
    let stores = Stores::new(alloc, charter)?;
    let book = book_of(alloc, stores)?;
    Ok(book)
}

/// The leases of these stores, of which none is leased. The only error is want of memory.
pub(crate) fn book_of(alloc: Global, stores: Stores) -> Result<LeaseBook, AllocError>
    requires { (k : ℕ) → k < stores.script.config.shards + stores.script.config.producers + 1 → is_held (entries_at stores.places k) ≡ false }
    ensures script { IfOk result (λ b. b.script ≡ stores.script) }
    ensures places { IfOk result (λ b. b.places ≡ stores.places) }
    ensures holders { IfOk result (λ b. b.holders ≡ replicate (length b.places) None) }
{
    let parts = stores.into_parts();
    let book = LeaseBook::new(alloc, Stores::from_parts(parts))?;
    Ok(book)
}

/// A world in which no node is up, and to which nothing was posted. The only error is want of memory.
pub(crate) fn yard_of<B: Behaviour + Copy + Drop>(
    alloc: Global,
    charter: Charter,
    behaviour: B,
    book: LeaseBook,
    numbers: Numbers,
) -> Result<Yard<B>, AllocError>
    requires { book.script ≡ charter }
    ensures begins { IfOk result (λ y. Begins charter book numbers.ups.items numbers.ordered.items y) }
    ensures kind { IfOk result (λ y. y.force.kind ≡ B.kind_of behaviour) }
    ensures version { IfOk result (λ y. y.force.version ≡ B.version_of behaviour) }
    ensures known { IfOk result (λ y. IsScript y.script) }
{
    let scene = match Scene::new(alloc, charter) {
        Ok(scene) => scene,
        Err(error) => {
            drop(book);
            drop(numbers);
            return Err(error);
        }
    };
    match first_tables(alloc, &scene, &book) {
        Ok((nodes, members, mail)) => {
            scene.config();
            let Numbers { ups, ordered } = numbers;
            Ok(Yard {
                alloc,
                scene,
                behaviour,
                book,
                nodes,
                members,
                version: 0,
                ups,
                ordered,
                mail,
                past: 0,
                holds: PhantomData,
            })
        }
        Err(error) => {
            drop(scene);
            drop(book);
            drop(numbers);
            Err(error)
        }
    }
}

/// No node is up, none is a member, and nothing was posted. The only error is want of memory.
fn first_tables<B: Behaviour + Drop>(
    alloc: Global,
    scene: &Scene,
    book: &LeaseBook,
) -> Result<(Vec<Option<Node<B>>>, ByAge, Mail), AllocError>
    requires { book.now.script ≡ scene.now }
    ensures nodes { IfOk result (λ r. r.0.items ≡ replicate scene.now.config.nodes None) }
    ensures members { IfOk result (λ r. r.1 ≡ []) }
    ensures packets { IfOk result (λ r. r.2.packets ≡ []) }
    ensures fresh { IfOk result (λ r. r.2.fresh ≡ []) }
    ensures items { IfOk result (λ r. r.2.items ≡ []) }
    ensures full { IfOk result (λ r. r.2.full ≡ false) }
{
    let members = ByAge::new(alloc)?;
    let nodes = no_nodes(alloc, scene.config().nodes)?;
    let mail = first_mail(alloc, scene.charter(), book)?;
    Ok((nodes, members, mail))
}

/// Nothing was posted. What is confirmed in the book's queues isn't expected any more. The only error is want of
/// memory.
fn first_mail(alloc: Global, charter: &Charter, book: &LeaseBook) -> Result<Mail, AllocError>
    requires { book.now.script ≡ charter.now }
    ensures packets { IfOk result (λ m. m.packets ≡ []) }
    ensures fresh { IfOk result (λ m. m.fresh ≡ []) }
    ensures items { IfOk result (λ m. m.items ≡ []) }
    ensures full { IfOk result (λ m. m.full ≡ false) }
{
    let done = all_confirmed(alloc, charter, book)?;
    let mail = Mail::new(alloc, charter, done.as_slice())?;
    Ok(mail)
}

/// How many commands of each producer are confirmed. The only error is want of memory.
fn all_confirmed(alloc: Global, charter: &Charter, book: &LeaseBook) -> Result<Vec<u32>, AllocError>
    requires { book.now.script ≡ charter.now }
{
    let producers = charter.config().producers;
    let mut counts = Vec::new(alloc);
    for i in 0..producers {
        let Some(p) = ProducerNo::new(i + 1) else {
            unreachable!()
        };
        counts.push(confirmed_of(charter, book, p))?;
    }
    Ok(counts)
}

/// How many commands of a producer are confirmed; 0 where somebody holds its queue.
fn confirmed_of(charter: &Charter, book: &LeaseBook, p: ProducerNo) -> u32
    requires { book.now.script ≡ charter.now }
{
    let slot = Slot::Queue(p);
    if !charter.has_slot(&slot) {
        return 0;
    }
    match book.store(slot) {
        Some(StoreRef::Queue(store)) => confirmed_in(store, charter.names()),
        _ => 0,
    }
}

/// How many commands to these names are confirmed.
fn confirmed_in(store: &QueueStore, names: &[EntityName]) -> u32 {
    if store.total() == 0 {
        return 0;
    }
    let mut count = 0u32;
    for name in names {
        count = count.saturating_add(store.confirmed(name));
    }
    count
}
