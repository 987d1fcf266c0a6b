//! A run: a worker for each node, each in a thread of its own, over one table of leases and one box for
//! each node.
ghost use Rattle.std.specs.Prelude.{◌≡◌, ℕ, ◌+◌, ◌<◌, ◌≤◌, true, List, length, IfOk};
ghost use Rattle.yard_model.specs.Script.{is_version};
ghost use Rattle.lease_table.specs.Belongs.{id_of, charter_of};
ghost use Rattle.lease_table.specs.Left.{left_of};
ghost use Rattle.post_box.specs.Holding.{dealt};
ghost use Rattle.post_box.specs.Left as boxes_left;
ghost use Rattle.node_runner.specs.Ran.{IsRun, Ran};
ghost use Rattle.node_runner.specs.Jobs.{IsDealt, IsJob, AreJobs, IsLeft, AreLeft};

use crate::parcel::{Parcel, Run};
use crate::roster::{Roster, all_let_go};
use crate::worker::work;
use behaviour_core::Behaviour;
use lease_table::{LeasePass, LeaseTable, Passes, empty_stores_are_ready};
use live_laws::{closed_is_lawful, closed_is_worked};
use post_box::{BoxPass, BoxPasses, PostBox};
use shard_store::Stores;
use std::alloc::{AllocError, Global};
use std::marker::Brand;
use std::sync::{Mutex, Wait};
use std::thread::{Threads, map_vec};
use yard_io::Gate;
use yard_model::{Charter, NodeNo};

/// How many parcels the box of a node has room for.
const CAPACITY: u16 = 256;

/// A worker that is to run: its node, and that node's pass at the table and at the boxes.
#[derive(Drop)]
pub struct Job<P> {
    pub(crate) node: NodeNo,
    pub(crate) pass: LeasePass,
    pub(crate) box_pass: BoxPass<P>,
}

/// A box for each node, and the passes of the nodes.
fn all_boxes<P: Drop>(
    alloc: Global,
    charter: &Charter,
) -> Result<(PostBox<P>, BoxPasses<P>), AllocError>
    ensures boxes { IfOk result (λ r. length r.0.tables ≡ charter.now.config.nodes) }
    ensures passes { IfOk result (λ r. boxes_left.left_of r.1 ≡ dealt r.0.tables) }
{
    let nodes = charter.config().nodes;
    PostBox::make(alloc, nodes, CAPACITY)
}

/// The node at a place of those of a charter.
fn node_at(charter: &Charter, place: u8) -> NodeNo
    requires { place < charter.now.config.nodes }
    ensures { result ≡ place + 1 }
{
    charter.config();
    let Some(node) = NodeNo::new(place + 1) else {
        unreachable!()
    };
    node
}

/// A job for each node, with its passes.
fn all_jobs<P: Drop>(
    alloc: Global,
    table: &LeaseTable,
    boxes: &PostBox<P>,
    charter: &Charter,
    mut passes: Passes,
    mut box_passes: BoxPasses<P>,
) -> Result<Vec<Job<P>>, AllocError>
    requires charter { charter.now ≡ charter_of table.now }
    requires passes { IsDealt (id_of table.now) (charter_of table.now) (left_of passes) }
    requires nodes { length boxes.now.tables ≡ (charter_of table.now).config.nodes }
    requires boxes { boxes_left.left_of box_passes ≡ dealt boxes.now.tables }
    ensures all { IfOk result (λ v. length v.items ≡ charter.now.config.nodes) }
    ensures jobs { IfOk result (λ v. AreJobs (id_of table.now) (charter_of table.now) boxes.now.tables v.items) }
{
    let _ = table;
    let _ = boxes;
    let nodes = charter.config().nodes;
    let mut jobs = Vec::new(alloc);
    for done in 0..nodes {
        let node = node_at(charter, done);
        let Some(pass) = passes.next() else {
            unreachable!()
        };
        let Some(box_pass) = box_passes.next() else {
            unreachable!()
        };
        jobs.push(Job {
            node,
            pass,
            box_pass,
        })?;
    }
    Ok(jobs)
}

/// The worker of a job. It may wait.
fn run_job<J: Run, R: Wait, B: Behaviour + Copy + Drop, G: Gate>(
    rt: &R,
    alloc: Global,
    table: &LeaseTable,
    boxes: &PostBox<Parcel<J>>,
    roster: &Mutex<Roster<J>>,
    charter: &Charter,
    job: Job<Parcel<J>>,
    turns: u32,
    seed: u32,
    gate: &G,
    behaviour: B,
) -> Result<LeasePass, AllocError>
    requires charter { charter.now ≡ charter_of table.now }
    requires kind { B.kind_of behaviour ≡ charter.now.config.kind }
    requires version { is_version charter.now (B.version_of behaviour) ≡ true }
    requires run { (J.script ≡ charter_of table.now) × (J.table ≡ id_of table.now) }
    requires nodes { length boxes.now.tables ≡ J.script.config.nodes }
    requires job { IsJob (id_of table.now) (charter_of table.now) boxes.now.tables job }
    ensures { IfOk result (IsLeft (id_of table.now) (charter_of table.now) turns job.node) }
{
    let Job {
        node,
        pass,
        box_pass,
    } = job;
    work(
        rt, alloc, table, boxes, roster, charter, node, pass, box_pass, turns, seed, gate,
        behaviour,
    )
}

/// The workers of all jobs, each in a thread of its own where one can be had, and what each left. It may
/// wait.
fn run_jobs<
    J: Run + Send + Sync,
    R: Threads + Wait + Sync,
    B: Behaviour + Copy + Drop + Send + Sync,
    G: Gate + Sync,
>(
    rt: &R,
    alloc: Global,
    table: &LeaseTable,
    boxes: &PostBox<Parcel<J>>,
    roster: &Mutex<Roster<J>>,
    charter: &Charter,
    jobs: Vec<Job<Parcel<J>>>,
    turns: u32,
    seed: u32,
    gate: &G,
    behaviour: B,
) -> Result<Vec<Result<LeasePass, AllocError>>, AllocError>
    requires charter { charter.now ≡ charter_of table.now }
    requires kind { B.kind_of behaviour ≡ charter.now.config.kind }
    requires version { is_version charter.now (B.version_of behaviour) ≡ true }
    requires run { (J.script ≡ charter_of table.now) × (J.table ≡ id_of table.now) }
    requires nodes { length boxes.now.tables ≡ J.script.config.nodes }
    requires jobs { AreJobs (id_of table.now) (charter_of table.now) boxes.now.tables jobs.items }
    ensures all { IfOk result (λ v. length v.items ≡ length jobs.items) }
    ensures left { IfOk result (λ v. AreLeft (id_of table.now) (charter_of table.now) turns v.items) }
{
    let worker = move |job: Job<Parcel<J>>| -> Result<LeasePass, AllocError>
        requires charter { charter.now ≡ charter_of table.now }
        requires kind { B.kind_of behaviour ≡ charter.now.config.kind }
        requires version { is_version charter.now (B.version_of behaviour) ≡ true }
        requires run { (J.script ≡ charter_of table.now) × (J.table ≡ id_of table.now) }
        requires nodes { length boxes.now.tables ≡ J.script.config.nodes }
        requires job { IsJob (id_of table.now) (charter_of table.now) boxes.now.tables job }
        ensures { IfOk result (IsLeft (id_of table.entry.now) (charter_of table.entry.now) turns job.node) }
    {
        run_job(
            rt, alloc, table, boxes, roster, charter, job, turns, seed, gate, behaviour,
        )
    };
    let left = map_vec(rt, jobs, &worker)?;
    Ok(left)
}

/// One pass for all nodes, where each has its own.
fn unite_all(
    table: &LeaseTable,
    turns: u32,
    mut left: Vec<Result<LeasePass, AllocError>>,
) -> Result<LeasePass, AllocError>
    requires all { length left.items ≡ (charter_of table.now).config.nodes }
    requires some { 0 < length left.items }
    requires each { AreLeft (id_of table.now) (charter_of table.now) turns left.items }
    ensures { IfOk result (Ran (id_of table.now) (charter_of table.now) turns 1) }
{
    let _ = turns;
    let Some(last) = left.pop() else {
        unreachable!()
    };
    let mut all = last?;
    while let Some(next) = left.pop() {
        let next = next?;
        next.stands();
        all = table.unite(next, all);
    }
    Ok(all)
}

/// All workers, with a box for each and a roster of who is up; then one pass for all nodes, and how many packets
/// the workers let go because they couldn't show what these need. It may wait.
fn run_all<
    J: Run + Send + Sync,
    R: Threads + Wait + Sync,
    B: Behaviour + Copy + Drop + Send + Sync,
    G: Gate + Sync,
>(
    rt: &R,
    alloc: Global,
    table: &LeaseTable,
    charter: &Charter,
    passes: Passes,
    turns: u32,
    seed: u32,
    gate: &G,
    behaviour: B,
) -> Result<(LeasePass, u64), AllocError>
    requires charter { charter.now ≡ charter_of table.now }
    requires kind { B.kind_of behaviour ≡ charter.now.config.kind }
    requires version { is_version charter.now (B.version_of behaviour) ≡ true }
    requires run { (J.script ≡ charter_of table.now) × (J.table ≡ id_of table.now) }
    requires passes { IsDealt (id_of table.now) (charter_of table.now) (left_of passes) }
    ensures { IfOk result (λ r. Ran (id_of table.now) (charter_of table.now) turns 1 r.0) }
{
    charter.config();
    let (boxes, box_passes) = all_boxes::<Parcel<J>>(alloc, charter)?;
    let roster = Mutex::new(Roster::<J>::new(alloc)?);
    let jobs = all_jobs(alloc, table, &boxes, charter, passes, box_passes)?;
    let left = run_jobs(
        rt, alloc, table, &boxes, &roster, charter, jobs, turns, seed, gate, behaviour,
    )?;
    let pass = unite_all(table, turns, left)?;
    Ok((pass, all_let_go(rt, &roster)))
}

/// What a run leaves.
#[derive(Drop)]
pub struct Outcome {
    /// The stores of all slots.
    pub stores: Stores,
    /// How many packets the workers let go because they couldn't show what these need.
    pub unshown: u64,
}

/// A run of a charter: a worker for each node, each in a thread of its own where one can be had, takes
/// at most so many turns, and draws by this seed what becomes of each packet. The stores that it leaves:
/// no slot is held, the lists are lawful, no incarnation in them has a number above 4,000,000,000, and all
/// sends of each steady producer are queued. The only error is want of memory. It may wait.
pub fn run_live<R: Threads + Wait + Sync, B: Behaviour + Copy + Drop + Send + Sync, G: Gate + Sync>(
    rt: &R,
    alloc: Global,
    charter: &Charter,
    behaviour: B,
    turns: u32,
    seed: u32,
    gate: &G,
) -> Result<Stores, AllocError>
    requires kind { B.kind_of behaviour ≡ charter.now.config.kind }
    requires version { is_version charter.now (B.version_of behaviour) ≡ true }
    ensures { IfOk result (IsRun charter.now turns) }
{
    let outcome = run_counted(rt, alloc, charter, behaviour, turns, seed, gate)?;
    Ok(outcome.stores)
}

/// The same, with the count of what was let go.
pub fn run_counted<
    R: Threads + Wait + Sync,
    B: Behaviour + Copy + Drop + Send + Sync,
    G: Gate + Sync,
>(
    rt: &R,
    alloc: Global,
    charter: &Charter,
    behaviour: B,
    turns: u32,
    seed: u32,
    gate: &G,
) -> Result<Outcome, AllocError>
    requires kind { B.kind_of behaviour ≡ charter.now.config.kind }
    requires version { is_version charter.now (B.version_of behaviour) ≡ true }
    ensures { IfOk result (λ r. IsRun charter.now turns r.stores) }
{
    closed_is_lawful();
    closed_is_worked();
    empty_stores_are_ready();
    let stores = Stores::new(alloc, charter)?;
    let (table, passes) = LeaseTable::make(alloc, charter, stores)?;
    let (pass, unshown) = run_all::<Brand, R, B, G>(
        rt, alloc, &table, charter, passes, turns, seed, gate, behaviour,
    )?;
    Ok(Outcome {
        stores: table.close(pass),
        unshown,
    })
}
