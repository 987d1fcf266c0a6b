//! What follows on each order and each packet.
ghost use Rattle.std.specs.Prelude.{◌≡◌, ℕ, ◌+◌, ◌<◌, ◌≤◌, true, false, [], length, slice_get, Some, None, IfOk, OnOk, OnErr};
ghost use Rattle.yard_model.specs.Behaviour.{is_in};
ghost use Rattle.yard_model.specs.Script.{sends};
ghost use Rattle.yard_model.specs.Words.{is_among};
ghost use Rattle.pull_laws.specs.Next.{IsNextSend};
ghost use Rattle.pull_laws.specs.Pulled.{members, last_number, packet, fresh, queue, is_free, is_running, given_to, jobs, waiting};
ghost use Rattle.pull_laws.specs.Pulling as pulling;
ghost use Rattle.yard_model.specs.SlotReads.{epoch};
ghost use Rattle.pull_cluster.specs.Cluster.{IsOfJobs, Leads, name_at, parcel_fact};

use job_board::Parcel;
use pull_cluster::Cluster;
use std::alloc::AllocError;
use yard_model::{Command, EntityName, Fact, Facts, Incarnation, NodeNo};

/// Each free job goes to the oldest worker that is ready, while there is one.
fn assign(cluster: &mut Cluster, out: &mut Facts) -> Result<(), AllocError>
    ensures { OnOk result (Leads pulling.assign cluster.old cluster.new out.old out.new) }
{
    if !cluster.is_running() {
        return Ok(());
    }
    let queued = cluster.queued();
    let mut job = cluster.next_free(0);
    while job < queued {
        let Some(who) = cluster.first_ready() else {
            return Ok(());
        };
        give(cluster, job, &who, out)?;
        job = cluster.next_free(job + 1);
    }
    Ok(())
}

/// A free job goes to a worker that is ready.
fn give(
    cluster: &mut Cluster,
    job: usize,
    who: &Incarnation,
    out: &mut Facts,
) -> Result<(), AllocError>
    requires queued { job < length (jobs cluster.old.pulling.told) }
    requires free { is_free (name_at cluster.old.script job) cluster.old.pulling.told ≡ true }
    requires up { is_among who.now (members cluster.old.pulling.told) ≡ true }
    ensures { OnOk result (Leads (pulling.give (name_at cluster.old.script job) who.now) cluster.old cluster.new out.old out.new) }
{
    cluster.tell_given(job, who, out)?;
    cluster.post(&Parcel::Job(*who, job), out)
}

/// The order has nothing to do.
pub(crate) fn nothing(cluster: &mut Cluster, out: &mut Facts) -> Result<(), AllocError>
    ensures { OnOk result (Leads pulling.nothing cluster.old cluster.new out.old out.new) }
{
    cluster.tell_plain(&Fact::Nothing, out)
}

/// A node comes up, unless it is, and asks for work.
pub(crate) fn up(cluster: &mut Cluster, node: NodeNo, out: &mut Facts) -> Result<(), AllocError>
    requires { last_number node cluster.old.pulling.told < 4294967295 }
    ensures { OnOk result (Leads (pulling.up node) cluster.old cluster.new out.old out.new) }
{
    if cluster.worker_at(node).is_some() {
        return nothing(cluster, out);
    }
    let who = cluster.next_incarnation(node);
    cluster.tell_up(&who, out)?;
    cluster.post(&Parcel::Ask(who), out)
}

/// A node that is up goes down; its jobs are assigned to others.
pub(crate) fn crash(cluster: &mut Cluster, node: NodeNo, out: &mut Facts) -> Result<(), AllocError>
    ensures { OnOk result (Leads (pulling.crash node) cluster.old cluster.new out.old out.new) }
{
    match cluster.worker_at(node) {
        Some(who) => {
            cluster.tell_gone(&who, out)?;
            assign(cluster, out)
        }
        None => nothing(cluster, out),
    }
}

/// A node that is up asks for work.
pub(crate) fn tick(cluster: &mut Cluster, node: NodeNo, out: &mut Facts) -> Result<(), AllocError>
    ensures { OnOk result (Leads (pulling.tick node) cluster.old cluster.new out.old out.new) }
{
    match cluster.worker_at(node) {
        Some(who) => cluster.post(&Parcel::Ask(who), out),
        None => nothing(cluster, out),
    }
}

/// The producer runs at a node, unless it does; the jobs that wait are queued.
pub(crate) fn produce(
    cluster: &mut Cluster,
    node: NodeNo,
    out: &mut Facts,
) -> Result<(), AllocError>
    requires node { is_in 1 cluster.old.script.config.nodes node ≡ true }
    requires few { epoch (queue cluster.old.pulling.told) < 4294967295 }
    ensures { OnOk result (Leads (pulling.produce node) cluster.old cluster.new out.old out.new) }
{
    if cluster.is_running() {
        return nothing(cluster, out);
    }
    cluster.tell_granted(node, out)?;
    for _ in 0..cluster.waiting() {
        cluster.tell_queued(out)?;
    }
    Ok(())
}

/// The producer rests, if it runs.
pub(crate) fn rest(cluster: &mut Cluster, out: &mut Facts) -> Result<(), AllocError>
    ensures { OnOk result (Leads pulling.rest cluster.old cluster.new out.old out.new) }
{
    if cluster.is_running() {
        cluster.tell_freed(out)
    } else {
        nothing(cluster, out)
    }
}

/// The producer gets its next job.
pub(crate) fn send(
    cluster: &mut Cluster,
    entity: EntityName,
    command: Command,
    out: &mut Facts,
) -> Result<(), AllocError>
    requires next { IsNextSend cluster.old.script cluster.old.pulling.told entity command }
    requires none { is_running cluster.old.pulling.told ≡ true → waiting cluster.old.pulling.told ≡ [] }
    ensures { OnOk result (Leads (pulling.send entity command) cluster.old cluster.new out.old out.new) }
{
    if !cluster.is_running() {
        return cluster.tell_waits(entity, command, out);
    }
    cluster.tell_sent(entity, command, out)?;
    assign(cluster, out)
}

/// A packet is delivered, if it was posted.
pub(crate) fn deliver(cluster: &mut Cluster, number: u32, out: &mut Facts) -> Result<(), AllocError>
    requires { 0 < number }
    ensures { OnOk result (Leads (pulling.deliver number) cluster.old cluster.new out.old out.new) }
{
    match cluster.packet(number) {
        Some(parcel) => {
            cluster.tell_got(number, &parcel, out)?;
            take(cluster, &parcel, out)
        }
        None => nothing(cluster, out),
    }
}

/// What follows on a packet.
fn take(cluster: &mut Cluster, parcel: &Parcel, out: &mut Facts) -> Result<(), AllocError>
    requires { IsOfJobs cluster.old.pulling.told parcel.now }
    ensures { (number : ℕ) → OnOk result (Leads (pulling.take_packet (parcel_fact cluster.old.script number parcel.now)) cluster.old cluster.new out.old out.new) }
{
    match parcel {
        Parcel::Ask(who) => take_ask(cluster, who, out),
        Parcel::Job(who, job) => take_job(cluster, who, *job, out),
        Parcel::Done(_, job) => take_done(cluster, *job, out),
    }
}

/// A worker asks for work: what is given to it is posted again.
fn take_ask(cluster: &mut Cluster, who: &Incarnation, out: &mut Facts) -> Result<(), AllocError>
    ensures { OnOk result (Leads (pulling.ask who.now) cluster.old cluster.new out.old out.new) }
{
    if !cluster.is_running() || !cluster.is_up(who) {
        return Ok(());
    }
    post_given(cluster, who, out)?;
    assign(cluster, out)
}

/// What is given to a worker is posted to it.
fn post_given(cluster: &mut Cluster, who: &Incarnation, out: &mut Facts) -> Result<(), AllocError>
    ensures { OnOk result (Leads (pulling.for_each (pulling.post_job who.now) (given_to who.now cluster.old.pulling.told)) cluster.old cluster.new out.old out.new) }
{
    let queued = cluster.queued();
    let mut job = cluster.next_given(who, 0);
    while job < queued {
        cluster.post(&Parcel::Job(*who, job), out)?;
        job = cluster.next_given(who, job + 1);
    }
    Ok(())
}

/// A worker does a job, unless it has.
fn do_once(
    cluster: &mut Cluster,
    who: &Incarnation,
    job: usize,
    out: &mut Facts,
) -> Result<(), AllocError>
    requires { job < length (jobs cluster.old.pulling.told) }
    ensures { OnOk result (Leads (pulling.do_once who.now (name_at cluster.old.script job)) cluster.old cluster.new out.old out.new) }
{
    if cluster.has_done(who, job) {
        Ok(())
    } else {
        cluster.tell_did(who, job, out)
    }
}

/// A job comes to a worker: it does the job once, and posts that it is done.
fn take_job(
    cluster: &mut Cluster,
    who: &Incarnation,
    job: usize,
    out: &mut Facts,
) -> Result<(), AllocError>
    requires { job < length (jobs cluster.old.pulling.told) }
    ensures { OnOk result (Leads (pulling.job who.now (name_at cluster.old.script job)) cluster.old cluster.new out.old out.new) }
{
    if !cluster.is_up(who) {
        return Ok(());
    }
    do_once(cluster, who, job, out)?;
    cluster.post(&Parcel::Done(*who, job), out)
}

/// A job is done: it is confirmed, unless it is.
fn take_done(cluster: &mut Cluster, job: usize, out: &mut Facts) -> Result<(), AllocError>
    requires { job < length (jobs cluster.old.pulling.told) }
    ensures { OnOk result (Leads (pulling.done (name_at cluster.old.script job)) cluster.old cluster.new out.old out.new) }
{
    if !cluster.is_running() || cluster.is_confirmed(job) {
        return Ok(());
    }
    cluster.tell_confirmed(job, out)?;
    assign(cluster, out)
}
