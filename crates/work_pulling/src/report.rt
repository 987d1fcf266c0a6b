//! The report of the jobs.
ghost use Rattle.std.specs.Prelude.{◌≡◌, ◌<◌, ◌++◌, OnOk, Some, length, slice_get};
ghost use Rattle.yard_model.specs.declared.charter.Sending.{Sending};
ghost use Rattle.pull_laws.specs.Pulled.{jobs};
ghost use Rattle.pull_laws.specs.PullText.{job_line, pull_report};

use job_text::push_job;
use pull_cluster::Cluster;
use std::alloc::AllocError;

/// Appends the line of a job.
fn push_job_at(cluster: &Cluster, job: usize, text: &mut Vec<u8>) -> Result<(), AllocError>
    requires { job < length (jobs cluster.now.pulling.told) }
    ensures { OnOk result ((j : Sending) → slice_get (jobs cluster.now.pulling.told) job ≡ Some j → text.new.items ≡ text.old.items ++ job_line cluster.now.pulling.told j) }
{
    let name = cluster.name(job);
    let command = cluster.command(job);
    push_job(
        text,
        &name,
        &command,
        &cluster.state(job),
        cluster.dids(job) as u64,
    )
}

/// Appends the report of the jobs. The only error is want of memory.
pub(crate) fn push_jobs(cluster: &Cluster, text: &mut Vec<u8>) -> Result<(), AllocError>
    ensures { OnOk result (text.new.items ≡ text.old.items ++ pull_report cluster.now.pulling.told) }
{
    text.extend_from_slice(b"report\n")?;
    for job in 0..cluster.queued() {
        push_job_at(cluster, job, text)?;
    }
    text.extend_from_slice(b"end\n")
}
