//! What is known of the jobs, the workers and the wire.
ghost use Rattle.std.specs.Prelude.{◌≡◌, ℕ, ◌+◌, ◌-◌, ◌<◌, ◌≤◌, true, false, length, slice_get, slice_index_or, Some, None, IfSome};
ghost use Rattle.std.specs.Option.{option_map};
ghost use Rattle.yard_model.specs.declared.charter.Sending.{Sending};
ghost use Rattle.yard_model.specs.Script.{sends};
ghost use Rattle.yard_model.specs.SlotReads.{epoch};
ghost use Rattle.yard_model.specs.Words.{is_among, is_at};
ghost use Rattle.pull_laws.specs.Pulled.{members, worker_at, last_number, packet, fresh, queue, is_running, jobs, waiting, is_confirmed, is_free, is_queued, given, has_done, first_ready};
ghost use Rattle.pull_laws.specs.PullText.{dids};
ghost use Rattle.job_board.specs.Parcels.{lowest};
ghost use Rattle.pull_cluster.specs.Cluster.{IsOfJobs, name_at, parcel_fact};
ghost use Rattle.pull_cluster.specs.Kept.{is_closed_state, state_of};

use crate::cluster::Cluster;
use job_board::{JobState, Parcel};
use yard_model::{Charter, Command, EntityName, Incarnation, NodeNo};

impl Cluster {
    /// The script.
    pub fn charter(&self) -> &Charter
        ensures { result.now ≡ self.now.script }
    {
        &self.charter
    }

    /// Whether a packet was past the limit.
    pub fn is_full(&self) -> bool
        ensures { result ≡ self.now.pulling.full }
    {
        self.full
    }

    /// Whether the producer runs.
    pub fn is_running(&self) -> bool
        ensures { result ≡ is_running self.now.pulling.told }
    {
        self.queue.is_leased()
    }

    /// The worker at a node.
    pub fn worker_at(&self, node: NodeNo) -> Option<Incarnation>
        ensures value { result ≡ worker_at node self.now.pulling.told }
        ensures up { IfSome result (λ x. is_among x (members self.now.pulling.told) ≡ true) }
    {
        self.board.at(node)
    }

    /// Whether a worker is up.
    pub fn is_up(&self, who: &Incarnation) -> bool
        ensures { result ≡ is_among who.now (members self.now.pulling.told) }
    {
        self.board.is_up(who)
    }

    /// The next incarnation of a node.
    pub fn next_incarnation(&self, node: NodeNo) -> Incarnation
        requires { last_number node self.now.pulling.told < 4294967295 }
        ensures { result ≡ record { node = node; number = last_number node self.now.pulling.told + 1 } }
    {
        let number = self.numbers[node.get() as usize - 1] + 1;
        Incarnation { node, number }
    }

    /// How many jobs are queued: those at the first places.
    pub fn queued(&self) -> usize
        ensures value { result ≡ length (jobs self.now.pulling.told) }
        ensures names { (i : ℕ) → i < result → option_map (λ (j : Sending). j.entity) (slice_get (jobs self.now.pulling.told) i) ≡ Some (name_at self.now.script i) }
    {
        self.queue.total() as usize
    }

    /// How many jobs wait to be queued.
    pub fn waiting(&self) -> usize
        ensures { result ≡ length (waiting self.now.pulling.told) }
    {
        self.sent - self.queue.total() as usize
    }

    /// The next free job from this place on; how many are queued, where there is none.
    pub fn next_free(&self, from: usize) -> usize
        requires { from ≤ length (jobs self.now.pulling.told) }
        ensures from { from ≤ result }
        ensures within { result ≤ length (jobs self.now.pulling.told) }
        ensures it { result < length (jobs self.now.pulling.told) → is_free (name_at self.now.script result) self.now.pulling.told ≡ true }
        ensures between { (i : ℕ) → from ≤ i → i < result → is_free (name_at self.now.script i) self.now.pulling.told ≡ false }
    {
        let queued = self.queue.total() as usize;
        within(self.board.next_free(from), queued)
    }

    /// The next job from this place on that is given to a worker; how many are queued, where there is none.
    pub fn next_given(&self, who: &Incarnation, from: usize) -> usize
        requires { from ≤ length (jobs self.now.pulling.told) }
        ensures from { from ≤ result }
        ensures within { result ≤ length (jobs self.now.pulling.told) }
        ensures it { result < length (jobs self.now.pulling.told) → is_at who.now (given (name_at self.now.script result) self.now.pulling.told) ≡ true }
        ensures between { (i : ℕ) → from ≤ i → i < result → is_at who.now (given (name_at self.now.script i) self.now.pulling.told) ≡ false }
    {
        let queued = self.queue.total() as usize;
        within(self.board.next_given(who, from), queued)
    }

    /// The oldest worker that is ready.
    pub fn first_ready(&self) -> Option<Incarnation>
        ensures { result ≡ first_ready self.now.pulling.window self.now.pulling.told }
    {
        let window = self.charter.config().window as u32;
        self.board.first_ready(window)
    }

    /// What is known of a queued job.
    pub fn state(&self, job: usize) -> JobState
        requires { job < length (jobs self.now.pulling.told) }
        ensures value { result ≡ state_of self.now.pulling.told (name_at self.now.script job) }
        ensures queued { is_queued (name_at self.now.script job) self.now.pulling.told ≡ true }
    {
        self.board.state(job)
    }

    /// Whether a queued job is confirmed.
    pub fn is_confirmed(&self, job: usize) -> bool
        requires { job < length (jobs self.now.pulling.told) }
        ensures { result ≡ is_confirmed (name_at self.now.script job) self.now.pulling.told }
    {
        is_closed(&self.board.state(job))
    }

    /// Whether a worker has done a job.
    pub fn has_done(&self, who: &Incarnation, job: usize) -> bool
        requires { job < length (jobs self.now.pulling.told) }
        ensures { result ≡ has_done who.now (name_at self.now.script job) self.now.pulling.told }
    {
        self.doers.has(job, who)
    }

    /// How many workers have done a job.
    pub fn dids(&self, job: usize) -> usize
        requires { job < length (jobs self.now.pulling.told) }
        ensures { result ≡ dids (name_at self.now.script job) self.now.pulling.told }
    {
        self.doers.count(job)
    }

    /// The name of a job.
    pub fn name(&self, job: usize) -> EntityName
        requires { job < length (jobs self.now.pulling.told) }
        ensures value { result ≡ name_at self.now.script job }
        ensures job { option_map (λ (j : Sending). j.entity) (slice_get (jobs self.now.pulling.told) job) ≡ Some result }
    {
        self.charter.sends(self.producer)[job].entity
    }

    /// The command of a job.
    pub fn command(&self, job: usize) -> Command
        requires { job < length (jobs self.now.pulling.told) }
        ensures { option_map (λ (j : Sending). j.command) (slice_get (jobs self.now.pulling.told) job) ≡ Some result }
    {
        self.charter.sends(self.producer)[job].command
    }

    /// The packet of this number, from 1.
    pub fn packet(&self, number: u32) -> Option<Parcel>
        requires { 0 < number }
        ensures value { packet number self.now.pulling.told ≡ option_map (parcel_fact self.now.script number) result }
        ensures jobs { IfSome result (IsOfJobs self.now.pulling.told) }
    {
        self.parcels.get(number)
    }

    /// The lowest packet that was never delivered.
    pub fn next_fresh(&self) -> Option<u32>
        ensures value { result ≡ lowest (fresh self.now.pulling.told) }
        ensures above { IfSome result (λ k. 0 < k) }
    {
        self.parcels.next_fresh()
    }
}

/// A place, where it is below the bound; else the bound.
fn within(place: usize, bound: usize) -> usize
    ensures below { place < bound → result ≡ place }
    ensures past { bound ≤ place → result ≡ bound }
{
    if place < bound { place } else { bound }
}

/// Whether it is confirmed.
fn is_closed(state: &JobState) -> bool
    ensures { result ≡ is_closed_state state.now }
{
    matches!(state, JobState::Confirmed)
}
