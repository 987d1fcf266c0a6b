//! A worker that is up, with the jobs that are at it.
ghost use Rattle.std.specs.Prelude.{◌≡◌, ◌≢◌, ℕ, ◌+◌, ◌-◌, ◌<◌, true, false, IfOk};
ghost use Rattle.place_set.specs.Places.{is_in};

use place_set::PlaceSet;
use std::alloc::{AllocError, Global};
use yard_model::Incarnation;

/// A worker that is up.
#[derive(Drop)]
pub struct Worker {
    /// Who it is.
    pub who: Incarnation,
    /// Whether it asked for work since the producer runs.
    pub asked: bool,
    /// The places of the jobs that are at it.
    pub given: PlaceSet,
    /// How many these are.
    pub load: u32,
}

/// A worker that hasn't asked, with no jobs, whose places are below this count. The only error is want of memory.
pub(crate) fn new_worker(
    alloc: Global,
    who: &Incarnation,
    count: usize,
) -> Result<Worker, AllocError>
    ensures who { IfOk result (λ w. w.who ≡ who.now) }
    ensures asked { IfOk result (λ w. w.asked ≡ false) }
    ensures bound { IfOk result (λ w. w.given.bound ≡ count) }
    ensures none { IfOk result (λ w. (i : ℕ) → is_in w.given i ≡ false) }
    ensures load { IfOk result (λ w. w.load ≡ 0) }
{
    let given = PlaceSet::new(alloc, count)?;
    Ok(Worker {
        who: *who,
        asked: false,
        given,
        load: 0,
    })
}

/// A job comes to a worker.
pub(crate) fn give(worker: &mut Worker, job: usize)
    requires within { job < worker.old.given.bound }
    requires few { worker.old.load < 4294967295 }
    ensures who { worker.new.who ≡ worker.old.who }
    ensures asked { worker.new.asked ≡ worker.old.asked }
    ensures bound { worker.new.given.bound ≡ worker.old.given.bound }
    ensures it { is_in worker.new.given job ≡ true }
    ensures others { (i : ℕ) → i ≢ job → is_in worker.new.given i ≡ is_in worker.old.given i }
    ensures load { worker.new.load ≡ worker.old.load + 1 }
{
    worker.given.insert(job);
    worker.load += 1;
}

/// A job is no more at a worker.
pub(crate) fn take(worker: &mut Worker, job: usize)
    requires { job < worker.old.given.bound }
    ensures who { worker.new.who ≡ worker.old.who }
    ensures asked { worker.new.asked ≡ worker.old.asked }
    ensures bound { worker.new.given.bound ≡ worker.old.given.bound }
    ensures it { is_in worker.new.given job ≡ false }
    ensures others { (i : ℕ) → i ≢ job → is_in worker.new.given i ≡ is_in worker.old.given i }
    ensures load { worker.new.load ≡ worker.old.load - 1 }
{
    worker.given.remove(job);
    worker.load = worker.load.saturating_sub(1);
}

/// No job is at a worker.
pub(crate) fn clear(worker: &mut Worker)
    ensures who { worker.new.who ≡ worker.old.who }
    ensures asked { worker.new.asked ≡ worker.old.asked }
    ensures bound { worker.new.given.bound ≡ worker.old.given.bound }
    ensures none { (i : ℕ) → is_in worker.new.given i ≡ false }
    ensures load { worker.new.load ≡ 0 }
{
    worker.given.clear();
    worker.load = 0;
}
