//! What is known of each job, and the workers that are up.
ghost use Rattle.std.specs.Prelude.{◌≡◌, ◌≢◌, ℕ, ◌+◌, ◌-◌, ◌<◌, ◌≤◌, ◌==◌, ◌&&◌, ◌||◌, nat_lt, not, find, filter, map, replicate, remove, true, false, [], ◌∷◌, ◌++◌, length, Some, None, IfOk, OnOk, OnErr, IfSome, IfNone, MatchOption, slice_index_or, slice_set, if◌then◌else◌};
ghost use Rattle.std.specs.Option.{option_map};
ghost use Rattle.place_set.specs.Places as set;
ghost use Rattle.yard_model.specs.Words.{is_same, is_among};
ghost use Rattle.job_board.specs.declared.state.JobState.TheVariants as state;
ghost use Rattle.job_board.specs.declared.worker.Worker.{Worker};
ghost use Rattle.job_board.specs.Boards.{Seat, asking, not_asking, freed, freed_from, given_of, is_free_state, is_given_to, is_ready, load_of, state_at, whos, seat_of};

use crate::state::JobState;
use crate::worker::{Worker, clear, give, new_worker, take};
use place_set::PlaceSet;
use std::alloc::{AllocError, Global};
use std::marker::{Model, PhantomData};
use yard_model::{Incarnation, NodeNo};

/// What is known of each job, by its place, and the workers that are up, oldest first. What is free and what is
/// at a worker is found without looking at the other jobs.
#[derive(Drop)]
pub struct Board {
    states: Vec<JobState>,
    free: PlaceSet,
    workers: Vec<Worker>,
    holds: PhantomData<Incarnation>,
}

impl Model for Board {
    ghost use Rattle.std.specs.Prelude.{map};
    ghost use Rattle.job_board.specs.Boards.{Board, IsBoard, seat_of};

    ghost Value = { Board };

    ghost view = { λ b. record { states = b.states.items; seats = map seat_of b.workers.items } };

    ghost invariant = { λ b. IsBoard b.states.items b.free b.workers.items };
}

impl Board {
    /// So many jobs, none queued, and no worker. The only error is want of memory.
    pub fn new(alloc: Global, count: usize) -> Result<Board, AllocError>
        ensures { IfOk result (λ b. b ≡ record { states = replicate count state.Unqueued; seats = [] }) }
    {
        let free = PlaceSet::new(alloc, count)?;
        let states = vec![in alloc; JobState::Unqueued; count]?;
        Ok(Board {
            states,
            free,
            workers: Vec::new(alloc),
            holds: PhantomData,
        })
    }

    /// How many jobs there are.
    pub fn len(&self) -> usize
        ensures { result ≡ length self.now.states }
    {
        self.states.len()
    }

    /// What is known of a job.
    pub fn state(&self, job: usize) -> JobState
        requires { job < length self.now.states }
        ensures { result ≡ state_at self.now.states job }
    {
        self.states[job]
    }

    /// The worker at a node.
    pub fn at(&self, node: NodeNo) -> Option<Incarnation>
        ensures { result ≡ find (λ (x : Incarnation). x.node == node) (whos self.now.seats) }
    {
        worker_at(self.workers.as_slice(), node)
    }

    /// Whether a worker is up.
    pub fn is_up(&self, who: &Incarnation) -> bool
        ensures { result ≡ is_among who.now (whos self.now.seats) }
    {
        place_of(self.workers.as_slice(), who).is_some()
    }

    /// The oldest worker that has asked and has fewer jobs than this.
    pub fn first_ready(&self, window: u32) -> Option<Incarnation>
        ensures { result ≡ option_map (λ (s : Seat). s.who) (find (is_ready window self.now.states) self.now.seats) }
    {
        first_ready_of(self.workers.as_slice(), window)
    }

    /// The next free job from this place on; the number of jobs where there is none.
    pub fn next_free(&self, from: usize) -> usize
        requires { from ≤ length self.now.states }
        ensures from { from ≤ result }
        ensures within { result ≤ length self.now.states }
        ensures it { result < length self.now.states → is_free_state (state_at self.now.states result) ≡ true }
        ensures between { (i : ℕ) → from ≤ i → i < result → is_free_state (state_at self.now.states i) ≡ false }
    {
        self.free.next(from)
    }

    /// The next job from this place on that is at a worker; the number of jobs where there is none.
    pub fn next_given(&self, who: &Incarnation, from: usize) -> usize
        requires { from ≤ length self.now.states }
        ensures from { from ≤ result }
        ensures within { result ≤ length self.now.states }
        ensures it { result < length self.now.states → is_given_to who.now (state_at self.now.states result) ≡ true }
        ensures between { (i : ℕ) → from ≤ i → i < result → is_given_to who.now (state_at self.now.states i) ≡ false }
    {
        match place_of(self.workers.as_slice(), who) {
            Some(place) => self.workers[place].given.next(from),
            None => self.states.len(),
        }
    }

    /// A worker comes up, the youngest. The only error is want of memory, and then nothing changes.
    pub fn add(&mut self, alloc: Global, who: &Incarnation) -> Result<(), AllocError>
        requires { is_among who.now (whos self.old.seats) ≡ false }
        ensures ok { OnOk result (self.new ≡ record { states = self.old.states; seats = self.old.seats ++ (record { who = who.now; asked = false }) ∷ [] }) }
        ensures err { OnErr result (self.new ≡ self.old) }
    {
        let worker = new_worker(alloc, who, self.states.len())?;
        self.workers.push(worker)?;
        Ok(())
    }

    /// A worker is gone; its jobs are free.
    pub fn remove(&mut self, who: &Incarnation)
        requires { is_among who.now (whos self.old.seats) ≡ true }
        ensures { self.new ≡ record { states = map (freed_from who.now) self.old.states; seats = filter (λ (s : Seat). not (is_same who.now s.who)) self.old.seats } }
    {
        if let Some(place) = place_of(self.workers.as_slice(), who) {
            self.free_jobs_of(place);
            self.drop_worker(place, who);
        }
    }

    /// A worker has asked for work, if it is up.
    pub fn ask(&mut self, who: &Incarnation)
        ensures { self.new ≡ record { states = self.old.states; seats = map (asking who.now) self.old.seats } }
    {
        if let Some(place) = place_of(self.workers.as_slice(), who) {
            self.workers[place].asked = true;
        }
    }

    /// No worker has asked for work.
    pub fn forget_asks(&mut self)
        ensures { self.new ≡ record { states = self.old.states; seats = map not_asking self.old.seats } }
    {
        for place in 0..self.workers.len() {
            self.forget_ask_of(place);
        }
    }

    /// The worker at this place hasn't asked.
    fn forget_ask_of(&mut self, place: usize)
        requires { place < length self.old.seats }
        ensures { (s : Seat) → self.new ≡ record { states = self.old.states; seats = slice_set self.old.seats place (not_asking (slice_index_or self.old.seats place s)) } }
    {
        self.workers[place].asked = false;
    }

    /// Each job that is at a worker is free.
    pub fn free_given(&mut self)
        ensures { self.new ≡ record { states = map freed self.old.states; seats = self.old.seats } }
    {
        for place in 0..self.workers.len() {
            self.free_jobs_of(place);
        }
    }

    /// A job is queued, and free.
    pub fn queue(&mut self, job: usize)
        requires within { job < length self.old.states }
        requires first { state_at self.old.states job ≡ state.Unqueued }
        ensures { self.new ≡ record { states = slice_set self.old.states job state.Free; seats = self.old.seats } }
    {
        self.states[job] = JobState::Free;
        self.free.insert(job);
    }

    /// A free job is given to a worker that is up.
    pub fn give(&mut self, job: usize, who: &Incarnation)
        requires within { job < length self.old.states }
        requires free { state_at self.old.states job ≡ state.Free }
        requires up { is_among who.now (whos self.old.seats) ≡ true }
        requires few { load_of who.now self.old.states < 4294967295 }
        ensures { self.new ≡ record { states = slice_set self.old.states job (state.Given who.now); seats = self.old.seats } }
    {
        if let Some(place) = place_of(self.workers.as_slice(), who) {
            put_given(&mut self.states, job, who);
            self.free.remove(job);
            give(&mut self.workers[place], job);
        }
    }

    /// A job is confirmed: it is at no worker, and isn't free.
    pub fn confirm(&mut self, job: usize)
        requires { job < length self.old.states }
        ensures { self.new ≡ record { states = slice_set self.old.states job state.Confirmed; seats = self.old.seats } }
    {
        self.take_back(job);
        self.close(job);
    }

    /// A job that is at a worker is free.
    fn take_back(&mut self, job: usize)
        requires { job < length self.old.states }
        ensures { self.new ≡ record { states = slice_set self.old.states job (freed (state_at self.old.states job)); seats = self.old.seats } }
    {
        match self.states[job] {
            JobState::Given(who) => self.take(job, &who),
            _ => {}
        }
    }

    /// A job that is at no worker is confirmed.
    fn close(&mut self, job: usize)
        requires within { job < length self.old.states }
        requires none { given_of (state_at self.old.states job) ≡ None }
        ensures { self.new ≡ record { states = slice_set self.old.states job state.Confirmed; seats = self.old.seats } }
    {
        self.states[job] = JobState::Confirmed;
        self.free.remove(job);
    }

    /// A job is free that is at this worker.
    fn take(&mut self, job: usize, who: &Incarnation)
        requires within { job < length self.old.states }
        requires given { state_at self.old.states job ≡ state.Given who.now }
        ensures { self.new ≡ record { states = slice_set self.old.states job state.Free; seats = self.old.seats } }
    {
        if let Some(place) = place_of(self.workers.as_slice(), who) {
            put_free(&mut self.states, job);
            self.free.insert(job);
            take(&mut self.workers[place], job);
        }
    }

    /// The worker at this place, which has no jobs, is gone.
    fn drop_worker(&mut self, place: usize, who: &Incarnation)
        requires within { place < length self.old.seats }
        requires it { (s : Seat) → (slice_index_or self.old.seats place s).who ≡ who.now }
        requires none { (i : ℕ) → is_given_to who.now (state_at self.old.states i) ≡ false }
        ensures { self.new ≡ record { states = self.old.states; seats = filter (λ (s : Seat). not (is_same who.now s.who)) self.old.seats } }
    {
        let _ = who;
        self.workers.remove(place);
    }

    /// The jobs are free that are at the worker at this place.
    fn free_jobs_of(&mut self, place: usize)
        requires { place < length self.old.seats }
        ensures { (s : Seat) → self.new ≡ record { states = map (freed_from (slice_index_or self.old.seats place s).who) self.old.states; seats = self.old.seats } }
    {
        free_all(&mut self.states, &mut self.free, &self.workers[place].given);
        clear(&mut self.workers[place]);
    }
}

/// The job is at this worker.
fn put_given(states: &mut Vec<JobState>, job: usize, who: &Incarnation)
    requires { job < length states.old.items }
    ensures { states.new.items ≡ slice_set states.old.items job (state.Given who.now) }
{
    states[job] = JobState::Given(*who);
}

/// The job is free.
fn put_free(states: &mut Vec<JobState>, job: usize)
    requires { job < length states.old.items }
    ensures { states.new.items ≡ slice_set states.old.items job state.Free }
{
    states[job] = JobState::Free;
}

/// The place of a worker, if it is up.
fn place_of(workers: &[Worker], who: &Incarnation) -> Option<usize>
    ensures there { IfSome result (λ k. k < length workers.now) }
    ensures it { IfSome result (λ k. (w : Worker) → (slice_index_or workers.now k w).who ≡ who.now) }
    ensures none { IfNone result (is_among who.now (map (λ (w : Worker). w.who) workers.now) ≡ false) }
{
    for place in 0..workers.len() {
        if *who == workers[place].who {
            return Some(place);
        }
    }
    None
}

/// The worker at a node.
fn worker_at(workers: &[Worker], node: NodeNo) -> Option<Incarnation>
    ensures { result ≡ find (λ (x : Incarnation). x.node == node) (map (λ (w : Worker). w.who) workers.now) }
{
    workers
        .iter()
        .map(|worker| worker.who)
        .find(|who| who.node == node)
}

/// The first worker that has asked and has fewer jobs than this.
fn first_ready_of(workers: &[Worker], window: u32) -> Option<Incarnation>
    ensures { result ≡ option_map (λ (w : Worker). w.who) (find (λ (w : Worker). w.asked && nat_lt w.load window) workers.now) }
{
    workers
        .iter()
        .find(|worker| worker.asked && worker.load < window)
        .map(|worker| worker.who)
}

/// These jobs are free.
fn free_all(states: &mut Vec<JobState>, free: &mut PlaceSet, given: &PlaceSet)
    requires bound { free.old.bound ≡ length states.old.items }
    requires given { given.now.bound ≡ length states.old.items }
    ensures there { length states.new.items ≡ length states.old.items }
    ensures bound { free.new.bound ≡ free.old.bound }
    ensures states { (i : ℕ) → i < length states.old.items → state_at states.new.items i ≡ (if set.is_in given.now i then state.Free else state_at states.old.items i) }
    ensures free { (i : ℕ) → i < length states.old.items → set.is_in free.new i ≡ (set.is_in given.now i || set.is_in free.old i) }
{
    let mut job = given.next(0);
    while job < states.len() {
        states[job] = JobState::Free;
        free.insert(job);
        job = given.next(job + 1);
    }
}
