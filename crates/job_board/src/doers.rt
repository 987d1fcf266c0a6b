//! Who has done each job, by the job's place among the sends of the producer.
ghost use Rattle.std.specs.Prelude.{◌≡◌, ◌<◌, [], ◌∷◌, ◌++◌, length, replicate, IfOk, OnOk, OnErr, slice_index_or, slice_set, map};
ghost use Rattle.yard_model.specs.Words.{is_among};

use std::alloc::{AllocError, Global};
use std::marker::Model;
use yard_model::Incarnation;

/// The workers that have done each job; seen as a list for each.
#[derive(Drop)]
pub struct Doers {
    lists: Vec<Vec<Incarnation>>,
}

impl Model for Doers {
    ghost use Rattle.std.specs.Prelude.{List, map};
    ghost use Rattle.yard_model.specs.declared.incarnation.Incarnation.{Incarnation};

    ghost Value = { List (List Incarnation) };

    ghost view = { λ d. map (λ v. v.items) d.lists.items };
}

impl Doers {
    /// So many jobs, none done. The only error is want of memory.
    pub fn new(alloc: Global, count: usize) -> Result<Doers, AllocError>
        ensures { IfOk result (λ d. d ≡ replicate count []) }
    {
        let lists = no_doers(alloc, count)?;
        Ok(Doers { lists })
    }

    /// Whether a worker has done a job.
    pub fn has(&self, job: usize, who: &Incarnation) -> bool
        requires { job < length self.now }
        ensures { result ≡ is_among who.now (slice_index_or self.now job []) }
    {
        is_in_list(self.lists[job].as_slice(), who)
    }

    /// How many workers have done a job.
    pub fn count(&self, job: usize) -> usize
        requires { job < length self.now }
        ensures { result ≡ length (slice_index_or self.now job []) }
    {
        self.lists[job].len()
    }

    /// A worker has done a job. The only error is want of memory, and then nothing changes.
    pub fn push(&mut self, job: usize, who: &Incarnation) -> Result<(), AllocError>
        requires { job < length self.old }
        ensures ok { OnOk result (self.new ≡ slice_set self.old job (slice_index_or self.old job [] ++ who.now ∷ [])) }
        ensures err { OnErr result (self.new ≡ self.old) }
    {
        push_at(&mut self.lists, job, who)
    }
}

/// One doer more of this job. The only error is want of memory, and then nothing changes.
fn push_at(
    doers: &mut Vec<Vec<Incarnation>>,
    job: usize,
    who: &Incarnation,
) -> Result<(), AllocError>
    requires { job < length doers.old.items }
    ensures ok { OnOk result (map (λ v. v.items) doers.new.items ≡ slice_set (map (λ v. v.items) doers.old.items) job (slice_index_or (map (λ v. v.items) doers.old.items) job [] ++ who.now ∷ [])) }
    ensures err { OnErr result (map (λ v. v.items) doers.new.items ≡ map (λ v. v.items) doers.old.items) }
{
    doers[job].push(*who)?;
    Ok(())
}

/// Whether a worker is among these.
fn is_in_list(list: &[Incarnation], who: &Incarnation) -> bool
    ensures { result ≡ is_among who.now list.now }
{
    list.iter().any(|x| who == x)
}

/// So many jobs that nobody has done. The only error is want of memory.
fn no_doers(alloc: Global, count: usize) -> Result<Vec<Vec<Incarnation>>, AllocError>
    ensures { IfOk result (λ v. map (λ w. w.items) v.items ≡ replicate count []) }
{
    let mut doers = Vec::with_capacity(alloc, count)?;
    for _ in 0..count {
        doers.push(Vec::new(alloc))?;
    }
    Ok(doers)
}
