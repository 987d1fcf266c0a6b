//! What is kept of each name, moved to its place among more names.
ghost use Rattle.std.specs.Prelude.{◌≡◌, ◌≢◌, ◌<◌, ℕ, List, [], true, length, map, slice_set, slice_index_or, IfOk};
ghost use Rattle.std.specs.List.{list_any};
ghost use Rattle.yard_model.specs.Script.{is_name};
ghost use Rattle.durable_queue.specs.Kept.{AreMoved};

use crate::counts::{Counts, count_at, no_counts, put_at};
use crate::names::Names;
use crate::plans::no_plans;
use std::alloc::{AllocError, Global};
use std::mem::replace;
use yard_model::Command;

/// The commands of each of the old names come to its place among these, which have them all, and the counts
/// that are answered are at these places. The only error is want of memory.
pub(crate) fn move_all(
    alloc: Global,
    old: &Names,
    plans: &mut Vec<Vec<Command>>,
    counts: &Counts,
    names: &Names,
) -> Result<Counts, AllocError>
    requires all { (e : List ℕ) → list_any (is_name e) old.now ≡ true → list_any (is_name e) names.now ≡ true }
    requires plans { length plans.old.items ≡ length old.now }
    requires queued { length counts.now.queued.items ≡ length old.now }
    requires confirmed { length counts.now.confirmed.items ≡ length old.now }
    ensures sized { IfOk result (λ c. (length plans.new.items ≡ length names.now) × (length c.queued.items ≡ length names.now) × (length c.confirmed.items ≡ length names.now)) }
    ensures plans { IfOk result (λ c. AreMoved [] old.now names.now (map (λ v. v.items) plans.old.items) (map (λ v. v.items) plans.new.items)) }
    ensures queued { IfOk result (λ c. AreMoved 0 old.now names.now counts.now.queued.items c.queued.items) }
    ensures confirmed { IfOk result (λ c. AreMoved 0 old.now names.now counts.now.confirmed.items c.confirmed.items) }
{
    let count = names.len();
    let mut fresh = no_counts(alloc, count)?;
    let mut made = no_plans(alloc, fresh.queued.as_slice())?;
    let mut next: usize = 0;
    for at in 0..old.len() {
        let name = old.nth(at);
        let place = names.place_near(name, next);
        let plan = taken_at(alloc, plans, at);
        put_plan(&mut made, place, plan);
        put_counts(&mut fresh, place, counts, at);
        next = place.wrapping_add(1);
    }
    *plans = made;
    Ok(fresh)
}

/// The counts that stand at a place, put at another.
fn put_counts(made: &mut Counts, place: usize, had: &Counts, at: usize)
    requires place { (place < length made.old.queued.items) × (place < length made.old.confirmed.items) }
    requires at { (at < length had.now.queued.items) × (at < length had.now.confirmed.items) }
    ensures queued { made.new.queued.items ≡ slice_set made.old.queued.items place (slice_index_or had.now.queued.items at 0) }
    ensures confirmed { made.new.confirmed.items ≡ slice_set made.old.confirmed.items place (slice_index_or had.now.confirmed.items at 0) }
{
    put_at(&mut made.queued, place, count_at(had.queued.as_slice(), at));
    put_at(
        &mut made.confirmed,
        place,
        count_at(had.confirmed.as_slice(), at),
    );
}

/// The commands that lie at a place, taken out.
fn taken_at(alloc: Global, plans: &mut Vec<Vec<Command>>, place: usize) -> Vec<Command>
    requires { place < length plans.old.items }
    ensures long { length plans.new.items ≡ length plans.old.items }
    ensures had { result.items ≡ slice_index_or (map (λ v. v.items) plans.old.items) place [] }
    ensures others { (k : ℕ) → k ≢ place → slice_index_or (map (λ v. v.items) plans.new.items) k [] ≡ slice_index_or (map (λ v. v.items) plans.old.items) k [] }
{
    replace(&mut plans[place], Vec::new(alloc))
}

/// Other commands at a place.
fn put_plan(plans: &mut Vec<Vec<Command>>, place: usize, plan: Vec<Command>)
    requires { place < length plans.old.items }
    ensures { map (λ v. v.items) plans.new.items ≡ slice_set (map (λ v. v.items) plans.old.items) place plan.items }
{
    plans[place] = plan;
}
