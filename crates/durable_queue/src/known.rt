//! What is known of a producer's sends: the names of the script, and what goes to each.
ghost use Rattle.std.specs.Prelude.{◌≡◌, ◌≤◌, ℕ, List, true, length, map, take, IfOk, OnOk};
ghost use Rattle.std.specs.List.{list_any};
ghost use Rattle.std.specs.List.Sorted.{IsStrictlySortedBy};
ghost use Rattle.std.specs.Ordering.{nat_cmp};
ghost use Rattle.std.specs.Cmp.Lexicographic.{slice_cmp};
ghost use Rattle.yard_model.specs.Script.{is_name, names_in, sends};
ghost use Rattle.durable_queue.specs.Kept.{AreMoved, ArePlans};

use crate::counts::Counts;
use crate::hints::{find_rest, hints_of};
use crate::moved::move_all;
use crate::names::Names;
use crate::plans::{add_rest, plans_of};
use std::alloc::{AllocError, Global};
use yard_model::{Charter, Command, ProducerNo};

/// The names, the hint of each send, and the commands to each name. A store takes them apart: made by
/// themselves, they are one value where it is made.
#[derive(Drop)]
pub(crate) struct Known {
    pub(crate) names: Names,
    pub(crate) hints: Vec<u16>,
    pub(crate) plans: Vec<Vec<Command>>,
}

/// What is known of the sends of a producer of this charter, where the place of the name to which each goes
/// may be the one among these. The only error is want of memory.
pub(crate) fn known_of(
    alloc: Global,
    charter: &Charter,
    producer: ProducerNo,
    given: &[u16],
) -> Result<Known, AllocError>
    ensures names { IfOk result (λ k. k.names ≡ names_in charter.now.orders) }
    ensures sorted { IfOk result (λ k. IsStrictlySortedBy (slice_cmp nat_cmp) k.names) }
    ensures sized { IfOk result (λ k. length k.plans.items ≡ length k.names) }
    ensures plans { IfOk result (λ k. ArePlans k.names (map (λ v. v.items) k.plans.items) (sends charter.now producer)) }
{
    let sends = charter.sends(producer);
    let names = Names::new(alloc, charter)?;
    let hints = hints_of(alloc, &names, sends, given)?;
    let plans = plans_of(alloc, &names, sends, hints.as_slice())?;
    Ok(Known {
        names,
        hints,
        plans,
    })
}

/// What is known of the sends of a producer of this charter, of which so many were known, and the counts of each
/// name, which are those that were. The only error is want of memory.
pub(crate) fn know_more(
    alloc: Global,
    charter: &Charter,
    producer: ProducerNo,
    planned: usize,
    known: &mut Known,
    counts: &mut Counts,
) -> Result<(), AllocError>
    requires all { (e : List ℕ) → list_any (is_name e) known.old.names ≡ true → list_any (is_name e) (names_in charter.now.orders) ≡ true }
    requires sized { length known.old.plans.items ≡ length known.old.names }
    requires queued { length counts.old.queued.items ≡ length known.old.names }
    requires confirmed { length counts.old.confirmed.items ≡ length known.old.names }
    requires within { planned ≤ length (sends charter.now producer) }
    requires plans { ArePlans known.old.names (map (λ v. v.items) known.old.plans.items) (take planned (sends charter.now producer)) }
    ensures names { OnOk result (known.new.names ≡ names_in charter.now.orders) }
    ensures sorted { OnOk result (IsStrictlySortedBy (slice_cmp nat_cmp) known.new.names) }
    ensures sized { OnOk result (length known.new.plans.items ≡ length known.new.names) }
    ensures plans { OnOk result (ArePlans known.new.names (map (λ v. v.items) known.new.plans.items) (sends charter.now producer)) }
    ensures queued { OnOk result ((length counts.new.queued.items ≡ length known.new.names) × AreMoved 0 known.old.names known.new.names counts.old.queued.items counts.new.queued.items) }
    ensures confirmed { OnOk result ((length counts.new.confirmed.items ≡ length known.new.names) × AreMoved 0 known.old.names known.new.names counts.old.confirmed.items counts.new.confirmed.items) }
{
    let names = Names::new(alloc, charter)?;
    let moved = move_all(alloc, &known.names, &mut known.plans, counts, &names)?;
    known.names = names;
    *counts = moved;
    let sends = charter.sends(producer);
    find_rest(&mut known.hints, &known.names, sends, planned)?;
    add_rest(
        &mut known.plans,
        &known.names,
        sends,
        known.hints.as_slice(),
        planned,
    )?;
    Ok(())
}

/// How many sends a producer has.
pub(crate) fn how_many(charter: &Charter, producer: ProducerNo) -> usize
    ensures { result ≡ length (sends charter.now producer) }
{
    charter.sends(producer).len()
}
