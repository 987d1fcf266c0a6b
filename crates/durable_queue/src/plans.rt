//! The commands to each name, in the order of the sends, at the name's place.
ghost use Rattle.std.specs.Prelude.{◌≡◌, ◌<◌, ◌≤◌, ◌++◌, ◌∷◌, [], true, length, map, replicate, take, slice_get, slice_set, slice_index_or, IfOk, OnOk};
ghost use Rattle.std.specs.List.{list_any};
ghost use Rattle.yard_model.specs.Script.{is_name};
ghost use Rattle.durable_queue.specs.Kept.{planned, place_of, ArePlans, AreNamed};

use crate::hints::{hint_at, rooms_of};
use crate::names::Names;
use std::alloc::{AllocError, Global};
use yard_model::{Command, EntityName, Sending};

/// The commands of these sends, of which each may go to the name at its hint. The only error is want of
/// memory.
pub(crate) fn plans_of(
    alloc: Global,
    names: &Names,
    sends: &[Sending],
    hints: &[u16],
) -> Result<Vec<Vec<Command>>, AllocError>
    requires { AreNamed names.now sends.now }
    ensures sized { IfOk result (λ plans. length plans.items ≡ length names.now) }
    ensures plans { IfOk result (λ plans. ArePlans names.now (map (λ v. v.items) plans.items) sends.now) }
{
    let mut plans = blank_plans(alloc, names.len(), hints)?;
    add_rest(&mut plans, names, sends, hints, 0)?;
    Ok(plans)
}

/// The commands of the sends behind so many of these, of which each may go to the name at its hint. The only
/// error is want of memory.
pub(crate) fn add_rest(
    plans: &mut Vec<Vec<Command>>,
    names: &Names,
    sends: &[Sending],
    hints: &[u16],
    done: usize,
) -> Result<(), AllocError>
    requires named { AreNamed names.now sends.now }
    requires sized { length plans.old.items ≡ length names.now }
    requires within { done ≤ length sends.now }
    requires done { ArePlans names.now (map (λ v. v.items) plans.old.items) (take done sends.now) }
    ensures sized { length plans.new.items ≡ length plans.old.items }
    ensures plans { OnOk result (ArePlans names.now (map (λ v. v.items) plans.new.items) sends.now) }
{
    for at in done..sends.len() {
        let sending = send_at(sends, at);
        add(plans, names, sending, hint_at(hints, at))?;
    }
    Ok(())
}

/// The send at a place.
fn send_at(sends: &[Sending], place: usize) -> &Sending
    requires { place < length sends.now }
    ensures { result.now ≡ slice_index_or sends.now place result.now }
{
    &sends[place]
}

/// So many empty plans, each with room for as many commands as have its hint. The only error is want of
/// memory.
fn blank_plans(alloc: Global, count: usize, hints: &[u16]) -> Result<Vec<Vec<Command>>, AllocError>
    ensures { IfOk result (λ plans. map (λ v. v.items) plans.items ≡ replicate count []) }
{
    let rooms = rooms_of(alloc, count, hints)?;
    no_plans(alloc, rooms.as_slice())
}

/// An empty plan for each of these rooms. The only error is want of memory.
pub(crate) fn no_plans(alloc: Global, rooms: &[u32]) -> Result<Vec<Vec<Command>>, AllocError>
    ensures { IfOk result (λ plans. map (λ v. v.items) plans.items ≡ replicate (length rooms.now) []) }
{
    let mut plans = Vec::with_capacity(alloc, rooms.len())?;
    for room in rooms {
        let plan = Vec::with_capacity(alloc, *room as usize)?;
        plans.push(plan)?;
    }
    Ok(plans)
}

/// The command of a send, behind the others to its name, which may stand at `hint`. The only error is want
/// of memory.
fn add(
    plans: &mut Vec<Vec<Command>>,
    names: &Names,
    sending: &Sending,
    hint: usize,
) -> Result<(), AllocError>
    requires sized { length plans.old.items ≡ length names.now }
    requires named { list_any (is_name sending.now.entity) names.now ≡ true }
    ensures sized { length plans.new.items ≡ length plans.old.items }
    ensures plan { OnOk result (map (λ v. v.items) plans.new.items ≡ slice_set (map (λ v. v.items) plans.old.items) (place_of names.now sending.now.entity) (planned names.now (map (λ v. v.items) plans.old.items) sending.now.entity ++ sending.now.command ∷ [])) }
{
    let place = names.place_near(&sending.entity, hint);
    plans[place].push(sending.command)?;
    Ok(())
}

/// The command of a number, from 0, of those to a name; None exactly where there is none.
pub(crate) fn command_to(
    names: &Names,
    plans: &[Vec<Command>],
    entity: &EntityName,
    number: usize,
) -> Option<Command>
    requires { length plans.now ≡ length names.now }
    ensures { result ≡ slice_get (planned names.now (map (λ v. v.items) plans.now) entity.now) number }
{
    match names.find(entity) {
        Some(place) => command_at(plans, place, number),
        None => None,
    }
}

/// The command of a number, from 0, of those at a place; None exactly where there is none.
pub(crate) fn command_at(plans: &[Vec<Command>], place: usize, number: usize) -> Option<Command>
    requires { place < length plans.now }
    ensures { result ≡ slice_get (slice_index_or (map (λ v. v.items) plans.now) place []) number }
{
    plans[place].as_slice().get(number).copied()
}
