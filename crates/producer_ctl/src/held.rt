//! A producer whose queue may be held.
ghost use Rattle.std.specs.Prelude.{◌≡◌, ℕ, ◌+◌, ◌<◌, ◌≤◌, true, false, length, None, Some, OnOk, IfSome, MatchOption};
ghost use Rattle.std.specs.Option.{option_map, option_map_or, option_and_then};
ghost use Rattle.yard_model.specs.Producer.{message_of, next_sending};
ghost use Rattle.yard_model.specs.Script.{setting, sends};
ghost use Rattle.yard_model.specs.SlotReads.{queued};
ghost use Rattle.producer_ctl.specs.Paired.{IsPlace, IsNext, name_at};
ghost use Rattle.producer_ctl.specs.Produced.{given, acking, asking, queueing, resending, repeating, waits_to, StandsAs};
ghost use Rattle.producer_ctl.specs.Producing.{IsQueued, IsSent, IsReserved, room_of, of_item, moves_of};

use crate::place::Place;
use crate::producer::Producer;
use send_window::Sends;
use std::alloc::AllocError;
use yard_model::{Charter, EntityName, Message, Out, Sending};

/// The send is queued, where the queue is held.
pub(crate) fn queue_in(
    held: &mut Option<Producer>,
    place: &Place,
    sending: &Sending,
    out: &mut Out,
) -> Option<Sends>
    requires place { IfSome held.old (λ k. IsPlace k.script place.now) }
    requires entity { place.now.entity ≡ sending.now.entity }
    requires next { IfSome held.old (λ k. next_sending (sends k.script k.state.number) k.state ≡ Some sending.now) }
    requires store { IfSome held.old (λ k. 0 < k.room) }
    requires room { 0 < out.old.spare }
    ensures sent { IsSent (queueing sending.now) held.old held.new result }
    ensures out { out.new ≡ given out.old (moves_of (of_item (queueing sending.now) held.old)) }
{
    match held {
        Some(producer) => Some(producer.queue_next(place, sending, out)),
        None => None,
    }
}

/// A Request is taken, where the queue is held.
pub(crate) fn demand_in(
    held: &mut Option<Producer>,
    place: &Place,
    confirmed: u32,
    up_to: u32,
    out: &mut Out,
) -> Option<Sends>
    requires place { IfSome held.old (λ k. IsPlace k.script place.now) }
    requires queued { IfSome held.old (λ k. confirmed ≤ queued place.now.entity k.state.entries) }
    requires bounded { IfSome held.old (λ k. up_to ≤ confirmed + k.script.config.window) }
    requires store { IfSome held.old (λ k. 0 < k.room) }
    requires room { 0 < out.old.spare }
    ensures sent { IsSent (asking place.now.entity confirmed up_to) held.old held.new result }
    ensures out { out.new ≡ given out.old (moves_of (of_item (asking place.now.entity confirmed up_to) held.old)) }
{
    match held {
        Some(producer) => Some(producer.demand(place, confirmed, up_to, out)),
        None => None,
    }
}

/// An Ack is taken, where the queue is held.
pub(crate) fn ack_in(
    held: &mut Option<Producer>,
    place: &Place,
    confirmed: u32,
    out: &mut Out,
) -> Option<Sends>
    requires place { IfSome held.old (λ k. IsPlace k.script place.now) }
    requires queued { IfSome held.old (λ k. confirmed ≤ queued place.now.entity k.state.entries) }
    requires store { IfSome held.old (λ k. 0 < k.room) }
    requires room { 0 < out.old.spare }
    ensures sent { IsSent (acking place.now.entity confirmed) held.old held.new result }
    ensures out { out.new ≡ given out.old (moves_of (of_item (acking place.now.entity confirmed) held.old)) }
{
    match held {
        Some(producer) => Some(producer.ack(place, confirmed, out)),
        None => None,
    }
}

/// What a Resend asks for, where the queue is held.
pub(crate) fn resend_in(held: &Option<Producer>, place: &Place, from: u32) -> Option<Sends>
    requires place { IfSome held.now (λ k. IsPlace k.script place.now) }
    ensures sent { IsSent (resending place.now.entity from) held.now held.now result }
{
    match held {
        Some(producer) => Some(producer.resend(place, from)),
        None => None,
    }
}

/// The tick of a pair, where the queue is held.
pub(crate) fn tick_in(held: &mut Option<Producer>, place: &Place) -> Option<Sends>
    requires place { IfSome held.old (λ k. IsPlace k.script place.now) }
    ensures sent { IsSent (repeating place.now.entity) held.old held.new result }
{
    match held {
        Some(producer) => Some(producer.tick(place)),
        None => None,
    }
}

/// The next of so many places, from one on, to whose name a command is queued that isn't confirmed;
/// their number where there is none, or the queue isn't held.
pub(crate) fn next_waiting_in(held: &Option<Producer>, from: usize, names: usize) -> usize
    requires from { from ≤ names }
    requires names { IfSome held.now (λ k. length (setting k.script).names ≡ names) }
    ensures { IsNext (λ k. option_map_or (λ x. waits_to (name_at (setting x.script).names k) x.state) held.now false) from names result }
{
    match held {
        Some(producer) => producer.next_waiting(from),
        None => names,
    }
}

/// The next send that isn't queued, where the queue is held.
pub(crate) fn next_in(held: &Option<Producer>, charter: &Charter) -> Option<Sending>
    requires charter { IfSome held.now (λ k. charter.now ≡ k.script) }
    ensures { result ≡ option_and_then (λ k. next_sending (sends k.script k.state.number) k.state) held.now }
{
    match held {
        Some(producer) => producer.next(charter),
        None => None,
    }
}

/// Where the name of the next send may stand; 0 where the queue isn't held.
pub(crate) fn hint_in(held: &Option<Producer>) -> usize {
    match held {
        Some(producer) => producer.hint(),
        None => 0,
    }
}

/// The message of a queued number of a producer whose queue is held.
pub(crate) fn message_in(
    held: &Option<Producer>,
    at: usize,
    entity: &EntityName,
    number: u32,
) -> Message
    requires place { IfSome held.now (λ k. IsPlace k.script (record { entity = entity.now; at = at })) }
    requires some { 0 < number }
    requires queued { IsQueued entity.now number held.now }
    ensures { option_map (λ k. message_of entity.now k.state number) held.now ≡ Some result }
{
    match held {
        Some(producer) => producer.message(at, entity, number),
        None => unreachable!(),
    }
}

/// What stands of it.
pub(crate) fn knows_in(held: &Option<Producer>)
    ensures { IfSome held.now StandsAs }
{
    if let Some(producer) = held {
        producer.knows();
    }
}

/// Whether there is room for so many entries in the queue, where it is held.
pub(crate) fn has_room_in(held: &Option<Producer>, wanted: u32) -> bool
    ensures { result ≡ true → (held.now ≡ None → ⊥) → wanted ≤ room_of held.now }
{
    match held {
        Some(producer) => producer.has_room(wanted),
        None => true,
    }
}

/// Makes room for so many entries in the queue, where it is held. The only error is want of memory.
pub(crate) fn reserve_in(held: &mut Option<Producer>, wanted: u32) -> Result<(), AllocError>
    ensures kept { IsReserved held.old held.new }
    ensures ok { OnOk result ((held.old ≡ None → ⊥) → wanted ≤ room_of held.new) }
{
    match held {
        Some(producer) => producer.reserve(wanted),
        None => Ok(()),
    }
}
