//! Laws of the types: `==` is equality of values. Each is a function that does nothing, whose
//! contract is the law; a proof that needs it calls the function.
ghost use Rattle.std.specs.Prelude.{◌≡◌, ◌↔◌, ℕ, List, IsTrue};
ghost use Rattle.yard_model.specs.declared.incarnation.Incarnation.{Incarnation};
ghost use Rattle.yard_model.specs.declared.incarnation.Stamp.{Stamp};
ghost use Rattle.yard_model.specs.declared.incarnation.Slot.{Slot};
ghost use Rattle.yard_model.specs.declared.incarnation.Cause.{Cause};
ghost use Rattle.yard_model.specs.declared.incarnation.Keep.{Keep};
ghost use Rattle.yard_model.specs.declared.event.Command.{Command};
ghost use Rattle.yard_model.specs.declared.event.Decision.{Decision};
ghost use Rattle.yard_model.specs.declared.event.Event.{Event};
ghost use Rattle.yard_model.specs.declared.event.Reply.{Reply};
ghost use Rattle.yard_model.specs.declared.state.CartItem.{CartItem};
ghost use Rattle.yard_model.specs.declared.state.State.{State};
ghost use Rattle.yard_model.specs.declared.load.Load.{Load};
ghost use Rattle.yard_model.specs.declared.packet.Record.{Record};
ghost use Rattle.yard_model.specs.declared.packet.Message.{Message};
ghost use Rattle.yard_model.specs.declared.packet.Packet.{Packet};
ghost use Rattle.yard_model.specs.declared.packet.Body.{Body};
ghost use Rattle.yard_model.specs.declared.charter.Sending.{Sending};
ghost use Rattle.yard_model.specs.declared.charter.Order.{Order};
ghost use Rattle.yard_model.specs.declared.charter.Line.{Line};
ghost use Rattle.yard_model.specs.declared.entry.ShardEntry.{ShardEntry};
ghost use Rattle.yard_model.specs.declared.entry.CoordEntry.{CoordEntry};
ghost use Rattle.yard_model.specs.declared.entry.QueueEntry.{QueueEntry};

use crate::charter::{Line, Order, Sending};
use crate::entry::{CoordEntry, QueueEntry, ShardEntry};
use crate::event::{Command, Decision, Event, Reply};
use crate::events::Events;
use crate::incarnation::{Cause, Incarnation, Keep, Slot, Stamp};
use crate::items::Items;
use crate::load::{Load, Loads};
use crate::members::Members;
use crate::name::EntityName;
use crate::packet::{Body, Message, Packet, Record};
use crate::state::{CartItem, State};

/// Names are equal where their bytes are.
pub fn name_law()
    ensures { (a b : List ℕ) → IsTrue (⟦<EntityName as PartialEq>⟧.eq a b) ↔ (a ≡ b) }
{}

/// Incarnations are equal where node and number are.
pub fn incarnation_law()
    ensures { (a b : Incarnation) → IsTrue (⟦<Incarnation as PartialEq>⟧.eq a b) ↔ (a ≡ b) }
{}

/// Stamps are equal where epoch and round are.
pub fn stamp_law()
    ensures { (a b : Stamp) → IsTrue (⟦<Stamp as PartialEq>⟧.eq a b) ↔ (a ≡ b) }
{}

/// `==` of slots.
pub fn slot_law()
    ensures { (a b : Slot) → IsTrue (⟦<Slot as PartialEq>⟧.eq a b) ↔ (a ≡ b) }
{}

/// `==` of commands.
pub fn command_law()
    ensures { (a b : Command) → IsTrue (⟦<Command as PartialEq>⟧.eq a b) ↔ (a ≡ b) }
{}

/// `==` of events.
pub fn event_law()
    ensures { (a b : Event) → IsTrue (⟦<Event as PartialEq>⟧.eq a b) ↔ (a ≡ b) }
{}

/// `==` of replies.
pub fn reply_law()
    ensures { (a b : Reply) → IsTrue (⟦<Reply as PartialEq>⟧.eq a b) ↔ (a ≡ b) }
{}

/// `==` of items.
pub fn item_law()
    ensures { (a b : CartItem) → IsTrue (⟦<CartItem as PartialEq>⟧.eq a b) ↔ (a ≡ b) }
{}

/// `==` of loads.
pub fn load_law()
    ensures { (a b : Load) → IsTrue (⟦<Load as PartialEq>⟧.eq a b) ↔ (a ≡ b) }
{}

/// Lists of events are equal where each event is.
pub fn events_law()
    ensures { (a b : List Event) → IsTrue (⟦<Events as PartialEq>⟧.eq a b) ↔ (a ≡ b) }
{
    event_law();
}

/// Items are equal where each one is.
pub fn items_law()
    ensures { (a b : List CartItem) → IsTrue (⟦<Items as PartialEq>⟧.eq a b) ↔ (a ≡ b) }
{
    item_law();
}

/// Members are equal where each one is.
pub fn members_law()
    ensures { (a b : List Incarnation) → IsTrue (⟦<Members as PartialEq>⟧.eq a b) ↔ (a ≡ b) }
{
    incarnation_law();
}

/// Loads are equal where each one is.
pub fn loads_law()
    ensures { (a b : List Load) → IsTrue (⟦<Loads as PartialEq>⟧.eq a b) ↔ (a ≡ b) }
{
    load_law();
}

/// `==` of decisions.
pub fn decision_law()
    ensures { (a b : Decision) → IsTrue (⟦<Decision as PartialEq>⟧.eq a b) ↔ (a ≡ b) }
{
    events_law();
    reply_law();
}

/// `==` of states.
pub fn state_law()
    ensures { (a b : State) → IsTrue (⟦<State as PartialEq>⟧.eq a b) ↔ (a ≡ b) }
{
    items_law();
}

/// `==` of records.
pub fn record_law()
    ensures { (a b : Record) → IsTrue (⟦<Record as PartialEq>⟧.eq a b) ↔ (a ≡ b) }
{
    command_law();
    events_law();
    reply_law();
}

/// `==` of messages.
pub fn message_law()
    ensures { (a b : Message) → IsTrue (⟦<Message as PartialEq>⟧.eq a b) ↔ (a ≡ b) }
{
    name_law();
    command_law();
    incarnation_law();
}

/// `==` of what packets say.
pub fn body_law()
    ensures { (a b : Body) → IsTrue (⟦<Body as PartialEq>⟧.eq a b) ↔ (a ≡ b) }
{
    name_law();
    members_law();
    incarnation_law();
    stamp_law();
    message_law();
}

/// `==` of packets.
pub fn packet_law()
    ensures { (a b : Packet) → IsTrue (⟦<Packet as PartialEq>⟧.eq a b) ↔ (a ≡ b) }
{
    incarnation_law();
    body_law();
}

/// `==` of causes.
pub fn cause_law()
    ensures { (a b : Cause) → IsTrue (⟦<Cause as PartialEq>⟧.eq a b) ↔ (a ≡ b) }
{}

/// `==` of what a failed write leaves.
pub fn keep_law()
    ensures { (a b : Keep) → IsTrue (⟦<Keep as PartialEq>⟧.eq a b) ↔ (a ≡ b) }
{}

/// `==` of sendings.
pub fn sending_law()
    ensures { (a b : Sending) → IsTrue (⟦<Sending as PartialEq>⟧.eq a b) ↔ (a ≡ b) }
{
    name_law();
    command_law();
}

/// `==` of orders.
pub fn order_law()
    ensures { (a b : Order) → IsTrue (⟦<Order as PartialEq>⟧.eq a b) ↔ (a ≡ b) }
{
    name_law();
    command_law();
}

/// `==` of lines.
pub fn line_law()
    ensures { (a b : Line) → IsTrue (⟦<Line as PartialEq>⟧.eq a b) ↔ (a ≡ b) }
{
    order_law();
}

/// `==` of a shard's entries.
pub fn shard_entry_law()
    ensures { (a b : ShardEntry) → IsTrue (⟦<ShardEntry as PartialEq>⟧.eq a b) ↔ (a ≡ b) }
{
    name_law();
    incarnation_law();
    record_law();
}

/// `==` of the coordinator's entries.
pub fn coord_entry_law()
    ensures { (a b : CoordEntry) → IsTrue (⟦<CoordEntry as PartialEq>⟧.eq a b) ↔ (a ≡ b) }
{
    incarnation_law();
}

/// `==` of a queue's entries.
pub fn queue_entry_law()
    ensures { (a b : QueueEntry) → IsTrue (⟦<QueueEntry as PartialEq>⟧.eq a b) ↔ (a ≡ b) }
{
    name_law();
    incarnation_law();
    command_law();
}
