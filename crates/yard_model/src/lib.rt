//! The plain types of the cluster, which every other crate speaks of, and in `specs/` the
//! definitions that every contract cites.
//!
//! Nothing here acts: a type keeps its range or its form, and compares as its value does.
#![tactic(auto)]

mod charter;
mod counts;
mod entry;
mod event;
mod events;
mod fact;
mod facts;
mod hints;
mod incarnation;
mod input;
mod items;
pub mod laws;
mod load;
mod members;
mod name;
mod name_list;
mod number;
mod out;
mod packet;
mod shard_set;
mod state;

pub use charter::{Charter, Config, Line, Order, Sending};
pub use counts::Counts;
pub use entry::{CoordEntry, Lists, QueueEntry, ShardEntry};
pub use event::{Command, Decision, Event, Kind, Reply};
pub use events::Events;
pub use fact::Fact;
pub use facts::Facts;
pub use incarnation::{Cause, Incarnation, Keep, Slot, Stamp};
pub use input::{Input, Phase};
pub use items::Items;
pub use load::{Load, Loads};
pub use members::Members;
pub use name::{EntityName, is_name};
pub use name_list::NameList;
pub use number::{NodeNo, ProducerNo, ShardNo};
pub use out::{Item, Out};
pub use packet::{Body, Message, Packet, Record};
pub use shard_set::ShardSet;
pub use state::{CartItem, State};
