//! One incarnation of a node: its region, its entities, the producers whose queue it holds and, while
//! it holds the coordinator's slot, the shard coordinator (Akka 2.6, Cluster Sharding concepts). Each
//! input is handled whole before the next.
//!
//! `node` is the type that others see, and `grounds` what all nodes of a script share. `actors` has the
//! parts side by side, and `beginning` makes them; `region_part`, `coordinator_part` and `entities_part` are the steps of one actor
//! each, which ask for no lease; `producing` has those of the producers; `lead` asks for a lease; so does
//! `starting`, and `releasing` routes what was kept, which `homes` puts together; `ticking` is the tick;
//! `packets` and `inputs` put steps together; `end` is the crash.
#![tactic(auto)]

mod actors;
mod beginning;
mod coordinator_part;
mod end;
mod entities_part;
mod grounds;
mod homes;
mod inputs;
mod lead;
mod node;
mod packets;
mod producing;
mod region_part;
mod releasing;
mod starting;
mod ticking;

pub use grounds::Grounds;
pub use node::Node;
