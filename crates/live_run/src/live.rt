//! `live`: from a script to the lists that nodes on threads of their own leave once they are settled, and
//! the report of these lists, written.
ghost use Rattle.std.specs.Prelude.{◌≡◌, ◌≤◌, true, length, IfOk};
ghost use Rattle.yard_model.specs.Script.{is_version};
ghost use Rattle.shard_store.specs.Stores.{lists_at};
ghost use Rattle.live_run.specs.LiveText.{AreLive};
ghost use Rattle.live_run.specs.Written.{WritesLive};

use crate::writing::write_text;
use behaviour_by_kind::ByKind;
use behaviour_core::Behaviour;
use behaviour_core::laws::decided_law;
use live_laws::worked_goes_on;
use node_runner::run_live;
use readable_lists::look_at_lists;
use run_parts::WriteError;
use settle_laws::worlds::few_orders_fit;
use shard_store::Stores;
use std::alloc::{AllocError, Global};
use std::sync::Wait;
use std::thread::Threads;
use trace_text::names_by_shard;
use world_sim::settle_stores;
use yard_io::{Gate, Sink};
use yard_model::Charter;
use yard_model::laws::{command_law, decision_law};

/// Runs the nodes of a script, which has at most 20,000 orders, as threads, each for so many turns at most,
/// settles what they leave, and writes the lists of all slots and their report. These are the lists that a reader
/// reads off the text, since different lists have different texts (`readable_lists: texts_tell_lists`). It may wait. Nothing is
/// flushed, and nothing is written where there is no memory.
pub fn write_live<R: Threads + Wait + Sync, G: Gate + Sync, K: Sink>(
    rt: &R,
    alloc: Global,
    charter: &Charter,
    turns: u32,
    seed: u32,
    gate: &G,
    sink: &mut K,
) -> Result<(), WriteError>
    requires { length charter.now.orders ≤ 20000 }
    ensures { WritesLive charter.now turns result
        (record { taken = K.taken sink.old; flushed = K.flushed sink.old; faults = K.faults sink.old })
        (record { taken = K.taken sink.new; flushed = K.flushed sink.new; faults = K.faults sink.new }) }
{
    let behaviour = ByKind::new(charter.config().kind);
    write_run(rt, alloc, charter, behaviour, turns, seed, gate, sink)
}

/// Writes the text of a run of nodes whose entities behave so. It may wait.
///
/// All that wants memory comes before the first write.
fn write_run<
    R: Threads + Wait + Sync,
    B: Behaviour + Copy + Drop + Send + Sync,
    G: Gate + Sync,
    K: Sink,
>(
    rt: &R,
    alloc: Global,
    charter: &Charter,
    behaviour: B,
    turns: u32,
    seed: u32,
    gate: &G,
    sink: &mut K,
) -> Result<(), WriteError>
    requires kind { B.kind_of behaviour ≡ charter.now.config.kind }
    requires version { is_version charter.now (B.version_of behaviour) ≡ true }
    requires few { length charter.now.orders ≤ 20000 }
    ensures { WritesLive charter.now turns result
        (record { taken = K.taken sink.old; flushed = K.flushed sink.old; faults = K.faults sink.old })
        (record { taken = K.taken sink.new; flushed = K.flushed sink.new; faults = K.faults sink.new }) }
{
    command_law();
    decision_law();
    decided_law();
    let stores = stores_of_run(rt, alloc, charter, behaviour, turns, seed, gate)?;
    charter.config();
    look_at_lists(charter, &stores);
    let names = names_by_shard(alloc, charter)?;
    write_text(charter, names.as_slice(), stores, sink)?;
    Ok(())
}

/// The stores that a run of nodes leaves, whose entities behave so, settled. It may wait. The only error
/// is want of memory.
fn stores_of_run<
    R: Threads + Wait + Sync,
    B: Behaviour + Copy + Drop + Send + Sync,
    G: Gate + Sync,
>(
    rt: &R,
    alloc: Global,
    charter: &Charter,
    behaviour: B,
    turns: u32,
    seed: u32,
    gate: &G,
) -> Result<Stores, AllocError>
    requires kind { B.kind_of behaviour ≡ charter.now.config.kind }
    requires version { is_version charter.now (B.version_of behaviour) ≡ true }
    requires few { length charter.now.orders ≤ 20000 }
    ensures script { IfOk result (λ s. s.script ≡ charter.now) }
    ensures live { IfOk result (λ s. AreLive charter.now turns (lists_at charter.now.config s.places)) }
{
    let stores = run_live(rt, alloc, charter, behaviour, turns, seed, gate)?;
    charter.config();
    worked_goes_on();
    few_orders_fit();
    settle_stores(alloc, charter, behaviour, stores)
}
