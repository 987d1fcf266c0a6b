//! What `live` writes of a script.
ghost use Rattle.std.specs.Prelude.{◌≤◌, length};
ghost use Rattle.yard_top.specs.Texts.{Gives};
ghost use Rattle.program_words.specs.declared.forms.Form.TheVariants as form;

use run_parts::WriteError;
use std::alloc::Global;
use std::sync::Wait;
use std::thread::Threads;
use yard_io::{Gate, Sink};
use yard_model::Charter;

/// Runs the nodes of a script, which has at most 20,000 orders, as threads, each for so many turns at most, settles what they leave, and
/// writes the lists of all slots and their report. It may wait. Nothing is flushed, and nothing is written
/// where there is no memory.
pub(crate) fn write_live<R: Threads + Wait + Sync, G: Gate + Sync, K: Sink>(
    rt: &R,
    alloc: Global,
    charter: &Charter,
    turns: u32,
    seed: u32,
    gate: &G,
    sink: &mut K,
) -> Result<(), WriteError>
    requires { length charter.now.orders ≤ 20000 }
    ensures { Gives (form.Live turns seed) charter.now result
        (record { taken = K.taken sink.old; flushed = K.flushed sink.old; faults = K.faults sink.old })
        (record { taken = K.taken sink.new; flushed = K.flushed sink.new; faults = K.faults sink.new }) }
{
    live_run::write_live(rt, alloc, charter, turns, seed, gate, sink)
}
