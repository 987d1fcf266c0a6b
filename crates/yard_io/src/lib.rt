//! The edge of the program: where its bytes come from, where they go, and where its threads may be held.
#![tactic(auto)]

mod failed;
mod failing_calls;
mod fault_count;
mod gate;
mod mem_sink;
mod mem_source;
mod sink;
mod source;
mod std_faults;
mod std_sink;
mod std_source;
mod tally;
mod transfer;
mod whole_source;

pub use failed::Failed;
pub use failing_calls::FailingCalls;
pub use fault_count::FaultCount;
pub use gate::{FreeGate, Gate};
pub use mem_sink::MemSink;
pub use mem_source::MemSource;
pub use sink::Sink;
pub use source::Source;
pub use std_faults::StdFaults;
pub use std_sink::StdSink;
pub use std_source::StdSource;
pub use transfer::{ReadError, read_up_to, write_all, writes_add_up};
pub use whole_source::WholeSource;
