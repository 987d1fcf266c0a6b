//! What a form writes of a script.
ghost use Rattle.std.specs.Prelude.{◌≡◌, true, IfOk, IsTrue};
ghost use Rattle.yard_model.specs.Solo.{solo_text};
ghost use Rattle.yard_top.specs.Ends.{Holds, IsOf, end_of, stops_at};
ghost use Rattle.program_words.specs.Forms.{from_of, is_bare, is_counted};
ghost use Rattle.yard_top.specs.Texts.{Gives};
ghost use Rattle.run_parts.specs.Writing.{Writes};

use program_words::{Form, Status};
use pull_run::write_pull;
use replay_run::{write_bulk, write_daemon, write_json, write_replay};
use run_parts::{WriteError, write_part};
use solo_run::solo_report;
use std::alloc::Global;
use yard_io::Sink;
use yard_model::Charter;

/// Writes what a form that needs a script alone writes of this script. The line with which its trace stops, where it
/// does. Nothing is flushed.
pub fn write_form<K: Sink>(
    alloc: Global,
    form: Form,
    charter: Charter,
    sink: &mut K,
) -> Result<Option<u32>, WriteError>
    requires of { IsOf (from_of form) charter }
    requires bare { is_bare form ≡ true }
    requires count { IsTrue (is_counted form) }
    ensures wrote { Gives form charter result
        (record { taken = K.taken sink.old; flushed = K.flushed sink.old; faults = K.faults sink.old })
        (record { taken = K.taken sink.new; flushed = K.flushed sink.new; faults = K.faults sink.new }) }
    ensures stop { IfOk result (λ stop. stop ≡ stops_at form charter) }
    ensures holds { Holds form charter }
{
    match form {
        Form::Solo => write_solo(alloc, &charter, sink),
        Form::Replay => write_replay(alloc, charter, sink),
        Form::ReplayJson => write_json(alloc, charter, sink),
        Form::Bulk(number) => write_bulk(alloc, &charter, number, sink),
        Form::Live { .. } | Form::Log | Form::Resume | Form::Apply => unreachable!(),
        Form::Pull => write_pull(alloc, &charter, sink),
        Form::Daemon(count) => write_daemon(alloc, &charter, count, sink),
    }
}

/// Writes the report of `solo`: its trace never stops.
fn write_solo<K: Sink>(
    alloc: Global,
    charter: &Charter,
    sink: &mut K,
) -> Result<Option<u32>, WriteError>
    ensures wrote { Writes (solo_text charter.now) result
        (record { taken = K.taken sink.old; flushed = K.flushed sink.old; faults = K.faults sink.old })
        (record { taken = K.taken sink.new; flushed = K.flushed sink.new; faults = K.faults sink.new }) }
    ensures stop { IfOk result (λ stop. stop ≡ stops_at Form.Solo charter.now) }
    ensures holds { Holds Form.Solo charter.now }
{
    let text = solo_report(alloc, charter)?;
    write_part(sink, text.as_slice())?;
    Ok(None)
}

/// How a run ends whose text was written.
pub(crate) fn end_of(stop: Option<u32>) -> Status
    ensures { result ≡ end_of stop }
{
    match stop {
        None => Status::Ok,
        Some(line) => Status::WireFull { line },
    }
}
