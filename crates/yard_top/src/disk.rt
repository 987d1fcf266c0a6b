//! `log`, `resume` and `apply`: the forms that work on a disk.
ghost use Rattle.std.specs.Prelude.{◌≡◌, ◌<◌, ◌≤◌, ◌⊎◌, Some, IsTrue};
ghost use Rattle.yard_model.specs.Replay.{replay_text};
ghost use Rattle.yard_model.specs.Safe.{safe};
ghost use Rattle.yard_model.specs.World.{trace_of};
ghost use Rattle.play_laws.specs.SafeText.{SafeText};
ghost use Rattle.replay_run.specs.Settling.{EachSettles};
ghost use Rattle.program_words.specs.declared.forms.Form.TheVariants as form;
ghost use Rattle.yard_io.specs.Told.{TakesFront, count_of, followed_by};
ghost use Rattle.yard_top.specs.Disks.{ApplyEnds, IfNoScript, LogEnded, ResumeEnds, platter};
ghost use Rattle.yard_top.specs.Ends.{EndsAs, IsComplete, NoneFell, streams};

use crate::script::read_charter;
use crate::text::end_of;
use apply_run::apply_text;
use disk_log::Disk;
use logged_lines::LogError;
use play_laws::play::{replay_is_safe, trace_is_safe};
use program_words::Status;
use replay_run::write_log;
use resume_run::{ResumeError, resume_text};
use script_text::Mode;
use settle_laws::worlds::settle_line_settles;
use std::alloc::Global;
use yard_io::{Sink, Source, write_all};
use yard_model::Charter;

/// Carries `log` out: gets its script, plays it, and writes its text, each order's entries on the disk before
/// its lines.
pub(crate) fn run_log<S: Source, K: Sink, D: Disk>(
    alloc: Global,
    source: &mut S,
    sink: &mut K,
    disk: &mut D,
) -> Status
    ensures ends { EndsAs form.Log
        (streams (S.left source.old) (S.faults source.old) (K.taken sink.old) (K.flushed sink.old) (K.faults sink.old))
        (streams (S.left source.new) (S.faults source.new) (K.taken sink.new) (K.flushed sink.new) (K.faults sink.new)) result }
    ensures complete { IsComplete (Some form.Log)
        (streams (S.left source.old) (S.faults source.old) (K.taken sink.old) (K.flushed sink.old) (K.faults sink.old))
        (streams (S.left source.new) (S.faults source.new) (K.taken sink.new) (K.flushed sink.new) (K.faults sink.new)) result }
    ensures faults { NoneFell
        (streams (S.left source.old) (S.faults source.old) (K.taken sink.old) (K.flushed sink.old) (K.faults sink.old))
        (streams (S.left source.new) (S.faults source.new) (K.taken sink.new) (K.flushed sink.new) (K.faults sink.new)) }
    ensures on_disk { LogEnded D.tells
        (streams (S.left source.old) (S.faults source.old) (K.taken sink.old) (K.flushed sink.old) (K.faults sink.old))
        (streams (S.left source.new) (S.faults source.new) (K.taken sink.new) (K.flushed sink.new) (K.faults sink.new))
        (platter (D.content disk.old) (D.images disk.old) (D.faults disk.old)) (platter (D.content disk.new) (D.images disk.new) (D.faults disk.new)) result }
    ensures untouched { IfNoScript result (disk.new ≡ disk.old) }
{
    let charter = match read_charter(alloc, Mode::Log, source) {
        Ok(charter) => charter,
        Err(status) => return status,
    };
    log_holds(&charter);
    match write_log(alloc, charter, sink, disk) {
        Ok(stop) => match sink.flush() {
            Ok(()) => end_of(stop),
            Err(_) => Status::WriteFault,
        },
        Err(LogError::Failed) => Status::WriteFault,
        Err(LogError::There) => Status::LogThere,
        Err(LogError::Disk) => Status::DiskFault,
        Err(LogError::OutOfMemory) => Status::OutOfMemory,
    }
}

/// What is so of a trace that is logged, whatever its script.
fn log_holds(charter: &Charter)
    ensures safely { SafeText charter.now (replay_text charter.now) }
    ensures safe { IsTrue (safe charter.now (trace_of charter.now)) }
    ensures settles { EachSettles charter.now }
{
    charter.config();
    trace_is_safe();
    replay_is_safe();
    settle_line_settles();
}

/// Carries `resume` out: gets its script, reads the disk, and writes the text of what it has. Nothing is written to
/// the disk.
pub(crate) fn run_resume<S: Source, K: Sink, D: Disk>(
    alloc: Global,
    source: &mut S,
    sink: &mut K,
    disk: &mut D,
) -> Status
    ensures ends { EndsAs form.Resume
        (streams (S.left source.old) (S.faults source.old) (K.taken sink.old) (K.flushed sink.old) (K.faults sink.old))
        (streams (S.left source.new) (S.faults source.new) (K.taken sink.new) (K.flushed sink.new) (K.faults sink.new)) result }
    ensures complete { IsComplete (Some form.Resume)
        (streams (S.left source.old) (S.faults source.old) (K.taken sink.old) (K.flushed sink.old) (K.faults sink.old))
        (streams (S.left source.new) (S.faults source.new) (K.taken sink.new) (K.flushed sink.new) (K.faults sink.new)) result }
    ensures faults { NoneFell
        (streams (S.left source.old) (S.faults source.old) (K.taken sink.old) (K.flushed sink.old) (K.faults sink.old))
        (streams (S.left source.new) (S.faults source.new) (K.taken sink.new) (K.flushed sink.new) (K.faults sink.new)) }
    ensures on_disk { ResumeEnds D.tells
        (streams (S.left source.old) (S.faults source.old) (K.taken sink.old) (K.flushed sink.old) (K.faults sink.old))
        (streams (S.left source.new) (S.faults source.new) (K.taken sink.new) (K.flushed sink.new) (K.faults sink.new))
        (platter (D.content disk.old) (D.images disk.old) (D.faults disk.old)) (platter (D.content disk.new) (D.images disk.new) (D.faults disk.new)) result }
    ensures untouched { IfNoScript result (disk.new ≡ disk.old) }
{
    let charter = match read_charter(alloc, Mode::Log, source) {
        Ok(charter) => charter,
        Err(status) => return status,
    };
    match resume_text(alloc, &charter, disk) {
        Ok(text) => write_text(text.as_slice(), sink),
        Err(ResumeError::Failed) => Status::DiskFault,
        Err(ResumeError::OutOfMemory) => Status::OutOfMemory,
        Err(ResumeError::Damaged { at }) => Status::LogDamaged { at },
        Err(ResumeError::Foreign { batch }) => Status::LogForeign { batch },
    }
}

/// Carries `apply` out: gets its script, brings the log on the disk up to it, and writes the report of what is on the
/// disk then.
pub(crate) fn run_apply<S: Source, K: Sink, D: Disk>(
    alloc: Global,
    source: &mut S,
    sink: &mut K,
    disk: &mut D,
) -> Status
    ensures ends { EndsAs form.Apply
        (streams (S.left source.old) (S.faults source.old) (K.taken sink.old) (K.flushed sink.old) (K.faults sink.old))
        (streams (S.left source.new) (S.faults source.new) (K.taken sink.new) (K.flushed sink.new) (K.faults sink.new)) result }
    ensures complete { IsComplete (Some form.Apply)
        (streams (S.left source.old) (S.faults source.old) (K.taken sink.old) (K.flushed sink.old) (K.faults sink.old))
        (streams (S.left source.new) (S.faults source.new) (K.taken sink.new) (K.flushed sink.new) (K.faults sink.new)) result }
    ensures faults { NoneFell
        (streams (S.left source.old) (S.faults source.old) (K.taken sink.old) (K.flushed sink.old) (K.faults sink.old))
        (streams (S.left source.new) (S.faults source.new) (K.taken sink.new) (K.flushed sink.new) (K.faults sink.new)) }
    ensures on_disk { ApplyEnds D.tells
        (streams (S.left source.old) (S.faults source.old) (K.taken sink.old) (K.flushed sink.old) (K.faults sink.old))
        (streams (S.left source.new) (S.faults source.new) (K.taken sink.new) (K.flushed sink.new) (K.faults sink.new))
        (platter (D.content disk.old) (D.images disk.old) (D.faults disk.old)) (platter (D.content disk.new) (D.images disk.new) (D.faults disk.new)) result }
    ensures untouched { IfNoScript result (disk.new ≡ disk.old) }
{
    let charter = match read_charter(alloc, Mode::Log, source) {
        Ok(charter) => charter,
        Err(status) => return status,
    };
    match apply_text(alloc, &charter, disk) {
        Ok(text) => write_text(text.as_slice(), sink),
        Err(ResumeError::Failed) => Status::DiskFault,
        Err(ResumeError::OutOfMemory) => Status::OutOfMemory,
        Err(ResumeError::Damaged { at }) => Status::LogDamaged { at },
        Err(ResumeError::Foreign { batch }) => Status::LogForeign { batch },
    }
}

/// Writes and flushes a text.
fn write_text<K: Sink>(text: &[u8], sink: &mut K) -> Status
    ensures ok { result ≡ Status.Ok →
        (K.taken sink.new ≡ followed_by (K.taken sink.old) text.now) × (K.flushed sink.new ≡ count_of (K.taken sink.new)) }
    ensures failed { result ≡ Status.WriteFault → (K.faults sink.old < K.faults sink.new) × TakesFront (K.taken sink.old) (K.taken sink.new) text.now }
    ensures either { (result ≡ Status.Ok) ⊎ (result ≡ Status.WriteFault) }
    ensures never_falls { K.faults sink.old ≤ K.faults sink.new }
{
    match write_all(sink, text) {
        Ok(()) => match sink.flush() {
            Ok(()) => Status::Ok,
            Err(_) => Status::WriteFault,
        },
        Err(_) => Status::WriteFault,
    }
}
