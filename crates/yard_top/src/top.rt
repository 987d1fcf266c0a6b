//! The top call.
ghost use Rattle.std.specs.Prelude.{◌≡◌, true, Some, IsTrue};
ghost use Rattle.program_words.specs.Forms.{alone_on, form_in, form_on, from_of, is_bare, is_counted, is_there};
ghost use Rattle.yard_top.specs.Disks.{IfNoDisk, IfNoScript, OnDisk, platter};
ghost use Rattle.yard_top.specs.Ends.{EndsAs, EndsOf, IfNumber, IsComplete, NoneFell, ReadsNoMore, streams};
ghost use Rattle.yard_top.specs.Safely.{IsSafely};

use crate::disk::{run_apply, run_log, run_resume};
use crate::live::write_live;
use crate::script::{charter_of, read_charter};
use crate::text::{end_of, write_form};
use disk_log::Disk;
use program_words::{Form, Status, alone_form_of, disk_form_of, form_of};
use run_parts::WriteError;
use script_text::Mode;
use std::alloc::Global;
use std::sync::Wait;
use std::thread::Threads;
use yard_io::{Gate, Sink, Source};

/// Runs the program on these words, which stand after its name.
///
/// `solo` reads a script of settings, sends and deliveries, and writes the report of what is
/// recorded where each delivered command is taken exactly when it is the next of its producer.
/// `replay` reads a script of all orders, plays it on all nodes, one step after the other, and writes
/// the trace as it arises, and then the report of what the slots' lists come to; `replay json` writes
/// that report alone, as JSON. `bulk` plays the script of a number in the same way, and writes counts
/// of its trace. `live` reads a script of orders, runs each node as a thread of its own for so many
/// turns, where parcels between them are lost, repeated and delayed as they are drawn from the seed,
/// settles what they leave, and writes the lists of all slots and their report. It may wait, and no
/// other form does. `log` does as `replay`, with what each order does to the slots' lists on the disk
/// before a line of it is written. `resume` reads a script and such a disk, and writes the report of what
/// is logged; then it goes on from there until all is settled, and writes the lists and their report. `apply`
/// brings such a disk up to the script that it reads: what each send that isn't recorded and confirmed brings
/// about is committed as one batch, and then the report of what is on the disk is written.
/// `pull` reads a script of jobs, and of workers that ask for work, plays it, and writes the trace as it
/// arises, and what became of each job. `daemon` reads a script of orders and pings, each of which sends to
/// so many numbered instances, plays it as `replay` does, and writes after each line which instances are
/// elsewhere now.
///
/// A gate is passed by each node before each of its turns.
#[tactic(auto, using(crate::proofs::SafelyLaws::safely))]
pub fn sharder_on<R: Threads + Wait + Sync, S: Source, K: Sink, G: Gate + Sync, D: Disk>(
    rt: &R,
    alloc: Global,
    words: &[String],
    source: &mut S,
    sink: &mut K,
    gate: &G,
    disk: &mut D,
) -> Status
    // Each status has its cause.
    ensures ends { EndsOf (form_on words.now)
        (streams (S.left source.old) (S.faults source.old) (K.taken sink.old) (K.flushed sink.old) (K.faults sink.old))
        (streams (S.left source.new) (S.faults source.new) (K.taken sink.new) (K.flushed sink.new) (K.faults sink.new)) result }
    ensures number_reads_nothing { ReadsNoMore (form_on words.now)
        (streams (S.left source.old) (S.faults source.old) (K.taken sink.old) (K.flushed sink.old) (K.faults sink.old))
        (streams (S.left source.new) (S.faults source.new) (K.taken sink.new) (K.flushed sink.new) (K.faults sink.new)) }
    // What `replay` and `log` wrote is the lines of a safe trace, and the report of that trace's lists, which are lawful.
    ensures safely { IsSafely (form_on words.now)
        (streams (S.left source.old) (S.faults source.old) (K.taken sink.old) (K.flushed sink.old) (K.faults sink.old))
        (streams (S.left source.new) (S.faults source.new) (K.taken sink.new) (K.flushed sink.new) (K.faults sink.new)) result }
    // Where no fault rose, a form of the program is carried out, or there is no memory.
    ensures complete { IsComplete (form_on words.now)
        (streams (S.left source.old) (S.faults source.old) (K.taken sink.old) (K.flushed sink.old) (K.faults sink.old))
        (streams (S.left source.new) (S.faults source.new) (K.taken sink.new) (K.flushed sink.new) (K.faults sink.new)) result }
    ensures faults { NoneFell
        (streams (S.left source.old) (S.faults source.old) (K.taken sink.old) (K.flushed sink.old) (K.faults sink.old))
        (streams (S.left source.new) (S.faults source.new) (K.taken sink.new) (K.flushed sink.new) (K.faults sink.new)) }
    // What `log`, `resume` and `apply` do with the disk, and what a crash leaves of it.
    ensures on_disk { OnDisk (form_on words.now) D.tells
        (streams (S.left source.old) (S.faults source.old) (K.taken sink.old) (K.flushed sink.old) (K.faults sink.old))
        (streams (S.left source.new) (S.faults source.new) (K.taken sink.new) (K.flushed sink.new) (K.faults sink.new))
        (platter (D.content disk.old) (D.images disk.old) (D.faults disk.old)) (platter (D.content disk.new) (D.images disk.new) (D.faults disk.new)) result }
    ensures no_disk { IfNoDisk (form_on words.now) (disk.new ≡ disk.old) }
    // Where there is no script, no call of the disk is made.
    ensures untouched { IfNoScript result (disk.new ≡ disk.old) }
{
    match disk_form_of(words) {
        None => Status::Usage,
        Some(Form::Live { turns, seed }) => run_threads(rt, alloc, turns, seed, source, sink, gate),
        Some(Form::Log) => run_log(alloc, source, sink, disk),
        Some(Form::Resume) => run_resume(alloc, source, sink, disk),
        Some(Form::Apply) => run_apply(alloc, source, sink, disk),
        Some(form) => run(alloc, form, source, sink),
    }
}

/// Runs the program on these words as `sharder_on` does, where no disk is at hand: `log`, `resume` and `apply`
/// are no forms here.
#[tactic(auto, using(crate::proofs::SafelyLaws::safely))]
pub fn sharder<R: Threads + Wait + Sync, S: Source, K: Sink, G: Gate + Sync>(
    rt: &R,
    alloc: Global,
    words: &[String],
    source: &mut S,
    sink: &mut K,
    gate: &G,
) -> Status
    // Each status has its cause.
    ensures ends { EndsOf (form_in words.now)
        (streams (S.left source.old) (S.faults source.old) (K.taken sink.old) (K.flushed sink.old) (K.faults sink.old))
        (streams (S.left source.new) (S.faults source.new) (K.taken sink.new) (K.flushed sink.new) (K.faults sink.new)) result }
    ensures number_reads_nothing { ReadsNoMore (form_in words.now)
        (streams (S.left source.old) (S.faults source.old) (K.taken sink.old) (K.flushed sink.old) (K.faults sink.old))
        (streams (S.left source.new) (S.faults source.new) (K.taken sink.new) (K.flushed sink.new) (K.faults sink.new)) }
    // What `replay` and `log` wrote is the lines of a safe trace, and the report of that trace's lists, which are lawful.
    ensures safely { IsSafely (form_in words.now)
        (streams (S.left source.old) (S.faults source.old) (K.taken sink.old) (K.flushed sink.old) (K.faults sink.old))
        (streams (S.left source.new) (S.faults source.new) (K.taken sink.new) (K.flushed sink.new) (K.faults sink.new)) result }
    // Where no fault rose, a form of the program is carried out, or there is no memory.
    ensures complete { IsComplete (form_in words.now)
        (streams (S.left source.old) (S.faults source.old) (K.taken sink.old) (K.flushed sink.old) (K.faults sink.old))
        (streams (S.left source.new) (S.faults source.new) (K.taken sink.new) (K.flushed sink.new) (K.faults sink.new)) result }
    ensures faults { NoneFell
        (streams (S.left source.old) (S.faults source.old) (K.taken sink.old) (K.flushed sink.old) (K.faults sink.old))
        (streams (S.left source.new) (S.faults source.new) (K.taken sink.new) (K.flushed sink.new) (K.faults sink.new)) }
{
    match form_of(words) {
        None => Status::Usage,
        Some(Form::Live { turns, seed }) => run_threads(rt, alloc, turns, seed, source, sink, gate),
        Some(form) => run(alloc, form, source, sink),
    }
}

/// Runs the program on these words as `sharder_on` does, where they ask for one thread alone: `live` is no form
/// here. It never waits.
#[tactic(auto, using(crate::proofs::SafelyLaws::safely))]
pub fn sharder_alone<S: Source, K: Sink, D: Disk>(
    alloc: Global,
    words: &[String],
    source: &mut S,
    sink: &mut K,
    disk: &mut D,
) -> Status
    // Each status has its cause.
    ensures ends { EndsOf (alone_on words.now)
        (streams (S.left source.old) (S.faults source.old) (K.taken sink.old) (K.flushed sink.old) (K.faults sink.old))
        (streams (S.left source.new) (S.faults source.new) (K.taken sink.new) (K.flushed sink.new) (K.faults sink.new)) result }
    ensures number_reads_nothing { ReadsNoMore (alone_on words.now)
        (streams (S.left source.old) (S.faults source.old) (K.taken sink.old) (K.flushed sink.old) (K.faults sink.old))
        (streams (S.left source.new) (S.faults source.new) (K.taken sink.new) (K.flushed sink.new) (K.faults sink.new)) }
    // What `replay` and `log` wrote is the lines of a safe trace, and the report of that trace's lists, which are lawful.
    ensures safely { IsSafely (alone_on words.now)
        (streams (S.left source.old) (S.faults source.old) (K.taken sink.old) (K.flushed sink.old) (K.faults sink.old))
        (streams (S.left source.new) (S.faults source.new) (K.taken sink.new) (K.flushed sink.new) (K.faults sink.new)) result }
    // Where no fault rose, a form of the program is carried out, or there is no memory.
    ensures complete { IsComplete (alone_on words.now)
        (streams (S.left source.old) (S.faults source.old) (K.taken sink.old) (K.flushed sink.old) (K.faults sink.old))
        (streams (S.left source.new) (S.faults source.new) (K.taken sink.new) (K.flushed sink.new) (K.faults sink.new)) result }
    ensures faults { NoneFell
        (streams (S.left source.old) (S.faults source.old) (K.taken sink.old) (K.flushed sink.old) (K.faults sink.old))
        (streams (S.left source.new) (S.faults source.new) (K.taken sink.new) (K.flushed sink.new) (K.faults sink.new)) }
    // What `log`, `resume` and `apply` do with the disk, and what a crash leaves of it.
    ensures on_disk { OnDisk (alone_on words.now) D.tells
        (streams (S.left source.old) (S.faults source.old) (K.taken sink.old) (K.flushed sink.old) (K.faults sink.old))
        (streams (S.left source.new) (S.faults source.new) (K.taken sink.new) (K.flushed sink.new) (K.faults sink.new))
        (platter (D.content disk.old) (D.images disk.old) (D.faults disk.old)) (platter (D.content disk.new) (D.images disk.new) (D.faults disk.new)) result }
    ensures no_disk { IfNoDisk (alone_on words.now) (disk.new ≡ disk.old) }
    // Where there is no script, no call of the disk is made.
    ensures untouched { IfNoScript result (disk.new ≡ disk.old) }
{
    match alone_form_of(words) {
        None => Status::Usage,
        Some(Form::Log) => run_log(alloc, source, sink, disk),
        Some(Form::Resume) => run_resume(alloc, source, sink, disk),
        Some(Form::Apply) => run_apply(alloc, source, sink, disk),
        Some(form) => run(alloc, form, source, sink),
    }
}

/// Carries a form that needs a script alone out: gets its script, and writes its text.
fn run<S: Source, K: Sink>(alloc: Global, form: Form, source: &mut S, sink: &mut K) -> Status
    requires there { IsTrue (is_there (from_of form)) }
    requires bare { is_bare form ≡ true }
    requires count { IsTrue (is_counted form) }
    ensures number_reads_nothing { IfNumber (from_of form) ((S.left source.new ≡ S.left source.old) × (S.faults source.new ≡ S.faults source.old)) }
    ensures ends { EndsAs form
        (streams (S.left source.old) (S.faults source.old) (K.taken sink.old) (K.flushed sink.old) (K.faults sink.old))
        (streams (S.left source.new) (S.faults source.new) (K.taken sink.new) (K.flushed sink.new) (K.faults sink.new)) result }
    ensures complete { IsComplete (Some form)
        (streams (S.left source.old) (S.faults source.old) (K.taken sink.old) (K.flushed sink.old) (K.faults sink.old))
        (streams (S.left source.new) (S.faults source.new) (K.taken sink.new) (K.flushed sink.new) (K.faults sink.new)) result }
    ensures faults { NoneFell
        (streams (S.left source.old) (S.faults source.old) (K.taken sink.old) (K.flushed sink.old) (K.faults sink.old))
        (streams (S.left source.new) (S.faults source.new) (K.taken sink.new) (K.flushed sink.new) (K.faults sink.new)) }
{
    let charter = match charter_of(alloc, form.script_from(), source) {
        Ok(charter) => charter,
        Err(status) => return status,
    };
    match write_form(alloc, form, charter, sink) {
        Ok(stop) => match sink.flush() {
            Ok(()) => end_of(stop),
            Err(_) => Status::WriteFault,
        },
        Err(WriteError::Failed) => Status::WriteFault,
        Err(WriteError::OutOfMemory) => Status::OutOfMemory,
    }
}

/// Carries `live` out: gets its script, and writes a text of it. It may wait.
fn run_threads<R: Threads + Wait + Sync, S: Source, K: Sink, G: Gate + Sync>(
    rt: &R,
    alloc: Global,
    turns: u32,
    seed: u32,
    source: &mut S,
    sink: &mut K,
    gate: &G,
) -> Status
    ensures ends { EndsAs (Form.Live turns seed)
        (streams (S.left source.old) (S.faults source.old) (K.taken sink.old) (K.flushed sink.old) (K.faults sink.old))
        (streams (S.left source.new) (S.faults source.new) (K.taken sink.new) (K.flushed sink.new) (K.faults sink.new)) result }
    ensures complete { IsComplete (Some (Form.Live turns seed))
        (streams (S.left source.old) (S.faults source.old) (K.taken sink.old) (K.flushed sink.old) (K.faults sink.old))
        (streams (S.left source.new) (S.faults source.new) (K.taken sink.new) (K.flushed sink.new) (K.faults sink.new)) result }
    ensures faults { NoneFell
        (streams (S.left source.old) (S.faults source.old) (K.taken sink.old) (K.flushed sink.old) (K.faults sink.old))
        (streams (S.left source.new) (S.faults source.new) (K.taken sink.new) (K.flushed sink.new) (K.faults sink.new)) }
{
    let charter = match read_charter(alloc, Mode::Live, source) {
        Ok(charter) => charter,
        Err(status) => return status,
    };
    match write_live(rt, alloc, &charter, turns, seed, gate, sink) {
        Ok(()) => match sink.flush() {
            Ok(()) => Status::Ok,
            Err(_) => Status::WriteFault,
        },
        Err(WriteError::Failed) => Status::WriteFault,
        Err(WriteError::OutOfMemory) => Status::OutOfMemory,
    }
}
