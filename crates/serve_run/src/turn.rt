//! The run, group after group.
ghost use Rattle.std.specs.Prelude.{◌≡◌, ◌<◌, ◌≤◌, [], Err, IfOk, IsTrue, OnErr, OnOk, Option, length, not, vec_len, false};
ghost use Rattle.yard_io.specs.Told.{TakesFront, followed_by};
ghost use Rattle.yard_model.specs.Text.{Bytes};
ghost use Rattle.disk_log.specs.Rest.{Rests};
ghost use Rattle.serve_laws.specs.Served.{frames};
ghost use Rattle.serve_run.specs.Scenes.{Goes, IsBehindSettings, IsTold, Stopped, scene};
ghost use Rattle.serve_service.specs.Services.{has_settings};
ghost use Rattle.serve_run.specs.Turns.{AtEnd, IsOver};
ghost use Rattle.serve_run.specs.Windows.{IsGroup};

use crate::stop::Stop;
use crate::window::Window;
use disk_log::Disk;
use serve_laws::hearing::all_go_on;
use serve_service::Service;
use std::alloc::{AllocError, Global};
use yard_io::{Failed, Sink, Source, write_all, writes_add_up};

/// How many bytes are read at a time at most.
const PIECE: usize = 65_536;

/// Room for a piece.
fn new_piece(alloc: Global) -> Result<Vec<u8>, AllocError>
    ensures { IfOk result (λ piece. 0 < vec_len piece) }
{
    vec![in alloc; 0; PIECE]
}

/// Serves what comes, until the input ends: each group of lines is on the disk before it is answered.
pub(crate) fn serve_all<S: Source, K: Sink, D: Disk>(
    alloc: Global,
    service: Service,
    source: &mut S,
    sink: &mut K,
    disk: &mut D,
) -> Result<(), Stop>
    requires rests { Rests D.tells service.end (D.content disk.old) (D.images disk.old) (frames service.desk) }
    requires behind { IsBehindSettings service.desk }
    ensures ok { OnOk result (IsOver D.tells (D.images disk.old) (D.images disk.new)
        (scene service.desk [] (S.left source.old) (K.taken sink.old) (K.flushed sink.old))
        (S.left source.new) (K.taken sink.new) (K.flushed sink.new)) }
    ensures stopped { OnErr result (Stopped D.tells (D.images disk.old) (D.images disk.new)
        (scene service.desk [] (S.left source.old) (K.taken sink.old) (K.flushed sink.old))
        (S.left source.new) (K.taken sink.new)) }
    ensures read { result ≡ Err Stop.Read → S.faults source.old < S.faults source.new }
    ensures write { result ≡ Err Stop.Write → K.faults sink.old < K.faults sink.new }
    ensures disk { result ≡ Err Stop.Disk → D.faults disk.old < D.faults disk.new }
    ensures source_faults { S.faults source.old ≤ S.faults source.new }
    ensures sink_faults { K.faults sink.old ≤ K.faults sink.new }
    ensures disk_faults { D.faults disk.old ≤ D.faults disk.new }
{
    all_go_on();
    let mut service = service;
    let mut window = Window::new(alloc);
    let mut piece = new_piece(alloc)?;
    for _ in 0..u64::MAX {
        let (next, more) = turn(
            alloc,
            service,
            &mut window,
            piece.as_mut_slice(),
            source,
            sink,
            disk,
        )?;
        if !more {
            return Ok(());
        }
        service = next;
    }
    Err(Stop::OutOfMemory)
}

/// Serves the first group of lines at hand; where no line is whole, reads on. Whether it goes on: not, where the input
/// has ended.
fn turn<S: Source, K: Sink, D: Disk>(
    alloc: Global,
    service: Service,
    window: &mut Window,
    piece: &mut [u8],
    source: &mut S,
    sink: &mut K,
    disk: &mut D,
) -> Result<(Service, bool), Stop>
    requires room { 0 < length piece.old }
    requires rests { Rests D.tells service.end (D.content disk.old) (D.images disk.old) (frames service.desk) }
    ensures room { length piece.new ≡ length piece.old }
    ensures goes { IfOk result (λ r. Goes D.tells (D.images disk.old) (D.images disk.new)
        (scene service.desk window.old (S.left source.old) (K.taken sink.old) (K.flushed sink.old))
        (scene r.0.desk window.new (S.left source.new) (K.taken sink.new) (K.flushed sink.new))) }
    ensures rests { IfOk result (λ r. Rests D.tells r.0.end (D.content disk.new) (D.images disk.new) (frames r.0.desk)) }
    ensures end { IfOk result (λ r. r.1 ≡ false → AtEnd window.new (S.left source.new)) }
    ensures stopped { OnErr result (Stopped D.tells (D.images disk.old) (D.images disk.new)
        (scene service.desk window.old (S.left source.old) (K.taken sink.old) (K.flushed sink.old))
        (S.left source.new) (K.taken sink.new)) }
    ensures read { result ≡ Err Stop.Read → S.faults source.old < S.faults source.new }
    ensures write { result ≡ Err Stop.Write → K.faults sink.old < K.faults sink.new }
    ensures disk { result ≡ Err Stop.Disk → D.faults disk.old < D.faults disk.new }
    ensures source_faults { S.faults source.old ≤ S.faults source.new }
    ensures sink_faults { K.faults sink.old ≤ K.faults sink.new }
    ensures disk_faults { D.faults disk.old ≤ D.faults disk.new }
{
    match window.group_end(!service.has_settings()) {
        Some(end) => {
            let next = serve_front(alloc, service, window, end, sink, disk)?;
            Ok((next, true))
        }
        None => {
            let count = window.read(source, piece)?;
            Ok((service, count > 0))
        }
    }
}

/// Serves the group of lines that ends there.
fn serve_front<K: Sink, D: Disk>(
    alloc: Global,
    service: Service,
    window: &mut Window,
    end: usize,
    sink: &mut K,
    disk: &mut D,
) -> Result<Service, Stop>
    requires group { IsGroup (not (has_settings service.desk)) window.old end }
    requires rests { Rests D.tells service.end (D.content disk.old) (D.images disk.old) (frames service.desk) }
    ensures goes { IfOk result (λ next. (left : Option Bytes) → Goes D.tells (D.images disk.old) (D.images disk.new)
        (scene service.desk window.old left (K.taken sink.old) (K.flushed sink.old))
        (scene next.desk window.new left (K.taken sink.new) (K.flushed sink.new))) }
    ensures rests { IfOk result (λ next. Rests D.tells next.end (D.content disk.new) (D.images disk.new) (frames next.desk)) }
    ensures stopped { OnErr result ((left : Option Bytes) → Stopped D.tells (D.images disk.old) (D.images disk.new)
        (scene service.desk window.old left (K.taken sink.old) (K.flushed sink.old))
        left (K.taken sink.new)) }
    ensures read { result ≡ Err Stop.Read → ⊥ }
    ensures write { result ≡ Err Stop.Write → K.faults sink.old < K.faults sink.new }
    ensures disk { result ≡ Err Stop.Disk → D.faults disk.old < D.faults disk.new }
    ensures sink_faults { K.faults sink.old ≤ K.faults sink.new }
    ensures disk_faults { D.faults disk.old ≤ D.faults disk.new }
{
    let (next, text) = service.serve(alloc, &window.bytes()[..end], disk)?;
    tell(sink, &text)?;
    window.pass(end);
    Ok(next)
}

/// Writes all these bytes and flushes them; nothing, where there are none.
fn tell<K: Sink>(sink: &mut K, text: &[u8]) -> Result<(), Failed>
    ensures told { OnOk result (K.taken sink.new ≡ followed_by (K.taken sink.old) text.now) }
    ensures flushed { OnOk result (IsTold (K.taken sink.old) (K.taken sink.new) (K.flushed sink.old) (K.flushed sink.new)) }
    ensures front { OnErr result (TakesFront (K.taken sink.old) (K.taken sink.new) text.now) }
    ensures cause { OnErr result (K.faults sink.old < K.faults sink.new) }
    ensures never_falls { K.faults sink.old ≤ K.faults sink.new }
{
    writes_add_up();
    if text.is_empty() {
        return Ok(());
    }
    write_all(sink, text)?;
    sink.flush()
}
