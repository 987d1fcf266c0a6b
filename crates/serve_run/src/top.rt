//! `serve` as one call.
ghost use Rattle.std.specs.Prelude.{◌≡◌, ◌<◌, ◌≤◌, IsTrue};
ghost use Rattle.serve_laws.specs.Hearings.{AgainIsDone, CutsDontMatter};
ghost use Rattle.serve_laws.specs.Restarts.{RestartIsSame};
ghost use Rattle.serve_laws.specs.Series.{RunsAreOne, SeriesIsExact, ServedSeries};
ghost use Rattle.serve_run.specs.Scenes.{LinesAddUp};
ghost use Rattle.serve_run.specs.Ends.{AnyMoment, AtExit, EndsAs, IsComplete, Rose, sides};

use crate::status::{Status, status_with, status_without};
use crate::turn::serve_all;
use disk_log::{Disk, one_head, one_holding};
use serve_laws::hearing::{again_is_done, all_go_on, cuts_dont_matter};
use serve_laws::restarting::{found_is_desk, one_desk, restart_is_same};
use serve_laws::series::{runs_are_one, series_is_exact, served_series};
use serve_service::Service;
use std::alloc::Global;
use yard_io::{Sink, Source};

/// Serves the lines of a source until it ends: each is answered once what it asked for is on the disk.
pub fn serve<S: Source, K: Sink, D: Disk>(
    alloc: Global,
    source: &mut S,
    sink: &mut K,
    disk: &mut D,
) -> Status
    // Each end with its cause, and what was read, answered and left on the disk.
    ensures ends { EndsAs D.tells
        (sides (S.left source.old) (K.taken sink.old) (K.flushed sink.old) (D.content disk.old) (D.images disk.old))
        (sides (S.left source.new) (K.taken sink.new) (K.flushed sink.new) (D.content disk.new) (D.images disk.new)) result }
    ensures rose { Rose result (S.faults source.old) (S.faults source.new) (K.faults sink.old) (K.faults sink.new) (D.faults disk.old) (D.faults disk.new) }
    // A crash at any moment leaves what some of the lines that came lead to.
    ensures any_moment { IsTrue D.tells → AnyMoment D.tells
        (sides (S.left source.old) (K.taken sink.old) (K.flushed sink.old) (D.content disk.old) (D.images disk.old))
        (sides (S.left source.new) (K.taken sink.new) (K.flushed sink.new) (D.content disk.new) (D.images disk.new)) }
    // At the end, each crash leaves all of what was answered.
    ensures at_exit { IsTrue D.tells → AtExit D.tells
        (sides (S.left source.old) (K.taken sink.old) (K.flushed sink.old) (D.content disk.old) (D.images disk.old))
        (sides (S.left source.new) (K.taken sink.new) (K.flushed sink.new) (D.content disk.new) (D.images disk.new)) }
    // Where no fault rose, and a run left the disk, the input is served to its end, or there is no memory.
    ensures complete { IsTrue D.tells → S.faults source.new ≡ S.faults source.old → K.faults sink.new ≡ K.faults sink.old →
        D.faults disk.new ≡ D.faults disk.old → IsComplete (D.content disk.old) result }
    ensures source_faults { S.faults source.old ≤ S.faults source.new }
    ensures sink_faults { K.faults sink.old ≤ K.faults sink.new }
    ensures disk_faults { D.faults disk.old ≤ D.faults disk.new }
    // Groups of whole lines have the lines of all their bytes, each once and in order.
    ensures lines_add_up { LinesAddUp }
    // However the lines are cut into groups, the same are accepted; one that was answered `done` is answered so again.
    ensures cuts_dont_matter { CutsDontMatter }
    ensures again_is_done { AgainIsDone }
    // A run goes on where the last one was cut off, as if it never was; what any run told is so on the disk at the end of all, and each
    // accepted command is recorded once, and in order.
    ensures restart_is_same { RestartIsSame }
    ensures runs_are_one { RunsAreOne }
    ensures served_series { ServedSeries }
    ensures exactly_once { SeriesIsExact }
{
    cuts_dont_matter();
    again_is_done();
    restart_is_same();
    runs_are_one();
    served_series();
    series_is_exact();
    one_head();
    one_holding();
    found_is_desk();
    one_desk();
    serve_input(alloc, source, sink, disk)
}

/// The same, but for what follows of laws.
fn serve_input<S: Source, K: Sink, D: Disk>(
    alloc: Global,
    source: &mut S,
    sink: &mut K,
    disk: &mut D,
) -> Status
    ensures ends { EndsAs D.tells
        (sides (S.left source.old) (K.taken sink.old) (K.flushed sink.old) (D.content disk.old) (D.images disk.old))
        (sides (S.left source.new) (K.taken sink.new) (K.flushed sink.new) (D.content disk.new) (D.images disk.new)) result }
    ensures rose { Rose result (S.faults source.old) (S.faults source.new) (K.faults sink.old) (K.faults sink.new) (D.faults disk.old) (D.faults disk.new) }
    ensures source_faults { S.faults source.old ≤ S.faults source.new }
    ensures sink_faults { K.faults sink.old ≤ K.faults sink.new }
    ensures disk_faults { D.faults disk.old ≤ D.faults disk.new }
{
    all_go_on();
    match Service::open(alloc, disk) {
        Ok(service) => status_with(serve_all(alloc, service, source, sink, disk)),
        Err(fault) => status_without(fault),
    }
}
