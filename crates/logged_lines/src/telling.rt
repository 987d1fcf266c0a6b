//! An order's batch is committed, and then its lines are written.
ghost use Rattle.std.specs.Prelude.{◌≡◌, ◌≢◌, ℕ, ◌+◌, ◌<◌, ◌≤◌, ◌^◌, ◌++◌, List, length, IsTrue, Err, IfErr, IfOk};
ghost use Rattle.std.specs.List.{flat_map};
ghost use Rattle.yard_model.specs.declared.fact.Fact.{Fact as FactValue};
ghost use Rattle.yard_model.specs.Text.{fact_line};
ghost use Rattle.disk_log.specs.Images.{LeavesOnly};
ghost use Rattle.disk_log.specs.Spelled.{SpellsPrefix};
ghost use Rattle.log_orders.specs.Gathered.{RestsOn};
ghost use Rattle.log_orders.specs.Orders.{batch_of};
ghost use Rattle.logged_lines.specs.Told.{OrderEnds, WritesLog};

use crate::log_fault::LogError;
use disk_log::{Batch, Disk, Log};
use log_orders::commit_order;
use run_parts::write_part;
use trace_text::Sheet;
use yard_io::Sink;
use yard_model::Fact;

/// Commits what an order with these facts does to the slots' lists, as one batch, and writes its lines then. `batch` and
/// `lines` are room for both.
pub fn tell_order<K: Sink, D: Disk>(
    log: Log,
    facts: &[Fact],
    batch: &mut Batch,
    lines: &mut Sheet,
    sink: &mut K,
    disk: &mut D,
) -> Result<Log, LogError>
    requires room { log < 2 ^ 62 }
    requires rests { (done : List (List FactValue)) × RestsOn D.tells log (D.content disk.old) (D.images disk.old) done }
    ensures wrote { WritesLog (flat_map fact_line facts.now) result
        (record { taken = K.taken sink.old; flushed = K.flushed sink.old; faults = K.faults sink.old })
        (record { taken = K.taken sink.new; flushed = K.flushed sink.new; faults = K.faults sink.new }) }

    // After Ok the log has the batch.
    ensures logged { IfOk result (λ next. (done : List (List FactValue)) →
        RestsOn D.tells log (D.content disk.old) (D.images disk.old) done →
        RestsOn D.tells next (D.content disk.new) (D.images disk.new) (done ++ batch_of facts.now)) }

    // A crash at any moment of the call leaves the batches before, or those and this one.
    ensures any_moment { (done : List (List FactValue)) →
        RestsOn D.tells log (D.content disk.old) (D.images disk.old) done → IsTrue D.tells →
        LeavesOnly (D.images disk.old) (D.images disk.new) (SpellsPrefix (done ++ batch_of facts.now) (length done)) }

    // At its end each crash leaves this one too, where a byte of the lines was written.
    ensures at_exit { (done : List (List FactValue)) →
        RestsOn D.tells log (D.content disk.old) (D.images disk.old) done → IsTrue D.tells →
        OrderEnds facts.now done (K.taken sink.old) (K.taken sink.new) (D.images disk.new) }

    ensures end { IfOk result (λ next. next ≤ log + (2 ^ 31 + 5)) }
    ensures memory { result ≡ Err LogError.OutOfMemory → disk.new ≡ disk.old }
    ensures never_there { IfErr result (λ e. e ≢ LogError.There) }
    ensures disk_cause { result ≡ Err LogError.Disk → D.faults disk.old < D.faults disk.new }
    ensures disk_faults { D.faults disk.old ≤ D.faults disk.new }
{
    lines.clear();
    lines.push_facts(facts)?;
    let next = commit_order(log, disk, batch, facts)?;
    write_part(sink, lines.as_slice())?;
    Ok(next)
}
