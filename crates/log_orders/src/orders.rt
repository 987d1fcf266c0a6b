//! The batch of an order is committed.
ghost use Rattle.std.specs.Prelude.{◌≡◌, ℕ, ◌+◌, ◌<◌, ◌≤◌, ◌^◌, List, ◌++◌, length, map, IsTrue, Err, IfOk, OnErr};
ghost use Rattle.yard_model.specs.declared.fact.Fact.{Fact as FactValue};
ghost use Rattle.disk_log.specs.Images.{LeavesOnly};
ghost use Rattle.disk_log.specs.Rest.{Rests};
ghost use Rattle.disk_log.specs.Spelled.{AreBatches, SpellsPrefix, lines};
ghost use Rattle.log_orders.specs.Orders.{batch_of};
ghost use Rattle.log_orders.specs.Gathered.{Gathers, RestsOn};

use crate::gathering::gather;
use disk_log::{Batch, Disk, Log};
use std::alloc::AllocError;
use yard_io::Failed;
use yard_model::Fact;

/// Why an order's batch was not committed.
#[derive(Clone, Copy, Debug, PartialEq, Eq)]
pub enum CommitFault {
    /// A call of the disk failed. The log is given up.
    Failed,
    /// There was no memory for the batch, or it is none that a log can have. The disk is as it was.
    OutOfMemory,
}

impl From<Failed> for CommitFault {
    ghost use Rattle.std.specs.Prelude.{◌≡◌};
    ghost use Rattle.log_orders.specs.declared.orders.CommitFault.TheVariants.{Failed};

    ghost from_gives = { λ _ e. e ≡ Failed };

    fn from(_: Failed) -> CommitFault {
        CommitFault::Failed
    }
}

impl From<AllocError> for CommitFault {
    ghost use Rattle.std.specs.Prelude.{◌≡◌};
    ghost use Rattle.log_orders.specs.declared.orders.CommitFault.TheVariants.{OutOfMemory};

    ghost from_gives = { λ _ e. e ≡ OutOfMemory };

    fn from(_: AllocError) -> CommitFault {
        CommitFault::OutOfMemory
    }
}

/// Commits the facts of an order that belong to a slot's list, as one batch; nothing where there are none. `batch` is
/// room for a batch.
pub fn commit_order<D: Disk>(
    log: Log,
    disk: &mut D,
    batch: &mut Batch,
    facts: &[Fact],
) -> Result<Log, CommitFault>
    requires room { log < 2 ^ 62 }
    requires rests { (done : List (List FactValue)) × AreBatches done × Rests D.tells log (D.content disk.old) (D.images disk.old) (map lines done) }

    // After Ok every crash leaves the order's batch.
    ensures ok { IfOk result (λ next. (done : List (List FactValue)) → AreBatches done →
        Rests D.tells log (D.content disk.old) (D.images disk.old) (map lines done) →
        RestsOn D.tells next (D.content disk.new) (D.images disk.new) (done ++ batch_of facts.now)) }

    // A crash at any moment of the call leaves the batches before, or those and this one.
    ensures any_moment { (done : List (List FactValue)) → AreBatches done →
        Rests D.tells log (D.content disk.old) (D.images disk.old) (map lines done) → IsTrue D.tells →
        LeavesOnly (D.images disk.old) (D.images disk.new) (SpellsPrefix (done ++ batch_of facts.now) (length done)) }

    ensures end { IfOk result (λ next. next ≤ log + (2 ^ 31 + 5)) }
    ensures memory { result ≡ Err CommitFault.OutOfMemory → disk.new ≡ disk.old }
    ensures cause { result ≡ Err CommitFault.Failed → D.faults disk.old < D.faults disk.new }
    ensures never_falls { D.faults disk.old ≤ D.faults disk.new }
{
    gather(batch, facts)?;
    Ok(commit_batch(log, disk, batch)?)
}

/// Commits a batch in which facts are entered; nothing where none of them belongs to a slot's list. After `Failed` the
/// log is given up.
pub fn commit_batch<D: Disk>(log: Log, disk: &mut D, batch: &Batch) -> Result<Log, Failed>
    requires room { log < 2 ^ 62 }
    requires gathered { (facts : List FactValue) × Gathers facts batch.now }
    requires rests { (done : List (List FactValue)) × AreBatches done × Rests D.tells log (D.content disk.old) (D.images disk.old) (map lines done) }

    // After Ok every crash leaves the batch.
    ensures ok { IfOk result (λ next. (facts : List FactValue) → Gathers facts batch.now → (done : List (List FactValue)) → AreBatches done →
        Rests D.tells log (D.content disk.old) (D.images disk.old) (map lines done) →
        RestsOn D.tells next (D.content disk.new) (D.images disk.new) (done ++ batch_of facts)) }

    // A crash at any moment of the call leaves the batches before, or those and this one.
    ensures any_moment { (facts : List FactValue) → Gathers facts batch.now → (done : List (List FactValue)) → AreBatches done →
        Rests D.tells log (D.content disk.old) (D.images disk.old) (map lines done) → IsTrue D.tells →
        LeavesOnly (D.images disk.old) (D.images disk.new) (SpellsPrefix (done ++ batch_of facts) (length done)) }

    ensures end { IfOk result (λ next. next ≤ log + (2 ^ 31 + 5)) }
    ensures cause { OnErr result (D.faults disk.old < D.faults disk.new) }
    ensures never_falls { D.faults disk.old ≤ D.faults disk.new }
{
    if batch.is_empty() {
        return Ok(log);
    }
    Ok(log.commit(disk, batch)?)
}
