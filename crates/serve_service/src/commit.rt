//! A batch is committed, where there is anything in it.
ghost use Rattle.std.specs.Prelude.{◌≡◌, ◌<◌, ◌≤◌, List, ℕ, Err, IfOk, IsTrue, length};
ghost use Rattle.disk_log.specs.Images.{LeavesOnly};
ghost use Rattle.disk_log.specs.Rest.{HoldsPrefix, Rests};
ghost use Rattle.serve_service.specs.Services.{with_text};

use disk_log::{Batch, Disk, Log};
use log_orders::CommitFault;

/// Commits a batch; nothing, where it is empty. A log that ends behind 2^61 bytes counts as want of memory.
pub(crate) fn commit<D: Disk>(log: Log, disk: &mut D, batch: &Batch) -> Result<Log, CommitFault>
    requires rests { (texts : List (List ℕ)) × Rests D.tells log (D.content disk.old) (D.images disk.old) texts }
    // After Ok every crash leaves it.
    ensures ok { IfOk result (λ next. (texts : List (List ℕ)) → Rests D.tells log (D.content disk.old) (D.images disk.old) texts →
        Rests D.tells next (D.content disk.new) (D.images disk.new) (with_text texts batch.now)) }
    // A crash at any moment of the call leaves the texts before, or those and this one.
    ensures any_moment { (texts : List (List ℕ)) → Rests D.tells log (D.content disk.old) (D.images disk.old) texts → IsTrue D.tells →
        LeavesOnly (D.images disk.old) (D.images disk.new) (HoldsPrefix (with_text texts batch.now) (length texts)) }
    ensures cause { result ≡ Err CommitFault.Failed → D.faults disk.old < D.faults disk.new }
    ensures never_falls { D.faults disk.old ≤ D.faults disk.new }
{
    if batch.is_empty() {
        return Ok(log);
    }
    if !log.has_room() {
        return Err(CommitFault::OutOfMemory);
    }
    Ok(log.commit(disk, batch)?)
}
