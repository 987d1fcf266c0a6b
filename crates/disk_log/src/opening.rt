//! Opening a log that may be there.
ghost use Rattle.std.specs.Prelude.{◌≡◌, ℕ, ◌<◌, ◌≤◌, ◌^◌, [], ◌∷◌, length, map, IsTrue, Err, IfOk, OnOk, OnErr};
ghost use Rattle.disk_log.specs.Images.{Only, LeavesOnly};
ghost use Rattle.disk_log.specs.Opening.{LeftOrNone};
ghost use Rattle.disk_log.specs.Rest.{Rests};
ghost use Rattle.disk_log.specs.Spelled.{AreBatches, Spells, IsDamaged, lines};
ghost use Rattle.disk_log.specs.Window.{IsUntouched};

use crate::batches::Batches;
use crate::disk::Disk;
use crate::log::{FAR, Log, write_through};
use crate::reading::{ReadLogFault, read_batches};
use crate::window::Window;
use std::alloc::Global;
use yard_io::Failed;

/// A log that was opened.
#[derive(Drop)]
pub struct Opened {
    /// Its end.
    pub log: Log,
    /// What stands before it.
    pub batches: Batches,
}

/// Opens a log, to go on where it ends: the batches that the disk has, after Ok for good. A disk of at most one byte
/// has none, and gets a closed gate; else nothing is written, and what stands behind the closed gate stays.
///
/// It begins with a sync, since reads may give what a crash would take. A log that ends behind 2^61 bytes counts as
/// want of memory.
pub fn open_log<D: Disk>(alloc: Global, disk: &mut D) -> Result<Opened, ReadLogFault>
    ensures spelled { IfOk result (λ o. IsTrue D.tells → Spells (D.content disk.old) o.batches) }
    ensures are { IfOk result (λ o. AreBatches o.batches) }
    ensures rests { IfOk result (λ o. Rests D.tells o.log (D.content disk.new) (D.images disk.new) (map lines o.batches)) }
    ensures room { IfOk result (λ o. o.log ≤ 2 ^ 61) }

    // A crash at any moment of the call leaves what it might have left before it, or, of a disk of at most one byte,
    // an image of no batch.
    ensures any_moment { IsTrue D.tells →
        LeavesOnly (D.images disk.old) (D.images disk.new) (LeftOrNone (D.content disk.old) (D.images disk.old)) }

    ensures stays { IsTrue D.tells → 1 < length (D.content disk.old) → D.content disk.new ≡ D.content disk.old }
    ensures made { OnOk result (IsTrue D.tells → length (D.content disk.old) ≤ 1 → D.content disk.new ≡ 0 ∷ []) }
    ensures damaged { (at : ℕ) → result ≡ Err (ReadLogFault.Damaged at) → IsTrue D.tells → IsDamaged (D.content disk.old) at }
    ensures cause { result ≡ Err ReadLogFault.Failed → D.faults disk.old < D.faults disk.new }
    ensures never_falls { D.faults disk.old ≤ D.faults disk.new }
{
    let size = firm_size(disk)?;
    if size <= 1 {
        return open_none(alloc, disk);
    }
    open_whole(alloc, disk, size)
}

/// How many bytes there are, all of them for good.
pub(crate) fn firm_size<D: Disk>(disk: &mut D) -> Result<u64, Failed>
    ensures size { IfOk result (λ n. IsTrue D.tells → n ≡ length (D.content disk.old)) }
    ensures content { D.content disk.new ≡ D.content disk.old }
    ensures durable { OnOk result (IsTrue D.tells → Only (D.content disk.new) (D.images disk.new)) }
    // A crash at any moment of the call leaves what it might have left before it.
    ensures any_moment { LeavesOnly (D.images disk.old) (D.images disk.new) ((D.images disk.old).now) }
    ensures cause { OnErr result (D.faults disk.old < D.faults disk.new) }
    ensures never_falls { D.faults disk.old ≤ D.faults disk.new }
{
    disk.sync()?;
    disk.size()
}

/// Opens a log on a disk of at most one byte.
pub(crate) fn open_none<D: Disk>(alloc: Global, disk: &mut D) -> Result<Opened, ReadLogFault>
    requires { IsTrue D.tells → length (D.content disk.old) ≤ 1 }
    ensures rests { IfOk result (λ o. Rests D.tells o.log (D.content disk.new) (D.images disk.new) []) }
    ensures none { IfOk result (λ o. o.batches ≡ []) }
    ensures room { IfOk result (λ o. o.log ≤ 2 ^ 61) }
    ensures any_moment { Only (D.content disk.old) (D.images disk.old) → length (D.content disk.old) ≤ 1 →
        LeavesOnly (D.images disk.old) (D.images disk.new) (λ c. Spells c []) }
    ensures made { OnOk result (IsTrue D.tells → D.content disk.new ≡ 0 ∷ []) }
    ensures whole { (at : ℕ) → result ≡ Err (ReadLogFault.Damaged at) → ⊥ }
    ensures cause { result ≡ Err ReadLogFault.Failed → D.faults disk.old < D.faults disk.new }
    ensures never_falls { D.faults disk.old ≤ D.faults disk.new }
{
    write_through(disk, 0, &[0])?;
    Ok(Opened {
        log: Log::at(0),
        batches: Batches::new(alloc),
    })
}

/// Opens a log on a disk of two bytes or more.
fn open_whole<D: Disk>(alloc: Global, disk: &mut D, size: u64) -> Result<Opened, ReadLogFault>
    requires long { 1 < size }
    requires size { IsTrue D.tells → size ≡ length (D.content disk.old) }
    requires durable { IsTrue D.tells → Only (D.content disk.old) (D.images disk.old) }
    ensures spelled { IfOk result (λ o. IsTrue D.tells → Spells (D.content disk.old) o.batches) }
    ensures are { IfOk result (λ o. AreBatches o.batches) }
    ensures rests { IfOk result (λ o. Rests D.tells o.log (D.content disk.new) (D.images disk.new) (map lines o.batches)) }
    ensures room { IfOk result (λ o. o.log ≤ 2 ^ 61) }
    ensures untouched { IsUntouched (D.content disk.old) (D.content disk.new) (D.images disk.old) (D.images disk.new) }
    ensures damaged { (at : ℕ) → result ≡ Err (ReadLogFault.Damaged at) → IsTrue D.tells → IsDamaged (D.content disk.old) at }
    ensures cause { result ≡ Err ReadLogFault.Failed → D.faults disk.old < D.faults disk.new }
    ensures never_falls { D.faults disk.old ≤ D.faults disk.new }
{
    let mut window = Window::new(alloc, size)?;
    let batches = read_batches(alloc, disk, &mut window)?;
    let end = window.place();
    if end > FAR {
        return Err(ReadLogFault::OutOfMemory);
    }
    Ok(Opened {
        log: Log::at(end),
        batches,
    })
}
