//! Logs that are made and read.
ghost use Rattle.std.specs.Prelude.{◌≡◌, ◌≤◌, ◌+◌, ◌<◌, ◌^◌, List, length, map, IfOk, IfSome};
ghost use Rattle.yard_model.specs.declared.fact.Fact.{Fact as FactValue};
ghost use Rattle.disk_log.specs.Rest.{Rests};
ghost use Rattle.disk_log.specs.Spelled.{AreBatches, lines};

use disk_log::{Batch, Disk, Log, MemDisk, ReadLogFault, read_log};
use fact_lines::read_entries;
use log_orders::commit_order;
use std::alloc::{AllocError, Global};
use yard_model::Facts;

/// What each order does to the slots' lists, of a script that sends one command.
pub const ORDERS: [&[u8]; 4] = [
    b"granted coordinator 1 1.1\nregistered 1.1\n",
    b"granted queue:1 1 1.1\n",
    b"queued 1 c1 1 add 5\n",
    b"allocated 0 1.1
granted shard:0 1 1.1
wrote c1 1 epoch 1 by 1:1 add 5 / added 5 / ok 5
confirmed 1 c1 1
",
];

/// Where the gates of the log of these orders stand.
pub const GATES: [usize; 5] = [0, 46, 73, 98, 207];

/// That log.
pub const WHOLE: &[u8; 208] = b"\x01\0\0\0\x29granted coordinator 1 1.1
registered 1.1
\x01\0\0\0\x16granted queue:1 1 1.1
\x01\0\0\0\x14queued 1 c1 1 add 5
\x01\0\0\0\x68allocated 0 1.1
granted shard:0 1 1.1
wrote c1 1 epoch 1 by 1:1 add 5 / added 5 / ok 5
confirmed 1 c1 1
\0";

/// What became of reading a log.
#[derive(Clone, Copy, PartialEq, Eq)]
pub enum Came {
    /// So many batches.
    Read(u32),
    /// Damage at this place.
    Damaged(u64),
    /// A call failed.
    Failed,
}

/// The entries of this text, none where there are none.
fn facts(alloc: Global, text: &[u8]) -> Result<Facts, AllocError> {
    match read_entries(alloc, text)? {
        Some(facts) => Ok(facts),
        None => Ok(Facts::new(alloc)),
    }
}

/// Logs one more order; no log where a call failed.
pub fn log_next<D: Disk>(
    alloc: Global,
    log: Log,
    disk: &mut D,
    text: &[u8],
) -> Result<Option<Log>, AllocError>
    requires room { log < 2 ^ 62 }
    requires rests { (done : List (List FactValue)) × AreBatches done × Rests D.tells log (D.content disk.old) (D.images disk.old) (map lines done) }
    ensures rests { IfOk result (λ next. IfSome next (λ log. (done : List (List FactValue)) × AreBatches done × Rests D.tells log (D.content disk.new) (D.images disk.new) (map lines done))) }
    ensures end { IfOk result (λ next. IfSome next (λ end. end ≤ log + (2 ^ 31 + 5))) }
{
    let order = facts(alloc, text)?;
    let mut batch = Batch::new(alloc)?;
    match commit_order(log, disk, &mut batch, order.as_slice()) {
        Ok(next) => Ok(Some(next)),
        Err(_) => Ok(None),
    }
}

/// Logs all orders; whether no call failed.
pub fn log_all<D: Disk>(alloc: Global, disk: &mut D) -> Result<bool, AllocError> {
    let Ok(log) = Log::make(disk) else {
        return Ok(false);
    };
    let Some(log) = log_next(alloc, log, disk, ORDERS[0])? else {
        return Ok(false);
    };
    let Some(log) = log_next(alloc, log, disk, ORDERS[1])? else {
        return Ok(false);
    };
    let Some(log) = log_next(alloc, log, disk, ORDERS[2])? else {
        return Ok(false);
    };
    let Some(_last) = log_next(alloc, log, disk, ORDERS[3])? else {
        return Ok(false);
    };
    Ok(true)
}

/// Why a log wasn't read.
pub fn came_of(fault: ReadLogFault) -> Result<Came, AllocError> {
    match fault {
        ReadLogFault::Failed => Ok(Came::Failed),
        ReadLogFault::Damaged { at } => Ok(Came::Damaged(at)),
        ReadLogFault::OutOfMemory => Err(AllocError),
    }
}

/// What reading this image comes to, where the calls of these numbers fail.
pub fn reading_of(alloc: Global, image: &[u8], fails: &[u32]) -> Result<Came, AllocError> {
    let mut disk = MemDisk::new(alloc, image, fails)?;
    match read_log(alloc, &mut disk) {
        Ok(batches) => Ok(Came::Read(batches.len())),
        Err(fault) => came_of(fault),
    }
}

/// What a stop just before this call leaves; what one before the first leaves, if there were not so many calls.
pub fn left(disk: &MemDisk, call: u32, torn: &[u8]) -> Result<Vec<u8>, AllocError>
    requires { 0 < call }
{
    if call as usize - 1 > disk.calls() {
        return disk.image(1, torn);
    }
    disk.image(call, torn)
}
