//! Logs that are opened and gone on with.
ghost use Rattle.std.specs.Prelude.{◌<◌, ◌≤◌, ◌^◌, map};
ghost use Rattle.disk_log.specs.Rest.{Rests};
ghost use Rattle.disk_log.specs.Spelled.{AreBatches, lines};

use crate::images::IMAGES;
use crate::logs::{Came, GATES, ORDERS, WHOLE, came_of, left, log_next, reading_of};
use disk_log::{Disk, MemDisk, Opened, open_log};
use std::alloc::{AllocError, Global};
use std::process::Abort;
use std::test::Fail;

/// Adds a batch behind those that an opened log has, and says how many these are.
fn add<D: Disk>(alloc: Global, opened: Opened, disk: &mut D) -> Result<Came, AllocError>
    requires room { opened.log < 2 ^ 62 }
    requires are { AreBatches opened.batches }
    requires rests { Rests D.tells opened.log (D.content disk.old) (D.images disk.old) (map lines opened.batches) }
{
    let count = opened.batches.len();
    match log_next(alloc, opened.log, disk, ORDERS[3])? {
        Some(_) => Ok(Came::Read(count)),
        None => Ok(Came::Failed),
    }
}

/// Opens a log and adds a batch: what was read.
fn go_on<D: Disk>(alloc: Global, disk: &mut D) -> Result<Came, AllocError> {
    match open_log(alloc, disk) {
        Ok(opened) => add(alloc, opened, disk),
        Err(fault) => came_of(fault),
    }
}

/// Whether an image has so many batches or one more, and a log that is opened there goes on with these.
fn is_gone_on(alloc: Global, image: &[u8], count: u32) -> Result<bool, AllocError>
    requires { count < 8 }
{
    let found = reading_of(alloc, image, &[])?;
    let mut disk = MemDisk::new(alloc, image, &[])?;
    let is_opened = go_on(alloc, &mut disk)? == found;
    Ok(is_opened && (found == Came::Read(count) || found == Came::Read(count + 1)))
}

/// What stands where any bytes may: as they were meant, or all closed gates, or all open ones.
const TORN: [&[u8]; 3] = [&[], &[0; 128], &[1; 128]];

/// Whether it is so of what a stop before this call leaves.
fn is_left(alloc: Global, disk: &MemDisk, call: u32, count: u32) -> Result<bool, AllocError>
    requires first { 0 < call }
    requires few { count < 8 }
{
    for torn in TORN {
        let image = left(disk, call, torn)?;
        if !is_gone_on(alloc, image.as_slice(), count)? {
            return Ok(false);
        }
    }
    Ok(true)
}

/// Whether it is so of a stop before each call while a log with so many batches is gone on with.
fn are_left(alloc: Global, image: &[u8], count: u32) -> Result<bool, AllocError>
    requires { count < 8 }
{
    let mut disk = MemDisk::new(alloc, image, &[])?;
    let is_opened = go_on(alloc, &mut disk)? == Came::Read(count);
    for call in 1..10 {
        if !is_left(alloc, &disk, call, count)? {
            return Ok(false);
        }
    }
    Ok(is_opened)
}

/// Whether it is so where this call fails, and that is told if it comes to this call.
fn is_told(alloc: Global, image: &[u8], call: u32, count: u32) -> Result<bool, AllocError>
    requires first { 0 < call }
    requires last { call < 10 }
    requires few { count < 8 }
{
    let mut disk = MemDisk::new(alloc, image, &[call])?;
    let came = go_on(alloc, &mut disk)?;
    let fails = disk.calls() >= call as usize;
    Ok(fails == (came == Came::Failed) && is_left(alloc, &disk, call + 1, count)?)
}

/// Whether both are so of this image, of each call.
fn stands(alloc: Global, image: &[u8], count: u32) -> Result<bool, AllocError>
    requires { count < 8 }
{
    for call in 1..10 {
        if !is_told(alloc, image, call, count)? {
            return Ok(false);
        }
    }
    are_left(alloc, image, count)
}

/// The first gate of which that isn't so, in the log of all orders with this gate closed, its first one of another
/// value, and the rest as it is.
fn lost(alloc: Global) -> Result<Option<usize>, AllocError> {
    for k in 0..GATES.len() {
        let mut image = *WHOLE;
        image[0] = 9;
        if let Some(gate) = image.get_mut(GATES[k]) {
            *gate = 0;
        }
        if !stands(alloc, &image, k as u32)? {
            return Ok(Some(k));
        }
    }
    Ok(None)
}

/// Whether it is so of images of at most one byte.
fn are_made(alloc: Global) -> Result<bool, AllocError> {
    Ok(stands(alloc, &[], 0)? && stands(alloc, &[0], 0)? && stands(alloc, &[7], 0)?)
}

#[test]
fn what_is_opened_is_gone_on_with(rt: HostRuntime) -> Result<(), Fail> {
    assert!(rt; lost(rt.alloc())?.is_none());
    assert!(rt; are_made(rt.alloc())?);
    Ok(())
}

/// The first of the known images that is opened as something else.
fn misopened(alloc: Global) -> Result<Option<usize>, AllocError> {
    for (k, (image, came)) in IMAGES.iter().enumerate() {
        let mut disk = MemDisk::new(alloc, image, &[])?;
        if go_on(alloc, &mut disk)? != *came {
            return Ok(Some(k));
        }
    }
    Ok(None)
}

#[test]
fn an_image_is_opened_as_it_is_read(rt: HostRuntime) -> Result<(), Fail> {
    assert!(rt; misopened(rt.alloc())?.is_none());
    Ok(())
}
