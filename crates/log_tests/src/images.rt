//! What is left of a log, and what is read of it.
ghost use Rattle.std.specs.Prelude.{◌<◌};

use crate::logs::{Came, WHOLE, left, log_all, reading_of};
use disk_log::MemDisk;
use std::alloc::{AllocError, Global};
use std::process::Abort;
use std::test::Fail;

/// Whether a stop just before this call leaves this, with these bytes where any may be.
fn is_left(disk: &MemDisk, call: u32, torn: &[u8], wanted: &[u8]) -> Result<bool, AllocError>
    requires { 0 < call }
{
    let image = left(disk, call, torn)?;
    Ok(image.as_slice() == wanted)
}

/// Whether the last batch stands there and doesn't count, before its gate is opened.
fn is_staged(alloc: Global, disk: &MemDisk) -> Result<bool, AllocError> {
    let mut staged = *WHOLE;
    staged[98] = 0;
    if !is_left(disk, 18, &[], &staged)? || !is_left(disk, 19, &[0], &staged)? {
        return Ok(false);
    }
    Ok(reading_of(alloc, &staged, &[])? == Came::Read(3))
}

/// Whether any bytes may be there in the middle of a write.
fn is_torn(alloc: Global, disk: &MemDisk) -> Result<bool, AllocError> {
    let mut torn = *WHOLE;
    torn[98] = 0;
    torn[99] = 7;
    torn[100] = 7;
    if !is_left(disk, 17, &[7, 7], &torn)? {
        return Ok(false);
    }
    Ok(reading_of(alloc, &torn, &[])? == Came::Read(3))
}

/// Whether the bytes of a log that all orders left, after so many calls, are these.
fn are_known(alloc: Global, disk: &MemDisk) -> Result<bool, AllocError> {
    if disk.calls() != 19 || !is_left(disk, 20, &[], WHOLE)? {
        return Ok(false);
    }
    Ok(is_staged(alloc, disk)? && is_torn(alloc, disk)?)
}

/// Whether all orders leave those bytes.
fn leave_known(alloc: Global) -> Result<bool, AllocError> {
    let mut disk = MemDisk::new(alloc, &[], &[])?;
    Ok(log_all(alloc, &mut disk)? && are_known(alloc, &disk)?)
}

#[test]
fn the_bytes_of_a_log(rt: HostRuntime) -> Result<(), Fail> {
    assert!(rt; leave_known(rt.alloc())?);
    Ok(())
}

/// Images, and what is read of them.
pub const IMAGES: [(&[u8], Came); 11] = [
    (WHOLE, Came::Read(4)),
    (b"", Came::Read(0)),
    (b"\x01", Came::Read(0)),
    (b"\0\0\0\0\0\0\0\0", Came::Read(0)),
    (b"\x01\0", Came::Damaged(0)),
    // A length that no image has, behind an open gate.
    (b"\x01\xff\xff\xff\xff", Came::Damaged(0)),
    (b"\x01\0\0\0\0\0", Came::Damaged(0)),
    // A number with a zero in front is none that a log has, nor is one out of its range.
    (b"\x01\0\0\0\x10registered 01.1\n\0", Came::Damaged(0)),
    (b"\x01\0\0\0\x10registered 17.1\n\0", Came::Damaged(0)),
    (
        b"\x01\0\0\0\x17queued 1 c1 1 add 1001\n\0",
        Came::Damaged(0),
    ),
    // Any gate byte but 0 is open.
    (b"\x09\0\0\0\x0fregistered 1.1\n\0", Came::Read(1)),
];

/// The first of these images that is read as something else.
fn misread(alloc: Global) -> Result<Option<usize>, AllocError> {
    for (k, (image, came)) in IMAGES.iter().enumerate() {
        if reading_of(alloc, image, &[])? != *came {
            return Ok(Some(k));
        }
    }
    Ok(None)
}

/// The first cut within the last batch that isn't read as damage.
fn misread_cut(alloc: Global) -> Result<Option<usize>, AllocError> {
    for cut in 99..208 {
        if reading_of(alloc, &WHOLE[..cut], &[])? != Came::Damaged(98) {
            return Ok(Some(cut));
        }
    }
    Ok(None)
}

#[test]
fn what_is_read(rt: HostRuntime) -> Result<(), Fail> {
    assert!(rt; misread(rt.alloc())?.is_none());
    assert!(rt; misread_cut(rt.alloc())?.is_none());
    Ok(())
}

/// Whether all orders are logged where the call of this number fails.
fn is_logged(alloc: Global, call: u32) -> Result<bool, AllocError> {
    let mut disk = MemDisk::new(alloc, &[], &[call])?;
    log_all(alloc, &mut disk)
}

/// The first call whose failure isn't told.
fn untold(alloc: Global) -> Result<Option<u32>, AllocError> {
    for call in 1..20 {
        if is_logged(alloc, call)? {
            return Ok(Some(call));
        }
    }
    Ok(None)
}

/// The second sync of a commit fails, and there is a stop: what is read, with this byte where any may be.
fn after_sync(alloc: Global, torn: u8) -> Result<Came, AllocError> {
    let mut disk = MemDisk::new(alloc, &[], &[7])?;
    log_all(alloc, &mut disk)?;
    let image = left(&disk, 8, &[torn])?;
    reading_of(alloc, image.as_slice(), &[])
}

/// Whether a read that fails is told.
fn are_told(alloc: Global) -> Result<bool, AllocError> {
    let first = reading_of(alloc, WHOLE, &[1])?;
    let second = reading_of(alloc, WHOLE, &[2])?;
    Ok(first == Came::Failed && second == Came::Failed)
}

/// Whether the batch may stand there after a sync that fails, or not.
fn may_stand(alloc: Global) -> Result<bool, AllocError> {
    Ok(after_sync(alloc, 0)? == Came::Read(0) && after_sync(alloc, 1)? == Came::Read(1))
}

#[test]
fn calls_that_fail(rt: HostRuntime) -> Result<(), Fail> {
    assert!(rt; are_told(rt.alloc())?);
    assert!(rt; untold(rt.alloc())?.is_none());
    assert!(rt; may_stand(rt.alloc())?);
    Ok(())
}
