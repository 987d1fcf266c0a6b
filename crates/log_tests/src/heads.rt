//! Logs that have a head.
ghost use Rattle.std.specs.Prelude.{◌<◌, ℕ, List, length};
ghost use Rattle.disk_log.specs.Rest.{Rests};

use disk_log::{Batch, Disk, Headed, HeadedFault, Log, MemDisk, open_headed};
use std::alloc::{AllocError, Global};
use std::process::Abort;
use std::test::Fail;

/// A head, and two batches.
const HEAD: &[u8] = b"config nodes=1\n";

const FIRST: &[u8] = b"registered 1.1\n";

const SECOND: &[u8] = b"queued 1 c1 1 add 5\n";

/// The log of these.
const WHOLE: &[u8; 66] = b"\x01\0\0\0\x0fconfig nodes=1
\x01\0\0\0\x0fregistered 1.1
\x01\0\0\0\x14queued 1 c1 1 add 5
\0";

/// What became of opening a log.
#[derive(Clone, Copy, PartialEq, Eq)]
enum Came {
    /// It has no head.
    Bare,
    /// A head of so many bytes, and so many batches.
    Read(usize, u32),
    /// Damage at this place.
    Damaged(u64),
    /// The head is too long.
    Long,
    /// A call failed.
    Failed,
}

/// What an opened log has.
fn found(opened: &Headed) -> Came {
    match &opened.head {
        Some(head) => Came::Read(head.bytes().len(), opened.batches.len()),
        None => Came::Bare,
    }
}

/// What opening comes to.
fn opening<D: Disk>(alloc: Global, disk: &mut D) -> Result<Came, AllocError> {
    match open_headed(alloc, disk) {
        Ok(opened) => Ok(found(&opened)),
        Err(HeadedFault::Failed) => Ok(Came::Failed),
        Err(HeadedFault::OutOfMemory) => Err(AllocError),
        Err(HeadedFault::Damaged { at }) => Ok(Came::Damaged(at)),
        Err(HeadedFault::LongHead) => Ok(Came::Long),
    }
}

/// What stands on a disk after all calls, of which there are fewer than 100.
fn standing(disk: &MemDisk) -> Result<Vec<u8>, AllocError> {
    let calls = disk.calls();
    if calls >= 100 {
        return Err(AllocError);
    }
    disk.image(calls as u32 + 1, &[])
}

/// Whether opening this image comes to this, and writes nothing where it has two bytes or more.
fn is_opened(alloc: Global, image: &[u8], came: Came) -> Result<bool, AllocError> {
    let mut disk = MemDisk::new(alloc, image, &[])?;
    let same = opening(alloc, &mut disk)? == came;
    let after = standing(&disk)?;
    Ok(same && (image.len() < 2 || after.as_slice() == image))
}

/// Images, and what they are opened as.
const IMAGES: [(&[u8], Came); 15] = [
    (WHOLE, Came::Read(15, 2)),
    (b"", Came::Bare),
    (b"\0", Came::Bare),
    (b"\x01", Came::Bare),
    // What stands behind a closed gate isn't looked at.
    (b"\0\0\0\0\x01x\0", Came::Bare),
    (b"\x01\0\0\0\x0fconfig nodes=1\n\0", Came::Read(15, 0)),
    // Any gate byte but 0 is open, and a head is bytes of any kind.
    (b"\x09\0\0\0\x01\0\0", Came::Read(1, 0)),
    (
        b"\x01\0\0\0\x01x\x02\0\0\0\x0fregistered 1.1\n\0\x01",
        Came::Read(1, 1),
    ),
    (b"\x01\0", Came::Damaged(0)),
    // No text has no bytes, and none has more than the image.
    (b"\x01\0\0\0\0\0", Came::Damaged(0)),
    (b"\x01\xff\xff\xff\xff\0", Came::Damaged(0)),
    // No gate stands behind it.
    (b"\x01\0\0\0\x01x", Came::Damaged(0)),
    // Behind the head only batches count.
    (b"\x01\0\0\0\x01x\x01\0\0\0\x02y\n\0", Came::Damaged(6)),
    (b"\x01\0\0\0\x01x\x01\0\0\0\0\0", Came::Damaged(6)),
    (
        b"\x01\0\0\0\x01x\x01\0\0\0\x0fregistered 1.1\n\x01\0",
        Came::Damaged(26),
    ),
];

/// The first of these images that is opened as something else.
fn misopened(alloc: Global) -> Result<Option<usize>, AllocError> {
    for (k, (image, came)) in IMAGES.iter().enumerate() {
        if !is_opened(alloc, image, *came)? {
            return Ok(Some(k));
        }
    }
    Ok(None)
}

/// The last open gate of the whole log that a cut to so many bytes leaves.
fn gate_before(cut: usize) -> u64 {
    if cut <= 20 {
        0
    } else if cut <= 40 {
        20
    } else {
        40
    }
}

/// The first cut of the whole log that isn't read as damage at its last gate.
fn misread_cut(alloc: Global) -> Result<Option<usize>, AllocError> {
    for cut in 2..66 {
        if !is_opened(alloc, &WHOLE[..cut], Came::Damaged(gate_before(cut)))? {
            return Ok(Some(cut));
        }
    }
    Ok(None)
}

#[test]
fn a_log_with_a_head_is_opened(rt: HostRuntime) -> Result<(), Fail> {
    assert!(rt; misopened(rt.alloc())?.is_none());
    assert!(rt; misread_cut(rt.alloc())?.is_none());
    Ok(())
}

/// A log whose head has 1,024 bytes and so many more.
fn long_log(alloc: Global, more: u8) -> Result<Vec<u8>, AllocError> {
    let mut image = Vec::from_slice(alloc, &[1, 0, 0, 4, more])?;
    for _ in 0..1_024 {
        image.push(b'x')?;
    }
    for _ in 0..more {
        image.push(b'x')?;
    }
    image.push(0)?;
    Ok(image)
}

/// Whether a head may have 1,024 bytes, and no more.
fn is_bounded(alloc: Global) -> Result<bool, AllocError> {
    let longest = long_log(alloc, 0)?;
    let longer = long_log(alloc, 1)?;
    let has = is_opened(alloc, longest.as_slice(), Came::Read(1_024, 0))?;
    let none = is_opened(alloc, longer.as_slice(), Came::Long)?;
    Ok(has && none)
}

#[test]
fn how_long_a_head_is(rt: HostRuntime) -> Result<(), Fail> {
    assert!(rt; is_bounded(rt.alloc())?);
    Ok(())
}

/// Whether it is told where this call fails, if it comes to this call.
fn is_told(alloc: Global, image: &[u8], call: u32) -> Result<bool, AllocError> {
    let mut disk = MemDisk::new(alloc, image, &[call])?;
    let came = opening(alloc, &mut disk)?;
    Ok((came == Came::Failed) == (disk.calls() >= call as usize))
}

/// The first call whose failure isn't told.
fn untold(alloc: Global, image: &[u8]) -> Result<Option<u32>, AllocError> {
    for call in 1..8 {
        if !is_told(alloc, image, call)? {
            return Ok(Some(call));
        }
    }
    Ok(None)
}

#[test]
fn calls_that_fail(rt: HostRuntime) -> Result<(), Fail> {
    assert!(rt; untold(rt.alloc(), b"")?.is_none());
    assert!(rt; untold(rt.alloc(), WHOLE)?.is_none());
    Ok(())
}

/// Adds a text behind the others; no log where a call failed.
fn add<D: Disk>(
    alloc: Global,
    log: Log,
    disk: &mut D,
    text: &[u8],
) -> Result<Option<Log>, AllocError>
    requires some { 0 < length text.now }
    requires rests { (texts : List (List ℕ)) × Rests D.tells log (D.content disk.old) (D.images disk.old) texts }
{
    if !log.has_room() {
        return Ok(None);
    }
    let mut batch = Batch::new(alloc)?;
    batch.push_text(text)?;
    match log.commit(disk, &batch) {
        Ok(next) => Ok(Some(next)),
        Err(_) => Ok(None),
    }
}

/// Opens a log, and adds a text behind it; whether it has this then.
fn grows<D: Disk>(alloc: Global, disk: &mut D, text: &[u8], came: Came) -> Result<bool, AllocError>
    requires { 0 < length text.now }
{
    let Ok(opened) = open_headed(alloc, disk) else {
        return Ok(false);
    };
    let added = add(alloc, opened.log, disk, text)?.is_some();
    Ok(added && opening(alloc, disk)? == came)
}

/// Whether a head and batches are written behind one another, each behind a log that is opened anew.
fn are_added(alloc: Global, first: &[u8]) -> Result<bool, AllocError> {
    let mut disk = MemDisk::new(alloc, first, &[])?;
    let headed = grows(alloc, &mut disk, HEAD, Came::Read(15, 0))?;
    let one = grows(alloc, &mut disk, FIRST, Came::Read(15, 1))?;
    let two = grows(alloc, &mut disk, SECOND, Came::Read(15, 2))?;
    let image = standing(&disk)?;
    Ok(headed && one && two && image.as_slice() == WHOLE.as_slice())
}

#[test]
fn a_head_and_batches_are_added(rt: HostRuntime) -> Result<(), Fail> {
    assert!(rt; are_added(rt.alloc(), b"")?);
    assert!(rt; are_added(rt.alloc(), b"\x07")?);
    Ok(())
}

/// Whether the head of the whole log has its bytes.
fn is_same_head(alloc: Global) -> Result<bool, AllocError> {
    let mut disk = MemDisk::new(alloc, WHOLE, &[])?;
    let Ok(opened) = open_headed(alloc, &mut disk) else {
        return Ok(false);
    };
    match &opened.head {
        Some(head) => Ok(head.bytes() == HEAD),
        None => Ok(false),
    }
}

#[test]
fn the_bytes_of_a_head(rt: HostRuntime) -> Result<(), Fail> {
    assert!(rt; is_same_head(rt.alloc())?);
    Ok(())
}
