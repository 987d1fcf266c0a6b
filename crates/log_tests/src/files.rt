//! A disk over a file.
use crate::folderless::Folderless;
use crate::logs::log_all;
use disk_log::{Disk, LockFile, StdDisk, read_log};
use std::alloc::{AllocError, Global};
use std::fs::{self, Files};
use std::io::ErrorKind;
use std::os::unix::fs::{FileExt, symlink};
use std::process::Abort;
use std::test::Fail;
use yard_io::Failed;

/// Whether an empty disk takes all orders, and has as many bytes then as there are.
fn is_logged<D: Disk>(alloc: Global, disk: &mut D) -> Result<bool, AllocError> {
    let is_empty = disk.size() == Ok(0);
    let is_logged = log_all(alloc, disk)?;
    Ok(is_empty && is_logged && disk.size() == Ok(208))
}

/// Whether a disk gives the first bytes behind the first gate, and nothing from the end on.
fn is_read<D: Disk>(disk: &mut D) -> bool {
    let mut front = [0u8; 64];
    let count = disk.read(5, &mut front);
    let is_front = front.starts_with(b"granted coordinator 1 1.1\nregistered 1.1\n");
    count == Ok(64) && is_front && disk.read(208, &mut front) == Ok(0)
}

/// How many batches are read of a disk.
fn count_in<D: Disk>(alloc: Global, disk: &mut D) -> Option<u32> {
    match read_log(alloc, disk) {
        Ok(batches) => Some(batches.len()),
        Err(_) => None,
    }
}

/// Whether a disk gives what was written, makes no log where one is, and has four batches.
fn is_read_back<D: Disk>(alloc: Global, disk: &mut D) -> Result<bool, AllocError> {
    let is_there = is_read(disk);
    let is_made = log_all(alloc, disk)?;
    Ok(is_there && !is_made && count_in(alloc, disk) == Some(4))
}

/// Removes the file, if there is one.
fn forget(rt: &impl Files) {
    let _ = fs::remove_file(rt, "sharder.log");
}

/// Whether a disk over the file takes all orders.
fn is_made<R: Files + AllocGlobal>(rt: &R) -> Result<bool, AllocError>
where
    R::File: FileExt + LockFile,
{
    let mut disk = StdDisk::new(rt);
    is_logged(rt.alloc(), &mut disk)
}

/// Whether what was written is read through another disk over the file.
fn is_kept<R: Files + AllocGlobal>(rt: &R) -> Result<bool, AllocError>
where
    R::File: FileExt + LockFile,
{
    let mut disk = StdDisk::new(rt);
    is_read_back(rt.alloc(), &mut disk)
}

/// Whether the file is a disk; it is gone before and after.
fn is_a_disk<R: Files + AllocGlobal>(rt: &R) -> Result<bool, AllocError>
where
    R::File: FileExt + LockFile,
{
    forget(rt);
    let is_all = is_made(rt)? && is_kept(rt)?;
    forget(rt);
    Ok(is_all)
}

#[test]
fn a_file_is_a_disk(rt: HostRuntime) -> Result<(), Fail> {
    assert!(rt; is_a_disk(&rt)?);
    Ok(())
}

/// The kind of the last error of a disk.
fn cause<R: Files>(disk: &StdDisk<'_, R>) -> Option<ErrorKind> {
    match disk.last_error() {
        Some(e) => Some(e.kind()),
        None => None,
    }
}

/// Whether a sync that keeps nothing is told: the file is a device, which has no place to keep it.
fn is_unsynced<R: Files>(rt: &R) -> bool
where
    R::File: FileExt + LockFile,
{
    let mut disk = StdDisk::new(rt);
    let is_written = disk.write_at(0, &[0]) == Ok(()) && cause(&disk).is_none();
    is_written && disk.sync() == Err(Failed) && cause(&disk) == Some(ErrorKind::InvalidInput)
}

/// Whether a device that is full is told.
fn is_full<R: Files>(rt: &R) -> bool
where
    R::File: FileExt + LockFile,
{
    let mut disk = StdDisk::new(rt);
    disk.write_at(0, &[0]) == Err(Failed) && cause(&disk) == Some(ErrorKind::StorageFull)
}

/// Whether a size that isn't known is told.
fn is_unsized<R: Files>(rt: &R) -> bool
where
    R::File: FileExt + LockFile,
{
    let mut disk = StdDisk::new(rt);
    disk.size() == Err(Failed) && cause(&disk) == Some(ErrorKind::FilesystemLoop)
}

/// Whether a read that fails is told.
fn is_unread<R: Files>(rt: &R) -> bool
where
    R::File: FileExt + LockFile,
{
    let mut disk = StdDisk::new(rt);
    let mut front = [0u8; 8];
    disk.read(0, &mut front) == Err(Failed) && cause(&disk) == Some(ErrorKind::IsADirectory)
}

/// Whether a folder that can't be synced is told, each time.
fn is_unentered<R: Files>(rt: &R) -> bool
where
    R::File: FileExt + LockFile,
{
    let files = Folderless { files: rt };
    let mut disk = StdDisk::new(&files);
    let is_written = disk.write_at(0, &[0]) == Ok(());
    let is_told = disk.sync() == Err(Failed) && disk.sync() == Err(Failed);
    is_written && is_told && cause(&disk) == Some(ErrorKind::PermissionDenied)
}

/// Links the file's name to this.
fn link(rt: &impl Files, to: &str) -> bool {
    forget(rt);
    symlink(rt, to, "sharder.log").is_ok()
}

/// Whether a disk over devices, over a name that leads to itself, in a folder that can't be synced, and over a folder
/// tells what fails, and why.
fn are_faults_told<R: Files>(rt: &R) -> bool
where
    R::File: FileExt + LockFile,
{
    let are_devices = link(rt, "/dev/zero")
        && is_unsynced(rt)
        && link(rt, "/dev/full")
        && is_full(rt);
    let is_loop = link(rt, "sharder.log") && is_unsized(rt);
    forget(rt);
    let is_entry = is_unentered(rt);
    forget(rt);
    let is_folder = fs::create_dir(rt, "sharder.log").is_ok() && is_unread(rt);
    let _ = fs::remove_dir(rt, "sharder.log");
    are_devices && is_loop && is_entry && is_folder
}

#[test]
fn what_fails_is_told(rt: HostRuntime) -> Result<(), Fail> {
    assert!(rt; are_faults_told(&rt));
    Ok(())
}

/// Whether a disk that was read can be written, and reads that.
fn is_written_once_read<R: Files>(rt: &R) -> bool
where
    R::File: FileExt + LockFile,
{
    let mut disk = StdDisk::new(rt);
    let mut front = [0u8; 8];
    let is_read = disk.read(0, &mut front) == Ok(1) && front[0] == 5;
    let is_written = disk.write_at(0, &[6, 7]) == Ok(()) && disk.sync() == Ok(());
    is_read && is_written && disk.read(0, &mut front) == Ok(2) && front[1] == 7
}

/// Whether one disk alone writes, while it lasts: another one only reads, and tells why it doesn't write.
fn is_alone<R: Files>(rt: &R) -> bool
where
    R::File: FileExt + LockFile,
{
    let mut first = StdDisk::new(rt);
    let mut second = StdDisk::new(rt);
    let mut front = [0u8; 8];
    let is_written = first.write_at(0, &[5]) == Ok(());
    let is_refused = second.sync() == Err(Failed) && second.write_at(0, &[9]) == Err(Failed);
    let is_told = cause(&second) == Some(ErrorKind::ResourceBusy);
    is_written && is_refused && is_told && second.read(0, &mut front) == Ok(1) && front[0] == 5
}

/// Whether a disk writes nothing where another one wrote since it told the size.
fn is_late<R: Files>(rt: &R) -> bool
where
    R::File: FileExt + LockFile,
{
    let mut disk = StdDisk::new(rt);
    let is_empty = disk.size() == Ok(0);
    let is_written = is_alone(rt);
    let is_refused = disk.write_at(0, &[9]) == Err(Failed);
    is_empty && is_written && is_refused && cause(&disk) == Some(ErrorKind::ResourceBusy)
}

#[test]
fn one_disk_at_a_time_writes(rt: HostRuntime) -> Result<(), Fail> {
    forget(&rt);
    let is_kept = is_late(&rt) && is_written_once_read(&rt);
    forget(&rt);
    assert!(rt; is_kept);
    Ok(())
}
