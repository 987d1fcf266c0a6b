//! A disk over a file.
ghost use Rattle.std.specs.Prelude.{◌≡◌, ◌≤◌, ◌<◌, ◌+◌, [], length, false, IfOk, OnErr};
ghost use Rattle.disk_log.specs.Untold.{any_images, any_left, any_timed};

use crate::disk::Disk;
use std::fs::{File, Files, OpenFile, OpenOptions};
use std::io::{self, ErrorKind};
use std::os::unix::fs::FileExt;
use yard_io::{Failed, StdFaults};

/// Where the log is.
const PATH: &str = "sharder.log";

/// The folder where it is.
const FOLDER: &str = ".";

/// A file that at most one handle has locked.
pub trait LockFile {
    /// Locks the file for this handle, until it is dropped. It doesn't wait: where another handle has locked the
    /// file, that is an error.
    fn lock_now(&self) -> io::Result<()>;
}

impl LockFile for File {
    fn lock_now(&self) -> io::Result<()> {
        match self.try_lock() {
            Ok(()) => Ok(()),
            Err(e) => Err(io::Error::from(e)),
        }
    }
}

/// A disk over the file `sharder.log` in the current folder. It tells nothing of content, and counts each call that
/// fails.
///
/// The first read opens the file to be read. The first write or sync opens it anew, to be written, makes it where
/// there is none, and locks it. So while this disk lasts, the writes and syncs of each other one over the file fail,
/// and so do those of this one where another was first, or changed the size since it was told. A file that isn't there
/// has 0 bytes. The first sync sees to the folder's entry too.
#[derive(Drop)]
pub struct StdDisk<'a, R: Files> {
    files: &'a R,
    file: Option<R::File>,
    locked: bool,
    told: Option<u64>,
    entered: bool,
    faults: StdFaults,
}

impl<'a, R: Files> StdDisk<'a, R> {
    /// A disk over the file that these files have, or will have.
    pub fn new(files: &'a R) -> StdDisk<'a, R>
        ensures { result.faults ≡ 0 }
    {
        StdDisk {
            files,
            file: None,
            locked: false,
            told: None,
            entered: false,
            faults: StdFaults::new(),
        }
    }

    /// Why the last call that failed did, if one has.
    pub fn last_error(&self) -> Option<io::Error> {
        self.faults.last()
    }

    /// One fault more, and why.
    fn fail(&mut self, error: io::Error) -> Failed
        ensures { self.new.faults ≡ self.old.faults + 1 }
    {
        self.faults.raise(error);
        Failed
    }

    /// How many bytes the file has; 0 where there is none.
    fn file_size(&mut self) -> io::Result<u64>
        ensures { self.new.faults ≡ self.old.faults }
    {
        let size = size_by_name(self.files)?;
        self.told = Some(size);
        Ok(size)
    }

    /// Sees to it that the folder's entry of the file is on the disk.
    fn enter(&mut self) -> io::Result<()>
        ensures { self.new.faults ≡ self.old.faults }
    {
        if !self.entered {
            sync_folder(self.files)?;
            self.entered = true;
        }
        Ok(())
    }
}

impl<'a, R: Files> StdDisk<'a, R>
where
    R::File: FileExt + LockFile,
{
    /// Opens the file to be written, if it isn't so already.
    fn open_to_write(&mut self) -> io::Result<()>
        ensures { self.new.faults ≡ self.old.faults }
    {
        if !self.locked {
            self.file = Some(open_locked(self.files, self.told)?);
            self.locked = true;
        }
        Ok(())
    }

    /// Reads of the file, which is opened to be read if it isn't open.
    fn read_file(&mut self, at: u64, buf: &mut [u8]) -> io::Result<usize>
        ensures within { IfOk result (λ n. n ≤ length buf.new) }
        ensures faults { self.new.faults ≡ self.old.faults }
    {
        if self.file.is_none() {
            self.file = Some(OpenOptions::new().read(true).open(self.files, PATH)?);
        }
        read_once(&self.file, at, buf)
    }

    /// Writes a piece to the file.
    fn write_file(&mut self, at: u64, piece: &[u8]) -> io::Result<()>
        ensures { self.new.faults ≡ self.old.faults }
    {
        self.open_to_write()?;
        write_whole(&self.file, at, piece)
    }

    /// Sees to it that what was written to the file is on the disk.
    fn sync_file(&mut self) -> io::Result<()>
        ensures { self.new.faults ≡ self.old.faults }
    {
        self.open_to_write()?;
        sync_whole(&self.file)?;
        self.enter()
    }
}

impl<'a, R: Files> Disk for StdDisk<'a, R>
where
    R::File: FileExt + LockFile,
{
    ghost tells = { false };

    ghost content = { λ _. [] };

    ghost images = { λ _. any_images };

    ghost faults = { λ d. d.faults };

    ghost timed = { λ _. any_timed };

    ghost left = { λ _. any_left };

    fn size(&mut self) -> Result<u64, Failed> {
        match self.file_size() {
            Ok(size) => Ok(size),
            Err(e) => Err(self.fail(e)),
        }
    }

    fn read(&mut self, at: u64, buf: &mut [u8]) -> Result<usize, Failed> {
        match self.read_file(at, buf) {
            Ok(count) => Ok(count),
            Err(e) => Err(self.fail(e)),
        }
    }

    fn write_at(&mut self, at: u64, piece: &[u8]) -> Result<(), Failed> {
        match self.write_file(at, piece) {
            Ok(()) => Ok(()),
            Err(e) => Err(self.fail(e)),
        }
    }

    fn sync(&mut self) -> Result<(), Failed> {
        match self.sync_file() {
            Ok(()) => Ok(()),
            Err(e) => Err(self.fail(e)),
        }
    }
}

/// How many bytes the file has; 0 where there is none.
fn size_by_name<R: Files>(files: &R) -> io::Result<u64> {
    match files.metadata(PATH) {
        Ok(about) => Ok(about.len()),
        Err(e) if e.kind() == ErrorKind::NotFound => Ok(0),
        Err(e) => Err(e),
    }
}

/// Opens the file to be written and locks it. An error where it is locked already, or has another size than was told.
fn open_locked<R: Files>(files: &R, told: Option<u64>) -> io::Result<R::File>
where
    R::File: LockFile,
{
    let file = OpenOptions::new()
        .read(true)
        .write(true)
        .create(true)
        .open(files, PATH)?;
    match file.lock_now() {
        Ok(()) => {}
        Err(e) if e.kind() == ErrorKind::WouldBlock => {
            return Err(busy("the log is in use by another run"));
        }
        Err(e) => return Err(e),
    }
    if told.is_some() && told != Some(file.metadata()?.len()) {
        return Err(busy("another run has changed the log meanwhile"));
    }
    Ok(file)
}

/// That another run was first, in these words.
fn busy(words: &str) -> io::Error {
    io::Error::new(ErrorKind::ResourceBusy, words)
}

/// That the file isn't open.
fn closed() -> io::Error {
    io::Error::other("the log is not open")
}

/// Reads once, and again where a signal interrupted the read.
fn read_once<F: FileExt>(file: &Option<F>, at: u64, buf: &mut [u8]) -> io::Result<usize>
    ensures { IfOk result (λ n. n ≤ length buf.new) }
{
    let Some(file) = file else {
        return Err(closed());
    };
    for _ in 0..u64::MAX {
        match file.read_at(buf, at) {
            Ok(count) => return Ok(count),
            Err(e) if e.kind() == ErrorKind::Interrupted => {}
            Err(e) => return Err(e),
        }
    }
    Err(io::Error::from(ErrorKind::Interrupted))
}

/// Writes a whole piece.
fn write_whole<F: FileExt>(file: &Option<F>, at: u64, piece: &[u8]) -> io::Result<()> {
    match file {
        Some(file) => file.write_all_at(piece, at),
        None => Err(closed()),
    }
}

/// Sees to it that the entries of the folder are on the disk.
fn sync_folder<R: Files>(files: &R) -> io::Result<()> {
    OpenOptions::new()
        .read(true)
        .open(files, FOLDER)?
        .sync_all()
}

/// Sees to it that what was written is on the disk.
fn sync_whole<F: OpenFile>(file: &Option<F>) -> io::Result<()> {
    match file {
        Some(file) => file.sync_all(),
        None => Err(closed()),
    }
}
