//! Runs of the program.

use disk_log::MemDisk;
use std::alloc::{AllocError, Global};
use test_streams::{Feed, WHOLE};
use yard_io::Sink;
use yard_top::{Status, sharder_alone};

/// These words.
pub(crate) fn words_of(alloc: Global, form: &[&str]) -> Result<Vec<String>, AllocError> {
    let mut words = Vec::new(alloc);
    for word in form {
        words.push(String::from_str(alloc, word)?)?;
    }
    Ok(words)
}

/// Runs a form of one thread over this disk. (All runs of one thread go through here, since each call of the program
/// costs its proof much.)
pub(crate) fn run_on<K: Sink>(
    alloc: Global,
    form: &[&str],
    source: &mut Feed<'_>,
    sink: &mut K,
    disk: &mut MemDisk,
) -> Result<Status, AllocError> {
    let words = words_of(alloc, form)?;
    Ok(sharder_alone(alloc, words.as_slice(), source, sink, disk))
}

/// Runs a form of one thread over an empty disk.
pub(crate) fn run_alone<K: Sink>(
    alloc: Global,
    form: &[&str],
    source: &mut Feed<'_>,
    sink: &mut K,
) -> Result<Status, AllocError> {
    let mut disk = MemDisk::new(alloc, &[], &[])?;
    run_on(alloc, form, source, sink, &mut disk)
}

/// Runs a form of one thread on this script over an empty disk.
pub(crate) fn run_script<K: Sink>(
    alloc: Global,
    form: &[&str],
    script: &[u8],
    sink: &mut K,
) -> Result<Status, AllocError> {
    let mut source = Feed::new(script, WHOLE, 0);
    run_alone(alloc, form, &mut source, sink)
}
