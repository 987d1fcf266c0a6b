//! Reading a log.
ghost use Rattle.std.specs.Prelude.{◌≡◌, ◌≢◌, ℕ, ◌+◌, ◌-◌, ◌<◌, ◌≤◌, ◌⊎◌, [], length, take, drop, true, false, IsTrue, Err, IfOk, IfSome, IfNone, MatchOption, slice_index};
ghost use Rattle.std.specs.Int.{w32, from_be_bytes};
ghost use Rattle.fact_lines.specs.Entries.{IsNoEntry, IsOther};
ghost use Rattle.disk_log.specs.Spelled.{Spells, IsDamaged, IsUnfollowed};
ghost use Rattle.disk_log.specs.Window.{IsAhead, IsUntouched, IsSize, TookFront, Passed, Closed, Opened, IsBadGate};
ghost use Rattle.disk_log.specs.Opening.{EndsAt, IsDamagedFrom};
ghost use Rattle.disk_log.specs.Kept.{AreKept, BatchMore, ClosedMore, OpenedMore, ReadMore, cut};

use crate::batches::{Batches, note_end};
use crate::disk::Disk;
use crate::window::Window;
use fact_lines::take_entry;
use std::alloc::{AllocError, Global};
use yard_io::Failed;
use yard_model::Facts;

/// How many bytes are at hand before a line is looked at: no entry's line is longer.
const LINE: usize = 1_024;

/// How many bytes a gate and a length have.
pub(crate) const HEAD: usize = 5;

/// Why a log was not read.
#[derive(Clone, Copy, Debug, PartialEq, Eq)]
pub enum ReadLogFault {
    /// A call of the disk failed.
    Failed,
    /// There was no memory.
    OutOfMemory,
    /// The open gate at this place isn't followed by a whole batch and a gate.
    Damaged {
        /// Where the gate stands.
        at: u64,
    },
}

impl From<Failed> for ReadLogFault {
    ghost use Rattle.std.specs.Prelude.{◌≡◌};
    ghost use Rattle.disk_log.specs.declared.reading.ReadLogFault.TheVariants.{Failed};

    ghost from_gives = { λ _ e. e ≡ Failed };

    fn from(_: Failed) -> ReadLogFault {
        ReadLogFault::Failed
    }
}

impl From<AllocError> for ReadLogFault {
    ghost use Rattle.std.specs.Prelude.{◌≡◌};
    ghost use Rattle.disk_log.specs.declared.reading.ReadLogFault.TheVariants.{OutOfMemory};

    ghost from_gives = { λ _ e. e ≡ OutOfMemory };

    fn from(_: AllocError) -> ReadLogFault {
        ReadLogFault::OutOfMemory
    }
}

/// The length that the first four bytes say, most significant first.
fn length_at(bytes: &[u8]) -> u32
    requires { 4 ≤ length bytes.now }
    ensures { result ≡ from_be_bytes w32 (take 4 bytes.now) }
{
    let (front, _) = bytes.split_at(4);
    u32::from_be_bytes([front[0], front[1], front[2], front[3]])
}

/// The length of the text behind the gate at the front, where so many bytes as are left have room for it and a gate.
pub(crate) fn text_size(bytes: &[u8], left: u64) -> Option<u32>
    ensures some { IfSome result (λ n. IsSize bytes.now left n) }
    ensures none { IfNone result ((n : ℕ) → IsSize bytes.now left n → ⊥) }
{
    if bytes.len() < HEAD {
        return None;
    }
    let size = length_at(&bytes[1..]);
    if size == 0 || u64::from(size) + 5 >= left {
        return None;
    }
    Some(size)
}

/// One more fact, the entry whose line stands at the front; how many bytes the line has. `line` is room for a line.
fn take_front(
    bytes: &[u8],
    line: &mut Vec<u8>,
    facts: &mut Facts,
) -> Result<Option<usize>, AllocError>
    ensures { IfOk result (λ found. MatchOption found (IsNoEntry bytes.now) (λ used. TookFront bytes.now facts.old facts.new used)) }
{
    match take_entry(bytes, line, facts)? {
        Some(rest) => Ok(Some(bytes.len() - rest.len())),
        None => Ok(None),
    }
}

/// One more fact, the entry whose line begins a text of `left` bytes; how many bytes the line has.
fn read_entry<D: Disk>(
    disk: &mut D,
    window: &mut Window,
    left: usize,
    line: &mut Vec<u8>,
    facts: &mut Facts,
) -> Result<Option<usize>, ReadLogFault>
    requires ahead { IsAhead D.tells (D.content disk.old) window.old }
    requires fits { window.old.place + left < window.old.size }
    ensures found { IfOk result (λ found. MatchOption found
        (IsTrue D.tells → IsNoEntry (take left (drop window.old.place (D.content disk.old))))
        (λ used. Passed D.tells (D.content disk.old) left used window.old window.new facts.old facts.new)) }
    ensures untouched { IsUntouched (D.content disk.old) (D.content disk.new) (D.images disk.old) (D.images disk.new) }
    ensures cause { result ≡ Err ReadLogFault.Failed → D.faults disk.old < D.faults disk.new }
    ensures whole { (at : ℕ) → result ≢ Err (ReadLogFault.Damaged at) }
    ensures never_falls { D.faults disk.old ≤ D.faults disk.new }
{
    window.fill(disk, LINE)?;
    let have = left.min(window.bytes().len());
    let Some(used) = take_front(&window.bytes()[..have], line, facts)? else {
        return Ok(None);
    };
    window.pass(used);
    Ok(Some(used))
}

/// The entries of which the next `size` bytes are the lines, behind those before; whether these are lines of entries.
fn read_facts<D: Disk>(
    disk: &mut D,
    window: &mut Window,
    size: u32,
    line: &mut Vec<u8>,
    facts: &mut Facts,
) -> Result<bool, ReadLogFault>
    requires ahead { IsAhead D.tells (D.content disk.old) window.old }
    requires fits { window.old.place + size < window.old.size }
    ensures other { IfOk result (λ whole. whole ≡ false → IsTrue D.tells → IsOther (take size (drop window.old.place (D.content disk.old)))) }
    ensures read { IfOk result (λ whole. whole ≡ true → ReadMore D.tells (D.content disk.old) size window.old window.new facts.old facts.new) }
    ensures untouched { IsUntouched (D.content disk.old) (D.content disk.new) (D.images disk.old) (D.images disk.new) }
    ensures cause { result ≡ Err ReadLogFault.Failed → D.faults disk.old < D.faults disk.new }
    ensures whole { (at : ℕ) → result ≢ Err (ReadLogFault.Damaged at) }
    ensures never_falls { D.faults disk.old ≤ D.faults disk.new }
{
    let mut left = size as usize;
    while left > 0 {
        match read_entry(disk, window, left, line, facts)? {
            Some(used) => left -= used,
            None => return Ok(false),
        }
    }
    Ok(true)
}

/// The entries of the batch behind the gate at the front, behind those before; whether there is one.
fn read_batch<D: Disk>(
    disk: &mut D,
    window: &mut Window,
    line: &mut Vec<u8>,
    facts: &mut Facts,
) -> Result<bool, ReadLogFault>
    requires ahead { IsAhead D.tells (D.content disk.old) window.old }
    requires filled { IsTrue D.tells → (5 ≤ length window.old.bytes) ⊎ (window.old.size ≤ window.old.place + length window.old.bytes) }
    requires some { 0 < length window.old.bytes }
    ensures other { IfOk result (λ whole. whole ≡ false → IsTrue D.tells → IsUnfollowed (drop (window.old.place + 1) (D.content disk.old))) }
    ensures read { IfOk result (λ whole. whole ≡ true → BatchMore D.tells (D.content disk.old) window.old window.new facts.old facts.new) }
    ensures untouched { IsUntouched (D.content disk.old) (D.content disk.new) (D.images disk.old) (D.images disk.new) }
    ensures cause { result ≡ Err ReadLogFault.Failed → D.faults disk.old < D.faults disk.new }
    ensures whole { (at : ℕ) → result ≢ Err (ReadLogFault.Damaged at) }
    ensures never_falls { D.faults disk.old ≤ D.faults disk.new }
{
    let Some(size) = text_size(window.bytes(), window.left()) else {
        return Ok(false);
    };
    window.pass(HEAD);
    read_facts(disk, window, size, line, facts)
}

/// The entries of one batch more, where the gate at the front is open; whether it is.
fn read_gated<D: Disk>(
    disk: &mut D,
    window: &mut Window,
    line: &mut Vec<u8>,
    facts: &mut Facts,
) -> Result<bool, ReadLogFault>
    requires ahead { IsAhead D.tells (D.content disk.old) window.old }
    requires there { window.old.place < window.old.size }
    ensures closed { IfOk result (λ more. more ≡ false → ClosedMore D.tells (D.content disk.old) window.old window.new facts.old facts.new) }
    ensures open { IfOk result (λ more. more ≡ true → OpenedMore D.tells (D.content disk.old) window.old window.new facts.old facts.new) }
    ensures damaged { (at : ℕ) → result ≡ Err (ReadLogFault.Damaged at) → IsTrue D.tells →
        IsBadGate (D.content disk.old) window.old.place at }
    ensures untouched { IsUntouched (D.content disk.old) (D.content disk.new) (D.images disk.old) (D.images disk.new) }
    ensures cause { result ≡ Err ReadLogFault.Failed → D.faults disk.old < D.faults disk.new }
    ensures never_falls { D.faults disk.old ≤ D.faults disk.new }
{
    let at = window.place();
    window.fill(disk, HEAD)?;
    let Some(gate) = first_of(window.bytes()) else {
        return Err(ReadLogFault::Damaged { at });
    };
    if gate == 0 {
        return Ok(false);
    }
    if !read_batch(disk, window, line, facts)? {
        return Err(ReadLogFault::Damaged { at });
    }
    Ok(true)
}

/// One batch more, where the gate at the front is open; whether it is.
fn read_next<D: Disk>(
    disk: &mut D,
    window: &mut Window,
    line: &mut Vec<u8>,
    facts: &mut Facts,
    ends: &mut Vec<usize>,
) -> Result<bool, ReadLogFault>
    requires ahead { IsAhead D.tells (D.content disk.old) window.old }
    requires there { window.old.place < window.old.size }
    requires kept { AreKept ends.old.items facts.old }
    ensures kept { IfOk result (λ more. AreKept ends.new.items facts.new) }
    ensures closed { IfOk result (λ more. more ≡ false → Closed D.tells (D.content disk.old) window.old window.new (cut 0 ends.old.items facts.old) (cut 0 ends.new.items facts.new)) }
    ensures open { IfOk result (λ more. more ≡ true → Opened D.tells (D.content disk.old) window.old window.new (cut 0 ends.old.items facts.old) (cut 0 ends.new.items facts.new)) }
    ensures damaged { (at : ℕ) → result ≡ Err (ReadLogFault.Damaged at) → IsTrue D.tells →
        IsBadGate (D.content disk.old) window.old.place at }
    ensures untouched { IsUntouched (D.content disk.old) (D.content disk.new) (D.images disk.old) (D.images disk.new) }
    ensures cause { result ≡ Err ReadLogFault.Failed → D.faults disk.old < D.faults disk.new }
    ensures never_falls { D.faults disk.old ≤ D.faults disk.new }
{
    let more = read_gated(disk, window, line, facts)?;
    if !more {
        return Ok(false);
    }
    note_end(ends, facts.as_slice().len())?;
    Ok(true)
}

/// The first byte.
pub(crate) fn first_of(bytes: &[u8]) -> Option<u8>
    ensures some { IfSome result (λ b. (0 < length bytes.now) × (b ≡ slice_index bytes.now 0)) }
    ensures none { IfNone result (bytes.now ≡ []) }
{
    match bytes.first() {
        Some(b) => Some(*b),
        None => None,
    }
}

/// Reads all batches from the window's place on. The window ends at the closed gate behind them.
pub(crate) fn read_batches<D: Disk>(
    alloc: Global,
    disk: &mut D,
    window: &mut Window,
) -> Result<Batches, ReadLogFault>
    requires ahead { IsAhead D.tells (D.content disk.old) window.old }
    requires there { window.old.place < window.old.size }
    ensures ends { IfOk result (λ batches. EndsAt D.tells (D.content disk.old) window.old.place window.new.place batches) }
    ensures damaged { (at : ℕ) → result ≡ Err (ReadLogFault.Damaged at) → IsTrue D.tells → IsDamagedFrom (D.content disk.old) window.old.place at }
    ensures untouched { IsUntouched (D.content disk.old) (D.content disk.new) (D.images disk.old) (D.images disk.new) }
    ensures cause { result ≡ Err ReadLogFault.Failed → D.faults disk.old < D.faults disk.new }
    ensures never_falls { D.faults disk.old ≤ D.faults disk.new }
{
    let mut line = Vec::new(alloc);
    let mut facts = Facts::new(alloc);
    let mut ends = Vec::new(alloc);
    let mut more = true;
    while more {
        more = read_next(disk, window, &mut line, &mut facts, &mut ends)?;
    }
    Ok(Batches::of(facts, ends))
}

/// Reads a log: the batches that the image spells. Nothing is written.
///
/// The disk is read once, from its front on; the memory that is taken is that of the batches, and of one piece.
pub fn read_log<D: Disk>(alloc: Global, disk: &mut D) -> Result<Batches, ReadLogFault>
    ensures spelled { IfOk result (λ batches. IsTrue D.tells → Spells (D.content disk.old) batches) }
    ensures damaged { (at : ℕ) → result ≡ Err (ReadLogFault.Damaged at) → IsTrue D.tells → IsDamaged (D.content disk.old) at }
    ensures untouched { IsUntouched (D.content disk.old) (D.content disk.new) (D.images disk.old) (D.images disk.new) }
    ensures cause { result ≡ Err ReadLogFault.Failed → D.faults disk.old < D.faults disk.new }
    ensures never_falls { D.faults disk.old ≤ D.faults disk.new }
{
    let size = disk.size()?;
    if size <= 1 {
        return Ok(Batches::new(alloc));
    }
    let mut window = Window::new(alloc, size)?;
    read_batches(alloc, disk, &mut window)
}
