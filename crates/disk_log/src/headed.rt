//! A log that has a head: its first text is bytes of any kind, and batches stand behind it.
ghost use Rattle.std.specs.Prelude.{◌≡◌, ℕ, ◌+◌, ◌-◌, ◌<◌, ◌≤◌, ◌^◌, List, [], ◌∷◌, length, take, drop, IsTrue, Err, None, Some, IfOk, IfNone, IfSome, OnOk};
ghost use Rattle.disk_log.specs.Faults.{of_reading};
ghost use Rattle.disk_log.specs.Frames.{Holds};
ghost use Rattle.disk_log.specs.Headed.{HeadRead, IsHead, IsHeadDamaged, IsHeadless, IsLongHead, IsOpenFront, headed_texts};
ghost use Rattle.disk_log.specs.Images.{LeavesOnly, Only};
ghost use Rattle.disk_log.specs.Opening.{LeftOrNone};
ghost use Rattle.disk_log.specs.Rest.{Rests};
ghost use Rattle.disk_log.specs.Spelled.{AreBatches, Spells};
ghost use Rattle.disk_log.specs.Window.{IsAhead, IsSize, IsUntouched};
ghost use Rattle.disk_log.specs.declared.headed.HeadedFault.TheVariants as headed;

use crate::batches::Batches;
use crate::disk::Disk;
use crate::log::{FAR, Log};
use crate::opening::{firm_size, open_none};
use crate::reading::{HEAD, ReadLogFault, first_of, read_batches, text_size};
use crate::window::Window;
use std::alloc::{AllocError, Global};
use std::marker::Model;
use yard_io::Failed;

/// How many bytes a head has at most.
const MOST: usize = 1_024;

/// Why a log with a head was not opened.
#[derive(Clone, Copy, Debug, PartialEq, Eq)]
pub enum HeadedFault {
    /// A call of the disk failed.
    Failed,
    /// There was no memory.
    OutOfMemory,
    /// The open gate at this place isn't followed by a whole text and a gate, or behind the head by a whole batch.
    Damaged {
        /// Where the gate stands.
        at: u64,
    },
    /// The first text has more than 1,024 bytes.
    LongHead,
}

impl From<Failed> for HeadedFault {
    ghost from_gives = { λ _ e. e ≡ headed.Failed };

    fn from(_: Failed) -> HeadedFault {
        HeadedFault::Failed
    }
}

impl From<AllocError> for HeadedFault {
    ghost from_gives = { λ _ e. e ≡ headed.OutOfMemory };

    fn from(_: AllocError) -> HeadedFault {
        HeadedFault::OutOfMemory
    }
}

impl From<ReadLogFault> for HeadedFault {
    ghost from_gives = { λ fault e. e ≡ of_reading fault };

    fn from(fault: ReadLogFault) -> HeadedFault {
        match fault {
            ReadLogFault::Failed => HeadedFault::Failed,
            ReadLogFault::OutOfMemory => HeadedFault::OutOfMemory,
            ReadLogFault::Damaged { at } => HeadedFault::Damaged { at },
        }
    }
}

/// The first text of a log that has a head: 1 to 1,024 bytes.
#[derive(Drop)]
pub struct Head {
    bytes: Vec<u8>,
}

impl Model for Head {
    ghost use Rattle.std.specs.Prelude.{List, ℕ};
    ghost use Rattle.disk_log.specs.Headed.{IsHead};

    ghost Value = { List ℕ };

    ghost view = { λ h. h.bytes.items };

    ghost invariant = { λ h. IsHead h.bytes.items };
}

impl Head {
    /// Its bytes.
    pub fn bytes(&self) -> &[u8]
        ensures bytes { result.now ≡ self.now }
        ensures head { IsHead self.now }
    {
        self.bytes.as_slice()
    }
}

/// A log with a head that was opened.
#[derive(Drop)]
pub struct Headed {
    /// Its end.
    pub log: Log,
    /// Its first text, if it has any.
    pub head: Option<Head>,
    /// What stands behind that.
    pub batches: Batches,
}

/// Opens a log that has a head, to go on where it ends: its first text and the batches behind it, after Ok for good. A
/// disk of at most one byte has none, and gets a closed gate; else nothing is written, and what stands behind the
/// closed gate stays.
///
/// It begins with a sync, since reads may give what a crash would take. A log that ends behind 2^61 bytes counts as
/// want of memory.
pub fn open_headed<D: Disk>(alloc: Global, disk: &mut D) -> Result<Headed, HeadedFault>
    ensures spelled { IfOk result (λ o. IsTrue D.tells → Holds (headed_texts o.head o.batches) (D.content disk.old)) }
    ensures are { IfOk result (λ o. AreBatches o.batches) }
    ensures head_is { IfOk result (λ o. IfSome o.head IsHead) }
    ensures none { IfOk result (λ o. IfNone o.head (o.batches ≡ [])) }
    ensures rests { IfOk result (λ o. Rests D.tells o.log (D.content disk.new) (D.images disk.new) (headed_texts o.head o.batches)) }
    ensures room { IfOk result (λ o. o.log ≤ 2 ^ 61) }

    // A crash at any moment of the call leaves what it might have left before it, or, of a disk of at most one byte,
    // an image of no text.
    ensures any_moment { IsTrue D.tells →
        LeavesOnly (D.images disk.old) (D.images disk.new) (LeftOrNone (D.content disk.old) (D.images disk.old)) }

    ensures stays { IsTrue D.tells → 1 < length (D.content disk.old) → D.content disk.new ≡ D.content disk.old }
    ensures made { OnOk result (IsTrue D.tells → length (D.content disk.old) ≤ 1 → D.content disk.new ≡ 0 ∷ []) }
    ensures damaged { (at : ℕ) → result ≡ Err (HeadedFault.Damaged at) → IsTrue D.tells → IsHeadDamaged (D.content disk.old) at }
    ensures long_head { result ≡ Err HeadedFault.LongHead → IsTrue D.tells → IsLongHead (D.content disk.old) }
    ensures cause { result ≡ Err HeadedFault.Failed → D.faults disk.old < D.faults disk.new }
    ensures never_falls { D.faults disk.old ≤ D.faults disk.new }
{
    let size = firm_size(disk)?;
    if size <= 1 {
        return open_unheaded(alloc, disk);
    }
    open_written(alloc, disk, size)
}

/// Opens a log on a disk of at most one byte.
fn open_unheaded<D: Disk>(alloc: Global, disk: &mut D) -> Result<Headed, HeadedFault>
    requires { IsTrue D.tells → length (D.content disk.old) ≤ 1 }
    ensures rests { IfOk result (λ o. Rests D.tells o.log (D.content disk.new) (D.images disk.new) []) }
    ensures none { IfOk result (λ o. (o.head ≡ None) × (o.batches ≡ [])) }
    ensures room { IfOk result (λ o. o.log ≤ 2 ^ 61) }
    ensures any_moment { Only (D.content disk.old) (D.images disk.old) → length (D.content disk.old) ≤ 1 →
        LeavesOnly (D.images disk.old) (D.images disk.new) (λ c. Spells c []) }
    ensures made { OnOk result (IsTrue D.tells → D.content disk.new ≡ 0 ∷ []) }
    ensures whole { (at : ℕ) → result ≡ Err (HeadedFault.Damaged at) → ⊥ }
    ensures short { result ≡ Err HeadedFault.LongHead → ⊥ }
    ensures cause { result ≡ Err HeadedFault.Failed → D.faults disk.old < D.faults disk.new }
    ensures never_falls { D.faults disk.old ≤ D.faults disk.new }
{
    let opened = open_none(alloc, disk)?;
    Ok(Headed {
        log: opened.log,
        head: None,
        batches: opened.batches,
    })
}

/// Opens a log on a disk of two bytes or more.
fn open_written<D: Disk>(alloc: Global, disk: &mut D, size: u64) -> Result<Headed, HeadedFault>
    requires long { 1 < size }
    requires size { IsTrue D.tells → size ≡ length (D.content disk.old) }
    requires durable { IsTrue D.tells → Only (D.content disk.old) (D.images disk.old) }
    ensures spelled { IfOk result (λ o. IsTrue D.tells → Holds (headed_texts o.head o.batches) (D.content disk.old)) }
    ensures are { IfOk result (λ o. AreBatches o.batches) }
    ensures head_is { IfOk result (λ o. IfSome o.head IsHead) }
    ensures none { IfOk result (λ o. IfNone o.head (o.batches ≡ [])) }
    ensures rests { IfOk result (λ o. Rests D.tells o.log (D.content disk.new) (D.images disk.new) (headed_texts o.head o.batches)) }
    ensures room { IfOk result (λ o. o.log ≤ 2 ^ 61) }
    ensures untouched { IsUntouched (D.content disk.old) (D.content disk.new) (D.images disk.old) (D.images disk.new) }
    ensures damaged { (at : ℕ) → result ≡ Err (HeadedFault.Damaged at) → IsTrue D.tells → IsHeadDamaged (D.content disk.old) at }
    ensures long_head { result ≡ Err HeadedFault.LongHead → IsTrue D.tells → IsLongHead (D.content disk.old) }
    ensures cause { result ≡ Err HeadedFault.Failed → D.faults disk.old < D.faults disk.new }
    ensures never_falls { D.faults disk.old ≤ D.faults disk.new }
{
    let mut window = Window::new(alloc, size)?;
    match read_head(alloc, disk, &mut window)? {
        Some(head) => open_behind(alloc, disk, &mut window, head),
        None => Ok(Headed {
            log: Log::at(0),
            head: None,
            batches: Batches::new(alloc),
        }),
    }
}

/// Opens a log whose head was read.
fn open_behind<D: Disk>(
    alloc: Global,
    disk: &mut D,
    window: &mut Window,
    head: Head,
) -> Result<Headed, HeadedFault>
    requires read { HeadRead D.tells (D.content disk.old) window.old head }
    requires durable { IsTrue D.tells → Only (D.content disk.old) (D.images disk.old) }
    ensures spelled { IfOk result (λ o. IsTrue D.tells → Holds (headed_texts o.head o.batches) (D.content disk.old)) }
    ensures are { IfOk result (λ o. AreBatches o.batches) }
    ensures head_is { IfOk result (λ o. o.head ≡ Some head) }
    ensures rests { IfOk result (λ o. Rests D.tells o.log (D.content disk.new) (D.images disk.new) (headed_texts o.head o.batches)) }
    ensures room { IfOk result (λ o. o.log ≤ 2 ^ 61) }
    ensures untouched { IsUntouched (D.content disk.old) (D.content disk.new) (D.images disk.old) (D.images disk.new) }
    ensures damaged { (at : ℕ) → result ≡ Err (HeadedFault.Damaged at) → IsTrue D.tells → IsHeadDamaged (D.content disk.old) at }
    ensures short { result ≡ Err HeadedFault.LongHead → ⊥ }
    ensures cause { result ≡ Err HeadedFault.Failed → D.faults disk.old < D.faults disk.new }
    ensures never_falls { D.faults disk.old ≤ D.faults disk.new }
{
    let batches = read_batches(alloc, disk, window)?;
    let end = window.place();
    if end > FAR {
        return Err(HeadedFault::OutOfMemory);
    }
    Ok(Headed {
        log: Log::at(end),
        head: Some(head),
        batches,
    })
}

/// Reads the first text, where the gate at the front is open.
fn read_head<D: Disk>(
    alloc: Global,
    disk: &mut D,
    window: &mut Window,
) -> Result<Option<Head>, HeadedFault>
    requires ahead { IsAhead D.tells (D.content disk.old) window.old }
    requires first { window.old.place ≡ 0 }
    requires long { 1 < window.old.size }
    ensures none { IfOk result (λ head. IfNone head (IsTrue D.tells → (rest : List ℕ) × (D.content disk.old ≡ 0 ∷ rest))) }
    ensures some { IfOk result (λ head. IfSome head (HeadRead D.tells (D.content disk.old) window.new)) }
    ensures damaged { (at : ℕ) → result ≡ Err (HeadedFault.Damaged at) → IsTrue D.tells → (at ≡ 0) × IsHeadless (D.content disk.old) }
    ensures long_head { result ≡ Err HeadedFault.LongHead → IsTrue D.tells → IsLongHead (D.content disk.old) }
    ensures untouched { IsUntouched (D.content disk.old) (D.content disk.new) (D.images disk.old) (D.images disk.new) }
    ensures cause { result ≡ Err HeadedFault.Failed → D.faults disk.old < D.faults disk.new }
    ensures never_falls { D.faults disk.old ≤ D.faults disk.new }
{
    window.fill(disk, HEAD)?;
    let Some(gate) = first_of(window.bytes()) else {
        return Err(HeadedFault::Damaged { at: 0 });
    };
    if gate == 0 {
        return Ok(None);
    }
    let Some(size) = text_size(window.bytes(), window.left()) else {
        return Err(HeadedFault::Damaged { at: 0 });
    };
    let head = read_text(alloc, disk, window, size)?;
    Ok(Some(head))
}

/// Reads the text of so many bytes behind the gate and the length at the front.
fn read_text<D: Disk>(
    alloc: Global,
    disk: &mut D,
    window: &mut Window,
    size: u32,
) -> Result<Head, HeadedFault>
    requires ahead { IsAhead D.tells (D.content disk.old) window.old }
    requires first { window.old.place ≡ 0 }
    requires sized { IsSize window.old.bytes (window.old.size - window.old.place) size }
    requires gate { IsTrue D.tells → IsOpenFront (D.content disk.old) }
    ensures read { IfOk result (HeadRead D.tells (D.content disk.old) window.new) }
    ensures damaged { (at : ℕ) → result ≡ Err (HeadedFault.Damaged at) → IsTrue D.tells → ⊥ }
    ensures long_head { result ≡ Err HeadedFault.LongHead → IsTrue D.tells → IsLongHead (D.content disk.old) }
    ensures untouched { IsUntouched (D.content disk.old) (D.content disk.new) (D.images disk.old) (D.images disk.new) }
    ensures cause { result ≡ Err HeadedFault.Failed → D.faults disk.old < D.faults disk.new }
    ensures never_falls { D.faults disk.old ≤ D.faults disk.new }
{
    let want = size as usize;
    if want > MOST {
        return Err(HeadedFault::LongHead);
    }
    window.pass(HEAD);
    window.fill(disk, want)?;
    match take_head(alloc, window, want)? {
        Some(head) => Ok(head),
        None => Err(HeadedFault::Damaged { at: 0 }),
    }
}

/// So many of the bytes that are at hand, if they are so many.
fn take_head(alloc: Global, window: &mut Window, want: usize) -> Result<Option<Head>, AllocError>
    requires some { 0 < want }
    requires few { want ≤ 1024 }
    ensures none { IfOk result (λ head. IfNone head (length window.old.bytes < want)) }
    ensures some { IfOk result (λ head. IfSome head (λ h. (want ≤ length window.old.bytes) × (h ≡ take want window.old.bytes))) }
    ensures passed { IfOk result (λ head. IfSome head (λ _. window.new ≡ record { size = window.old.size; place = window.old.place + want; bytes = drop want window.old.bytes })) }
{
    if window.bytes().len() < want {
        return Ok(None);
    }
    let bytes = Vec::from_slice(alloc, &window.bytes()[..want])?;
    window.pass(want);
    Ok(Some(Head { bytes }))
}
