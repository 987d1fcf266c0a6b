//! What is kept between two groups, and a group from its bytes to the text of its answers.
ghost use Rattle.std.specs.Prelude.{◌≡◌, ◌<◌, ◌≤◌, ℕ, ◌+◌, [], ◌∷◌, Err, IfOk, IsTrue, OnErr, length, not};
ghost use Rattle.std.specs.Str.Lines.{lines};
ghost use Rattle.yard_model.specs.Script.{is_config};
ghost use Rattle.yard_model.specs.Text.{Bytes};
ghost use Rattle.disk_log.specs.Images.{LeavesOnly};
ghost use Rattle.disk_log.specs.Rest.{HoldsPrefix, Rests};
ghost use Rattle.disk_log.specs.Headed.{IsHeadDamaged};
ghost use Rattle.disk_log.specs.Spelled.{AreBatches};
ghost use Rattle.serve_laws.specs.Served.{answers, empty_desk, frames, grouped};
ghost use Rattle.serve_answers.specs.Told.{begun};
ghost use Rattle.serve_service.specs.Openings.{Begins, IsForeignBehind, IsForeignFrame, IsSaid, LeftBy, LeftOff, head_line, texts_of};
ghost use Rattle.serve_service.specs.Services.{has_settings};

use crate::commit::commit;
use crate::fault::OpenFault;
use crate::opening::books_of;
use disk_log::{Batch, Batches, Disk, Headed, Log, open_headed};
use log_orders::CommitFault;
use serve_answers::{First, first_line};
use serve_books::{Books, Carried, carry_group, new_books};
use serve_laws::hearing::all_go_on;
use serve_laws::serving::{grouped_is_desk, log_stays};
use serve_lines::head_text;
use std::alloc::{AllocError, Global};
use std::marker::Model;
use yard_model::Config;

/// What is kept between two groups of lines; seen as the desk, and where its log ends.
#[derive(Drop)]
pub struct Service {
    books: Option<Books>,
    log: Log,
}

impl Model for Service {
    ghost use Rattle.serve_service.specs.Services.{Serving, desk_in};

    ghost Value = { Serving };

    ghost view = { λ s. record { desk = desk_in s.books; end = s.log } };
}

impl Service {
    /// The service that goes on with the log of a disk, of which the last run may have been cut off: what is queued and
    /// isn't confirmed is carried out. An empty disk gets a log.
    pub fn open<D: Disk>(alloc: Global, disk: &mut D) -> Result<Service, OpenFault>
        ensures begins { IfOk result (λ s. Begins D.tells (D.content disk.old) (D.images disk.old) (D.images disk.new) s.desk) }
        ensures rests { IfOk result (λ s. Rests D.tells s.end (D.content disk.new) (D.images disk.new) (frames s.desk)) }
        ensures left { OnErr result (IsTrue D.tells → LeftBy D.tells (D.content disk.old) (D.images disk.old) (D.images disk.new)) }
        ensures damaged { (at : ℕ) → result ≡ Err (OpenFault.Damaged at) → IsTrue D.tells → IsHeadDamaged (D.content disk.old) at }
        ensures foreign { (frame : ℕ) → result ≡ Err (OpenFault.Foreign frame) → IsForeignFrame D.tells (D.content disk.old) frame }
        ensures cause { result ≡ Err OpenFault.Failed → D.faults disk.old < D.faults disk.new }
        ensures never_falls { D.faults disk.old ≤ D.faults disk.new }
    {
        grouped_is_desk();
        log_stays();
        let Headed { log, head, batches } = open_headed(alloc, disk)?;
        match head {
            None => Ok(Service { books: None, log }),
            Some(line) => go_on(alloc, line.bytes(), batches, log, disk),
        }
    }

    /// Whether settings are in force.
    pub fn has_settings(&self) -> bool
        ensures { result ≡ has_settings self.now.desk }
    {
        match &self.books {
            Some(books) => books.has_settings(),
            None => false,
        }
    }

    /// Serves a group of whole lines, one line alone until settings are in force; the text of its answers, which stands
    /// on what is on the disk then. After an error the service is given up.
    pub fn serve<D: Disk>(
        self,
        alloc: Global,
        group: &[u8],
        disk: &mut D,
    ) -> Result<(Service, Vec<u8>), CommitFault>
        requires alone { IsTrue (not (has_settings self.desk)) → (l : Bytes) × (lines group.now ≡ l ∷ []) }
        requires rests { Rests D.tells self.end (D.content disk.old) (D.images disk.old) (frames self.desk) }
        ensures desk { IfOk result (λ r. r.0.desk ≡ grouped self.desk (lines group.now)) }
        ensures text { IfOk result (λ r. r.1.items ≡ answers self.desk (lines group.now)) }
        ensures rests { IfOk result (λ r. Rests D.tells r.0.end (D.content disk.new) (D.images disk.new) (frames r.0.desk)) }
        // A crash at any moment of the call leaves the frames before, or some of those that the group leads to.
        ensures any_moment { IsTrue D.tells → LeavesOnly (D.images disk.old) (D.images disk.new)
            (HoldsPrefix (frames (grouped self.desk (lines group.now))) (length (frames self.desk))) }
        ensures cause { result ≡ Err CommitFault.Failed → D.faults disk.old < D.faults disk.new }
        ensures never_falls { D.faults disk.old ≤ D.faults disk.new }
    {
        let Service { books, log } = self;
        match books {
            Some(books) => serve_on(alloc, books, log, group, disk),
            None => serve_first(alloc, log, group, disk),
        }
    }
}

/// Goes on with a log that begins with this line and has these batches.
fn go_on<D: Disk>(
    alloc: Global,
    head: &[u8],
    batches: Batches,
    log: Log,
    disk: &mut D,
) -> Result<Service, OpenFault>
    requires are { AreBatches batches }
    requires rests { Rests D.tells log (D.content disk.old) (D.images disk.old) (texts_of head.now batches) }
    ensures said { IfOk result (λ s. IsSaid head.now batches s.desk) }
    ensures rests { IfOk result (λ s. Rests D.tells s.end (D.content disk.new) (D.images disk.new) (frames s.desk)) }
    ensures leaves { IfOk result (λ s. IsTrue D.tells → LeavesOnly (D.images disk.old) (D.images disk.new) (HoldsPrefix (frames s.desk) (length batches + 1))) }
    ensures left { OnErr result (IsTrue D.tells → LeftOff head.now batches (D.images disk.old) (D.images disk.new)) }
    ensures foreign { (frame : ℕ) → result ≡ Err (OpenFault.Foreign frame) → IsForeignBehind head.now batches frame }
    ensures whole { (at : ℕ) → result ≡ Err (OpenFault.Damaged at) → ⊥ }
    ensures cause { result ≡ Err OpenFault.Failed → D.faults disk.old < D.faults disk.new }
    ensures never_falls { D.faults disk.old ≤ D.faults disk.new }
{
    let (books, batch) = books_of(alloc, head, batches)?;
    let log = commit(log, disk, &batch)?;
    Ok(Service {
        books: Some(books),
        log,
    })
}

/// Serves a group, where settings are in force.
fn serve_on<D: Disk>(
    alloc: Global,
    books: Books,
    log: Log,
    group: &[u8],
    disk: &mut D,
) -> Result<(Service, Vec<u8>), CommitFault>
    requires rests { Rests D.tells log (D.content disk.old) (D.images disk.old) (frames books) }
    ensures desk { IfOk result (λ r. r.0.desk ≡ grouped books (lines group.now)) }
    ensures text { IfOk result (λ r. r.1.items ≡ answers books (lines group.now)) }
    ensures rests { IfOk result (λ r. Rests D.tells r.0.end (D.content disk.new) (D.images disk.new) (frames r.0.desk)) }
    ensures any_moment { IsTrue D.tells → LeavesOnly (D.images disk.old) (D.images disk.new)
        (HoldsPrefix (frames (grouped books (lines group.now))) (length (frames books))) }
    ensures cause { result ≡ Err CommitFault.Failed → D.faults disk.old < D.faults disk.new }
    ensures never_falls { D.faults disk.old ≤ D.faults disk.new }
{
    all_go_on();
    log_stays();
    let _ = books.has_settings();
    let Carried { books, batch, text } = carry_group(alloc, books, group)?;
    let log = commit(log, disk, &batch)?;
    Ok((
        Service {
            books: Some(books),
            log,
        },
        text,
    ))
}

/// Serves a line, where no settings are in force yet.
fn serve_first<D: Disk>(
    alloc: Global,
    log: Log,
    group: &[u8],
    disk: &mut D,
) -> Result<(Service, Vec<u8>), CommitFault>
    requires alone { (l : Bytes) × (lines group.now ≡ l ∷ []) }
    requires rests { Rests D.tells log (D.content disk.old) (D.images disk.old) [] }
    ensures desk { IfOk result (λ r. r.0.desk ≡ grouped empty_desk (lines group.now)) }
    ensures text { IfOk result (λ r. r.1.items ≡ answers empty_desk (lines group.now)) }
    ensures rests { IfOk result (λ r. Rests D.tells r.0.end (D.content disk.new) (D.images disk.new) (frames r.0.desk)) }
    ensures any_moment { IsTrue D.tells → LeavesOnly (D.images disk.old) (D.images disk.new)
        (HoldsPrefix (frames (grouped empty_desk (lines group.now))) 0) }
    ensures cause { result ≡ Err CommitFault.Failed → D.faults disk.old < D.faults disk.new }
    ensures never_falls { D.faults disk.old ≤ D.faults disk.new }
{
    match first_line(alloc, group)? {
        First::Told(text) => Ok((Service { books: None, log }, text)),
        First::Begins(config) => begin(alloc, log, config, disk),
    }
}

/// Puts these settings in force: their line is the first frame of the log.
fn begin<D: Disk>(
    alloc: Global,
    log: Log,
    config: Config,
    disk: &mut D,
) -> Result<(Service, Vec<u8>), CommitFault>
    requires config { IsTrue (is_config config) }
    requires rests { Rests D.tells log (D.content disk.old) (D.images disk.old) [] }
    ensures desk { IfOk result (λ r. r.0.desk ≡ begun config) }
    ensures text { IfOk result (λ r. r.1.items ≡ head_line config) }
    ensures rests { IfOk result (λ r. Rests D.tells r.0.end (D.content disk.new) (D.images disk.new) (frames r.0.desk)) }
    ensures any_moment { IsTrue D.tells → LeavesOnly (D.images disk.old) (D.images disk.new) (HoldsPrefix (frames (begun config)) 0) }
    ensures cause { result ≡ Err CommitFault.Failed → D.faults disk.old < D.faults disk.new }
    ensures never_falls { D.faults disk.old ≤ D.faults disk.new }
{
    let text = head_text(alloc, &config)?;
    let head = text_batch(alloc, &text)?;
    let (books, batch) = new_books(alloc, config)?;
    let log = commit(log, disk, &head)?;
    let log = commit(log, disk, &batch)?;
    Ok((
        Service {
            books: Some(books),
            log,
        },
        text,
    ))
}

/// The batch of one text.
fn text_batch(alloc: Global, text: &[u8]) -> Result<Batch, AllocError>
    ensures { IfOk result (λ b. b ≡ text.now) }
{
    let mut batch = Batch::new(alloc)?;
    batch.push_text(text)?;
    Ok(batch)
}
