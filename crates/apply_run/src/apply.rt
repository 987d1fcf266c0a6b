//! `apply`: from a log to the log that the script leads to, and its report.
ghost use Rattle.std.specs.Prelude.{◌≡◌, ◌<◌, ◌≤◌, ◌^◌, ℕ, true, List, [], Err, IfErr, IfOk, IsTrue, OnErr, OnOk, length, map};
ghost use Rattle.yard_model.specs.declared.fact.Fact.{Fact};
ghost use Rattle.yard_model.specs.Lawful.{lawful};
ghost use Rattle.yard_model.specs.Script.{setting};
ghost use Rattle.yard_model.specs.Text.{report};
ghost use Rattle.shard_store.specs.Stores.{lists_at};
ghost use Rattle.disk_log.specs.Images.{LeavesOnly};
ghost use Rattle.disk_log.specs.Rest.{Rests};
ghost use Rattle.disk_log.specs.Spelled.{AreBatches, IsDamaged, Spells, SpellsPrefix, lines};
ghost use Rattle.log_resume.specs.Restored.{IsForeign, are_taken, entries};
ghost use Rattle.resume_run.specs.declared.fault.ResumeError.{ResumeError as ResumeErrorValue};
ghost use Rattle.resume_run.specs.ResumeText.{IsForeignLog};
ghost use Rattle.apply_laws.specs.Applied.{lists_in, log_after};
ghost use Rattle.apply_run.specs.Applying.{Applied, GoesOnAs, Holds, IsRefusal, StaysAs, told_behind};

use crate::carry::carry_out;
use crate::entered::Entered;
use apply_laws::applying::{
    applied_is_batch, applied_is_taken, applied_lists, applied_once, applied_settles,
};
use behaviour_core::laws::decided_law;
use disk_log::{Batches, Disk, Opened, one_reading, open_log};
use log_orders::commit_batch;
use log_resume::ResumeFault;
use resume_run::ResumeError;
use shard_store::Stores;
use std::alloc::{AllocError, Global};
use trace_notes::Told;
use trace_text::push_report;
use yard_model::Charter;
use yard_model::laws::{command_law, decision_law};

/// Brings the log on a disk up to the script, which has at most 20,000 orders, and gives the report of what is on the
/// disk then. What each send of the script that isn't recorded and confirmed yet brings about is committed as one batch;
/// where nothing is left to do, nothing is written. An empty disk, or one of one byte, gets a log first.
///
/// The text is made before the batch is committed. So after an error other than `Failed` the log is as it was.
pub fn apply_text<D: Disk>(
    alloc: Global,
    charter: &Charter,
    disk: &mut D,
) -> Result<Vec<u8>, ResumeError>
    requires few { length charter.now.orders ≤ 20000 }
    ensures applied { IfOk result (λ text. Applied D.tells (D.content disk.old) (D.images disk.new) charter.now text.items) }
    ensures any_moment { IsTrue D.tells → GoesOnAs (D.content disk.old) (D.images disk.old) (D.images disk.new) charter.now }
    ensures stays { (e : ResumeErrorValue) → result ≡ Err e → (e ≡ ResumeError.Failed → ⊥) → IsTrue D.tells →
        StaysAs (D.content disk.old) (D.images disk.old) (D.images disk.new) }
    ensures content { (e : ResumeErrorValue) → result ≡ Err e → IsRefusal e → IsTrue D.tells → D.content disk.new ≡ D.content disk.old }
    ensures damaged { (at : ℕ) → result ≡ Err (ResumeError.Damaged at) → IsTrue D.tells → IsDamaged (D.content disk.old) at }
    ensures foreign { (k : ℕ) → result ≡ Err (ResumeError.Foreign k) → IsForeignLog D.tells (D.content disk.old) charter.now k }
    ensures cause { result ≡ Err ResumeError.Failed → D.faults disk.old < D.faults disk.new }
    ensures complete { (log : List (List Fact)) → IsTrue D.tells → Spells (D.content disk.old) log →
        are_taken charter.now (entries log) ≡ true → D.faults disk.new ≡ D.faults disk.old →
        IfErr result (λ e. e ≡ ResumeError.OutOfMemory) }
    ensures never_falls { D.faults disk.old ≤ D.faults disk.new }
{
    one_reading();
    apply_on(alloc, charter, disk)
}

/// The same, of the log that is opened.
fn apply_on<D: Disk>(alloc: Global, charter: &Charter, disk: &mut D) -> Result<Vec<u8>, ResumeError>
    requires few { length charter.now.orders ≤ 20000 }
    requires one { (image : List ℕ) (batches others : List (List Fact)) → Spells image batches → Spells image others → batches ≡ others }
    ensures applied { IfOk result (λ text. Applied D.tells (D.content disk.old) (D.images disk.new) charter.now text.items) }
    ensures any_moment { IsTrue D.tells → GoesOnAs (D.content disk.old) (D.images disk.old) (D.images disk.new) charter.now }
    ensures stays { (e : ResumeErrorValue) → result ≡ Err e → (e ≡ ResumeError.Failed → ⊥) → IsTrue D.tells →
        StaysAs (D.content disk.old) (D.images disk.old) (D.images disk.new) }
    ensures content { (e : ResumeErrorValue) → result ≡ Err e → IsRefusal e → IsTrue D.tells → D.content disk.new ≡ D.content disk.old }
    ensures damaged { (at : ℕ) → result ≡ Err (ResumeError.Damaged at) → IsTrue D.tells → IsDamaged (D.content disk.old) at }
    ensures foreign { (k : ℕ) → result ≡ Err (ResumeError.Foreign k) → IsForeignLog D.tells (D.content disk.old) charter.now k }
    ensures cause { result ≡ Err ResumeError.Failed → D.faults disk.old < D.faults disk.new }
    ensures never_falls { D.faults disk.old ≤ D.faults disk.new }
{
    let opened = open_log(alloc, disk)?;
    apply_behind(alloc, charter, opened, disk)
}

/// Goes on behind the batches of a log that is open.
fn apply_behind<D: Disk>(
    alloc: Global,
    charter: &Charter,
    opened: Opened,
    disk: &mut D,
) -> Result<Vec<u8>, ResumeError>
    requires few { length charter.now.orders ≤ 20000 }
    requires are { AreBatches opened.batches }
    requires room { opened.log ≤ 2 ^ 61 }
    requires rests { Rests D.tells opened.log (D.content disk.old) (D.images disk.old) (map lines opened.batches) }
    ensures holds { IfOk result (λ text. Holds D.tells (D.images disk.new) charter.now opened.batches text.items) }
    ensures any_moment { IsTrue D.tells →
        LeavesOnly (D.images disk.old) (D.images disk.new) (SpellsPrefix (log_after charter.now opened.batches) (length opened.batches)) }
    ensures untouched { (e : ResumeErrorValue) → result ≡ Err e → (e ≡ ResumeError.Failed → ⊥) → disk.new ≡ disk.old }
    ensures whole { (at : ℕ) → result ≡ Err (ResumeError.Damaged at) → ⊥ }
    ensures foreign { (k : ℕ) → result ≡ Err (ResumeError.Foreign k) → IsForeign charter.now opened.batches k }
    ensures cause { result ≡ Err ResumeError.Failed → D.faults disk.old < D.faults disk.new }
    ensures never_falls { D.faults disk.old ≤ D.faults disk.new }
{
    charter.config();
    applied_is_batch();
    applied_is_taken();
    applied_settles();
    applied_once();
    let mut entered = Told::new(Entered::new(alloc)?);
    let text = text_behind(alloc, charter, &opened.batches, &mut entered)?;
    commit_batch(opened.log, disk, entered.notes().batch())?;
    Ok(text)
}

/// The report of the log that these batches lead to; what is behind them is entered.
fn text_behind(
    alloc: Global,
    charter: &Charter,
    batches: &Batches,
    entered: &mut Told<Entered>,
) -> Result<Vec<u8>, ResumeFault>
    requires few { length charter.now.orders ≤ 20000 }
    requires none { entered.old ≡ [] }
    ensures text { IfOk result (λ text. text.items ≡ report (setting charter.now) (lists_in charter.now (log_after charter.now batches.now))) }
    ensures taken { OnOk result (are_taken charter.now (entries batches.now) ≡ true) }
    ensures told { OnOk result (entered.new ≡ told_behind charter.now batches.now) }
    ensures foreign { (k : ℕ) → result ≡ Err (ResumeFault.Foreign k) → IsForeign charter.now batches.now k }
{
    charter.config();
    applied_lists();
    let stores = carry_out(alloc, charter, batches, entered)?;
    let text = report_of(alloc, charter, &stores)?;
    Ok(text)
}

/// The report of stores.
fn report_of(alloc: Global, charter: &Charter, stores: &Stores) -> Result<Vec<u8>, AllocError>
    requires script { stores.now.script ≡ charter.now }
    requires lawful { lawful charter.now (lists_at charter.now.config stores.now.places) ≡ true }
    ensures { IfOk result (λ text. text.items ≡ report (setting charter.now) (lists_at charter.now.config stores.now.places)) }
{
    command_law();
    decision_law();
    decided_law();
    charter.config();
    let mut text = Vec::new(alloc);
    push_report(&mut text, charter, stores)?;
    Ok(text)
}
