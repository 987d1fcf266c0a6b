//! `resume`: from a log to its report, and to the lists that a run goes on to, settled.
ghost use Rattle.std.specs.Prelude.{◌≡◌, ◌<◌, ◌≤◌, ℕ, true, List, [], Err, IfErr, IfOk, IsTrue, OnOk, length};
ghost use Rattle.yard_model.specs.declared.fact.Fact.{Fact};
ghost use Rattle.yard_model.specs.Script.{is_version, setting};
ghost use Rattle.yard_model.specs.Text.{lists_text};
ghost use Rattle.yard_model.specs.World.{given_world, wire_limit};
ghost use Rattle.shard_store.specs.Stores.{lists_at};
ghost use Rattle.trace_text.specs.Foldable.{is_foldable_in_all};
ghost use Rattle.disk_log.specs.Spelled.{IsDamaged, Spells};
ghost use Rattle.disk_log.specs.Window.{IsUntouched};
ghost use Rattle.settle_laws.specs.Settles.{most_deliveries};
ghost use Rattle.world_sim.specs.Played.{AreSettled};
ghost use Rattle.log_resume.specs.Restored.{IsForeign, MayGoOn, are_taken, entries};
ghost use Rattle.resume_run.specs.ResumeText.{GoneOn, IsForeignLog, ResumeText, Resumes};

use crate::fault::ResumeError;
use behaviour_by_kind::ByKind;
use behaviour_core::Behaviour;
use behaviour_core::laws::decided_law;
use disk_log::{Batches, Disk, one_reading, read_log};
use fact_lines::{entries_are_readable, texts_tell};
use log_resume::{ResumeFault, stores_of};
use readable_lists::look_at_lists;
use settle_laws::worlds::few_orders_fit;
use shard_store::Stores;
use std::alloc::{AllocError, Global};
use trace_text::{push_lists, push_report};
use world_sim::settle_stores;
use yard_model::Charter;
use yard_model::laws::{command_law, decision_law};

/// Reads the log on a disk, and gives the text of what a run of the script, which has at most 20,000 orders, goes on
/// to: the report of the log's lists, then the lists of all slots once they are settled, and their report. A reader
/// reads these lists off the text, since different ones have different texts (`readable_lists: texts_tell_lists`).
/// Nothing is written to the disk.
pub fn resume_text<D: Disk>(
    alloc: Global,
    charter: &Charter,
    disk: &mut D,
) -> Result<Vec<u8>, ResumeError>
    requires few { length charter.now.orders ≤ 20000 }
    ensures resumes { IfOk result (λ text. Resumes D.tells (D.content disk.old) charter.now text.items) }
    ensures damaged { (at : ℕ) → result ≡ Err (ResumeError.Damaged at) → IsTrue D.tells → IsDamaged (D.content disk.old) at }
    ensures foreign { (k : ℕ) → result ≡ Err (ResumeError.Foreign k) → IsForeignLog D.tells (D.content disk.old) charter.now k }
    ensures cause { result ≡ Err ResumeError.Failed → D.faults disk.old < D.faults disk.new }
    ensures complete { (log : List (List Fact)) → IsTrue D.tells → Spells (D.content disk.old) log →
        are_taken charter.now (entries log) ≡ true → D.faults disk.new ≡ D.faults disk.old →
        IfErr result (λ e. e ≡ ResumeError.OutOfMemory) }
    ensures never_falls { D.faults disk.old ≤ D.faults disk.new }
    ensures untouched { IsUntouched (D.content disk.old) (D.content disk.new) (D.images disk.old) (D.images disk.new) }
{
    one_reading();
    texts_tell();
    entries_are_readable();
    text_on(alloc, charter, disk)
}

/// The same; that it is complete follows.
fn text_on<D: Disk>(alloc: Global, charter: &Charter, disk: &mut D) -> Result<Vec<u8>, ResumeError>
    requires few { length charter.now.orders ≤ 20000 }
    ensures resumes { IfOk result (λ text. Resumes D.tells (D.content disk.old) charter.now text.items) }
    ensures damaged { (at : ℕ) → result ≡ Err (ResumeError.Damaged at) → IsTrue D.tells → IsDamaged (D.content disk.old) at }
    ensures foreign { (k : ℕ) → result ≡ Err (ResumeError.Foreign k) → IsForeignLog D.tells (D.content disk.old) charter.now k }
    ensures cause { result ≡ Err ResumeError.Failed → D.faults disk.old < D.faults disk.new }
    ensures never_falls { D.faults disk.old ≤ D.faults disk.new }
    ensures untouched { IsUntouched (D.content disk.old) (D.content disk.new) (D.images disk.old) (D.images disk.new) }
{
    let batches = read_log(alloc, disk)?;
    let text = text_of_log(alloc, charter, &batches)?;
    Ok(text)
}

/// The text of a log's batches.
fn text_of_log(alloc: Global, charter: &Charter, batches: &Batches) -> Result<Vec<u8>, ResumeFault>
    requires few { length charter.now.orders ≤ 20000 }
    ensures text { IfOk result (λ text. ResumeText charter.now batches.now text.items) }
    ensures foreign { (k : ℕ) → result ≡ Err (ResumeFault.Foreign k) → IsForeign charter.now batches.now k }
{
    let stores = stores_of(alloc, charter, batches)?;
    let text = text_of_stores(alloc, charter, stores)?;
    Ok(text)
}

/// The text of stores that a run goes on from: their report, and the lists that they are settled to.
fn text_of_stores(alloc: Global, charter: &Charter, stores: Stores) -> Result<Vec<u8>, AllocError>
    requires few { length charter.now.orders ≤ 20000 }
    requires script { stores.script ≡ charter.now }
    requires go_on { MayGoOn charter.now (lists_at charter.now.config stores.places) }
    ensures { IfOk result (λ text. GoneOn charter.now (lists_at charter.now.config stores.places) text.items) }
{
    few_orders_fit();
    let behaviour = ByKind::new(charter.config().kind);
    text_by(alloc, charter, behaviour, stores)
}

/// The same, of entities that behave so.
fn text_by<B: Behaviour + Copy + Drop>(
    alloc: Global,
    charter: &Charter,
    behaviour: B,
    stores: Stores,
) -> Result<Vec<u8>, AllocError>
    requires kind { B.kind_of behaviour ≡ charter.now.config.kind }
    requires version { is_version charter.now (B.version_of behaviour) ≡ true }
    requires fits { most_deliveries (given_world charter.now (B.version_of behaviour) (lists_at charter.now.config stores.places)) ≤ wire_limit }
    requires script { stores.script ≡ charter.now }
    requires go_on { MayGoOn charter.now (lists_at charter.now.config stores.places) }
    ensures { IfOk result (λ text. GoneOn charter.now (lists_at charter.now.config stores.places) text.items) }
{
    command_law();
    decision_law();
    decided_law();
    charter.config();
    let mut text = Vec::new(alloc);
    push_report(&mut text, charter, &stores)?;
    let settled = settled(alloc, charter, behaviour, stores)?;
    look_at_lists(charter, &settled);
    push_lists(&mut text, charter, &settled)?;
    push_report(&mut text, charter, &settled)?;
    Ok(text)
}

/// The stores that these are settled to, of entities that behave so.
#[tactic(auto, using(crate::proofs::ResumeLaws::may_settle))]
fn settled<B: Behaviour + Copy + Drop>(
    alloc: Global,
    charter: &Charter,
    behaviour: B,
    stores: Stores,
) -> Result<Stores, AllocError>
    requires kind { B.kind_of behaviour ≡ charter.now.config.kind }
    requires version { is_version charter.now (B.version_of behaviour) ≡ true }
    requires fits { most_deliveries (given_world charter.now (B.version_of behaviour) (lists_at charter.now.config stores.places)) ≤ wire_limit }
    requires script { stores.script ≡ charter.now }
    requires go_on { MayGoOn charter.now (lists_at charter.now.config stores.places) }
    ensures script { IfOk result (λ s. s.script ≡ charter.now) }
    ensures settled { IfOk result (λ s. AreSettled charter.now (lists_at charter.now.config stores.places) (lists_at charter.now.config s.places)) }
{
    settle_stores(alloc, charter, behaviour, stores)
}
