//! The settings, what was accepted, and what stands on the disk of it; and what a group of lines makes of them.
ghost use Rattle.std.specs.Prelude.{◌≡◌, ℕ, [], ◌∷◌, ◌++◌, Err, IfOk, IsTrue, OnOk, Some, map, true};
ghost use Rattle.std.specs.List.{flat_map};
ghost use Rattle.std.specs.Str.Lines.{lines};
ghost use Rattle.yard_model.specs.Script.{Script, is_config};
ghost use Rattle.disk_log.specs.Spelled.{AreBatches, IsBatch};
ghost use Rattle.log_resume.specs.Restored.{IsForeign, are_taken, entries};
ghost use Rattle.log_orders.specs.Gathered.{Gathers};
ghost use Rattle.log_orders.specs.Orders.{batch_of, listed};
ghost use Rattle.serve_laws.specs.Hearing.{answers_all};
ghost use Rattle.serve_laws.specs.Served.{answer_text, answers, grouped};
ghost use Rattle.serve_laws.specs.Servings.{IsDesk};
ghost use Rattle.serve_answers.specs.Told.{answer_value, begun, desk_at};
ghost use Rattle.serve_books.specs.Books.{Adds, AreOf};

use apply_laws::applying::{
    applied_is_batch, applied_is_taken, applied_lists, applied_settles, done_adds_nothing,
};
use apply_laws::logging::front_is_taken;
use apply_run::carry_out;
use disk_log::{Batch, Batches};
use grow_laws::growing::grown_is_taken;
use log_orders::{belongs, gather};
use log_resume::ResumeFault;
use serve_answers::{Answer, hear_all, push_answers};
use serve_desk::Desk;
use serve_laws::hearing::{all_go_on, cuts_dont_matter};
use serve_laws::serving::done_is_right;
use shard_store::Stores;
use std::alloc::{AllocError, Global};
use std::marker::Model;
use trace_notes::Told;
use yard_model::{Charter, Config, Fact, Facts};

/// What was accepted and what stands on the disk, with the stores of that; seen as the desk. All of it is carried out.
#[derive(Drop)]
pub struct Books {
    desk: Desk,
    charter: Charter,
    batches: Batches,
    stores: Stores,
}

impl Model for Books {
    ghost use Rattle.serve_laws.specs.Served.{Desk};
    ghost use Rattle.serve_answers.specs.Told.{desk_at};
    ghost use Rattle.serve_books.specs.Books.{IsKept};

    ghost Value = { Desk };

    ghost view = { λ b. desk_at b.desk b.batches };

    ghost invariant = { λ b. IsKept b.desk b.charter b.batches b.stores };
}

/// What a group of lines comes to, before anything of it is on the disk.
#[derive(Drop)]
pub struct Carried {
    /// The books with it.
    pub books: Books,
    /// What is to be committed.
    pub batch: Batch,
    /// The answers, as they stand once that is on the disk.
    pub text: Vec<u8>,
}

/// Carries out what was accepted and these batches don't have recorded and confirmed; what is to be committed of it.
///
/// `Foreign` comes exactly where an entry isn't one that may stand behind those before it; else the only error is want
/// of memory.
pub fn carry(alloc: Global, desk: Desk, batches: Batches) -> Result<(Books, Batch), ResumeFault>
    requires are { AreBatches batches }
    ensures books { IfOk result (λ r. r.0 ≡ grouped (desk_at desk batches) []) }
    ensures adds { IfOk result (λ r. Adds batches r.0.log r.1) }
    ensures taken { OnOk result (IsTrue (are_taken desk (entries batches))) }
    ensures foreign { (k : ℕ) → result ≡ Err (ResumeFault.Foreign k) → IsForeign desk batches k }
{
    applied_is_batch();
    applied_is_taken();
    applied_lists();
    applied_settles();
    desk.config();
    let charter = desk.charter(alloc)?;
    let mut told = Told::new(Facts::new(alloc));
    let stores = carry_out(alloc, &charter, &batches, &mut told)?;
    let (batches, batch) = with_told(alloc, batches, told.as_slice())?;
    Ok((
        Books {
            desk,
            charter,
            batches,
            stores,
        },
        batch,
    ))
}

/// The books of settings that begin: nothing is accepted yet.
pub fn new_books(alloc: Global, config: Config) -> Result<(Books, Batch), AllocError>
    requires config { IsTrue (is_config config) }
    ensures books { IfOk result (λ r. r.0 ≡ begun config) }
    ensures adds { IfOk result (λ r. Adds [] r.0.log r.1) }
{
    let desk = Desk::new(alloc, config)?;
    match carry(alloc, desk, Batches::new(alloc)) {
        Ok(begun) => Ok(begun),
        Err(ResumeFault::OutOfMemory) => Err(AllocError),
        Err(ResumeFault::Foreign { .. }) => unreachable!(),
    }
}

/// The batches with that of these facts behind them, if they have one; and its text.
fn with_told(
    alloc: Global,
    batches: Batches,
    facts: &[Fact],
) -> Result<(Batches, Batch), AllocError>
    ensures more { IfOk result (λ r. r.0 ≡ batches ++ batch_of facts.now) }
    ensures adds { IfOk result (λ r. Adds batches r.0 r.1) }
{
    let batch = gathered(alloc, facts)?;
    if batch.is_empty() {
        return Ok((batches, batch));
    }
    let batches = with_listed(alloc, batches, facts)?;
    Ok((batches, batch))
}

/// The text of the batch of these facts.
fn gathered(alloc: Global, facts: &[Fact]) -> Result<Batch, AllocError>
    ensures { IfOk result (λ b. Gathers facts.now b) }
{
    let mut batch = Batch::new(alloc)?;
    gather(&mut batch, facts)?;
    Ok(batch)
}

/// The batches with those of these facts that belong to a slot's list.
fn with_listed(alloc: Global, batches: Batches, facts: &[Fact]) -> Result<Batches, AllocError>
    requires { IsBatch (listed facts.now) }
    ensures { IfOk result (λ more. more ≡ batches ++ listed facts.now ∷ []) }
{
    let kept = listed_of(alloc, facts)?;
    batches.with(kept.as_slice())
}

/// Those of these facts that belong to a slot's list.
fn listed_of(alloc: Global, facts: &[Fact]) -> Result<Facts, AllocError>
    ensures { IfOk result (λ l. l ≡ listed facts.now) }
{
    let mut kept = Facts::new(alloc);
    for fact in facts {
        keep(&mut kept, fact)?;
    }
    Ok(kept)
}

/// A fact more, if it belongs to a slot's list.
fn keep(kept: &mut Facts, fact: &Fact) -> Result<(), AllocError>
    ensures { OnOk result (kept.new ≡ kept.old ++ listed (fact.now ∷ [])) }
{
    if belongs(fact) {
        kept.push_copy(fact)?;
    }
    Ok(())
}

/// What a group of lines comes to, where settings are in force. The only error is want of memory.
pub fn carry_group(alloc: Global, books: Books, group: &[u8]) -> Result<Carried, AllocError>
    ensures books { IfOk result (λ x. x.books ≡ grouped books (lines group.now)) }
    ensures adds { IfOk result (λ x. Adds books.log x.books.log x.batch) }
    ensures text { IfOk result (λ x. x.text.items ≡ answers books (lines group.now)) }
{
    let (books, batch, heard) = hear_group(alloc, books, group)?;
    let mut text = Vec::new(alloc);
    books.push_answers(&mut text, heard.as_slice())?;
    Ok(Carried { books, batch, text })
}

/// Hears a group, and carries out what is accepted of it; what is to be committed, and what each line is answered.
fn hear_group(
    alloc: Global,
    books: Books,
    group: &[u8],
) -> Result<(Books, Batch, Vec<Answer>), AllocError>
    ensures books { IfOk result (λ r. r.0 ≡ grouped books (lines group.now)) }
    ensures adds { IfOk result (λ r. Adds books.log r.0.log r.1) }
    ensures heard { IfOk result (λ r. map answer_value r.2.items ≡ answers_all books.so_far (lines group.now)) }
    ensures desk { IsDesk books }
{
    all_go_on();
    grown_is_taken();
    front_is_taken();
    done_adds_nothing();
    let Books {
        desk,
        charter,
        batches,
        stores,
    } = books;
    let mut desk = desk;
    let mut heard = Vec::new(alloc);
    if !hear_all(&mut desk, group, &mut heard)? {
        let batch = Batch::new(alloc)?;
        let books = Books {
            desk,
            charter,
            batches,
            stores,
        };
        return Ok((books, batch, heard));
    }
    drop(stores);
    drop(charter);
    match carry(alloc, desk, batches) {
        Ok((books, batch)) => Ok((books, batch, heard)),
        Err(ResumeFault::OutOfMemory) => Err(AllocError),
        Err(ResumeFault::Foreign { .. }) => unreachable!(),
    }
}

impl Books {
    /// Settings are in force.
    pub fn has_settings(&self) -> bool
        ensures yes { result ≡ true }
        ensures some { (c : Script) × (self.now.so_far ≡ Some c) }
    {
        let _ = &self.desk;
        true
    }

    /// Appends the texts of the answers to a group that these books stand behind.
    fn push_answers(&self, text: &mut Vec<u8>, heard: &[Answer]) -> Result<(), AllocError>
        requires heard { AreOf self.now (map answer_value heard.now) }
        ensures { OnOk result (text.new.items ≡ text.old.items ++ flat_map (answer_text self.now) (map answer_value heard.now)) }
    {
        done_is_right();
        cuts_dont_matter();
        push_answers(text, &self.charter, &self.stores, heard)
    }
}
