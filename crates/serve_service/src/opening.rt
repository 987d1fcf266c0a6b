//! From a log to the service that goes on with it.
ghost use Rattle.std.specs.Prelude.{◌≡◌, ℕ, [], ◌∷◌, true, false, Err, IfOk, IsTrue};
ghost use Rattle.yard_model.specs.Script.{is_config};
ghost use Rattle.disk_log.specs.Spelled.{AreBatches};
ghost use Rattle.serve_laws.specs.Hearings.{IsHeard};
ghost use Rattle.serve_books.specs.Books.{Adds};
ghost use Rattle.serve_service.specs.Openings.{IsForeignBehind, IsSaid, QueuedIn, with_queued};

use crate::fault::OpenFault;
use disk_log::{Batch, Batches};
use serve_books::{Books, carry};
use serve_desk::Desk;
use serve_lines::read_head;
use std::alloc::{AllocError, Global};
use yard_model::{Config, Fact};

/// What a log's batches queue.
enum Queued {
    /// All of it was entered.
    All(Desk),
    /// With this batch, from 1, it is no script that was heard.
    Refused(u32),
}

/// The books of a log that begins with this line and has these batches; and what is to be committed. As many batches as
/// there are numbers of frames count as want of memory.
pub(crate) fn books_of(
    alloc: Global,
    head: &[u8],
    batches: Batches,
) -> Result<(Books, Batch), OpenFault>
    requires are { AreBatches batches }
    ensures said { IfOk result (λ r. IsSaid head.now batches r.0) }
    ensures adds { IfOk result (λ r. Adds batches r.0.log r.1) }
    ensures foreign { (frame : ℕ) → result ≡ Err (OpenFault.Foreign frame) → IsForeignBehind head.now batches frame }
    ensures calm { result ≡ Err OpenFault.Failed → ⊥ }
    ensures whole { (at : ℕ) → result ≡ Err (OpenFault.Damaged at) → ⊥ }
{
    let Some(config) = read_head(alloc, head)? else {
        return Err(OpenFault::Foreign { frame: 1 });
    };
    if batches.len() == u32::MAX {
        return Err(OpenFault::OutOfMemory);
    }
    match queued_in(alloc, config, &batches)? {
        Queued::All(desk) => {
            let _ = desk.config();
            Ok(carry(alloc, desk, batches)?)
        }
        Queued::Refused(batch) => Err(OpenFault::Foreign { frame: batch + 1 }),
    }
}

/// What these batches queue, under these settings.
fn queued_in(alloc: Global, config: Config, batches: &Batches) -> Result<Queued, AllocError>
    requires config { IsTrue (is_config config) }
    ensures { IfOk result (λ q. QueuedIn config batches.now q) }
{
    let mut desk = Desk::new(alloc, config)?;
    for k in 0..batches.len() {
        if !enter_all(&mut desk, batches.get(k + 1))? {
            return Ok(Queued::Refused(k + 1));
        }
    }
    Ok(Queued::All(desk))
}

/// Enters what these entries queue; whether all of it may be.
fn enter_all(desk: &mut Desk, facts: &[Fact]) -> Result<bool, AllocError>
    ensures all { IfOk result (λ all. all ≡ true → desk.new ≡ with_queued desk.old facts.now) }
    ensures none { IfOk result (λ all. all ≡ false → IsHeard (with_queued desk.old facts.now) → ⊥) }
{
    for fact in facts {
        if !enter(desk, fact)? {
            return Ok(false);
        }
    }
    Ok(true)
}

/// Enters what this entry queues, if it queues a command; whether it may be.
fn enter(desk: &mut Desk, fact: &Fact) -> Result<bool, AllocError>
    ensures all { IfOk result (λ all. all ≡ true → desk.new ≡ with_queued desk.old (fact.now ∷ [])) }
    ensures none { IfOk result (λ all. all ≡ false → IsHeard (with_queued desk.old (fact.now ∷ [])) → ⊥) }
{
    match fact {
        Fact::Queued(producer, entity, number, command) => {
            desk.enter(*number, *producer, entity, command)
        }
        _ => Ok(true),
    }
}
