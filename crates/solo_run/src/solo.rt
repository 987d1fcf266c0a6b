//! `solo`: from a script to its report.
ghost use Rattle.std.specs.Prelude.{◌≡◌, IfOk, List, [], ℕ};
ghost use Rattle.yard_model.specs.Solo.{solo, solo_text};
ghost use Rattle.solo_run.specs.Facts.{facts_of, lists_of};
ghost use Rattle.solo_run.specs.Sound.{IsSound, solo_journal};

use crate::engine::Engine;
use crate::played::Played;
use crate::sound::journals_are_sound;
use behaviour_by_kind::ByKind;
use behaviour_core::Behaviour;
use std::alloc::{AllocError, Global};
use trace_text::push_report;
use yard_model::Charter;

/// The text that `solo` writes for this script. The only error is want of memory.
pub fn solo_report(alloc: Global, charter: &Charter) -> Result<Vec<u8>, AllocError>
    ensures text { IfOk result (λ text. text.items ≡ solo_text charter.now) }
    ensures sound { (e : List ℕ) → IsSound charter.now e (solo_journal charter.now e) }
{
    journals_are_sound();
    charter.config();
    let engine = engine_after(alloc, charter)?;
    let played = Played::new(charter, engine);
    let mut text = new_text(alloc, charter.orders().len())?;
    push_report(&mut text, charter, &played)?;
    Ok(text)
}

/// A text with room for the report of so many orders, by a guess: it moves to new room where that is too
/// little. The only error is want of memory.
fn new_text(alloc: Global, orders: usize) -> Result<Vec<u8>, AllocError>
    ensures { IfOk result (λ text. text.items ≡ []) }
{
    let text = Vec::with_capacity(alloc, orders.saturating_mul(32))?;
    Ok(text)
}

/// The engine after all orders of the script, which decides by the script's kind.
fn engine_after(alloc: Global, charter: &Charter) -> Result<Engine, AllocError>
    ensures config { IfOk result (λ e. e.config ≡ charter.now.config) }
    ensures lists { IfOk result (λ e. lists_of e.config (facts_of e.lists.items) ≡ (solo charter.now).lists) }
{
    let behaviour = ByKind::new(charter.config().kind);
    played(alloc, charter, &behaviour)
}

/// The engine after all orders of the script.
fn played<B: Behaviour>(
    alloc: Global,
    charter: &Charter,
    behaviour: &B,
) -> Result<Engine, AllocError>
    requires kind { B.kind_of behaviour.now ≡ charter.now.config.kind }
    requires version { B.version_of behaviour.now ≡ 1 }
    ensures config { IfOk result (λ e. e.config ≡ charter.now.config) }
    ensures lists { IfOk result (λ e. lists_of e.config (facts_of e.lists.items) ≡ (solo charter.now).lists) }
{
    let orders = charter.orders();
    let mut engine = Engine::new(alloc, charter.config(), orders.len())?;
    engine.play(alloc, orders, behaviour)?;
    Ok(engine)
}
