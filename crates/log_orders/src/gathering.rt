//! The facts of an order that belong to a slot's list.
ghost use Rattle.std.specs.Prelude.{◌≡◌, OnErr, OnOk};
ghost use Rattle.log_orders.specs.Orders.{belongs};
ghost use Rattle.log_orders.specs.Gathered.{Gathers, GathersOne};

use disk_log::Batch;
use fact_lines::is_entry;
use std::alloc::AllocError;
use yard_model::Fact;

/// Whether a fact belongs to a slot's list.
pub fn belongs(fact: &Fact) -> bool
    ensures { result ≡ belongs fact.now }
{
    match fact {
        Fact::Granted(..) | Fact::Freed(..) => true,
        Fact::Registered(_) | Fact::Terminated(_) => true,
        Fact::Allocated(..) | Fact::Deallocated(_) => true,
        Fact::Wrote(..) | Fact::Snapshot(..) => true,
        Fact::Remembered(_) | Fact::Forgotten(_) => true,
        Fact::Queued(..) | Fact::Confirmed(..) => true,
        Fact::Reshard(..) | Fact::Resharded(..) => true,
        _ => false,
    }
}

/// One fact more: its line, if it belongs to a slot's list. The only error is want of memory, as which an entry that
/// no log can have counts too; then nothing changes.
pub fn enter(batch: &mut Batch, fact: &Fact) -> Result<(), AllocError>
    ensures ok { OnOk result (GathersOne batch.old fact.now batch.new) }
    ensures err { OnErr result (batch.new ≡ batch.old) }
{
    if !belongs(fact) {
        return Ok(());
    }
    if !is_entry(fact) {
        return Err(AllocError);
    }
    batch.push(fact)?;
    Ok(())
}

/// The batch of an order with these facts, in place of what was there. The only error is want of memory, as which an
/// entry that no log can have counts too.
pub fn gather(batch: &mut Batch, facts: &[Fact]) -> Result<(), AllocError>
    ensures { OnOk result (Gathers facts.now batch.new) }
{
    batch.clear();
    for fact in facts {
        enter(batch, fact)?;
    }
    Ok(())
}
