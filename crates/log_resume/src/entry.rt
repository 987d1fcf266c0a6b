//! One entry more, and one batch more.
ghost use Rattle.std.specs.Prelude.{◌≡◌, true, List, IfOk};
ghost use Rattle.std.specs.List.{list_all};
ghost use Rattle.yard_model.specs.declared.fact.Fact.{Fact as FactValue};
ghost use Rattle.yard_model.specs.Lawful.{lawful};
ghost use Rattle.fact_lines.specs.Entry.{is_entry};
ghost use Rattle.log_resume.specs.Taken.{Stands, Takes, TakesAll, is_within};

use entry_slots::Slots;
use std::alloc::AllocError;
use yard_model::Fact;

/// Takes an entry where the lists are lawful with it; whether they are.
fn take_entry(slots: &mut Slots, fact: &Fact) -> Result<bool, AllocError>
    requires entry { is_entry fact.now ≡ true }
    requires lawful { lawful slots.old.script slots.old.lists ≡ true }
    ensures script { slots.new.script ≡ slots.old.script }
    ensures taken { IfOk result (λ taken. Takes slots.old.script slots.old.lists fact.now taken slots.new.lists) }
{
    if !is_within(slots, fact) {
        return Ok(false);
    }
    let taken = slots.enter(fact)?;
    Ok(taken)
}

/// Whether it confirms no number past the records of its pair.
fn is_within(slots: &Slots, fact: &Fact) -> bool
    ensures { result ≡ is_within slots.now.script slots.now.lists fact.now }
{
    match fact {
        Fact::Confirmed(producer, entity, number) => *number <= slots.position(*producer, entity),
        _ => true,
    }
}

/// Takes the entries of a batch, up to the first with which the lists aren't lawful; whether there is none.
pub(crate) fn take_batch(slots: &mut Slots, facts: &[Fact]) -> Result<bool, AllocError>
    requires entries { list_all is_entry facts.now ≡ true }
    requires stands { (before : List FactValue) × Stands slots.old.script before slots.old.lists }
    ensures script { slots.new.script ≡ slots.old.script }
    ensures taken { IfOk result (λ whole. (before : List FactValue) → Stands slots.old.script before slots.old.lists →
        TakesAll slots.old.script before facts.now whole slots.new.lists) }
{
    for fact in facts {
        if !take_entry(slots, fact)? {
            return Ok(false);
        }
    }
    Ok(true)
}
