//! The judge of a trace.
ghost use Rattle.std.specs.Prelude.{◌≡◌, ◌<◌, true, false, [], length, IfOk, OnErr};
ghost use Rattle.yard_model.specs.declared.fact.Fact.TheVariants as fact;
ghost use Rattle.yard_model.specs.Era.{upgrade_step};
ghost use Rattle.yard_model.specs.Safe.{is_journal_state, safe, shard_list_of};
ghost use Rattle.yard_model.specs.SlotReads.{holder, journal};
ghost use Rattle.yard_model.specs.Words.{is_at};
ghost use Rattle.yard_model.specs.Script.{names_in};
ghost use Rattle.judge_laws.specs.Judged.{crossed, judged};
ghost use Rattle.trace_judge.specs.Judging.{Passes, Sees, cell_after, noted, started, stopped};

use crate::cells::{Cell, are_idle, new_cells, start, stop, stop_all};
use entry_slots::Slots;
use judge_laws::Breach;
use std::alloc::{AllocError, Global};
use std::marker::{Model, PhantomData};
use trace_notes::Story;
use yard_model::laws::incarnation_law;
use yard_model::{
    Cause, Charter, Command, EntityName, Fact, Incarnation, Record, ShardNo, Slot, State,
};

/// The judge of a trace of a charter; seen as its script and the facts so far, none of which was a breach: the
/// trace is safe.
#[derive(Drop)]
pub struct Judge {
    pub(crate) slots: Slots,
    pub(crate) cells: Vec<Cell>,
    version: u8,
    story: Story,
    holds: PhantomData<(Command, Record, Slot)>,
}

impl Model for Judge {
    ghost use Rattle.trace_judge.specs.Judging.{IsJudge, Judged};

    ghost Value = { Judged };

    ghost view = { λ j. record { script = j.slots.script; trace = j.story.told } };

    ghost invariant = { λ j. IsJudge j.slots j.cells.items j.version j.story.told };
}

impl Judge {
    /// Before the first fact. The only error is want of memory.
    pub fn new(alloc: Global, charter: &Charter) -> Result<Judge, AllocError>
        ensures { IfOk result (λ j. j ≡ record { script = charter.now; trace = [] }) }
    {
        let _config = charter.config();
        Ok(Judge {
            slots: Slots::new(alloc, charter)?,
            cells: new_cells(alloc, charter)?,
            version: 1,
            story: Story::new(),
            holds: PhantomData,
        })
    }

    /// The facts so far are a safe trace.
    pub fn knows(&self)
        ensures { safe self.now.script self.now.trace ≡ true }
    {
        let _charter = self.slots.charter();
    }

    /// One fact more: the first test that it fails, and then nothing changes; None exactly where it fails none,
    /// and then it is one of the facts. The only error is want of memory, and then nothing changes.
    pub fn see(&mut self, fact: &Fact) -> Result<Option<Breach>, AllocError>
        ensures ok { IfOk result (λ why. Sees self.old fact.now why self.new) }
        ensures err { OnErr result (self.new ≡ self.old) }
    {
        let _slots = &self.slots;
        if self.enter(fact)? {
            return Ok(None);
        }
        Ok(Some(self.breach(fact)))
    }

    /// One fact more, where it fails no test; whether it fails none.
    fn enter(&mut self, fact: &Fact) -> Result<bool, AllocError>
        ensures ok { IfOk result (λ done. Passes self.old fact.now done self.new) }
        ensures err { OnErr result (self.new ≡ self.old) }
    {
        if !self.crosses(fact) {
            return Ok(false);
        }
        if !self.slots.enter(fact)? {
            return Ok(false);
        }
        note_life(&mut self.cells, &self.slots, fact);
        self.version = version_after(self.version, fact);
        self.story.tell(fact);
        Ok(true)
    }

    /// Whether other lists, and live entities, have nothing against a fact; it may be that its own list has, where
    /// it isn't so.
    fn crosses(&self, fact: &Fact) -> bool
        ensures passes { result ≡ true → crossed self.now.script self.now.trace fact.now ≡ true }
        ensures fails { result ≡ false → judged self.now.script self.now.trace fact.now ≡ false }
    {
        match fact {
            Fact::Start(who, entity) => self.may_start(who, entity),
            Fact::Active {
                who: _,
                entity,
                records,
                state,
            } => self.is_journals(entity, *records, state),
            Fact::Wrote(entity, entry) => self.may_write(entity, entry),
            Fact::Freed(slot, epoch, cause) => self.may_free(slot, *epoch, *cause),
            Fact::Confirmed(p, entity, number) => *number <= self.slots.position(*p, entity),
            Fact::Reshard(_, _) | Fact::Resharded(_, _, _) => false,
            _ => true,
        }
    }

    /// Whether the script brings the entity, and this incarnation holds the lease of its shard. Whoever is live holds
    /// it, so the entity isn't live at another then.
    fn may_start(&self, who: &Incarnation, entity: &EntityName) -> bool
        ensures { result ≡ crossed self.now.script self.now.trace (fact.Start who.now entity.now) }
    {
        match self.slots.place(entity) {
            Some(_) => self.is_holder(who, entity),
            None => false,
        }
    }

    /// Whether this incarnation holds the lease of the entity's shard.
    fn is_holder(&self, who: &Incarnation, entity: &EntityName) -> bool
        ensures { result ≡ is_at who.now (holder (shard_list_of self.now.script entity.now self.now.trace)) }
    {
        incarnation_law();
        let slot = self.slots.slot_of(entity);
        match self.slots.holder(&slot) {
            Some(other) => *who == other,
            None => false,
        }
    }

    /// Whether its journal has so many records, which lead to this state.
    fn is_journals(&self, entity: &EntityName, records: u32, state: &State) -> bool
        ensures { result ≡ is_journal_state self.now.script records state.now (journal entity.now (shard_list_of self.now.script entity.now self.now.trace)) }
    {
        let standing = self.slots.standing(entity);
        records == standing.records && *state == standing.state
    }

    /// Whether the entity is live, the record is of its producer's command of that place, and it is decided so in
    /// the version in force.
    fn may_write(&self, entity: &EntityName, entry: &Record) -> bool
        ensures passes { result ≡ true → crossed self.now.script self.now.trace (fact.Wrote entity.now entry.now) ≡ true }
        ensures fails { result ≡ false → judged self.now.script self.now.trace (fact.Wrote entity.now entry.now) ≡ false }
    {
        match self.slots.place(entity) {
            Some(place) => {
                self.cells[place].live.is_some()
                    && self.slots.is_planned(entity, entry)
                    && self.slots.is_answer(self.version, entity, entry)
            }
            None => false,
        }
    }

    /// Whether no entity of the slot is live.
    fn may_free(&self, slot: &Slot, epoch: u32, cause: Cause) -> bool
        ensures { result ≡ crossed self.now.script self.now.trace (fact.Freed slot.now epoch cause) }
    {
        let _freed = (epoch, cause);
        self.slots.charter().names();
        match slot {
            Slot::Shard(s) => are_idle(self.cells.as_slice(), *s),
            Slot::Coordinator | Slot::Queue(_) => true,
        }
    }
}

/// Where each entity is live after one fact more.
fn note_life(cells: &mut Vec<Cell>, slots: &Slots, fact: &Fact)
    requires { length cells.old.items ≡ length (names_in slots.now.script.orders) }
    ensures { cells.new.items ≡ noted slots.now.script cells.old.items fact.now }
{
    match fact {
        Fact::Start(who, entity) => note_start(cells, slots, who, entity),
        Fact::Stop(who, entity) | Fact::WriteFailed(who, entity) => {
            note_stop(cells, slots, who, entity)
        }
        Fact::Gone(who) => stop_all(cells.as_mut_slice(), who),
        _ => (),
    }
}

/// The entity is live at this incarnation, if the script brings it.
fn note_start(cells: &mut Vec<Cell>, slots: &Slots, who: &Incarnation, entity: &EntityName)
    requires { length cells.old.items ≡ length (names_in slots.now.script.orders) }
    ensures { cells.new.items ≡ cell_after slots.now.script (started who.now) entity.now cells.old.items }
{
    match slots.place(entity) {
        Some(place) => start(cells, place, who),
        None => (),
    }
}

/// The entity isn't live any more at this incarnation, if the script brings it.
fn note_stop(cells: &mut Vec<Cell>, slots: &Slots, who: &Incarnation, entity: &EntityName)
    requires { length cells.old.items ≡ length (names_in slots.now.script.orders) }
    ensures { cells.new.items ≡ cell_after slots.now.script (stopped who.now) entity.now cells.old.items }
{
    match slots.place(entity) {
        Some(place) => stop(cells, place, who),
        None => (),
    }
}

/// The version in force after a fact.
fn version_after(version: u8, fact: &Fact) -> u8
    ensures { result ≡ upgrade_step version fact.now }
{
    match fact {
        Fact::Upgrade(next) => *next,
        _ => version,
    }
}
