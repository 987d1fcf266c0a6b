//! Why a fact is a breach: read off what is kept, once a fact has failed.
ghost use Rattle.std.specs.Prelude.{◌≡◌, ◌+◌, ◌==◌, false, Some, if◌then◌else◌};
ghost use Rattle.yard_model.specs.declared.fact.Fact.TheVariants as fact;
ghost use Rattle.yard_model.specs.declared.incarnation.Slot.TheVariants as slot;
ghost use Rattle.yard_model.specs.Genuine.{is_brought, is_producer};
ghost use Rattle.yard_model.specs.Lawful.{is_held};
ghost use Rattle.yard_model.specs.Safe.{shard_list_of};
ghost use Rattle.yard_model.specs.Script.{setting};
ghost use Rattle.yard_model.specs.Trace.{lists_of};
ghost use Rattle.judge_laws.specs.declared.breach.Breach.TheVariants as breach;
ghost use Rattle.judge_laws.specs.Breached.{breach_of, of_node, of_shard, slot_list};
ghost use Rattle.judge_laws.specs.Judged.{judged};

use crate::cells::is_elsewhere;
use crate::judge::Judge;
use judge_laws::Breach;
use yard_model::{Cause, EntityName, Fact, Incarnation, ProducerNo, Record, ShardNo, Slot};

impl Judge {
    /// The first test that a fact fails, which fails one.
    pub(crate) fn breach(&self, fact: &Fact) -> Breach
        requires { judged self.now.script self.now.trace fact.now ≡ false }
        ensures { breach_of self.now.script self.now.trace fact.now ≡ Some result }
    {
        let _slots = &self.slots;
        match fact {
            Fact::Start(who, entity) => self.start_breach(who, entity),
            Fact::Active { .. } => Breach::OtherState,
            Fact::Granted(slot, epoch, who) => self.granted_breach(slot, *epoch, who),
            Fact::Freed(slot, epoch, cause) => self.freed_breach(slot, *epoch, *cause),
            Fact::Registered(who) => {
                self.coordinator_breach(self.of_node(who, Breach::NotToRegister))
            }
            Fact::Terminated(_) => self.coordinator_breach(Breach::NotRegistered),
            Fact::Allocated(shard, _) => {
                self.coordinator_breach(self.of_shard(*shard, Breach::NotToAllocate))
            }
            Fact::Deallocated(shard) => {
                self.coordinator_breach(self.of_shard(*shard, Breach::NoHome))
            }
            Fact::Wrote(entity, entry) => self.wrote_breach(entity, entry),
            Fact::Snapshot(entity, _) => self.entity_breach(entity, Breach::NotASnapshot),
            Fact::Remembered(entity) => self.entity_breach(entity, Breach::IsRemembered),
            Fact::Forgotten(entity) => self.entity_breach(entity, Breach::IsNotRemembered),
            Fact::Queued(p, _, _, _) => self.queued_breach(*p),
            Fact::Confirmed(p, entity, number) => self.confirmed_breach(*p, entity, *number),
            _ => Breach::NotJudged,
        }
    }

    fn start_breach(&self, who: &Incarnation, entity: &EntityName) -> Breach
        requires { judged self.now.script self.now.trace (fact.Start who.now entity.now) ≡ false }
        ensures { breach_of self.now.script self.now.trace (fact.Start who.now entity.now) ≡ Some result }
    {
        let Some(place) = self.slots.place(entity) else {
            return Breach::NoName;
        };
        if is_elsewhere(who, &self.cells[place]) {
            return Breach::TwoLive;
        }
        Breach::NoLease
    }

    fn granted_breach(&self, slot: &Slot, epoch: u32, who: &Incarnation) -> Breach
        requires { judged self.now.script self.now.trace (fact.Granted slot.now epoch who.now) ≡ false }
        ensures { breach_of self.now.script self.now.trace (fact.Granted slot.now epoch who.now) ≡ Some result }
    {
        let _who = *who;
        if !self.slots.has(slot) {
            return Breach::NoSlot;
        }
        if self.slots.holder(slot).is_some() {
            return Breach::GrantedHeld;
        }
        if !is_next(epoch, self.slots.epoch(slot)) {
            return Breach::NotNextEpoch;
        }
        Breach::NoNode
    }

    fn freed_breach(&self, slot: &Slot, epoch: u32, cause: Cause) -> Breach
        requires { judged self.now.script self.now.trace (fact.Freed slot.now epoch cause) ≡ false }
        ensures { breach_of self.now.script self.now.trace (fact.Freed slot.now epoch cause) ≡ Some result }
    {
        let _cause = cause;
        if !self.slots.has(slot) {
            return Breach::NoSlot;
        }
        if self.slots.holder(slot).is_none() {
            return Breach::Unheld;
        }
        if epoch != self.slots.epoch(slot) {
            return Breach::NotItsGrant;
        }
        Breach::FreedLive
    }

    /// Of an entry of the coordinator's list, which is this breach where the lease is held.
    fn coordinator_breach(&self, other: Breach) -> Breach
        ensures { result ≡ (if is_held (lists_of (setting self.now.script) self.now.trace).coordinator then other else breach.Unheld) }
    {
        match self.slots.holder(&Slot::Coordinator) {
            Some(_) => other,
            None => Breach::Unheld,
        }
    }

    /// This breach, where the script has the shard.
    fn of_shard(&self, shard: ShardNo, other: Breach) -> Breach
        ensures { result ≡ of_shard self.now.script shard other }
    {
        if self.slots.has(&Slot::Shard(shard)) {
            other
        } else {
            Breach::NoShard
        }
    }

    /// This breach, where the script has the node.
    fn of_node(&self, who: &Incarnation, other: Breach) -> Breach
        ensures { result ≡ of_node self.now.script who.now other }
    {
        let nodes = self.slots.charter().config().nodes;
        if who.node.get() >= 1 && who.node.get() <= nodes {
            other
        } else {
            Breach::NoNode
        }
    }

    /// Of an entry of an entity, which is this breach where the script brings the name and the lease of its shard
    /// is held.
    fn entity_breach(&self, entity: &EntityName, other: Breach) -> Breach
        ensures { result ≡ (if is_brought self.now.script entity.now then (if is_held (shard_list_of self.now.script entity.now self.now.trace) then other else breach.Unheld) else breach.NoName) }
    {
        if !self.slots.brings(entity) {
            return Breach::NoName;
        }
        let slot = self.slots.slot_of(entity);
        match self.slots.holder(&slot) {
            Some(_) => other,
            None => Breach::Unheld,
        }
    }

    /// Of a queued command.
    fn queued_breach(&self, p: ProducerNo) -> Breach
        ensures { result ≡ (if is_producer self.now.script p then (if is_held (slot_list self.now.script self.now.trace (slot.Queue p)) then breach.OutOfOrder else breach.Unheld) else breach.NoProducer) }
    {
        if !self.slots.has(&Slot::Queue(p)) {
            return Breach::NoProducer;
        }
        match self.slots.holder(&Slot::Queue(p)) {
            Some(_) => Breach::OutOfOrder,
            None => Breach::Unheld,
        }
    }

    fn wrote_breach(&self, entity: &EntityName, entry: &Record) -> Breach
        requires { judged self.now.script self.now.trace (fact.Wrote entity.now entry.now) ≡ false }
        ensures { breach_of self.now.script self.now.trace (fact.Wrote entity.now entry.now) ≡ Some result }
    {
        let Some(place) = self.slots.place(entity) else {
            return Breach::NoName;
        };
        let slot = self.slots.slot_of(entity);
        if self.slots.holder(&slot).is_none() {
            return Breach::Unheld;
        }
        if self.cells[place].live.is_none() {
            return Breach::NotLive;
        }
        if entry.epoch != self.slots.epoch(&slot) {
            return Breach::OtherEpoch;
        }
        let journal = self.slots.journal(entity);
        if !is_next(entry.number, journal.len()) {
            return Breach::NotNextRecord;
        }
        if !is_next(entry.place, journal.position(entry.producer))
            || !self.slots.is_planned(entity, entry)
        {
            return Breach::NotNextCommand;
        }
        Breach::NotDecided
    }

    fn confirmed_breach(&self, p: ProducerNo, entity: &EntityName, number: u32) -> Breach
        requires { judged self.now.script self.now.trace (fact.Confirmed p entity.now number) ≡ false }
        ensures { breach_of self.now.script self.now.trace (fact.Confirmed p entity.now number) ≡ Some result }
    {
        if !self.slots.has(&Slot::Queue(p)) {
            return Breach::NoProducer;
        }
        if self.slots.holder(&Slot::Queue(p)).is_none() {
            return Breach::Unheld;
        }
        let queue = self.slots.queue(p);
        if number <= queue.confirmed(entity) || number > queue.queued(entity) {
            return Breach::NotRising;
        }
        Breach::NotRecorded
    }
}

/// Whether a number is the next one.
fn is_next(number: u32, before: u32) -> bool
    ensures { result ≡ (number == before + 1) }
{
    number > before && number - before == 1
}
