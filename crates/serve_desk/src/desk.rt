//! What was accepted so far.
ghost use Rattle.std.specs.Prelude.{◌≡◌, ◌==◌, nat_le, ◌+◌, ◌-◌, ◌≤◌, ◌<◌, ℕ, true, false, if◌then◌else◌, [], List};
ghost use Rattle.std.specs.Prelude.{length, slice_index_or, IfOk, OnOk, OnErr, IsTrue};
ghost use Rattle.yard_model.specs.declared.charter.Order.TheVariants as order;
ghost use Rattle.yard_model.specs.Equal.{is_command};
ghost use Rattle.yard_model.specs.declared.event.Command.{Command};
ghost use Rattle.yard_model.specs.Script.{is_config, is_order, pairs_in, plan};
ghost use Rattle.script_text.specs.declared.fault.Mode.TheVariants as mode;
ghost use Rattle.script_text.specs.Reading.{is_over, with_line};
ghost use Rattle.serve_laws.specs.Hearing.{Request, Done, Conflict, accepted, requested};
ghost use Rattle.serve_laws.specs.Hearings.{IsHeard, request_for};
ghost use Rattle.serve_desk.specs.Desks.{answer_to, may_enter, told};

use crate::kinds::is_of_kind;
use crate::plans::Plans;
use crate::table::{commands_in, names_with, put};
use script_text::Why;
use std::alloc::{AllocError, Global};
use std::collections::BTreeMap;
use std::marker::{Model, PhantomData};
use yard_model::{Charter, Command, Config, EntityName, Line, Order, ProducerNo};

/// The most commands.
const MOST: usize = 20_000;

/// What a request is answered.
#[derive(Clone, Copy, Debug, PartialEq, Eq)]
pub enum Heard {
    /// The command has its number: it had it, or is accepted now.
    Done,
    /// There is no room for it.
    Refused(Why),
    /// Its number is past the next one of its pair, which is this.
    Gap(u32),
    /// Its number has this command.
    Conflict(Command),
}

/// The settings and the commands that were accepted, at most 20,000; seen as a script of sends.
#[derive(Drop)]
pub struct Desk {
    config: Config,
    orders: Vec<Line>,
    // those of each pair
    plans: BTreeMap<EntityName, Plans>,
    // how many pairs there are
    pairs: usize,
    holds: PhantomData<(Order, Command)>,
}

impl Model for Desk {
    ghost use Rattle.yard_model.specs.Script.{Script};
    ghost use Rattle.serve_desk.specs.Desks.{IsDesk};

    ghost Value = { Script };

    ghost view = { λ d. record { config = d.config; orders = d.orders.items } };

    ghost invariant = { λ d. IsDesk (record { config = d.config; orders = d.orders.items }) d.plans.entries d.pairs };
}

impl Desk {
    /// These settings, and no commands; there is room for all lines that there may be. The only error is want of
    /// memory.
    pub fn new(alloc: Global, config: Config) -> Result<Desk, AllocError>
        requires { IsTrue (is_config config) }
        ensures { IfOk result (λ d. d ≡ record { config = config; orders = [] }) }
    {
        Ok(Desk {
            config,
            orders: Vec::with_capacity(alloc, MOST)?,
            plans: BTreeMap::new(alloc),
            pairs: 0,
            holds: PhantomData,
        })
    }

    /// The settings.
    pub fn config(&self) -> &Config
        ensures value { result.now ≡ self.now.config }
        ensures heard { IsHeard self.now }
    {
        &self.config
    }

    /// The commands of a producer to an entity, in order.
    pub fn commands(&self, producer: ProducerNo, entity: &EntityName) -> &[Command]
        ensures value { result.now ≡ plan self.now producer entity.now }
        ensures few { length result.now ≤ 20000 }
    {
        commands_in(&self.plans, producer, entity)
    }

    /// A command with its number in its pair, from 1: the next one is accepted where there is room for it. The only
    /// error is want of memory, and then nothing changed.
    pub fn hear(
        &mut self,
        producer: ProducerNo,
        entity: &EntityName,
        number: u32,
        command: &Command,
    ) -> Result<Heard, AllocError>
        requires number { 1 ≤ number }
        requires fits { IsTrue (is_order self.old.config (order.Send producer entity.now command.now)) }
        ensures heard { IfOk result (λ h. told self.new (request_for producer entity.now number command.now) h
            ≡ requested self.old (request_for producer entity.now number command.now)) }
        ensures kept { OnErr result (self.new ≡ self.old) }
    {
        let before = self.commands(producer, entity);
        let count = before.len();
        if number as usize <= count {
            return Ok(heard_again(before, number as usize - 1, command));
        }
        if number as usize != count + 1 {
            return Ok(Heard::Gap(count as u32 + 1));
        }
        self.accept(producer, entity, command)
    }

    /// One send more of a log, which stands on this line; false, and nothing changed, where it isn't of these
    /// settings, or there is no room for it. The only error is want of memory, and then nothing changed.
    pub fn enter(
        &mut self,
        line: u32,
        producer: ProducerNo,
        entity: &EntityName,
        command: &Command,
    ) -> Result<bool, AllocError>
        ensures entered { IfOk result (λ b. b ≡ true → self.new ≡ with_line self.old line (order.Send producer entity.now command.now)) }
        ensures unchanged { IfOk result (λ b. b ≡ false → self.new ≡ self.old) }
        ensures refused { IfOk result (λ b. b ≡ false → IsHeard (with_line self.old line (order.Send producer entity.now command.now)) → ⊥) }
        ensures kept { OnErr result (self.new ≡ self.old) }
    {
        if !self.may_enter(producer, entity, command) {
            return Ok(false);
        }
        self.add(line, producer, entity, command)?;
        Ok(true)
    }

    /// The charter of what was accepted. The only error is want of memory.
    pub fn charter(&self, alloc: Global) -> Result<Charter, AllocError>
        ensures { IfOk result (λ c. c ≡ self.now) }
    {
        let mut orders = Vec::with_capacity(alloc, self.orders.len())?;
        orders.extend_from_slice(self.orders.as_slice())?;
        Charter::new(alloc, self.config, orders)
    }

    /// The next command of a pair. The only error is want of memory, and then nothing changed.
    fn accept(
        &mut self,
        producer: ProducerNo,
        entity: &EntityName,
        command: &Command,
    ) -> Result<Heard, AllocError>
        requires fits { IsTrue (is_order self.old.config (order.Send producer entity.now command.now)) }
        ensures heard { IfOk result (λ h. (n : ℕ) → told self.new (request_for producer entity.now n command.now) h
            ≡ accepted self.old (request_for producer entity.now n command.now)) }
        ensures kept { OnErr result (self.new ≡ self.old) }
    {
        if self.is_over_with(producer, entity) {
            return Ok(Heard::Refused(Why::OutOfRange));
        }
        if self.is_full() {
            return Ok(Heard::Refused(Why::TooManyLines));
        }
        let line = self.next_line();
        self.add(line, producer, entity, command)?;
        Ok(Heard::Done)
    }

    /// One command more. The only error is want of memory, and then nothing changed.
    fn add(
        &mut self,
        line: u32,
        producer: ProducerNo,
        entity: &EntityName,
        command: &Command,
    ) -> Result<(), AllocError>
        requires { IsHeard (with_line self.old line (order.Send producer entity.now command.now)) }
        ensures added { OnOk result (self.new ≡ with_line self.old line (order.Send producer entity.now command.now)) }
        ensures kept { OnErr result (self.new ≡ self.old) }
    {
        let pairs = self.pairs_with(producer, entity);
        let alloc = *self.orders.allocator();
        self.orders.push(Line {
            number: line,
            order: Order::Send(producer, *entity, *command),
        })?;
        if let Err(error) = put(&mut self.plans, alloc, producer, entity, command) {
            self.orders.pop();
            return Err(error);
        }
        self.pairs = pairs;
        Ok(())
    }

    /// Whether a command may be one of the desk's.
    fn may_enter(&self, producer: ProducerNo, entity: &EntityName, command: &Command) -> bool
        ensures value { (n : ℕ) → result ≡ may_enter self.now n (order.Send producer entity.now command.now) }
        ensures heard { IsHeard self.now }
    {
        if !self.is_order(producer, command) {
            return false;
        }
        if self.is_over_with(producer, entity) {
            return false;
        }
        !self.is_full()
    }

    /// Whether a command of this producer may be an order of these settings.
    pub(crate) fn is_order(&self, producer: ProducerNo, command: &Command) -> bool
        ensures value { (e : List ℕ) → result ≡ is_order self.now.config (order.Send producer e command.now) }
        ensures heard { IsHeard self.now }
    {
        let fits = is_of_kind(self.config.kind, command);
        producer.get() <= self.config.producers && fits
    }

    /// Whether there are as many commands as there may be.
    fn is_full(&self) -> bool
        ensures value { result ≡ nat_le 20000 (length self.now.orders) }
        ensures heard { IsHeard self.now }
    {
        self.orders.len() >= MOST
    }

    /// The line of the next command.
    fn next_line(&self) -> u32
        ensures { result ≡ length self.now.orders + 1 }
    {
        self.orders.len() as u32 + 1
    }

    /// Whether there are too many names or pairs with a command of this pair.
    fn is_over_with(&self, producer: ProducerNo, entity: &EntityName) -> bool
        ensures { (n : ℕ) (k : Command) → result ≡ is_over mode.Log (with_line self.now n (order.Send producer entity.now k)) }
    {
        let names = names_with(&self.plans, entity);
        let pairs = self.pairs_with(producer, entity);
        names > 1000 || pairs > 4000
    }

    /// How many pairs there are with this one.
    fn pairs_with(&self, producer: ProducerNo, entity: &EntityName) -> usize
        ensures { (n : ℕ) (k : Command) → result ≡ length (pairs_in (with_line self.now n (order.Send producer entity.now k)).orders) }
    {
        let before = self.commands(producer, entity);
        pairs_after(self.pairs, before)
    }
}

/// A command again, where these were accepted of its pair; its place is this one.
fn heard_again(before: &[Command], place: usize, command: &Command) -> Heard
    requires { place < length before.now }
    ensures { (p : ℕ) (e : List ℕ) (n : ℕ) → n - 1 ≡ place → answer_to (request_for p e n command.now) result
        ≡ (if is_command (slice_index_or before.now place command.now) command.now then Done p e n
        else Conflict p e n (slice_index_or before.now place command.now)) }
{
    let known = before[place];
    if known == *command {
        Heard::Done
    } else {
        Heard::Conflict(known)
    }
}

/// How many pairs there are, of so many, with one more command of a pair that had these.
fn pairs_after(count: usize, before: &[Command]) -> usize
    requires { count ≤ 20000 }
    ensures { result ≡ (if length before.now == 0 then count + 1 else count) }
{
    if before.len() == 0 { count + 1 } else { count }
}
