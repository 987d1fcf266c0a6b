//! The words of orders.
ghost use Rattle.std.specs.Prelude.{◌≡◌, false, IfOk, IsTrue};
ghost use Rattle.yard_model.specs.declared.charter.Config.{Config};
ghost use Rattle.yard_model.specs.Script.{is_config, is_order};
ghost use Rattle.yard_model.specs.Behaviour.{is_in};
ghost use Rattle.script_text.specs.Words.{words};
ghost use Rattle.script_text.specs.Orders.{number, only_number, joined, send, produce, kept_or_lost, fail_write, verb_of, said, order_of, under, is_foreign};

use crate::commands::command;
use crate::fault::{Mode, Why};
use crate::words::{both, first, is, name, no_more, number_of, only, only_number};
use yard_model::{Command, Config, EntityName, Keep, NodeNo, Order, ProducerNo};

/// The first word of an order.
#[derive(Clone, Copy)]
pub enum Verb {
    /// `up N`
    Up,
    /// `crash N`
    Crash,
    /// `leave N`
    Leave,
    /// `tick N`
    Tick,
    /// `produce P N`
    Produce,
    /// `rest P`
    Rest,
    /// `send P E COMMAND`
    Send,
    /// `passivate E`
    Passivate,
    /// `failwrite E kept` or `failwrite E lost`
    FailWrite,
    /// `deliver K`
    Deliver,
    /// `pump K`
    Pump,
    /// `rebalance L`
    Rebalance,
    /// `settle`
    Settle,
    /// `reshard S`
    Reshard,
    /// `upgrade`
    Upgrade,
    /// `ping P`
    Ping,
}

/// The order that these words say under this command.
#[tactic(auto, unfolding(crate::specs::Orders::order_of))]
pub fn order(mode: Mode, config: &Config, line: &[u8]) -> Result<Order, Why>
    requires { IsTrue (is_config config.now) }
    ensures value { result ≡ order_of mode config.now (words line.now) }
    ensures valid { IfOk result (λ o. IsTrue (is_order config.now o)) }
    ensures known { IfOk result (λ o. is_foreign mode o ≡ false) }
{
    let (word, rest) = first(line)?;
    let verb = verb_of(word)?;
    said(mode, config, verb, rest)
}

/// What an order's first word says.
#[tactic(auto, unfolding(crate::specs::Orders::verb_of))]
fn verb_of(word: &[u8]) -> Result<Verb, Why>
    ensures { result ≡ verb_of word.now }
{
    if is(word, "send") {
        Ok(Verb::Send)
    } else if is(word, "deliver") {
        Ok(Verb::Deliver)
    } else if is(word, "pump") {
        Ok(Verb::Pump)
    } else if is(word, "tick") {
        Ok(Verb::Tick)
    } else if is(word, "up") {
        Ok(Verb::Up)
    } else if is(word, "crash") {
        Ok(Verb::Crash)
    } else if is(word, "leave") {
        Ok(Verb::Leave)
    } else if is(word, "produce") {
        Ok(Verb::Produce)
    } else if is(word, "rest") {
        Ok(Verb::Rest)
    } else if is(word, "passivate") {
        Ok(Verb::Passivate)
    } else if is(word, "failwrite") {
        Ok(Verb::FailWrite)
    } else if is(word, "rebalance") {
        Ok(Verb::Rebalance)
    } else if is(word, "settle") {
        Ok(Verb::Settle)
    } else if is(word, "reshard") {
        Ok(Verb::Reshard)
    } else if is(word, "upgrade") {
        Ok(Verb::Upgrade)
    } else if is(word, "ping") {
        Ok(Verb::Ping)
    } else {
        Err(Why::UnknownWord)
    }
}

/// The settings that a producer is read by: `pull` knows the first one alone.
fn under(mode: Mode, config: &Config) -> Config
    requires { IsTrue (is_config config.now) }
    ensures value { result ≡ under mode config.now }
    ensures valid { IsTrue (is_config result) }
{
    match mode {
        Mode::Pull => Config {
            producers: 1,
            ..*config
        },
        Mode::Solo | Mode::Replay | Mode::Live | Mode::Daemon | Mode::Log => *config,
    }
}

/// The order of this first word and the words after it.
#[tactic(auto, unfolding(crate::specs::Orders::said))]
fn said(mode: Mode, config: &Config, verb: Verb, line: &[u8]) -> Result<Order, Why>
    requires { IsTrue (is_config config.now) }
    ensures value { result ≡ said mode config.now verb (words line.now) }
    ensures valid { IfOk result (λ o. IsTrue (is_order config.now o)) }
    ensures known { IfOk result (λ o. is_foreign mode o ≡ false) }
{
    match verb {
        Verb::Up => Ok(Order::Up(only_node(config, line)?)),
        Verb::Crash => Ok(Order::Crash(only_node(config, line)?)),
        Verb::Leave => Ok(Order::Leave(only_node(config, line)?)),
        Verb::Tick => Ok(Order::Tick(only_node(config, line)?)),
        Verb::Produce => produce(&under(mode, config), line),
        Verb::Rest => Ok(Order::Rest(only_producer(&under(mode, config), line)?)),
        Verb::Send => send(&under(mode, config), line),
        Verb::Passivate => Ok(Order::Passivate(name(only(line)?)?)),
        Verb::FailWrite => fail_write(line),
        Verb::Deliver => Ok(Order::Deliver(only_number(line, 1, 1_000_000)?)),
        Verb::Pump => Ok(Order::Pump(only_number(line, 1, 10_000)? as u16)),
        Verb::Rebalance => Ok(Order::Rebalance(only_number(line, 1, 128)? as u8)),
        Verb::Settle => {
            no_more(line)?;
            Ok(Order::Settle)
        }
        Verb::Reshard => Ok(Order::Reshard(only_number(line, 1, 128)? as u8)),
        Verb::Upgrade => {
            no_more(line)?;
            Ok(Order::Upgrade)
        }
        Verb::Ping => Ok(Order::Ping(only_producer(config, line)?)),
    }
}

/// `send P E COMMAND`, from P on.
#[tactic(auto, unfolding(crate::specs::Orders::send))]
fn send(config: &Config, line: &[u8]) -> Result<Order, Why>
    requires { IsTrue (is_config config.now) }
    ensures value { result ≡ send config.now (words line.now) }
    ensures valid { IfOk result (λ o. IsTrue (is_order config.now o)) }
{
    let (sender, line) = first(line)?;
    let (entity, line) = first(line)?;
    let (verb, line) = first(line)?;
    let sender = producer(config, sender);
    let command = command(config.kind, verb, line);
    if let (Ok(sender), Ok(command)) = (&sender, &command) {
        return Ok(Order::Send(*sender, name(entity)?, *command));
    }
    joined(sender, name(entity), command)
}

/// A send of these parts, or the first of their reasons.
#[cold]
fn joined(
    sender: Result<ProducerNo, Why>,
    entity: Result<EntityName, Why>,
    command: Result<Command, Why>,
) -> Result<Order, Why>
    ensures { result ≡ joined sender entity command }
{
    let ((sender, entity), command) = both(both(sender, entity), command)?;
    Ok(Order::Send(sender, entity, command))
}

/// `produce P N`, from P on.
#[tactic(auto, unfolding(crate::specs::Orders::produce))]
fn produce(config: &Config, line: &[u8]) -> Result<Order, Why>
    requires { IsTrue (is_config config.now) }
    ensures value { result ≡ produce config.now (words line.now) }
    ensures valid { IfOk result (λ o. IsTrue (is_order config.now o)) }
{
    let (sender, line) = first(line)?;
    let (holder, line) = first(line)?;
    no_more(line)?;
    let (sender, holder) = both(producer(config, sender), node(config, holder))?;
    Ok(Order::Produce(sender, holder))
}

/// `failwrite E KEEP`, from E on.
#[tactic(auto, unfolding(crate::specs::Orders::fail_write))]
fn fail_write(line: &[u8]) -> Result<Order, Why>
    ensures value { result ≡ fail_write (words line.now) }
    ensures valid { IfOk result (λ o. (c : Config) → IsTrue (is_order c o)) }
{
    let (entity, line) = first(line)?;
    let (keep, line) = first(line)?;
    let keep = kept_or_lost(keep)?;
    no_more(line)?;
    Ok(Order::FailWrite(name(entity)?, keep))
}

#[tactic(auto, unfolding(crate::specs::Orders::kept_or_lost))]
fn kept_or_lost(word: &[u8]) -> Result<Keep, Why>
    ensures { result ≡ kept_or_lost word.now }
{
    if is(word, "kept") {
        Ok(Keep::Kept)
    } else if is(word, "lost") {
        Ok(Keep::Lost)
    } else {
        Err(Why::UnknownWord)
    }
}

/// The one word that is left, a node of the script.
#[tactic(auto, unfolding(crate::specs::Orders::only_number))]
fn only_node(config: &Config, line: &[u8]) -> Result<NodeNo, Why>
    requires { IsTrue (is_config config.now) }
    ensures value { result ≡ only_number 1 config.now.nodes (words line.now) }
    ensures valid { IfOk result (λ n. IsTrue (is_in 1 config.now.nodes n)) }
{
    node(config, only(line)?)
}

/// A node of the script.
fn node(config: &Config, word: &[u8]) -> Result<NodeNo, Why>
    requires { IsTrue (is_config config.now) }
    ensures value { result ≡ number 1 config.now.nodes word.now }
    ensures valid { IfOk result (λ n. IsTrue (is_in 1 config.now.nodes n)) }
{
    let number = number_of(word, 1, config.nodes as u32)?;
    match NodeNo::new(number as u8) {
        Some(node) => Ok(node),
        None => Err(Why::OutOfRange),
    }
}

/// The one word that is left, a producer of the script.
#[tactic(auto, unfolding(crate::specs::Orders::only_number))]
fn only_producer(config: &Config, line: &[u8]) -> Result<ProducerNo, Why>
    requires { IsTrue (is_config config.now) }
    ensures value { result ≡ only_number 1 config.now.producers (words line.now) }
    ensures valid { IfOk result (λ p. IsTrue (is_in 1 config.now.producers p)) }
{
    producer(config, only(line)?)
}

/// A producer, by a number from 1 to how many these settings have. The first reason where the word is none.
pub fn producer(config: &Config, word: &[u8]) -> Result<ProducerNo, Why>
    requires { IsTrue (is_config config.now) }
    ensures value { result ≡ number 1 config.now.producers word.now }
    ensures valid { IfOk result (λ p. IsTrue (is_in 1 config.now.producers p)) }
{
    let number = number_of(word, 1, config.producers as u32)?;
    match ProducerNo::new(number as u8) {
        Some(producer) => Ok(producer),
        None => Err(Why::OutOfRange),
    }
}
