//! A script that is being read.
ghost use Rattle.std.specs.Prelude.{◌≡◌, ◌==◌, ℕ, ◌+◌, ◌≤◌, if◌then◌else◌, List, [], ◌∷◌, ◌++◌, length, min, false, IfOk, OnOk, IsTrue};
ghost use Rattle.yard_model.specs.Counts.{names};
ghost use Rattle.yard_model.specs.Limits.{most_orders};
ghost use Rattle.yard_model.specs.Script.{is_config, is_order, brought, names_in, pairs_in, with_brought, with_pair, Pair};
ghost use Rattle.script_text.specs.Drafts.{KeepsPairs};
ghost use Rattle.script_text.specs.Fit.{is_ping};
ghost use Rattle.script_text.specs.Reading.{with_line, is_over, is_sent, most_names, has_many_pings};

use crate::fault::Mode;
use std::alloc::{AllocError, Global};
use std::marker::{Model, PhantomData};
use yard_model::{Charter, Command, Config, Counts, Line, Order};

/// The most orders of a script.
const MOST_ORDERS: usize = 20_000;

/// What was read so far; seen as a script. It keeps at hand the names and the pairs of producer
/// and entity that the orders bring, and how many of them are pings.
#[derive(Drop)]
pub struct Draft {
    config: Config,
    orders: Vec<Line>,
    counts: Counts,
    pairs: u32,
    pings: u32,
    holds: PhantomData<(Order, Command)>,
}

impl Model for Draft {
    ghost use Rattle.yard_model.specs.Script.{Script};
    ghost use Rattle.script_text.specs.Drafts.{IsDraft};

    ghost Value = { Script };

    ghost view = { λ d. record { config = d.config; orders = d.orders.items } };

    ghost invariant = { λ d. IsDraft (record { config = d.config; orders = d.orders.items }) d.counts d.pairs d.pings };
}

impl Draft {
    /// No orders yet; there is room for all that a script may have. The only error is want of memory.
    pub fn new(alloc: Global, config: Config) -> Result<Draft, AllocError>
        requires { IsTrue (is_config config) }
        ensures { IfOk result (λ d. d ≡ record { config = config; orders = [] }) }
    {
        Ok(Draft {
            config,
            orders: Vec::with_capacity(alloc, MOST_ORDERS)?,
            counts: Counts::new(alloc),
            pairs: 0,
            pings: 0,
            holds: PhantomData,
        })
    }

    /// The settings.
    pub fn config(&self) -> &Config
        ensures value { result.now ≡ self.now.config }
        ensures valid { IsTrue (is_config self.now.config) }
    {
        &self.config
    }

    /// One order more, on this line; whether it is a send of a pair that was there already. The only
    /// error is want of memory; nothing of it is kept then.
    pub fn add(&mut self, alloc: Global, number: u32, order: &Order) -> Result<bool, AllocError>
        requires { IsTrue (is_order self.old.config order.now) }
        ensures line { IfOk result (λ _. self.new ≡ with_line self.old number order.now) }
        ensures sent { IfOk result (λ again. again ≡ is_sent (pairs_in self.old.orders) order.now) }
    {
        match put_order(
            &mut self.orders,
            &mut self.counts,
            self.pairs,
            number,
            order,
        ) {
            Ok((pairs, again)) => {
                self.pairs = pairs;
                self.pings = pings_after(self.pings, order);
                Ok(again)
            }
            Err(error) => {
                self.orders = Vec::new(alloc);
                self.counts = Counts::new(alloc);
                self.pairs = 0;
                self.pings = 0;
                Err(error)
            }
        }
    }

    /// Whether there are too many names or pairs for this command.
    pub fn is_over(&self, mode: Mode) -> bool
        ensures { result ≡ is_over mode self.now }
    {
        self.counts.len() > most_names(mode) || self.pairs > 4000
    }

    /// Whether there are more than 1,000 pings.
    pub fn has_many_pings(&self) -> bool
        ensures { result ≡ has_many_pings self.now }
    {
        self.pings > 1000
    }

    /// The charter of all that was read. The only error is want of memory.
    pub fn finish(self, alloc: Global) -> Result<Charter, AllocError>
        requires names { length (names_in self.orders) ≤ 1000 }
        requires pairs { length (pairs_in self.orders) ≤ 4000 }
        requires few { length self.orders ≤ most_orders }
        ensures { IfOk result (λ c. c ≡ self) }
    {
        let Draft {
            config,
            orders,
            counts: _,
            pairs: _,
            pings: _,
            holds: _,
        } = self;
        Charter::new(alloc, config, orders)
    }
}

/// The most names of a script: those of a daemon's instances come to them.
fn most_names(mode: Mode) -> usize
    ensures { result ≡ most_names mode }
{
    match mode {
        Mode::Daemon => 900,
        Mode::Solo | Mode::Replay | Mode::Live | Mode::Pull | Mode::Log => 1000,
    }
}

/// How many pings there are after this order.
fn pings_after(pings: u32, order: &Order) -> u32
    ensures { result ≡ (if is_ping order.now then min (pings + 1) 4294967295 else pings) }
{
    match order {
        Order::Ping(_) => pings.saturating_add(1),
        _ => pings,
    }
}

/// One order more, on this line; how many pairs there are then, and whether it is a send of one that
/// was there.
fn put_order(
    orders: &mut Vec<Line>,
    counts: &mut Counts,
    pairs: u32,
    number: u32,
    order: &Order,
) -> Result<(u32, bool), AllocError>
    ensures orders { OnOk result (orders.new.items ≡ orders.old.items ++ record { number = number; order = order.now } ∷ []) }
    ensures names { OnOk result (names counts.new ≡ with_brought (names counts.old) (brought order.now)) }
    ensures pairs { IfOk result (λ r. (known : List Pair) → KeepsPairs counts.old pairs known → KeepsPairs counts.new r.0 (with_pair known order.now)) }
    ensures sent { IfOk result (λ r. (known : List Pair) → KeepsPairs counts.old pairs known → r.1 ≡ is_sent known order.now) }
{
    let (pairs, again) = add_order(counts, pairs, order)?;
    orders.push(Line {
        number,
        order: *order,
    })?;
    Ok((pairs, again))
}

/// The names and the sends with those of one order more; how many pairs there are then, and whether it
/// is a send of one that was there.
fn add_order(counts: &mut Counts, pairs: u32, order: &Order) -> Result<(u32, bool), AllocError>
    ensures names { OnOk result (names counts.new ≡ with_brought (names counts.old) (brought order.now)) }
    ensures pairs { IfOk result (λ r. (known : List Pair) → KeepsPairs counts.old pairs known → KeepsPairs counts.new r.0 (with_pair known order.now)) }
    ensures sent { IfOk result (λ r. (known : List Pair) → KeepsPairs counts.old pairs known → r.1 ≡ is_sent known order.now) }
{
    match order {
        Order::Send(producer, entity, _) => {
            let count = counts.add(*producer, entity)?;
            Ok((pairs_after(pairs, count), count != 1))
        }
        Order::Passivate(entity) => {
            counts.add_name(entity)?;
            Ok((pairs, false))
        }
        Order::FailWrite(entity, _) => {
            counts.add_name(entity)?;
            Ok((pairs, false))
        }
        _ => Ok((pairs, false)),
    }
}

/// How many pairs there are after a send that is this one of its pair.
fn pairs_after(pairs: u32, count: u32) -> u32
    ensures { result ≡ (if count == 1 then min (pairs + 1) 4294967295 else pairs) }
{
    if count == 1 {
        pairs.saturating_add(1)
    } else {
        pairs
    }
}
