//! The commands that a charter's producers send.
ghost use Rattle.std.specs.Prelude.{◌≡◌, ◌+◌, ◌-◌, ◌*◌, slice_get, slice_index_or};
ghost use Rattle.wire_packet.specs.Cells.{command_in};

use crate::books::place_in;
use name_index::NameIndex;
use std::alloc::{AllocError, Global};
use std::marker::Model;
use yard_model::{Charter, Command, ProducerNo, Sending};

/// How many names have places.
const MOST: usize = 65_536;

/// The commands of a charter's sends, but for those that are skipped: those from one producer to one name
/// stand one behind the other, in the order of their numbers. Where all have one command, as all pings of a
/// daemon, it stands once, whatever number is asked. Nothing rests on that: a command that is looked up is
/// compared.
#[derive(Drop)]
pub(crate) struct Plans {
    commands: Vec<Command>,
    starts: Vec<u32>,
    skipped: u32,
    width: u8,
}

impl Model for Plans {
    ghost use Rattle.wire_packet.specs.Cells.{Plans};

    ghost Value = { Plans };

    ghost view = { λ p. record { commands = p.commands.items; starts = p.starts.items; skipped = p.skipped; width = p.width } };
}

impl Plans {
    /// Those of this charter, whose names these are. Of each producer so many sends as stand at its place are
    /// skipped. The only error is want of memory.
    pub(crate) fn new(
        alloc: Global,
        charter: &Charter,
        names: &NameIndex,
        done: &[u32],
    ) -> Result<Plans, AllocError> {
        let Some(command) = first_command(charter, done) else {
            return Ok(Plans::of_none(alloc));
        };
        if is_in_all(charter, done, &command) {
            Plans::of_one(alloc, command)
        } else {
            Plans::of_all(alloc, charter, names, done)
        }
    }

    /// No commands.
    fn of_none(alloc: Global) -> Plans {
        Plans {
            commands: Vec::new(alloc),
            starts: Vec::new(alloc),
            skipped: 0,
            width: 1,
        }
    }

    /// One command, for all producers, names and numbers. The only error is want of memory.
    fn of_one(alloc: Global, command: Command) -> Result<Plans, AllocError> {
        Ok(Plans {
            commands: vec![in alloc; command; 1]?,
            starts: Vec::new(alloc),
            skipped: u32::MAX,
            width: 1,
        })
    }

    /// Each send's own command, at its place. The only error is want of memory.
    fn of_all(
        alloc: Global,
        charter: &Charter,
        names: &NameIndex,
        done: &[u32],
    ) -> Result<Plans, AllocError> {
        let width = charter.config().producers;
        let mut starts = vec![in alloc; 0u32; names.len().min(MOST) * width as usize]?;
        let pairs = pairs_of(alloc, charter, names, done, &mut starts)?;
        let skipped = skipped_by(pairs.firsts.as_slice());
        let count = begin_each(&mut starts, pairs.firsts.as_slice(), skipped);
        let mut commands = vec![in alloc; Command::Read; count as usize]?;
        let plan = Starts {
            starts: starts.as_slice(),
            pairs: pairs.of_each.as_slice(),
            skipped,
        };
        put_all(&mut commands, charter, done, &plan);
        Ok(Plans {
            commands,
            starts,
            skipped,
            width,
        })
    }

    /// The command of this number, from 1, from a producer to the name at this place.
    pub(crate) fn command(&self, producer: ProducerNo, place: u16, number: u32) -> Option<Command>
        ensures { result ≡ command_in self.now producer place number }
    {
        if number == 0 {
            return None;
        }
        let pair = pair_of(place, self.width, producer);
        let start = number_in(self.starts.as_slice(), pair);
        copied(
            self.commands.as_slice(),
            stands_in(start, number, self.skipped),
        )
    }
}

/// Where a producer and the name at this place stand, where there are so many producers.
fn pair_of(place: u16, width: u8, producer: ProducerNo) -> usize
    ensures { result ≡ place * width + (producer - 1) }
{
    place as usize * width as usize + (producer.get() as usize - 1)
}

/// The number at this place; 0 where there is none.
fn number_in(numbers: &[u32], place: usize) -> u32
    ensures { result ≡ slice_index_or numbers.now place 0 }
{
    match numbers.get(place) {
        Some(number) => *number,
        None => 0,
    }
}

/// The command at this place.
fn copied(commands: &[Command], place: usize) -> Option<Command>
    ensures { result ≡ slice_get commands.now place }
{
    match commands.get(place) {
        Some(command) => Some(*command),
        None => None,
    }
}

/// Where the command of this number, from 1, stands, where those of its pair start there.
#[inline(always)]
fn stands_in(start: u32, number: u32, skipped: u32) -> usize
    ensures { result ≡ start + (number - 1) - skipped }
{
    (start as usize + (number as usize).saturating_sub(1)).saturating_sub(skipped as usize)
}

/// The sends of a producer behind those that are skipped.
fn behind<'a>(charter: &'a Charter, done: &[u32], producer: ProducerNo) -> &'a [Sending] {
    let sends = charter.sends(producer);
    let from = number_in(done, (producer.get() as usize).saturating_sub(1)) as usize;
    &sends[from.min(sends.len())..]
}

/// How many orders aren't sends that are skipped.
pub(crate) fn orders_behind(charter: &Charter, done: &[u32]) -> usize {
    let mut count = charter.orders().len();
    for p in 0..charter.config().producers {
        if let Some(producer) = ProducerNo::new(p + 1) {
            let behind = behind(charter, done, producer).len();
            let skipped = charter.sends(producer).len().saturating_sub(behind);
            count = count.saturating_sub(skipped);
        }
    }
    count
}

/// That of the first send of the first producer that has one.
fn first_command(charter: &Charter, done: &[u32]) -> Option<Command> {
    for p in 0..charter.config().producers {
        if let Some(producer) = ProducerNo::new(p + 1) {
            if let Some(sending) = behind(charter, done, producer).first() {
                return Some(sending.command);
            }
        }
    }
    None
}

/// Whether all sends have this command.
fn is_in_all(charter: &Charter, done: &[u32], command: &Command) -> bool {
    for p in 0..charter.config().producers {
        if let Some(producer) = ProducerNo::new(p + 1) {
            if !is_in_each(behind(charter, done, producer), command) {
                return false;
            }
        }
    }
    true
}

/// Whether these sends have this command.
fn is_in_each(sends: &[Sending], command: &Command) -> bool {
    for sending in sends {
        if sending.command != *command {
            return false;
        }
    }
    true
}

/// The first send from a producer to a name: where the two stand, and its number.
#[derive(Drop)]
struct First {
    pair: u32,
    number: u32,
}

/// Where producer and name of each send stand, one producer after the other, and the first of each two.
#[derive(Drop)]
struct Pairs {
    of_each: Vec<u32>,
    firsts: Vec<First>,
}

/// Those of all sends. How many each two have is counted at their place. The only error is want of memory.
fn pairs_of(
    alloc: Global,
    charter: &Charter,
    names: &NameIndex,
    done: &[u32],
    counts: &mut Vec<u32>,
) -> Result<Pairs, AllocError> {
    let width = charter.config().producers;
    let mut pairs = Pairs {
        of_each: Vec::with_capacity(alloc, orders_behind(charter, done))?,
        firsts: Vec::new(alloc),
    };
    for p in 0..width {
        if let Some(producer) = ProducerNo::new(p + 1) {
            let sends = behind(charter, done, producer);
            add_pairs(&mut pairs, counts, names, width, producer, sends)?;
        }
    }
    Ok(pairs)
}

/// Those of the sends of one producer.
fn add_pairs(
    pairs: &mut Pairs,
    counts: &mut Vec<u32>,
    names: &NameIndex,
    width: u8,
    producer: ProducerNo,
    sends: &[Sending],
) -> Result<(), AllocError> {
    for sending in sends {
        let place = place_in(names, &sending.entity).unwrap_or(0);
        let pair = pair_of(place, width, producer) as u32;
        pairs.of_each.push(pair)?;
        if is_first_of(counts, pair) {
            pairs.firsts.push(First {
                pair,
                number: sending.number,
            })?;
        }
    }
    Ok(())
}

/// Whether none was counted at this place; one more is.
fn is_first_of(counts: &mut Vec<u32>, pair: u32) -> bool {
    match counts.get_mut(pair as usize) {
        Some(count) => {
            *count = count.saturating_add(1);
            *count == 1
        }
        None => false,
    }
}

/// The greatest number that lies before one of these.
fn skipped_by(firsts: &[First]) -> u32 {
    let mut skipped = 0u32;
    for first in firsts {
        skipped = skipped.max(first.number.saturating_sub(1));
    }
    skipped
}

/// In the place of each count the sum of those before it, as if so many numbers of each two were skipped; the
/// sum of all.
fn begin_each(counts: &mut Vec<u32>, firsts: &[First], skipped: u32) -> u32 {
    let mut sum = 0u32;
    for first in firsts {
        if let Some(count) = counts.get_mut(first.pair as usize) {
            let next = sum.saturating_add(*count);
            let ahead = skipped.saturating_sub(first.number.saturating_sub(1));
            *count = sum.saturating_add(ahead);
            sum = next;
        }
    }
    sum
}

/// Where commands go.
#[derive(Drop)]
struct Starts<'a> {
    starts: &'a [u32],
    pairs: &'a [u32],
    skipped: u32,
}

/// The command of each send at its place.
fn put_all(commands: &mut Vec<Command>, charter: &Charter, done: &[u32], plan: &Starts) {
    let mut from = 0usize;
    for p in 0..charter.config().producers {
        if let Some(producer) = ProducerNo::new(p + 1) {
            let sends = behind(charter, done, producer);
            put_some(commands, sends, plan, from);
            from = from.saturating_add(sends.len());
        }
    }
}

/// The command of each of these sends, whose pairs stand from `from` on.
fn put_some(commands: &mut Vec<Command>, sends: &[Sending], plan: &Starts, from: usize) {
    for k in 0..sends.len() {
        let pair = number_in(plan.pairs, from.saturating_add(k));
        let start = number_in(plan.starts, pair as usize);
        let place = stands_in(start, sends[k].number, plan.skipped);
        if let Some(command) = commands.get_mut(place) {
            *command = sends[k].command;
        }
    }
}
