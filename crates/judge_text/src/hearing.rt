//! What was heard of a trace's text.
ghost use Rattle.std.specs.Prelude.{◌≡◌, [], IfOk};
ghost use Rattle.judge_text.specs.Hears.{HearsAll, HearsLine, answer_to};

use crate::lines::{MOST, first_line, take_line};
use crate::words::is_end;
use judge_counts::{counted_by, next, no_counts, stops_at};
use std::alloc::{AllocError, Global};
use std::marker::{Model, PhantomData};
use trace_judge::Judge;
use verdict_laws::{Answer, Counts, Quote};
use yard_model::{
    Body, Cause, Charter, Command, Event, Fact, Keep, Message, Packet, Record, Reply, Slot, State,
};

/// What a fact is made of.
type Parts = (
    Body,
    Cause,
    Command,
    Event,
    Fact,
    Keep,
    Message,
    Packet,
    Record,
    Reply,
    Slot,
    State,
);

/// The judge of a trace's lines; seen as its script, the facts so far and how many lines there were.
#[derive(Drop)]
pub struct Hearing {
    judge: Judge,
    counts: Counts,
    lines: u64,
    room: Vec<u8>,
    holds: PhantomData<Parts>,
}

impl Model for Hearing {
    ghost use Rattle.std.specs.Prelude.{◌≡◌};
    ghost use Rattle.verdict_laws.specs.Verdict.{counts_of};
    ghost use Rattle.judge_text.specs.Hears.{Told};

    ghost Value = { Told };

    ghost view = { λ h. record { script = h.judge.script; trace = h.judge.trace; lines = h.lines } };

    ghost invariant = { λ h. h.counts ≡ counts_of h.judge.trace };
}

/// What became of some bytes.
#[derive(Drop)]
pub enum Heard {
    /// They are answered, whatever comes.
    Answered(Answer),
    /// These are left, which have no LF.
    Left(Vec<u8>),
}

impl Hearing {
    /// Before the first line. The only error is want of memory.
    pub fn new(alloc: Global, charter: &Charter) -> Result<Hearing, AllocError>
        ensures { IfOk result (λ h. h ≡ record { script = charter.now; trace = []; lines = 0 }) }
    {
        Ok(Hearing {
            judge: Judge::new(alloc, charter)?,
            counts: no_counts(),
            lines: 0,
            room: Vec::new(alloc),
            holds: PhantomData,
        })
    }

    /// What is answered where no line comes any more.
    pub fn end(&self) -> Answer
        ensures { result ≡ answer_to self.now [] }
    {
        Answer::Safe(self.counts)
    }

    /// Takes a line; the answer, where it is known now. The only error is want of memory.
    pub fn take(&mut self, alloc: Global, line: &[u8]) -> Result<Option<Answer>, AllocError>
        ensures { IfOk result (λ found. HearsLine self.old line.now found self.new) }
    {
        if is_end(line) {
            return Ok(Some(self.end()));
        }
        let step = take_line(&mut self.judge, &mut self.room, line)?;
        self.counts = counted_by(&self.counts, &step);
        self.lines = next(self.lines);
        stops_at(alloc, self.lines, line, &step)
    }

    /// Takes all whole lines; the answer, where it is known now, or the bytes that are left. The only error is want
    /// of memory.
    pub fn take_all(&mut self, alloc: Global, bytes: &[u8]) -> Result<Heard, AllocError>
        ensures { IfOk result (λ heard. HearsAll self.old bytes.now heard self.new) }
    {
        let mut rest = bytes;
        while let Some((line, behind)) = first_line(rest) {
            match self.take(alloc, line)? {
                Some(answer) => return Ok(Heard::Answered(answer)),
                None => rest = behind,
            }
        }
        if rest.len() > MOST {
            let quote = Quote::new(alloc, rest)?;
            return Ok(Heard::Answered(Answer::NoFact {
                line: next(self.lines),
                quote,
            }));
        }
        Ok(Heard::Left(Vec::from_slice(alloc, rest)?))
    }
}
