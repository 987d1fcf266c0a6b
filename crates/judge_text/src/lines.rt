//! One line.
ghost use Rattle.std.specs.Prelude.{◌≡◌, ◌<◌, None, IfOk, IfSome, OnErr, MatchOption, length};
ghost use Rattle.std.specs.List.{position};
ghost use Rattle.judge_laws.specs.Breached.{breach_of};
ghost use Rattle.verdict_laws.specs.Lines.{is_lf, read_line};
ghost use Rattle.verdict_laws.specs.Verdict.{read_step, seen_step, step_of};
ghost use Rattle.judge_text.specs.Steps.{Cuts, Goes};

use crate::words::is_quiet;
use state_lines::told;
use std::alloc::AllocError;
use trace_judge::Judge;
use trace_text::push_fact;
use verdict_laws::Step;
use yard_model::Fact;

/// The most bytes of a line that isn't refused.
pub(crate) const MOST: usize = 4_096;

/// Where the first line's LF stands.
fn line_end(bytes: &[u8]) -> Option<usize>
    ensures place { result ≡ position is_lf bytes.now }
    ensures within { IfSome result (λ i. i < length bytes.now) }
{
    bytes.iter().position(|b| *b == b'\n')
}

/// The first line, with its LF, and the bytes behind it; None where there is no LF.
pub fn first_line(bytes: &[u8]) -> Option<(&[u8], &[u8])>
    ensures { MatchOption result (position is_lf bytes.now ≡ None) (λ x. Cuts bytes.now x.0.now x.1.now) }
{
    match line_end(bytes) {
        Some(end) => Some((&bytes[..end + 1], &bytes[end + 1..])),
        None => None,
    }
}

/// The fact whose line this is; None where it is that of none. `room` is room for a line. The only error is want of
/// memory.
fn fact_of(room: &mut Vec<u8>, line: &[u8]) -> Result<Option<Fact>, AllocError>
    ensures { IfOk result (λ found. found ≡ read_line line.now) }
{
    let Some(fact) = told(line) else {
        return Ok(None);
    };
    room.clear();
    push_fact(room, &fact)?;
    if room.as_slice() == line {
        Ok(Some(fact))
    } else {
        Ok(None)
    }
}

/// What a line comes to; where it tells a fact, with which the trace is still safe, that is one of the judge's then.
/// The only error is want of memory, and then nothing changes.
pub(crate) fn take_line(
    judge: &mut Judge,
    room: &mut Vec<u8>,
    line: &[u8],
) -> Result<Step, AllocError>
    ensures ok { IfOk result (λ step. Goes judge.old (step_of judge.old.script judge.old.trace line.now) step judge.new) }
    ensures err { OnErr result (judge.new ≡ judge.old) }
{
    if line.len() > MOST {
        return Ok(Step::NoFact);
    }
    if is_quiet(line) {
        return Ok(Step::Quiet);
    }
    take_read(judge, room, line)
}

/// The same of a line that isn't passed over.
fn take_read(judge: &mut Judge, room: &mut Vec<u8>, line: &[u8]) -> Result<Step, AllocError>
    ensures ok { IfOk result (λ step. Goes judge.old (read_step judge.old.script judge.old.trace (read_line line.now)) step judge.new) }
    ensures err { OnErr result (judge.new ≡ judge.old) }
{
    match fact_of(room, line)? {
        Some(fact) => hear(judge, &fact),
        None => Ok(Step::NoFact),
    }
}

/// The same of a fact that was told.
fn hear(judge: &mut Judge, fact: &Fact) -> Result<Step, AllocError>
    ensures ok { IfOk result (λ step. Goes judge.old (seen_step fact.now (breach_of judge.old.script judge.old.trace fact.now)) step judge.new) }
    ensures err { OnErr result (judge.new ≡ judge.old) }
{
    match judge.see(fact)? {
        Some(why) => Ok(Step::Broken(why)),
        None => Ok(Step::Heard(*fact)),
    }
}
