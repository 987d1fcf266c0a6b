//! What a source gives, judged.
ghost use Rattle.std.specs.Prelude.{◌≡◌, ◌<◌, ◌≤◌, None, IfErr, IfOk, length, vec_len};
ghost use Rattle.std.specs.List.{position};
ghost use Rattle.verdict_laws.specs.Lines.{is_lf};
ghost use Rattle.judge_text.specs.Hears.{answer_of};
ghost use Rattle.judge_text.specs.Reads.{Came, IsJudged, Turns};

use crate::hearing::{Heard, Hearing};
use std::alloc::{AllocError, Global};
use verdict_laws::Answer;
use yard_io::{ReadError, Source};
use yard_model::Charter;

/// How many bytes are read at a time at most.
const PIECE: usize = 65_536;

/// Room for a piece.
fn new_piece(alloc: Global) -> Result<Vec<u8>, AllocError>
    ensures { IfOk result (λ piece. 0 < vec_len piece) }
{
    vec![in alloc; 0; PIECE]
}

/// Reads once, and appends what came. The answer is how many bytes came.
fn read_more<S: Source>(
    source: &mut S,
    piece: &mut [u8],
    window: &mut Vec<u8>,
) -> Result<usize, ReadError>
    requires { 0 < length piece.old }
    ensures came { IfOk result (λ n. Came window.old.items window.new.items n (S.left source.old) (S.left source.new)) }
    ensures cause { IfErr result (λ e. e ≡ ReadError.Failed → S.faults source.old < S.faults source.new) }
    ensures never_falls { S.faults source.old ≤ S.faults source.new }
{
    let count = source.read(piece)?;
    window.extend_from_slice(&piece[..count])?;
    Ok(count)
}

/// What is answered of the last line, which has no LF. The only error is want of memory.
fn last(alloc: Global, hearing: &mut Hearing, rest: &[u8]) -> Result<Answer, AllocError>
    requires no_line { position is_lf rest.now ≡ None }
    requires some { 0 < length rest.now }
    ensures { IfOk result (λ a. answer_of hearing.old rest.now ≡ a) }
{
    match hearing.take(alloc, rest)? {
        Some(answer) => Ok(answer),
        None => Ok(hearing.end()),
    }
}

/// The same of the last bytes, if there are any.
fn finish(alloc: Global, hearing: &mut Hearing, rest: &[u8]) -> Result<Answer, AllocError>
    requires { position is_lf rest.now ≡ None }
    ensures { IfOk result (λ a. answer_of hearing.old rest.now ≡ a) }
{
    if rest.is_empty() {
        Ok(hearing.end())
    } else {
        last(alloc, hearing, rest)
    }
}

/// Judges the lines of a window, and reads on; the answer, where it is known now.
fn turn<S: Source>(
    alloc: Global,
    hearing: &mut Hearing,
    source: &mut S,
    piece: &mut [u8],
    window: &mut Vec<u8>,
) -> Result<Option<Answer>, ReadError>
    requires { 0 < length piece.old }
    ensures turns { IfOk result (λ found. Turns hearing.old window.old.items found hearing.new window.new.items (S.left source.old) (S.left source.new)) }
    ensures cause { IfErr result (λ e. e ≡ ReadError.Failed → S.faults source.old < S.faults source.new) }
    ensures never_falls { S.faults source.old ≤ S.faults source.new }
{
    match hearing.take_all(alloc, window)? {
        Heard::Answered(answer) => Ok(Some(answer)),
        Heard::Left(rest) => {
            *window = rest;
            go_on(alloc, hearing, source, piece, window)
        }
    }
}

/// Reads on, where no line is left; what is answered where nothing came.
fn go_on<S: Source>(
    alloc: Global,
    hearing: &mut Hearing,
    source: &mut S,
    piece: &mut [u8],
    window: &mut Vec<u8>,
) -> Result<Option<Answer>, ReadError>
    requires room { 0 < length piece.old }
    requires no_line { position is_lf window.old.items ≡ None }
    ensures turns { IfOk result (λ found. Turns hearing.old window.old.items found hearing.new window.new.items (S.left source.old) (S.left source.new)) }
    ensures cause { IfErr result (λ e. e ≡ ReadError.Failed → S.faults source.old < S.faults source.new) }
    ensures never_falls { S.faults source.old ≤ S.faults source.new }
{
    let count = read_more(source, piece, window)?;
    if count > 0 {
        return Ok(None);
    }
    Ok(Some(finish(alloc, hearing, window)?))
}

/// Judges these bytes and what a source gives, as the text of a trace of this charter.
///
/// `ReadError::Failed` comes only where the source's count of faults rose in this call.
pub fn judge_rest<S: Source>(
    alloc: Global,
    charter: &Charter,
    first: &[u8],
    source: &mut S,
) -> Result<Answer, ReadError>
    ensures judged { IfOk result (λ a. IsJudged charter.now first.now (S.left source.old) (S.left source.new) a) }
    ensures cause { IfErr result (λ e. e ≡ ReadError.Failed → S.faults source.old < S.faults source.new) }
    ensures never_falls { S.faults source.old ≤ S.faults source.new }
{
    let mut hearing = Hearing::new(alloc, charter)?;
    let mut window = Vec::from_slice(alloc, first)?;
    let mut piece = new_piece(alloc)?;
    for _ in 0..u64::MAX {
        let found = turn(
            alloc,
            &mut hearing,
            source,
            piece.as_mut_slice(),
            &mut window,
        )?;
        match found {
            Some(answer) => return Ok(answer),
            None => {}
        }
    }
    Err(ReadError::OutOfMemory)
}
