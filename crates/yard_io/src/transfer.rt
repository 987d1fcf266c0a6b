//! Reading a whole input, and writing a whole text.
ghost use Rattle.std.specs.Prelude.{◌≡◌, ℕ, ◌+◌, ◌<◌, ◌≤◌, List, [], length, take, ◌++◌, Option, Some, IfOk, IfErr, OnOk, OnErr, IfSome, vec_len};
ghost use Rattle.yard_io.specs.Told.{followed_by, without_first, TakesFront, LosesUpTo};
ghost use Rattle.yard_io.specs.ReadErrorWords.{words_of};
ghost use Rattle.yard_io.specs.declared.transfer.ReadError.TheVariants as read_error;

use crate::failed::Failed;
use crate::sink::Sink;
use crate::source::Source;
use std::alloc::{AllocError, Global};
use std::error::Error;
use std::fmt;

/// How many bytes are read at a time at most.
const PIECE: usize = 65_536;

/// Why an input was not read.
#[derive(Clone, Copy, Debug, PartialEq, Eq)]
pub enum ReadError {
    /// A read failed.
    Failed,
    /// There was no memory for the bytes.
    OutOfMemory,
}

impl fmt::Display for ReadError {
    ghost output = { λ e. Some (words_of e) };

    fn fmt<W: fmt::Write>(&self, f: &mut fmt::Formatter<W>) -> fmt::Result {
        match self {
            ReadError::Failed => f.write_str("a read failed"),
            ReadError::OutOfMemory => f.write_str("out of memory"),
        }
    }
}

impl Error for ReadError {}

impl From<Failed> for ReadError {
    ghost from_gives = { λ _ e. e ≡ read_error.Failed };

    fn from(_e: Failed) -> ReadError {
        ReadError::Failed
    }
}

impl From<AllocError> for ReadError {
    ghost from_gives = { λ _ e. e ≡ read_error.OutOfMemory };

    fn from(_e: AllocError) -> ReadError {
        ReadError::OutOfMemory
    }
}

/// Writes all the bytes, in as many writes as it takes.
///
/// After `Failed` a front of the bytes has been taken, which may be all or none of them. Nothing is flushed.
pub fn write_all<K: Sink>(sink: &mut K, bytes: &[u8]) -> Result<(), Failed>
    ensures ok { OnOk result (K.taken sink.new ≡ followed_by (K.taken sink.old) bytes.now) }
    ensures err { OnErr result (TakesFront (K.taken sink.old) (K.taken sink.new) bytes.now) }
    ensures flushed { K.flushed sink.new ≡ K.flushed sink.old }
    ensures cause { OnErr result (K.faults sink.old < K.faults sink.new) }
    ensures never_falls { K.faults sink.old ≤ K.faults sink.new }
{
    let mut done = 0;
    for _ in 0..bytes.len() {
        if done >= bytes.len() {
            return Ok(());
        }
        let count = sink.write(&bytes[done..])?;
        done += count;
    }
    Ok(())
}

/// Reads once, at most `room` bytes, and appends them. The answer is how many came.
fn read_piece<S: Source>(
    source: &mut S,
    piece: &mut [u8],
    room: usize,
    bytes: &mut Vec<u8>,
) -> Result<usize, ReadError>
    requires { 0 < length piece.old }
    ensures count { IfOk result (λ n. vec_len bytes.new ≡ vec_len bytes.old + n) }
    ensures within { IfOk result (λ n. n ≤ room) }
    ensures bytes { IfOk result (λ n. IfSome (S.left source.old) (λ xs. bytes.new.items ≡ bytes.old.items ++ take n xs)) }
    ensures there { IfOk result (λ n. IfSome (S.left source.old) (λ xs. n ≤ length xs)) }
    ensures rest { IfOk result (λ n. S.left source.new ≡ without_first n (S.left source.old)) }
    ensures end { IfOk result (λ n. n ≡ 0 → 0 < room → IfSome (S.left source.old) (λ xs. xs ≡ [])) }
    ensures lost { OnErr result (LosesUpTo (S.left source.old) (S.left source.new) room) }
    ensures cause { IfErr result (λ e. e ≡ ReadError.Failed → S.faults source.old < S.faults source.new) }
    ensures never_falls { S.faults source.old ≤ S.faults source.new }
{
    let size = room.min(piece.len());
    let count = source.read(&mut piece[..size])?;
    bytes.extend_from_slice(&piece[..count])?;
    Ok(count)
}

/// Reads until the input ends or `limit` bytes have come, and answers them. No byte past the limit is read.
///
/// `ReadError::Failed` comes only where the source's count of faults rose in this call. After an error the bytes
/// that were read are lost.
pub fn read_up_to<S: Source>(
    alloc: Global,
    source: &mut S,
    limit: usize,
) -> Result<Vec<u8>, ReadError>
    ensures within { IfOk result (λ bytes. vec_len bytes ≤ limit) }
    ensures bytes { IfOk result (λ bytes. IfSome (S.left source.old) (λ xs. bytes.items ≡ take limit xs)) }
    ensures rest { OnOk result (S.left source.new ≡ without_first limit (S.left source.old)) }
    ensures lost { OnErr result (LosesUpTo (S.left source.old) (S.left source.new) limit) }
    ensures cause { IfErr result (λ e. e ≡ ReadError.Failed → S.faults source.old < S.faults source.new) }
    ensures never_falls { S.faults source.old ≤ S.faults source.new }
{
    let mut bytes = Vec::new(alloc);
    let mut space = new_space(alloc)?;
    read_pieces(source, space.as_mut_slice(), limit, &mut bytes)?;
    Ok(bytes)
}

/// Reads to an empty list until the input ends or `limit` bytes have come, a piece at a time.
fn read_pieces<S: Source>(
    source: &mut S,
    piece: &mut [u8],
    limit: usize,
    bytes: &mut Vec<u8>,
) -> Result<(), ReadError>
    requires space { 0 < length piece.old }
    requires empty { vec_len bytes.old ≡ 0 }
    ensures within { OnOk result (vec_len bytes.new ≤ limit) }
    ensures bytes { OnOk result (IfSome (S.left source.old) (λ xs. bytes.new.items ≡ take limit xs)) }
    ensures rest { OnOk result (S.left source.new ≡ without_first limit (S.left source.old)) }
    ensures lost { OnErr result (LosesUpTo (S.left source.old) (S.left source.new) limit) }
    ensures cause { IfErr result (λ e. e ≡ ReadError.Failed → S.faults source.old < S.faults source.new) }
    ensures never_falls { S.faults source.old ≤ S.faults source.new }
{
    for _ in 0..limit {
        if bytes.len() >= limit {
            return Ok(());
        }
        let room = limit - bytes.len();
        let count = read_piece(source, piece, room, bytes)?;
        if count == 0 {
            return Ok(());
        }
    }
    Ok(())
}

/// Room for a piece.
fn new_space(alloc: Global) -> Result<Vec<u8>, AllocError>
    ensures { IfOk result (λ space. 0 < vec_len space) }
{
    vec![in alloc; 0; PIECE]
}

/// What several calls of [`write_all`] take is what one call takes of their bytes, one after the other.
pub fn writes_add_up()
    ensures none { (told : Option (List ℕ)) → followed_by told [] ≡ told }
    ensures both { (told : Option (List ℕ)) (xs ys : List ℕ) →
        followed_by (followed_by told xs) ys ≡ followed_by told (xs ++ ys) }
    ensures whole { (old new : Option (List ℕ)) (xs : List ℕ) →
        new ≡ followed_by old xs → TakesFront old new xs }
    ensures first { (old new : Option (List ℕ)) (xs ys : List ℕ) →
        TakesFront old new xs → TakesFront old new (xs ++ ys) }
    ensures second { (old new : Option (List ℕ)) (xs ys : List ℕ) →
        TakesFront (followed_by old xs) new ys → TakesFront old new (xs ++ ys) }
{}
