//! The bytes of lines that were read and not heard yet.
ghost use Rattle.std.specs.Prelude.{◌≡◌, ◌<◌, ◌≤◌, [], true, false, None, length, drop, IfErr, IfNone, IfOk, IfSome, OnErr};
ghost use Rattle.std.specs.List.{position};
ghost use Rattle.serve_run.specs.Windows.{Came, IsGroup, IsPlain, Lost, is_lf};

use std::alloc::{AllocError, Global};
use std::marker::Model;
use yard_io::{ReadError, Source};

/// Bytes that were read, of which the first were heard. The first of the others are known to hold no LF, so that they
/// aren't searched again.
#[derive(Drop)]
pub(crate) struct Window {
    alloc: Global,
    bytes: Vec<u8>,
    from: usize,
    plain: usize,
}

impl Model for Window {
    ghost use Rattle.std.specs.Prelude.{◌≤◌, List, ℕ, drop, vec_len};
    ghost use Rattle.serve_run.specs.Windows.{IsPlain};

    ghost Value = { List ℕ };

    ghost view = { λ w. drop w.from w.bytes.items };

    ghost invariant = { λ w. (w.from ≤ vec_len w.bytes) × IsPlain (drop w.from w.bytes.items) w.plain };
}

impl Window {
    /// Nothing was read.
    pub(crate) fn new(alloc: Global) -> Window
        ensures { result ≡ [] }
    {
        Window {
            alloc,
            bytes: Vec::new(alloc),
            from: 0,
            plain: 0,
        }
    }

    /// The bytes.
    pub(crate) fn bytes(&self) -> &[u8]
        ensures { result.now ≡ self.now }
    {
        &self.bytes[self.from..]
    }

    /// Where the first group of whole lines ends: behind the last LF, or, where each line is one of its own, behind the
    /// first. None where no line is whole.
    pub(crate) fn group_end(&self, alone: bool) -> Option<usize>
        ensures some { IfSome result (λ n. IsGroup alone self.now n) }
        ensures none { IfNone result (position is_lf self.now ≡ None) }
    {
        group_end(self.bytes(), self.plain, alone)
    }

    /// Leaves the first bytes behind, which were heard.
    pub(crate) fn pass(&mut self, count: usize)
        requires { count ≤ length self.old }
        ensures { self.new ≡ drop count self.old }
    {
        self.from += count;
        self.plain = 0;
    }

    /// Where no line is whole, reads once, and appends what comes. The answer is how many bytes these are; none,
    /// where the input has ended.
    pub(crate) fn read<S: Source>(
        &mut self,
        source: &mut S,
        piece: &mut [u8],
    ) -> Result<usize, ReadError>
        requires room { 0 < length piece.old }
        requires no_line { position is_lf self.old ≡ None }
        ensures came { IfOk result (λ n. Came self.old self.new n (S.left source.old) (S.left source.new)) }
        ensures lost { OnErr result (Lost (S.left source.old) (S.left source.new)) }
        ensures cause { IfErr result (λ e. e ≡ ReadError.Failed → S.faults source.old < S.faults source.new) }
        ensures never_falls { S.faults source.old ≤ S.faults source.new }
    {
        self.forget()?;
        self.plain = self.bytes.len() - self.from;
        let count = source.read(piece)?;
        self.bytes.extend_from_slice(&piece[..count])?;
        Ok(count)
    }

    /// Gives back the memory of what was left behind.
    fn forget(&mut self) -> Result<(), AllocError>
        ensures { self.new ≡ self.old }
    {
        if self.from == 0 {
            return Ok(());
        }
        let rest = Vec::from_slice(self.alloc, self.bytes())?;
        self.bytes = rest;
        self.from = 0;
        Ok(())
    }
}

/// Where the first group of whole lines ends, where so many of the first bytes are no LF.
fn group_end(bytes: &[u8], plain: usize, alone: bool) -> Option<usize>
    requires { IsPlain bytes.now plain }
    ensures some { IfSome result (λ n. IsGroup alone bytes.now n) }
    ensures none { IfNone result (position is_lf bytes.now ≡ None) }
{
    if alone {
        return first_end(bytes, plain);
    }
    last_end(bytes, plain)
}

/// Where the first LF stands.
fn line_end(bytes: &[u8]) -> Option<usize>
    ensures place { result ≡ position is_lf bytes.now }
    ensures within { IfSome result (λ i. i < length bytes.now) }
{
    bytes.iter().position(|b| *b == b'\n')
}

/// Behind the first LF.
fn first_end(bytes: &[u8], plain: usize) -> Option<usize>
    requires { IsPlain bytes.now plain }
    ensures some { IfSome result (λ n. IsGroup true bytes.now n) }
    ensures none { IfNone result (position is_lf bytes.now ≡ None) }
{
    match line_end(&bytes[plain..]) {
        Some(place) => Some(plain + place + 1),
        None => None,
    }
}

/// Behind the last LF.
fn last_end(bytes: &[u8], plain: usize) -> Option<usize>
    requires { IsPlain bytes.now plain }
    ensures some { IfSome result (λ n. IsGroup false bytes.now n) }
    ensures rest { IfSome result (λ n. position is_lf (drop n bytes.now) ≡ None) }
    ensures none { IfNone result (position is_lf bytes.now ≡ None) }
{
    match bytes[plain..].iter().rposition(|&b| b == b'\n') {
        Some(place) => Some(plain + place + 1),
        None => None,
    }
}
