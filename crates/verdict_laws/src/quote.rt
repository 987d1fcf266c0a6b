//! What an answer shows of a line.
ghost use Rattle.std.specs.Prelude.{◌≡◌, ◌<◌, take, length, IfOk, IfSome};
ghost use Rattle.std.specs.List.{position};
ghost use Rattle.verdict_laws.specs.Lines.{is_lf, most_shown, shown, up_to};

use std::alloc::{AllocError, Global};
use std::marker::Model;

/// The most bytes of a line that are shown.
const MOST_SHOWN: usize = 200;

/// What is shown of a line: its first bytes, 200 at most, without its LF.
#[derive(Drop)]
pub struct Quote {
    bytes: Vec<u8>,
}

impl Model for Quote {
    ghost use Rattle.std.specs.Prelude.{List, ℕ};

    ghost Value = { List ℕ };

    ghost view = { λ q. q.bytes.items };
}

impl Quote {
    /// What is shown of this line. The only error is want of memory.
    pub fn new(alloc: Global, line: &[u8]) -> Result<Quote, AllocError>
        ensures { IfOk result (λ quote. quote ≡ shown line.now) }
    {
        let bytes = Vec::from_slice(alloc, up_to_end(front(line)))?;
        Ok(Quote { bytes })
    }

    /// Its bytes.
    pub fn bytes(&self) -> &[u8]
        ensures { result.now ≡ self.now }
    {
        self.bytes.as_slice()
    }
}

/// The first bytes of a line.
fn front(line: &[u8]) -> &[u8]
    ensures { result.now ≡ take most_shown line.now }
{
    if line.len() > MOST_SHOWN {
        &line[..MOST_SHOWN]
    } else {
        line
    }
}

/// Where the first LF stands.
fn end_of(bytes: &[u8]) -> Option<usize>
    ensures place { result ≡ position is_lf bytes.now }
    ensures within { IfSome result (λ i. i < length bytes.now) }
{
    bytes.iter().position(|b| *b == b'\n')
}

/// The bytes up to the first LF.
fn up_to_end(bytes: &[u8]) -> &[u8]
    ensures { result.now ≡ up_to is_lf bytes.now }
{
    match end_of(bytes) {
        Some(end) => &bytes[..end],
        None => bytes,
    }
}
