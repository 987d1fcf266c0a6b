//! Streams for tests: a source and a sink that give and take some bytes a call, and of whose calls one may fail; and a
//! writer that takes nothing.
#![tactic(auto)]

mod calls;
mod drain;
mod feed;
mod nowhere;

pub use drain::Drain;
pub use feed::Feed;
pub use nowhere::Nowhere;

/// Pieces as large as they come.
pub const WHOLE: usize = usize::MAX;

/// A byte a call.
pub const A_BYTE: usize = 1;
