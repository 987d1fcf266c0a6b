//! What a judge answers.

use crate::quote::Quote;
use judge_laws::Breach;
use yard_model::Fact;

/// How many facts were told, how many of them are entries of slots' lists, and how many of these are records. Each
/// count stands still at the greatest `u64`.
#[derive(Clone, Copy, Debug, PartialEq, Eq)]
pub struct Counts {
    /// Facts.
    pub facts: u64,
    /// Entries.
    pub entries: u64,
    /// Records.
    pub records: u64,
}

/// Whether a trace is safe, or which line, from 1, ends its safety. The number of a line stands still at the
/// greatest `u64`.
#[derive(Drop)]
pub enum Answer {
    /// It is safe.
    Safe(Counts),
    /// With the fact of this line it isn't, or the line is of a fact that isn't judged.
    Broken {
        /// The line.
        line: u64,
        /// Why.
        why: Breach,
        /// What is shown of it.
        quote: Quote,
    },
    /// This line is that of no fact.
    NoFact {
        /// The line.
        line: u64,
        /// What is shown of it.
        quote: Quote,
    },
}

/// What a line came to.
#[derive(Clone, Copy, Debug)]
pub enum Step {
    /// It is passed over.
    Quiet,
    /// It tells this fact, with which the trace is still safe.
    Heard(Fact),
    /// It ends the trace's safety.
    Broken(Breach),
    /// It is that of no fact.
    NoFact,
}
