//! Traces as text: the lines of a trace, which facts they tell, and what a judge is to answer of them. Each law is
//! a function that does nothing, whose contract is the law.
#![tactic(auto)]

ghost use Rattle.verdict_laws.specs.Meaning.{BrokenIsAnswered, MeantIsAnswered, SafeIsAnswered, UnreadIsAnswered, VerdictMeans};

mod answer;
mod quote;

pub use answer::{Answer, Counts, Step};
pub use quote::Quote;

/// What an answer says: of a trace that is safe up to its end, or up to a line with which it isn't, or up to a line
/// that is that of no fact.
pub fn verdict_means()
    ensures { VerdictMeans }
{}

/// And what is so of a text is what it is answered by.
pub fn meant_is_answered()
    ensures { MeantIsAnswered }
{}

/// A text that tells a safe trace, in one number of shards, is answered as safe.
pub fn safe_is_answered()
    ensures { SafeIsAnswered }
{}

/// One whose first lines tell a safe trace, which isn't safe with the next line, is answered by that line.
pub fn broken_is_answered()
    ensures { BrokenIsAnswered }
{}

/// One whose first lines tell a safe trace, and whose next line is that of no fact, is answered by that line.
pub fn unread_is_answered()
    ensures { UnreadIsAnswered }
{}
