//! How a run of the judge ends.
ghost use Rattle.std.specs.Prelude.{◌≡◌};
ghost use Rattle.judge_run.specs.Complaint.{complains};
ghost use Rattle.judge_run.specs.Ends.{code_of, status_of};

use judge_laws::Breach;
use script_text::Why;
use std::fmt;
use verdict_laws::Answer;

/// How it is called.
const USAGE: &str = "usage: judge, with a script, a line `trace` and a trace on standard input";

/// How a run of the judge ends.
#[derive(Clone, Copy, Debug, PartialEq, Eq)]
pub enum Status {
    /// The trace is safe, which was written.
    Safe,
    /// The trace isn't safe with a line, which was written with the reason.
    Unsafe,
    /// There are words behind the program's name; nothing was read or written.
    Usage,
    /// The script is refused: its first fault, with its line from 1, or line 0 where it has more than 4 MiB. Nothing
    /// was written.
    Refused {
        /// The line.
        line: u32,
        /// The reason.
        why: Why,
    },
    /// The input has no line `trace`. Nothing was written.
    NoTrace,
    /// A line of the trace is that of no fact, which was written.
    NoFact,
    /// A line of the trace isn't judged, which was written.
    NotJudged,
    /// The source failed; nothing was written.
    ReadFault,
    /// The sink failed; what was written is a front of the answer.
    WriteFault,
    /// There was no memory; nothing was written.
    OutOfMemory,
}

impl Status {
    /// The exit status of the program.
    pub fn code(self) -> u8
        ensures { result ≡ code_of self }
    {
        match self {
            Status::Safe => 0,
            Status::Unsafe => 1,
            Status::Usage => 2,
            Status::Refused { .. } | Status::NoTrace | Status::NoFact | Status::NotJudged => 3,
            Status::ReadFault => 4,
            Status::WriteFault => 5,
            Status::OutOfMemory => 6,
        }
    }

    /// Whether a line stands on standard error beside it: where no answer was written.
    pub fn complains(self) -> bool
        ensures { result ≡ complains self }
    {
        match self {
            Status::Safe | Status::Unsafe | Status::NoFact | Status::NotJudged => false,
            Status::Usage
            | Status::Refused { .. }
            | Status::NoTrace
            | Status::ReadFault
            | Status::WriteFault
            | Status::OutOfMemory => true,
        }
    }
}

/// How a run ends whose answer was written.
pub(crate) fn status_of(answer: &Answer) -> Status
    ensures { result ≡ status_of answer.now }
{
    match answer {
        Answer::Safe(_) => Status::Safe,
        Answer::Broken {
            why: Breach::NotJudged,
            ..
        } => Status::NotJudged,
        Answer::Broken { .. } => Status::Unsafe,
        Answer::NoFact { .. } => Status::NoFact,
    }
}

/// What stands on standard error beside the status, as one line; nothing where an answer was written.
impl fmt::Display for Status {
    ghost use Rattle.std.specs.Prelude.{Some};
    ghost use Rattle.judge_run.specs.Complaint.{complaint};

    ghost output = { λ s. Some (complaint s) };

    fn fmt<W: fmt::Write>(&self, f: &mut fmt::Formatter<W>) -> fmt::Result {
        match *self {
            Status::Safe | Status::Unsafe | Status::NoFact | Status::NotJudged => Ok(()),
            Status::Usage => f.write_str(USAGE),
            Status::Refused { line, why } => {
                let reason = why.number();
                write!(f, "judge: line {line}: reason {reason}")
            }
            Status::NoTrace => f.write_str("judge: no line trace"),
            Status::ReadFault => f.write_str("judge: read fault"),
            Status::WriteFault => f.write_str("judge: write fault"),
            Status::OutOfMemory => f.write_str("judge: out of memory"),
        }
    }
}
