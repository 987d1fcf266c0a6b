//! In words: what is wrong where no answer was written, and where to read on.
ghost use Rattle.std.specs.Prelude.{◌≡◌};
ghost use Rattle.judge_run.specs.Explained.{place_of, explanation_of};

use crate::status::Status;
use program_words::explanation_of_reason;

const USAGE: &str =
    "judge takes no words but --help and --version, and nothing was read or written";

const NO_TRACE: &str =
    "a line trace must stand between the script and its trace, and nothing was judged";

const READ_FAULT: &str = "a read of the input failed, and nothing was written";

const WRITE_FAULT: &str =
    "a write or a flush of the answer failed, and a beginning of it was written";

const OUT_OF_MEMORY: &str = "there was no memory, and nothing was written";

// Where to read on.
const JUDGING: &str = "docs/JUDGE.md";

const REFUSALS: &str = "docs/SCRIPT.md, \"When a script is refused\"";

const NOTHING: &str = "";

impl Status {
    /// What is wrong, as a sentence without its stop; nothing where an answer was written.
    pub fn explanation(self) -> &'static str
        ensures { result.now ≡ explanation_of self }
    {
        match self {
            Status::Safe | Status::Unsafe | Status::NoFact | Status::NotJudged => NOTHING,
            Status::Usage => USAGE,
            Status::Refused { why, .. } => explanation_of_reason(why),
            Status::NoTrace => NO_TRACE,
            Status::ReadFault => READ_FAULT,
            Status::WriteFault => WRITE_FAULT,
            Status::OutOfMemory => OUT_OF_MEMORY,
        }
    }

    /// Where to read on; nothing where an answer was written.
    pub fn place(self) -> &'static str
        ensures { result.now ≡ place_of self }
    {
        match self {
            Status::Safe | Status::Unsafe | Status::NoFact | Status::NotJudged => NOTHING,
            Status::Refused { .. } => REFUSALS,
            Status::Usage
            | Status::NoTrace
            | Status::ReadFault
            | Status::WriteFault
            | Status::OutOfMemory => JUDGING,
        }
    }
}
