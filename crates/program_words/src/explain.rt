//! In words: what is wrong where a run didn't write the whole text, and where to read on.
ghost use Rattle.std.specs.Prelude.{◌≡◌};
ghost use Rattle.program_words.specs.Explained.{place_of, reads_script, explanation_of, explanation_of_reason};
ghost use Rattle.program_words.specs.Forms.{form_on};

use crate::forms::{ScriptFrom, disk_form_of};
use crate::status::Status;
use script_text::Why;

// Of a script that is refused.
const NOT_TEXT: &str = "the line has a byte that is no text, and is no comment";

const LONG_LINE: &str = "the line has more than 256 bytes";

const NO_CONFIG: &str = "the first line that isn't blank isn't config, or there is none";

const SECOND_CONFIG: &str = "there is a second config";

const UNKNOWN_WORD: &str =
    "a word isn't known where it stands: an order, a key, a value, a command; or a setting has no =";

const MISSING_WORD: &str = "a word is missing";

const EXTRA_WORD: &str = "a word is too many, or a key is given twice";

const BAD_NUMBER: &str = "a word isn't a number where one belongs";

const OUT_OF_RANGE: &str = "a number is outside its range, or a name or pair too many was brought";

const BAD_NAME: &str = "a word isn't a name where one belongs";

const TOO_MANY_LINES: &str = "the script has more than 20,000 lines";

const TOO_LONG: &str = "the script has more than 4,194,304 bytes";

const WRONG_MODE: &str = "this command doesn't take this order";

const SECOND_JOB: &str = "a job of this name was sent already";

const WRONG_KIND: &str = "a daemon wants counters, and the script's entities are of another kind";

const TOO_MANY_PINGS: &str = "the script has more than 1,000 pings";

// Of other ends.
const USAGE: &str =
    "the words are no command, and nothing was read or written; --help tells all commands";

const READ_FAULT: &str = "a read of the script failed, and nothing was written";

const WRITE_FAULT: &str =
    "a write or a flush of the text failed, and a beginning of it was written";

const OUT_OF_MEMORY: &str = "there was no memory, and at most a beginning of the text was written";

const WIRE_FULL: &str =
    "this order would have posted packet 1,000,001, and the text up to there was written";

const DISK_FAULT: &str =
    "a call of the disk failed, and at most a beginning of the text was written";

const LOG_THERE: &str =
    "sharder.log isn't empty, and nothing was written: log wants that there is none";

const LOG_DAMAGED: &str =
    "sharder.log has a batch that isn't whole behind whole ones, at this byte from 0, and nothing was written";

const LOG_FOREIGN: &str =
    "sharder.log has an entry that can't be of this script, first in this batch from 1, and nothing was written";

// Where to read on.
const COMMANDS: &str = "docs/SCRIPT.md, \"The commands\"";

const ENDS: &str = "docs/SCRIPT.md, \"How a run ends\"";

const REFUSALS: &str = "docs/SCRIPT.md, \"When a script is refused\"";

const ON_DISK: &str = "docs/SCRIPT.md, \"A run that is kept on disk\"";

const NOTHING: &str = "";

impl Status {
    /// What is wrong, as a sentence without its stop; nothing where the whole text was written.
    pub fn explanation(self) -> &'static str
        ensures { result.now ≡ explanation_of self }
    {
        match self {
            Status::Ok => NOTHING,
            Status::Usage => USAGE,
            Status::Refused { why, .. } => explanation_of_reason(why),
            Status::ReadFault => READ_FAULT,
            Status::WriteFault => WRITE_FAULT,
            Status::OutOfMemory => OUT_OF_MEMORY,
            Status::WireFull { .. } => WIRE_FULL,
            Status::DiskFault => DISK_FAULT,
            Status::LogThere => LOG_THERE,
            Status::LogDamaged { .. } => LOG_DAMAGED,
            Status::LogForeign { .. } => LOG_FOREIGN,
        }
    }

    /// Where to read on; nothing where the whole text was written.
    pub fn place(self) -> &'static str
        ensures { result.now ≡ place_of self }
    {
        match self {
            Status::Ok => NOTHING,
            Status::Usage => COMMANDS,
            Status::Refused { .. } => REFUSALS,
            Status::ReadFault
            | Status::WriteFault
            | Status::OutOfMemory
            | Status::WireFull { .. } => ENDS,
            Status::DiskFault
            | Status::LogThere
            | Status::LogDamaged { .. }
            | Status::LogForeign { .. } => ON_DISK,
        }
    }
}

/// Why a script is refused, as a sentence without its stop.
pub fn explanation_of_reason(why: Why) -> &'static str
    ensures { result.now ≡ explanation_of_reason why }
{
    match why {
        Why::NotText => NOT_TEXT,
        Why::LongLine => LONG_LINE,
        Why::NoConfig => NO_CONFIG,
        Why::SecondConfig => SECOND_CONFIG,
        Why::UnknownWord => UNKNOWN_WORD,
        Why::MissingWord => MISSING_WORD,
        Why::ExtraWord => EXTRA_WORD,
        Why::BadNumber => BAD_NUMBER,
        Why::OutOfRange => OUT_OF_RANGE,
        Why::BadName => BAD_NAME,
        Why::TooManyLines => TOO_MANY_LINES,
        Why::TooLong => TOO_LONG,
        Why::WrongMode => WRONG_MODE,
        Why::SecondJob => SECOND_JOB,
        Why::WrongKind => WRONG_KIND,
        Why::TooManyPings => TOO_MANY_PINGS,
    }
}

/// Whether the words after the program's name are a form that reads a script.
pub fn reads_script(words: &[String]) -> bool
    ensures { result ≡ reads_script (form_on words.now) }
{
    match disk_form_of(words) {
        Some(form) => matches!(form.script_from(), ScriptFrom::Input(_)),
        None => false,
    }
}
