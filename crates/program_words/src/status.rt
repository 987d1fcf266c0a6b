//! How a run of the program ends.
ghost use Rattle.std.specs.Prelude.{◌≡◌};
ghost use Rattle.program_words.specs.Complaint.{code_of};

use script_text::Why;
use std::fmt;

/// The forms of the command line.
const USAGE: &str =
    "usage: sharder solo or replay [json] or live TURNS SEED or bulk NUMBER or log or resume or apply or pull or daemon COUNT";

/// How a run of the program ends.
#[derive(Clone, Copy, Debug, PartialEq, Eq)]
pub enum Status {
    /// The whole text was written and flushed; the input was read to its end, where the form reads one.
    Ok,
    /// The words are not a form that the program knows; nothing was read or written.
    Usage,
    /// The input is not a script of this command: the first fault, with its line from 1, or line 0
    /// where more than 4 MiB came. Nothing was written.
    Refused {
        /// The line.
        line: u32,
        /// The reason.
        why: Why,
    },
    /// The source failed; nothing was written.
    ReadFault,
    /// The sink failed; what was written is a front of the text.
    WriteFault,
    /// There was no memory; what was written is a front of the text.
    OutOfMemory,
    /// A packet past the 1,000,000 that can be posted came up: the trace stops with the order on
    /// this line. The whole text of the trace up to there was written and flushed.
    WireFull {
        /// The line.
        line: u32,
    },
    /// A call of the disk failed; what was written is a front of the text.
    DiskFault,
    /// Under `log`: there is a log already. Nothing was written.
    LogThere,
    /// Under `resume` and `apply`: the open gate at this place of the log isn't followed by a whole batch and a gate.
    /// Nothing was written.
    LogDamaged {
        /// How many bytes stand before the gate.
        at: u64,
    },
    /// Under `resume` and `apply`: this batch of the log has an entry that no run of the script leaves there. Nothing
    /// was written.
    LogForeign {
        /// The batch, from 1.
        batch: u32,
    },
}

impl Status {
    /// The exit status of the program.
    pub fn code(self) -> u8
        ensures { result ≡ code_of self }
    {
        match self {
            Status::Ok => 0,
            Status::Usage => 2,
            Status::Refused { .. } => 3,
            Status::ReadFault => 4,
            Status::WriteFault => 5,
            Status::OutOfMemory => 6,
            Status::WireFull { .. } => 7,
            Status::DiskFault => 8,
            Status::LogThere => 9,
            Status::LogDamaged { .. } => 10,
            Status::LogForeign { .. } => 11,
        }
    }
}

/// What stands on standard error beside the status, as one line; nothing where the whole text was
/// written.
impl fmt::Display for Status {
    ghost use Rattle.std.specs.Prelude.{Some};
    ghost use Rattle.program_words.specs.Complaint.{complaint};

    ghost output = { λ s. Some (complaint s) };

    fn fmt<W: fmt::Write>(&self, f: &mut fmt::Formatter<W>) -> fmt::Result {
        match *self {
            Status::Ok => Ok(()),
            Status::Usage => f.write_str(USAGE),
            Status::Refused { line, why } => {
                let reason = why.number();
                write!(f, "sharder: line {line}: reason {reason}")
            }
            Status::ReadFault => f.write_str("sharder: read fault"),
            Status::WriteFault => f.write_str("sharder: write fault"),
            Status::OutOfMemory => f.write_str("sharder: out of memory"),
            Status::WireFull { line } => write!(f, "sharder: line {line}: wire full"),
            Status::DiskFault => f.write_str("sharder: disk fault"),
            Status::LogThere => f.write_str("sharder: log is there"),
            Status::LogDamaged { at } => write!(f, "sharder: log damaged at {at}"),
            Status::LogForeign { batch } => {
                write!(f, "sharder: log of another script, batch {batch}")
            }
        }
    }
}
