//! What a script can be refused for.
ghost use Rattle.std.specs.Prelude.{◌≡◌};
ghost use Rattle.script_text.specs.Faults.{number_of};
ghost use Rattle.script_text.specs.declared.fault.Stop.TheVariants.{OutOfMemory, Refused};

use std::alloc::AllocError;

/// Which command a script is for.
#[derive(Clone, Copy, Debug, PartialEq, Eq)]
pub enum Mode {
    /// One node, with sends and deliveries alone.
    Solo,
    /// All nodes, one step after the other.
    Replay,
    /// All nodes, each in a thread of its own.
    Live,
    /// Jobs of the first producer, which workers ask for.
    Pull,
    /// Numbered instances, which pings keep running.
    Daemon,
    /// As `Replay`, over one number of shards and one version, with a log on disk.
    Log,
}

/// Why a line is refused. On one line the reasons are tried in this order.
#[derive(Clone, Copy, Debug, PartialEq, Eq)]
pub enum Why {
    /// The line isn't a comment, and holds a byte that is neither printable ASCII nor a tab.
    NotText,
    /// The line has more than 256 bytes.
    LongLine,
    /// The first line that isn't blank isn't `config`.
    NoConfig,
    /// There is another `config`.
    SecondConfig,
    /// A word isn't listed where only listed words may stand.
    UnknownWord,
    /// There are too few words.
    MissingWord,
    /// There are too many words, or a setting is given twice.
    ExtraWord,
    /// A word in a number's place isn't a number.
    BadNumber,
    /// A number is outside its range, or there are too many names or pairs.
    OutOfRange,
    /// A word in a name's place isn't a name.
    BadName,
    /// There are too many lines.
    TooManyLines,
    /// There are too many bytes.
    TooLong,
    /// The command doesn't take this order.
    WrongMode,
    /// Under `pull`, there is another job of this name.
    SecondJob,
    /// Under `daemon`, the entities aren't counters.
    WrongKind,
    /// There are more than 1,000 pings.
    TooManyPings,
}

impl Why {
    /// The number of the reason, 1 to 13 and 15 to 17.
    pub fn number(self) -> u8
        ensures { result ≡ number_of self }
    {
        match self {
            Why::NotText => 1,
            Why::LongLine => 2,
            Why::NoConfig => 3,
            Why::SecondConfig => 4,
            Why::UnknownWord => 5,
            Why::MissingWord => 6,
            Why::ExtraWord => 7,
            Why::BadNumber => 8,
            Why::OutOfRange => 9,
            Why::BadName => 10,
            Why::TooManyLines => 11,
            Why::TooLong => 12,
            Why::WrongMode => 13,
            Why::SecondJob => 15,
            Why::WrongKind => 16,
            Why::TooManyPings => 17,
        }
    }
}

/// Why no script was read.
#[derive(Clone, Copy, Debug, PartialEq, Eq)]
pub enum ScriptFault {
    /// A line is refused; line 0 where there are too many bytes.
    At {
        /// The line, from 1.
        line: u32,
        /// For what.
        why: Why,
    },
    /// There was no memory for it.
    OutOfMemory,
}

/// Why a line adds nothing.
#[derive(Clone, Copy)]
pub enum Stop {
    /// It is refused.
    Refused(Why),
    /// There was no memory for it.
    OutOfMemory,
}

impl From<AllocError> for Stop {
    ghost from_gives = { λ _ e. e ≡ OutOfMemory };

    fn from(_error: AllocError) -> Stop {
        Stop::OutOfMemory
    }
}

impl From<Why> for Stop {
    ghost from_gives = { λ why e. e ≡ Refused why };

    fn from(why: Why) -> Stop {
        Stop::Refused(why)
    }
}
