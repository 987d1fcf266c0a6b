//! How a run of `serve` ends.
ghost use Rattle.std.specs.Prelude.{◌≡◌};
ghost use Rattle.serve_run.specs.Statuses.{code_of, complains, of_end, of_open, of_stop};

use crate::stop::Stop;
use serve_service::OpenFault;
use std::fmt;

/// How a run of `serve` ends.
#[derive(Clone, Copy, Debug, PartialEq, Eq)]
pub enum Status {
    /// The input ended, and each whole line of it was answered.
    Served,
    /// There are words behind the program's name that it doesn't know; nothing was read or written.
    Usage,
    /// A read of the input failed. What was answered is on the disk.
    ReadFault,
    /// A write or a flush of the answers failed. What was answered is on the disk.
    WriteFault,
    /// There was no memory, or no room in the log. What was answered is on the disk.
    OutOfMemory,
    /// A call of the disk failed. What was answered is on the disk.
    DiskFault,
    /// The log is damaged: the open gate at this place isn't followed by a whole batch and a gate. Nothing was answered.
    LogDamaged {
        /// Where the gate stands.
        at: u64,
    },
    /// The log is none of `serve`: the frame of this number, from 1, is none that a run leaves there. Nothing was answered.
    LogForeign {
        /// The frame; the settings' is 1.
        frame: u32,
    },
}

impl Status {
    /// The exit status of the program.
    pub fn code(self) -> u8
        ensures { result ≡ code_of self }
    {
        match self {
            Status::Served => 0,
            Status::Usage => 2,
            Status::ReadFault => 4,
            Status::WriteFault => 5,
            Status::OutOfMemory => 6,
            Status::DiskFault => 8,
            Status::LogDamaged { .. } => 10,
            Status::LogForeign { .. } => 11,
        }
    }

    /// Whether a line stands on standard error beside it: where the input wasn't served to its end.
    pub fn complains(self) -> bool
        ensures { result ≡ complains self }
    {
        match self {
            Status::Served => false,
            Status::Usage
            | Status::ReadFault
            | Status::WriteFault
            | Status::OutOfMemory
            | Status::DiskFault
            | Status::LogDamaged { .. }
            | Status::LogForeign { .. } => true,
        }
    }
}

/// How it is called.
const USAGE: &str =
    "usage: serve, with lines on standard input and its log, sharder.log, in the current folder";

/// How a run ends whose log was opened.
pub(crate) fn status_with(end: Result<(), Stop>) -> Status
    ensures { result ≡ of_end end }
{
    match end {
        Ok(()) => Status::Served,
        Err(stop) => status_of(stop),
    }
}

/// How a run ends that stopped so.
fn status_of(stop: Stop) -> Status
    ensures { result ≡ of_stop stop }
{
    match stop {
        Stop::Read => Status::ReadFault,
        Stop::Write => Status::WriteFault,
        Stop::Disk => Status::DiskFault,
        Stop::OutOfMemory => Status::OutOfMemory,
    }
}

/// How a run ends whose log wasn't opened.
pub(crate) fn status_without(fault: OpenFault) -> Status
    ensures { result ≡ of_open fault }
{
    match fault {
        OpenFault::Failed => Status::DiskFault,
        OpenFault::OutOfMemory => Status::OutOfMemory,
        OpenFault::Damaged { at } => Status::LogDamaged { at },
        OpenFault::Foreign { frame } => Status::LogForeign { frame },
    }
}

/// What stands on standard error beside the status, as one line; nothing where the input ended.
impl fmt::Display for Status {
    ghost use Rattle.std.specs.Prelude.{Some};
    ghost use Rattle.serve_run.specs.Statuses.{complaint};

    ghost output = { λ s. Some (complaint s) };

    fn fmt<W: fmt::Write>(&self, f: &mut fmt::Formatter<W>) -> fmt::Result {
        match *self {
            Status::Served => Ok(()),
            Status::Usage => f.write_str(USAGE),
            Status::ReadFault => f.write_str("serve: read fault"),
            Status::WriteFault => f.write_str("serve: write fault"),
            Status::OutOfMemory => f.write_str("serve: out of memory"),
            Status::DiskFault => f.write_str("serve: disk fault"),
            Status::LogDamaged { at } => write!(f, "serve: log damaged at {at}"),
            Status::LogForeign { frame } => write!(
                f,
                "serve: log of another script, batch {frame}"
            ),
        }
    }
}
