//! Why nothing was resumed.
ghost use Rattle.std.specs.Prelude.{◌≡◌};
ghost use Rattle.resume_run.specs.Faults.{of_log, of_reading};
ghost use Rattle.resume_run.specs.declared.fault.ResumeError.TheVariants as error;

use disk_log::ReadLogFault;
use log_resume::ResumeFault;
use std::alloc::AllocError;
use yard_io::Failed;

/// Why there is no text of a log.
#[derive(Clone, Copy, Debug, PartialEq, Eq)]
pub enum ResumeError {
    /// A call of the disk failed.
    Failed,
    /// There was no memory.
    OutOfMemory,
    /// The open gate at this place isn't followed by a whole batch and a gate.
    Damaged {
        /// Where the gate stands.
        at: u64,
    },
    /// This batch, from 1, is the first with an entry after which the lists aren't lawful for the script.
    Foreign {
        /// The batch.
        batch: u32,
    },
}

impl From<Failed> for ResumeError {
    ghost from_gives = { λ _ e. e ≡ error.Failed };

    fn from(_: Failed) -> ResumeError {
        ResumeError::Failed
    }
}

impl From<AllocError> for ResumeError {
    ghost from_gives = { λ _ e. e ≡ error.OutOfMemory };

    fn from(_: AllocError) -> ResumeError {
        ResumeError::OutOfMemory
    }
}

impl From<ReadLogFault> for ResumeError {
    ghost from_gives = { λ fault e. e ≡ of_reading fault };

    fn from(fault: ReadLogFault) -> ResumeError {
        match fault {
            ReadLogFault::Failed => ResumeError::Failed,
            ReadLogFault::OutOfMemory => ResumeError::OutOfMemory,
            ReadLogFault::Damaged { at } => ResumeError::Damaged { at },
        }
    }
}

impl From<ResumeFault> for ResumeError {
    ghost from_gives = { λ fault e. e ≡ of_log fault };

    fn from(fault: ResumeFault) -> ResumeError {
        match fault {
            ResumeFault::Foreign { batch } => ResumeError::Foreign { batch },
            ResumeFault::OutOfMemory => ResumeError::OutOfMemory,
        }
    }
}
