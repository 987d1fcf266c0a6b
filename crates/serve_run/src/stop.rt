//! Why a run stopped.
use log_orders::CommitFault;
use std::alloc::AllocError;
use yard_io::{Failed, ReadError};

/// Why a run stopped before the input had ended.
#[derive(Clone, Copy, Debug, PartialEq, Eq)]
pub enum Stop {
    /// A read of the input failed.
    Read,
    /// A write or a flush of the answers failed.
    Write,
    /// A call of the disk failed.
    Disk,
    /// There was no memory.
    OutOfMemory,
}

impl From<AllocError> for Stop {
    ghost use Rattle.std.specs.Prelude.{◌≡◌};
    ghost use Rattle.serve_run.specs.declared.stop.Stop.TheVariants.{OutOfMemory};

    ghost from_gives = { λ _ e. e ≡ OutOfMemory };

    fn from(_: AllocError) -> Stop {
        Stop::OutOfMemory
    }
}

impl From<ReadError> for Stop {
    ghost use Rattle.std.specs.Prelude.{◌≡◌};
    ghost use Rattle.serve_run.specs.Faults.{of_read};

    ghost from_gives = { λ f e. e ≡ of_read f };

    fn from(fault: ReadError) -> Stop {
        match fault {
            ReadError::Failed => Stop::Read,
            ReadError::OutOfMemory => Stop::OutOfMemory,
        }
    }
}

/// A write or a flush of the answers failed.
impl From<Failed> for Stop {
    ghost use Rattle.std.specs.Prelude.{◌≡◌};
    ghost use Rattle.serve_run.specs.declared.stop.Stop.TheVariants.{Write};

    ghost from_gives = { λ _ e. e ≡ Write };

    fn from(_: Failed) -> Stop {
        Stop::Write
    }
}

impl From<CommitFault> for Stop {
    ghost use Rattle.std.specs.Prelude.{◌≡◌};
    ghost use Rattle.serve_run.specs.Faults.{of_commit};

    ghost from_gives = { λ f e. e ≡ of_commit f };

    fn from(fault: CommitFault) -> Stop {
        match fault {
            CommitFault::Failed => Stop::Disk,
            CommitFault::OutOfMemory => Stop::OutOfMemory,
        }
    }
}
