//! Why a text was not written whole, or not logged.
use disk_log::MakeFault;
use log_orders::CommitFault;
use run_parts::WriteError;
use std::alloc::AllocError;

/// Why a script was not played to its end, or its text not written whole.
#[derive(Clone, Copy, Debug, PartialEq, Eq)]
pub enum LogError {
    /// A write failed.
    Failed,
    /// The disk is not empty; nothing was written.
    There,
    /// A call of the disk failed.
    Disk,
    /// There was no memory for what was to be written.
    OutOfMemory,
}

impl From<MakeFault> for LogError {
    ghost use Rattle.std.specs.Prelude.{◌≡◌};
    ghost use Rattle.logged_lines.specs.Faults.{of_make};

    ghost from_gives = { λ f e. e ≡ of_make f };

    fn from(fault: MakeFault) -> LogError {
        match fault {
            MakeFault::Failed => LogError::Disk,
            MakeFault::There => LogError::There,
        }
    }
}

impl From<CommitFault> for LogError {
    ghost use Rattle.std.specs.Prelude.{◌≡◌};
    ghost use Rattle.logged_lines.specs.Faults.{of_commit};

    ghost from_gives = { λ f e. e ≡ of_commit f };

    fn from(fault: CommitFault) -> LogError {
        match fault {
            CommitFault::Failed => LogError::Disk,
            CommitFault::OutOfMemory => LogError::OutOfMemory,
        }
    }
}

impl From<WriteError> for LogError {
    ghost use Rattle.std.specs.Prelude.{◌≡◌};
    ghost use Rattle.logged_lines.specs.Faults.{of_write};

    ghost from_gives = { λ f e. e ≡ of_write f };

    fn from(fault: WriteError) -> LogError {
        match fault {
            WriteError::Failed => LogError::Failed,
            WriteError::OutOfMemory => LogError::OutOfMemory,
        }
    }
}

impl From<AllocError> for LogError {
    ghost use Rattle.std.specs.Prelude.{◌≡◌};
    ghost use Rattle.logged_lines.specs.declared.log_fault.LogError.TheVariants.{OutOfMemory};

    ghost from_gives = { λ _ e. e ≡ OutOfMemory };

    fn from(_: AllocError) -> LogError {
        LogError::OutOfMemory
    }
}
