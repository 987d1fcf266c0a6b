//! Why a log was not opened.
use disk_log::HeadedFault;
use log_orders::CommitFault;
use log_resume::ResumeFault;
use std::alloc::AllocError;

/// Why a log was not opened.
#[derive(Clone, Copy, Debug, PartialEq, Eq)]
pub enum OpenFault {
    /// A call of the disk failed.
    Failed,
    /// There was no memory.
    OutOfMemory,
    /// The open gate at this place isn't followed by a whole batch and a gate.
    Damaged {
        /// Where the gate stands.
        at: u64,
    },
    /// The frame of this number, from 1, is none that a run of `serve` leaves there.
    Foreign {
        /// The frame; the settings' is 1.
        frame: u32,
    },
}

impl From<AllocError> for OpenFault {
    ghost use Rattle.std.specs.Prelude.{◌≡◌};
    ghost use Rattle.serve_service.specs.declared.fault.OpenFault.TheVariants.{OutOfMemory};

    ghost from_gives = { λ _ e. e ≡ OutOfMemory };

    fn from(_: AllocError) -> OpenFault {
        OpenFault::OutOfMemory
    }
}

impl From<HeadedFault> for OpenFault {
    ghost use Rattle.std.specs.Prelude.{◌≡◌};
    ghost use Rattle.serve_service.specs.Faults.{of_headed};

    ghost from_gives = { λ f e. e ≡ of_headed f };

    fn from(fault: HeadedFault) -> OpenFault {
        match fault {
            HeadedFault::Failed => OpenFault::Failed,
            HeadedFault::OutOfMemory => OpenFault::OutOfMemory,
            HeadedFault::Damaged { at } => OpenFault::Damaged { at },
            HeadedFault::LongHead => OpenFault::Foreign { frame: 1 },
        }
    }
}

impl From<ResumeFault> for OpenFault {
    ghost use Rattle.std.specs.Prelude.{◌≡◌};
    ghost use Rattle.serve_service.specs.Faults.{of_resume};

    ghost from_gives = { λ f e. e ≡ of_resume f };

    fn from(fault: ResumeFault) -> OpenFault {
        match fault {
            ResumeFault::OutOfMemory => OpenFault::OutOfMemory,
            ResumeFault::Foreign { batch } => OpenFault::Foreign {
                frame: batch.saturating_add(1),
            },
        }
    }
}

impl From<CommitFault> for OpenFault {
    ghost use Rattle.std.specs.Prelude.{◌≡◌};
    ghost use Rattle.serve_service.specs.Faults.{opening_of_commit};

    ghost from_gives = { λ f e. e ≡ opening_of_commit f };

    fn from(fault: CommitFault) -> OpenFault {
        match fault {
            CommitFault::Failed => OpenFault::Failed,
            CommitFault::OutOfMemory => OpenFault::OutOfMemory,
        }
    }
}
