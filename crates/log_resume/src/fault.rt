//! Why a log is no beginning of a run.
use std::alloc::AllocError;

/// Why no stores were made of a log.
#[derive(Clone, Copy, Debug, PartialEq, Eq)]
pub enum ResumeFault {
    /// This batch, from 1, is the first with an entry after which the lists aren't lawful for the script.
    Foreign {
        /// The batch.
        batch: u32,
    },
    /// There was no memory.
    OutOfMemory,
}

impl From<AllocError> for ResumeFault {
    ghost use Rattle.std.specs.Prelude.{◌≡◌};
    ghost use Rattle.log_resume.specs.declared.fault.ResumeFault.TheVariants.{OutOfMemory};

    ghost from_gives = { λ _ e. e ≡ OutOfMemory };

    fn from(_: AllocError) -> ResumeFault {
        ResumeFault::OutOfMemory
    }
}
