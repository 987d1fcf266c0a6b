//! In words: what is wrong where the input wasn't served to its end, and where to read on.
ghost use Rattle.std.specs.Prelude.{◌≡◌};
ghost use Rattle.serve_run.specs.Explained.{explanation_of, place_of};

use crate::status::Status;

const USAGE: &str =
    "serve takes no words but --help and --version, and nothing was read or written";

const READ_FAULT: &str =
    "a read of the input failed; what was answered is on the disk, and serve goes on from there";

const WRITE_FAULT: &str =
    "an answer could not be written; what was answered is on the disk, and serve goes on from there";

const OUT_OF_MEMORY: &str =
    "there was no memory, or the log is full; what was answered is on the disk, and serve goes on from there";

const DISK_FAULT: &str =
    "a call of the disk failed; what was answered is on the disk, and serve goes on from there";

const DAMAGED: &str =
    "sharder.log has a gate there that no whole batch follows; it is left as it is, and nothing was read";

const FOREIGN: &str =
    "sharder.log has a batch that serve doesn't write, from the first one on; it is left as it is, and nothing was read";

// Where to read on.
const SERVING: &str = "docs/SERVE.md";

const NOTHING: &str = "";

impl Status {
    /// What is wrong, as a sentence without its stop; nothing where the input was served to its end.
    pub fn explanation(self) -> &'static str
        ensures { result.now ≡ explanation_of self }
    {
        match self {
            Status::Served => NOTHING,
            Status::Usage => USAGE,
            Status::ReadFault => READ_FAULT,
            Status::WriteFault => WRITE_FAULT,
            Status::OutOfMemory => OUT_OF_MEMORY,
            Status::DiskFault => DISK_FAULT,
            Status::LogDamaged { .. } => DAMAGED,
            Status::LogForeign { .. } => FOREIGN,
        }
    }

    /// Where to read on; nothing where the input was served to its end.
    pub fn place(self) -> &'static str
        ensures { result.now ≡ place_of self }
    {
        match self {
            Status::Served => NOTHING,
            Status::Usage
            | Status::ReadFault
            | Status::WriteFault
            | Status::OutOfMemory
            | Status::DiskFault
            | Status::LogDamaged { .. }
            | Status::LogForeign { .. } => SERVING,
        }
    }
}
