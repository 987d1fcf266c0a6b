//! Where bytes go.
ghost use Rattle.std.specs.Prelude.{◌≡◌, ℕ, ◌<◌, ◌≤◌, List, length, take, Option, IfOk, OnOk, OnErr};
ghost use Rattle.yard_io.specs.Told.{followed_by, count_of};

use crate::failed::Failed;

/// Where bytes go, a piece at a time.
///
/// Contracts see three things of a sink: the bytes that it has taken and how many of them are flushed, where it
/// tells them, and how many of its writes and flushes have failed. A sink that tells always does, and one that
/// doesn't never does.
pub trait Sink {
    /// The bytes taken, or `None` where the sink doesn't tell them.
    ghost taken: { Self → Option (List ℕ) };

    /// How many of the bytes taken are flushed, or `None` where the sink doesn't tell.
    ghost flushed: { Self → Option ℕ };

    /// The faults so far.
    ghost faults: { Self → ℕ };

    /// Takes bytes from the front of `piece`, and answers how many: at least one of a piece that has any.
    ///
    /// `Failed` is answered only where the count of faults rose in this call; nothing is taken then.
    fn write(&mut self, piece: &[u8]) -> Result<usize, Failed>
        ensures within { IfOk result (λ n. n ≤ length piece.now) }
        ensures some { IfOk result (λ n. 0 < length piece.now → 0 < n) }
        ensures takes { IfOk result (λ n. taken self.new ≡ followed_by (taken self.old) (take n piece.now)) }
        ensures kept { OnErr result (taken self.new ≡ taken self.old) }
        ensures flushed { flushed self.new ≡ flushed self.old }
        ensures cause { OnErr result (faults self.old < faults self.new) }
        ensures never_falls { faults self.old ≤ faults self.new };

    /// Sees to it that all bytes taken have gone on.
    ///
    /// `Failed` is answered only where the count of faults rose in this call.
    fn flush(&mut self) -> Result<(), Failed>
        ensures kept { taken self.new ≡ taken self.old }
        ensures flushed { OnOk result (flushed self.new ≡ count_of (taken self.new)) }
        ensures unflushed { OnErr result (flushed self.new ≡ flushed self.old) }
        ensures cause { OnErr result (faults self.old < faults self.new) }
        ensures never_falls { faults self.old ≤ faults self.new };
}
