//! Where bytes come from.
ghost use Rattle.std.specs.Prelude.{◌≡◌, ℕ, ◌<◌, ◌≤◌, List, [], ◌++◌, length, take, drop, Option, IfOk, IfSome, OnErr};
ghost use Rattle.yard_io.specs.Told.{without_first};

use crate::failed::Failed;

/// Where bytes come from, a part at a time.
///
/// Contracts see two things of a source: the bytes that it has left, where it tells them, and how many of its
/// reads have failed. A source that tells its bytes always does, and one that doesn't never does.
pub trait Source {
    /// The bytes left, or `None` where the source doesn't tell them.
    ghost left: { Self → Option (List ℕ) };

    /// The faults so far.
    ghost faults: { Self → ℕ };

    /// Reads bytes to the front of `buf`, and answers how many. 0 for a buffer with room is the end of the input.
    ///
    /// `Failed` is answered only where the count of faults rose in this call; nothing is lost then.
    fn read(&mut self, buf: &mut [u8]) -> Result<usize, Failed>
        ensures within { IfOk result (λ n. n ≤ length buf.new) }
        ensures there { IfOk result (λ n. IfSome (left self.old) (λ xs. n ≤ length xs)) }
        ensures front { IfOk result (λ n. IfSome (left self.old)
            (λ xs. buf.new ≡ take n xs ++ drop n buf.old)) }
        ensures rest { IfOk result (λ n. left self.new ≡ without_first n (left self.old)) }
        ensures end { IfOk result (λ n. n ≡ 0 → 0 < length buf.new →
            IfSome (left self.old) (λ xs. xs ≡ [])) }
        ensures kept { OnErr result (left self.new ≡ left self.old) }
        ensures untouched { OnErr result (IfSome (left self.old) (λ _. buf.new ≡ buf.old)) }
        ensures cause { OnErr result (faults self.old < faults self.new) }
        ensures never_falls { faults self.old ≤ faults self.new };
}
