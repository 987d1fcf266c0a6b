//! A log that a run of `log` left.
ghost use Rattle.apply_run.specs.Left.{LeftOfLogIsTaken};

use apply_laws::logging::left_is_taken;

/// `apply` goes on with whatever batches a run of `log` of the same script left, wherever it was cut off.
pub fn left_of_log_is_taken()
    ensures { LeftOfLogIsTaken }
{
    left_is_taken();
}
