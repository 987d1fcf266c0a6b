//! Runs one after the other, each cut off at any moment.
ghost use Rattle.serve_laws.specs.Series.{RunsAreOne, SeriesIsExact, ServedSeries};

use crate::restarting::{alike_hear_alike, alike_serve_alike, found_is_desk, restart_is_same};
use crate::serving::{done_is_right, grouped_is_desk, served_is_desk};

/// They leave on the disk, and answer, what one run does that was never cut off.
pub fn runs_are_one()
    ensures { RunsAreOne }
{
    alike_hear_alike();
    alike_serve_alike();
    restart_is_same();
    found_is_desk();
    grouped_is_desk();
}

/// What was told in any of them is so on the disk at the end of all.
pub fn served_series()
    ensures { ServedSeries }
{
    alike_hear_alike();
    alike_serve_alike();
    restart_is_same();
    found_is_desk();
    grouped_is_desk();
    served_is_desk();
    done_is_right();
}

/// Each command that was accepted is recorded once, in order, and nothing else; each that was told has its record,
/// with its command and its reply.
pub fn series_is_exact()
    ensures { SeriesIsExact }
{
    alike_hear_alike();
    alike_serve_alike();
    restart_is_same();
    found_is_desk();
    grouped_is_desk();
    served_series();
}
