//! What a replay prints, as a judge reads it: it is judged safe. Each law is a function that does nothing, whose
//! contract is the law.
#![tactic(auto)]

ghost use Rattle.judged_replays.specs.Replayed.{ReplayIsJudgedSafe};

use judge_laws::quiet_says_nothing;
use play_laws::play::played_is_safe;
use verdict_laws::safe_is_answered;

/// What a replay prints of a script in one number of shards, where its lines can be read, is answered as safe, with
/// the counts of its facts.
pub fn replay_is_judged_safe()
    ensures { ReplayIsJudgedSafe }
{
    played_is_safe();
    quiet_says_nothing();
    safe_is_answered();
}
