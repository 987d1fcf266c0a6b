//! What follows of a trace of guarded facts.
ghost use Rattle.yard_laws.specs.Guarded.{SafeIsOwn, GuardedIsOwn, GuardedIsSafeNow, SafeBegins, SafeGoesOn, GuardedIsSafe, SafeBoth};
ghost use Rattle.yard_laws.specs.Prefixes.{OwnBefore, GuardedBefore, SafeBefore, SafeNow};

/// Where a trace is safe now, there is a list for each slot, and each is lawful by itself.
pub fn safe_is_own()
    ensures { SafeIsOwn }
{}

/// So it is after guarded facts.
pub fn guarded_is_own()
    ensures { GuardedIsOwn }
{}

/// A guarded trace is safe now: each of the script's entities is live at one incarnation at most, which
/// holds its shard, and all lists are lawful.
pub fn guarded_is_safe_now()
    ensures { GuardedIsSafeNow }
{}

/// Before the first fact a trace is safe.
pub fn safe_begins()
    ensures { SafeBegins }
{}

/// After guarded facts it is safe again.
pub fn safe_goes_on()
    ensures { SafeGoesOn }
{}

/// And so it is at each prefix of them: each of the script's entities is live at one incarnation at most,
/// which holds its shard; what a record or an active entity says is what the journal says; and all lists
/// are lawful. Guarded facts stay within an era.
pub fn guarded_is_safe()
    ensures { GuardedIsSafe }
{}

/// Where the number of shards changes in between, both parts make a safe trace together.
pub fn safe_both()
    ensures { SafeBoth }
{}

/// What holds of a trace held before: guarded facts, and safety. A slot's list that is lawful by
/// itself was so before.
pub fn held_before()
    ensures own { OwnBefore }
    ensures guarded { GuardedBefore }
    ensures safe { SafeBefore }
{}

/// Of a safe trace what is to hold at each prefix holds at its end: each of the script's entities is
/// live at one incarnation at most, which holds its shard, and all lists are lawful.
pub fn safe_is_safe_now()
    ensures { SafeNow }
{}
