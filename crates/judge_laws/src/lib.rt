//! Laws of judging a trace fact by fact: what the next fact must be for a safe trace to stay safe, exactly, and
//! which test fails first where it isn't. Each law is a function that does nothing, whose contract is the law.
#![tactic(auto)]

ghost use Rattle.judge_laws.specs.Breached.{BreachIsJudged};
ghost use Rattle.judge_laws.specs.Broken.{BreachBreaks, BrokenIsFirst, LoudIsUnbroken, QuietSaysNothing, SafeIsUnbroken, UnbrokenBegins, UnbrokenGoesOn, UnbrokenIsExact, UnbrokenIsSafe};
ghost use Rattle.judge_laws.specs.Judged.{StepIsExact, SafeIsJudged};

mod breach;

pub use breach::Breach;

/// After a safe trace, another fact is shown and leaves the trace safe exactly where it passes the test.
pub fn step_is_exact()
    ensures { StepIsExact }
{}

/// So a trace in one number of shards is safe exactly where each of its facts passes the test.
pub fn safe_is_judged()
    ensures { SafeIsJudged }
{}

/// A fact passes exactly where it is no breach.
pub fn breach_is_judged()
    ensures { BreachIsJudged }
{}

/// A trace is safe up to its first breach, and where that changes no number of shards, it isn't safe with it.
pub fn broken_is_first()
    ensures { BrokenIsFirst }
{}

/// A trace without a breach is safe.
pub fn unbroken_is_safe()
    ensures { UnbrokenIsSafe }
{}

/// In one number of shards, a trace is safe exactly where it has no breach.
pub fn safe_is_unbroken()
    ensures { SafeIsUnbroken }
{}

/// No fact is a breach before the first.
pub fn unbroken_begins()
    ensures { UnbrokenBegins }
{}

/// With a fact that is no breach, a trace stays without one, and safe.
pub fn unbroken_goes_on()
    ensures { UnbrokenGoesOn }
{}

/// After a trace without a breach: it is safe, and with another fact exactly where that is no breach.
pub fn unbroken_is_exact()
    ensures { UnbrokenIsExact }
{}

/// With a breach it is broken there, whatever comes behind.
pub fn breach_breaks()
    ensures { BreachBreaks }
{}

/// A trace is safe exactly where it is safe without the facts of which safety says nothing.
pub fn quiet_says_nothing()
    ensures { QuietSaysNothing }
{}

/// So a safe trace in one number of shards has no breach among the others.
pub fn loud_is_unbroken()
    ensures { LoudIsUnbroken }
{}
