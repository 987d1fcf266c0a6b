//! Breaches in words.
ghost use Rattle.std.specs.Prelude.{◌≡◌};
ghost use Rattle.judge_run.specs.Texts.{sentence_in};

use judge_laws::Breach;

/// What a breach is called.
pub fn sentence_of(why: Breach) -> &'static str
    ensures { result.now ≡ sentence_in why }
{
    match why {
        Breach::NoName => "the script brings no such name",
        Breach::NoProducer => "the script has no such producer",
        Breach::NoSlot => "the script has no such slot",
        Breach::NoShard => "the script has no such shard",
        Breach::NoNode => "the script has no such node",
        Breach::TwoLive => "two live incarnations",
        Breach::NoLease => "live without its shard's lease",
        Breach::OtherState => "a state that isn't its journal's",
        Breach::GrantedHeld => "a lease that is granted while it is held",
        Breach::NotNextEpoch => "an epoch that isn't the next",
        Breach::Unheld => "an entry of a slot that nobody holds",
        Breach::NotItsGrant => "an epoch that isn't the grant's",
        Breach::FreedLive => "a lease that is freed while an entity of its shard is live",
        Breach::NotLive => "a record of an entity that isn't live",
        Breach::OtherEpoch => "a record of another epoch",
        Breach::NotNextRecord => "a record that isn't the next",
        Breach::NotNextCommand => "a record that isn't of its producer's next command",
        Breach::NotDecided => "a record that isn't decided so",
        Breach::NotRising => "a confirmation that doesn't rise, or of what isn't queued",
        Breach::NotRecorded => "a confirmation of what isn't recorded",
        Breach::OutOfOrder => "a queue entry out of order",
        Breach::NotToRegister => "a region that is registered, or one too many",
        Breach::NotRegistered => "a region that isn't registered",
        Breach::NotToAllocate => "a shard that has a home, or a home that isn't registered",
        Breach::NoHome => "a shard without a home",
        Breach::NotASnapshot => "a snapshot that isn't of the journal",
        Breach::IsRemembered => "a name that is remembered",
        Breach::IsNotRemembered => "a name that isn't remembered",
        Breach::NotJudged => "reshard isn't judged",
    }
}
