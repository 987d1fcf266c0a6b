//! Messages that are made of a script.
ghost use Rattle.actor_laws.specs.Messages.{GenuineIsMessage};

/// A genuine message comes from one of the script's producers and is for one of its names, since
/// some order of the script sends its command.
#[tactic(auto, using(crate::proofs::MessageLaws::genuine_message))]
pub fn genuine_is_message()
    ensures { GenuineIsMessage }
{}
