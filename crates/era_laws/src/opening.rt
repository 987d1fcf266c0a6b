//! What an era opens with.
ghost use Rattle.era_laws.specs.Openings.{OpeningGivesLists, OpeningIsQuiet, EraOpens};

use yard_model::laws::slot_law;

/// The facts that an era opens with come to the lists that it begins with, if these are lawful.
pub fn opening_gives_lists()
    ensures { OpeningGivesLists }
{
    slot_law();
}

/// They come to the version that it begins with, and leave no entity live.
pub fn opening_is_quiet()
    ensures { OpeningIsQuiet }
{
    slot_law();
}

/// So an era that begins with lawful lists is safe where it begins.
pub fn era_opens()
    ensures { EraOpens }
{
    slot_law();
}
