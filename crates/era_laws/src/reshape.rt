//! What another number of shards does to the lists.
ghost use Rattle.era_laws.specs.Reshapes.{ReshapedKeepsJournals, ReshapedIsLawful};

/// Each name has the journal that it had, in the list of the shard that it is of from here on.
pub fn reshaped_keeps_journals()
    ensures { ReshapedKeepsJournals }
{}

/// Where no incarnation is the coordinator and no epoch is above the one from which the lists go on,
/// the lists for so many shards are lawful again.
pub fn reshaped_is_lawful()
    ensures { ReshapedIsLawful }
{}
