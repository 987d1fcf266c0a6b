//! What one fact changes of what a trace says.
ghost use Rattle.yard_laws.specs.Free.{FreeIsGuarded, FreeLeavesLists, FreeLeavesLive, FreeLeavesVersion, RegionIsFree};
ghost use Rattle.yard_laws.specs.Local.{ListGrows, OtherListsStay, OthersLiveOn, GuardedByItsActor};

/// An entry stands at the end of its slot's list, and the lists of the other slots stay.
pub fn entry_in_its_list()
    ensures grows { ListGrows }
    ensures stay { OtherListsStay }
{}

/// A fact changes what is live at the incarnation that it names, and nothing of what is live at any
/// other.
pub fn others_live_on()
    ensures { OthersLiveOn }
{}

/// Where the live ones hold their shards, a fact is guarded if it is so by what its actor has: the
/// lists of the slots that it holds, and what is live at it. Of a confirmation it is to be known
/// besides that the number is recorded.
pub fn guarded_by_its_actor()
    ensures { GuardedByItsActor }
{}

/// A fact that is no entry of a slot's list and no word on a live entity is guarded wherever it
/// stands, and changes neither the lists nor who is live, nor the version of behaviours.
pub fn free_facts()
    ensures guarded { FreeIsGuarded }
    ensures lists { FreeLeavesLists }
    ensures live { FreeLeavesLive }
    ensures version { FreeLeavesVersion }
{}

/// A region tells such facts alone: no rule of it owes a guard.
pub fn region_is_free()
    ensures { RegionIsFree }
{}
