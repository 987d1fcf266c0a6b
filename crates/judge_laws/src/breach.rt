//! What breaks the safety of a trace.

/// Why a trace isn't safe any more with one fact more: the first test that fails.
#[derive(Clone, Copy, Debug, PartialEq, Eq)]
pub enum Breach {
    /// The script brings no such name.
    NoName,
    /// The script has no such producer.
    NoProducer,
    /// The script has no such slot.
    NoSlot,
    /// The script has no such shard.
    NoShard,
    /// The script has no such node.
    NoNode,
    /// An entity is started that is live at another incarnation.
    TwoLive,
    /// An entity is started where the lease of its shard isn't held.
    NoLease,
    /// An entity has become active with a state, or a number of records, that isn't its journal's.
    OtherState,
    /// A lease is granted while it is held.
    GrantedHeld,
    /// A grant whose epoch isn't the next.
    NotNextEpoch,
    /// An entry of a slot that nobody holds.
    Unheld,
    /// A lease is freed with an epoch that isn't its grant's.
    NotItsGrant,
    /// A shard's lease is freed while an entity of it is live.
    FreedLive,
    /// A record of an entity that isn't live.
    NotLive,
    /// A record of another epoch than that of its shard's lease.
    OtherEpoch,
    /// A record that isn't the next of its journal.
    NotNextRecord,
    /// A record that isn't of its producer's next command.
    NotNextCommand,
    /// A record whose events and reply aren't what is decided there.
    NotDecided,
    /// A confirmation that doesn't rise, or of what isn't queued.
    NotRising,
    /// A confirmation of what isn't recorded.
    NotRecorded,
    /// A command is queued that isn't its producer's next.
    OutOfOrder,
    /// A region is registered that is registered, or one too many.
    NotToRegister,
    /// A region is terminated that isn't registered.
    NotRegistered,
    /// A shard is allocated that has a home, or to a region that isn't registered.
    NotToAllocate,
    /// A shard is deallocated that has no home.
    NoHome,
    /// A snapshot that isn't of all records of the journal, or isn't the first of so many.
    NotASnapshot,
    /// A name is remembered that is.
    IsRemembered,
    /// A name is forgotten that isn't remembered.
    IsNotRemembered,
    /// A change of the number of shards, which isn't judged.
    NotJudged,
}
