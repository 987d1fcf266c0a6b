//! The rooms, and that they fit.
ghost use Rattle.turn_rooms.specs.Rooms.{RoomsFit};

/// So many entries a turn may write to a queue, or to the coordinator's list, that its node holds.
pub const TURN_ROOM: u32 = 300;

/// For how many entries there is room where room is made anew, so that many turns may write before it is so
/// again.
pub const AMPLE_ROOM: u32 = 364;

/// So many items a turn tells and posts at most, and five more for each packet that a region may buffer.
pub const MOST_POSTED: u32 = 28_000;

/// So many pairs of a producer and a name a script has at most.
pub const MOST_PAIRS: u32 = 4_000;

/// The rooms are the limits' ones, and leave room for what a turn writes and posts.
pub fn rooms_fit()
    ensures { RoomsFit }
{}
