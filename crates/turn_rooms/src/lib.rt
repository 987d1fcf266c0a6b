//! How much room a turn of a node wants: in the lists of the slots that it holds, and for what it posts. A law
//! is a function that does nothing, whose contract is the law.
#![tactic(auto)]

mod rooms;

pub use rooms::{AMPLE_ROOM, MOST_PAIRS, MOST_POSTED, TURN_ROOM, rooms_fit};
