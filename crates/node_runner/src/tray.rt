//! What the turns of a worker told, until it is posted.
ghost use Rattle.std.specs.Prelude.{◌≡◌, []};

use std::alloc::Global;
use std::marker::PhantomData;
use yard_model::{Body, Fact, Out, Packet, Slot, State};

/// What a turn of the node told, until it is published, and the packets that are to be posted after the turn.
#[derive(Drop)]
pub struct Tray {
    pub(crate) out: Out,
    pub(crate) posts: Vec<Packet>,
    holds: PhantomData<(Fact, Packet, Body, State, Slot)>,
}

impl Tray {
    /// Nothing was told. It takes no memory.
    pub fn new(alloc: Global) -> Tray
        ensures out { result.out.items ≡ [] }
        ensures posts { result.posts.items ≡ [] }
    {
        Tray {
            out: Out::new(alloc),
            posts: Vec::new(alloc),
            holds: PhantomData,
        }
    }
}
