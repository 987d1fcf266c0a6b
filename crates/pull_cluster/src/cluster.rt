//! The workers, the wire and the producer: what is kept of each fact that is told.
ghost use Rattle.std.specs.Prelude.{◌≡◌, ◌<◌, true, [], ◌∷◌, ◌++◌, map, IfOk, OnOk};
ghost use Rattle.yard_model.specs.World.{wire_limit};
ghost use Rattle.durable_queue.specs.Queue.{Queue};
ghost use Rattle.pull_laws.specs.Pulling.{nothing_told};
ghost use Rattle.pull_laws.specs.PullSafe.{IsPulled};
ghost use Rattle.pull_cluster.specs.Kept.{asked_by};

use durable_queue::QueueStore;
use job_board::{Board, Doers, Parcel, Parcels};
use std::alloc::{AllocError, Global};
use std::marker::{Model, PhantomData};
use trace_notes::Story;
use yard_model::{Charter, Command, Fact, Facts, Incarnation, Packet, ProducerNo, Slot};

/// The workers that are up, the packets between them and the producer, and the producer's queue; seen as the
/// script and what was told so far. A job is named by its place among the sends of producer 1, from 0.
#[derive(Drop)]
pub struct Cluster {
    pub(crate) charter: Charter,
    pub(crate) producer: ProducerNo,
    pub(crate) story: Story,
    pub(crate) full: bool,
    pub(crate) queue: QueueStore,
    pub(crate) sent: usize,
    pub(crate) board: Board,
    pub(crate) doers: Doers,
    pub(crate) numbers: [u32; 16],
    pub(crate) parcels: Parcels,
    pub(crate) alloc: Global,
    pub(crate) holds: PhantomData<(Packet, Command, Slot, Incarnation)>,
}

impl Model for Cluster {
    ghost use Rattle.pull_cluster.specs.Cluster.{Cluster};
    ghost use Rattle.pull_cluster.specs.Kept.{IsKept, told_of};

    ghost Value = { Cluster };

    ghost view = { λ k. record { script = k.charter; pulling = told_of k.charter k.story.told k.full } };

    ghost invariant = { λ k. IsKept k.charter k.producer k.story.told k.queue k.sent k.board k.doers k.numbers k.parcels };
}

impl Cluster {
    /// No worker is up, and nothing was told. The only error is want of memory.
    pub fn new(
        alloc: Global,
        charter: &Charter,
        producer: ProducerNo,
    ) -> Result<Cluster, AllocError>
        requires first { producer ≡ 1 }
        requires pulled { IsPulled charter.now }
        ensures { IfOk result (λ k. k ≡ record { script = charter.now; pulling = nothing_told charter.now wire_limit }) }
    {
        let count = charter.sends(producer).len();
        let queue = QueueStore::new(alloc, charter, producer)?;
        let board = Board::new(alloc, count)?;
        let doers = Doers::new(alloc, count)?;
        let parcels = Parcels::new(alloc)?;
        let charter = charter.copy()?;
        Ok(Cluster {
            charter,
            producer,
            story: Story::new(),
            full: false,
            queue,
            sent: 0,
            board,
            doers,
            numbers: [0; 16],
            parcels,
            alloc,
            holds: PhantomData,
        })
    }
}

/// Room for one entry more of the queue, and the fact that it is, behind the others. The only error is want of
/// memory, and then the queue has the same entries.
pub(crate) fn push_entry(
    queue: &mut QueueStore,
    told: &Fact,
    out: &mut Facts,
) -> Result<(), AllocError>
    ensures script { queue.new.script ≡ queue.old.script }
    ensures producer { queue.new.producer ≡ queue.old.producer }
    ensures entries { queue.new.entries ≡ queue.old.entries }
    ensures spare { OnOk result (0 < queue.new.spare) }
    ensures out { OnOk result (out.new ≡ out.old ++ told.now ∷ []) }
{
    queue.reserve(1)?;
    out.push_copy(told)
}

/// Notes that a worker has asked, where it asks by this packet.
pub(crate) fn note_ask(board: &mut Board, parcel: &Parcel)
    ensures { board.new ≡ record { states = board.old.states; seats = asked_by parcel.now board.old.seats } }
{
    match parcel {
        Parcel::Ask(who) => board.ask(who),
        _ => {}
    }
}
