//! What is told, entered into a batch as it is told.
ghost use Rattle.std.specs.Prelude.{◌≡◌, [], IfOk};

use disk_log::Batch;
use log_orders::enter;
use std::alloc::{AllocError, Global};
use trace_notes::Notes;
use yard_model::{Fact, Packet};

/// The lines of the entries that were told so far, as they will stand in a log. So no list of facts is kept.
#[derive(Drop)]
pub struct Entered {
    batch: Batch,
}

impl Entered {
    /// Nothing is told yet.
    pub fn new(alloc: Global) -> Result<Entered, AllocError>
        ensures { IfOk result (λ e. e.batch ≡ []) }
    {
        Ok(Entered {
            batch: Batch::new(alloc)?,
        })
    }

    /// The batch.
    pub fn batch(&self) -> &Batch
        ensures { result.now ≡ self.now.batch }
    {
        &self.batch
    }
}

impl Notes for Entered {
    ghost use Rattle.log_orders.specs.Gathered.{Gathers};

    ghost are_of = { λ notes facts. Gathers facts notes.batch };

    fn note(&mut self, fact: &Fact) -> Result<(), AllocError> {
        enter(&mut self.batch, fact)
    }

    fn note_sent(&mut self, number: u32, packet: &Packet) -> Result<(), AllocError> {
        let _ = number;
        let _ = packet;
        Ok(())
    }
}
