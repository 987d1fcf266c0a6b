//! Nothing is noted.
use crate::notes::Notes;
use std::alloc::AllocError;
use yard_model::{Fact, Packet};

/// Notes of nothing, where only what comes of the facts is wanted.
#[derive(Clone, Copy, Debug)]
pub struct NoNotes;

impl Notes for NoNotes {
    ghost are_of = { λ notes told. Unit {0} };

    fn note(&mut self, fact: &Fact) -> Result<(), AllocError> {
        let _ = fact;
        Ok(())
    }

    fn note_sent(&mut self, number: u32, packet: &Packet) -> Result<(), AllocError> {
        let _ = number;
        let _ = packet;
        Ok(())
    }
}
