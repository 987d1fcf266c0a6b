//! Where names of sends may stand. Nothing is said of hints: what stands there is compared.
use name_index::Successors;
use std::alloc::{AllocError, Global};
use yard_model::{Charter, ProducerNo};

/// Of each producer's sends, in their order, where the name of each may stand; and which place came after
/// each.
#[derive(Drop)]
pub(crate) struct Hints {
    sends: Vec<Vec<u16>>,
    successors: Successors,
}

impl Hints {
    /// Room for a hint of each send of a charter, among so many names. The only error is want of memory.
    pub(crate) fn new(alloc: Global, charter: &Charter, names: usize) -> Result<Hints, AllocError> {
        let sends = rooms_of(alloc, charter)?;
        let successors = Successors::new(alloc, names)?;
        Ok(Hints { sends, successors })
    }

    /// Where the name of the next send may stand: sends often go to the same names in the same order.
    #[inline(always)]
    pub(crate) fn next(&self) -> usize {
        self.successors.next()
    }

    /// It is noted where the name of the next send stands, which is one of this producer.
    #[inline(always)]
    pub(crate) fn note(&mut self, p: ProducerNo, place: usize) {
        self.successors.note(place);
        if let Some(hints) = self.sends.get_mut(p.get() as usize - 1) {
            push_within(hints, u16::try_from(place).unwrap_or(0));
        }
    }

    /// Of the sends of a producer, in their order.
    pub(crate) fn of_producer(&self, p: ProducerNo) -> &[u16] {
        match self.sends.get(p.get() as usize - 1) {
            Some(hints) => hints.as_slice(),
            None => &[],
        }
    }
}

/// For each producer of a charter, room for a hint of each of its sends. The only error is want of memory.
fn rooms_of(alloc: Global, charter: &Charter) -> Result<Vec<Vec<u16>>, AllocError> {
    let producers = charter.config().producers;
    let mut rooms = Vec::with_capacity(alloc, producers as usize)?;
    for place in 0..producers {
        let room = Vec::with_capacity(alloc, sends_of(charter, place))?;
        rooms.push(room)?;
    }
    Ok(rooms)
}

/// How many sends the producer at this place has.
fn sends_of(charter: &Charter, place: u8) -> usize {
    match ProducerNo::new(place.wrapping_add(1)) {
        Some(p) => charter.sends(p).len(),
        None => 0,
    }
}

/// One hint more, where there is room for it.
fn push_within(hints: &mut Vec<u16>, hint: u16) {
    if hints.len() < hints.capacity() {
        hints.push_reserved(hint);
    }
}
