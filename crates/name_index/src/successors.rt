//! Which place came after which. Nothing is said of it: what stands at such a place is to be compared.
use std::alloc::{AllocError, Global};

/// Of each place in a list, which one came after it the last time. Names often come in the same order again;
/// then the next one is where a name stands (`NameIndex::place_near`).
#[derive(Drop)]
pub struct Successors {
    after: Vec<u16>,
    last: usize,
}

impl Successors {
    /// Of the places in a list of so many. The only error is want of memory.
    pub fn new(alloc: Global, count: usize) -> Result<Successors, AllocError> {
        let after = vec![in alloc; 0u16; count]?;
        Ok(Successors { after, last: 0 })
    }

    /// The place that came next the last time.
    #[inline(always)]
    pub fn next(&self) -> usize {
        match self.after.get(self.last) {
            Some(place) => *place as usize,
            None => 0,
        }
    }

    /// This place has come.
    #[inline(always)]
    pub fn note(&mut self, place: usize) {
        if let Some(cell) = self.after.get_mut(self.last) {
            *cell = u16::try_from(place).unwrap_or(0);
        }
        self.last = place;
    }
}
