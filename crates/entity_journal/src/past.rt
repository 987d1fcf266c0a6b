//! The records of a journal, which only contracts see.
ghost use Rattle.std.specs.Prelude.{◌≡◌, List, [], ◌∷◌, ◌++◌};
ghost use Rattle.std.specs.Borrow.{ftrue};
ghost use Rattle.yard_model.specs.declared.packet.Record.{Record};

use std::marker::{Model, PhantomData};
use yard_model::Record;

/// The records of a journal so far, which contracts see and no code holds: it takes no memory.
#[derive(Drop)]
pub(crate) struct Past {
    marker: PhantomData<u8>,
    pub ghost records: { List Record },
}

impl Model for Past {
    ghost also_owns = { λ _. ftrue };
}

impl Past {
    /// None yet.
    pub(crate) fn new() -> Past
        ensures { result.records ≡ [] }
    {
        Past {
            marker: PhantomData,
        }
    }

    /// One more.
    pub(crate) fn add(&mut self, entry: &Record)
        ensures { self.new.records ≡ self.old.records ++ entry.now ∷ [] }
    {
        let _ = entry;
    }
}
