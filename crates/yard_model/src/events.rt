//! The events of one record.
ghost use Rattle.std.specs.Prelude.{◌≡◌, ◌<◌, [], ◌∷◌, ◌++◌, length};
ghost use Rattle.std.specs.Cmp.{partial_equiv_from_equiv};
ghost use Rattle.std.specs.Cmp.Lexicographic.{pointwise};
ghost use Rattle.std.proofs.lemmas.Cmp.{lists_equiv};
ghost use Rattle.yard_model.specs.contracts.event.EventEq.TheImpl.Laws as event_laws;

use crate::event::Event;
use std::marker::Model;

/// At most four events, oldest first; seen as their list.
#[derive(Clone, Copy, Debug)]
pub struct Events {
    cells: [Event; 4],
    len: u8,
}

impl Model for Events {
    ghost use Rattle.std.specs.Prelude.{List, length, take};
    ghost use Rattle.yard_model.specs.declared.event.Event.{Event};
    ghost use Rattle.yard_model.specs.Events.{no_event};
    ghost use Rattle.yard_model.specs.Padded.{IsPadded, padded, padded_length, padded_cells};

    ghost Value = { List Event };

    ghost view = { λ n. take n.len n.cells };

    ghost invariant = { λ n. IsPadded 4 no_event n.cells n.len };

    ghost inverse = { λ v. record { cells = padded 4 no_event v; len = length v } };

    ghost inverse_ok = { λ n h i. record { cells = padded_cells h i; len = padded_length h i } };
}

impl Events {
    /// No events.
    pub fn empty() -> Events
        ensures { result ≡ [] }
    {
        Events {
            cells: [Event::Created; 4],
            len: 0,
        }
    }

    /// These events and a later one.
    pub fn with(self, item: Event) -> Events
        requires { length self < 4 }
        ensures { result ≡ self ++ item ∷ [] }
    {
        let mut events = self;
        events.cells[events.len as usize] = item;
        events.len += 1;
        events
    }

    /// The events, oldest first.
    pub fn as_slice(&self) -> &[Event]
        ensures items { result.now ≡ self.now }
        ensures fits { length self.now < 5 }
    {
        &self.cells[..self.len as usize]
    }
}

impl PartialEq for Events {
    ghost eq = { pointwise ⟦<Event as PartialEq>⟧.eq };

    ghost laws = { partial_equiv_from_equiv (lists_equiv event_laws.laws-law) };

    fn eq(&self, other: &Events) -> bool {
        self.as_slice() == other.as_slice()
    }
}

impl Eq for Events {
    ghost laws = { lists_equiv event_laws.laws-law };
}
