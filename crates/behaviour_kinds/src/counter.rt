//! Counters.
ghost use Rattle.std.specs.Prelude.{◌≡◌, ◌≤◌, IsTrue};
ghost use Rattle.yard_model.specs.declared.event.Kind.TheVariants as kind;
ghost use Rattle.behaviour_kinds.specs.declared.version.Version.TheVariants as version;
ghost use Rattle.behaviour_kinds.specs.Versions.{number};
ghost use Rattle.yard_model.specs.declared.event.Event.TheVariants as event;
ghost use Rattle.yard_model.specs.Behaviour.{apply, decide, is_applicable, most};

use crate::decisions::{MOST, answered, refused, taken};
use crate::version::{Version, adapted};
use behaviour_core::{Behaviour, Decision};
use yard_model::{Command, Event, Kind, State};

/// A running total, from 0, at most 10^15.
///
/// `Add` of 1 to 1000 is refused for reason 1 where the total would pass 10^15. Every answer is the
/// total afterwards.
#[derive(Clone, Copy, Debug, PartialEq, Eq)]
pub struct Counter {
    version: Version,
}

impl Counter {
    /// Of version 1.
    pub fn new() -> Counter
        ensures { result ≡ record { version = version.First } }
    {
        Counter {
            version: Version::First,
        }
    }
}

impl Behaviour for Counter {
    ghost kind_of = { λ _. kind.Counter };

    ghost version_of = { λ b. number b.version };

    fn kind(&self) -> Kind {
        Kind::Counter
    }

    fn version(&self) -> u8 {
        self.version.number()
    }

    fn at_version(self, version: u8) -> Counter {
        Counter {
            version: Version::of(version),
        }
    }

    fn empty(&self) -> State {
        State::empty(Kind::Counter)
    }

    fn decide(&self, state: &State, command: &Command) -> Decision {
        let State::Counter(total) = state else {
            unreachable!()
        };
        match command {
            Command::Add(k) => add(*total, *k),
            _ => answered(*total),
        }
    }

    fn apply(&self, state: &State, event: &Event) -> State {
        state.after(event)
    }

    #[inline(always)]
    fn apply_in_place(&self, state: &mut State, event: &Event) {
        match event {
            Event::Added(k) => add_to(state, *k),
            _ => *state = state.after(event),
        }
    }

    fn adapt(&self, event: &Event) -> Event {
        adapted(event)
    }
}

/// A counter's total rises.
#[inline(always)]
fn add_to(state: &mut State, k: u16)
    requires { IsTrue (is_applicable state.old (event.Added k)) }
    ensures { state.new ≡ apply state.old (event.Added k) }
{
    match state {
        State::Counter(total) => *total += u64::from(k),
        _ => {}
    }
}

/// Adds, the same in both versions.
fn add(total: u64, k: u16) -> Decision
    requires { total ≤ most }
    ensures { result ≡ decide 1 (State.Counter total) (Command.Add k) }
{
    let sum = total + u64::from(k);
    if sum > MOST {
        return refused(1);
    }
    taken(Event::Added(k), sum)
}
