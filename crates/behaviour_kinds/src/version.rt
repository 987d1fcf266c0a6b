//! The versions of a behaviour, and what an event of the first is in the second.
ghost use Rattle.std.specs.Prelude.{◌≡◌, IsTrue};
ghost use Rattle.yard_model.specs.Behaviour.{is_in, adapt};
ghost use Rattle.behaviour_kinds.specs.Versions.{number};

use yard_model::Event;

/// Which decisions a behaviour takes: in the second the events of an account have a memo.
#[derive(Clone, Copy, Debug, PartialEq, Eq)]
pub enum Version {
    /// Version 1.
    First,
    /// Version 2.
    Second,
}

impl Version {
    /// The version of this number, 1 or 2.
    pub fn of(version: u8) -> Version
        requires { IsTrue (is_in 1 2 version) }
        ensures { number result ≡ version }
    {
        if version == 2 {
            Version::Second
        } else {
            Version::First
        }
    }

    /// Its number.
    pub fn number(self) -> u8
        ensures value { result ≡ number self }
        ensures range { IsTrue (is_in 1 2 result) }
    {
        match self {
            Version::First => 1,
            Version::Second => 2,
        }
    }
}

/// The event of version 2.
pub fn adapted(event: &Event) -> Event
    ensures { result ≡ adapt event.now }
{
    match event {
        Event::Deposited(k) => Event::DepositedWithMemo(0, *k),
        Event::Withdrawn(k) => Event::WithdrawnWithMemo(0, *k),
        _ => *event,
    }
}
