//! Accounts.
ghost use Rattle.std.specs.Prelude.{◌≡◌, ◌≤◌};
ghost use Rattle.yard_model.specs.declared.event.Kind.TheVariants as kind;
ghost use Rattle.behaviour_kinds.specs.declared.version.Version.TheVariants as version;
ghost use Rattle.behaviour_kinds.specs.Versions.{number};
ghost use Rattle.yard_model.specs.Behaviour.{decide, decide_open, decide_shut, in_version, with_memo, pays_in, takes_out, most};

use crate::decisions::{MOST, answered, refused, taken};
use crate::version::{Version, adapted};
use behaviour_core::{Behaviour, Decision};
use yard_model::{Command, Event, Kind, State};

/// A bank account: none yet, open with a balance of at most 10^15, or closed. Amounts are 1 to
/// 1,000,000.
///
/// Refusals: 1 where no account is open, 2 where one is or was and would be created again, 3 where
/// more would be taken out than is there, 4 where an account with a balance would be closed, 5 where
/// the balance would pass 10^15, 6 for every command with a memo in version 1. Other answers are the
/// balance afterwards. In version 2 what is paid in and taken out has a memo, which is 0 where the
/// command has none.
#[derive(Clone, Copy, Debug, PartialEq, Eq)]
pub struct Account {
    version: Version,
}

impl Account {
    /// Of version 1.
    pub fn new() -> Account
        ensures { result ≡ record { version = version.First } }
    {
        Account {
            version: Version::First,
        }
    }
}

impl Behaviour for Account {
    ghost kind_of = { λ _. kind.Account };

    ghost version_of = { λ b. number b.version };

    fn kind(&self) -> Kind {
        Kind::Account
    }

    fn version(&self) -> u8 {
        self.version.number()
    }

    fn at_version(self, version: u8) -> Account {
        Account {
            version: Version::of(version),
        }
    }

    fn empty(&self) -> State {
        State::empty(Kind::Account)
    }

    fn decide(&self, state: &State, command: &Command) -> Decision {
        match state {
            State::Open { balance, .. } => decide_open(self.version, *balance, command),
            _ => decide_shut(self.version, state, command),
        }
    }

    fn apply(&self, state: &State, event: &Event) -> State {
        state.after(event)
    }

    fn apply_in_place(&self, state: &mut State, event: &Event) {
        *state = state.after(event);
    }

    fn adapt(&self, event: &Event) -> Event {
        adapted(event)
    }
}

/// What an account does that isn't open.
fn decide_shut(version: Version, state: &State, command: &Command) -> Decision
    ensures { result ≡ decide_shut (number version) state.now command.now }
{
    match (state, command) {
        (State::NoAccount, Command::Create) => taken(Event::Created, 0),
        (_, Command::Create) => refused(2),
        (_, Command::DepositWithMemo(..) | Command::WithdrawWithMemo(..)) => {
            with_memo(version, refused(1))
        }
        _ => refused(1),
    }
}

/// What an open account with this balance does.
fn decide_open(version: Version, balance: u64, command: &Command) -> Decision
    requires { balance ≤ most }
    ensures { result ≡ decide_open (number version) balance command.now }
{
    match command {
        Command::Create => refused(2),
        Command::Deposit(k) => pay_in(balance, *k, in_version(version, Event::Deposited(*k))),
        Command::Withdraw(k) => take_out(balance, *k, in_version(version, Event::Withdrawn(*k))),
        Command::DepositWithMemo(m, k) => with_memo(
            version,
            pay_in(balance, *k, Event::DepositedWithMemo(*m, *k)),
        ),
        Command::WithdrawWithMemo(m, k) => with_memo(
            version,
            take_out(balance, *k, Event::WithdrawnWithMemo(*m, *k)),
        ),
        Command::Balance => answered(balance),
        Command::Close if balance == 0 => taken(Event::AccountClosed, 0),
        Command::Close => refused(4),
        _ => refused(0),
    }
}

/// The event of version 1, as this version tells it.
fn in_version(version: Version, event: Event) -> Event
    ensures { result ≡ in_version (number version) event }
{
    match version {
        Version::First => event,
        Version::Second => adapted(&event),
    }
}

/// What a command with a memo leads to, which version 1 refuses.
fn with_memo(version: Version, decision: Decision) -> Decision
    ensures { result ≡ with_memo (number version) decision }
{
    match version {
        Version::First => refused(6),
        Version::Second => decision,
    }
}

/// Pays in, with this event.
fn pay_in(balance: u64, k: u32, event: Event) -> Decision
    requires { balance ≤ most }
    ensures { result ≡ pays_in balance k event }
{
    let sum = balance + u64::from(k);
    if sum > MOST {
        return refused(5);
    }
    taken(event, sum)
}

/// Takes out, with this event.
fn take_out(balance: u64, k: u32, event: Event) -> Decision
    ensures { result ≡ takes_out balance k event }
{
    let amount = u64::from(k);
    if amount > balance {
        return refused(3);
    }
    taken(event, balance - amount)
}
