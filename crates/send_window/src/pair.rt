//! What a producer knows of one entity.
ghost use Rattle.std.specs.Prelude.{◌≡◌, ℕ, ◌+◌, ◌-◌, ◌≤◌, min, max, nat_lt, [], ◌∷◌, if◌then◌else◌};
ghost use Rattle.yard_model.specs.Words.{from_to};
ghost use Rattle.send_window.specs.Window.{allowed_of, numbers_of};

/// What a producer knows of one entity (Akka 2.6, Reliable Delivery: the state of a producer's flow
/// control). Numbers are those of its commands to this entity, from 1; each is 0 before the first.
#[derive(Clone, Copy)]
pub struct Pair {
    /// The number that was asked up to.
    pub demand: u32,
    /// The number that was sent up to.
    pub sent: u32,
    /// How many commands are queued.
    pub queued: u32,
    /// The number that is confirmed up to.
    pub confirmed: u32,
}

/// Numbers that are to be routed: those after the first up to the last.
#[derive(Clone, Copy)]
pub struct Sends {
    /// The number before the first of them.
    pub after: u32,
    /// The last of them.
    pub last: u32,
}

impl Pair {
    /// Once the queue is granted, in which so many commands are queued and confirmed.
    pub fn granted(queued: u32, confirmed: u32) -> Pair
        ensures { result ≡ record { demand = 0; sent = 0; queued = queued; confirmed = confirmed } }
    {
        Pair {
            demand: 0,
            sent: 0,
            queued,
            confirmed,
        }
    }

    /// It is asked up to this number.
    pub fn ask(&mut self, up_to: u32)
        ensures { self.new ≡ record self.old { demand = max self.old.demand up_to } }
    {
        self.demand = larger(self.demand, up_to);
    }

    /// It is sent up to this number.
    pub fn mark(&mut self, number: u32)
        ensures { self.new ≡ record self.old { sent = max self.old.sent number } }
    {
        self.sent = larger(self.sent, number);
    }

    /// So many commands are queued.
    pub fn queue(&mut self, number: u32)
        ensures { self.new ≡ record self.old { queued = number } }
    {
        self.queued = number;
    }

    /// It is confirmed up to this number.
    pub fn confirm(&mut self, number: u32)
        ensures { self.new ≡ record self.old { confirmed = number } }
    {
        self.confirmed = number;
    }

    /// The number that may be sent up to: what is queued, up to what was asked, or to the first that
    /// isn't confirmed.
    pub fn allowed(&self) -> u32
        ensures { result ≡ allowed_of self.now }
    {
        if self.queued <= self.confirmed {
            return self.queued;
        }
        let up_to = larger(self.demand, self.confirmed + 1);
        if self.queued < up_to {
            self.queued
        } else {
            up_to
        }
    }

    /// What may be sent and wasn't yet.
    pub fn to_push(&self) -> Sends
        ensures { numbers_of result ≡ from_to (max self.now.sent self.now.confirmed + 1) (allowed_of self.now) }
    {
        Sends {
            after: larger(self.sent, self.confirmed),
            last: self.allowed(),
        }
    }

    /// What was sent from this number on and isn't confirmed.
    pub fn to_resend(&self, from: u32) -> Sends
        ensures { numbers_of result ≡ from_to (max from (self.now.confirmed + 1)) (allowed_of self.now) }
    {
        let before = if from > 0 { from - 1 } else { 0 };
        Sends {
            after: larger(before, self.confirmed),
            last: self.allowed(),
        }
    }

    /// Whether a command is queued that isn't confirmed.
    pub fn waits(&self) -> bool
        ensures { result ≡ nat_lt self.now.confirmed self.now.queued }
    {
        self.confirmed < self.queued
    }

    /// The first that isn't confirmed, where one waits.
    pub fn to_repeat(&self) -> Sends
        ensures { numbers_of result ≡ (if nat_lt self.now.confirmed self.now.queued then (self.now.confirmed + 1) ∷ [] else []) }
    {
        let last = if self.waits() {
            self.confirmed + 1
        } else {
            self.confirmed
        };
        Sends {
            after: self.confirmed,
            last,
        }
    }
}

/// The larger of two numbers.
pub fn larger(a: u32, b: u32) -> u32
    ensures { result ≡ max a b }
{
    if a < b { b } else { a }
}
