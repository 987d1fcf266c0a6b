//! The calls of a stream, of which one may fail.
ghost use Rattle.std.specs.Prelude.{◌≡◌, ◌+◌, ◌-◌, ◌^◌, min, false, ◌↔◌, IsTrue};

use yard_io::FaultCount;

/// Counts the calls of a stream, from 1, and knows which one fails; none where its number is 0.
///
/// The count stands still at the greatest `u32`.
#[derive(Drop)]
pub(crate) struct Calls {
    made: u32,
    failing: u32,
    faults: FaultCount,
}

impl Calls {
    /// No call yet; the one of this number is to fail.
    pub(crate) fn new(failing: u32) -> Calls
        ensures made { result.made ≡ 0 }
        ensures failing { result.failing ≡ failing }
        ensures faults { result.faults ≡ 0 }
    {
        Calls {
            made: 0,
            failing,
            faults: FaultCount::new(),
        }
    }

    /// How many there were.
    pub(crate) fn made(&self) -> u32
        ensures { result ≡ self.now.made }
    {
        self.made
    }

    /// Counts one call, and tells whether it fails, which is a fault then.
    pub(crate) fn fails_next(&mut self) -> bool
        ensures planned { IsTrue result ↔ (self.new.made ≡ self.old.failing) }
        ensures made { self.new.made ≡ min (self.old.made + 1) (2 ^ 32 - 1) }
        ensures failing { self.new.failing ≡ self.old.failing }
        ensures once { IsTrue result → self.new.faults ≡ self.old.faults + 1 }
        ensures no_other { result ≡ false → self.new.faults ≡ self.old.faults }
    {
        self.made = self.made.saturating_add(1);
        let is_now = self.made == self.failing;
        if is_now {
            self.faults.raise();
        }
        is_now
    }

    /// A call fails that was not to.
    pub(crate) fn fail(&mut self)
        ensures made { self.new.made ≡ self.old.made }
        ensures failing { self.new.failing ≡ self.old.failing }
        ensures once { self.new.faults ≡ self.old.faults + 1 }
    {
        self.faults.raise();
    }

    /// None was made again, and the one of this number is to fail. The faults stay.
    pub(crate) fn restart(&mut self, failing: u32)
        ensures made { self.new.made ≡ 0 }
        ensures failing { self.new.failing ≡ failing }
        ensures faults { self.new.faults ≡ self.old.faults }
    {
        self.made = 0;
        self.failing = failing;
    }
}
