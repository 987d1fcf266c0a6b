//! Where a trace stops.
ghost use Rattle.std.specs.Prelude.{◌≡◌, fold};
ghost use Rattle.run_parts.specs.Stops.{start, course_step};

use std::alloc::AllocError;
use trace_notes::Notes;
use yard_model::{Fact, Packet};

/// How far a trace has come.
#[derive(Clone, Copy, Debug)]
pub struct Course {
    /// The line of the last order; 0 before the first.
    pub line: u32,
    /// The line with which the trace stopped, where it did.
    pub stop: Option<u32>,
}

impl Course {
    /// Before the first fact.
    pub fn start() -> Course
        ensures { result ≡ start }
    {
        Course {
            line: 0,
            stop: None,
        }
    }

    /// The course with one fact more.
    #[inline(always)]
    pub(crate) fn after(&self, fact: &Fact) -> Course
        ensures { result ≡ course_step self.now fact.now }
    {
        let mut course = *self;
        course.go_on(fact);
        course
    }

    /// It goes on by one fact, in its place.
    #[inline(always)]
    pub fn go_on(&mut self, fact: &Fact)
        ensures { self.new ≡ course_step self.old fact.now }
    {
        match fact {
            Fact::At(line) => self.line = *line,
            Fact::WireFull => self.stop = Some(self.line),
            _ => {}
        }
    }
}

/// How far a trace has come with these facts more.
pub fn course_after(course: Course, facts: &[Fact]) -> Course
    ensures { result ≡ fold course_step course facts.now }
{
    let mut course = course;
    for fact in facts {
        course = course.after(fact);
    }
    course
}

impl Notes for Course {
    ghost use Rattle.std.specs.Prelude.{◌≡◌};
    ghost use Rattle.run_parts.specs.Stops.{course};

    ghost are_of = { λ notes facts. notes ≡ course facts };

    #[inline(always)]
    fn note(&mut self, fact: &Fact) -> Result<(), AllocError> {
        self.go_on(fact);
        Ok(())
    }

    #[inline(always)]
    fn note_sent(&mut self, number: u32, packet: &Packet) -> Result<(), AllocError> {
        let _ = number;
        let _ = packet;
        Ok(())
    }
}
