//! A world of work pulling, line by line.
ghost use Rattle.std.specs.Prelude.{◌≡◌, ℕ, ◌+◌, ◌<◌, ◌++◌, None, Some, IfOk, IfNone, OnOk, OnErr, slice_get, IsTrue, true};
ghost use Rattle.yard_model.specs.World.{wire_limit};
ghost use Rattle.pull_laws.specs.Pulling as pulling;
ghost use Rattle.pull_laws.specs.PullSafe.{IsPulled, pull_safe};
ghost use Rattle.pull_laws.specs.PullText.{pull_report};
ghost use Rattle.work_pulling.specs.Played.{NotCut};
ghost use Rattle.pull_cluster.specs.Cluster.{Leads};
ghost use Rattle.work_pulling.specs.Played.{Steps, Answers, told_by};

use crate::fault::PullFault;
use crate::lines::play_line;
use crate::report::push_jobs;
use pull_cluster::Cluster;
use pull_laws::safety::{line_is_next, pulled_is_safe};
use std::alloc::{AllocError, Global};
use std::marker::{Model, PhantomData};
use std::snapshot::Snapshot;
use yard_model::{Charter, Fact, Facts, Line, Order, ProducerNo};

/// The workers of a script and the producer of its jobs, one line after the other. Seen as the script, how many of
/// its lines were played, and what ended it.
#[derive(Drop)]
pub struct PullWorld {
    script: Snapshot<Charter>,
    cluster: Cluster,
    count: u32,
    fault: Option<PullFault>,
}

impl Model for PullWorld {
    ghost use Rattle.work_pulling.specs.Played.{Played, IsPlayed};

    ghost Value = { Played };

    ghost view = { λ w. record { script = w.script.value; count = w.count; fault = w.fault } };

    ghost invariant = { λ w. IsPlayed w.script.value w.cluster w.count w.fault };
}

impl PullWorld {
    /// The world of a script before its first line. The only error is want of memory.
    pub fn new(alloc: Global, charter: &Charter) -> Result<PullWorld, AllocError>
        requires { IsPulled charter.now }
        ensures { IfOk result (λ w. w ≡ record { script = charter.now; count = 0; fault = None }) }
    {
        let Some(producer) = ProducerNo::new(1) else {
            return Err(AllocError);
        };
        let cluster = Cluster::new(alloc, charter, producer)?;
        Ok(PullWorld {
            script: Snapshot::of(charter),
            cluster,
            count: 0,
            fault: None,
        })
    }

    /// Plays the script's next line, and tells its facts. After an error each later step answers it again.
    pub fn step(&mut self, line: &Line, out: &mut Facts) -> Result<(), PullFault>
        requires { IfNone self.old.fault (slice_get self.old.script.orders self.old.count ≡ Some line.now) }
        ensures steps { Steps self.old out.old result self.new out.new }
        ensures safe { pull_safe self.new.script (told_by self.new).told ≡ true }
    {
        pulled_is_safe();
        if let Some(fault) = self.fault {
            return Err(fault);
        }
        self.play(line, out)
    }

    /// Plays the next line, where the world isn't spent.
    fn play(&mut self, line: &Line, out: &mut Facts) -> Result<(), PullFault>
        requires going { self.old.fault ≡ None }
        requires next { slice_get self.old.script.orders self.old.count ≡ Some line.now }
        ensures { Answers self.old out.old result self.new out.new }
    {
        line_is_next();
        match play_line(&mut self.cluster, line, out) {
            Ok(()) => {}
            Err(_) => {
                self.fault = Some(PullFault::OutOfMemory);
                return Err(PullFault::OutOfMemory);
            }
        }
        self.count += 1;
        if self.cluster.is_full() {
            self.fault = Some(PullFault::WireFull);
            return Err(PullFault::WireFull);
        }
        Ok(())
    }

    /// Appends the report of the jobs. The only error is want of memory.
    pub fn push_report(&self, text: &mut Vec<u8>) -> Result<(), AllocError>
        requires { NotCut self.now.fault }
        ensures { OnOk result (text.new.items ≡ text.old.items ++ pull_report (told_by self.now).told) }
    {
        push_jobs(&self.cluster, text)
    }
}
