//! Each fact that is told, and what is kept of it.
ghost use Rattle.std.specs.Prelude.{◌≡◌, ℕ, ◌+◌, ◌<◌, true, false, List, [], ◌∷◌, length, Some, None, OnOk};
ghost use Rattle.yard_model.specs.declared.charter.Sending.{Sending};
ghost use Rattle.yard_model.specs.declared.fact.Fact.TheVariants as fact;
ghost use Rattle.yard_model.specs.declared.incarnation.Cause.TheVariants as cause;
ghost use Rattle.yard_model.specs.declared.incarnation.Slot.TheVariants as slot;
ghost use Rattle.yard_model.specs.Behaviour.{is_in};
ghost use Rattle.yard_model.specs.SlotReads.{epoch};
ghost use Rattle.yard_model.specs.Words.{is_among};
ghost use Rattle.pull_laws.specs.Next.{IsNextSend};
ghost use Rattle.pull_laws.specs.Pulled.{members, worker_at, last_number, packet, queue, is_running, jobs, waiting, is_confirmed, is_free};
ghost use Rattle.pull_laws.specs.Pulling.{tell, post, take_queue, queue_job};
ghost use Rattle.pull_cluster.specs.Cluster.{IsOfJobs, Leads, MayPost, is_plain, name_at, parcel_fact};

use crate::cluster::{Cluster, note_ask, push_entry};
use job_board::{LIMIT, Parcel};
use std::alloc::AllocError;
use yard_model::{Cause, Command, EntityName, Fact, Facts, Incarnation, NodeNo, Slot};

impl Cluster {
    /// A fact that changes no word: `at`, `nothing` or `wirefull`. The only error is want of memory.
    pub fn tell_plain(&mut self, told: &Fact, out: &mut Facts) -> Result<(), AllocError>
        requires { is_plain told.now ≡ true }
        ensures { OnOk result (Leads (tell told.now) self.old self.new out.old out.new) }
    {
        out.push_copy(told)?;
        self.story.tell(told);
        Ok(())
    }

    /// A worker is up, in the next incarnation of its node. The only error is want of memory.
    pub fn tell_up(&mut self, who: &Incarnation, out: &mut Facts) -> Result<(), AllocError>
        requires next { who.now.number ≡ last_number who.now.node self.old.pulling.told + 1 }
        requires down { worker_at who.now.node self.old.pulling.told ≡ None }
        ensures { OnOk result (Leads (tell (fact.Up who.now)) self.old self.new out.old out.new) }
    {
        let told = Fact::Up(*who);
        out.push_copy(&told)?;
        self.board.add(self.alloc, who)?;
        self.story.tell(&told);
        self.numbers[who.node.get() as usize - 1] = who.number;
        Ok(())
    }

    /// A worker is gone; what was given to it is free. The only error is want of memory.
    pub fn tell_gone(&mut self, who: &Incarnation, out: &mut Facts) -> Result<(), AllocError>
        requires { is_among who.now (members self.old.pulling.told) ≡ true }
        ensures { OnOk result (Leads (tell (fact.Gone who.now)) self.old self.new out.old out.new) }
    {
        let told = Fact::Gone(*who);
        out.push_copy(&told)?;
        self.story.tell(&told);
        self.board.remove(who);
        Ok(())
    }

    /// A packet is delivered. The only error is want of memory.
    pub fn tell_got(
        &mut self,
        number: u32,
        parcel: &Parcel,
        out: &mut Facts,
    ) -> Result<(), AllocError>
        requires above { 0 < number }
        requires it { packet number self.old.pulling.told ≡ Some (parcel_fact self.old.script number parcel.now) }
        ensures { OnOk result (Leads (tell (fact.Got number)) self.old self.new out.old out.new) }
    {
        let told = Fact::Got(number);
        out.push_copy(&told)?;
        self.story.tell(&told);
        self.parcels.got(number);
        note_ask(&mut self.board, parcel);
        Ok(())
    }

    /// The producer runs at a node, in the next epoch: no job is given, and no worker has asked. The only error is
    /// want of memory.
    pub fn tell_granted(&mut self, node: NodeNo, out: &mut Facts) -> Result<(), AllocError>
        requires rests { is_running self.old.pulling.told ≡ false }
        requires node { is_in 1 self.old.script.config.nodes node ≡ true }
        requires few { epoch (queue self.old.pulling.told) < 4294967295 }
        ensures { OnOk result (Leads (take_queue node) self.old self.new out.old out.new) }
    {
        let number = self.queue.epoch() + 1;
        let who = Incarnation { node, number };
        let told = Fact::Granted(Slot::Queue(self.producer), number, *(&who));
        push_entry(&mut self.queue, &told, out)?;
        self.story.tell(&told);
        self.queue.grant(who);
        self.board.free_given();
        self.board.forget_asks();
        Ok(())
    }

    /// The producer rests: each job that was given is free. The only error is want of memory.
    pub fn tell_freed(&mut self, out: &mut Facts) -> Result<(), AllocError>
        requires { is_running self.old.pulling.told ≡ true }
        ensures { OnOk result (Leads (tell (fact.Freed (slot.Queue 1) (epoch (queue self.old.pulling.told)) cause.Released)) self.old self.new out.old out.new) }
    {
        let told = Fact::Freed(
            Slot::Queue(self.producer),
            self.queue.epoch(),
            Cause::Released,
        );
        push_entry(&mut self.queue, &told, out)?;
        self.story.tell(&told);
        self.queue.free(Cause::Released);
        self.board.free_given();
        Ok(())
    }

    /// A job waits to be queued. The only error is want of memory.
    pub fn tell_waits(
        &mut self,
        entity: EntityName,
        command: Command,
        out: &mut Facts,
    ) -> Result<(), AllocError>
        requires { IsNextSend self.old.script self.old.pulling.told entity command }
        ensures { OnOk result (Leads (tell (fact.Waits 1 entity command)) self.old self.new out.old out.new) }
    {
        let told = Fact::Waits(self.producer, entity, command);
        out.push_copy(&told)?;
        self.story.tell(&told);
        self.sent += 1;
        Ok(())
    }

    /// The next job is sent, and queued at once: it is free. The only error is want of memory.
    pub fn tell_sent(
        &mut self,
        entity: EntityName,
        command: Command,
        out: &mut Facts,
    ) -> Result<(), AllocError>
        requires runs { is_running self.old.pulling.told ≡ true }
        requires none { waiting self.old.pulling.told ≡ [] }
        requires next { IsNextSend self.old.script self.old.pulling.told entity command }
        ensures { OnOk result (Leads (tell (fact.Queued 1 entity 1 command)) self.old self.new out.old out.new) }
    {
        let told = Fact::Queued(self.producer, entity, 1, command);
        push_entry(&mut self.queue, &told, out)?;
        self.story.tell(&told);
        let job = self.sent;
        self.sent += 1;
        self.queue.queue(&self.charter);
        self.board.queue(job);
        Ok(())
    }

    /// The first job that waits is queued, and free. The only error is want of memory.
    pub fn tell_queued(&mut self, out: &mut Facts) -> Result<(), AllocError>
        requires runs { is_running self.old.pulling.told ≡ true }
        requires some { 0 < length (waiting self.old.pulling.told) }
        ensures { OnOk result ((j : Sending) (left : List Sending) → waiting self.old.pulling.told ≡ j ∷ left → Leads (queue_job j) self.old self.new out.old out.new) }
    {
        let job = self.queue.total() as usize;
        let sending = self.charter.sends(self.producer)[job];
        let told = Fact::Queued(self.producer, sending.entity, 1, sending.command);
        push_entry(&mut self.queue, &told, out)?;
        self.story.tell(&told);
        self.queue.queue(&self.charter);
        self.board.queue(job);
        Ok(())
    }

    /// A free job is given to a worker that is up. The only error is want of memory.
    pub fn tell_given(
        &mut self,
        job: usize,
        who: &Incarnation,
        out: &mut Facts,
    ) -> Result<(), AllocError>
        requires queued { job < length (jobs self.old.pulling.told) }
        requires free { is_free (name_at self.old.script job) self.old.pulling.told ≡ true }
        requires up { is_among who.now (members self.old.pulling.told) ≡ true }
        ensures { OnOk result (Leads (tell (fact.Given (name_at self.old.script job) who.now)) self.old self.new out.old out.new) }
    {
        let told = Fact::Given(self.name(job), *who);
        out.push_copy(&told)?;
        self.story.tell(&told);
        self.board.give(job, who);
        Ok(())
    }

    /// A worker has done a job. The only error is want of memory.
    pub fn tell_did(
        &mut self,
        who: &Incarnation,
        job: usize,
        out: &mut Facts,
    ) -> Result<(), AllocError>
        requires { job < length (jobs self.old.pulling.told) }
        ensures { OnOk result (Leads (tell (fact.Did who.now (name_at self.old.script job))) self.old self.new out.old out.new) }
    {
        let told = Fact::Did(*who, self.name(job));
        out.push_copy(&told)?;
        self.doers.push(job, who)?;
        self.story.tell(&told);
        Ok(())
    }

    /// A job is confirmed: it is at no worker any more, and isn't free. The only error is want of memory.
    pub fn tell_confirmed(&mut self, job: usize, out: &mut Facts) -> Result<(), AllocError>
        requires runs { is_running self.old.pulling.told ≡ true }
        requires queued { job < length (jobs self.old.pulling.told) }
        requires once { is_confirmed (name_at self.old.script job) self.old.pulling.told ≡ false }
        ensures { OnOk result (Leads (tell (fact.Confirmed 1 (name_at self.old.script job) 1)) self.old self.new out.old out.new) }
    {
        let name = self.name(job);
        let told = Fact::Confirmed(self.producer, name, 1);
        push_entry(&mut self.queue, &told, out)?;
        self.story.tell(&told);
        self.queue.confirm(&name, 1);
        self.board.confirm(job);
        Ok(())
    }

    /// Posts a packet, which gets the next number; where the wire is full it isn't posted. The only error is want
    /// of memory.
    pub fn post(&mut self, parcel: &Parcel, out: &mut Facts) -> Result<(), AllocError>
        requires { MayPost self.old.pulling.told parcel.now }
        ensures { OnOk result (Leads (post (λ k. parcel_fact self.old.script k parcel.now)) self.old self.new out.old out.new) }
    {
        let count = self.parcels.len();
        if count >= LIMIT {
            self.full = true;
            return Ok(());
        }
        let told = self.fact_of(count as u32 + 1, parcel);
        out.push_copy(&told)?;
        self.parcels.post(parcel)?;
        self.story.tell(&told);
        Ok(())
    }

    /// The fact that a packet is posted with this number.
    fn fact_of(&self, number: u32, parcel: &Parcel) -> Fact
        requires { IsOfJobs self.now.pulling.told parcel.now }
        ensures { result ≡ parcel_fact self.now.script number parcel.now }
    {
        match parcel {
            Parcel::Ask(who) => Fact::SentAsk(number, *who),
            Parcel::Job(who, job) => Fact::SentJob(number, *who, self.name(*job)),
            Parcel::Done(who, job) => Fact::SentDone(number, *who, self.name(*job)),
        }
    }
}
