//! The packets of a world, and the numbers that they get.
ghost use Rattle.std.specs.Prelude.{◌≡◌, ◌-◌, ◌<◌, ◌≤◌, ◌↔◌, ◌==◌, true, false, not, [], ◌∷◌, ◌++◌, length, filter, nat_lt, IsSome, IfOk, OnOk, OnErr, MatchOption};
ghost use Rattle.yard_model.specs.declared.out.Item.TheVariants as item;
ghost use Rattle.yard_model.specs.Limits.{number_limit};
ghost use Rattle.yard_model.specs.Words.{is_empty};
ghost use Rattle.yard_model.specs.World.{numbered, wire_limit};
ghost use Rattle.wire_packet.specs.Wire.{packet_at};
ghost use Rattle.world_sim.specs.Mail.{Heads, ToldSome, is_past, nothing_posted, posts_of, with_posts};
ghost use Rattle.world_sim.specs.Lending.{with_items};
ghost use Rattle.world_sim.specs.Told.{all_told};

use crate::runs::{after_run, reach};
use std::alloc::{AllocError, Global};
use std::marker::Model;
use trace_notes::{Notes, Told};
use wire_packet::{Wire, WireFault};
use yard_model::{Charter, Item, Out, Packet};

/// The packets of a world, numbered from 1, and which of them were never delivered; seen as a mail with
/// nothing to tell, since the items that are told are lent to it. At most 1,000,000 are posted.
#[derive(Drop)]
pub(crate) struct Posts {
    wire: Wire,
    count: u32,
    base: u32,
    reached: u32,
}

impl Model for Posts {
    ghost use Rattle.world_sim.specs.Mail.{IsMail, Mails, posts_in};

    ghost Value = { Mails };

    ghost view = { λ p. posts_in p.wire };

    ghost invariant = { λ p. IsMail p.wire p.count p.base p.reached };
}

impl Posts {
    /// No packets, for a world of this charter. `done` is the hint that a wire takes. The only error is want
    /// of memory.
    pub(crate) fn new(alloc: Global, charter: &Charter, done: &[u32]) -> Result<Posts, AllocError>
        ensures { IfOk result (λ p. p ≡ nothing_posted) }
    {
        let wire = Wire::new(alloc, charter, done)?;
        Ok(Posts {
            wire,
            count: 0,
            base: 0,
            reached: 0,
        })
    }

    /// How many packets were posted.
    pub(crate) fn len(&self) -> u32
        ensures len { result ≡ length self.now.packets }
        ensures fits { length self.now.packets ≤ wire_limit }
    {
        self.count
    }

    /// The packet of this number; None where no such number was posted.
    pub(crate) fn packet(&self, number: u32) -> Option<Packet>
        ensures packet { result ≡ packet_at self.now.packets number }
        ensures there { IsSome result ↔ ((0 < number) × (number ≤ length self.now.packets)) }
    {
        self.wire.get(number)
    }

    /// Whether a packet of this number was posted.
    pub(crate) fn has(&self, number: u32) -> bool
        ensures there { (result ≡ true) ↔ ((0 < number) × (number ≤ length self.now.packets)) }
        ensures packet { (result ≡ false) ↔ (packet_at self.now.packets number ≡ None) }
    {
        number > 0 && number <= self.count
    }

    /// The packet of this number, which was posted, is written over another: so it isn't copied.
    #[inline(always)]
    pub(crate) fn write(&self, number: u32, packet: &mut Packet)
        requires above { 0 < number }
        requires there { number ≤ length self.now.packets }
        ensures { packet_at self.now.packets number ≡ Some packet.new }
    {
        self.wire.write(number, packet)
    }

    /// The packet of this number, which was posted, is delivered.
    #[tactic(auto, using(crate::proofs::FreshLaws::marked_one))]
    pub(crate) fn got(&mut self, number: u32)
        requires above { 0 < number }
        requires there { number ≤ length self.old.packets }
        ensures { self.new ≡ record self.old { fresh = filter (λ j. not (j == number)) self.old.fresh } }
    {
        self.wire.mark(number);
        self.reached = reach(&self.wire, self.count, self.base, self.reached, number);
    }

    /// Sets where the next searches begin. A search for a number above `from`, or above a later number,
    /// then skips at once the delivered numbers that follow `from` without a gap.
    pub(crate) fn begin_after(&mut self, from: u32)
        requires { from ≤ length self.old.packets }
        ensures { self.new ≡ self.old }
    {
        self.base = from;
        self.reached = from;
    }

    /// The lowest number above `from` whose packet was never delivered; None where there is none.
    /// The search passes over the numbers at the front that were delivered.
    pub(crate) fn next_after(&self, from: u32) -> Option<u32>
        requires { from < number_limit }
        ensures { MatchOption result (filter (nat_lt from) self.now.fresh ≡ []) (λ k. Heads k (filter (nat_lt from) self.now.fresh)) }
    {
        let start = after_run(self.base, self.reached, from);
        self.wire.next_fresh(start + 1)
    }

    /// Whether some packet was never delivered.
    #[tactic(auto, using(crate::proofs::FreshLaws::any_fresh))]
    pub(crate) fn has_fresh(&self) -> bool
        ensures { result ≡ not (is_empty self.now.fresh) }
    {
        self.wire.next_fresh(1).is_some()
    }

    /// Tells the items of this list, oldest first, each where it stands, and answers whether some post was
    /// past the limit; none is left in the list.
    pub(crate) fn tell_each<N: Notes>(
        &mut self,
        out: &mut Out,
        facts: &mut Told<N>,
    ) -> Result<bool, AllocError>
        ensures facts { OnOk result (facts.new ≡ facts.old ++ numbered wire_limit (length self.old.packets) out.old.items) }
        ensures ok { OnOk result (with_items self.new out.new ≡ all_told wire_limit (with_items self.old out.old)) }
        ensures past { IfOk result (λ past. past ≡ is_past wire_limit (length self.old.packets) out.old.items) }
        ensures told { OnErr result (ToldSome facts.old facts.new (numbered wire_limit (length self.old.packets) out.old.items)) }
    {
        let mut past = false;
        while let Some(item) = out.first() {
            let _posted = self.len();
            let over = self.tell_item(item, facts)?;
            out.drop_first();
            past = past || over;
        }
        let _posted = self.len();
        Ok(past)
    }

    /// Tells an item, and answers whether it is a post past the limit.
    fn tell_item<N: Notes>(&mut self, item: &Item, facts: &mut Told<N>) -> Result<bool, AllocError>
        requires { length self.old.packets ≤ wire_limit }
        ensures facts { OnOk result (facts.new ≡ facts.old ++ numbered wire_limit (length self.old.packets) (item.now ∷ [])) }
        ensures ok { OnOk result (self.new ≡ with_posts self.old (posts_of wire_limit (length self.old.packets) (item.now ∷ []))) }
        ensures past { IfOk result (λ past. past ≡ is_past wire_limit (length self.old.packets) (item.now ∷ [])) }
        ensures err { OnErr result (facts.new ≡ facts.old) }
    {
        match item {
            Item::Fact(fact) => {
                facts.push_copy(fact)?;
                Ok(false)
            }
            Item::Post(packet) => self.tell_post(packet, facts),
        }
    }

    /// Posts a packet and tells it, and answers whether it is past the limit.
    fn tell_post<N: Notes>(
        &mut self,
        packet: &Packet,
        facts: &mut Told<N>,
    ) -> Result<bool, AllocError>
        ensures facts { OnOk result (facts.new ≡ facts.old ++ numbered wire_limit (length self.old.packets) (item.Post packet.now ∷ [])) }
        ensures ok { OnOk result (self.new ≡ with_posts self.old (posts_of wire_limit (length self.old.packets) (item.Post packet.now ∷ []))) }
        ensures past { IfOk result (λ past. past ≡ is_past wire_limit (length self.old.packets) (item.Post packet.now ∷ [])) }
        ensures err { OnErr result (facts.new ≡ facts.old) }
    {
        match self.wire.post(packet) {
            Ok(number) => {
                self.count = number;
                facts.push_sent(number, packet)?;
                Ok(false)
            }
            Err(WireFault::Full) => Ok(true),
            Err(WireFault::OutOfMemory) => Err(AllocError),
        }
    }
}
