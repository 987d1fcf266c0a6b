//! The packets of a world, and the numbers that a turn's posts get.
ghost use Rattle.std.specs.Prelude.{◌≡◌, ◌+◌, ◌-◌, ◌<◌, ◌≤◌, ◌↔◌, ◌==◌, ◌||◌, true, false, not, [], ◌∷◌, ◌++◌, length, filter, nat_lt, IsSome, IfOk, OnOk, OnErr, MatchOption};
ghost use Rattle.std.specs.Borrow.{sem};
ghost use Rattle.yard_model.specs.declared.fact.Fact.TheVariants as fact;
ghost use Rattle.yard_model.specs.declared.out.Item.TheVariants as item;
ghost use Rattle.yard_model.specs.Limits.{number_limit};
ghost use Rattle.yard_model.specs.Words.{is_empty, numbers};
ghost use Rattle.yard_model.specs.World.{numbered, wire_limit};
ghost use Rattle.wire_packet.specs.Wire.{packet_at};
ghost use Rattle.world_sim.specs.Mail.{Heads, ToldSome, facts_of, is_past, posts_of, with_posts};
ghost use Rattle.world_sim.specs.Lending.{LendsOut, with_items};
ghost use Rattle.world_sim.specs.Told.{all_told};

use crate::posts::Posts;
use std::alloc::{AllocError, Global};
use std::marker::Model;
use trace_notes::{Notes, Told};
use yard_model::{Charter, Fact, Item, Out, Packet};

/// The packets of a world, numbered from 1, which of them were never delivered, and what a turn
/// made and isn't told yet. At most 1,000,000 are posted.
#[derive(Drop)]
pub struct Mail {
    posts: Posts,
    out: Out,
    full: bool,
}

impl Model for Mail {
    ghost use Rattle.world_sim.specs.Mail.{Mails};

    ghost Value = { Mails };

    ghost view = { λ m. record { packets = m.posts.packets; fresh = m.posts.fresh; items = m.out.items; spare = m.out.spare; full = m.full } };
}

impl Mail {
    /// No packets and no items, for a world of this charter. `done` is the hint that a wire takes: of each
    /// producer how many of its first sends won't come any more. The only error is want of memory.
    pub fn new(alloc: Global, charter: &Charter, done: &[u32]) -> Result<Mail, AllocError>
        ensures packets { IfOk result (λ m. m.packets ≡ []) }
        ensures fresh { IfOk result (λ m. m.fresh ≡ []) }
        ensures items { IfOk result (λ m. m.items ≡ []) }
        ensures spare { IfOk result (λ m. m.spare ≡ 0) }
        ensures full { IfOk result (λ m. m.full ≡ false) }
    {
        let posts = Posts::new(alloc, charter, done)?;
        Ok(Mail {
            posts,
            out: Out::new(alloc),
            full: false,
        })
    }

    /// What isn't told yet, for a turn to add to.
    pub fn out(&mut self) -> &mut Out
        ensures* lends { sem 𝓛 (LendsOut self.entry result) }
        ensures items { result.now.items ≡ self.old.items }
        ensures spare { result.now.spare ≡ self.old.spare }
    {
        &mut self.out
    }

    /// Makes the spare at least `n`. The only error is want of memory, and then nothing changes.
    pub fn reserve(&mut self, n: u32) -> Result<(), AllocError>
        ensures packets { self.new.packets ≡ self.old.packets }
        ensures fresh { self.new.fresh ≡ self.old.fresh }
        ensures items { self.new.items ≡ self.old.items }
        ensures full { self.new.full ≡ self.old.full }
        ensures ok { OnOk result (n ≤ self.new.spare) }
        ensures spare { self.old.spare ≤ self.new.spare }
        ensures err { OnErr result (self.new ≡ self.old) }
    {
        self.out.reserve(n)
    }

    /// One item more, from the spare.
    pub fn push(&mut self, item: Item)
        requires { 0 < self.old.spare }
        ensures items { self.new.items ≡ self.old.items ++ item ∷ [] }
        ensures spare { self.new.spare + 1 ≡ self.old.spare }
        ensures packets { self.new.packets ≡ self.old.packets }
        ensures fresh { self.new.fresh ≡ self.old.fresh }
        ensures full { self.new.full ≡ self.old.full }
    {
        self.out.push(item);
    }

    /// How many packets were posted.
    pub fn len(&self) -> u32
        ensures len { result ≡ length self.now.packets }
        ensures fits { length self.now.packets ≤ wire_limit }
    {
        self.posts.len()
    }

    /// Whether a post was past the limit.
    pub fn is_full(&self) -> bool
        ensures { result ≡ self.now.full }
    {
        self.full
    }

    /// The packet of this number; None where no such number was posted.
    pub fn packet(&self, number: u32) -> Option<Packet>
        ensures packet { result ≡ packet_at self.now.packets number }
        ensures there { IsSome result ↔ ((0 < number) × (number ≤ length self.now.packets)) }
    {
        self.posts.packet(number)
    }

    /// Whether a packet of this number was posted.
    pub fn has(&self, number: u32) -> bool
        ensures there { (result ≡ true) ↔ ((0 < number) × (number ≤ length self.now.packets)) }
        ensures packet { (result ≡ false) ↔ (packet_at self.now.packets number ≡ None) }
    {
        self.posts.has(number)
    }

    /// The packet of this number, which was posted, is written over another: so it isn't copied.
    #[inline(always)]
    pub fn write(&self, number: u32, packet: &mut Packet)
        requires above { 0 < number }
        requires there { number ≤ length self.now.packets }
        ensures { packet_at self.now.packets number ≡ Some packet.new }
    {
        self.posts.write(number, packet)
    }

    /// The packet of this number, which was posted, is delivered.
    pub fn got(&mut self, number: u32)
        requires above { 0 < number }
        requires there { number ≤ length self.old.packets }
        ensures packets { self.new.packets ≡ self.old.packets }
        ensures fresh { self.new.fresh ≡ filter (λ j. not (j == number)) self.old.fresh }
        ensures items { self.new.items ≡ self.old.items }
        ensures spare { self.new.spare ≡ self.old.spare }
        ensures full { self.new.full ≡ self.old.full }
    {
        self.posts.got(number);
    }

    /// Sets where the next searches begin. A search for a number above `from`, or above a later number,
    /// then skips at once the delivered numbers that follow `from` without a gap.
    pub fn begin_after(&mut self, from: u32)
        requires { from ≤ length self.old.packets }
        ensures { self.new ≡ self.old }
    {
        self.posts.begin_after(from);
    }

    /// The lowest number above `from` whose packet was never delivered; None where there is none.
    /// The search passes over the numbers at the front that were delivered.
    pub fn next_after(&self, from: u32) -> Option<u32>
        requires { from < number_limit }
        ensures { MatchOption result (filter (nat_lt from) self.now.fresh ≡ []) (λ k. Heads k (filter (nat_lt from) self.now.fresh)) }
    {
        self.posts.next_after(from)
    }

    /// Whether some packet above `from` was never delivered.
    #[tactic(auto, using(crate::proofs::FreshLaws::some_heads))]
    pub fn has_after(&self, from: u32) -> bool
        requires { from < number_limit }
        ensures { result ≡ not (is_empty (filter (nat_lt from) self.now.fresh)) }
    {
        self.next_after(from).is_some()
    }

    /// Whether some packet was never delivered.
    pub fn has_fresh(&self) -> bool
        ensures { result ≡ not (is_empty self.now.fresh) }
    {
        self.posts.has_fresh()
    }

    /// Tells all items, oldest first. A fact is told as it is. A post gets the next number, and is
    /// told with it; one past the limit isn't posted, and nothing is told of it. Where there was
    /// such a one, it is told last that the wire is full.
    ///
    /// The only error is want of memory: then a beginning of all that was told, and what of the
    /// items is left is not said.
    pub fn tell_items<N: Notes>(&mut self, facts: &mut Told<N>) -> Result<(), AllocError>
        ensures facts { OnOk result (facts.new ≡ facts.old ++ facts_of wire_limit (length self.old.packets) self.old.items) }
        ensures packets { OnOk result (self.new.packets ≡ self.old.packets ++ posts_of wire_limit (length self.old.packets) self.old.items) }
        ensures fresh { OnOk result (self.new.fresh ≡ self.old.fresh ++ numbers (length self.old.packets + 1) (length (posts_of wire_limit (length self.old.packets) self.old.items))) }
        ensures full { OnOk result (self.new.full ≡ (self.old.full || is_past wire_limit (length self.old.packets) self.old.items)) }
        ensures items { OnOk result (self.new.items ≡ []) }
        ensures spare { OnOk result (self.new.spare ≡ self.old.spare) }
        ensures told { OnErr result (ToldSome facts.old facts.new (facts_of wire_limit (length self.old.packets) self.old.items)) }
    {
        let past = self.tell_all(facts)?;
        if past {
            self.tell_full(facts)?;
        }
        Ok(())
    }

    /// The wire is full, and this is told.
    fn tell_full<N: Notes>(&mut self, facts: &mut Told<N>) -> Result<(), AllocError>
        ensures facts { OnOk result (facts.new ≡ facts.old ++ fact.WireFull ∷ []) }
        ensures ok { OnOk result (self.new ≡ record self.old { full = true }) }
        ensures err { OnErr result (facts.new ≡ facts.old) }
    {
        facts.push(Fact::WireFull)?;
        self.full = true;
        Ok(())
    }

    /// Tells all items, each where it stands, and answers whether some post was past the limit.
    fn tell_all<N: Notes>(&mut self, facts: &mut Told<N>) -> Result<bool, AllocError>
        ensures facts { OnOk result (facts.new ≡ facts.old ++ numbered wire_limit (length self.old.packets) self.old.items) }
        ensures ok { OnOk result (self.new ≡ all_told wire_limit self.old) }
        ensures past { IfOk result (λ past. past ≡ is_past wire_limit (length self.old.packets) self.old.items) }
        ensures told { OnErr result (ToldSome facts.old facts.new (numbered wire_limit (length self.old.packets) self.old.items)) }
    {
        self.posts.tell_each(&mut self.out, facts)
    }
}
