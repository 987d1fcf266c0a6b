//! The state of a region, and the moves that change it.
ghost use Rattle.std.specs.Prelude.{◌≡◌, ℕ, ◌+◌, ◌<◌, ◌≤◌, [], ◌∷◌, ◌++◌, length, sum_by, drop, replicate, fold, IfOk, IfSome, IfNone, MatchOption, IsTrue, None, false, not, slice_index_or};
ghost use Rattle.std.specs.List.{flat_map};
ghost use Rattle.yard_model.specs.declared.fact.Fact.TheVariants as fact;
ghost use Rattle.yard_model.specs.declared.out.Item.TheVariants as item;
ghost use Rattle.yard_model.specs.declared.packet.Body.TheVariants as body;
ghost use Rattle.yard_model.specs.Genuine.{is_genuine};
ghost use Rattle.yard_model.specs.Move.{told, post, viewed, registered_with, leaves, marked, released, item_of};
ghost use Rattle.yard_model.specs.Region.{region_after, new_region, oldest, home, mark, kept_of, is_home, is_routable, is_some_home, keep, no_stamp};
ghost use Rattle.yard_model.specs.Script.{IsScript, setting};
ghost use Rattle.yard_model.specs.Setting.{shard_of};
ghost use Rattle.yard_model.specs.ShardSet.{has};
ghost use Rattle.yard_model.specs.Words.{is_among, is_at, is_below, is_empty};

use membership_view::View;
use region_buffer::Kept;
use shard_extract::shard_of;
use std::alloc::{AllocError, Global};
use std::marker::{Model, PhantomData};
use std::snapshot::Snapshot;
use yard_model::{
    Body, Charter, Fact, Incarnation, Item, Members, Message, Out, Packet, ShardNo, ShardSet, Slot,
    Stamp, State,
};

/// The shard region of one node (Akka 2.6, Cluster Sharding concepts): the members that the node
/// knows, the homes of shards, and the messages kept until a home is known. Marks of the coordinator's
/// stamps, and that a home is asked for only once, are this project's own. All memory is taken when
/// it is made.
#[derive(Drop)]
pub struct Region {
    script: Snapshot<Charter>,
    who: Incarnation,
    shards: u8,
    seen: View,
    registered: Option<Incarnation>,
    leaving: bool,
    homes: Vec<Option<Incarnation>>,
    marks: Vec<Stamp>,
    asked: Vec<bool>,
    kept: Kept,
    holds: PhantomData<(Fact, Packet, Body, State, Slot)>,
}

impl Model for Region {
    ghost use Rattle.yard_model.specs.Script.{setting};
    ghost use Rattle.region_actor.specs.Made.{Made, IsRegion};

    ghost Value = { Made };

    ghost view = { λ r. record {
      script = r.script.value;
      state = record {
        who = r.who;
        set = setting r.script.value;
        version = r.seen.version;
        view = r.seen.members;
        registered = r.registered;
        leaving = r.leaving;
        homes = r.homes.items;
        marks = r.marks.items;
        asked = r.asked.items;
        kept = r.kept.lists;
      };
    } };

    ghost invariant = { λ r. IsRegion r.script.value r.shards r.homes.items r.marks.items r.asked.items r.kept };
}

impl Region {
    /// The region of a node that comes up: it knows of no members and no homes, and keeps nothing.
    /// The only error is want of memory.
    pub fn new(alloc: Global, who: Incarnation, charter: &Charter) -> Result<Region, AllocError>
        ensures { IfOk result (λ r. r ≡ record { script = charter.now; state = new_region (setting charter.now) who }) }
    {
        let config = charter.config();
        let shards = config.shards;
        let seen = View::new(alloc)?;
        let homes = no_homes(alloc, shards)?;
        let marks = no_marks(alloc, shards)?;
        let asked = none_asked(alloc, shards)?;
        let kept = Kept::new(alloc, config.buffer, shards)?;
        Ok(Region {
            script: Snapshot::of(charter),
            who,
            shards,
            seen,
            registered: None,
            leaving: false,
            homes,
            marks,
            asked,
            kept,
            holds: PhantomData,
        })
    }

    /// Whose region it is.
    pub fn who(&self) -> Incarnation
        ensures { result ≡ self.now.state.who }
    {
        self.who
    }

    /// How many shards there are.
    pub fn shards(&self) -> u8
        ensures count { result ≡ self.now.script.config.shards }
        ensures script { IsScript self.now.script }
        ensures set { self.now.state.set ≡ setting self.now.script }
        ensures range { (1 ≤ result) × (result ≤ 128) }
    {
        self.shards
    }

    /// How new the view is, 0 where there is none yet.
    pub fn version(&self) -> u32
        ensures { result ≡ self.now.state.version }
    {
        self.seen.version()
    }

    /// The oldest member in the view; None exactly where there is no view yet.
    pub fn oldest(&self) -> Option<Incarnation>
        ensures { result ≡ oldest self.now.state }
    {
        self.seen.oldest()
    }

    /// Whether this incarnation is in the view.
    pub fn has(&self, who: &Incarnation) -> bool
        ensures { result ≡ is_among who.now self.now.state.view }
    {
        self.seen.has(*who)
    }

    /// The view: its version, and its members.
    pub fn view(&self) -> &View
        ensures version { result.now.version ≡ self.now.state.version }
        ensures members { result.now.members ≡ self.now.state.view }
    {
        &self.seen
    }

    /// The members in the view, oldest first.
    pub fn members(&self) -> Members
        ensures { result ≡ self.now.state.view }
    {
        self.seen.members()
    }

    /// The home of a shard, where it is known.
    pub fn home(&self, s: ShardNo) -> Option<Incarnation>
        requires { s < self.now.script.config.shards }
        ensures { result ≡ home self.now.state s }
    {
        self.homes[s.get() as usize]
    }

    /// Whether the home of a shard is this node.
    pub fn is_home(&self, s: ShardNo) -> bool
        requires { s < self.now.script.config.shards }
        ensures { result ≡ is_home self.now.state s }
    {
        self.is_home_at(s, &self.who)
    }

    /// Whether messages of a shard can be routed: its home is another node, or is this node where
    /// the shard is running.
    pub fn is_routable(&self, s: ShardNo, running: ShardSet) -> bool
        requires { s < self.now.script.config.shards }
        ensures { result ≡ is_routable self.now.state s (has running s) }
    {
        match self.home(s) {
            Some(_) => !self.is_home(s) || running.has(s),
            None => false,
        }
    }

    /// Whether the region leaves.
    pub fn is_leaving(&self) -> bool
        ensures { result ≡ self.now.state.leaving }
    {
        self.leaving
    }

    /// How many messages of a shard are kept.
    pub fn kept_count(&self, s: ShardNo) -> u16
        requires { s < self.now.script.config.shards }
        ensures { result ≡ length (kept_of self.now.state.kept s) }
    {
        self.kept.count(s)
    }

    /// A law: no more messages are kept in all than the buffer has room for, and the setting is the
    /// script's.
    pub fn kept_room(&self)
        ensures kept { sum_by length self.now.state.kept ≤ self.now.script.config.buffer }
        ensures set { self.now.state.set ≡ setting self.now.script }
    {
        let _ = self.kept.total();
    }
}

// The moves.
impl Region {
    /// Whether the region is registered with this coordinator.
    pub(crate) fn is_registered_with(&self, coordinator: &Incarnation) -> bool
        ensures { result ≡ is_at coordinator.now self.now.state.registered }
    {
        match &self.registered {
            Some(other) => *coordinator == *other,
            None => false,
        }
    }

    /// Whether the home of a shard is known, and is this one.
    pub(crate) fn is_home_at(&self, s: ShardNo, other: &Incarnation) -> bool
        requires { s < self.now.script.config.shards }
        ensures { result ≡ is_at other.now (home self.now.state s) }
    {
        match self.home(s) {
            Some(h) => *other == h,
            None => false,
        }
    }

    /// Whether the home of some shard is this node.
    pub(crate) fn is_some_home(&self) -> bool
        ensures { result ≡ is_some_home self.now.state }
    {
        self.homes.iter().any(|h| is_at(&self.who, h))
    }

    /// Whether a stamp is older than the one that was taken last for a shard.
    pub(crate) fn is_old(&self, s: ShardNo, stamp: &Stamp) -> bool
        requires { s < self.now.script.config.shards }
        ensures { result ≡ is_below stamp.now (mark self.now.state s) }
    {
        is_below(stamp, &self.marks[s.get() as usize])
    }

    /// Whether a stamp is newer than the one that was taken last for a shard.
    pub(crate) fn is_new(&self, s: ShardNo, stamp: &Stamp) -> bool
        requires { s < self.now.script.config.shards }
        ensures { result ≡ is_below (mark self.now.state s) stamp.now }
    {
        is_below(&self.marks[s.get() as usize], stamp)
    }

    /// Whether a shard's home was asked for since the last stamp that was taken for it.
    pub(crate) fn is_asked(&self, s: ShardNo) -> bool
        requires { s < self.now.script.config.shards }
        ensures { result ≡ slice_index_or self.now.state.asked s false }
    {
        self.asked[s.get() as usize]
    }

    /// Whether messages of a shard are kept.
    pub(crate) fn is_waiting(&self, s: ShardNo) -> bool
        requires { s < self.now.script.config.shards }
        ensures { result ≡ not (is_empty (kept_of self.now.state.kept s)) }
    {
        !self.kept.is_empty(s)
    }

    /// Whether no message is kept; where it answers that, there is none of any shard.
    pub(crate) fn keeps_none(&self) -> bool
        ensures { IsTrue result → sum_by length self.now.state.kept ≡ 0 }
    {
        self.kept.total() == 0
    }

    /// The shard of a message.
    pub(crate) fn shard_of(&self, message: &Message) -> ShardNo
        ensures shard { result ≡ shard_of self.now.state.set message.now.entity }
        ensures range { result < self.now.script.config.shards }
    {
        shard_of(&message.entity, self.shards)
    }

    /// The view is taken.
    pub(crate) fn see(&mut self, version: u32, members: &Members, out: &mut Out)
        requires newer { self.old.state.version < version }
        requires room { 0 < out.old.spare }
        ensures items { out.new.items ≡ out.old.items ++ item.Fact (fact.View self.old.state.who version) ∷ [] }
        ensures state { self.new.state ≡ region_after (region_after self.old.state (viewed members.now)) (told (fact.View self.old.state.who version)) }
        ensures script { self.new.script ≡ self.old.script }
        ensures spare { out.new.spare + 1 ≡ out.old.spare }
    {
        self.seen.take(version, members);
        out.push(Item::Fact(Fact::View(self.who, version)));
    }

    /// The region is registered there.
    pub(crate) fn register_with(&mut self, coordinator: &Incarnation)
        ensures state { self.new.state ≡ region_after self.old.state (registered_with coordinator.now) }
        ensures script { self.new.script ≡ self.old.script }
    {
        self.registered = Some(*coordinator);
    }

    /// The region leaves.
    pub(crate) fn set_leaving(&mut self)
        ensures state { self.new.state ≡ region_after self.old.state leaves }
        ensures script { self.new.script ≡ self.old.script }
    {
        self.leaving = true;
    }

    /// A home is known no more.
    #[inline(never)]
    pub(crate) fn lose_home(&mut self, s: ShardNo, out: &mut Out)
        requires shard { s < self.old.script.config.shards }
        requires room { 0 < out.old.spare }
        ensures items { out.new.items ≡ out.old.items ++ item.Fact (fact.Forget self.old.state.who s) ∷ [] }
        ensures state { self.new.state ≡ region_after self.old.state (told (fact.Forget self.old.state.who s)) }
        ensures script { self.new.script ≡ self.old.script }
        ensures spare { out.new.spare + 1 ≡ out.old.spare }
    {
        self.homes[s.get() as usize] = None;
        out.push(Item::Fact(Fact::Forget(self.who, s)));
    }

    /// A stamp is taken for a shard, whose home counts as not asked for.
    pub(crate) fn mark(&mut self, s: ShardNo, stamp: &Stamp)
        requires { s < self.old.script.config.shards }
        ensures state { self.new.state ≡ region_after self.old.state (marked s stamp.now) }
        ensures script { self.new.script ≡ self.old.script }
    {
        self.marks[s.get() as usize] = *stamp;
        self.asked[s.get() as usize] = false;
    }

    /// A home is known.
    #[inline(never)]
    pub(crate) fn set_home(&mut self, s: ShardNo, home: &Incarnation, out: &mut Out)
        requires shard { s < self.old.script.config.shards }
        requires room { 0 < out.old.spare }
        ensures items { out.new.items ≡ out.old.items ++ item.Fact (fact.Home self.old.state.who s home.now) ∷ [] }
        ensures state { self.new.state ≡ region_after self.old.state (told (fact.Home self.old.state.who s home.now)) }
        ensures script { self.new.script ≡ self.old.script }
        ensures spare { out.new.spare + 1 ≡ out.old.spare }
    {
        self.homes[s.get() as usize] = Some(*home);
        out.push(Item::Fact(Fact::Home(self.who, s, *home)));
    }

    /// This member is asked for the home of a shard.
    #[inline(never)]
    pub(crate) fn ask_member(&mut self, s: ShardNo, member: &Incarnation, out: &mut Out)
        requires shard { s < self.old.script.config.shards }
        requires room { 0 < out.old.spare }
        ensures items { out.new.items ≡ out.old.items ++ item.Post (record { from = self.old.state.who; to = member.now; body = body.GetShardHome s }) ∷ [] }
        ensures state { self.new.state ≡ region_after self.old.state (post self.old.state.who member.now (body.GetShardHome s)) }
        ensures script { self.new.script ≡ self.old.script }
        ensures spare { out.new.spare + 1 ≡ out.old.spare }
    {
        self.asked[s.get() as usize] = true;
        self.post(member, &Body::GetShardHome(s), out);
    }

    /// A message is kept as the newest of its shard, which is this one, where the buffer has room; else it is dropped.
    #[inline(never)]
    pub(crate) fn keep(&mut self, s: ShardNo, message: &Message, out: &mut Out)
        requires shard { s ≡ shard_of self.old.state.set message.now.entity }
        requires range { s < self.old.script.config.shards }
        requires genuine { IsTrue (is_genuine self.old.script message.now) }
        requires room { 0 < out.old.spare }
        ensures items { out.new.items ≡ out.old.items ++ flat_map item_of (keep message.now self.old.state) }
        ensures state { self.new.state ≡ fold region_after self.old.state (keep message.now self.old.state) }
        ensures script { self.new.script ≡ self.old.script }
        ensures spare { out.new.spare + 1 ≡ out.old.spare }
    {
        match self.kept.keep(s, *message) {
            Ok(()) => out.push(Item::Fact(Fact::Kept(self.who, *message))),
            Err(_) => out.push(Item::Fact(Fact::Dropped(self.who, *message))),
        }
    }

    /// The oldest message that is kept of a shard is taken out; None exactly where none is kept,
    /// and then nothing changes.
    pub fn next_kept(&mut self, s: ShardNo) -> Option<Message>
        requires { s < self.old.script.config.shards }
        ensures message { MatchOption result (kept_of self.old.state.kept s ≡ []) (λ m. kept_of self.old.state.kept s ≡ m ∷ drop 1 (kept_of self.old.state.kept s)) }
        ensures state { IfSome result (λ m. self.new.state ≡ region_after self.old.state (released s)) }
        ensures none { IfNone result (self.new ≡ self.old) }
        ensures script { self.new.script ≡ self.old.script }
        ensures genuine { IfSome result (λ m. IsTrue (is_genuine self.old.script m)) }
        ensures shard { IfSome result (λ m. shard_of self.old.state.set m.entity ≡ s) }
    {
        self.kept.release_one(s)
    }

    /// A message is posted; what the region knows stays.
    #[inline(never)]
    pub(crate) fn post_message(&self, to: &Incarnation, message: &Message, out: &mut Out)
        requires room { 0 < out.old.spare }
        ensures items { out.new.items ≡ out.old.items ++ item.Post (record { from = self.now.state.who; to = to.now; body = body.Sequenced message.now }) ∷ [] }
        ensures spare { out.new.spare + 1 ≡ out.old.spare }
    {
        out.push(Item::Post(Packet {
            from: self.who,
            to: *to,
            body: Body::Sequenced(Message {
                producer: message.producer,
                entity: message.entity,
                number: message.number,
                command: message.command,
                origin: message.origin,
            }),
        }));
    }

    /// A packet is posted; what the region knows stays.
    pub(crate) fn post(&self, to: &Incarnation, body: &Body, out: &mut Out)
        requires room { 0 < out.old.spare }
        ensures items { out.new.items ≡ out.old.items ++ item.Post (record { from = self.now.state.who; to = to.now; body = body.now }) ∷ [] }
        ensures spare { out.new.spare + 1 ≡ out.old.spare }
    {
        out.push(Item::Post(Packet {
            from: self.who,
            to: *to,
            body: *body,
        }));
    }
}

/// Whether there is a home and it is this one.
fn is_at(who: &Incarnation, home: &Option<Incarnation>) -> bool
    ensures { result ≡ is_at who.now home.now }
{
    match home {
        Some(h) => *who == *h,
        None => false,
    }
}

fn is_below(a: &Stamp, b: &Stamp) -> bool
    ensures { result ≡ is_below a.now b.now }
{
    a.epoch < b.epoch || (a.epoch == b.epoch && a.round < b.round)
}

/// No home is known.
fn no_homes(alloc: Global, shards: u8) -> Result<Vec<Option<Incarnation>>, AllocError>
    ensures { IfOk result (λ v. v.items ≡ replicate shards None) }
{
    vec![in alloc; None; shards as usize]
}

/// No stamp was taken.
fn no_marks(alloc: Global, shards: u8) -> Result<Vec<Stamp>, AllocError>
    ensures { IfOk result (λ v. v.items ≡ replicate shards no_stamp) }
{
    vec![in alloc; Stamp { epoch: 0, round: 0 }; shards as usize]
}

/// No home was asked for.
fn none_asked(alloc: Global, shards: u8) -> Result<Vec<bool>, AllocError>
    ensures { IfOk result (λ v. v.items ≡ replicate shards false) }
{
    vec![in alloc; false; shards as usize]
}
