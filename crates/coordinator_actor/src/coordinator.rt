//! The state of a coordinator, and the moves that change it.
ghost use Rattle.std.specs.Prelude.{◌≡◌, ℕ, ◌+◌, ◌<◌, ◌≤◌, [], ◌∷◌, ◌++◌, not, fold, slice_index_or, length, nat_le, Some, OnOk, OnErr, IsTrue, IfSome, true, false, is_none, is_some};
ghost use Rattle.std.specs.List.{All, flat_map, list_all};
ghost use Rattle.yard_model.specs.declared.load.Load.{Load};
ghost use Rattle.yard_model.specs.declared.fact.Fact.TheVariants as fact;
ghost use Rattle.yard_model.specs.declared.out.Item.TheVariants as item;
ghost use Rattle.yard_model.specs.Coordinator.{coordinator_after, new_coordinator, registered, home_of, stamp, shares, staying, is_moving, acknowledge, terminate};
ghost use Rattle.yard_model.specs.declared.incarnation.Slot.TheVariants as slot;
ghost use Rattle.yard_model.specs.Genuine.{is_node, is_shard};
ghost use Rattle.yard_model.specs.Lawful.{own};
ghost use Rattle.yard_model.specs.Limits.{turn_room};
ghost use Rattle.yard_model.specs.Move.{item_of, told, started, quits};
ghost use Rattle.yard_model.specs.Script.{setting, IsScript};
ghost use Rattle.yard_model.specs.SlotReads.{holder, regions};
ghost use Rattle.yard_model.specs.Words.{is_among, is_at, is_empty};
ghost use Rattle.coordinator_state.specs.Coord.{IsLoadOf};
ghost use Rattle.handoff_steps.specs.Places.{moving, all_shards};
ghost use Rattle.least_shard.specs.Spread.{shares_of, AreOfDifferentRegions};
ghost use Rattle.coordinator_actor.specs.Held.{AreHomed, Held, are_viewed};
ghost use Rattle.coordinator_actor.specs.Parts.{at_shard, is_stopped_by, next_stamp, opened, shards_in, step_posts};

use crate::flags::Flags;
use crate::lost::lose_all;
use crate::quitters::Quitters;
use crate::regions::{all_viewed, is_same, of_loads};
use coordinator_state::CoordStore;
use handoff_steps::{Regions, Round, Step};
use membership_view::View;
use std::alloc::{AllocError, Global};
use std::marker::{Model, PhantomData};
use turn_rooms::{AMPLE_ROOM, TURN_ROOM};
use yard_model::{
    Body, Charter, Fact, Incarnation, Item, Loads, Out, Packet, ShardNo, ShardSet, Slot, Stamp,
    State,
};

/// The shard coordinator of a node that holds its slot (Akka 2.6, Cluster Sharding concepts): the
/// store of the slot, which regions leave, which shards are started, and the round of handoffs that
/// is open. Stamps, and that a round moves several shards at once, are this project's own.
#[derive(Drop)]
pub struct Coordinator {
    who: Incarnation,
    store: CoordStore,
    quitting: Quitters,
    started: Flags,
    round: Round,
    holds: PhantomData<(Fact, Packet, Body, State, Slot)>,
}

impl Model for Coordinator {
    ghost use Rattle.yard_model.specs.Script.{setting};
    ghost use Rattle.handoff_steps.specs.Places.{moving};
    ghost use Rattle.coordinator_actor.specs.Held.{Held, IsHeld};

    ghost Value = { Held };

    ghost view = { λ c. record {
      script = c.store.script;
      state = record {
        who = c.who;
        set = setting c.store.script;
        entries = c.store.entries;
        quitting = c.quitting.items;
        started = c.started;
        moving = moving c.round;
        begun = c.round.stamp.round;
      };
      spare = c.store.spare;
      places = c.quitting.spare;
    } };

    ghost invariant = { λ c. IsHeld c.store.script c.who c.store.entries c.started (moving c.round) c.round.stamp };
}

impl Coordinator {
    /// The coordinator of a node that has been granted the slot, over the slot's store: nobody
    /// leaves, no shard is started and no round is open. It takes no memory.
    pub fn new(alloc: Global, who: Incarnation, charter: &Charter, store: CoordStore) -> Coordinator
        requires script { store.script ≡ charter.now }
        requires leased { holder store.entries ≡ Some who }
        ensures { result ≡ record { script = store.script; state = new_coordinator (setting store.script) who store.entries; spare = store.spare; places = 0 } }
    {
        let shards = charter.config().shards;
        let stamp = Stamp {
            epoch: store.epoch(),
            round: 0,
        };
        Coordinator {
            who,
            store,
            quitting: Quitters::new(alloc),
            started: Flags::none(shards),
            round: Round::none(stamp),
            holds: PhantomData,
        }
    }

    /// Gives the store back; what isn't in it is gone.
    pub fn into_store(self) -> CoordStore
        ensures script { result.script ≡ self.script }
        ensures entries { result.entries ≡ self.state.entries }
        ensures spare { result.spare ≡ self.spare }
        ensures leased { holder result.entries ≡ Some self.state.who }
    {
        self.store
    }

    /// The store.
    pub fn store(&self) -> &CoordStore
        ensures script { result.now.script ≡ self.now.script }
        ensures entries { result.now.entries ≡ self.now.state.entries }
        ensures spare { result.now.spare ≡ self.now.spare }
    {
        &self.store
    }

    /// Makes the store's spare at least `TURN_ROOM` entries, and room for one region more that leaves. The
    /// only error is want of memory; then its state is as before.
    #[inline(always)]
    pub fn reserve(&mut self) -> Result<(), AllocError>
        ensures script { self.new.script ≡ self.old.script }
        ensures state { self.new.state ≡ self.old.state }
        ensures spare { self.old.spare ≤ self.new.spare }
        ensures places { self.old.places ≤ self.new.places }
        ensures enough { OnOk result (turn_room ≤ self.new.spare) }
        ensures place { OnOk result (1 ≤ self.new.places) }
    {
        if self.is_ready() {
            return Ok(());
        }
        self.reserve_more()
    }

    /// Whether there is room for all that a turn may write, and for one region more that leaves.
    fn is_ready(&self) -> bool
        ensures entries { result ≡ true → turn_room ≤ self.now.spare }
        ensures places { result ≡ true → 1 ≤ self.now.places }
    {
        self.store.spare() >= TURN_ROOM && self.quitting.spare() >= 1
    }

    /// The same as `reserve`, where there isn't; with room for some turns more.
    #[inline(never)]
    fn reserve_more(&mut self) -> Result<(), AllocError>
        ensures script { self.new.script ≡ self.old.script }
        ensures state { self.new.state ≡ self.old.state }
        ensures spare { self.old.spare ≤ self.new.spare }
        ensures places { self.old.places ≤ self.new.places }
        ensures enough { OnOk result (turn_room ≤ self.new.spare) }
        ensures place { OnOk result (1 ≤ self.new.places) }
    {
        self.quitting.reserve(1)?;
        self.store.reserve(AMPLE_ROOM)
    }

    /// Whose coordinator it is.
    pub fn who(&self) -> Incarnation
        ensures value { result ≡ self.now.state.who }
        ensures leased { holder self.now.state.entries ≡ Some result }
        ensures script { IsScript self.now.script }
        ensures set { self.now.state.set ≡ setting self.now.script }
    {
        self.who
    }

    /// How much there is at most: 16 regions are registered, and 128 shards are in the open round,
    /// for each of which 16 regions are awaited.
    pub fn room(&self)
        ensures regions { length (registered self.now.state) ≤ 16 }
        ensures moving { length self.now.state.moving ≤ 128 }
        ensures awaited { list_all (λ x. nat_le (length x.awaited) 16) self.now.state.moving ≡ true }
    {
        let loads = self.store.lent_loads();
        loads.as_slice();
        let round = self.round();
        round.awaited_few();
    }

    /// Whether this region is registered.
    pub fn is_registered(&self, r: &Incarnation) -> bool
        ensures { result ≡ is_among r.now (registered self.now.state) }
    {
        self.store.is_registered(*r)
    }

    /// The home of a shard, a registered region; None exactly where it has none.
    pub fn home(&self, s: ShardNo) -> Option<Incarnation>
        ensures value { result ≡ home_of self.now.state s }
        ensures registered { IfSome result (λ r. is_among r (registered self.now.state) ≡ true) }
    {
        self.store.home(s)
    }

    /// Whether this region is the home of a shard.
    pub fn is_home(&self, r: &Incarnation, s: ShardNo) -> bool
        ensures { result ≡ is_at r.now (home_of self.now.state s) }
    {
        match &self.home(s) {
            Some(home) => is_same(r, home),
            None => false,
        }
    }

    /// The loads of the registered regions that don't leave, in order of registration.
    pub(crate) fn staying(&self) -> Loads
        ensures shares { shares_of result ≡ shares self.now.state }
        ensures registered { list_all (λ (l : Load). is_among l.region (registered self.now.state)) result ≡ true }
        ensures homes { All (IsLoadOf self.now.state.entries) result }
        ensures different { AreOfDifferentRegions result }
    {
        self.store.entries();
        self.quitting.staying(self.store.lent_loads())
    }

    /// The loads of the registered regions, in order of registration, where no region leaves.
    pub(crate) fn loads(&self) -> &Loads
        requires stays { is_empty self.now.state.quitting ≡ true }
        ensures shares { shares_of result.now ≡ shares self.now.state }
        ensures registered { list_all (λ (l : Load). is_among l.region (registered self.now.state)) result.now ≡ true }
        ensures homes { All (IsLoadOf self.now.state.entries) result.now }
        ensures different { AreOfDifferentRegions result.now }
    {
        self.store.entries();
        self.store.lent_loads()
    }

    /// Whether every registered region is in the view.
    pub(crate) fn are_viewed(&self, view: &View) -> bool
        ensures { result ≡ are_viewed view.now.members self.now.state.entries }
    {
        all_viewed(self.store.lent_loads(), view)
    }

    /// Whether some region has said that it leaves.
    pub(crate) fn has_leaving(&self) -> bool
        ensures { result ≡ not (is_empty self.now.state.quitting) }
    {
        !self.quitting.is_empty()
    }

    /// Whether some registered region doesn't leave.
    pub(crate) fn has_staying(&self) -> bool
        ensures { result ≡ not (is_empty (staying self.now.state)) }
    {
        let loads = self.staying();
        match loads.as_slice().first() {
            Some(_) => true,
            None => false,
        }
    }

    /// Whether this region has said that it leaves.
    pub(crate) fn is_leaving(&self, r: &Incarnation) -> bool
        ensures { result ≡ is_among r.now self.now.state.quitting }
    {
        self.quitting.has(r)
    }

    /// Whether a shard is started.
    pub(crate) fn is_started(&self, s: ShardNo) -> bool
        requires shard { s < self.now.state.set.config.shards }
        ensures { result ≡ slice_index_or self.now.state.started s false }
    {
        self.started.get(s)
    }

    /// The registered regions, in order of registration.
    pub(crate) fn regions(&self) -> Regions
        ensures regions { result ≡ registered self.now.state }
        ensures lawful { IsTrue (own self.now.script slot.Coordinator self.now.state.entries) }
    {
        self.store.entries();
        of_loads(self.store.lent_loads())
    }

    /// The stamp of its words: the epoch of its lease, and how many rounds have begun.
    pub(crate) fn stamp(&self) -> Stamp
        ensures { result ≡ stamp self.now.state }
    {
        self.round.stamp()
    }

    /// The stamp of the next round, where none is open.
    pub(crate) fn next_stamp(&self) -> Stamp
        requires closed { is_empty self.now.state.moving ≡ true }
        ensures { result ≡ next_stamp self.now.state }
    {
        self.store.spare();
        let stamp = self.round.stamp();
        Stamp {
            epoch: stamp.epoch,
            round: stamp.round + 1,
        }
    }

    /// How many shards there are.
    pub(crate) fn shards(&self) -> u8
        ensures value { result ≡ self.now.state.set.config.shards }
        ensures few { result ≤ 128 }
    {
        self.started.len()
    }

    /// The round that is open, of at most 128 shards, rising; all of one that isn't are done.
    pub(crate) fn round(&self) -> &Round
        ensures moving { moving result.now ≡ self.now.state.moving }
        ensures few { length self.now.state.moving ≤ 128 }
        ensures rising { self.now.state.moving ≡ flat_map (λ s. at_shard s self.now.state.moving) all_shards }
    {
        self.round.stamp();
        &self.round
    }
}

// The moves.
impl Coordinator {
    /// A region is registered.
    pub(crate) fn enter(&mut self, r: &Incarnation, out: &mut Out)
        requires room { 0 < out.old.spare }
        requires spare { 0 < self.old.spare }
        requires node { is_node self.old.script r.now ≡ true }
        requires fresh { is_among r.now (registered self.old.state) ≡ false }
        requires few { length (registered self.old.state) < 16 }
        ensures items { out.new.items ≡ out.old.items ++ item.Fact (fact.Registered r.now) ∷ [] }
        ensures state { self.new.state ≡ coordinator_after self.old.state (told (fact.Registered r.now)) }
        ensures script { self.new.script ≡ self.old.script }
        ensures spare { out.new.spare + 1 ≡ out.old.spare }
        ensures entries { self.new.spare + 1 ≡ self.old.spare }
        ensures places { self.new.places ≡ self.old.places }
    {
        self.store.registered(*r);
        out.push(Item::Fact(Fact::Registered(*r)));
    }

    /// A region is lost: its shards have no homes, and those of the round are done; it isn't
    /// awaited for the others, and where it was the last, the owner is told to hand the shard off.
    pub(crate) fn terminate(&mut self, r: &Incarnation, out: &mut Out)
        requires store { 1 ≤ self.old.spare }
        requires registered { is_among r.now (registered self.old.state) ≡ true }
        requires room { length (flat_map item_of (terminate r.now self.old.state)) ≤ out.old.spare }
        ensures items { out.new.items ≡ out.old.items ++ flat_map item_of (terminate r.now self.old.state) }
        ensures state { self.new.state ≡ fold coordinator_after self.old.state (terminate r.now self.old.state) }
        ensures script { self.new.script ≡ self.old.script }
        ensures entries { self.new.state.entries ≡ self.old.state.entries ++ fact.Terminated r.now ∷ [] }
        ensures spare { out.new.spare + length (flat_map item_of (terminate r.now self.old.state)) ≡ out.old.spare }
        ensures store { self.new.spare + 1 ≡ self.old.spare }
        ensures places { self.new.places ≡ self.old.places }
    {
        out.push(Item::Fact(Fact::Terminated(*r)));
        lose_all(&mut self.round, &self.who, r, out);
        self.store.terminated(*r);
    }

    /// A shard that isn't moving gets a home, where it isn't started yet.
    pub(crate) fn place(&mut self, s: ShardNo, r: &Incarnation, out: &mut Out)
        requires room { 0 < out.old.spare }
        requires spare { 0 < self.old.spare }
        requires shard { is_shard self.old.script s ≡ true }
        requires registered { is_among r.now (registered self.old.state) ≡ true }
        requires homeless { is_none (home_of self.old.state s) ≡ true }
        requires still { is_moving self.old.state s ≡ false }
        ensures items { out.new.items ≡ out.old.items ++ item.Fact (fact.Allocated s r.now) ∷ [] }
        ensures state { self.new.state ≡ coordinator_after self.old.state (told (fact.Allocated s r.now)) }
        ensures regions { registered self.new.state ≡ registered self.old.state }
        ensures script { self.new.script ≡ self.old.script }
        ensures spare { out.new.spare + 1 ≡ out.old.spare }
        ensures entries { self.new.spare + 1 ≡ self.old.spare }
        ensures places { self.new.places ≡ self.old.places }
    {
        self.store.allocated(s, *r);
        self.started.set(s, false);
        out.push(Item::Fact(Fact::Allocated(s, *r)));
    }

    /// Where the stamp is the round's, nobody is awaited for the shard and the region is its owner,
    /// the shard is done, and has no home any more. It answers whether this is so.
    pub(crate) fn stop(&mut self, s: ShardNo, given: &Stamp, from: &Incarnation) -> bool
        requires spare { 0 < self.old.spare }
        requires shard { is_shard self.old.script s ≡ true }
        ensures value { result ≡ is_stopped_by from.now s given.now self.old.state }
        ensures ignored { result ≡ false → self.new.state ≡ self.old.state }
        ensures state { result ≡ true → self.new.state ≡ coordinator_after self.old.state (told (fact.Deallocated s)) }
        ensures script { self.new.script ≡ self.old.script }
        ensures kept { result ≡ false → self.new.spare ≡ self.old.spare }
        ensures entries { result ≡ true → self.new.spare + 1 ≡ self.old.spare }
        ensures places { self.new.places ≡ self.old.places }
    {
        match self.round.stopped(s, *given, *from) {
            Step::Done => {
                self.store.deallocated(s);
                self.started.set(s, false);
                true
            }
            _ => false,
        }
    }

    /// A shard is started.
    pub(crate) fn mark_started(&mut self, s: ShardNo)
        requires shard { is_shard self.old.script s ≡ true }
        ensures state { self.new.state ≡ coordinator_after self.old.state (started s) }
        ensures kept { self.new.state.entries ≡ self.old.state.entries }
        ensures script { self.new.script ≡ self.old.script }
        ensures entries { self.new.spare ≡ self.old.spare }
        ensures places { self.new.places ≡ self.old.places }
    {
        self.started.set(s, true);
    }

    /// A region leaves, unless it does so already.
    pub(crate) fn mark_leaving(&mut self, r: &Incarnation)
        requires place { 1 ≤ self.old.places }
        ensures state { self.new.state ≡ coordinator_after self.old.state (quits r.now) }
        ensures kept { self.new.state.entries ≡ self.old.state.entries }
        ensures script { self.new.script ≡ self.old.script }
        ensures entries { self.new.spare ≡ self.old.spare }
        ensures places { length self.new.state.quitting + self.new.places ≡ length self.old.state.quitting + self.old.places }
        ensures least { self.old.places ≤ self.new.places + 1 }
    {
        if !self.quitting.has(r) {
            self.quitting.push(r);
        }
    }

    /// Where the stamp is the round's and the region is awaited for the shard, it is so no longer.
    /// It answers what comes next for the shard.
    pub(crate) fn mark_acknowledged(
        &mut self,
        s: ShardNo,
        given: &Stamp,
        from: &Incarnation,
    ) -> Step
        ensures posts { flat_map item_of (acknowledge from.now s given.now self.old.state) ≡ flat_map item_of (step_posts self.new.state.who (stamp self.new.state) s result) }
        ensures state { self.new.state ≡ fold coordinator_after self.old.state (acknowledge from.now s given.now self.old.state) }
        ensures kept { self.new.state.entries ≡ self.old.state.entries }
        ensures script { self.new.script ≡ self.old.script }
        ensures entries { self.new.spare ≡ self.old.spare }
        ensures places { self.new.places ≡ self.old.places }
    {
        self.round.acked(s, *given, *from)
    }

    /// Where no round is open, the next one begins, of these shards, of which there are some; each
    /// has a home, which is its owner.
    pub(crate) fn open(&mut self, shards: &ShardSet, next: &Stamp)
        requires closed { is_empty self.old.state.moving ≡ true }
        requires homed { AreHomed shards.now self.old.state }
        requires some { is_empty (shards_in shards.now self.old.state) ≡ false }
        requires next { next.now ≡ next_stamp self.old.state }
        ensures state { self.new.state ≡ opened (shards_in shards.now self.old.state) self.old.state }
        ensures script { self.new.script ≡ self.old.script }
        ensures entries { self.new.spare ≡ self.old.spare }
        ensures places { self.new.places ≡ self.old.places }
    {
        self.store.entries();
        let loads = self.store.lent_loads();
        self.round = Round::begin(*next, *shards, loads.as_slice());
    }

    /// A packet is posted; the state stays.
    pub(crate) fn post(&self, to: &Incarnation, body: &Body, out: &mut Out)
        requires room { 0 < out.old.spare }
        ensures items { out.new.items ≡ out.old.items ++ item.Post (record { from = self.now.state.who; to = to.now; body = body.now }) ∷ [] }
        ensures spare { out.new.spare + 1 ≡ out.old.spare }
    {
        out.push(Item::Post(Packet {
            from: self.who,
            to: *to,
            body: *body,
        }));
    }
}
