//! A world, order by order.
ghost use Rattle.std.specs.Prelude.{◌≡◌, ℕ, None, Some, IfOk, IfNone, IfSome, IsSome, IsTrue, OnOk, fold, replicate, slice_get};
ghost use Rattle.yard_model.specs.Era.{opening_of};
ghost use Rattle.yard_model.specs.Safe.{safe};
ghost use Rattle.yard_model.specs.Script.{IsScript};
ghost use Rattle.yard_model.specs.World.{given_world, new_world, number_step, wire_limit};
ghost use Rattle.shard_store.specs.Stores.{lists_at};
ghost use Rattle.world_sim.specs.declared.fault.StepFault.TheVariants as fault;
ghost use Rattle.world_sim.specs.Given.{IsGiven};
ghost use Rattle.world_sim.specs.Played.{Answers, IsKnown, LineSettles, Settling, Steps, made_of};
ghost use Rattle.world_sim.specs.Yard.{IsSeen};

use crate::beginning::{book_of, first_book, first_numbers, given_numbers, yard_of};
use crate::fault::StepFault;
use crate::laws::{made_is_known, made_is_safe, standing_is_kept};
use crate::numbers::greatest_number;
use crate::yard::Yard;
use behaviour_core::Behaviour;
use settle_laws::worlds::{given_may_settle, settle_line_settles, stores_settle};
use shard_store::Stores;
use std::alloc::{AllocError, Global};
use std::marker::Model;
use std::snapshot::Snapshot;
use trace_notes::{Notes, Told};
use yard_model::{Charter, Line};

/// All nodes of a script, one step after the other: the members, the packets between them, and the
/// leases. It begins before the script's first order, or with given stores, which it settles. Seen as
/// the script, what it began with, how many of the orders were played, and what ended it.
#[derive(Drop)]
pub struct World<B: Behaviour> {
    pub(crate) script: Snapshot<Charter>,
    pub(crate) given: Option<Origin>,
    pub(crate) yard: Yard<B>,
    pub(crate) count: u32,
    pub(crate) fault: Option<StepFault>,
}

/// What a world of given stores began with: the stores, which contracts see, and the version of the
/// behaviours.
#[derive(Drop)]
pub(crate) struct Origin {
    pub(crate) stores: Snapshot<Stores>,
    pub(crate) version: u8,
}

impl<B: Behaviour> Model for World<B> {
    ghost use Rattle.world_sim.specs.Played.{Played};
    ghost use Rattle.world_sim.specs.World.{IsWorld, given_in};

    ghost Value = { Played };

    ghost view = { λ w. record { script = w.script.value; given = given_in w.given; count = w.count; fault = w.fault } };

    ghost invariant = { λ w. IsWorld w.script.value (given_in w.given) w.yard w.count w.fault };
}

impl<B: Behaviour + Copy + Drop> World<B> {
    /// The world of a script before its first order, whose behaviour begins in version 1. The only
    /// error is want of memory.
    pub fn new(alloc: Global, charter: &Charter, behaviour: B) -> Result<World<B>, AllocError>
        requires { B.kind_of behaviour ≡ charter.now.config.kind }
        ensures { IfOk result (λ w. w ≡ record { script = charter.now; given = None; count = 0; fault = None }) }
    {
        let own = charter.copy()?;
        World::of(alloc, own, behaviour)
    }

    /// The same, which keeps the charter.
    pub fn of(alloc: Global, charter: Charter, behaviour: B) -> Result<World<B>, AllocError>
        requires { B.kind_of behaviour ≡ charter.config.kind }
        ensures { IfOk result (λ w. w ≡ record { script = charter; given = None; count = 0; fault = None }) }
    {
        standing_is_kept();
        let script = Snapshot::of(&charter);
        let yard = new_yard(alloc, charter, behaviour)?;
        Ok(World {
            script,
            given: None,
            yard,
            count: 0,
            fault: None,
        })
    }

    /// The orders of the script, of which the played ones are the first.
    pub fn orders(&self) -> &[Line]
        requires new { self.now.given ≡ None }
        requires going { self.now.fault ≡ None }
        ensures { result.now ≡ self.now.script.orders }
    {
        self.yard.scene.charter().orders()
    }

    /// The world of given stores of the script, in which every send of it is ordered, no node is up and
    /// nothing is posted. Their lists are lawful, no slot is held, no number of an incarnation in them is
    /// above 4,000,000,000, and the wire has room for the packets of their settling; node 1 goes on past its
    /// numbers there. The only error is want of memory.
    pub fn from_stores(
        alloc: Global,
        charter: &Charter,
        behaviour: B,
        stores: Stores,
    ) -> Result<World<B>, AllocError>
        requires kind { B.kind_of behaviour ≡ charter.now.config.kind }
        requires script { stores.script ≡ charter.now }
        requires given { IsGiven charter.now (B.version_of behaviour) (lists_at charter.now.config stores.places) }
        ensures { IfOk result (λ w. w ≡ record { script = charter.now; given = Some (record { version = B.version_of behaviour; lists = lists_at charter.now.config stores.places }); count = 0; fault = None }) }
    {
        let own = charter.copy()?;
        let shards = charter.config().shards;
        let producers = charter.config().producers;
        let number = greatest_number(&stores, shards, producers);
        World::from_given(alloc, own, behaviour, stores, number)
    }

    /// The same, which keeps the charter, where the greatest number of an incarnation of node 1 in the lists
    /// is known, 0 where there is none: so no list is read. `into_stores` gives the charter back.
    pub fn from_given(
        alloc: Global,
        charter: Charter,
        behaviour: B,
        stores: Stores,
        number: u32,
    ) -> Result<World<B>, AllocError>
        requires kind { B.kind_of behaviour ≡ charter.config.kind }
        requires script { stores.script ≡ charter }
        requires given { IsGiven charter (B.version_of behaviour) (lists_at charter.config stores.places) }
        requires number { (v : ℕ) → number ≡ fold number_step 0 (opening_of v (lists_at charter.config stores.places)) }
        ensures { IfOk result (λ w. w ≡ record { script = charter; given = Some (record { version = B.version_of behaviour; lists = lists_at charter.config stores.places }); count = 0; fault = None }) }
    {
        standing_is_kept();
        let script = Snapshot::of(&charter);
        let given = Origin {
            stores: Snapshot::of(&stores),
            version: behaviour.version(),
        };
        let yard = given_yard(alloc, charter, behaviour, stores, number)?;
        Ok(World {
            script,
            given: Some(given),
            yard,
            count: 0,
            fault: None,
        })
    }

    /// Settles what was given: node 1 comes up, takes every queue, and runs until all is recorded and
    /// confirmed. Every send of the script is settled then, the lists are lawful and go on from the given
    /// ones, and nobody holds a slot. The only error is want of memory: then a beginning of the facts was
    /// told, and the world is spent.
    pub fn settle<N: Notes>(&mut self, out: &mut Told<N>) -> Result<(), AllocError>
        requires given { IsSome self.old.given }
        requires first { self.old.count ≡ 0 }
        requires going { self.old.fault ≡ None }
        ensures { IfSome self.old.given (λ g. Settling self.old g out.old result self.new out.new) }
    {
        standing_is_kept();
        given_may_settle();
        stores_settle();
        match self.yard.settle(out) {
            Ok(()) => {
                self.count = 1;
                Ok(())
            }
            Err(_) => {
                self.fault = Some(StepFault::OutOfMemory);
                Err(AllocError)
            }
        }
    }

    /// Plays the next order, and tells its facts; where memory runs out, a beginning of them. A world
    /// that is spent answers what ended it. What the orders told so far is safe at each prefix: at most
    /// one incarnation of an entity is live, which holds its shard's lease, each state that is shown is
    /// its journal's, and the lists are lawful; and what the world is then, its wire, the lists of its
    /// stores and the state of each node, is what the queries answer of that trace. A line that settles
    /// leaves every send so far settled.
    pub fn step<N: Notes>(&mut self, line: &Line, out: &mut Told<N>) -> Result<(), StepFault>
        requires new { self.old.given ≡ None }
        requires next { IfNone self.old.fault (slice_get self.old.script.orders self.old.count ≡ Some line.now) }
        ensures steps { Steps self.old line.now out.old result self.new out.new }
        ensures safe { IsTrue (safe self.new.script (made_of self.new.script self.new.count).facts) }
        ensures known { IsKnown self.new.script self.new.count }
        ensures settles { OnOk result (LineSettles self.old line.now) }
    {
        made_is_safe();
        made_is_known();
        if let Some(fault) = self.fault {
            return Err(fault);
        }
        self.play(line, out)
    }

    /// Plays the next order, where the world isn't spent.
    fn play<N: Notes>(&mut self, line: &Line, out: &mut Told<N>) -> Result<(), StepFault>
        requires new { self.old.given ≡ None }
        requires going { self.old.fault ≡ None }
        requires next { slice_get self.old.script.orders self.old.count ≡ Some line.now }
        ensures answers { Answers self.old line.now out.old result self.new out.new }
        ensures settles { OnOk result (LineSettles self.old line.now) }
    {
        standing_is_kept();
        settle_line_settles();
        match self.yard.play_line(line, out) {
            Ok(()) => {}
            Err(_) => {
                self.fault = Some(StepFault::OutOfMemory);
                return Err(StepFault::OutOfMemory);
            }
        }
        self.count += 1;
        if self.yard.is_full() {
            self.fault = Some(StepFault::WireFull);
            return Err(StepFault::WireFull);
        }
        Ok(())
    }
}

/// The parts of a world of given stores. The only error is want of memory.
fn given_yard<B: Behaviour + Copy + Drop>(
    alloc: Global,
    charter: Charter,
    behaviour: B,
    stores: Stores,
    number: u32,
) -> Result<Yard<B>, AllocError>
    requires kind { B.kind_of behaviour ≡ charter.config.kind }
    requires script { stores.script ≡ charter }
    requires given { IsGiven charter (B.version_of behaviour) (lists_at charter.config stores.places) }
    requires number { (v : ℕ) → number ≡ fold number_step 0 (opening_of v (lists_at charter.config stores.places)) }
    ensures seen { IfOk result (λ y. IsSeen y (given_world charter (B.version_of behaviour) (lists_at charter.config stores.places))) }
    ensures script { IfOk result (λ y. y.script ≡ charter) }
    ensures version { IfOk result (λ y. y.version ≡ 0) }
    ensures known { IfOk result (λ y. IsScript y.script) }
{
    let numbers = given_numbers(alloc, &charter, number)?;
    let book = book_of(alloc, stores)?;
    let yard = yard_of(alloc, charter, behaviour, book, numbers)?;
    Ok(yard)
}

/// The version of behaviours that is in force at first.
const FIRST: u8 = 1;

/// The parts of a world in which no node is up and nothing is posted. The only error is want of
/// memory.
fn new_yard<B: Behaviour + Copy + Drop>(
    alloc: Global,
    charter: Charter,
    behaviour: B,
) -> Result<Yard<B>, AllocError>
    requires { B.kind_of behaviour ≡ charter.config.kind }
    ensures seen { IfOk result (λ y. IsSeen y (new_world charter wire_limit)) }
    ensures script { IfOk result (λ y. y.script ≡ charter) }
    ensures version { IfOk result (λ y. y.version ≡ 0) }
    ensures ups { IfOk result (λ y. y.ups ≡ replicate charter.config.nodes 0) }
    ensures ordered { IfOk result (λ y. y.ordered ≡ replicate charter.config.producers 0) }
    ensures known { IfOk result (λ y. IsScript y.script) }
{
    let behaviour = behaviour.at_version(FIRST);
    let book = first_book(alloc, &charter)?;
    let numbers = first_numbers(alloc, &charter)?;
    let yard = yard_of(alloc, charter, behaviour, book, numbers)?;
    Ok(yard)
}
