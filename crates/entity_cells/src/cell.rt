//! Where the entity of one name stands.
ghost use Rattle.std.specs.Prelude.{◌≡◌, ◌≤◌, ℕ, ◌-◌, ◌<◌, List, length, fold, slice_index_or, IfOk, IsTrue};
ghost use Rattle.yard_model.specs.declared.fact.Fact.TheVariants as fact;
ghost use Rattle.yard_model.specs.declared.packet.Body.TheVariants as body;
ghost use Rattle.yard_model.specs.declared.incarnation.Incarnation.{Incarnation};
ghost use Rattle.yard_model.specs.declared.input.Phase.TheVariants as phase;
ghost use Rattle.yard_model.specs.declared.state.State.{State};
ghost use Rattle.yard_model.specs.Behaviour.{is_valid, are_applicable, apply};
ghost use Rattle.yard_model.specs.Move.{told, post, passivates};
ghost use Rattle.entity_cells.specs.Celled.{celled, celled_after};

use behaviour_core::{Behaviour, apply_all};
use std::marker::{Model, PhantomData};
use yard_model::{Command, Event, Keep, Message, Phase, ProducerNo, State};

/// How many producers there can be.
const PRODUCERS: usize = 32;

/// Where the entity of one name stands: its phase, whether it passivates, whether its next write
/// fails, and up to which number each producer was asked. What is stashed for it is kept elsewhere;
/// it is seen with a stash of none. It takes no memory.
#[derive(Drop)]
pub struct Cell {
    phase: Phase,
    passivating: bool,
    armed: Option<Keep>,
    producers: u8,
    reach: [u32; PRODUCERS],
    state: State,
    holds: PhantomData<(Message, Command)>,
}

impl Model for Cell {
    ghost use Rattle.std.specs.Prelude.{◌≡◌, ◌≤◌, [], length, take};
    ghost use Rattle.entity_cells.specs.Celled.{Celled};

    ghost Value = { Celled };

    ghost view = { λ c. record {
      cell = record { phase = c.phase; passivating = c.passivating; stash = []; armed = c.armed; reach = take c.producers c.reach };
      state = c.state;
      window = 0;
    } };

    ghost invariant = { λ c. (length c.reach ≡ 32) × (c.producers ≤ 32) };
}

impl Cell {
    /// Of an entity that wasn't started yet, with so many producers.
    pub fn new(producers: u8) -> Cell
        requires { producers ≤ 32 }
        ensures { result ≡ celled producers 0 }
    {
        Cell {
            phase: Phase::Absent,
            passivating: false,
            armed: None,
            producers,
            reach: [0; PRODUCERS],
            state: State::NoAccount,
            holds: PhantomData,
        }
    }

    /// One with as many producers, of an entity that wasn't started yet.
    pub fn another(&self) -> Cell
        ensures { result ≡ celled (length self.now.cell.reach) 0 }
    {
        Cell::new(self.producers)
    }

    /// Where it is between its start and its end.
    pub fn phase(&self) -> Phase
        ensures { result ≡ self.now.cell.phase }
    {
        self.phase
    }

    /// Whether it asked for its stop.
    pub fn is_passivating(&self) -> bool
        ensures { result ≡ self.now.cell.passivating }
    {
        self.passivating
    }

    /// How its next write fails; None exactly where it isn't to fail.
    pub fn armed(&self) -> Option<Keep>
        ensures { result ≡ self.now.cell.armed }
    {
        self.armed
    }

    /// What its journal leads to, while it takes commands.
    #[inline(always)]
    pub fn state(&self) -> &State
        ensures { result.now ≡ self.now.state }
    {
        &self.state
    }

    /// Its journal goes on with these events, which are applicable one after the other.
    #[inline(always)]
    pub fn apply<B: Behaviour>(&mut self, behaviour: &B, events: &[Event])
        requires valid { IsTrue (is_valid (B.kind_of behaviour.now) self.old.state) }
        requires events { IsTrue (are_applicable self.old.state events.now) }
        ensures { self.new ≡ record self.old { state = fold apply self.old.state events.now } }
    {
        apply_all(behaviour, &mut self.state, events);
    }

    /// Up to which number a producer was asked.
    pub fn reach(&self, p: ProducerNo) -> u32
        requires { p - 1 < length self.now.cell.reach }
        ensures { result ≡ slice_index_or self.now.cell.reach (p - 1) 0 }
    {
        self.reach[p.get() as usize - 1]
    }

    /// It is started.
    pub fn start(&mut self)
        ensures { (x : Incarnation) (e : List ℕ) → self.new ≡ celled_after self.old (told (fact.Start x e)) }
    {
        self.phase = Phase::Loading;
        self.passivating = false;
        self.armed = None;
    }

    /// It takes commands from now on, at this state.
    pub fn activate(&mut self, state: &State)
        ensures { (x : Incarnation) (e : List ℕ) (n : ℕ) (st : State) → self.new ≡ record (celled_after self.old (told (fact.Active x e n st))) { state = state.now } }
    {
        self.phase = Phase::Active;
        self.reach = [0; PRODUCERS];
        self.state = *state;
    }

    /// It is stopped.
    pub fn stop(&mut self)
        ensures { (x : Incarnation) (e : List ℕ) → self.new ≡ celled_after self.old (told (fact.Stop x e)) }
    {
        self.phase = Phase::Absent;
    }

    /// Its write failed, and it is gone.
    pub fn fail(&mut self)
        ensures { (x : Incarnation) (e : List ℕ) → self.new ≡ celled_after self.old (told (fact.WriteFailed x e)) }
    {
        self.phase = Phase::Absent;
    }

    /// Its next write is to fail.
    pub fn arm(&mut self, keep: Keep)
        ensures { (e : List ℕ) → self.new ≡ celled_after self.old (told (fact.Armed e keep)) }
    {
        self.armed = Some(keep);
    }

    /// It passivates.
    pub fn passivate(&mut self)
        ensures { (e : List ℕ) → self.new ≡ celled_after self.old (passivates e) }
    {
        self.passivating = true;
    }

    /// It is told to stop, where it was started.
    pub fn ask_stop(&mut self)
        ensures { (x y : Incarnation) (e : List ℕ) → self.new ≡ celled_after self.old (post x y (body.StopEntity e)) }
    {
        match self.phase {
            Phase::Absent => {}
            _ => self.phase = Phase::Stopping,
        }
    }

    /// Nothing is known of its entity any more.
    pub fn clear(&mut self)
        ensures { self.new ≡ celled (length self.old.cell.reach) 0 }
    {
        self.phase = Phase::Absent;
        self.passivating = false;
        self.armed = None;
        self.state = State::NoAccount;
        self.reach = [0; PRODUCERS];
    }

    /// A producer was asked up to this number.
    pub fn ask(&mut self, p: ProducerNo, up_to: u32)
        requires { p - 1 < length self.old.cell.reach }
        ensures { (x y : Incarnation) (e : List ℕ) (n : ℕ) → self.new ≡ celled_after self.old (post x y (body.Request p e n up_to)) }
    {
        self.reach[p.get() as usize - 1] = up_to;
    }
}
