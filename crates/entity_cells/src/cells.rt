//! The cells of a node's entities, and what is stashed for each.
ghost use Rattle.std.specs.Prelude.{◌≡◌, ℕ, ◌+◌, ◌-◌, ◌*◌, ◌^◌, ◌<◌, ◌≤◌, ◌↔◌, List, [], ◌∷◌, ◌++◌, length, fold, drop, replicate, slice_set, slice_index_or, IfOk, MatchOption, IsNone, IfSome, IfNone, IsTrue, vec_capacity};
ghost use Rattle.yard_model.specs.declared.fact.Fact.TheVariants as fact;
ghost use Rattle.yard_model.specs.declared.packet.Body.TheVariants as body;
ghost use Rattle.yard_model.specs.declared.incarnation.Incarnation.{Incarnation};
ghost use Rattle.yard_model.specs.declared.input.Phase.TheVariants as phase;
ghost use Rattle.yard_model.specs.declared.state.State.{State};
ghost use Rattle.yard_model.specs.Behaviour.{is_valid, are_applicable, apply};
ghost use Rattle.yard_model.specs.Move.{told, post, passivates};
ghost use Rattle.envelope_pool.specs.Keyed.{list_of};
ghost use Rattle.entity_cells.specs.Celled.{celled, celled_after, celled_at, all_made, AreMade, IsSlot};

use crate::cell::Cell;
use behaviour_core::Behaviour;
use consumer_ctl::Stash;
use envelope_pool::Pool;
use std::alloc::{AllocError, Global};
use std::marker::{Model, PhantomData};
use yard_model::{Command, Event, Keep, Message, Phase, ProducerNo, State};

/// Where the entity of each name stands, by the place of the name, and what is stashed for it. A cell
/// is made where its entity is first spoken of; till then it is seen as the first one, which stays as
/// it is made. All stashes lie in one pool, with room for a window of messages for each, so that none
/// is ever in want of room for another's messages. Memory that no cell and no stash has come to yet
/// isn't touched.
#[derive(Drop)]
pub struct Cells {
    slots: Vec<u16>,
    made: Vec<Cell>,
    stashes: Pool<Message>,
    window: u8,
    holds: PhantomData<(Message, Command)>,
}

impl Model for Cells {
    ghost use Rattle.std.specs.Prelude.{List, vec_capacity};
    ghost use Rattle.entity_cells.specs.Celled.{Celled, AreMade, AreStashed, all_made, all_stashing};

    ghost Value = { List Celled };

    ghost view = { λ c. all_stashing c.window (all_made c.slots.items c.made.items) c.stashes.lists };

    ghost invariant = { λ c. AreMade c.slots.items c.made.items (vec_capacity c.made) × AreStashed c.window (all_made c.slots.items c.made.items) c.stashes };
}

impl Cells {
    /// Of so many entities that weren't started yet, with so many producers, and room for a window
    /// of messages for each. The only error is want of memory.
    pub fn new(alloc: Global, count: usize, producers: u8, window: u8) -> Result<Cells, AllocError>
        requires few { count ≤ 1000 }
        requires producers { producers ≤ 32 }
        requires window { window ≤ 64 }
        ensures { IfOk result (λ c. c ≡ replicate count (celled producers window)) }
    {
        let slots = no_slots(alloc, count)?;
        let made = only_blank(alloc, count, producers)?;
        let room = room_for(count, window);
        let stashes = Pool::new(alloc, room, count as u16)?;
        Ok(Cells {
            slots,
            made,
            stashes,
            window,
            holds: PhantomData,
        })
    }

    /// Where an entity is between its start and its end.
    pub fn phase(&self, at: usize) -> Phase
        requires { at < length self.now }
        ensures { result ≡ (celled_at self.now at).cell.phase }
    {
        cell_in(&self.slots, &self.made, at).phase()
    }

    /// Whether it asked for its stop.
    pub fn is_passivating(&self, at: usize) -> bool
        requires { at < length self.now }
        ensures { result ≡ (celled_at self.now at).cell.passivating }
    {
        cell_in(&self.slots, &self.made, at).is_passivating()
    }

    /// How its next write fails; None exactly where it isn't to fail.
    pub fn armed(&self, at: usize) -> Option<Keep>
        requires { at < length self.now }
        ensures { result ≡ (celled_at self.now at).cell.armed }
    {
        cell_in(&self.slots, &self.made, at).armed()
    }

    /// What its journal leads to, while it takes commands.
    #[inline(always)]
    pub fn state(&self, at: usize) -> &State
        requires { at < length self.now }
        ensures { result.now ≡ (celled_at self.now at).state }
    {
        cell_in(&self.slots, &self.made, at).state()
    }

    /// Its journal goes on with these events, which are applicable one after the other.
    #[inline(always)]
    pub fn apply<B: Behaviour>(&mut self, at: usize, behaviour: &B, events: &[Event])
        requires there { at < length self.old }
        requires valid { IsTrue (is_valid (B.kind_of behaviour.now) (celled_at self.old at).state) }
        requires events { IsTrue (are_applicable (celled_at self.old at).state events.now) }
        ensures { self.new ≡ slice_set self.old at (record (celled_at self.old at) { state = fold apply (celled_at self.old at).state events.now }) }
    {
        let slot = made_at(&mut self.slots, &mut self.made, at);
        self.made[slot].apply(behaviour, events);
    }

    /// How many messages are stashed for it.
    pub fn stashed(&self, at: usize) -> usize
        requires { at < length self.now }
        ensures count { result ≡ length (celled_at self.now at).cell.stash }
        ensures fits { length (celled_at self.now at).cell.stash ≤ (celled_at self.now at).window }
    {
        self.stashes.len(at as u16) as usize
    }

    /// Up to which number a producer was asked.
    pub fn reach(&self, at: usize, p: ProducerNo) -> u32
        requires there { at < length self.now }
        requires producer { p - 1 < length (celled_at self.now at).cell.reach }
        ensures { result ≡ slice_index_or (celled_at self.now at).cell.reach (p - 1) 0 }
    {
        cell_in(&self.slots, &self.made, at).reach(p)
    }

    /// It is started.
    pub fn start(&mut self, at: usize)
        requires { at < length self.old }
        ensures { (x : Incarnation) (e : List ℕ) → self.new ≡ slice_set self.old at (celled_after (celled_at self.old at) (told (fact.Start x e))) }
    {
        let slot = made_at(&mut self.slots, &mut self.made, at);
        self.made[slot].start();
    }

    /// It takes commands from now on, at this state; what was stashed goes into `pending`, an empty
    /// stash.
    pub fn activate(&mut self, at: usize, state: &State, pending: &mut Stash)
        requires there { at < length self.old }
        requires window { pending.old.window ≡ (celled_at self.old at).window }
        requires empty { pending.old.messages ≡ [] }
        ensures cell { (x : Incarnation) (e : List ℕ) (n : ℕ) (st : State) → self.new ≡ slice_set self.old at (record (celled_after (celled_at self.old at) (told (fact.Active x e n st))) { state = state.now }) }
        ensures pending { pending.new ≡ record { messages = (celled_at self.old at).cell.stash; window = (celled_at self.old at).window } }
    {
        let slot = made_at(&mut self.slots, &mut self.made, at);
        self.made[slot].activate(state);
        move_out(&mut self.stashes, at as u16, pending);
    }

    /// It is stopped; what is stashed stays.
    pub fn stop(&mut self, at: usize)
        requires { at < length self.old }
        ensures { (x : Incarnation) (e : List ℕ) → self.new ≡ slice_set self.old at (celled_after (celled_at self.old at) (told (fact.Stop x e))) }
    {
        let slot = made_at(&mut self.slots, &mut self.made, at);
        self.made[slot].stop();
    }

    /// Its write failed, and it is gone; what is stashed stays.
    pub fn fail(&mut self, at: usize)
        requires { at < length self.old }
        ensures { (x : Incarnation) (e : List ℕ) → self.new ≡ slice_set self.old at (celled_after (celled_at self.old at) (told (fact.WriteFailed x e))) }
    {
        let slot = made_at(&mut self.slots, &mut self.made, at);
        self.made[slot].fail();
    }

    /// Its next write is to fail.
    pub fn arm(&mut self, at: usize, keep: Keep)
        requires { at < length self.old }
        ensures { (e : List ℕ) → self.new ≡ slice_set self.old at (celled_after (celled_at self.old at) (told (fact.Armed e keep))) }
    {
        let slot = made_at(&mut self.slots, &mut self.made, at);
        self.made[slot].arm(keep);
    }

    /// It passivates.
    pub fn passivate(&mut self, at: usize)
        requires { at < length self.old }
        ensures { (e : List ℕ) → self.new ≡ slice_set self.old at (celled_after (celled_at self.old at) (passivates e)) }
    {
        let slot = made_at(&mut self.slots, &mut self.made, at);
        self.made[slot].passivate();
    }

    /// It is told to stop, where it was started.
    pub fn ask_stop(&mut self, at: usize)
        requires { at < length self.old }
        ensures { (x y : Incarnation) (e : List ℕ) → self.new ≡ slice_set self.old at (celled_after (celled_at self.old at) (post x y (body.StopEntity e))) }
    {
        let slot = made_at(&mut self.slots, &mut self.made, at);
        self.made[slot].ask_stop();
    }

    /// A message is stashed for it, which there is room for.
    pub fn put(&mut self, at: usize, message: Message)
        requires there { at < length self.old }
        requires room { length (celled_at self.old at).cell.stash < (celled_at self.old at).window }
        ensures { (x : Incarnation) → self.new ≡ slice_set self.old at (celled_after (celled_at self.old at) (told (fact.Stashed x message))) }
    {
        match self.stashes.push(at as u16, message) {
            Ok(()) => {}
            Err(_) => unreachable!(),
        }
    }

    /// The oldest message that is stashed for it is taken out, while it doesn't exist; None exactly
    /// where there is none.
    pub fn pop(&mut self, at: usize) -> Option<Message>
        requires there { at < length self.old }
        requires gone { (celled_at self.old at).cell.phase ≡ phase.Absent }
        ensures empty { IsNone result ↔ ((celled_at self.old at).cell.stash ≡ []) }
        ensures oldest { IfSome result (λ m. (celled_at self.old at).cell.stash ≡ m ∷ drop 1 (celled_at self.old at).cell.stash) }
        ensures cell { IfSome result (λ m. (x : Incarnation) → celled_at self.new at ≡ celled_after (celled_at self.old at) (told (fact.Dropped x m))) }
        ensures unchanged { IfNone result (celled_at self.new at ≡ celled_at self.old at) }
        ensures others { self.new ≡ slice_set self.old at (celled_at self.new at) }
    {
        self.stashes.pop(at as u16)
    }

    /// Nothing is known of it any more.
    pub fn clear(&mut self, at: usize)
        requires { at < length self.old }
        ensures { self.new ≡ slice_set self.old at (celled (length (celled_at self.old at).cell.reach) (celled_at self.old at).window) }
    {
        let slot = self.slots[at] as usize;
        self.made[slot].clear();
        drop_all(&mut self.stashes, at as u16);
    }

    /// A producer was asked up to this number.
    pub fn ask(&mut self, at: usize, p: ProducerNo, up_to: u32)
        requires there { at < length self.old }
        requires producer { p - 1 < length (celled_at self.old at).cell.reach }
        ensures { (x y : Incarnation) (e : List ℕ) (n : ℕ) → self.new ≡ slice_set self.old at (celled_after (celled_at self.old at) (post x y (body.Request p e n up_to))) }
    {
        let slot = made_at(&mut self.slots, &mut self.made, at);
        self.made[slot].ask(p, up_to);
    }
}

/// So many places that have no cell yet.
fn no_slots(alloc: Global, count: usize) -> Result<Vec<u16>, AllocError>
    ensures { IfOk result (λ v. v.items ≡ replicate count 0) }
{
    let slots = vec![in alloc; 0u16; count]?;
    Ok(slots)
}

/// The cell of an entity that wasn't started yet alone, with room for one more for each of so many.
fn only_blank(alloc: Global, count: usize, producers: u8) -> Result<Vec<Cell>, AllocError>
    requires few { count ≤ 1000 }
    requires producers { producers ≤ 32 }
    ensures items { IfOk result (λ v. v.items ≡ celled producers 0 ∷ []) }
    ensures room { IfOk result (λ v. count + 1 ≤ vec_capacity v) }
{
    let mut made = Vec::with_capacity(alloc, count + 1)?;
    made.push(Cell::new(producers))?;
    Ok(made)
}

/// The cell of an entity; the first one where none was made yet.
fn cell_in<'a>(slots: &Vec<u16>, made: &'a Vec<Cell>, at: usize) -> &'a Cell
    requires made { AreMade slots.now.items made.now.items (vec_capacity made.now) }
    requires there { at < length slots.now.items }
    ensures { result.now ≡ celled_at (all_made slots.now.items made.now.items) at }
{
    &made[slots[at] as usize]
}

/// Where the cell of an entity is, which is made where it wasn't yet.
#[inline(always)]
fn made_at(slots: &mut Vec<u16>, made: &mut Vec<Cell>, at: usize) -> usize
    requires made { AreMade slots.old.items made.old.items (vec_capacity made.old) }
    requires there { at < length slots.old.items }
    requires few { length slots.old.items < 2 ^ 16 }
    ensures made { AreMade slots.new.items made.new.items (vec_capacity made.new) }
    ensures seen { all_made slots.new.items made.new.items ≡ all_made slots.old.items made.old.items }
    ensures slot { IsSlot slots.new.items made.new.items at result }
{
    let slot = slots[at] as usize;
    if slot > 0 {
        return slot;
    }
    make(slots, made, at)
}

/// Makes the cell of an entity that has none yet; where it is.
#[inline(never)]
fn make(slots: &mut Vec<u16>, made: &mut Vec<Cell>, at: usize) -> usize
    requires made { AreMade slots.old.items made.old.items (vec_capacity made.old) }
    requires there { at < length slots.old.items }
    requires none { slice_index_or slots.old.items at 0 ≡ 0 }
    requires few { length slots.old.items < 2 ^ 16 }
    ensures made { AreMade slots.new.items made.new.items (vec_capacity made.new) }
    ensures seen { all_made slots.new.items made.new.items ≡ all_made slots.old.items made.old.items }
    ensures slot { IsSlot slots.new.items made.new.items at result }
{
    let slot = made.len();
    let cell = made[0].another();
    push_within(made, cell);
    slots[at] = slot as u16;
    slot
}

/// One cell more at the end, for which there is room.
fn push_within(made: &mut Vec<Cell>, cell: Cell)
    requires { length made.old.items < vec_capacity made.old }
    ensures items { made.new.items ≡ made.old.items ++ cell ∷ [] }
    ensures room { vec_capacity made.old ≤ vec_capacity made.new }
{
    match made.push(cell) {
        Ok(()) => {}
        Err(_) => unreachable!(),
    }
}

/// A window of messages for each of so many.
fn room_for(count: usize, window: u8) -> u16
    requires few { count ≤ 1000 }
    requires window { window ≤ 64 }
    ensures { result ≡ count * window }
{
    count as u16 * u16::from(window)
}

/// The oldest message of a list goes behind those that are pending.
fn move_one(stashes: &mut Pool<Message>, key: u16, pending: &mut Stash)
    requires key { key < length stashes.old.lists }
    requires some { 0 < length (list_of stashes.old key) }
    requires room { length pending.old.messages < pending.old.window }
    ensures lists { stashes.new.lists ≡ slice_set stashes.old.lists key (drop 1 (list_of stashes.old key)) }
    ensures cells { stashes.new.cells ≡ stashes.old.cells }
    ensures pending { pending.new.messages ++ drop 1 (list_of stashes.old key) ≡ pending.old.messages ++ list_of stashes.old key }
    ensures window { pending.new.window ≡ pending.old.window }
{
    match stashes.pop(key) {
        Some(message) => match pending.put(message) {
            Ok(()) => {}
            Err(_) => unreachable!(),
        },
        None => {}
    }
}

/// All messages of a list go into an empty stash.
fn move_out(stashes: &mut Pool<Message>, key: u16, pending: &mut Stash)
    requires key { key < length stashes.old.lists }
    requires empty { pending.old.messages ≡ [] }
    requires room { length (list_of stashes.old key) ≤ pending.old.window }
    ensures lists { stashes.new.lists ≡ slice_set stashes.old.lists key [] }
    ensures cells { stashes.new.cells ≡ stashes.old.cells }
    ensures pending { pending.new ≡ record { messages = list_of stashes.old key; window = pending.old.window } }
{
    for _ in 0..stashes.len(key) {
        move_one(stashes, key, pending);
    }
}

/// All messages of a list are dropped.
fn drop_all(stashes: &mut Pool<Message>, key: u16)
    requires { key < length stashes.old.lists }
    ensures lists { stashes.new.lists ≡ slice_set stashes.old.lists key [] }
    ensures cells { stashes.new.cells ≡ stashes.old.cells }
{
    for _ in 0..stashes.len(key) {
        let _ = stashes.pop(key);
    }
}
