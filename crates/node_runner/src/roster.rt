//! Who is up, between threads.
ghost use Rattle.std.specs.Prelude.{◌≡◌, ◌≤◌, true, false, [], length, map, slice_get, Some, IfOk, IfSome, MatchOption};
ghost use Rattle.yard_model.specs.Genuine.{is_genuine_packet};
ghost use Rattle.yard_model.specs.Members.{has_node};
ghost use Rattle.node_runner.specs.Counted.{and_more};
ghost use Rattle.node_runner.specs.Entered.{is_member, are_members, entered, next_version, view_to};
ghost use Rattle.node_runner.specs.Parcels.{is_confirming, is_within_packet};
ghost use Rattle.yard_model.specs.Words.{without};

use crate::parcel::Run;
use members_by_age::ByAge;
use std::alloc::{AllocError, Global};
use std::marker::PhantomData;
use std::sync::{Mutex, Wait};
use yard_model::{Body, Incarnation, Members, NodeNo, Packet};

/// The incarnations that are up, oldest first, and how often one has come up or gone; and how many packets the
/// workers that are done let go because they couldn't show what these need. The type keeps that each
/// incarnation is of the run's script, with a number of at most 4,000,000,000.
#[derive(Drop)]
pub struct Roster<J: Run> {
    members: ByAge,
    version: u32,
    unshown: u64,
    run: PhantomData<J>,
    ghost fit: { are_members J.script members ≡ true },
}

/// The members and the version, as they were at one moment: what each member is to be told.
#[derive(Drop)]
pub struct Views<J: Run> {
    members: Members,
    version: u32,
    run: PhantomData<J>,
    ghost fit: { are_members J.script members ≡ true },
}

impl<J: Run> Roster<J> {
    /// Nobody is up. The only error is want of memory.
    pub fn new(alloc: Global) -> Result<Roster<J>, AllocError>
        ensures { IfOk result (λ r. (r.members ≡ []) × (r.version ≡ 0)) }
    {
        let members = ByAge::new(alloc)?;
        Ok(Roster {
            members,
            version: 0,
            unshown: 0,
            run: PhantomData,
        })
    }

    /// One comes up, and is the youngest member, unless one of its node is there, or there is no room; what
    /// each is to be told then. The version stands still at its type's end.
    pub fn enter(&mut self, who: Incarnation) -> Views<J>
        requires member { is_member J.script who ≡ true }
        ensures members { self.new.members ≡ entered self.old.members who }
        ensures version { self.new.version ≡ next_version self.old.version }
        ensures views { (result.members ≡ self.new.members) × (result.version ≡ self.new.version) }
    {
        join(&mut self.members, &who);
        self.version = self.version.saturating_add(1);
        self.views()
    }

    /// One is gone; what each is to be told then.
    pub fn leave(&mut self, who: Incarnation) -> Views<J>
        ensures members { self.new.members ≡ without who self.old.members }
        ensures version { self.new.version ≡ next_version self.old.version }
        ensures views { (result.members ≡ self.new.members) × (result.version ≡ self.new.version) }
    {
        self.members.leave(&who);
        self.version = self.version.saturating_add(1);
        self.views()
    }

    /// A worker that is done let so many packets go because it couldn't show what they need.
    pub(crate) fn let_go(&mut self, count: u64)
        ensures same { (self.new.members ≡ self.old.members) × (self.new.version ≡ self.old.version) }
        ensures unshown { self.new.unshown ≡ and_more self.old.unshown count }
    {
        self.unshown = self.unshown.saturating_add(count);
    }

    /// What each is to be told now.
    fn views(&self) -> Views<J>
        ensures { (result.members ≡ self.now.members) × (result.version ≡ self.now.version) }
    {
        Views {
            members: self.members.members(),
            version: self.version,
            run: PhantomData,
        }
    }
}

impl<J: Run> Views<J> {
    /// The view for the member at this place, oldest first. None exactly past the last.
    pub fn packet(&self, place: usize) -> Option<Packet>
        ensures packet { MatchOption result (length self.now.members ≤ place) (λ p. slice_get (map (view_to self.now.version self.now.members) self.now.members) place ≡ Some p) }
        ensures genuine { IfSome result (λ p. is_genuine_packet J.script p ≡ true) }
        ensures within { IfSome result (λ p. is_within_packet p ≡ true) }
        ensures plain { IfSome result (λ p. is_confirming p.body ≡ false) }
    {
        match self.members.get(place) {
            Some(member) => Some(self.packet_to(&member)),
            None => None,
        }
    }

    /// The view for a member.
    fn packet_to(&self, member: &Incarnation) -> Packet
        ensures { result ≡ view_to self.now.version self.now.members member.now }
    {
        Packet {
            from: *member,
            to: *member,
            body: Body::View {
                version: self.version,
                members: self.members,
            },
        }
    }
}

/// One comes up in the shared roster. It may wait.
pub fn enter<J: Run, R: Wait>(rt: &R, roster: &Mutex<Roster<J>>, who: Incarnation) -> Views<J>
    requires member { is_member J.script who ≡ true }
{
    roster.lock(rt).enter(who)
}

/// One is gone from the shared roster. It may wait.
pub fn leave<J: Run, R: Wait>(rt: &R, roster: &Mutex<Roster<J>>, who: Incarnation) -> Views<J> {
    roster.lock(rt).leave(who)
}

/// A worker that is done let so many packets go because it couldn't show what they need. It may wait.
pub(crate) fn let_go<J: Run, R: Wait>(rt: &R, roster: &Mutex<Roster<J>>, count: u64) {
    roster.lock(rt).let_go(count);
}

/// How many packets the workers that are done let go so. It may wait.
pub(crate) fn all_let_go<J: Run, R: Wait>(rt: &R, roster: &Mutex<Roster<J>>) -> u64 {
    roster.lock(rt).unshown
}

/// A younger one joins, where none is of its node and there is room.
fn join(members: &mut ByAge, who: &Incarnation)
    ensures { members.new ≡ entered members.old who.now }
{
    if members.has_node(who.node) || members.len() >= 16 {
        return;
    }
    members.join(who);
}
