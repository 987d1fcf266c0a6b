//! The view of one node.
ghost use Rattle.std.specs.Prelude.{◌≡◌, ◌<◌, ◌↔◌, [], true, false, slice_get, IfOk, IsTrue};
ghost use Rattle.yard_model.specs.Words.{is_among};
ghost use Rattle.membership_view.specs.ByNode.{AreByNode};
ghost use Rattle.membership_view.specs.Known.{Known};

use std::alloc::{AllocError, Global};
use std::marker::Model;
use yard_model::{Incarnation, Members};

/// The newest members that this node has heard of, oldest first; seen as its version and their
/// list. The numbers of the members stand in a table by their nodes, so that whether one is a member
/// is a single look. It takes no memory.
#[derive(Drop)]
pub struct View {
    members: Members,
    // at each node less 1, one more than its member's number; 0 where it has no member
    numbers: [u64; 16],
    version: u32,
}

impl Model for View {
    ghost use Rattle.membership_view.specs.ByNode.{AreByNode};
    ghost use Rattle.membership_view.specs.Known.{Known};

    ghost Value = { Known };

    ghost view = { λ v. record { version = v.version; members = v.members } };

    ghost invariant = { λ v. AreByNode v.members v.numbers };
}

impl View {
    /// The view before any: version 0 and no members.
    pub fn new(alloc: Global) -> Result<View, AllocError>
        ensures version { IfOk result (λ v. v.version ≡ 0) }
        ensures none { IfOk result (λ v. v.members ≡ []) }
    {
        let _ = alloc;
        Ok(View {
            members: Members::empty(),
            numbers: [0; 16],
            version: 0,
        })
    }

    /// Takes these members in place of its own, where `version` is greater than its own. It
    /// answers whether it is; where it isn't, nothing changes.
    pub fn take(&mut self, version: u32, members: &Members) -> bool
        ensures newer { IsTrue result ↔ (self.old.version < version) }
        ensures taken { result ≡ true → self.new ≡ record { version = version; members = members.now } }
        ensures unchanged { result ≡ false → self.new ≡ self.old }
    {
        if version <= self.version {
            return false;
        }
        self.numbers = numbers_of(members);
        self.members = *members;
        self.version = version;
        true
    }

    /// How new it is.
    pub fn version(&self) -> u32
        ensures { result ≡ self.now.version }
    {
        self.version
    }

    /// Whether this incarnation is a member.
    pub fn has(&self, who: Incarnation) -> bool
        ensures { result ≡ is_among who self.now.members }
    {
        self.numbers[usize::from(who.node.get()) - 1] == u64::from(who.number) + 1
    }

    /// The members, oldest first.
    pub fn members(&self) -> Members
        ensures { result ≡ self.now.members }
    {
        self.members
    }

    /// The oldest member; None exactly where there is none.
    pub fn oldest(&self) -> Option<Incarnation>
        ensures { result ≡ slice_get self.now.members 0 }
    {
        self.members.get(0)
    }
}

/// At each node less 1, one more than the number of its member; 0 where it has none.
fn numbers_of(members: &Members) -> [u64; 16]
    ensures { AreByNode members.now result }
{
    let mut numbers = [0; 16];
    for place in 0..members.len() {
        let Some(member) = members.get(place) else {
            unreachable!()
        };
        numbers[usize::from(member.node.get()) - 1] = u64::from(member.number) + 1;
    }
    numbers
}
