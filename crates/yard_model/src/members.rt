//! The members of the cluster, as a view or a packet carries them.
ghost use Rattle.std.specs.Prelude.{◌≡◌, ◌<◌, false, nat_le, IsTrue, [], ◌∷◌, ◌++◌, length, slice_get, slice_index_or};
ghost use Rattle.std.specs.List.{list_all};
ghost use Rattle.std.specs.Cmp.{partial_equiv_from_equiv};
ghost use Rattle.std.specs.Cmp.Lexicographic.{pointwise};
ghost use Rattle.std.proofs.lemmas.Cmp.{lists_equiv};
ghost use Rattle.yard_model.specs.contracts.incarnation.IncarnationEq.TheImpl.Laws as incarnation_laws;
ghost use Rattle.yard_model.specs.Members.{has_node, are_of_different_nodes};
ghost use Rattle.yard_model.specs.Words.{is_among, is_empty, without};

use crate::incarnation::Incarnation;
use crate::number::NodeNo;
use std::marker::Model;

/// At most 16 incarnations of different nodes, oldest first; seen as their list. Their nodes and their
/// numbers lie apart, so that none of the bytes between them is moved about with a view.
#[derive(Clone, Copy, Debug)]
pub struct Members {
    numbers: [u32; 16],
    nodes: [NodeNo; 16],
    len: u8,
}

impl Model for Members {
    ghost use Rattle.std.specs.Prelude.{List, length, map, take};
    ghost use Rattle.yard_model.specs.declared.incarnation.Incarnation.{Incarnation};
    ghost use Rattle.yard_model.specs.Members.{AreMembers, paired, cells_of_nodes, cells_of_numbers, count_of};
    ghost use Rattle.yard_model.specs.Padded.{padded};

    ghost Value = { List Incarnation };

    ghost view = { λ n. take n.len (paired n.nodes n.numbers) };

    ghost invariant = { λ n. AreMembers n.nodes n.numbers n.len };

    ghost inverse = { λ v. record { numbers = padded 16 0 (map (λ x. x.number) v); nodes = padded 16 1 (map (λ x. x.node) v); len = length v } };

    ghost inverse_ok = { λ n h i. record { numbers = cells_of_numbers h i; nodes = cells_of_nodes h i; len = count_of h i } };
}

pub(crate) const NO_MEMBER: Incarnation = Incarnation {
    node: NodeNo::FIRST,
    number: 0,
};

impl Members {
    /// No members.
    pub fn empty() -> Members
        ensures { result ≡ [] }
    {
        Members {
            numbers: [0; 16],
            nodes: [NodeNo::FIRST; 16],
            len: 0,
        }
    }

    /// These members and a younger one, whose node is not among them yet.
    pub fn with(self, item: Incarnation) -> Members
        requires room { length self < 16 }
        requires other { has_node item.node self ≡ false }
        ensures { result ≡ self ++ item ∷ [] }
    {
        let mut members = self;
        members.numbers[members.len as usize] = item.number;
        members.nodes[members.len as usize] = item.node;
        members.len += 1;
        members
    }

    /// These members but this one.
    pub fn without(&self, who: &Incarnation) -> Members
        ensures { result ≡ without who.now self.now }
    {
        let mut rest = Members::empty();
        for place in 0..self.len() {
            let member = self.at(place);
            if *who != member {
                rest = rest.with(member);
            }
        }
        rest
    }

    /// How many there are.
    pub fn len(&self) -> usize
        ensures len { result ≡ length self.now }
        ensures fits { length self.now < 17 }
        ensures different { IsTrue (are_of_different_nodes self.now) }
    {
        self.len as usize
    }

    /// Whether there are none.
    pub fn is_empty(&self) -> bool
        ensures { result ≡ is_empty self.now }
    {
        self.len == 0
    }

    /// The member at a place, the oldest at 0; None exactly where there is none.
    pub fn get(&self, place: usize) -> Option<Incarnation>
        ensures { result ≡ slice_get self.now place }
    {
        if place < self.len() {
            Some(self.at(place))
        } else {
            None
        }
    }

    /// Whether this incarnation is a member.
    pub fn has(&self, who: &Incarnation) -> bool
        ensures { result ≡ is_among who.now self.now }
    {
        for place in 0..self.len() {
            if *who == self.at(place) {
                return true;
            }
        }
        false
    }

    /// Whether a member is of this node.
    pub fn has_node(&self, node: NodeNo) -> bool
        ensures { result ≡ has_node node self.now }
    {
        for place in 0..self.len() {
            if self.at(place).node == node {
                return true;
            }
        }
        false
    }

    /// Whether none of them has a number above this one.
    pub fn have_numbers_to(&self, limit: u32) -> bool
        ensures { result ≡ list_all (λ x. nat_le x.number limit) self.now }
    {
        for place in 0..self.len() {
            if self.at(place).number > limit {
                return false;
            }
        }
        true
    }

    /// Whether each is that of as many others.
    fn has_each(&self, other: &Members) -> bool
        requires { length self.now ≡ length other.now }
        ensures { result ≡ pointwise ⟦<Incarnation as PartialEq>⟧.eq self.now other.now }
    {
        for place in 0..self.len() {
            if self.at(place) != other.at(place) {
                return false;
            }
        }
        true
    }

    /// The member at a place.
    fn at(&self, place: usize) -> Incarnation
        requires { place < length self.now }
        ensures { result ≡ slice_index_or self.now place result }
    {
        Incarnation {
            node: self.nodes[place],
            number: self.numbers[place],
        }
    }
}

impl PartialEq for Members {
    ghost eq = { pointwise ⟦<Incarnation as PartialEq>⟧.eq };

    ghost laws = { partial_equiv_from_equiv (lists_equiv incarnation_laws.laws-law) };

    fn eq(&self, other: &Members) -> bool {
        self.len() == other.len() && self.has_each(other)
    }
}

impl Eq for Members {
    ghost laws = { lists_equiv incarnation_laws.laws-law };
}
