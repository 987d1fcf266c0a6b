//! The members by age.
ghost use Rattle.std.specs.Prelude.{◌≡◌, ℕ, ◌+◌, ◌<◌, ◌≤◌, ◌++◌, [], ◌∷◌, false, nat_eq, length, take, slice_get, slice_index_or, Some, IfOk};
ghost use Rattle.std.specs.List.{IsDistinct};
ghost use Rattle.indexmap.specs.IndexMap.{keys};
ghost use Rattle.yard_model.specs.Members.{has_node};
ghost use Rattle.yard_model.specs.Words.{without};
ghost use Rattle.members_by_age.specs.Aged.{HasNodes, members_of};

use indexmap::IndexMap;
use std::alloc::{AllocError, Global};
use std::marker::Model;
use yard_model::{Incarnation, Members, NodeNo};

/// At most 16 incarnations of different nodes, oldest first; seen as their list. The map has an entry
/// for each of the 16 nodes from the beginning: first those of the members, oldest first, then the
/// others. Who comes and goes only moves entries, so it takes memory when it is made and none later.
#[derive(Drop)]
pub struct ByAge {
    numbers: IndexMap<u8, u32>,
    count: u8,
}

impl Model for ByAge {
    ghost use Rattle.std.specs.Prelude.{List};
    ghost use Rattle.yard_model.specs.declared.incarnation.Incarnation.{Incarnation};
    ghost use Rattle.members_by_age.specs.Aged.{AreByAge, members_of};

    ghost Value = { List Incarnation };

    ghost view = { λ b. members_of b.numbers.entries b.count };

    ghost invariant = { λ b. AreByAge b.numbers.entries b.count };
}

impl ByAge {
    /// No members. The only error is want of memory.
    pub fn new(alloc: Global) -> Result<ByAge, AllocError>
        ensures { IfOk result (λ b. b ≡ []) }
    {
        let numbers = all_nodes(alloc)?;
        Ok(ByAge { numbers, count: 0 })
    }

    /// A younger one joins, whose node is not among them yet.
    pub fn join(&mut self, who: &Incarnation)
        requires room { length self.old < 16 }
        requires other { has_node who.now.node self.old ≡ false }
        ensures { self.new ≡ self.old ++ who.now ∷ [] }
    {
        let from = place_of(&self.numbers, who.node);
        let to = self.count as usize;
        self.numbers.move_index(from, to);
        self.numbers[to] = who.number;
        self.count += 1;
    }

    /// This one leaves, where it is a member.
    pub fn leave(&mut self, who: &Incarnation)
        ensures { self.new ≡ without who.now self.old }
    {
        let from = place_of(&self.numbers, who.node);
        let count = self.count as usize;
        if from >= count || self.numbers[from] != who.number {
            return;
        }
        self.numbers.move_index(from, count - 1);
        self.count -= 1;
    }

    /// Whether a member is of this node.
    pub fn has_node(&self, node: NodeNo) -> bool
        ensures { result ≡ has_node node self.now }
    {
        place_of(&self.numbers, node) < self.count as usize
    }

    /// How many there are.
    pub fn len(&self) -> usize
        ensures len { result ≡ length self.now }
        ensures fits { length self.now < 17 }
    {
        self.count as usize
    }

    /// The members, oldest first.
    pub fn members(&self) -> Members
        ensures { result ≡ self.now }
    {
        let mut members = Members::empty();
        for place in 0..self.count as usize {
            members = members.with(member_at(&self.numbers, place));
        }
        members
    }
}

/// A map with an entry for each node. The only error is want of memory.
fn all_nodes(alloc: Global) -> Result<IndexMap<u8, u32>, AllocError>
    ensures { IfOk result (λ m. HasNodes 16 m.entries) }
{
    let mut numbers = IndexMap::with_capacity(alloc, 16)?;
    for node in 1..17u8 {
        numbers.insert(node, 0)?;
    }
    Ok(numbers)
}

/// Where the entry of a node is.
fn place_of(numbers: &IndexMap<u8, u32>, node: NodeNo) -> usize
    requires { HasNodes 16 numbers.now.entries }
    ensures place { (k : ℕ) × (slice_get numbers.now.entries result ≡ Some (node, k)) }
    ensures different { IsDistinct nat_eq (keys numbers.now) }
{
    let key = node.get();
    match numbers.get_index_of(&key) {
        Some(place) => place,
        None => unreachable!(),
    }
}

/// The incarnation at a place.
fn member_at(numbers: &IndexMap<u8, u32>, place: usize) -> Incarnation
    requires nodes { HasNodes 16 numbers.now.entries }
    requires within { place < length numbers.now.entries }
    ensures member { slice_get numbers.now.entries place ≡ Some (result.node, result.number) }
    ensures different { IsDistinct nat_eq (keys numbers.now) }
{
    // The map's length says that its keys are different.
    let _length = numbers.len();
    let Some((key, number)) = numbers.get_index(place) else {
        unreachable!()
    };
    let Some(node) = NodeNo::new(*key) else {
        unreachable!()
    };
    Incarnation {
        node,
        number: *number,
    }
}
