//! What is told of each name of a charter at once.
ghost use Rattle.std.specs.Prelude.{◌≡◌, ◌≤◌, [], length, map, true, IfOk};
ghost use Rattle.std.specs.List.Sorted.{IsStrictlySortedBy};
ghost use Rattle.std.specs.Ordering.{nat_cmp};
ghost use Rattle.std.specs.Cmp.Lexicographic.{slice_cmp};
ghost use Rattle.yard_model.specs.Genuine.{is_brought};
ghost use Rattle.yard_model.specs.Script.{is_name, setting};
ghost use Rattle.yard_model.specs.Setting.{shard_of};
ghost use Rattle.yard_model.specs.Shard.{shard};
ghost use Rattle.shard_store.specs.Planned.{is_send_to, sent_to, AreCountedBut, AreFew, AreMore};

use crate::hints::Hints;
use name_index::NameIndex;
use shard_extract::shard_of;
use std::alloc::{AllocError, Global};
use std::marker::{Model, PhantomData};
use std::snapshot::Snapshot as Ghost;
use yard_model::{Charter, Command, EntityName, Order, ProducerNo, ShardNo};

/// Of each name of a charter its shard, and how many sends go to it; seen as the charter's script. Beside it
/// stands, of each send of each producer, where its name may stand, of which nothing is said.
#[derive(Drop)]
pub(crate) struct NameTable {
    script: Ghost<Charter>,
    names: NameIndex,
    shards: Vec<ShardNo>,
    counts: Vec<u32>,
    hints: Hints,
    holds: PhantomData<(Order, Command)>,
}

impl Model for NameTable {
    ghost use Rattle.yard_model.specs.Script.{Script};
    ghost use Rattle.shard_store.specs.Planned.{IsTable};

    ghost Value = { Script };

    ghost view = { λ s. s.script.value };

    ghost invariant = { λ s. IsTable s.script.value s.names s.shards.items s.counts.items };
}

impl NameTable {
    /// The table of a charter. The only error is want of memory.
    pub(crate) fn new(alloc: Global, charter: &Charter) -> Result<NameTable, AllocError>
        ensures { IfOk result (λ s. s ≡ charter.now) }
    {
        let names = NameIndex::new(charter)?;
        let shards = shards_of(alloc, names.as_slice(), charter.config().shards)?;
        let mut hints = Hints::new(alloc, charter, names.len())?;
        let counts = counts_of(alloc, charter, &names, &mut hints)?;
        Ok(NameTable {
            script: Ghost::of(charter),
            names,
            shards,
            counts,
            hints,
            holds: PhantomData,
        })
    }

    /// The shard of each name, in the order of the names.
    pub(crate) fn shards(&self) -> &[ShardNo]
        ensures { result.now ≡ map (shard_of (setting self.now)) (setting self.now).names }
    {
        self.shards.as_slice()
    }

    /// How many sends go to a name that the charter brings.
    pub(crate) fn sends_to(&self, name: &EntityName) -> u32
        requires { is_brought self.now name.now ≡ true }
        ensures { result ≡ sent_to name.now self.now.orders }
    {
        self.counts[self.names.place(name)]
    }

    /// Where the name of each send of a producer may stand, in the order of its sends.
    pub(crate) fn hints(&self, p: ProducerNo) -> &[u16] {
        self.hints.of_producer(p)
    }
}

/// The shard of each of these names, of so many. The only error is want of memory.
fn shards_of(alloc: Global, names: &[EntityName], count: u8) -> Result<Vec<ShardNo>, AllocError>
    requires some { 1 ≤ count }
    requires most { count ≤ 128 }
    ensures { IfOk result (λ v. v.items ≡ map (shard count) names.now) }
{
    let mut shards = Vec::with_capacity(alloc, names.len())?;
    for name in names {
        shards.push(shard_of(name, count))?;
    }
    Ok(shards)
}

/// How many sends of a charter go to each of these names; where the name of each stands is noted. The only
/// error is want of memory.
fn counts_of(
    alloc: Global,
    charter: &Charter,
    names: &NameIndex,
    hints: &mut Hints,
) -> Result<Vec<u32>, AllocError>
    requires { IsStrictlySortedBy (slice_cmp nat_cmp) names.now }
    ensures { IfOk result (λ counts. AreCountedBut charter.now names.now counts.items []) }
{
    let orders = charter.orders();
    let mut counts = vec![in alloc; 0u32; names.len()]?;
    for line in orders {
        count(&mut counts, names, &line.order, hints);
    }
    Ok(counts)
}

/// An order is counted, where it is a send to one of these names.
fn count(counts: &mut Vec<u32>, names: &NameIndex, order: &Order, hints: &mut Hints)
    requires sorted { IsStrictlySortedBy (slice_cmp nat_cmp) names.now }
    requires there { length counts.old.items ≡ length names.now }
    requires few { AreFew names.now (λ e. is_send_to e order.now) counts.old.items }
    ensures { AreMore names.now (λ e. is_send_to e order.now) counts.old.items counts.new.items }
{
    match order {
        Order::Send(p, name, _) => count_to(counts, names, name, *p, hints),
        _ => {}
    }
}

/// A send of this producer to this name is counted, where it is one of these.
fn count_to(
    counts: &mut Vec<u32>,
    names: &NameIndex,
    name: &EntityName,
    p: ProducerNo,
    hints: &mut Hints,
)
    requires sorted { IsStrictlySortedBy (slice_cmp nat_cmp) names.now }
    requires there { length counts.old.items ≡ length names.now }
    requires few { AreFew names.now (is_name name.now) counts.old.items }
    ensures { AreMore names.now (is_name name.now) counts.old.items counts.new.items }
{
    match names.find_near(name, hints.next()) {
        Some(place) => {
            hints.note(p, place);
            counts[place] += 1;
        }
        None => {}
    }
}
