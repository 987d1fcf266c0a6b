//! The names of a shard.
ghost use Rattle.std.specs.Prelude.{◌≡◌, ◌<◌, length, true, slice_index_or, [], IfOk, filter, map, ◌==◌, ◌≤◌};
ghost use Rattle.std.specs.List.{list_any};
ghost use Rattle.std.specs.List.Sorted.{IsStrictlySortedBy};
ghost use Rattle.std.specs.Ordering.{nat_cmp};
ghost use Rattle.std.specs.Cmp.Lexicographic.{slice_cmp};
ghost use Rattle.yard_model.specs.Script.{is_name, setting};
ghost use Rattle.yard_model.specs.Setting.{names_of};
ghost use Rattle.yard_model.specs.Shard.{shard};

use crate::name_table::NameTable;
use std::alloc::{AllocError, Global};
use std::marker::Model;
use yard_model::{Charter, EntityName, ShardNo};

/// The names of a shard in order; seen as their list.
#[derive(Drop)]
pub(crate) struct Names {
    names: Vec<EntityName>,
}

impl Model for Names {
    ghost use Rattle.std.specs.Prelude.{List, ℕ};
    ghost use Rattle.std.specs.Ordering.{nat_cmp};
    ghost use Rattle.std.specs.Cmp.Lexicographic.{slice_cmp};
    ghost use Rattle.std.specs.List.Sorted.{IsStrictlySortedBy};

    ghost Value = { List (List ℕ) };

    ghost view = { λ n. n.names.items };

    ghost invariant = { λ n. IsStrictlySortedBy (slice_cmp nat_cmp) n.names.items };
}

impl Names {
    /// The charter's names of this shard, by their table. The only error is want of memory.
    pub(crate) fn of_shard(
        alloc: Global,
        charter: &Charter,
        table: &NameTable,
        s: ShardNo,
    ) -> Result<Names, AllocError>
        requires { table.now ≡ charter.now }
        ensures names { IfOk result (λ n. n ≡ names_of (setting charter.now) s) }
        ensures few { IfOk result (λ n. length n ≤ 1000) }
        ensures sorted { IfOk result (λ n. IsStrictlySortedBy (slice_cmp nat_cmp) n) }
    {
        let count = charter.config().shards;
        let names = picked(alloc, charter.names(), table.shards(), count, s)?;
        Ok(Names { names })
    }

    /// How many there are.
    pub(crate) fn len(&self) -> usize
        ensures { result ≡ length self.now }
    {
        self.names.len()
    }

    /// The names.
    pub(crate) fn as_slice(&self) -> &[EntityName]
        ensures { result.now ≡ self.now }
    {
        self.names.as_slice()
    }

    /// The place of a name among them.
    pub(crate) fn place(&self, name: &EntityName) -> usize
        requires { list_any (is_name name.now) self.now ≡ true }
        ensures within { result < length self.now }
        ensures it { slice_index_or self.now result [] ≡ name.now }
    {
        place_in(self.names.as_slice(), name)
    }
}

/// Those of these names that are of this shard, of so many; the shard of each stands at its place.
fn picked(
    alloc: Global,
    names: &[EntityName],
    shards: &[ShardNo],
    count: u8,
    s: ShardNo,
) -> Result<Vec<EntityName>, AllocError>
    requires { shards.now ≡ map (shard count) names.now }
    ensures { IfOk result (λ v. v.items ≡ filter (λ e. shard count e == s) names.now) }
{
    let _count = count;
    let mut picked = Vec::new(alloc);
    for at in 0..names.len() {
        if shards[at] == s {
            picked.push(names[at])?;
        }
    }
    Ok(picked)
}

/// The place of a name among names in order.
fn place_in(names: &[EntityName], name: &EntityName) -> usize
    requires sorted { IsStrictlySortedBy (slice_cmp nat_cmp) names.now }
    requires among { list_any (is_name name.now) names.now ≡ true }
    ensures within { result < length names.now }
    ensures it { slice_index_or names.now result [] ≡ name.now }
{
    match names.binary_search(name) {
        Ok(place) => place,
        Err(_) => unreachable!(),
    }
}
