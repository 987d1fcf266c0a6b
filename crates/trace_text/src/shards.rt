//! The names of each shard.
ghost use Rattle.std.specs.Prelude.{◌≡◌, ◌==◌, ℕ, ◌++◌, ◌∷◌, ◌<◌, ◌≤◌, [], List, IfOk, OnOk, filter, length, map, slice_index_or, slice_set, replicate};
ghost use Rattle.std.specs.List.Sorted.{IsStrictlySortedBy};
ghost use Rattle.std.specs.Ordering.{nat_cmp};
ghost use Rattle.std.specs.Cmp.Lexicographic.{slice_cmp};
ghost use Rattle.yard_model.specs.Script.{setting};
ghost use Rattle.yard_model.specs.Setting.{names_of};
ghost use Rattle.yard_model.specs.Shard.{shard};

use shard_extract::shard_of;
use std::alloc::{AllocError, Global};
use yard_model::{Charter, EntityName};

/// Of each shard the names that are its own, in order. The only error is want of memory.
pub fn names_by_shard(alloc: Global, charter: &Charter) -> Result<Vec<Vec<EntityName>>, AllocError>
    ensures names { IfOk result (λ all. (s : ℕ) → s < charter.now.config.shards → slice_index_or (map (λ v. v.items) all.items) s [] ≡ names_of (setting charter.now) s) }
    ensures sorted { IfOk result (λ all. (s : ℕ) → s < charter.now.config.shards → IsStrictlySortedBy (slice_cmp nat_cmp) (slice_index_or (map (λ v. v.items) all.items) s [])) }
    ensures length { IfOk result (λ all. length all.items ≡ charter.now.config.shards) }
{
    let shards = charter.config().shards;
    parted(alloc, charter.names(), shards)
}

/// Of each of so many shards those of these names that are its own.
fn parted(
    alloc: Global,
    names: &[EntityName],
    shards: u8,
) -> Result<Vec<Vec<EntityName>>, AllocError>
    requires some { 1 ≤ shards }
    requires most { shards ≤ 128 }
    ensures names { IfOk result (λ all. (s : ℕ) → s < shards → slice_index_or (map (λ v. v.items) all.items) s [] ≡ filter (λ e. shard shards e == s) names.now) }
    ensures length { IfOk result (λ all. length all.items ≡ shards) }
{
    let mut all = no_names(alloc, shards)?;
    for name in names {
        add_name(&mut all, name, shards)?;
    }
    Ok(all)
}

/// One name more, among those of its shard.
fn add_name(all: &mut Vec<Vec<EntityName>>, name: &EntityName, shards: u8) -> Result<(), AllocError>
    requires some { 1 ≤ shards }
    requires most { shards ≤ 128 }
    requires length { length all.old.items ≡ shards }
    ensures length { OnOk result (length all.new.items ≡ shards) }
    ensures names { OnOk result (map (λ v. v.items) all.new.items ≡ slice_set (map (λ v. v.items) all.old.items) (shard shards name.now) (slice_index_or (map (λ v. v.items) all.old.items) (shard shards name.now) [] ++ name.now ∷ [])) }
    ensures within { shard shards name.now < shards }
{
    let place = shard_of(name, shards).get() as usize;
    all[place].push(*name)?;
    Ok(())
}

/// Of so many shards no names.
fn no_names(alloc: Global, shards: u8) -> Result<Vec<Vec<EntityName>>, AllocError>
    ensures { IfOk result (λ all. map (λ v. v.items) all.items ≡ replicate shards []) }
{
    let mut all = Vec::with_capacity(alloc, shards as usize)?;
    for _ in 0..shards {
        all.push(Vec::new(alloc))?;
    }
    Ok(all)
}
