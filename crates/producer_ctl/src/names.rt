//! The names of a script, with their shards.
ghost use Rattle.std.specs.Prelude.{◌≡◌, ◌<◌, ◌≤◌, true, length, map, IfOk};
ghost use Rattle.std.specs.List.Sorted.{IsStrictlySortedBy};
ghost use Rattle.std.specs.Ordering.{nat_cmp};
ghost use Rattle.std.specs.Cmp.Lexicographic.{slice_cmp};
ghost use Rattle.yard_model.specs.Genuine.{is_brought};
ghost use Rattle.yard_model.specs.Script.{setting};
ghost use Rattle.yard_model.specs.Setting.{shard_of};
ghost use Rattle.yard_model.specs.Shard.{shard};
ghost use Rattle.producer_ctl.specs.Paired.{name_at};

use name_index::NameIndex;
use shard_extract::shard_of;
use std::alloc::{AllocError, Global};
use std::marker::Model;
use std::snapshot::Snapshot;
use std::sync::Arc;
use yard_model::{Charter, EntityName, ShardNo};

/// The names of a script, each at its place, with its shard at hand; seen as the script. What it keeps
/// is shared by all that `share` gives.
#[derive(Drop)]
pub struct Names {
    kept: Arc<Kept, Global>,
}

/// What all of them share.
#[derive(Drop)]
struct Kept {
    script: Snapshot<Charter>,
    index: NameIndex,
    shards: Vec<ShardNo>,
}

impl Model for Names {
    ghost use Rattle.std.specs.Arc.{arc_value};
    ghost use Rattle.yard_model.specs.Script.{Script};
    ghost use Rattle.producer_ctl.specs.Named.{AreKept};

    ghost Value = { Script };

    ghost view = { λ n. (arc_value n.kept).script.value };

    ghost invariant = { λ n. AreKept (arc_value n.kept) };
}

impl Names {
    /// The names of a charter. The only error is want of memory.
    pub fn new(alloc: Global, charter: &Charter) -> Result<Names, AllocError>
        ensures script { IfOk result (λ n. n ≡ charter.now) }
        ensures sorted { IfOk result (λ n. IsStrictlySortedBy (slice_cmp nat_cmp) (setting n).names) }
    {
        let index = NameIndex::new(charter)?;
        let shards = shards_of(alloc, index.as_slice(), charter.config().shards)?;
        let kept = Kept {
            script: Snapshot::of(charter),
            index,
            shards,
        };
        match Arc::new(alloc, kept) {
            Ok(kept) => Ok(Names { kept }),
            Err(_) => Err(AllocError),
        }
    }

    /// The same names, of which no copy is made. The only error is that there are too many to count that
    /// share them.
    pub fn share(&self) -> Result<Names, AllocError>
        ensures script { IfOk result (λ n. n ≡ self.now) }
        ensures sorted { IfOk result (λ n. IsStrictlySortedBy (slice_cmp nat_cmp) (setting n).names) }
    {
        let kept = Arc::try_clone(&self.kept)?;
        Ok(Names { kept })
    }

    /// How many there are.
    pub(crate) fn len(&self) -> usize
        ensures { result ≡ length (setting self.now).names }
    {
        self.kept.index.len()
    }

    /// The place of a name of the script.
    pub(crate) fn place(&self, entity: &EntityName) -> usize
        requires { is_brought self.now entity.now ≡ true }
        ensures within { result < length (setting self.now).names }
        ensures it { name_at (setting self.now).names result ≡ entity.now }
    {
        self.kept.index.place(entity)
    }

    /// The place of a name of the script, which may stand at `hint`.
    #[inline(always)]
    pub(crate) fn place_near(&self, entity: &EntityName, hint: usize) -> usize
        requires { is_brought self.now entity.now ≡ true }
        ensures within { result < length (setting self.now).names }
        ensures it { name_at (setting self.now).names result ≡ entity.now }
    {
        self.kept.index.place_near(entity, hint)
    }

    /// The name at a place.
    pub(crate) fn name(&self, at: usize) -> &EntityName
        requires { at < length (setting self.now).names }
        ensures { result.now ≡ name_at (setting self.now).names at }
    {
        &self.kept.index.as_slice()[at]
    }

    /// The shard of the name at a place.
    pub(crate) fn shard(&self, at: usize) -> ShardNo
        requires { at < length (setting self.now).names }
        ensures shard { result ≡ shard_of (setting self.now) (name_at (setting self.now).names at) }
        ensures range { result < self.now.config.shards }
    {
        let kept = &*self.kept;
        kept.shards[at]
    }
}

/// The shard of each name.
fn shards_of(alloc: Global, names: &[EntityName], shards: u8) -> Result<Vec<ShardNo>, AllocError>
    requires some { 1 ≤ shards }
    requires most { shards ≤ 128 }
    ensures { IfOk result (λ v. v.items ≡ map (shard shards) names.now) }
{
    let mut all = Vec::with_capacity(alloc, names.len())?;
    for name in names {
        all.push(shard_of(name, shards))?;
    }
    Ok(all)
}
