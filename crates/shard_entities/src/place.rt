//! Where a name of a script stands.
ghost use Rattle.std.specs.Prelude.{◌≡◌};

use yard_model::{EntityName, ShardNo};

/// Where a name of a script stands: found once a turn (`Entities::place`), and handed to every call
/// that is about its entity.
#[derive(Clone, Copy)]
pub struct Place {
    /// The name.
    pub entity: EntityName,
    /// Its shard.
    pub shard: ShardNo,
    /// Its place among all names, from 0.
    pub(crate) at: usize,
    /// Its place among the names of its shard, from 0.
    pub(crate) inner: usize,
}

impl Place {
    /// Its shard.
    #[inline(always)]
    pub fn shard(&self) -> ShardNo
        ensures { result ≡ self.now.shard }
    {
        self.shard
    }
}
