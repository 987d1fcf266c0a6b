//! What a node that comes up begins with. It is made by itself: who owns few values is checked soonest.
ghost use Rattle.std.specs.Prelude.{◌≡◌, true, IfOk, None, replicate};
ghost use Rattle.yard_model.specs.Entities.{new_entities};
ghost use Rattle.yard_model.specs.Region.{new_region};
ghost use Rattle.yard_model.specs.Script.{setting, is_version};
ghost use Rattle.producer_ctl.specs.Producing.{no_routing};

use crate::grounds::Grounds;
use producer_ctl::Producers;
use region_actor::Region;
use shard_entities::Entities;
use std::alloc::{AllocError, Global};
use yard_model::{Charter, Incarnation};

/// The actors that each node has, as it comes up.
#[derive(Drop)]
pub(crate) struct First {
    pub(crate) region: Region,
    pub(crate) entities: Entities,
    pub(crate) producers: Producers,
}

/// The actors of a node that comes up with a behaviour of this version. The only error is want of memory.
pub(crate) fn first_actors(
    alloc: Global,
    who: Incarnation,
    version: u8,
    charter: &Charter,
    grounds: &Grounds,
) -> Result<First, AllocError>
    requires grounds { grounds.now ≡ charter.now }
    requires version { is_version charter.now version ≡ true }
    ensures region { IfOk result (λ f. f.region ≡ record { script = charter.now; state = new_region (setting charter.now) who }) }
    ensures entities { IfOk result (λ f. f.entities ≡ record { script = charter.now; state = new_entities (setting charter.now) version who; rooms = replicate charter.now.config.shards 0 }) }
    ensures producers { IfOk result (λ f. f.producers ≡ record { script = charter.now; who = who; producers = replicate charter.now.config.producers None; rooms = replicate charter.now.config.producers 0; pending = no_routing }) }
{
    let region = Region::new(alloc, who, charter)?;
    let producers = Producers::new(alloc, region.who(), charter, grounds.names())?;
    let entities = Entities::new(alloc, region.who(), version, charter, grounds.places())?;
    Ok(First {
        region,
        entities,
        producers,
    })
}
