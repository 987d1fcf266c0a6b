//! What the nodes of a script have in common.
ghost use Rattle.std.specs.Prelude.{◌≡◌, IfOk};

use producer_ctl::Names;
use shard_entities::Places;
use std::alloc::{AllocError, Global};
use std::marker::Model;
use yard_model::Charter;

/// What all nodes of a script have at hand: where each of its names stands, and its shard. It is made
/// once for the script, and each node that comes up shares it. Seen as the script.
#[derive(Drop)]
pub struct Grounds {
    places: Places,
    names: Names,
}

impl Model for Grounds {
    ghost use Rattle.std.specs.Prelude.{◌≡◌};
    ghost use Rattle.yard_model.specs.Script.{Script};

    ghost Value = { Script };

    ghost view = { λ g. g.places };

    ghost invariant = { λ g. g.names ≡ g.places };
}

impl Grounds {
    /// What the nodes of this script have at hand. The only error is want of memory.
    pub fn new(alloc: Global, charter: &Charter) -> Result<Grounds, AllocError>
        ensures { IfOk result (λ g. g ≡ charter.now) }
    {
        let places = Places::new(alloc, charter)?;
        let names = Names::new(alloc, charter)?;
        Ok(Grounds { places, names })
    }

    /// Where each name stands among those of its shard.
    pub(crate) fn places(&self) -> &Places
        ensures { result.now ≡ self.now }
    {
        &self.places
    }

    /// The shard of each name.
    pub(crate) fn names(&self) -> &Names
        ensures { result.now ≡ self.now }
    {
        &self.names
    }
}
