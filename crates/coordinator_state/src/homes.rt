//! Which regions are registered, with the shards of each, and the home of each shard.
ghost use Rattle.std.specs.Prelude.{◌≡◌, ℕ, ◌<◌, false, true, [], ◌∷◌, ◌++◌, length, map, replicate, None, IfOk, IfSome, slice_set};
ghost use Rattle.std.specs.List.{All, AllPairs};
ghost use Rattle.std.specs.Option.{ForSome};
ghost use Rattle.yard_model.specs.Words.{is_among, without, at};
ghost use Rattle.coordinator_state.specs.Coord.{AreApart};
ghost use Rattle.coordinator_state.specs.Homes.{regions_of, home_without, HasHomes};

use crate::moved::{clear_homes, has_region, loads_after, loads_cleared, loads_without};
use std::alloc::{AllocError, Global};
use std::marker::Model;
use yard_model::{Incarnation, Load, Loads, ShardNo, ShardSet};

/// How many shards there can be.
const SHARDS: usize = 128;

/// The registered regions in order of registration, each with its shards, and beside them the
/// home of each shard that there can be. All memory is taken when it is made.
#[derive(Drop)]
pub(crate) struct Homes {
    homes: Vec<Option<Incarnation>>,
    // on the heap, so that a store is moved without them
    loads: Box<Loads, Global>,
}

impl Model for Homes {
    ghost use Rattle.coordinator_state.specs.Homes.{Placed, regions_of, AreHomes};

    ghost Value = { Placed };

    ghost view = { λ h. record { regions = regions_of h.loads.value; homes = h.homes.items } };

    ghost invariant = { λ h. AreHomes h.homes.items h.loads.value };
}

impl Homes {
    /// No regions and no homes. The only error is want of memory.
    pub(crate) fn new(alloc: Global) -> Result<Homes, AllocError>
        ensures regions { IfOk result (λ h. h.regions ≡ []) }
        ensures homes { IfOk result (λ h. h.homes ≡ replicate 128 None) }
    {
        let homes = vec![in alloc; None; SHARDS]?;
        let loads = boxed(alloc, Loads::empty())?;
        Ok(Homes { homes, loads })
    }

    /// A new region, with no shards.
    pub(crate) fn register(&mut self, r: Incarnation)
        requires fresh { is_among r self.old.regions ≡ false }
        requires room { length self.old.regions < 16 }
        ensures regions { self.new.regions ≡ self.old.regions ++ r ∷ [] }
        ensures homes { self.new.homes ≡ self.old.homes }
    {
        self.loads.push(Load {
            region: r,
            shards: ShardSet::empty(),
        });
    }

    /// A region is lost, and with it the homes there.
    pub(crate) fn terminate(&mut self, r: &Incarnation)
        ensures regions { self.new.regions ≡ without r.now self.old.regions }
        ensures homes { self.new.homes ≡ map (home_without r.now) self.old.homes }
    {
        *self.loads = loads_without(&self.loads, r);
        clear_homes(self.homes.as_mut_slice(), r);
    }

    /// The home of `s` becomes `home`, which is registered if there is one.
    pub(crate) fn place(&mut self, s: ShardNo, home: Option<Incarnation>)
        requires { ForSome home (λ r. is_among r self.old.regions ≡ true) }
        ensures regions { self.new.regions ≡ self.old.regions }
        ensures homes { self.new.homes ≡ slice_set self.old.homes s home }
        ensures within { s < length self.old.homes }
    {
        let place = s.get() as usize;
        *self.loads = loads_after(&self.loads, s, &home);
        self.homes[place] = home;
    }

    /// The same regions, and no homes. The only error is want of memory.
    pub(crate) fn cleared(&self, alloc: Global) -> Result<Homes, AllocError>
        ensures regions { IfOk result (λ h. h.regions ≡ self.now.regions) }
        ensures homes { IfOk result (λ h. h.homes ≡ replicate 128 None) }
    {
        let homes = vec![in alloc; None; SHARDS]?;
        let loads = boxed(alloc, loads_cleared(&self.loads))?;
        Ok(Homes { homes, loads })
    }

    pub(crate) fn home(&self, s: ShardNo) -> Option<Incarnation>
        ensures value { result ≡ at self.now.homes s }
        ensures registered { IfSome result (λ r. is_among r self.now.regions ≡ true) }
    {
        self.homes[s.get() as usize]
    }

    pub(crate) fn has(&self, r: &Incarnation) -> bool
        ensures { result ≡ is_among r.now self.now.regions }
    {
        has_region(&self.loads, r)
    }

    pub(crate) fn loads(&self) -> &Loads
        ensures regions { regions_of result.now ≡ self.now.regions }
        ensures each { All (HasHomes self.now.homes) result.now }
        ensures apart { AllPairs AreApart result.now }
    {
        &self.loads
    }
}

/// These loads on the heap. The only error is want of memory.
fn boxed(alloc: Global, loads: Loads) -> Result<Box<Loads, Global>, AllocError>
    ensures { IfOk result (λ b. b.value ≡ loads) }
{
    match Box::new(alloc, loads) {
        Ok(kept) => Ok(kept),
        Err(_) => Err(AllocError),
    }
}
