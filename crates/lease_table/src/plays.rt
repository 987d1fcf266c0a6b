//! What each step tells. These types are for the proofs alone.
ghost use Rattle.std.specs.Prelude.{List, map};
ghost use Rattle.shard_store.specs.Stores.{entries_in};
ghost use Rattle.yard_model.specs.declared.fact.Fact.{Fact};
ghost use Rattle.lease_table.specs.Rule.{IsTable};
ghost use Rattle.lease_table.specs.Tells.{opening_view, Claimed, Published, Freed, Looked, Tied, dealt_left, dealt_right, noted, united, spent_view};

use crate::View;
use atomic_table::{Join, Play, Split, TableRule};
use shard_store::Store;
use std::marker::{Brand, PhantomData};
use std::snapshot::Snapshot;
use yard_model::Charter;

/// The rule of a table of leases.
pub struct Leased;

/// What a table is made for: its charter, and the stores as they were given.
#[derive(Drop)]
pub struct About {
    pub charter: Snapshot<Charter>,
    pub opening: Snapshot<Vec<Option<Store>>>,
}

impl TableRule<Option<Store>, View, About> for Leased {
    ghost holds = { λ a s. IsTable a.charter.value s };

    ghost first = { λ a. opening_view a.charter.value (map entries_in a.opening.value.items) };
}

/// A claim of a slot.
pub struct Claims;

impl Play<Option<Store>, View> for Claims {
    ghost then = { Claimed };
}

/// The list that a publish announces. Each call picks it.
pub trait Told {
    ghost use Rattle.std.specs.Prelude.{List};
    ghost use Rattle.yard_model.specs.declared.fact.Fact.{Fact};

    ghost list: { List Fact };
}

impl Told for Brand {
    ghost use Rattle.std.specs.Prelude.{[]};

    ghost list = { [] };
}

/// A list is published.
pub struct Publishes<B> {
    told: PhantomData<B>,
}

impl<B: Told> Play<Option<Store>, View> for Publishes<B> {
    ghost then = { Published B.list };
}

/// A slot is freed.
pub struct Frees;

impl Play<Option<Store>, View> for Frees {
    ghost then = { Freed };
}

/// A look at a head.
pub struct Looks;

impl Play<Option<Store>, View> for Looks {
    ghost then = { Looked };
}

/// What was seen of a slot becomes the longest of what was seen and of what was brought.
pub struct Ties;

impl Play<Option<Store>, View> for Ties {
    ghost then = { Tied };
}

/// A number moves to a new seat.
pub struct Deals;

impl Split<View> for Deals {
    ghost left = { dealt_left };

    ghost right = { dealt_right };
}

/// A note is made.
pub struct Notes;

impl Split<View> for Notes {
    ghost left = { λ v. v };

    ghost right = { noted };
}

/// Two seats become one.
pub struct Unites;

impl Join<View> for Unites {
    ghost both = { united };

    ghost spent = { spent_view };
}
