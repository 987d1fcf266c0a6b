//! A pass: a seat at the table, with the slots that are out with it in their order.
ghost use Rattle.std.specs.Prelude.{◌≡◌, []};
ghost use Rattle.lease_table.specs.Leasing.{Spans};

use crate::View;
use atomic_table::Seat;
use shard_store::Store;
use std::marker::Model;
use std::snapshot::Snapshot;
use yard_model::Charter;

/// The right to act for nodes at a table, and what was seen there; it holds the slots that it leased.
#[derive(Drop)]
pub struct LeasePass {
    pub(crate) seat: Seat<Option<Store>, View>,
    pub(crate) order: Vec<usize>,
    pub(crate) charter: Snapshot<Charter>,
}

impl Model for LeasePass {
    ghost use Rattle.std.specs.Prelude.{vec_capacity};
    ghost use Rattle.lease_table.specs.Leasing.{Pass, pass, IsPass};

    ghost Value = { Pass };

    ghost view = { λ p. pass p.seat.table_id p.seat.me.0 };

    ghost invariant = { λ p. IsPass p.charter.value p.seat.me p.order.items (vec_capacity p.order) };
}

impl LeasePass {
    /// What is so of each pass: of each slot it has a list. It does nothing.
    pub fn stands(&self)
        ensures { Spans self.now.view }
    {
        let _ = &self.seat;
    }
}

/// What another may be shown: it has seen what a pass had, and has no number.
#[derive(Drop)]
pub struct Note {
    pub(crate) seat: Seat<Option<Store>, View>,
}

impl Model for Note {
    ghost use Rattle.std.specs.Prelude.{◌≡◌, false, []};
    ghost use Rattle.lease_table.specs.Leasing.{Pass, pass, IsNote};

    ghost Value = { Pass };

    ghost view = { λ p. pass p.seat.table_id p.seat.me.0 };

    ghost invariant = { λ p. IsNote p.seat.me };
}

impl Note {
    /// What is so of each note: it has no number. It does nothing.
    pub fn stands(&self)
        ensures { self.now.view.numbers ≡ [] }
    {
        let _ = &self.seat;
    }
}
