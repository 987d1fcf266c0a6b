//! The table.
ghost use Rattle.std.specs.Prelude.{◌≡◌, ◌+◌, ◌<◌, ◌≤◌, vec_capacity, vec_len};
ghost use Rattle.yard_model.specs.Script.{IsScript};
ghost use Rattle.lease_table.specs.Fits.{slot_count};
ghost use Rattle.lease_table.specs.Rule.{head_at};

use crate::View;
use crate::plays::{About, Leased};
use atomic_table::Table;
use shard_store::Store;
use std::alloc::Global;
use std::snapshot::Snapshot;
use yard_model::Charter;

/// The stores of all slots, each at home or leased to a pass.
#[derive(Drop)]
pub struct LeaseTable {
    pub(crate) table: Table<Option<Store>, View, About, Leased, Global>,
    pub(crate) charter: Snapshot<Charter>,
    pub(crate) shards: u8,
    pub(crate) slots: usize,
    pub(crate) spare: Vec<Option<Store>>,
    pub ghost script: { IsScript charter.value },
    pub ghost sized: { (table.shared.table_id.words ≡ head_at (slot_count charter.value) (slot_count charter.value)) × (table.shared.table_id.slots ≡ slot_count charter.value) × (table.shared.key.charter.value ≡ charter.value) × (vec_len spare ≡ 0) × (slot_count charter.value ≤ vec_capacity spare) × (0 < slot_count charter.value) × (slots ≡ slot_count charter.value) × (shards ≡ charter.value.config.shards) },
}
